//! The kind Count, number 1.
ghost use Rattle.std.specs.Prelude.{◌≡◌};
ghost use Rattle.weights.specs.Count.{count_of, count_kind, count_report};
ghost use Rattle.weights.specs.CountLaws.{count_laws, count_retold};

use crate::{Count, Reported, Told, Weight};
use events::Event;

impl Count {
    #[tactic(auto, using(crate::specs::CountLaws::same), unfolding(crate::specs::Count::count_of))]
    pub fn new(number: u32) -> Count
        ensures { result ≡ count_of number }
    {
        Count { number }
    }
}

impl Weight for Count {
    ghost kind = { count_kind };

    ghost lawful = { count_laws };

    fn zero() -> Count {
        Count::new(0)
    }

    fn one() -> Count {
        Count::new(1)
    }

    fn join(self, other: Count) -> Count {
        Count::new(self.number.saturating_add(other.number))
    }

    fn chain(self, other: Count) -> Count {
        Count::new(self.number.saturating_mul(other.number))
    }

    fn weigh(_event: Event) -> Count {
        Count::one()
    }
}

impl Reported for Count {
    ghost report = { count_report };

    ghost retold = { count_retold };

    fn number() -> u8 {
        1
    }

    fn tells(self) -> Told {
        Told {
            first: self.number,
            second: 0,
        }
    }

    #[tactic(auto, using(crate::specs::CountLaws::count_retold))]
    fn from_told(told: Told) -> Count {
        Count::new(told.first)
    }
}
