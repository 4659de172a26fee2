//! The kind Least, number 2.
ghost use Rattle.std.specs.Prelude.{◌≡◌};
ghost use Rattle.weights.specs.Least.{least_of, least_kind, least_report};
ghost use Rattle.weights.specs.LeastLaws.{least_laws, least_retold};

use crate::{Least, Reported, Told, Weight};
use events::Event;

impl Least {
    #[tactic(auto, using(crate::specs::LeastLaws::same), unfolding(crate::specs::Least::least_of))]
    pub fn new(weight: u32) -> Least
        ensures { result ≡ least_of weight }
    {
        Least { weight }
    }
}

impl Weight for Least {
    ghost kind = { least_kind };

    ghost lawful = { least_laws };

    fn zero() -> Least {
        Least::new(u32::MAX)
    }

    fn one() -> Least {
        Least::new(0)
    }

    fn join(self, other: Least) -> Least {
        Least::new(self.weight.min(other.weight))
    }

    fn chain(self, other: Least) -> Least {
        Least::new(self.weight.saturating_add(other.weight))
    }

    fn weigh(event: Event) -> Least {
        Least::new(event.load)
    }
}

impl Reported for Least {
    ghost report = { least_report };

    ghost retold = { least_retold };

    fn number() -> u8 {
        2
    }

    fn tells(self) -> Told {
        Told {
            first: self.weight,
            second: 0,
        }
    }

    #[tactic(auto, using(crate::specs::LeastLaws::least_retold))]
    fn from_told(told: Told) -> Least {
        Least::new(told.first)
    }
}
