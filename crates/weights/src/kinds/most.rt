//! The kind Most, number 4.
ghost use Rattle.std.specs.Prelude.{◌≡◌};
ghost use Rattle.weights.specs.Most.{most_of, most_kind, most_report};
ghost use Rattle.weights.specs.MostLaws.{most_laws, most_retold};

use crate::{Most, Reported, Told, Weight};
use events::Event;

impl Most {
    #[tactic(auto, using(crate::specs::MostLaws::same, crate::specs::MostLaws::of_weight))]
    pub fn new(weight: Option<u32>) -> Most
        ensures { result ≡ most_of weight }
    {
        Most { weight }
    }
}

impl Weight for Most {
    ghost kind = { most_kind };

    ghost lawful = { most_laws };

    fn zero() -> Most {
        Most::new(None)
    }

    fn one() -> Most {
        Most::new(Some(0))
    }

    fn join(self, other: Most) -> Most {
        // `None` is the least of an `Option`.
        Most::new(self.weight.max(other.weight))
    }

    fn chain(self, other: Most) -> Most {
        let both = self.weight.zip(other.weight);
        Most::new(both.map(|(v, w)| v.saturating_add(w)))
    }

    fn weigh(event: Event) -> Most {
        Most::new(Some(event.load))
    }
}

impl Reported for Most {
    ghost report = { most_report };

    ghost retold = { most_retold };

    fn number() -> u8 {
        4
    }

    fn tells(self) -> Told {
        match self.weight {
            Some(weight) => Told {
                first: weight,
                second: 1,
            },
            None => Told {
                first: 0,
                second: 0,
            },
        }
    }

    fn from_told(told: Told) -> Most {
        Most::new((told.second != 0).then_some(told.first))
    }
}
