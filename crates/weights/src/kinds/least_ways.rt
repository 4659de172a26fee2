//! The kind LeastWays, number 3, and its map to Least.
ghost use Rattle.std.specs.Prelude.{◌≡◌};
ghost use Rattle.weights.specs.LeastWays.{least_ways_of, least_ways_kind, least_ways_report, without_ways};
ghost use Rattle.weights.specs.LeastWaysLaws.{least_ways_laws, least_ways_retold};
ghost use Rattle.weights.specs.LeastWaysLaws;

use crate::{CarriedTo, Least, LeastWays, Reported, Told, Weight};
use events::Event;
use std::cmp::Ordering;

impl LeastWays {
    /// The value of this weight with so many ways: zero if the weight is T or there are none.
    #[tactic(auto, using(crate::specs::LeastWaysParts::same, crate::specs::LeastWaysParts::parts))]
    pub fn new(weight: u32, ways: u32) -> LeastWays
        ensures { result ≡ least_ways_of weight ways }
    {
        if weight == u32::MAX || ways == 0 {
            return LeastWays {
                weight: u32::MAX,
                ways: 0,
            };
        }
        LeastWays { weight, ways }
    }
}

impl Weight for LeastWays {
    ghost kind = { least_ways_kind };

    ghost lawful = { least_ways_laws };

    fn zero() -> LeastWays {
        LeastWays::new(u32::MAX, 0)
    }

    fn one() -> LeastWays {
        LeastWays::new(0, 1)
    }

    fn join(self, other: LeastWays) -> LeastWays {
        match self.weight.cmp(&other.weight) {
            Ordering::Less => self,
            Ordering::Greater => other,
            Ordering::Equal => LeastWays::new(self.weight, self.ways.saturating_add(other.ways)),
        }
    }

    fn chain(self, other: LeastWays) -> LeastWays {
        LeastWays::new(
            self.weight.saturating_add(other.weight),
            self.ways.saturating_mul(other.ways),
        )
    }

    fn weigh(event: Event) -> LeastWays {
        LeastWays::new(event.load, 1)
    }
}

impl Reported for LeastWays {
    ghost report = { least_ways_report };

    ghost retold = { least_ways_retold };

    fn number() -> u8 {
        3
    }

    fn tells(self) -> Told {
        Told {
            first: self.weight,
            second: self.ways,
        }
    }

    #[tactic(auto, using(crate::specs::LeastWaysLaws::least_ways_retold))]
    fn from_told(told: Told) -> LeastWays {
        LeastWays::new(told.first, told.second)
    }
}

/// Forgets the ways.
impl From<LeastWays> for Least {
    ghost from_gives = { λ value least. least ≡ without_ways value };

    fn from(value: LeastWays) -> Least {
        Least::new(value.weight)
    }
}

impl CarriedTo<Least> for LeastWays {
    ghost map = { without_ways };

    ghost carries = { LeastWaysLaws.carries };

    fn carried(self) -> Least {
        Least::from(self)
    }
}
