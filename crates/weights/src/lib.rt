//! Weight kinds: what is added up over trends. A kind has values, a join over trends, a chain along
//! the events of a trend, and a weight for each event. The four at hand are `Count`, `Least`,
//! `LeastWays` and `Most`.
#![tactic(auto)]

ghost use Rattle.std.specs.Prelude.{◌≡◌};
ghost use Rattle.weights.specs.Kinds.{Kind, Laws};
ghost use Rattle.weights.specs.Maps.{Carries};
ghost use Rattle.weights.specs.Reports.{Report, Retold};

use events::Event;

pub mod kinds;
pub mod values;

pub use values::{Count, Least, LeastWays, Most};

/// A weight kind.
pub trait Weight: Copy {
    // The defined value of each operation.
    ghost kind: { Kind Self };

    /// The join of no values.
    fn zero() -> Self
        ensures { result ≡ kind.zero };

    /// The chain of no values.
    fn one() -> Self
        ensures { result ≡ kind.one };

    /// What two groups of trends come to together.
    fn join(self, other: Self) -> Self
        ensures { result ≡ kind.join self other };

    /// What two stretches of a trend come to, one after the other.
    fn chain(self, other: Self) -> Self
        ensures { result ≡ kind.chain self other };

    /// What an event weighs.
    fn weigh(event: Event) -> Self
        ensures { result ≡ kind.weigh event };

    // Join and chain keep the laws of a semiring.
    ghost lawful: { Laws kind };
}

/// The two numbers that a value tells in a report.
// Any kind's value has to fit this: the report's format is two numbers.
#[derive(Clone, Copy, Debug, PartialEq, Eq)]
pub struct Told {
    pub first: u32,
    pub second: u32,
}

/// A kind whose values can be told in a report.
// `From` both ways is no plainer: three impls a kind in place of one, and laws to tie each to the report.
pub trait Reported: Weight {
    // The kind's number, what a value tells, and what is read from what is told.
    ghost report: { Report Self };

    /// The number that stands for the kind.
    // A number and not an enum, which would close the kinds: anyone may add one.
    fn number() -> u8
        ensures { result ≡ report.number };

    /// What the value tells.
    fn tells(self) -> Told
        ensures { result ≡ report.tells self };

    /// The value had back from what it tells.
    fn from_told(told: Told) -> Self
        ensures reads { result ≡ report.reads told }
        ensures back { (value : Self) → told ≡ report.tells value → result ≡ value };

    ghost retold: { Retold report };
}

/// A kind whose values a lawful map carries to those of another.
// A trait of its own and no bound `From`, by which a kind could be carried to itself in one way alone.
pub trait CarriedTo<W: Weight>: Weight {
    // The value of the other kind that a value is carried to.
    ghost map: { Self → W };

    /// The value's image under the map.
    fn carried(self) -> W
        ensures { result ≡ map self };

    ghost carries: { Carries Self.Weight.kind W.Weight.kind map };
}

/// The value read as one of another kind, by a lawful map.
pub fn read_as<V: CarriedTo<W>, W: Weight>(value: V) -> W
    ensures image { result ≡ V.CarriedTo.map value }
    ensures lawful { Carries V.Weight.kind W.Weight.kind V.CarriedTo.map }
{
    value.carried()
}
