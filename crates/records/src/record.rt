//! The five records, with their numbers by name.
ghost use Rattle.std.specs.Prelude.{◌≡◌, Some, codes};
ghost use Rattle.records.specs.Formats.{kind_number, kind_name, rule_number, OfNumber};

use events::Event;
use std::error::Error;
use std::fmt;

/// A weight kind, by its name.
#[derive(Clone, Copy, Debug, PartialEq, Eq)]
pub enum KindNumber {
    Count = 1,
    Least,
    LeastWays,
    Most,
}

/// A number that no weight kind has.
#[derive(Clone, Copy, Debug, PartialEq, Eq)]
pub struct UnknownKind;

/// The kind's number, 1 to 4.
impl From<KindNumber> for u8 {
    ghost from_gives = { λ kind number. number ≡ kind_number kind };

    fn from(kind: KindNumber) -> u8 {
        kind as u8
    }
}

/// The kind with this number, if one has it.
impl TryFrom<u8> for KindNumber {
    type Error = UnknownKind;

    ghost try_from_gives = { OfNumber };

    fn try_from(number: u8) -> Result<KindNumber, UnknownKind> {
        match number {
            1 => Ok(KindNumber::Count),
            2 => Ok(KindNumber::Least),
            3 => Ok(KindNumber::LeastWays),
            4 => Ok(KindNumber::Most),
            _ => Err(UnknownKind),
        }
    }
}

impl fmt::Display for KindNumber {
    ghost output = { λ kind. Some (kind_name kind) };

    fn fmt<W: fmt::Write>(&self, f: &mut fmt::Formatter<W>) -> fmt::Result {
        f.write_str(match self {
            KindNumber::Count => "count",
            KindNumber::Least => "least",
            KindNumber::LeastWays => "leastways",
            KindNumber::Most => "most",
        })
    }
}

impl fmt::Display for UnknownKind {
    ghost output = { λ _. Some (codes "no weight kind has this number") };

    fn fmt<W: fmt::Write>(&self, f: &mut fmt::Formatter<W>) -> fmt::Result {
        f.write_str("no weight kind has this number")
    }
}

impl Error for UnknownKind {}

/// A follow rule with its settings.
// Both by name: an `Option` of a gap would not say which rule it is.
#[derive(Clone, Copy, Debug, PartialEq, Eq)]
pub enum RuleSetting {
    Falling,
    Near { gap: u32 },
}

/// The rule's number, 1 or 2.
impl From<RuleSetting> for u8 {
    ghost from_gives = { λ rule number. number ≡ rule_number rule };

    fn from(rule: RuleSetting) -> u8 {
        match rule {
            RuleSetting::Falling => 1,
            RuleSetting::Near { gap: _ } => 2,
        }
    }
}

/// HD: what stands once, before all other records.
#[derive(Clone, Copy, Debug, PartialEq, Eq)]
pub struct Header<'a> {
    pub origin: u32,
    pub slide: u32,
    pub n: u8,
    pub kind: KindNumber,
    pub rule: RuleSetting,
    /// The pattern's text: once read, a stretch of the input itself.
    pub text: &'a [u8],
}

/// TK: the clock.
#[derive(Clone, Copy, Debug, PartialEq, Eq)]
pub struct Tick {
    pub time: u32,
}

/// RS: what a kind tells of a window and a lift.
#[derive(Clone, Copy, Debug, PartialEq, Eq)]
pub struct ResultRecord {
    /// The number of the weight kind, whatever it is.
    pub kind: u8,
    pub window: u32,
    pub lift: u16,
    pub first: u32,
    pub second: u32,
}

/// FT: a refusal's number and the place of the refused record.
#[derive(Clone, Copy, Debug, PartialEq, Eq)]
pub struct FaultRecord {
    /// The refusal's number, whatever it is.
    pub number: u8,
    pub place: u32,
}

/// A record that may stand after the header.
#[derive(Clone, Copy, Debug, PartialEq, Eq)]
pub enum Input {
    /// EV: an event, with the code of its type, whatever it is.
    Event(Event),
    Tick(Tick),
}

/// A record that may stand among results.
#[derive(Clone, Copy, Debug, PartialEq, Eq)]
pub enum Output {
    Result(ResultRecord),
    Fault(FaultRecord),
}
