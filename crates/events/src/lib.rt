//! The events that a lift's unit logs, and their ten types: codes and names.
#![tactic(auto)]

pub mod event;

ghost use Rattle.std.specs.Prelude.{◌≡◌, ◌<◌, Some, codes};
ghost use Rattle.events.specs.Types.{code_of, name_of, OfCode, OfName};

pub use event::Event;
use std::error::Error;
use std::fmt;

#[derive(Clone, Copy, Debug, PartialEq, Eq)]
pub enum EventType {
    Test,
    Miss,
    Drop,
    Back,
    Batt,
    Mains,
    Call,
    Talk,
    Done,
    Visit,
}

/// A code or a name that no type has.
#[derive(Clone, Copy, Debug, PartialEq, Eq)]
pub struct UnknownType;

impl EventType {
    /// Every type.
    pub const ALL: [EventType; 10] = [
        EventType::Test,
        EventType::Miss,
        EventType::Drop,
        EventType::Back,
        EventType::Batt,
        EventType::Mains,
        EventType::Call,
        EventType::Talk,
        EventType::Done,
        EventType::Visit,
    ];

    /// The type's name in a pattern text.
    pub fn name(self) -> &'static str
        ensures { result.now ≡ name_of self }
    {
        match self {
            EventType::Test => "TEST",
            EventType::Miss => "MISS",
            EventType::Drop => "DROP",
            EventType::Back => "BACK",
            EventType::Batt => "BATT",
            EventType::Mains => "MAINS",
            EventType::Call => "CALL",
            EventType::Talk => "TALK",
            EventType::Done => "DONE",
            EventType::Visit => "VISIT",
        }
    }
}

/// The number that stands for the type in a record.
impl From<EventType> for u8 {
    ghost from_gives = { λ kind code. (code ≡ code_of kind) × (code < 10) };

    fn from(kind: EventType) -> u8 {
        kind as u8
    }
}

/// The type with this code, if one has it.
impl TryFrom<u8> for EventType {
    type Error = UnknownType;

    ghost try_from_gives = { OfCode };

    fn try_from(code: u8) -> Result<EventType, UnknownType> {
        match code {
            0 => Ok(EventType::Test),
            1 => Ok(EventType::Miss),
            2 => Ok(EventType::Drop),
            3 => Ok(EventType::Back),
            4 => Ok(EventType::Batt),
            5 => Ok(EventType::Mains),
            6 => Ok(EventType::Call),
            7 => Ok(EventType::Talk),
            8 => Ok(EventType::Done),
            9 => Ok(EventType::Visit),
            _ => Err(UnknownType),
        }
    }
}

/// The type with this name, if one has it.
impl TryFrom<&[u8]> for EventType {
    type Error = UnknownType;

    ghost try_from_gives = { λ name found. OfName name.now found };

    fn try_from(name: &[u8]) -> Result<EventType, UnknownType> {
        // A loop, since the proof over `find` did not close.
        for kind in EventType::ALL {
            if kind.name().as_bytes() == name {
                return Ok(kind);
            }
        }
        Err(UnknownType)
    }
}

// By hand here and in the crates above, since `thiserror` promises nothing of what is printed.
impl fmt::Display for EventType {
    ghost output = { λ kind. Some (name_of kind) };

    fn fmt<W: fmt::Write>(&self, f: &mut fmt::Formatter<W>) -> fmt::Result {
        f.write_str(self.name())
    }
}

impl fmt::Display for UnknownType {
    ghost output = { λ _. Some (codes "no event type has this code or name") };

    fn fmt<W: fmt::Write>(&self, f: &mut fmt::Formatter<W>) -> fmt::Result {
        f.write_str("no event type has this code or name")
    }
}

impl Error for UnknownType {}
