//! Why a call is refused.
ghost use Rattle.std.specs.Prelude.{◌≡◌, Some};
ghost use Rattle.semantics.specs.Refusals.{number_of, text_of, taken_number};

use std::error::Error;
use std::fmt;

/// The first question that a call fails.
#[derive(Clone, Copy, Debug, PartialEq, Eq)]
pub enum CallRefusal {
    /// The memory has not exactly capacity places and eight slots a place.
    Memory = 21,
    /// The type's code is above 9.
    Type,
    /// The load is the largest number.
    Load,
    /// The time is before the clock.
    Clock,
    /// The time is not before the end of the first open window.
    Late,
    /// As many events are kept as the capacity.
    Full,
    /// The window is not open.
    Window,
    /// The clock has not reached the end of the first open window.
    Early,
    /// The given bytes do not hold all records.
    Room,
}

/// The refusal's number, 21 to 29.
impl From<CallRefusal> for u8 {
    ghost from_gives = { λ refusal number. number ≡ number_of refusal };

    fn from(refusal: CallRefusal) -> u8 {
        refusal as u8
    }
}

impl fmt::Display for CallRefusal {
    ghost output = { λ refusal. Some (text_of refusal) };

    fn fmt<W: fmt::Write>(&self, f: &mut fmt::Formatter<W>) -> fmt::Result {
        f.write_str(match self {
            CallRefusal::Memory => "the memory does not fit the capacity",
            CallRefusal::Type => "no event type has this code",
            CallRefusal::Load => "the load is the largest number",
            CallRefusal::Clock => "the time is before the clock",
            CallRefusal::Late => "the first open window has ended by this time",
            CallRefusal::Full => "as many events are kept as the capacity",
            CallRefusal::Window => "the window is not open",
            CallRefusal::Early => "the first open window has not ended",
            CallRefusal::Room => "the bytes do not hold all records",
        })
    }
}

impl Error for CallRefusal {}

/// What a take did with an event that it accepted.
#[derive(Clone, Copy, Debug, PartialEq, Eq)]
pub enum Taken {
    /// Its type is not in the pattern.
    Passed = 0,
    /// It is kept.
    Kept = 1,
}

/// What take answers: 0 for an event passed over, 1 for one kept.
impl From<Taken> for u8 {
    ghost from_gives = { λ taken number. number ≡ taken_number taken };

    fn from(taken: Taken) -> u8 {
        taken as u8
    }
}
