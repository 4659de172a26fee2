//! Why a text is no pattern, or a pattern is not written.
ghost use Rattle.std.specs.Prelude.{◌≡◌, Some};
ghost use Rattle.pattern.specs.Refusals.{number_of, text_of, fault_text, write_number_of, write_text_of};

use std::error::Error;
use std::fmt;

/// The first question that a pattern text fails.
#[derive(Clone, Copy, Debug, PartialEq, Eq)]
pub enum ReadRefusal {
    /// The text has not 1 to 250 bytes.
    Length = 1,
    /// A byte that no pattern has.
    Byte,
    /// A run of letters that is neither `SEQ` nor a type name.
    Word,
    /// The tokens so far begin no pattern, or at the end are none.
    Grammar,
    /// More than 16 open brackets.
    Depth,
    /// A type name for the second time.
    Repeat,
}

/// The refusal's number, 1 to 6.
impl From<ReadRefusal> for u8 {
    ghost from_gives = { λ refusal number. number ≡ number_of refusal };

    fn from(refusal: ReadRefusal) -> u8 {
        refusal as u8
    }
}

impl fmt::Display for ReadRefusal {
    ghost output = { λ refusal. Some (text_of refusal) };

    fn fmt<W: fmt::Write>(&self, f: &mut fmt::Formatter<W>) -> fmt::Result {
        f.write_str(match self {
            ReadRefusal::Length => "a pattern text has 1 to 250 bytes",
            ReadRefusal::Byte => "no pattern has this byte",
            ReadRefusal::Word => "this word is neither SEQ nor an event type",
            ReadRefusal::Grammar => "no pattern goes on or ends like this",
            ReadRefusal::Depth => "more than 16 brackets are open",
            ReadRefusal::Repeat => "this event type stands here a second time",
        })
    }
}

impl Error for ReadRefusal {}

/// A refused text: why, and where.
// A struct of its own: shared with the records' it would be generic in both fields, in a crate for these two.
#[derive(Clone, Copy, Debug, PartialEq, Eq)]
pub struct ReadFault {
    pub refusal: ReadRefusal,
    /// The count of bytes before the token or the wrong byte: the text's length at its end, 0 for `Length`.
    pub place: usize,
}

impl fmt::Display for ReadFault {
    ghost output = { λ fault. Some (fault_text fault) };

    fn fmt<W: fmt::Write>(&self, f: &mut fmt::Formatter<W>) -> fmt::Result {
        let number = u8::from(self.refusal);
        write!(f, "refused {number} at {}", self.place)
    }
}

impl Error for ReadFault {}

/// Why a pattern is not written.
#[derive(Clone, Copy, Debug, PartialEq, Eq)]
pub enum WriteRefusal {
    /// The given bytes do not hold the text.
    Room = 7,
}

/// The refusal's number, 7.
impl From<WriteRefusal> for u8 {
    ghost from_gives = { λ refused number. number ≡ write_number_of refused };

    fn from(refused: WriteRefusal) -> u8 {
        refused as u8
    }
}

impl fmt::Display for WriteRefusal {
    ghost output = { λ refusal. Some (write_text_of refusal) };

    fn fmt<W: fmt::Write>(&self, f: &mut fmt::Formatter<W>) -> fmt::Result {
        f.write_str(match self {
            WriteRefusal::Room => "the given bytes do not hold the text",
        })
    }
}

impl Error for WriteRefusal {}
