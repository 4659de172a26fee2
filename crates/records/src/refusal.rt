//! Why bytes are no record, or a header is not written.
ghost use Rattle.std.specs.Prelude.{◌≡◌, Some};
ghost use Rattle.records.specs.Refusals.{number_of, text_of, fault_text, write_text_of};

use std::error::Error;
use std::fmt;

/// The first question that the bytes of a record fail.
#[derive(Clone, Copy, Debug, PartialEq, Eq)]
pub enum ReadRefusal {
    /// Fewer than two bytes are left.
    End = 31,
    /// This mark may not stand here.
    Mark,
    /// The whole record is not left.
    Short,
    /// The header's kind is not 1 to 4.
    Kind,
    /// The header's rule is not 1 or 2.
    Rule,
}

/// The refusal's number, 31 to 35.
impl From<ReadRefusal> for u8 {
    ghost from_gives = { λ refusal number. number ≡ number_of refusal };

    fn from(refusal: ReadRefusal) -> u8 {
        refusal as u8
    }
}

impl fmt::Display for ReadRefusal {
    ghost output = { λ refusal. Some (text_of refusal) };

    fn fmt<W: fmt::Write>(&self, f: &mut fmt::Formatter<W>) -> fmt::Result {
        f.write_str(match self {
            ReadRefusal::End => "the input ends here",
            ReadRefusal::Mark => "this mark may not stand here",
            ReadRefusal::Short => "the record is cut short",
            ReadRefusal::Kind => "no weight kind has this number",
            ReadRefusal::Rule => "no follow rule has this number",
        })
    }
}

impl Error for ReadRefusal {}

/// A refused record: why, and where it stands.
// A struct of its own: shared with the patterns' it would be generic in both fields, in a crate for these two.
#[derive(Clone, Copy, Debug, PartialEq, Eq)]
pub struct ReadFault {
    pub refusal: ReadRefusal,
    /// The count of bytes before the record in the input.
    pub place: u64,
}

impl fmt::Display for ReadFault {
    ghost output = { λ fault. Some (fault_text fault) };

    fn fmt<W: fmt::Write>(&self, f: &mut fmt::Formatter<W>) -> fmt::Result {
        let number = u8::from(self.refusal);
        write!(f, "refused {number} at {}", self.place)
    }
}

impl Error for ReadFault {}

/// Why a header is not written.
#[derive(Clone, Copy, Debug, PartialEq, Eq)]
pub enum WriteRefusal {
    /// The text has more than 255 bytes.
    Text,
    /// The given bytes do not hold the header.
    Room,
}

impl fmt::Display for WriteRefusal {
    ghost output = { λ refusal. Some (write_text_of refusal) };

    fn fmt<W: fmt::Write>(&self, f: &mut fmt::Formatter<W>) -> fmt::Result {
        f.write_str(match self {
            WriteRefusal::Text => "the text has more than 255 bytes",
            WriteRefusal::Room => "there is no room for the header",
        })
    }
}

impl Error for WriteRefusal {}
