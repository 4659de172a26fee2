//! Records from bytes.
#![tactic(auto)]

ghost use Rattle.std.specs.Prelude.{◌≡◌};
ghost use Rattle.reading.specs.Theorems.{OneAnswer, WrittenIsRead};

pub mod read;

pub use read::{read_header, read_input, read_output};

/// No bytes have two answers: the record and what is left, or the refusal and its place, are settled by the definitions.
pub fn one_answer() -> u8
    ensures { (result ≡ 0) × OneAnswer }
{
    0
}

/// The bytes of a record, with anything after them, are read as that record.
pub fn written_is_read() -> u8
    ensures { (result ≡ 0) × WrittenIsRead }
{
    0
}
