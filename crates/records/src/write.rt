//! Records to bytes.
ghost use Rattle.std.specs.Prelude.{◌≡◌, ℕ, ◌^◌, ◌<◌, ◌≤◌, List, [], ◌∷◌, ◌++◌, length, drop};
ghost use Rattle.records.specs.declared.record.Input.{Input as AnInput};
ghost use Rattle.records.specs.declared.record.Output.{Output as AnOutput};
ghost use Rattle.records.specs.Fields.{row};
ghost use Rattle.records.specs.Formats.{gap_fields, input_fields, output_fields};
ghost use Rattle.records.specs.Writing.{joined, WritesHeader};

use crate::record::{FaultRecord, Header, ResultRecord, RuleSetting, Tick};
use crate::refusal::WriteRefusal;
use arrayvec::ArrayVec;
use events::Event;

/// A record that always has `N` bytes.
// A trait and no `From`: an array and `Event` belong to other crates, and all four are written alike.
pub trait ToBytes<const N: usize> {
    ghost fields: { Self → List (ℕ × ℕ) };

    /// The record's bytes.
    fn to_bytes(self) -> [u8; N]
        ensures { result ≡ row (fields self) };
}

impl ToBytes<15> for Event {
    ghost fields = { λ event. input_fields (AnInput.Event event) };

    fn to_bytes(self) -> [u8; 15] {
        in_a_row(&[
            b"EV",
            &self.time.to_be_bytes(),
            &self.lift.to_be_bytes(),
            &[self.kind],
            &self.level.to_be_bytes(),
            &self.load.to_be_bytes(),
        ])
    }
}

impl ToBytes<6> for Tick {
    ghost fields = { λ tick. input_fields (AnInput.Tick tick) };

    fn to_bytes(self) -> [u8; 6] {
        in_a_row(&[b"TK", &self.time.to_be_bytes()])
    }
}

impl ToBytes<17> for ResultRecord {
    ghost fields = { λ told. output_fields (AnOutput.Result told) };

    #[tactic(auto, using(crate::proofs::Parts::two_bytes, crate::proofs::Parts::four_bytes))]
    fn to_bytes(self) -> [u8; 17] {
        in_a_row(&[
            b"RS",
            &[self.kind],
            &self.window.to_be_bytes(),
            &self.lift.to_be_bytes(),
            &self.first.to_be_bytes(),
            &self.second.to_be_bytes(),
        ])
    }
}

impl ToBytes<7> for FaultRecord {
    ghost fields = { λ fault. output_fields (AnOutput.Fault fault) };

    fn to_bytes(self) -> [u8; 7] {
        in_a_row(&[b"FT", &[self.number], &self.place.to_be_bytes()])
    }
}

/// Writes parts in a row to the front.
#[tactic(auto, using(crate::proofs::Parts::next_fits))]
fn put(out: &mut [u8], parts: &[&[u8]])
    requires { length (joined parts.now) ≤ length out.old }
    ensures { out.new ≡ joined parts.now ++ drop (length (joined parts.now)) out.old }
{
    // An offset in bytes and no index of the items: each part has a length of its own.
    let mut at = 0;
    for part in parts {
        let end = at + part.len();
        out[at..end].copy_from_slice(part);
        at = end;
    }
}

/// Parts in a row that have `N` bytes together.
fn in_a_row<const N: usize>(parts: &[&[u8]]) -> [u8; N]
    requires { length (joined parts.now) ≡ N }
    ensures { result ≡ joined parts.now }
{
    let mut out = [0; N];
    put(&mut out, parts);
    out
}

/// The gap, where there is one.
fn gap_bytes(rule: RuleSetting) -> ArrayVec<u8, 4>
    ensures { result.items ≡ row (gap_fields rule) }
{
    match rule {
        RuleSetting::Falling => ArrayVec::new(),
        RuleSetting::Near { gap } => ArrayVec::from(gap.to_be_bytes()),
    }
}

impl Header<'_> {
    /// Writes the header to the front of the given bytes, and says how many it has.
    pub fn write(self, out: &mut [u8]) -> Result<usize, WriteRefusal>
        ensures { WritesHeader self.entry out.old out.new result }
    {
        let text = self.text.len();
        if text > 255 {
            return Err(WriteRefusal::Text);
        }
        let gap = gap_bytes(self.rule);
        let size = 14 + gap.len() + text;
        if out.len() < size {
            return Err(WriteRefusal::Room);
        }
        put(
            out,
            &[
                b"HD",
                &self.origin.to_be_bytes(),
                &self.slide.to_be_bytes(),
                &[self.n, u8::from(self.kind), u8::from(self.rule)],
                &gap,
                &[text as u8],
                self.text,
            ],
        );
        Ok(size)
    }
}
