//! Reads pattern texts, one a line, and prints for each the refusal's number and place, or 0 and the text written back.
//! The expected output was worked out from the rules by another program.
#![tactic(auto)]

use pattern::Pattern;
use std::fmt;
use std::io::{BufRead, BufReader};

/// The refusal's number and place, or 0 and the text written back.
#[derive(Clone, Copy)]
struct Answer<'a>(&'a [u8]);

impl fmt::Display for Answer<'_> {
    fn fmt<W: fmt::Write>(&self, f: &mut fmt::Formatter<W>) -> fmt::Result {
        match Pattern::parse(self.0) {
            Ok(pattern) => {
                let mut bytes = [0; 250];
                let len = pattern.write(&mut bytes).map_err(|_| fmt::Error)?;
                let text = str::from_utf8(&bytes[..len]).map_err(|_| fmt::Error)?;
                write!(f, "0 {text}")
            }
            Err(fault) => write!(f, "{} at {}", u8::from(fault.refusal), fault.place),
        }
    }
}

// The same loop as in `explain`: each program has one, and a crate for it would be longer.
fn run(rt: &HostRuntime) -> anyhow::Result<()> {
    let input = BufReader::new(rt.alloc(), rt.stdin())?;
    for line in input.split(rt.alloc(), b'\n') {
        let line = line?;
        println!(rt; "{}", Answer(line.as_slice()))?;
    }
    Ok(())
}

fn main(rt: HostRuntime) -> anyhow::Result<()> {
    run(&rt)
}

#[cfg(test)]
mod tests {
    use pattern::Pattern;
    use std::test::Fail;

    // What a text of one byte must be refused with: 4 at the end where it begins a pattern.
    fn expected(byte: u8) -> (u8, usize) {
        match byte {
            b' ' | b'(' => (4, 1),
            b')' | b',' | b'+' => (4, 0),
            b'A'..=b'Z' => (3, 0),
            _ => (2, 0),
        }
    }

    #[test]
    fn every_byte_alone(rt: HostRuntime) -> Result<(), Fail> {
        for byte in 0..=255u8 {
            let Err(fault) = Pattern::parse(&[byte]) else {
                return Err(Fail::new("a single byte is no pattern"));
            };
            assert_eq!(rt; (u8::from(fault.refusal), fault.place), expected(byte));
        }
        Ok(())
    }

    #[test]
    fn a_refused_text_leaves_the_pattern(rt: HostRuntime) {
        let mut pattern = Pattern::single(events::EventType::Batt);
        assert!(rt; pattern.read(b"SEQ(DROP").is_err());
        let mut bytes = [b'.'; 6];
        assert!(rt; pattern.write(&mut bytes).is_ok());
        assert_eq!(rt; bytes, *b"BATT..");
        assert!(rt; pattern.write(&mut bytes[0..3]).is_err());
    }

    // That printing succeeds, which no clause says.
    #[test]
    fn a_refused_write_is_printed(rt: HostRuntime) -> Result<(), Fail> {
        let refusal = pattern::WriteRefusal::Room.to_string(rt.alloc())?;
        assert_eq!(rt; refusal.as_str(), "the given bytes do not hold the text");
        Ok(())
    }
}
