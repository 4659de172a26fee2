//! What is printed for one pattern text.
use events::EventType;
use pattern::{Pattern, ReadFault, Template};
use std::fmt;

/// The text, and below it the pattern with its template, or the refusal with a caret under its place.
#[derive(Clone, Copy)]
pub struct Explained<'a>(pub &'a [u8]);

impl fmt::Display for Explained<'_> {
    fn fmt<W: fmt::Write>(&self, f: &mut fmt::Formatter<W>) -> fmt::Result {
        let text = self.0;
        writeln!(f, "{}", Shown(text))?;
        match Pattern::parse(text) {
            Ok(pattern) => write_pattern(f, &pattern),
            Err(fault) => write_fault(f, fault),
        }
    }
}

/// Bytes as text, `?` for each that cannot be printed.
#[derive(Clone, Copy)]
struct Shown<'a>(&'a [u8]);

/// The first 64 bytes, `?` in place of each that cannot be printed.
fn printable(bytes: &[u8]) -> [u8; 64] {
    let mut shown = [b'?'; 64];
    for (place, &byte) in shown.iter_mut().zip(bytes) {
        if matches!(byte, b' '..=b'~') {
            *place = byte;
        }
    }
    shown
}

impl fmt::Display for Shown<'_> {
    fn fmt<W: fmt::Write>(&self, f: &mut fmt::Formatter<W>) -> fmt::Result {
        // Many bytes at once: one by one they take up to twice the time.
        for bytes in self.0.chunks(64) {
            let shown = printable(bytes);
            let text = &shown[..bytes.len().min(64)];
            f.write_str(str::from_utf8(text).map_err(|_| fmt::Error)?)?;
        }
        Ok(())
    }
}

/// The steps of a template.
#[derive(Clone, Copy)]
struct Steps<'a>(&'a Template);

impl fmt::Display for Steps<'_> {
    fn fmt<W: fmt::Write>(&self, f: &mut fmt::Formatter<W>) -> fmt::Result {
        let template = self.0;
        let mut none = true;
        for from in EventType::ALL {
            for to in EventType::ALL {
                if template.has_step(u8::from(from), u8::from(to)) {
                    none = false;
                    write!(f, " {from}>{to}")?;
                }
            }
        }
        if none {
            f.write_str(" none")?;
        }
        Ok(())
    }
}

fn write_pattern<W: fmt::Write>(f: &mut fmt::Formatter<W>, pattern: &Pattern) -> fmt::Result {
    let template = pattern.template();
    writeln!(f, "    pattern {pattern}")?;
    writeln!(f, "    start {}", template.start())?;
    writeln!(f, "    end {}", template.end())?;
    writeln!(f, "    steps{}", Steps(&template))
}

fn write_fault<W: fmt::Write>(f: &mut fmt::Formatter<W>, fault: ReadFault) -> fmt::Result {
    writeln!(f, "{:width$}^", "", width = fault.place)?;
    writeln!(f, "    {fault}: {}", fault.refusal)
}
