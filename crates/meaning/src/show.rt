//! What is printed for one stream.
use crate::samples::{LIFT, Sample};
use events::{Event, EventType};
use listing::Scope;
use pattern::Pattern;
use rules::{Falling, Follow, Near};
use semantics::setup::Setup;
use std::alloc::{AllocError, Global};
use std::fmt;
use weights::{Count, Least, LeastWays, Most};

/// An event after a space; nothing if its type is unknown.
#[derive(Clone, Copy)]
struct Shown(Event);

impl fmt::Display for Shown {
    fn fmt<W: fmt::Write>(&self, f: &mut fmt::Formatter<W>) -> fmt::Result {
        let Event { level, time, .. } = self.0;
        match EventType::try_from(self.0.kind) {
            Ok(kind) => write!(f, " {kind}/{level}@{time}"),
            Err(_) => Ok(()),
        }
    }
}

/// The stream, its trends in counting order, and the four answers.
// A function and no `Display`, since the events need the allocator.
pub fn show(heap: Global, sample: Sample) -> Result<String, AllocError> {
    let mut out = String::new(heap);
    let Sample {
        title,
        pattern: text,
        gap,
        rows,
    } = sample;
    write!(out, "{title}: {text}")?;
    let Ok(pattern) = Pattern::parse(text.as_bytes()) else {
        writeln!(out, " is no pattern")?;
        return Ok(out);
    };
    let events: Vec<Event> = rows.iter().map(|row| Event::from(*row)).collect(heap)?;
    match gap {
        None => {
            writeln!(out, " with falling levels")?;
            push_meaning(&mut out, &setup_of(pattern, Falling), events.as_slice())?;
        }
        Some(gap) => {
            writeln!(out, " with gaps up to {gap}")?;
            push_meaning(
                &mut out,
                &setup_of(pattern, Near { gap }),
                events.as_slice(),
            )?;
        }
    }
    Ok(out)
}

fn setup_of<R>(pattern: Pattern, rule: R) -> Setup<R> {
    Setup {
        pattern,
        rule,
        capacity: 16,
        origin: 0,
        slide: 100,
        span: 1,
    }
}

// Functions that write into the text of `show`: as `Display`, the three below would be three structs more.
fn push_meaning<R: Follow>(
    out: &mut String,
    setup: &Setup<R>,
    events: &[Event],
) -> Result<(), AllocError> {
    write!(out, "    events")?;
    for &event in events {
        write!(out, "{}", Shown(event))?;
    }
    writeln!(out)?;
    let scope = Scope {
        setup,
        window: 0,
        lift: LIFT,
        events,
    };
    push_trends(out, &scope)?;
    push_answers(out, &scope)
}

fn push_trends<R: Follow>(out: &mut String, scope: &Scope<R>) -> Result<(), AllocError> {
    // Sixteen flags at most: an `ArrayVec` would be filled first to be lent.
    let mut marks = [false; 16];
    let marks = &mut marks[..scope.events.len().min(16)];
    while scope.next_trend(marks) {
        write!(out, "    trend")?;
        for (&event, &mark) in scope.events.iter().zip(marks.iter()) {
            if mark {
                write!(out, "{}", Shown(event))?;
            }
        }
        writeln!(out)?;
    }
    Ok(())
}

fn push_answers<R: Follow>(out: &mut String, scope: &Scope<R>) -> Result<(), AllocError> {
    if let Some(Count { number }) = scope.result() {
        writeln!(out, "    count {number}")?;
    }
    if let Some(Least { weight }) = scope.result() {
        writeln!(out, "    least {weight}")?;
    }
    if let Some(LeastWays { weight, ways }) = scope.result() {
        writeln!(out, "    least {weight} in {ways} ways")?;
    }
    if let Some(Most { weight }) = scope.result() {
        match weight {
            Some(weight) => writeln!(out, "    most {weight}")?,
            None => writeln!(out, "    most nothing")?,
        }
    }
    Ok(())
}
