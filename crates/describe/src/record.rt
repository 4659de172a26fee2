//! Any record at the front of bytes, and its line of text.
ghost use Rattle.std.specs.Prelude.{◌<◌, length, IfOk};

use events::{Event, EventType};
use pattern::Pattern;
use reading::{read_header, read_input, read_output};
use records::record::{Header, Input, KindNumber, Output, ResultRecord, RuleSetting};
use records::refusal::ReadFault;
use std::fmt;

#[derive(Clone, Copy, Debug, PartialEq, Eq)]
pub enum Record<'a> {
    Header(Header<'a>),
    Input(Input),
    Output(Output),
}

/// The record at the front, whichever it is, and what is left.
pub fn next_record(bytes: &[u8], place: u64) -> Result<(Record<'_>, &[u8]), ReadFault>
    ensures { IfOk result (λ x. length x.1.now < length bytes.now) }
{
    match bytes {
        [b'H', b'D', ..] => {
            let (header, rest) = read_header(bytes, place)?;
            Ok((Record::Header(header), rest))
        }
        [b'R', b'S', ..] | [b'F', b'T', ..] => {
            let (output, rest) = read_output(bytes, place)?;
            Ok((Record::Output(output), rest))
        }
        _ => {
            let (input, rest) = read_input(bytes, place)?;
            Ok((Record::Input(input), rest))
        }
    }
}

impl fmt::Display for Record<'_> {
    fn fmt<W: fmt::Write>(&self, f: &mut fmt::Formatter<W>) -> fmt::Result {
        match *self {
            Record::Header(header) => write_header(f, header),
            Record::Input(Input::Event(event)) => write_event(f, event),
            Record::Input(Input::Tick(tick)) => write!(f, "TK time={}", tick.time),
            Record::Output(Output::Result(told)) => write_result(f, told),
            Record::Output(Output::Fault(fault)) => {
                write!(f, "FT refused {} at {}", fault.number, fault.place)
            }
        }
    }
}

/// The numbers, and the pattern in its written form or why its text is refused.
fn write_header<W: fmt::Write>(f: &mut fmt::Formatter<W>, header: Header) -> fmt::Result {
    write!(f, "HD origin={} slide={} ", header.origin, header.slide)?;
    write!(f, "n={} kind={} ", header.n, header.kind)?;
    match header.rule {
        RuleSetting::Falling => f.write_str("rule=falling ")?,
        RuleSetting::Near { gap } => write!(f, "rule=near gap={gap} ")?,
    }
    match Pattern::parse(header.text) {
        Ok(pattern) => write!(f, "pattern={pattern}"),
        Err(fault) => write!(f, "pattern {fault}"),
    }
}

fn write_event<W: fmt::Write>(f: &mut fmt::Formatter<W>, event: Event) -> fmt::Result {
    write!(f, "EV time={} lift={} ", event.time, event.lift)?;
    match EventType::try_from(event.kind) {
        Ok(kind) => write!(f, "type={kind} ")?,
        Err(_) => write!(f, "type={} ", event.kind)?,
    }
    let volts = event.level / 10;
    let tenths = event.level % 10;
    write!(f, "level={volts}.{tenths} load={}", event.load)
}

fn write_result<W: fmt::Write>(f: &mut fmt::Formatter<W>, told: ResultRecord) -> fmt::Result {
    let (window, lift) = (told.window, told.lift);
    match KindNumber::try_from(told.kind) {
        Ok(kind) => {
            write!(f, "RS kind={kind} window={window} lift={lift} ")?;
            write_told(f, kind, told.first, told.second)
        }
        Err(_) => {
            write!(f, "RS kind={} window={window} lift={lift} ", told.kind)?;
            write!(f, "first={} second={}", told.first, told.second)
        }
    }
}

/// The largest number of 32 bits: the weight that Least and LeastWays tell where there is no trend.
const NONE: u32 = u32::MAX;

/// What the two numbers of a result tell.
fn write_told<W: fmt::Write>(
    f: &mut fmt::Formatter<W>,
    kind: KindNumber,
    first: u32,
    second: u32,
) -> fmt::Result {
    match (kind, first, second) {
        (KindNumber::Count, trends, _) => write!(f, "trends={trends}"),
        (KindNumber::Least | KindNumber::LeastWays, NONE, _)
        | (KindNumber::LeastWays | KindNumber::Most, _, 0) => f.write_str("none"),
        (KindNumber::LeastWays, weight, ways) => write!(f, "weight={weight} ways={ways}"),
        (KindNumber::Least | KindNumber::Most, weight, _) => write!(f, "weight={weight}"),
    }
}
