//! Records from bytes.
ghost use Rattle.std.specs.Prelude.{◌≡◌, ℕ, ◌+◌, ◌<◌, List, [], ◌∷◌, ◌++◌, length, MatchOption, ◌≢◌, slice_index};
ghost use Rattle.records.specs.Fields.{Begins};
ghost use Rattle.records.specs.Formats.{mark_ev, mark_tk, mark_rs, mark_ft, event_fields, tick_fields, result_fields, fault_fields, rule_number, gap_fields};
ghost use Rattle.reading.specs.Raw.{front_fields, setting_fields, IsSetting, raw_fields, RawShort};
ghost use Rattle.reading.specs.Reading.{Exact, SameHeader, HeaderAt, InputAt, OutputAt, MadeAt, Finds, ask_header, ask_either, ReadsHeader, ReadsInput, ReadsOutput};

use events::Event;
use records::record::{
    FaultRecord, Header, Input, KindNumber, Output, ResultRecord, RuleSetting, Tick,
};
use records::refusal::{ReadFault, ReadRefusal};

/// A number in a record, its most significant byte first.
trait Field: Sized {
    ghost width: { ℕ };

    ghost number: { Self → ℕ };

    /// The number at the front, and what is left.
    fn take(bytes: &[u8]) -> Option<(Self, &[u8])>
        ensures { MatchOption result (length bytes.now < width) (λ x. Begins ((width, number x.0) ∷ []) bytes.now x.1.now) };
}

impl Field for u8 {
    ghost width = { 1 };

    ghost number = { λ n. n };

    fn take(bytes: &[u8]) -> Option<(u8, &[u8])> {
        let (byte, rest) = bytes.split_first()?;
        Some((*byte, rest))
    }
}

impl Field for u16 {
    ghost width = { 2 };

    ghost number = { λ n. n };

    fn take(bytes: &[u8]) -> Option<(u16, &[u8])> {
        let (&[high, low], rest) = bytes.split_first_chunk::<2>()?;
        Some((u16::from_be_bytes([high, low]), rest))
    }
}

impl Field for u32 {
    ghost width = { 4 };

    ghost number = { λ n. n };

    fn take(bytes: &[u8]) -> Option<(u32, &[u8])> {
        let (&[a, b, c, d], rest) = bytes.split_first_chunk::<4>()?;
        Some((u32::from_be_bytes([a, b, c, d]), rest))
    }
}

/// A record with a mark of its own, and after it fields of known widths.
// Each `body` below, and `front_part`, is the list of its format's fields and no more.
trait Marked: Sized {
    const MARK: u16;

    ghost MARK: { ℕ };

    ghost size: { ℕ };

    ghost fields: { Self → List (ℕ × ℕ) };

    /// What follows the mark, and what is left.
    fn body(bytes: &[u8]) -> Option<(Self, &[u8])>
        ensures { MatchOption result (length bytes.now < size) (λ x. Begins (fields x.0) bytes.now x.1.now) };
}

impl Marked for Event {
    const MARK: u16 = 0x4556; // EV

    ghost MARK = { mark_ev };

    ghost size = { 13 };

    ghost fields = { event_fields };

    fn body(bytes: &[u8]) -> Option<(Event, &[u8])> {
        let (time, rest) = u32::take(bytes)?;
        let (lift, rest) = u16::take(rest)?;
        let (kind, rest) = u8::take(rest)?;
        let (level, rest) = u16::take(rest)?;
        let (load, rest) = u32::take(rest)?;
        let event = Event {
            time,
            lift,
            kind,
            level,
            load,
        };
        Some((event, rest))
    }
}

impl Marked for Tick {
    const MARK: u16 = 0x544b; // TK

    ghost MARK = { mark_tk };

    ghost size = { 4 };

    ghost fields = { tick_fields };

    fn body(bytes: &[u8]) -> Option<(Tick, &[u8])> {
        let (time, rest) = u32::take(bytes)?;
        Some((Tick { time }, rest))
    }
}

impl Marked for ResultRecord {
    const MARK: u16 = 0x5253; // RS

    ghost MARK = { mark_rs };

    ghost size = { 15 };

    ghost fields = { result_fields };

    fn body(bytes: &[u8]) -> Option<(ResultRecord, &[u8])> {
        let (kind, rest) = u8::take(bytes)?;
        let (window, rest) = u32::take(rest)?;
        let (lift, rest) = u16::take(rest)?;
        let (first, rest) = u32::take(rest)?;
        let (second, rest) = u32::take(rest)?;
        let told = ResultRecord {
            kind,
            window,
            lift,
            first,
            second,
        };
        Some((told, rest))
    }
}

impl Marked for FaultRecord {
    const MARK: u16 = 0x4654; // FT

    ghost MARK = { mark_ft };

    ghost size = { 5 };

    ghost fields = { fault_fields };

    fn body(bytes: &[u8]) -> Option<(FaultRecord, &[u8])> {
        let (number, rest) = u8::take(bytes)?;
        let (place, rest) = u32::take(rest)?;
        Some((FaultRecord { number, place }, rest))
    }
}

/// The record of one of two marks at the front, made into what holds both, or the first question that it fails.
fn either<A: Marked, B: Marked, X, F: FnOnce(A) -> X, G: FnOnce(B) -> X>(
    bytes: &[u8],
    first: F,
    second: G,
) -> Result<(X, &[u8]), ReadRefusal>
    requires first { F.IsAlwaysCallable first }
    requires second { G.IsAlwaysCallable second }
    ensures { Finds (MadeAt (F.post first) (G.post second) (λ a. (2, A.MARK) ∷ A.fields a) (λ b. (2, B.MARK) ∷ B.fields b) bytes.now) (ask_either A.MARK (2 + A.size) B.MARK (2 + B.size) bytes.now) result }
{
    let (mark, rest) = u16::take(bytes).ok_or(ReadRefusal::End)?;
    if mark == A::MARK {
        let (record, rest) = A::body(rest).ok_or(ReadRefusal::Short)?;
        Ok((first(record), rest))
    } else if mark == B::MARK {
        let (record, rest) = B::body(rest).ok_or(ReadRefusal::Short)?;
        Ok((second(record), rest))
    } else {
        Err(ReadRefusal::Mark)
    }
}

/// A length of one byte and so many bytes after it, and what is left.
fn text(bytes: &[u8]) -> Option<(&[u8], &[u8])>
    ensures { MatchOption result (length bytes.now < 1 + slice_index bytes.now 0) (λ x. Begins ((1, length x.0.now) ∷ []) bytes.now (x.0.now ++ x.1.now)) }
{
    let (size, rest) = u8::take(bytes)?;
    rest.split_at_checked(usize::from(size))
}

/// The numbers of a header up to its rule.
// Numbers as they stand: what they name is asked after the record is found whole.
#[derive(Clone, Copy)]
struct Front {
    origin: u32,
    slide: u32,
    n: u8,
    kind: u8,
    rule: u8,
}

/// A header from after its mark to its rule, and what is left.
fn front_part(bytes: &[u8]) -> Option<(Front, &[u8])>
    ensures { MatchOption result (length bytes.now < 11) (λ x. Begins (front_fields x.0) bytes.now x.1.now) }
{
    let (origin, rest) = u32::take(bytes)?;
    let (slide, rest) = u32::take(rest)?;
    let (n, rest) = u8::take(rest)?;
    let (kind, rest) = u8::take(rest)?;
    let (rule, rest) = u8::take(rest)?;
    let front = Front {
        origin,
        slide,
        n,
        kind,
        rule,
    };
    Some((front, rest))
}

/// The rule of this number with its gap, if one has it, and what is left.
// No `TryFrom`, since it reads the gap too.
fn rule_setting(number: u8, bytes: &[u8]) -> Option<(Option<RuleSetting>, &[u8])>
    ensures { MatchOption result ((number ≡ 2) × (length bytes.now < 4)) (λ x. IsSetting number x.0 × Begins (setting_fields x.0) bytes.now x.1.now) }
{
    match number {
        1 => Some((Some(RuleSetting::Falling), bytes)),
        2 => {
            let (gap, rest) = u32::take(bytes)?;
            Some((Some(RuleSetting::Near { gap }), rest))
        }
        _ => Some((None, bytes)),
    }
}

/// A header as it stands: with no rule where no rule has the number.
#[derive(Clone, Copy)]
struct Raw<'a> {
    front: Front,
    rule: Option<RuleSetting>,
    text: &'a [u8],
}

/// What follows the mark of a header, and what is left.
fn raw_header(bytes: &[u8]) -> Option<(Raw<'_>, &[u8])>
    ensures { MatchOption result (RawShort bytes.now) (λ x. IsSetting x.0.front.rule x.0.rule × Begins (raw_fields x.0) bytes.now (x.0.text.now ++ x.1.now)) }
{
    let (front, rest) = front_part(bytes)?;
    let (rule, rest) = rule_setting(front.rule, rest)?;
    let (text, rest) = text(rest)?;
    Some((Raw { front, rule, text }, rest))
}

/// The mark of a header.
const HD: u16 = 0x4844; // HD

/// The header at the front, or the first question that it fails.
fn header(bytes: &[u8]) -> Result<(Header<'_>, &[u8]), ReadRefusal>
    ensures { Finds (HeaderAt bytes.now) (ask_header bytes.now) result }
{
    let (mark, rest) = u16::take(bytes).ok_or(ReadRefusal::End)?;
    if mark != HD {
        return Err(ReadRefusal::Mark);
    }
    let (raw, rest) = raw_header(rest).ok_or(ReadRefusal::Short)?;
    let Raw { front, rule, text } = raw;
    let kind = KindNumber::try_from(front.kind).map_err(|_| ReadRefusal::Kind)?;
    let rule = rule.ok_or(ReadRefusal::Rule)?;
    let header = Header {
        origin: front.origin,
        slide: front.slide,
        n: front.n,
        kind,
        rule,
        text,
    };
    Ok((header, rest))
}

/// A header at the front of bytes that begin at this place of the input, and what is left.
// Bytes and place stay two parameters: a struct of them would be made for one call, since callers cut the
// bytes anew for each record.
pub fn read_header(bytes: &[u8], place: u64) -> Result<(Header<'_>, &[u8]), ReadFault>
    ensures answer { ReadsHeader bytes.now place result }
    ensures exact { Exact SameHeader (HeaderAt bytes.now) result }
{
    header(bytes).map_err(|refusal| ReadFault { refusal, place })
}

/// An event or a tick at the front of bytes that begin at this place of the input, and what is left.
pub fn read_input(bytes: &[u8], place: u64) -> Result<(Input, &[u8]), ReadFault>
    ensures answer { ReadsInput bytes.now place result }
    ensures exact { Exact ◌≡◌ (InputAt bytes.now) result }
{
    either(bytes, Input::Event, Input::Tick).map_err(|refusal| ReadFault { refusal, place })
}

/// A result or a fault at the front of bytes that begin at this place of the input, and what is left.
pub fn read_output(bytes: &[u8], place: u64) -> Result<(Output, &[u8]), ReadFault>
    ensures answer { ReadsOutput bytes.now place result }
    ensures exact { Exact ◌≡◌ (OutputAt bytes.now) result }
{
    either(bytes, Output::Result, Output::Fault).map_err(|refusal| ReadFault { refusal, place })
}
