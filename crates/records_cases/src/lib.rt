//! The readers and writers of records at single inputs.
#![tactic(auto)]

ghost use Rattle.std.specs.Prelude.{◌≡◌, slice_index};

use events::{Event, UnknownType};
use reading::{read_header, read_input, read_output};
use records::record::{
    FaultRecord, Header, Input, KindNumber, Output, ResultRecord, RuleSetting, Tick, UnknownKind,
};
use records::refusal::{ReadFault, ReadRefusal, WriteRefusal};
use records::write::ToBytes;
use std::test::Fail;

/// A header of every part: Near with the greatest gap, and the text BATT+.
const NEAR: [u8; 23] = [
    0x48, 0x44, 0, 0, 0, 0, 0, 0, 0, 0x64, 1, 1, 2, 0xff, 0xff, 0xff, 0xff, 5, 0x42, 0x41, 0x54,
    0x54, 0x2b,
];

/// A header without gap and without text.
const FALLING: [u8; 14] = [0x48, 0x44, 1, 2, 3, 4, 0xff, 0xff, 0xff, 0xff, 255, 4, 1, 0];

const A_NEAR: Header<'static> = Header {
    origin: 0,
    slide: 100,
    n: 1,
    kind: KindNumber::Count,
    rule: RuleSetting::Near { gap: 4294967295 },
    text: b"BATT+",
};

const A_FALLING: Header<'static> = Header {
    origin: 16909060,
    slide: 4294967295,
    n: 255,
    kind: KindNumber::Most,
    rule: RuleSetting::Falling,
    text: b"",
};

const EVENT: [u8; 15] = [
    0x45, 0x56, 0, 0, 0, 7, 1, 2, 4, 0, 125, 0xff, 0xff, 0xff, 0xff,
];

const TICK: [u8; 6] = [0x54, 0x4b, 0x80, 0, 0, 1];

const RESULT: [u8; 17] = [
    0x52, 0x53, 3, 0, 0, 1, 0, 0xff, 0xff, 0, 0, 0, 9, 0xff, 0xff, 0xff, 0xff,
];

const FAULT: [u8; 7] = [0x46, 0x54, 33, 0, 1, 0, 0];

/// What is left behind a whole record.
const NOTHING: &[u8] = b"";

const AN_EVENT: Event = Event {
    time: 7,
    lift: 258,
    kind: 4,
    level: 125,
    load: 4294967295,
};

const A_TICK: Tick = Tick { time: 2147483649 };

const A_RESULT: ResultRecord = ResultRecord {
    kind: 3,
    window: 256,
    lift: 65535,
    first: 9,
    second: 4294967295,
};

const A_FAULT: FaultRecord = FaultRecord {
    number: 33,
    place: 65536,
};

/// A place beyond four bytes.
const PLACE: u64 = 5000000000;

fn fault(refusal: ReadRefusal) -> Option<ReadFault> {
    Some(ReadFault {
        refusal,
        place: PLACE,
    })
}

/// What a front of so many bytes is refused for.
fn cut(size: usize) -> Option<ReadFault> {
    fault(if size < 2 {
        ReadRefusal::End
    } else {
        ReadRefusal::Short
    })
}

/// A header without gap and text, of this kind and this rule.
fn header_of(kind: u8, rule: u8) -> [u8; 14]
    ensures kind { slice_index result 11 ≡ kind }
    ensures rule { slice_index result 12 ≡ rule }
{
    [0x48, 0x44, 0, 0, 0, 0, 0, 0, 0, 0, 0, kind, rule, 0]
}

#[test]
fn headers(rt: HostRuntime) {
    for (bytes, expected) in [(&NEAR[..], A_NEAR), (&FALLING, A_FALLING)] {
        assert_eq!(rt; read_header(bytes, 0), Ok((expected, NOTHING)));
        let mut out = [7; 30];
        assert_eq!(rt; expected.write(&mut out), Ok(bytes.len()));
        assert!(rt; out.starts_with(bytes));
        assert_eq!(rt; &out[23..30], [7; 7].as_slice());
    }
}

#[test]
fn headers_not_written(rt: HostRuntime) {
    let text = [65; 256];
    let mut out = [7; 273];
    let long = Header {
        text: &text,
        ..A_NEAR
    };
    assert_eq!(rt; long.write(&mut out), Err(WriteRefusal::Text));
    let fits = Header {
        text: &text[0..255],
        ..A_NEAR
    };
    assert_eq!(rt; fits.write(&mut out[0..272]), Err(WriteRefusal::Room));
    assert_eq!(rt; &out, &[7; 273]);
    assert_eq!(rt; fits.write(&mut out), Ok(273));
    assert_eq!(rt; read_header(&out, 0), Ok((fits, NOTHING)));
}

#[test]
fn inputs_and_outputs(rt: HostRuntime) {
    for (bytes, expected) in [
        (&EVENT[..], Input::Event(AN_EVENT)),
        (&TICK, Input::Tick(A_TICK)),
    ] {
        assert_eq!(rt; read_input(bytes, 0), Ok((expected, NOTHING)));
    }
    for (bytes, expected) in [
        (&RESULT[..], Output::Result(A_RESULT)),
        (&FAULT, Output::Fault(A_FAULT)),
    ] {
        assert_eq!(rt; read_output(bytes, 0), Ok((expected, NOTHING)));
    }
}

#[test]
fn written(rt: HostRuntime) {
    assert_eq!(rt; AN_EVENT.to_bytes(), EVENT);
    assert_eq!(rt; A_TICK.to_bytes(), TICK);
    assert_eq!(rt; A_RESULT.to_bytes(), RESULT);
    assert_eq!(rt; A_FAULT.to_bytes(), FAULT);
}

#[test]
fn marks(rt: HostRuntime) {
    for bytes in [&EVENT[..], &TICK, &RESULT, &FAULT, &[0, 0], &[0x48, 0x45]] {
        assert_eq!(rt; read_header(bytes, PLACE).err(), fault(ReadRefusal::Mark));
    }
    for bytes in [&NEAR[..], &RESULT, &FAULT, &[0x45, 0x57], &[0x54, 0x4a]] {
        assert_eq!(rt; read_input(bytes, PLACE).err(), fault(ReadRefusal::Mark));
    }
    for bytes in [&NEAR[..], &EVENT, &TICK, &[0x52, 0x54], &[0x46, 0x55]] {
        assert_eq!(rt; read_output(bytes, PLACE).err(), fault(ReadRefusal::Mark));
    }
}

#[test]
fn cut_short(rt: HostRuntime) {
    for bytes in [&NEAR[..], &FALLING] {
        for size in 0..bytes.len() {
            assert_eq!(rt; read_header(&bytes[0..size], PLACE).err(), cut(size));
        }
    }
    for bytes in [&EVENT[..], &TICK] {
        for size in 0..bytes.len() {
            assert_eq!(rt; read_input(&bytes[0..size], PLACE).err(), cut(size));
        }
    }
    for bytes in [&RESULT[..], &FAULT] {
        for size in 0..bytes.len() {
            assert_eq!(rt; read_output(&bytes[0..size], PLACE).err(), cut(size));
        }
    }
}

/// A header, an event and a tick that is cut.
const ROW: [u8; 32] = [
    0x48, 0x44, 1, 2, 3, 4, 5, 6, 7, 8, 9, 1, 1, 0, 0x45, 0x56, 1, 2, 3, 4, 5, 6, 7, 8, 9, 10, 11,
    12, 13, 0x54, 0x4b, 0,
];

/// Reads a header and three more records, each at its place, up to the first refusal.
fn read_row(bytes: &[u8]) -> Result<(), ReadFault> {
    let (_, mut rest) = read_header(bytes, 0)?;
    for _ in 0..3 {
        let place = bytes.len().saturating_sub(rest.len()) as u64;
        let (_, left) = read_input(rest, place)?;
        rest = left;
    }
    Ok(())
}

#[test]
fn rows(rt: HostRuntime) {
    assert_eq!(rt;
        read_row(&ROW),
        Err(ReadFault {
            refusal: ReadRefusal::Short,
            place: 29,
        })
    );
    assert_eq!(rt;
        read_row(&ROW[0..29]),
        Err(ReadFault {
            refusal: ReadRefusal::End,
            place: 29,
        })
    );
    assert_eq!(rt;
        read_row(&ROW[0..28]),
        Err(ReadFault {
            refusal: ReadRefusal::Short,
            place: 14,
        })
    );
    assert_eq!(rt;
        read_row(&ROW[14..32]),
        Err(ReadFault {
            refusal: ReadRefusal::Mark,
            place: 0,
        })
    );
}

/// A kind, a rule, and what the header of both is refused for.
const KINDS_AND_RULES: [(u8, u8, Option<ReadRefusal>); 14] = [
    (0, 1, Some(ReadRefusal::Kind)),
    (1, 1, None),
    (2, 1, None),
    (3, 1, None),
    (4, 1, None),
    (5, 1, Some(ReadRefusal::Kind)),
    (255, 7, Some(ReadRefusal::Kind)),
    (4, 0, Some(ReadRefusal::Rule)),
    (4, 2, Some(ReadRefusal::Short)),
    (5, 2, Some(ReadRefusal::Short)),
    (4, 3, Some(ReadRefusal::Rule)),
    (1, 7, Some(ReadRefusal::Rule)),
    (1, 255, Some(ReadRefusal::Rule)),
    (0, 0, Some(ReadRefusal::Kind)),
];

#[test]
fn kinds_and_rules(rt: HostRuntime) {
    for (kind, rule, refusal) in KINDS_AND_RULES {
        let bytes = header_of(kind, rule);
        let expected = refusal.and_then(fault);
        assert_eq!(rt; read_header(&bytes, PLACE).err(), expected);
        assert_eq!(rt;
            read_header(&bytes[0..13], PLACE).err(),
            fault(ReadRefusal::Short)
        );
    }
}

const NUMBERS: [(ReadRefusal, u8); 5] = [
    (ReadRefusal::End, 31),
    (ReadRefusal::Mark, 32),
    (ReadRefusal::Short, 33),
    (ReadRefusal::Kind, 34),
    (ReadRefusal::Rule, 35),
];

#[test]
fn numbers(rt: HostRuntime) {
    for (refusal, number) in NUMBERS {
        assert_eq!(rt; u8::from(refusal), number);
    }
    for number in 0..=255 {
        match KindNumber::try_from(number) {
            Ok(kind) => assert_eq!(rt; u8::from(kind), number),
            Err(_) => assert!(rt; number < 1 || number > 4),
        }
    }
    assert_eq!(rt; u8::from(RuleSetting::Falling), 1);
    assert_eq!(rt; u8::from(RuleSetting::Near { gap: 0 }), 2);
}

// That printing succeeds, which no clause says.
#[test]
fn printed(rt: HostRuntime) -> Result<(), Fail> {
    let heap = rt.alloc();
    let refusal = ReadRefusal::Short.to_string(heap)?;
    assert_eq!(rt; refusal.as_str(), "the record is cut short");
    let fault = ReadFault {
        refusal: ReadRefusal::Mark,
        place: 4294967296,
    };
    let fault = fault.to_string(heap)?;
    assert_eq!(rt; fault.as_str(), "refused 32 at 4294967296");
    let refusal = WriteRefusal::Room.to_string(heap)?;
    assert_eq!(rt; refusal.as_str(), "there is no room for the header");
    let unknown = UnknownKind.to_string(heap)?;
    assert_eq!(rt; unknown.as_str(), "no weight kind has this number");
    let unknown = UnknownType.to_string(heap)?;
    assert_eq!(rt; unknown.as_str(), "no event type has this code or name");
    Ok(())
}
