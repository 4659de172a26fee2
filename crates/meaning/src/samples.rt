//! The streams, and how each is looked at.
use events::{Event, EventType};

pub const LIFT: u16 = 7;

/// Of an event: type, level and time. Each has load 1.
#[derive(Clone, Copy)]
pub struct Row(pub EventType, pub u16, pub u32);

impl From<Row> for Event {
    fn from(row: Row) -> Event {
        let Row(kind, level, time) = row;
        Event {
            time,
            lift: LIFT,
            kind: u8::from(kind),
            level,
            load: 1,
        }
    }
}

#[derive(Clone, Copy)]
pub struct Sample {
    pub title: &'static str,
    pub pattern: &'static str,
    /// The gap of the rule Near; without one the rule is Falling.
    pub gap: Option<u32>,
    pub rows: &'static [Row],
}

const T: u32 = 4294967295;

const BATT: EventType = EventType::Batt;

const DROP: EventType = EventType::Drop;

const MISS: EventType = EventType::Miss;

pub const SAMPLES: [Sample; 5] = [
    Sample {
        title: "falling readings",
        pattern: "BATT+",
        gap: None,
        rows: &[Row(BATT, 50, 10), Row(BATT, 40, 20), Row(BATT, 45, 30)],
    },
    Sample {
        title: "a level twice",
        pattern: "BATT+",
        gap: None,
        rows: &[
            Row(BATT, 50, 10),
            Row(BATT, 40, 20),
            Row(BATT, 45, 30),
            Row(BATT, 45, 40),
        ],
    },
    Sample {
        title: "two at one time",
        pattern: "BATT+",
        gap: Some(T),
        rows: &[Row(BATT, 50, 10), Row(BATT, 40, 10), Row(BATT, 45, 20)],
    },
    Sample {
        title: "a repeat in a repeat",
        pattern: "SEQ(DROP,MISS+)+",
        gap: Some(T),
        rows: &[
            Row(DROP, 0, 1),
            Row(MISS, 0, 2),
            Row(DROP, 0, 3),
            Row(MISS, 0, 4),
        ],
    },
    Sample {
        title: "no event",
        pattern: "BATT+",
        gap: None,
        rows: &[],
    },
];
