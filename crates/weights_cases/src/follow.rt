//! Both rules at their edges.
use events::Event;
use rules::{Falling, Follow, Near};

const T: u32 = 4294967295;

fn at(time: u32, level: u16) -> Event {
    Event {
        time,
        lift: 1,
        kind: 4,
        level,
        load: 1,
    }
}

// Earlier level, later level, and whether the later follows.
const LEVELS: [(u16, u16, bool); 7] = [
    (0, 0, false),
    (1, 0, true),
    (0, 1, false),
    (65535, 65535, false),
    (65535, 65534, true),
    (65534, 65535, false),
    (65535, 0, true),
];

// Gap, earlier time, later time, and whether the later follows.
const TIMES: [(u32, u32, u32, bool); 12] = [
    (0, 7, 7, true),
    (0, 7, 8, false),
    (0, 8, 7, false),
    (10, 15, 25, true),
    (10, 14, 25, false),
    (10, 25, 25, true),
    (10, 26, 25, false),
    (T, 0, T, true),
    (T, T, 0, false),
    (T - 1, 0, T, false),
    (T - 1, 1, T, true),
    (T, T, T, true),
];

#[test]
fn falling(rt: HostRuntime) {
    for (earlier, later, follows) in LEVELS {
        assert_eq!(rt; Falling.follows(at(0, earlier), at(0, later)), follows);
    }
}

#[test]
fn near(rt: HostRuntime) {
    for (gap, earlier, later, follows) in TIMES {
        assert_eq!(rt; Near { gap }.follows(at(earlier, 0), at(later, 0)), follows);
    }
}
