//! Each kind at 0, 1, T - 1, T and where sums and products pass T. Values are written by the pair of numbers that they tell.
ghost use Rattle.std.specs.Prelude.{◌≡◌};

use events::Event;
use weights::{Count, Least, LeastWays, Most, Reported, Told, Weight, read_as};

const T: u32 = 4294967295;

type Pair = (u32, u32);

// Two values, their join and their chain.
type Row = [Pair; 4];

const COUNTS: [Row; 10] = [
    [(0, 0), (0, 0), (0, 0), (0, 0)],
    [(0, 0), (1, 0), (1, 0), (0, 0)],
    [(1, 0), (1, 0), (2, 0), (1, 0)],
    [(2, 0), (3, 0), (5, 0), (6, 0)],
    [(1, 0), (T - 1, 0), (T, 0), (T - 1, 0)],
    [(2, 0), (T - 1, 0), (T, 0), (T, 0)],
    [(T, 0), (0, 0), (T, 0), (0, 0)],
    [(T, 0), (1, 0), (T, 0), (T, 0)],
    [(T, 0), (T, 0), (T, 0), (T, 0)],
    [(65536, 0), (65536, 0), (131072, 0), (T, 0)],
];

const LEASTS: [Row; 9] = [
    [(0, 0), (0, 0), (0, 0), (0, 0)],
    [(0, 0), (1, 0), (0, 0), (1, 0)],
    [(3, 0), (2, 0), (2, 0), (5, 0)],
    [(1, 0), (T - 1, 0), (1, 0), (T, 0)],
    [(T - 1, 0), (0, 0), (0, 0), (T - 1, 0)],
    [(2, 0), (T - 1, 0), (2, 0), (T, 0)],
    [(0, 0), (T, 0), (0, 0), (T, 0)],
    [(T, 0), (T - 1, 0), (T - 1, 0), (T, 0)],
    [(T, 0), (T, 0), (T, 0), (T, 0)],
];

const LEAST_WAYS: [Row; 12] = [
    [(3, 2), (5, 4), (3, 2), (8, 8)],
    [(5, 4), (3, 2), (3, 2), (8, 8)],
    [(3, 2), (3, 4), (3, 6), (6, 8)],
    [(0, 1), (3, 2), (0, 1), (3, 2)],
    [(T, 0), (3, 2), (3, 2), (T, 0)],
    [(T, 0), (T, 0), (T, 0), (T, 0)],
    [(1, 1), (T - 1, 7), (1, 1), (T, 0)],
    [(0, 2), (T - 1, 7), (0, 2), (T - 1, 14)],
    [(T - 1, 1), (T - 1, T), (T - 1, T), (T, 0)],
    [(5, T), (5, 1), (5, T), (10, T)],
    [(5, T - 1), (5, 1), (5, T), (10, T - 1)],
    [(0, 65536), (0, 65536), (0, 131072), (0, T)],
];

const MOSTS: [Row; 9] = [
    [(0, 0), (0, 0), (0, 0), (0, 0)],
    [(0, 0), (0, 1), (0, 1), (0, 0)],
    [(T, 1), (0, 0), (T, 1), (0, 0)],
    [(0, 1), (0, 1), (0, 1), (0, 1)],
    [(3, 1), (2, 1), (3, 1), (5, 1)],
    [(1, 1), (T - 1, 1), (T - 1, 1), (T, 1)],
    [(2, 1), (T - 1, 1), (T - 1, 1), (T, 1)],
    [(0, 1), (T, 1), (T, 1), (T, 1)],
    [(T, 1), (T, 1), (T, 1), (T, 1)],
];

fn value<W: Reported>(pair: Pair) -> W {
    W::from_told(Told {
        first: pair.0,
        second: pair.1,
    })
}

fn pair<W: Reported>(value: W) -> Pair
    ensures first { result.0 ≡ (W.Reported.report.tells value).first }
    ensures second { result.1 ≡ (W.Reported.report.tells value).second }
{
    let told = value.tells();
    (told.first, told.second)
}

// Whether the two values are told as they were read, and come to this join and this chain.
fn holds<W: Reported>([a, b, joined, chained]: Row) -> bool {
    let (x, y): (W, W) = (value(a), value(b));
    pair(x) == a && pair(y) == b && pair(x.join(y)) == joined && pair(x.chain(y)) == chained
}

// Whether zero, one and the weight of an event of this load are these.
fn begins<W: Reported>(load: u32, zero: Pair, one: Pair, weight: Pair) -> bool {
    let event = Event {
        time: 9,
        lift: 1,
        kind: 4,
        level: 119,
        load,
    };
    pair(W::zero()) == zero && pair(W::one()) == one && pair(W::weigh(event)) == weight
}

// Whether forgetting the ways of the join and of the chain is joining and chaining without them.
fn forgets([a, b, _, _]: Row) -> bool {
    let (x, y): (LeastWays, LeastWays) = (value(a), value(b));
    let (v, w): (Least, Least) = (read_as(x), read_as(y));
    pair(read_as::<LeastWays, Least>(x.join(y))) == pair(v.join(w))
        && pair(read_as::<LeastWays, Least>(x.chain(y))) == pair(v.chain(w))
}

#[test]
fn counts(rt: HostRuntime) {
    for row in COUNTS {
        assert!(rt; holds::<Count>(row));
    }
    assert!(rt; begins::<Count>(T, (0, 0), (1, 0), (1, 0)));
}

#[test]
fn least_weights(rt: HostRuntime) {
    for row in LEASTS {
        assert!(rt; holds::<Least>(row));
    }
    assert!(rt; begins::<Least>(T, (T, 0), (0, 0), (T, 0)));
}

#[test]
fn least_weights_and_ways(rt: HostRuntime) {
    for row in LEAST_WAYS {
        assert!(rt; holds::<LeastWays>(row) && forgets(row));
    }
    assert!(rt; begins::<LeastWays>(T - 1, (T, 0), (0, 1), (T - 1, 1)));
    assert!(rt; begins::<LeastWays>(T, (T, 0), (0, 1), (T, 0)));
}

#[test]
fn most_weights(rt: HostRuntime) {
    for row in MOSTS {
        assert!(rt; holds::<Most>(row));
    }
    assert!(rt; begins::<Most>(T, (0, 0), (0, 1), (T, 1)));
}

// The numbers of the kinds, and pairs that no value tells.
#[test]
fn numbers(rt: HostRuntime) {
    assert!(rt;
        Count::number() == 1
            && Least::number() == 2
            && LeastWays::number() == 3
            && Most::number() == 4
    );
    assert!(rt; pair(LeastWays::new(T, 1)) == (T, 0) && pair(LeastWays::new(T - 1, 0)) == (T, 0));
    assert!(rt;
        pair::<Count>(value((T, 2))) == (T, 0)
            && pair::<Least>(value((T, 2))) == (T, 0)
            && pair::<Most>(value((T, 2))) == (T, 1)
    );
}
