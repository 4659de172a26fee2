//! The values of the four kinds.
ghost use Rattle.std.specs.Prelude.{◌≡◌, ◌≤◌};
ghost use Rattle.std.specs.Option.{unwrap_or};

/// How many trends there are.
#[derive(Clone, Copy, Debug, PartialEq, Eq)]
pub struct Count {
    pub number: u32,
    ghost fits: { number ≤ 4294967295 },
}

/// The least weight of a trend.
// The kind is defined on numbers, with the largest for "no trend", and a report tells it so: no `Option`.
#[derive(Clone, Copy, Debug, PartialEq, Eq)]
pub struct Least {
    pub weight: u32,
    ghost fits: { weight ≤ 4294967295 },
}

/// The least weight of a trend, and how many trends have it.
// The kind is defined on two numbers, and a report tells them as they stand: so no `Option` for "no trend".
#[derive(Clone, Copy, Debug, PartialEq, Eq)]
pub struct LeastWays {
    pub weight: u32,
    pub ways: u32,
    ghost fits: { (weight ≤ 4294967295) × (ways ≤ 4294967295) },
    // No ways, and only then, at the weight of zero.
    ghost canonical: { (weight ≡ 4294967295 → ways ≡ 0) × (ways ≡ 0 → weight ≡ 4294967295) },
}

/// The greatest weight of a trend, or nothing where there is no trend.
#[derive(Clone, Copy, Debug, PartialEq, Eq)]
pub struct Most {
    pub weight: Option<u32>,
    ghost fits: { unwrap_or weight 0 ≤ 4294967295 },
}
