//! The follow rules: when a later event may come right after an earlier one in a trend.
#![tactic(auto)]

ghost use Rattle.std.specs.Prelude.{◌≡◌, Decides};
ghost use Rattle.rules.specs.Rules.{Rule, Decided};
ghost use Rattle.rules.specs.Given.{falling, near};
ghost use Rattle.std.proofs.Common.{rules};

use events::Event;

/// A follow rule; its settings are the value's fields.
pub trait Follow {
    // What it means to follow by this rule, and a test that decides it.
    ghost rule: { Rule Self };

    /// Whether the later event follows the earlier one.
    fn follows(&self, earlier: Event, later: Event) -> bool
        ensures meaning { Decides result (rule.meaning self.now earlier later) }
        ensures says { result ≡ rule.says self.now earlier later }
        ensures same { self.exit.now ≡ self.entry.now };

    ghost decides: { Decided rule };
}

/// The later level is below the earlier one.
#[derive(Clone, Copy, Debug, PartialEq, Eq)]
pub struct Falling;

impl Follow for Falling {
    ghost rule = { falling };

    ghost decides = { Prim.search rules };

    fn follows(&self, earlier: Event, later: Event) -> bool {
        later.level < earlier.level
    }
}

/// The later time is from 0 to `gap` seconds after the earlier one.
#[derive(Clone, Copy, Debug, PartialEq, Eq)]
pub struct Near {
    pub gap: u32,
}

impl Follow for Near {
    ghost rule = { near };

    ghost decides = { Prim.search rules };

    fn follows(&self, earlier: Event, later: Event) -> bool {
        let passed = later.time.checked_sub(earlier.time);
        passed.is_some_and(|seconds| seconds <= self.gap)
    }
}
