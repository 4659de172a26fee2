//! What an engine is made with, but for its kind.
ghost use Rattle.std.specs.Prelude.{◌≤◌};

use pattern::Pattern;

/// Pattern, rule, capacity, and the windows: window k runs from origin + k × slide for `span` slides.
#[derive(Drop)]
pub struct Setup<R> {
    pub pattern: Pattern,
    pub rule: R,
    /// How many events may be kept.
    pub capacity: usize,
    /// When window 0 begins, in seconds.
    pub origin: u32,
    /// How many seconds lie between two windows' starts.
    pub slide: u32,
    /// How many slides a window lasts, and how many windows are open at once.
    pub span: u8,
    ghost ranges: { (origin ≤ 4294967295) × (1 ≤ slide) × (slide ≤ 604800) × (1 ≤ span) × (span ≤ 8) },
    ghost places: { (1 ≤ capacity) × (capacity ≤ 4096) },
}
