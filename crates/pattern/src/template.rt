//! The template of a pattern.
use events::EventType;

/// Which types a pattern names, and between which of them it has a step.
#[derive(Clone, Copy, Debug, PartialEq, Eq)]
pub(crate) struct Marks {
    pub(crate) types: [bool; 10],
    pub(crate) steps: [[bool; 10]; 10],
}

/// A part's start and end.
#[derive(Clone, Copy, Debug, PartialEq, Eq)]
pub(crate) struct Span {
    pub(crate) start: EventType,
    pub(crate) end: EventType,
}

/// A start type, an end type and a set of steps between types.
#[derive(Clone, Copy, Debug, PartialEq, Eq)]
pub struct Template {
    pub(crate) start: EventType,
    pub(crate) end: EventType,
    pub(crate) marks: Marks,
}
