//! The byte records at the edges of a program: a header, events and ticks, results and faults. Their
//! formats, and writing them.
#![tactic(auto)]

pub mod record;
pub mod refusal;
pub mod write;
