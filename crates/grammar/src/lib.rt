//! The pattern language: what a pattern is, which texts write it, which words it has and which template accepts them.
#![tactic(auto)]

pub mod unambiguous;
pub mod words;

use events::EventType;

/// A token of a pattern text, once its word is known.
#[derive(Clone, Copy, Debug, PartialEq, Eq)]
pub enum Symbol {
    Name(EventType),
    Seq,
    Open,
    Close,
    Comma,
    Plus,
}
