//! From tokens to nodes, one token at a time.
use crate::node::Node;
use crate::stack::Stack;

/// What may come next.
#[derive(Clone, Copy, Debug, PartialEq, Eq)]
pub enum Mode {
    /// A part must come.
    Part,
    /// The bracket of a SEQ must come.
    Seq,
    /// An atom has ended.
    Atom,
    /// A part has ended with its plus.
    Repeated,
}

/// An open bracket.
#[derive(Clone, Copy, Debug, PartialEq, Eq)]
pub enum Bracket {
    /// A plain one.
    Group,
    /// That of a SEQ, in its first part.
    First,
    /// That of a SEQ, in its second part.
    Second,
    /// That of a SEQ, in a later part.
    Later,
}

#[derive(Drop)]
pub struct Parser {
    pub nodes: Stack<Node, 250>,
    pub brackets: Stack<Bracket, 16>,
    pub mode: Mode,
}
