//! A pattern that reading can give.
ghost use Rattle.std.specs.Prelude.{◌≡◌, length};
ghost use Rattle.grammar.specs.Limits.{Valid};
ghost use Rattle.pattern.specs.Nodes.{trees, tree_of};
ghost use Rattle.pattern.specs.Stacks.{held};

use crate::node::Node;
use crate::stack::Stack;

/// A pattern: a type name, a part that is repeated, or a SEQ of two or more parts.
#[derive(Clone, Copy, Debug)]
pub struct Pattern {
    pub(crate) nodes: Stack<Node, 250>,
    ghost one: { length (trees (held nodes.items nodes.len)) ≡ 1 },
    ghost valid: { ∥ Valid (tree_of (held nodes.items nodes.len)) ∥₁ },
}
