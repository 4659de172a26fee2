//! A pattern as a list of nodes in postfix order.
use events::EventType;

#[derive(Clone, Copy, Debug, PartialEq, Eq)]
pub enum Node {
    /// A type name: one part more.
    Name(EventType),
    /// The last part is repeated.
    Plus,
    /// The last two parts become a SEQ.
    Pair,
    /// The last part goes to the end of the SEQ before it.
    More,
}
