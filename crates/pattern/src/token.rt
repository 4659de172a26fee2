//! The tokens of a pattern text, from the left.

/// A token is a stretch of the text itself: a longest run of letters, or one sign.
#[derive(Clone, Copy, Debug, PartialEq, Eq)]
pub enum Token<'a> {
    Word(&'a [u8]),
    Open,
    Close,
    Comma,
    Plus,
}

/// A token with its place, the count of bytes before it.
#[derive(Clone, Copy, Debug, PartialEq, Eq)]
pub struct Placed<'a> {
    pub token: Token<'a>,
    pub place: usize,
}
