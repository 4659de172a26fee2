//! How a text is cut into tokens.
ghost use Rattle.std.specs.Prelude.{◌≡◌, ◌<◌, ◌≤◌, List, length, drop, ◌≢◌, slice_index, ◌==◌};
ghost use Rattle.std.specs.Char.{is_ascii_uppercase};
ghost use Rattle.std.specs.List.{between, prefix_len};
ghost use Rattle.pattern.specs.Reading.{Letters, OtherFirst, Stretch, Cut};
ghost use Rattle.pattern.specs.Tokens.{Found, Next, Symbolic};
ghost use Rattle.pattern.specs.declared.token.Token.TheVariants.{Word};

use crate::refusal::{ReadFault, ReadRefusal};
use crate::token::{Placed, Token};
use events::EventType;
use grammar::Symbol;

/// The tokens of a text that are still to come.
// The whole text and a place in it, since a refusal tells the place.
#[derive(Clone, Copy, Debug, PartialEq, Eq)]
pub struct Tokens<'a> {
    text: &'a [u8],
    at: usize,
}

// Spaces and letters apart: a test as a parameter would have to be told in each clause below.
fn leading_spaces(text: &[u8]) -> usize
    ensures { result ≡ prefix_len (λ byte. byte == 32) text.now }
{
    text.iter().take_while(|byte| **byte == b' ').count()
}

fn leading_letters(text: &[u8]) -> usize
    ensures { result ≡ prefix_len is_ascii_uppercase text.now }
{
    text.iter()
        .take_while(|byte| byte.is_ascii_uppercase())
        .count()
}

/// The first place from `from` on where no space stands.
fn past_spaces(text: &[u8], from: usize) -> usize
    ensures ahead { from ≤ result }
    ensures cut { (ss : List Stretch) → Cut result (drop result text.now) ss → Cut from (drop from text.now) ss }
    ensures stops { result < length text.now → slice_index text.now result ≢ 32 }
{
    match text.get(from..) {
        Some(rest) => from + leading_spaces(rest),
        None => from,
    }
}

/// The first place from `from` on where no letter stands.
fn past_letters(text: &[u8], from: usize) -> usize
    requires { from ≤ length text.now }
    ensures ahead { from ≤ result }
    ensures within { result ≤ length text.now }
    ensures letters { Letters (between from result text.now) }
    ensures stops { OtherFirst (drop result text.now) }
{
    from + leading_letters(&text[from..])
}

/// The token at a place where no space stands, with the place behind it.
fn token_at<'a>(text: &'a [u8], place: usize) -> Option<(Token<'a>, usize)>
    requires inside { place < length text.now }
    requires solid { slice_index text.now place ≢ 32 }
    ensures { Found text.now place result }
{
    match text[place] {
        b'A'..=b'Z' => {
            let end = past_letters(text, place);
            Some((Token::Word(&text[place..end]), end))
        }
        b'(' => Some((Token::Open, place + 1)),
        b')' => Some((Token::Close, place + 1)),
        b',' => Some((Token::Comma, place + 1)),
        b'+' => Some((Token::Plus, place + 1)),
        _ => None,
    }
}

impl<'a> Tokens<'a> {
    /// All tokens of a text.
    pub fn new(text: &'a [u8]) -> Tokens<'a>
        ensures text { result.text.now ≡ text.now }
        ensures place { result.at ≡ 0 }
    {
        Tokens { text, at: 0 }
    }

    /// The next token, or none at the end, or the place of a byte that no pattern has.
    // No `Iterator`, which would have to say what comes after a wrong byte: a caller writes `next()?`.
    pub fn next(&mut self) -> Result<Option<Placed<'a>>, ReadFault>
        ensures text { self.new.text.now ≡ self.old.text.now }
        ensures next { Next self.old.text.now self.old.at result self.new.at }
    {
        let text = self.text;
        let place = past_spaces(text, self.at);
        if place >= text.len() {
            return Ok(None);
        }
        let Some((token, end)) = token_at(text, place) else {
            let refusal = ReadRefusal::Byte;
            return Err(ReadFault { refusal, place });
        };
        self.at = end;
        Ok(Some(Placed { token, place }))
    }
}

impl Token<'_> {
    /// The symbol that the token is, or none if it is an unknown word.
    // An `Option` and no `TryFrom`: of an unknown word the caller alone knows the place to tell.
    pub fn symbol(self) -> Option<Symbol>
        ensures { Symbolic self.entry result }
    {
        match self {
            Token::Open => Some(Symbol::Open),
            Token::Close => Some(Symbol::Close),
            Token::Comma => Some(Symbol::Comma),
            Token::Plus => Some(Symbol::Plus),
            Token::Word(word) => symbol_of(word),
        }
    }
}

/// `SEQ` or a type name.
fn symbol_of(word: &[u8]) -> Option<Symbol>
    ensures { Symbolic (Word word.entry) result }
{
    if word == b"SEQ".as_slice() {
        return Some(Symbol::Seq);
    }
    EventType::try_from(word).ok().map(Symbol::Name)
}
