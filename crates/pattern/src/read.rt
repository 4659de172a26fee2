//! Reading a pattern text.
ghost use Rattle.std.specs.Prelude.{◌≡◌, ◌+◌, ◌<◌, ◌≤◌, length, OnErr};
ghost use Rattle.grammar.specs.Limits.{Valid};
ghost use Rattle.grammar.specs.Trees.{name};
ghost use Rattle.pattern.specs.Nodes.{trees, tree_of};
ghost use Rattle.pattern.specs.Parsing.{view, is_whole, Took};
ghost use Rattle.pattern.specs.Patterns.{tree, outcome, read_outcome, Exactly};
ghost use Rattle.pattern.specs.Reading.{Reads, Outcome};

use crate::node::Node;
use crate::parser::{Mode, Parser};
use crate::pattern::Pattern;
use crate::refusal::{ReadFault, ReadRefusal};
use crate::scan::Tokens;
use crate::stack::Stack;
use crate::token::Placed;
use events::EventType;

impl Parser {
    /// Takes one token more, or says which question it fails and where.
    // Room for a node is a premise, as at `accept`.
    fn take(&mut self, placed: Placed) -> Result<(), ReadFault>
        requires { self.old.nodes.len < 250 }
        ensures grown { self.new.nodes.len ≤ self.old.nodes.len + 1 }
        ensures took { Took (view self.old) placed.entry result (view self.new) }
    {
        let place = placed.place;
        let Some(symbol) = placed.token.symbol() else {
            let refusal = ReadRefusal::Word;
            return Err(ReadFault { refusal, place });
        };
        self.accept(symbol)
            .map_err(|refusal| ReadFault { refusal, place })
    }

    /// Whether the tokens so far are a pattern.
    fn is_whole(&self) -> bool
        ensures { result ≡ is_whole (view self.now) }
    {
        match self.mode {
            Mode::Atom | Mode::Repeated => self.brackets.len() == 0,
            Mode::Part | Mode::Seq => false,
        }
    }

    // No `From`, which has no premises.
    fn into_pattern(self) -> Pattern
        requires one { length (trees (view self).nodes) ≡ 1 }
        requires valid { Valid (tree_of (view self).nodes) }
        ensures { tree result ≡ tree_of (view self).nodes }
    {
        Pattern { nodes: self.nodes }
    }
}

// The same clause at three functions: `parse_sized` asks for the length, this one the rest, and the last
// clauses of `parse` rest on it.
fn parse_tokens(text: &[u8]) -> Result<Pattern, ReadFault>
    requires some { 1 ≤ length text.now }
    requires few { length text.now ≤ 250 }
    ensures { Reads text.now (outcome result) }
{
    let mut tokens = Tokens::new(text);
    let mut parser = Parser::new();
    while let Some(placed) = tokens.next()? {
        parser.take(placed)?;
    }
    if !parser.is_whole() {
        let refusal = ReadRefusal::Grammar;
        let place = text.len();
        return Err(ReadFault { refusal, place });
    }
    Ok(parser.into_pattern())
}

impl Pattern {
    /// The pattern of one type name.
    pub fn single(kind: EventType) -> Pattern
        ensures { tree result ≡ name kind }
    {
        let mut nodes = Stack::new(Node::Plus);
        nodes.push(Node::Name(kind));
        Pattern { nodes }
    }

    /// The pattern that a text writes, or the first question that the text fails, and where.
    // A function with three clauses, and no `TryFrom`, whose one ghost member would run them together; no
    // `FromStr`, which takes UTF-8 alone.
    pub fn parse(text: &[u8]) -> Result<Pattern, ReadFault>
        ensures reads { Reads text.now (outcome result) }
        ensures only { (o : Outcome) → Reads text.now o → o ≡ outcome result }
        ensures accepts { Exactly text.now (outcome result) }
    {
        parse_sized(text)
    }

    /// Reads a text into the pattern; a refused text leaves it as it was.
    pub fn read(&mut self, text: &[u8]) -> Result<(), ReadFault>
        ensures reads { Reads text.now (read_outcome result self.new) }
        ensures only { (o : Outcome) → Reads text.now o → o ≡ read_outcome result self.new }
        ensures accepts { Exactly text.now (read_outcome result self.new) }
        ensures refused { OnErr result (self.new ≡ self.old) }
    {
        *self = Pattern::parse(text)?;
        Ok(())
    }
}

fn parse_sized(text: &[u8]) -> Result<Pattern, ReadFault>
    ensures { Reads text.now (outcome result) }
{
    if text.is_empty() || text.len() > 250 {
        let refusal = ReadRefusal::Length;
        return Err(ReadFault { refusal, place: 0 });
    }
    parse_tokens(text)
}
