//! What one token does to a parser.
ghost use Rattle.std.specs.Prelude.{◌≡◌, ◌+◌, ◌<◌, ◌≤◌};
ghost use Rattle.pattern.specs.Parsing.{view, begun, opens, closes, parts, names_part, verdict, Follows};

use crate::node::Node;
use crate::parser::{Bracket, Mode, Parser};
use crate::refusal::ReadRefusal;
use crate::stack::Stack;
use events::EventType;
use grammar::Symbol;

/// How many brackets may be open at once.
const MOST_OPEN: usize = 16;

impl Parser {
    pub fn new() -> Parser
        ensures { view result ≡ begun }
    {
        Parser {
            nodes: Stack::new(Node::Plus),
            brackets: Stack::new(Bracket::Group),
            mode: Mode::Part,
        }
    }

    /// Opens a bracket, if it is not one too many.
    // The count is asked after the grammar has said yes, by a guard.
    fn open(&mut self, bracket: Bracket) -> Result<(), ReadRefusal>
        ensures grown { self.new.nodes.len ≤ self.old.nodes.len + 1 }
        ensures verdict { Follows (opens bracket (view self.old).brackets (view self.old).nodes) result self.new }
    {
        match self.brackets.len() {
            count if count < MOST_OPEN => {
                self.brackets.push(bracket);
                self.mode = Mode::Part;
                Ok(())
            }
            _ => Err(ReadRefusal::Depth),
        }
    }

    // That a node more has room is a premise, here and below: it follows from the count of tokens so far,
    // which the parser does not keep.
    fn close(&mut self) -> Result<(), ReadRefusal>
        requires { self.old.nodes.len < 250 }
        ensures grown { self.new.nodes.len ≤ self.old.nodes.len + 1 }
        ensures verdict { Follows (closes (view self.old).brackets (view self.old).nodes) result self.new }
    {
        let Some(bracket) = self.brackets.pop() else {
            return Err(ReadRefusal::Grammar);
        };
        match bracket {
            Bracket::Group => {}
            Bracket::First => return Err(ReadRefusal::Grammar),
            Bracket::Second => self.nodes.push(Node::Pair),
            Bracket::Later => self.nodes.push(Node::More),
        }
        self.mode = Mode::Atom;
        Ok(())
    }

    fn comma(&mut self) -> Result<(), ReadRefusal>
        requires { self.old.nodes.len < 250 }
        ensures grown { self.new.nodes.len ≤ self.old.nodes.len + 1 }
        ensures verdict { Follows (parts (view self.old).brackets (view self.old).nodes) result self.new }
    {
        let Some(bracket) = self.brackets.pop() else {
            return Err(ReadRefusal::Grammar);
        };
        match bracket {
            Bracket::Group => return Err(ReadRefusal::Grammar),
            Bracket::First => self.brackets.push(Bracket::Second),
            Bracket::Second => {
                self.nodes.push(Node::Pair);
                self.brackets.push(Bracket::Later);
            }
            Bracket::Later => {
                self.nodes.push(Node::More);
                self.brackets.push(Bracket::Later);
            }
        }
        self.mode = Mode::Part;
        Ok(())
    }

    fn name(&mut self, kind: EventType) -> Result<(), ReadRefusal>
        requires { self.old.nodes.len < 250 }
        ensures grown { self.new.nodes.len ≤ self.old.nodes.len + 1 }
        ensures verdict { Follows (names_part kind (view self.old).brackets (view self.old).nodes) result self.new }
    {
        if self.nodes.as_slice().contains(&Node::Name(kind)) {
            return Err(ReadRefusal::Repeat);
        }
        self.nodes.push(Node::Name(kind));
        self.mode = Mode::Atom;
        Ok(())
    }

    /// Takes one token more, or says why it cannot.
    pub fn accept(&mut self, symbol: Symbol) -> Result<(), ReadRefusal>
        requires { self.old.nodes.len < 250 }
        ensures grown { self.new.nodes.len ≤ self.old.nodes.len + 1 }
        ensures verdict { Follows (verdict (view self.old) symbol) result self.new }
    {
        match (self.mode, symbol) {
            (Mode::Part, Symbol::Name(kind)) => self.name(kind),
            (Mode::Part, Symbol::Open) => self.open(Bracket::Group),
            (Mode::Part, Symbol::Seq) => {
                self.mode = Mode::Seq;
                Ok(())
            }
            (Mode::Seq, Symbol::Open) => self.open(Bracket::First),
            (Mode::Atom, Symbol::Plus) => {
                self.nodes.push(Node::Plus);
                self.mode = Mode::Repeated;
                Ok(())
            }
            (Mode::Atom | Mode::Repeated, Symbol::Close) => self.close(),
            (Mode::Atom | Mode::Repeated, Symbol::Comma) => self.comma(),
            _ => Err(ReadRefusal::Grammar),
        }
    }
}
