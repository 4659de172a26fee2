//! Writing a pattern's text.
ghost use Rattle.std.specs.Prelude.{◌≡◌, ◌≤◌, [], ◌∷◌, reverse, length, Some};
ghost use Rattle.grammar.specs.Texts.{spelled, tokens, written};
ghost use Rattle.pattern.specs.declared.node.Node.TheVariants.{Pair, More};
ghost use Rattle.pattern.specs.Drafts.{drafted, newest_is_plus, Puts, PutsLast, operand, leading, unclosed};
ghost use Rattle.pattern.specs.Nodes.{trees};
ghost use Rattle.pattern.specs.Patterns.{tree};
ghost use Rattle.pattern.specs.Reading.{Reads, accepted};
ghost use Rattle.pattern.specs.Writing.{Written};

use crate::draft::Draft;
use crate::node::Node;
use crate::pattern::Pattern;
use crate::refusal::WriteRefusal;
use grammar::Symbol;
use std::fmt;

/// The text of a token.
// A borrowed text and no `Display`: the draft is written from its end, so the length comes first.
fn text_of(symbol: Symbol) -> &'static str
    ensures { result.now ≡ spelled symbol }
{
    match symbol {
        Symbol::Name(kind) => kind.name(),
        Symbol::Seq => "SEQ",
        Symbol::Open => "(",
        Symbol::Close => ")",
        Symbol::Comma => ",",
        Symbol::Plus => "+",
    }
}

/// Whether the last part is repeated.
fn ends_in_plus(nodes: &[Node]) -> bool
    ensures { result ≡ newest_is_plus (reverse nodes.now) }
{
    nodes.last() == Some(&Node::Plus)
}

impl Draft {
    fn new() -> Draft
        ensures { drafted result ≡ [] }
    {
        Draft {
            bytes: [0; 250],
            at: 250,
        }
    }

    /// Puts a token before the text, where there is room.
    fn put(&mut self, symbol: Symbol)
        ensures { Puts (symbol ∷ []) self.old self.new }
    {
        let word = text_of(symbol).as_bytes();
        if word.len() <= self.at {
            let start = self.at - word.len();
            self.bytes[start..self.at].copy_from_slice(word);
            self.at = start;
        }
    }

    /// Puts the last part that the nodes stand for, and answers the nodes before it.
    // The clause `fewer` stands at all five functions that call one another: it is the measure of their calls.
    #[cycle(lead_more_operand_pair_part)]
    fn part<'a>(&mut self, nodes: &'a [Node]) -> &'a [Node]
        ensures fewer { length result.now ≤ length nodes.now }
        ensures puts { PutsLast tokens (trees (reverse nodes.now)) self.old (trees (reverse result.now)) self.new }
    {
        let Some((node, before)) = nodes.split_last() else {
            return nodes;
        };
        match *node {
            Node::Name(kind) => {
                self.put(Symbol::Name(kind));
                before
            }
            Node::Plus => {
                self.put(Symbol::Plus);
                self.operand(before)
            }
            Node::Pair => {
                self.put(Symbol::Close);
                self.pair(before)
            }
            Node::More => {
                self.put(Symbol::Close);
                self.more(before)
            }
        }
    }

    /// Puts the last part as it stands before a plus.
    #[cycle(lead_more_operand_pair_part)]
    fn operand<'a>(&mut self, nodes: &'a [Node]) -> &'a [Node]
        ensures fewer { length result.now ≤ length nodes.now }
        ensures puts { PutsLast operand (trees (reverse nodes.now)) self.old (trees (reverse result.now)) self.new }
    {
        if !ends_in_plus(nodes) {
            return self.part(nodes);
        }
        self.put(Symbol::Close);
        let before = self.part(nodes);
        self.put(Symbol::Open);
        before
    }

    /// Puts the last part as the first of a SEQ.
    #[cycle(lead_more_operand_pair_part)]
    fn lead<'a>(&mut self, nodes: &'a [Node]) -> &'a [Node]
        ensures fewer { length result.now ≤ length nodes.now }
        ensures puts { PutsLast leading (trees (reverse nodes.now)) self.old (trees (reverse result.now)) self.new }
    {
        let before = self.part(nodes);
        self.put(Symbol::Open);
        self.put(Symbol::Seq);
        before
    }

    /// Puts the last two parts as a SEQ that is not closed.
    #[cycle(lead_more_operand_pair_part)]
    fn pair<'a>(&mut self, nodes: &'a [Node]) -> &'a [Node]
        ensures fewer { length result.now ≤ length nodes.now }
        ensures puts { PutsLast unclosed (trees (Pair ∷ reverse nodes.now)) self.old (trees (reverse result.now)) self.new }
    {
        let first = self.part(nodes);
        self.put(Symbol::Comma);
        self.lead(first)
    }

    /// Puts the last part at the end of the SEQ before it, which is not closed.
    #[cycle(lead_more_operand_pair_part)]
    fn more<'a>(&mut self, nodes: &'a [Node]) -> &'a [Node]
        ensures fewer { length result.now ≤ length nodes.now }
        ensures puts { PutsLast unclosed (trees (More ∷ reverse nodes.now)) self.old (trees (reverse result.now)) self.new }
    {
        let seq = self.part(nodes);
        self.put(Symbol::Comma);
        let Some((node, before)) = seq.split_last() else {
            return seq;
        };
        match *node {
            Node::Pair => self.pair(before),
            Node::More => self.more(before),
            Node::Name(_) | Node::Plus => self.lead(seq),
        }
    }

    /// Puts a whole pattern's text, where there is none so far.
    // Into a draft that is lent: one that is answered would be copied.
    fn whole(&mut self, pattern: &Pattern)
        requires { drafted self.old ≡ [] }
        ensures { drafted self.new ≡ written (tree pattern.now) }
    {
        let _none = self.part(pattern.nodes.as_slice());
    }

    /// The text so far.
    fn text(&self) -> &[u8]
        ensures { result.now ≡ drafted self.now }
    {
        &self.bytes[self.at..]
    }

    /// Copies the text to the front of the given bytes, if they hold it.
    fn copy_to(&self, out: &mut [u8]) -> Result<usize, WriteRefusal>
        ensures { Written (drafted self.now) out.old result out.new }
    {
        let text = self.text();
        let n = text.len();
        if out.len() < n {
            return Err(WriteRefusal::Room);
        }
        out[..n].copy_from_slice(text);
        Ok(n)
    }
}

impl Pattern {
    /// Writes the pattern's text to the front of the given bytes and answers its length.
    pub fn write(&self, out: &mut [u8]) -> Result<usize, WriteRefusal>
        ensures text { Written (written (tree self.now)) out.old result out.new }
        ensures reads { Reads (written (tree self.now)) (accepted (tree self.now)) }
    {
        let mut draft = Draft::new();
        draft.whole(self);
        draft.copy_to(out)
    }
}

impl fmt::Display for Pattern {
    ghost output = { λ pattern. Some (written (tree pattern)) };

    fn fmt<W: fmt::Write>(&self, f: &mut fmt::Formatter<W>) -> fmt::Result {
        let mut draft = Draft::new();
        draft.whole(self);
        let text = str::from_utf8(draft.text()).map_err(|_| fmt::Error)?;
        f.write_str(text)
    }
}
