//! From a pattern to its template.
ghost use Rattle.std.specs.Prelude.{◌≡◌, ℕ, ◌<◌, ◌⊎◌, ◌↔◌, reverse, length, IfSome, Decides};
ghost use Rattle.events.specs.Types.{code_of};
ghost use Rattle.pattern.specs.Compiled.{Marked, MarkedStep, HasType, HasStep, AddsLast, TemplateOf, DecidesWords};
ghost use Rattle.pattern.specs.Nodes.{trees};
ghost use Rattle.pattern.specs.Patterns.{tree};

use crate::node::Node;
use crate::pattern::Pattern;
use crate::template::{Marks, Span, Template};
use events::EventType;

impl Marks {
    fn none() -> Marks
        ensures types { (a : ℕ) → Marked result.types a → ⊥ }
        ensures steps { (a b : ℕ) → MarkedStep result.steps a b → ⊥ }
    {
        Marks {
            types: [false; 10],
            steps: [[false; 10]; 10],
        }
    }

    fn add_type(&mut self, kind: EventType)
        ensures types { (a : ℕ) → Marked self.new.types a ↔ (Marked self.old.types a ⊎ (a ≡ code_of kind)) }
        ensures steps { self.new.steps ≡ self.old.steps }
    {
        let at = u8::from(kind) as usize;
        self.types[at] = true;
    }

    fn add_step(&mut self, from: EventType, to: EventType)
        ensures steps { (a b : ℕ) → MarkedStep self.new.steps a b ↔ (MarkedStep self.old.steps a b ⊎ ((a ≡ code_of from) × (b ≡ code_of to))) }
        ensures types { self.new.types ≡ self.old.types }
    {
        let row = &mut self.steps[u8::from(from) as usize];
        row[u8::from(to) as usize] = true;
    }

    /// Adds the last part that the nodes stand for, and answers its span with the nodes before it.
    fn add_part<'a>(&mut self, nodes: &'a [Node]) -> Option<(Span, &'a [Node])>
        ensures fewer { IfSome result (λ p. length p.1.now < length nodes.now) }
        ensures adds { AddsLast (trees (reverse nodes.now)) self.old self.new result }
    {
        let (node, before) = nodes.split_last()?;
        match *node {
            Node::Name(kind) => {
                self.add_type(kind);
                let span = Span {
                    start: kind,
                    end: kind,
                };
                Some((span, before))
            }
            Node::Plus => {
                let (span, rest) = self.add_part(before)?;
                self.add_step(span.end, span.start);
                Some((span, rest))
            }
            Node::Pair | Node::More => {
                let (right, behind) = self.add_part(before)?;
                let (left, rest) = self.add_part(behind)?;
                self.add_step(left.end, right.start);
                let span = Span {
                    start: left.start,
                    end: right.end,
                };
                Some((span, rest))
            }
        }
    }
}

impl Pattern {
    /// The pattern's template.
    pub fn template(&self) -> Template
        ensures template { TemplateOf (tree self.now) result }
        ensures words { DecidesWords (tree self.now) result }
    {
        let mut marks = Marks::none();
        let (span, _none) = marks.add_part(self.nodes.as_slice()).unwrap();
        Template {
            start: span.start,
            end: span.end,
            marks,
        }
    }
}

impl Template {
    /// The type that every word begins with.
    pub fn start(&self) -> EventType
        ensures { result ≡ self.now.start }
    {
        self.start
    }

    /// The type that every word ends with.
    pub fn end(&self) -> EventType
        ensures { result ≡ self.now.end }
    {
        self.end
    }

    /// Whether the type with this code is one that the pattern names.
    // Codes and no types, here and below: the code of an event in memory may be that of no type.
    pub fn has_type(&self, code: u8) -> bool
        ensures { Decides result (HasType self.now code) }
    {
        let at = code as usize;
        at < 10 && self.marks.types[at]
    }

    /// Whether there is a step between the types with these codes.
    pub fn has_step(&self, from: u8, to: u8) -> bool
        ensures { Decides result (HasStep self.now from to) }
    {
        let from = from as usize;
        let to = to as usize;
        from < 10 && to < 10 && self.marks.steps[from][to]
    }
}
