//! The grammar is unambiguous.
ghost use Rattle.std.specs.Prelude.{◌≡◌};
ghost use Rattle.grammar.specs.Theorems.{OneTree};

/// No list of tokens writes two patterns. Answers 0.
pub fn one_tree() -> u8
    ensures { (result ≡ 0) × OneTree }
{
    0
}
