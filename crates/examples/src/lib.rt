//! Marked examples: calls with the answers that the definitions give them.
#![tactic(auto)]

ghost use Rattle.std.specs.Prelude.{◌≡◌};
ghost use Rattle.semantics.specs.Trends.{All};
ghost use Rattle.examples.specs.Examples.{AsDefined, examples, MostTells};

/// Every answer in the list of examples is as defined, and told so where that is said. Answers 0.
pub fn marked_examples() -> u8
    ensures zero { result ≡ 0 }
    ensures defined { All AsDefined examples }
    ensures told { MostTells }
{
    0
}
