//! Goes from choice to choice through the trends of a window and lift, by what a trend is.
#![tactic(auto)]

ghost use Rattle.std.specs.Prelude.{◌≡◌};
ghost use Rattle.listing.specs.Theorems.{VisitsList, JoinsResult};

mod numbers;
mod scope;
mod walk;
pub mod weighing;

use rules::Follow;
pub use scope::Scope;
pub use weighing::weight_of;
use weights::Weight;

/// Moving on from no choice until the end meets every trend, each once, and what they weigh joins to the
/// result. Answers 0.
pub fn trends_visited<W: Weight, R: Follow>() -> u8
    ensures zero { result ≡ 0 }
    ensures listed { VisitsList R.Follow.rule }
    ensures joined { JoinsResult W.Weight.kind R.Follow.rule }
{
    0
}
