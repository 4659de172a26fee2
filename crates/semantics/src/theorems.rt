//! What holds of trends and results, for any weight kind and any follow rule. Each function answers 0.
ghost use Rattle.std.specs.Prelude.{◌≡◌};
ghost use Rattle.semantics.specs.Theorems.{OneResult, RecursionIsResult, IrrelevantDropped, KeptSuffice, ResultsCarried, CoreIsGeneral, JoinLawsSuffice};

use rules::Follow;
use weights::Weight;

/// The trends of a window and lift can be listed, and however they are, they come to one result.
pub fn one_result<W: Weight, R: Follow>() -> u8
    ensures { (result ≡ 0) × OneResult W.Weight.kind R.Follow.rule }
{
    0
}

/// The recursion over predecessors, which builds no trend, comes to the result.
pub fn recursion_is_result<W: Weight, R: Follow>() -> u8
    ensures { (result ≡ 0) × RecursionIsResult W.Weight.kind R.Follow.rule }
{
    0
}

/// Events that are not of the window and lift, or whose type is in no word of the pattern, may be dropped.
pub fn irrelevant_dropped<W: Weight, R: Follow>() -> u8
    ensures { (result ≡ 0) × IrrelevantDropped W.Weight.kind R.Follow.rule }
{
    0
}

/// The recursion over the kept events alone comes to the result of all accepted events, in each open window.
pub fn kept_suffice<W: Weight, R: Follow>() -> u8
    ensures { (result ≡ 0) × KeptSuffice W.Weight.kind R.Follow.rule }
{
    0
}

/// A lawful map between two kinds carries each result by the one to the result by the other.
pub fn results_carried<V: Weight, W: Weight, R: Follow>() -> u8
    ensures { (result ≡ 0) × ResultsCarried V.Weight.kind W.Weight.kind R.Follow.rule }
{
    0
}

/// The recursion needs of "may come next" only that it is a test of two events, and of windows nothing; two
/// listings join alike by the laws of join alone.
pub fn core_is_general<W: Weight>() -> u8
    ensures zero { result ≡ 0 }
    ensures core { CoreIsGeneral W.Weight.kind }
    ensures joins { JoinLawsSuffice W.Weight.kind }
{
    0
}
