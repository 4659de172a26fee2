//! What holds of histories that are as defined, for any weight kind and any follow rule. Each function answers 0.
ghost use Rattle.std.specs.Prelude.{◌≡◌};
ghost use Rattle.semantics.specs.Theorems.{KeptAsDropped, TimesInOrder, KindsAlwaysAgree};

use rules::Follow;
use weights::Weight;

/// Times of accepted events never fall, none is after the clock, and each was taken into the first open window.
pub fn times_in_order<W: Weight, R: Follow>() -> u8
    ensures { (result ≡ 0) × TimesInOrder W.Weight.kind R.Follow.rule }
{
    0
}

/// An accepted take adds to the kept events, an accepted close drops leading ones, and all else leaves them.
pub fn kept_as_dropped<W: Weight, R: Follow>() -> u8
    ensures { (result ≡ 0) × KeptAsDropped W.Weight.kind R.Follow.rule }
{
    0
}

/// Two histories of the same calls, by two kinds that a lawful map joins, agree.
pub fn kinds_always_agree<V: Weight, W: Weight, R: Follow>() -> u8
    ensures { (result ≡ 0) × KindsAlwaysAgree V.Weight.kind W.Weight.kind R.Follow.rule }
{
    0
}
