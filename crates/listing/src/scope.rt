//! Where trends are looked for, and going from one to the next.
ghost use Rattle.std.specs.Prelude.{◌≡◌, ◌<◌, false, length, MatchOption};
ghost use Rattle.semantics.specs.Trends.{ResultIs};
ghost use Rattle.listing.specs.Order.{Fitting, JoinsAfter, NextTrend};
ghost use Rattle.listing.specs.Walk.{IsFirstBetween, NoTrendBetween};

use crate::numbers::{place_of, set_place};
use crate::walk::Walk;
use crate::weighing::weight_of;
use events::Event;
use rules::Follow;
use semantics::setup::Setup;
use weights::Weight;

/// One window and one lift of the events that an engine has accepted, in their order.
#[derive_where(Clone, Copy)]
pub struct Scope<'a, R> {
    pub setup: &'a Setup<R>,
    pub window: u32,
    pub lift: u16,
    pub events: &'a [Event],
}

impl<R: Follow> Scope<'_, R> {
    /// Moves the marks to the next trend in counting order, if there is one. The marks must have a flag for
    /// each event, of which there may be 16.
    // The caller's marks say where it stands: an `Option` of new marks would need an array with a length.
    pub fn next_trend(&self, marks: &mut [bool]) -> bool
        ensures next { let s = self.now in Fitting s.events.now marks.old → NextTrend R.Follow.rule s.setup.now s.window s.lift s.events.now marks.old result marks.new }
        ensures refused { (Fitting self.now.events.now marks.old → ⊥) → (result ≡ false) × (marks.new ≡ marks.old) }
    {
        if marks.len() != self.events.len() || self.events.len() > 16 {
            return false;
        }
        let end = 1 << marks.len();
        match self.first_above(place_of(marks), end) {
            Some(place) => {
                set_place(marks, place);
                true
            }
            None => false,
        }
    }

    /// The place of the first trend above this one and below `end`.
    fn first_above(&self, from: u32, end: u32) -> Option<u32>
        requires { from < end }
        ensures { let s = self.now in MatchOption result (NoTrendBetween R.Follow.rule s.setup.now s.window s.lift s.events.now from end) (λ n. IsFirstBetween R.Follow.rule s.setup.now s.window s.lift s.events.now from end n) }
    {
        let walk = Walk {
            scope: self,
            template: self.setup.pattern.template(),
        };
        (from + 1..end).find(|&place| walk.is_trend(place))
    }

    /// The join of the weights of the trends after these marks.
    fn join_after<W: Weight>(&self, marks: &mut [bool]) -> W
        requires { Fitting self.now.events.now marks.old }
        ensures { let s = self.now in JoinsAfter R.Follow.rule s.setup.now s.window s.lift s.events.now W.Weight.kind marks.old result }
    {
        let mut all = W::zero();
        while self.next_trend(marks) {
            all = all.join(weight_of(self.events, marks));
        }
        all
    }

    /// The result, had by going through the trends; nothing for more than 16 events.
    pub fn result<W: Weight>(&self) -> Option<W>
        ensures { let s = self.now in MatchOption result (16 < length s.events.now) (λ v. ResultIs W.Weight.kind R.Follow.rule s.setup.now s.window s.lift s.events.now v) }
    {
        let count = self.events.len();
        if count > 16 {
            return None;
        }
        // Sixteen flags at most: an `ArrayVec` would be filled first to be lent.
        let mut marks = [false; 16];
        Some(self.join_after(&mut marks[..count]))
    }
}
