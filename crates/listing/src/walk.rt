//! Whether a choice is a trend.
ghost use Rattle.std.specs.Prelude.{◌≡◌, Some, None};
ghost use Rattle.listing.specs.Walk.{inside, may_come, may_end, leads, picked};

use crate::scope::Scope;
use events::Event;
use pattern::Template;
use rules::Follow;

/// A scope, with the template of its pattern.
#[derive_where(Clone, Copy)]
pub(crate) struct Walk<'a, R> {
    pub(crate) scope: &'a Scope<'a, R>,
    pub(crate) template: Template,
}

impl<R: Follow> Walk<'_, R> {
    fn is_inside(&self, event: Event) -> bool
        ensures { let s = self.now.scope.now in result ≡ inside s.setup.now s.window event }
    {
        let time = u64::from(event.time);
        let Scope { setup, window, .. } = *self.scope;
        setup.window_start(window) <= time && time < setup.window_end(window)
    }

    // `slots` has a test like this one: listing goes by the definition and shares nothing with the loops.
    fn comes_after(&self, earlier: Event, later: Event) -> bool
        ensures { let s = self.now.scope.now in result ≡ may_come R.Follow.rule s.setup.now self.now.template s.window (Some earlier) later }
    {
        earlier.lift == later.lift
            && self.is_inside(earlier)
            && earlier.time < later.time
            && self.template.has_step(earlier.kind, later.kind)
            && self.scope.setup.rule.follows(earlier, later)
    }

    /// Whether the event may come after the previous one, or as the first.
    fn comes(&self, previous: Option<Event>, event: Event) -> bool
        ensures { let s = self.now.scope.now in result ≡ may_come R.Follow.rule s.setup.now self.now.template s.window previous event }
    {
        match previous {
            None => event.kind == u8::from(self.template.start()),
            Some(earlier) => self.comes_after(earlier, event),
        }
    }

    /// Whether a trend of the lift may end with this event.
    fn ends(&self, last: Event) -> bool
        ensures { let s = self.now.scope.now in result ≡ may_end R.Follow.rule s.setup.now self.now.template s.window s.lift (Some last) }
    {
        last.lift == self.scope.lift
            && self.is_inside(last)
            && last.kind == u8::from(self.template.end())
    }

    /// Whether the events that the marks at this place choose make a trend.
    pub(crate) fn is_trend(&self, place: u32) -> bool
        ensures { let s = self.now.scope.now in result ≡ leads R.Follow.rule s.setup.now self.now.template s.window s.lift None (picked place s.events.now) }
    {
        // No flags to zip with: a choice is a number here, whose binary digits are its marks.
        let mut bits = place;
        let mut previous = None;
        for &event in self.scope.events {
            if bits % 2 == 1 {
                if !self.comes(previous, event) {
                    return false;
                }
                previous = Some(event);
            }
            bits /= 2;
        }
        // Three forms of `is_some_and` were tried here, and their proofs did not close.
        match previous {
            Some(last) => self.ends(last),
            None => false,
        }
    }
}
