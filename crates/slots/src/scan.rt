//! Searches over the kept events.
ghost use Rattle.std.specs.Prelude.{◌≡◌};
ghost use Rattle.std.specs.List.{prefix_len};
ghost use Rattle.semantics.specs.Histories.{earlier_than};
ghost use Rattle.semantics.specs.Meaning.{LeastLift};

use events::Event;

/// How many leading events are before `start`.
pub fn leading_before(events: &[Event], start: u64) -> usize
    ensures { result ≡ prefix_len (earlier_than start) events.now }
{
    events
        .iter()
        .take_while(|event| u64::from(event.time) < start)
        .count()
}

/// The least lift at or above `lift` that has an event not before `from`.
pub fn least_lift(events: &[Event], from: u64, lift: u16) -> Option<u16>
    ensures { LeastLift events.now from lift result }
{
    events
        .iter()
        .filter(|event| event.lift >= lift && u64::from(event.time) >= from)
        .map(|event| event.lift)
        .min()
}
