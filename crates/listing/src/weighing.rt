//! What a choice weighs.
ghost use Rattle.std.specs.Prelude.{◌≡◌};
ghost use Rattle.semantics.specs.Trends.{chosen, weight};

use events::Event;
use weights::Weight;

/// The chain of the weights of the chosen events, in order.
// Marks beside events, since a caller keeps the events and moves the marks.
pub fn weight_of<W: Weight>(events: &[Event], marks: &[bool]) -> W
    ensures { result ≡ weight W.Weight.kind (chosen marks.now events.now) }
{
    events
        .iter()
        .zip(marks)
        .filter(|(_, mark)| **mark)
        .fold(W::one(), |all, (event, _)| all.chain(W::weigh(*event)))
}
