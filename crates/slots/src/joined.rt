//! The join of a window's slots.
ghost use Rattle.std.specs.Prelude.{◌≡◌, ◌*◌, ◌≤◌, reverse, length};
ghost use Rattle.semantics.specs.Core.{gathered};
ghost use Rattle.slots.specs.Rows.{row, ends_by};

use crate::place::slot_of;
use events::Event;
use weights::Weight;

/// The join of the slots of `window` over every event of that lift, with this end type and not before `from`.
pub fn joined_slots<W: Weight>(
    events: &[Event],
    slots: &[W],
    window: u64,
    lift: u16,
    ends: u8,
    from: u64,
) -> W
    requires { 8 * length events.now ≤ length slots.now }
    ensures { result ≡ gathered W.Weight.kind (ends_by lift ends from) (row W.Weight.kind slots.now window (reverse events.now)) }
{
    let mut sum = W::zero();
    // The index is the event's place among the slots.
    for (i, &event) in events.iter().enumerate() {
        if ends_by(event, lift, ends, from) {
            sum = slots[slot_of(i, window)].join(sum);
        }
    }
    sum
}

/// Whether the event ends a trend of this lift, not before `from`.
fn ends_by(event: Event, lift: u16, ends: u8, from: u64) -> bool
    ensures { result ≡ ends_by lift ends from event }
{
    event.lift == lift && u64::from(event.time) >= from && event.kind == ends
}
