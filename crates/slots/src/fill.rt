//! What a new event's slots are written with.
ghost use Rattle.std.specs.Prelude.{◌≡◌, ℕ, ◌+◌, ◌*◌, ◌<◌, ◌≤◌, reverse, length, if◌then◌else◌};
ghost use Rattle.events.specs.declared.event.Event.{Event};
ghost use Rattle.grammar.specs.Trees.{In};
ghost use Rattle.semantics.specs.Recursion.{shape_of, before, value_of};
ghost use Rattle.semantics.specs.Windows.{window_end};
ghost use Rattle.slots.specs.Rows.{row, Written, Rewritten, joined_slot, may_come_before};

use crate::place::slot_of;
use events::Event;
use pattern::Template;
use rules::Follow;
use semantics::setup::Setup;
use weights::Weight;

/// Up to eight windows in a row: those from `first` up to, without, `end`.
#[derive(Clone, Copy, Debug, PartialEq, Eq)]
pub struct Windows {
    pub first: u64,
    pub end: u64,
    ghost rising: { first ≤ end },
    ghost few: { end ≤ first + 8 },
    ghost numbered: { end ≤ 4294967296 },
}

/// Puts into the first place's slots of these windows what `value` makes of the window and its slot.
fn write_first<W: Weight, F: Fn(u64, W) -> W>(slots: &mut [W], windows: Windows, value: F)
    requires room { 8 ≤ length slots.old }
    requires callable { (k : ℕ) (v : W) → windows.first ≤ k → k < windows.end → F.pre value k v }
    ensures { Rewritten W.Weight.kind slots.old slots.new windows.first windows.end (F.post value) }
{
    for k in windows.first..windows.end {
        let at = slot_of(0, k);
        slots[at] = value(k, slots[at]);
    }
}

/// The sum, joined by the slot of an older event of this time and at this place, if the window has
/// begun by then.
fn joined<W: Weight, R>(
    setup: &Setup<R>,
    slots: &[W],
    older: usize,
    time: u32,
    window: u64,
    sum: W,
) -> W
    requires { (8 * older + 8 ≤ length slots.now) × (window < 4294967296) }
    ensures { result ≡ joined_slot W.Weight.kind setup.now slots.now older time window sum }
{
    if setup.window_start(window as u32) <= u64::from(time) {
        slots[slot_of(older, window)].join(sum)
    } else {
        sum
    }
}

/// One for the type that starts trends, zero for any other; the type by its code, which may be that of none.
fn start_value<W: Weight>(template: &Template, kind: u8) -> W
    ensures { result ≡ (if (shape_of template.now).starts kind then W.Weight.kind.one else W.Weight.kind.zero) }
{
    if kind == u8::from(template.start()) {
        W::one()
    } else {
        W::zero()
    }
}

/// Whether the earlier event may come right before the later one, in the windows that hold both.
// `listing` has a test like this one: it goes by the definition and shares nothing with the loops.
// Setup, template, older events, slots and windows stay parameters: a struct of them would be made in
// `fill_slots` alone, to be taken apart here and in `gather`.
fn may_precede<R: Follow>(
    setup: &Setup<R>,
    template: &Template,
    earlier: Event,
    later: Event,
) -> bool
    ensures { result ≡ may_come_before R.Follow.rule setup.now (shape_of template.now) later earlier }
{
    earlier.lift == later.lift
        && earlier.time < later.time
        && template.has_step(earlier.kind, later.kind)
        && setup.rule.follows(earlier, later)
}

/// Writes into the event's own slots what those of its predecessors, among the older ones, join to.
fn gather<W: Weight, R: Follow>(
    setup: &Setup<R>,
    template: &Template,
    older: &[Event],
    slots: &[W],
    own: &mut [W],
    event: Event,
    windows: Windows,
)
    requires room { (length slots.now ≡ 8 * length older.now) × (8 ≤ length own.old) }
    requires early { (e : Event) → In e older.now → e.time < event.time → e.time < window_end setup.now windows.first }
    ensures { Written W.Weight.kind own.old own.new 0 windows.first windows.end (λ k. before W.Weight.kind R.Follow.rule setup.now (shape_of template.now) k event (row W.Weight.kind slots.now k (reverse older.now))) }
{
    write_first(own, windows, |_, _| W::zero());
    // The index is the event's place among the slots.
    for (i, &earlier) in older.iter().enumerate() {
        if may_precede(setup, template, earlier, event) {
            write_first(own, windows, |k, sum| {
                joined(setup, slots, i, earlier.time, k, sum)
            });
        }
    }
}

/// Writes the slots of a new event, which comes after the older ones, for these windows:
/// each gets the event's value in that window.
pub fn fill_slots<W: Weight, R: Follow>(
    setup: &Setup<R>,
    template: &Template,
    older: &[Event],
    slots: &mut [W],
    event: Event,
    windows: Windows,
)
    requires room { 8 * length older.now + 8 ≤ length slots.old }
    requires early { (e : Event) → In e older.now → e.time < event.time → e.time < window_end setup.now windows.first }
    ensures { Written W.Weight.kind slots.old slots.new (length older.now) windows.first windows.end (λ k. value_of W.Weight.kind R.Follow.rule setup.now (shape_of template.now) k event (row W.Weight.kind slots.old k (reverse older.now))) }
{
    let (before, own) = slots.split_at_mut(8 * older.len());
    gather(setup, template, older, before, own, event, windows);
    let start: W = start_value(template, event.kind);
    let weight = W::weigh(event);
    write_first(own, windows, |_, sum| start.join(sum).chain(weight));
}
