//! Where a place's slots are.
ghost use Rattle.std.specs.Prelude.{◌≡◌, ◌+◌, ◌*◌, ◌<◌, ◌^◌};
ghost use Rattle.slots.specs.Rows.{slot_index};

/// The slot that the window uses at this place.
pub(crate) fn slot_of(place: usize, window: u64) -> usize
    requires { 8 * place + 8 < 2 ^ 64 }
    ensures { result ≡ slot_index place window }
{
    8 * place + (window % 8) as usize
}
