//! Choices as numbers: the first flag counts 1, the second 2, the third 4.
ghost use Rattle.std.specs.Prelude.{◌≡◌, ◌≤◌, length};
ghost use Rattle.listing.specs.Order.{place};
ghost use Rattle.listing.specs.Walk.{marks_at};

/// Where the marks stand in counting order.
pub(crate) fn place_of(marks: &[bool]) -> u32
    requires { length marks.now ≤ 16 }
    ensures { result ≡ place marks.now }
{
    let mut place = 0;
    for &mark in marks.iter().rev() {
        place = 2 * place + u32::from(mark);
    }
    place
}

/// Sets the marks to those at this place.
pub(crate) fn set_place(marks: &mut [bool], place: u32)
    ensures { marks.new ≡ marks_at (length marks.old) place }
{
    let mut bits = place;
    for mark in marks.iter_mut() {
        *mark = bits % 2 == 1;
        bits /= 2;
    }
}
