//! A text that is written from its end.
ghost use Rattle.std.specs.Prelude.{◌≤◌};

/// The text so far is what stands from `at` on.
// No `String`, since nothing here allocates, and no `ArrayVec`, since the text grows at its front.
#[derive(Drop)]
pub struct Draft {
    pub bytes: [u8; 250],
    pub at: usize,
    ghost within: { at ≤ 250 },
}
