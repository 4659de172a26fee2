//! A stack of at most N values.
ghost use Rattle.std.specs.Prelude.{◌≡◌, ◌+◌, ◌<◌, ◌≤◌, [], ◌∷◌, length, take, ⊤, MatchOption};
ghost use Rattle.pattern.specs.Stacks.{held};

use std::alloc::AllocError;

// No `Vec`, since nothing here allocates, and no `ArrayVec`, since a pattern is a value that is copied.
// No `==`, since a derived one would compare the places above `len` too.
#[derive(Debug)]
pub struct Stack<T, const N: usize> {
    pub(crate) items: [T; N],
    pub(crate) len: usize,
    ghost sized: { length items ≡ N },
    ghost within: { len ≤ N },
}

// `Copy` and `Clone` by hand, since none is derived for a generic struct with a ghost field.
impl<T: Copy, const N: usize> Copy for Stack<T, N> {}

impl<T: Copy, const N: usize> Clone for Stack<T, N> {
    ghost is_clone = { λ old new. new ≡ old };

    ghost is_infallible = { λ _. ⊤ };

    fn clone(&self) -> Result<Stack<T, N>, AllocError> {
        Ok(*self)
    }
}

impl<T: Copy, const N: usize> Stack<T, N> {
    pub fn new(fill: T) -> Stack<T, N>
        ensures len { result.len ≡ 0 }
        ensures items { held result.items result.len ≡ [] }
    {
        Stack {
            items: [fill; N],
            len: 0,
        }
    }

    pub fn len(&self) -> usize
        ensures value { result ≡ self.now.len }
        ensures items { result ≡ length (held self.now.items self.now.len) }
    {
        self.len
    }

    /// The values, the oldest first.
    pub fn as_slice(&self) -> &[T]
        ensures { result.now ≡ take self.now.len self.now.items }
    {
        let all = &self.items[..];
        &all[0..self.len]
    }

    /// Puts a value on top.
    pub fn push(&mut self, x: T)
        requires { self.old.len < N }
        ensures len { self.new.len ≡ self.old.len + 1 }
        ensures items { held self.new.items self.new.len ≡ x ∷ held self.old.items self.old.len }
    {
        self.items[self.len] = x;
        self.len += 1;
    }

    /// Takes the newest value off.
    pub fn pop(&mut self) -> Option<T>
        ensures len { MatchOption result (self.new.len ≡ self.old.len) (λ x. self.new.len + 1 ≡ self.old.len) }
        ensures items { MatchOption result ((held self.old.items self.old.len ≡ []) × (self.new ≡ self.old)) (λ x. held self.old.items self.old.len ≡ x ∷ held self.new.items self.new.len) }
    {
        if self.len == 0 {
            return None;
        }
        self.len -= 1;
        Some(self.items[self.len])
    }
}
