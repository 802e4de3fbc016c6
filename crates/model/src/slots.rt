// Slots: a list in fixed memory, since the board has no heap. The kit's `ArrayVec` is none of it: it is not
// `Copy`, as a draft is, and writes a blank wherever a value goes.
ghost use Rattle.std.specs.Prelude.{◌≡◌, ◌≤◌, length, ⊤};

use std::alloc::AllocError;

mod table;

// A list of at most N values: those in the first `len` slots, in order. Clauses see it by `items_of` and not
// by a `Model`, which a type that is `Copy` can have only if the list gave all slots back.
pub struct Slots<T, const N: usize> {
    slots: [T; N],
    len: usize,
    ghost full: { length slots ≡ N },
    ghost few: { len ≤ N },
}

// By hand, since the check derives no `Clone` for a generic struct with a ghost field.
impl<T: Copy, const N: usize> Clone for Slots<T, N> {
    ghost is_clone = { λ old new. new ≡ old };

    ghost is_infallible = { λ _. ⊤ };

    fn clone(&self) -> Result<Slots<T, N>, AllocError> {
        Ok(*self)
    }
}

impl<T: Copy, const N: usize> Copy for Slots<T, N> {}
