// The list itself; its calls stand in the module below it.
ghost use Rattle.std.specs.Prelude.{◌≡◌, ◌≤◌, length, ⊤};

use std::alloc::AllocError;

mod calls;

// There is no place left.
#[derive(Clone, Copy, PartialEq, Eq, Debug)]
pub struct Full;

pub struct BoundedVec<T, const N: usize> {
    cells: [T; N],
    len: usize,
    ghost size: { length cells ≡ N },
    ghost few: { len ≤ N },
}

impl<T: Copy, const N: usize> Copy for BoundedVec<T, N> {}

impl<T: Copy, const N: usize> Clone for BoundedVec<T, N> {
    ghost is_clone = { λ v w. w ≡ v };

    ghost is_infallible = { λ _. ⊤ };

    fn clone(&self) -> Result<Self, AllocError> {
        Ok(*self)
    }
}
