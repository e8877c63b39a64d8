// The list in memory.
ghost use Rattle.std.specs.Prelude.{◌≡◌, ◌≤◌, length};

use std::alloc::AllocError;

// Up to N values: the first `count` of the rows, in their order. The count stands beside the rows since nothing may be allocated, and the kit's `ArrayVec` is not `Copy`, as these lists are.
#[derive(Copy)]
pub struct Few<T, const N: usize> {
    pub(crate) rows: [T; N],
    pub(crate) count: usize,
    ghost fits: { count ≤ N },
    ghost long: { length rows ≡ N },
}

// Tried: no derive of `Clone` goes over a generic struct with ghost fields.
impl<T: Copy, const N: usize> Clone for Few<T, N> {
    ghost is_clone = { λ few copy. copy ≡ few };

    ghost is_infallible = { λ _. Unit {0} };

    fn clone(&self) -> Result<Few<T, N>, AllocError> {
        Ok(*self)
    }
}
