//! Sums and products that may not fit, and items that may not be there. On overflow the error is that of
//! refused memory.

ghost use Rattle.std.specs.Prelude.{◌≡◌, ◌+◌, ◌*◌, IfOk, slice_index_or};

use std::alloc::AllocError;

// Returns a sum, if it fits.
pub(crate) fn sum(a: usize, b: usize) -> Result<usize, AllocError>
    ensures { IfOk result (λ sum. sum ≡ a + b) }
{
    a.checked_add(b).ok_or(AllocError)
}

// Returns a product, if it fits.
pub(crate) fn product(a: usize, b: usize) -> Result<usize, AllocError>
    ensures { IfOk result (λ product. product ≡ a * b) }
{
    a.checked_mul(b).ok_or(AllocError)
}

// Returns the item at a place, or the other one past the end.
pub(crate) fn item_at<T: Copy>(items: &[T], place: usize, other: T) -> T
    ensures { result ≡ slice_index_or items.now place other }
{
    if place < items.len() {
        items[place]
    } else {
        other
    }
}
