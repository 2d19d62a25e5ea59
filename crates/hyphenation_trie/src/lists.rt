//! Lists with their first element, and lists that grow together.

ghost use Rattle.std.specs.Prelude.{◌≡◌, ◌++◌, [], ◌∷◌, IfOk, OnOk, OnErr};

use std::alloc::{AllocError, Global};

// Returns a list of one element, with room for `room` elements. The only error is out of memory.
pub(crate) fn list_of_first<T: Copy>(
    alloc: Global,
    room: usize,
    first: T,
) -> Result<Vec<T>, AllocError>
    ensures { IfOk result (λ list. list.items ≡ first ∷ []) }
{
    let mut list = Vec::with_capacity(alloc, room)?;
    list.push(first)?;
    Ok(list)
}

// Appends an element to each of two lists, or to none of them. The only error is out of memory.
#[inline(always)]
pub(crate) fn push_both<S: Copy, T: Copy>(
    firsts: &mut Vec<S>,
    first: S,
    seconds: &mut Vec<T>,
    second: T,
) -> Result<(), AllocError>
    ensures firsts { OnOk result (firsts.new.items ≡ firsts.old.items ++ first ∷ []) }
    ensures seconds { OnOk result (seconds.new.items ≡ seconds.old.items ++ second ∷ []) }
    ensures firsts_unchanged_on_error { OnErr result (firsts.new.items ≡ firsts.old.items) }
    ensures seconds_unchanged_on_error { OnErr result (seconds.new.items ≡ seconds.old.items) }
{
    let count = firsts.len();
    firsts.push(first)?;
    if seconds.push(second).is_err() {
        firsts.truncate(count);
        return Err(AllocError);
    }
    Ok(())
}

// Moves all elements of a list to the end of another. The only error is out of memory; then both stay as they were.
#[inline(always)]
pub(crate) fn append_all<T: Drop>(to: &mut Vec<T>, from: &mut Vec<T>) -> Result<(), AllocError>
    ensures appended { OnOk result (to.new.items ≡ to.old.items ++ from.old.items) }
    ensures emptied { OnOk result (from.new.items ≡ []) }
    ensures to_unchanged_on_error { OnErr result (to.new.items ≡ to.old.items) }
    ensures from_unchanged_on_error { OnErr result (from.new.items ≡ from.old.items) }
{
    if from.len() != 1 {
        return to.append(from);
    }
    // Most keys have one entry, which is moved without a call.
    to.reserve(1)?;
    if let Some(element) = from.pop() {
        to.push_reserved(element);
    }
    Ok(())
}
