//! Buffers of the caller's, and how they are filled.

ghost use Rattle.c_calls.specs.Statuses.{Fills, FillsBoth, into};

use crate::statuses::{DONE, NO_ROOM};

/// Writes the number of items that were found into the count, and the items to the front of a buffer, if it is long
/// enough. The status is `DONE`, or `NO_ROOM`, and then the buffer is unchanged.
pub fn fill_buffer<T: Copy>(found: &[T], buffer: &mut [T], count: &mut usize) -> u32
    ensures { Fills found.now buffer.old buffer.new count.new result }
{
    let wanted = found.len();
    *count = wanted;
    if wanted > buffer.len() {
        return NO_ROOM;
    }
    buffer[..wanted].copy_from_slice(found);
    DONE
}

/// Fills two buffers, if both are long enough, and writes both counts. The status is `DONE`, or `NO_ROOM`, and then both
/// buffers are unchanged.
pub fn fill_buffers<T: Copy, U: Copy>(
    found: &[T],
    buffer: &mut [T],
    count: &mut usize,
    more: &[U],
    other: &mut [U],
    size: &mut usize,
) -> u32
    ensures { FillsBoth found.now more.now (into buffer.old buffer.new count.old count.new)
        (into other.old other.new size.old size.new) result }
{
    *count = found.len();
    *size = more.len();
    if *count > buffer.len() || *size > other.len() {
        return NO_ROOM;
    }
    fill_buffer(found, buffer, count);
    fill_buffer(more, other, size)
}
