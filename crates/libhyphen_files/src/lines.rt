//! The lines of a `.dic`, with the most bytes that libhyphen reads of each.

ghost use Rattle.std.specs.Prelude.{◌≡◌, IfOk, map};
ghost use Rattle.libhyphen_files.specs.Lines.{lines_of};
ghost use Rattle.libhyphen_files.specs.Private.Sizes.{line_size};

use memchr::memchr;
use std::alloc::{AllocError, Global};

const MOST_OF_FIRST: usize = 19;

const MOST_OF_OTHER: usize = 99;

// The most lines for which there is room in advance. A line of most files has eight bytes or more.
const MOST_ROOM: usize = 100_000;

// Returns the lines of a file, each with its line feed. The first one has at most 19 bytes, and each other one at most
// 99. The bytes that are over are the next line. The only error is out of memory.
pub(crate) fn lines_of(alloc: Global, bytes: &[u8]) -> Result<Vec<&[u8]>, AllocError>
    ensures { IfOk result (λ lines. map (λ line. line.now) lines.items ≡ lines_of bytes.now) }
{
    let mut lines = Vec::with_capacity(alloc, (bytes.len() / 8).min(MOST_ROOM))?;
    let mut rest = bytes;
    let mut room = MOST_OF_FIRST;
    while !rest.is_empty() {
        let size = line_size(rest, room);
        lines.push(&rest[..size])?;
        rest = &rest[size..];
        room = MOST_OF_OTHER;
    }
    Ok(lines)
}

// Returns the number of bytes of the first line of a text, where a line has room for some bytes.
#[inline(always)]
fn line_size(text: &[u8], room: usize) -> usize
    ensures { result ≡ line_size room text.now }
{
    let window = &text[..text.len().min(room)];
    match memchr(b'\n', window) {
        Some(at) => at + 1,
        None => window.len(),
    }
}
