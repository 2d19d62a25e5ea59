//! The first piece of a text, where bytes of ASCII decide it.

ghost use Rattle.std.specs.Prelude.{◌≡◌, ◌+◌, ◌-◌, ◌<◌, ◌≤◌, ◌==◌, if◌then◌else◌, IsTrue, true, length, slice_index};
ghost use Rattle.std.specs.Int.{w64, trailing_zeros};
ghost use Rattle.std.specs.Option.{ForSome};
ghost use Rattle.std.specs.Str.{IsCharBoundary};
ghost use Rattle.word_pieces.specs.declared.kinds.ByteKind.TheVariants.{Letter, Space};
ghost use Rattle.word_pieces.specs.Private.Kinds.{kind_of_byte, is_near, letter_may_begin, word_may_go_on, IsRun};
ghost use Rattle.word_pieces.specs.Private.Walks.{IsPlainEnd, IsBoundBetween};

use crate::kinds::ByteKind::{Beyond, Letter, Middle, Space};
use crate::kinds::{ByteKind, kind_of, may_be_letter, verdict};
use std::simd::prelude::*;

// The number of bytes that are tested at once.
const BLOCK: usize = 16;

// Returns where the piece that begins at an offset ends, or `None` where more than a few bytes of ASCII decide it.
#[inline(always)]
pub(crate) fn plain_end(text: &str, start: usize) -> Option<usize>
    requires some { start < length text.now }
    requires start { IsCharBoundary text.now start }
    ensures { ForSome result (IsPlainEnd text.now start) }
{
    let bytes = text.as_bytes();
    match kind_of(bytes[start]) {
        Letter => end_of_word(text, start),
        Beyond => None,
        first => end_of_others(text, start, first),
    }
}

// Does so for a piece that begins with a letter, a digit or an underscore.
#[inline(always)]
fn end_of_word(text: &str, start: usize) -> Option<usize>
    requires some { start < length text.now }
    requires start { IsCharBoundary text.now start }
    requires first { kind_of_byte (slice_index text.now start) ≡ Letter }
    ensures { ForSome result (IsPlainEnd text.now start) }
{
    let bytes = text.as_bytes();
    let at = past_run(bytes, start + 1);
    if word_may_go_on(bytes, at) {
        None
    } else {
        Some(at)
    }
}

// Does so for a piece that begins with one of the other kinds.
#[inline(always)]
fn end_of_others(text: &str, start: usize, first: ByteKind) -> Option<usize>
    requires some { start < length text.now }
    requires start { IsCharBoundary text.now start }
    requires first { kind_of_byte (slice_index text.now start) ≡ first }
    requires near { is_near first ≡ true }
    ensures { ForSome result (IsPlainEnd text.now start) }
{
    let bytes = text.as_bytes();
    let mut last = first;
    let mut at = start + 1;
    'bytes: while at < bytes.len() {
        let next = kind_of(bytes[at]);
        match verdict(last, next) {
            Some(true) => return Some(at),
            Some(false) => {
                last = next;
                at += 1;
            }
            None => return None,
        }
    }
    Some(at)
}

// Passes letters, digits and underscores from an offset on.
#[inline(always)]
fn past_run(bytes: &[u8], from: usize) -> usize
    requires { from ≤ length bytes.now }
    ensures { IsRun bytes.now from result }
{
    let mut at = past_letters(bytes, from);
    'bytes: while at < bytes.len() && kind_of(bytes[at]) == Letter {
        at += 1;
    }
    at
}

// Passes the letters with which the next block of bytes begins, or nothing where no whole block is left. Most words end in
// the block, and no branch depends on where.
#[inline(always)]
fn past_letters(bytes: &[u8], from: usize) -> usize
    requires { from ≤ length bytes.now }
    ensures { IsRun bytes.now from result }
{
    if bytes.len() - from < BLOCK {
        return from;
    }
    // A capital letter and its small one differ in one bit.
    let small = u8x16::from_slice(&bytes[from..]) | u8x16::splat(0x20);
    let others = (small - u8x16::splat(b'a')).simd_ge(u8x16::splat(26));
    from + first_set(others.to_bitmask())
}

// Returns the place of the lowest bit that is set, or the size of a block where none is.
#[inline(always)]
fn first_set(mask: u64) -> usize
    ensures { result ≡ (if mask == 0 then BLOCK else trailing_zeros w64 mask) }
{
    if mask == 0 {
        BLOCK
    } else {
        mask.trailing_zeros() as usize
    }
}

// Whether a piece that ends with a letter or a number at an offset may go on there.
#[inline(always)]
fn word_may_go_on(bytes: &[u8], at: usize) -> bool
    requires { at ≤ length bytes.now }
    ensures { result ≡ word_may_go_on bytes.now at }
{
    if at == bytes.len() {
        return false;
    }
    let next = kind_of(bytes[at]);
    // All of it is asked, so that no branch depends on the byte after a word.
    may_be_letter(next) | ((next == Middle) & letter_may_follow(bytes, at))
}

// Whether a letter or a number may follow the byte at an offset.
#[inline(always)]
fn letter_may_follow(bytes: &[u8], at: usize) -> bool
    requires { at < length bytes.now }
    ensures { result ≡ letter_may_begin bytes.now (at + 1) }
{
    let next = at + 1;
    next < bytes.len() && may_be_letter(kind_of(bytes[next]))
}

// Returns the last bound between a space and a letter that is after one offset and not after another, or `None` where
// there is none.
pub(crate) fn bound_before_letter(text: &str, from: usize, to: usize) -> Option<usize>
    ensures { ForSome result (IsBoundBetween text.now from to) }
{
    let bytes = text.as_bytes();
    if bytes.len() < 2 {
        return None;
    }
    let mut at = to.min(bytes.len() - 1);
    'bytes: while from < at {
        if is_space_then_letter(bytes, at) {
            return Some(at);
        }
        at -= 1;
    }
    None
}

// Whether a letter begins at an offset, after a space.
#[inline(always)]
fn is_space_then_letter(bytes: &[u8], at: usize) -> bool
    requires after_a_byte { 0 < at }
    requires within { at < length bytes.now }
    ensures { IsTrue result → (kind_of_byte (slice_index bytes.now (at - 1)) ≡ Space) × (kind_of_byte (slice_index bytes.now at) ≡ Letter) }
{
    kind_of(bytes[at - 1]) == Space && kind_of(bytes[at]) == Letter
}
