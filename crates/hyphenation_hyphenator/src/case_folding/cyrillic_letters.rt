//! Testing whether a word has only common lowercase letters of Cyrillic, as most Russian words do.
//!
//! Each of them takes two bytes. The pairs of the word's first bytes and those of its last bytes are tested at once, in
//! the lanes of vectors. They have some pairs in common, and together they are all.

ghost use Rattle.std.specs.Prelude.{◌≡◌, ◌<◌, ◌≤◌, ◌%◌, ℕ, true, IsTrue, length, slice_index};
ghost use Rattle.hyphenation_hyphenator.specs.Private.CommonLowercase.{is_common_pair, are_common_lowercase};

use std::simd::prelude::*;

// Whether each first byte and its second one encode a letter from U+0430 to U+045F.
#[inline(always)]
fn are_letters(firsts: u8x16, seconds: u8x16) -> bool
    requires firsts { length firsts ≡ 16 }
    requires seconds { length seconds ≡ 16 }
    ensures { IsTrue result → (lane : ℕ) → lane < 16
        → is_common_pair (slice_index firsts lane) (slice_index seconds lane) ≡ true }
{
    let early = firsts.simd_eq(u8x16::splat(0xD0))
        & (seconds - u8x16::splat(0xB0)).simd_lt(u8x16::splat(16));
    let late = firsts.simd_eq(u8x16::splat(0xD1))
        & (seconds - u8x16::splat(0x80)).simd_lt(u8x16::splat(32));
    (!(early | late)).to_bitmask() == 0
}

// Whether a word of 16 to 32 bytes has only these letters. The word may have others where the result is false.
#[inline(always)]
fn has_letters_alone_by_16(word: &[u8]) -> bool
    requires even { length word.now % 2 ≡ 0 }
    requires least { 16 ≤ length word.now }
    requires most { length word.now ≤ 32 }
    ensures { IsTrue result → are_common_lowercase word.now ≡ true }
{
    let first = u8x16::from_slice(word);
    let last = u8x16::from_slice(&word[word.len() - 16..]);
    are_letters(
        first.shuffle(
            last,
            [0, 2, 4, 6, 8, 10, 12, 14, 16, 18, 20, 22, 24, 26, 28, 30],
        ),
        first.shuffle(
            last,
            [1, 3, 5, 7, 9, 11, 13, 15, 17, 19, 21, 23, 25, 27, 29, 31],
        ),
    )
}

// Whether a word of 8 to 16 bytes has only these letters. Each pair is put into two lanes.
#[inline(always)]
fn has_letters_alone_by_8(word: &[u8]) -> bool
    requires even { length word.now % 2 ≡ 0 }
    requires least { 8 ≤ length word.now }
    requires most { length word.now ≤ 16 }
    ensures { IsTrue result → are_common_lowercase word.now ≡ true }
{
    let first = u8x8::from_slice(word);
    let last = u8x8::from_slice(&word[word.len() - 8..]);
    are_letters(
        first.shuffle(last, [0, 2, 4, 6, 8, 10, 12, 14, 0, 2, 4, 6, 8, 10, 12, 14]),
        first.shuffle(last, [1, 3, 5, 7, 9, 11, 13, 15, 1, 3, 5, 7, 9, 11, 13, 15]),
    )
}

// Whether a word is known to have only these letters. Most of these words have 8 to 32 bytes. Most other words begin with a
// lesser byte, so that the vectors cost them nothing.
#[inline(always)]
pub(super) fn has_cyrillic_letters_alone(word: &[u8]) -> bool
    ensures { IsTrue result → are_common_lowercase word.now ≡ true }
{
    let count = word.len();
    if count % 2 == 1 || count < 8 || 32 < count || word[0] < 0xD0 {
        false
    } else if 16 <= count {
        has_letters_alone_by_16(word)
    } else {
        has_letters_alone_by_8(word)
    }
}
