//! Words of the caller's as texts.

ghost use Rattle.std.specs.Prelude.{◌≡◌, ◌+◌, ◌≤◌, ◌&&◌, MatchOption, length};
ghost use Rattle.std.specs.Char.{is_ascii};
ghost use Rattle.std.specs.List.{list_all};
ghost use Rattle.std.specs.Str.{IsUtf8};

use std::str;

// Whether all bytes of two arrays are ASCII. It has no early exit, so that the bytes can be tested at once.
#[inline(always)]
fn are_ascii_at_once<const N: usize>(first: &[u8; N], last: &[u8; N]) -> bool
    ensures { result ≡ (list_all is_ascii first.now && list_all is_ascii last.now) }
{
    let mut all = true;
    for at in 0..N {
        all &= first[at].is_ascii();
        all &= last[at].is_ascii();
    }
    all
}

// Whether each of at least `N` bytes, and at most twice as many, is ASCII. The first `N` and the last `N` bytes are tested
// at once. They have some bytes in common, and together they are all.
#[inline(always)]
fn are_ascii_by_ends<const N: usize>(bytes: &[u8]) -> bool
    requires least { N ≤ length bytes.now }
    requires most { length bytes.now ≤ N + N }
    ensures { result ≡ list_all is_ascii bytes.now }
{
    let Some((first, _)) = bytes.split_first_chunk::<N>() else {
        return false;
    };
    let Some((_, last)) = bytes.split_last_chunk::<N>() else {
        return false;
    };
    are_ascii_at_once(first, last)
}

// Whether each byte is ASCII, tested one by one.
#[inline(always)]
fn are_ascii_in_turn(bytes: &[u8]) -> bool
    ensures { result ≡ list_all is_ascii bytes.now }
{
    bytes.iter().all(|byte| byte.is_ascii())
}

// Whether each byte is ASCII. Most words have 4 to 32 bytes.
#[inline(always)]
fn are_ascii(bytes: &[u8]) -> bool
    ensures { result ≡ list_all is_ascii bytes.now }
{
    let count = bytes.len();
    if 8 < count && count <= 16 {
        are_ascii_by_ends::<8>(bytes)
    } else if 4 <= count && count <= 8 {
        are_ascii_by_ends::<4>(bytes)
    } else if 16 < count && count <= 32 {
        are_ascii_by_ends::<16>(bytes)
    } else {
        are_ascii_in_turn(bytes)
    }
}

/// Returns the text of a word's bytes; none if they are not UTF-8. Most words are short, and ASCII.
#[inline(always)]
#[tactic(auto, using(crate::proofs::AsciiTexts::utf8_of_ascii))]
pub fn word_of(bytes: &[u8]) -> Option<&str>
    ensures { MatchOption result (¬ IsUtf8 bytes.now) (λ word. (word.now ≡ bytes.now) × IsUtf8 bytes.now) }
{
    if bytes.len() <= 32 && are_ascii(bytes) {
        return Some(unsafe { str::from_utf8_unchecked(bytes) });
    }
    match str::from_utf8(bytes) {
        Ok(word) => Some(word),
        Err(_) => None,
    }
}
