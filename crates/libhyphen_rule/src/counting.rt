//! The patterns that count in a word, found in one pass over its frame.

ghost use Rattle.std.specs.Prelude.{◌≡◌, ◌+◌, ◌<◌, length, take, slice_index};
ghost use Rattle.libhyphen_rule.specs.Counting.{framed};

use libhyphen_files::pattern::StoredPattern;

// Returns a byte of a word's frame: the word's bytes between two dots, with digits shown as dots.
#[inline(always)]
pub(crate) fn framed_byte(word: &[u8], at: usize) -> u8
    requires { at < length word.now + 2 }
    ensures { result ≡ slice_index (framed word.now) at }
{
    if at == 0 || at > word.len() {
        return b'.';
    }
    let byte = word[at - 1];
    if byte.is_ascii_digit() { b'.' } else { byte }
}

// Returns the first digits of a pattern, at most that many.
#[inline(always)]
pub(crate) fn first_digits(pattern: &StoredPattern, most: usize) -> &[u8]
    ensures { result.now ≡ take most pattern.now.digits }
{
    if most < pattern.digits.len() {
        &pattern.digits[..most]
    } else {
        &pattern.digits
    }
}
