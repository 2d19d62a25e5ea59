//! Letters of a word, as minima count them.

ghost use Rattle.std.specs.Prelude.{◌≡◌, ◌≤◌, ◌<◌, ◌&&◌, ◌||◌, not, if◌then◌else◌, [], ◌∷◌, length};
ghost use Rattle.std.specs.List.{suffix_len};
ghost use Rattle.std.specs.Char.{is_ascii_digit};
ghost use Rattle.libhyphen_files.specs.Bytes.{begins_with, continues};
ghost use Rattle.libhyphen_rule.specs.Letters.{digits_at_begin, digits_at_end, letters, letters_in_first, letters_in_hundred, letters_at};

use libhyphen_files::bytes::continues;

// Returns the number of characters that a byte begins: 1 or 0.
#[inline(always)]
pub(crate) fn characters_at(utf8: bool, byte: u8) -> usize
    ensures { result ≡ (if not utf8 || not (continues byte) then 1 else 0) }
{
    if utf8 && continues(byte) { 0 } else { 1 }
}

// Reports whether a text begins with the ligature ffi or ffl.
#[inline(always)]
fn begins_with_ligature(text: &[u8]) -> bool
    ensures { result
        ≡ (begins_with text.now (0xEF ∷ 0xAC ∷ 0x83 ∷ []) || begins_with text.now (0xEF ∷ 0xAC ∷ 0x84 ∷ [])) }
{
    matches!(text, [0xEF, 0xAC, 0x83 | 0x84, ..])
}

// Returns the number of letters that a byte begins.
#[inline(always)]
pub(crate) fn letters_at(utf8: bool, text: &[u8], at: usize) -> usize
    requires { at < length text.now }
    ensures { result ≡ letters_at utf8 text.now at }
{
    if !utf8 {
        1
    } else if at != 0 && continues(text[at]) {
        0
    } else if begins_with_ligature(&text[at..]) {
        2
    } else {
        1
    }
}

// Returns the number of letters that the first bytes of a text begin.
pub(crate) fn letters_in_first(utf8: bool, text: &[u8], bytes: usize) -> usize
    requires { bytes ≤ length text.now }
    ensures { result ≡ letters_in_first utf8 text.now bytes }
{
    let mut count = 0;
    for at in 0..bytes {
        count += letters_at(utf8, text, at);
    }
    count
}

// Returns the number of letters that the first 100 bytes of a text begin, or all bytes of a shorter one.
pub(crate) fn letters_in_hundred(utf8: bool, text: &[u8]) -> usize
    ensures { result ≡ letters_in_hundred utf8 text.now }
{
    letters_in_first(utf8, text, text.len().min(100))
}

// Returns the number of letters of a text.
pub(crate) fn letters(utf8: bool, text: &[u8]) -> usize
    ensures { result ≡ letters utf8 text.now }
{
    letters_in_first(utf8, text, text.len())
}

// Returns the number of digits with which a text begins.
#[inline(always)]
pub(crate) fn digits_at_begin(text: &[u8]) -> usize
    ensures { result ≡ digits_at_begin text.now }
{
    let mut digits = 0;
    while digits < text.len() && text[digits].is_ascii_digit() {
        digits += 1;
    }
    digits
}

// Returns the number of digits with which a text ends.
#[inline(always)]
fn last_digits(text: &[u8]) -> usize
    ensures { result ≡ suffix_len is_ascii_digit text.now }
{
    let mut end = text.len();
    while end > 0 && text[end - 1].is_ascii_digit() {
        end -= 1;
    }
    text.len() - end
}

// Returns the number of digits with which a word ends. Its first byte is not one of them.
#[inline(always)]
pub(crate) fn digits_at_end(word: &[u8]) -> usize
    ensures { result ≡ digits_at_end word.now }
{
    match word {
        [] => 0,
        [_, rest @ ..] => last_digits(rest),
    }
}
