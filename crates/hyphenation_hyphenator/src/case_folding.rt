//! The folding of words to lowercase, and the way back to the word as written.
//!
//! Patterns are written in lowercase, so a word is folded before it is hyphenated. The folding may change how many
//! bytes a character takes. Then a place of the folded word is not the same place of the word as written:
//!
//! ```text
//! as written   İ(2) ẞ(3) a b    bytes c4b0 e1ba9e 61 62
//! folded       i(1) ß(2) a b    bytes 69   c39f   61 62
//! shifts       (0, -1) (1, -2)
//! ```
//!
//! [`refold`] returns the folded word with a [`Shift`] for each of these characters, and [`realign`] carries a place of
//! the folded word back by them. Place 3, before the `a`, comes after the shift of the `ẞ` and becomes 3 + 2 = 5.
ghost use Rattle.std.specs.Prelude.{◌≡◌, ◌≤◌, ◌<◌, ◌^◌, ◌↔◌, ℕ, pos, ◌-ℤ◌, nat_lt, false};
ghost use Rattle.std.specs.Prelude.{List, [], ◌∷◌, ◌-◌, ◌*◌, ◌+◌, true, IsTrue, chars, length, map, take, find, reverse};
ghost use Rattle.std.specs.Prelude.{IfOk, IsOkAnd, IfSome, IsNone};
ghost use Rattle.std.specs.Char.{encode_utf8, to_ascii_lowercase};
ghost use Rattle.std.specs.List.{list_all};
ghost use Rattle.std.specs.Cow.{cow_str_bytes, IsBorrowedStr};
ghost use Rattle.std.specs.Int.{saturate_unsigned, w64};
ghost use Rattle.std.specs.List.Sorted.{IsNonDecreasingBy};
ghost use Rattle.std.specs.Str.{IsAscii, IsUtf8, IsCharBoundary};
ghost use Rattle.std.specs.String.{string_bytes};
ghost use Rattle.std.specs.Option.{option_copied, option_map_or};
ghost use Rattle.std.specs.Str.Pattern.{HasPassingCharAt};
ghost use Rattle.unicode.specs.Binary.{is_uppercase};
ghost use Rattle.hyphenation_hyphenator.specs.Places.{place_of_character};
ghost use Rattle.hyphenation_hyphenator.specs.Private.CommonLowercase.{is_common_lowercase, is_common_pair};
ghost use Rattle.hyphenation_hyphenator.specs.Private.CommonLowercase.{are_common_lowercase};
ghost use Rattle.hyphenation_hyphenator.specs.Private.InPlace.{folds_in_place, is_common_capital};
ghost use Rattle.hyphenation_hyphenator.specs.Folding.{fold_character, fold_case, has_uppercase, shifts_of};
ghost use Rattle.hyphenation_hyphenator.specs.Folding.{delta_below, carried_back, ForEachWordWith};

mod cyrillic_letters;

use cyrillic_letters::has_cyrillic_letters_alone;
use std::alloc::{AllocError, Global};
use std::borrow::CowStr;
use unicode::case::simple_fold;
use unicode::properties::is_uppercase;

/// A character whose number of bytes the folding changed.
#[derive(Clone, Copy, Debug, PartialEq, Eq)]
pub struct Shift {
    /// The place at which the character begins in the folded word, in bytes.
    pub index: usize,
    /// The number of bytes by which the folded word is longer than the word as written, both up to the end of this
    /// character. It is below 0 where the folded word is shorter.
    pub delta: isize,
}

/// Folds a word to lowercase, and returns a shift for each character whose number of bytes changed.
///
/// U+0130, the Turkish `İ`, becomes `i`. Any other character with the property Uppercase becomes its simple case
/// folding. All others stay as they are.
///
/// A word without these capitals is borrowed, without shifts and without taking memory. For any other word an error
/// says that memory was refused.
///
/// ```text
/// let (folded, shifts) = refold(alloc, "İẞab")?;      // folded.as_str(): "ißab", and the shifts (0, -1) and (1, -2)
/// realign(3, &shifts)                                 // 5: the place before the a, in the word as written
/// ```
pub fn refold<'t>(alloc: Global, original: &'t str) -> Result<(CowStr<'t>, Vec<Shift>), AllocError>
    ensures folded { IfOk result (λ r. cow_str_bytes r.0 ≡ fold_case original.now) }
    ensures shifts { IfOk result (λ r. r.1.items ≡ shifts_of original.now) }
    ensures borrowed { IfOk result (λ r. IsBorrowedStr r.0 ↔ (has_uppercase original.now ≡ false)) }
    ensures borrowed_without { has_uppercase original.now ≡ false → IsOkAnd result
        (λ r. IsBorrowedStr r.0 × (r.1.items ≡ [])) }
{
    match first_uppercase(original) {
        Some(start) => {
            let (folded, shifts) = fold_from(alloc, original, start)?;
            Ok((CowStr::Owned(folded), shifts))
        }
        None => Ok((CowStr::Borrowed(original), Vec::new(alloc))),
    }
}

// Copies a text into a `String` with capacity for that many bytes.
fn copied_with_capacity(alloc: Global, front: &str, capacity: usize) -> Result<String, AllocError>
    ensures { IfOk result (λ text. string_bytes text ≡ front.now) }
{
    let mut text = String::with_capacity(alloc, capacity)?;
    text.push_str(front)?;
    Ok(text)
}

// Folds a word from a place on, before which no character is Uppercase. Returns the whole folded word and its shifts.
fn fold_from(
    alloc: Global,
    original: &str,
    start: usize,
) -> Result<(String, Vec<Shift>), AllocError>
    requires at_character { IsCharBoundary original.now start }
    requires no_capital_before { has_uppercase (take start original.now) ≡ false }
    ensures folded { IfOk result (λ r. string_bytes r.0 ≡ fold_case original.now) }
    ensures shifts { IfOk result (λ r. r.1.items ≡ shifts_of original.now) }
{
    let (unchanged, rest) = original.split_at(start);
    // Most words fold to as many bytes.
    let mut folded = copied_with_capacity(alloc, unchanged, original.len())?;
    let mut shifts = Vec::new(alloc);
    let mut written = start;
    for c in rest.chars() {
        let index = folded.len();
        let folding = fold_char(c);
        folded.push(folding)?;
        written += c.len_utf8();
        if folding.len_utf8() != c.len_utf8() {
            let delta = difference(folded.len(), written);
            shifts.push(Shift { index, delta })?;
        }
    }
    Ok((folded, shifts))
}

// Returns the place of the first character that is Uppercase.
fn first_uppercase(text: &str) -> Option<usize>
    ensures none_without { IsNone result ↔ (has_uppercase text.now ≡ false) }
    ensures at_character { IfSome result (λ place. IsCharBoundary text.now place) }
    ensures none_before { IfSome result (λ place. has_uppercase (take place text.now) ≡ false) }
    ensures uppercase { IfSome result (λ place. (end : ℕ) × HasPassingCharAt is_uppercase text.now place end) }
{
    text.find(|c: char| has_uppercase_property(c))
}

// Whether a character is one of the lowercase letters that are common in words. The `÷` counts as one.
#[inline(always)]
fn is_common_lowercase(c: char) -> bool
    ensures { result ≡ is_common_lowercase c }
{
    ('a' <= c && c <= 'z')
        || ('ß' <= c && c <= 'ÿ')
        || ('а' <= c && c <= 'џ')
        || (c == 'ő' || c == 'ű')
}

// Whether two bytes encode a common lowercase letter: of Cyrillic, of Latin-1, or the Hungarian `ő` and `ű`.
#[inline(always)]
fn is_common_pair(first: u8, second: u8) -> bool
    ensures { result ≡ is_common_pair first second }
{
    (first == 0xD0 && 0xB0 <= second && second <= 0xBF)
        || (first == 0xD1 && 0x80 <= second && second <= 0x9F)
        || (first == 0xC3 && 0x9F <= second && second <= 0xBF)
        || (first == 0xC5 && (second == 0x91 || second == 0xB1))
}

// Whether a word has only common lowercase letters. Then it folds to itself, and has no soft hyphen.
//
// Most other words begin with a capital of ASCII, so the first byte is tested before.
#[inline(always)]
#[tactic(auto, using(crate::proofs::CommonLowercase::begins_otherwise))]
pub(crate) fn are_common_lowercase(word: &str) -> bool
    ensures { result ≡ are_common_lowercase word.now }
{
    let bytes = word.as_bytes();
    if !bytes.is_empty() && bytes[0] < 0x80 && !bytes[0].is_ascii_lowercase() {
        return false;
    }
    are_common_lowercase_bytes(bytes)
}

// Whether a word has only common lowercase letters. It is kept out of line, since most words do not come to it.
#[inline(never)]
fn are_common_lowercase_bytes(bytes: &[u8]) -> bool
    ensures { result ≡ are_common_lowercase bytes.now }
{
    has_cyrillic_letters_alone(bytes) || are_common_lowercase_in_turn(bytes)
}

// Whether a word has only common lowercase letters, tested from the first one on.
//
// It reads bytes, since decoding characters takes more than twice as long.
#[inline(never)]
fn are_common_lowercase_in_turn(bytes: &[u8]) -> bool
    ensures { result ≡ are_common_lowercase bytes.now }
{
    let last = bytes.len().saturating_sub(1);
    let mut at = 0;
    while at < last {
        // Mostly two letters of ASCII are side by side, or one character of two bytes is next.
        let (first, second) = (bytes[at], bytes[at + 1]);
        if first.is_ascii_lowercase() {
            if second.is_ascii_lowercase() {
                at += 2;
            } else {
                at += 1;
            }
        } else {
            if !is_common_pair(first, second) {
                return false;
            }
            at += 2;
        }
    }
    at == bytes.len() || bytes[at].is_ascii_lowercase()
}

// Whether a character is a capital of Latin-1 or of Russian. The folding of each has the number that is 32 greater.
#[inline(always)]
fn is_common_capital(c: char) -> bool
    ensures { result ≡ is_common_capital c }
{
    ('À' <= c && c <= 'Ö') || ('Ø' <= c && c <= 'Þ') || ('А' <= c && c <= 'Я')
}

// Returns the number of a character's folding, with a fast path for common capitals.
fn folded_number(c: char) -> u32
    ensures { result ≡ fold_character c }
{
    if is_common_capital(c) {
        c as u32 + 32
    } else {
        fold_char(c) as u32
    }
}

// Folds a character of two bytes that is no soft hyphen and whose folding takes two bytes. The result is `None` for any
// other character, and for bytes that encode no character of two.
fn fold_pair(first: u8, second: u8) -> Option<(u8, u8)>
    ensures encoded { IfSome result (λ _. (0xC0 ≤ first) × ((first < 0xE0) × (0x80 ≤ second))) }
    ensures in_place { IfSome result (λ _. folds_in_place ((first - 0xC0) * 64 + (second - 0x80)) ≡ true) }
    ensures folded { IfSome result (λ pair. encode_utf8 (fold_character ((first - 0xC0) * 64 + (second - 0x80)))
        ≡ pair.0 ∷ pair.1 ∷ []) }
{
    if is_common_pair(first, second) {
        return Some((first, second));
    }
    if first < 0xC2 || 0xE0 <= first || second < 0x80 || 0xC0 <= second {
        return None;
    }
    let c = char::from_u32((first as u32 - 0xC0) * 64 + (second as u32 - 0x80))?;
    let folding = folded_number(c);
    if c == '\u{ad}' || folding < 0x80 || 0x800 <= folding {
        return None;
    }
    Some((0xC0 + (folding / 64) as u8, 0x80 + (folding % 64) as u8))
}

// Folds a word into as many bytes, and returns whether each character is folded in place.
//
// Where one is not, the bytes are of no use. It reads bytes, since decoding characters takes more than twice as long.
fn fold_in_turn(word: &str, folded: &mut [u8]) -> bool
    requires { length folded.old ≡ length word.now }
    ensures in_place { IsTrue result → list_all folds_in_place (chars word.now) ≡ true }
    ensures folded { IsTrue result → folded.new ≡ fold_case word.now }
{
    let bytes = word.as_bytes();
    let mut at = 0;
    while at < bytes.len() {
        let first = bytes[at];
        if first < 0x80 {
            folded[at] = first.to_ascii_lowercase();
            at += 1;
        } else {
            if at + 1 == bytes.len() {
                return false;
            }
            let Some((first, second)) = fold_pair(first, bytes[at + 1]) else {
                return false;
            };
            folded[at] = first;
            folded[at + 1] = second;
            at += 2;
        }
    }
    true
}

// Folds a word of ASCII over the first bytes of a buffer. All of the buffer is folded, since that many bytes are folded
// at once.
#[inline(always)]
fn fold_ascii(word: &[u8], buffer: &mut [u8; 64])
    requires { length word.now ≤ 64 }
    ensures { take (length word.now) buffer.new ≡ map to_ascii_lowercase word.now }
{
    buffer[..word.len()].copy_from_slice(word);
    buffer.make_ascii_lowercase();
}

// Folds a word of at most 64 bytes over a buffer, and returns whether the word is ASCII. The result is `None` where a
// character is not folded in place, or is a soft hyphen. The buffer is then of no use.
#[inline(always)]
#[tactic(auto, using(crate::proofs::AsciiWords::ascii_fold, crate::proofs::InPlace::ascii_in_place))]
pub(crate) fn fold_in_place(word: &str, buffer: &mut [u8; 64]) -> Option<bool>
    requires { length word.now ≤ 64 }
    ensures ascii { IfSome result (λ is_ascii. IsTrue is_ascii → IsAscii word.now) }
    ensures in_place { IfSome result (λ _. list_all folds_in_place (chars word.now) ≡ true) }
    ensures folded { IfSome result (λ _. take (length word.now) buffer.new ≡ fold_case word.now) }
{
    if word.is_ascii() {
        fold_ascii(word.as_bytes(), buffer);
        return Some(true);
    }
    if fold_in_turn(word, &mut buffer[..word.len()]) {
        Some(false)
    } else {
        None
    }
}

// Whether a character has the property Uppercase, with fast paths for ASCII and common lowercase letters.
fn has_uppercase_property(c: char) -> bool
    ensures { result ≡ is_uppercase c }
{
    if c.is_ascii() {
        c.is_ascii_uppercase()
    } else if is_common_lowercase(c) {
        false
    } else {
        is_uppercase(c)
    }
}

// Folds one character.
fn fold_char(c: char) -> char
    ensures { result ≡ fold_character c }
{
    if c == '\u{130}' {
        'i'
    } else if has_uppercase_property(c) {
        simple_fold(c)
    } else {
        c
    }
}

// Returns the first number of bytes less the second.
fn difference(a: usize, b: usize) -> isize
    requires first_below_half { a < 2 ^ 63 }
    requires second_below_half { b < 2 ^ 63 }
    ensures { result ≡ pos a -ℤ pos b }
{
    a as isize - b as isize
}

/// Carries the place `i` of a folded word back to the word as written.
///
/// Where `i` is a character boundary and the shifts are those of [`refold`], the result is the place with as many
/// characters before it. Places are counted in bytes.
///
/// In any case the result is `i` less the delta of the last shift whose index is below `i`, held between 0 and
/// `usize::MAX`.
pub fn realign(i: usize, shifts: &[Shift]) -> usize
    ensures value { result ≡ saturate_unsigned w64 (pos i -ℤ delta_below shifts.now i) }
    ensures carried_back { ForEachWordWith shifts.now
        (λ word. IsCharBoundary (fold_case word) i → result ≡ carried_back word i) }
    ensures same_character { ForEachWordWith shifts.now (λ word.
        (j : ℕ) → i ≡ place_of_character (fold_case word) j → result ≡ place_of_character word j) }
{
    shifted_back(i, last_shift_below(i, shifts))
}

// Returns the place less the delta of a shift, if there is one, held between 0 and `usize::MAX`.
fn shifted_back(i: usize, shift: Option<&Shift>) -> usize
    ensures { result
        ≡ saturate_unsigned w64 (pos i -ℤ option_map_or (λ shift. shift.delta) (option_copied shift.entry) (pos 0)) }
{
    let delta = shift.map_or(0, |shift| shift.delta);
    i.saturating_sub_signed(delta)
}

// Carries a place back as `realign` does, by a binary search of shifts that are sorted by their indices.
pub(crate) fn realign_sorted(i: usize, shifts: &[Shift]) -> usize
    requires { IsNonDecreasingBy (λ shift. shift.index) shifts.now }
    ensures { result ≡ saturate_unsigned w64 (pos i -ℤ delta_below shifts.now i) }
{
    shifted_back(i, last_sorted_shift_below(i, shifts))
}

// Returns the last shift whose index is below `i`, of shifts that are sorted by their indices.
fn last_sorted_shift_below(i: usize, shifts: &[Shift]) -> Option<&Shift>
    requires { IsNonDecreasingBy (λ shift. shift.index) shifts.now }
    ensures { option_copied result ≡ find (λ shift. nat_lt shift.index i) (reverse shifts.now) }
{
    let count = shifts.partition_point(|shift| shift.index < i);
    shifts[..count].last()
}

// Returns the last shift whose index is below `i`.
fn last_shift_below(i: usize, shifts: &[Shift]) -> Option<&Shift>
    ensures { option_copied result ≡ find (λ shift. nat_lt shift.index i) (reverse shifts.now) }
{
    shifts.iter().rev().find(|shift| shift.index < i)
}
