//! The last steps over a whole word: texts beside which no break is, the word written with its breaks, and characters.

ghost use Rattle.std.specs.Prelude.{◌≡◌, ◌<◌, ◌≤◌, ◌==◌, ◌*◌, ℕ, false, List, [], ◌∷◌, nat_lt, length, map, option_map, replicate, take, None};
ghost use Rattle.std.specs.Prelude.{slice_index_or, slice_range, IfOk, OnOk};
ghost use Rattle.std.specs.List.{list_all, list_any};
ghost use Rattle.libhyphen_rule.specs.Found.{placed, placed_all};
ghost use Rattle.libhyphen_rule.specs.Words.{begins, change_in_characters, changes_of_characters, characters};
ghost use Rattle.libhyphen_rule.specs.Words.{digits_beside, digits_of_characters, is_beside, is_last, passed_over};
ghost use Rattle.libhyphen_rule.specs.Words.{stands_at, with_mark, written_word};
ghost use Rattle.libhyphen_rule.specs.Private.Occurring.{AreOccurring};

use crate::one_level::PlacedChange;
use libhyphen_files::bytes::continues;
use std::alloc::{AllocError, Global};

// Reports whether a text is in a word from a byte on.
#[inline(always)]
fn stands_at(text: &[u8], at: usize, part: &[u8]) -> bool
    ensures { result ≡ stands_at text.now at part.now }
{
    if at >= text.len() {
        return part.is_empty();
    }
    match part {
        [] => true,
        [only] => text[at] == *only,
        [first, ..] => text[at] == *first && text[at..].starts_with(part),
    }
}

// Reports whether a text begins or ends at the place behind a byte.
#[inline(always)]
fn is_beside(text: &[u8], byte: usize, part: &[u8]) -> bool
    requires { byte < usize.MAX }
    ensures { result ≡ is_beside text.now byte part.now }
{
    stands_at(text, byte + 1, part)
        || part.len() <= byte + 1 && stands_at(text, byte + 1 - part.len(), part)
}

// Returns, for each number of a byte, whether the byte occurs in a text.
#[inline(always)]
fn occurring(text: &[u8]) -> [bool; 256]
    ensures { AreOccurring result text.now }
{
    let mut occurs = [false; 256];
    for byte in text {
        occurs[*byte as usize] = true;
    }
    occurs
}

// Reports whether a text may begin or end at a place of a word. It may if its first byte occurs in the word.
#[inline(always)]
fn may_stand(part: &[u8], occurs: &[bool; 256]) -> bool
    ensures { result ≡ false → (text : List ℕ) → AreOccurring occurs.now text
        → (byte : ℕ) → is_beside text byte part.now ≡ false }
{
    match part {
        [] => true,
        [first, ..] => occurs[*first as usize],
    }
}

// Puts another byte in the place of each digit beside which one text begins or ends.
fn take_beside_one(part: &[u8], instead: u8, text: &[u8], digits: &mut [u8])
    ensures { digits.new ≡ digits_beside (part.now ∷ []) instead text.now digits.old }
{
    for (byte, digit) in digits.iter_mut().enumerate() {
        if is_beside(text, byte, part) {
            *digit = instead;
        }
    }
}

// Puts another byte in the place of each digit beside which a text without breaks begins or ends.
//
// `text` is the word with what follows it, up to the first byte 0; it may be shorter than the word. The digits have one
// item for each byte of the word.
pub(crate) fn take_beside(parts: &[Vec<u8>], instead: u8, text: &[u8], digits: &mut [u8])
    ensures { digits.new ≡ digits_beside (map (λ part. part.items) parts.now) instead text.now digits.old }
{
    if parts.is_empty() {
        return;
    }
    let occurs = occurring(text);
    for part in parts {
        if may_stand(part, &occurs) {
            take_beside_one(part, instead, text, digits);
        }
    }
}

// Writes an equals sign, or a change's text in the place of the last bytes of what is written. Returns how many bytes
// of the word are passed over then. The only error is out of memory.
fn write_mark(written: &mut Vec<u8>, change: Option<PlacedChange<'_>>) -> Result<usize, AllocError>
    ensures written { OnOk result (written.new.items ≡ with_mark written.old.items (option_map placed change.entry)) }
    ensures passed { IfOk result (λ passed. passed ≡ passed_over (option_map placed change.entry)) }
{
    match change {
        None => {
            written.push(b'=')?;
            Ok(0)
        }
        Some(change) => {
            written.truncate(written.len().saturating_sub(change.pos));
            written.extend_from_slice(change.text)?;
            Ok(change.cut.saturating_sub(change.pos))
        }
    }
}

// Returns the word with an equals sign at each odd place, and with the texts of changes in the places of their regions.
// The only error is out of memory.
pub(crate) fn written_word(
    alloc: Global,
    word: &[u8],
    digits: &[u8],
    changes: &[Option<PlacedChange<'_>>],
) -> Result<Vec<u8>, AllocError>
    requires digits { length digits.now ≡ length word.now }
    requires changes { length changes.now ≡ length word.now }
    ensures { IfOk result (λ text. text.items ≡ written_word word.now digits.now (placed_all changes.now)) }
{
    let mut written = Vec::with_capacity(alloc, word.len())?;
    let mut passed = 0;
    for byte in 0..word.len() {
        if passed > 0 {
            passed -= 1;
        } else {
            written.push(word[byte])?;
            if digits[byte] % 2 == 1 {
                passed = write_mark(&mut written, changes[byte])?;
            }
        }
    }
    Ok(written)
}

// Writes a word with an equals sign at each odd place to the front of a list. Returns how many bytes are written.
#[inline(always)]
pub(crate) fn mark_word(word: &[u8], digits: &[u8], written: &mut [u8]) -> usize
    requires digits { length digits.now ≡ length word.now }
    requires room { 2 * length word.now ≤ length written.old }
    ensures text { take result written.new ≡ written_word word.now digits.now (replicate (length word.now) None) }
    ensures count { result ≤ 2 * length word.now }
    ensures length { length written.new ≡ length written.old }
{
    let mut count = 0;
    for byte in 0..word.len() {
        // The next byte takes the place of an equals sign that does not count. So no branch depends on the digits.
        written[count] = word[byte];
        written[count + 1] = b'=';
        count += 1 + usize::from(digits[byte] % 2);
    }
    count
}

// Reports whether each byte of a word is a character of ASCII.
pub(crate) fn is_ascii(word: &[u8]) -> bool
    ensures { result ≡ list_all (λ b. nat_lt b 128) word.now }
{
    word.iter().all(|byte| *byte < 128)
}

// Reports whether a byte begins a character of UTF-8.
#[inline(always)]
fn begins(byte: u8) -> bool
    ensures { result ≡ begins byte }
{
    !continues(byte)
}

// Reports whether a byte of a word is the last one of a character.
#[inline(always)]
fn is_last(word: &[u8], byte: usize) -> bool
    requires { byte < length word.now }
    ensures { result ≡ is_last word.now byte }
{
    byte + 1 == word.len() || begins(word[byte + 1])
}

// Returns, for each character of a word in UTF-8, the digit behind its last byte. The only error is out of memory.
pub(crate) fn digits_of_characters(
    alloc: Global,
    word: &[u8],
    digits: &[u8],
) -> Result<Vec<u8>, AllocError>
    requires { length digits.now ≡ length word.now }
    ensures { IfOk result (λ v. v.items ≡ digits_of_characters word.now digits.now) }
{
    let mut found = Vec::with_capacity(alloc, word.len())?;
    for byte in 0..word.len() {
        if is_last(word, byte) {
            found.push(digits[byte])?;
        }
    }
    Ok(found)
}

// Moves the digit behind the last byte of each character of a word in UTF-8 to the front of the list. Returns how many
// there are. The rest of the list has anything then.
#[inline(always)]
pub(crate) fn keep_last_digits(word: &[u8], digits: &mut [u8]) -> usize
    requires { length digits.old ≡ length word.now }
    ensures digits { take result digits.new ≡ digits_of_characters word.now digits.old }
    ensures count { result ≤ length word.now }
    ensures length { length digits.new ≡ length digits.old }
{
    let mut count = 0;
    for byte in 0..word.len() {
        // The next digit takes the place of one that does not count. So no branch depends on the bytes.
        digits[count] = digits[byte];
        if is_last(word, byte) {
            count += 1;
        }
    }
    count
}

// Returns the number of characters that begin in a text.
fn characters(text: &[u8]) -> usize
    ensures { result ≡ characters text.now }
{
    let mut count = 0;
    for byte in text {
        if begins(*byte) {
            count += 1;
        }
    }
    count
}

// Returns the number of characters that begin in a range of a text, as far as the text reaches.
fn characters_in(text: &[u8], begin: usize, end: usize) -> usize
    ensures { result ≡ characters (slice_range text.now begin end) }
{
    let end = if end < text.len() { end } else { text.len() };
    if begin < end {
        characters(&text[begin..end])
    } else {
        0
    }
}

// Returns a change behind a byte, with its numbers in characters.
fn change_in_characters<'d>(text: &[u8], byte: usize, change: PlacedChange<'d>) -> PlacedChange<'d>
    requires { byte < usize.MAX }
    ensures { placed result ≡ change_in_characters text.now byte (placed change.entry) }
{
    let behind = byte + 1;
    let begin = behind.saturating_sub(change.pos);
    let end = if change.pos <= behind {
        (behind - change.pos).saturating_add(change.cut)
    } else {
        change.cut.saturating_sub(change.pos - behind)
    };
    PlacedChange {
        text: change.text,
        pos: characters_in(text, begin, behind),
        cut: characters_in(text, begin, end),
    }
}

// Returns the change behind a byte, if there is one, with its numbers in characters.
fn character_change<'d>(
    text: &[u8],
    byte: usize,
    change: Option<PlacedChange<'d>>,
) -> Option<PlacedChange<'d>>
    requires { byte < usize.MAX }
    ensures { option_map placed result
        ≡ option_map (change_in_characters text.now byte) (option_map placed change.entry) }
{
    match change {
        None => None,
        Some(change) => Some(change_in_characters(text, byte, change)),
    }
}

// Returns, for each character of a word in UTF-8, the change behind its last byte, with its numbers in characters.
//
// `text` is the word with all that follows it, and a byte 0. The only error is out of memory.
pub(crate) fn changes_of_characters<'d>(
    alloc: Global,
    word: &[u8],
    text: &[u8],
    changes: &[Option<PlacedChange<'d>>],
) -> Result<Vec<Option<PlacedChange<'d>>>, AllocError>
    requires { length changes.now ≡ length word.now }
    ensures { IfOk result (λ v. placed_all v.items ≡ changes_of_characters word.now text.now (placed_all changes.now)) }
{
    let mut found = Vec::with_capacity(alloc, word.len())?;
    for byte in 0..word.len() {
        if is_last(word, byte) {
            found.push(character_change(text, byte, changes[byte]))?;
        }
    }
    Ok(found)
}
