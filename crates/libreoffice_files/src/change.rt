//! Changes of letters at a break, as a `.dic` writes them: `pattern/replacement,start,count`.

ghost use Rattle.std.specs.Prelude.{◌≡◌, ◌≤◌, ◌==◌, ◌++◌, IfOk, IfSome, Bool, option_map, length, slice_index, ◌-◌, Some, Ok};
ghost use Rattle.std.specs.List.{list_any, find};
ghost use Rattle.std.specs.String.{string_bytes};
ghost use Rattle.libreoffice_files.specs.LibreOfficePatterns.{begins_char, place_after, dots, letter_count, range_from, range_of};
ghost use Rattle.libreoffice_files.specs.LibreOfficePatterns.{is_odd_in, is_place, is_after_first, value_in, are_several};
ghost use Rattle.libreoffice_files.specs.LibreOfficePatterns.{replacement_and_numbers, start_and_count, two_numbers, both_numbers};
ghost use Rattle.libreoffice_files.specs.LibreOfficePatterns.{halves_of, change_at_value, change_in, change_by_numbers, change_by_halves};
ghost use Rattle.libreoffice_files.specs.LibreOfficePatterns.{change_of};
ghost use Rattle.libreoffice_files.specs.LibreOfficeLines.{split_at_byte};

use crate::lines::{number, split_at_byte};
use crate::value::Value;
use hyphenation_breaks::extended::Subregion;
use pattern_results::notes::NoteKind;
use std::alloc::{AllocError, Global};

// A change that belongs to the value at a place of its key, counted in bytes.
#[derive(Drop)]
pub(crate) struct PlacedChange {
    pub place: usize,
    pub change: Subregion,
}

// A range of a key, in bytes, and the place after its first character.
#[derive(Clone, Copy)]
struct Range {
    begin: usize,
    after_first: Option<usize>,
    end: usize,
}

// Whether a byte begins a character of UTF-8.
fn begins_char(byte: u8) -> bool
    ensures { result ≡ begins_char byte }
{
    byte < 128 || 192 <= byte
}

// The place that many characters after a place of a key. None if the key has fewer. Places count bytes.
fn place_after(key: &[u8], begin: usize, count: usize) -> Option<usize>
    requires { begin ≤ length key.now }
    ensures place { result ≡ place_after key.now begin count }
    ensures bound { IfSome result (λ at. at ≤ length key.now) }
{
    let mut left = count;
    let mut at = begin;
    for byte in &key[begin..] {
        if begins_char(*byte) {
            if left == 0 {
                return Some(at);
            }
            left -= 1;
        }
        at += 1;
    }
    if left == 0 { Some(at) } else { None }
}

// 1 if a key begins with a dot, and else 0.
fn first_dot(key: &[u8]) -> usize
    ensures { result ≡ dots (slice_index key.now 0) }
{
    match key.first() {
        Some(byte) if *byte == b'.' => 1,
        _ => 0,
    }
}

// 1 if a key ends with a dot, and else 0.
fn last_dot(key: &[u8]) -> usize
    ensures { result ≡ dots (slice_index key.now (length key.now - 1)) }
{
    match key.last() {
        Some(byte) if *byte == b'.' => 1,
        _ => 0,
    }
}

// The number of a key's letters: of its characters without a dot at each end.
fn letter_count(key: &[u8]) -> usize
    ensures { result ≡ letter_count key.now }
{
    let chars = key.iter().filter(|byte| begins_char(**byte)).count();
    chars
        .saturating_sub(first_dot(key))
        .saturating_sub(last_dot(key))
}

// The range of that many characters from a place on. None if the key has fewer.
fn range_from(key: &[u8], begin: usize, count: usize) -> Option<Range>
    requires { begin ≤ length key.now }
    ensures { result ≡ range_from key.now begin count }
{
    let end = place_after(key, begin, count)?;
    Some(Range {
        begin,
        after_first: place_after(key, begin, 1),
        end,
    })
}

// The range of that many letters from letter `start` on, counted from 1 after a first dot. None if the key has fewer.
fn range_of(key: &[u8], start: usize, count: usize) -> Option<Range>
    ensures { result ≡ range_of key.now start count }
{
    if start == 0 {
        return None;
    }
    let begin = place_after(key, 0, start - 1 + first_dot(key))?;
    range_from(key, begin, count)
}

// Whether a value is odd and in a range, both ends included.
fn is_odd_in(range: Range, value: Value) -> bool
    ensures { result ≡ is_odd_in range value }
{
    value.value % 2 == 1 && range.begin <= value.place && value.place <= range.end
}

// Whether there is a place, and it is this one.
fn is_place(at: Option<usize>, place: usize) -> bool
    ensures { result ≡ is_place at place }
{
    match at {
        Some(at) => at == place,
        None => false,
    }
}

// Whether a value is odd, and is after the range's first letter and within the range.
fn is_after_first(range: Range, value: Value) -> bool
    ensures { result ≡ is_after_first range value }
{
    is_odd_in(range, value) && is_place(range.after_first, value.place)
}

// The odd value after the range's first letter, if it is in the range.
fn value_after_first(values: &[Value], range: Range) -> Option<Value>
    ensures { result ≡ find (is_after_first range) values.now }
{
    for value in values {
        if is_after_first(range, *value) {
            return Some(*value);
        }
    }
    None
}

// The first odd value in a range.
fn first_odd(values: &[Value], range: Range) -> Option<Value>
    ensures { result ≡ find (is_odd_in range) values.now }
{
    for value in values {
        if is_odd_in(range, *value) {
            return Some(*value);
        }
    }
    None
}

// The value that takes a change: the odd one after the range's first letter, or else the first odd one in the range.
fn value_in(values: &[Value], range: Range) -> Option<Value>
    ensures { result ≡ value_in values.now range }
{
    value_after_first(values, range).or(first_odd(values, range))
}

// Whether several values could take a change.
fn are_several(values: &[Value], range: Range) -> bool
    ensures { result ≡ are_several values.now range }
{
    values
        .iter()
        .filter(|value| is_odd_in(range, **value))
        .count()
        > 1
}

// Splits a change at its first comma into the replacement and the numbers.
fn replacement_and_numbers(text: &str) -> (&str, Option<&str>)
    ensures { (result.0.now, option_map (λ numbers. numbers.now) result.1)
        ≡ replacement_and_numbers text.now (split_at_byte 44 text.now) }
{
    match split_at_byte(text, ',') {
        Some((replacement, numbers)) => (replacement, Some(numbers)),
        None => (text, None),
    }
}

// Two numbers, if both could be read.
fn both_numbers(start: Option<usize>, count: Option<usize>) -> Result<(usize, usize), NoteKind>
    ensures { result ≡ both_numbers start count }
{
    match (start, count) {
        (Some(start), Some(count)) => Ok((start, count)),
        _ => Err(NoteKind::ChangeNumber),
    }
}

// The two numbers with exactly one comma between them. Errors are a wrong number of commas, and a text that is no
// number.
fn two_numbers(numbers: &str) -> Result<(usize, usize), NoteKind>
    ensures { result ≡ two_numbers (split_at_byte 44 numbers.now) }
{
    let Some((start, count)) = split_at_byte(numbers, ',') else {
        return Err(NoteKind::ChangeParts);
    };
    if has_byte(count, b',') {
        return Err(NoteKind::ChangeParts);
    }
    both_numbers(number(start), number(count))
}

// The first letter of the range, and the number of its letters. Without numbers the range has all letters of the key.
fn start_and_count(key: &[u8], numbers: Option<&str>) -> Result<(usize, usize), NoteKind>
    ensures { result ≡ start_and_count key.now (option_map (λ numbers. numbers.now) numbers.entry) }
{
    match numbers {
        None => Ok((1, letter_count(key))),
        Some(numbers) => two_numbers(numbers),
    }
}

// Whether a text has a byte.
pub(crate) fn has_byte(text: &str, wanted: u8) -> bool
    ensures { result ≡ list_any (λ b. b == wanted) text.now }
{
    text.as_bytes().iter().any(|byte| *byte == wanted)
}

// The two halves of a replacement with exactly one `=`. None if it has none or several.
fn halves_of(replacement: &str) -> Option<(&str, &str)>
    ensures { option_map (λ halves. (halves.0.now, halves.1.now)) result ≡ halves_of replacement.now }
{
    let (before, after) = split_at_byte(replacement, '=')?;
    if has_byte(after, b'=') {
        None
    } else {
        Some((before, after))
    }
}

// The two texts, one after the other.
fn joined(alloc: Global, before: &str, after: &str) -> Result<String, AllocError>
    ensures { IfOk result (λ text. string_bytes text ≡ before.now ++ after.now) }
{
    let mut text = String::from_str(alloc, before)?;
    text.push_str(after)?;
    Ok(text)
}

// The change of a value: the two halves replace the range, and the word breaks between them.
fn change_at_value(
    alloc: Global,
    range: Range,
    before: &str,
    after: &str,
    value: Value,
) -> Result<PlacedChange, AllocError>
    ensures { IfOk result (λ found. found ≡ change_at_value range (before.now, after.now) value) }
{
    let substitution = joined(alloc, before, after)?;
    let (place, begin, end) = (value.place, range.begin, range.end);
    let (left, right) = (place.saturating_sub(begin), end.saturating_sub(place));
    let change = Subregion::new(left, right, substitution, before.len());
    Ok(PlacedChange { place, change })
}

// The change of a range, and whether several values could take it. The inner error is that no value is odd there.
#[tactic(auto, using(crate::proofs::Changing::change_joined))]
fn change_in(
    alloc: Global,
    values: &[Value],
    before: &str,
    after: &str,
    range: Range,
) -> Result<Result<(PlacedChange, bool), NoteKind>, AllocError>
    ensures { IfOk result (λ found. found ≡ change_in values.now (before.now, after.now) (Some range)) }
{
    let Some(value) = value_in(values, range) else {
        return Ok(Err(NoteKind::ChangeWithoutValue));
    };
    let placed = change_at_value(alloc, range, before, after, value)?;
    Ok(Ok((placed, are_several(values, range))))
}

// The change of a range that numbers give, and whether several values could take it. The inner error is the note on a
// change that can't be read.
fn change_by_numbers(
    alloc: Global,
    key: &[u8],
    values: &[Value],
    replacement: &str,
    numbers: (usize, usize),
) -> Result<Result<(PlacedChange, bool), NoteKind>, AllocError>
    ensures { IfOk result (λ found. found ≡ change_by_numbers key.now values.now replacement.now (Ok numbers)) }
{
    let Some((before, after)) = halves_of(replacement) else {
        return Ok(Err(NoteKind::ChangeWithoutEquals));
    };
    match range_of(key, numbers.0, numbers.1) {
        None => Ok(Err(NoteKind::ChangePastKey)),
        Some(range) => change_in(alloc, values, before, after, range),
    }
}

// The change that the text after a slash gives, and whether several values could take it. The inner error is the note
// on a change that can't be read; the outer one is out of memory.
pub(crate) fn change_of(
    alloc: Global,
    text: &str,
    key: &[u8],
    values: &[Value],
) -> Result<Result<(PlacedChange, bool), NoteKind>, AllocError>
    ensures { IfOk result (λ found. found ≡ change_of key.now values.now text.now) }
{
    let (replacement, numbers) = replacement_and_numbers(text);
    match start_and_count(key, numbers) {
        Err(note) => Ok(Err(note)),
        Ok(numbers) => change_by_numbers(alloc, key, values, replacement, numbers),
    }
}
