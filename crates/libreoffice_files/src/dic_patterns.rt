//! The patterns of a `.dic`, from both of its levels.

ghost use Rattle.std.specs.Prelude.{◌≡◌, ◌<◌, ◌==◌, ◌++◌, All, map, option_map, IfOk, OnOk, IsTrue};
ghost use Rattle.std.specs.List.{filter_map, slice_split};
ghost use Rattle.std.specs.Option.{option_to_list};
ghost use Rattle.hyphenation_grammar.specs.Lines.{is_digit, is_same};
ghost use Rattle.pattern_results.specs.Texts.{letters};
ghost use Rattle.libreoffice_files.specs.LibreOfficePatterns.{last_values, value_of_digit, begins_with_digit, split_at_slash, pattern_of};
ghost use Rattle.libreoffice_files.specs.LibreOfficePatterns.{pattern_of_line, change_of, spelt_with, key_with_values, is_within, forbidding, forbidden};
ghost use Rattle.libreoffice_files.specs.LibreOfficePatterns.{last_of, with_forbidden, with_all_forbidden, patterns_of};
ghost use Rattle.libreoffice_files.specs.LibreOffice.{change_there, entries_kept, kept_in};
ghost use Rattle.hyphenation_dictionary.specs.Maker.{fits_key};
ghost use Rattle.libreoffice_files.specs.Private.Views.{with_keys, line_view, spelt_view, keyed_view, change_kept, has_small_values};

use crate::carried_changes::carried_entry;
use crate::change::{PlacedChange, change_of, has_byte};
use crate::lines::{Line, LineKind, split_at_byte};
use crate::value::Value;
use hyphenation_breaks::entry::{Entry, Listing, Payload, has_letter};
use hyphenation_breaks::extended::Subregion;
use hyphenation_dictionary::maker::fits_key;
use hyphenation_trie::to_u32;
use pattern_results::dictionary_parts::DictionaryParts;
use pattern_results::texts::text_from_utf8;
use std::alloc::{AllocError, Global};

// A pattern without its key: its values and its change.
#[derive(Drop)]
pub(crate) struct Pattern {
    pub values: Vec<Value>,
    pub change: Option<PlacedChange>,
}

// Appends the value that a digit writes, unless the value is 0.
fn push_value(values: &mut Vec<Value>, place: usize, digit: u8) -> Result<(), AllocError>
    requires { IsTrue (is_digit digit) }
    ensures { OnOk result (values.new.items ≡ values.old.items ++ value_of_digit place digit) }
{
    if digit == b'0' {
        return Ok(());
    }
    values.push(Value {
        place,
        value: digit - b'0',
    })?;
    Ok(())
}

// Whether a byte is a digit.
pub(crate) fn is_digit(byte: u8) -> bool
    ensures { result ≡ is_digit byte }
{
    matches!(byte, b'0'..=b'9')
}

// Whether a text begins with a digit.
pub(crate) fn begins_with_digit(text: &[u8]) -> bool
    ensures { result ≡ begins_with_digit text.now }
{
    match text.first() {
        Some(byte) => is_digit(*byte),
        None => false,
    }
}

// The letters of a pattern, and its values other than 0. If several digits are in one place, the last one counts, as in
// LibreOffice.
pub(crate) fn spelling_of(alloc: Global, body: &[u8]) -> Result<(Vec<u8>, Vec<Value>), AllocError>
    ensures letters { IfOk result (λ found. found.0.items ≡ letters body.now) }
    ensures values { IfOk result (λ found. found.1.items ≡ last_values 0 body.now) }
{
    let mut key = Vec::new(alloc);
    let mut values = Vec::new(alloc);
    let mut rest = body;
    while let Some((byte, after)) = rest.split_first() {
        if !is_digit(*byte) {
            key.push(*byte)?;
        } else if !begins_with_digit(after) {
            push_value(&mut values, key.len(), *byte)?;
        }
        rest = after;
    }
    Ok((key, values))
}

// Splits a pattern from its change, at a slash with a `=` after it.
pub(crate) fn split_at_slash(line: &str) -> (&str, Option<&str>)
    ensures { (result.0.now, option_map (λ change. change.now) result.1) ≡ split_at_slash line.now }
{
    match split_at_byte(line, '/') {
        Some((body, text)) if has_byte(text, b'=') => (body, Some(text)),
        _ => (line, None),
    }
}

// The change of a pattern. None if it can't be carried.
fn change_kept(
    alloc: Global,
    text: &str,
    key: &[u8],
    values: &[Value],
) -> Result<Option<PlacedChange>, AllocError>
    ensures { IfOk result (λ found. found ≡ change_kept (change_of key.now values.now text.now)) }
{
    match change_of(alloc, text, key, values)? {
        Err(_) => Ok(None),
        Ok((placed, _)) => Ok(Some(placed)),
    }
}

// A key with its pattern. None if the pattern has a change that can't be carried.
#[tactic(auto, using(crate::proofs::Keeping::kept_none, crate::proofs::Keeping::kept_some))]
fn with_change(
    alloc: Global,
    key: Vec<u8>,
    values: Vec<Value>,
    change: Option<&str>,
) -> Result<Option<(Vec<u8>, Pattern)>, AllocError>
    ensures { IfOk result (λ found. option_map keyed_view found
        ≡ key_with_values key.items values.items (option_map (λ text. text.now) change.entry)) }
{
    let Some(text) = change else {
        let change = None;
        return Ok(Some((key, Pattern { values, change })));
    };
    match change_kept(alloc, text, &key, &values)? {
        None => Ok(None),
        Some(placed) => {
            let change = Some(placed);
            Ok(Some((key, Pattern { values, change })))
        }
    }
}

// The key and the pattern that a text writes. None if it has no letter, or a change that can't be carried.
fn pattern_of(alloc: Global, text: &str) -> Result<Option<(Vec<u8>, Pattern)>, AllocError>
    ensures { IfOk result (λ found. option_map keyed_view found ≡ pattern_of text.now) }
{
    let (body, change) = split_at_slash(text);
    let (key, values) = spelling_of(alloc, body.as_bytes())?;
    if !has_letter(&key) {
        return Ok(None);
    }
    with_change(alloc, key, values, change)
}

// The key and the pattern of a line. None if the line is no pattern, or one that can't be kept.
pub(crate) fn pattern_of_line(
    alloc: Global,
    line: Line<'_>,
) -> Result<Option<(Vec<u8>, Pattern)>, AllocError>
    ensures { IfOk result (λ found. option_map keyed_view found ≡ pattern_of_line (line_view line.entry)) }
{
    match line.kind {
        LineKind::Pattern => pattern_of(alloc, line.text),
        _ => Ok(None),
    }
}

// Appends a pattern, if there is one.
fn push_found(
    patterns: &mut Vec<(Vec<u8>, Pattern)>,
    found: Option<(Vec<u8>, Pattern)>,
) -> Result<(), AllocError>
    ensures { OnOk result (map keyed_view patterns.new.items
        ≡ map keyed_view patterns.old.items ++ option_to_list (option_map keyed_view found)) }
{
    if let Some(pattern) = found {
        patterns.push(pattern)?;
    }
    Ok(())
}

// The keys and the patterns of lines, of both levels.
#[tactic(auto, using(crate::proofs::Keeping::kept_on))]
pub(crate) fn patterns_of(
    alloc: Global,
    lines: &[Line<'_>],
) -> Result<Vec<(Vec<u8>, Pattern)>, AllocError>
    ensures { IfOk result (λ patterns. map keyed_view patterns.items ≡ patterns_of (map line_view lines.now)) }
{
    let mut patterns = Vec::new(alloc);
    for line in lines {
        let found = pattern_of_line(alloc, *line)?;
        push_found(&mut patterns, found)?;
    }
    Ok(patterns)
}

// Whether a value is strictly within a key of that length.
fn is_within(len: usize, value: Value) -> bool
    ensures { result ≡ is_within len value }
{
    0 < value.place && value.place < len
}

// The value 8 at both ends of a key of that length, with the old values strictly within it.
fn forbidding(alloc: Global, len: usize, old: &[Value]) -> Result<Vec<Value>, AllocError>
    ensures { IfOk result (λ values. values.items ≡ forbidding len old.now) }
{
    let mut values = Vec::new(alloc);
    values.push(Value { place: 0, value: 8 })?;
    for value in old {
        if is_within(len, *value) {
            values.push(*value)?;
        }
    }
    values.push(Value {
        place: len,
        value: 8,
    })?;
    Ok(values)
}

// Whether a pattern has that key.
fn is_of(pattern: &(Vec<u8>, Pattern), key: &[u8]) -> bool
    ensures { result ≡ is_same (keyed_view pattern.now).0 key.now }
{
    pattern.0.as_slice() == key
}

// The last pattern with that key.
fn last_of<'p>(key: &[u8], patterns: &'p [(Vec<u8>, Pattern)]) -> Option<&'p Pattern>
    ensures { option_map (λ pattern. spelt_view pattern.now) result ≡ last_of key.now (map keyed_view patterns.now) }
{
    let mut last = None;
    for pattern in patterns {
        if is_of(pattern, key) {
            last = Some(&pattern.1);
        }
    }
    last
}

// A copy of a change, if there is one.
fn copy_change(change: &Option<PlacedChange>) -> Result<Option<PlacedChange>, AllocError>
    ensures { IfOk result (λ found. found ≡ change.now) }
{
    match change {
        None => Ok(None),
        Some(placed) => {
            let place = placed.place;
            let change = copy_subregion(&placed.change)?;
            Ok(Some(PlacedChange { place, change }))
        }
    }
}

// A copy of a change.
pub(crate) fn copy_subregion(change: &Subregion) -> Result<Subregion, AllocError>
    ensures { IfOk result (λ found. found ≡ change.now) }
{
    change.invariant();
    let substitution = change.substitution.clone()?;
    Ok(Subregion::new(change.left, change.right, substitution, change.breakpoint))
}

// The pattern that forbids breaks at both ends of a text, with the old pattern's values within it.
fn forbidden(alloc: Global, text: &str, old: Option<&Pattern>) -> Result<Pattern, AllocError>
    ensures { IfOk result (λ pattern. spelt_view pattern
        ≡ forbidden text.now (option_map (λ old. spelt_view old.now) old.entry)) }
{
    match old {
        None => Ok(Pattern {
            values: forbidding(alloc, text.len(), &[])?,
            change: None,
        }),
        Some(old) => Ok(Pattern {
            values: forbidding(alloc, text.len(), &old.values)?,
            change: copy_change(&old.change)?,
        }),
    }
}

// Forbids breaks directly before and after a text: its values there are 8. A text without letters forbids nothing.
fn forbid(
    alloc: Global,
    patterns: &mut Vec<(Vec<u8>, Pattern)>,
    text: &str,
) -> Result<(), AllocError>
    ensures { OnOk result (map keyed_view patterns.new.items
        ≡ with_forbidden (map keyed_view patterns.old.items) text.now) }
{
    let bytes = text.as_bytes();
    if !has_letter(bytes) {
        return Ok(());
    }
    let pattern = forbidden(alloc, text, last_of(bytes, patterns))?;
    patterns.push((Vec::from_slice(alloc, bytes)?, pattern))?;
    Ok(())
}

// Splits texts at their commas.
fn between_commas(alloc: Global, texts: &str) -> Result<Vec<&str>, AllocError>
    ensures { IfOk result (λ found. map (λ text. text.now) found.items ≡ slice_split (λ b. b == 44) texts.now) }
{
    texts.split(',').collect(alloc)
}

// Forbids breaks directly before and after texts that have commas between them.
pub(crate) fn forbid_all(
    alloc: Global,
    patterns: &mut Vec<(Vec<u8>, Pattern)>,
    texts: &str,
) -> Result<(), AllocError>
    ensures { OnOk result (map keyed_view patterns.new.items
        ≡ with_all_forbidden (map keyed_view patterns.old.items) texts.now) }
{
    let named = between_commas(alloc, texts)?;
    for text in &named {
        forbid(alloc, patterns, text.trim())?;
    }
    Ok(())
}

// The change of the value at a place, if it has one.
fn change_at(change: &Option<PlacedChange>, place: usize) -> Result<Option<Subregion>, AllocError>
    ensures { IfOk result (λ found. found ≡ change_there change.now place) }
{
    match change {
        Some(placed) if placed.place == place => Ok(Some(copy_subregion(&placed.change)?)),
        _ => Ok(None),
    }
}

// The entries of a pattern, as a kind of dictionary keeps them. Values are digits, and so below 255.
fn entries_of<C: Payload>(alloc: Global, pattern: &Pattern) -> Result<Vec<Entry<C>>, AllocError>
    ensures { has_small_values (spelt_view pattern.now) → IfOk result (λ entries.
        entries.items ≡ entries_kept C.change_of C.payload_of (spelt_view pattern.now)) }
{
    let mut entries = Vec::new(alloc);
    for value in &pattern.values {
        entries.push(carried_entry(Entry {
            place: to_u32(value.place)?,
            value: value.value,
            change: change_at(&pattern.change, value.place)?,
        }))?;
    }
    Ok(entries)
}

// Whether a key may have these entries.
fn may_have<C: Payload>(key: &str, entries: &[Entry<C>]) -> bool
    ensures { result ≡ fits_key C.change_of key.now entries.now }
{
    fits_key(key, entries)
}

// Appends a key with its entries, if they fit a dictionary.
fn push_if_fits<C: Payload, B: Listing>(
    alloc: Global,
    parts: &mut DictionaryParts<C, B>,
    keyed: &(Vec<u8>, Pattern),
) -> Result<(), AllocError>
    requires { has_small_values (spelt_view keyed.now.1) }
    ensures { OnOk result (parts.new ≡ with_keys parts.old
        (option_to_list (kept_in C.change_of C.payload_of (keyed_view keyed.now)))) }
{
    let (key, pattern) = keyed;
    let entries = entries_of::<C>(alloc, pattern)?;
    let Some(text) = text_from_utf8(Vec::from_slice(alloc, key)?) else {
        return Ok(());
    };
    if may_have(&text, &entries) {
        parts.push_pattern(text, entries)?;
    }
    Ok(())
}

// Appends the keys with their entries that fit a dictionary.
#[tactic(auto, using(crate::proofs::Keeping::kept_more))]
pub(crate) fn push_fitting<C: Payload, B: Listing>(
    alloc: Global,
    parts: &mut DictionaryParts<C, B>,
    patterns: &[(Vec<u8>, Pattern)],
) -> Result<(), AllocError>
    requires { All (λ p. has_small_values (spelt_view p.1)) patterns.now }
    ensures { OnOk result (parts.new
        ≡ with_keys parts.old (filter_map (kept_in C.change_of C.payload_of) (map keyed_view patterns.now))) }
{
    for keyed in patterns {
        push_if_fits(alloc, parts, keyed)?;
    }
    Ok(())
}
