//! Compounds: a word is parted at the breaks of the first level, and each part is broken anew.

ghost use Rattle.std.specs.Prelude.{◌≡◌, ◌==◌, ◌+◌, ◌≤◌, ◌<◌, ◌++◌, IfOk, OnOk, length, map, take, drop, position};
ghost use Rattle.std.specs.Prelude.{replicate, slice_index, slice_index_or, slice_set, Some};
ghost use Rattle.std.specs.List.{list_any};
ghost use Rattle.std.specs.Option.{option_map, option_or};
ghost use Rattle.hyphenation_breaks.specs.Ascii.{digit_zero};
ghost use Rattle.libhyphen_rule.specs.Counting.{shown};
ghost use Rattle.libhyphen_rule.specs.OneLevel.{is_odd};
ghost use Rattle.libhyphen_rule.specs.Found.{by_next_level_in, without_left_in, without_right_in};
ghost use Rattle.libhyphen_rule.specs.Found.{asked_in, found_of, minima_of, placed, placed_all, texts_of};
ghost use Rattle.libhyphen_rule.specs.Parts.{asked_of, next_level_found, changes_with, digits_with, ends_part, found_by_next_level};
ghost use Rattle.libhyphen_rule.specs.Parts.{found_in, part_text, seen_after, some_change, first_level_found, with_behind};
ghost use Rattle.libhyphen_rule.specs.Parts.{with_part, without_left_of_part, without_right_of_part, word_found};

use crate::found::WordFound;
use crate::minima::{find_equals, take_left, take_right};
use crate::one_level::{PlacedChange, read_level};
use libhyphen_files::LevelDictionary;
use std::alloc::{AllocError, Global};

// How often a word is parted again and again at most.
pub(crate) const MOST_DEPTH: usize = 1000;

// Both levels, and the least numbers of letters in a part, where it does not begin or end the word.
#[derive(Clone, Copy, Drop)]
pub(crate) struct BothLevels<'d> {
    pub(crate) dictionary: &'d LevelDictionary,
    pub(crate) left: i32,
    pub(crate) right: i32,
}

// A word, or a part of one, that is asked. `behind` is what follows it.
#[derive(Clone, Copy, Drop)]
pub(crate) struct AskedText<'a> {
    pub(crate) text: &'a [u8],
    pub(crate) behind: &'a [u8],
    pub(crate) at_left: bool,
    pub(crate) at_right: bool,
}

// A part's text, and what follows it.
#[derive(Drop)]
pub(crate) struct PartTexts {
    text: Vec<u8>,
    behind: Vec<u8>,
}

// Reports whether some digit is odd.
pub(crate) fn has_break(digits: &[u8]) -> bool
    ensures { result ≡ list_any is_odd digits.now }
{
    digits.iter().any(|digit| *digit % 2 == 1)
}

// Reports whether there is a change.
#[tactic(auto, using(crate::proofs::PlacesOfParts::any_past, crate::proofs::PlacesOfParts::any_end))]
pub(crate) fn has_change(changes: &[Option<PlacedChange<'_>>]) -> bool
    ensures { result ≡ some_change (placed_all changes.now) }
{
    for i in 0..changes.len() {
        let here = changes[i].is_some();
        if here {
            return true;
        }
    }
    false
}

// Reports whether a part ends behind a byte.
pub(crate) fn ends_part(digits: &[u8], byte: usize) -> bool
    requires { byte < length digits.now }
    ensures { result ≡ ends_part digits.now byte }
{
    digits[byte] % 2 == 1 || byte + 1 == digits.len()
}

// Returns a copy of some bytes. The only error is out of memory.
fn copy_of(alloc: Global, bytes: &[u8]) -> Result<Vec<u8>, AllocError>
    ensures { IfOk result (λ v. v.items ≡ bytes.now) }
{
    let mut copy = Vec::new(alloc);
    copy.extend_from_slice(bytes)?;
    Ok(copy)
}

// Returns some bytes 0. The only error is out of memory.
fn zeros(alloc: Global, count: usize) -> Result<Vec<u8>, AllocError>
    ensures { IfOk result (λ v. v.items ≡ replicate count 0) }
{
    vec![in alloc; 0u8; count]
}

// Returns the first bytes of a text. The only error is out of memory.
fn first_bytes(alloc: Global, text: &[u8], count: usize) -> Result<Vec<u8>, AllocError>
    ensures { IfOk result (λ v. v.items ≡ take count text.now) }
{
    if count < text.len() {
        copy_of(alloc, &text[..count])
    } else {
        copy_of(alloc, text)
    }
}

// Returns a text without its first bytes. The only error is out of memory.
fn rest_of(alloc: Global, text: &[u8], count: usize) -> Result<Vec<u8>, AllocError>
    ensures { IfOk result (λ v. v.items ≡ drop count text.now) }
{
    if count < text.len() {
        copy_of(alloc, &text[count..])
    } else {
        Ok(Vec::new(alloc))
    }
}

// Returns the text with dots for its digits. The only error is out of memory.
fn shown_text(alloc: Global, text: &[u8]) -> Result<Vec<u8>, AllocError>
    ensures { IfOk result (λ v. v.items ≡ map shown text.now) }
{
    text.iter()
        .map(|byte| if byte.is_ascii_digit() { b'.' } else { *byte })
        .collect(alloc)
}

// Returns two texts in a row. The only error is out of memory.
fn joined(alloc: Global, first: &[u8], second: &[u8]) -> Result<Vec<u8>, AllocError>
    ensures { IfOk result (λ v. v.items ≡ first.now ++ second.now) }
{
    let mut all = Vec::new(alloc);
    all.extend_from_slice(first)?;
    all.extend_from_slice(second)?;
    Ok(all)
}

// Returns where the first byte 0 is.
fn nul_at(text: &[u8]) -> Option<usize>
    ensures { result ≡ position (λ b. b == 0) text.now }
{
    text.iter().position(|byte| *byte == 0)
}

// Returns a text with what follows it, up to the first byte 0. The only error is out of memory.
fn with_behind(alloc: Global, asked: AskedText<'_>) -> Result<Vec<u8>, AllocError>
    ensures { IfOk result (λ v. v.items ≡ with_behind (asked_in asked.entry)) }
{
    let all = joined(alloc, asked.text, asked.behind)?;
    match nul_at(&all) {
        Some(end) => first_bytes(alloc, &all, end),
        None => Ok(all),
    }
}

// Returns the digit of a part at a byte, or 0 where it has none.
fn digit_at(part: &[u8], byte: usize) -> u8
    ensures { result ≡ slice_index_or part.now byte digit_zero }
{
    if byte < part.len() { part[byte] } else { b'0' }
}

// Returns the change of a part at a byte, or another one where it has none.
fn change_over<'d>(
    part: &[Option<PlacedChange<'d>>],
    byte: usize,
    other: Option<PlacedChange<'d>>,
) -> Option<PlacedChange<'d>>
    ensures { result ≡ option_or (slice_index_or part.now byte None) other.entry }
{
    if byte >= part.len() {
        return other;
    }
    match part[byte] {
        Some(change) => Some(change),
        None => other,
    }
}

// Reports whether there is a change at the first bytes.
fn has_change_within(changes: &[Option<PlacedChange<'_>>], count: usize) -> bool
    ensures { result ≡ some_change (take count (placed_all changes.now)) }
{
    if count < changes.len() {
        has_change(&changes[..count])
    } else {
        has_change(changes)
    }
}

// Puts the digits of a part in the places of `count` digits from `begin` on.
fn put_digits(digits: &mut [u8], begin: usize, count: usize, part: &[u8])
    requires { begin + count ≤ length digits.old }
    ensures { digits.new ≡ digits_with digits.old begin count part.now }
{
    for j in 0..count {
        digits[begin + j] = digit_at(part, j);
    }
}

// Puts the changes of a part in the places of `count` changes from `begin` on, where it has some.
fn put_changes<'d>(
    changes: &mut [Option<PlacedChange<'d>>],
    begin: usize,
    count: usize,
    part: &[Option<PlacedChange<'d>>],
)
    requires { begin + count ≤ length changes.old }
    ensures { changes.new ≡ changes_with changes.old begin count part.now }
{
    for j in 0..count {
        let other = changes[begin + j];
        changes[begin + j] = change_over(part, j, other);
    }
}

// Puts what is found in a part into what is found in the whole.
fn put_part<'d>(whole: &mut WordFound<'d>, begin: usize, count: usize, part: WordFound<'d>)
    requires digits { begin + count ≤ length whole.old.digits.items }
    requires changes { begin + count ≤ length whole.old.changes.items }
    ensures found { found_of whole.new ≡ with_part (found_of whole.old) begin count (Some (found_of part.entry)) }
    ensures digits { length whole.new.digits.items ≡ length whole.old.digits.items }
    ensures changes { length whole.new.changes.items ≡ length whole.old.changes.items }
{
    put_digits(&mut whole.digits, begin, count, &part.digits);
    put_changes(&mut whole.changes, begin, count, &part.changes);
    let made = has_change_within(&part.changes, count);
    whole.made = whole.made | made;
    whole.parts = part.parts;
}

// Returns what the first level finds in a text. The only error is out of memory.
fn found_by_first_level<'d>(
    alloc: Global,
    levels: BothLevels<'d>,
    parts: usize,
    text: &[u8],
) -> Result<WordFound<'d>, AllocError>
    ensures found { IfOk result (λ found. found_of found ≡ first_level_found levels.entry.dictionary.now parts text.now) }
    ensures digits { IfOk result (λ found. length found.digits.items ≡ length text.now) }
    ensures changes { IfOk result (λ found. length found.changes.items ≡ length text.now) }
{
    let mut digits = vec![in alloc; b'0'; text.len()]?;
    let mut changes: Vec<Option<PlacedChange<'d>>> = vec![in alloc; None; text.len()]?;
    read_level(
        alloc,
        levels.dictionary.first_level(),
        text,
        &mut digits,
        &mut changes,
    )?;
    let made = has_change(&changes);
    Ok(WordFound {
        digits,
        changes,
        made,
        parts,
    })
}

// Returns what both levels find in a text in which the first level finds no break, before minima. The only error
// is out of memory.
fn found_by_both<'d>(
    alloc: Global,
    levels: BothLevels<'d>,
    text: &[u8],
    found: WordFound<'d>,
) -> Result<WordFound<'d>, AllocError>
    requires digits { length found.digits.items ≡ length text.now }
    requires changes { length found.changes.items ≡ length text.now }
    requires made { found.made ≡ some_change (placed_all found.changes.items) }
    ensures found { IfOk result (λ r. found_of r
        ≡ next_level_found levels.entry.dictionary.now found.entry.parts text.now (placed_all found.entry.changes.items)) }
    ensures digits { IfOk result (λ r. length r.digits.items ≡ length text.now) }
    ensures changes { IfOk result (λ r. length r.changes.items ≡ length text.now) }
{
    let WordFound {
        mut digits,
        mut changes,
        made,
        parts,
    } = found;
    if made {
        let mut next_level: Vec<Option<PlacedChange<'d>>> = vec![in alloc; None; text.len()]?;
        read_level(
            alloc,
            levels.dictionary.next_level(),
            text,
            &mut digits,
            &mut next_level,
        )?;
        put_changes(&mut changes, 0, text.len(), &next_level);
        Ok(WordFound {
            digits,
            changes,
            made: true,
            parts,
        })
    } else {
        read_level(
            alloc,
            levels.dictionary.next_level(),
            text,
            &mut digits,
            &mut changes,
        )?;
        let made = has_change(&changes);
        Ok(WordFound {
            digits,
            changes,
            made,
            parts,
        })
    }
}

// Takes away the places that are too near to the begin of a part, if it does not begin the word. The only error is out
// of memory.
fn take_left_of_part(
    alloc: Global,
    levels: BothLevels<'_>,
    asked: AskedText<'_>,
    found: &mut WordFound<'_>,
) -> Result<(), AllocError>
    requires { length found.old.changes.items ≡ length found.old.digits.items }
    ensures found { OnOk result (found_of found.new
        ≡ without_left_in levels.entry asked.entry found.old) }
    ensures digits { length found.new.digits.items ≡ length found.old.digits.items }
    ensures changes { length found.new.changes.items ≡ length found.old.changes.items }
{
    if !asked.at_left {
        let text = with_behind(alloc, asked)?;
        let utf8 = levels.dictionary.is_utf8();
        take_left(
            utf8,
            levels.left,
            &text,
            &mut found.digits,
            &mut found.changes,
        );
    }
    Ok(())
}

// Takes away the places that are too near to the end of a part, if it does not end the word. The only error is out of
// memory.
fn take_right_of_part(
    alloc: Global,
    levels: BothLevels<'_>,
    asked: AskedText<'_>,
    found: &mut WordFound<'_>,
) -> Result<(), AllocError>
    requires digits { length found.old.digits.items ≡ length asked.text.now }
    requires changes { length found.old.changes.items ≡ length asked.text.now }
    ensures found { OnOk result (found_of found.new
        ≡ without_right_in levels.entry asked.entry found.old) }
    ensures digits { length found.new.digits.items ≡ length found.old.digits.items }
    ensures changes { length found.new.changes.items ≡ length found.old.changes.items }
{
    if !asked.at_right {
        let text = with_behind(alloc, asked)?;
        let utf8 = levels.dictionary.is_utf8();
        take_right(
            utf8,
            levels.right,
            asked.text,
            &text,
            &mut found.digits,
            &mut found.changes,
        );
    }
    Ok(())
}

// Returns what both levels find in a text in which the first level finds no break. The only error is out of
// memory.
fn found_by_next_level<'d>(
    alloc: Global,
    levels: BothLevels<'d>,
    asked: AskedText<'_>,
    first_level: WordFound<'d>,
) -> Result<WordFound<'d>, AllocError>
    requires digits { length first_level.digits.items ≡ length asked.text.now }
    requires changes { length first_level.changes.items ≡ length asked.text.now }
    requires made { first_level.made ≡ some_change (placed_all first_level.changes.items) }
    ensures found { IfOk result (λ found. found_of found
        ≡ by_next_level_in levels.entry asked.entry first_level.entry) }
    ensures digits { IfOk result (λ found. length found.digits.items ≡ length asked.entry.text.now) }
    ensures changes { IfOk result (λ found. length found.changes.items ≡ length asked.entry.text.now) }
{
    let mut found = found_by_both(alloc, levels, asked.text, first_level)?;
    take_left_of_part(alloc, levels, asked, &mut found)?;
    take_right_of_part(alloc, levels, asked, &mut found)?;
    Ok(found)
}

// Returns the text of a part that ends at a change, and what follows it. The only error is out of memory.
fn texts_at_change(
    alloc: Global,
    seen: &[u8],
    begin: usize,
    end: usize,
    change: PlacedChange<'_>,
) -> Result<PartTexts, AllocError>
    requires begin { begin ≤ end }
    requires end { end ≤ length seen.now }
    ensures { IfOk result (λ texts. texts_of texts ≡ part_text seen.now begin end (Some (placed change.entry))) }
{
    let kept = end.saturating_sub(change.pos);
    match find_equals(change.text) {
        Some(equals) => {
            let front = first_bytes(alloc, change.text, equals)?;
            let whole = joined(alloc, &seen[..kept], &front)?;
            let text = rest_of(alloc, &whole, begin)?;
            Ok(PartTexts {
                text,
                behind: Vec::new(alloc),
            })
        }
        None => {
            let changed = joined(alloc, &seen[..kept], change.text)?;
            let zeros = zeros(alloc, end)?;
            let whole = joined(alloc, &changed, &zeros)?;
            let text = copy_of(alloc, &whole[begin..end])?;
            let behind = rest_of(alloc, &whole, end)?;
            Ok(PartTexts { text, behind })
        }
    }
}

// Returns a part's text, and what follows it. The only error is out of memory.
fn part_texts(
    alloc: Global,
    seen: &[u8],
    begin: usize,
    end: usize,
    change: Option<PlacedChange<'_>>,
) -> Result<PartTexts, AllocError>
    requires begin { begin ≤ end }
    requires end { end ≤ length seen.now }
    ensures { IfOk result (λ texts. texts_of texts ≡ part_text seen.now begin end (option_map placed change.entry)) }
{
    match change {
        None => {
            let text = copy_of(alloc, &seen[begin..end])?;
            Ok(PartTexts {
                text,
                behind: Vec::new(alloc),
            })
        }
        Some(change) => texts_at_change(alloc, seen, begin, end, change),
    }
}

// Returns a part as it is asked.
fn part_of<'a>(
    whole: AskedText<'_>,
    begin: usize,
    end: usize,
    texts: &'a PartTexts,
) -> AskedText<'a>
    ensures { asked_in result ≡ asked_of (asked_in whole.entry) begin end (texts_of texts.now) }
{
    AskedText {
        text: &texts.text,
        behind: &texts.behind,
        at_left: whole.at_left && begin == 0,
        at_right: whole.at_right && end == whole.text.len(),
    }
}

// Shows a byte as the text has it. Behind the end there is none.
#[tactic(auto, using(crate::proofs::WordsFound::set_past))]
fn show_byte(seen: &mut [u8], text: &[u8], byte: usize)
    requires { length seen.old ≡ length text.now }
    ensures { seen.new ≡ slice_set seen.old byte (slice_index text.now byte) }
{
    if byte >= text.len() {
        return;
    }
    seen[byte] = text[byte];
}

// Returns the text as later parts see it. The only error is out of memory.
fn seen_after(
    alloc: Global,
    asked: AskedText<'_>,
    seen: Vec<u8>,
    end: usize,
    change: Option<PlacedChange<'_>>,
) -> Result<Vec<u8>, AllocError>
    requires { length seen.items ≡ length asked.text.now }
    ensures seen { IfOk result (λ v. v.items
        ≡ seen_after (asked_in asked.entry) seen.items end (option_map placed change.entry)) }
    ensures length { IfOk result (λ v. length v.items ≡ length asked.entry.text.now) }
{
    match change {
        Some(_) => {
            let all = with_behind(alloc, asked)?;
            let zeros = zeros(alloc, asked.text.len())?;
            let whole = joined(alloc, &all, &zeros)?;
            first_bytes(alloc, &whole, asked.text.len())
        }
        None => {
            let mut seen = seen;
            show_byte(&mut seen, asked.text, end);
            Ok(seen)
        }
    }
}

// Returns what both levels find in a text. Its parts are parted again, up to a depth, and while more parts may be
// asked. The only error is out of memory.
fn found_in<'d>(
    alloc: Global,
    levels: BothLevels<'d>,
    depth: usize,
    parts: usize,
    asked: AskedText<'_>,
) -> Result<WordFound<'d>, AllocError>
    ensures found { IfOk result (λ found. found_of found
        ≡ found_in levels.entry.dictionary.now (minima_of levels.entry) depth parts (asked_in asked.entry)) }
    ensures digits { IfOk result (λ found. length found.digits.items ≡ length asked.entry.text.now) }
    ensures changes { IfOk result (λ found. length found.changes.items ≡ length asked.entry.text.now) }
{
    let first_level = found_by_first_level(alloc, levels, parts, asked.text)?;
    if !has_break(&first_level.digits) {
        return found_by_next_level(alloc, levels, asked, first_level);
    }
    let ends = copy_of(alloc, &first_level.digits)?;
    let mut found = first_level;
    let mut begin = 0;
    let mut seen = shown_text(alloc, asked.text)?;
    for byte in 0..asked.text.len() {
        if !ends_part(&ends, byte) {
            continue;
        }
        if byte <= begin + 1 {
            begin = byte + 1;
            continue;
        }
        let change = found.changes[byte];
        let texts = part_texts(alloc, &seen, begin, byte + 1, change)?;
        let part = part_of(asked, begin, byte + 1, &texts);
        if depth > 0 && found.parts > 0 {
            let inner = found_in(alloc, levels, depth - 1, found.parts - 1, part)?;
            put_part(&mut found, begin, byte - begin - 1, inner);
        }
        seen = seen_after(alloc, asked, seen, byte + 1, change)?;
        begin = byte + 1;
    }
    Ok(found)
}

// Returns what is found in a word by both levels, before the minima of the whole word. `behind` is what is behind the
// word; `left` and `right` are the least numbers of letters in its parts. The only error is out of memory.
pub(crate) fn word_found<'d>(
    alloc: Global,
    dictionary: &'d LevelDictionary,
    left: i32,
    right: i32,
    word: &[u8],
    behind: &[u8],
) -> Result<WordFound<'d>, AllocError>
    ensures found { IfOk result (λ found. found_of found
        ≡ word_found dictionary.now (record { left = left; right = right }) word.now behind.now) }
    ensures digits { IfOk result (λ found. length found.digits.items ≡ length word.now) }
    ensures changes { IfOk result (λ found. length found.changes.items ≡ length word.now) }
{
    let levels = BothLevels {
        dictionary,
        left,
        right,
    };
    let asked = AskedText {
        text: word,
        behind,
        at_left: true,
        at_right: true,
    };
    found_in(alloc, levels, MOST_DEPTH, word.len(), asked)
}
