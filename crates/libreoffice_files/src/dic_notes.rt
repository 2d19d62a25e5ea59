//! Remarks on the lines and the patterns of a `.dic`.

ghost use Rattle.std.specs.Prelude.{◌≡◌, ◌++◌, [], IfOk, OnOk, false, fold, is_some, map, option_map};
ghost use Rattle.std.specs.List.{flat_map, list_any};
ghost use Rattle.std.specs.Option.{option_to_list};
ghost use Rattle.hyphenation_trie.specs.Trie.{entries_of_key};
ghost use Rattle.libreoffice_files.specs.LibreOffice.{is_pattern};
ghost use Rattle.libreoffice_files.specs.LibreOfficeLines.{settings_of};
ghost use Rattle.libreoffice_files.specs.LibreOfficePatterns.{change_of, split_at_slash};
ghost use Rattle.libreoffice_files.specs.Notes.{all_hiding_remarks, all_kept_remarks, change_remarks, change_remarks_of, has_two_values};
ghost use Rattle.libreoffice_files.specs.Notes.{is_level, is_lost, keys_of, kept_remarks, level_remarks};
ghost use Rattle.libreoffice_files.specs.Notes.{line_remarks, loss_remarks, minima_remarks, no_keys, notes_on, pattern_on};
ghost use Rattle.libreoffice_files.specs.Notes.{pattern_remarks, patterns_on, plain_entries, remark_if, remarks_beside, with_pattern};
ghost use Rattle.libreoffice_files.specs.Private.Views.{AddsRemarks, as_on_line, line_view, on_line, settings_view};
ghost use Rattle.pattern_results.specs.Notes.{with_remark};

use crate::change::{PlacedChange, change_of};
use crate::dic_patterns::{
    Pattern, begins_with_digit, copy_subregion, is_digit, pattern_of_line, spelling_of,
    split_at_slash,
};
use crate::lines::{FileSettings, Line, LineKind, minimum_set};
use crate::longest::hides_value;
use crate::value::Value;
use hyphenation_breaks::entry::{Entry, Payload, has_letter};
use hyphenation_trie::{Automaton, Trie, to_u32};
use pattern_results::notes::{LineRef, Note, NoteKind, add_note};
use std::alloc::{AllocError, Global};

// A pattern that is kept, with its key and the number of its line.
#[derive(Drop)]
struct LinePattern {
    key: Vec<u8>,
    pattern: Pattern,
    line: usize,
}

// Makes a remark on a line, if there is cause for it.
fn note_if(
    notes: &mut Vec<Note>,
    is_made: bool,
    kind: NoteKind,
    line: usize,
) -> Result<(), AllocError>
    ensures { OnOk result (notes.new.items ≡ fold with_remark notes.old.items (remark_if is_made kind line)) }
{
    if is_made {
        add_note(notes, kind, LineRef { file: 0, line })?;
    }
    Ok(())
}

// Whether two digits are in succession.
fn has_two_values(body: &[u8]) -> bool
    ensures { result ≡ has_two_values body.now }
{
    let mut rest = body;
    while let Some((byte, after)) = rest.split_first() {
        if is_digit(*byte) && begins_with_digit(after) {
            return true;
        }
        rest = after;
    }
    false
}

// Makes the remark on a change.
fn note_change(
    alloc: Global,
    notes: &mut Vec<Note>,
    text: &str,
    key: &[u8],
    values: &[Value],
    line: usize,
) -> Result<(), AllocError>
    ensures { OnOk result (notes.new.items
        ≡ fold with_remark notes.old.items (change_remarks line (change_of key.now values.now text.now))) }
{
    match change_of(alloc, text, key, values)? {
        Ok((_, are_several)) => note_if(notes, are_several, NoteKind::ChangeOfSeveral, line),
        Err(kind) => note_if(notes, true, kind, line),
    }
}

// Makes the remark on a change, if there is one.
fn note_change_if(
    alloc: Global,
    notes: &mut Vec<Note>,
    change: Option<&str>,
    key: &[u8],
    values: &[Value],
    line: usize,
) -> Result<(), AllocError>
    ensures { OnOk result (AddsRemarks notes.old.items notes.new.items
        (change_remarks_of line key.now values.now (option_map (λ text. text.now) change.entry))) }
{
    match change {
        Some(text) => note_change(alloc, notes, text, key, values, line),
        None => Ok(()),
    }
}

// Makes the remarks on a pattern by itself.
fn note_pattern(
    alloc: Global,
    notes: &mut Vec<Note>,
    text: &str,
    line: usize,
) -> Result<(), AllocError>
    ensures { OnOk result (notes.new.items
        ≡ fold with_remark notes.old.items (pattern_remarks line (split_at_slash text.now))) }
{
    let (body, change) = split_at_slash(text);
    let has_two = has_two_values(body.as_bytes());
    note_if(notes, has_two, NoteKind::TwoValues, line)?;
    let (key, values) = spelling_of(alloc, body.as_bytes())?;
    if !has_letter(&key) {
        return note_if(notes, true, NoteKind::NoLetters, line);
    }
    note_change_if(alloc, notes, change, &key, &values, line)
}

// Makes the remarks on a line by itself.
fn note_line(alloc: Global, notes: &mut Vec<Note>, line: Line<'_>) -> Result<(), AllocError>
    ensures { OnOk result (notes.new.items ≡ fold with_remark notes.old.items (line_remarks (line_view line.entry))) }
{
    let number = line.number;
    match line.kind {
        LineKind::Pattern => note_pattern(alloc, notes, line.text, number),
        LineKind::NoHyphen => note_if(notes, true, NoteKind::NoHyphen, number),
        LineKind::Other => note_if(notes, true, NoteKind::Setting, number),
        _ => Ok(()),
    }
}

// Makes the remarks on lines, each by itself.
#[tactic(auto, using(crate::proofs::Noting::noted_on))]
fn note_lines(alloc: Global, notes: &mut Vec<Note>, lines: &[Line<'_>]) -> Result<(), AllocError>
    ensures { OnOk result (notes.new.items
        ≡ fold with_remark notes.old.items (flat_map line_remarks (map line_view lines.now))) }
{
    for line in lines {
        note_line(alloc, notes, *line)?;
    }
    Ok(())
}

// Appends a pattern with its line, if there is one.
fn push_found(
    patterns: &mut Vec<LinePattern>,
    found: Option<(Vec<u8>, Pattern)>,
    line: usize,
) -> Result<(), AllocError>
    ensures { OnOk result (map as_on_line patterns.new.items
        ≡ map as_on_line patterns.old.items ++ option_to_list (option_map (on_line line) found)) }
{
    if let Some((key, pattern)) = found {
        patterns.push(LinePattern { key, pattern, line })?;
    }
    Ok(())
}

// Returns the patterns of lines that are kept, with their lines.
#[tactic(auto, using(crate::proofs::Keeping::kept_on))]
fn patterns_on(alloc: Global, lines: &[Line<'_>]) -> Result<Vec<LinePattern>, AllocError>
    ensures { IfOk result (λ patterns. map as_on_line patterns.items ≡ patterns_on (map line_view lines.now)) }
{
    let mut patterns = Vec::new(alloc);
    for line in lines {
        let found = pattern_of_line(alloc, *line)?;
        push_found(&mut patterns, found, line.number)?;
    }
    Ok(patterns)
}

// Returns values as entries without changes.
fn plain_entries(alloc: Global, values: &[Value]) -> Result<Vec<Entry<()>>, AllocError>
    ensures { IfOk result (λ entries. entries.items ≡ plain_entries values.now) }
{
    let mut entries = Vec::new(alloc);
    for value in values {
        entries.push(Entry {
            place: to_u32(value.place)?,
            value: value.value,
            change: (),
        })?;
    }
    Ok(entries)
}

// Adds the key of a pattern to those before, and makes the remarks on it beside them.
fn note_kept(
    alloc: Global,
    notes: &mut Vec<Note>,
    keys: &mut Trie<Entry<()>>,
    one: &LinePattern,
) -> Result<(), AllocError>
    ensures noted { OnOk result (notes.new.items
        ≡ fold with_remark notes.old.items (kept_remarks (entries_of_key keys.old) (as_on_line one.now))) }
    ensures added { OnOk result (entries_of_key keys.new ≡ with_pattern (entries_of_key keys.old) (as_on_line one.now)) }
{
    let values = &one.pattern.values;
    note_if(notes, values.is_empty(), NoteKind::NoValue, one.line)?;
    let mut entries = plain_entries(alloc, values)?;
    let is_repeated = keys.insert(&one.key, &mut entries)?;
    note_if(notes, is_repeated, NoteKind::Repeated, one.line)
}

// Returns the keys of patterns, and makes the remarks on each beside those before.
#[tactic(auto, using(crate::proofs::Noting::noted_on))]
fn keys_noted(
    alloc: Global,
    notes: &mut Vec<Note>,
    patterns: &[LinePattern],
) -> Result<Trie<Entry<()>>, AllocError>
    ensures noted { OnOk result (notes.new.items
        ≡ fold with_remark notes.old.items (all_kept_remarks no_keys (map as_on_line patterns.now))) }
    ensures keys { IfOk result (λ keys. entries_of_key keys ≡ keys_of (map as_on_line patterns.now)) }
{
    let mut keys = Trie::new(alloc)?;
    for one in patterns {
        note_kept(alloc, notes, &mut keys, one)?;
    }
    Ok(keys)
}

// Makes the remark on each pattern that hides a value of a shorter one.
#[tactic(auto, using(crate::proofs::Noting::noted_on))]
fn note_hiding(
    notes: &mut Vec<Note>,
    automaton: &Automaton<Entry<()>>,
    patterns: &[LinePattern],
) -> Result<(), AllocError>
    requires { entries_of_key automaton.now ≡ keys_of (map as_on_line patterns.now) }
    ensures { OnOk result (AddsRemarks notes.old.items notes.new.items
        (all_hiding_remarks (map as_on_line patterns.now))) }
{
    for one in patterns {
        let hides = hides_value(automaton, &one.key);
        note_if(notes, hides, NoteKind::HidesValue, one.line)?;
    }
    Ok(())
}

// Whether a line ends a level.
fn is_level(kind: LineKind) -> bool
    ensures { result ≡ is_level kind }
{
    matches!(kind, LineKind::Level)
}

// Whether a line is a pattern.
fn is_pattern(kind: LineKind) -> bool
    ensures { result ≡ is_pattern kind }
{
    matches!(kind, LineKind::Pattern)
}

// Whether some line is a pattern.
fn has_pattern(lines: &[Line<'_>]) -> bool
    ensures { result ≡ list_any (λ one. is_pattern one.kind) (map line_view lines.now) }
{
    for line in lines {
        if is_pattern(line.kind) {
            return true;
        }
    }
    false
}

// Makes the remark on the levels.
fn note_levels(notes: &mut Vec<Note>, lines: &[Line<'_>]) -> Result<(), AllocError>
    ensures { OnOk result (notes.new.items
        ≡ fold with_remark notes.old.items (level_remarks false (map line_view lines.now))) }
{
    let mut before = false;
    for at in 0..lines.len() {
        let line = lines[at];
        if is_level(line.kind) {
            let is_joined = before && has_pattern(&lines[at + 1..]);
            return note_if(notes, is_joined, NoteKind::TwoLevels, line.number);
        }
        before = before || is_pattern(line.kind);
    }
    note_if(notes, true, NoteKind::NoLevels, 1)
}

// Makes the remark that a minimum is neither given nor set.
fn note_minima(
    notes: &mut Vec<Note>,
    left: Option<u8>,
    right: Option<u8>,
    settings: FileSettings<'_>,
) -> Result<(), AllocError>
    ensures { OnOk result (notes.new.items
        ≡ fold with_remark notes.old.items (minima_remarks left right (settings_view settings.entry))) }
{
    let has_left = left.or(minimum_set(settings.left)).is_some();
    let has_right = right.or(minimum_set(settings.right)).is_some();
    note_if(notes, !(has_left && has_right), NoteKind::NoMinima, 1)
}

// Whether a kind of dictionary has no room for a change.
fn is_lost<C: Payload>(change: &Option<PlacedChange>) -> Result<bool, AllocError>
    ensures { IfOk result (λ lost. lost ≡ is_lost C.change_of C.payload_of change.now) }
{
    match change {
        None => Ok(false),
        Some(placed) => {
            let payload = C::from_change(Some(copy_subregion(&placed.change)?));
            Ok(payload.as_change().is_none())
        }
    }
}

// Makes the remark on each pattern whose change a kind of dictionary has no room for.
#[tactic(auto, using(crate::proofs::Noting::noted_on))]
fn note_losses<C: Payload>(
    notes: &mut Vec<Note>,
    patterns: &[LinePattern],
) -> Result<(), AllocError>
    ensures { OnOk result (notes.new.items ≡ fold with_remark notes.old.items
        (flat_map (loss_remarks C.change_of C.payload_of) (map as_on_line patterns.now))) }
{
    for one in patterns {
        let is_lost = is_lost::<C>(&one.pattern.change)?;
        note_if(notes, is_lost, NoteKind::ChangeForbidden, one.line)?;
    }
    Ok(())
}

// Makes the remarks on patterns beside others, and on the lines that have them.
#[tactic(auto, using(crate::proofs::Noting::noted_on))]
fn note_among<C: Payload>(
    alloc: Global,
    notes: &mut Vec<Note>,
    left: Option<u8>,
    right: Option<u8>,
    lines: &[Line<'_>],
    settings: FileSettings<'_>,
) -> Result<(), AllocError>
    requires { settings_view settings ≡ settings_of (map line_view lines.now) }
    ensures { OnOk result (AddsRemarks notes.old.items notes.new.items
        (remarks_beside C.change_of C.payload_of left right (map line_view lines.now))) }
{
    let patterns = patterns_on(alloc, lines)?;
    let automaton = keys_noted(alloc, notes, &patterns)?.freeze(alloc)?;
    note_hiding(notes, &automaton, &patterns)?;
    note_levels(notes, lines)?;
    note_minima(notes, left, right, settings)?;
    note_losses::<C>(notes, &patterns)
}

// Returns the notes on lines, of which the first one has that number in the file, for a kind of dictionary and the minima that
// are given.
#[tactic(auto, using(crate::proofs::Noting::noted_on))]
pub(crate) fn notes_on<C: Payload>(
    alloc: Global,
    left: Option<u8>,
    right: Option<u8>,
    first: usize,
    lines: &[Line<'_>],
    settings: FileSettings<'_>,
) -> Result<Vec<Note>, AllocError>
    requires { settings_view settings ≡ settings_of (map line_view lines.now) }
    ensures { IfOk result (λ notes. notes.items
        ≡ notes_on C.change_of C.payload_of left right first (map line_view lines.now)) }
{
    let mut notes = Vec::new(alloc);
    note_if(&mut notes, first == 1, NoteKind::NoCharset, 1)?;
    note_lines(alloc, &mut notes, lines)?;
    note_among::<C>(alloc, &mut notes, left, right, lines, settings)?;
    Ok(notes)
}
