//! Lines that hold as much as fits, made word by word.
//!
//! Such a line goes past a word that fits whole, wherever the word may be broken. So the word is one part there, and only
//! the other words are parted.

ghost use Rattle.std.specs.Prelude.{◌≡◌, ℕ, ◌+◌, ◌-◌, ◌<◌, ◌≤◌, List, [], ◌∷◌, ◌++◌, true, false, IfOk, OnOk, length, map};
ghost use Rattle.std.specs.Prelude.{drop, sum_by};
ghost use Rattle.std.specs.List.{list_all};
ghost use Rattle.std.specs.String.{string_bytes};
ghost use Rattle.line_division.specs.Greedy.{AreFurthest};
ghost use Rattle.line_division.specs.Lines.{joined_width};
ghost use Rattle.paragraphs.specs.Private.FullLines.{AreFull, joined_columns, last_end, IsOpen, Lead, IsAdded};
ghost use Rattle.paragraphs.specs.Private.FullLines.{IsAddedWhole, EndsNarrow};
ghost use Rattle.paragraphs.specs.Private.PartSettings.{settings_of, is_short_part};
ghost use Rattle.paragraphs.specs.Private.Printable.{is_printable};
ghost use Rattle.paragraphs.specs.Settings.{Setting, stretch_of};

use crate::changes::PartChanges;
use crate::part::Part;
use crate::setting::{bare_stretch, line, lines, stretches};
use crate::style::{Indent, Style};
use line_division::{Stretch, greedy_ends};
use std::alloc::{AllocError, Global};

// Lines that hold as much as fits, and the parts of the last one, to which words are still added.
#[derive(Drop)]
pub(crate) struct FullLines<'s, 't> {
    // The most columns of a line.
    columns: u16,
    // The lines before the last one.
    lines: Vec<String>,
    // The parts of the last one. A word that fits whole is one part.
    parts: Vec<Part<'s, 't>>,
    // Their columns.
    stretches: Vec<Stretch>,
    // A word fits whole if it has fewer columns than this.
    pub(crate) room: u32,
}

// Returns no lines, and no parts.
pub(crate) fn no_lines<'s, 't>(alloc: Global, columns: u16) -> FullLines<'s, 't>
    ensures columns { result.columns ≡ columns }
    ensures lines { result.lines.items ≡ [] }
    ensures parts { result.parts.items ≡ [] }
    ensures is_open { IsOpen result }
{
    FullLines {
        columns,
        lines: Vec::new(alloc),
        parts: Vec::new(alloc),
        stretches: Vec::new(alloc),
        room: 0,
    }
}

// Returns what is left of a room after some parts.
fn room_after(room: u32, stretches: &[Stretch]) -> u32
    ensures { result ≡ room - sum_by joined_width stretches.now }
{
    let mut left = room;
    for stretch in stretches {
        left = left
            .saturating_sub(stretch.width)
            .saturating_sub(stretch.joint);
    }
    left
}

// Returns the room of a line that begins with these parts.
fn room_of(columns: u16, stretches: &[Stretch]) -> u32
    requires { 0 < length stretches.now }
    ensures { result ≡ columns + 1 - joined_columns stretches.now }
{
    let all = u32::from(columns) + 1;
    room_after(all.saturating_sub(stretches[0].opening), stretches)
}

// Returns the last of some ends, or 0.
fn last_end(ends: &[usize]) -> usize
    ensures { result ≡ last_end 0 ends.now }
{
    if ends.is_empty() {
        return 0;
    }
    ends[ends.len() - 1]
}

// Returns the ends of the lines of some parts, but for the last one.
fn inner_ends(alloc: Global, stretches: &[Stretch], columns: u16) -> Result<Vec<usize>, AllocError>
    requires { 0 < length stretches.now }
    ensures { IfOk result (λ ends. (last : ℕ) × AreFurthest stretches.now columns 0 (ends.items ++ last ∷ [])) }
{
    let mut ends = greedy_ends(alloc, stretches, columns)?;
    ends.pop();
    Ok(ends)
}

// Keeps the items from one on, and the memory.
fn keep_from<T: Drop>(items: &mut Vec<T>, start: usize) -> Result<(), AllocError>
    requires { start ≤ length items.old.items }
    ensures { OnOk result (items.new.items ≡ drop start items.old.items) }
{
    let mut rest = items.split_off(start)?;
    items.clear();
    items.append(&mut rest)?;
    Ok(())
}

// Sets the lines of the open parts, but for the last one, whose parts stay open.
fn settle(alloc: Global, full: &mut FullLines) -> Result<(), AllocError>
    requires some { 0 < length full.old.parts.items }
    requires measured { full.old.stretches.items ≡ map stretch_of (settings_of full.old.parts.items) }
    requires narrow { EndsNarrow (settings_of full.old.parts.items) }
    ensures { OnOk result (IsAdded full.old full.new []) }
{
    let ends = inner_ends(alloc, &full.stretches, full.columns)?;
    let mut made = lines(alloc, &full.parts, full.columns, &ends)?;
    full.lines.append(&mut made)?;
    let start = last_end(&ends);
    keep_from(&mut full.parts, start)?;
    keep_from(&mut full.stretches, start)?;
    full.room = room_of(full.columns, &full.stretches);
    Ok(())
}

// Adds the parts of a word, and sets the lines that are whole then. `false` where one is too long to be measured.
pub(crate) fn add_parts<'s, 't>(
    alloc: Global,
    full: &mut FullLines<'s, 't>,
    parts: &mut Vec<Part<'s, 't>>,
) -> Result<bool, AllocError>
    requires is_open { IsOpen full.old }
    requires some { 0 < length parts.old.items }
    requires narrow { EndsNarrow (settings_of parts.old.items) }
    ensures added { IfOk result (λ measured. measured ≡ true
        → IsAdded full.old full.new (settings_of parts.old.items)) }
    ensures too_long { IfOk result (λ measured. measured ≡ false → list_all is_short_part parts.old.items ≡ false) }
{
    let made = stretches(alloc, parts)?;
    let Some(mut more) = made else {
        return Ok(false);
    };
    full.room = room_after(full.room, &more);
    full.stretches.append(&mut more)?;
    full.parts.append(parts)?;
    if full.room == 0 {
        settle(alloc, full)?;
        return Ok(true);
    }
    Ok(true)
}

// Adds a word that fits whole, and is not the first one of its line.
pub(crate) fn add_whole<'s, 't>(
    full: &mut FullLines<'s, 't>,
    style: &'s Style<'t>,
    text: &'t str,
) -> Result<(), AllocError>
    requires is_open { IsOpen full.old }
    requires fits { length text.now < full.old.room }
    requires printable { list_all is_printable text.now ≡ true }
    ensures { OnOk result (IsAddedWhole full.old full.new text.now) }
{
    let part = Part {
        style,
        text,
        changes: PartChanges::none(),
        indent: Indent::Inside,
        hyphenated: false,
        plain: true,
    };
    full.stretches.push(bare_stretch(&part))?;
    full.parts.push(part)?;
    full.room -= text.len() as u32 + 1;
    Ok(())
}

// Returns all lines, of which the last one has the open parts.
pub(crate) fn close(alloc: Global, full: FullLines) -> Result<Vec<String>, AllocError>
    requires is_open { IsOpen full }
    requires some { 0 < length full.stretches.items }
    ensures { IfOk result (λ lines. (all : List Setting) → Lead all full.entry []
        → AreFull (full.entry).columns all (map string_bytes lines.items)) }
{
    let last = line(alloc, &full.parts, full.columns, 0, full.parts.len())?;
    let mut lines = full.lines;
    lines.push(last)?;
    Ok(lines)
}
