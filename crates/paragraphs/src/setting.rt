//! Lines of parts.

ghost use Rattle.std.specs.Prelude.{◌≡◌, ℕ, ◌+◌, ◌*◌, ◌-◌, ◌^◌, ◌<◌, ◌≤◌, ◌++◌, List, true, false, if◌then◌else◌, IfOk};
ghost use Rattle.std.specs.Prelude.{OnOk, MatchOption, length, map};
ghost use Rattle.std.specs.List.{list_all};
ghost use Rattle.std.specs.String.{string_bytes};
ghost use Rattle.paragraphs.specs.Aims.{IsSet};
ghost use Rattle.paragraphs.specs.declared.setting.Aim.TheVariants.{Even};
ghost use Rattle.paragraphs.specs.Private.Ends.{Rise};
ghost use Rattle.paragraphs.specs.Private.PartSettings.{hyphen_if, joint_of, setting_of, settings_of, is_short_part};
ghost use Rattle.paragraphs.specs.Private.PartSettings.{IsShort, IsBare};
ghost use Rattle.paragraphs.specs.Settings.{columns_of, shown, stretch_of, shown_text, last_text, line_text, lines_to};

use crate::length::is_short;
use crate::part::Part;
use crate::soft_hyphens::{
    has_soft_hyphen, is_printable, push_without_soft_hyphens, without_soft_hyphens,
};
use crate::style::price_of;
use line_division::{Stretch, even_ends};
use std::alloc::{AllocError, Global};
use unicode_width::UnicodeWidthStr;

/// The division into lines that is wanted.
#[derive(Clone, Copy, Debug)]
pub enum Aim {
    /// Each line holds as much as fits.
    Full,
    /// The sum of the costs of all lines is least.
    ///
    /// A line costs the square of the columns that it is short of, and its price where it ends at a break of a word.
    /// The last line is short of columns only where it has fewer than `last_columns`. Before all else, at most `ladder`
    /// lines in a row end in a hyphen, where lines that fit can be had so.
    Even {
        last_columns: u16,
        ladder: Option<u8>,
    },
}

// Returns the columns of a text in a terminal, by the tables of Unicode.
fn columns_by_tables(text: &str) -> usize
    ensures value { result ≡ columns_of text.now }
    ensures bound { result ≤ 2 * length text.now }
{
    text.width()
}

// Returns the columns of a text in a terminal.
#[inline(always)]
fn columns_of(text: &str) -> u32
    requires { length text.now < 2 ^ 31 }
    ensures { result ≡ columns_of text.now }
{
    if is_printable(text) {
        return text.len() as u32;
    }
    columns_by_tables(text) as u32
}

// Returns the columns of a text without its soft hyphens.
fn columns_shown(alloc: Global, text: &str) -> Result<u32, AllocError>
    requires { length text.now < 2 ^ 31 }
    ensures { IfOk result (λ columns. columns ≡ columns_of (shown text.now)) }
{
    if is_printable(text) {
        return Ok(text.len() as u32);
    }
    if has_soft_hyphen(text) {
        let rest = without_soft_hyphens(alloc, text)?;
        return Ok(columns_of(&rest));
    }
    Ok(columns_of(text))
}

// Returns the columns of two texts as one.
fn columns_of_joined(alloc: Global, first: &str, second: &str) -> Result<u32, AllocError>
    requires { length first.now + length second.now < 2 ^ 31 }
    ensures { IfOk result (λ columns. columns ≡ columns_of (first.now ++ second.now)) }
{
    let mut both = String::from_str(alloc, first)?;
    both.push_str(second)?;
    Ok(columns_of(&both))
}

// Returns the columns of a text with another one after it.
#[inline(always)]
fn columns_of_both(alloc: Global, first: &str, second: &str) -> Result<u32, AllocError>
    requires { length first.now + length second.now < 2 ^ 31 }
    ensures { IfOk result (λ columns. columns ≡ columns_of (first.now ++ second.now)) }
{
    if first.is_empty() {
        return Ok(columns_of(second));
    }
    if second.is_empty() {
        return Ok(columns_of(first));
    }
    columns_of_joined(alloc, first, second)
}

// Returns the columns of a part's text, and those of its joint.
#[inline(always)]
#[tactic(auto, using(crate::proofs::Printable::printable_columns_shown))]
fn columns_inside(alloc: Global, part: &Part) -> Result<(u32, u32), AllocError>
    requires { IsShort part.now }
    ensures text { IfOk result (λ x. x.0 ≡ columns_of (shown (part.now).text.now)) }
    ensures joint { IfOk result (λ x. x.1 ≡ columns_of (shown (joint_of part.now))) }
{
    if part.plain {
        return Ok((part.text.len() as u32, part.joint().len() as u32));
    }
    Ok((
        columns_shown(alloc, part.text)?,
        columns_shown(alloc, part.joint())?,
    ))
}

// Returns the hyphen of a line's end, or an empty text.
#[inline(always)]
fn hyphen_if(hyphenated: bool) -> &'static str
    ensures { result.now ≡ hyphen_if hyphenated }
{
    if hyphenated { "-" } else { "" }
}

// Returns the columns of the hyphen of a line's end, if it has one.
#[inline(always)]
fn columns_of_hyphen(hyphenated: bool) -> u32
    ensures { result ≡ (if hyphenated then 1 else 0) }
{
    if hyphenated { 1 } else { 0 }
}

// Returns the columns of the text that is set after a part where a line ends with it: half of a change, and a hyphen.
#[inline(always)]
#[tactic(auto, using(crate::proofs::Printable::hyphen_columns))]
fn closing_columns(alloc: Global, before: &str, hyphenated: bool) -> Result<u32, AllocError>
    requires { length before.now + length (hyphen_if hyphenated) < 2 ^ 31 }
    ensures { IfOk result (λ columns. columns ≡ columns_of (before.now ++ hyphen_if hyphenated)) }
{
    if before.is_empty() {
        return Ok(columns_of_hyphen(hyphenated));
    }
    columns_of_joined(alloc, before, hyphen_if(hyphenated))
}

// Returns the columns of a part that is short.
fn columns_of_part(alloc: Global, part: &Part) -> Result<Stretch, AllocError>
    requires { IsShort part.now }
    ensures { IfOk result (λ stretch. stretch ≡ stretch_of (setting_of part.now)) }
{
    let (width, joint) = columns_inside(alloc, part)?;
    Ok(Stretch {
        opening: columns_of_both(alloc, part.indent_text(), part.changes.after())?,
        width,
        joint,
        closing: closing_columns(alloc, part.changes.before(), part.hyphenated)?,
        price: price_of(part.style, part.hyphenated),
        hyphenated: part.hyphenated || !part.changes.before().is_empty(),
    })
}

// Reports whether a part is of printable ASCII, without an indent and without a change, and short, as most parts are.
#[inline(always)]
fn is_bare(part: &Part) -> bool
    ensures { result ≡ true → IsBare part.now }
{
    part.plain
        && part.indent_text().is_empty()
        && part.changes.after().is_empty()
        && part.changes.before().is_empty()
        && part.text.len() < 1 << 31
        && part.joint().len() < 1 << 31
}

// Returns the columns of a part of printable ASCII, without an indent and without a change.
#[inline(always)]
#[tactic(auto, using(crate::proofs::BareParts::bare_stretch))]
pub(crate) fn bare_stretch(part: &Part) -> Stretch
    requires { IsBare part.now }
    ensures { result ≡ stretch_of (setting_of part.now) }
{
    Stretch {
        opening: 0,
        width: part.text.len() as u32,
        joint: part.joint().len() as u32,
        closing: columns_of_hyphen(part.hyphenated),
        price: price_of(part.style, part.hyphenated),
        hyphenated: part.hyphenated,
    }
}

// Returns the columns of a part by its texts, or `None` where one of them is too long.
//
// It is never inlined. Few parts need it, and the loop over all parts takes fewer instructions without it.
#[inline(never)]
#[tactic(auto, using(crate::proofs::ShortParts::short_part))]
fn stretch_of_texts(alloc: Global, part: &Part) -> Result<Option<Stretch>, AllocError>
    ensures { IfOk result (λ made. MatchOption made (is_short_part part.now ≡ false)
        (λ stretch. stretch ≡ stretch_of (setting_of part.now))) }
{
    if !is_short(part) {
        return Ok(None);
    }
    let stretch = columns_of_part(alloc, part)?;
    Ok(Some(stretch))
}

// Returns the columns of all parts, or `None` where one is too long to be measured.
pub(crate) fn stretches(alloc: Global, parts: &[Part]) -> Result<Option<Vec<Stretch>>, AllocError>
    ensures { IfOk result (λ made. MatchOption made (list_all is_short_part parts.now ≡ false)
        (λ v. v.items ≡ map stretch_of (settings_of parts.now))) }
{
    let mut all = Vec::with_capacity(alloc, parts.len())?;
    for part in parts {
        // Most parts are bare, and are measured without a copy of what is measured.
        if is_bare(part) {
            all.push(bare_stretch(part))?;
        } else {
            let made = stretch_of_texts(alloc, part)?;
            match made {
                Some(stretch) => all.push(stretch)?,
                None => return Ok(None),
            }
        }
    }
    Ok(Some(all))
}

// Returns about the number of bytes that parts have together.
fn bytes_of(parts: &[Part]) -> usize {
    let mut bytes: usize = 8;
    for part in parts {
        bytes = bytes
            .saturating_add(part.text.len())
            .saturating_add(part.joint().len());
    }
    bytes
}

// Appends a text. Where it is empty, which most are, there is no call.
#[inline(always)]
fn push_any(line: &mut String, text: &str) -> Result<(), AllocError>
    ensures { OnOk result (string_bytes line.new ≡ string_bytes line.old ++ text.now) }
{
    if !text.is_empty() {
        line.push_str(text)?;
    }
    Ok(())
}

// Returns the text before a line that begins with a part. There is memory for that many bytes.
fn opening(alloc: Global, part: &Part, bytes: usize) -> Result<String, AllocError>
    ensures { IfOk result (λ opening. string_bytes opening ≡ (setting_of part.now).opening) }
{
    let mut opening = String::with_capacity(alloc, bytes)?;
    push_any(&mut opening, part.indent_text())?;
    push_any(&mut opening, part.changes.after())?;
    Ok(opening)
}

// Appends the joint of a part. Most are a space, or empty.
#[inline(always)]
fn push_joint(line: &mut String, joint: &str) -> Result<(), AllocError>
    ensures { OnOk result (string_bytes line.new ≡ string_bytes line.old ++ joint.now) }
{
    let bytes = joint.as_bytes();
    if bytes.len() == 0 {
        return Ok(());
    }
    if bytes.len() == 1 && bytes[0] == b' ' {
        line.push(' ')?;
        return Ok(());
    }
    line.push_str(joint)?;
    Ok(())
}

// Appends a part that is not the last one of its line.
fn push_joined(line: &mut String, part: &Part) -> Result<(), AllocError>
    ensures { OnOk result (string_bytes line.new ≡ string_bytes line.old ++ shown_text (setting_of part.now)) }
{
    if part.plain {
        line.push_str(part.text)?;
        push_joint(line, part.joint())?;
        return Ok(());
    }
    push_without_soft_hyphens(line, part.text)?;
    push_without_soft_hyphens(line, part.joint())?;
    Ok(())
}

// Appends the text of a part.
#[tactic(auto, using(crate::proofs::Printable::printable_shown))]
fn push_text(line: &mut String, part: &Part) -> Result<(), AllocError>
    ensures { OnOk result (string_bytes line.new ≡ string_bytes line.old ++ shown (part.now).text.now) }
{
    if part.plain {
        line.push_str(part.text)?;
        return Ok(());
    }
    push_without_soft_hyphens(line, part.text)?;
    Ok(())
}

// Appends the last part of a line.
fn push_last(line: &mut String, part: &Part) -> Result<(), AllocError>
    ensures { OnOk result (string_bytes line.new ≡ string_bytes line.old ++ last_text (setting_of part.now)) }
{
    push_text(line, part)?;
    push_any(line, part.changes.before())?;
    push_any(line, hyphen_if(part.hyphenated))?;
    Ok(())
}

// Returns about the number of bytes of a line. Most lines are full, but for the last one.
fn line_bytes(parts: &[Part], columns: u16, start: usize, end: usize) -> usize
    requires order { start < end }
    requires within { end ≤ length parts.now }
{
    if end < parts.len() {
        return usize::from(columns) + 8;
    }
    bytes_of(&parts[start..end])
}

// Returns the line from a start to an end. Most have about that many columns.
pub(crate) fn line(
    alloc: Global,
    parts: &[Part],
    columns: u16,
    start: usize,
    end: usize,
) -> Result<String, AllocError>
    requires order { start < end }
    requires within { end ≤ length parts.now }
    ensures { IfOk result (λ line. string_bytes line ≡ line_text (settings_of parts.now) start end) }
{
    let bytes = line_bytes(parts, columns, start, end);
    let mut line = opening(alloc, &parts[start], bytes)?;
    for part in &parts[start..end - 1] {
        push_joined(&mut line, part)?;
    }
    let last = &parts[end - 1];
    push_last(&mut line, last)?;
    Ok(line)
}

// Returns the lines that end at a row of ends. Most have about that many columns.
pub(crate) fn lines(
    alloc: Global,
    parts: &[Part],
    columns: u16,
    ends: &[usize],
) -> Result<Vec<String>, AllocError>
    requires { Rise 0 (length parts.now) ends.now }
    ensures { IfOk result (λ lines.
        map string_bytes lines.items ≡ lines_to (settings_of parts.now) 0 ends.now) }
{
    let mut lines = Vec::with_capacity(alloc, ends.len())?;
    let mut start = 0;
    for end in ends {
        lines.push(line(alloc, parts, columns, start, *end)?)?;
        start = *end;
    }
    Ok(lines)
}

// Returns the lines of a paragraph that cost the least. It is made of these parts, which have these columns.
pub(crate) fn set_evenly(
    alloc: Global,
    parts: &[Part],
    stretches: &[Stretch],
    columns: u16,
    last_columns: u16,
    ladder: Option<u8>,
) -> Result<Vec<String>, AllocError>
    requires count { length parts.now < 2 ^ 30 }
    requires measured { stretches.now ≡ map stretch_of (settings_of parts.now) }
    ensures { IfOk result (λ lines.
        IsSet (Even last_columns ladder) (settings_of parts.now) columns (map string_bytes lines.items)) }
{
    let row = even_ends(alloc, stretches, columns, last_columns, ladder)?;
    let lines = lines(alloc, parts, columns, &row)?;
    Ok(lines)
}
