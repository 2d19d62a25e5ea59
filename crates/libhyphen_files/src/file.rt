//! A whole `.dic`: the rules that its bytes give.

ghost use Rattle.std.specs.Prelude.{◌≡◌, ◌≤◌, false, length, map, IfOk, IsTrue};
ghost use Rattle.std.specs.List.{position_or_len, list_any, before_first, after_first};
ghost use Rattle.libhyphen_files.specs.Files.{rules_of, rules_of_lines, charset_of, is_utf8_name, is_next_level};
ghost use Rattle.libhyphen_files.specs.Files.{level_of, default_first_level, default_minima, first_set, dash_lines, dashes};
ghost use Rattle.libhyphen_files.specs.Private.Growing.{IsGrowing, level_in};
ghost use Rattle.libhyphen_files.specs.Ordinary.{may_begin_with, AreOrdinary, IsOrdinary, IsOrdinaryIn};

use crate::level::{FrozenLevel, GrowingLevel};
use crate::lines::lines_of;
use crate::minima::Minima;
use crate::settings::texts_without_breaks;
use std::alloc::{AllocError, Global};
use std::marker::Model;

/// A `.dic` as libhyphen reads it, ready to break words: its charset and its two levels.
///
/// No charset is converted. Words and keys are bytes in this charset.
#[derive(Drop)]
pub struct LevelDictionary {
    charset: Vec<u8>,
    utf8: bool,
    first_level: FrozenLevel,
    next_level: FrozenLevel,
    // For each byte whether it is one of most words.
    ordinary: [bool; 256],
}

impl Model for LevelDictionary {
    ghost use Rattle.libhyphen_files.specs.Files.{Rules};
    ghost use Rattle.libhyphen_files.specs.Ordinary.{AreOrdinary};
    ghost use Rattle.libhyphen_files.specs.Private.Codes.{rules_code};

    ghost Value = { Rules };

    ghost coded = { rules_code };

    ghost view = { λ d. record { charset = d.charset.items; utf8 = d.utf8; first_level = d.first_level; next_level = d.next_level } };

    ghost invariant = { λ d. AreOrdinary d.first_level.no_hyphen d.ordinary };
}

impl LevelDictionary {
    /// Returns the charset that the first line names. It has at most 19 bytes, and no byte 0.
    pub fn charset(&self) -> &[u8]
        ensures { result.now ≡ self.now.charset }
    {
        &self.charset
    }

    /// Reports whether the charset is UTF-8.
    #[inline(always)]
    pub fn is_utf8(&self) -> bool
        ensures { result ≡ self.now.utf8 }
    {
        self.utf8
    }

    /// Returns the level that parts compounds. It is asked first.
    #[inline(always)]
    pub fn first_level(&self) -> &FrozenLevel
        ensures { result.now ≡ self.now.first_level }
    {
        &self.first_level
    }

    /// Returns the level that breaks a word, or a part, in which the first level finds no break.
    #[inline(always)]
    pub fn next_level(&self) -> &FrozenLevel
        ensures { result.now ≡ self.now.next_level }
    {
        &self.next_level
    }

    /// Reports whether a byte is one of most words. It is no byte 0, no digit, and begins no text without breaks of the
    /// first level.
    #[inline(always)]
    pub fn is_ordinary(&self, byte: u8) -> bool
        ensures { IsTrue result → IsOrdinary self.now byte }
    {
        self.ordinary[byte as usize]
    }
}

/// Reads a `.dic`. Any bytes are one, also none, as they are for libhyphen. The only error is out of memory.
///
/// If no line begins with `NEXTLEVEL`, the file is the next level. The first level then parts compounds at
/// hyphens and apostrophes, and takes its minima from the file.
///
/// ```text
/// let dictionary = load(alloc, b"UTF-8\nr5kin\n")?;
/// dictionary.is_utf8()    // true
/// ```
pub fn load(alloc: Global, bytes: &[u8]) -> Result<LevelDictionary, AllocError>
    ensures { IfOk result (λ dictionary. dictionary ≡ rules_of bytes.now) }
{
    let lines = lines_of(alloc, bytes)?;
    match lines.as_slice() {
        [] => dictionary_of_lines(alloc, &[], &[]),
        [first, rest @ ..] => dictionary_of_lines(alloc, charset_of(first), rest),
    }
}

// Returns the rules of a charset and the lines after the first one. The lines before NEXTLEVEL are the first level, and
// those after it, up to another one, are the next level. The only error is out of memory.
fn dictionary_of_lines(
    alloc: Global,
    charset: &[u8],
    lines: &[&[u8]],
) -> Result<LevelDictionary, AllocError>
    ensures { IfOk result (λ dictionary. dictionary
        ≡ rules_of_lines charset.now (is_utf8_name charset.now) (map (λ l. l.now) lines.now)) }
{
    let utf8 = is_utf8_name(charset);
    if !has_next_level(lines) {
        let next_level = level_of(alloc, utf8, lines)?;
        let first_level = default_first_level(alloc, utf8, &next_level)?;
        return dictionary_of_levels(alloc, charset, utf8, first_level, next_level);
    }
    let first_level = level_of(alloc, utf8, before_next_level(lines))?;
    let next_level = level_of(alloc, utf8, before_next_level(after_next_level(lines)))?;
    dictionary_of_levels(alloc, charset, utf8, first_level, next_level)
}

// Makes the levels ready for words. The only error is out of memory.
fn dictionary_of_levels(
    alloc: Global,
    charset: &[u8],
    utf8: bool,
    first: GrowingLevel,
    next: GrowingLevel,
) -> Result<LevelDictionary, AllocError>
    requires first { IsGrowing first }
    requires next { IsGrowing next }
    ensures { IfOk result (λ dictionary. dictionary
        ≡ record { charset = charset.now; utf8 = utf8; first_level = level_in first; next_level = level_in next }) }
{
    let first_level = first.freeze(alloc)?;
    let ordinary = ordinary_bytes(first_level.no_hyphen());
    Ok(LevelDictionary {
        charset: charset.to_vec(alloc)?,
        utf8,
        first_level,
        next_level: next.freeze(alloc)?,
        ordinary,
    })
}

// Reports whether a text begins with a byte. One without bytes is everywhere, so it counts as one that does.
fn may_begin_with(text: &[u8], byte: u8) -> bool
    ensures { result ≡ may_begin_with byte text.now }
{
    match text {
        [] => true,
        [first, ..] => *first == byte,
    }
}

// Reports whether none of some texts begins with a byte.
fn begins_none(texts: &[Vec<u8>], byte: u8) -> bool
    ensures { IsTrue result → list_any (may_begin_with byte) (map (λ text. text.items) texts.now) ≡ false }
{
    for text in texts {
        if may_begin_with(text, byte) {
            return false;
        }
    }
    true
}

// Reports whether a byte is one of most words, by the texts without breaks.
fn is_ordinary(no_hyphen: &[Vec<u8>], byte: u8) -> bool
    ensures { IsTrue result → IsOrdinaryIn (map (λ text. text.items) no_hyphen.now) byte }
{
    if byte == 0 || byte.is_ascii_digit() {
        return false;
    }
    begins_none(no_hyphen, byte)
}

// Marks the bytes of most words, by the texts without breaks.
fn ordinary_bytes(no_hyphen: &[Vec<u8>]) -> [bool; 256]
    ensures { AreOrdinary (map (λ text. text.items) no_hyphen.now) result }
{
    let mut marks = [false; 256];
    for byte in 0..marks.len() {
        marks[byte] = is_ordinary(no_hyphen, byte as u8);
    }
    marks
}

// Returns the charset that a first line names: what is before a byte 0, a line feed or a carriage return.
fn charset_of(line: &[u8]) -> &[u8]
    ensures { result.now ≡ charset_of line.now }
{
    for (i, byte) in line.iter().enumerate() {
        if *byte == 0 || *byte == b'\n' || *byte == b'\r' {
            return &line[..i];
        }
    }
    line
}

// Reports whether a charset is UTF-8.
fn is_utf8_name(charset: &[u8]) -> bool
    ensures { result ≡ is_utf8_name charset.now }
{
    charset == b"UTF-8".as_slice()
}

// Reports whether a line parts two levels.
fn has_next_level(lines: &[&[u8]]) -> bool
    ensures { result ≡ list_any is_next_level (map (λ l. l.now) lines.now) }
{
    next_level_at(lines) < lines.len()
}

// Returns the lines before the first one that parts two levels.
fn before_next_level<'l, 'b>(lines: &'l [&'b [u8]]) -> &'l [&'b [u8]]
    ensures { map (λ l. l.now) result.now ≡ before_first is_next_level (map (λ l. l.now) lines.now) }
{
    &lines[..next_level_at(lines)]
}

// Returns the lines after the first one that parts two levels.
fn after_next_level<'l, 'b>(lines: &'l [&'b [u8]]) -> &'l [&'b [u8]]
    ensures { map (λ l. l.now) result.now ≡ after_first is_next_level (map (λ l. l.now) lines.now) }
{
    let end = next_level_at(lines);
    if end < lines.len() {
        &lines[end + 1..]
    } else {
        &[]
    }
}

// Returns the number of lines before the first one that parts two levels.
fn next_level_at(lines: &[&[u8]]) -> usize
    ensures number { result ≡ position_or_len is_next_level (map (λ l. l.now) lines.now) }
    ensures within { result ≤ length lines.now }
{
    for (i, line) in lines.iter().enumerate() {
        if is_next_level(line) {
            return i;
        }
    }
    lines.len()
}

// Reports whether a line parts two levels.
#[inline(always)]
fn is_next_level(line: &[u8]) -> bool
    ensures { result ≡ is_next_level line.now }
{
    match line {
        [b'N', ..] => line.starts_with(b"NEXTLEVEL"),
        _ => false,
    }
}

// The most nodes for which a level takes room in advance.
const MOST_ROOM: usize = 100_000;

// Returns the level of some lines. The only error is out of memory.
fn level_of(alloc: Global, utf8: bool, lines: &[&[u8]]) -> Result<GrowingLevel, AllocError>
    ensures level { IfOk result (λ level. level_in level ≡ level_of utf8 (map (λ l. l.now) lines.now)) }
    ensures growing { IfOk result (λ level. IsGrowing level) }
{
    let mut level = GrowingLevel::with_room(alloc, lines.len().min(MOST_ROOM))?;
    for line in lines {
        level.add_line(alloc, utf8, line)?;
    }
    Ok(level)
}

// Returns the first level where the file has one level. It parts compounds at hyphens and apostrophes, and its
// minima are those of the file. The only error is out of memory.
fn default_first_level(
    alloc: Global,
    utf8: bool,
    next_level: &GrowingLevel,
) -> Result<GrowingLevel, AllocError>
    ensures level { IfOk result (λ first_level. level_in first_level ≡ default_first_level utf8 (level_in next_level.now)) }
    ensures growing { IfOk result (λ first_level. IsGrowing first_level) }
{
    let mut first_level = dash_level(alloc, utf8)?;
    first_level.minima = default_minima(&next_level.minima);
    first_level.no_hyphen = dashes(alloc, utf8)?;
    Ok(first_level)
}

// Returns the level with the patterns that break at hyphens and apostrophes. The only error is out of memory.
fn dash_level(alloc: Global, utf8: bool) -> Result<GrowingLevel, AllocError>
    ensures level { IfOk result (λ level. level_in level ≡ level_of utf8 (dash_lines utf8)) }
    ensures growing { IfOk result (λ level. IsGrowing level) }
{
    let lines: [&[u8]; 4] = [b"1'1", b"1-1", b"1\xE2\x80\x931", b"1\xE2\x80\x991"];
    if utf8 {
        level_of(alloc, utf8, &lines)
    } else {
        level_of(alloc, utf8, &lines[..2])
    }
}

// Returns these hyphens and apostrophes. The only error is out of memory.
fn dashes(alloc: Global, utf8: bool) -> Result<Vec<Vec<u8>>, AllocError>
    ensures { IfOk result (λ texts. map (λ t. t.items) texts.items ≡ dashes utf8) }
{
    if utf8 {
        texts_without_breaks(alloc, b"',\xE2\x80\x93,\xE2\x80\x99,-\n")
    } else {
        texts_without_breaks(alloc, b"',-\n")
    }
}

// Returns the minima of the first level, by those of the file. Within a part of a compound, where the file sets
// none, those of the word count, or else 3.
fn default_minima(next_level: &Minima) -> Minima
    ensures { result ≡ default_minima next_level.now }
{
    Minima {
        left: next_level.left,
        right: next_level.right,
        compound_left: first_set(next_level.compound_left, next_level.left, 3),
        compound_right: first_set(next_level.compound_right, next_level.right, 3),
    }
}

// Returns the first of three numbers that is not 0, the third in any case.
fn first_set(first: i8, second: i8, third: i8) -> i8
    ensures { result ≡ first_set first second third }
{
    if first != 0 {
        first
    } else if second != 0 {
        second
    } else {
        third
    }
}
