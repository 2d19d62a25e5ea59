//! The lines of a `.dic`, read: settings and patterns.

ghost use Rattle.std.specs.Prelude.{◌≡◌, ◌^◌, ◌<◌, ◌==◌, ◌++◌, map, option_map, IfOk, None};
ghost use Rattle.std.specs.List.{slice_split};
ghost use Rattle.std.specs.Str.{trim_end};
ghost use Rattle.libreoffice_files.specs.LibreOfficeLines.{split_at_byte, number_below, kind_of_word, is_ignored, word_and_rest};
ghost use Rattle.libreoffice_files.specs.LibreOfficeLines.{text_by_kind, read_line, lines_from, lines_in, set_by, with_line, settings_of};
ghost use Rattle.libreoffice_files.specs.LibreOfficeLines.{nothing_set, minimum_value, minimum_set, minimum_of, cause_of_kind, line_fault};
ghost use Rattle.libreoffice_files.specs.Private.Views.{line_view, settings_view};

use pattern_results::errors::FileCause;
use std::alloc::{AllocError, Global};

// The kind of a line.
#[derive(Clone, Copy)]
pub(crate) enum LineKind {
    // An empty line, or a comment.
    Ignored,
    // LEFTHYPHENMIN.
    Left,
    // RIGHTHYPHENMIN.
    Right,
    // NEXTLEVEL: the second level begins.
    Level,
    NoHyphen,
    // A setting that a dictionary text has no form for.
    Other,
    Pattern,
}

// A line: its number, its kind and its text. The text of a setting is after its name; the text of a pattern is the
// whole line.
#[derive(Clone, Copy)]
pub(crate) struct Line<'a> {
    pub number: usize,
    pub kind: LineKind,
    pub text: &'a str,
}

// Splits a text at the first of these characters, which is left out. None if the text has none.
pub(crate) fn split_at_byte(text: &str, mark: char) -> Option<(&str, &str)>
    requires { mark < 128 }
    ensures { option_map (λ parts. (parts.0.now, parts.1.now)) result ≡ split_at_byte mark text.now }
{
    text.split_once(mark)
}

// The number below 2^8 that a text writes in digits.
pub(crate) fn small_number(text: &str) -> Option<u8>
    ensures { result ≡ number_below 256 text.now }
{
    text.parse::<u8>().ok()
}

// The number below 2^64 that a text writes in digits.
pub(crate) fn number(text: &str) -> Option<usize>
    ensures { result ≡ number_below (2 ^ 64) text.now }
{
    text.parse::<usize>().ok()
}

// The kind of a line by its first word.
fn kind_of_word(word: &str) -> LineKind
    ensures { result ≡ kind_of_word word.now }
{
    match word {
        "LEFTHYPHENMIN" => LineKind::Left,
        "RIGHTHYPHENMIN" => LineKind::Right,
        "NOHYPHEN" => LineKind::NoHyphen,
        "NEXTLEVEL" => LineKind::Level,
        "COMPOUNDLEFTHYPHENMIN" | "COMPOUNDRIGHTHYPHENMIN" => LineKind::Other,
        _ => LineKind::Pattern,
    }
}

// Whether a line is empty or a comment.
fn is_ignored(line: &str) -> bool
    ensures { result ≡ is_ignored line.now }
{
    match line.as_bytes() {
        [] => true,
        [first, ..] => *first == b'%' || *first == b'#',
    }
}

// Splits a line at its first space, which is left out. A line without a space is one word.
fn word_and_rest(line: &str) -> (&str, &str)
    ensures { (result.0.now, result.1.now) ≡ word_and_rest line.now }
{
    match split_at_byte(line, ' ') {
        Some(parts) => parts,
        None => (line, ""),
    }
}

// Returns the text of a line: a pattern line whole, or the rest of a setting after its name.
fn text_by_kind<'a>(kind: LineKind, line: &'a str, rest: &'a str) -> &'a str
    ensures { result.now ≡ text_by_kind kind line.now rest.now }
{
    match kind {
        LineKind::Pattern => line,
        _ => rest,
    }
}

// Reads a line that has no white space at its end.
pub(crate) fn line_of(number: usize, line: &str) -> Line<'_>
    ensures { line_view result ≡ read_line number line.now }
{
    if is_ignored(line) {
        return Line {
            number,
            kind: LineKind::Ignored,
            text: "",
        };
    }
    let (word, rest) = word_and_rest(line);
    let kind = kind_of_word(word);
    let text = text_by_kind(kind, line, rest);
    Line { number, kind, text }
}

// Splits a text at its line feeds.
fn between_feeds(alloc: Global, text: &str) -> Result<Vec<&str>, AllocError>
    ensures { IfOk result (λ lines. map (λ line. line.now) lines.items ≡ slice_split (λ b. b == 10) text.now) }
{
    text.split('\n').collect(alloc)
}

// Reads lines, the first of which has that number.
fn read_lines<'a>(
    alloc: Global,
    first: usize,
    lines: &[&'a str],
) -> Result<Vec<Line<'a>>, AllocError>
    requires { first < 3 }
    ensures { IfOk result (λ read. map line_view read.items ≡ lines_from first (map (λ line. line.now) lines.now)) }
{
    let mut read = Vec::new(alloc);
    let mut number = first;
    for line in lines {
        read.push(line_of(number, line.trim_end()))?;
        number += 1;
    }
    Ok(read)
}

// Reads the lines of a text, the first of which has that number.
pub(crate) fn lines_of(alloc: Global, first: usize, text: &str) -> Result<Vec<Line<'_>>, AllocError>
    requires { first < 3 }
    ensures { IfOk result (λ read. map line_view read.items ≡ lines_in first text.now) }
{
    let lines = between_feeds(alloc, text)?;
    read_lines(alloc, first, &lines)
}

// The settings for all levels, as texts.
#[derive(Clone, Copy)]
pub(crate) struct FileSettings<'a> {
    pub left: Option<&'a str>,
    pub right: Option<&'a str>,
    // Texts with commas between them; no break is directly before or after them.
    pub no_hyphen: Option<&'a str>,
}

// Adds the setting of one more line. If a setting comes several times, the last one counts.
fn with_line<'a>(settings: FileSettings<'a>, line: Line<'a>) -> FileSettings<'a>
    ensures { settings_view result ≡ with_line (settings_view settings.entry) (line_view line.entry) }
{
    let text = Some(line.text);
    match line.kind {
        LineKind::Left => FileSettings {
            left: text,
            ..settings
        },
        LineKind::Right => FileSettings {
            right: text,
            ..settings
        },
        LineKind::NoHyphen => FileSettings {
            no_hyphen: text,
            ..settings
        },
        _ => settings,
    }
}

// The settings that lines have.
pub(crate) fn settings_of<'a>(lines: &[Line<'a>]) -> FileSettings<'a>
    ensures { settings_view result ≡ settings_of (map line_view lines.now) }
{
    let mut settings = FileSettings {
        left: None,
        right: None,
        no_hyphen: None,
    };
    for line in lines {
        settings = with_line(settings, *line);
    }
    settings
}

// The number from 0 to 255 that LEFTHYPHENMIN or RIGHTHYPHENMIN has.
fn minimum_value(text: &str) -> Option<u8>
    ensures { result ≡ minimum_value text.now }
{
    small_number(text.trim())
}

// The minimum that a setting sets; 0 sets none, as in LibreOffice.
pub(crate) fn minimum_set(text: Option<&str>) -> Option<u8>
    ensures { result ≡ minimum_set (option_map (λ text. text.now) text.entry) }
{
    match minimum_value(text?)? {
        0 => None,
        minimum => Some(minimum),
    }
}

// The minimum that is given, or else that the file sets, or else 2.
pub(crate) fn minimum_of(given: Option<u8>, set: Option<u8>) -> u8
    ensures { result ≡ minimum_of given set }
{
    given.or(set).unwrap_or(2)
}

// The fault of a line of this kind, if it has one.
fn cause_of(kind: LineKind, text: &str) -> Option<FileCause>
    ensures { result ≡ cause_of_kind kind text.now }
{
    match kind {
        LineKind::Left | LineKind::Right if minimum_value(text).is_none() => Some(
            FileCause::Minimum,
        ),
        _ => None,
    }
}

// The first faulty line, with the cause.
pub(crate) fn line_fault(lines: &[Line<'_>]) -> Option<(usize, FileCause)>
    ensures { result ≡ line_fault (map line_view lines.now) }
{
    for line in lines {
        if let Some(cause) = cause_of(line.kind, line.text) {
            return Some((line.number, cause));
        }
    }
    None
}
