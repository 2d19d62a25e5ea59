//! LibreOffice's `hyph_*.dic`: a charset, settings, and patterns in one or two levels.
//!
//! The last of several lines with one key counts, and the last of several digits in one place, as in LibreOffice. The
//! two levels are joined, and all patterns that occur in a word count, as in TeX. In LibreOffice itself only the
//! longest beginning of a pattern that ends at a letter counts; [`crate::longest`] says where that differs.

ghost use Rattle.std.specs.Prelude.{◌≡◌, ◌<◌, ◌==◌, [], All, map, position, option_map, IfOk, IfErr, IfSome, OnOk, None};
ghost use Rattle.pattern_results.specs.Errors.{IsConvertError};
ghost use Rattle.pattern_results.specs.Parts.{contents_made};
ghost use Rattle.libreoffice_files.specs.LibreOfficeLines.{settings_of, minimum_set, minimum_of};
ghost use Rattle.libreoffice_files.specs.LibreOffice.{first_and_rest, trimmed, starts_with_capital, is_pattern, is_name, names_charset};
ghost use Rattle.libreoffice_files.specs.LibreOffice.{encoded_in, encoded_lines, encoded_fault, lines_of_dic, all_patterns, dic_fault};
ghost use Rattle.libreoffice_files.specs.LibreOffice.{fault_of_lines, kept_in, contents_of_patterns, contents_of_dic};
ghost use Rattle.pattern_results.specs.Errors.{IsFileError};
ghost use Rattle.libreoffice_files.specs.Notes.{notes_of_dic, notes_on, notes_on_encoded};
ghost use Rattle.libreoffice_files.specs.Private.Views.{line_view, settings_view, spelt_view, keyed_view, encoded_view, has_small_values};
ghost use Rattle.std.specs.List.{filter_map};

use crate::charset::{Charset, text_of};
use crate::dic_notes::notes_on;
use crate::dic_patterns::{Pattern, forbid_all, patterns_of, push_fitting};
use crate::lines::{
    FileSettings, Line, LineKind, line_fault, line_of, lines_of, minimum_of, minimum_set,
    settings_of,
};
use hyphenation_breaks::entry::{Listing, Payload};
use hyphenation_breaks::language::Language;
use hyphenation_dictionary::dictionary::Dictionary;
use hyphenation_grammar::lines::starts_with;
use pattern_results::converted::Converted;
use pattern_results::dictionary_parts::DictionaryParts;
use pattern_results::errors::{ConvertError, FileCause, FileError};
use pattern_results::notes::Note;
use std::alloc::{AllocError, Global};

// The place of the first line feed, in bytes.
fn find_line_feed(bytes: &[u8]) -> Option<usize>
    ensures { result ≡ position (λ b. b == 10) bytes.now }
{
    bytes.iter().position(|byte| *byte == b'\n')
}

// Splits a file into line 1 and the bytes after it.
fn first_and_rest(bytes: &[u8]) -> (&[u8], &[u8])
    ensures { (result.0.now, result.1.now) ≡ first_and_rest bytes.now }
{
    match find_line_feed(bytes) {
        Some(at) => (&bytes[..at], &bytes[at + 1..]),
        None => (bytes, &[]),
    }
}

// A line without ASCII white space at its ends.
fn trimmed(line: &[u8]) -> &[u8]
    ensures { result.now ≡ trimmed line.now }
{
    line.trim_ascii()
}

// Whether line 1 names a charset, known or not. It does if it begins with a capital letter, or as a charset of Windows
// does, and is no setting.
fn is_name(text: &str) -> bool
    ensures { result ≡ is_name text.now }
{
    if !is_pattern(line_of(1, text.trim_end()).kind) {
        return false;
    }
    starts_with_capital(text.as_bytes()) || starts_with(b"microsoft-", text.as_bytes())
}

// Whether line 1 is UTF-8 and names a charset, known or not.
fn names_charset(line: &[u8]) -> bool
    ensures { result ≡ names_charset line.now }
{
    match std::str::from_utf8(line) {
        Ok(text) => is_name(text),
        Err(_) => false,
    }
}

// Whether a text begins with a capital letter of ASCII.
fn starts_with_capital(text: &[u8]) -> bool
    ensures { result ≡ starts_with_capital text.now }
{
    match text.first() {
        Some(byte) => byte.is_ascii_uppercase(),
        None => false,
    }
}

// Whether a line is a pattern.
fn is_pattern(kind: LineKind) -> bool
    ensures { result ≡ is_pattern kind }
{
    matches!(kind, LineKind::Pattern)
}

// Bytes and the charset to read them by. The first line of them has that number in the file.
#[derive(Clone, Copy)]
struct Encoded<'a> {
    charset: Charset,
    first: usize,
    bytes: &'a [u8],
}

// The bytes of a file that have lines to read, with their charset. None if line 1 names a charset that is not known
// here.
fn encoded_in(bytes: &[u8]) -> Option<Encoded<'_>>
    ensures charset_and_bytes { option_map encoded_view result ≡ encoded_in bytes.now }
    ensures first_line { IfSome result (λ encoded. encoded.first < 3) }
{
    let (line, rest) = first_and_rest(bytes);
    match Charset::from_name(trimmed(line)) {
        Some(charset) => Some(Encoded {
            charset,
            first: 2,
            bytes: rest,
        }),
        None if names_charset(line) => None,
        None => Some(Encoded {
            charset: Charset::Latin1,
            first: 1,
            bytes,
        }),
    }
}

// A file, read: its patterns, the minima that it sets, and the notes on it.
#[derive(Drop)]
struct DicFile {
    patterns: Vec<(Vec<u8>, Pattern)>,
    left: Option<u8>,
    right: Option<u8>,
    notes: Vec<Note>,
}

// The minima that a caller gives.
#[derive(Clone, Copy)]
struct GivenMinima {
    left: Option<u8>,
    right: Option<u8>,
}

// The patterns of lines, and after them those of NOHYPHEN.
fn all_patterns(
    alloc: Global,
    lines: &[Line<'_>],
    settings: FileSettings<'_>,
) -> Result<Vec<(Vec<u8>, Pattern)>, AllocError>
    requires { settings_view settings ≡ settings_of (map line_view lines.now) }
    ensures { IfOk result (λ patterns. map keyed_view patterns.items ≡ all_patterns (map line_view lines.now)) }
{
    let mut patterns = patterns_of(alloc, lines)?;
    forbid_all(alloc, &mut patterns, settings.no_hyphen.unwrap_or(""))?;
    Ok(patterns)
}

// Reads lines. An error is their first fault, or out of memory.
#[tactic(auto, using(crate::proofs::Keeping::as_many))]
fn dic_of_lines<C: Payload>(
    alloc: Global,
    given: GivenMinima,
    first: usize,
    lines: &[Line<'_>],
) -> Result<DicFile, FileError>
    ensures no_fault { OnOk result (fault_of_lines (map line_view lines.now) ≡ None) }
    ensures patterns { IfOk result (λ dic. map keyed_view dic.patterns.items
        ≡ all_patterns (map line_view lines.now)) }
    ensures left { IfOk result (λ dic. dic.left ≡ minimum_set (settings_of (map line_view lines.now)).left) }
    ensures right { IfOk result (λ dic. dic.right ≡ minimum_set (settings_of (map line_view lines.now)).right) }
    ensures notes { IfOk result (λ dic. dic.notes.items
        ≡ notes_on C.change_of C.payload_of given.left given.right first (map line_view lines.now)) }
    ensures first_fault { IfErr result (λ error. IsFileError error (fault_of_lines (map line_view lines.now))) }
{
    if let Some((line, cause)) = line_fault(lines) {
        return Err(FileError::OnLine(line, cause));
    }
    let settings = settings_of(lines);
    let patterns = all_patterns(alloc, lines, settings)?;
    if patterns.is_empty() {
        return Err(FileError::OnLine(1, FileCause::Nothing));
    }
    Ok(DicFile {
        patterns,
        left: minimum_set(settings.left),
        right: minimum_set(settings.right),
        notes: notes_on::<C>(alloc, given.left, given.right, first, lines, settings)?,
    })
}

// Reads bytes by their charset. An error is their first fault, or out of memory.
fn dic_of_encoded<C: Payload>(
    alloc: Global,
    given: GivenMinima,
    encoded: Encoded<'_>,
) -> Result<DicFile, FileError>
    requires { encoded.first < 3 }
    ensures no_fault { OnOk result (encoded_fault (encoded_view encoded.entry) ≡ None) }
    ensures patterns { IfOk result (λ dic. map keyed_view dic.patterns.items
        ≡ all_patterns (encoded_lines (encoded_view encoded.entry))) }
    ensures left { IfOk result (λ dic. dic.left
        ≡ minimum_set (settings_of (encoded_lines (encoded_view encoded.entry))).left) }
    ensures right { IfOk result (λ dic. dic.right
        ≡ minimum_set (settings_of (encoded_lines (encoded_view encoded.entry))).right) }
    ensures notes { IfOk result (λ dic. dic.notes.items
        ≡ notes_on_encoded C.change_of C.payload_of given.left given.right (encoded_view encoded.entry)) }
    ensures first_fault { IfErr result (λ error. IsFileError error (encoded_fault (encoded_view encoded.entry))) }
{
    let text = text_of(alloc, encoded.charset, encoded.bytes, encoded.first)?;
    let lines = lines_of(alloc, encoded.first, &text)?;
    dic_of_lines::<C>(alloc, given, encoded.first, &lines)
}

// Reads a file. An error is its first fault, or out of memory.
fn dic_of_bytes<C: Payload>(
    alloc: Global,
    given: GivenMinima,
    bytes: &[u8],
) -> Result<DicFile, FileError>
    ensures no_fault { OnOk result (dic_fault bytes.now ≡ None) }
    ensures patterns { IfOk result (λ dic. map keyed_view dic.patterns.items
        ≡ all_patterns (lines_of_dic bytes.now)) }
    ensures left { IfOk result (λ dic. dic.left ≡ minimum_set (settings_of (lines_of_dic bytes.now)).left) }
    ensures right { IfOk result (λ dic. dic.right ≡ minimum_set (settings_of (lines_of_dic bytes.now)).right) }
    ensures notes { IfOk result (λ dic. dic.notes.items
        ≡ notes_of_dic C.change_of C.payload_of given.left given.right bytes.now) }
    ensures first_fault { IfErr result (λ error. IsFileError error (dic_fault bytes.now)) }
{
    let Some(encoded) = encoded_in(bytes) else {
        return Err(FileError::OnLine(1, FileCause::Charset));
    };
    dic_of_encoded::<C>(alloc, given, encoded)
}

// The dictionary of patterns, with these minima.
fn dictionary_of<C: Payload, B: Listing>(
    alloc: Global,
    language: Language,
    left: u8,
    right: u8,
    patterns: &[(Vec<u8>, Pattern)],
) -> Result<Dictionary<C, B>, AllocError>
    requires { All (λ p. has_small_values (spelt_view p.1)) patterns.now }
    ensures { IfOk result (λ d. d ≡ contents_of_patterns C.change_of C.payload_of language left right
        (map keyed_view patterns.now)) }
{
    let mut parts = DictionaryParts::new(alloc);
    push_fitting(alloc, &mut parts, patterns)?;
    Ok(parts.make(alloc, language, left, right)?)
}

// The dictionary of a file's bytes, with the notes on it. An error is the file's first fault, or out of memory.
fn dictionary_in<C: Payload, B: Listing>(
    alloc: Global,
    language: Language,
    given: GivenMinima,
    bytes: &[u8],
) -> Result<Converted<C, B>, FileError>
    ensures no_fault { OnOk result (dic_fault bytes.now ≡ None) }
    ensures contents { IfOk result (λ found. found.dictionary
        ≡ contents_of_dic C.change_of C.payload_of language given.left given.right bytes.now) }
    ensures notes { IfOk result (λ found. found.notes.items
        ≡ notes_of_dic C.change_of C.payload_of given.left given.right bytes.now) }
    ensures first_fault { IfErr result (λ error. IsFileError error (dic_fault bytes.now)) }
{
    let dic = dic_of_bytes::<C>(alloc, given, bytes)?;
    let left = minimum_of(given.left, dic.left);
    let right = minimum_of(given.right, dic.right);
    let dictionary = dictionary_of(alloc, language, left, right, &dic.patterns)?;
    let notes = dic.notes;
    Ok(Converted { dictionary, notes })
}

/// Makes a dictionary of a `.dic`. A least number of letters before or after a break that is not given is the file's,
/// or else 2, as in LibreOffice.
///
/// Each pattern of both levels gives a key with its values. If a key comes several times, the last one counts, and of
/// several digits in one place the last one. A text that NOHYPHEN names has the value 8 at both ends. An extended
/// dictionary has the changes of the file's patterns. A standard one has no room for them: its pattern forbids the
/// break that it would change.
///
/// The notes say what was left out or decided: of each line by itself first, then of the patterns beside one another, of the
/// levels, of the minima, and of changes that a standard dictionary has no room for.
///
/// An error is the first fault: its line and the cause. Out of memory says nothing of the file.
pub fn convert_dic<C: Payload, B: Listing>(
    alloc: Global,
    language: Language,
    left: Option<u8>,
    right: Option<u8>,
    bytes: &[u8],
) -> Result<Converted<C, B>, ConvertError>
    ensures no_fault { OnOk result (dic_fault bytes.now ≡ None) }
    ensures contents { IfOk result (λ found. found.dictionary
        ≡ contents_of_dic C.change_of C.payload_of language left right bytes.now) }
    ensures notes { IfOk result (λ found. found.notes.items ≡ notes_of_dic C.change_of C.payload_of left right bytes.now) }
    ensures first_fault { IfErr result (λ error.
        IsConvertError error (option_map (λ fault. (0, fault)) (dic_fault bytes.now))) }
{
    match dictionary_in(alloc, language, GivenMinima { left, right }, bytes) {
        Ok(converted) => Ok(converted),
        Err(FileError::Memory) => Err(ConvertError::Memory),
        Err(FileError::OnLine(line, cause)) => Err(ConvertError::Fault {
            file: 0,
            line,
            cause,
        }),
    }
}
