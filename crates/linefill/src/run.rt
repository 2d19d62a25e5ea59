//! Whole runs, from the bytes of a dictionary and a text to the lines that are written.

ghost use Rattle.std.specs.Prelude.{◌≡◌, ◌++◌, [], List, ℕ, OnOk, OnErr, IfOk, IfErr, map};
ghost use Rattle.std.specs.Io.{StartsWith};
ghost use Rattle.std.specs.String.{string_bytes};
ghost use Rattle.hyphenation_load.specs.Load.{AppendsTo};
ghost use Rattle.hyphenation.specs.Engine.{RunReturns, RunWrites, JudgesDictionary, JudgesEdits, JudgesText};
ghost use Rattle.hyphenation.specs.Engine.{BeforeReading, BeforeWriting, HidesNoOutOfMemory, IsUnwritten};
ghost use Rattle.linefill.specs.Run.{filled_text, fill_output};
ghost use Rattle.hyphenation_writer.specs.Canonical.{with_line_feeds};

use crate::filling::fill;
use hyphenation::engine::{Kind, RunError, read_input};
use hyphenation::{Language, Load, Standard};
use std::alloc::{AllocError, Global};
use std::io::{Read, Write};

// Appends lines to a page, each with a line feed after it. After an error some of the lines may be appended.
fn push_each(page: &mut String, lines: &[String]) -> Result<(), AllocError>
    ensures appended { OnOk result (string_bytes page.new
        ≡ string_bytes page.old ++ with_line_feeds (map string_bytes lines.now)) }
    ensures begins_as_before { StartsWith (string_bytes page.new) (string_bytes page.old) }
{
    for line in lines {
        page.push_str(line)?;
        page.push('\n')?;
    }
    Ok(())
}

/// Appends lines to a page, each with a line feed after it.
///
/// The only error is that memory was refused; the page is then unchanged.
///
/// ```text
/// let lines = fill(alloc, &dictionary, "I know noble accents", 10)?;
/// push_lines(&mut page, &lines)?;                                   // "I know no-\nble ac-\ncents\n"
/// ```
pub fn push_lines(page: &mut String, lines: &[String]) -> Result<(), AllocError>
    ensures adds { OnOk result (string_bytes page.new
        ≡ string_bytes page.old ++ with_line_feeds (map string_bytes lines.now)) }
    ensures unchanged_on_error { OnErr result (string_bytes page.new ≡ string_bytes page.old) }
{
    let before = page.len();
    match push_each(page, lines) {
        Ok(()) => Ok(()),
        Err(error) => {
            page.truncate(before);
            Err(error)
        }
    }
}

// The lines of a text, each with a line feed after it.
fn filled(
    alloc: Global,
    dictionary: &Standard,
    columns: usize,
    text: &str,
) -> Result<String, AllocError>
    ensures { IfOk result (λ filled. string_bytes filled ≡ filled_text columns dictionary.now text.now) }
{
    let lines = fill(alloc, dictionary, text, columns)?;
    let mut page = String::new(alloc);
    push_lines(&mut page, &lines)?;
    Ok(page)
}

// The lines of the input, each with a line feed after it, by the dictionary of a language that a reader's bytes give.
fn filled_input<D: Read, I: Read>(
    alloc: Global,
    lang: Language,
    columns: usize,
    reader: &mut D,
    input: &mut I,
) -> Result<String, RunError>
    ensures dictionary { JudgesDictionary Kind.Standard lang (D.remaining reader.old) result }
    ensures text { JudgesText (I.remaining input.old) result }
    ensures lines { RunReturns string_bytes result (fill_output columns)
        (D.remaining reader.old) (I.remaining input.old) }
    ensures unwritten { IfErr result IsUnwritten }
    ensures unread { BeforeReading result (input.new ≡ input.old) }
    ensures no_edits { JudgesEdits Kind.Standard [] result }
    ensures not_out_of_memory { IfErr result HidesNoOutOfMemory }
{
    let dictionary = Standard::from_reader(alloc, lang, reader)?;
    let text = read_input(alloc, input)?;
    Ok(filled(alloc, &dictionary, columns, &text)?)
}

/// Loads a standard dictionary of a language, and writes the lines of the input, as [`fill`] returns them, each with a
/// line feed after it.
///
/// The steps come in this order. The dictionary is loaded. The input is read to its end, and must be UTF-8. It is
/// filled. The result is written, once all of it is made. The first step that fails gives the error. After
/// [`RunError::Output`] a beginning may be written; after any other error nothing is. There are no edits, so
/// [`RunError::Edit`] is never returned. An empty input has no lines, and nothing is written.
///
/// ```text
/// let mut dictionary = &b"hyphenation 1 standard\nlanguage en-us\nminima 2 3\ne accents 2\ne noble 2\n"[..];
/// let mut input = &b"I know noble accents"[..];
/// // "I know no-\nble ac-\ncents\n"
/// run_fill(alloc, Language::english_us(), 10, &mut dictionary, &mut input, &mut rt.stdout())?;
/// ```
pub fn run_fill<D: Read, I: Read, O: Write>(
    alloc: Global,
    lang: Language,
    columns: usize,
    dictionary: &mut D,
    input: &mut I,
    output: &mut O,
) -> Result<(), RunError>
    ensures dictionary { JudgesDictionary Kind.Standard lang (D.remaining dictionary.old) result }
    ensures text { JudgesText (I.remaining input.old) result }
    ensures written { RunWrites result O.contents output.old output.new (fill_output columns)
        (D.remaining dictionary.old) (I.remaining input.old) }
    ensures appends_some_text { OnOk result ((text : List ℕ) × AppendsTo O.contents output.old output.new text) }
    ensures untouched { BeforeWriting result (output.new ≡ output.old) }
    ensures unread { BeforeReading result (input.new ≡ input.old) }
    ensures no_edits { JudgesEdits Kind.Standard [] result }
    ensures not_out_of_memory { IfErr result HidesNoOutOfMemory }
{
    let text = filled_input(alloc, lang, columns, dictionary, input)?;
    output.write_all(text.as_bytes()).map_err(RunError::Output)
}
