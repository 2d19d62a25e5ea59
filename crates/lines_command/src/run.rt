//! A run of the program: from a dictionary and the texts of inputs to the lines that are written.

ghost use Rattle.std.specs.Prelude.{◌≡◌, ◌⊎◌, ◌++◌, false, IfErr, IfOk, OnOk, map};
ghost use Rattle.std.specs.List.{flat_map, list_any};
ghost use Rattle.std.specs.String.{string_bytes};
ghost use Rattle.any_dictionary.specs.Dictionaries.{breaks_by, kind_by};
ghost use Rattle.command_line.specs.Inputs.{is_standard_input};
ghost use Rattle.hyphenation_breaks.specs.Borrowed.{texts_now};
ghost use Rattle.lines_command.specs.Arguments.{aim_for, style_for};
ghost use Rattle.lines_command.specs.Private.Requests.{parsed_options, parsed_request};
ghost use Rattle.lines_command.specs.Private.Runs.{AddsTo, AreLinesBy, BeforeReading, HasAllPages, IsLongParagraph};
ghost use Rattle.lines_command.specs.Private.Runs.{IsTooLongBy, WritesRequest};
ghost use Rattle.lines_command.specs.Written.{AreLines, HasLongParagraph, PlainIfStandard};
ghost use Rattle.lines_command.specs.Written.{HasPages, IsFailureOfText, IsFailureAmong, IsFailureFor, WritesResult};
ghost use Rattle.paragraphs.specs.Paragraphs.{ended};

use crate::request::{Options, Request};
use any_dictionary::AnyDictionary;
use command_line::adjustments::load_adjusted;
use command_line::inputs::{read_text, shown_name};
use command_line::{Failure, InputRefusal, NamedFiles};
use hyphenation_hyphenator::hyphenator::Hyphenator;
use paragraphs::{FillError, fill_text};
use std::alloc::{AllocError, Global};
use std::io::{Read, Write};
use written_texts::fill_written;

// Returns the lines of a text.
fn filled<'h, H: Hyphenator<'h>>(
    alloc: Global,
    dictionary: &'h H,
    options: &Options<'_>,
    text: &str,
) -> Result<Vec<String>, FillError>
    ensures lines { IfOk result (λ lines. AreLinesBy options.now (H.breaks_of dictionary.now) text.now lines.items) }
    ensures too_long { IfErr result (λ e. e ≡ FillError.TooLong →
        IsTooLongBy options.now (H.breaks_of dictionary.now) text.now) }
{
    let style = options.style();
    let columns = options.columns;
    let aim = options.aim();
    if options.plain {
        fill_text(alloc, dictionary, &style, text, columns, aim)
    } else {
        fill_written(alloc, dictionary, &style, text, columns, aim)
    }
}

// Returns the lines of a text, by a dictionary of either kind.
fn lines_of(
    alloc: Global,
    dictionary: &AnyDictionary,
    options: &Options<'_>,
    text: &str,
) -> Result<Vec<String>, FillError>
    ensures lines { IfOk result (λ lines. AreLinesBy options.now (breaks_by dictionary.now) text.now lines.items) }
    ensures too_long { IfErr result (λ e. e ≡ FillError.TooLong →
        IsTooLongBy options.now (breaks_by dictionary.now) text.now) }
{
    match dictionary {
        AnyDictionary::Standard(standard) => filled(alloc, standard, options, text),
        AnyDictionary::Extended(extended) => filled(alloc, extended, options, text),
    }
}

// Returns the number of bytes of lines, each with a line feed after it.
fn bytes_of(lines: &[String]) -> usize {
    let mut bytes: usize = 0;
    for line in lines {
        bytes = bytes.saturating_add(line.len()).saturating_add(1);
    }
    bytes
}

// Appends a line to a page, with a line feed after it.
fn push_line(line: &str, page: &mut String) -> Result<(), AllocError>
    ensures { OnOk result (string_bytes page.new ≡ string_bytes page.old ++ ended line.now) }
{
    page.push_str(line)?;
    page.push('\n')?;
    Ok(())
}

// Appends lines to a page, each with a line feed after it.
fn push_lines(lines: &[String], page: &mut String) -> Result<(), AllocError>
    ensures { OnOk result
        (string_bytes page.new ≡ string_bytes page.old ++ flat_map ended (map string_bytes lines.now)) }
{
    page.reserve(bytes_of(lines))?;
    for line in lines {
        push_line(line, page)?;
    }
    Ok(())
}

// Returns the failure that a paragraph of the input of this name is too long.
fn long_paragraph(alloc: Global, name: &str) -> Failure
    ensures { IsLongParagraph name.now result }
{
    match String::from_str(alloc, shown_name(name)) {
        Ok(input) => Failure::Refused {
            input,
            cause: InputRefusal::LongParagraph,
        },
        Err(_) => Failure::Memory,
    }
}

// Appends the lines of an input to a page.
fn push_input<F: NamedFiles, I: Read>(
    files: &F,
    alloc: Global,
    options: &Options<'_>,
    dictionary: &AnyDictionary,
    name: &str,
    input: &mut I,
    page: &mut String,
) -> Result<(), Failure>
    ensures added { OnOk result (AddsTo (parsed_options options.now) dictionary.now (F.bytes files.now)
        (I.remaining input.old) name.now page.old page.new) }
    ensures failure { IfErr result (IsFailureOfText (parsed_options options.now) dictionary.now (F.bytes files.now)
        (I.remaining input.old) name.now) }
    ensures unread { is_standard_input name.now ≡ false → input.new ≡ input.old }
{
    let text = read_text(files, alloc, name, input)?;
    match lines_of(alloc, dictionary, options, &text) {
        Ok(lines) => {
            push_lines(&lines, page)?;
            Ok(())
        }
        Err(FillError::TooLong) => Err(long_paragraph(alloc, name)),
        Err(FillError::Memory) => Err(Failure::Memory),
    }
}

// Returns the lines of all inputs.
fn page_of<F: NamedFiles, I: Read>(
    files: &F,
    alloc: Global,
    options: &Options<'_>,
    dictionary: &AnyDictionary,
    names: &[&str],
    input: &mut I,
) -> Result<String, Failure>
    ensures pages { IfOk result (HasAllPages (parsed_options options.now) dictionary.now (F.bytes files.now)
        (I.remaining input.old) names.now) }
    ensures failure { IfErr result (IsFailureAmong (parsed_options options.now) dictionary.now (F.bytes files.now)
        (I.remaining input.old) (texts_now names.now)) }
    ensures unread { list_any is_standard_input (texts_now names.now) ≡ false → input.new ≡ input.old }
{
    let mut page = String::new(alloc);
    let mut rest = names;
    while let [name, others @ ..] = rest {
        push_input(files, alloc, options, dictionary, name, input, &mut page)?;
        rest = others;
    }
    Ok(page)
}

// A law for proofs: a standard dictionary breaks no word with a change.
#[tactic(auto, using(crate::proofs::PlainBreaks::plain_by))]
fn standard_breaks_are_plain(dictionary: &AnyDictionary)
    ensures { PlainIfStandard (kind_by dictionary.now) (breaks_by dictionary.now) }
{}

/// Writes the lines of all inputs of a request, once all of them are made.
///
/// The dictionary is loaded first, then the inputs are read in their order. The first step that fails gives the
/// failure. After [`Failure::Output`] a beginning may be written; after any other nothing is.
#[tactic(auto, using(crate::proofs::Runs::dictionary_fails, crate::proofs::Runs::before_reading))]
pub fn run<F: NamedFiles, I: Read, O: Write>(
    files: &F,
    alloc: Global,
    request: &Request<'_>,
    folders: &[&str],
    input: &mut I,
    output: &mut O,
) -> Result<(), Failure>
    ensures written { OnOk result (WritesRequest request.now (F.bytes files.now) folders.now
        (I.remaining input.old) O.contents output.old output.new) }
    ensures failure { IfErr result (IsFailureFor (parsed_request request.now) (F.bytes files.now)
        (texts_now folders.now) (I.remaining input.old)) }
    ensures unread { list_any is_standard_input (texts_now request.now.inputs.items) ≡ false → input.new ≡ input.old }
    ensures dictionary_first { IfErr result (BeforeReading (input.new ≡ input.old)) }
    ensures untouched { IfErr result (λ failure. (failure ≡ Failure.Output) ⊎ (output.new ≡ output.old)) }
{
    let dictionary = load_adjusted(
        files,
        alloc,
        folders,
        request.dictionary,
        &request.adjustments,
    )?;
    standard_breaks_are_plain(&dictionary);
    let page = page_of(
        files,
        alloc,
        &request.options,
        &dictionary,
        &request.inputs,
        input,
    )?;
    match output.write_all(page.as_bytes()) {
        Ok(()) => Ok(()),
        Err(_) => Err(Failure::Output),
    }
}
