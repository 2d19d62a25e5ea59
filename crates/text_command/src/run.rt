//! A run of the program: from a dictionary and texts to results that are written.

ghost use Rattle.std.specs.Prelude.{◌≡◌, ◌⊎◌, false, IfErr, IfOk, OnOk};
ghost use Rattle.std.specs.List.{list_any};
ghost use Rattle.std.specs.String.{string_bytes};
ghost use Rattle.command_line.specs.Inputs.{is_standard_input};
ghost use Rattle.hyphenation_breaks.specs.Borrowed.{texts_now};
ghost use Rattle.text_command.specs.Private.Requests.{parsed_options, parsed_request};
ghost use Rattle.text_command.specs.Private.Runs.{AreResultsOf, BeforeReading, HasResults, HasResultsBy, IsFailureOfRequest, WritesRequest};
ghost use Rattle.text_command.specs.Written.{is_markdown, result_of, IsFailureBefore};
ghost use Rattle.text_results.specs.Texts.{IsFailureAmong};

use crate::request::{Options, Request};
use any_dictionary::AnyDictionary;
use command_line::adjustments::load_adjusted;
use command_line::{Failure, NamedFiles};
use hyphenation_text::{Settings, hyphenate_markdown, hyphenate_text};
use std::alloc::{AllocError, Global};
use std::io::{Read, Write};
use text_results::files::ReplaceFiles;
use text_results::results::write_results;
use text_results::texts::{push, read_texts};

// Whether a text of a name is Markdown.
fn is_markdown(options: &Options<'_>, name: &str) -> bool
    ensures { result ≡ is_markdown (parsed_options options.now) name.now }
{
    let bytes = name.as_bytes();
    options.markdown || bytes.ends_with(b".md") || bytes.ends_with(b".markdown")
}

// Returns the result of a text.
fn result_of(
    alloc: Global,
    dictionary: &AnyDictionary,
    options: &Options<'_>,
    name: &str,
    text: &str,
) -> Result<String, AllocError>
    ensures { IfOk result (λ one.
        string_bytes one ≡ result_of (parsed_options options.now) dictionary.now name.now text.now) }
{
    let settings = Settings {
        mark: options.mark,
        class: "",
        min_word: options.min_word,
        skip_capitals: options.skip_capitals,
    };
    if is_markdown(options, name) {
        hyphenate_markdown(alloc, dictionary, &settings, text)
    } else {
        hyphenate_text(alloc, dictionary, &settings, text)
    }
}

// Returns the results of texts of these names.
fn results_of_texts(
    alloc: Global,
    dictionary: &AnyDictionary,
    options: &Options<'_>,
    names: &[&str],
    texts: &[String],
) -> Result<Vec<String>, AllocError>
    ensures { IfOk result (λ results. AreResultsOf options.now dictionary.now names.now texts.now results.items) }
{
    let mut results = Vec::new(alloc);
    for (name, text) in names.iter().zip(texts) {
        let one = result_of(alloc, dictionary, options, name, text)?;
        push(&mut results, one)?;
    }
    Ok(results)
}

// Returns the results of the texts of a request, by its dictionary.
#[tactic(auto, using(crate::proofs::Runs::memory_among))]
fn results_by<F: NamedFiles, I: Read>(
    files: &F,
    alloc: Global,
    request: &Request<'_>,
    dictionary: &AnyDictionary,
    input: &mut I,
) -> Result<Vec<String>, Failure>
    ensures results { IfOk result (λ results. HasResultsBy request.now dictionary.now (F.bytes files.now)
        (I.remaining input.old) results.items) }
    ensures failure { IfErr result
        (IsFailureAmong (F.bytes files.now) (I.remaining input.old) (texts_now request.now.inputs.items)) }
    ensures unread { list_any is_standard_input (texts_now request.now.inputs.items) ≡ false → input.new ≡ input.old }
{
    let texts = read_texts(files, alloc, &request.inputs, input)?;
    let results = results_of_texts(alloc, dictionary, &request.options, &request.inputs, &texts)?;
    Ok(results)
}

// Returns the results of a request.
#[tactic(auto, using(crate::proofs::Runs::dictionary_fails, crate::proofs::Runs::before_reading))]
fn results_of<F: NamedFiles, I: Read>(
    files: &F,
    alloc: Global,
    request: &Request<'_>,
    folders: &[&str],
    input: &mut I,
) -> Result<Vec<String>, Failure>
    ensures results { IfOk result (λ results. HasResults request.now (F.bytes files.now) folders.now
        (I.remaining input.old) results.items) }
    ensures failure { IfErr result (IsFailureBefore (parsed_request request.now) (F.bytes files.now)
        (texts_now folders.now) (I.remaining input.old)) }
    ensures unread { list_any is_standard_input (texts_now request.now.inputs.items) ≡ false → input.new ≡ input.old }
    ensures dictionary_first { IfErr result (BeforeReading (input.new ≡ input.old)) }
{
    match load_adjusted(
        files,
        alloc,
        folders,
        request.dictionary,
        &request.adjustments,
    ) {
        Ok(dictionary) => results_by(files, alloc, request, &dictionary, input),
        Err(failure) => Err(failure),
    }
}

/// Writes the results of all texts of a request, once all of them are made.
///
/// The dictionary is loaded first, then the texts are read in their order. The first step that fails gives the failure.
/// After [`Failure::Output`] a beginning may be written. After [`Failure::Writing`] the files before that one are replaced,
/// and those from it on are as they were. After any other failure but [`Failure::Memory`] nothing is written.
#[tactic(auto, using(crate::proofs::Runs::fails_before))]
pub fn run<F: NamedFiles, S: ReplaceFiles, I: Read, O: Write>(
    files: &F,
    store: &mut S,
    alloc: Global,
    request: &Request<'_>,
    folders: &[&str],
    input: &mut I,
    output: &mut O,
) -> Result<(), Failure>
    ensures written { OnOk result (WritesRequest request.now (F.bytes files.now) folders.now (I.remaining input.old)
        O.contents output.old output.new S.written store.old store.new) }
    ensures failure { IfErr result (IsFailureOfRequest request.now (F.bytes files.now) folders.now
        (I.remaining input.old) S.written store.old store.new) }
    ensures unread { list_any is_standard_input (texts_now request.now.inputs.items) ≡ false → input.new ≡ input.old }
    ensures dictionary_first { IfErr result (BeforeReading (input.new ≡ input.old)) }
    ensures untouched { IfErr result (λ failure. (failure ≡ Failure.Output) ⊎ (output.new ≡ output.old)) }
{
    let results = results_of(files, alloc, request, folders, input)?;
    write_results(
        store,
        alloc,
        request.options.target,
        &request.inputs,
        &results,
        output,
    )
}
