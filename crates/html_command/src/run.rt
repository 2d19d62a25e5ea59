//! A run of the program: from pages to results that are written.

ghost use Rattle.std.specs.Prelude.{◌≡◌, ◌⊎◌, false, IfErr, IfOk, OnOk};
ghost use Rattle.std.specs.List.{list_any};
ghost use Rattle.std.specs.String.{string_bytes};
ghost use Rattle.command_line.specs.Inputs.{is_standard_input};
ghost use Rattle.hyphenation_breaks.specs.Borrowed.{texts_now};
ghost use Rattle.html_command.specs.Private.Runs.{AreLoadedBy, AreResultsBy, FailsBefore, FailsOver, HasResults, IsResultBy};
ghost use Rattle.html_command.specs.Private.Runs.{AreNotesBy, IsFailureOfRequest, WritesRequest};

use crate::dictionaries::{load_for_page, load_given};
use crate::notes::{Note, PageNote, notes_on, push_notes};
use crate::request::{Options, Request};
use command_line::{Failure, NamedFiles};
use hyphenation_html::{HtmlPage, LanguageDictionary, hyphenate_html};
use std::alloc::{AllocError, Global};
use std::io::{Read, Write};
use text_results::files::ReplaceFiles;
use text_results::results::write_results;
use text_results::texts::{push, read_texts};

// A page with its marks, and the notes on it.
#[derive(Drop)]
struct Marked {
    text: String,
    notes: Vec<Note>,
}

// Pages with their marks, and the notes on them.
#[derive(Drop)]
struct Results {
    texts: Vec<String>,
    notes: Vec<PageNote>,
}

// Returns the notes on a page. Where the options ask for none, the page is not read for them.
fn notes_for(
    alloc: Global,
    options: &Options<'_>,
    dictionaries: &[LanguageDictionary],
    page: &HtmlPage<'_>,
) -> Result<Vec<Note>, AllocError>
    ensures { IfOk result (λ notes. AreNotesBy options.now dictionaries.now page.now notes.items) }
{
    if options.quiet {
        return Ok(Vec::new(alloc));
    }
    notes_on(
        alloc,
        dictionaries,
        options.language,
        &options.settings,
        page,
    )
}

// Returns the result of a page. The dictionaries of the page before become its own, and all that are loaded are kept.
fn result_of<F: NamedFiles>(
    files: &F,
    alloc: Global,
    options: &Options<'_>,
    folders: &[&str],
    page: &str,
    all: &mut Vec<LanguageDictionary>,
    others: &mut Vec<LanguageDictionary>,
) -> Result<Marked, Failure>
    requires { AreLoadedBy options.now (F.bytes files.now) folders.now all.old.items others.old.items }
    ensures result { IfOk result (λ marked.
        IsResultBy options.now (F.bytes files.now) folders.now page.now marked.text marked.notes.items) }
    ensures loaded { OnOk result (AreLoadedBy options.now (F.bytes files.now) folders.now all.new.items others.new.items) }
    ensures failure { IfErr result (FailsOver options.now (F.bytes files.now) folders.now) }
{
    let cut = HtmlPage::new(alloc, page)?;
    load_for_page(files, alloc, options, folders, &cut, all, others)?;
    let text = hyphenate_html(alloc, all, options.language, &options.settings, &cut)?;
    let notes = notes_for(alloc, options, all, &cut)?;
    Ok(Marked { text, notes })
}

// Returns the results of pages.
#[tactic(auto, using(crate::proofs::Loaded::loaded_given))]
fn results_of_pages<F: NamedFiles>(
    files: &F,
    alloc: Global,
    options: &Options<'_>,
    folders: &[&str],
    pages: &[String],
) -> Result<Results, Failure>
    ensures results { IfOk result (λ results.
        AreResultsBy options.now (F.bytes files.now) folders.now pages.now results.texts.items results.notes.items) }
    ensures failure { IfErr result (FailsOver options.now (F.bytes files.now) folders.now) }
{
    let mut all = load_given(files, alloc, &options.given, &options.adjustments)?;
    let mut others = Vec::new(alloc);
    let mut texts = Vec::new(alloc);
    let mut notes = Vec::new(alloc);
    for page in pages {
        let one = result_of(files, alloc, options, folders, page, &mut all, &mut others)?;
        push_notes(&mut notes, texts.len(), &one.notes)?;
        push(&mut texts, one.text)?;
    }
    Ok(Results { texts, notes })
}

// Returns the results of a request.
#[tactic(auto, using(crate::proofs::Runs::page_fails, crate::proofs::Runs::dictionary_fails, crate::proofs::Runs::results_so))]
fn results_of<F: NamedFiles, I: Read>(
    files: &F,
    alloc: Global,
    request: &Request<'_>,
    folders: &[&str],
    input: &mut I,
) -> Result<Results, Failure>
    ensures results { IfOk result (λ results. HasResults request.now (F.bytes files.now) folders.now
        (I.remaining input.old) results.texts.items results.notes.items) }
    ensures failure { IfErr result
        (FailsBefore request.now (F.bytes files.now) folders.now (I.remaining input.old)) }
    ensures unread { list_any is_standard_input (texts_now request.now.inputs.items) ≡ false → input.new ≡ input.old }
{
    match read_texts(files, alloc, &request.inputs, input) {
        Ok(pages) => results_of_pages(files, alloc, &request.options, folders, &pages),
        Err(failure) => Err(failure),
    }
}

/// Writes the results of all pages of a request, once all of them are made. Returns the notes on them: on each language of a
/// page that no dictionary serves, and on each page that is not read to its end.
///
/// The pages are read in their order, and then the dictionaries of each are loaded, unless a page before it needed them. So
/// that of a language is opened once. The first step that fails gives the failure. After [`Failure::Output`] a beginning may
/// be written. After [`Failure::Writing`] the files before that one are replaced, and those from it on are as they were.
/// After any other failure but [`Failure::Memory`] nothing is written.
#[tactic(auto, using(crate::proofs::Runs::fails_before))]
pub fn run<F: NamedFiles, S: ReplaceFiles, I: Read, O: Write>(
    files: &F,
    store: &mut S,
    alloc: Global,
    request: &Request<'_>,
    folders: &[&str],
    input: &mut I,
    output: &mut O,
) -> Result<Vec<PageNote>, Failure>
    ensures written { IfOk result (λ notes. WritesRequest request.now (F.bytes files.now) folders.now (I.remaining input.old)
        notes.items O.contents output.old output.new S.written store.old store.new) }
    ensures failure { IfErr result (IsFailureOfRequest request.now (F.bytes files.now) folders.now
        (I.remaining input.old) S.written store.old store.new) }
    ensures unread { list_any is_standard_input (texts_now request.now.inputs.items) ≡ false → input.new ≡ input.old }
    ensures untouched { IfErr result (λ failure. (failure ≡ Failure.Output) ⊎ (output.new ≡ output.old)) }
{
    let results = results_of(files, alloc, request, folders, input)?;
    write_results(
        store,
        alloc,
        request.options.target,
        &request.inputs,
        &results.texts,
        output,
    )?;
    Ok(results.notes)
}
