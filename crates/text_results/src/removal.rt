//! Texts and pages whose soft hyphens are taken out.

ghost use Rattle.std.specs.Prelude.{◌≡◌, ◌⊎◌, false, IfErr, IfOk, Ok, OnOk, map, option_map};
ghost use Rattle.std.specs.List.{list_any};
ghost use Rattle.std.specs.String.{string_bytes};
ghost use Rattle.command_line.specs.Failures.{status_of};
ghost use Rattle.command_line.specs.Inputs.{is_standard_input};
ghost use Rattle.command_line.specs.Reading.{as_read, IsReadError};
ghost use Rattle.hyphenation_breaks.specs.Borrowed.{texts_now};
ghost use Rattle.text_results.specs.Private.Removing.{HasRests};
ghost use Rattle.text_results.specs.Reading.{as_target, parsed_removal, IsFailureOfRemoval, Removes};
ghost use Rattle.text_results.specs.Removals.{removal_of, removal_to, rest_of};
ghost use Rattle.text_results.specs.Texts.{IsFailureAmong};

use crate::files::ReplaceFiles;
use crate::results::write_results;
use crate::targets::{Target, names_for, target_of};
use crate::texts::{push, read_texts};
use command_line::options::{Arguments, ReadError};
use command_line::{Failure, NamedFiles};
use soft_hyphens::{remove_from_page, remove_soft_hyphens};
use std::alloc::{AllocError, Global};
use std::io::{Read, Write};

/// The form of texts whose soft hyphens are taken out.
#[derive(Clone, Copy)]
pub enum Source {
    /// Plain texts.
    Text,
    /// HTML or XHTML pages.
    Page,
}

/// A removal of soft hyphens, as arguments ask for it.
#[derive(Drop)]
pub struct Removal<'w> {
    /// The form of the texts.
    pub source: Source,
    /// The place to which results go.
    pub target: Target<'w>,
    /// The names of the texts.
    pub inputs: Vec<&'w str>,
}

// Returns the removal whose results go to a target. The names are those of its texts.
fn removal_to<'w>(
    alloc: Global,
    source: Source,
    target: Target<'w>,
    names: &[&'w str],
) -> Result<Option<Removal<'w>>, ReadError<'w>>
    ensures parsed { IfOk result (λ removal.
        removal_to source (as_target target.entry) (texts_now names.now) ≡ Ok (option_map parsed_removal removal)) }
    ensures refused { IfErr result (IsReadError (removal_to source (as_target target.entry) (texts_now names.now))) }
{
    let inputs = names_for(alloc, target, names)?;
    Ok(Some(Removal {
        source,
        target,
        inputs,
    }))
}

/// Returns the removal from texts of a form that arguments ask for by `--remove`. `None` if they don't. Each operand is then the name of a text.
///
/// The error is that of the target or of the names, or says that memory was refused.
///
/// ```text
/// removal_of(alloc, Source::Text, &arguments)?    // of `--remove letter.txt`: its names are "letter.txt"
/// ```
pub fn removal_of<'w>(
    alloc: Global,
    source: Source,
    arguments: &Arguments<'w>,
) -> Result<Option<Removal<'w>>, ReadError<'w>>
    ensures parsed { IfOk result (λ removal.
        removal_of source (as_read arguments.now) ≡ Ok (option_map parsed_removal removal)) }
    ensures refused { IfErr result (IsReadError (removal_of source (as_read arguments.now))) }
{
    if !arguments.has("--remove") {
        return Ok(None);
    }
    match target_of(arguments) {
        Ok(target) => removal_to(alloc, source, target, &arguments.operands),
        Err(bad) => Err(ReadError::Bad(bad)),
    }
}

// Returns a text without its soft hyphens.
fn rest_of(alloc: Global, source: Source, text: &str) -> Result<String, AllocError>
    ensures { IfOk result (λ rest. string_bytes rest ≡ rest_of source text.now) }
{
    match source {
        Source::Text => remove_soft_hyphens(alloc, text),
        Source::Page => remove_from_page(alloc, text),
    }
}

// Returns texts without their soft hyphens.
fn rests_of(alloc: Global, source: Source, texts: &[String]) -> Result<Vec<String>, AllocError>
    ensures { IfOk result (λ rests.
        map string_bytes rests.items ≡ map (rest_of source) (map string_bytes texts.now)) }
{
    let mut rests = Vec::new(alloc);
    for text in texts {
        let one = rest_of(alloc, source, text)?;
        push(&mut rests, one)?;
    }
    Ok(rests)
}

// Returns the texts of a removal without their soft hyphens.
#[tactic(auto, using(crate::proofs::Removing::memory_among))]
fn rests_of_removal<F: NamedFiles, I: Read>(
    files: &F,
    alloc: Global,
    removal: &Removal<'_>,
    input: &mut I,
) -> Result<Vec<String>, Failure>
    ensures rests { IfOk result (λ rests.
        HasRests removal.now (F.bytes files.now) (I.remaining input.old) rests.items) }
    ensures failure { IfErr result
        (IsFailureAmong (F.bytes files.now) (I.remaining input.old) (texts_now removal.now.inputs.items)) }
    ensures unread { list_any is_standard_input (texts_now removal.now.inputs.items) ≡ false → input.new ≡ input.old }
{
    let texts = read_texts(files, alloc, &removal.inputs, input)?;
    let rests = rests_of(alloc, removal.source, &texts)?;
    Ok(rests)
}

/// Writes the texts of a removal without their soft hyphens, once all of them are made.
///
/// The first step that fails gives the failure, which is none of a dictionary. After [`Failure::Output`] a beginning may be
/// written. After [`Failure::Writing`] the files before that one are replaced, and those from it on are as they were.
///
/// ```text
/// remove(&rt, &mut &rt, alloc, &removal, &mut rt.stdin(), &mut rt.stdout())?
/// ```
#[tactic(auto, using(crate::proofs::Removing::fails_before, crate::proofs::Removing::never_of_texts))]
pub fn remove<F: NamedFiles, S: ReplaceFiles, I: Read, O: Write>(
    files: &F,
    store: &mut S,
    alloc: Global,
    removal: &Removal<'_>,
    input: &mut I,
    output: &mut O,
) -> Result<(), Failure>
    ensures written { OnOk result (Removes removal.now (F.bytes files.now) (I.remaining input.old)
        O.contents output.old output.new S.written store.old store.new) }
    ensures failure { IfErr result (IsFailureOfRemoval removal.now (F.bytes files.now) (I.remaining input.old)
        S.written store.old store.new) }
    ensures no_dictionary { IfErr result (λ failure. status_of failure ≡ 3 → ⊥) }
    ensures unread { list_any is_standard_input (texts_now removal.now.inputs.items) ≡ false → input.new ≡ input.old }
    ensures untouched { IfErr result (λ failure. (failure ≡ Failure.Output) ⊎ (output.new ≡ output.old)) }
{
    let rests = rests_of_removal(files, alloc, removal, input)?;
    write_results(
        store,
        alloc,
        removal.target,
        &removal.inputs,
        &rests,
        output,
    )
}
