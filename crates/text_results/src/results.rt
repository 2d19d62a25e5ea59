//! The writing of results: to the output, into one file, or each into its own.

ghost use Rattle.std.specs.Prelude.{◌≡◌, ◌∷◌, ◌⊎◌, [], IfErr, IfOk, OnErr, OnOk, map};
ghost use Rattle.std.specs.List.{concat, zip};
ghost use Rattle.std.specs.String.{string_bytes};
ghost use Rattle.hyphenation_breaks.specs.Borrowed.{texts_now};
ghost use Rattle.hyphenation_load.specs.Load.{AppendsTo};
ghost use Rattle.text_results.specs.Files.{WritesFiles};
ghost use Rattle.text_results.specs.Private.Runs.{IsFailureOfFile, IsWritingOf};
ghost use Rattle.text_results.specs.Reading.{as_target, files_for, IsFailureOfTarget};
ghost use Rattle.text_results.specs.Targets.{InPlace};
ghost use Rattle.text_results.specs.Written.{output_of, IsFailureOfWriting};

use crate::files::ReplaceFiles;
use crate::targets::Target;
use crate::texts::bytes_of;
use command_line::Failure;
use hyphenation_load::is_out_of_memory;
use std::alloc::{AllocError, Global};
use std::io;
use std::io::Write;

// Returns results as one text, one after the other.
fn joined(alloc: Global, results: &[String]) -> Result<String, AllocError>
    ensures { IfOk result (λ whole. string_bytes whole ≡ concat (map string_bytes results.now)) }
{
    let mut whole = String::with_capacity(alloc, bytes_of(results))?;
    for one in results {
        whole.push_str(one)?;
    }
    Ok(whole)
}

// Returns the failure that the file at a path can't be written.
fn unwritten(alloc: Global, path: &str, e: &io::Error) -> Failure
    ensures { IsWritingOf path.now result }
{
    if is_out_of_memory(e) {
        return Failure::Memory;
    }
    match String::from_str(alloc, path) {
        Ok(output) => Failure::Writing { output },
        Err(_) => Failure::Memory,
    }
}

// Replaces the file at a path.
fn replace<S: ReplaceFiles>(
    store: &mut S,
    alloc: Global,
    path: &str,
    bytes: &[u8],
) -> Result<(), Failure>
    ensures written { OnOk result
        (WritesFiles (S.written store.old) (S.written store.new) ((path.now, bytes.now) ∷ [])) }
    ensures kept { OnErr result (WritesFiles (S.written store.old) (S.written store.new) []) }
    ensures failure { IfErr result (IsWritingOf path.now) }
{
    match store.replace(alloc, path, bytes) {
        Ok(()) => Ok(()),
        Err(e) => Err(unwritten(alloc, path, &e)),
    }
}

// Replaces the file of each name by the result of its text.
#[tactic(auto, using(crate::proofs::ReplacedFiles::replaced_none, crate::proofs::ReplacedFiles::replaced_more, crate::proofs::ReplacedFiles::replaced_all, crate::proofs::ReplacedFiles::replaced_not))]
fn replace_each<S: ReplaceFiles>(
    store: &mut S,
    alloc: Global,
    inputs: &[&str],
    results: &[String],
) -> Result<(), Failure>
    ensures written { OnOk result (WritesFiles (S.written store.old) (S.written store.new)
        (zip (texts_now inputs.now) (map string_bytes results.now))) }
    ensures failure { IfErr result (IsFailureOfWriting InPlace (texts_now inputs.now) (map string_bytes results.now)
        (S.written store.old) (S.written store.new)) }
{
    let mut others = results;
    for name in inputs {
        let Some((one, more)) = others.split_first() else {
            return Ok(());
        };
        replace(store, alloc, name, one.as_bytes())?;
        others = more;
    }
    Ok(())
}

// Writes results to the output.
fn write_out<O: Write>(alloc: Global, results: &[String], output: &mut O) -> Result<(), Failure>
    ensures written { OnOk result
        (AppendsTo O.contents output.old output.new (concat (map string_bytes results.now))) }
    ensures failure { IfErr result (λ failure. (failure ≡ Failure.Output)
        ⊎ ((failure ≡ Failure.Memory) × (output.new ≡ output.old))) }
{
    let whole = joined(alloc, results)?;
    match output.write_all(whole.as_bytes()) {
        Ok(()) => Ok(()),
        Err(_) => Err(Failure::Output),
    }
}

// Writes results to the file at a path.
#[tactic(auto, using(crate::proofs::ReplacedFiles::file_not))]
fn write_file<S: ReplaceFiles>(
    store: &mut S,
    alloc: Global,
    path: &str,
    results: &[String],
) -> Result<(), Failure>
    ensures written { OnOk result (WritesFiles (S.written store.old) (S.written store.new)
        ((path.now, concat (map string_bytes results.now)) ∷ [])) }
    ensures failure { IfErr result (IsFailureOfFile path.now results.now (S.written store.old) (S.written store.new)) }
{
    let whole = joined(alloc, results)?;
    replace(store, alloc, path, whole.as_bytes())
}

/// Writes the results of texts to where a target says. The names are those of the texts, in their order.
///
/// After [`Failure::Output`] a beginning may be written. After [`Failure::Writing`] the files before the one that it names
/// are replaced, and those from it on are as they were.
///
/// ```text
/// write_results(&mut &rt, alloc, Target::InPlace, &["letter.txt"], &results, &mut rt.stdout())?
/// ```
#[tactic(auto, using(crate::proofs::ReplacedFiles::writes_none, crate::proofs::ReplacedFiles::appends_none))]
pub fn write_results<S: ReplaceFiles, O: Write>(
    store: &mut S,
    alloc: Global,
    target: Target<'_>,
    inputs: &[&str],
    results: &[String],
    output: &mut O,
) -> Result<(), Failure>
    ensures output { OnOk result (AppendsTo O.contents output.old output.new
        (output_of (as_target target.entry) (map string_bytes results.now))) }
    ensures files { OnOk result (WritesFiles (S.written store.old) (S.written store.new)
        (files_for target.entry inputs.now results.now)) }
    ensures failure { IfErr result (IsFailureOfTarget target.entry inputs.now results.now
        (S.written store.old) (S.written store.new)) }
    ensures untouched { IfErr result (λ failure. (failure ≡ Failure.Output) ⊎ (output.new ≡ output.old)) }
{
    match target {
        Target::Output => write_out(alloc, results, output),
        Target::File(path) => write_file(store, alloc, path, results),
        Target::InPlace => replace_each(store, alloc, inputs, results),
    }
}
