//! The place to which results go, and the names of the texts, by arguments.

ghost use Rattle.std.specs.Prelude.{◌≡◌, ◌++◌, ◌∷◌, [], IfErr, IfOk, Ok, OnOk};
ghost use Rattle.std.specs.List.{list_any};
ghost use Rattle.hyphenation_breaks.specs.Borrowed.{texts_now};
ghost use Rattle.command_line.specs.Inputs.{is_standard_input};
ghost use Rattle.command_line.specs.Reading.{given_options, IsReadError};
ghost use Rattle.text_results.specs.Reading.{as_target, IsTarget};
ghost use Rattle.text_results.specs.Targets.{target_at, target_of, inputs_of, replaced_of, names_for};

use command_line::options::{Arguments, BadArgument, Expected, ReadError};
use std::alloc::{AllocError, Global};

/// The place to which results go.
#[derive(Clone, Copy)]
pub enum Target<'w> {
    /// The output.
    Output,
    /// The file at this path.
    File(&'w str),
    /// Each to the file from which its text came.
    InPlace,
}

// Returns the place to which the results go that an output of this path gets.
fn target_at(path: &str) -> Target<'_>
    ensures { as_target result ≡ target_at path.now }
{
    if path == "-" || path == "/dev/stdout" {
        return Target::Output;
    }
    Target::File(path)
}

/// Returns the place to which results go, by the options `--output` and `--in-place` that are given.
///
/// The paths `-` and `/dev/stdout` name the output itself. The error says that both options are given.
///
/// ```text
/// target_of(&arguments)?      // of `--output new.html`: Target::File("new.html"); of `--output -`: Target::Output
/// ```
pub fn target_of<'w>(arguments: &Arguments<'w>) -> Result<Target<'w>, BadArgument<'w>>
    ensures { IsTarget result (target_of (given_options arguments.now)) }
{
    let in_place = arguments.has("--in-place");
    match arguments.last("--output") {
        Some(path) => {
            if in_place {
                return Err(BadArgument {
                    argument: "--in-place",
                    value: None,
                    expected: Expected::NoMore,
                });
            }
            Ok(target_at(path))
        }
        None => {
            if in_place {
                Ok(Target::InPlace)
            } else {
                Ok(Target::Output)
            }
        }
    }
}

// Appends a name.
fn push<'w>(names: &mut Vec<&'w str>, name: &'w str) -> Result<(), AllocError>
    ensures { OnOk result (texts_now names.new.items ≡ texts_now names.old.items ++ name.now ∷ []) }
{
    names.push(name)?;
    Ok(())
}

// Returns a copy of names.
fn copied<'w>(alloc: Global, names: &[&'w str]) -> Result<Vec<&'w str>, AllocError>
    ensures { IfOk result (λ copies. texts_now copies.items ≡ texts_now names.now) }
{
    let mut copies = Vec::new(alloc);
    copies.extend_from_slice(names)?;
    Ok(copies)
}

/// Returns the names of texts: those that are given, or standard input, `-`, if none is.
///
/// The only error is out of memory.
///
/// ```text
/// inputs_of(alloc, &[])?      // "-"
/// ```
#[tactic(auto, using(crate::proofs::Names::some_inputs))]
pub fn inputs_of<'w>(alloc: Global, names: &[&'w str]) -> Result<Vec<&'w str>, AllocError>
    ensures { IfOk result (λ inputs. texts_now inputs.items ≡ inputs_of (texts_now names.now)) }
{
    if names.is_empty() {
        let mut inputs = Vec::new(alloc);
        push(&mut inputs, "-")?;
        return Ok(inputs);
    }
    copied(alloc, names)
}

// Whether one of some names is that of standard input.
fn has_standard_input(names: &[&str]) -> bool
    ensures { result ≡ list_any is_standard_input (texts_now names.now) }
{
    for name in names {
        if *name == "-" {
            return true;
        }
    }
    false
}

// Returns the names of texts that are replaced.
#[tactic(auto, using(crate::proofs::Names::no_replaced, crate::proofs::Names::some_replaced, crate::proofs::Names::input_replaced))]
fn replaced_of<'w>(alloc: Global, names: &[&'w str]) -> Result<Vec<&'w str>, ReadError<'w>>
    ensures names { IfOk result (λ found. replaced_of (texts_now names.now) ≡ Ok (texts_now found.items)) }
    ensures refused { IfErr result (IsReadError (replaced_of (texts_now names.now))) }
{
    if names.is_empty() {
        return Err(ReadError::Bad(BadArgument {
            argument: "FILE",
            value: None,
            expected: Expected::Operand,
        }));
    }
    if has_standard_input(names) {
        return Err(ReadError::Bad(BadArgument {
            argument: "-",
            value: None,
            expected: Expected::NoMore,
        }));
    }
    Ok(copied(alloc, names)?)
}

/// Returns the names of texts whose results go to a target: those that are given, or standard input, `-`, if none is.
///
/// If each file is replaced, the error says that none is named, or that standard input is one of them. Else the only error
/// is that memory was refused.
///
/// ```text
/// names_for(alloc, Target::Output, &[])?      // "-"
/// ```
pub fn names_for<'w>(
    alloc: Global,
    target: Target<'w>,
    names: &[&'w str],
) -> Result<Vec<&'w str>, ReadError<'w>>
    ensures names { IfOk result (λ found.
        names_for (as_target target.entry) (texts_now names.now) ≡ Ok (texts_now found.items)) }
    ensures refused { IfErr result (IsReadError (names_for (as_target target.entry) (texts_now names.now))) }
{
    match target {
        Target::InPlace => replaced_of(alloc, names),
        _ => Ok(inputs_of(alloc, names)?),
    }
}
