//! The dictionary that an argument names: at a path, or of a language that is looked for in folders.

ghost use Rattle.std.specs.Prelude.{◌≡◌, IfErr, IfOk, MatchResult, None, Ok, Some, false, map, true};
ghost use Rattle.std.specs.String.{string_bytes};
ghost use Rattle.hyphenation_breaks.specs.Borrowed.{texts_now};
ghost use Rattle.command_line.specs.Dictionaries.{is_path, IsOfFile, IsOfFileIfThere, IsOfFirst, IsOfArgument};
ghost use Rattle.command_line.specs.Dictionaries.{HasOwnCause, IsFailureOf, IsFirstFailureOf};
ghost use Rattle.command_line.specs.Dictionaries.{IsMissingFile, IsRefusedAmong, IsRefusedFile, IsRefusedFirst};
ghost use Rattle.command_line.specs.Private.Failures.{IsMismatch, IsMissing, IsNotFound, IsRefusalOf};

use crate::failure::Failure;
use any_dictionary::AnyDictionary;
use hyphenation_load::{Error, Load, is_out_of_memory};
use language_search::paths_of;
use named_files::NamedFiles;
use std::alloc::Global;
use std::io::ErrorKind;

// Returns why the dictionary at a path was not loaded, as a failure of the program.
fn refused(alloc: Global, path: &str, cause: Error) -> Failure
    ensures named { IsRefusalOf path.now cause result }
    ensures cause { (IsMismatch cause → ⊥) → HasOwnCause result }
    ensures missing { IsNotFound cause → IsMissingFile path.now result }
{
    let is_memory = match &cause {
        Error::Memory(_) => true,
        Error::IO(e) => is_out_of_memory(e),
        _ => false,
    };
    match String::from_str(alloc, path) {
        Ok(path) if !is_memory => Failure::Dictionary { path, cause },
        _ => Failure::Memory,
    }
}

/// Returns the dictionary of the file at a path, of the kind that its first line names. `None` if there is no such file.
///
/// The error is [`Failure::Dictionary`] if the file can't be opened, read or accepted, or [`Failure::Memory`].
///
/// ```text
/// load_if_there(&rt, alloc, "/usr/share/hyphenation/de.txt")?
/// ```
#[tactic(auto, using(crate::proofs::Files::not_there, crate::proofs::Files::no_mismatch))]
pub fn load_if_there<F: NamedFiles>(
    files: &F,
    alloc: Global,
    path: &str,
) -> Result<Option<AnyDictionary>, Failure>
    ensures found { IfOk result (IsOfFileIfThere (F.bytes files.now path.now)) }
    ensures absent { F.bytes files.now path.now ≡ Some None → result ≡ Ok None }
    ensures failure { IfErr result (IsRefusedFile (F.bytes files.now path.now) path.now) }
    ensures cause { IfErr result HasOwnCause }
{
    let mut file = match files.open(path) {
        Ok(file) => file,
        Err(e) => {
            if matches!(e.kind(), ErrorKind::NotFound) {
                return Ok(None);
            }
            return Err(refused(alloc, path, Error::IO(e)));
        }
    };
    match AnyDictionary::any_from_reader(alloc, &mut file) {
        Ok(dictionary) => Ok(Some(dictionary)),
        Err(cause) => Err(refused(alloc, path, cause)),
    }
}

/// Returns the dictionary of the file at a path, of the kind that its first line names.
///
/// The error is [`Failure::Dictionary`] if the file is not there, can't be opened, read or accepted, or
/// [`Failure::Memory`].
///
/// ```text
/// load_file(&rt, alloc, "examples/firkin.txt")?
/// ```
#[tactic(auto, using(crate::proofs::Files::no_mismatch))]
pub fn load_file<F: NamedFiles>(
    files: &F,
    alloc: Global,
    path: &str,
) -> Result<AnyDictionary, Failure>
    ensures loaded { IfOk result (IsOfFile (F.bytes files.now path.now)) }
    ensures absent { F.bytes files.now path.now ≡ Some None → MatchResult result (λ _. ⊥) (IsMissingFile path.now) }
    ensures failure { IfErr result (IsRefusedFile (F.bytes files.now path.now) path.now) }
    ensures cause { IfErr result HasOwnCause }
{
    let mut file = match files.open(path) {
        Ok(file) => file,
        Err(e) => return Err(refused(alloc, path, Error::IO(e))),
    };
    match AnyDictionary::any_from_reader(alloc, &mut file) {
        Ok(dictionary) => Ok(dictionary),
        Err(cause) => Err(refused(alloc, path, cause)),
    }
}

/// Returns the dictionary of the first path at which there is a file. `None` if there is none at any of them.
///
/// The error names the file that is there and can't be opened, read or accepted. The files after it are not opened.
///
/// ```text
/// load_first(&rt, alloc, &paths_of(alloc, &folders, "de")?)?
/// ```
pub fn load_first<F: NamedFiles>(
    files: &F,
    alloc: Global,
    paths: &[String],
) -> Result<Option<AnyDictionary>, Failure>
    ensures found { IfOk result (IsOfFirst (F.bytes files.now) (map string_bytes paths.now)) }
    ensures failure { IfErr result (IsRefusedAmong (F.bytes files.now) (map string_bytes paths.now)) }
    ensures first { IfErr result (IsRefusedFirst (F.bytes files.now) (map string_bytes paths.now)) }
    ensures cause { IfErr result HasOwnCause }
{
    for path in paths {
        if let Some(dictionary) = load_if_there(files, alloc, path)? {
            return Ok(Some(dictionary));
        }
    }
    Ok(None)
}

// Reports whether an argument is a path.
pub(crate) fn is_path(argument: &str) -> bool
    ensures { result ≡ is_path argument.now }
{
    argument
        .as_bytes()
        .iter()
        .any(|byte| *byte == b'/' || *byte == b'.')
}

// Returns the failure that no dictionary of a language is found.
fn no_dictionary(alloc: Global, language: &str) -> Failure
    ensures missing { IsMissing language.now result }
    ensures cause { HasOwnCause result }
{
    match String::from_str(alloc, language) {
        Ok(language) => Failure::NoDictionary { language },
        Err(_) => Failure::Memory,
    }
}

/// Returns the dictionary that an argument names.
///
/// An argument with a `/` or a `.` is the path of its text. Any other is the tag of a language. Its paths are those
/// that [`language_search::paths_of`] gives for these folders, and the first at which there is a file has the
/// dictionary. The error names the file that is there and can't be opened, read or accepted, or the language that has
/// none.
///
/// ```text
/// load_dictionary(&rt, alloc, &folders, "de")?                       // FOLDER/de-1996.txt
/// load_dictionary(&rt, alloc, &folders, "examples/firkin.txt")?      // examples/firkin.txt
/// ```
#[tactic(auto, using(crate::proofs::Files::first_of_missing, crate::proofs::Files::memory_first))]
pub fn load_dictionary<F: NamedFiles>(
    files: &F,
    alloc: Global,
    folders: &[&str],
    argument: &str,
) -> Result<AnyDictionary, Failure>
    ensures loaded { IfOk result (IsOfArgument (F.bytes files.now) (texts_now folders.now) argument.now) }
    ensures failure { IfErr result (IsFailureOf (F.bytes files.now) (texts_now folders.now) argument.now) }
    ensures of_path { is_path argument.now ≡ true →
        IfErr result (IsRefusedFile (F.bytes files.now argument.now) argument.now) }
    ensures first { is_path argument.now ≡ false →
        IfErr result (IsFirstFailureOf (F.bytes files.now) (texts_now folders.now) argument.now) }
    ensures cause { IfErr result HasOwnCause }
{
    if is_path(argument) {
        return load_file(files, alloc, argument);
    }
    let paths = paths_of(alloc, folders, argument)?;
    match load_first(files, alloc, &paths)? {
        Some(dictionary) => Ok(dictionary),
        None => Err(no_dictionary(alloc, argument)),
    }
}
