//! The adjustments that a user makes to a dictionary: exceptions of lists, and greater minima.

ghost use Rattle.std.specs.Prelude.{◌≡◌, ◌≢◌, codes, Err, IfErr, IfOk, None, Ok, OnErr, OnOk, Some, map, option_map};
ghost use Rattle.std.specs.String.{string_bytes};
ghost use Rattle.hyphenation_breaks.specs.Borrowed.{texts_now};
ghost use Rattle.tex_files.specs.ExceptionLists.{list_fault, with_exceptions};
ghost use Rattle.command_line.specs.Adjustments.{adjustments_of, as_adjustments, exception_paths_for};
ghost use Rattle.command_line.specs.Adjustments.{GetsFirstList, GetsListIfGiven, IsAdjusted, IsAdjustedOf};
ghost use Rattle.command_line.specs.Adjustments.{IsFailureOfAdjusted, IsFailureOfAdjusting};
ghost use Rattle.command_line.specs.Adjustments.{IsRefusedFirstList, IsRefusedIfGiven};
ghost use Rattle.command_line.specs.Dictionaries.{HasOwnCause};
ghost use Rattle.command_line.specs.Options.{last_value, number_given};
ghost use Rattle.command_line.specs.Private.Lists.{AreBytesIfThere, HasFault, IsListRefusal};
ghost use Rattle.command_line.specs.Reading.{as_refused, given_options, IsAsWanted};
ghost use Rattle.command_line.specs.declared.failure.ListRefusal.TheVariants.{Unread};

use crate::dictionaries::{is_path, load_dictionary};
use crate::failure::{Failure, ListRefusal};
use crate::options::{Arguments, BadArgument};
use any_dictionary::AnyDictionary;
use hyphenation_load::{is_out_of_memory, read_all};
use language_search::exception_paths_of;
use named_files::NamedFiles;
use pattern_results::errors::FileError;
use std::alloc::{AllocError, Global};
use std::io;
use std::io::ErrorKind;
use tex_files::exception_list::add_exceptions_to_any;

/// The adjustments that a user makes to a dictionary.
#[derive(Clone, Copy)]
pub struct Adjustments<'w> {
    /// The path of a list of exceptions, if one is given.
    pub exceptions: Option<&'w str>,
    /// The least number of characters of a word before its first break, if the dictionary has no greater one.
    pub left: u8,
    /// The least number of characters of a word after its last break, if the dictionary has no greater one.
    pub right: u8,
}

// Returns the number of characters that is the value of an option; 0 if it is not given.
fn minimum_given<'w>(arguments: &Arguments<'w>, name: &'static str) -> Result<u8, BadArgument<'w>>
    ensures { IsAsWanted result (number_given name.now 1 255 0 (given_options arguments.now)) }
{
    let number = arguments.number(name, 1, 255, 0)?;
    Ok(number as u8)
}

// Returns the path of the list of exceptions, if one is given.
fn list_given<'w>(arguments: &Arguments<'w>) -> Option<&'w str>
    ensures { option_map (λ path. path.now) result ≡ last_value (codes "--exceptions") (given_options arguments.now) }
{
    arguments.last("--exceptions")
}

impl<'w> Adjustments<'w> {
    /// Returns the adjustments that arguments ask for, by `--exceptions FILE`, `--left N` and `--right N`.
    ///
    /// A number is from 1 to 255. The error is the first that is not, of `--left` and then of `--right`.
    ///
    /// ```text
    /// let usage = "usage: lines [OPTION..] FILE..\n  --left N  the characters before the first break\n";
    /// let arguments = read(alloc, usage, &["--left", "4"])?;
    /// let adjustments = Adjustments::from_arguments(&arguments)?;      // adjustments.left: 4
    /// ```
    pub fn from_arguments(arguments: &Arguments<'w>) -> Result<Adjustments<'w>, BadArgument<'w>>
        ensures parsed { IfOk result (λ adjustments.
            adjustments_of (given_options arguments.now) ≡ Ok (as_adjustments adjustments)) }
        ensures refused { IfErr result (λ bad. adjustments_of (given_options arguments.now) ≡ Err (as_refused bad)) }
    {
        let left = minimum_given(arguments, "--left")?;
        let right = minimum_given(arguments, "--right")?;
        Ok(Adjustments {
            exceptions: list_given(arguments),
            left,
            right,
        })
    }
}

// Returns the failure that the list at a path is refused.
fn refused(alloc: Global, path: &str, cause: ListRefusal) -> Failure
    ensures { IsListRefusal path.now cause result }
{
    match String::from_str(alloc, path) {
        Ok(path) => Failure::Exceptions { path, cause },
        Err(_) => Failure::Memory,
    }
}

// Returns the failure that the list at a path can't be opened or read.
fn unread(alloc: Global, path: &str, e: &io::Error) -> Failure
    ensures { IsListRefusal path.now Unread result }
{
    if is_out_of_memory(e) {
        return Failure::Memory;
    }
    refused(alloc, path, ListRefusal::Unread)
}

// Returns the bytes of the list at a path. `None` if there is no such file.
#[tactic(auto, using(crate::proofs::Files::not_there))]
fn list_if_there<F: NamedFiles>(
    files: &F,
    alloc: Global,
    path: &str,
) -> Result<Option<Vec<u8>>, Failure>
    ensures found { IfOk result (AreBytesIfThere (F.bytes files.now path.now)) }
    ensures unread { IfErr result (IsListRefusal path.now Unread) }
    ensures there { OnErr result (F.bytes files.now path.now ≢ Some None) }
{
    let mut file = match files.open(path) {
        Ok(file) => file,
        Err(e) => {
            if matches!(e.kind(), ErrorKind::NotFound) {
                return Ok(None);
            }
            return Err(unread(alloc, path, &e));
        }
    };
    match read_all(alloc, &mut file) {
        Ok(bytes) => Ok(Some(bytes)),
        Err(e) => Err(unread(alloc, path, &e)),
    }
}

// Returns a dictionary with the exceptions of the list at a path, which has these bytes.
fn with_list(
    alloc: Global,
    path: &str,
    bytes: &[u8],
    dictionary: AnyDictionary,
) -> Result<AnyDictionary, Failure>
    ensures no_fault { OnOk result (list_fault bytes.now ≡ None) }
    ensures listed { IfOk result (λ d. d ≡ with_exceptions dictionary bytes.now) }
    ensures fault { IfErr result (HasFault path.now (list_fault bytes.now)) }
{
    match add_exceptions_to_any(alloc, dictionary, bytes) {
        Ok(dictionary) => Ok(dictionary),
        Err(FileError::Memory) => Err(Failure::Memory),
        Err(FileError::OnLine(line, cause)) => {
            Err(refused(alloc, path, ListRefusal::OnLine { line, cause }))
        }
    }
}

// Returns a dictionary with the exceptions of the first list that is there.
fn with_first_list<F: NamedFiles>(
    files: &F,
    alloc: Global,
    paths: &[String],
    dictionary: AnyDictionary,
) -> Result<AnyDictionary, Failure>
    ensures added { IfOk result (GetsFirstList (F.bytes files.now) (map string_bytes paths.now) dictionary) }
    ensures failure { IfErr result (IsRefusedFirstList (F.bytes files.now) (map string_bytes paths.now)) }
{
    match paths.split_first() {
        Some((path, rest)) => match list_if_there(files, alloc, path)? {
            Some(bytes) => with_list(alloc, path, &bytes, dictionary),
            None => with_first_list(files, alloc, rest, dictionary),
        },
        None => Ok(dictionary),
    }
}

// Returns a dictionary with the exceptions of the list at a path, if there is a path.
fn with_given_list<F: NamedFiles>(
    files: &F,
    alloc: Global,
    path: Option<&str>,
    dictionary: AnyDictionary,
) -> Result<AnyDictionary, Failure>
    ensures added { IfOk result (GetsListIfGiven (F.bytes files.now) (option_map (λ p. p.now) path.entry) dictionary) }
    ensures failure { IfErr result (IsRefusedIfGiven (F.bytes files.now) (option_map (λ p. p.now) path.entry)) }
{
    let Some(path) = path else {
        return Ok(dictionary);
    };
    match list_if_there(files, alloc, path)? {
        Some(bytes) => with_list(alloc, path, &bytes, dictionary),
        None => Err(refused(alloc, path, ListRefusal::Unread)),
    }
}

/// Returns a dictionary with adjustments.
///
/// It gets the exceptions of the first of these paths at which there is a list, and then those of the list that the
/// adjustments name. So the lines of that list decide. Then its minima are raised to those of the adjustments.
///
/// The error is [`Failure::Exceptions`] if one of these lists can't be opened or read, or has a faulty line, or
/// [`Failure::Memory`].
///
/// ```text
/// adjust(&rt, alloc, &paths, &adjustments, dictionary)?
/// ```
pub fn adjust<F: NamedFiles>(
    files: &F,
    alloc: Global,
    paths: &[String],
    adjustments: &Adjustments<'_>,
    dictionary: AnyDictionary,
) -> Result<AnyDictionary, Failure>
    ensures adjusted { IfOk result (IsAdjusted (F.bytes files.now) (map string_bytes paths.now)
        (as_adjustments adjustments.now) dictionary) }
    ensures failure { IfErr result (IsFailureOfAdjusting (F.bytes files.now) (map string_bytes paths.now)
        (as_adjustments adjustments.now) dictionary) }
{
    let usual = with_first_list(files, alloc, paths, dictionary)?;
    let mut own = with_given_list(files, alloc, adjustments.exceptions, usual)?;
    own.raise_minima(adjustments.left, adjustments.right);
    Ok(own)
}

// Returns the paths at which the list of exceptions of an argument is looked for.
fn exception_paths_for(
    alloc: Global,
    folders: &[&str],
    argument: &str,
) -> Result<Vec<String>, AllocError>
    ensures { IfOk result (λ paths. map string_bytes paths.items
        ≡ exception_paths_for (texts_now folders.now) argument.now) }
{
    if is_path(argument) {
        return Ok(Vec::new(alloc));
    }
    exception_paths_of(alloc, folders, argument)
}

/// Returns the dictionary that an argument names, with adjustments.
///
/// The dictionary is that of [`load_dictionary`]. If the argument is the tag of a language, the dictionary gets the
/// exceptions of the first path that [`language_search::exception_paths_of`] gives at which there is a list. Then it gets
/// those of the list that the adjustments name, and their minima.
///
/// The errors are those of [`load_dictionary`] and then of [`adjust`].
///
/// ```text
/// load_adjusted(&rt, alloc, &folders, "de", &adjustments)?      // FOLDER/de-1996.txt with FOLDER/de.exceptions
/// ```
#[tactic(auto, using(crate::proofs::Adjusting::loading_fails))]
pub fn load_adjusted<F: NamedFiles>(
    files: &F,
    alloc: Global,
    folders: &[&str],
    argument: &str,
    adjustments: &Adjustments<'_>,
) -> Result<AnyDictionary, Failure>
    ensures loaded { IfOk result (IsAdjustedOf (F.bytes files.now) (texts_now folders.now) argument.now
        (as_adjustments adjustments.now)) }
    ensures failure { IfErr result (IsFailureOfAdjusted (F.bytes files.now) (texts_now folders.now) argument.now
        (as_adjustments adjustments.now)) }
    ensures cause { IfErr result HasOwnCause }
{
    let dictionary = load_dictionary(files, alloc, folders, argument)?;
    let paths = exception_paths_for(alloc, folders, argument)?;
    adjust(files, alloc, &paths, adjustments, dictionary)
}
