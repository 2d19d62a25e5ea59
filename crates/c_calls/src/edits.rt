//! Edits of the exceptions of a dictionary that is loaded, and minima that are raised.

ghost use Rattle.std.specs.Prelude.{◌≡◌, IfErr, IfOk, IsTrue, None, OnErr, OnOk, not};
ghost use Rattle.std.specs.Arc.{arc_value};
ghost use Rattle.any_dictionary.specs.Dictionaries.{edited, kind_by, raised};
ghost use Rattle.hyphenation_reader.specs.Edits.{is_good_edit};
ghost use Rattle.pattern_results.specs.Errors.{IsFileError};
ghost use Rattle.tex_files.specs.ExceptionLists.{list_fault, with_exceptions};
ghost use Rattle.c_calls.specs.Contents.{dictionary_of};
ghost use Rattle.c_calls.specs.ExceptionLists.{AddsTo};
ghost use Rattle.c_calls.specs.Statuses.{EditsDictionary, RaisesMinimaOf};

use crate::content::Loaded;
use crate::patterns::pattern_cause_number;
use crate::statuses::{DONE, NOT_UTF8, OUT_OF_MEMORY, REFUSED};
use any_dictionary::AnyDictionary;
use hyphenation_load::{Error, Load};
use pattern_results::errors::FileError;
use std::alloc::{AllocError, Global};
use std::sync::Arc;
use tex_files::exception_list::add_exceptions_to_any;

// A copy of a dictionary, by its text. The only error is that memory was refused.
fn copy_of(dictionary: &AnyDictionary, alloc: Global) -> Result<AnyDictionary, AllocError>
    ensures { IfOk result (λ copy. copy ≡ dictionary.now) }
{
    let text = dictionary.to_text(alloc)?;
    match AnyDictionary::from_read(alloc, Ok(text)) {
        Ok(copy) => Ok(copy),
        Err(Error::Memory(_)) => Err(AllocError),
        // The text of a dictionary has no fault.
        Err(_) => unreachable!(),
    }
}

// Edits a dictionary: if it has another owner, an edited copy takes its place. Returns whether the edit was good.
fn apply(counted: &mut Arc<AnyDictionary>, alloc: Global, edit: &str) -> Result<bool, AllocError>
    ensures good { IfOk result (λ good. good ≡ is_good_edit (kind_by (arc_value counted.old)) edit.now) }
    ensures done { IfOk result (λ good. IsTrue good
        → arc_value counted.new ≡ edited (arc_value counted.old) edit.now) }
    ensures refused { IfOk result (λ good. IsTrue (not good) → arc_value counted.new ≡ arc_value counted.old) }
    ensures unchanged_on_error { OnErr result (arc_value counted.new ≡ arc_value counted.old) }
{
    if let Some(dictionary) = Arc::get_mut(counted) {
        return dictionary.edit(alloc, edit);
    }
    let mut dictionary = copy_of(&**counted, alloc)?;
    let good = dictionary.edit(alloc, edit)?;
    match Arc::new(alloc, dictionary) {
        Ok(own) => {
            *counted = own;
            Ok(good)
        }
        Err(_) => Err(AllocError),
    }
}

/// Edits the exceptions of a dictionary, and returns the status. With each status but `DONE` it is unchanged.
pub fn edit(loaded: &mut Loaded, alloc: Global, edit: &[u8]) -> u32
    ensures { EditsDictionary (dictionary_of loaded.old) (dictionary_of loaded.new) edit.now result }
{
    let Ok(edit) = std::str::from_utf8(edit) else {
        return NOT_UTF8;
    };
    match apply(&mut loaded.dictionary, alloc, edit) {
        Ok(true) => DONE,
        Ok(false) => REFUSED,
        Err(_) => OUT_OF_MEMORY,
    }
}

// A copy of a dictionary with the exceptions of a list.
fn copy_with_list(
    dictionary: &AnyDictionary,
    alloc: Global,
    text: &[u8],
) -> Result<Arc<AnyDictionary>, FileError>
    ensures no_fault { OnOk result (list_fault text.now ≡ None) }
    ensures listed { IfOk result (λ copy. arc_value copy ≡ with_exceptions dictionary.now text.now) }
    ensures refused { IfErr result (λ error. IsFileError error (list_fault text.now)) }
{
    let copy = copy_of(dictionary, alloc)?;
    let copy = add_exceptions_to_any(alloc, copy, text)?;
    match Arc::new(alloc, copy) {
        Ok(own) => Ok(own),
        Err(_) => Err(FileError::Memory),
    }
}

/// Adds the exceptions of a list to a dictionary, and returns the status. With each status but `DONE` the dictionary is
/// unchanged. A copy with the exceptions takes its place, so that it has all of them or none.
pub fn add_list(
    loaded: &mut Loaded,
    alloc: Global,
    text: &[u8],
    line: &mut usize,
    cause: &mut u32,
) -> u32
    ensures { AddsTo (dictionary_of loaded.old) (dictionary_of loaded.new) text.now (line.old, cause.old)
        (line.new, cause.new) result }
{
    match copy_with_list(&*loaded.dictionary, alloc, text) {
        Ok(own) => {
            loaded.dictionary = own;
            DONE
        }
        Err(FileError::OnLine(at, why)) => {
            *line = at;
            *cause = pattern_cause_number(why);
            REFUSED
        }
        Err(FileError::Memory) => OUT_OF_MEMORY,
    }
}

// Raises the minima of a dictionary: if it has another owner, a copy with them takes its place. The only error is that memory
// was refused.
fn raise(
    counted: &mut Arc<AnyDictionary>,
    alloc: Global,
    left: u8,
    right: u8,
) -> Result<(), AllocError>
    ensures raised { OnOk result (arc_value counted.new ≡ raised left right (arc_value counted.old)) }
    ensures unchanged_on_error { OnErr result (arc_value counted.new ≡ arc_value counted.old) }
{
    if let Some(dictionary) = Arc::get_mut(counted) {
        dictionary.raise_minima(left, right);
        return Ok(());
    }
    let mut dictionary = copy_of(&**counted, alloc)?;
    dictionary.raise_minima(left, right);
    match Arc::new(alloc, dictionary) {
        Ok(raised) => {
            *counted = raised;
            Ok(())
        }
        Err(_) => Err(AllocError),
    }
}

/// Raises the minima of a dictionary to at least these, and returns the status. With each status but `DONE` the dictionary is
/// unchanged.
pub fn raise_minima(loaded: &mut Loaded, alloc: Global, left: u8, right: u8) -> u32
    ensures { RaisesMinimaOf (dictionary_of loaded.old) (dictionary_of loaded.new) left right result }
{
    match raise(&mut loaded.dictionary, alloc, left, right) {
        Ok(()) => DONE,
        Err(_) => OUT_OF_MEMORY,
    }
}
