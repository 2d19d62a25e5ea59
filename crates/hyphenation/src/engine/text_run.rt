//! A run over a whole text, by its steps.

ghost use Rattle.std.specs.Prelude.{◌≡◌, ◌≢◌, IfErr, IfOk, IfSome, OnOk, fold};
ghost use Rattle.std.specs.Io.KnownBytes.{IsAtEnd};
ghost use Rattle.std.specs.IoError.{error_kind};
ghost use Rattle.std.specs.String.{string_bytes};
ghost use Rattle.any_dictionary.specs.Dictionaries.{edited, kind_by};
ghost use Rattle.hyphenation_breaks.specs.Borrowed.{texts_now};
ghost use Rattle.hyphenation.specs.Engine.{marked_output, RunReturns, BeforeReading, JudgesDictionary, JudgesEdits, JudgesText};
ghost use Rattle.hyphenation.specs.Engine.{IsInputError, IsTextError, IsUnwritten, HidesNoOutOfMemory};
ghost use Rattle.hyphenation.specs.Private.Engine.{IsEditError};

use super::{Marking, RunError, load};
use any_dictionary::AnyDictionary;
use hyphenation_breaks::language::Language;
use hyphenation_grammar::form::Kind;
use hyphenation_load::{is_out_of_memory, read_all};
use std::alloc::Global;
use std::io;
use std::io::{ErrorKind, Read};

// Does edits, from first to last, up to the first one that is refused.
fn edit_all(dictionary: &mut AnyDictionary, alloc: Global, edits: &[&str]) -> Result<(), RunError>
    ensures judged { JudgesEdits (kind_by dictionary.old) (texts_now edits.now) result }
    ensures edit_error { IfErr result IsEditError }
    ensures done { OnOk result (dictionary.new ≡ fold edited dictionary.old (texts_now edits.now)) }
{
    for (index, edit) in edits.iter().enumerate() {
        if !dictionary.edit(alloc, edit)? {
            return Err(RunError::Edit(index + 1));
        }
    }
    Ok(())
}

// An error of reading the input as an error of a run.
fn input_error(e: io::Error) -> RunError
    ensures out_of_memory { error_kind e ≡ ErrorKind.OutOfMemory → result ≡ RunError.Memory }
    ensures other { error_kind e ≢ ErrorKind.OutOfMemory → result ≡ RunError.Input e }
    ensures input_error { IsInputError result }
{
    if is_out_of_memory(&e) {
        return RunError::Memory;
    }
    RunError::Input(e)
}

// All bytes that an input has left.
fn read_bytes<I: Read>(alloc: Global, input: &mut I) -> Result<Vec<u8>, RunError>
    ensures read { IfOk result (λ read. IfSome (I.remaining input.old) (λ bytes. read.items ≡ bytes)) }
    ensures read_to_end { OnOk result (IsAtEnd (I.remaining input.new)) }
    ensures input_error { IfErr result IsInputError }
{
    read_all(alloc, input).map_err(input_error)
}

/// Returns all that an input has left, as a text.
///
/// The errors are [`RunError::Input`] if it can't be read, [`RunError::TextNotUtf8`], and [`RunError::Memory`]. How
/// far the input was read after an error is not said.
///
/// ```text
/// let text = read_input(alloc, &mut rt.stdin())?;
/// ```
pub fn read_input<I: Read>(alloc: Global, input: &mut I) -> Result<String, RunError>
    ensures text { JudgesText (I.remaining input.old) result }
    ensures read { IfOk result (λ text. IfSome (I.remaining input.old) (λ bytes. string_bytes text ≡ bytes)) }
    ensures read_to_end { OnOk result (IsAtEnd (I.remaining input.new)) }
    ensures text_error { IfErr result IsTextError }
{
    let bytes = read_bytes(alloc, input)?;
    match String::from_utf8(bytes) {
        Ok(text) => Ok(text),
        Err(_) => Err(RunError::TextNotUtf8),
    }
}

/// Returns the text of an input, hyphenated by the dictionary of that kind and language that a reader's bytes give, after
/// edits.
pub(super) fn run_text<D: Read, I: Read>(
    alloc: Global,
    kind: Kind,
    lang: Language,
    marking: Marking<'_>,
    reader: &mut D,
    input: &mut I,
) -> Result<String, RunError>
    ensures dictionary { JudgesDictionary kind lang (D.remaining reader.old) result }
    ensures edits { JudgesEdits kind (texts_now marking.entry.edits.now) result }
    ensures text { JudgesText (I.remaining input.old) result }
    ensures output { RunReturns string_bytes result (marked_output kind marking.entry)
        (D.remaining reader.old) (I.remaining input.old) }
    ensures unwritten { IfErr result IsUnwritten }
    ensures unread { BeforeReading result (input.new ≡ input.old) }
    ensures not_out_of_memory { IfErr result HidesNoOutOfMemory }
{
    let mut dictionary = load(alloc, kind, lang, reader)?;
    edit_all(&mut dictionary, alloc, marking.edits)?;
    let text = read_input(alloc, input)?;
    Ok(dictionary.hyphenated(alloc, &text, marking.mark)?)
}
