//! The texts of inputs: of standard input, and of files.

ghost use Rattle.std.specs.Prelude.{◌≡◌, ◌+◌, ◌<◌, ◌==◌, false, true, IfErr, IfOk, IfSome, IsUtf8, MatchResult, None, OnOk, Some, count_by, length, take};
ghost use Rattle.std.specs.Io.KnownBytes.{IsAtEnd};
ghost use Rattle.std.specs.IoError.{error_kind};
ghost use Rattle.std.specs.Str.{IsValidUpTo};
ghost use Rattle.std.specs.String.{string_bytes};
ghost use Rattle.hyphenation_breaks.specs.Ascii.{line_feed};
ghost use Rattle.named_files.specs.Files.{known_bytes};
ghost use Rattle.command_line.specs.Inputs.{is_standard_input, input_bytes, shown_name};
ghost use Rattle.command_line.specs.Inputs.{IsFailureOfInput, IsNotUtf8From, IsReadingOf, IsTextOf};
ghost use Rattle.command_line.specs.Private.Failures.{IsRefusedText};

use crate::failure::{Failure, InputRefusal};
use hyphenation_load::{is_out_of_memory, read_all};
use named_files::NamedFiles;
use std::alloc::Global;
use std::io;
use std::io::{ErrorKind, Read};

/// Reports whether a name is that of standard input, which is `-`.
pub fn is_standard_input(name: &str) -> bool
    ensures { result ≡ is_standard_input name.now }
{
    name == "-"
}

/// Returns the name of an input as messages have it: `standard input` for `-`, else the path.
pub fn shown_name(name: &str) -> &str
    ensures { result.now ≡ shown_name name.now }
{
    if is_standard_input(name) {
        "standard input"
    } else {
        name
    }
}

// Returns the failure that an input can't be opened or read.
fn unreadable(alloc: Global, name: &str, e: &io::Error) -> Failure
    ensures reading { IsReadingOf name.now result }
    ensures memory { error_kind e.now ≡ ErrorKind.OutOfMemory → result ≡ Failure.Memory }
{
    if is_out_of_memory(e) {
        return Failure::Memory;
    }
    match String::from_str(alloc, shown_name(name)) {
        Ok(input) => Failure::Reading { input },
        Err(_) => Failure::Memory,
    }
}

// Returns the failure that an input is UTF-8 up to that many bytes, and not beyond.
fn not_utf8(alloc: Global, name: &str, bytes: &[u8], valid: usize) -> Failure
    requires invalid { IsUtf8 bytes.now → ⊥ }
    requires up_to { IsValidUpTo bytes.now valid }
    requires within { valid < length bytes.now }
    ensures { IsRefusedText name.now bytes.now result }
{
    let ended = bytes[..valid].iter().filter(|byte| **byte == b'\n').count();
    let cause = InputRefusal::NotUtf8 {
        valid,
        line: ended + 1,
    };
    match String::from_str(alloc, shown_name(name)) {
        Ok(input) => Failure::Refused { input, cause },
        Err(_) => Failure::Memory,
    }
}

// Returns all bytes of an input.
fn read_bytes<F: NamedFiles, I: Read>(
    files: &F,
    alloc: Global,
    name: &str,
    input: &mut I,
) -> Result<Vec<u8>, Failure>
    ensures read { IfOk result (λ bytes. IfSome (input_bytes (F.bytes files.now) (I.remaining input.old) name.now)
        (λ known. bytes.items ≡ known)) }
    ensures failure { IfErr result (IsReadingOf name.now) }
    ensures absent { is_standard_input name.now ≡ false → F.bytes files.now name.now ≡ Some None →
        MatchResult result (λ _. ⊥) (IsReadingOf name.now) }
    ensures unread { is_standard_input name.now ≡ false → input.new ≡ input.old }
    ensures read_to_end { is_standard_input name.now ≡ true → OnOk result (IsAtEnd (I.remaining input.new)) }
{
    if is_standard_input(name) {
        return match read_all(alloc, input) {
            Ok(bytes) => Ok(bytes),
            Err(e) => Err(unreadable(alloc, name, &e)),
        };
    }
    let mut file = match files.open(name) {
        Ok(file) => file,
        Err(e) => return Err(unreadable(alloc, name, &e)),
    };
    match read_all(alloc, &mut file) {
        Ok(bytes) => Ok(bytes),
        Err(e) => Err(unreadable(alloc, name, &e)),
    }
}

// Returns the text of an input that has these bytes.
fn text_of(alloc: Global, name: &str, bytes: Vec<u8>) -> Result<String, Failure>
    ensures text { IfOk result (λ text. IsUtf8 bytes.items × (string_bytes text ≡ bytes.items)) }
    ensures refused { IfErr result (IsRefusedText name.now bytes.items) }
{
    match std::str::from_utf8(&bytes) {
        Ok(_) => {}
        Err(e) => return Err(not_utf8(alloc, name, &bytes, e.valid_up_to())),
    }
    match String::from_utf8(bytes) {
        Ok(text) => Ok(text),
        Err(_) => Err(Failure::Memory),
    }
}

/// Returns the whole text of an input: of standard input if its name is `-`, else of the file at that path.
///
/// The error is [`Failure::Reading`] if it can't be opened or read, [`Failure::Refused`] with the place if it is not
/// UTF-8, or [`Failure::Memory`]. Standard input is read only if it is named.
///
/// ```text
/// read_text(&rt, alloc, "-", &mut rt.stdin())?
/// read_text(&rt, alloc, "examples/firkin.txt", &mut rt.stdin())?
/// ```
pub fn read_text<F: NamedFiles, I: Read>(
    files: &F,
    alloc: Global,
    name: &str,
    input: &mut I,
) -> Result<String, Failure>
    ensures text { IfOk result (λ text. IsTextOf (F.bytes files.now) (I.remaining input.old) name.now (string_bytes text)) }
    ensures failure { IfErr result (IsFailureOfInput (F.bytes files.now) (I.remaining input.old) name.now) }
    ensures absent { is_standard_input name.now ≡ false → F.bytes files.now name.now ≡ Some None →
        MatchResult result (λ _. ⊥) (IsReadingOf name.now) }
    ensures unread { is_standard_input name.now ≡ false → input.new ≡ input.old }
    ensures read_to_end { is_standard_input name.now ≡ true → OnOk result (IsAtEnd (I.remaining input.new)) }
{
    let bytes = read_bytes(files, alloc, name, input)?;
    text_of(alloc, name, bytes)
}
