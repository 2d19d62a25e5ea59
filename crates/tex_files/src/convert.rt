//! TeX files and plain ones, made into a dictionary.

ghost use Rattle.std.specs.Prelude.{◌≡◌, ◌↔◌, [], IsTrue, IfOk, OnOk, IfErr, None};
ghost use Rattle.tex_files.specs.Converting.{words_spelt, one_after_other, spelt_in, empty_fault, file_fault, fault_from, contents_of_files, words_of};
ghost use Rattle.tex_files.specs.Notes.{notes_of_files};
ghost use Rattle.pattern_results.specs.Errors.{IsFileError, IsConvertError};

use crate::group::{File, FileForm, Group};
use crate::tex::words_of;
use crate::word_notes::notes_of;
use crate::words::take_words;
use hyphenation_breaks::entry::{Listing, Payload};
use hyphenation_breaks::language::Language;
use hyphenation_dictionary::dictionary::Dictionary;
use pattern_results::converted::Converted;
use pattern_results::dictionary_parts::DictionaryParts;
use pattern_results::errors::{ConvertError, FileCause, FileError};
use std::alloc::Global;

// Whether a file of that form may have no words: a language may have no exceptions.
fn may_be_empty(form: FileForm) -> bool
    ensures { IsTrue result ↔ (empty_fault form [] ≡ None) }
{
    match form {
        FileForm::Plain(Group::Exceptions) => true,
        FileForm::Plain(Group::Patterns) | FileForm::Tex => false,
    }
}

// Appends the keys and words of a file. An error names the file's first fault, or is out of memory.
fn take_file<C: Payload, B: Listing>(
    alloc: Global,
    parts: &mut DictionaryParts<C, B>,
    form: FileForm,
    bytes: &[u8],
) -> Result<(), FileError>
    ensures no_fault { OnOk result (file_fault form bytes.now ≡ None) }
    ensures appended { OnOk result (parts.new
        ≡ one_after_other parts.old (words_spelt C.payload_of B.listing_of (words_of form bytes.now))) }
    ensures first_fault { IfErr result (λ error. IsFileError error (file_fault form bytes.now)) }
{
    let (words, fault) = words_of(alloc, form, bytes)?;
    take_words(alloc, parts, &words)?;
    match fault {
        Some((line, cause)) => Err(FileError::OnLine(line, cause)),
        None if words.is_empty() && !may_be_empty(form) => Err(FileError::OnLine(
            1,
            FileCause::Nothing,
        )),
        None => Ok(()),
    }
}

// Appends the keys and words of files, one file after the other. An error names the first fault, or is out of memory.
#[tactic(auto, using(crate::proofs::Gathering::file_taken))]
fn take_files<C: Payload, B: Listing>(
    alloc: Global,
    parts: &mut DictionaryParts<C, B>,
    files: &[File<'_>],
) -> Result<(), ConvertError>
    ensures no_fault { OnOk result (fault_from 0 files.now ≡ None) }
    ensures appended { OnOk result (parts.new
        ≡ one_after_other parts.old (spelt_in C.payload_of B.listing_of files.now)) }
    ensures first_fault { IfErr result (λ error. IsConvertError error (fault_from 0 files.now)) }
{
    let mut number: usize = 0;
    for file in files {
        match take_file(alloc, parts, file.form, file.bytes) {
            Ok(()) => {}
            Err(FileError::Memory) => return Err(ConvertError::Memory),
            Err(FileError::OnLine(line, cause)) => return Err(ConvertError::Fault {
                file: number,
                line,
                cause,
            }),
        }
        number += 1;
    }
    Ok(())
}

/// Makes a dictionary of files, one after the other: TeX files, and plain ones.
///
/// Each pattern of their groups gives a key with its values, and each exception a word with its breaks, in small
/// letters. If a key or a word comes several times, the last one counts. `left` and `right` are the least numbers of
/// characters before and after a break.
///
/// An error is the first fault: the file, its line, and the first test that a word there fails. Out of memory says
/// nothing of the files.
pub fn convert<C: Payload, B: Listing>(
    alloc: Global,
    language: Language,
    left: u8,
    right: u8,
    files: &[File<'_>],
) -> Result<Dictionary<C, B>, ConvertError>
    ensures no_fault { OnOk result (fault_from 0 files.now ≡ None) }
    ensures contents { IfOk result (λ d. d
        ≡ contents_of_files C.payload_of B.listing_of language left right files.now) }
    ensures first_fault { IfErr result (λ error. IsConvertError error (fault_from 0 files.now)) }
{
    let mut parts = DictionaryParts::new(alloc);
    take_files(alloc, &mut parts, files)?;
    Ok(parts.make(alloc, language, left, right)?)
}

/// Makes the dictionary that [`convert`] makes, and adds notes: what was decided, each kind with its first line and how
/// often it was. The errors are those of [`convert`].
pub fn convert_with_notes<C: Payload, B: Listing>(
    alloc: Global,
    language: Language,
    left: u8,
    right: u8,
    files: &[File<'_>],
) -> Result<Converted<C, B>, ConvertError>
    ensures no_fault { OnOk result (fault_from 0 files.now ≡ None) }
    ensures contents { IfOk result (λ c. c.dictionary
        ≡ contents_of_files C.payload_of B.listing_of language left right files.now) }
    ensures notes { IfOk result (λ c. c.notes.items ≡ notes_of_files files.now) }
    ensures first_fault { IfErr result (λ error. IsConvertError error (fault_from 0 files.now)) }
{
    let dictionary = convert(alloc, language, left, right, files)?;
    let notes = notes_of(alloc, files)?;
    Ok(Converted { dictionary, notes })
}
