//! Dictionaries that are made of TeX files of patterns, and of plain ones.

ghost use Rattle.std.specs.Prelude.{◌≡◌, ℕ, List, None, Some, IfOk, IfErr, OnOk};
ghost use Rattle.hyphenation_breaks.specs.Language.{IsCode};
ghost use Rattle.pattern_results.specs.Errors.{IsConvertError};
ghost use Rattle.tex_files.specs.Converting.{fault_from};
ghost use Rattle.c_calls.specs.Contents.{held_in};
ghost use Rattle.c_calls.specs.TexFiles.{form_numbered, files_of, files_given, HoldsFiles, IsNoDictionary};

use crate::content::Content;
use crate::patterns::GivenMinima;
use any_dictionary::AnyDictionary;
use hyphenation_breaks::language::Language;
use hyphenation_grammar::form::Kind;
use pattern_results::errors::{ConvertError, FileCause};
use std::alloc::Global;
use std::str;
use tex_files::convert::convert;
use tex_files::group::{File, FileForm, Group};
use tex_files::head_minima::minima_for;

/// Why files give no dictionary.
#[derive(Drop)]
pub enum NoDictionary {
    /// Memory was refused.
    Memory,
    /// The code of the language is not UTF-8.
    NotUtf8,
    /// The language is no code.
    NotCode,
    /// A minimum is neither given nor in the head of a file.
    NoMinima,
    /// The first fault: the file, counted from 0, its line, counted from 1, and the cause.
    Fault(usize, usize, FileCause),
}

/// Returns the form of a number: 0 is a TeX file, and 1 a plain file of patterns.
pub fn form_numbered(number: u32) -> Option<FileForm>
    ensures { result ≡ form_numbered number }
{
    match number {
        0 => Some(FileForm::Tex),
        1 => Some(FileForm::Plain(Group::Patterns)),
        _ => None,
    }
}

// The dictionary of a kind that files give.
#[tactic(auto, unfolding(crate::specs::TexFiles::files_given))]
fn dictionary_of_files(
    alloc: Global,
    kind: Kind,
    language: Language,
    minima: (u8, u8),
    files: &[File<'_>],
) -> Result<AnyDictionary, ConvertError>
    ensures good { OnOk result (fault_from 0 files.now ≡ None) }
    ensures contents { IfOk result (λ dictionary. dictionary ≡ files_given kind language minima files.now) }
    ensures refused { IfErr result (λ error. IsConvertError error (fault_from 0 files.now)) }
{
    let (left, right) = minima;
    match kind {
        Kind::Standard => Ok(AnyDictionary::Standard(convert(
            alloc, language, left, right, files,
        )?)),
        Kind::Extended => Ok(AnyDictionary::Extended(convert(
            alloc, language, left, right, files,
        )?)),
    }
}

// The dictionary of a kind that files give, in a box. If a file is faulty and minima are missing, the error is the fault.
#[tactic(auto, using(crate::proofs::OfFiles::minimum_missing))]
fn boxed_from_files(
    alloc: Global,
    kind: Kind,
    language: Language,
    minima: GivenMinima,
    files: &[File<'_>],
) -> Result<Box<Content>, NoDictionary>
    ensures good { OnOk result (fault_from 0 files.now ≡ None) }
    ensures contents { IfOk result (λ boxed.
        HoldsFiles kind language minima.left minima.right files.now (Some (held_in boxed.value))) }
    ensures refused { (code : List ℕ) → IfErr result (λ why. IsNoDictionary why code minima.left minima.right files.now) }
{
    let found = minima_for(minima.left, minima.right, files);
    match dictionary_of_files(alloc, kind, language, found.unwrap_or((0, 0)), files) {
        Ok(dictionary) => {
            let Some(_) = found else {
                return Err(NoDictionary::NoMinima);
            };
            match Content::of_dictionary(alloc, dictionary) {
                Ok(boxed) => Ok(boxed),
                Err(_) => Err(NoDictionary::Memory),
            }
        }
        Err(ConvertError::Memory) => Err(NoDictionary::Memory),
        Err(ConvertError::Fault { file, line, cause }) => Err(NoDictionary::Fault(
            file, line, cause,
        )),
    }
}

/// Makes a dictionary of a kind from a file of patterns and a plain file of exceptions, in a box.
///
/// A minimum that is not given is the one in the head of the file of patterns.
pub fn load_patterns(
    alloc: Global,
    kind: Kind,
    code: &[u8],
    minima: GivenMinima,
    form: FileForm,
    bytes: &[u8],
    exceptions: &[u8],
) -> Result<Box<Content>, NoDictionary>
    ensures code { OnOk result (IsCode code.now) }
    ensures good { OnOk result (fault_from 0 (files_of form bytes.entry exceptions.entry) ≡ None) }
    ensures contents { IfOk result (λ x. HoldsFiles kind code.now minima.left minima.right
        (files_of form bytes.entry exceptions.entry) (Some (held_in x.value))) }
    ensures no_dictionary { IfErr result (λ why. IsNoDictionary why code.now minima.left minima.right
        (files_of form bytes.entry exceptions.entry)) }
{
    let Ok(code) = str::from_utf8(code) else {
        return Err(NoDictionary::NotUtf8);
    };
    let Some(language) = Language::from_code(code) else {
        return Err(NoDictionary::NotCode);
    };
    let files = [
        File { form, bytes },
        File {
            form: FileForm::Plain(Group::Exceptions),
            bytes: exceptions,
        },
    ];
    boxed_from_files(alloc, kind, language, minima, &files)
}
