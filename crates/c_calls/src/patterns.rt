//! Dictionaries that are made of files of patterns, as LibreOffice has them.

ghost use Rattle.std.specs.Prelude.{◌≡◌, None, IfOk, IfErr, OnOk, option_map};
ghost use Rattle.std.specs.Str.{IsUtf8};
ghost use Rattle.hyphenation_breaks.specs.Language.{IsCode};
ghost use Rattle.pattern_results.specs.Errors.{IsConvertError};
ghost use Rattle.libreoffice_files.specs.LibreOffice.{contents_of_dic, dic_fault};
ghost use Rattle.c_calls.specs.Contents.{held_in, Dictionary as Held};
ghost use Rattle.c_calls.specs.Patterns.{dic_given, minimum_given, failure_of, pattern_cause_number, IsFailure};

use crate::content::Content;
use any_dictionary::AnyDictionary;
use hyphenation_breaks::entry::{Listing, Payload};
use hyphenation_breaks::language::Language;
use hyphenation_dictionary::dictionary::Dictionary;
use hyphenation_grammar::form::Kind;
use libreoffice_files::dic::convert_dic;
use pattern_results::converted::Converted;
use pattern_results::errors::{ConvertError, FileCause};
use std::alloc::Global;

/// Why a file of patterns gives no dictionary.
#[derive(Drop)]
pub enum Failure {
    /// Memory was refused.
    Memory,
    /// The code of the language is not UTF-8.
    NotUtf8,
    /// The language is no code.
    NotCode,
    /// The first fault of the file: its line, counted from 1, and the cause.
    Fault(usize, FileCause),
}

/// Returns the number of a cause, from 21 on.
pub fn pattern_cause_number(cause: FileCause) -> u32
    ensures { result ≡ pattern_cause_number cause }
{
    match cause {
        FileCause::Command => 21,
        FileCause::Caret => 22,
        FileCause::Symbol => 23,
        FileCause::TwoInOnePlace => 24,
        FileCause::NoLetters => 25,
        FileCause::NotUtf8 => 26,
        FileCause::Input => 27,
        FileCause::Unclosed => 28,
        FileCause::Charset => 29,
        FileCause::NotInCharset => 30,
        FileCause::Minimum => 31,
        FileCause::Nothing => 32,
    }
}

/// The minima that are given for a dictionary. The files say each that is not given.
#[derive(Clone, Copy)]
pub struct GivenMinima {
    /// The least number of characters of a word before its first break.
    pub left: Option<u8>,
    /// The least number of characters of a word after its last break.
    pub right: Option<u8>,
}

/// Returns the minima that two numbers give; a number above 255 gives none.
pub fn minima_given(left: u32, right: u32) -> GivenMinima
    ensures left { result.left ≡ minimum_given left }
    ensures right { result.right ≡ minimum_given right }
{
    GivenMinima {
        left: u8::try_from(left).ok(),
        right: u8::try_from(right).ok(),
    }
}

// The dictionary of a `.dic`, without what there is to note of it.
fn from_dic<C: Payload, B: Listing>(
    alloc: Global,
    language: Language,
    minima: GivenMinima,
    bytes: &[u8],
) -> Result<Dictionary<C, B>, ConvertError>
    ensures good { OnOk result (dic_fault bytes.now ≡ None) }
    ensures contents { IfOk result (λ d. d ≡ contents_of_dic C.change_of C.payload_of language minima.left minima.right bytes.now) }
    ensures refused { IfErr result (λ error.
        IsConvertError error (option_map (λ fault. (0, fault)) (dic_fault bytes.now))) }
{
    let GivenMinima { left, right } = minima;
    let Converted { dictionary, .. } = convert_dic(alloc, language, left, right, bytes)?;
    Ok(dictionary)
}

// The dictionary of a kind that a `.dic` gives.
#[tactic(auto, unfolding(crate::specs::Patterns::dic_given))]
fn dictionary_of_dic(
    alloc: Global,
    kind: Kind,
    language: Language,
    minima: GivenMinima,
    bytes: &[u8],
) -> Result<AnyDictionary, ConvertError>
    ensures good { OnOk result (dic_fault bytes.now ≡ None) }
    ensures contents { IfOk result (λ dictionary. dictionary ≡ dic_given kind language minima.left minima.right bytes.now) }
    ensures refused { IfErr result (λ error.
        IsConvertError error (option_map (λ fault. (0, fault)) (dic_fault bytes.now))) }
{
    match kind {
        Kind::Standard => Ok(AnyDictionary::Standard(from_dic(alloc, language, minima, bytes)?)),
        Kind::Extended => Ok(AnyDictionary::Extended(from_dic(alloc, language, minima, bytes)?)),
    }
}

// The failure that an error of converting is.
fn failure_of(error: ConvertError) -> Failure
    ensures { result ≡ failure_of error }
{
    match error {
        ConvertError::Memory => Failure::Memory,
        ConvertError::Fault {
            file: _,
            line,
            cause,
        } => Failure::Fault(line, cause),
    }
}

/// Makes a dictionary of a kind from a `.dic`, in a box.
#[tactic(auto, using(crate::proofs::Faults::failure_given))]
pub fn load_dic(
    alloc: Global,
    kind: Kind,
    language: &[u8],
    minima: GivenMinima,
    bytes: &[u8],
) -> Result<Box<Content>, Failure>
    ensures code { OnOk result (IsCode language.now) }
    ensures good { OnOk result (dic_fault bytes.now ≡ None) }
    ensures contents { IfOk result (λ boxed.
        held_in boxed.value ≡ Held (dic_given kind language.now minima.left minima.right bytes.now)) }
    ensures failed { IfErr result (λ failure. IsFailure failure language.now (dic_fault bytes.now)) }
{
    let Ok(code) = std::str::from_utf8(language) else {
        return Err(Failure::NotUtf8);
    };
    let Some(language) = Language::from_code(code) else {
        return Err(Failure::NotCode);
    };
    match dictionary_of_dic(alloc, kind, language, minima, bytes) {
        Ok(dictionary) => match Content::of_dictionary(alloc, dictionary) {
            Ok(boxed) => Ok(boxed),
            Err(_) => Err(Failure::Memory),
        },
        Err(error) => Err(failure_of(error)),
    }
}
