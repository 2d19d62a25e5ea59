//! Loading dictionaries, of a given kind or of the one that the first lines of their texts name, and writing them.

ghost use Rattle.std.specs.Prelude.{◌≡◌, IfErr, IfOk, List, None, ℕ, MatchResult, OnOk};
ghost use Rattle.hyphenation_grammar.specs.Judging.{refusal_of};
ghost use Rattle.hyphenation_load.specs.Load.{Loads, IsNotIo};
ghost use Rattle.hyphenation_reader.specs.Refusals.{IsRefusal};
ghost use Rattle.any_dictionary.specs.Dictionaries.{contents_as, contents_of, language_by, refusal_by_head};
ghost use Rattle.any_dictionary.specs.Private.Loading.{ChecksLanguage};

use crate::AnyDictionary;
use crate::kinds::kind_in;
use crate::laws::accepted_texts_name_their_kind;
use hyphenation_breaks::language::Language;
use hyphenation_dictionary::dictionary::{Extended, Standard};
use hyphenation_grammar::form::Kind;
use hyphenation_load::{Error, Load, Result, error_of_reading, open_dictionary, read_all};
use hyphenation_reader::reader::{Refusal, read_extended, read_standard};
use named_files::NamedFiles;
use std::alloc::{AllocError, Global};
use std::io;
use std::io::{Read, Write};

// Returns the dictionary of a text, of the kind that its first line names.
fn from_text(alloc: Global, text: Vec<u8>) -> Result<AnyDictionary>
    ensures loaded { Loads (refusal_by_head text.items) (contents_of text.items) result }
    ensures no_io_error { IsNotIo result }
{
    match kind_in(&text) {
        Kind::Standard => Ok(AnyDictionary::Standard(Standard::from_read(alloc, Ok(text))?)),
        Kind::Extended => Ok(AnyDictionary::Extended(Extended::from_read(alloc, Ok(text))?)),
    }
}

// Returns the dictionary, if it is of that language.
fn of_language(lang: Language, dictionary: AnyDictionary) -> Result<AnyDictionary>
    ensures { ChecksLanguage lang dictionary result }
{
    let found = dictionary.language();
    if found != lang {
        return Err(Error::LanguageMismatch {
            expected: lang,
            found,
        });
    }
    Ok(dictionary)
}

impl AnyDictionary {
    /// Reads a dictionary of that kind, of any language, from its text.
    ///
    /// A text of the other kind is refused for its first line. The error is the first fault of the text, or out of memory.
    ///
    /// ```text
    /// AnyDictionary::read(alloc, Kind::Extended, b"hyphenation 1 extended\nlanguage hu\nminima 2 2\n")?
    /// ```
    pub fn read(
        alloc: Global,
        kind: Kind,
        text: &[u8],
    ) -> std::result::Result<AnyDictionary, Refusal>
        ensures accepted { OnOk result (refusal_of kind text.now ≡ None) }
        ensures contents { IfOk result (λ dictionary. dictionary ≡ contents_as kind text.now) }
        ensures refused { IfErr result (λ refusal. IsRefusal refusal (refusal_of kind text.now)) }
    {
        match kind {
            Kind::Standard => Ok(AnyDictionary::Standard(read_standard(alloc, text)?)),
            Kind::Extended => Ok(AnyDictionary::Extended(read_extended(alloc, text)?)),
        }
    }
}

impl Load for AnyDictionary {
    ghost use Rattle.any_dictionary.specs.Dictionaries.{canonical_text, contents_of, language_by, refusal_by_head};

    ghost refusal = { refusal_by_head };

    ghost contents = { contents_of };

    ghost language = { language_by };

    ghost canonical = { canonical_text };

    fn from_read(alloc: Global, read: io::Result<Vec<u8>>) -> Result<AnyDictionary> {
        match read {
            Ok(text) => from_text(alloc, text),
            Err(e) => Err(error_of_reading(e)),
        }
    }

    fn any_from_reader<R: Read>(alloc: Global, reader: &mut R) -> Result<AnyDictionary> {
        match read_all(alloc, reader) {
            Ok(text) => from_text(alloc, text),
            Err(e) => Err(error_of_reading(e)),
        }
    }

    fn from_reader<R: Read>(
        alloc: Global,
        lang: Language,
        reader: &mut R,
    ) -> Result<AnyDictionary> {
        of_language(lang, Self::any_from_reader(alloc, reader)?)
    }

    fn from_path<F: NamedFiles>(
        rt: &F,
        alloc: Global,
        lang: Language,
        path: &str,
    ) -> Result<AnyDictionary> {
        let mut file = open_dictionary(rt, path)?;
        Self::from_reader(alloc, lang, &mut file)
    }

    fn to_text(&self, alloc: Global) -> std::result::Result<Vec<u8>, AllocError> {
        accepted_texts_name_their_kind();
        match self {
            AnyDictionary::Standard(standard) => standard.to_text(alloc),
            AnyDictionary::Extended(extended) => extended.to_text(alloc),
        }
    }

    fn to_writer<W: Write>(&self, alloc: Global, writer: &mut W) -> Result<()> {
        accepted_texts_name_their_kind();
        match self {
            AnyDictionary::Standard(standard) => standard.to_writer(alloc, writer),
            AnyDictionary::Extended(extended) => extended.to_writer(alloc, writer),
        }
    }
}
