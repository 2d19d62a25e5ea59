//! Words of groups, read into the parts of a dictionary.

ghost use Rattle.std.specs.Prelude.{◌≡◌, [], ◌∷◌, OnOk, IfErr, None, map};
ghost use Rattle.tex_files.specs.Converting.{words_spelt, one_after_other, first_fault};
ghost use Rattle.tex_files.specs.Private.Views.{word_view, IsWordError};
ghost use Rattle.pattern_results.specs.Errors.{IsFileError};
ghost use Rattle.tex_files.specs.Spelling.{word_cause};

use crate::group::{Group, Word};
use crate::spelling::{read_exception, read_pattern};
use crate::word_error::WordError;
use hyphenation_breaks::entry::{Listing, Payload};
use pattern_results::dictionary_parts::DictionaryParts;
use pattern_results::errors::FileError;
use std::alloc::Global;

// Appends the key or the word that a word of a group spells.
fn take_word<C: Payload, B: Listing>(
    alloc: Global,
    parts: &mut DictionaryParts<C, B>,
    word: &Word,
) -> Result<(), WordError>
    ensures passes_tests { OnOk result (word_cause word.now.group word.now.text.items ≡ None) }
    ensures appended { OnOk result (parts.new ≡ one_after_other parts.old
        (words_spelt C.payload_of B.listing_of (word_view word.now ∷ []))) }
    ensures first_failed_test { IfErr result (λ error. IsWordError error (word_cause word.now.group word.now.text.items)) }
{
    match word.group {
        Group::Patterns => {
            let (key, entries) = read_pattern(alloc, &word.text)?;
            parts.push_pattern(key, entries)?;
        }
        Group::Exceptions => {
            let (text, listed) = read_exception::<C, B>(alloc, &word.text)?;
            parts.push_exception(text, listed)?;
        }
    }
    Ok(())
}

// Appends the keys and words that words of groups spell. An error names the line of the first word that fails a test,
// and that test; it leaves the parts in no promised state.
pub(crate) fn take_words<C: Payload, B: Listing>(
    alloc: Global,
    parts: &mut DictionaryParts<C, B>,
    words: &[Word],
) -> Result<(), FileError>
    ensures pass_tests { OnOk result (first_fault (map word_view words.now) ≡ None) }
    ensures appended { OnOk result (parts.new ≡ one_after_other parts.old
        (words_spelt C.payload_of B.listing_of (map word_view words.now))) }
    ensures first_fault { IfErr result (λ error. IsFileError error (first_fault (map word_view words.now))) }
{
    for word in words {
        match take_word(alloc, parts, word) {
            Ok(()) => {}
            Err(WordError::Memory) => return Err(FileError::Memory),
            Err(WordError::Fails(cause)) => return Err(FileError::OnLine(word.line, cause)),
        }
    }
    Ok(())
}
