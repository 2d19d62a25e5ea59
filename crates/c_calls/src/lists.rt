//! The breaks of a list of words, in one call.
//!
//! The words are side by side in a text, and each has its end in the text. The places of their breaks come back
//! likewise.

ghost use Rattle.std.specs.Prelude.{◌≡◌, IfOk, IfErr, OnOk, map};
ghost use Rattle.any_dictionary.specs.Dictionaries.{all_places_by};
ghost use Rattle.c_calls.specs.Contents.{dictionary_of};
ghost use Rattle.c_calls.specs.Lists.{AreEnds, AreUtf8, words_of, places_of_all, ends_of_places};
ghost use Rattle.c_calls.specs.Lists.{IsNoList, ListsWords};
ghost use Rattle.c_calls.specs.Statuses.{into};

use crate::buffers::fill_buffers;
use crate::content::Loaded;
use crate::statuses::{BAD_ENDS, NOT_UTF8, OUT_OF_MEMORY};
use crate::utf8::word_of;
use any_dictionary::AnyDictionary;
use std::alloc::{AllocError, Global};

/// A list of words, as C hands it over: they are side by side in a text, and each has its end in it.
#[derive(Clone, Copy)]
pub struct WordList<'t> {
    /// The text.
    pub text: &'t [u8],
    /// The ends of the words, in bytes.
    pub ends: &'t [usize],
}

/// Why a text and ends are no list of words.
#[derive(Drop)]
pub enum NoList {
    /// Memory was refused.
    Memory,
    /// A word is not UTF-8.
    NotUtf8,
    /// A word ends before it begins, or after the text.
    BadEnds,
}

impl From<AllocError> for NoList {
    ghost use Rattle.std.specs.Prelude.{◌≡◌};
    ghost use Rattle.c_calls.specs.declared.lists.NoList.TheVariants.{Memory};

    ghost from_gives = { λ _ e. e ≡ Memory };

    fn from(_error: AllocError) -> NoList {
        NoList::Memory
    }
}

// The words of a text, by their ends.
fn words_of<'t>(alloc: Global, text: &'t [u8], ends: &[usize]) -> Result<Vec<&'t str>, NoList>
    ensures ends { OnOk result (AreEnds text.now ends.now) }
    ensures utf8 { OnOk result (AreUtf8 text.now ends.now) }
    ensures words { IfOk result (λ words. map (λ word. word.now) words.items ≡ words_of text.now ends.now) }
    ensures no_list { IfErr result (λ why. IsNoList why text.now ends.now) }
{
    let mut words = Vec::with_capacity(alloc, ends.len())?;
    let mut begin: usize = 0;
    for end in ends {
        let Some(bytes) = text.get(begin..*end) else {
            return Err(NoList::BadEnds);
        };
        let Some(word) = word_of(bytes) else {
            return Err(NoList::NotUtf8);
        };
        if words.push(word).is_err() {
            return Err(NoList::Memory);
        }
        begin = *end;
    }
    Ok(words)
}

// The places of the breaks of words, one word after the other, and of each word the end of its places.
fn places_of_words(
    dictionary: &AnyDictionary,
    alloc: Global,
    words: &[&str],
) -> Result<(Vec<usize>, Vec<usize>), AllocError>
    ensures places { IfOk result (λ found.
        found.0.items ≡ places_of_all (all_places_by dictionary.now) (map (λ word. word.now) words.now)) }
    ensures ends { IfOk result (λ found.
        found.1.items ≡ ends_of_places (all_places_by dictionary.now) (map (λ word. word.now) words.now)) }
{
    let mut places = Vec::new(alloc);
    let mut ends = Vec::with_capacity(alloc, words.len())?;
    let mut found = Vec::new(alloc);
    for word in words {
        dictionary.places_into(alloc, word, &mut found)?;
        places.extend_from_slice(&found)?;
        ends.push(places.len())?;
    }
    Ok((places, ends))
}

/// Writes the places of the breaks of a list of words to one buffer, and the ends of the words' places to another one.
/// It returns the status. If one of them is too short, both are unchanged.
#[tactic(auto, using(crate::proofs::WordLists::lists_found))]
pub fn write_breaks_of_words(
    loaded: &Loaded,
    alloc: Global,
    words: WordList<'_>,
    list: &mut [usize],
    count: &mut usize,
    last: &mut [usize],
    size: &mut usize,
) -> u32
    ensures { ListsWords (dictionary_of loaded.now) words.entry (into list.old list.new count.old count.new)
        (into last.old last.new size.old size.new) result }
{
    let words = match words_of(alloc, words.text, words.ends) {
        Ok(words) => words,
        Err(NoList::Memory) => return OUT_OF_MEMORY,
        Err(NoList::NotUtf8) => return NOT_UTF8,
        Err(NoList::BadEnds) => return BAD_ENDS,
    };
    let Ok((places, places_ends)) = places_of_words(&loaded.dictionary, alloc, &words) else {
        return OUT_OF_MEMORY;
    };
    fill_buffers(&places, list, count, &places_ends, last, size)
}
