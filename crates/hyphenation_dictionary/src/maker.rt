//! Dictionaries made of keys and words.
//!
//! Most dictionaries are read from a dictionary text. A program that has patterns and exceptions in another form makes a
//! dictionary of them here, and can then write its text.

ghost use Rattle.std.specs.Prelude.{◌≡◌, ◌&&◌, ◌↔◌, IsTrue, IfOk, map, All};
ghost use Rattle.std.specs.String.{string_bytes};
ghost use Rattle.hyphenation_dictionary.specs.Parts.{patterns_of};
ghost use Rattle.hyphenation_breaks.specs.Break.{is_boundary};
ghost use Rattle.hyphenation_breaks.specs.Laws.{is_entry};
ghost use Rattle.hyphenation_breaks.specs.Invariant.{are_entries, are_listed};
ghost use Rattle.hyphenation_dictionary.specs.Maker.{map_of_pairs, pair_of, contents_of_pairs, fits_key};
ghost use Rattle.hyphenation_trie.specs.Trie.{EachBeginsKey};

use crate::dictionary::Dictionary;
use crate::exceptions::Exceptions;
use crate::parts::dictionary_of;
use hyphenation_breaks::breaks::lies_in;
use hyphenation_breaks::entry::{Entry, Listing, Payload, has_letter};
use hyphenation_breaks::language::Language;
use hyphenation_breaks::laws::entries_in_order;
use hyphenation_trie::Trie;
use std::alloc::{AllocError, Global};

// Reports whether a key may have an entry. The place must be a character boundary, the value not 0, and the change must
// keep within the key.
fn is_entry<C: Payload>(key: &str, entry: &Entry<C>) -> bool
    ensures { result ≡ (is_boundary key.now entry.now.place && is_entry C.change_of key.now entry.now) }
{
    if entry.value == 0 {
        return false;
    }
    lies_in(key, &(entry.place as usize, entry.change.as_change()))
}

// Reports whether a key may have entries: each of them is allowed, and their places ascend strictly.
fn are_entries<C: Payload>(key: &str, entries: &[Entry<C>]) -> bool
    ensures { result ≡ are_entries C.change_of key.now entries.now }
{
    entries_in_order::<C>();
    let mut least = 0;
    for entry in entries {
        let place = entry.place as usize;
        if place < least {
            return false;
        }
        if !is_entry(key, entry) {
            return false;
        }
        least = place + 1;
    }
    true
}

/// Reports whether a key may have entries.
///
/// The key must have a letter, a byte other than a dot. The places of the entries must ascend strictly. Each place and
/// each end of a range must be a character boundary of the key. No value may be 0. A key may be without entries; it then
/// bears on nothing.
///
/// ```text
/// fits_key(".fi", &[Entry { place: 3, value: 2, change: () }])    // true
/// fits_key::<()>("...", &[])                                      // false: no letter
/// ```
pub fn fits_key<C: Payload>(key: &str, entries: &[Entry<C>]) -> bool
    ensures { IsTrue result ↔ IsTrue (fits_key C.change_of key.now entries.now) }
{
    has_letter(key.as_bytes()) && are_entries(key, entries)
}

// Returns the trie of these keys; the last of equal keys counts. The only error is out of memory.
fn trie_of<C: Payload>(
    alloc: Global,
    patterns: Vec<(String, Vec<Entry<C>>)>,
) -> Result<Trie<Entry<C>>, AllocError>
    ensures keys { IfOk result (λ trie. patterns_of trie ≡ map_of_pairs (map pair_of patterns.items)) }
    ensures begins { IfOk result (λ trie. EachBeginsKey trie) }
{
    let mut trie = Trie::new(alloc)?;
    for (key, mut entries) in patterns {
        trie.invariant();
        trie.insert(key.as_bytes(), &mut entries)?;
        trie.invariant();
    }
    Ok(trie)
}

// Returns the exceptions of these words; the last of equal words counts. The only error is out of memory.
fn map_of<B: Listing>(
    alloc: Global,
    exceptions: Vec<(String, Vec<B>)>,
) -> Result<Exceptions<B>, AllocError>
    ensures { IfOk result (λ words. words ≡ map_of_pairs (map pair_of exceptions.items)) }
{
    let mut words = Exceptions::with_room(alloc, exceptions.len())?;
    for (word, listed) in exceptions {
        drop(words.insert(word, listed)?);
    }
    Ok(words)
}

/// Makes a dictionary of patterns and exceptions. The last of equal keys counts, and the last of equal words.
///
/// `left` and `right` are the least numbers of characters of a word before its first break and after its last one.
/// [`fits_key`] must be true of each key with its entries, and [`Dictionary::fits`] of each word with its breaks. The only
/// error is out of memory.
///
/// ```text
/// let mut entries = Vec::new(alloc);
/// entries.push(Entry { place: 3, value: 2, change: () })?;
/// let mut patterns = Vec::new(alloc);
/// patterns.push((String::from_str(alloc, ".fi")?, entries))?;      // the pattern .fi2
/// let dictionary: Standard = make(alloc, language, 2, 3, patterns, Vec::new(alloc))?;
/// ```
pub fn make<C: Payload, B: Listing>(
    alloc: Global,
    language: Language,
    left: u8,
    right: u8,
    patterns: Vec<(String, Vec<Entry<C>>)>,
    exceptions: Vec<(String, Vec<B>)>,
) -> Result<Dictionary<C, B>, AllocError>
    requires keys { All (λ p. IsTrue (fits_key C.change_of (string_bytes p.0) p.1.items)) patterns.items }
    requires words { All (λ e. IsTrue (are_listed B.meaning (string_bytes e.0) e.1.items)) exceptions.items }
    ensures { IfOk result (λ dictionary. dictionary
        ≡ contents_of_pairs language left right (map pair_of patterns.items) (map pair_of exceptions.items)) }
{
    language.invariant();
    let trie = trie_of(alloc, patterns)?.freeze(alloc)?;
    let words = map_of(alloc, exceptions)?;
    dictionary_of(alloc, language, left, right, trie, words)
}
