//! Dictionaries made of their parts and taken apart again, for the crates that read and write dictionary texts.
//!
//! No search calls this module, and no crate exports it to users.

ghost use Rattle.std.specs.Prelude.{◌≡◌, IfOk};
ghost use Rattle.std.specs.FinMap as finite;
ghost use Rattle.hyphenation_breaks.specs.Invariant.{IsDictionary};
ghost use Rattle.hyphenation_dictionary.specs.Parts.{contents_of_parts, pair_views};
ghost use Rattle.hyphenation_trie.specs.Keys.{key_views};
ghost use Rattle.hyphenation_trie.specs.Trie.{EachBeginsKey};

use crate::dictionary::Dictionary;
use crate::exceptions::Exceptions;
use hyphenation_breaks::breaks::Break;
use hyphenation_breaks::entry::{Entry, Payload};
use hyphenation_breaks::language::Language;
use hyphenation_trie::Automaton;
use hyphenation_trie::parts::keys_of;
use hyphenation_trie::table::make_table;
use std::alloc::{AllocError, Global};

/// Makes the dictionary of these parts, and its table of steps; `left` and `right` are the minima, in characters.
///
/// The parts must meet the invariant of a dictionary. Each node of the automaton but the root must begin a key. The only
/// error is out of memory.
pub fn dictionary_of<C: Payload, B: Break>(
    alloc: Global,
    language: Language,
    left: u8,
    right: u8,
    patterns: Automaton<Entry<C>>,
    exceptions: Exceptions<B>,
) -> Result<Dictionary<C, B>, AllocError>
    requires begins { EachBeginsKey patterns }
    requires invariant { IsDictionary C.change_of B.meaning
        (contents_of_parts language left right patterns exceptions) }
    ensures { IfOk result (λ dictionary. dictionary ≡ contents_of_parts language left right patterns exceptions) }
{
    let table = make_table(alloc, &patterns)?;
    Ok(Dictionary {
        language,
        left,
        right,
        patterns,
        table,
        exceptions,
    })
}

/// Returns the keys of a dictionary with their entries, in no particular order; the first of equal keys counts.
///
/// The only error is out of memory.
pub fn keys<C: Payload, B: Break>(
    dictionary: &Dictionary<C, B>,
    alloc: Global,
) -> Result<Vec<(Vec<u8>, &[Entry<C>])>, AllocError>
    ensures { IfOk result (λ keys. finite.from_entries (key_views keys.items) ≡ dictionary.now.patterns) }
{
    keys_of(&dictionary.patterns, alloc)
}

/// Returns the exceptions of a dictionary with their listed breaks, in no particular order; the first of equal words
/// counts.
///
/// The only error is out of memory.
pub fn words<C: Payload, B: Break>(
    dictionary: &Dictionary<C, B>,
    alloc: Global,
) -> Result<Vec<(&[u8], &[B])>, AllocError>
    ensures { IfOk result (λ words. finite.from_entries (pair_views words.items) ≡ dictionary.now.exceptions) }
{
    dictionary.exceptions.pairs(alloc)
}
