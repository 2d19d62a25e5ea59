//! The exceptions and the scores of words, for a dictionary that is loaded.

ghost use Rattle.std.specs.Prelude.{IfOk};
ghost use Rattle.c_calls.specs.Contents.{dictionary_of};
ghost use Rattle.c_calls.specs.Numbered.{AreOf, AreOfIfAny, FindsException, FindsScores, listed_by, scores_by};
ghost use Rattle.c_calls.specs.Statuses.{into};

use crate::buffers::fill_buffers;
use crate::content::Loaded;
use crate::numbered::{NumberedChange, NumberedChanges, collected, collected_if_any};
use crate::statuses::{NO_EXCEPTION, NOT_UTF8, OUT_OF_MEMORY};
use any_dictionary::AnyDictionary;
use hyphenation_score::Score;
use std::alloc::{AllocError, Global};

// The breaks that are listed for a word; none if it is no exception.
fn exception_of(
    dictionary: &AnyDictionary,
    alloc: Global,
    word: &str,
) -> Result<Option<NumberedChanges>, AllocError>
    ensures { IfOk result (λ found. AreOfIfAny found (listed_by dictionary.now word.now)) }
{
    match dictionary {
        AnyDictionary::Standard(standard) => collected_if_any(alloc, standard.listed(word)),
        AnyDictionary::Extended(extended) => collected_if_any(alloc, extended.listed(word)),
    }
}

/// Writes the breaks that are listed for a word, and the substitutions of their changes, to the front of two buffers.
///
/// Returns the status, which is `NO_EXCEPTION` for a word that is none. If one of the buffers is too short, both are
/// unchanged.
pub fn write_exception(
    loaded: &Loaded,
    alloc: Global,
    word: &[u8],
    changes: &mut [NumberedChange],
    count: &mut usize,
    text: &mut [u8],
    size: &mut usize,
) -> u32
    ensures { FindsException (dictionary_of loaded.now) word.now
        (into changes.old changes.new count.old count.new) (into text.old text.new size.old size.new) result }
{
    let Ok(word) = std::str::from_utf8(word) else {
        return NOT_UTF8;
    };
    match exception_of(&loaded.dictionary, alloc, word) {
        Ok(Some(found)) => fill_buffers(&found.changes, changes, count, &found.texts, text, size),
        Ok(None) => NO_EXCEPTION,
        Err(_) => OUT_OF_MEMORY,
    }
}

// The scores of a word's places, from place 1 on.
fn scores_of(
    dictionary: &AnyDictionary,
    alloc: Global,
    word: &str,
) -> Result<NumberedChanges, AllocError>
    ensures { IfOk result (λ found. AreOf found (scores_by dictionary.now word.now)) }
{
    match dictionary {
        AnyDictionary::Standard(standard) => {
            let scores = standard.score(alloc, word)?;
            collected(alloc, &scores)
        }
        AnyDictionary::Extended(extended) => {
            let scores = extended.score(alloc, word)?;
            collected(alloc, &scores)
        }
    }
}

/// Writes the scores of a word's places, and the substitutions of their changes, to the front of two buffers. Returns the
/// status. If one of the buffers is too short, both are unchanged.
#[tactic(auto, using(crate::proofs::Finding::finds_both))]
pub fn write_scores(
    loaded: &Loaded,
    alloc: Global,
    word: &[u8],
    changes: &mut [NumberedChange],
    count: &mut usize,
    text: &mut [u8],
    size: &mut usize,
) -> u32
    ensures { FindsScores (dictionary_of loaded.now) word.now (into changes.old changes.new count.old count.new)
        (into text.old text.new size.old size.new) result }
{
    let Ok(word) = std::str::from_utf8(word) else {
        return NOT_UTF8;
    };
    let Ok(found) = scores_of(&loaded.dictionary, alloc, word) else {
        return OUT_OF_MEMORY;
    };
    fill_buffers(&found.changes, changes, count, &found.texts, text, size)
}
