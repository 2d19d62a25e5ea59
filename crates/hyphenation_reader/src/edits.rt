//! Edits of a dictionary's exceptions, as a user writes them: `+` and an exception, or `-` and a word. An exception is
//! written as after `e ` in a dictionary text of that kind.
//!
//! ```text
//! +hyphenation 2 6 7              breaks for the word, in place of its old ones
//! +asszonnyal 2,1,2,2,szsz        a break with a change, in an extended dictionary
//! -present                        the word is no exception any more
//! ```
//!
//! An edit is judged as the `e` line with the same exception, but without the test for repetition: the word may be an
//! exception already.

ghost use Rattle.std.specs.Prelude.{◌≡◌, IfOk, IsTrue, IsUtf8, OnErr, not};
ghost use Rattle.hyphenation_reader.specs.Laws.{FourTests, LastDecides, VersionsAgree};
ghost use Rattle.hyphenation_reader.specs.Private.Edits.{ReadsException};
ghost use Rattle.hyphenation_reader.specs.Edits.{as_line, after_edit, has_line_feed, is_good_edit, is_sound_line};
ghost use Rattle.hyphenation_reader.specs.Edits.{is_word_alone, after_addition, after_removal};

use crate::items::{Later, exception_of};
use crate::laws::spelt_is_sound;
use hyphenation_breaks::entry::{Listing, Payload};
use hyphenation_dictionary::dictionary::Dictionary;
use hyphenation_grammar::form::{Form, Kind, Version};
use std::alloc::{AllocError, Global};

/// Applies an edit to a dictionary of that kind, and returns whether the edit is good. A bad edit changes nothing.
///
/// The kind must be the dictionary's: with the other kind changes are refused, or dropped. The only error is memory;
/// then the dictionary is unchanged.
pub fn apply_edit<C: Payload, B: Listing>(
    alloc: Global,
    kind: Kind,
    dictionary: &mut Dictionary<C, B>,
    edit: &str,
) -> Result<bool, AllocError>
    ensures good { IfOk result (λ good. good ≡ is_good_edit kind edit.now) }
    ensures applied { IfOk result (λ good. IsTrue good
        → dictionary.new ≡ after_edit B.listing_of dictionary.old edit.now) }
    ensures unchanged_if_refused { IfOk result (λ good. IsTrue (not good) → dictionary.new ≡ dictionary.old) }
    ensures unchanged_on_error { OnErr result (dictionary.new ≡ dictionary.old) }
{
    let edit = edit.as_bytes();
    if has_line_feed(edit) {
        return Ok(false);
    }
    match edit.split_first() {
        Some((b'+', exception)) => add(alloc, kind, dictionary, exception),
        Some((b'-', exception)) => remove(alloc, kind, dictionary, exception),
        _ => Ok(false),
    }
}

// Whether an edit has a line feed.
fn has_line_feed(edit: &[u8]) -> bool
    ensures { result ≡ has_line_feed edit.now }
{
    edit.iter().any(|byte| *byte == b'\n')
}

// Lists the breaks of an exception for its word, if its line is sound. Reports whether it is.
fn add<C: Payload, B: Listing>(
    alloc: Global,
    kind: Kind,
    dictionary: &mut Dictionary<C, B>,
    exception: &[u8],
) -> Result<bool, AllocError>
    requires { IsUtf8 exception.now }
    ensures good { IfOk result (λ good. good ≡ is_sound_line kind (as_line exception.now)) }
    ensures applied { IfOk result (λ good.
        IsTrue good → dictionary.new ≡ after_addition B.listing_of dictionary.old (as_line exception.now)) }
    ensures unchanged_if_refused { IfOk result (λ good. IsTrue (not good) → dictionary.new ≡ dictionary.old) }
    ensures unchanged_on_error { OnErr result (dictionary.new ≡ dictionary.old) }
{
    match read_exception(alloc, kind, exception)? {
        None => Ok(false),
        Some((word, listed)) => {
            spelt_is_sound();
            dictionary.insert_exception(word, listed)?;
            Ok(true)
        }
    }
}

// Removes a word from the exceptions, if its line is sound and lists no break. Reports whether that is so.
fn remove<C: Payload, B: Listing>(
    alloc: Global,
    kind: Kind,
    dictionary: &mut Dictionary<C, B>,
    exception: &[u8],
) -> Result<bool, AllocError>
    requires { IsUtf8 exception.now }
    ensures good { IfOk result (λ good. good ≡ is_word_alone kind (as_line exception.now)) }
    ensures applied { IfOk result (λ good.
        IsTrue good → dictionary.new ≡ after_removal dictionary.old (as_line exception.now)) }
    ensures unchanged_if_refused { IfOk result (λ good. IsTrue (not good) → dictionary.new ≡ dictionary.old) }
    ensures unchanged_on_error { OnErr result (dictionary.new ≡ dictionary.old) }
{
    match read_exception::<B>(alloc, kind, exception)? {
        None => Ok(false),
        Some((word, listed)) => {
            if !listed.is_empty() {
                return Ok(false);
            }
            dictionary.remove_exception(word.as_str());
            Ok(true)
        }
    }
}

// Returns the word of an exception and its listed breaks, if its line fails no test by itself.
fn read_exception<B: Listing>(
    alloc: Global,
    kind: Kind,
    exception: &[u8],
) -> Result<Option<(String, Vec<B>)>, AllocError>
    requires { IsUtf8 exception.now }
    ensures { IfOk result (λ found. ReadsException kind B.listing_of found (as_line exception.now)) }
{
    // Both versions write exceptions alike.
    let form = Form {
        kind,
        version: Version::First,
    };
    let mut later = Later::new(alloc);
    match exception_of(alloc, form, exception, &mut later)? {
        Ok(found) => Ok(Some(found)),
        Err(_) => Ok(None),
    }
}

/// The last edit that names a word decides on it. A word that no edit names stays as it is in the dictionary.
pub fn the_last_edit_decides<C, B>()
    ensures { LastDecides C B }
{}

/// Both versions of the dictionary text judge an edit alike.
pub fn versions_judge_alike()
    ensures { VersionsAgree }
{}

/// An exception can fail the tests of tokens, numbers, places and changes by itself, and no others.
pub fn four_tests_judge_an_exception()
    ensures { FourTests }
{}
