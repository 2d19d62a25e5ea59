//! The calls, for a dictionary that is loaded.

ghost use Rattle.std.specs.Prelude.{◌≡◌, None, IfOk, IfErr, IfSome, OnOk, map};
ghost use Rattle.std.specs.String.{string_bytes};
ghost use Rattle.any_dictionary.specs.Dictionaries.{canonical_text, contents_as, language_by};
ghost use Rattle.hyphenation_breaks.specs.Break.{plain_break};
ghost use Rattle.hyphenation_writer.specs.Canonical.{with_line_feeds};
ghost use Rattle.hyphenation_grammar.specs.Judging.{refusal_of};
ghost use Rattle.hyphenation_reader.specs.Refusals.{IsRefusal};
ghost use Rattle.hyphenation_hyphenator.specs.Opportunities.{no_change, rules_of, all_breaks_of};
ghost use Rattle.linefill.specs.Lines.{lines_by};
ghost use Rattle.c_calls.specs.Contents.{dictionary_of, held_in, Dictionary};
ghost use Rattle.c_calls.specs.Dictionaries.{composed_places_by};
ghost use Rattle.c_calls.specs.Statuses.{Finds, FindsBreaks, FindsComposedBreaks, FindsMarkedText, FindsLines};
ghost use Rattle.c_calls.specs.Statuses.{FindsValues, FindChanges, into};

use crate::buffers::{fill_buffer, fill_buffers};
use crate::changes::{BreakChange, Changes};
use crate::content::{Content, Loaded};
use crate::statuses::{NOT_UTF8, OTHER_KIND, OUT_OF_MEMORY};
use crate::utf8::word_of;
use any_dictionary::AnyDictionary;
use composed_words::{carried_places, composed};
use hyphenation_dictionary::dictionary::Standard;
use hyphenation_grammar::form::Kind;
use hyphenation_load::Load;
use hyphenation_reader::reader::Refusal;
use linefill::fill;
use std::alloc::{AllocError, Global};

/// Reads a dictionary of a kind into a box. The error is a refusal of the text, or that memory was refused.
pub fn load(alloc: Global, kind: Kind, bytes: &[u8]) -> Result<Box<Content>, Refusal>
    ensures accepted { OnOk result (refusal_of kind bytes.now ≡ None) }
    ensures contents { IfOk result (λ boxed. held_in boxed.value ≡ Dictionary (contents_as kind bytes.now)) }
    ensures refused { IfErr result (λ refusal. IsRefusal refusal (refusal_of kind bytes.now)) }
{
    let dictionary = AnyDictionary::read(alloc, kind, bytes)?;
    Ok(Content::of_dictionary(alloc, dictionary)?)
}

/// Writes the code of the dictionary's language to the front of a buffer, and returns the status.
#[tactic(auto, using(crate::proofs::Finding::finds))]
pub fn write_language(loaded: &Loaded, code: &mut [u8], count: &mut usize) -> u32
    ensures { Finds (Unit {0}) (language_by (dictionary_of loaded.now)) code.old code.new count.old count.new result }
{
    let language = loaded.dictionary.language();
    fill_buffer(language.code().as_bytes(), code, count)
}

/// Writes the places of a word's breaks, in bytes, to the front of a buffer, and returns the status.
#[tactic(auto, using(crate::proofs::Finding::finds))]
pub fn write_breaks(
    loaded: &Loaded,
    alloc: Global,
    word: &[u8],
    places: &mut [usize],
    count: &mut usize,
) -> u32
    ensures { FindsBreaks (dictionary_of loaded.now) word.now places.old places.new count.old count.new result }
{
    let Some(word) = word_of(word) else {
        return NOT_UTF8;
    };
    let mut found = loaded.take_list(alloc);
    let Ok(_) = loaded.dictionary.places_into(alloc, word, &mut found) else {
        return OUT_OF_MEMORY;
    };
    let status = fill_buffer(&found, places, count);
    loaded.keep_list(found);
    status
}

// Puts the places of a word's breaks, by its NFC, into a list.
fn composed_places_into(
    dictionary: &AnyDictionary,
    alloc: Global,
    word: &str,
    found: &mut Vec<usize>,
) -> Result<(), AllocError>
    ensures { OnOk result (found.new.items ≡ composed_places_by dictionary.now word.now) }
{
    let Some(nfc) = composed(alloc, word)? else {
        return dictionary.places_into(alloc, word, found);
    };
    dictionary.plain_places_into(alloc, nfc.as_str(), found)?;
    *found = carried_places(alloc, word, nfc.as_str(), found)?;
    Ok(())
}

/// Writes the places of a word's breaks, by its NFC, to the front of a buffer, and returns the status.
#[tactic(auto, using(crate::proofs::Finding::finds))]
pub fn write_composed_breaks(
    loaded: &Loaded,
    alloc: Global,
    word: &[u8],
    places: &mut [usize],
    count: &mut usize,
) -> u32
    ensures { FindsComposedBreaks (dictionary_of loaded.now) word.now places.old places.new count.old count.new result }
{
    let Some(word) = word_of(word) else {
        return NOT_UTF8;
    };
    let mut found = loaded.take_list(alloc);
    let Ok(_) = composed_places_into(&loaded.dictionary, alloc, word, &mut found) else {
        return OUT_OF_MEMORY;
    };
    let status = fill_buffer(&found, places, count);
    loaded.keep_list(found);
    status
}

/// Writes the values of a word's places to the front of a buffer, and returns the status.
#[tactic(auto, using(crate::proofs::Finding::finds))]
pub fn write_values(
    loaded: &Loaded,
    alloc: Global,
    word: &[u8],
    buffer: &mut [u8],
    count: &mut usize,
) -> u32
    ensures { FindsValues (dictionary_of loaded.now) word.now buffer.old buffer.new count.old count.new result }
{
    let Ok(word) = std::str::from_utf8(word) else {
        return NOT_UTF8;
    };
    let Ok(found) = loaded.dictionary.values(alloc, word) else {
        return OUT_OF_MEMORY;
    };
    fill_buffer(&found, buffer, count)
}

/// Writes a word's breaks with their changes to the front of one buffer, their texts to the front of another one, and
/// returns the status. If one of them is too short, both are unchanged.
#[tactic(auto, using(crate::proofs::Finding::finds_both))]
pub fn write_changes(
    loaded: &Loaded,
    alloc: Global,
    word: &[u8],
    changes: &mut [BreakChange],
    count: &mut usize,
    text: &mut [u8],
    size: &mut usize,
) -> u32
    ensures { FindChanges (dictionary_of loaded.now) word.now (into changes.old changes.new count.old count.new)
        (into text.old text.new size.old size.new) result }
{
    let Ok(word) = std::str::from_utf8(word) else {
        return NOT_UTF8;
    };
    let Ok(found) = loaded.dictionary.collect_breaks::<Changes>(alloc, word) else {
        return OUT_OF_MEMORY;
    };
    fill_buffers(&found.changes, changes, count, &found.texts, text, size)
}

/// Writes a text with the mark at each break of its words to the front of a buffer, and returns the status.
#[tactic(auto, using(crate::proofs::Finding::finds))]
pub fn write_text(
    loaded: &Loaded,
    alloc: Global,
    text: &[u8],
    mark: &[u8],
    buffer: &mut [u8],
    count: &mut usize,
) -> u32
    ensures { FindsMarkedText (dictionary_of loaded.now) text.now mark.now buffer.old buffer.new count.old count.new result }
{
    let Ok(text) = std::str::from_utf8(text) else {
        return NOT_UTF8;
    };
    let Ok(mark) = std::str::from_utf8(mark) else {
        return NOT_UTF8;
    };
    let Ok(page) = loaded.dictionary.hyphenated(alloc, text, mark) else {
        return OUT_OF_MEMORY;
    };
    fill_buffer(page.as_bytes(), buffer, count)
}

// Lines as one text, each with a line feed after it.
fn joined(alloc: Global, lines: &[String]) -> Result<String, AllocError>
    ensures { IfOk result (λ text. string_bytes text ≡ with_line_feeds (map string_bytes lines.now)) }
{
    let mut text = String::new(alloc);
    for line in lines {
        text.push_str(line)?;
        text.push('\n')?;
    }
    Ok(text)
}

// The lines of a text, each with a line feed after it.
fn lines_by(
    dictionary: &Standard,
    alloc: Global,
    text: &str,
    columns: usize,
) -> Result<String, AllocError>
    ensures { IfOk result (λ p. string_bytes p ≡ with_line_feeds
        (lines_by (all_breaks_of (rules_of no_change plain_break dictionary.now)) text.now columns)) }
{
    let lines = fill(alloc, dictionary, text, columns)?;
    joined(alloc, &lines)
}

/// Writes the lines of a text, each with a line feed after it, to the front of a buffer, and returns the status. It is
/// `OTHER_KIND` for an extended dictionary.
#[tactic(auto, using(crate::proofs::Finding::finds))]
pub fn write_lines(
    loaded: &Loaded,
    alloc: Global,
    text: &[u8],
    columns: usize,
    buffer: &mut [u8],
    count: &mut usize,
) -> u32
    ensures { FindsLines (dictionary_of loaded.now) text.now columns buffer.old buffer.new count.old count.new result }
{
    let AnyDictionary::Standard(standard) = &*loaded.dictionary else {
        return OTHER_KIND;
    };
    let Ok(text) = std::str::from_utf8(text) else {
        return NOT_UTF8;
    };
    let Ok(page) = lines_by(standard, alloc, text, columns) else {
        return OUT_OF_MEMORY;
    };
    fill_buffer(page.as_bytes(), buffer, count)
}

/// Writes the dictionary's canonical text to the front of a buffer, and returns the status.
#[tactic(auto, using(crate::proofs::Finding::finds))]
pub fn write_canonical_text(
    loaded: &Loaded,
    alloc: Global,
    buffer: &mut [u8],
    count: &mut usize,
) -> u32
    ensures { Finds (Unit {0}) (canonical_text (dictionary_of loaded.now)) buffer.old buffer.new count.old count.new result }
{
    let Ok(text) = loaded.dictionary.to_text(alloc) else {
        return OUT_OF_MEMORY;
    };
    fill_buffer(&text, buffer, count)
}
