//! The calls, for a dictionary that is loaded.

ghost use Rattle.std.specs.Prelude.{◌≡◌, ◌⊎◌, ◌≤◌, ◌<◌, IfOk, Some, length};
ghost use Rattle.c_calls.specs.Statuses.{into};
ghost use Rattle.libhyphen_rule.specs.Calls.{plain_answer};
ghost use Rattle.libhyphen_rule.specs.Found.{answer_view};
ghost use Rattle.level_calls.specs.Changes.{listed_changes, listed_texts};
ghost use Rattle.level_calls.specs.Levels.{IsStatus, FillsOne, OneIsShort, Says, FindsText, FindsDigits};
ghost use Rattle.level_calls.specs.Levels.{answer_to, digits_in, changes_in, texts_in, made_in};

use crate::buffers::{WordFound, WordSaid, fill_word};
use crate::changes::{LevelChange, listed_changes, listed_texts};
use c_calls::buffers::fill_buffer;
use c_calls::statuses::{BAD_ENDS, NOT_UTF8, OUT_OF_MEMORY};
use libhyphen_files::LevelDictionary;
use libhyphen_rule::calls::{
    CallAnswer, CallMinima, hyphenate, plain_digits, short_digits, short_word,
    write_word as written_word,
};
use std::alloc::{AllocError, Global};

/// A word that is asked for, the first bytes of a text, with the minima that are given for it.
#[derive(Clone, Copy)]
pub struct Asked<'t> {
    /// The minima, if any are given.
    pub minima: Option<CallMinima>,
    /// The text that the word begins. The bytes after the word count for minima and for texts without breaks.
    pub text: &'t [u8],
    /// The length of the word, in bytes.
    pub size: usize,
}

// Returns the changes of an answer, each with the number of its character. The only error is out of memory.
#[tactic(auto, using(crate::proofs::Listing::listed_or_none))]
fn changes_of(alloc: Global, answer: &CallAnswer<'_>) -> Result<Vec<LevelChange>, AllocError>
    ensures { IfOk result (λ v. v.items ≡ listed_changes (answer_view answer.now).changes) }
{
    listed_changes(alloc, &answer.changes)
}

// Returns the texts of an answer's changes, each with a byte 0 behind it. The only error is out of memory.
#[tactic(auto, using(crate::proofs::Listing::texts_or_none))]
fn texts_of(alloc: Global, answer: &CallAnswer<'_>) -> Result<Vec<u8>, AllocError>
    ensures { IfOk result (λ v. v.items ≡ listed_texts (answer_view answer.now).changes) }
{
    listed_texts(alloc, &answer.changes)
}

// As [`write_word`], for a word that the text has.
fn write_any_word(
    dictionary: &LevelDictionary,
    alloc: Global,
    asked: &Asked<'_>,
    digits: &mut [u8],
    changes: &mut [LevelChange],
    texts: &mut [u8],
    said: &mut WordSaid,
) -> u32
    requires { asked.now.size ≤ length asked.now.text.now }
    ensures status { IsStatus dictionary.now asked.now.minima asked.now.text.now asked.now.size result }
    ensures digits { FillsOne (digits_in (answer_to dictionary.now asked.now))
        (into digits.old digits.new said.old.digits said.new.digits) result }
    ensures changes { FillsOne (changes_in (answer_to dictionary.now asked.now))
        (into changes.old changes.new said.old.changes said.new.changes) result }
    ensures texts { FillsOne (texts_in (answer_to dictionary.now asked.now))
        (into texts.old texts.new said.old.texts said.new.texts) result }
    ensures short { OneIsShort result (length digits.old < said.new.digits) (length changes.old < said.new.changes)
        (length texts.old < said.new.texts) }
    ensures made { Says (made_in (answer_to dictionary.now asked.now)) said.old.made said.new.made result }
{
    let Asked { minima, text, size } = *asked;
    let Ok(answer) = hyphenate(alloc, dictionary, minima, text, size) else {
        return OUT_OF_MEMORY;
    };
    let Some(answer) = answer else {
        return NOT_UTF8;
    };
    let Ok(listed) = changes_of(alloc, &answer) else {
        return OUT_OF_MEMORY;
    };
    let Ok(ended) = texts_of(alloc, &answer) else {
        return OUT_OF_MEMORY;
    };
    let found = WordFound {
        digits: &answer.digits,
        changes: &listed,
        texts: &ended,
        made: answer.made,
    };
    fill_word(&found, digits, changes, texts, said)
}

// Fills three buffers with the answer that has these digits and no changes. The result is the status.
#[inline(always)]
fn fill_plain(
    plain: &[u8],
    digits: &mut [u8],
    changes: &mut [LevelChange],
    texts: &mut [u8],
    said: &mut WordSaid,
) -> u32
    ensures status { (result ≡ 0) ⊎ (result ≡ 1) }
    ensures digits { FillsOne (digits_in (Some (plain_answer plain.now)))
        (into digits.old digits.new said.old.digits said.new.digits) result }
    ensures changes { FillsOne (changes_in (Some (plain_answer plain.now)))
        (into changes.old changes.new said.old.changes said.new.changes) result }
    ensures texts { FillsOne (texts_in (Some (plain_answer plain.now)))
        (into texts.old texts.new said.old.texts said.new.texts) result }
    ensures short { OneIsShort result (length digits.old < said.new.digits) (length changes.old < said.new.changes)
        (length texts.old < said.new.texts) }
    ensures made { Says (made_in (Some (plain_answer plain.now))) said.old.made said.new.made result }
{
    let found = WordFound {
        digits: plain,
        changes: &[],
        texts: &[],
        made: false,
    };
    fill_word(&found, digits, changes, texts, said)
}

/// Writes the digits of a word's characters, the changes of their places, and the texts of the changes, each to a
/// buffer. It also says how much was found, and whether a change was made. The result is the status.
pub fn write_word(
    dictionary: &LevelDictionary,
    alloc: Global,
    asked: &Asked<'_>,
    digits: &mut [u8],
    changes: &mut [LevelChange],
    texts: &mut [u8],
    said: &mut WordSaid,
) -> u32
    ensures status { IsStatus dictionary.now asked.now.minima asked.now.text.now asked.now.size result }
    ensures digits { FillsOne (digits_in (answer_to dictionary.now asked.now))
        (into digits.old digits.new said.old.digits said.new.digits) result }
    ensures changes { FillsOne (changes_in (answer_to dictionary.now asked.now))
        (into changes.old changes.new said.old.changes said.new.changes) result }
    ensures texts { FillsOne (texts_in (answer_to dictionary.now asked.now))
        (into texts.old texts.new said.old.texts said.new.texts) result }
    ensures short { OneIsShort result (length digits.old < said.new.digits) (length changes.old < said.new.changes)
        (length texts.old < said.new.texts) }
    ensures made { Says (made_in (answer_to dictionary.now asked.now)) said.old.made said.new.made result }
{
    let Asked { minima, text, size } = *asked;
    if size > text.len() {
        return BAD_ENDS;
    }
    if size <= 64 {
        let mut room = [b'0'; 64];
        let plain = &mut room[..size];
        if let Some(length) = short_digits(dictionary, minima, text, size, plain) {
            return fill_plain(&plain[..length], digits, changes, texts, said);
        }
    }
    write_any_word(dictionary, alloc, asked, digits, changes, texts, said)
}

/// Writes a word with an equals sign at each of its breaks, and with the texts of changes, to the front of a buffer. The
/// result is the status.
pub fn write_text(
    dictionary: &LevelDictionary,
    alloc: Global,
    asked: &Asked<'_>,
    buffer: &mut [u8],
    count: &mut usize,
) -> u32
    ensures { FindsText dictionary.now asked.now.minima asked.now.text.now asked.now.size
        (into buffer.old buffer.new count.old count.new) result }
{
    let Asked { minima, text, size } = *asked;
    if size > text.len() {
        return BAD_ENDS;
    }
    let Ok(written) = written_word(alloc, dictionary, minima, text, size) else {
        return OUT_OF_MEMORY;
    };
    fill_buffer(&written, buffer, count)
}

/// Does what [`write_word`] and [`write_text`] do, and breaks most words only once for both. The result is the status of
/// [`write_word`], and the status of [`write_text`] is written to `told`.
pub fn write_both(
    dictionary: &LevelDictionary,
    alloc: Global,
    asked: &Asked<'_>,
    digits: &mut [u8],
    changes: &mut [LevelChange],
    texts: &mut [u8],
    said: &mut WordSaid,
    buffer: &mut [u8],
    count: &mut usize,
    told: &mut u32,
) -> u32
    ensures status { IsStatus dictionary.now asked.now.minima asked.now.text.now asked.now.size result }
    ensures digits { FillsOne (digits_in (answer_to dictionary.now asked.now))
        (into digits.old digits.new said.old.digits said.new.digits) result }
    ensures changes { FillsOne (changes_in (answer_to dictionary.now asked.now))
        (into changes.old changes.new said.old.changes said.new.changes) result }
    ensures texts { FillsOne (texts_in (answer_to dictionary.now asked.now))
        (into texts.old texts.new said.old.texts said.new.texts) result }
    ensures short { OneIsShort result (length digits.old < said.new.digits) (length changes.old < said.new.changes)
        (length texts.old < said.new.texts) }
    ensures made { Says (made_in (answer_to dictionary.now asked.now)) said.old.made said.new.made result }
    ensures text { FindsText dictionary.now asked.now.minima asked.now.text.now asked.now.size
        (into buffer.old buffer.new count.old count.new) told.new }
{
    let Asked { minima, text, size } = *asked;
    if size > text.len() {
        *told = BAD_ENDS;
        return BAD_ENDS;
    }
    if size <= 64 {
        let mut room = [b'0'; 64];
        let mut marked = [0u8; 128];
        let plain = &mut room[..size];
        if let Some((length, bytes)) = short_word(
            dictionary,
            minima,
            text,
            size,
            plain,
            &mut marked,
        ) {
            *told = fill_buffer(&marked[..bytes], buffer, count);
            return fill_plain(&plain[..length], digits, changes, texts, said);
        }
    }
    *told = write_text(dictionary, alloc, asked, buffer, count);
    write_any_word(dictionary, alloc, asked, digits, changes, texts, said)
}

/// Writes the digits of a word's bytes by the patterns of the first level that change nothing to the front of a
/// buffer. The result is the status.
pub fn write_digits(
    dictionary: &LevelDictionary,
    alloc: Global,
    word: &[u8],
    digits: &mut [u8],
    count: &mut usize,
) -> u32
    ensures { FindsDigits dictionary.now word.now (into digits.old digits.new count.old count.new) result }
{
    let Ok(found) = plain_digits(alloc, dictionary, word) else {
        return OUT_OF_MEMORY;
    };
    fill_buffer(&found, digits, count)
}
