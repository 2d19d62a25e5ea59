//! The calls of C for a `.dic` of LibreOffice, with the answers of libhyphen. The crate `hyphenation_c` exports each of
//! them, by a name of its own.
//!
//! The handles are those of the crate [`c_calls`], which says of its statuses and buffers what holds here, too.
//! The functions here take the dictionary out of its handle and put it back. Those of [`calls`] have a dictionary that
//! is loaded.
#![tactic(auto)]

ghost use Rattle.std.specs.Prelude.{◌≡◌, ◌<◌, length};
ghost use Rattle.c_calls.specs.Statuses.{into};
ghost use Rattle.c_calls.specs.Contents.{holds};
ghost use Rattle.level_calls.specs.Levels.{Loads, minima_given, answer_by, HasStatus, FillsOne, OneIsShort, Says};
ghost use Rattle.level_calls.specs.Levels.{digits_in, changes_in, texts_in, made_in, WritesText, WritesDigits};

pub mod buffers;
pub mod calls;
pub mod changes;
pub mod head;
pub mod minima;

use buffers::WordSaid;
use c_calls::content::Content;
use c_calls::handle::Handle;
use c_calls::lend;
use c_calls::statuses::{DONE, NO_DICTIONARY, OUT_OF_MEMORY};
use calls::Asked;
use changes::LevelChange;
use head::LevelHead;
use minima::LevelMinima;
use std::alloc::Global;

/// Loads a `.dic`, and writes what it says of itself. The dictionary takes the place of the one that the handle held.
///
/// Any bytes are a `.dic`. If memory is refused, the handle and the head are unchanged.
pub fn load(alloc: Global, bytes: &[u8], handle: &mut Handle, head: &mut LevelHead) -> u32
    ensures loads { Loads bytes.now (holds handle.old) (holds handle.new) head.old head.new result }
{
    let Ok(dictionary) = libhyphen_files::load(alloc, bytes) else {
        return OUT_OF_MEMORY;
    };
    let found = head::head_of(&dictionary);
    let Ok(content) = Content::of_levels(alloc, dictionary) else {
        return OUT_OF_MEMORY;
    };
    *head = found;
    handle.put(alloc, content);
    DONE
}

/// Writes the digits of a word's characters, the changes of their places, and the texts of the changes, each to a
/// buffer. It also writes whether a change was made.
///
/// The word is the first bytes of a text; what follows it counts for minima and for texts without breaks. The minima
/// count if they are `given`. A text that is to be UTF-8 and begins within a character is `NOT_UTF8`. A word that is
/// longer than the text is `BAD_ENDS`. If a buffer is too short, only the three counts are written.
pub fn write_word(
    alloc: Global,
    handle: &mut Handle,
    given: bool,
    minima: &LevelMinima,
    text: &[u8],
    size: usize,
    digits: &mut [u8],
    count: &mut usize,
    changes: &mut [LevelChange],
    number: &mut usize,
    texts: &mut [u8],
    total: &mut usize,
    made: &mut bool,
) -> u32
    ensures unchanged { handle.new.slot.kept ≡ handle.old.slot.kept }
    ensures status { HasStatus (holds handle.old) (minima_given given minima.now) text.now size result }
    ensures digits { FillsOne (digits_in (answer_by handle.old given minima.now text.now size))
        (into digits.old digits.new count.old count.new) result }
    ensures changes { FillsOne (changes_in (answer_by handle.old given minima.now text.now size))
        (into changes.old changes.new number.old number.new) result }
    ensures texts { FillsOne (texts_in (answer_by handle.old given minima.now text.now size))
        (into texts.old texts.new total.old total.new) result }
    ensures short { OneIsShort result (length digits.old < count.new) (length changes.old < number.new)
        (length texts.old < total.new) }
    ensures made { Says (made_in (answer_by handle.old given minima.now text.now size)) made.old made.new
        result }
{
    let asked = Asked {
        minima: minima::minima_given(given, minima),
        text,
        size,
    };
    let mut said = WordSaid {
        digits: *count,
        changes: *number,
        texts: *total,
        made: *made,
    };
    let status = lend!(handle, alloc, Content::Levels(dictionary) => {
        calls::write_word(dictionary, alloc, &asked, digits, changes, texts, &mut said)
    } else NO_DICTIONARY);
    *count = said.digits;
    *number = said.changes;
    *total = said.texts;
    *made = said.made;
    status
}

/// Writes a word with an equals sign at each of its breaks, and with the texts of changes, to the front of a buffer.
///
/// The word and the minima are as for [`write_word`]. A word that is longer than the text is `BAD_ENDS`.
pub fn write_text(
    alloc: Global,
    handle: &mut Handle,
    given: bool,
    minima: &LevelMinima,
    text: &[u8],
    size: usize,
    buffer: &mut [u8],
    count: &mut usize,
) -> u32
    ensures unchanged { handle.new.slot.kept ≡ handle.old.slot.kept }
    ensures text { WritesText (holds handle.old) (minima_given given minima.now) text.now size
        (into buffer.old buffer.new count.old count.new) result }
{
    let asked = Asked {
        minima: minima::minima_given(given, minima),
        text,
        size,
    };
    lend!(handle, alloc, Content::Levels(dictionary) => {
        calls::write_text(dictionary, alloc, &asked, buffer, count)
    } else NO_DICTIONARY)
}

/// Does what [`write_word`] and [`write_text`] do, and breaks most words only once for both. The result is the status of
/// [`write_word`], and the status of [`write_text`] is written to `told`.
pub fn write_both(
    alloc: Global,
    handle: &mut Handle,
    given: bool,
    minima: &LevelMinima,
    text: &[u8],
    size: usize,
    digits: &mut [u8],
    count: &mut usize,
    changes: &mut [LevelChange],
    number: &mut usize,
    texts: &mut [u8],
    total: &mut usize,
    made: &mut bool,
    buffer: &mut [u8],
    bytes: &mut usize,
    told: &mut u32,
) -> u32
    ensures unchanged { handle.new.slot.kept ≡ handle.old.slot.kept }
    ensures status { HasStatus (holds handle.old) (minima_given given minima.now) text.now size result }
    ensures digits { FillsOne (digits_in (answer_by handle.old given minima.now text.now size))
        (into digits.old digits.new count.old count.new) result }
    ensures changes { FillsOne (changes_in (answer_by handle.old given minima.now text.now size))
        (into changes.old changes.new number.old number.new) result }
    ensures texts { FillsOne (texts_in (answer_by handle.old given minima.now text.now size))
        (into texts.old texts.new total.old total.new) result }
    ensures short { OneIsShort result (length digits.old < count.new) (length changes.old < number.new)
        (length texts.old < total.new) }
    ensures made { Says (made_in (answer_by handle.old given minima.now text.now size)) made.old made.new
        result }
    ensures text { WritesText (holds handle.old) (minima_given given minima.now) text.now size
        (into buffer.old buffer.new bytes.old bytes.new) told.new }
{
    let asked = Asked {
        minima: minima::minima_given(given, minima),
        text,
        size,
    };
    let mut said = WordSaid {
        digits: *count,
        changes: *number,
        texts: *total,
        made: *made,
    };
    let status = lend!(handle, alloc, Content::Levels(dictionary) => {
        calls::write_both(
            dictionary, alloc, &asked, digits, changes, texts, &mut said, buffer, bytes, told,
        )
    } else {
        *told = NO_DICTIONARY;
        NO_DICTIONARY
    });
    *count = said.digits;
    *number = said.changes;
    *total = said.texts;
    *made = said.made;
    status
}

/// Writes the digits of a word's bytes by the patterns of the first level that change nothing to the front of a
/// buffer.
pub fn write_digits(
    alloc: Global,
    handle: &mut Handle,
    word: &[u8],
    digits: &mut [u8],
    count: &mut usize,
) -> u32
    ensures unchanged { handle.new.slot.kept ≡ handle.old.slot.kept }
    ensures digits { WritesDigits (holds handle.old) word.now (into digits.old digits.new count.old count.new) result }
{
    lend!(handle, alloc, Content::Levels(dictionary) => {
        calls::write_digits(dictionary, alloc, word, digits, count)
    } else NO_DICTIONARY)
}
