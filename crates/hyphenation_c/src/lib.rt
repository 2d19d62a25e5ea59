//! Hyphenation for C, and for languages that call C: `bindings/c/hyphenation.h` declares and explains the calls.
//!
//! Each export calls a function of the crate [`c_calls`], which says more of it and has the same clauses. Those for a
//! `.dic` with the answers of libhyphen call the crate [`level_calls`]. A handle frees its dictionary itself.
#![tactic(auto)]

ghost use Rattle.std.specs.Prelude.{◌≡◌, ◌<◌, None, length};
ghost use Rattle.c_calls.specs.Contents.{holds};
ghost use Rattle.c_calls.specs.ExceptionLists.{AddsExceptions};
ghost use Rattle.c_calls.specs.Lists.{WritesLists};
ghost use Rattle.c_calls.specs.Numbered.{WritesListed, WritesScores};
ghost use Rattle.c_calls.specs.Paths.{WritesExceptionPaths, WritesPaths};
ghost use Rattle.c_calls.specs.Patterns.{LoadsDic};
ghost use Rattle.c_calls.specs.Statuses.{kind_numbered, Loads, Shares, Edits, WritesLanguage, WritesMinima};
ghost use Rattle.c_calls.specs.Statuses.{kind_named, WritesBreaks, WritesComposedBreaks, WritesValues, Changes};
ghost use Rattle.c_calls.specs.Statuses.{RaisesMinima, into, loading};
ghost use Rattle.c_calls.specs.Statuses.{WritesMarkedText, WritesLines, WritesCanonicalText};
ghost use Rattle.c_calls.specs.TexFiles.{LoadsPatterns, PlacesFault};
ghost use Rattle.level_calls.specs.Levels.{Loads as LoadsLevels, minima_given, answer_by};
ghost use Rattle.level_calls.specs.Levels.{HasStatus, FillsOne, OneIsShort, Says, WritesText, WritesDigits};
ghost use Rattle.level_calls.specs.Levels.{digits_in, changes_in, texts_in, made_in};

use c_calls::changes::BreakChange;
use c_calls::handle::Handle;
use c_calls::numbered::NumberedChange;
use level_calls::changes::LevelChange;
use level_calls::head::LevelHead;
use level_calls::minima::LevelMinima;
use std::alloc::Global;

/// Returns the kind that the first line of a dictionary text names. It is 0 for a standard dictionary, 1 for an extended
/// one, and 2 if the line names none.
#[unsafe(no_mangle)]
pub extern "C" fn hyphenation_kind_of(bytes: &[u8]) -> u32
    ensures { result ≡ kind_named bytes.now }
{
    c_calls::kind_of(bytes)
}

/// Loads a dictionary of a kind from its text. It takes the place of the dictionary that the handle held.
#[unsafe(no_mangle)]
pub extern "C" fn hyphenation_load(
    alloc: Global,
    kind: u32,
    bytes: &[u8],
    handle: &mut Handle,
    line: &mut usize,
    cause: &mut u32,
) -> u32
    ensures loads { Loads (kind_numbered kind) bytes.now
        (loading (holds handle.old) (holds handle.new) (line.old, cause.old) (line.new, cause.new)) result }
{
    c_calls::load(alloc, kind, bytes, handle, line, cause)
}

/// Makes a dictionary of a kind from LibreOffice's `.dic`. It takes the place of the dictionary that the handle held.
#[unsafe(no_mangle)]
pub extern "C" fn hyphenation_load_dic(
    alloc: Global,
    kind: u32,
    code: &[u8],
    left: u32,
    right: u32,
    bytes: &[u8],
    handle: &mut Handle,
    line: &mut usize,
    cause: &mut u32,
) -> u32
    ensures loads { LoadsDic kind left right code.now bytes.now
        (loading (holds handle.old) (holds handle.new) (line.old, cause.old) (line.new, cause.new)) result }
{
    c_calls::load_dic(alloc, kind, code, left, right, bytes, handle, line, cause)
}

/// Makes a dictionary of a kind from a TeX file of patterns, or a plain one, and a plain file of exceptions.
#[unsafe(no_mangle)]
pub extern "C" fn hyphenation_load_patterns(
    alloc: Global,
    kind: u32,
    form: u32,
    code: &[u8],
    left: u32,
    right: u32,
    bytes: &[u8],
    exceptions: &[u8],
    handle: &mut Handle,
    file: &mut usize,
    line: &mut usize,
    cause: &mut u32,
) -> u32
    ensures loads { LoadsPatterns (kind, form) (left, right) code.now bytes.entry exceptions.entry
        (holds handle.old) (holds handle.new) result }
    ensures fault { PlacesFault form bytes.entry exceptions.entry (file.old, (line.old, cause.old))
        (file.new, (line.new, cause.new)) result }
{
    c_calls::load_patterns(
        alloc, kind, form, code, left, right, bytes, exceptions, handle, file, line, cause,
    )
}

/// Frees the dictionary that the handle holds, if it holds one. The handle holds none afterwards.
#[unsafe(no_mangle)]
pub extern "C" fn hyphenation_free(alloc: Global, handle: &mut Handle)
    ensures empty { holds handle.new ≡ None }
{
    handle.free(alloc);
}

/// Lets another handle hold the same dictionary, for another thread for example. Nothing is copied.
#[unsafe(no_mangle)]
pub extern "C" fn hyphenation_share(alloc: Global, handle: &mut Handle, other: &mut Handle) -> u32
    ensures unchanged { holds handle.new ≡ holds handle.old }
    ensures shares { Shares (holds handle.old) (holds other.old) (holds other.new) result }
{
    c_calls::share(alloc, handle, other)
}

/// Edits the exceptions: `+` and an exception as it is written after `e ` in a dictionary text, or `-` and a word.
#[unsafe(no_mangle)]
pub extern "C" fn hyphenation_edit(alloc: Global, handle: &mut Handle, edit: &[u8]) -> u32
    ensures edits { Edits (holds handle.old) (holds handle.new) edit.now result }
{
    c_calls::edit(alloc, handle, edit)
}

/// Adds the exceptions of a list: one word a line, with hyphens where it may break, and groups `\hyphenation{..}`.
#[unsafe(no_mangle)]
pub extern "C" fn hyphenation_add_exceptions(
    alloc: Global,
    handle: &mut Handle,
    text: &[u8],
    line: &mut usize,
    cause: &mut u32,
) -> u32
    ensures adds { AddsExceptions text.now
        (loading (holds handle.old) (holds handle.new) (line.old, cause.old) (line.new, cause.new)) result }
{
    c_calls::add_exceptions(alloc, handle, text, line, cause)
}

/// Raises the minima to at least these numbers of characters. Greater ones stay, and nothing else changes.
#[unsafe(no_mangle)]
pub extern "C" fn hyphenation_raise_minima(
    alloc: Global,
    handle: &mut Handle,
    left: u8,
    right: u8,
) -> u32
    ensures raises { RaisesMinima (holds handle.old) (holds handle.new) left right result }
{
    c_calls::raise_minima(alloc, handle, left, right)
}

/// Writes the code of the dictionary's language to the front of a buffer: at most 32 bytes.
#[unsafe(no_mangle)]
pub extern "C" fn hyphenation_language(
    alloc: Global,
    handle: &mut Handle,
    code: &mut [u8],
    count: &mut usize,
) -> u32
    ensures unchanged { handle.new.slot.kept ≡ handle.old.slot.kept }
    ensures language { WritesLanguage (holds handle.old) code.old code.new count.old count.new result }
{
    c_calls::write_language(alloc, handle, code, count)
}

/// Writes the least numbers of characters of a word before its first break and after its last one.
#[unsafe(no_mangle)]
pub extern "C" fn hyphenation_minima(
    alloc: Global,
    handle: &mut Handle,
    left: &mut usize,
    right: &mut usize,
) -> u32
    ensures unchanged { handle.new.slot.kept ≡ handle.old.slot.kept }
    ensures minima { WritesMinima (holds handle.old) (left.old, right.old) (left.new, right.new) result }
{
    c_calls::write_minima(alloc, handle, left, right)
}

/// Writes the places of a word's breaks, in bytes, to the front of a buffer.
#[unsafe(no_mangle)]
pub extern "C" fn hyphenation_breaks(
    alloc: Global,
    handle: &mut Handle,
    word: &[u8],
    places: &mut [usize],
    count: &mut usize,
) -> u32
    ensures unchanged { handle.new.slot.kept ≡ handle.old.slot.kept }
    ensures breaks { WritesBreaks (holds handle.old) word.now places.old places.new count.old count.new
        result }
{
    c_calls::write_breaks(alloc, handle, word, places, count)
}

/// Writes the places of a word's breaks, as its NFC is broken, to the front of a buffer.
#[unsafe(no_mangle)]
pub extern "C" fn hyphenation_composed_breaks(
    alloc: Global,
    handle: &mut Handle,
    word: &[u8],
    places: &mut [usize],
    count: &mut usize,
) -> u32
    ensures unchanged { handle.new.slot.kept ≡ handle.old.slot.kept }
    ensures breaks { WritesComposedBreaks (holds handle.old) word.now places.old places.new count.old count.new
        result }
{
    c_calls::write_composed_breaks(alloc, handle, word, places, count)
}

/// Writes the places of the breaks of a list of words to one buffer, and the ends of the words' places to another one.
#[unsafe(no_mangle)]
pub extern "C" fn hyphenation_breaks_of_words(
    alloc: Global,
    handle: &mut Handle,
    text: &[u8],
    ends: &[usize],
    list: &mut [usize],
    count: &mut usize,
    last: &mut [usize],
    size: &mut usize,
) -> u32
    ensures unchanged { handle.new.slot.kept ≡ handle.old.slot.kept }
    ensures list { WritesLists (holds handle.old) text.now ends.now (into list.old list.new count.old count.new)
        (into last.old last.new size.old size.new) result }
{
    c_calls::write_breaks_of_words(alloc, handle, text, ends, list, count, last, size)
}

/// Writes the values of a word's places, from place 1 on, to the front of a buffer.
#[unsafe(no_mangle)]
pub extern "C" fn hyphenation_values(
    alloc: Global,
    handle: &mut Handle,
    word: &[u8],
    values: &mut [u8],
    count: &mut usize,
) -> u32
    ensures unchanged { handle.new.slot.kept ≡ handle.old.slot.kept }
    ensures values { WritesValues (holds handle.old) word.now values.old values.new count.old count.new
        result }
{
    c_calls::write_values(alloc, handle, word, values, count)
}

/// Writes a word's breaks and the changes that they make to one buffer, and the texts of the changes to another one.
#[unsafe(no_mangle)]
pub extern "C" fn hyphenation_changes(
    alloc: Global,
    handle: &mut Handle,
    word: &[u8],
    changes: &mut [BreakChange],
    count: &mut usize,
    text: &mut [u8],
    size: &mut usize,
) -> u32
    ensures unchanged { handle.new.slot.kept ≡ handle.old.slot.kept }
    ensures changes { Changes (holds handle.old) word.now (into changes.old changes.new count.old count.new)
        (into text.old text.new size.old size.new) result }
{
    c_calls::write_changes(alloc, handle, word, changes, count, text, size)
}

/// Writes the breaks that are listed for a word to one buffer, and the substitutions of their changes to another one.
#[unsafe(no_mangle)]
pub extern "C" fn hyphenation_exception(
    alloc: Global,
    handle: &mut Handle,
    word: &[u8],
    changes: &mut [NumberedChange],
    count: &mut usize,
    text: &mut [u8],
    size: &mut usize,
) -> u32
    ensures unchanged { handle.new.slot.kept ≡ handle.old.slot.kept }
    ensures listed { WritesListed (holds handle.old) word.now (into changes.old changes.new count.old count.new)
        (into text.old text.new size.old size.new) result }
{
    c_calls::write_exception(alloc, handle, word, changes, count, text, size)
}

/// Writes the scores of a word's places, from place 1 on, to one buffer, and the substitutions of their changes to another
/// one.
#[unsafe(no_mangle)]
pub extern "C" fn hyphenation_scores(
    alloc: Global,
    handle: &mut Handle,
    word: &[u8],
    changes: &mut [NumberedChange],
    count: &mut usize,
    text: &mut [u8],
    size: &mut usize,
) -> u32
    ensures unchanged { handle.new.slot.kept ≡ handle.old.slot.kept }
    ensures scores { WritesScores (holds handle.old) word.now (into changes.old changes.new count.old count.new)
        (into text.old text.new size.old size.new) result }
{
    c_calls::write_scores(alloc, handle, word, changes, count, text, size)
}

/// Writes a text with the mark at each break of its words to the front of a buffer.
#[unsafe(no_mangle)]
pub extern "C" fn hyphenation_text(
    alloc: Global,
    handle: &mut Handle,
    text: &[u8],
    mark: &[u8],
    buffer: &mut [u8],
    count: &mut usize,
) -> u32
    ensures unchanged { handle.new.slot.kept ≡ handle.old.slot.kept }
    ensures text { WritesMarkedText (holds handle.old) text.now mark.now buffer.old buffer.new count.old
        count.new result }
{
    c_calls::write_text(alloc, handle, text, mark, buffer, count)
}

/// Writes the lines of a text, each with a line feed after it, to the front of a buffer.
#[unsafe(no_mangle)]
pub extern "C" fn hyphenation_fill(
    alloc: Global,
    handle: &mut Handle,
    text: &[u8],
    columns: usize,
    buffer: &mut [u8],
    count: &mut usize,
) -> u32
    ensures unchanged { handle.new.slot.kept ≡ handle.old.slot.kept }
    ensures lines { WritesLines (holds handle.old) text.now columns buffer.old buffer.new count.old count.new
        result }
{
    c_calls::write_lines(alloc, handle, text, columns, buffer, count)
}

/// Writes the dictionary's canonical text to the front of a buffer.
#[unsafe(no_mangle)]
pub extern "C" fn hyphenation_write(
    alloc: Global,
    handle: &mut Handle,
    buffer: &mut [u8],
    count: &mut usize,
) -> u32
    ensures unchanged { handle.new.slot.kept ≡ handle.old.slot.kept }
    ensures canonical { WritesCanonicalText (holds handle.old) buffer.old buffer.new count.old count.new
        result }
{
    c_calls::write_canonical_text(alloc, handle, buffer, count)
}

/// Writes the paths at which the dictionary of a language is looked for to a buffer, each with a byte 0 behind it.
#[unsafe(no_mangle)]
pub extern "C" fn hyphenation_paths(
    alloc: Global,
    tag: &[u8],
    path: &[u8],
    data_home: &[u8],
    home: &[u8],
    buffer: &mut [u8],
    count: &mut usize,
) -> u32
    ensures paths { WritesPaths tag.now (path.now, data_home.now, home.now) buffer.old buffer.new count.old count.new
        result }
{
    c_calls::write_paths(alloc, tag, path, data_home, home, buffer, count)
}

/// Writes the paths at which the list of exceptions of a language is looked for to a buffer, each with a byte 0 behind it.
#[unsafe(no_mangle)]
pub extern "C" fn hyphenation_exception_paths(
    alloc: Global,
    tag: &[u8],
    path: &[u8],
    data_home: &[u8],
    home: &[u8],
    buffer: &mut [u8],
    count: &mut usize,
) -> u32
    ensures paths { WritesExceptionPaths tag.now (path.now, data_home.now, home.now) buffer.old buffer.new count.old
        count.new result }
{
    c_calls::write_exception_paths(alloc, tag, path, data_home, home, buffer, count)
}

/// Loads a `.dic`, and writes what it says of itself. The dictionary takes the place of the one that the handle held.
#[unsafe(no_mangle)]
pub extern "C" fn hyphenation_levels_load(
    alloc: Global,
    bytes: &[u8],
    handle: &mut Handle,
    head: &mut LevelHead,
) -> u32
    ensures loads { LoadsLevels bytes.now (holds handle.old) (holds handle.new) head.old head.new result }
{
    level_calls::load(alloc, bytes, handle, head)
}

/// Frees the dictionary that the handle holds, if it holds one. The handle holds none afterwards.
#[unsafe(no_mangle)]
pub extern "C" fn hyphenation_levels_free(alloc: Global, handle: &mut Handle)
    ensures empty { holds handle.new ≡ None }
{
    handle.free(alloc);
}

/// Writes the digits of a word's characters, the changes of their places, and the texts of the changes, each to a
/// buffer. It also writes whether a change was made.
#[unsafe(no_mangle)]
pub extern "C" fn hyphenation_levels_word(
    alloc: Global,
    handle: &mut Handle,
    given: bool,
    minima: &LevelMinima,
    text: &[u8],
    size: usize,
    digits: &mut [u8],
    count: &mut usize,
    changes: &mut [LevelChange],
    number: &mut usize,
    texts: &mut [u8],
    total: &mut usize,
    made: &mut bool,
) -> u32
    ensures unchanged { handle.new.slot.kept ≡ handle.old.slot.kept }
    ensures status { HasStatus (holds handle.old) (minima_given given minima.now) text.now size result }
    ensures digits { FillsOne (digits_in (answer_by handle.old given minima.now text.now size))
        (into digits.old digits.new count.old count.new) result }
    ensures changes { FillsOne (changes_in (answer_by handle.old given minima.now text.now size))
        (into changes.old changes.new number.old number.new) result }
    ensures texts { FillsOne (texts_in (answer_by handle.old given minima.now text.now size))
        (into texts.old texts.new total.old total.new) result }
    ensures short { OneIsShort result (length digits.old < count.new) (length changes.old < number.new)
        (length texts.old < total.new) }
    ensures made { Says (made_in (answer_by handle.old given minima.now text.now size)) made.old
        made.new result }
{
    level_calls::write_word(
        alloc, handle, given, minima, text, size, digits, count, changes, number, texts, total,
        made,
    )
}

/// Writes a word with an equals sign at each of its breaks, and with the texts of changes, to the front of a buffer.
#[unsafe(no_mangle)]
pub extern "C" fn hyphenation_levels_text(
    alloc: Global,
    handle: &mut Handle,
    given: bool,
    minima: &LevelMinima,
    text: &[u8],
    size: usize,
    buffer: &mut [u8],
    count: &mut usize,
) -> u32
    ensures unchanged { handle.new.slot.kept ≡ handle.old.slot.kept }
    ensures text { WritesText (holds handle.old) (minima_given given minima.now) text.now size
        (into buffer.old buffer.new count.old count.new) result }
{
    level_calls::write_text(alloc, handle, given, minima, text, size, buffer, count)
}

/// Does what `hyphenation_levels_word` and `hyphenation_levels_text` do, and breaks most words only once for both. The
/// result is the status of the first, and the status of the second is written to `told`.
#[unsafe(no_mangle)]
pub extern "C" fn hyphenation_levels_both(
    alloc: Global,
    handle: &mut Handle,
    given: bool,
    minima: &LevelMinima,
    text: &[u8],
    size: usize,
    digits: &mut [u8],
    count: &mut usize,
    changes: &mut [LevelChange],
    number: &mut usize,
    texts: &mut [u8],
    total: &mut usize,
    made: &mut bool,
    buffer: &mut [u8],
    bytes: &mut usize,
    told: &mut u32,
) -> u32
    ensures unchanged { handle.new.slot.kept ≡ handle.old.slot.kept }
    ensures status { HasStatus (holds handle.old) (minima_given given minima.now) text.now size result }
    ensures digits { FillsOne (digits_in (answer_by handle.old given minima.now text.now size))
        (into digits.old digits.new count.old count.new) result }
    ensures changes { FillsOne (changes_in (answer_by handle.old given minima.now text.now size))
        (into changes.old changes.new number.old number.new) result }
    ensures texts { FillsOne (texts_in (answer_by handle.old given minima.now text.now size))
        (into texts.old texts.new total.old total.new) result }
    ensures short { OneIsShort result (length digits.old < count.new) (length changes.old < number.new)
        (length texts.old < total.new) }
    ensures made { Says (made_in (answer_by handle.old given minima.now text.now size)) made.old
        made.new result }
    ensures text { WritesText (holds handle.old) (minima_given given minima.now) text.now size
        (into buffer.old buffer.new bytes.old bytes.new) told.new }
{
    level_calls::write_both(
        alloc, handle, given, minima, text, size, digits, count, changes, number, texts, total,
        made, buffer, bytes, told,
    )
}

/// Writes the digits of a word's bytes by the patterns of the first level that change nothing to the front of a
/// buffer.
#[unsafe(no_mangle)]
pub extern "C" fn hyphenation_levels_digits(
    alloc: Global,
    handle: &mut Handle,
    word: &[u8],
    digits: &mut [u8],
    count: &mut usize,
) -> u32
    ensures unchanged { handle.new.slot.kept ≡ handle.old.slot.kept }
    ensures digits { WritesDigits (holds handle.old) word.now (into digits.old digits.new count.old count.new)
        result }
{
    level_calls::write_digits(alloc, handle, word, digits, count)
}
