//! The calls of C, as functions of Rattle. The crate `hyphenation_c` exports each of them, by a name of its own.
//!
//! A handle ([`handle`]) lies in the caller's memory, and holds one dictionary or none. Each call but [`kind_of`]
//! returns a status ([`statuses`]). A call writes what it finds into a buffer of the caller's. If the buffer is too
//! short, it stays unchanged, and the count says how much room is wanted. No memory passes from one side to the other.
//!
//! The functions here take the dictionary out of its handle and put it back. The modules do the work: [`calls`] and those
//! below it have a dictionary that is loaded.
#![tactic(auto)]

ghost use Rattle.std.specs.Prelude.{◌≡◌};
ghost use Rattle.c_calls.specs.Contents.{holds};
ghost use Rattle.c_calls.specs.ExceptionLists.{AddsExceptions};
ghost use Rattle.c_calls.specs.Lists.{WritesLists};
ghost use Rattle.c_calls.specs.Numbered.{WritesListed, WritesScores};
ghost use Rattle.c_calls.specs.Paths.{WritesExceptionPaths, WritesPaths};
ghost use Rattle.c_calls.specs.Patterns.{LoadsDic};
ghost use Rattle.c_calls.specs.Statuses.{kind_numbered, Loads, Shares, Edits, WritesLanguage, WritesMinima};
ghost use Rattle.c_calls.specs.Statuses.{kind_named, WritesBreaks, WritesComposedBreaks, WritesValues, Changes};
ghost use Rattle.c_calls.specs.Statuses.{RaisesMinima, into, loading};
ghost use Rattle.c_calls.specs.Statuses.{WritesMarkedText, WritesLines, WritesCanonicalText};
ghost use Rattle.c_calls.specs.TexFiles.{LoadsPatterns, PlacesFault};

pub mod buffers;
pub mod calls;
pub mod changes;
pub mod content;
pub mod edits;
pub mod exceptions;
pub mod handle;
pub mod lists;
pub mod numbered;
pub mod numbers;
pub mod paths;
pub mod patterns;
pub mod statuses;
pub mod tex;
pub mod utf8;

use changes::BreakChange;
use content::Content;
use handle::Handle;
use hyphenation_reader::reader::Refusal;
use language_search::Sought;
use lists::WordList;
use numbered::NumberedChange;
use patterns::Failure;
use statuses::{
    DONE, NO_DICTIONARY, NO_LANGUAGE, NO_MINIMA, NOT_UTF8, OTHER_KIND, OUT_OF_MEMORY, REFUSED,
};
use std::alloc::Global;
use tex::NoDictionary;

/// Lends what a handle holds to an expression, puts it back, and gives the value of the expression.
///
/// If the handle holds nothing that has the pattern, the value is that of the other expression.
#[macro_export]
macro_rules! lend {
    ($handle:ident, $alloc:ident, $held:pat => $with:block else $without:expr) => {
        match $handle.take($alloc) {
            Some(content) => {
                let value = match &*content {
                    $held => $with,
                    _ => $without,
                };
                *$handle = $crate::handle::Handle::of(content);
                value
            }
            None => $without,
        }
    };
}

/// Returns the kind that the first line of a dictionary text names. It is 0 for a standard dictionary, 1 for an extended
/// one, and 2 if the line names none.
///
/// The rest of the text is not read. A text that is accepted as one of a kind names that kind.
pub fn kind_of(bytes: &[u8]) -> u32
    ensures { result ≡ kind_named bytes.now }
{
    numbers::kind_number(any_dictionary::kind_of(bytes))
}

/// Loads a dictionary of a kind from its text. It takes the place of the dictionary that the handle held.
///
/// The kind is 0 for a standard dictionary, and 1 for an extended one. For a refused text (`REFUSED`) the first faulty
/// line, counted from 1, and the number of its cause are written. With each status but `DONE` the handle is unchanged.
pub fn load(
    alloc: Global,
    kind: u32,
    bytes: &[u8],
    handle: &mut Handle,
    line: &mut usize,
    cause: &mut u32,
) -> u32
    ensures loads { Loads (kind_numbered kind) bytes.now
        (loading (holds handle.old) (holds handle.new) (line.old, cause.old) (line.new, cause.new)) result }
{
    let Some(kind) = numbers::kind_numbered(kind) else {
        return OTHER_KIND;
    };
    match calls::load(alloc, kind, bytes) {
        Ok(loaded) => {
            handle.put(alloc, loaded);
            DONE
        }
        Err(
            Refusal::Fault {
                line: at,
                cause: why,
            },
        ) => {
            *line = at;
            *cause = numbers::cause_number(why);
            REFUSED
        }
        Err(Refusal::Memory) => OUT_OF_MEMORY,
    }
}

/// Makes a dictionary of a kind from LibreOffice's `.dic`. It takes the place of the dictionary that the handle held.
///
/// The language is a code such as `en-us`. A minimum above 255 is the one that the file says, or 2. For a refused file
/// (`REFUSED`) the line of its first fault, counted from 1, and the number of its cause, from 21 on, are written. With
/// each status but `DONE` the handle is unchanged.
pub fn load_dic(
    alloc: Global,
    kind: u32,
    code: &[u8],
    left: u32,
    right: u32,
    bytes: &[u8],
    handle: &mut Handle,
    line: &mut usize,
    cause: &mut u32,
) -> u32
    ensures loads { LoadsDic kind left right code.now bytes.now
        (loading (holds handle.old) (holds handle.new) (line.old, cause.old) (line.new, cause.new)) result }
{
    let Some(kind) = numbers::kind_numbered(kind) else {
        return OTHER_KIND;
    };
    let minima = patterns::minima_given(left, right);
    match patterns::load_dic(alloc, kind, code, minima, bytes) {
        Ok(loaded) => {
            handle.put(alloc, loaded);
            DONE
        }
        Err(Failure::Fault(at, why)) => {
            *line = at;
            *cause = patterns::pattern_cause_number(why);
            REFUSED
        }
        Err(Failure::Memory) => OUT_OF_MEMORY,
        Err(Failure::NotUtf8) => NOT_UTF8,
        Err(Failure::NotCode) => NO_LANGUAGE,
    }
}

/// Makes a dictionary of a kind from a TeX file of patterns, or a plain one, and a plain file of exceptions.
///
/// The form is 0 for a TeX file, and 1 for a plain one. The file of exceptions may be empty. A minimum above 255 is the
/// one in the head of the TeX file, as those of hyph-utf8 have it; `NO_MINIMA` if none is there. For a refused file
/// (`REFUSED`) its number is written, which is 0 or 1. So is the line of its first fault, counted from 1, and the
/// number of the cause, from 21 on. With each status but `DONE` the handle is unchanged.
pub fn load_patterns(
    alloc: Global,
    kind: u32,
    form: u32,
    code: &[u8],
    left: u32,
    right: u32,
    bytes: &[u8],
    exceptions: &[u8],
    handle: &mut Handle,
    file: &mut usize,
    line: &mut usize,
    cause: &mut u32,
) -> u32
    ensures loads { LoadsPatterns (kind, form) (left, right) code.now bytes.entry exceptions.entry
        (holds handle.old) (holds handle.new) result }
    ensures fault { PlacesFault form bytes.entry exceptions.entry (file.old, (line.old, cause.old))
        (file.new, (line.new, cause.new)) result }
{
    let Some(kind) = numbers::kind_numbered(kind) else {
        return OTHER_KIND;
    };
    let Some(form) = tex::form_numbered(form) else {
        return OTHER_KIND;
    };
    let minima = patterns::minima_given(left, right);
    match tex::load_patterns(alloc, kind, code, minima, form, bytes, exceptions) {
        Ok(loaded) => {
            handle.put(alloc, loaded);
            DONE
        }
        Err(NoDictionary::Fault(number, at, why)) => {
            *file = number;
            *line = at;
            *cause = patterns::pattern_cause_number(why);
            REFUSED
        }
        Err(NoDictionary::Memory) => OUT_OF_MEMORY,
        Err(NoDictionary::NotUtf8) => NOT_UTF8,
        Err(NoDictionary::NotCode) => NO_LANGUAGE,
        Err(NoDictionary::NoMinima) => NO_MINIMA,
    }
}

/// Lets another handle hold the same dictionary, for another thread for example. Nothing is copied.
///
/// It takes the place of the dictionary that the other handle held. This handle never changes, and the other one only
/// with `DONE`.
pub fn share(alloc: Global, handle: &mut Handle, other: &mut Handle) -> u32
    ensures unchanged { holds handle.new ≡ holds handle.old }
    ensures shares { Shares (holds handle.old) (holds other.old) (holds other.new) result }
{
    lend!(handle, alloc, Content::Dictionary(loaded) => {
        match loaded.shared(alloc) {
            Ok(shared) => {
                other.put(alloc, shared);
                DONE
            }
            Err(_) => OUT_OF_MEMORY,
        }
    } else NO_DICTIONARY)
}

/// Edits the exceptions: `+` and an exception as it is written after `e ` in a dictionary text, or `-` and a word.
///
/// Other handles with the same dictionary are unchanged: if there are any, this handle holds an edited copy afterwards.
/// A faulty edit is `REFUSED`. With each status but `DONE` the dictionary is unchanged.
pub fn edit(alloc: Global, handle: &mut Handle, edit: &[u8]) -> u32
    ensures edits { Edits (holds handle.old) (holds handle.new) edit.now result }
{
    let Some(mut content) = handle.take(alloc) else {
        return NO_DICTIONARY;
    };
    let status = match &mut *content {
        Content::Dictionary(loaded) => edits::edit(loaded, alloc, edit),
        Content::Levels(_) => NO_DICTIONARY,
    };
    *handle = Handle::of(content);
    status
}

/// Adds the exceptions of a list: one word a line, with hyphens where it may break, and groups `\hyphenation{..}`.
///
/// Other handles with the same dictionary are unchanged: this handle holds a copy with the exceptions afterwards. For a
/// refused list (`REFUSED`) the line of its first fault, counted from 1, and the number of its cause, from 21 on, are
/// written. With each status but `DONE` the dictionary is unchanged.
pub fn add_exceptions(
    alloc: Global,
    handle: &mut Handle,
    text: &[u8],
    line: &mut usize,
    cause: &mut u32,
) -> u32
    ensures adds { AddsExceptions text.now
        (loading (holds handle.old) (holds handle.new) (line.old, cause.old) (line.new, cause.new)) result }
{
    let Some(mut content) = handle.take(alloc) else {
        return NO_DICTIONARY;
    };
    let status = if let Content::Dictionary(loaded) = &mut *content {
        edits::add_list(loaded, alloc, text, line, cause)
    } else {
        NO_DICTIONARY
    };
    *handle = Handle::of(content);
    status
}

/// Raises the minima to at least these numbers of characters. Greater ones stay, and nothing else changes.
///
/// Other handles with the same dictionary are unchanged: if there are any, this handle holds a copy with the raised minima
/// afterwards. With each status but `DONE` the dictionary is unchanged.
pub fn raise_minima(alloc: Global, handle: &mut Handle, left: u8, right: u8) -> u32
    ensures raises { RaisesMinima (holds handle.old) (holds handle.new) left right result }
{
    let Some(mut content) = handle.take(alloc) else {
        return NO_DICTIONARY;
    };
    let status = if let Content::Dictionary(loaded) = &mut *content {
        edits::raise_minima(loaded, alloc, left, right)
    } else {
        NO_DICTIONARY
    };
    *handle = Handle::of(content);
    status
}

/// Writes the code of the dictionary's language to the front of a buffer: at most 32 bytes.
pub fn write_language(alloc: Global, handle: &mut Handle, code: &mut [u8], count: &mut usize) -> u32
    ensures unchanged { handle.new.slot.kept ≡ handle.old.slot.kept }
    ensures language { WritesLanguage (holds handle.old) code.old code.new count.old count.new result }
{
    lend!(handle, alloc, Content::Dictionary(loaded) => {
        calls::write_language(loaded, code, count)
    } else NO_DICTIONARY)
}

/// Writes the least numbers of characters of a word before its first break and after its last one.
pub fn write_minima(alloc: Global, handle: &mut Handle, left: &mut usize, right: &mut usize) -> u32
    ensures unchanged { handle.new.slot.kept ≡ handle.old.slot.kept }
    ensures minima { WritesMinima (holds handle.old) (left.old, right.old) (left.new, right.new) result }
{
    lend!(handle, alloc, Content::Dictionary(loaded) => {
        let minima = loaded.dictionary.minima();
        *left = minima.0;
        *right = minima.1;
        DONE
    } else NO_DICTIONARY)
}

/// Writes the places of a word's breaks, in bytes, to the front of a buffer.
pub fn write_breaks(
    alloc: Global,
    handle: &mut Handle,
    word: &[u8],
    places: &mut [usize],
    count: &mut usize,
) -> u32
    ensures unchanged { handle.new.slot.kept ≡ handle.old.slot.kept }
    ensures breaks { WritesBreaks (holds handle.old) word.now places.old places.new count.old count.new
        result }
{
    lend!(handle, alloc, Content::Dictionary(loaded) => {
        calls::write_breaks(loaded, alloc, word, places, count)
    } else NO_DICTIONARY)
}

/// Writes the places of a word's breaks, as its NFC is broken, to the front of a buffer.
///
/// A word in NFC has the places of [`write_breaks`]. Another word is broken at the places that have the same NFC before them and
/// after them as a break of its NFC, so none is before a mark that NFC joins with its letter. A break is left out where there is
/// no such place, or where it changes letters. All places are bytes of the word as it is written.
///
/// ```text
/// write_composed_breaks(alloc, handle, "Schu\u{308}ler".as_bytes(), places, count)   // 6, where Schüler is broken at 5
/// ```
pub fn write_composed_breaks(
    alloc: Global,
    handle: &mut Handle,
    word: &[u8],
    places: &mut [usize],
    count: &mut usize,
) -> u32
    ensures unchanged { handle.new.slot.kept ≡ handle.old.slot.kept }
    ensures breaks { WritesComposedBreaks (holds handle.old) word.now places.old places.new count.old count.new
        result }
{
    lend!(handle, alloc, Content::Dictionary(loaded) => {
        calls::write_composed_breaks(loaded, alloc, word, places, count)
    } else NO_DICTIONARY)
}

/// Writes the places of the breaks of a list of words to one buffer, and the ends of the words' places to another one.
///
/// The words are side by side in a text, and each has its end in it. Places are counted from the beginning of their
/// word, in bytes. The places of a word end where those of the next one begin. A word that ends before it begins, or
/// after the text, is `BAD_ENDS`.
pub fn write_breaks_of_words(
    alloc: Global,
    handle: &mut Handle,
    text: &[u8],
    ends: &[usize],
    list: &mut [usize],
    count: &mut usize,
    last: &mut [usize],
    size: &mut usize,
) -> u32
    ensures unchanged { handle.new.slot.kept ≡ handle.old.slot.kept }
    ensures list { WritesLists (holds handle.old) text.now ends.now (into list.old list.new count.old count.new)
        (into last.old last.new size.old size.new) result }
{
    lend!(handle, alloc, Content::Dictionary(loaded) => {
        let words = WordList { text, ends };
        lists::write_breaks_of_words(loaded, alloc, words, list, count, last, size)
    } else NO_DICTIONARY)
}

/// Writes the values of a word's places, from place 1 on, to the front of a buffer.
///
/// A place is a number of bytes before it. The values are those of the patterns, for the word as it is written.
/// Capitals are not made small, and neither exceptions nor minima are looked at.
pub fn write_values(
    alloc: Global,
    handle: &mut Handle,
    word: &[u8],
    values: &mut [u8],
    count: &mut usize,
) -> u32
    ensures unchanged { handle.new.slot.kept ≡ handle.old.slot.kept }
    ensures values { WritesValues (holds handle.old) word.now values.old values.new count.old count.new
        result }
{
    lend!(handle, alloc, Content::Dictionary(loaded) => {
        calls::write_values(loaded, alloc, word, values, count)
    } else NO_DICTIONARY)
}

/// Writes a word's breaks and the changes that they make to one buffer, and the texts of the changes to another one.
pub fn write_changes(
    alloc: Global,
    handle: &mut Handle,
    word: &[u8],
    changes: &mut [BreakChange],
    count: &mut usize,
    text: &mut [u8],
    size: &mut usize,
) -> u32
    ensures unchanged { handle.new.slot.kept ≡ handle.old.slot.kept }
    ensures changes { Changes (holds handle.old) word.now (into changes.old changes.new count.old count.new)
        (into text.old text.new size.old size.new) result }
{
    lend!(handle, alloc, Content::Dictionary(loaded) => {
        calls::write_changes(loaded, alloc, word, changes, count, text, size)
    } else NO_DICTIONARY)
}

/// Writes the breaks that are listed for a word, and the substitutions of their changes, to the front of two buffers. The
/// number of each is its place.
///
/// The word is compared byte by byte: an exception in small letters is found only by small letters. The minima are not
/// looked at. A word that is no exception is `NO_EXCEPTION`.
pub fn write_exception(
    alloc: Global,
    handle: &mut Handle,
    word: &[u8],
    changes: &mut [NumberedChange],
    count: &mut usize,
    text: &mut [u8],
    size: &mut usize,
) -> u32
    ensures unchanged { handle.new.slot.kept ≡ handle.old.slot.kept }
    ensures listed { WritesListed (holds handle.old) word.now (into changes.old changes.new count.old count.new)
        (into text.old text.new size.old size.new) result }
{
    lend!(handle, alloc, Content::Dictionary(loaded) => {
        exceptions::write_exception(loaded, alloc, word, changes, count, text, size)
    } else NO_DICTIONARY)
}

/// Writes the scores of a word's places, from place 1 on, and the substitutions of their changes to the front of two
/// buffers. The number of each is its value.
///
/// A place is a number of bytes before it. A score is the value of [`write_values`], with the change that an extended
/// dictionary has for it.
pub fn write_scores(
    alloc: Global,
    handle: &mut Handle,
    word: &[u8],
    changes: &mut [NumberedChange],
    count: &mut usize,
    text: &mut [u8],
    size: &mut usize,
) -> u32
    ensures unchanged { handle.new.slot.kept ≡ handle.old.slot.kept }
    ensures scores { WritesScores (holds handle.old) word.now (into changes.old changes.new count.old count.new)
        (into text.old text.new size.old size.new) result }
{
    lend!(handle, alloc, Content::Dictionary(loaded) => {
        exceptions::write_scores(loaded, alloc, word, changes, count, text, size)
    } else NO_DICTIONARY)
}

/// Writes a text with the mark at each break of its words to the front of a buffer.
pub fn write_text(
    alloc: Global,
    handle: &mut Handle,
    text: &[u8],
    mark: &[u8],
    buffer: &mut [u8],
    count: &mut usize,
) -> u32
    ensures unchanged { handle.new.slot.kept ≡ handle.old.slot.kept }
    ensures text { WritesMarkedText (holds handle.old) text.now mark.now buffer.old buffer.new count.old
        count.new result }
{
    lend!(handle, alloc, Content::Dictionary(loaded) => {
        calls::write_text(loaded, alloc, text, mark, buffer, count)
    } else NO_DICTIONARY)
}

/// Writes the lines of a text, each with a line feed after it, to the front of a buffer.
///
/// A line has at most `columns` characters, if the text can be divided so. An extended dictionary is `OTHER_KIND`.
pub fn write_lines(
    alloc: Global,
    handle: &mut Handle,
    text: &[u8],
    columns: usize,
    buffer: &mut [u8],
    count: &mut usize,
) -> u32
    ensures unchanged { handle.new.slot.kept ≡ handle.old.slot.kept }
    ensures lines { WritesLines (holds handle.old) text.now columns buffer.old buffer.new count.old count.new
        result }
{
    lend!(handle, alloc, Content::Dictionary(loaded) => {
        calls::write_lines(loaded, alloc, text, columns, buffer, count)
    } else NO_DICTIONARY)
}

/// Writes the dictionary's canonical text to the front of a buffer.
pub fn write_canonical_text(
    alloc: Global,
    handle: &mut Handle,
    buffer: &mut [u8],
    count: &mut usize,
) -> u32
    ensures unchanged { handle.new.slot.kept ≡ handle.old.slot.kept }
    ensures canonical { WritesCanonicalText (holds handle.old) buffer.old buffer.new count.old count.new
        result }
{
    lend!(handle, alloc, Content::Dictionary(loaded) => {
        calls::write_canonical_text(loaded, alloc, buffer, count)
    } else NO_DICTIONARY)
}

/// Writes the paths at which a dictionary is looked for to a buffer, in their order, each with a byte 0 behind it. The
/// first one at which there is a file has it.
///
/// The texts are the tag of the language, and the values of the variables `HYPHENATION_PATH`, `XDG_DATA_HOME` and
/// `HOME`. A variable that is not set has an empty text. A path that would have a byte 0 in it is left out, since no
/// file has one.
pub fn write_paths(
    alloc: Global,
    tag: &[u8],
    path: &[u8],
    data_home: &[u8],
    home: &[u8],
    buffer: &mut [u8],
    count: &mut usize,
) -> u32
    ensures paths { WritesPaths tag.now (path.now, data_home.now, home.now) buffer.old buffer.new count.old count.new
        result }
{
    paths::write_paths(
        alloc,
        Sought::Dictionary,
        tag,
        path,
        data_home,
        home,
        buffer,
        count,
    )
}

/// Writes the paths at which a list of exceptions is looked for to a buffer, in their order, each with a byte 0 behind
/// it. The first one at which there is a file has it.
///
/// The texts are those of [`write_paths`]. The paths have the ending `.exceptions`.
pub fn write_exception_paths(
    alloc: Global,
    tag: &[u8],
    path: &[u8],
    data_home: &[u8],
    home: &[u8],
    buffer: &mut [u8],
    count: &mut usize,
) -> u32
    ensures paths { WritesExceptionPaths tag.now (path.now, data_home.now, home.now) buffer.old buffer.new count.old
        count.new result }
{
    paths::write_paths(
        alloc,
        Sought::Exceptions,
        tag,
        path,
        data_home,
        home,
        buffer,
        count,
    )
}
