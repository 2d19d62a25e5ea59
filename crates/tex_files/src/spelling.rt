//! One word of a group, read: a pattern is a key with its values, an exception a word with its breaks.

ghost use Rattle.std.specs.Prelude.{◌≡◌, ◌++◌, false, true, map, IfOk, IfSome, IfNone, OnOk, IfErr, IsTrue, None, Some};
ghost use Rattle.std.specs.List.{list_any};
ghost use Rattle.std.specs.Str.{is_utf8};
ghost use Rattle.std.specs.String.{string_bytes};
ghost use Rattle.hyphenation_hyphenator.specs.Folding.{fold_case};
ghost use Rattle.hyphenation_breaks.specs.Invariant.{has_letter, are_listed};
ghost use Rattle.hyphenation_dictionary.specs.Maker.{pair_of, fits_key};
ghost use Rattle.tex_files.specs.Spelling.{value_of_digit, entry_without_change, folded_text, letter_cause, entries_of_digits};
ghost use Rattle.tex_files.specs.Spelling.{unhyphenated, breaks_of_hyphens, pattern_in, exception_in, is_command, is_caret, is_bad_symbol};
ghost use Rattle.tex_files.specs.Spelling.{says_place, two_in_one_place, symbol_cause, word_cause};
ghost use Rattle.pattern_results.specs.Texts.{letters};
ghost use Rattle.tex_files.specs.Private.Views.{IsWordError};
ghost use Rattle.hyphenation_grammar.specs.Lines.{is_digit};
ghost use Rattle.tex_files.specs.declared.group.Group.TheVariants.{Patterns, Exceptions};

use crate::group::Group;
use crate::word_error::WordError;
use hyphenation_breaks::entry::{Entry, Listing, Payload, has_letter};
use hyphenation_dictionary::dictionary::Dictionary;
use hyphenation_dictionary::maker::fits_key;
use hyphenation_grammar::lines::is_utf8;
use hyphenation_hyphenator::case_folding::refold;
use hyphenation_trie::to_u32;
use pattern_results::errors::FileCause;
use pattern_results::texts::text_from_utf8;
use std::alloc::{AllocError, Global};

// Whether a text has a backslash or a brace.
pub(crate) fn has_command(text: &[u8]) -> bool
    ensures { result ≡ list_any is_command text.now }
{
    text.iter().any(|b| matches!(*b, b'\\' | b'{' | b'}'))
}

// Whether a text has a circumflex.
fn has_caret(text: &[u8]) -> bool
    ensures { result ≡ list_any is_caret text.now }
{
    text.iter().any(|b| *b == b'^')
}

// Whether a byte is an ASCII symbol that is allowed in no word of this group.
fn is_bad_symbol(group: Group, b: u8) -> bool
    ensures { result ≡ is_bad_symbol group b }
{
    match group {
        Group::Patterns =>
            !matches!(b, b'a'..=b'z' | b'A'..=b'Z' | b'\'' | b'-' | b'0'..=b'9' | b'.' | 128..),
        Group::Exceptions => !matches!(b, b'a'..=b'z' | b'A'..=b'Z' | b'\'' | b'-' | 128..),
    }
}

// Whether a text has a symbol that is allowed in no word of this group.
fn has_bad_symbol(group: Group, text: &[u8]) -> bool
    ensures { result ≡ list_any (is_bad_symbol group) text.now }
{
    text.iter().any(|b| is_bad_symbol(group, *b))
}

// Whether a byte says a place: the digit of a value in a pattern, or the hyphen of a break in an exception.
pub(crate) fn says_place(group: Group, b: u8) -> bool
    ensures { result ≡ says_place group b }
{
    match group {
        Group::Patterns => matches!(b, b'0'..=b'9'),
        Group::Exceptions => b == b'-',
    }
}

// Whether two digits of a pattern, or two hyphens of an exception, are in succession.
pub(crate) fn has_two_in_one_place(group: Group, text: &[u8]) -> bool
    ensures { result ≡ two_in_one_place group false text.now }
{
    let mut after = false;
    for b in text {
        let says = says_place(group, *b);
        if after && says {
            return true;
        }
        after = says;
    }
    false
}

// The first test of its symbols that a word fails.
fn symbol_cause(group: Group, text: &[u8]) -> Option<FileCause>
    ensures { result ≡ symbol_cause group text.now }
{
    if has_command(text) {
        Some(FileCause::Command)
    } else if has_caret(text) {
        Some(FileCause::Caret)
    } else if has_bad_symbol(group, text) {
        Some(FileCause::Symbol)
    } else if has_two_in_one_place(group, text) {
        Some(FileCause::TwoInOnePlace)
    } else {
        None
    }
}

// Appends the value that a digit writes, unless the value is 0. The place counts bytes.
fn push_value<C: Payload>(
    entries: &mut Vec<Entry<C>>,
    place: usize,
    digit: u8,
) -> Result<(), AllocError>
    requires { IsTrue (is_digit digit) }
    ensures { OnOk result (entries.new.items
        ≡ entries.old.items ++ map (entry_without_change C.payload_of) (value_of_digit place digit)) }
{
    if digit == b'0' {
        return Ok(());
    }
    entries.push(Entry {
        place: to_u32(place)?,
        value: digit - b'0',
        change: C::from_change(None),
    })?;
    Ok(())
}

// Splits a pattern into its letters and its values other than 0, each at the number of bytes of letters before it.
fn letters_and_entries<C: Payload>(
    alloc: Global,
    text: &[u8],
) -> Result<(Vec<u8>, Vec<Entry<C>>), AllocError>
    ensures letters { IfOk result (λ found. found.0.items ≡ letters text.now) }
    ensures entries { IfOk result (λ found. found.1.items ≡ entries_of_digits C.payload_of text.now) }
{
    let mut key = Vec::new(alloc);
    let mut entries = Vec::new(alloc);
    for b in text {
        if says_place(Group::Patterns, *b) {
            push_value(&mut entries, key.len(), *b)?;
        } else {
            key.push(*b)?;
        }
    }
    Ok((key, entries))
}

// Splits a word with hyphens into its letters and its breaks, each at the number of bytes of letters before it.
fn letters_and_breaks<B: Listing>(
    alloc: Global,
    text: &[u8],
) -> Result<(Vec<u8>, Vec<B>), AllocError>
    ensures letters { IfOk result (λ found. found.0.items ≡ unhyphenated text.now) }
    ensures breaks { IfOk result (λ found. found.1.items ≡ breaks_of_hyphens B.listing_of text.now) }
{
    let mut word = Vec::new(alloc);
    let mut listed = Vec::new(alloc);
    for b in text {
        if *b == b'-' {
            listed.push(B::from_place(word.len(), None))?;
        } else {
            word.push(*b)?;
        }
    }
    Ok((word, listed))
}

// Reads a pattern in small letters, which must have passed the tests of its symbols: its key, with its entries. An
// error is the first test of the letters that it fails, or out of memory.
fn read_letters<C: Payload>(
    alloc: Global,
    text: &[u8],
) -> Result<(String, Vec<Entry<C>>), WordError>
    ensures passes_tests { OnOk result (letter_cause Patterns text.now ≡ None) }
    ensures spelled { IfOk result (λ p. pair_of p ≡ (letters text.now, entries_of_digits C.payload_of text.now)) }
    ensures fits { IfOk result (λ p. IsTrue (fits_key C.change_of (string_bytes p.0) p.1.items)) }
    ensures first_failed_test { IfErr result (λ error. IsWordError error (letter_cause Patterns text.now)) }
{
    let (key, entries) = letters_and_entries(alloc, text)?;
    if !has_letter(&key) {
        return Err(WordError::Fails(FileCause::NoLetters));
    }
    match text_from_utf8(key) {
        None => Err(WordError::Fails(FileCause::NotUtf8)),
        Some(key) => {
            if !fits_key(&key, &entries) {
                return Err(WordError::Fails(FileCause::NotUtf8));
            }
            Ok((key, entries))
        }
    }
}

// A text with its capitals made small.
fn fold_text(alloc: Global, text: &str) -> Result<Vec<u8>, AllocError>
    ensures { IfOk result (λ found. found.items ≡ fold_case text.now) }
{
    let (folded, _) = refold(alloc, text)?;
    Ok(folded.into_owned(alloc)?.into_bytes())
}

/// A word with its capitals made small. A word that is not UTF-8 stays as it is.
pub fn folded(alloc: Global, text: &[u8]) -> Result<Vec<u8>, AllocError>
    ensures { IfOk result (λ found. found.items ≡ folded_text text.now) }
{
    match std::str::from_utf8(text) {
        Ok(text) => fold_text(alloc, text),
        Err(_) => Vec::from_slice(alloc, text),
    }
}

/// Reads a pattern: its key in small letters, with its entries. An error is the first test that it fails, or out of
/// memory.
pub fn read_pattern<C: Payload>(
    alloc: Global,
    text: &[u8],
) -> Result<(String, Vec<Entry<C>>), WordError>
    ensures passes_tests { OnOk result (word_cause Patterns text.now ≡ None) }
    ensures spelled { IfOk result (λ p. Some (pair_of p) ≡ pattern_in C.payload_of Patterns text.now) }
    ensures fits { IfOk result (λ p. IsTrue (fits_key C.change_of (string_bytes p.0) p.1.items)) }
    ensures first_failed_test { IfErr result (λ error. IsWordError error (word_cause Patterns text.now)) }
{
    match symbol_cause(Group::Patterns, text) {
        Some(cause) => Err(WordError::Fails(cause)),
        None => read_letters(alloc, &folded(alloc, text)?),
    }
}

// Reads a word with hyphens in small letters, which must have passed the tests of its symbols: the word, with its
// breaks. An error is that it is not UTF-8, or out of memory.
fn read_breaks<C: Payload, B: Listing>(
    alloc: Global,
    text: &[u8],
) -> Result<(String, Vec<B>), WordError>
    ensures passes_tests { OnOk result (letter_cause Exceptions text.now ≡ None) }
    ensures spelled { IfOk result (λ e. pair_of e ≡ (unhyphenated text.now, breaks_of_hyphens B.listing_of text.now)) }
    ensures fits { IfOk result (λ e. IsTrue (are_listed B.meaning (string_bytes e.0) e.1.items)) }
    ensures first_failed_test { IfErr result (λ error. IsWordError error (letter_cause Exceptions text.now)) }
{
    let (word, listed) = letters_and_breaks(alloc, text)?;
    match text_from_utf8(word) {
        None => Err(WordError::Fails(FileCause::NotUtf8)),
        Some(word) => {
            if !Dictionary::<C, B>::fits(&word, &listed) {
                return Err(WordError::Fails(FileCause::NotUtf8));
            }
            Ok((word, listed))
        }
    }
}

/// Reads a word with hyphens: the word in small letters, with its breaks. An error is the first test that it fails, or
/// out of memory.
pub fn read_exception<C: Payload, B: Listing>(
    alloc: Global,
    text: &[u8],
) -> Result<(String, Vec<B>), WordError>
    ensures passes_tests { OnOk result (word_cause Exceptions text.now ≡ None) }
    ensures spelled { IfOk result (λ e. Some (pair_of e) ≡ exception_in B.listing_of Exceptions text.now) }
    ensures fits { IfOk result (λ e. IsTrue (are_listed B.meaning (string_bytes e.0) e.1.items)) }
    ensures first_failed_test { IfErr result (λ error. IsWordError error (word_cause Exceptions text.now)) }
{
    match symbol_cause(Group::Exceptions, text) {
        Some(cause) => Err(WordError::Fails(cause)),
        None => read_breaks::<C, B>(alloc, &folded(alloc, text)?),
    }
}
