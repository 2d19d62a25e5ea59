//! The canonical text of a dictionary, piece by piece. Functions named `push_..` append to a text.

ghost use Rattle.std.specs.Prelude.{◌≡◌, ◌++◌, ◌∷◌, [], None, Some, OnOk, IfOk, IfSome, IfNone, decimal, flat_map};
ghost use Rattle.std.specs.Prelude.{map, nat_le, option_copied};
ghost use Rattle.std.specs.List.{list_all};
ghost use Rattle.std.specs.FinMap as finite;
ghost use Rattle.hyphenation_breaks.specs.Ascii.{backslash, line_feed};
ghost use Rattle.hyphenation_writer.specs.Canonical.{are_digits, before_comma, break_token, byte_spelling};
ghost use Rattle.hyphenation_writer.specs.Canonical.{canonical_text_of, changes_of, with_line_feeds, entry_as_spelt};
ghost use Rattle.hyphenation_writer.specs.Canonical.{exception_line, language_line, later_tokens, element_spelling};
ghost use Rattle.hyphenation_writer.specs.Canonical.{minima_line, pattern_line, pattern_token, text_token};
ghost use Rattle.hyphenation_writer.specs.Canonical.{standard_text, extended_text};
ghost use Rattle.hyphenation_grammar.specs.Form.{head_line};
ghost use Rattle.hyphenation_grammar.specs.declared.form.Kind.TheVariants.{Standard as OfStandard};
ghost use Rattle.hyphenation_grammar.specs.declared.form.Kind.TheVariants.{Extended as OfExtended};
ghost use Rattle.hyphenation_grammar.specs.Judging.{refusal_of};
ghost use Rattle.hyphenation_grammar.specs.Reading.{standard_contents, extended_contents};
ghost use Rattle.hyphenation_dictionary.specs.Parts.{pair_views};
ghost use Rattle.hyphenation_writer.specs.Private.Ordered.{as_texts};
ghost use Rattle.hyphenation_trie.specs.Keys.{key_views};
ghost use Rattle.hyphenation_writer.specs.Private.Writing.{entries_after, text_in_order, key_line, first_value_at, version_of_keys};
ghost use Rattle.hyphenation_writer.specs.Private.Writing.{word_line};
ghost use Rattle.hyphenation_grammar.specs.declared.tokens.Escapes.TheVariants.{Plain};
ghost use Rattle.hyphenation_grammar.specs.declared.tokens.PatternElement.TheVariants.{Value};
ghost use Rattle.hyphenation_grammar.specs.Tokens.{pattern_escapes};

use crate::laws::written_is_read_again;
use crate::order::in_order;
use hyphenation_breaks::entry::{Entry, Listing, Payload};
use hyphenation_breaks::extended::Subregion;
use hyphenation_breaks::language::Language;
use hyphenation_dictionary::dictionary::{Dictionary, Extended, Standard};
use hyphenation_dictionary::parts;
use hyphenation_grammar::form::{Form, Kind, Version};
use hyphenation_grammar::lines::head_of;
use hyphenation_grammar::pattern::pattern_escapes;
use hyphenation_grammar::tokens::{Escapes, escaped_also};
use std::alloc::{AllocError, Global};

// Returns the letter that means a byte after a backslash. `None` if the byte needs no escape.
fn escape_of(escapes: Escapes, byte: u8) -> Option<u8>
    ensures escaped { IfSome result (λ letter. byte_spelling escapes byte ≡ backslash ∷ letter ∷ []) }
    ensures as_itself { IfNone result (byte_spelling escapes byte ≡ byte ∷ []) }
{
    match byte {
        b'\\' => Some(b'\\'),
        b' ' => Some(b's'),
        b'\n' => Some(b'n'),
        b'\r' => Some(b'r'),
        _ if escaped_also(escapes, byte) => Some(byte),
        _ => None,
    }
}

// Appends a byte, with an escape if it needs one.
fn push_byte(text: &mut Vec<u8>, escapes: Escapes, byte: u8) -> Result<(), AllocError>
    ensures { OnOk result (text.new.items ≡ text.old.items ++ byte_spelling escapes byte) }
{
    match escape_of(escapes, byte) {
        Some(letter) => text.extend_from_slice(&[b'\\', letter]),
        None => text.extend_from_slice(&[byte]),
    }
}

// Appends bytes, with escapes where they need them.
fn push_bytes(text: &mut Vec<u8>, escapes: Escapes, bytes: &[u8]) -> Result<(), AllocError>
    ensures { OnOk result (text.new.items ≡ text.old.items ++ flat_map (byte_spelling escapes) bytes.now) }
{
    for byte in bytes {
        push_byte(text, escapes, *byte)?;
    }
    Ok(())
}

// Appends a word or a substitution. The empty text is `\e`.
fn push_text(text: &mut Vec<u8>, said: &[u8]) -> Result<(), AllocError>
    ensures { OnOk result (text.new.items ≡ text.old.items ++ text_token said.now) }
{
    if said.is_empty() {
        return text.extend_from_slice(b"\\e");
    }
    push_bytes(text, Escapes::Plain, said)
}

// Appends a number in decimal.
fn push_number(text: &mut Vec<u8>, number: usize) -> Result<(), AllocError>
    ensures { OnOk result (text.new.items ≡ text.old.items ++ decimal number) }
{
    let digits = number.to_string(*text.allocator())?;
    text.extend_from_slice(digits.as_bytes())
}

// Appends a number and a comma.
fn push_part(text: &mut Vec<u8>, number: usize) -> Result<(), AllocError>
    ensures { OnOk result (text.new.items ≡ text.old.items ++ before_comma number []) }
{
    push_number(text, number)?;
    text.push(b',')?;
    Ok(())
}

// Appends a later token: a change at a place.
fn push_change(text: &mut Vec<u8>, place: usize, change: &Subregion) -> Result<(), AllocError>
    ensures { OnOk result (text.new.items ≡ text.old.items ++ break_token place (Some change.now)) }
{
    push_part(text, place)?;
    push_part(text, change.left)?;
    push_part(text, change.right)?;
    push_part(text, change.breakpoint)?;
    push_text(text, change.substitution.as_bytes())
}

// Appends a later token: a place, or a change at a place.
fn push_break(
    text: &mut Vec<u8>,
    place: usize,
    change: Option<&Subregion>,
) -> Result<(), AllocError>
    ensures { OnOk result (text.new.items ≡ text.old.items ++ break_token place (option_copied change.entry)) }
{
    match change {
        Some(change) => push_change(text, place, change),
        None => push_number(text, place),
    }
}

// Appends listed breaks, each after a space.
fn push_listed<B: Listing>(text: &mut Vec<u8>, listed: &[B]) -> Result<(), AllocError>
    ensures { OnOk result (text.new.items ≡ text.old.items ++ later_tokens (map B.meaning listed.now)) }
{
    for b in listed {
        text.push(b' ')?;
        push_break(text, b.place(), b.change())?;
    }
    Ok(())
}

// Appends the line of a word with its listed breaks, without a line feed.
fn push_exception<B: Listing>(
    text: &mut Vec<u8>,
    word: &[u8],
    listed: &[B],
) -> Result<(), AllocError>
    ensures { OnOk result (text.new.items ≡ text.old.items ++ exception_line word.now (map B.meaning listed.now)) }
{
    text.extend_from_slice(b"e ")?;
    push_text(text, word)?;
    push_listed(text, listed)
}

// Appends a value: a digit up to 9, a number in braces above.
fn push_value(text: &mut Vec<u8>, version: Version, value: u8) -> Result<(), AllocError>
    ensures { OnOk result (text.new.items ≡ text.old.items ++ element_spelling version (Value value)) }
{
    if value <= 9 {
        return text.extend_from_slice(&[b'0' + value]);
    }
    text.push(b'{')?;
    push_number(text, usize::from(value))?;
    text.push(b'}')?;
    Ok(())
}

// Appends the value of the first entry, if that is at this place. Returns the entries not yet written.
fn push_value_at<'a, C: Payload>(
    text: &mut Vec<u8>,
    version: Version,
    at: usize,
    entries: &'a [Entry<C>],
) -> Result<&'a [Entry<C>], AllocError>
    ensures value { OnOk result (text.new.items ≡ text.old.items ++ first_value_at version at entries.now) }
    ensures later { IfOk result (λ later. later.now ≡ entries_after at entries.now) }
{
    match entries.split_first() {
        Some((first, later)) if first.place as usize == at => {
            push_value(text, version, first.value)?;
            Ok(later)
        }
        _ => Ok(entries),
    }
}

// Appends a key with the values of its entries at their places.
fn push_key<C: Payload>(
    text: &mut Vec<u8>,
    version: Version,
    key: &[u8],
    entries: &[Entry<C>],
) -> Result<(), AllocError>
    ensures { OnOk result (text.new.items ≡ text.old.items ++ pattern_token version key.now
        (map (entry_as_spelt C.change_of) entries.now)) }
{
    let escapes = pattern_escapes(version);
    let mut rest = entries;
    for (at, byte) in key.iter().enumerate() {
        rest = push_value_at(text, version, at, rest)?;
        push_byte(text, escapes, *byte)?;
    }
    match rest.first() {
        Some(last) => push_value(text, version, last.value),
        None => Ok(()),
    }
}

// Appends the changes of entries with their places, each after a space.
fn push_changes<C: Payload>(text: &mut Vec<u8>, entries: &[Entry<C>]) -> Result<(), AllocError>
    ensures { OnOk result (text.new.items ≡ text.old.items ++ later_tokens
        (changes_of (map (entry_as_spelt C.change_of) entries.now))) }
{
    for entry in entries {
        if let Some(change) = entry.change.as_change() {
            text.push(b' ')?;
            push_change(text, entry.place as usize, change)?;
        }
    }
    Ok(())
}

// Appends the line of a key with its entries, without a line feed.
fn push_pattern<C: Payload>(
    text: &mut Vec<u8>,
    version: Version,
    key: &[u8],
    entries: &[Entry<C>],
) -> Result<(), AllocError>
    ensures { OnOk result (text.new.items ≡ text.old.items ++ pattern_line version key.now
        (map (entry_as_spelt C.change_of) entries.now)) }
{
    text.extend_from_slice(b"p ")?;
    push_key(text, version, key, entries)?;
    push_changes(text, entries)
}

// Appends the lines of keys, in their order here.
fn push_patterns<C: Payload>(
    text: &mut Vec<u8>,
    version: Version,
    keys: &[(&[u8], &[Entry<C>])],
) -> Result<(), AllocError>
    ensures { OnOk result (text.new.items ≡ text.old.items ++ with_line_feeds
        (map (key_line version C.change_of) (pair_views keys.now))) }
{
    for (key, entries) in keys {
        push_pattern(text, version, key, entries)?;
        text.push(b'\n')?;
    }
    Ok(())
}

// Appends the lines of words, in their order here.
fn push_exceptions<B: Listing>(
    text: &mut Vec<u8>,
    words: &[(&[u8], &[B])],
) -> Result<(), AllocError>
    ensures { OnOk result (
        text.new.items ≡ text.old.items ++ with_line_feeds (map (word_line B.meaning) (pair_views words.now))) }
{
    for (word, listed) in words {
        push_exception(text, word, listed)?;
        text.push(b'\n')?;
    }
    Ok(())
}

// Appends line 1.
fn push_head(text: &mut Vec<u8>, form: Form) -> Result<(), AllocError>
    ensures { OnOk result (text.new.items ≡ text.old.items ++ (head_line form ++ line_feed ∷ [])) }
{
    text.extend_from_slice(head_of(form.kind, form.version))?;
    text.push(b'\n')?;
    Ok(())
}

// Appends line 2.
fn push_language(text: &mut Vec<u8>, language: Language) -> Result<(), AllocError>
    ensures { OnOk result (text.new.items ≡ text.old.items ++ (language_line language ++ line_feed ∷ [])) }
{
    text.extend_from_slice(b"language ")?;
    text.extend_from_slice(language.code().as_bytes())?;
    text.push(b'\n')?;
    Ok(())
}

// Appends line 3.
fn push_minima(text: &mut Vec<u8>, left: usize, right: usize) -> Result<(), AllocError>
    ensures { OnOk result (text.new.items ≡ text.old.items ++ (minima_line left right ++ line_feed ∷ [])) }
{
    text.extend_from_slice(b"minima ")?;
    push_number(text, left)?;
    text.push(b' ')?;
    push_number(text, right)?;
    text.push(b'\n')?;
    Ok(())
}

// Whether each value is at most 9.
fn are_digits<C>(entries: &[Entry<C>]) -> bool
    ensures { result ≡ are_digits entries.now }
{
    entries.iter().all(|entry| entry.value <= 9)
}

// Returns the first version if it can write each value of these keys, else the second.
fn version_for<C>(keys: &[(&[u8], &[Entry<C>])]) -> Version
    ensures { result ≡ version_of_keys (pair_views keys.now) }
{
    for (_, entries) in keys {
        if !are_digits(entries) {
            return Version::Second;
        }
    }
    Version::First
}

// Returns keys as slices.
fn borrowed_keys<'a, X>(
    alloc: Global,
    keys: &'a [(Vec<u8>, &'a [X])],
) -> Result<Vec<(&'a [u8], &'a [X])>, AllocError>
    ensures { IfOk result (λ borrowed. pair_views borrowed.items ≡ key_views keys.now) }
{
    let mut borrowed = Vec::with_capacity(alloc, keys.len())?;
    for (key, held) in keys {
        borrowed.push((key.as_slice(), *held))?;
    }
    Ok(borrowed)
}

// Returns the three head lines and the lines of keys and words, in their order here.
fn assemble_text<C: Payload, B: Listing>(
    alloc: Global,
    form: Form,
    language: Language,
    minima: (usize, usize),
    keys: &[(&[u8], &[Entry<C>])],
    words: &[(&[u8], &[B])],
) -> Result<Vec<u8>, AllocError>
    ensures { IfOk result (λ text. text.items
        ≡ text_in_order form C.change_of B.meaning language minima (pair_views keys.now) (pair_views words.now)) }
{
    let mut text = Vec::new(alloc);
    push_head(&mut text, form)?;
    push_language(&mut text, language)?;
    push_minima(&mut text, minima.0, minima.1)?;
    push_patterns(&mut text, form.version, keys)?;
    push_exceptions(&mut text, words)?;
    Ok(text)
}

/// Returns the canonical text of a dictionary of that kind, from which the dictionary is read again. Keys come first,
/// then words, each sorted by their bytes, with no more escapes than needed. It has version 1 if each value is at most
/// 9, else version 2.
///
/// The kind must be that of the dictionary. The only error is memory.
pub fn write_text<C: Payload, B: Listing>(
    alloc: Global,
    kind: Kind,
    dictionary: &Dictionary<C, B>,
) -> Result<Vec<u8>, AllocError>
    ensures { IfOk result (λ text. text.items ≡ canonical_text_of kind C.change_of B.meaning dictionary.now) }
{
    let keys = parts::keys(dictionary, alloc)?;
    let borrowed = borrowed_keys(alloc, &keys)?;
    let keys = in_order(alloc, &borrowed)?;
    let words = parts::words(dictionary, alloc)?;
    let words = in_order(alloc, &words)?;
    let version = version_for(&keys);
    let form = Form { kind, version };
    assemble_text(
        alloc,
        form,
        dictionary.language(),
        dictionary.minima(),
        &keys,
        &words,
    )
}

/// Returns the canonical text of a standard dictionary, from which that very dictionary is read again. The only error
/// is memory.
pub fn write_standard(alloc: Global, dictionary: &Standard) -> Result<Vec<u8>, AllocError>
    ensures text { IfOk result (λ text. text.items ≡ standard_text dictionary.now) }
    ensures accepted { IfOk result (λ text. refusal_of OfStandard text.items ≡ None) }
    ensures read_again { IfOk result (λ text. dictionary.now ≡ standard_contents text.items) }
{
    // The law of canonical texts.
    written_is_read_again::<(), usize>();
    dictionary.invariant();
    write_text(alloc, Kind::Standard, dictionary)
}

/// Returns the canonical text of an extended dictionary, from which that very dictionary is read again. The only error
/// is memory.
pub fn write_extended(alloc: Global, dictionary: &Extended) -> Result<Vec<u8>, AllocError>
    ensures text { IfOk result (λ text. text.items ≡ extended_text dictionary.now) }
    ensures accepted { IfOk result (λ text. refusal_of OfExtended text.items ≡ None) }
    ensures read_again { IfOk result (λ text. dictionary.now ≡ extended_contents text.items) }
{
    // The law of canonical texts.
    written_is_read_again::<Option<Subregion>, (usize, Option<Subregion>)>();
    dictionary.invariant();
    write_text(alloc, Kind::Extended, dictionary)
}
