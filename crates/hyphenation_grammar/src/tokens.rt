//! Tokens of `p` and `e` lines: escapes, the elements of a pattern, and the parts of later tokens.

ghost use Rattle.std.specs.Prelude.{IsUtf8, ◌≡◌, ◌==◌, ◌-◌, ◌<◌, ◌∷◌, ◌&&◌, [], IfOk, IsSome, length, map, take};
ghost use Rattle.std.specs.Prelude.{drop, slice_index_or, false, Some, None, option_map, is_some, if◌then◌else◌};
ghost use Rattle.std.specs.Prelude.{position, MatchOption};
ghost use Rattle.std.specs.Option.{option_to_list};
ghost use Rattle.std.specs.List.{list_all};
ghost use Rattle.hyphenation_breaks.specs.Borrowed.{texts_now};
ghost use Rattle.hyphenation_breaks.specs.Ascii.{comma};
ghost use Rattle.hyphenation_breaks.specs.Break.{is_boundary};
ghost use Rattle.hyphenation_grammar.specs.declared.tokens.Escapes.TheVariants.{Plain};
ghost use Rattle.hyphenation_grammar.specs.Lines.{is_number, number};
ghost use Rattle.std.specs.String.{string_bytes};
ghost use Rattle.hyphenation_grammar.specs.Parsed.{later_token, parse_change_token, sound_change, change_with};
ghost use Rattle.hyphenation_grammar.specs.Parsed.{part_at, token_with};
ghost use Rattle.hyphenation_grammar.specs.Tokens.{unescape_byte, escaped_also, element_of, byte_of_escape, bytes_of};
ghost use Rattle.hyphenation_grammar.specs.Tokens.{parts_of, parts_within, escaped_bytes_of, text_spelt};
ghost use Rattle.hyphenation_grammar.specs.Private.Tokens.{IsSplit, are_readable, first_number, stands_for_itself};

use crate::lines::number_of;
use hyphenation_breaks::extended::Subregion;
use std::alloc::{AllocError, Global};

/// The escapes of a token: which letters may follow a backslash.
#[derive(Clone, Copy)]
pub enum Escapes {
    /// The four of each token: `\\`, `\s`, `\n` and `\r`.
    Plain,
    /// The four, and digits: in a pattern of version 1.
    Digits,
    /// The four, digits and braces: in a pattern of version 2.
    DigitsAndBraces,
}

/// A byte that a token spells, and whether it was written with an escape.
#[derive(Clone, Copy)]
pub struct EscapedByte {
    /// The byte that is meant.
    pub byte: u8,
    /// Whether an escape means it.
    pub escaped: bool,
}

/// An element of a pattern.
#[derive(Clone, Copy)]
pub enum PatternElement {
    /// A byte of the key.
    Letter(u8),
    /// A value, at the place after the letters before it.
    Value(u8),
}

// Returns the byte that a letter after a backslash means. `None` if it begins no escape.
fn byte_of_escape(escapes: Escapes, letter: u8) -> Option<u8>
    ensures { result ≡ byte_of_escape escapes letter }
{
    match letter {
        b'\\' => Some(b'\\'),
        b's' => Some(b' '),
        b'n' => Some(b'\n'),
        b'r' => Some(b'\r'),
        _ => escaped_also(escapes, letter).then_some(letter),
    }
}

/// Reports whether a letter after a backslash means itself: a digit or a brace, where these escapes have them.
pub fn escaped_also(escapes: Escapes, letter: u8) -> bool
    ensures { result ≡ escaped_also escapes letter }
{
    match escapes {
        Escapes::Plain => false,
        Escapes::Digits => letter.is_ascii_digit(),
        Escapes::DigitsAndBraces => letter.is_ascii_digit() || letter == b'{' || letter == b'}',
    }
}

// Reads one byte of a token. `Some(None)` for a backslash that opens an escape; `None` if the byte is not allowed here.
pub(crate) fn unescape_byte(escapes: Escapes, after: bool, byte: u8) -> Option<Option<EscapedByte>>
    ensures { option_map option_to_list result ≡ unescape_byte escapes after byte }
{
    if after {
        let byte = byte_of_escape(escapes, byte)?;
        return Some(Some(EscapedByte {
            byte,
            escaped: true,
        }));
    }
    match byte {
        b'\\' => Some(None),
        b'\r' => None,
        _ => Some(Some(EscapedByte {
            byte,
            escaped: false,
        })),
    }
}

// Whether each backslash begins an escape, and no carriage return is unescaped.
pub(crate) fn has_good_escapes(escapes: Escapes, text: &[u8]) -> bool
    ensures { result ≡ is_some (escaped_bytes_of escapes text.now) }
{
    let mut after = false;
    for byte in text {
        if unescape_byte(escapes, after, *byte).is_none() {
            return false;
        }
        after = !after && *byte == b'\\';
    }
    !after
}

// Whether a byte means itself without an escape.
fn stands_for_itself(byte: u8) -> bool
    ensures { result ≡ stands_for_itself byte }
{
    byte != b'\\' && byte != b'\r'
}

// Whether all bytes mean themselves.
fn stand_for_themselves(text: &[u8]) -> bool
    ensures { result ≡ list_all stands_for_itself text.now }
{
    text.iter().all(|byte| stands_for_itself(*byte))
}

// Returns a copy of a text.
fn copied(alloc: Global, text: &[u8]) -> Result<Vec<u8>, AllocError>
    ensures { IfOk result (λ v. v.items ≡ text.now) }
{
    let mut copy = Vec::with_capacity(alloc, text.len())?;
    copy.extend_from_slice(text)?;
    Ok(copy)
}

// Returns the bytes that a word or a substitution spells. `None` if an escape is bad.
pub(crate) fn text_of(alloc: Global, written: &[u8]) -> Result<Option<Vec<u8>>, AllocError>
    ensures { IfOk result (λ found. option_map (λ v. v.items) found ≡ text_spelt written.now) }
{
    // Most texts have no escape.
    if stand_for_themselves(written) {
        let copy = copied(alloc, written)?;
        return Ok(Some(copy));
    }
    if written == b"\\e".as_slice() {
        return Ok(Some(Vec::new(alloc)));
    }
    unescaped(alloc, written)
}

// Returns a text with its escapes read. `None` if one is bad.
fn unescaped(alloc: Global, written: &[u8]) -> Result<Option<Vec<u8>>, AllocError>
    ensures { IfOk result (λ found.
        option_map (λ v. v.items) found ≡ option_map bytes_of (escaped_bytes_of Plain written.now)) }
{
    let mut text = Vec::with_capacity(alloc, written.len())?;
    let mut after = false;
    for byte in written {
        match unescape_byte(Escapes::Plain, after, *byte) {
            None => return Ok(None),
            Some(None) => {}
            Some(Some(spelt)) => text.push(spelt.byte)?,
        }
        after = !after && *byte == b'\\';
    }
    Ok(if after { None } else { Some(text) })
}

// Returns the element that a byte is outside braces: an unescaped digit is a value.
pub(crate) fn element_of(spelt: EscapedByte) -> PatternElement
    ensures { result ≡ element_of spelt }
{
    match spelt.byte {
        digit @ b'0'..=b'9' if !spelt.escaped => PatternElement::Value(digit - b'0'),
        byte => PatternElement::Letter(byte),
    }
}

/// Reports whether a character begins at the place, in bytes, or the text ends there.
pub fn is_boundary(text: &[u8], at: usize) -> bool
    ensures { result ≡ is_boundary text.now at }
{
    match text.get(at) {
        Some(byte) => *byte < 128 || *byte >= 192,
        None => at == text.len(),
    }
}

// Returns the place of the first comma, in bytes.
fn find_comma(text: &[u8]) -> Option<usize>
    ensures { result ≡ position (λ b. b == comma) text.now }
{
    text.iter().position(|b| *b == b',')
}

// Splits a text at its first comma, if at most `commas` commas may split it and it has one.
fn at_comma(commas: usize, text: &[u8]) -> Option<(&[u8], &[u8])>
    ensures { MatchOption result (parts_within commas text.now ≡ text.now ∷ []) (λ x.
        IsSplit commas text.now x.0.now x.1.now) }
{
    if commas == 0 {
        return None;
    }
    match find_comma(text) {
        None => None,
        Some(at) => Some((&text[..at], &text[at + 1..])),
    }
}

// Splits a later token at its first four commas.
fn parts_of(alloc: Global, token: &[u8]) -> Result<Vec<&[u8]>, AllocError>
    ensures { IfOk result (λ v. texts_now v.items ≡ parts_of token.now) }
{
    let mut parts = Vec::new(alloc);
    let mut rest = token;
    let mut commas: usize = 4;
    while let Some((front, after)) = at_comma(commas, rest) {
        parts.push(front)?;
        rest = after;
        commas -= 1;
    }
    parts.push(rest)?;
    Ok(parts)
}

/// A later token whose parts can be read.
#[derive(Drop)]
pub enum LaterToken {
    /// A part that must be a number is none.
    NoNumber,
    /// The change at this place has not all parts, or its breakpoint is within a character of its substitution.
    Unsound(usize),
    /// A place, in bytes, with a change if the token has commas.
    Sound(usize, Option<Subregion>),
}

/// Reads a later token. `None` if it is empty or an escape is bad. The only error is memory.
pub fn later_token(alloc: Global, token: &[u8]) -> Result<Option<LaterToken>, AllocError>
    requires { IsUtf8 token.now }
    ensures { IfOk result (λ found. found ≡ later_token token.now) }
{
    if token.is_empty() {
        return Ok(None);
    }
    if find_comma(token).is_none() {
        return Ok(plain_token(token));
    }
    change_token(alloc, token)
}

// Reads a token without a comma: a place.
fn plain_token(token: &[u8]) -> Option<LaterToken>
    requires not_empty { 0 < length token.now }
    requires no_comma { None ≡ position (λ b. b == comma) token.now }
    ensures { result ≡ later_token token.now }
{
    if !has_good_escapes(Escapes::Plain, token) {
        return None;
    }
    match number_of(token) {
        Some(place) => Some(LaterToken::Sound(place, None)),
        None => Some(LaterToken::NoNumber),
    }
}

// Reads a token with a comma: a change at a place.
fn change_token(alloc: Global, token: &[u8]) -> Result<Option<LaterToken>, AllocError>
    requires utf8 { IsUtf8 token.now }
    requires not_empty { 0 < length token.now }
    requires has_comma { IsSome (position (λ b. b == comma) token.now) }
    ensures { IfOk result (λ found. found ≡ later_token token.now) }
{
    let parts = parts_of(alloc, token)?;
    if !are_readable(&parts) {
        return Ok(None);
    }
    Ok(Some(parse_change_token(alloc, &parts)?))
}

// Parses the parts of a token that has a comma.
fn parse_change_token(alloc: Global, parts: &[&[u8]]) -> Result<LaterToken, AllocError>
    requires utf8 { IsUtf8 (part_at (texts_now parts.now) 4) }
    requires several_parts { 1 < length parts.now }
    ensures { IfOk result (λ token. token ≡ parse_change_token (texts_now parts.now)) }
{
    match first_number(parts) {
        None => Ok(LaterToken::NoNumber),
        Some(place) => {
            let change = change_of(alloc, parts)?;
            Ok(token_with(place, change))
        }
    }
}

// Returns the token at a place with this change, or with an unsound one for `None`.
fn token_with(place: usize, change: Option<Subregion>) -> LaterToken
    ensures { result ≡ token_with place change }
{
    match change {
        None => LaterToken::Unsound(place),
        Some(change) => LaterToken::Sound(place, Some(change)),
    }
}

// Returns the change of five parts, if each can be read and the breakpoint is between characters.
fn change_of(alloc: Global, parts: &[&[u8]]) -> Result<Option<Subregion>, AllocError>
    requires { IsUtf8 (part_at (texts_now parts.now) 4) }
    ensures { IfOk result (λ found. found ≡ sound_change (texts_now parts.now)) }
{
    let [_, left, right, breakpoint, written] = parts else {
        return Ok(None);
    };
    if written.is_empty() {
        return Ok(None);
    }
    let Some(left) = number_of(left) else {
        return Ok(None);
    };
    let Some(right) = number_of(right) else {
        return Ok(None);
    };
    let Some(breakpoint) = number_of(breakpoint) else {
        return Ok(None);
    };
    let Some(substitution) = string_of(alloc, written)? else {
        return Ok(None);
    };
    Ok(change_with(left, right, breakpoint, substitution))
}

// Returns the change of these numbers of bytes, if its breakpoint is between characters.
fn change_with(
    left: usize,
    right: usize,
    breakpoint: usize,
    substitution: String,
) -> Option<Subregion>
    ensures { result ≡ change_with left right breakpoint (string_bytes substitution) }
{
    if !is_boundary(substitution.as_bytes(), breakpoint) {
        return None;
    }
    Some(Subregion::new(left, right, substitution, breakpoint))
}

/// Returns the word or the substitution that a token spells. `None` if an escape is bad. The only error is memory.
pub fn string_of(alloc: Global, token: &[u8]) -> Result<Option<String>, AllocError>
    requires { IsUtf8 token.now }
    ensures { IfOk result (λ found. option_map (λ text. string_bytes text) found ≡ text_spelt token.now) }
{
    let Some(text) = text_of(alloc, token)? else {
        return Ok(None);
    };
    Ok(Some(String::from_utf8(text).unwrap()))
}

// Whether each part can be read. `\e` is allowed only after the fourth comma.
fn are_readable(parts: &[&[u8]]) -> bool
    ensures { result ≡ are_readable (texts_now parts.now) }
{
    let commas = parts.len().min(4);
    have_good_escapes(&parts[..commas]) && are_texts(&parts[commas..])
}

// Whether the escapes of each part are good.
fn have_good_escapes(parts: &[&[u8]]) -> bool
    ensures { result
        ≡ list_all (λ written. is_some (escaped_bytes_of Plain written)) (texts_now parts.now) }
{
    for part in parts {
        if !has_good_escapes(Escapes::Plain, part) {
            return false;
        }
    }
    true
}

// Whether each part spells a text.
fn are_texts(parts: &[&[u8]]) -> bool
    ensures { result ≡ list_all (λ written. is_some (text_spelt written)) (texts_now parts.now) }
{
    for part in parts {
        if !is_text(part) {
            return false;
        }
    }
    true
}

// Whether bytes spell a text. `\e` spells the empty one.
fn is_text(written: &[u8]) -> bool
    ensures { result ≡ is_some (text_spelt written.now) }
{
    written == b"\\e".as_slice() || has_good_escapes(Escapes::Plain, written)
}

// Returns the number of the first part, if each part but the last is a number.
fn first_number(parts: &[&[u8]]) -> Option<usize>
    requires { 1 < length parts.now }
    ensures { result ≡ first_number (length parts.now - 1) (texts_now parts.now) }
{
    if !are_numbers(&parts[..parts.len() - 1]) {
        return None;
    }
    number_of(parts[0])
}

// Whether each part is a number.
fn are_numbers(parts: &[&[u8]]) -> bool
    ensures { result ≡ list_all is_number (texts_now parts.now) }
{
    for part in parts {
        if number_of(part).is_none() {
            return false;
        }
    }
    true
}
