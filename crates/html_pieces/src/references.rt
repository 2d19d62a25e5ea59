//! Character references in the values of attributes.

ghost use Rattle.std.specs.Prelude.{◌≡◌, ◌+◌, ◌-◌, ◌*◌, ◌++◌, ◌≤◌, slice_index, take_while, min, false, if◌then◌else◌, IfOk, OnOk};
ghost use Rattle.std.specs.Char.{encode_utf8, digit_value};
ghost use Rattle.std.specs.Option.{option_map};
ghost use Rattle.html_pieces.specs.Bytes.{is_alphanumeric};
ghost use Rattle.html_pieces.specs.References.{is_digit, base_of, number_of, windows_1252, is_character, character_of, digits_at};
ghost use Rattle.html_pieces.specs.References.{number_at, is_named, old_named, bracket_named, sentence_named};
ghost use Rattle.html_pieces.specs.References.{sign_named, line_named, first_named, named, reference_of_size, reference_of_name, name_at};
ghost use Rattle.html_pieces.specs.References.{reference_at, read_value, has_ampersand};
ghost use Rattle.html_pieces.specs.Private.Read.{as_reference, reference_after};

use crate::bytes::is_alphanumeric;
use std::alloc::{AllocError, Global};

// A reference that has been read: its character, and how many bytes it has after its `&`.
#[derive(Clone, Copy)]
struct Reference {
    character: char,
    size: usize,
}

// All numbers from this one on mean no character.
const NO_CHARACTER: u32 = 0x11_0000;

// The characters of windows-1252, that the numbers 0x80 to 0x9F mean.
const WINDOWS_1252: [char; 32] = [
    '\u{20AC}', '\u{81}', '\u{201A}', '\u{192}', '\u{201E}', '\u{2026}', '\u{2020}', '\u{2021}',
    '\u{2C6}', '\u{2030}', '\u{160}', '\u{2039}', '\u{152}', '\u{8D}', '\u{17D}', '\u{8F}',
    '\u{90}', '\u{2018}', '\u{2019}', '\u{201C}', '\u{201D}', '\u{2022}', '\u{2013}', '\u{2014}',
    '\u{2DC}', '\u{2122}', '\u{161}', '\u{203A}', '\u{153}', '\u{9D}', '\u{17E}', '\u{178}',
];

fn is_digit(hexadecimal: bool, byte: u8) -> bool
    ensures { result ≡ is_digit hexadecimal byte }
{
    b'0' <= byte && byte <= b'9'
        || hexadecimal && (b'A' <= byte && byte <= b'F' || b'a' <= byte && byte <= b'f')
}

// The digits that bytes begin with.
fn digits_of(hexadecimal: bool, bytes: &[u8]) -> &[u8]
    ensures { result.now ≡ take_while (is_digit hexadecimal) bytes.now }
{
    for (i, byte) in bytes.iter().enumerate() {
        if !is_digit(hexadecimal, *byte) {
            return &bytes[..i];
        }
    }
    bytes
}

// The letters and digits that bytes begin with.
fn name_of(bytes: &[u8]) -> &[u8]
    ensures { result.now ≡ take_while is_alphanumeric bytes.now }
{
    for (i, byte) in bytes.iter().enumerate() {
        if !is_alphanumeric(*byte) {
            return &bytes[..i];
        }
    }
    bytes
}

// The value of a digit.
fn digit_value(digit: u8) -> u32
    ensures within { result ≤ 36 }
    ensures value { result ≡ digit_value digit }
{
    if digit < b'0' {
        36
    } else if digit <= b'9' {
        (digit - b'0') as u32
    } else if digit < b'A' {
        36
    } else if digit <= b'Z' {
        (digit - b'A') as u32 + 10
    } else if digit < b'a' {
        36
    } else if digit <= b'z' {
        (digit - b'a') as u32 + 10
    } else {
        36
    }
}

// The base in which digits write a number.
const fn base_of(hexadecimal: bool) -> u32
    ensures base { result ≡ base_of hexadecimal }
    ensures within { result ≤ 16 }
{
    if hexadecimal { 16 } else { 10 }
}

// The number after one more digit. All numbers that mean no character are one.
fn number_with_digit(hexadecimal: bool, number: u32, digit: u8) -> u32
    requires { number ≤ NO_CHARACTER }
    ensures { result ≡ min (number * base_of hexadecimal + digit_value digit) NO_CHARACTER }
{
    (number * base_of(hexadecimal) + digit_value(digit)).min(NO_CHARACTER)
}

// The number that digits write. All numbers that mean no character are one.
fn number_of(hexadecimal: bool, digits: &[u8]) -> u32
    ensures { result ≡ min (number_of hexadecimal digits.now) NO_CHARACTER }
{
    let mut number = 0;
    for digit in digits {
        number = number_with_digit(hexadecimal, number, *digit);
    }
    number
}

// The character of windows-1252 that a number from 0x80 to 0x9F means.
fn windows_1252_character(number: u32) -> char
    requires low { 0x80 ≤ number }
    requires high { number ≤ 0x9F }
    ensures { result ≡ slice_index windows_1252 (number - 0x80) }
{
    WINDOWS_1252[(number - 0x80) as usize]
}

// The character of a number, or U+FFFD where it has none.
fn character_or_replacement(number: u32) -> char
    ensures { result ≡ (if is_character number then number else 0xFFFD) }
{
    if number == 0 {
        return '\u{FFFD}';
    }
    match char::from_u32(number) {
        Some(character) => character,
        None => '\u{FFFD}',
    }
}

// The character that a number means.
fn character_of(number: u32) -> char
    ensures { result ≡ character_of number }
{
    if 0x80 <= number && number <= 0x9F {
        windows_1252_character(number)
    } else {
        character_or_replacement(number)
    }
}

// The character whose number digits write.
fn character_by(hexadecimal: bool, digits: &[u8]) -> char
    ensures { result ≡ character_of (number_of hexadecimal digits.now) }
{
    character_of(number_of(hexadecimal, digits))
}

// The byte at a place; 0 past the end.
fn byte_at(bytes: &[u8], place: usize) -> u8
    ensures { result ≡ slice_index bytes.now place }
{
    if place < bytes.len() { bytes[place] } else { 0 }
}

// The reference whose digits are those that bytes begin with.
fn digits_at(hexadecimal: bool, before: usize, bytes: &[u8]) -> Option<Reference>
    requires { before ≤ 2 }
    ensures { option_map as_reference result ≡ digits_at hexadecimal before bytes.now }
{
    let digits = digits_of(hexadecimal, bytes);
    if digits.is_empty() {
        return None;
    }
    let semicolon = if byte_at(bytes, digits.len()) == b';' {
        1
    } else {
        0
    };
    Some(Reference {
        character: character_by(hexadecimal, digits),
        size: before + digits.len() + semicolon,
    })
}

// The reference that goes on after `&#`.
fn number_at(bytes: &[u8]) -> Option<Reference>
    ensures { option_map as_reference result ≡ number_at bytes.now }
{
    match bytes {
        [] => None,
        [b'x' | b'X', rest @ ..] => digits_at(true, 2, rest),
        _ => digits_at(false, 1, bytes),
    }
}

fn is_named(name: &[u8], other: &[u8]) -> bool
    ensures { result ≡ is_named name.now other.now }
{
    name == other
}

// The character that is named without `;` too.
#[tactic(auto, unfolding(crate::specs::References::old_named))]
fn old_named(name: &[u8]) -> Option<char>
    ensures { result ≡ old_named name.now }
{
    if is_named(name, b"amp") || is_named(name, b"AMP") {
        Some('&')
    } else if is_named(name, b"quot") || is_named(name, b"QUOT") {
        Some('"')
    } else if is_named(name, b"lt") || is_named(name, b"LT") {
        Some('<')
    } else if is_named(name, b"gt") || is_named(name, b"GT") {
        Some('>')
    } else {
        None
    }
}

// White space or a bracket by its name.
#[tactic(auto, unfolding(crate::specs::References::bracket_named))]
fn bracket_named(name: &[u8]) -> Option<char>
    ensures { result ≡ bracket_named name.now }
{
    if is_named(name, b"Tab") {
        Some('\t')
    } else if is_named(name, b"NewLine") {
        Some('\n')
    } else if is_named(name, b"lpar") {
        Some('(')
    } else if is_named(name, b"rpar") {
        Some(')')
    } else if is_named(name, b"lsqb") || is_named(name, b"lbrack") {
        Some('[')
    } else if is_named(name, b"rsqb") || is_named(name, b"rbrack") {
        Some(']')
    } else if is_named(name, b"lcub") || is_named(name, b"lbrace") {
        Some('{')
    } else if is_named(name, b"rcub") || is_named(name, b"rbrace") {
        Some('}')
    } else {
        None
    }
}

// A mark of sentences by its name.
#[tactic(auto, unfolding(crate::specs::References::sentence_named))]
fn sentence_named(name: &[u8]) -> Option<char>
    ensures { result ≡ sentence_named name.now }
{
    if is_named(name, b"apos") {
        Some('\'')
    } else if is_named(name, b"excl") {
        Some('!')
    } else if is_named(name, b"quest") {
        Some('?')
    } else if is_named(name, b"comma") {
        Some(',')
    } else if is_named(name, b"period") {
        Some('.')
    } else if is_named(name, b"colon") {
        Some(':')
    } else if is_named(name, b"semi") {
        Some(';')
    } else if is_named(name, b"sol") {
        Some('/')
    } else if is_named(name, b"bsol") {
        Some('\\')
    } else {
        None
    }
}

// Another sign by its name.
#[tactic(auto, unfolding(crate::specs::References::sign_named))]
fn sign_named(name: &[u8]) -> Option<char>
    ensures { result ≡ sign_named name.now }
{
    if is_named(name, b"num") {
        Some('#')
    } else if is_named(name, b"dollar") {
        Some('$')
    } else if is_named(name, b"percnt") {
        Some('%')
    } else if is_named(name, b"ast") || is_named(name, b"midast") {
        Some('*')
    } else if is_named(name, b"plus") {
        Some('+')
    } else if is_named(name, b"equals") {
        Some('=')
    } else if is_named(name, b"commat") {
        Some('@')
    } else {
        None
    }
}

// An accent or a line by its name.
#[tactic(auto, unfolding(crate::specs::References::line_named))]
fn line_named(name: &[u8]) -> Option<char>
    ensures { result ≡ line_named name.now }
{
    if is_named(name, b"Hat") {
        Some('^')
    } else if is_named(name, b"lowbar") || is_named(name, b"UnderBar") {
        Some('_')
    } else if is_named(name, b"grave") || is_named(name, b"DiacriticalGrave") {
        Some('`')
    } else if is_named(name, b"vert")
        || is_named(name, b"verbar")
        || is_named(name, b"VerticalLine")
    {
        Some('|')
    } else {
        None
    }
}

fn first_named(first: Option<char>, other: Option<char>) -> Option<char>
    ensures { result ≡ first_named first other }
{
    match first {
        Some(character) => Some(character),
        None => other,
    }
}

// The character of ASCII that has a name.
fn named(name: &[u8]) -> Option<char>
    ensures { result ≡ named name.now }
{
    let rest = first_named(sign_named(name), line_named(name));
    let rest = first_named(bracket_named(name), first_named(sentence_named(name), rest));
    first_named(old_named(name), rest)
}

fn reference_of_size(size: usize, character: Option<char>) -> Option<Reference>
    ensures { option_map as_reference result ≡ reference_of_size size character }
{
    match character {
        Some(character) => Some(Reference { character, size }),
        None => None,
    }
}

// The reference whose name bytes begin with.
fn name_at(bytes: &[u8]) -> Option<Reference>
    ensures { option_map as_reference result ≡ name_at bytes.now }
{
    let name = name_of(bytes);
    match byte_at(bytes, name.len()) {
        b';' => reference_of_size(name.len() + 1, named(name)),
        b'=' => None,
        _ => reference_of_size(name.len(), old_named(name)),
    }
}

// The reference that goes on after `&`.
fn reference_at(bytes: &[u8]) -> Option<Reference>
    ensures { option_map as_reference result ≡ reference_at bytes.now }
{
    match bytes {
        [] => None,
        [b'#', rest @ ..] => number_at(rest),
        _ => name_at(bytes),
    }
}

// The reference that a byte begins; none by another byte than `&`.
fn reference_after(byte: u8, rest: &[u8]) -> Option<Reference>
    ensures { option_map as_reference result ≡ reference_after byte rest.now }
{
    if byte == b'&' {
        reference_at(rest)
    } else {
        None
    }
}

/// Reports whether an `&` is in a value, so that it may have a reference.
pub fn has_ampersand(value: &[u8]) -> bool
    ensures { result ≡ has_ampersand value.now }
{
    for byte in value {
        if *byte == b'&' {
            return true;
        }
    }
    false
}

// A value without `&`, which is read as it is.
pub(crate) fn read_plain(value: &[u8]) -> &[u8]
    requires { has_ampersand value.now ≡ false }
    ensures { result.now ≡ read_value value.now }
{
    value
}

// Appends a character.
fn push_character(bytes: &mut Vec<u8>, alloc: Global, character: char) -> Result<(), AllocError>
    ensures { OnOk result (bytes.new.items ≡ bytes.old.items ++ encode_utf8 character) }
{
    let mut text = String::new(alloc);
    text.push(character)?;
    bytes.extend_from_slice(text.as_bytes())
}

/// Returns the value of an attribute as it is read: with the character of each reference in its place.
///
/// Numeric references are read, and those that name one character of ASCII, with and without `;` as the standard has
/// them in attributes. The only error is that memory was refused.
pub fn read(alloc: Global, value: &[u8]) -> Result<Vec<u8>, AllocError>
    ensures { IfOk result (λ read. read.items ≡ read_value value.now) }
{
    let mut read = Vec::new(alloc);
    let mut skip = 0;
    for (i, byte) in value.iter().enumerate() {
        if skip > 0 {
            skip -= 1;
        } else {
            match reference_after(*byte, &value[i + 1..]) {
                Some(reference) => {
                    push_character(&mut read, alloc, reference.character)?;
                    skip = reference.size;
                }
                None => read.push(*byte)?,
            }
        }
    }
    Ok(read)
}
