//! The charsets of `.dic` files.

ghost use Rattle.std.specs.Prelude.{◌≡◌, ◌<◌, option_map, IfOk, IfErr, OnOk, None};
ghost use Rattle.std.specs.String.{string_bytes};
ghost use Rattle.pattern_results.specs.Texts.{line_feeds};
ghost use Rattle.libreoffice_files.specs.Charsets.{charset_named, part_of_iso_8859, upper_half, char_in, first_bad, text_by, text_in};
ghost use Rattle.libreoffice_files.specs.Charsets.{table_fault, coding_fault};
ghost use Rattle.libreoffice_files.specs.declared.charset.Charset.TheVariants.{Utf8};
ghost use Rattle.pattern_results.specs.Errors.{IsFileError};

mod tables;

use hyphenation_grammar::lines::strip_prefix;
use pattern_results::errors::{FileCause, FileError};
use std::alloc::{AllocError, Global};
use tables::{
    CP1251, ISO8859_2, ISO8859_5, ISO8859_7, ISO8859_9, ISO8859_10, ISO8859_13, ISO8859_14,
    ISO8859_15, KOI8_R, KOI8_U,
};

// A charset: UTF-8, or one with a byte for each character.
#[derive(Clone, Copy)]
pub(crate) enum Charset {
    Utf8,
    Latin1,
    Latin2,
    Cyrillic,
    Greek,
    Latin5,
    Latin6,
    Latin7,
    Latin8,
    Latin9,
    Koi8R,
    Koi8U,
    Cp1251,
}

impl Charset {
    // The charset of that name, as line 1 of a `.dic` has it.
    pub(crate) fn from_name(name: &[u8]) -> Option<Charset>
        ensures { result ≡ charset_named name.now }
    {
        if let Some(part) = strip_prefix(b"ISO8859-", name) {
            Charset::of_iso_8859(part)
        } else if name == b"UTF-8".as_slice() {
            Some(Charset::Utf8)
        } else if name == b"KOI8-R".as_slice() {
            Some(Charset::Koi8R)
        } else if name == b"KOI8-U".as_slice() {
            Some(Charset::Koi8U)
        } else if name == b"microsoft-cp1251".as_slice() {
            Some(Charset::Cp1251)
        } else {
            None
        }
    }

    // The charset of ISO 8859 whose part has that number.
    fn of_iso_8859(part: &[u8]) -> Option<Charset>
        ensures { result ≡ part_of_iso_8859 part.now }
    {
        match part {
            b"1" => Some(Charset::Latin1),
            b"2" => Some(Charset::Latin2),
            b"5" => Some(Charset::Cyrillic),
            b"7" => Some(Charset::Greek),
            b"9" => Some(Charset::Latin5),
            b"10" => Some(Charset::Latin6),
            b"13" => Some(Charset::Latin7),
            b"14" => Some(Charset::Latin8),
            b"15" => Some(Charset::Latin9),
            _ => None,
        }
    }

    // The characters of the bytes from 128 on. None if each byte is its own character, and in UTF-8.
    fn upper_half(self) -> Option<&'static [char; 128]>
        ensures { option_map (λ table. table.now) result ≡ upper_half self }
    {
        match self {
            Charset::Utf8 | Charset::Latin1 => None,
            Charset::Latin2 => Some(&ISO8859_2),
            Charset::Cyrillic => Some(&ISO8859_5),
            Charset::Greek => Some(&ISO8859_7),
            Charset::Latin5 => Some(&ISO8859_9),
            Charset::Latin6 => Some(&ISO8859_10),
            Charset::Latin7 => Some(&ISO8859_13),
            Charset::Latin8 => Some(&ISO8859_14),
            Charset::Latin9 => Some(&ISO8859_15),
            Charset::Koi8R => Some(&KOI8_R),
            Charset::Koi8U => Some(&KOI8_U),
            Charset::Cp1251 => Some(&CP1251),
        }
    }
}

// The character that a byte means. None if the table has NUL there.
fn char_of(upper: Option<&[char; 128]>, byte: u8) -> Option<char>
    ensures { result ≡ char_in (option_map (λ table. table.now) upper.entry) byte }
{
    match upper {
        Some(table) if byte >= 128 => {
            match table[usize::from(byte) - 128] {
                '\0' => None,
                c => Some(c),
            }
        }
        _ => Some(char::from(byte)),
    }
}

// The characters that bytes mean. A byte that means none is left out.
fn chars_of(alloc: Global, upper: Option<&[char; 128]>, bytes: &[u8]) -> Result<String, AllocError>
    ensures { IfOk result (λ text. string_bytes text
        ≡ text_by (option_map (λ table. table.now) upper.entry) bytes.now) }
{
    let mut text = String::new(alloc);
    for byte in bytes {
        if let Some(c) = char_of(upper, *byte) {
            text.push(c)?;
        }
    }
    Ok(text)
}

// The number of line feeds.
fn line_feeds(bytes: &[u8]) -> usize
    ensures { result ≡ line_feeds bytes.now }
{
    bytes.iter().filter(|b| **b == b'\n').count()
}

// The text of bytes in UTF-8, the first line of which has that number. An error is the first line that is not UTF-8, or
// out of memory.
#[tactic(auto, using(crate::proofs::Texts::bad_utf8, crate::proofs::Texts::good_utf8))]
fn utf8_text(alloc: Global, bytes: &[u8], first: usize) -> Result<String, FileError>
    requires { first < 3 }
    ensures no_fault { OnOk result (coding_fault Utf8 first bytes.now ≡ None) }
    ensures text { IfOk result (λ text. string_bytes text ≡ bytes.now) }
    ensures first_fault { IfErr result (λ error. IsFileError error (coding_fault Utf8 first bytes.now)) }
{
    match std::str::from_utf8(bytes) {
        Ok(text) => Ok(String::from_str(alloc, text)?),
        Err(e) => {
            let good = bytes.get(..e.valid_up_to()).unwrap_or(bytes);
            Err(FileError::OnLine(first + line_feeds(good), FileCause::NotUtf8))
        }
    }
}

/// The place of the first byte that means no character.
fn first_bad(upper: Option<&[char; 128]>, bytes: &[u8]) -> Option<usize>
    ensures { result ≡ first_bad (option_map (λ table. table.now) upper.entry) bytes.now }
{
    bytes
        .iter()
        .position(|byte| char_of(upper, *byte).is_none())
}

/// The text that bytes mean, one character each, whose first line has that number.
fn text_by(
    alloc: Global,
    upper: Option<&[char; 128]>,
    bytes: &[u8],
    first: usize,
) -> Result<String, FileError>
    requires { first < 3 }
    ensures no_fault { OnOk result (table_fault (option_map (λ table. table.now) upper.entry) first bytes.now ≡ None) }
    ensures text { IfOk result (λ text. string_bytes text
        ≡ text_by (option_map (λ table. table.now) upper.entry) bytes.now) }
    ensures first_fault { IfErr result (λ error. IsFileError error
        (table_fault (option_map (λ table. table.now) upper.entry) first bytes.now)) }
{
    match first_bad(upper, bytes) {
        None => Ok(chars_of(alloc, upper, bytes)?),
        Some(at) => {
            let good = bytes.get(..at).unwrap_or(bytes);
            Err(FileError::OnLine(first + line_feeds(good), FileCause::NotInCharset))
        }
    }
}

/// The text that bytes mean, whose first line has that number.
pub(crate) fn text_of(
    alloc: Global,
    charset: Charset,
    bytes: &[u8],
    first: usize,
) -> Result<String, FileError>
    requires { first < 3 }
    ensures no_fault { OnOk result (coding_fault charset first bytes.now ≡ None) }
    ensures text { IfOk result (λ text. string_bytes text ≡ text_in charset bytes.now) }
    ensures first_fault { IfErr result (λ error. IsFileError error (coding_fault charset first bytes.now)) }
{
    match charset {
        Charset::Utf8 => utf8_text(alloc, bytes, first),
        _ => text_by(alloc, charset.upper_half(), bytes, first),
    }
}
