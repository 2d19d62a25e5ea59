//! The settings of a level: a number, or texts without breaks.

ghost use Rattle.std.specs.Prelude.{◌≡◌, ◌++◌, ◌∷◌, [], nat_lt, if◌then◌else◌, length, drop, filter, map};
ghost use Rattle.std.specs.Prelude.{Some, None, option_map, IfOk, OnOk};
ghost use Rattle.std.specs.List.{prefix_len};
ghost use Rattle.libhyphen_files.specs.Bytes.{begins_with};
ghost use Rattle.libhyphen_files.specs.Levels.{setting, is_blank, without_last, between_commas, texts_without_breaks};

use crate::numbers::{number_byte, signed};
use std::alloc::{AllocError, Global};

// Returns the number of a setting, if a line begins with the setting's name.
pub(crate) fn setting(line: &[u8], name: &[u8]) -> Option<i8>
    ensures { result ≡ (if begins_with line.now name.now then Some (setting (length name.now) line.now) else None) }
{
    let number = without_name(line, name)?;
    Some(signed(number_byte(number)))
}

// Returns what follows the name of a setting, if a line begins with that name.
pub(crate) fn without_name<'l>(line: &'l [u8], name: &[u8]) -> Option<&'l [u8]>
    ensures { option_map (λ text. text.now) result
        ≡ (if begins_with line.now name.now then Some (drop (length name.now) line.now) else None) }
{
    line.strip_prefix(name)
}

// Returns the texts that follow NOHYPHEN, of which the last byte is taken for the line feed. An empty text is none. The
// only error is out of memory.
pub(crate) fn texts_without_breaks(alloc: Global, text: &[u8]) -> Result<Vec<Vec<u8>>, AllocError>
    ensures { IfOk result (λ texts. map (λ t. t.items) texts.items ≡ texts_without_breaks text.now) }
{
    texts_between_commas(alloc, without_last(without_blanks(text)))
}

// Returns the texts between commas but the empty ones. A comma in the first place parts nothing. The only error is out
// of memory.
fn texts_between_commas(alloc: Global, text: &[u8]) -> Result<Vec<Vec<u8>>, AllocError>
    ensures { IfOk result (λ texts. map (λ t. t.items) texts.items
        ≡ filter (λ part. nat_lt 0 (length part)) (between_commas text.now)) }
{
    let mut texts = Vec::new(alloc);
    let mut start = 0;
    for i in 1..text.len() {
        if text[i] == b',' {
            push_text(alloc, &mut texts, &text[start..i])?;
            start = i + 1;
        }
    }
    push_text(alloc, &mut texts, &text[start..])?;
    Ok(texts)
}

// Adds a text, unless it is empty. The only error is out of memory.
fn push_text(alloc: Global, texts: &mut Vec<Vec<u8>>, text: &[u8]) -> Result<(), AllocError>
    ensures { OnOk result (map (λ t. t.items) texts.new.items
        ≡ map (λ t. t.items) texts.old.items ++ filter (λ part. nat_lt 0 (length part)) (text.now ∷ [])) }
{
    if text.is_empty() {
        return Ok(());
    }
    let text = text.to_vec(alloc)?;
    texts.push(text)?;
    Ok(())
}

// Returns a text without its last byte.
fn without_last(text: &[u8]) -> &[u8]
    ensures { result.now ≡ without_last text.now }
{
    match text {
        [front @ .., _] => front,
        [] => text,
    }
}

// Returns a text without the spaces and tabs that it begins with.
fn without_blanks(text: &[u8]) -> &[u8]
    ensures { result.now ≡ drop (prefix_len is_blank text.now) text.now }
{
    for (i, byte) in text.iter().enumerate() {
        if !is_blank(*byte) {
            return &text[i..];
        }
    }
    &[]
}

// Reports whether a byte is a space or a tab.
fn is_blank(byte: u8) -> bool
    ensures { result ≡ is_blank byte }
{
    byte == b' ' || byte == b'\t'
}
