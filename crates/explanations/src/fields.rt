//! Texts in the fields of lines for programs. Functions named `push_..` append to a text.

ghost use Rattle.std.specs.Prelude.{◌≡◌, ◌++◌, ◌<◌, List, OnOk, ℕ, false};
ghost use Rattle.std.specs.Char.{digit_char, is_ascii_control};
ghost use Rattle.std.specs.List.{All};
ghost use Rattle.std.specs.Char.Escape.{escape_unicode};
ghost use Rattle.explanations.specs.Fields.{are_control, field_byte, field_text};

use crate::numbers::item_at;
use std::alloc::AllocError;

// Returns a digit of base 16, in small letters.
fn hex_digit(digit: u8) -> u8
    requires { digit < 16 }
    ensures { result ≡ digit_char digit }
{
    if digit < 10 { b'0' + digit } else { 87 + digit }
}

// Appends a character below U+0100 as an escape of its number.
fn push_number_escape(text: &mut Vec<u8>, number: u8) -> Result<(), AllocError>
    ensures { OnOk result (text.new.items ≡ text.old.items ++ escape_unicode number) }
{
    let low = hex_digit(number % 16);
    if number < 16 {
        text.extend_from_slice(&[b'\\', b'u', b'{', low, b'}'])
    } else {
        let high = hex_digit(number / 16 % 16);
        text.extend_from_slice(&[b'\\', b'u', b'{', high, low, b'}'])
    }
}

// Reports whether two bytes are a control character from U+0080 to U+009F.
fn are_control(first: u8, second: u8) -> bool
    ensures { result ≡ are_control first second }
{
    first == 194 && (128 <= second && second < 160)
}

// Appends a byte in a field, by the bytes before and after it.
#[tactic(auto, unfolding(crate::specs::Fields::field_byte))]
fn push_field_byte(text: &mut Vec<u8>, before: u8, byte: u8, after: u8) -> Result<(), AllocError>
    ensures { OnOk result (text.new.items ≡ text.old.items ++ field_byte before byte after) }
{
    if byte == b'\\' {
        text.extend_from_slice(b"\\\\")
    } else if byte == b'\t' {
        text.extend_from_slice(b"\\t")
    } else if byte == b'\n' {
        text.extend_from_slice(b"\\n")
    } else if byte == b'\r' {
        text.extend_from_slice(b"\\r")
    } else if byte.is_ascii_control() {
        push_number_escape(text, byte)
    } else if are_control(byte, after) {
        Ok(())
    } else if are_control(before, byte) {
        push_number_escape(text, byte)
    } else {
        text.extend_from_slice(&[byte])
    }
}

// Appends a text in a field.
pub(crate) fn push_field_text(text: &mut Vec<u8>, bytes: &[u8]) -> Result<(), AllocError>
    ensures { OnOk result (text.new.items ≡ text.old.items ++ field_text bytes.now) }
{
    let mut before = 0;
    for (index, byte) in bytes.iter().enumerate() {
        push_field_byte(text, before, *byte, item_at(bytes, index + 1, 0))?;
        before = *byte;
    }
    Ok(())
}

/// A law: a text in a field has no byte of an ASCII control character. So it has neither tab nor line feed, and each line
/// of fields stays one line.
pub fn fields_have_no_control_characters()
    ensures { (text : List ℕ) → All (λ byte. is_ascii_control byte ≡ false) (field_text text) }
{}
