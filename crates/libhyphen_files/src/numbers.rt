//! Numbers as C's `atoi` reads them, of which one signed byte is kept.

ghost use Rattle.std.specs.Prelude.{◌≡◌, ◌^◌, ◌-◌, drop, min};
ghost use Rattle.std.specs.Char.{is_ascii_digit};
ghost use Rattle.std.specs.List.{prefix_len, take_while};
ghost use Rattle.libhyphen_files.specs.Numbers.{signed, is_space, magnitude, lowest_byte, lowest_byte_of_negative};
ghost use Rattle.libhyphen_files.specs.Numbers.{byte_after_sign, number_byte};

// The least number whose sign takes more than 64 bits.
const TOO_GREAT: u64 = 1 << 63;

// Returns the number that a byte is if it has a sign.
pub(crate) fn signed(byte: u8) -> i8
    ensures { result ≡ signed byte }
{
    i8::from_le_bytes([byte])
}

// Returns the lowest byte of the number that a text begins with, after white space; 0 if it begins with none.
pub(crate) fn number_byte(text: &[u8]) -> u8
    ensures { result ≡ number_byte text.now }
{
    byte_after_sign(without_spaces(text))
}

// Returns the lowest byte of the number that a text writes after at most one sign.
fn byte_after_sign(text: &[u8]) -> u8
    ensures { result ≡ byte_after_sign text.now }
{
    match text {
        [b'-', rest @ ..] => lowest_byte_of_negative(rest),
        [b'+', rest @ ..] => lowest_byte(rest),
        _ => lowest_byte(text),
    }
}

// Returns the lowest byte of the number that the digits at the beginning of a text write.
fn lowest_byte(text: &[u8]) -> u8
    ensures { result ≡ lowest_byte (magnitude text.now) }
{
    let number = magnitude(text);
    if number < TOO_GREAT {
        (number % 256) as u8
    } else {
        255
    }
}

// Returns the lowest byte of the negative of that number.
fn lowest_byte_of_negative(text: &[u8]) -> u8
    ensures { result ≡ lowest_byte_of_negative (magnitude text.now) }
{
    let number = magnitude(text);
    if number < TOO_GREAT {
        ((256 - number % 256) % 256) as u8
    } else {
        0
    }
}

// Returns the number that the digits at the beginning of a text write, or the greatest one of 64 bits if it is greater.
fn magnitude(text: &[u8]) -> u64
    ensures { result ≡ min (magnitude text.now) (2 ^ 64 - 1) }
{
    let mut number: u64 = 0;
    for digit in digits_of(text) {
        number = number
            .saturating_mul(10)
            .saturating_add(u64::from(*digit - b'0'));
    }
    number
}

// Returns the digits that a text begins with.
fn digits_of(text: &[u8]) -> &[u8]
    ensures { result.now ≡ take_while is_ascii_digit text.now }
{
    for (i, byte) in text.iter().enumerate() {
        if !byte.is_ascii_digit() {
            return &text[..i];
        }
    }
    text
}

// Returns a text without the white space that it begins with.
fn without_spaces(text: &[u8]) -> &[u8]
    ensures { result.now ≡ drop (prefix_len is_space text.now) text.now }
{
    for (i, byte) in text.iter().enumerate() {
        if !is_space(*byte) {
            return &text[i..];
        }
    }
    &[]
}

// Reports whether a byte is white space for C.
fn is_space(byte: u8) -> bool
    ensures { result ≡ is_space byte }
{
    byte == b' ' || (b'\t' <= byte && byte <= b'\r')
}
