//! Lines of a dictionary text, the numbers in them, and the three head lines.

ghost use Rattle.std.specs.Prelude.{◌≡◌, ◌==◌, ◌^◌, ◌<◌, ◌∷◌, [], IsUtf8, IfOk, IfSome, IfNone, position, length};
ghost use Rattle.std.specs.Prelude.{take, map, option_map, nat_lt, true, if◌then◌else◌, Some, None};
ghost use Rattle.std.specs.List.{list_all};
ghost use Rattle.std.specs.Str.{is_utf8};
ghost use Rattle.hyphenation_breaks.specs.Borrowed.{texts_now};
ghost use Rattle.hyphenation_breaks.specs.Ascii.{line_feed, space};
ghost use Rattle.hyphenation_grammar.specs.Form.{head_line, head_of, version_by};
ghost use Rattle.hyphenation_grammar.specs.Lines.{between_spaces, lines_of, tokens_after, strip_prefix, starts_with, is_digit};
ghost use Rattle.hyphenation_grammar.specs.Lines.{has_no_leading_zero, number_of, with_digit, language_of, minima_of};
ghost use Rattle.hyphenation_grammar.specs.Lines.{number_to_255, two_minima, is_same};
ghost use Rattle.hyphenation_grammar.specs.Private.Lines.{value_in_64_bits};

use crate::form::{Form, Kind, Version};
use hyphenation_breaks::language::Language;
use hyphenation_breaks::laws::codes_are_text;
use std::alloc::{AllocError, Global};

/// Returns the first line of a text, without its line feed, and the rest of the text after it. `None` for an empty
/// text. A last line may end without a line feed.
pub fn next_line(text: &[u8]) -> Option<(&[u8], &[u8])>
    ensures none { IfNone result (lines_of text.now ≡ []) }
    ensures first { IfSome result (λ x. lines_of text.now ≡ x.0.now ∷ lines_of x.1.now) }
    ensures utf8 { IsUtf8 text.now → IfSome result (λ x. IsUtf8 x.0.now × IsUtf8 x.1.now) }
    ensures shorter { IfSome result (λ x. length x.1.now < length text.now) }
{
    if text.is_empty() {
        return None;
    }
    match find_line_feed(text) {
        None => Some((text, &text[text.len()..])),
        Some(at) => Some(cut_at_line_feed(text, at)),
    }
}

// Returns the first line of a text and the rest after it, given the place of the first line feed, in bytes.
#[inline(always)]
pub(crate) fn cut_at_line_feed(text: &[u8], at: usize) -> (&[u8], &[u8])
    requires { Some at ≡ position (λ b. b == line_feed) text.now }
    ensures first { lines_of text.now ≡ result.0.now ∷ lines_of result.1.now }
    ensures utf8 { IsUtf8 text.now → IsUtf8 result.0.now × IsUtf8 result.1.now }
    ensures shorter { length result.1.now < length text.now }
    ensures line { result.0.now ≡ take at text.now }
{
    (&text[..at], &text[at + 1..])
}

// Returns the place of the first line feed, in bytes.
fn find_line_feed(text: &[u8]) -> Option<usize>
    ensures { result ≡ position (λ b. b == line_feed) text.now }
{
    text.iter().position(|b| *b == b'\n')
}

// Splits a text at its spaces.
pub(crate) fn between_spaces(alloc: Global, text: &[u8]) -> Result<Vec<&[u8]>, AllocError>
    ensures { IfOk result (λ v. texts_now v.items ≡ between_spaces text.now) }
{
    text.split(|b| *b == b' ').collect(alloc)
}

// Returns the place of the first space, in bytes.
fn find_space(text: &[u8]) -> Option<usize>
    ensures { result ≡ position (λ b. b == space) text.now }
{
    text.iter().position(|b| *b == b' ')
}

/// Returns the first token of a text, and the text after the space that ends it. `None` if there is no space.
pub fn first_token(text: &[u8]) -> (&[u8], Option<&[u8]>)
    ensures parts { between_spaces text.now ≡ result.0.now ∷ tokens_after (option_map (λ rest. rest.now) result.1) }
    ensures utf8 { IsUtf8 text.now → IsUtf8 result.0.now × IfSome result.1 (λ rest. IsUtf8 rest.now) }
    ensures shorter { IfSome result.1 (λ rest. length rest.now < length text.now) }
{
    match find_space(text) {
        None => (text, None),
        Some(at) => (&text[..at], Some(&text[at + 1..])),
    }
}

/// Returns the text without that beginning. `None` if it begins otherwise.
pub fn strip_prefix<'t>(start: &[u8], text: &'t [u8]) -> Option<&'t [u8]>
    ensures { option_map (λ rest. rest.now) result ≡ strip_prefix start.now text.now }
{
    text.strip_prefix(start)
}

/// Reports whether a text begins with these bytes.
pub fn starts_with(start: &[u8], text: &[u8]) -> bool
    ensures { result ≡ starts_with start.now text.now }
{
    strip_prefix(start, text).is_some()
}

/// Reports whether a line is the line 1 of that form.
pub fn is_head(form: Form, line: &[u8]) -> bool
    ensures { result ≡ is_same line.now (head_line form) }
{
    line == head_of(form.kind, form.version)
}

/// Returns line 1 of a text of that kind and version, without its line feed.
pub fn head_of(kind: Kind, version: Version) -> &'static [u8]
    ensures { result.now ≡ head_of kind version }
{
    match (kind, version) {
        (Kind::Standard, Version::First) => b"hyphenation 1 standard".as_slice(),
        (Kind::Standard, Version::Second) => b"hyphenation 2 standard".as_slice(),
        (Kind::Extended, Version::First) => b"hyphenation 1 extended".as_slice(),
        (Kind::Extended, Version::Second) => b"hyphenation 2 extended".as_slice(),
    }
}

/// Returns the version that a first line names in a text of that kind, or the first version if it names none.
pub fn version_by(kind: Kind, line: &[u8]) -> Version
    ensures { result ≡ version_by kind line.now }
{
    if line == head_of(kind, Version::Second) {
        Version::Second
    } else {
        Version::First
    }
}

/// Returns the language that line 2 names. `None` if it is no language line.
pub fn language_of(line: &[u8]) -> Option<Language>
    ensures { result ≡ language_of line.now }
{
    codes_are_text();
    let code = strip_prefix(b"language ", line)?;
    match std::str::from_utf8(code) {
        Ok(code) => Language::from_code(code),
        Err(_) => None,
    }
}

/// Returns the two minima of line 3, in characters. `None` if it is no minima line. The only error is memory.
pub fn minima_of(alloc: Global, line: &[u8]) -> Result<Option<(u8, u8)>, AllocError>
    ensures { IfOk result (λ found. found ≡ minima_of line.now) }
{
    match strip_prefix(b"minima ", line) {
        None => Ok(None),
        Some(rest) => {
            let parts = between_spaces(alloc, rest)?;
            Ok(two_minima(&parts))
        }
    }
}

// Returns two numbers from 0 to 255, if there are exactly two parts.
fn two_minima(parts: &[&[u8]]) -> Option<(u8, u8)>
    ensures { result ≡ two_minima (texts_now parts.now) }
{
    if parts.len() != 2 {
        return None;
    }
    match (number_to_255(parts[0]), number_to_255(parts[1])) {
        (Some(left), Some(right)) => Some((left, right)),
        _ => None,
    }
}

// Returns a number from 0 to 255, as minima and values are.
pub(crate) fn number_to_255(text: &[u8]) -> Option<u8>
    ensures { result ≡ number_to_255 text.now }
{
    let value = number_of(text)?;
    u8::try_from(value).ok()
}

/// Returns the number that a text spells: `0`, or digits without a leading zero, below 2^64. `None` for any other text.
pub fn number_of(text: &[u8]) -> Option<usize>
    ensures { result ≡ number_of text.now }
{
    if !are_digits(text) || !has_no_leading_zero(text) {
        return None;
    }
    digits_value(text)
}

// Whether a byte is an ASCII digit.
fn is_digit(byte: u8) -> bool
    ensures { result ≡ is_digit byte }
{
    byte.is_ascii_digit()
}

// Whether all bytes are digits.
fn are_digits(text: &[u8]) -> bool
    ensures { result ≡ list_all is_digit text.now }
{
    text.iter().all(|byte| is_digit(*byte))
}

// Whether a text is not empty, and begins with no zero unless it is only that zero.
fn has_no_leading_zero(text: &[u8]) -> bool
    ensures { result ≡ has_no_leading_zero text.now }
{
    match text {
        [] => false,
        [first, rest @ ..] => *first != b'0' || rest.is_empty(),
    }
}

// Returns the number that digits write, if it is below 2^64.
fn digits_value(text: &[u8]) -> Option<usize>
    requires { list_all is_digit text.now ≡ true }
    ensures { result ≡ value_in_64_bits text.now }
{
    let mut value: usize = 0;
    for byte in text {
        match with_digit(value, *byte) {
            None => return None,
            Some(next) => value = next,
        }
    }
    Some(value)
}

// Appends a digit to a number, if the result is below 2^64.
fn with_digit(value: usize, digit: u8) -> Option<usize>
    requires { is_digit digit ≡ true }
    ensures { result ≡ (if nat_lt (with_digit value digit) (2 ^ 64) then Some (with_digit value digit) else None) }
{
    let units = usize::from(digit - b'0');
    value.checked_mul(10)?.checked_add(units)
}

/// Reports whether bytes are UTF-8.
pub fn is_utf8(text: &[u8]) -> bool
    ensures { result ≡ is_utf8 text.now }
{
    // It takes 64 bytes a step. For a text with letters beyond ASCII that is several times as fast as the test of std.
    simdutf8::basic::from_utf8(text).is_ok()
}
