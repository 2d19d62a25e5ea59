//! Lines that stay as they are.

ghost use Rattle.std.specs.Prelude.{◌≡◌, ◌≤◌, length};
ghost use Rattle.std.specs.Char.{is_ascii_digit};
ghost use Rattle.std.specs.List.{list_all, list_any};
ghost use Rattle.written_texts.specs.Kept.{begins_head, goes_on, hashes, has_letters, has_two_words, is_capitalized};
ghost use Rattle.written_texts.specs.Kept.{is_code, is_empty_line, is_fence};
ghost use Rattle.written_texts.specs.Kept.{is_fenced, is_field, is_first_field, is_from_line, is_heading, is_hyphen};
ghost use Rattle.written_texts.specs.Kept.{is_no_prose, is_same_name, is_tildes};
ghost use Rattle.written_texts.specs.Kept.{is_signature_mark, is_usual_field, is_white, name_of, place_in_body};
ghost use Rattle.written_texts.specs.Kept.{place_of_words, usual_names};

use crate::place::LinePlace;
use crate::prefix::{Parted, is_deep};

// Returns the name that a line begins with, up to a colon.
fn name_of(line: &[u8]) -> &[u8]
    ensures { result.now ≡ name_of line.now }
{
    for (i, byte) in line.iter().enumerate() {
        if !byte.is_ascii_graphic() || *byte == b':' {
            return &line[..i];
        }
    }
    line
}

// Reports whether a line begins with a name and a colon.
fn is_field(line: &[u8]) -> bool
    ensures { result ≡ is_field line.now }
{
    let name = name_of(line);
    !name.is_empty() && line[name.len()..].starts_with(b":")
}

// Reports whether two names are one.
fn is_same_name(a: &[u8], b: &[u8]) -> bool
    ensures { result ≡ is_same_name a.now b.now }
{
    a.eq_ignore_ascii_case(b)
}

// Reports whether a name is that of a usual field.
fn is_usual_name(name: &[u8]) -> bool
    ensures { result ≡ list_any (is_same_name name.now) usual_names }
{
    is_same_name(name, b"From")
        || is_same_name(name, b"To")
        || is_same_name(name, b"Cc")
        || is_same_name(name, b"Subject")
        || is_same_name(name, b"Date")
        || is_same_name(name, b"Reply-To")
        || is_same_name(name, b"Sender")
        || is_same_name(name, b"Message-ID")
        || is_same_name(name, b"Received")
        || is_same_name(name, b"Return-Path")
        || is_same_name(name, b"Delivered-To")
        || is_same_name(name, b"Newsgroups")
}

// Reports whether a line is a field with a usual name.
fn is_usual_field(line: &[u8]) -> bool
    ensures { result ≡ is_usual_field line.now }
{
    is_field(line) && is_usual_name(name_of(line))
}

// Reports whether a text begins with a capital letter.
fn is_capitalized(text: &[u8]) -> bool
    ensures { result ≡ is_capitalized text.now }
{
    match text.first() {
        Some(byte) => byte.is_ascii_uppercase(),
        None => false,
    }
}

// Reports whether a text has a hyphen.
fn has_hyphen(text: &[u8]) -> bool
    ensures { result ≡ list_any is_hyphen text.now }
{
    text.iter().any(|byte| *byte == b'-')
}

// Reports whether a name has two words.
fn has_two_words(name: &[u8]) -> bool
    ensures { result ≡ has_two_words name.now }
{
    is_capitalized(name) && has_hyphen(name)
}

// Reports whether a line that a text begins with is a field of a head.
fn is_first_field(line: &[u8]) -> bool
    ensures { result ≡ is_first_field line.now }
{
    is_usual_field(line) || (is_field(line) && has_two_words(name_of(line)))
}

// Reports whether a line goes on with the field before it.
fn goes_on(line: &[u8]) -> bool
    ensures { result ≡ goes_on line.now }
{
    line.starts_with(b" ") || line.starts_with(b"\t")
}

// Reports whether a text has only digits.
fn are_digits(text: &[u8]) -> bool
    ensures { result ≡ list_all is_ascii_digit text.now }
{
    text.iter().all(|byte| byte.is_ascii_digit())
}

// Reports whether a line parts the mails of a mailbox.
fn is_from_line(line: &[u8]) -> bool
    ensures { result ≡ is_from_line line.now }
{
    line.starts_with(b"From ") && are_digits(&line[line.len().saturating_sub(4)..])
}

// Reports whether a line begins or ends lines of code.
fn is_fence(line: &Parted<'_>) -> bool
    ensures { result ≡ is_fence line.now.text.now }
{
    line.bare.as_bytes().starts_with(b"```")
}

// Reports whether a line begins or ends lines of code between tildes.
fn is_tildes(line: &Parted<'_>) -> bool
    ensures { result ≡ is_tildes line.now.text.now }
{
    line.bare.as_bytes().starts_with(b"~~~")
}

// Reports whether a line is the mark of a signature.
fn is_signature_mark(line: &Parted<'_>) -> bool
    ensures { result ≡ is_signature_mark line.now.text.now }
{
    line.bare == "-- " || line.bare == "--"
}

// Returns the number of hashes that a text begins with.
fn hashes(text: &[u8]) -> usize
    ensures value { result ≡ hashes text.now }
    ensures within { result ≤ length text.now }
{
    for (i, byte) in text.iter().enumerate() {
        if *byte != b'#' {
            return i;
        }
    }
    text.len()
}

// Reports whether a line is a heading.
fn is_heading(line: &Parted<'_>) -> bool
    ensures { result ≡ is_heading line.now.text.now }
{
    let bare = line.bare.as_bytes();
    let hashes = hashes(bare);
    0 < hashes && hashes < 7 && bare[hashes..].starts_with(b" ")
}

// Reports whether a line has a letter or a digit after its prefix.
fn has_letters(line: &Parted<'_>) -> bool
    ensures { result ≡ has_letters line.now.text.now }
{
    line.rest.chars().any(|c| c.is_alphanumeric())
}

// Reports whether a line is no prose.
fn is_no_prose(line: &Parted<'_>) -> bool
    ensures { result ≡ is_no_prose line.now.text.now }
{
    is_heading(line) || line.bare.as_bytes().starts_with(b"|") || !has_letters(line)
}

// Reports whether a line is indented as code is.
fn is_code(line: &Parted<'_>) -> bool
    ensures { result ≡ is_code line.now.text.now }
{
    is_deep(line.text.as_bytes()) || is_deep(line.unquoted.as_bytes())
}

// Reports whether a line begins the head of a mail.
fn begins_head(line: &[u8]) -> bool
    ensures { result ≡ begins_head line.now }
{
    is_from_line(line) || is_usual_field(line)
}

// Returns the place after a line that stays.
fn place_in_body(joins: bool, line: &Parted<'_>) -> Option<LinePlace>
    ensures { result ≡ place_in_body joins line.now.text.now }
{
    if !joins && begins_head(line.text.as_bytes()) {
        Some(LinePlace::Head)
    } else if !joins && is_code(line) {
        Some(LinePlace::Body)
    } else if is_fence(line) {
        Some(LinePlace::Fence)
    } else if is_tildes(line) {
        Some(LinePlace::Tildes)
    } else if is_signature_mark(line) {
        Some(LinePlace::Signature)
    } else if is_no_prose(line) {
        Some(LinePlace::Body)
    } else {
        None
    }
}

// Returns the place after a line that stays, where it is at this place.
pub(crate) fn place_of_words(place: LinePlace, joins: bool, line: &Parted<'_>) -> Option<LinePlace>
    ensures { result ≡ place_of_words place joins line.now.text.now }
{
    let bytes = line.text.as_bytes();
    match place {
        LinePlace::Beginning if is_first_field(bytes) => Some(LinePlace::Head),
        LinePlace::Head if is_field(bytes) || goes_on(bytes) => Some(LinePlace::Head),
        LinePlace::Fence if is_fence(line) => Some(LinePlace::Body),
        LinePlace::Fence => Some(LinePlace::Fence),
        LinePlace::Tildes if is_tildes(line) => Some(LinePlace::Body),
        LinePlace::Tildes => Some(LinePlace::Tildes),
        LinePlace::Signature => Some(LinePlace::Signature),
        _ => place_in_body(joins, line),
    }
}

// Reports whether a byte is white space.
fn is_white(byte: u8) -> bool
    ensures { result ≡ is_white byte }
{
    byte == b' ' || (b'\t' <= byte && byte <= b'\r')
}

// Reports whether a text has only white space.
fn are_white(text: &[u8]) -> bool
    ensures { result ≡ list_all is_white text.now }
{
    text.iter().all(|byte| is_white(*byte))
}

// Reports whether a place is within fences.
fn is_fenced(place: LinePlace) -> bool
    ensures { result ≡ is_fenced place }
{
    matches!(place, LinePlace::Fence | LinePlace::Tildes)
}

// Reports whether a line has nothing beside quote signs and white space, where it is at this place.
pub(crate) fn is_empty_line(place: LinePlace, line: &Parted<'_>) -> bool
    ensures { result ≡ is_empty_line place line.now.text.now }
{
    !is_fenced(place) && are_white(line.unquoted.as_bytes())
}
