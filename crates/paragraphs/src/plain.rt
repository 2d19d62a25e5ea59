//! Words of printable ASCII.
//!
//! They are found byte by byte.

ghost use Rattle.std.specs.Prelude.{◌≡◌, ◌∷◌, ◌+◌, ◌<◌, ◌≤◌, [], true, MatchOption, IfSome, length};
ghost use Rattle.std.specs.Char.{is_ascii_alphabetic};
ghost use Rattle.std.specs.List.{list_all};
ghost use Rattle.std.specs.Str.{IsUtf8};
ghost use Rattle.paragraphs.specs.Private.Plain.{is_plain, is_ascii_gap, AreLetters, EachBetween, IsPlainWord};
ghost use Rattle.paragraphs.specs.Private.Printable.{is_printable};
ghost use Rattle.paragraphs.specs.Words.{words};

use crate::words::split_word;

// Reports whether a byte is a printable character of ASCII, but no space.
#[inline(always)]
fn is_plain(byte: u8) -> bool
    ensures { result ≡ is_plain byte }
{
    0x21 <= byte && byte <= 0x7e
}

// Reports whether a byte is a gap of ASCII.
#[inline(always)]
fn is_ascii_gap(byte: u8) -> bool
    ensures { result ≡ is_ascii_gap byte }
{
    byte == b' ' || (9 <= byte && byte <= 13)
}

// A place in the bytes of a text.
#[derive(Clone, Copy)]
struct BytePlace<'b> {
    bytes: &'b [u8],
    at: usize,
    ghost within: { at ≤ length bytes.now },
}

// Passes plain bytes from a place on.
#[inline(always)]
fn past_plain(place: BytePlace) -> usize
    ensures within { (place.entry.at ≤ result) × (result ≤ length place.entry.bytes.now) }
    ensures each { EachBetween is_plain place.entry.bytes.now place.entry.at result }
{
    let bytes = place.bytes;
    let mut at = place.at;
    'bytes: while at < bytes.len() && is_plain(bytes[at]) {
        at += 1;
    }
    at
}

// Passes gaps of ASCII at the beginning.
#[inline(always)]
fn past_gaps(bytes: &[u8]) -> usize
    ensures within { result ≤ length bytes.now }
    ensures each { EachBetween is_ascii_gap bytes.now 0 result }
{
    let mut at = 0;
    'bytes: while at < bytes.len() && is_ascii_gap(bytes[at]) {
        at += 1;
    }
    at
}

// Passes letters of ASCII from a place on.
#[inline(always)]
fn past_letters(place: BytePlace) -> usize
    ensures within { (place.entry.at ≤ result) × (result ≤ length place.entry.bytes.now) }
    ensures each { EachBetween is_ascii_alphabetic place.entry.bytes.now place.entry.at result }
{
    let bytes = place.bytes;
    let mut at = place.at;
    'bytes: while at < bytes.len() && bytes[at].is_ascii_alphabetic() {
        at += 1;
    }
    at
}

// Returns the end of the word from a place on, if it is plain. The bytes before a later place are known to be.
#[inline(always)]
#[tactic(auto, using(crate::proofs::PlainWords::plain_on))]
fn plain_end(place: BytePlace, known: usize) -> Option<usize>
    requires start { place.at ≤ known }
    requires within { known ≤ length place.bytes.now }
    requires plain { EachBetween is_plain place.bytes.now place.at known }
    ensures { IfSome result (λ end. IsPlainWord place.entry.bytes.now place.entry.at end) }
{
    let bytes = place.bytes;
    let end = past_plain(BytePlace { bytes, at: known });
    if end == place.at {
        return None;
    }
    if end < bytes.len() && !is_ascii_gap(bytes[end]) {
        return None;
    }
    Some(end)
}

// The first word of a text.
#[derive(Drop)]
pub(crate) struct FirstWord<'t> {
    // Its text.
    pub(crate) text: &'t str,
    // Whether it is known to be of printable ASCII.
    pub(crate) plain: bool,
    // Whether it is known to be of letters of ASCII only.
    pub(crate) letters: bool,
    // The text after it.
    pub(crate) after: &'t str,
    ghost utf8: { ∥ IsUtf8 text.now ∥₁ },
    ghost utf8_after: { ∥ IsUtf8 after.now ∥₁ },
    ghost printable: { plain ≡ true → list_all is_printable text.now ≡ true },
    ghost alphabetic: { letters ≡ true → AreLetters text.now },
}

// Returns the first word of a text, if it is plain.
#[inline(always)]
fn split_plain(text: &str) -> Option<FirstWord>
    ensures word { IfSome result (λ word. words text.now ≡ word.text.now ∷ words word.after.now) }
    ensures less { IfSome result (λ word. length word.after.now < length text.now) }
{
    let bytes = text.as_bytes();
    let start = past_gaps(bytes);
    let place = BytePlace { bytes, at: start };
    let letters_end = past_letters(place);
    let end = plain_end(place, letters_end)?;
    Some(FirstWord {
        text: &text[start..end],
        plain: true,
        letters: end == letters_end,
        after: &text[end..],
    })
}

// Returns the first word of a text.
#[inline(always)]
pub(crate) fn next_word(text: &str) -> Option<FirstWord>
    ensures word { MatchOption result (words text.now ≡ [])
        (λ word. words text.now ≡ word.text.now ∷ words word.after.now) }
    ensures less { IfSome result (λ word. length word.after.now < length text.now) }
{
    if let Some(word) = split_plain(text) {
        return Some(word);
    }
    let (word, after) = split_word(text)?;
    Some(FirstWord {
        text: word,
        plain: false,
        letters: false,
        after,
    })
}
