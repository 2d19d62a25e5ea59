//! The bounds of words around any character, by the rules of UAX #29. The code follows that of the kit's
//! `unicode_segmentation` (MIT or Apache-2.0).

ghost use Rattle.std.specs.Prelude.{◌≡◌, ◌⊎◌, IsTrue, ◌<◌, ◌≤◌, not, ◌&&◌, if◌then◌else◌};
ghost use Rattle.std.specs.Prelude.{ℕ, ◌∷◌, length, drop, reverse, slice_index};
ghost use Rattle.std.specs.Char.{is_ascii_alphabetic};
ghost use Rattle.std.specs.Str.{chars, IsCharBoundary};
ghost use Rattle.ucd_breaks.specs.WordBreak.{word_break};
ghost use Rattle.ucd_emoji.specs.Binary.{is_extended_pictographic};
ghost use Rattle.unicode_segmentation.specs.Segments.{chars_before};
ghost use Rattle.unicode_segmentation.specs.Steps.{IsFirstEnd};
ghost use Rattle.unicode_segmentation.specs.Word.{break_by_pair, is_ignored, is_ah_letter, is_numeric, is_regional};
ghost use Rattle.unicode_segmentation.specs.Word.{significant, starts_with_half_flag, joins, joins_flag, value_at, is_word_break};

use crate::characters::{char_at, split_first_char, split_last_char};
use ucd_breaks::WordBreak;
use ucd_breaks::WordBreak::*;

// Returns where the piece that begins at `start` ends, and whether half a flag ends there.
pub(crate) fn first_end(text: &str, start: usize, limit: usize, half_flag: bool) -> (usize, bool)
    requires some { start < limit }
    requires start { IsCharBoundary text.now start }
    requires limit { IsCharBoundary text.now limit }
    requires flag { half_flag ≡ starts_with_half_flag (significant (chars_before text.now start)) }
    ensures end { IsFirstEnd is_word_break text.now start limit result.0 }
    ensures flag { result.1 ≡ starts_with_half_flag (significant (chars_before text.now result.0)) }
{
    let (first, second) = char_at(text, start, limit);
    let mut last = WordBreak::for_char(first);
    let mut half_flag = step(last, half_flag);
    let mut at = past_ascii_letters(text, second, limit, last);
    'chars: while at < limit {
        let (next, end) = char_at(text, at, limit);
        let right = WordBreak::for_char(next);
        let closes_flag = half_flag && is_regional(right);
        if is_break(&text[..at], last, next, right, &text[end..], closes_flag) {
            break;
        }
        half_flag = step(right, half_flag);
        last = right;
        at = past_ascii_letters(text, end, limit, last);
    }
    (at, half_flag)
}

// Passes the ASCII letters that follow a letter, which WB5 joins.
#[inline(always)]
fn past_ascii_letters(text: &str, from: usize, limit: usize, last: WordBreak) -> usize
    requires within { from ≤ limit }
    requires limit { limit ≤ length text.now }
    ensures within { (from ≤ result) × (result ≤ limit) }
    ensures letters { from < result → last ≡ WordBreak.ALetter }
    ensures all { (k : ℕ) → from ≤ k → k < result → IsTrue (is_ascii_alphabetic (slice_index text.now k)) }
{
    let mut at = from;
    if last == ALetter {
        let bytes = text.as_bytes();
        'letters: while at < limit && bytes[at].is_ascii_alphabetic() {
            at += 1;
        }
    }
    at
}

// Whether half a flag ends after a character, from whether one ends before it.
#[inline]
fn step(value: WordBreak, half_flag: bool) -> bool
    ensures { result ≡ (if is_ignored value then half_flag else is_regional value && not half_flag) }
{
    if is_ignored(value) {
        half_flag
    } else {
        is_regional(value) && !half_flag
    }
}

// Whether there is a boundary between the text `before` and the character `next`, which `after` follows.
#[inline(always)]
fn is_break(
    before: &str,
    last: WordBreak,
    next: char,
    right: WordBreak,
    after: &str,
    closes_flag: bool,
) -> bool
    requires some { 0 < length (reverse (chars before.now)) }
    requires last { last ≡ word_break (slice_index (reverse (chars before.now)) 0) }
    requires right { right ≡ word_break next }
    requires flag { closes_flag ≡ joins_flag (reverse (chars before.now)) next }
    ensures { result ≡ is_word_break (reverse (chars before.now)) (next ∷ chars after.now) }
{
    if last == ALetter && right == ALetter {
        return false;
    }
    if let Some(is_break) = break_by_pair(last, right, next) {
        return is_break;
    }
    let left = significant_or_earlier(last, before);
    !closes_flag && !joins_around(before, left, right, after)
}

#[inline]
fn significant_or_earlier(last: WordBreak, before: &str) -> WordBreak
    requires some { 0 < length (reverse (chars before.now)) }
    requires last { last ≡ word_break (slice_index (reverse (chars before.now)) 0) }
    ensures { result ≡ value_at (significant (reverse (chars before.now))) 0 }
{
    if is_ignored(last) {
        last_significant(before).0
    } else {
        last
    }
}

#[inline(always)]
fn break_by_pair(left: WordBreak, right: WordBreak, next: char) -> Option<bool>
    ensures { result ≡ break_by_pair left right (is_extended_pictographic next) }
{
    match (left, right) {
        (Cr, Lf) => Some(false),
        (Newline | Cr | Lf, _) | (_, Newline | Cr | Lf) => Some(true),
        (Zwj, _) if ucd_emoji::is_extended_pictographic(next) => Some(false),
        (WSegSpace, WSegSpace) | (_, Extend | Format | Zwj) => Some(false),
        _ => None,
    }
}

#[inline(always)]
fn joins_around(before: &str, left: WordBreak, right: WordBreak, after: &str) -> bool
    requires { left ≡ value_at (significant (reverse (chars before.now))) 0 }
    ensures { result ≡ joins (value_at (significant (reverse (chars before.now))) 1) left right (value_at (significant (chars after.now)) 0) }
{
    if is_unnamed(left) || is_unnamed(right) {
        return false;
    }
    joins_named(before, left, right, after)
}

// Whether no rule from WB5 on names the value, for the two that most texts have.
#[inline(always)]
fn is_unnamed(value: WordBreak) -> bool
    ensures { IsTrue result → (value ≡ WordBreak.Other) ⊎ (value ≡ WordBreak.WSegSpace) }
{
    matches!(value, Other | WSegSpace)
}

// Looks further than the two neighbors only where a rule may ask for it.
fn joins_named(before: &str, left: WordBreak, right: WordBreak, after: &str) -> bool
    requires { left ≡ value_at (significant (reverse (chars before.now))) 0 }
    ensures { result ≡ joins (value_at (significant (reverse (chars before.now))) 1) left right (value_at (significant (chars after.now)) 0) }
{
    match (left, right) {
        (ALetter | HebrewLetter | Numeric, ALetter | HebrewLetter | Numeric) => true,
        (HebrewLetter, SingleQuote) | (Katakana, Katakana) => true,
        (ALetter | HebrewLetter | Numeric | Katakana | ExtendNumLet, ExtendNumLet) => true,
        (ExtendNumLet, ALetter | HebrewLetter | Numeric | Katakana) => true,
        (ALetter, MidLetter | MidNumLet | SingleQuote) => is_ah_letter(first_significant(after)),
        (HebrewLetter, MidLetter | MidNumLet) => is_ah_letter(first_significant(after)),
        (HebrewLetter, DoubleQuote) => first_significant(after) == HebrewLetter,
        (Numeric, MidNum | MidNumLet | SingleQuote) => is_numeric(first_significant(after)),
        (MidLetter | MidNumLet | SingleQuote, ALetter | HebrewLetter) => {
            is_ah_letter(second_last_significant(before))
        }
        (DoubleQuote, HebrewLetter) => second_last_significant(before) == HebrewLetter,
        (MidNum | MidNumLet | SingleQuote, Numeric) => second_last_significant(before) == Numeric,
        _ => false,
    }
}

fn first_significant(after: &str) -> WordBreak
    ensures { result ≡ value_at (significant (chars after.now)) 0 }
{
    let mut rest = after;
    while let Some((c, back)) = split_first_char(rest) {
        let value = WordBreak::for_char(c);
        if !is_ignored(value) {
            return value;
        }
        rest = back;
    }
    Other
}

// The last value that WB4 does not pass over, and the text before it.
fn last_significant(before: &str) -> (WordBreak, &str)
    ensures value { result.0 ≡ value_at (significant (reverse (chars before.now))) 0 }
    ensures rest { significant (reverse (chars result.1.now)) ≡ drop 1 (significant (reverse (chars before.now))) }
{
    let mut rest = before;
    while let Some((c, front)) = split_last_char(rest) {
        let value = WordBreak::for_char(c);
        if !is_ignored(value) {
            return (value, front);
        }
        rest = front;
    }
    (Other, rest)
}

fn second_last_significant(before: &str) -> WordBreak
    ensures { result ≡ value_at (significant (reverse (chars before.now))) 1 }
{
    let (_, front) = last_significant(before);
    last_significant(front).0
}

#[inline]
fn is_ignored(value: WordBreak) -> bool
    ensures { result ≡ is_ignored value }
{
    matches!(value, Extend | Format | Zwj)
}

#[inline]
fn is_ah_letter(value: WordBreak) -> bool
    ensures { result ≡ is_ah_letter value }
{
    matches!(value, ALetter | HebrewLetter)
}

#[inline]
fn is_regional(value: WordBreak) -> bool
    ensures { result ≡ is_regional value }
{
    matches!(value, RegionalIndicator)
}

#[inline]
fn is_numeric(value: WordBreak) -> bool
    ensures { result ≡ is_numeric value }
{
    matches!(value, Numeric)
}
