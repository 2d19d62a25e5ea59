//! Places that have too few letters on one side are taken away.

ghost use Rattle.std.specs.Prelude.{◌≡◌, ◌+ℤ◌, ◌<◌, ◌≤◌, ◌+◌, ◌-◌, ◌&&◌, None, length, drop, take, set, slice_index_or, pos};
ghost use Rattle.std.specs.List.{after_first, before_first, position};
ghost use Rattle.hyphenation_breaks.specs.Ascii.{digit_zero};
ghost use Rattle.libhyphen_rule.specs.Found.{placed, placed_all};
ghost use Rattle.libhyphen_rule.specs.Letters.{letters, letters_in_first, letters_in_hundred};
ghost use Rattle.libhyphen_rule.specs.Minima.{change_is_short_before, change_is_short_after, digits_but, changes_but, left_goes, right_goes};
ghost use Rattle.libhyphen_rule.specs.Minima.{has_equals, is_below, is_equals};

use crate::letters::{
    characters_at, digits_at_begin, digits_at_end, letters, letters_at, letters_in_first,
    letters_in_hundred,
};
use crate::one_level::PlacedChange;

// Reports whether some letters and those of a text are fewer than a minimum.
fn is_below(utf8: bool, least: i32, count: usize, text: &[u8]) -> bool
    ensures { result ≡ is_below (count + letters utf8 text.now) least }
{
    (count as i128) + (letters(utf8, text) as i128) < (least as i128)
}

// Reports whether letters are fewer than a minimum and some digits, which are no letters.
#[inline(always)]
fn is_few(letters: usize, least: i32, digits: usize) -> bool
    ensures { result ≡ is_below letters (least +ℤ pos digits) }
{
    (letters as i128) < (least as i128) + (digits as i128)
}

// Returns the index of the first equals sign of a text, if it has one.
pub(crate) fn find_equals(text: &[u8]) -> Option<usize>
    ensures { result ≡ position is_equals text.now }
{
    text.iter().position(|b| *b == b'=')
}

// Returns the bytes of a text from an index on. Behind the text there are none.
fn text_from(text: &[u8], from: usize) -> &[u8]
    ensures { result.now ≡ drop from text.now }
{
    if from >= text.len() {
        return &[];
    }
    &text[from..]
}

// Reports whether a change has too few letters before its break. These are those of the word before the change's
// region, and those of its text before the equals sign. `end` is how many bytes are before the place. A change without
// an equals sign is never short.
fn is_short_before(
    utf8: bool,
    least: i32,
    text: &[u8],
    end: usize,
    change: &PlacedChange<'_>,
) -> bool
    requires { end ≤ length text.now }
    ensures { result ≡ change_is_short_before utf8 least text.now end (placed change.now) }
{
    match find_equals(change.text) {
        Some(equals) => {
            let region = end.saturating_sub(change.pos);
            let count = letters_in_first(utf8, text, region);
            is_below(utf8, least, count, &change.text[..equals])
        }
        None => false,
    }
}

// Reports whether a change has too few letters behind its break. These are those behind the change's region, in 100
// bytes at most, and those of its text behind the equals sign. `end` is how many bytes are before the place. A change
// without an equals sign is never short.
fn is_short_after(
    utf8: bool,
    least: i32,
    text: &[u8],
    end: usize,
    change: &PlacedChange<'_>,
) -> bool
    ensures { result ≡ change_is_short_after utf8 least text.now end (placed change.now) }
{
    match find_equals(change.text) {
        Some(equals) => {
            let region = end.saturating_sub(change.pos).saturating_add(change.cut);
            let count = letters_in_hundred(utf8, text_from(text, region));
            is_below(utf8, least, count, &change.text[equals + 1..])
        }
        None => false,
    }
}

// Returns the change of the place behind a byte, if it has one. Behind the end of the list there is none.
#[inline(always)]
fn change_behind<'d>(changes: &[Option<PlacedChange<'d>>], byte: usize) -> Option<PlacedChange<'d>>
    ensures { result ≡ slice_index_or changes.now byte None }
{
    if byte < changes.len() {
        changes[byte]
    } else {
        None
    }
}

// Takes away the place behind a byte: its digit is 0 then, and it has no change. The list of changes may end before the
// place.
#[inline(always)]
fn take_place(digits: &mut [u8], changes: &mut [Option<PlacedChange<'_>>], byte: usize)
    requires { byte < length digits.old }
    ensures digits { digits.new ≡ set digits.old byte digit_zero }
    ensures changes { placed_all changes.new ≡ set (placed_all changes.old) byte None }
{
    digits[byte] = b'0';
    if byte < changes.len() {
        changes[byte] = None;
    }
}

// Takes away the places that have fewer letters before them than a minimum.
//
// `text` is the word with what follows it, up to the first byte 0; it may be shorter than the word. There is a digit
// for each byte of the word. The list of changes may be shorter: there are no changes behind its end. A place that goes
// gets the digit 0, and no change. The count of letters never falls, so the first place that has enough ends the
// search.
#[inline(always)]
pub(crate) fn take_left(
    utf8: bool,
    least: i32,
    text: &[u8],
    digits: &mut [u8],
    changes: &mut [Option<PlacedChange<'_>>],
)
    requires { length changes.old ≤ length digits.old }
    ensures digits { digits.new ≡ digits_but (left_goes utf8 least text.now (placed_all changes.old)) digits.old }
    ensures changes { placed_all changes.new
        ≡ changes_but (left_goes utf8 least text.now (placed_all changes.old)) (placed_all changes.old) }
{
    let digits_before = digits_at_begin(text);
    let mut count: usize = 0;
    for byte in 0..digits.len().min(text.len()) {
        count += letters_at(utf8, text, byte);
        if !is_few(count, least, digits_before) {
            return;
        }
        let goes = match change_behind(changes, byte) {
            Some(change) => is_short_before(utf8, least, text, byte + 1, &change),
            None => true,
        };
        if goes {
            take_place(digits, changes, byte);
        }
    }
}

// Takes away the places that have fewer letters behind them than a minimum.
//
// `text` is the word with what follows it, up to the first byte 0. There is a digit for each byte of the word. The list
// of changes may be shorter: there are no changes behind its end. A place that goes gets the digit 0, and no change.
// The search goes from the end, and the first place that has enough ends it.
#[inline(always)]
pub(crate) fn take_right(
    utf8: bool,
    least: i32,
    word: &[u8],
    text: &[u8],
    digits: &mut [u8],
    changes: &mut [Option<PlacedChange<'_>>],
)
    requires digits { length digits.old ≡ length word.now }
    requires changes { length changes.old ≤ length word.now }
    ensures digits { digits.new
        ≡ digits_but (right_goes utf8 least word.now text.now (placed_all changes.old)) digits.old }
    ensures changes { placed_all changes.new
        ≡ changes_but (right_goes utf8 least word.now text.now (placed_all changes.old)) (placed_all changes.old) }
{
    let digits_behind = digits_at_end(word);
    let mut count: usize = 0;
    let mut end = word.len();
    while end > 1 {
        if !is_few(count, least, digits_behind) {
            return;
        }
        let goes = match change_behind(changes, end - 1) {
            Some(change) => is_short_after(utf8, least, text, end, &change),
            None => true,
        };
        if goes {
            take_place(digits, changes, end - 1);
        }
        end -= 1;
        count += characters_at(utf8, word[end]);
    }
}
