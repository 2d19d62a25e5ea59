//! Compounds of at most 64 bytes in which no pattern counts that changes letters. A part is then some bytes of the word,
//! so nothing is copied.

ghost use Rattle.std.specs.Prelude.{◌≡◌, ◌⊎◌, ◌≤◌, [], IfNone, IfSome, IsFalse, IsTrue, length};
ghost use Rattle.std.specs.Char.{is_ascii_digit};
ghost use Rattle.std.specs.List.{list_any};
ghost use Rattle.libhyphen_rule.specs.Calls.{MayCount, SomeMayCount};
ghost use Rattle.libhyphen_rule.specs.Found.{asked_in, minima_of};
ghost use Rattle.libhyphen_rule.specs.Parts.{found_in};
ghost use Rattle.libhyphen_rule.specs.Private.PlainWords.{BeginsNone, HasNoDigits, FindsPlain};
ghost use Rattle.libhyphen_rule.specs.Private.PlainCompounds.{FindsByNextLevel, IsPlainWord, LeavesLeft, LeavesRight, plain_part_of};

use crate::minima::{take_left, take_right};
use crate::parts::{AskedText, BothLevels, MOST_DEPTH, ends_part};
use crate::plain_words::read_plain_word;
use libhyphen_files::LevelDictionary;
use libhyphen_files::bytes::before_nul;

// Reports whether a word has a digit.
pub(crate) fn has_digit(word: &[u8]) -> bool
    ensures { result ≡ list_any is_ascii_digit word.now }
{
    word.iter().any(|byte| byte.is_ascii_digit())
}

// Takes away the places that are too near to the begin of a part, if it does not begin the word. Nothing is behind it
// then.
#[inline(always)]
fn take_left_end(levels: BothLevels<'_>, asked: AskedText<'_>, digits: &mut [u8])
    requires behind { IsFalse asked.at_left → asked.behind.now ≡ [] }
    ensures digits { LeavesLeft levels.entry asked.entry digits.old digits.new }
    ensures length { length digits.new ≡ length digits.old }
{
    if !asked.at_left {
        take_left(
            levels.dictionary.is_utf8(),
            levels.left,
            before_nul(asked.text),
            digits,
            &mut [],
        );
    }
}

// Takes away the places that are too near to the end of a part, if it does not end the word. Nothing is behind it then.
#[inline(always)]
fn take_right_end(levels: BothLevels<'_>, asked: AskedText<'_>, digits: &mut [u8])
    requires behind { IsFalse asked.at_right → asked.behind.now ≡ [] }
    requires length { length digits.old ≡ length asked.text.now }
    ensures digits { LeavesRight levels.entry asked.entry digits.old digits.new }
    ensures length { length digits.new ≡ length digits.old }
{
    if !asked.at_right {
        take_right(
            levels.dictionary.is_utf8(),
            levels.right,
            asked.text,
            before_nul(asked.text),
            digits,
            &mut [],
        );
    }
}

// Finds the digits of a text in which the first level finds no break and no change. Returns false, with anything
// in the list, where the next level has to be asked in the general way; a byte of the text's frame begins a key of it
// then. The text has no digits, and at most 64 bytes.
#[inline(always)]
fn plain_by_next_level(levels: BothLevels<'_>, asked: AskedText<'_>, digits: &mut [u8]) -> bool
    requires text { HasNoDigits asked.text.now }
    requires short { length asked.text.now ≤ 64 }
    requires behind { IsFalse asked.at_left ⊎ IsFalse asked.at_right → asked.behind.now ≡ [] }
    requires digits { length digits.old ≡ length asked.text.now }
    ensures found { IsTrue result → FindsByNextLevel levels.entry asked.entry digits.new }
    ensures none { IsFalse result → MayCount levels.entry.dictionary.now.next_level asked.entry.text.now }
    ensures digits_length { length digits.new ≡ length digits.old }
{
    let Some(_) = read_plain_word(levels.dictionary.next_level(), asked.text, digits) else {
        return false;
    };
    take_left_end(levels, asked, digits);
    take_right_end(levels, asked, digits);
    true
}

// Returns a part as it is asked.
fn part_of(whole: AskedText<'_>, begin: usize, end: usize) -> AskedText<'_>
    requires begin { begin ≤ end }
    requires end { end ≤ length whole.text.now }
    ensures { asked_in result ≡ plain_part_of (asked_in whole.entry) begin end }
{
    AskedText {
        text: &whole.text[begin..end],
        behind: &[],
        at_left: whole.at_left && begin == 0,
        at_right: whole.at_right && end == whole.text.len(),
    }
}

// Finds the digits of a text by both levels. Its parts are parted again, up to a depth, and while more parts may be
// asked. Returns how many more may be asked then; `None`, with anything in the list, where a level has to be asked in
// the general way. A byte of the text's frame begins a key then. The text has no digits, and at most 64 bytes.
fn plain_in(
    levels: BothLevels<'_>,
    depth: usize,
    parts: usize,
    asked: AskedText<'_>,
    digits: &mut [u8],
) -> Option<usize>
    requires text { HasNoDigits asked.text.now }
    requires short { length asked.text.now ≤ 64 }
    requires behind { IsFalse asked.at_left ⊎ IsFalse asked.at_right → asked.behind.now ≡ [] }
    requires digits { length digits.old ≡ length asked.text.now }
    ensures found { IfSome result (λ _.
        FindsPlain (found_in levels.entry.dictionary.now (minima_of levels.entry) depth parts (asked_in asked.entry))
        digits.new) }
    ensures parts { IfSome result (λ left.
        (found_in levels.entry.dictionary.now (minima_of levels.entry) depth parts (asked_in asked.entry)).parts
        ≡ left) }
    ensures none { IfNone result (SomeMayCount levels.entry.dictionary.now asked.entry.text.now) }
    ensures digits_length { length digits.new ≡ length digits.old }
{
    let parted = read_plain_word(levels.dictionary.first_level(), asked.text, digits)?;
    if !parted {
        if !plain_by_next_level(levels, asked, digits) {
            return None;
        }
        return Some(parts);
    }
    let mut left = parts;
    let mut begin = 0;
    for byte in 0..asked.text.len() {
        if !ends_part(digits, byte) {
            continue;
        }
        if byte > begin + 1 && depth > 0 && left > 0 {
            let part = part_of(asked, begin, byte + 1);
            // The part's last two places stay those of the whole.
            let before = digits[byte - 1];
            let last = digits[byte];
            left = plain_in(
                levels,
                depth - 1,
                left - 1,
                part,
                &mut digits[begin..byte + 1],
            )?;
            digits[byte - 1] = before;
            digits[byte] = last;
        }
        begin = byte + 1;
    }
    Some(left)
}

// Finds the digits of a word by both levels, before the minima of the whole word. Returns false, with anything in the
// list, where a level has to be asked in the general way. A byte of the word's frame begins a key then.
//
// The word has at most 64 bytes, and no digits. `behind` is what follows it; `left` and `right` are the least numbers
// of letters in its parts. `counts` is whether a pattern of the first level may count.
#[inline(always)]
pub(crate) fn read_word(
    dictionary: &LevelDictionary,
    left: i32,
    right: i32,
    word: &[u8],
    behind: &[u8],
    counts: bool,
    digits: &mut [u8],
) -> bool
    requires word { HasNoDigits word.now }
    requires none { IsFalse counts → BeginsNone dictionary.now.first_level.patterns word.now }
    requires short { length word.now ≤ 64 }
    requires digits { length digits.old ≡ length word.now }
    ensures found { IsTrue result → IsPlainWord dictionary.now left right word.now behind.now digits.new }
    ensures none { IsFalse result → SomeMayCount dictionary.now word.now }
    ensures digits { length digits.new ≡ length digits.old }
{
    let levels = BothLevels {
        dictionary,
        left,
        right,
    };
    let asked = AskedText {
        text: word,
        behind,
        at_left: true,
        at_right: true,
    };
    if !counts {
        return plain_by_next_level(levels, asked, digits);
    }
    plain_in(levels, MOST_DEPTH, word.len(), asked, digits).is_some()
}
