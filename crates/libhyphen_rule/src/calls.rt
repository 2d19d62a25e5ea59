//! The calls of libhyphen.

ghost use Rattle.std.specs.Prelude.{◌≡◌, ◌*◌, ◌<◌, ◌≤◌, ◌++◌, ◌∷◌, [], IfNone, IfOk, IfSome, IsFalse, IsTrue, None, Some, length};
ghost use Rattle.std.specs.Prelude.{replicate, take, drop, slice_index, true, false, if◌then◌else◌};
ghost use Rattle.std.specs.Option.{option_map};
ghost use Rattle.std.specs.Char.{is_ascii_digit};
ghost use Rattle.std.specs.List.{list_any};
ghost use Rattle.libhyphen_rule.specs.Found.{placed_all, found_of, answer_view};
ghost use Rattle.libhyphen_files.specs.Bytes.{before_nul, continues};
ghost use Rattle.libhyphen_rule.specs.Calls.{answer_of, begins_within, digits_by_no_hyphen, inner_digit, inner_digits, plain_digits};
ghost use Rattle.libhyphen_rule.specs.Calls.{found_by_call, changes_in_characters, no_hyphen_digit, greater, least_of};
ghost use Rattle.libhyphen_rule.specs.Calls.{at_least_two, plain_answer, text_of_call, IsNotSimple, SomeMayCount};
ghost use Rattle.libhyphen_rule.specs.Parts.{without_left, without_right};
ghost use Rattle.libhyphen_rule.specs.Private.Ordinary.{AllAscii, AllOrdinary};
ghost use Rattle.libhyphen_rule.specs.Private.PlainWords.{BeginsNone, HasNoDigits, FindsPlain};
ghost use Rattle.libhyphen_rule.specs.Words.{changes_of_characters, digits_of_characters};

use crate::digits::read_digits;
use crate::found::WordFound;
use crate::minima::{take_left, take_right};
use crate::one_level::PlacedChange;
use crate::parts::{has_change, word_found};
use crate::plain_compounds::{has_digit, read_word};
use crate::words::{
    changes_of_characters, digits_of_characters, is_ascii, keep_last_digits, mark_word,
    take_beside, written_word,
};
use libhyphen_files::LevelDictionary;
use libhyphen_files::bytes::{before_nul, continues};
use libhyphen_files::minima::Minima;
use std::alloc::{AllocError, Global};

/// The least numbers of letters before and after a break that a caller asks for. Those of the dictionary count where
/// they are greater.
#[derive(Debug, Clone, Copy)]
pub struct CallMinima {
    /// Before a break of the word. Below 1 it is 2.
    pub left: i32,
    /// After a break of the word. Below 1 it is 2.
    pub right: i32,
    /// Before a break within a part of a compound, if the part does not begin the word.
    pub compound_left: i32,
    /// After a break within a part of a compound, if the part does not end the word.
    pub compound_right: i32,
}

/// The answer of a call: for each character of the word, the digit and the change of the place behind it. In other
/// charsets than UTF-8 each byte is a character.
#[derive(Debug, Drop)]
pub struct CallAnswer<'d> {
    /// The digits, from `b'0'` to `b'9'`; an odd one allows a break. Beside a text without breaks is a byte 0, where
    /// the caller gave minima.
    pub digits: Vec<u8>,
    /// The changes, with their numbers in characters. The list may be empty if no place has a change.
    pub changes: Vec<Option<PlacedChange<'d>>>,
    /// Whether any change was made, also one that was taken away.
    pub made: bool,
}

// Returns the greater of two minima.
#[tactic(auto, unfolding(crate::specs::Calls::greater))]
#[inline(always)]
fn greater(given: i32, own: i8) -> i32
    ensures { result ≡ greater given own }
{
    let own = i32::from(own);
    if given <= own { own } else { given }
}

// Returns the minima of a dictionary.
#[inline(always)]
fn own_minima(own: &Minima) -> CallMinima
    ensures { result ≡ least_of own.now None }
{
    CallMinima {
        left: i32::from(own.left),
        right: i32::from(own.right),
        compound_left: i32::from(own.compound_left),
        compound_right: i32::from(own.compound_right),
    }
}

// Returns the minima of a dictionary, or of each the greater one of it and of a caller's.
#[inline(always)]
fn least_of(own: &Minima, given: Option<CallMinima>) -> CallMinima
    ensures { result ≡ least_of own.now given }
{
    let mut least = own_minima(own);
    if let Some(given) = given {
        least.left = greater(given.left, own.left);
        least.right = greater(given.right, own.right);
        least.compound_left = greater(given.compound_left, own.compound_left);
        least.compound_right = greater(given.compound_right, own.compound_right);
    }
    least
}

// Returns the minimum of a whole word.
#[tactic(auto, unfolding(crate::specs::Calls::at_least_two))]
#[inline(always)]
fn at_least_two(least: i32) -> i32
    ensures { result ≡ at_least_two least }
{
    if 0 < least { least } else { 2 }
}

// Reports whether a text begins within a character of UTF-8.
#[inline(always)]
fn begins_within(text: &[u8]) -> bool
    ensures { result ≡ continues (slice_index text.now 0) }
{
    match text {
        [] => false,
        [first, ..] => continues(*first),
    }
}

// Returns what is found in a word without the places that have too few letters before them. `text` is the word with
// what follows it, up to the first byte 0.
fn without_left<'d>(utf8: bool, least: i32, text: &[u8], found: WordFound<'d>) -> WordFound<'d>
    requires { length found.changes.items ≡ length found.digits.items }
    ensures found { found_of result ≡ without_left utf8 least text.now (found_of found.entry) }
    ensures digits { length result.digits.items ≡ length found.entry.digits.items }
    ensures changes { length result.changes.items ≡ length found.entry.changes.items }
{
    let WordFound {
        mut digits,
        mut changes,
        made,
        parts,
    } = found;
    take_left(utf8, least, text, &mut digits, &mut changes);
    WordFound {
        digits,
        changes,
        made,
        parts,
    }
}

// Returns what is found in a word without the places that have too few letters behind them. `text` is the word with
// what follows it, up to the first byte 0.
fn without_right<'d>(
    utf8: bool,
    least: i32,
    word: &[u8],
    text: &[u8],
    found: WordFound<'d>,
) -> WordFound<'d>
    requires digits { length found.digits.items ≡ length word.now }
    requires changes { length found.changes.items ≡ length word.now }
    ensures found { found_of result ≡ without_right utf8 least word.now text.now (found_of found.entry) }
    ensures digits { length result.digits.items ≡ length word.now }
    ensures changes { length result.changes.items ≡ length word.now }
{
    let WordFound {
        mut digits,
        mut changes,
        made,
        parts,
    } = found;
    take_right(utf8, least, word, text, &mut digits, &mut changes);
    WordFound {
        digits,
        changes,
        made,
        parts,
    }
}

// Returns what both levels find in the first bytes of a text, a word, without the places that are too near to its
// ends. The only error is out of memory.
#[tactic(auto, unfolding(crate::specs::Calls::found_by_call))]
fn found_by_call<'d>(
    alloc: Global,
    dictionary: &'d LevelDictionary,
    minima: Option<CallMinima>,
    text: &[u8],
    size: usize,
) -> Result<WordFound<'d>, AllocError>
    requires { size ≤ length text.now }
    ensures found { IfOk result (λ found. found_of found
        ≡ found_by_call dictionary.now minima text.now size) }
    ensures digits { IfOk result (λ found. length found.digits.items ≡ size) }
    ensures changes { IfOk result (λ found. length found.changes.items ≡ size) }
{
    let (word, behind) = text.split_at(size);
    let text = before_nul(text);
    let least = least_of(dictionary.first_level().minima(), minima);
    let utf8 = dictionary.is_utf8();
    let found = word_found(
        alloc,
        dictionary,
        least.compound_left,
        least.compound_right,
        word,
        behind,
    )?;
    let found = without_left(utf8, at_least_two(least.left), text, found);
    Ok(without_right(utf8, at_least_two(least.right), word, text, found))
}

// The facts that a look at each byte of a text tells.
#[derive(Clone, Copy)]
struct Looked {
    // Each byte is one of most words.
    ordinary: bool,
    // A pattern of the first level may count.
    counts: bool,
    // Each byte is a character of ASCII.
    ascii: bool,
}

// Looks at each byte of a text once.
#[inline(always)]
fn look_at(dictionary: &LevelDictionary, text: &[u8]) -> Looked
    ensures ordinary { IsTrue result.ordinary → AllOrdinary dictionary.now text.now }
    ensures counts { IsFalse result.counts → BeginsNone dictionary.now.first_level.patterns text.now }
    ensures ascii { IsTrue result.ascii → AllAscii text.now }
{
    let first_level = dictionary.first_level();
    let mut ordinary = true;
    let mut counts = first_level.may_begin(b'.');
    let mut ascii = true;
    for byte in text.iter() {
        ordinary &= dictionary.is_ordinary(*byte);
        counts |= first_level.may_begin(*byte);
        ascii &= *byte < 128;
    }
    Looked {
        ordinary,
        counts,
        ascii,
    }
}

// Finds the digits of both levels in a word without digits, the first bytes of a text, at most 64. Those of places too
// near to its ends are left out. Returns false, with anything in the list, where the word has to be broken in the
// general way; a byte of its frame begins a key then. `seen` is the text up to its first byte 0. `counts` is whether a pattern of the first level may
// count.
#[inline(always)]
fn put_digits_by_call(
    dictionary: &LevelDictionary,
    minima: Option<CallMinima>,
    text: &[u8],
    size: usize,
    seen: &[u8],
    counts: bool,
    digits: &mut [u8],
) -> bool
    requires within { size ≤ length text.now }
    requires word { HasNoDigits (take size text.now) }
    requires none { IsFalse counts → BeginsNone dictionary.now.first_level.patterns (take size text.now) }
    requires seen { seen.now ≡ before_nul text.now }
    requires short { size ≤ 64 }
    requires digits { length digits.old ≡ size }
    ensures found { IsTrue result → FindsPlain (found_by_call dictionary.now minima text.now size) digits.new }
    ensures none { IsFalse result → SomeMayCount dictionary.now (take size text.now) }
    ensures digits { length digits.new ≡ size }
{
    let (word, behind) = text.split_at(size);
    let least = least_of(dictionary.first_level().minima(), minima);
    let utf8 = dictionary.is_utf8();
    let (left, right) = (least.compound_left, least.compound_right);
    if !read_word(dictionary, left, right, word, behind, counts, digits) {
        return false;
    }
    let (left, right) = (at_least_two(least.left), at_least_two(least.right));
    take_left(utf8, left, seen, digits, &mut []);
    take_right(utf8, right, word, seen, digits, &mut []);
    true
}

// Returns a text up to its first byte 0. It is `None` only if the word that it begins has a digit. `ordinary` is whether each byte
// is known to be neither.
#[inline(always)]
fn seen_text(text: &[u8], size: usize, ordinary: bool) -> Option<&[u8]>
    requires within { size ≤ length text.now }
    requires ordinary { IsTrue ordinary → HasNoDigits (take size text.now) × (before_nul text.now ≡ text.now) }
    ensures seen { IfSome result (λ seen. seen.now ≡ before_nul text.now) }
    ensures word { IfSome result (λ _. HasNoDigits (take size text.now)) }
    ensures none { IfNone result (list_any is_ascii_digit (take size text.now) ≡ true) }
{
    if ordinary {
        return Some(text);
    }
    if has_digit(&text[..size]) {
        return None;
    }
    Some(before_nul(text))
}

// The facts known of a word whose digits were found by its bytes.
#[derive(Clone, Copy)]
struct ShortWord {
    // No text without breaks begins or ends at a place.
    apart: bool,
    // Each byte is a character of ASCII.
    ascii: bool,
}

// Finds the digits of both levels in a word of at most 64 bytes, the first bytes of a text. Those of places too near to
// its ends are left out. `None`, with anything in the list, where the word has to be broken in the general way.
#[inline(always)]
fn find_short(
    dictionary: &LevelDictionary,
    minima: Option<CallMinima>,
    text: &[u8],
    size: usize,
    digits: &mut [u8],
) -> Option<ShortWord>
    requires within { size ≤ length text.now }
    requires short { size ≤ 64 }
    requires digits { length digits.old ≡ size }
    ensures whole { IfSome result (λ _. begins_within dictionary.now text.now ≡ false) }
    ensures found { IfSome result (λ _.
        FindsPlain (found_by_call dictionary.now minima text.now size) digits.new) }
    ensures apart { IfSome result (λ word. IsTrue word.apart
        → digits.new ≡ digits_by_no_hyphen dictionary.now minima text.now digits.new) }
    ensures ascii { IfSome result (λ word. IsTrue word.ascii → AllAscii (take size text.now)) }
    ensures none { IfNone result (IsNotSimple dictionary.now text.now size) }
    ensures digits { length digits.new ≡ size }
{
    if dictionary.is_utf8() && begins_within(text) {
        return None;
    }
    let looked = look_at(dictionary, text);
    let seen = seen_text(text, size, looked.ordinary)?;
    if !put_digits_by_call(dictionary, minima, text, size, seen, looked.counts, digits) {
        return None;
    }
    Some(ShortWord {
        apart: looked.ordinary,
        ascii: looked.ascii,
    })
}

// Takes the places away beside which a text without breaks begins or ends, in the first bytes of a text, a word.
fn apply_no_hyphen(
    dictionary: &LevelDictionary,
    minima: Option<CallMinima>,
    text: &[u8],
    digits: &mut [u8],
)
    ensures { digits.new ≡ digits_by_no_hyphen dictionary.now minima text.now digits.old }
{
    let instead = match minima {
        None => b'0',
        Some(_) => 0,
    };
    take_beside(
        dictionary.first_level().no_hyphen(),
        instead,
        before_nul(text),
        digits,
    );
}

// Takes these places away in a word whose digits were found by its bytes.
#[inline(always)]
fn apply_no_hyphen_short(
    dictionary: &LevelDictionary,
    minima: Option<CallMinima>,
    text: &[u8],
    word: ShortWord,
    digits: &mut [u8],
)
    requires { IsTrue word.apart → digits.old ≡ digits_by_no_hyphen dictionary.now minima text.now digits.old }
    ensures { digits.new ≡ digits_by_no_hyphen dictionary.now minima text.now digits.old }
{
    if !word.apart {
        apply_no_hyphen(dictionary, minima, text, digits);
    }
}

// Leaves of the digits of a word's bytes those of its characters, at the front of the list. Returns how many there are.
// `ascii` is whether each byte is known to be one.
#[inline(always)]
fn select_characters(utf8: bool, ascii: bool, word: &[u8], digits: &mut [u8]) -> usize
    requires ascii { IsTrue ascii → AllAscii word.now }
    requires digits { length digits.old ≡ length word.now }
    ensures digits { take result digits.new ≡ (if utf8 then digits_of_characters word.now digits.old else digits.old) }
    ensures count { result ≤ length word.now }
    ensures length { length digits.new ≡ length digits.old }
{
    if utf8 && !ascii {
        keep_last_digits(word, digits)
    } else {
        word.len()
    }
}

/// Writes the digits of a word's characters to the front of a list, and returns how many there are; `None`, with
/// anything in the list, where [`hyphenate`] must be asked. No memory is taken.
///
/// The answer of [`hyphenate`] has these digits then, and no changes. The word has at most 64 bytes, and the list a
/// place for each. The result is `None` if the word has a digit or begins within a character. It may be `None` if a byte
/// of the word, or a dot, begins a key: where a pattern counts that may change letters, or a level has no table of steps.
///
/// ```text
/// let dictionary = load(alloc, b"UTF-8\nr5kin\n")?;
/// short_digits(&dictionary, None, b"firkin", 6, &mut digits)    // Some(6), and the digits are 000500
/// ```
pub fn short_digits(
    dictionary: &LevelDictionary,
    minima: Option<CallMinima>,
    text: &[u8],
    size: usize,
    digits: &mut [u8],
) -> Option<usize>
    requires within { size ≤ length text.now }
    requires short { size ≤ 64 }
    requires digits { length digits.old ≡ size }
    ensures answer { IfSome result
        (λ count. Some (plain_answer (take count digits.new)) ≡ answer_of dictionary.now minima text.now size) }
    ensures count { IfSome result (λ count. count ≤ size) }
    ensures none { IfNone result (IsNotSimple dictionary.now text.now size) }
    ensures digits { length digits.new ≡ size }
{
    let word = find_short(dictionary, minima, text, size, digits)?;
    apply_no_hyphen_short(dictionary, minima, text, word, digits);
    Some(select_characters(dictionary.is_utf8(), word.ascii, &text[..size], digits))
}

// Writes a short word with its breaks to the front of a list, and takes the places away beside texts without breaks: where
// minima are given, the word is written before that. Returns how many bytes are written.
#[inline(always)]
fn mark_short(
    dictionary: &LevelDictionary,
    minima: Option<CallMinima>,
    text: &[u8],
    size: usize,
    word: ShortWord,
    digits: &mut [u8],
    written: &mut [u8],
) -> usize
    requires within { size ≤ length text.now }
    requires found { FindsPlain (found_by_call dictionary.now minima text.now size) digits.old }
    requires apart { IsTrue word.apart → digits.old ≡ digits_by_no_hyphen dictionary.now minima text.now digits.old }
    requires digits { length digits.old ≡ size }
    requires room { 2 * size ≤ length written.old }
    ensures digits { digits.new ≡ digits_by_no_hyphen dictionary.now minima text.now digits.old }
    ensures text { take result written.new ≡ text_of_call dictionary.now minima text.now size }
    ensures count { result ≤ 2 * size }
    ensures length { length written.new ≡ length written.old }
{
    let Some(given) = minima else {
        apply_no_hyphen_short(dictionary, None, text, word, digits);
        return mark_word(&text[..size], digits, written);
    };
    let count = mark_word(&text[..size], digits, written);
    apply_no_hyphen_short(dictionary, Some(given), text, word, digits);
    count
}

/// Writes what [`short_digits`] writes, and to the front of another list the word as [`write_word`] gives it. Returns how
/// many digits and how many bytes these are; `None`, with anything in the lists, where [`hyphenate`] and [`write_word`]
/// must be asked. No memory is taken.
///
/// The word has at most 64 bytes. The first list has a place for each of them, and the second one two or more.
///
/// ```text
/// let dictionary = load(alloc, b"UTF-8\nr5kin\n")?;
/// short_word(&dictionary, None, b"firkin", 6, &mut digits, &mut written)    // Some((6, 7)): 000500 and fir=kin
/// ```
pub fn short_word(
    dictionary: &LevelDictionary,
    minima: Option<CallMinima>,
    text: &[u8],
    size: usize,
    digits: &mut [u8],
    written: &mut [u8],
) -> Option<(usize, usize)>
    requires within { size ≤ length text.now }
    requires short { size ≤ 64 }
    requires digits { length digits.old ≡ size }
    requires room { 2 * size ≤ length written.old }
    ensures answer { IfSome result
        (λ counts. Some (plain_answer (take counts.0 digits.new)) ≡ answer_of dictionary.now minima text.now size) }
    ensures text { IfSome result
        (λ counts. take counts.1 written.new ≡ text_of_call dictionary.now minima text.now size) }
    ensures counts { IfSome result (λ counts. (counts.0 ≤ size) × (counts.1 ≤ 2 * size)) }
    ensures none { IfNone result (IsNotSimple dictionary.now text.now size) }
    ensures digits { length digits.new ≡ size }
    ensures written { length written.new ≡ length written.old }
{
    let word = find_short(dictionary, minima, text, size, digits)?;
    let bytes = mark_short(dictionary, minima, text, size, word, digits, written);
    let count = select_characters(dictionary.is_utf8(), word.ascii, &text[..size], digits);
    Some((count, bytes))
}

// Returns the changes of a word's characters. The word is the first bytes of a text. The only error is out of memory.
fn changes_in_characters<'d>(
    alloc: Global,
    text: &[u8],
    size: usize,
    changes: &[Option<PlacedChange<'d>>],
) -> Result<Vec<Option<PlacedChange<'d>>>, AllocError>
    requires within { size ≤ length text.now }
    requires changes { length changes.now ≡ size }
    ensures { IfOk result (λ v. placed_all v.items
        ≡ changes_of_characters (take size text.now) (text.now ++ 0 ∷ []) (placed_all changes.now)) }
{
    let mut ended = Vec::with_capacity(alloc, text.len().saturating_add(1))?;
    ended.extend_from_slice(text)?;
    ended.push(0)?;
    changes_of_characters(alloc, &text[..size], &ended, changes)
}

// Returns the answer for the characters of a word, the first bytes of a text, by the digits and the changes of its
// bytes. The only error is out of memory.
fn answer_in_characters<'d>(
    alloc: Global,
    text: &[u8],
    size: usize,
    digits: Vec<u8>,
    changes: Vec<Option<PlacedChange<'d>>>,
    made: bool,
) -> Result<CallAnswer<'d>, AllocError>
    requires within { size ≤ length text.now }
    requires digits { length digits.items ≡ size }
    requires changes { length changes.items ≡ size }
    ensures digits { IfOk result
        (λ answer. answer.digits.items ≡ digits_of_characters (take size text.now) digits.items) }
    ensures changes { IfOk result (λ answer. placed_all answer.changes.items
        ≡ changes_in_characters text.now size (placed_all changes.entry.items)) }
    ensures made { IfOk result (λ answer. answer.made ≡ made) }
{
    let word = &text[..size];
    if is_ascii(word) && !has_change(&changes) {
        return Ok(CallAnswer {
            digits,
            changes,
            made,
        });
    }
    Ok(CallAnswer {
        digits: digits_of_characters(alloc, word, &digits)?,
        changes: changes_in_characters(alloc, text, size, &changes)?,
        made,
    })
}

/// Breaks a word: the first bytes of a text. The text behind it counts for minima and texts without breaks, as it
/// does for libhyphen.
///
/// Without minima of the caller those of the dictionary count, as in libhyphen's `hnj_hyphen_hyphenate2`; with them
/// of each the greater one, as in `hnj_hyphen_hyphenate3`. The result is `None` if the word is to be UTF-8 and begins
/// within a character. The only error is out of memory.
///
/// ```text
/// let dictionary = load(alloc, b"UTF-8\nr5kin\n")?;
/// let answer = hyphenate(alloc, &dictionary, None, b"firkin", 6)?;    // digits 000500
/// ```
#[tactic(auto, unfolding(crate::specs::Calls::answer_of, crate::specs::Calls::found_by_call))]
pub fn hyphenate<'d>(
    alloc: Global,
    dictionary: &'d LevelDictionary,
    minima: Option<CallMinima>,
    text: &[u8],
    size: usize,
) -> Result<Option<CallAnswer<'d>>, AllocError>
    requires { size ≤ length text.now }
    ensures { IfOk result (λ answer. option_map answer_view answer
        ≡ answer_of dictionary.now minima text.now size) }
{
    let utf8 = dictionary.is_utf8();
    if utf8 && begins_within(text) {
        return Ok(None);
    }
    let WordFound {
        mut digits,
        changes,
        made,
        parts: _,
    } = found_by_call(alloc, dictionary, minima, text, size)?;
    apply_no_hyphen(dictionary, minima, text, &mut digits);
    if !utf8 {
        return Ok(Some(CallAnswer {
            digits,
            changes,
            made,
        }));
    }
    let answer = answer_in_characters(alloc, text, size, digits, changes, made)?;
    Ok(Some(answer))
}

/// Writes a word, the first bytes of a text, with an equals sign at each break. Texts of changes are in the places of
/// the bytes that they change. Minima are as for [`hyphenate`]. The only error is out of memory.
///
/// ```text
/// let dictionary = load(alloc, b"UTF-8\nr5kin\n")?;
/// write_word(alloc, &dictionary, None, b"firkin", 6)?    // fir=kin
/// ```
#[tactic(auto, unfolding(crate::specs::Calls::text_of_call, crate::specs::Calls::found_by_call))]
pub fn write_word(
    alloc: Global,
    dictionary: &LevelDictionary,
    minima: Option<CallMinima>,
    text: &[u8],
    size: usize,
) -> Result<Vec<u8>, AllocError>
    requires { size ≤ length text.now }
    ensures { IfOk result (λ written. written.items
        ≡ text_of_call dictionary.now minima text.now size) }
{
    let WordFound {
        mut digits,
        changes,
        made: _,
        parts: _,
    } = found_by_call(alloc, dictionary, minima, text, size)?;
    if minima.is_none() {
        apply_no_hyphen(dictionary, minima, text, &mut digits);
    }
    written_word(alloc, &text[..size], &digits, &changes)
}

// Returns the digit behind a byte, but 0 if the byte is the first, the last or the last but one.
fn inner_digit(digits: &[u8], byte: usize) -> u8
    requires { byte < length digits.now }
    ensures { result ≡ inner_digit digits.now byte }
{
    if 0 < byte && digits.len() - byte > 2 {
        digits[byte]
    } else {
        b'0'
    }
}

// Returns digits without those of the places behind the first byte, behind the last but one, and behind the last. The
// only error is out of memory.
fn inner_digits(alloc: Global, digits: &[u8]) -> Result<Vec<u8>, AllocError>
    ensures { IfOk result (λ inner. inner.items ≡ inner_digits digits.now) }
{
    let mut inner = Vec::with_capacity(alloc, digits.len())?;
    for byte in 0..digits.len() {
        inner.push(inner_digit(digits, byte))?;
    }
    Ok(inner)
}

/// Returns the digits of the oldest call, `hnj_hyphen_hyphenate`: for each byte of a word that of the place behind it.
/// They are those of the patterns of the first level that change nothing. The only error is out of memory.
#[tactic(auto, unfolding(crate::specs::Calls::plain_digits))]
pub fn plain_digits(
    alloc: Global,
    dictionary: &LevelDictionary,
    word: &[u8],
) -> Result<Vec<u8>, AllocError>
    ensures { IfOk result (λ digits. digits.items ≡ plain_digits dictionary.now.first_level word.now) }
{
    let mut digits = vec![in alloc; b'0'; word.len()]?;
    read_digits(dictionary.first_level().patterns(), word, true, &mut digits);
    inner_digits(alloc, &digits)
}
