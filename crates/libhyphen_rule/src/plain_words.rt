//! Words in which no pattern counts that changes letters: their digits, found in one pass without a look at changes.
//!
//! The pass reads one cell of a table of steps for each byte of the word's frame. The cell has the number of a vector:
//! the digits that one node's own pattern gives to the 16 last places, counted from 0. The pass keeps the digits of
//! these places in one register. With each byte it moves them by one place, raises them to those of the vector, and
//! writes them to a list. A digit that is moved out of the register is written for good, since no pattern that ends
//! later gives one so far back.
//!
//! A vector with a lane above 9 does not tell the node's pattern. The pass goes on then, and its digits are not used.
//! Such a word, a longer one than 64 bytes, and one of a level without a table are left to the general way.

ghost use Rattle.std.specs.Prelude.{◌≡◌, ℕ, List, ◌+◌, ◌%◌, ◌<◌, ◌≤◌, None, IfNone, IfSome, IsTrue, IsFalse, false, true};
ghost use Rattle.std.specs.Prelude.{drop, length, replicate, slice_index, take};
ghost use Rattle.std.specs.List.{list_any};
ghost use Rattle.hyphenation_breaks.specs.Ascii.{digit_zero};
ghost use Rattle.hyphenation_dictionary.specs.Parts.{patterns_of};
ghost use Rattle.hyphenation_trie.specs.Trie.{EachBeginsKey};
ghost use Rattle.libhyphen_files.specs.Vectors.{AreVectors};
ghost use Rattle.libhyphen_rule.specs.Calls.{MayCount};
ghost use Rattle.libhyphen_rule.specs.OneLevel.{changes_by, digits_by, is_odd, level_changes, level_digits};
ghost use Rattle.libhyphen_rule.specs.Private.Lanes.{AllKnown, AtRow, IsReadWhole, PassesByte, TakesVector};
ghost use Rattle.libhyphen_rule.specs.Private.PlainWords.{BeginsNone, HasNoDigits};

use crate::digits::clear;
use hyphenation_dictionary::laws::keys_are_looked_up;
use hyphenation_trie::Automaton;
use hyphenation_trie::laws::keys_have_nodes;
use hyphenation_trie::register::{greater, moved, store};
use libhyphen_files::level::FrozenLevel;
use libhyphen_files::pattern::StoredPattern;
use libhyphen_files::vectors::NodeVectors;
use std::simd::prelude::*;

// Reports whether all lanes are digits.
#[inline(always)]
fn all_known(seen: u8x16) -> bool
    requires { length seen ≡ 16 }
    ensures { IsTrue result → AllKnown seen }
{
    seen.simd_gt(u8x16::splat(9)).to_bitmask() == 0
}

// A frame of which some bytes are read. It has the row for their text, and the digits of the 16 last places. For each
// lane it has the greatest number of all vectors that were met.
#[derive(Clone, Copy, Drop)]
struct FramePass {
    row: usize,
    last: u8x16,
    seen: u8x16,
}

// Takes the vector of one byte more of a frame.
#[inline(always)]
fn passed_vector(
    pass: FramePass,
    row: usize,
    vector: &[u8; 16],
    list: &mut [u8],
    at: usize,
) -> FramePass
    requires lanes { (length pass.last ≡ 16) × (length pass.seen ≡ 16) × (length vector.now ≡ 16) }
    requires room { at + 16 ≤ length list.old }
    ensures takes { TakesVector vector.now at pass list.old result list.new }
    ensures row { result.row ≡ row }
    ensures room { length list.new ≡ length list.old }
{
    let vector = u8x16::from_array(*vector);
    let last = greater(moved(pass.last), vector);
    store(last, list, at);
    FramePass {
        row,
        last,
        seen: greater(pass.seen, vector),
    }
}

// Reads one byte more of a frame.
#[inline(always)]
fn passed_byte(
    patterns: &Automaton<StoredPattern>,
    vectors: &NodeVectors,
    pass: FramePass,
    byte: u8,
    list: &mut [u8],
    at: usize,
) -> FramePass
    requires begins { EachBeginsKey patterns.now }
    requires row { (text : List ℕ) × AtRow patterns.now vectors.now text pass.row }
    requires lanes { (length pass.last ≡ 16) × (length pass.seen ≡ 16) }
    requires room { at + 16 ≤ length list.old }
    ensures passed { PassesByte patterns.now vectors.now at byte pass list.old result list.new }
    ensures room { length list.new ≡ length list.old }
{
    patterns.invariant();
    keys_have_nodes::<StoredPattern>();
    keys_are_looked_up::<StoredPattern>();
    let (row, number) = vectors.steps.step(patterns, pass.row, byte);
    passed_vector(pass, row, &vectors.vectors[number], list, at)
}

// Returns the row of a text, in a table of steps.
#[inline(always)]
fn row_of(patterns: &Automaton<StoredPattern>, vectors: &NodeVectors, text: &[u8]) -> usize
    requires vectors { AreVectors patterns.now vectors.now }
    ensures { AtRow patterns.now vectors.now text.now result }
{
    let mut row = vectors.steps.first_row(patterns);
    for byte in text.iter() {
        row = vectors.steps.step(patterns, row, *byte).0;
    }
    row
}

// Reads the frame of a word without digits.
//
// Before that it looks for the row of the word's end, and puts a byte of its number where nothing reads it. Each row is
// known when the one before it is read, and a large table is in no near cache. So the two ways wait for memory at once,
// and the rows of the second one are mostly those that the end of the first one needs.
#[inline(always)]
fn read_whole(
    patterns: &Automaton<StoredPattern>,
    vectors: &NodeVectors,
    word: &[u8],
    list: &mut [u8],
) -> FramePass
    requires begins { EachBeginsKey patterns.now }
    requires vectors { AreVectors patterns.now vectors.now }
    requires word { HasNoDigits word.now }
    requires list { length word.now + 18 ≤ length list.old }
    ensures read { IsReadWhole patterns.now word.now result list.new }
    ensures room { length list.new ≡ length list.old }
{
    let ahead = row_of(patterns, vectors, &word[word.len() / 3..]);
    list[word.len() + 17] = (ahead % 256) as u8;
    let none = u8x16::splat(0);
    let start = FramePass {
        row: vectors.steps.first_row(patterns),
        last: none,
        seen: none,
    };
    let mut pass = passed_byte(patterns, vectors, start, b'.', list, 0);
    for at in 0..word.len() {
        pass = passed_byte(patterns, vectors, pass, word[at], list, at + 1);
    }
    passed_byte(patterns, vectors, pass, b'.', list, word.len() + 1)
}

// Makes numbers the digits that write them, each modulo 256.
#[inline(always)]
fn write_all(list: &mut [u8; 96])
    ensures { (i : ℕ) → i < 96 → slice_index list.new i ≡ (slice_index list.old i + digit_zero) % 256 }
{
    for i in 0..96 {
        list[i] = list[i].wrapping_add(b'0');
    }
}

// Returns how many digits from a place of a list on are even before the first odd one; 16 if all of 16 are even.
#[inline(always)]
fn even_before(list: &[u8], at: usize) -> usize
    requires { at + 16 ≤ length list.now }
    ensures before { (i : ℕ) → at ≤ i → i < at + result → is_odd (slice_index list.now i) ≡ false }
    ensures there { result < 16 → is_odd (slice_index list.now (at + result)) ≡ true }
{
    let digits = u8x16::from_slice(&list[at..]);
    let odd = (digits & u8x16::splat(1))
        .simd_gt(u8x16::splat(0))
        .to_bitmask();
    if odd == 0 {
        return 16;
    }
    odd.trailing_zeros() as usize
}

// Reports whether some of the first digits from place 16 of a list on is odd. There are at most 64 of them.
#[inline(always)]
fn has_odd(list: &[u8; 96], count: usize) -> bool
    requires { count ≤ 64 }
    ensures { result ≡ list_any is_odd (take count (drop 16 list.now)) }
{
    let mut at = 0;
    while at < count {
        let even = even_before(list, at + 16);
        if even < 16 {
            return at + even < count;
        }
        at += 16;
    }
    false
}

// Puts the digits of a short word's places, by the list in which they are counted from 0. The place behind the last
// byte has none. Returns whether some digit is odd, with anything in the list.
#[inline(always)]
fn put_short(list: &mut [u8; 96], digits: &mut [u8]) -> bool
    requires short { length digits.old ≤ 64 }
    requires known { (byte : ℕ) → byte + 1 < length digits.old → slice_index list.old (byte + 16) < 10 }
    ensures inner { (byte : ℕ) → byte + 1 < length digits.old
        → slice_index digits.new byte ≡ digit_zero + slice_index list.old (byte + 16) }
    ensures last { (byte : ℕ) → byte + 1 ≡ length digits.old → slice_index digits.new byte ≡ digit_zero }
    ensures length { length digits.new ≡ length digits.old }
    ensures odd { result ≡ list_any is_odd digits.new }
{
    if digits.is_empty() {
        return false;
    }
    let inner = digits.len() - 1;
    write_all(list);
    digits.copy_from_slice(&list[16..inner + 17]);
    digits[inner] = b'0';
    has_odd(list, inner)
}

// Finds the digits of a word's places by some patterns, in one pass over the word's frame. Returns whether some digit
// is odd; `None` where a pattern counts that may change letters. The word has no digits, and at most 64 bytes.
//
// Nothing else leads to the list, so the compiler keeps in registers where the tables are.
#[inline(always)]
fn read_frame(
    patterns: &Automaton<StoredPattern>,
    vectors: &NodeVectors,
    word: &[u8],
    digits: &mut [u8],
) -> Option<bool>
    requires begins { EachBeginsKey patterns.now }
    requires vectors { AreVectors patterns.now vectors.now }
    requires word { HasNoDigits word.now }
    requires short { length word.now ≤ 64 }
    requires digits { length digits.old ≡ length word.now }
    ensures digits { IfSome result (λ _. digits.new ≡ digits_by (patterns_of patterns.now) word.now) }
    ensures changes { IfSome result (λ _.
        changes_by (patterns_of patterns.now) word.now ≡ replicate (length word.now) None) }
    ensures odd { IfSome result (λ odd. odd ≡ list_any is_odd digits.new) }
    ensures digits_length { length digits.new ≡ length digits.old }
{
    let mut list = [0u8; 96];
    let pass = read_whole(patterns, vectors, word, &mut list);
    if !all_known(pass.seen) {
        return None;
    }
    Some(put_short(&mut list, digits))
}

// Reports whether some byte of a word's frame begins a key. The word has no digits.
#[inline(always)]
pub(crate) fn may_count(level: &FrozenLevel, word: &[u8]) -> bool
    ensures none { IsFalse result → BeginsNone level.now.patterns word.now }
    ensures some { IsTrue result → MayCount level.now word.now }
{
    if level.may_begin(b'.') {
        return true;
    }
    for byte in word.iter() {
        if level.may_begin(*byte) {
            return true;
        }
    }
    false
}

// Finds the digits of a word's places by one level: for each byte of the word that of the place behind it. Returns
// whether some digit is odd; `None`, with anything in the list, where a pattern counts that may change letters, or the
// level has no table of steps. Where no byte of the word's frame begins a key, it is not `None`. The word has no digits,
// and at most 64 bytes.
#[inline(always)]
pub(crate) fn read_plain_word(level: &FrozenLevel, word: &[u8], digits: &mut [u8]) -> Option<bool>
    requires word { HasNoDigits word.now }
    requires short { length word.now ≤ 64 }
    requires digits { length digits.old ≡ length word.now }
    ensures digits { IfSome result (λ _. digits.new ≡ level_digits level.now word.now) }
    ensures changes { IfSome result (λ _. level_changes level.now word.now ≡ replicate (length word.now) None) }
    ensures odd { IfSome result (λ odd. odd ≡ list_any is_odd digits.new) }
    ensures none { IfNone result (MayCount level.now word.now) }
    ensures digits_length { length digits.new ≡ length digits.old }
{
    if !may_count(level, word) {
        clear(digits);
        return Some(false);
    }
    let (patterns, vectors) = level.patterns_with_vectors();
    let Some(vectors) = vectors else {
        return None;
    };
    read_frame(patterns, vectors, word, digits)
}
