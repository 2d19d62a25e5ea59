//! The digits of a word's places, found without memory.

ghost use Rattle.std.specs.Prelude.{◌≡◌, ℕ, ◌+◌, ◌<◌, ◌≤◌, ◌&&◌, if◌then◌else◌, [], is_some, length, slice_index, take};
ghost use Rattle.hyphenation_trie.specs.Trie.{EachBeginsKey};
ghost use Rattle.hyphenation_breaks.specs.Ascii.{digit_zero};
ghost use Rattle.hyphenation_dictionary.specs.Parts.{patterns_of};
ghost use Rattle.libhyphen_rule.specs.OneLevel.{digits_given_by};
ghost use Rattle.libhyphen_rule.specs.Private.Digits.{TakesOffer, TakesPattern};

use crate::counting::{first_digits, framed_byte};
use hyphenation_dictionary::laws::keys_are_looked_up;
use hyphenation_trie::laws::{keys_have_nodes, longest_goes_on};
use hyphenation_trie::{Automaton, LookUps};
use libhyphen_files::pattern::StoredPattern;
use libhyphen_files::vectors::pattern_of_node;

// Sets all digits to 0.
#[inline(always)]
pub(crate) fn clear(digits: &mut [u8])
    ensures { (byte : ℕ) → byte < length digits.new → slice_index digits.new byte ≡ digit_zero }
{
    for digit in digits.iter_mut() {
        *digit = b'0';
    }
}

// Raises the digit of a place of the frame, if the place is behind a byte of the word that is not the last one.
#[inline(always)]
fn raise(digits: &mut [u8], place: usize, digit: u8)
    ensures { TakesOffer place digit digits.old digits.new }
{
    if place >= 2 && place - 1 < digits.len() && digits[place - 2] < digit {
        digits[place - 2] = digit;
    }
}

// Raises the digits of the places from a place of the frame on.
#[inline(always)]
fn raise_all(digits: &mut [u8], start: usize, given: &[u8])
    requires { start ≤ length digits.old + 2 }
    ensures { TakesPattern start given.now digits.old digits.new }
{
    for (number, digit) in given.iter().enumerate() {
        raise(digits, start + number, *digit);
    }
}

// Returns the digits that a pattern gives, at most that many; none if it changes letters and these patterns are asked
// for none.
#[inline(always)]
fn digits_given(pattern: &StoredPattern, most: usize, plain: bool) -> &[u8]
    ensures { result.now ≡ (if plain && is_some pattern.now.change then [] else take most pattern.now.digits) }
{
    if plain && pattern.change.is_some() {
        return &[];
    }
    first_digits(pattern, most)
}

// Finds the digits of a word's places: for each byte of the word that of the place behind it. If `plain` is set,
// patterns that change letters give no digits.
#[inline(always)]
pub(crate) fn read_digits(
    patterns: &Automaton<StoredPattern>,
    word: &[u8],
    plain: bool,
    digits: &mut [u8],
)
    requires begins { EachBeginsKey patterns.now }
    requires digits { length digits.old ≡ length word.now }
    ensures { digits.new ≡ digits_given_by plain (patterns_of patterns.now) word.now }
{
    patterns.invariant();
    keys_have_nodes::<StoredPattern>();
    longest_goes_on::<StoredPattern>();
    keys_are_looked_up::<StoredPattern>();
    clear(digits);
    let mut node = patterns.root();
    for at in 0..word.len() + 2 {
        node = patterns.step(node, framed_byte(word, at), &mut LookUps::new());
        if let Some(pattern) = pattern_of_node(patterns, node) {
            let depth = patterns.depth(node);
            raise_all(
                digits,
                at + 1 - depth,
                digits_given(pattern, depth + 1, plain),
            );
        }
    }
}
