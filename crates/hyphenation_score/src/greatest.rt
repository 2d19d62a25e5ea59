//! The values of the places of a word, found in one pass over its frame.
//!
//! Each place keeps the greatest value that a key has given it so far, so the order of the keys makes no difference.

ghost use Rattle.std.specs.Prelude.{◌≡◌, ◌-◌, ◌<◌, ◌≤◌, ◌^◌, ℕ, length, slice_index};
ghost use Rattle.hyphenation_trie.specs.Trie.{entries_of_key, EachBeginsKey};
ghost use Rattle.hyphenation_score.specs.Counting.{CountsBy};
ghost use Rattle.hyphenation_score.specs.Scoring.{values};

use crate::pass::{Slot, compete_in_frame};
use hyphenation_breaks::entry::Entry;
use hyphenation_trie::{Automaton, LookUps};

impl<'d, C> Slot<'d, C> for u8 {
    ghost use Rattle.std.specs.Prelude.{ℕ, max};

    ghost State = { ℕ };

    ghost meaning = { λ value. value };

    ghost after = { λ value entry. max value entry.value };

    #[inline(always)]
    fn compete(&mut self, entry: &'d Entry<C>) {
        if *self < entry.value {
            *self = entry.value;
        }
    }
}

/// Raises values from 0 to those of a word's places, in one pass over its frame.
///
/// The list must have one value for each place, from place 1 on, and each must be 0. Each node of the automaton but the
/// root must begin a key. Look-ups and reports are counted.
#[inline(always)]
pub fn raise_all<C: Drop>(
    automaton: &Automaton<Entry<C>>,
    word: &[u8],
    scores: &mut [u8],
    count: &mut LookUps,
)
    requires begins { EachBeginsKey automaton.now }
    requires made { count.old.made ≤ 2 ^ 64 }
    requires reported { count.old.reported ≤ 2 ^ 64 }
    requires places { length scores.old ≡ length word.now - 1 }
    requires zeros { (i : ℕ) → i < length scores.old → slice_index scores.old i ≡ 0 }
    ensures values { scores.new ≡ values (entries_of_key automaton.now) word.now }
    ensures counts { CountsBy (entries_of_key automaton.now) word.now count.old count.new (Unit {0}) }
{
    compete_in_frame(automaton, word, scores, count)
}
