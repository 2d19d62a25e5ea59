//! The entries that win the places of a word, found in one pass over its frame.
//!
//! The pass meets keys by their ends, but of equal values the one whose key starts first must win. If two entries bear on
//! a place, the one with more of its key before the place starts first. The pass meets the shorter of two keys with the
//! same start first.

ghost use Rattle.std.specs.Prelude.{◌≡◌, ◌-◌, ◌<◌, ◌≤◌, ◌^◌, ℕ, None, length, map};
ghost use Rattle.std.specs.Prelude.{option_copied, IfOk, IsOk};
ghost use Rattle.std.specs.List.{slice_index_or};
ghost use Rattle.hyphenation_breaks.specs.Dictionary.{entries_of_keys};
ghost use Rattle.hyphenation_trie.specs.Trie.{entries_of_key, EachBeginsKey};
ghost use Rattle.hyphenation_score.specs.Scoring.{winners};
ghost use Rattle.hyphenation_score.specs.Counting.{CountsBy, CountsOf};
ghost use Rattle.hyphenation_score.specs.Private.Winners.{beats_best};

use crate::pass::{Slot, compete_in_frame};
use hyphenation_breaks::breaks::Break;
use hyphenation_breaks::entry::{Entry, Payload};
use hyphenation_dictionary::dictionary::Dictionary;
use hyphenation_dictionary::search::automaton_of;
use hyphenation_trie::{Automaton, LookUps};
use std::alloc::{AllocError, Global};

// Reports whether an entry beats the best one so far at a place on which both bear. Its value is greater, or equal and
// its key starts first: more of the key comes before the place.
#[inline(always)]
fn beats_best<C>(best: Option<&Entry<C>>, entry: &Entry<C>) -> bool
    ensures { result ≡ beats_best (option_copied best.entry) entry.now }
{
    match best {
        Some(best) => {
            best.value < entry.value || (best.value == entry.value && best.place < entry.place)
        }
        None => 0 < entry.value,
    }
}

impl<'d, C> Slot<'d, C> for Option<&'d Entry<C>> {
    ghost use Rattle.std.specs.Prelude.{Option, option_copied};
    ghost use Rattle.hyphenation_breaks.specs.declared.entry.Entry.{Entry};
    ghost use Rattle.hyphenation_score.specs.Private.Winners.{better};

    ghost State = { Option (Entry C) };

    ghost meaning = { option_copied };

    ghost after = { better };

    #[inline(always)]
    fn compete(&mut self, entry: &'d Entry<C>) {
        if beats_best(*self, entry) {
            *self = Some(entry);
        }
    }
}

/// Fills a list with the entries that win a word's places, in one pass over its frame.
///
/// The list must have one item for each place, from place 1 on, and each must be `None`. Each node of the automaton but
/// the root must begin a key. Look-ups and reports are counted.
#[inline(always)]
pub fn compete_all<'d, C: Drop>(
    automaton: &'d Automaton<Entry<C>>,
    word: &[u8],
    bests: &mut [Option<&'d Entry<C>>],
    count: &mut LookUps,
)
    requires begins { EachBeginsKey automaton.now }
    requires made { count.old.made ≤ 2 ^ 64 }
    requires reported { count.old.reported ≤ 2 ^ 64 }
    requires places { length bests.old ≡ length word.now - 1 }
    requires none { (i : ℕ) → i < length bests.old → slice_index_or bests.old i None ≡ None }
    ensures winners { map option_copied bests.new ≡ winners (entries_of_key automaton.now) word.now }
    ensures counts { CountsBy (entries_of_key automaton.now) word.now count.old count.new (Unit {0}) }
{
    compete_in_frame(automaton, word, bests, count)
}

/// Returns the entries that win the places of a word, from place 1 on, by the automaton of the keys.
///
/// Places count bytes. Each node of the automaton but the root must begin a key. Look-ups and reports are counted. The
/// only error is out of memory; the counts then have what was done before it.
#[inline(always)]
pub fn winners_in<'d, C: Drop>(
    alloc: Global,
    automaton: &'d Automaton<Entry<C>>,
    word: &[u8],
    count: &mut LookUps,
) -> Result<Vec<Option<&'d Entry<C>>>, AllocError>
    requires begins { EachBeginsKey automaton.now }
    requires made { count.old.made ≤ 2 ^ 64 }
    requires reported { count.old.reported ≤ 2 ^ 64 }
    ensures winners { IfOk result (λ v. map option_copied v.items ≡ winners (entries_of_key automaton.now) word.now) }
    ensures counts { CountsBy (entries_of_key automaton.now) word.now count.old count.new (IsOk result) }
{
    let places = word.len().saturating_sub(1);
    let mut bests: Vec<Option<&'d Entry<C>>> = vec![in alloc; None; places]?;
    compete_all(automaton, word, &mut bests, count);
    Ok(bests)
}

/// Returns the entries that win the places of a word, from place 1 on.
///
/// Places count bytes. The item of a place is `None` if no key gives the place a value above 0. Look-ups and reports are
/// counted. The only error is out of memory; the counts then have what was done before it.
#[inline(always)]
pub fn winners<'d, C: Payload, B: Break>(
    alloc: Global,
    dictionary: &'d Dictionary<C, B>,
    word: &str,
    count: &mut LookUps,
) -> Result<Vec<Option<&'d Entry<C>>>, AllocError>
    requires made { count.old.made ≤ 2 ^ 64 }
    requires reported { count.old.reported ≤ 2 ^ 64 }
    ensures places { IfOk result (λ v. length v.items ≡ length word.now - 1) }
    ensures winners { IfOk result (λ v. map option_copied v.items ≡ winners (entries_of_keys dictionary.now) word.now) }
    ensures counts { CountsOf dictionary.now word.now count.old count.new (IsOk result) }
{
    dictionary.invariant();
    winners_in(alloc, automaton_of(dictionary), word.as_bytes(), count)
}
