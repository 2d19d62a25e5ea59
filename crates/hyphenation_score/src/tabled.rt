//! The ranks of a word's places by a table of steps, and their values, by the table or the links of the automaton.
//!
//! With a table the pass reads one cell for each byte of the word's frame. The cell leads to a vector: the greatest ranks
//! that the keys which end with the byte give to the 16 last places. The pass keeps the ranks of these places in one
//! register. With each byte it moves them by one place, raises them to those of the vector, and writes them to the list. A
//! rank that is moved out of the register is written for good, since no key that ends later gives one so far back.
//!
//! The ranks of a standard dictionary are its values.

ghost use Rattle.std.specs.Prelude.{◌≡◌, ◌+◌, ◌-◌, ◌<◌, ◌≤◌, ◌^◌, ℕ, max, length, drop, take, slice_index, IfSome, option_copied};
ghost use Rattle.hyphenation_breaks.specs.Ranks.{plain_rank};
ghost use Rattle.hyphenation_trie.specs.Tables.{IsTableOf};
ghost use Rattle.hyphenation_trie.specs.Trie.{entries_of_key, EachBeginsKey};
ghost use Rattle.hyphenation_score.specs.Counting.{CountsBy};
ghost use Rattle.hyphenation_score.specs.Scoring.{ranks, values};

use crate::greatest::raise_all;
use hyphenation_breaks::entry::{Entry, Payload};
use hyphenation_trie::laws::table_begins;
use hyphenation_trie::register::{greater, moved, store};
use hyphenation_trie::table::Table;
use hyphenation_trie::{Automaton, LookUps};
use std::simd::prelude::*;

// Moves the ranks so far by one place, and raises them to those of a vector.
#[inline(always)]
fn raised(last: u8x16, vector: &[u8; 16]) -> u8x16
    requires lanes { length last ≡ 16 }
    requires vector { length vector.now ≡ 16 }
    ensures lanes { length result ≡ 16 }
    ensures each { (lane : ℕ) → lane < 16
        → slice_index result lane ≡ max (slice_index last (lane + 1)) (slice_index vector.now lane) }
{
    greater(moved(last), u8x16::from_array(*vector))
}

/// Finds the ranks of a word's places, in one pass over its frame by a table of the keys.
///
/// The rank of a place is the greatest that its payload gives to the values which bear on the place. The list has 18 bytes more
/// than the word, and the ranks come after its first 16 bytes. The other bytes may hold anything
/// then. One look-up is counted for each byte of the frame, and one report for each occurrence of a key.
#[inline(always)]
pub fn find_ranks<C: Payload>(
    automaton: &Automaton<Entry<C>>,
    table: &Table,
    word: &[u8],
    list: &mut [u8],
    count: &mut LookUps,
)
    requires table { IsTableOf C.rank_of (entries_of_key automaton.now) table.now }
    requires made { count.old.made ≤ 2 ^ 64 }
    requires reported { count.old.reported ≤ 2 ^ 64 }
    requires room { length list.old ≡ length word.now + 18 }
    ensures room { length list.new ≡ length list.old }
    ensures ranks { take (length word.now - 1) (drop 16 list.new) ≡ ranks C.rank_of (entries_of_key automaton.now) word.now }
    ensures made { count.new.made ≡ count.old.made + (length word.now + 2) }
    ensures counts { CountsBy (entries_of_key automaton.now) word.now count.old count.new (Unit {0}) }
{
    table_begins::<C>();
    // The frame has a dot before the word and one after it. At first the 16 last places reach to before the word, so the list
    // has room there.
    let (first, number) = table.step(automaton, 0, b'.', count);
    let mut start = first;
    let mut last = u8x16::from_array(*table.vector(number, count));
    for at in 0..word.len() {
        let (next, number) = table.step(automaton, start, word[at], count);
        last = raised(last, table.vector(number, count));
        store(last, list, at + 1);
        start = next;
    }
    let (_, number) = table.step(automaton, start, b'.', count);
    last = raised(last, table.vector(number, count));
    store(last, list, word.len() + 1);
}

// Finds the values of a word's places, in one pass over its frame by the links of the automaton.
#[inline(always)]
fn find_by_links(
    automaton: &Automaton<Entry<()>>,
    word: &[u8],
    list: &mut [u8],
    count: &mut LookUps,
)
    requires begins { EachBeginsKey automaton.now }
    requires made { count.old.made ≤ 2 ^ 64 }
    requires reported { count.old.reported ≤ 2 ^ 64 }
    requires room { length list.old ≡ length word.now + 18 }
    ensures room { length list.new ≡ length list.old }
    ensures values { take (length word.now - 1) (drop 16 list.new) ≡ values (entries_of_key automaton.now) word.now }
    ensures counts { CountsBy (entries_of_key automaton.now) word.now count.old count.new (Unit {0}) }
{
    let end = 16 + word.len().saturating_sub(1);
    list[16..end].fill(0);
    raise_all(automaton, word, &mut list[16..end], count);
}

/// Puts the values of a word's places into a list, by a table of a standard dictionary's keys if there is one.
///
/// The list has 18 bytes more than the word, and the values come after its first 16 bytes. The other bytes may hold anything
/// then. Each node of the automaton but the root must begin a key. Look-ups and reports are counted.
#[inline(always)]
pub fn put_values(
    automaton: &Automaton<Entry<()>>,
    table: Option<&Table>,
    word: &[u8],
    list: &mut [u8],
    count: &mut LookUps,
)
    requires begins { EachBeginsKey automaton.now }
    requires table { IfSome (option_copied table) (λ t. IsTableOf plain_rank (entries_of_key automaton.now) t) }
    requires made { count.old.made ≤ 2 ^ 64 }
    requires reported { count.old.reported ≤ 2 ^ 64 }
    requires room { length list.old ≡ length word.now + 18 }
    ensures room { length list.new ≡ length list.old }
    ensures values { take (length word.now - 1) (drop 16 list.new) ≡ values (entries_of_key automaton.now) word.now }
    ensures counts { CountsBy (entries_of_key automaton.now) word.now count.old count.new (Unit {0}) }
{
    match table {
        Some(table) => find_ranks(automaton, table, word, list, count),
        None => find_by_links(automaton, word, list, count),
    }
}
