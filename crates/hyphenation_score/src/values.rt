//! The values of the places of a word, in a list of their own.

ghost use Rattle.std.specs.Prelude.{◌≡◌, ◌+◌, ◌-◌, ◌≤◌, ◌^◌, length, drop, take, option_copied, IfOk, IfSome, IsOk};
ghost use Rattle.hyphenation_breaks.specs.Dictionary.{entries_of_keys};
ghost use Rattle.hyphenation_breaks.specs.Ranks.{plain_rank};
ghost use Rattle.hyphenation_trie.specs.Tables.{IsTableOf};
ghost use Rattle.hyphenation_trie.specs.Trie.{entries_of_key, EachBeginsKey};
ghost use Rattle.hyphenation_score.specs.Counting.{CountsBy, CountsOf};
ghost use Rattle.hyphenation_score.specs.Scoring.{values};

use crate::tabled::put_values;
use hyphenation_breaks::entry::Entry;
use hyphenation_dictionary::dictionary::Standard;
use hyphenation_dictionary::search::patterns_of;
use hyphenation_trie::table::Table;
use hyphenation_trie::{Automaton, LookUps};
use std::alloc::{AllocError, Global};

// Copies that many values after the first 16 bytes of a buffer into a list. The only error is out of memory.
#[inline(always)]
fn copied_values(alloc: Global, buffer: &[u8; 80], count: usize) -> Result<Vec<u8>, AllocError>
    requires { count ≤ 64 }
    ensures { IfOk result (λ v. v.items ≡ take count (drop 16 buffer.now)) }
{
    if count <= 16 {
        // Sixteen bytes are copied without a call, and so few take no more memory than one.
        let mut values = Vec::from_slice(alloc, &buffer[16..32])?;
        values.truncate(count);
        return Ok(values);
    }
    Vec::from_slice(alloc, &buffer[16..16 + count])
}

// Returns that many values after the first 16 bytes of a list.
fn without_front(mut list: Vec<u8>, count: usize) -> Vec<u8>
    requires { 16 + count ≤ length list.items }
    ensures { result.items ≡ take count (drop 16 list.items) }
{
    list.copy_within(16..16 + count, 0);
    list.truncate(count);
    list
}

/// Returns the values of a word's places, from place 1 on, by a table of a standard dictionary's keys if there is one.
///
/// Each node of the automaton but the root must begin a key. Look-ups and reports are counted. The only error is out of
/// memory.
#[inline(always)]
pub fn values_of(
    alloc: Global,
    automaton: &Automaton<Entry<()>>,
    table: Option<&Table>,
    word: &[u8],
    count: &mut LookUps,
) -> Result<Vec<u8>, AllocError>
    requires begins { EachBeginsKey automaton.now }
    requires table { IfSome (option_copied table) (λ t. IsTableOf plain_rank (entries_of_key automaton.now) t) }
    requires made { count.old.made ≤ 2 ^ 64 }
    requires reported { count.old.reported ≤ 2 ^ 64 }
    ensures values { IfOk result (λ v. v.items ≡ values (entries_of_key automaton.now) word.now) }
    ensures counts { CountsBy (entries_of_key automaton.now) word.now count.old count.new (IsOk result) }
{
    let places = word.len().saturating_sub(1);
    if word.len() <= 62 {
        // The values of most words are found on the stack and copied, since that is faster than to fill a list with 0.
        let mut buffer = [0u8; 80];
        put_values(
            automaton,
            table,
            word,
            &mut buffer[..word.len() + 18],
            count,
        );
        return copied_values(alloc, &buffer, places);
    }
    let mut list = vec![in alloc; 0u8; word.len() + 18]?;
    put_values(automaton, table, word, &mut list, count);
    Ok(without_front(list, places))
}

// Returns the values of a word's places, from place 1 on. The only error is out of memory.
#[inline(always)]
pub(super) fn values(
    alloc: Global,
    dictionary: &Standard,
    word: &str,
    count: &mut LookUps,
) -> Result<Vec<u8>, AllocError>
    requires made { count.old.made ≤ 2 ^ 64 }
    requires reported { count.old.reported ≤ 2 ^ 64 }
    ensures places { IfOk result (λ v. length v.items ≡ length word.now - 1) }
    ensures values { IfOk result (λ v. v.items ≡ values (entries_of_keys dictionary.now) word.now) }
    ensures counts { CountsOf dictionary.now word.now count.old count.new (IsOk result) }
{
    dictionary.invariant();
    let (patterns, table) = patterns_of(dictionary);
    values_of(alloc, patterns, table, word.as_bytes(), count)
}
