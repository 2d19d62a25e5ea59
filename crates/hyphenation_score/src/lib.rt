//! The values of a word's places, and the entries that give them.
//!
//! The keys of a dictionary that occur in a word compete at its places. Here is the word `firkin` with a dot at each end,
//! its frame. Below it are the patterns that occur in the frame, and then the word with the greatest value at each place:
//!
//! ```text
//!     . f i r k i n .
//!     . f i2
//!         i2r
//!           r2k
//!           r5k i n
//!             k1i n
//!             k2i n .
//!       f0i2r5k2i0n
//! ```
//!
//! An odd value allows a break, so `firkin` breaks before its `k`. The winner of a place is one of the entries that
//! give its value. Its key starts first, and is the shortest of those with that start.
//!
//! A place is the number of the word's bytes before it, from 1 to the word's length less 1. [`Score`] returns the values,
//! and [`winners`] the entries that win. Both search the frame in one pass, which meets each key where it ends. If a standard
//! dictionary has a table of steps, the pass by it takes all keys that end with a byte at once. Users call the crate
//! `hyphenation`, which exports this one as its `score`.
#![tactic(auto)]

ghost use Rattle.std.specs.Prelude.{◌≡◌, ◌↔◌, ◌+◌, ◌-◌, ◌*◌, ◌%◌, ◌≤◌, ◌^◌, ◌<◌, ℕ, None, length, map, option_copied, IfOk, IsOk, IsTrue};
ghost use Rattle.std.specs.List.{slice_index_or};
ghost use Rattle.hyphenation_breaks.specs.Dictionary.{entries_of_keys, longest_key};
ghost use Rattle.hyphenation_trie.specs.Trie.{entries_of_key, EachBeginsKey};
ghost use Rattle.hyphenation_score.specs.Counting.{CountsBy, CountsOf, CountsWithin};
ghost use Rattle.hyphenation_score.specs.OnePass.{occurrences};
ghost use Rattle.hyphenation_score.specs.Scoring.{own_change, score_of_winner, scores, scored_pair, frame, values, plain_value};

mod contest;
mod examples;
mod greatest;
pub mod laws;
mod pass;
mod tabled;
mod values;

pub use contest::{compete_all, winners, winners_in};
pub use greatest::raise_all;
use hyphenation_breaks::entry::Entry;
use hyphenation_breaks::extended::Subregion;
use hyphenation_dictionary::dictionary::{Extended, Standard};
use hyphenation_dictionary::search::automaton_of;
use hyphenation_trie::Automaton;
pub use hyphenation_trie::LookUps;
use std::alloc::{AllocError, Global};
pub use tabled::{find_ranks, put_values};
pub use values::values_of;

/// A dictionary that scores the places of words by its patterns.
///
/// A place is the number of the word's bytes before it, from 1 to the word's length less 1.
pub trait Score<'d> {
    ghost use Rattle.std.specs.Prelude.{List, ℕ};
    ghost use Rattle.hyphenation_score.specs.Scoring.{Scored};

    /// The score of a place: its value, and in an extended dictionary also the change of its winner.
    type Value: Drop;

    /// The value and the change of a score.
    ghost meaning: { Self.Value → Scored };

    /// The scores of a word's places, from place 1 on.
    ghost scores: { Self → List ℕ → List Scored };

    /// The number of bytes of the longest key; 0 without keys.
    ghost longest: { Self → ℕ };

    /// The number of occurrences of keys in a word's frame.
    ghost occurring: { Self → List ℕ → ℕ };

    /// Returns the scores of the places of a word, from place 1 on. The only error is out of memory.
    ///
    /// ```text
    /// dictionary.score(alloc, "firkin")?    // 0, 2, 5, 2, 0: an odd value allows a break
    /// ```
    fn score(&'d self, alloc: Global, word: &str) -> Result<Vec<Self::Value>, AllocError>
        ensures places { IfOk result (λ v. length v.items ≡ length word.now - 1) }
        ensures scores { IfOk result (λ v. map meaning v.items ≡ scores self.now word.now) };

    /// Returns the scores of the places of a word, from place 1 on, and counts what the search does.
    ///
    /// It counts each look-up of a byte among the children of a node, or in a table of steps. It counts one report for each
    /// occurrence of a key in the word's frame. The only error is out of memory; the counts then have what was done before
    /// it.
    ///
    /// ```text
    /// let mut count = LookUps::new();
    /// dictionary.score_counted(alloc, "firkin", &mut count)?;
    /// count.made()        // from 8 to 16: the frame has 8 bytes
    /// count.reported()    // 6: the patterns drawn above
    /// ```
    fn score_counted(
        &'d self,
        alloc: Global,
        word: &str,
        count: &mut LookUps,
    ) -> Result<Vec<Self::Value>, AllocError>
        requires made { count.old.made ≤ 2 ^ 64 }
        requires reported { count.old.reported ≤ 2 ^ 64 }
        ensures places { IfOk result (λ v. length v.items ≡ length word.now - 1) }
        ensures scores { IfOk result (λ v. map meaning v.items ≡ scores self.now word.now) }
        ensures counts { CountsWithin (length word.now) (longest self.now) (occurring self.now word.now) count.old count.new
            (IsOk result) };

    /// Reports whether a score allows a break: its value is odd.
    ///
    /// ```text
    /// Standard::denotes_opportunity(5)    // true
    /// Standard::denotes_opportunity(2)    // false
    /// ```
    fn denotes_opportunity(value: Self::Value) -> bool
        ensures { IsTrue result ↔ (meaning value).value % 2 ≡ 1 };
}

impl<'d> Score<'d> for Standard {
    ghost use Rattle.std.specs.Prelude.{None, map};
    ghost use Rattle.hyphenation_breaks.specs.Dictionary.{entries_of_keys, longest_key};
    ghost use Rattle.hyphenation_score.specs.OnePass.{occurrences};
    ghost use Rattle.hyphenation_score.specs.Scoring.{frame, values, plain_value};

    type Value = u8;

    ghost meaning = { plain_value };

    ghost scores = { λ dictionary word. map plain_value (values (entries_of_keys dictionary) word) };

    ghost longest = { longest_key };

    ghost occurring = { λ dictionary word. occurrences (entries_of_keys dictionary) (frame word) };

    #[inline(always)]
    fn score(&'d self, alloc: Global, word: &str) -> Result<Vec<u8>, AllocError>
        ensures places { IfOk result (λ v. length v.items ≡ length word.now - 1) }
        ensures scores { IfOk result (λ v.
            map plain_value v.items ≡ map plain_value (values (entries_of_keys self.now) word.now)) }
        ensures values { IfOk result (λ v. v.items ≡ values (entries_of_keys self.now) word.now) }
    {
        let mut count = LookUps::new();
        values::values(alloc, self, word, &mut count)
    }

    fn score_counted(
        &'d self,
        alloc: Global,
        word: &str,
        count: &mut LookUps,
    ) -> Result<Vec<u8>, AllocError>
        requires made { count.old.made ≤ 2 ^ 64 }
        requires reported { count.old.reported ≤ 2 ^ 64 }
        ensures places { IfOk result (λ v. length v.items ≡ length word.now - 1) }
        ensures scores { IfOk result (λ v.
            map plain_value v.items ≡ map plain_value (values (entries_of_keys self.now) word.now)) }
        ensures values { IfOk result (λ v. v.items ≡ values (entries_of_keys self.now) word.now) }
        ensures counts { CountsOf self.now word.now count.old count.new (IsOk result) }
    {
        values::values(alloc, self, word, count)
    }

    fn denotes_opportunity(value: u8) -> bool
        ensures { IsTrue result ↔ value % 2 ≡ 1 }
    {
        value % 2 == 1
    }
}

// Returns the score of a winner: its value with the change that it carries, or 0 without a winner.
fn scored<'d>(winner: Option<&'d Entry<Option<Subregion>>>) -> (u8, Option<&'d Subregion>)
    ensures { scored_pair result ≡ score_of_winner own_change (option_copied winner.entry) }
{
    match winner {
        Some(entry) => (entry.value, entry.change.as_ref()),
        None => (0, None),
    }
}

// Returns the scores of winners. The only error is out of memory.
fn scored_all<'d>(
    alloc: Global,
    winners: &[Option<&'d Entry<Option<Subregion>>>],
) -> Result<Vec<(u8, Option<&'d Subregion>)>, AllocError>
    ensures { IfOk result (λ v.
        map scored_pair v.items ≡ map (λ winner. score_of_winner own_change (option_copied winner)) winners.now) }
{
    let mut all = Vec::with_capacity(alloc, winners.len())?;
    for winner in winners {
        // The list has room for all.
        all.push_reserved(scored(*winner));
    }
    Ok(all)
}

// Returns the scores of the places of a word. `bests` must have one `None` for each place, and is filled with the winners.
// The only error is out of memory.
#[inline(always)]
fn scores_from<'d>(
    alloc: Global,
    automaton: &'d Automaton<Entry<Option<Subregion>>>,
    word: &[u8],
    bests: &mut [Option<&'d Entry<Option<Subregion>>>],
    count: &mut LookUps,
) -> Result<Vec<(u8, Option<&'d Subregion>)>, AllocError>
    requires begins { EachBeginsKey automaton.now }
    requires made { count.old.made ≤ 2 ^ 64 }
    requires reported { count.old.reported ≤ 2 ^ 64 }
    requires places { length bests.old ≡ length word.now - 1 }
    requires none { (i : ℕ) → i < length bests.old → slice_index_or bests.old i None ≡ None }
    ensures scores { IfOk result (λ v. map scored_pair v.items
        ≡ scores own_change (entries_of_key automaton.now) word.now) }
    ensures counts { CountsBy (entries_of_key automaton.now) word.now count.old count.new (IsOk result) }
{
    compete_all(automaton, word, bests, count);
    scored_all(alloc, bests)
}

// Returns the scores of the places of a word, by the automaton of the keys. The only error is out of memory.
#[inline(always)]
fn scores_in<'d>(
    alloc: Global,
    automaton: &'d Automaton<Entry<Option<Subregion>>>,
    word: &[u8],
    count: &mut LookUps,
) -> Result<Vec<(u8, Option<&'d Subregion>)>, AllocError>
    requires begins { EachBeginsKey automaton.now }
    requires made { count.old.made ≤ 2 ^ 64 }
    requires reported { count.old.reported ≤ 2 ^ 64 }
    ensures scores { IfOk result (λ v. map scored_pair v.items
        ≡ scores own_change (entries_of_key automaton.now) word.now) }
    ensures counts { CountsBy (entries_of_key automaton.now) word.now count.old count.new (IsOk result) }
{
    let places = word.len().saturating_sub(1);
    if places <= 16 {
        // The winners of most words need no allocation. So few are set to `None` without a call.
        let mut bests: [Option<&'d Entry<Option<Subregion>>>; 16] = [None; 16];
        return scores_from(alloc, automaton, word, &mut bests[..places], count);
    }
    let mut bests: Vec<Option<&'d Entry<Option<Subregion>>>> = vec![in alloc; None; places]?;
    scores_from(alloc, automaton, word, &mut bests, count)
}

// Returns the scores of the places of a word, from place 1 on. The only error is out of memory.
#[inline(always)]
fn scores<'d>(
    alloc: Global,
    dictionary: &'d Extended,
    word: &str,
    count: &mut LookUps,
) -> Result<Vec<(u8, Option<&'d Subregion>)>, AllocError>
    requires made { count.old.made ≤ 2 ^ 64 }
    requires reported { count.old.reported ≤ 2 ^ 64 }
    ensures places { IfOk result (λ v. length v.items ≡ length word.now - 1) }
    ensures scores { IfOk result (λ v. map scored_pair v.items
        ≡ scores own_change (entries_of_keys dictionary.now) word.now) }
    ensures counts { CountsOf dictionary.now word.now count.old count.new (IsOk result) }
{
    dictionary.invariant();
    scores_in(alloc, automaton_of(dictionary), word.as_bytes(), count)
}

impl<'d> Score<'d> for Extended {
    ghost use Rattle.hyphenation_breaks.specs.Dictionary.{entries_of_keys, longest_key};
    ghost use Rattle.hyphenation_score.specs.Scoring.{own_change, frame, scores, scored_pair};
    ghost use Rattle.hyphenation_score.specs.OnePass.{occurrences};

    type Value = (u8, Option<&'d Subregion>);

    ghost meaning = { scored_pair };

    ghost scores = { λ dictionary word. scores own_change (entries_of_keys dictionary) word };

    ghost longest = { longest_key };

    ghost occurring = { λ dictionary word. occurrences (entries_of_keys dictionary) (frame word) };

    #[inline(always)]
    fn score(
        &'d self,
        alloc: Global,
        word: &str,
    ) -> Result<Vec<(u8, Option<&'d Subregion>)>, AllocError> {
        let mut count = LookUps::new();
        scores(alloc, self, word, &mut count)
    }

    fn score_counted(
        &'d self,
        alloc: Global,
        word: &str,
        count: &mut LookUps,
    ) -> Result<Vec<(u8, Option<&'d Subregion>)>, AllocError> {
        scores(alloc, self, word, count)
    }

    fn denotes_opportunity(value: (u8, Option<&'d Subregion>)) -> bool {
        value.0 % 2 == 1
    }
}
