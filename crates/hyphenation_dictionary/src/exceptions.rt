//! Exceptions: words, each with a list.
//!
//! A table of 16,384 slots, indexed by a cheap hash, answers most look-ups of words that are no exceptions. A slot has a
//! tag, a further part of the hash. Only words with the tag of their slot ask a hash map.

ghost use Rattle.std.specs.Prelude.{◌≡◌, ◌<◌, true, ℕ, List, IfOk, OnOk, OnErr, length, option_copied, replicate, slice_index};
ghost use Rattle.std.specs.FinMap as finite;
ghost use Rattle.std.specs.Option.{option_map};
ghost use Rattle.std.specs.String.{string_bytes};
ghost use Rattle.hyphenation_breaks.specs.Dictionary.{TextMap};
ghost use Rattle.hyphenation_dictionary.specs.Private.Views.{exceptions_of};
ghost use Rattle.hyphenation_dictionary.specs.Parts.{pair_views};
ghost use Rattle.hyphenation_dictionary.specs.Private.Slots.{slot_count, hash_of, slot_of, tag_of, stands_for, StandForNoLess, AreTagged};

use std::alloc::{AllocError, Global};
use std::collections::HashMap;
use std::marker::Model;

/// Words, each with a list.
#[derive(Drop)]
pub struct Exceptions<B> {
    // The tag of each slot, which stands for each listed word of the slot; it may stand for others, too. It is 0 where no
    // word of the slot was ever listed.
    tags: Vec<u8>,
    words: HashMap<String, Vec<B>>,
}

impl<B> Model for Exceptions<B> {
    ghost use Rattle.std.specs.Prelude.{List};
    ghost use Rattle.std.specs.Coded.{coded_ℕ, coded_list};
    ghost use Rattle.std.specs.FinMap as finite;
    ghost use Rattle.hyphenation_breaks.specs.Dictionary.{TextMap};
    ghost use Rattle.hyphenation_dictionary.specs.Private.Views.{exceptions_of};
    ghost use Rattle.hyphenation_dictionary.specs.Private.Slots.{AreTagged};

    ghost Value = { TextMap (List B) };

    ghost coded = { finite.code (coded_list coded_ℕ) (coded_list B.code) };

    ghost view = { λ e. exceptions_of e.words };

    ghost invariant = { λ e. AreTagged e.tags.items (exceptions_of e.words) };
}

// The number of slots. With a few thousand words, nine in ten look-ups of other words end at a slot with the tag 0.
const SLOTS: usize = 16384;

// The tag of a slot that has words with several tags. It stands for all words.
const SHARED: u8 = 255;

// Returns a hash of a word, by its first four bytes and its last four. A shorter word has the hash 0: minima leave most
// such words whole, so that they are not looked up.
#[tactic(auto, unfolding(crate::specs::Private::Slots::hash_of))]
fn hash_of(word: &[u8]) -> u32
    ensures { result ≡ hash_of word.now }
{
    let Some((first, _)) = word.split_first_chunk::<4>() else {
        return 0;
    };
    let Some((_, last)) = word.split_last_chunk::<4>() else {
        return 0;
    };
    let early = u32::from_le_bytes(*first).wrapping_mul(0x9E37_79B1);
    let late = u32::from_le_bytes(*last).wrapping_mul(0x85EB_CA77);
    early.wrapping_add(late)
}

// Returns the slot of a word by its hash.
fn slot_of(hash: u32) -> usize
    ensures value { result ≡ slot_of hash }
    ensures below { result < slot_count }
{
    (hash / 0x4_0000) as usize
}

// Returns the tag of a word by its hash, from 1 to 128.
fn tag_of(hash: u32) -> u8
    ensures value { result ≡ tag_of hash }
    ensures above_zero { 0 < result }
{
    (hash / 0x800 % 128) as u8 + 1
}

// Whether a slot's tag stands for words with a tag of their own.
fn stands_for(tag: u8, own: u8) -> bool
    ensures { result ≡ stands_for tag own }
{
    tag == SHARED || tag == own
}

// Returns a table of slots without words. The only error is out of memory.
fn empty_slots(alloc: Global, count: usize) -> Result<Vec<u8>, AllocError>
    ensures { IfOk result (λ v. v.items ≡ replicate count 0) }
{
    vec![in alloc; 0u8; count]
}

// Returns a slot's tag after one more word with a tag of its own.
fn joined_tag(tag: u8, own: u8) -> u8
    ensures stands { stands_for result own ≡ true }
    ensures others_stay { (other : ℕ) → 0 < other → stands_for tag other ≡ true → stands_for result other ≡ true }
{
    if tag == 0 || tag == own { own } else { SHARED }
}

// Lets the tag of a slot stand for words with a tag of their own, too.
fn set_tag(tags: &mut Vec<u8>, at: usize, own: u8)
    requires { at < length tags.old.items }
    ensures same_count { length tags.new.items ≡ length tags.old.items }
    ensures stands { stands_for (slice_index tags.new.items at) own ≡ true }
    ensures others_stay { StandForNoLess tags.old.items tags.new.items }
{
    tags[at] = joined_tag(tags[at], own);
}

impl<B: Drop> Exceptions<B> {
    /// Returns an empty set of exceptions with room for `count` words. The only error is out of memory.
    ///
    /// Room that is not used costs little more than addresses, and saves copies when the map grows.
    pub fn with_room(alloc: Global, count: usize) -> Result<Exceptions<B>, AllocError>
        ensures { IfOk result (λ e. e ≡ finite.empty) }
    {
        let tags = empty_slots(alloc, SLOTS)?;
        let words = HashMap::with_capacity(alloc, count)?;
        Ok(Exceptions { tags, words })
    }

    // Returns the list of a word, if it has one.
    #[inline(always)]
    pub(crate) fn get(&self, word: &str) -> Option<&[B]>
        ensures { option_copied result ≡ finite.get self.now word.now }
    {
        let hash = hash_of(word.as_bytes());
        let tag = self.tags[slot_of(hash)];
        if tag == 0 || !stands_for(tag, tag_of(hash)) {
            return None;
        }
        self.find(word)
    }

    // Returns the list of a word by a look-up in the map. Kept out of line, so that `get` saves no registers for most words.
    #[inline(never)]
    fn find(&self, word: &str) -> Option<&[B]>
        ensures { option_copied result ≡ finite.get self.now word.now }
    {
        self.words.get(word).map(Vec::as_slice)
    }

    /// Gives a word a list, and returns the list that it had before, if any.
    ///
    /// No other word changes. The only error is out of memory; it leaves the exceptions as they were.
    pub fn insert(&mut self, word: String, listed: Vec<B>) -> Result<Option<Vec<B>>, AllocError>
        ensures listed { OnOk result (self.new ≡ finite.insert self.old (string_bytes word) listed.items) }
        ensures listed_before { IfOk result (λ old. option_map (λ v. v.items) old ≡ finite.get self.old (string_bytes word)) }
        ensures unchanged_on_error { OnErr result (self.new ≡ self.old) }
    {
        let hash = hash_of(word.as_bytes());
        let old = self.words.insert(word, listed)?;
        set_tag(&mut self.tags, slot_of(hash), tag_of(hash));
        Ok(old)
    }

    // Removes a word, and returns the list that it had, if any. No other word changes.
    pub(crate) fn remove(&mut self, word: &str) -> Option<Vec<B>>
        ensures removed { self.new ≡ finite.remove self.old word.now }
        ensures listed_before { option_map (λ v. v.items) result ≡ finite.get self.old word.now }
    {
        // The slot keeps its tag: another word may have it.
        self.words.remove(word)
    }

    // Returns the words with their lists, in no particular order. The only error is out of memory.
    pub(crate) fn pairs(&self, alloc: Global) -> Result<Vec<(&[u8], &[B])>, AllocError>
        ensures { IfOk result (λ words. finite.from_entries (pair_views words.items) ≡ self.now) }
    {
        let mut words = Vec::new(alloc);
        for (word, listed) in &self.words {
            words.push((word.as_bytes(), listed.as_slice()))?;
        }
        Ok(words)
    }
}
