//! Vectors with counts, of which equal pairs have one number.

ghost use Rattle.std.specs.Prelude.{◌≡◌, ◌++◌, ◌<◌, [], ◌∷◌, IfErr, IfNone, IfOk, IfSome, OnErr, OnOk, length};
ghost use Rattle.hyphenation_trie.specs.Pairs.{CanBeFound, IsPairAt, KeepsPairs};

use crate::lists::push_both;
use std::alloc::{AllocError, Global};

// The greatest number of pairs.
const MOST: usize = 4096;

// The number of slots by which an equal pair is found: twice that of pairs, so that a search soon comes to a free one.
const SLOTS: usize = 8192;

// The number of slots that a search reads at most. A pair that is not found by then is added once more, which is no error.
const TRIES: usize = 64;

// A free slot holds this, which is the number of no pair.
const FREE: u32 = u32::MAX;

/// Pairs of a vector and a count, at most 4,096.
#[derive(Drop)]
pub struct Pairs {
    /// The vector of each number.
    pub vectors: Vec<[u8; 16]>,
    /// The count of each number.
    pub counts: Vec<u32>,
    // The numbers of pairs, each at or after the slot that its pair has first. A slot is a hint: the pair that it leads to is
    // compared.
    slots: Vec<u32>,
}

// Returns the slot at which the search for a pair begins: the highest bits of a product, which all bits of the pair change.
fn first_slot(vector: &[u8; 16], count: u32) -> usize
    ensures { result < 8192 }
{
    let bytes = u128::from_le_bytes(*vector);
    let high = (bytes >> 64) as u64;
    let low = (bytes % (1 << 64)) as u64;
    let mixed = low
        ^ high
            .wrapping_mul(0x9e3779b97f4a7c15)
            .wrapping_add(u64::from(count));
    (mixed.wrapping_mul(0xd6e8feb86659fd93) >> 51) as usize
}

impl Pairs {
    /// Returns no pairs. The only error is out of memory.
    pub fn new(alloc: Global) -> Result<Pairs, AllocError>
        ensures found { IfOk result (λ pairs. CanBeFound pairs) }
        ensures none { IfOk result (λ pairs. (pairs.vectors.items ≡ []) × (pairs.counts.items ≡ [])) }
    {
        let slots = vec![in alloc; FREE; SLOTS]?;
        Ok(Pairs {
            vectors: Vec::new(alloc),
            counts: Vec::new(alloc),
            slots,
        })
    }

    /// Adds a pair without a look for an equal one. [`Pairs::find_or_add`] does not find it. The only error is out of memory,
    /// and leaves the pairs as they were.
    pub fn add(&mut self, vector: &[u8; 16], count: u32) -> Result<(), AllocError>
        requires found { CanBeFound self.old }
        requires room { length self.old.vectors.items < 4096 }
        ensures found { CanBeFound self.new }
        ensures vectors { OnOk result (self.new.vectors.items ≡ self.old.vectors.items ++ vector.now ∷ []) }
        ensures counts { OnOk result (self.new.counts.items ≡ self.old.counts.items ++ count ∷ []) }
        ensures vectors_unchanged_on_error { OnErr result (self.new.vectors.items ≡ self.old.vectors.items) }
        ensures counts_unchanged_on_error { OnErr result (self.new.counts.items ≡ self.old.counts.items) }
    {
        push_both(&mut self.vectors, *vector, &mut self.counts, count)
    }

    // Returns the number of an equal pair, or else the slot for a new one.
    fn find(&self, vector: &[u8; 16], count: u32) -> Result<usize, usize>
        requires found { CanBeFound self.now }
        ensures found { IfOk result (λ number.
            IsPairAt self.now.vectors.items self.now.counts.items number vector.now count) }
        ensures slot { IfErr result (λ slot. slot < 8192) }
    {
        let first = first_slot(vector, count);
        for step in 0..TRIES {
            let slot = (first + step) % SLOTS;
            let number = self.slots[slot] as usize;
            // The number of no pair is in a free slot.
            if number >= self.vectors.len() {
                return Err(slot);
            }
            if self.counts[number] == count && self.vectors[number] == *vector {
                return Ok(number);
            }
        }
        Err(first)
    }

    /// Returns the number of a pair, which is added if no equal one is found. `None` if there are 4,096 pairs then. The only
    /// error is out of memory. Each pair keeps its number.
    pub fn find_or_add(&mut self, vector: &[u8; 16], count: u32) -> Result<Option<u32>, AllocError>
        requires found { CanBeFound self.old }
        ensures found { CanBeFound self.new }
        ensures kept { KeepsPairs self.old.vectors.items self.old.counts.items self.new.vectors.items
            self.new.counts.items }
        ensures number { IfOk result (λ made. IfSome made (λ number.
            IsPairAt self.new.vectors.items self.new.counts.items number vector.now count)) }
        ensures full { IfOk result (λ made. IfNone made (length self.old.vectors.items ≡ 4096)) }
    {
        match self.find(vector, count) {
            Ok(number) => Ok(Some(number as u32)),
            Err(slot) => {
                let number = self.vectors.len();
                if number == MOST {
                    return Ok(None);
                }
                self.add(vector, count)?;
                self.slots[slot] = number as u32;
                Ok(Some(number as u32))
            }
        }
    }
}
