//! Tables of steps, by which a pass over a text reads one cell for each byte.
//!
//! A row of cells belongs to a text that begins longer keys, and has a cell for each class of bytes. The cell of a byte
//! leads to the row of the longest of these texts that ends the row's text with the byte. It also leads to the vector
//! of the row's text with the byte: the greatest ranks that the keys which end there give to the 16 last places. The
//! rank of a value is the value itself in a standard dictionary. In an extended one it also says whether the value
//! carries a change.

ghost use Rattle.std.specs.Prelude.{◌≡◌, ◌+◌, ◌<◌, ◌^◌, List, ℕ, [], length, slice_index, slice_index_or, IfOk, IfSome};
ghost use Rattle.hyphenation_trie.specs.Tables.{GoesOn, IsTableOf, ReadsOn};
ghost use Rattle.hyphenation_trie.specs.Trie.{entries_of_key};

mod classes;
pub mod pairs;
mod rows;
pub mod split;
pub mod steps;
mod vectors;

use super::{Automaton, LookUps};
use hyphenation_breaks::entry::{Entry, Payload};
use std::alloc::{AllocError, Global};
use steps::{Steps, steps_of};
use vectors::{Known, known_of_all};

/// A table of steps of an automaton.
#[derive(Drop)]
pub struct Table {
    /// The steps from row to row, each with the number of a vector.
    pub steps: Steps,
    /// The vectors.
    pub vectors: Vec<[u8; 16]>,
    /// For each vector the number of keys that end the texts that it is of.
    pub counts: Vec<u32>,
}

impl Table {
    /// Reads one byte from a row: returns where the next row begins and the number of a vector. Counts one look-up.
    ///
    /// The first row begins at 0. Rows begin at units of four cells.
    #[inline(always)]
    pub fn step<C: Payload>(
        &self,
        automaton: &Automaton<Entry<C>>,
        start: usize,
        byte: u8,
        count: &mut LookUps,
    ) -> (usize, usize)
        requires row { (text : List ℕ) × GoesOn C.rank_of (entries_of_key automaton.now) self.now start text }
        requires room { count.old.made + 1 < 2 ^ 128 }
        ensures read { ReadsOn C.rank_of (entries_of_key automaton.now) self.now start byte result.0 result.1 }
        ensures number { result.1 < length self.now.vectors.items }
        ensures counts { length self.now.counts.items ≡ length self.now.vectors.items }
        ensures counted { count.new ≡ record count.old { made = count.old.made + 1 } }
    {
        count.look_up();
        self.steps.read(start, byte)
    }

    /// Returns the vector of a number, and counts one report for each key that ends the texts that it is of.
    #[inline(always)]
    pub fn vector(&self, number: usize, count: &mut LookUps) -> &[u8; 16]
        requires number { number < length self.now.vectors.items }
        requires counts { length self.now.counts.items ≡ length self.now.vectors.items }
        requires room { count.old.reported + 2 ^ 32 < 2 ^ 128 }
        ensures vector { result.now ≡ slice_index_or self.now.vectors.items number [] }
        ensures counted { count.new ≡ record count.old
            { reported = count.old.reported + slice_index self.now.counts.items number } }
    {
        count.report_many(self.counts[number]);
        &self.vectors[number]
    }
}

/// Makes a table of an automaton, or returns `None` where there can be none of this form.
///
/// There is none if an entry is more than 15 bytes before its key's end, or a rank is above 255. Nor is there one if
/// there are more than 4,096 vectors, or all 256 bytes are in keys. With at most 1,024 vectors the rows have fewer than
/// 16,777,216 cells, and there is no table if they would have more. With more vectors they have fewer than 4,194,304. The
/// only error is out of memory.
pub fn make_table<C: Payload>(
    alloc: Global,
    automaton: &Automaton<Entry<C>>,
) -> Result<Option<Table>, AllocError>
    ensures { IfOk result (λ made. IfSome made (λ table. IsTableOf C.rank_of (entries_of_key automaton.now) table)) }
{
    automaton.invariant();
    let order = automaton.nodes_by_depth();
    let Some(known) = known_of_all(alloc, automaton, order)? else {
        return Ok(None);
    };
    let Known {
        numbers,
        vectors,
        counts,
    } = known;
    let Some(steps) = steps_of(alloc, automaton, order, &numbers)? else {
        return Ok(None);
    };
    Ok(Some(Table {
        steps,
        vectors,
        counts,
    }))
}
