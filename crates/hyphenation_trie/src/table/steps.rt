//! Steps by rows of cells, with a number for each node.
//!
//! A row belongs to a node with children, and has a cell for each class of bytes. The cell of a byte leads to the row
//! of the longest node with children that ends the row's text with the byte. It also has the number of the longest node
//! that does, with children or without. The caller chooses the numbers.

ghost use Rattle.std.specs.Prelude.{◌≡◌, ◌+◌, ◌*◌, ◌<◌, ℕ, List, [], length, slice_index, IfOk, IfSome};
ghost use Rattle.hyphenation_trie.specs.Cells.{IsSplit, number_in, place_in};
ghost use Rattle.hyphenation_trie.specs.Private.Known.{AreByDepth};
ghost use Rattle.hyphenation_trie.specs.Steps.{AreSteps, StandsFor, StepsBy, cell_at};

use super::classes::classes_of;
use super::rows::cells_of;
use super::split::{Split, split_of};
use crate::Automaton;
use std::alloc::{AllocError, Global};

/// A table of steps with a number for each node.
#[derive(Drop)]
pub struct Steps {
    /// The cells of all rows. A cell holds where the next row begins, in units of four cells, and a number.
    pub cells: Vec<u32>,
    /// How a cell holds these two.
    pub split: Split,
    /// The class of each byte.
    pub classes: [u8; 256],
}

impl Steps {
    // Reads the cell of a byte in a row: returns its place and its number.
    #[inline(always)]
    pub(super) fn read(&self, start: usize, byte: u8) -> (usize, usize)
        requires cell { start * 4 + slice_index self.now.classes byte < length self.now.cells.items }
        requires split { IsSplit self.now.split }
        ensures place { result.0 ≡ place_in self.now.split (cell_at self.now start byte) }
        ensures number { result.1 ≡ number_in self.now.split (cell_at self.now start byte) }
    {
        let cell = self.cells[start * 4 + self.classes[byte as usize] as usize];
        self.split.parts(cell)
    }

    /// Returns where the row of the empty text begins, in units of four cells.
    #[inline(always)]
    pub fn first_row<E: Drop>(&self, automaton: &Automaton<E>) -> usize
        ensures { (numbers : List ℕ) → AreSteps automaton.now numbers self.now
            → StandsFor automaton.now numbers self.now result [] }
    {
        automaton.invariant();
        0
    }

    /// Reads one byte from a row: returns where the next row begins, in units of four cells, and the number of the longest
    /// node.
    #[inline(always)]
    pub fn step<E: Drop>(&self, automaton: &Automaton<E>, start: usize, byte: u8) -> (usize, usize)
        requires row { (numbers : List ℕ) × (text : List ℕ) × StandsFor automaton.now numbers self.now start text }
        ensures { StepsBy automaton.now self.now start byte result.0 result.1 }
    {
        automaton.invariant();
        self.read(start, byte)
    }
}

// Makes a table of steps as [`make_steps`] does, given the nodes by their depths.
pub(super) fn steps_of<E: Drop>(
    alloc: Global,
    automaton: &Automaton<E>,
    order: &[u32],
    numbers: &[u32],
) -> Result<Option<Steps>, AllocError>
    requires order { AreByDepth automaton.now.texts order.now }
    requires nodes { length numbers.now ≡ length automaton.now.texts }
    requires few { (j : ℕ) → j < length automaton.now.texts → slice_index numbers.now j < 4096 }
    requires root { slice_index numbers.now 0 ≡ 0 }
    ensures { IfOk result (λ made. IfSome made (λ steps. AreSteps automaton.now numbers.now steps)) }
{
    automaton.invariant();
    let Some(found) = classes_of(automaton) else {
        return Ok(None);
    };
    let classes = found.0;
    let quarter = found.1;
    let split = split_of(numbers);
    let Some(cells) = cells_of(alloc, automaton, order, numbers, &classes, quarter, split)? else {
        return Ok(None);
    };
    Ok(Some(Steps {
        cells,
        split,
        classes,
    }))
}

/// Makes a table of the steps of an automaton, with a number for each node. `None` if there can be none of this form.
///
/// There is none if all 256 bytes are in keys. If all numbers are below 1,024, the rows have fewer than 16,777,216 cells,
/// and there is no table if they would have more. Otherwise they have fewer than 4,194,304. The numbers are below 4,096,
/// and that of the root is 0. The only error is out of memory.
pub fn make_steps<E: Drop>(
    alloc: Global,
    automaton: &Automaton<E>,
    numbers: &[u32],
) -> Result<Option<Steps>, AllocError>
    requires nodes { length numbers.now ≡ length automaton.now.texts }
    requires few { (j : ℕ) → j < length automaton.now.texts → slice_index numbers.now j < 4096 }
    requires root { slice_index numbers.now 0 ≡ 0 }
    ensures { IfOk result (λ made. IfSome made (λ steps. AreSteps automaton.now numbers.now steps)) }
{
    steps_of(alloc, automaton, automaton.nodes_by_depth(), numbers)
}
