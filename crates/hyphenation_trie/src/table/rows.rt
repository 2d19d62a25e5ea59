//! The rows of a table: one for the root, and one for each other node with children.
//!
//! The cell of a child leads to the child. Where a node has no child at a byte, its cell is that of its link. The link
//! has the longest text that ends the node's text and is shorter. So a row is made of a copy of the row of its node's
//! link, in which the cells of the node's children are set. Rows are made in the order of depths, so the row of the link
//! is complete by then.
//!
//! Rows are in the order of their nodes, and nodes in the order in which their keys came. In a sorted list a text comes
//! right before the longer ones that it begins. So the rows that a word is read by lie near each other.

ghost use Rattle.std.specs.Prelude.{◌≡◌, ◌*◌, ◌<◌, ℕ, List, length, slice_index, IfOk, IfSome, OnOk};
ghost use Rattle.hyphenation_trie.specs.Cells.{numbers_of, IsSplit};
ghost use Rattle.hyphenation_trie.specs.Private.Known.{AreByDepth, AreClasses};
ghost use Rattle.hyphenation_trie.specs.Steps.{AreRows};
ghost use Rattle.hyphenation_trie.specs.Private.States.{IsLinked};
ghost use Rattle.hyphenation_trie.specs.Private.TableRows.{AreInner, AreOwnRows, AreParts, AreRowsOf, IsMadeOf};

use crate::frozen::Frozen;
use crate::growing::Growing;
use crate::lists::list_of_first;
use crate::table::split::Split;
use crate::{Automaton, to_u32};
use std::alloc::{AllocError, Global};

// The rows of a table.
#[derive(Drop)]
struct Rows {
    // The node of each row. The first is the root.
    nodes: Vec<u32>,
    // For each node the row of the longest node with children that ends its text.
    of: Vec<u32>,
}

// Returns for each node whether it has a child. The only error is out of memory.
fn inner_nodes<E: Drop>(alloc: Global, trie: &Frozen<E>) -> Result<Vec<bool>, AllocError>
    ensures { IfOk result (λ inner. AreInner trie.now.tree inner.items (length trie.now.tree.texts)) }
{
    trie.invariant();
    let mut inner = vec![in alloc; false; trie.count()]?;
    for node in 1..trie.count() {
        let (parent, _) = trie.from(node);
        inner[parent] = true;
    }
    Ok(inner)
}

// Returns a row for the root and for each other node that has a child, in the order of the nodes. The other nodes have the
// row of the root. The only error is out of memory.
fn own_rows(alloc: Global, inner: &[bool]) -> Result<Rows, AllocError>
    requires { 0 < length inner.now }
    ensures { IfOk result (λ rows. AreOwnRows inner.now rows.nodes.items rows.of.items (length inner.now)) }
{
    let mut nodes = list_of_first(alloc, 1, 0u32)?;
    let mut of = vec![in alloc; 0u32; inner.len()]?;
    for node in 1..inner.len() {
        if inner[node] {
            let row = to_u32(nodes.len())?;
            let number = to_u32(node)?;
            nodes.push(number)?;
            of[node] = row;
        }
    }
    Ok(Rows { nodes, of })
}

// Returns the rows, given the nodes by their depths, and whether each has a child. The only error is out of memory.
fn rows_of<E: Drop>(
    alloc: Global,
    trie: &Frozen<E>,
    order: &[u32],
    inner: &[bool],
) -> Result<Rows, AllocError>
    requires linked { IsLinked trie.now }
    requires order { AreByDepth trie.now.tree.texts order.now }
    requires inner { AreInner trie.now.tree inner.now (length trie.now.tree.texts) }
    ensures { IfOk result (λ rows. AreRowsOf trie.now.tree rows.nodes.items rows.of.items) }
{
    trie.invariant();
    let Rows { nodes, mut of } = own_rows(alloc, inner)?;
    for node in order {
        let at = *node as usize;
        if !inner[at] {
            of[at] = of[trie.links(at).link as usize];
        }
    }
    Ok(Rows { nodes, of })
}

// Sets the cells of the children of a row's node.
fn set_children<E: Drop>(
    cells: &mut Vec<u32>,
    row: usize,
    trie: &Growing<E>,
    rows: &Rows,
    numbers: &[u32],
    classes: &[u8],
    quarter: usize,
    split: Split,
)
    requires parts { AreParts trie.now rows.now.nodes.items rows.now.of.items numbers.now classes.now quarter split }
    requires count { length cells.old.items ≡ length rows.now.nodes.items * quarter * 4 }
    requires row { row < length rows.now.nodes.items }
    ensures count { length cells.new.items ≡ length cells.old.items }
    ensures made { IsMadeOf trie.now rows.now.nodes.items rows.now.of.items numbers.now classes.now quarter split 0 row row
        cells.old.items cells.new.items }
{
    trie.invariant();
    let start = row * quarter * 4;
    let mut child = trie.last_child(rows.nodes[row] as usize);
    while child != 0 {
        let at = child as usize;
        let (_, byte) = trie.from(at);
        let place = rows.of[at] as usize * quarter;
        cells[start + classes[byte as usize] as usize] = split.cell(place, numbers[at]);
        child = trie.child_before(at);
    }
}

// Makes a row of another one: copies it, and sets the cells of the children of the row's node.
fn make_row<E: Drop>(
    cells: &mut Vec<u32>,
    from: usize,
    to: usize,
    trie: &Growing<E>,
    rows: &Rows,
    numbers: &[u32],
    classes: &[u8],
    quarter: usize,
    split: Split,
)
    requires parts { AreParts trie.now rows.now.nodes.items rows.now.of.items numbers.now classes.now quarter split }
    requires count { length cells.old.items ≡ length rows.now.nodes.items * quarter * 4 }
    requires from { from < length rows.now.nodes.items }
    requires to { to < length rows.now.nodes.items }
    ensures count { length cells.new.items ≡ length cells.old.items }
    ensures made { IsMadeOf trie.now rows.now.nodes.items rows.now.of.items numbers.now classes.now quarter split 0 from to
        cells.old.items cells.new.items }
{
    let start = from * quarter * 4;
    cells.copy_within(start..start + quarter * 4, to * quarter * 4);
    set_children(cells, to, trie, rows, numbers, classes, quarter, split);
}

// Returns the cells of all rows, given the nodes by their depths. The only error is out of memory.
fn cells_by_depth<E: Drop>(
    alloc: Global,
    trie: &Frozen<E>,
    order: &[u32],
    rows: &Rows,
    numbers: &[u32],
    classes: &[u8],
    quarter: usize,
    split: Split,
) -> Result<Vec<u32>, AllocError>
    requires linked { IsLinked trie.now }
    requires order { AreByDepth trie.now.tree.texts order.now }
    requires parts { AreParts trie.now.tree rows.now.nodes.items rows.now.of.items numbers.now classes.now quarter split }
    requires root { slice_index numbers.now 0 ≡ 0 }
    ensures { IfOk result (λ cells. AreRows trie.now.tree numbers.now classes.now quarter split cells.items rows.now.nodes.items) }
{
    trie.invariant();
    let mut cells = vec![in alloc; 0u32; rows.nodes.len() * quarter * 4]?;
    set_children(
        &mut cells, 0, &trie.trie, rows, numbers, classes, quarter, split,
    );
    for node in order {
        let at = *node as usize;
        let row = rows.of[at] as usize;
        if rows.nodes[row] == *node {
            let link = trie.links(at).link as usize;
            let from = rows.of[link] as usize;
            make_row(
                &mut cells, from, row, &trie.trie, rows, numbers, classes, quarter, split,
            );
        }
    }
    Ok(cells)
}

// Returns the cells of all rows, given the nodes by their depths, the number of each node, and the class of each byte. `None`
// if a place in the cells might be above the last one. The only error is out of memory.
pub(super) fn cells_of<E: Drop>(
    alloc: Global,
    automaton: &Automaton<E>,
    order: &[u32],
    numbers: &[u32],
    classes: &[u8],
    quarter: usize,
    split: Split,
) -> Result<Option<Vec<u32>>, AllocError>
    requires order { AreByDepth automaton.now.texts order.now }
    requires nodes { length numbers.now ≡ length automaton.now.texts }
    requires split { IsSplit split }
    requires few { (j : ℕ) → j < length automaton.now.texts → slice_index numbers.now j < numbers_of split }
    requires root { slice_index numbers.now 0 ≡ 0 }
    requires classes { AreClasses automaton.now.texts classes.now quarter }
    ensures { IfOk result (λ made. IfSome made
        (λ cells. (rows : List ℕ) × AreRows automaton.now numbers.now classes.now quarter split cells.items rows)) }
{
    let trie = &automaton.trie;
    trie.invariant();
    let inner = inner_nodes(alloc, trie)?;
    let rows = rows_of(alloc, trie, order, &inner)?;
    let places = rows.nodes.len().saturating_mul(quarter);
    if places > split.last_place as usize {
        return Ok(None);
    }
    let cells = cells_by_depth(alloc, trie, order, &rows, numbers, classes, quarter, split)?;
    Ok(Some(cells))
}
