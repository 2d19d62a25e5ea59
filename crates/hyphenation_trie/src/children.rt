//! The edges of a trie's nodes: the parent of each, and the children of each as a chain.

ghost use Rattle.std.specs.Prelude.{◌≡◌, ◌<◌, ◌≤◌, ◌++◌, [], ◌∷◌, length, slice_index, slice_set, IfOk, OnOk, OnErr};
ghost use Rattle.hyphenation_trie.specs.Private.Growing.{last_byte};

use super::lists::{list_of_first, push_both};
use super::test_u32;
use std::alloc::{AllocError, Global};

// The parents and the children of all nodes.
#[derive(Drop)]
pub(crate) struct Children {
    // The parent of each node, and the byte that leads from the parent to the node. The root comes first, with 0 for both;
    // each other node comes after its parent.
    pub(crate) parents: Vec<u32>,
    pub(crate) bytes: Vec<u8>,
    // The last child of each node, and the sibling before each node; 0 if there is none.
    pub(crate) last: Vec<u32>,
    pub(crate) before: Vec<u32>,
    // The children of each node from this one on were added in the order of their bytes. So none of them has a greater byte
    // than the last one, which ends most look-ups of a byte that no child has.
    pub(crate) in_order_from: u32,
}

impl Children {
    // Returns only the root, with room for `nodes` nodes. The only error is out of memory.
    pub(crate) fn with_room(alloc: Global, nodes: usize) -> Result<Children, AllocError>
        ensures nodes { IfOk result (λ children. (children.parents.items ≡ 0 ∷ []) × (children.bytes.items ≡ 0 ∷ [])) }
        ensures chains { IfOk result (λ children. (children.last.items ≡ 0 ∷ []) × (children.before.items ≡ 0 ∷ [])) }
        ensures order { IfOk result (λ children. children.in_order_from ≡ 0) }
    {
        let parents = list_of_first(alloc, nodes, 0)?;
        let bytes = list_of_first(alloc, nodes, 0)?;
        let last = list_of_first(alloc, nodes, 0)?;
        let before = list_of_first(alloc, nodes, 0)?;
        Ok(Children {
            parents,
            bytes,
            last,
            before,
            in_order_from: 0,
        })
    }

    // Adds a child to a node, as its last one, and returns the number of the child. The only error is out of memory.
    #[inline(always)]
    pub(crate) fn add(&mut self, node: u32, byte: u8) -> Result<u32, AllocError>
        requires node { node < length self.old.last.items }
        requires last { slice_index self.old.last.items node < length self.old.bytes.items }
        ensures child { IfOk result (λ child. child ≡ length self.old.before.items) }
        ensures parents { OnOk result (self.new.parents.items ≡ self.old.parents.items ++ node ∷ []) }
        ensures bytes { OnOk result (self.new.bytes.items ≡ self.old.bytes.items ++ byte ∷ []) }
        ensures last { OnOk result (self.new.last.items ≡ slice_set (self.old.last.items ++ 0 ∷ []) node
            (length self.old.before.items)) }
        ensures before { OnOk result (self.new.before.items ≡ self.old.before.items ++ slice_index self.old.last.items
            node ∷ []) }
        ensures in_order { OnOk result (last_byte self.old node ≤ byte → self.new.in_order_from ≡ self.old.in_order_from) }
        ensures out_of_order { OnOk result (byte < last_byte self.old node
            → self.new.in_order_from ≡ length self.old.before.items) }
        ensures same_nodes_on_error { OnErr result ((self.new.parents.items ≡ self.old.parents.items)
            × (self.new.bytes.items ≡ self.old.bytes.items)) }
        ensures same_chains_on_error { OnErr result ((self.new.last.items ≡ self.old.last.items)
            × (self.new.before.items ≡ self.old.before.items)) }
        ensures same_order_on_error { OnErr result (self.new.in_order_from ≡ self.old.in_order_from) }
    {
        let count = self.before.len();
        test_u32(count)?;
        let child = count as u32;
        let before = self.last[node as usize];
        let is_out_of_order = byte < self.bytes[before as usize];
        let (parents, bytes) = (self.parents.len(), self.bytes.len());
        push_both(&mut self.parents, node, &mut self.bytes, byte)?;
        if let Err(error) = push_both(&mut self.last, 0, &mut self.before, before) {
            // No list keeps a node that another list refuses.
            self.parents.truncate(parents);
            self.bytes.truncate(bytes);
            return Err(error);
        }
        self.last[node as usize] = child;
        if is_out_of_order {
            // Nodes without children are in order. The child is the first of those to come.
            self.in_order_from = child;
        }
        Ok(child)
    }
}
