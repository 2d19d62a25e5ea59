//! The nodes of a trie that grows, and the entries of its keys.

ghost use Rattle.std.specs.Prelude.{◌≡◌, ◌≢◌, ◌+◌, ◌<◌, ◌++◌, [], ◌∷◌, ℕ, length, slice_index, Some, None, IfOk, OnOk, OnErr, is_some, IfSome, IfNone};
ghost use Rattle.std.specs.Prelude.{option_copied, slice_index_or, IsSome};
ghost use Rattle.hyphenation_trie.specs.Trie.{node_text, entries_of_key, entries_of_node, IsTrie, AddsFront, KeepsNodes, KeepsKeys, SetsKey, EachBeginsKey};
ghost use Rattle.hyphenation_trie.specs.Private.Trail.{IsTrail};
ghost use Rattle.hyphenation_trie.specs.Private.Growing.{IsLastChild, IsChildBefore};
ghost use Rattle.hyphenation_trie.specs.Private.Trie.{with_child, Grows, with_entries};

use crate::children::Children;
use crate::lists::{append_all, list_of_first, push_both};
use crate::state::{Span, State, entries_in};
use crate::trail::Trail;
use std::alloc::{AllocError, Global};
use std::marker::Model;

// Keys, each with its entries, to which more can be added.
pub(crate) struct Growing<E> {
    // The children of each node. If keys are inserted in order, each look-up asks only the last child.
    pub(crate) children: Children,
    // The states of the nodes.
    pub(crate) states: Vec<State>,
    // The entries of all keys in one list, so that a key needs no allocation of its own. Replaced entries stay here,
    // unused.
    pub(crate) entries: Vec<E>,
}

// It drops each field, as the derived implementation would. The proof of a function that drops a trie has one step for
// this call. With the derived implementation it has a step for each list of the trie.
impl<E: Drop> Drop for Growing<E> {
    fn drop(self) {
        let Growing {
            children,
            states,
            entries,
        } = self;
        drop(children);
        drop(states);
        drop(entries);
    }
}

impl<E> Model for Growing<E> {
    ghost use Rattle.std.specs.Prelude.{map, length};
    ghost use Rattle.hyphenation_trie.specs.Trie.{Tree};
    ghost use Rattle.hyphenation_trie.specs.Private.Growing.{IsOrderedFrom};
    ghost use Rattle.hyphenation_trie.specs.Private.States.{froms_by, span_in, IsHeld};
    ghost use Rattle.hyphenation_trie.specs.Private.Trie.{tree_of};

    ghost Value = { Tree E };

    ghost view = { λ t. tree_of (froms_by t.children.parents.items t.children.bytes.items)
        (map span_in t.states.items) t.entries.items };

    ghost invariant = { λ t.
        (IsHeld t.children.parents.items t.children.bytes.items t.states.items t.children.last.items
        t.children.before.items (length t.entries.items))
        × (IsOrderedFrom t.children.parents.items t.children.bytes.items t.children.in_order_from) };
}

impl<E: Drop> Growing<E> {
    // Returns a trie without keys, with room for `nodes` nodes. The only error is out of memory.
    //
    // Room that is not used costs addresses and no memory, and saves copies when the trie grows.
    pub(crate) fn with_room(alloc: Global, nodes: usize) -> Result<Self, AllocError>
        ensures { IfOk result (λ trie. trie ≡ record { texts = [] ∷ []; entries = None ∷ [] }) }
    {
        let states = list_of_first(alloc, nodes, State::of_no_key())?;
        let entries = Vec::with_capacity(alloc, nodes)?;
        let children = Children::with_room(alloc, nodes)?;
        Ok(Growing {
            children,
            states,
            entries,
        })
    }

    // Moves entries to a key as [`Trie::insert`] does, along the nodes of the key before. After an error the trail is of no use.
    #[inline(always)]
    pub(crate) fn insert(
        &mut self,
        key: &[u8],
        trail: &mut Trail,
        entries: &mut Vec<E>,
    ) -> Result<bool, AllocError>
        requires { IsTrail self.old trail.old }
        ensures trail { OnOk result (IsTrail self.new trail.new) }
        ensures key_set { OnOk result (SetsKey self.old self.new key.now entries.old.items) }
        ensures had { IfOk result (λ had. had ≡ is_some (entries_of_key self.old key.now)) }
        ensures entries_moved { OnOk result (entries.new.items ≡ []) }
        ensures begins { OnOk result (EachBeginsKey self.old → EachBeginsKey self.new) }
        ensures same_keys_on_error { OnErr result (KeepsKeys self.old self.new) }
        ensures entries_kept_on_error { OnErr result (entries.new.items ≡ entries.old.items) }
        ensures adds { AddsFront self.old self.new key.now }
        ensures nodes { KeepsNodes self.old self.new }
    {
        let node = self.path(key, trail)?;
        self.invariant();
        let had = self.set_entries(node, entries)?;
        Ok(had)
    }

    // Gives a key the entries of a node as [`Trie::insert_as`] does, along the nodes of the key before. After an error the trail
    // is of no use.
    #[inline(always)]
    pub(crate) fn insert_as(
        &mut self,
        key: &[u8],
        trail: &mut Trail,
        like: usize,
    ) -> Result<bool, AllocError>
        requires trail { IsTrail self.old trail.old }
        requires like { IsSome (slice_index_or self.old.entries like None) }
        ensures trail { OnOk result (IsTrail self.new trail.new) }
        ensures key_set { OnOk result (SetsKey self.old self.new key.now (entries_of_node self.old like)) }
        ensures had { IfOk result (λ had. had ≡ is_some (entries_of_key self.old key.now)) }
        ensures begins { OnOk result (EachBeginsKey self.old → EachBeginsKey self.new) }
        ensures same_keys_on_error { OnErr result (KeepsKeys self.old self.new) }
        ensures adds { AddsFront self.old self.new key.now }
        ensures nodes { KeepsNodes self.old self.new }
    {
        self.invariant();
        let node = self.path(key, trail)?;
        self.invariant();
        let had = self.share_entries(node, like);
        Ok(had)
    }

    // Returns the number of nodes, with the root. The last node is the one that was added last.
    pub(crate) fn count(&self) -> usize
        ensures { result ≡ length self.now.texts }
    {
        self.states.len()
    }

    // Returns the entries of a node. `None` if there is no such node, or if its text is not a key.
    pub(crate) fn entries_of_node(&self, node: usize) -> Option<&[E]>
        ensures { option_copied result ≡ slice_index_or self.now.entries node None }
    {
        if node < self.states.len() {
            let state = self.states[node];
            if state.is_key() {
                return Some(entries_in(&self.entries, state.span));
            }
        }
        None
    }

    // Gives proofs the invariant of a trie, and does nothing.
    pub(crate) fn invariant(&self)
        ensures { IsTrie self.now }
    {
        // Reading a field gives the proof the invariant of the type.
        let _nodes = &self.states;
    }

    // Returns the root: the node of the empty text.
    fn root(&self) -> u32
        ensures root { result ≡ 0 }
        ensures node { result < length self.now.texts }
        ensures text { node_text self.now result ≡ [] }
    {
        self.invariant();
        0
    }

    // Returns the parent of a node, whose number is less, and the byte that leads from the parent to the node.
    pub(crate) fn from(&self, node: usize) -> (usize, u8)
        requires { (0 < node) × (node < length self.now.texts) }
        ensures before { result.0 < node }
        ensures text { node_text self.now node ≡ node_text self.now result.0 ++ result.1 ∷ [] }
    {
        (
            self.children.parents[node] as usize,
            self.children.bytes[node],
        )
    }

    // Returns the last child of a node; 0 if it has none.
    pub(crate) fn last_child(&self, node: usize) -> u32
        requires { node < length self.now.texts }
        ensures { IsLastChild self.now node (length self.now.texts) result }
    {
        self.children.last[node]
    }

    // Returns the child before a child of a node; 0 if there is none.
    pub(crate) fn child_before(&self, child: usize) -> u32
        requires { child < length self.now.texts }
        ensures { IsChildBefore self.now child result }
    {
        self.children.before[child]
    }

    // Returns the child of a node at a byte, if it has one.
    #[inline(always)]
    pub(crate) fn child_of(&self, node: usize, byte: u8) -> Option<u32>
        requires { node < length self.now.texts }
        ensures found { IfSome result (λ j.
            (j < length self.now.texts) × (node_text self.now j ≡ node_text self.now node ++ byte ∷ [])) }
        ensures none { IfNone result ((j : ℕ) → j < length self.now.texts
            → node_text self.now j ≢ node_text self.now node ++ byte ∷ []) }
    {
        let mut child = self.children.last[node];
        while child != 0 {
            let at = self.children.bytes[child as usize];
            if at == byte {
                return Some(child);
            }
            if at < byte && self.children.in_order_from as usize <= node {
                // The children before this one have no greater byte.
                return None;
            }
            child = self.children.before[child as usize];
        }
        None
    }

    // Adds a child to a node, and returns it. The only error is out of memory.
    #[inline(always)]
    fn grow(&mut self, node: u32, byte: u8) -> Result<u32, AllocError>
        requires node { node < length self.old.texts }
        requires absent { (j : ℕ) → j < length self.old.texts
            → node_text self.old j ≢ node_text self.old node ++ byte ∷ [] }
        ensures child_added { IfOk result (λ j. (j ≡ length self.old.texts) × (self.new ≡ with_child self.old node byte)) }
        ensures unchanged_on_error { OnErr result (self.new ≡ self.old) }
    {
        let count = self.states.len();
        self.states.push(State::of_no_key())?;
        match self.children.add(node, byte) {
            Ok(child) => Ok(child),
            Err(error) => {
                // No state stays without its node.
                self.states.truncate(count);
                Err(error)
            }
        }
    }

    // Returns the child of a node at a byte, and adds it if there is none. The only error is out of memory.
    #[inline(always)]
    fn step(&mut self, node: u32, byte: u8) -> Result<u32, AllocError>
        requires { node < length self.old.texts }
        ensures child { IfOk result (λ j.
            (j < length self.new.texts) × (node_text self.new j ≡ node_text self.old node ++ byte ∷ [])) }
        ensures grows { Grows self.old self.new (node_text self.old node ++ byte ∷ []) }
    {
        match self.child_of(node as usize, byte) {
            Some(child) => Ok(child),
            None => self.grow(node, byte),
        }
    }

    // Returns the node of a text, and adds it if there is none, along the nodes of the key before. The only error is out of
    // memory; nodes may be added then.
    fn path(&mut self, text: &[u8], trail: &mut Trail) -> Result<u32, AllocError>
        requires { IsTrail self.old trail.old }
        ensures trail { OnOk result (IsTrail self.new trail.new) }
        ensures node { IfOk result (λ j. (j < length self.new.texts) × (node_text self.new j ≡ text.now)) }
        ensures keys_stay { KeepsKeys self.old self.new }
        ensures adds { AddsFront self.old self.new text.now }
        ensures nodes { KeepsNodes self.old self.new }
    {
        let known = trail.common(text);
        let mut node = if known == 0 {
            self.root()
        } else {
            trail.nodes[known - 1]
        };
        trail.key.truncate(known);
        trail.nodes.truncate(known);
        for at in known..text.len() {
            self.invariant();
            let byte = text[at];
            node = self.step(node, byte)?;
            push_both(&mut trail.key, byte, &mut trail.nodes, node)?;
        }
        Ok(node)
    }

    // Moves entries to a node, in place of the entries that it had, and returns whether its text was a key. The only error is
    // out of memory.
    #[inline(always)]
    fn set_entries(&mut self, node: u32, entries: &mut Vec<E>) -> Result<bool, AllocError>
        requires { node < length self.old.texts }
        ensures set { OnOk result (self.new ≡ with_entries self.old node entries.old.items) }
        ensures had { IfOk result (λ had. had ≡ is_some (entries_of_key self.old (node_text self.old node))) }
        ensures entries_moved { OnOk result (entries.new.items ≡ []) }
        ensures unchanged_on_error { OnErr result (self.new ≡ self.old) }
        ensures entries_kept_on_error { OnErr result (entries.new.items ≡ entries.old.items) }
    {
        let span = Span::of(self.entries.len(), entries.len())?;
        append_all(&mut self.entries, entries)?;
        Ok(self.states[node as usize].set_span(span))
    }

    // Gives a node the entries of another node, in place of the entries that it had, and returns whether its text was a key.
    fn share_entries(&mut self, node: u32, like: usize) -> bool
        requires node { node < length self.old.texts }
        requires like { IsSome (slice_index_or self.old.entries like None) }
        ensures set { self.new ≡ with_entries self.old node (entries_of_node self.old like) }
        ensures had { result ≡ is_some (entries_of_key self.old (node_text self.old node)) }
    {
        let span = self.states[like].span;
        self.states[node as usize].set_span(span)
    }
}
