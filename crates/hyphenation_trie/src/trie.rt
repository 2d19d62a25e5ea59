//! A trie that grows by keys with their entries, inserted one after the other.

ghost use Rattle.std.specs.Prelude.{◌≡◌, [], ◌∷◌, length, None, IfOk, OnOk, OnErr, is_some, option_copied, slice_index_or, IsSome};
ghost use Rattle.hyphenation_trie.specs.Trie.{entries_of_key, entries_of_node, IsTrie, AddsFront, KeepsNodes, KeepsKeys, SetsKey, EachBeginsKey};

use crate::growing::Growing;
use crate::trail::Trail;
use std::alloc::{AllocError, Global};
use std::fmt;
use std::marker::Model;

/// Keys, each with its entries, to which more can be added.
///
/// Keys that are inserted in the order of their bytes take the fewest steps: no child is looked up for the bytes with which a
/// key and the key before it both begin.
pub struct Trie<E> {
    pub(crate) nodes: Growing<E>,
    // The nodes along the key that was inserted last.
    pub(crate) trail: Trail,
}

// It drops each field, as the derived implementation would. The proof of a function that drops a trie has one step for
// this call. With the derived implementation it has a step for each list of the trie.
impl<E: Drop> Drop for Trie<E> {
    fn drop(self) {
        let Trie { nodes, trail } = self;
        drop(nodes);
        drop(trail);
    }
}

impl<E> Model for Trie<E> {
    ghost use Rattle.hyphenation_trie.specs.Trie.{Tree};
    ghost use Rattle.hyphenation_trie.specs.Private.Trail.{IsTrail};

    ghost Value = { Tree E };

    ghost view = { λ t. t.nodes };

    ghost invariant = { λ t. IsTrail t.nodes t.trail };
}

impl<E: Drop> Trie<E> {
    /// Returns a trie without keys, which has only the root. The only error is out of memory.
    ///
    /// ```text
    /// let mut trie = Trie::new(alloc)?;
    /// trie.insert(b"rk", &mut entries)?;      // false: `rk` was not a key
    /// let automaton = trie.freeze(alloc)?;
    /// ```
    pub fn new(alloc: Global) -> Result<Self, AllocError>
        ensures { IfOk result (λ trie. trie ≡ record { texts = [] ∷ []; entries = None ∷ [] }) }
    {
        Self::with_room(alloc, 0)
    }

    /// Returns a trie without keys, with room for `nodes` nodes. The only error is out of memory.
    ///
    /// Room that is not used costs addresses and no memory, and saves copies when the trie grows.
    pub fn with_room(alloc: Global, nodes: usize) -> Result<Self, AllocError>
        ensures { IfOk result (λ trie. trie ≡ record { texts = [] ∷ []; entries = None ∷ [] }) }
    {
        let nodes = Growing::with_room(alloc, nodes)?;
        Ok(Trie {
            nodes,
            trail: Trail::new(alloc),
        })
    }

    /// Moves entries to a key, in place of the entries that it had, and returns whether it was a key.
    ///
    /// No other key changes. The list of entries is empty then, and can be filled again. The only error is out of
    /// memory, also if the trie would have 2^32 nodes or entries. It leaves each key and the list as they were.
    #[inline(always)]
    pub fn insert(&mut self, key: &[u8], entries: &mut Vec<E>) -> Result<bool, AllocError>
        ensures key_set { OnOk result (SetsKey self.old self.new key.now entries.old.items) }
        ensures had { IfOk result (λ had. had ≡ is_some (entries_of_key self.old key.now)) }
        ensures entries_moved { OnOk result (entries.new.items ≡ []) }
        ensures begins { OnOk result (EachBeginsKey self.old → EachBeginsKey self.new) }
        ensures same_keys_on_error { OnErr result (KeepsKeys self.old self.new) }
        ensures entries_kept_on_error { OnErr result (entries.new.items ≡ entries.old.items) }
        ensures adds { AddsFront self.old self.new key.now }
        ensures nodes { KeepsNodes self.old self.new }
    {
        match self.nodes.insert(key, &mut self.trail, entries) {
            Ok(had) => Ok(had),
            Err(error) => {
                self.trail.clear();
                Err(error)
            }
        }
    }

    /// Gives a key the entries of a node, in place of the entries that it had, and returns whether it was a key.
    ///
    /// The text of the node `like` is a key. Both have the entries in common then, so that they take no more memory. No other
    /// key changes. The only error is out of memory, also if the trie would have 2^32 nodes. It leaves each key as it was.
    ///
    /// ```text
    /// trie.insert(b"rk", &mut entries)?;
    /// let like = trie.count() - 1;        // the node of `rk`
    /// trie.insert_as(b"kin", like)?;      // `kin` has the entries of `rk`, too
    /// ```
    #[inline(always)]
    pub fn insert_as(&mut self, key: &[u8], like: usize) -> Result<bool, AllocError>
        requires { IsSome (slice_index_or self.old.entries like None) }
        ensures key_set { OnOk result (SetsKey self.old self.new key.now (entries_of_node self.old like)) }
        ensures had { IfOk result (λ had. had ≡ is_some (entries_of_key self.old key.now)) }
        ensures begins { OnOk result (EachBeginsKey self.old → EachBeginsKey self.new) }
        ensures same_keys_on_error { OnErr result (KeepsKeys self.old self.new) }
        ensures adds { AddsFront self.old self.new key.now }
        ensures nodes { KeepsNodes self.old self.new }
    {
        match self.nodes.insert_as(key, &mut self.trail, like) {
            Ok(had) => Ok(had),
            Err(error) => {
                self.trail.clear();
                Err(error)
            }
        }
    }

    /// Returns the number of nodes, with the root. The last node is the one that was added last.
    pub fn count(&self) -> usize
        ensures { result ≡ length self.now.texts }
    {
        self.nodes.count()
    }

    /// Returns the entries of a node. `None` if there is no such node, or if its text is not a key.
    pub fn entries_of_node(&self, node: usize) -> Option<&[E]>
        ensures { option_copied result ≡ slice_index_or self.now.entries node None }
    {
        self.nodes.entries_of_node(node)
    }

    // Returns the nodes, which need no trail any more.
    pub(crate) fn into_nodes(self) -> Growing<E>
        ensures { result ≡ self }
    {
        let Trie { nodes, trail } = self;
        drop(trail);
        nodes
    }

    /// Gives proofs the invariant of a trie, and does nothing.
    pub fn invariant(&self)
        ensures { IsTrie self.now }
    {
        self.nodes.invariant();
    }
}

impl<E> fmt::Debug for Trie<E> {
    fn fmt<W: fmt::Write>(&self, f: &mut fmt::Formatter<W>) -> fmt::Result {
        f.debug_struct("Trie")
            .field("nodes", &self.nodes.states.len())
            .finish()
    }
}
