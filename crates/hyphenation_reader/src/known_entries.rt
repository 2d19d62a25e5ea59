//! Entries that an earlier key has, too. Keys with equal entries have them in common, so that these take less memory.

ghost use Rattle.std.specs.Prelude.{◌≡◌, None, Some, IfOk, IfSome, OnOk, is_some, slice_index_or, true};
ghost use Rattle.hyphenation_trie.specs.Trie.{entries_of_key, EachBeginsKey, SetsKey};

use hyphenation_breaks::entry::{Entry, Payload};
use hyphenation_grammar::form::Kind;
use hyphenation_trie::Trie;
use std::alloc::{AllocError, Global};

// The number of slots. Texts of patterns have some hundred different lists of entries.
const SLOTS: usize = 1024;

// For each slot the node of a key that may have the entries looked for. It guides a search and proves nothing.
#[derive(Drop)]
pub(crate) struct KnownEntries {
    nodes: Vec<usize>,
}

impl KnownEntries {
    // Knows no entries yet: the root, which is there in their place, is no key. The only error is out of memory.
    //
    // Entries of a standard dictionary have 8 bytes. To look for equal ones would save little and take longer.
    pub(crate) fn new(alloc: Global, kind: Kind) -> Result<KnownEntries, AllocError> {
        let slots = match kind {
            Kind::Standard => 0,
            Kind::Extended => SLOTS,
        };
        let nodes = vec![in alloc; 0usize; slots]?;
        Ok(KnownEntries { nodes })
    }

    // Whether entries are not remembered.
    fn is_empty(&self) -> bool {
        self.nodes.is_empty()
    }

    // Returns the node of a slot.
    fn node(&self, slot: usize) -> usize {
        if slot < self.nodes.len() {
            return self.nodes[slot];
        }
        0
    }

    // Sets the node of a slot.
    fn set_node(&mut self, slot: usize, node: usize) {
        if slot < self.nodes.len() {
            self.nodes[slot] = node;
        }
    }
}

// Returns the slot of entries: a hash of their number, and of the first and the last of them.
fn slot_of<C: Payload>(entries: &[Entry<C>]) -> usize {
    let count = entries.len();
    if count == 0 {
        return 0;
    }
    let first = &entries[0];
    let last = &entries[count - 1];
    let places = first.place as usize * 16 + last.place as usize * 64;
    (places + first.value as usize + last.value as usize * 4 + count % 64) % SLOTS
}

// Whether two lists of entries are equal.
fn are_same<C: Payload>(entries: &[Entry<C>], others: &[Entry<C>]) -> bool
    ensures { result ≡ true → entries.now ≡ others.now }
{
    if entries.len() != others.len() {
        return false;
    }
    for i in 0..entries.len() {
        if !entries[i].is_same(&others[i]) {
            return false;
        }
    }
    true
}

// Returns the node, if it has these very entries.
fn node_with<C: Payload>(trie: &Trie<Entry<C>>, node: usize, entries: &[Entry<C>]) -> Option<usize>
    ensures { IfSome result (λ like. slice_index_or trie.now.entries like None ≡ Some entries.now) }
{
    match trie.entries_of_node(node) {
        Some(held) => {
            if are_same(held, entries) {
                Some(node)
            } else {
                None
            }
        }
        None => None,
    }
}

// Gives a key entries that no other one is known to have, and returns whether it was a key.
fn insert_new<C: Payload>(
    trie: &mut Trie<Entry<C>>,
    known: &mut KnownEntries,
    slot: usize,
    key: &[u8],
    entries: &mut Vec<Entry<C>>,
) -> Result<bool, AllocError>
    ensures key_set { OnOk result (SetsKey trie.old trie.new key.now entries.old.items) }
    ensures had { IfOk result (λ had. had ≡ is_some (entries_of_key trie.old key.now)) }
    ensures begins { OnOk result (EachBeginsKey trie.old → EachBeginsKey trie.new) }
{
    let had = trie.insert(key, entries)?;
    // Most keys end at the node that was added last.
    known.set_node(slot, trie.count().saturating_sub(1));
    Ok(had)
}

// Gives a key entries, in place of its old ones, and returns whether it was a key. The list means nothing then.
pub(crate) fn insert_pattern<C: Payload>(
    trie: &mut Trie<Entry<C>>,
    known: &mut KnownEntries,
    key: &[u8],
    entries: &mut Vec<Entry<C>>,
) -> Result<bool, AllocError>
    ensures key_set { OnOk result (SetsKey trie.old trie.new key.now entries.old.items) }
    ensures had { IfOk result (λ had. had ≡ is_some (entries_of_key trie.old key.now)) }
    ensures begins { OnOk result (EachBeginsKey trie.old → EachBeginsKey trie.new) }
{
    if known.is_empty() {
        let had = trie.insert(key, entries)?;
        return Ok(had);
    }
    let slot = slot_of(entries);
    match node_with(trie, known.node(slot), entries) {
        Some(like) => trie.insert_as(key, like),
        None => insert_new(trie, known, slot, key, entries),
    }
}
