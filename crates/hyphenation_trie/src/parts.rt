//! The keys of a trie, for the crates that write dictionary texts.
//!
//! No search calls this module, and no crate exports it to users. A search reaches the entries of a key only by the
//! counted calls of [`Automaton`].

ghost use Rattle.std.specs.Prelude.{◌≡◌, IfOk};
ghost use Rattle.hyphenation_trie.specs.Keys.{pairs_of, key_views};

use crate::Automaton;
use std::alloc::{AllocError, Global};

/// Returns the keys of a trie, each with its entries, in no particular order. The only error is out of memory.
pub fn keys_of<E: Drop>(
    automaton: &Automaton<E>,
    alloc: Global,
) -> Result<Vec<(Vec<u8>, &[E])>, AllocError>
    ensures { IfOk result (λ keys. key_views keys.items ≡ pairs_of automaton.now.texts automaton.now.entries) }
{
    automaton.trie.keys(alloc)
}
