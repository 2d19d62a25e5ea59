//! A trie: a tree that holds keys by the bytes that they share.
//!
//! Each node has a text, and the root has the empty one. A step along a byte leads from a node to its child, whose text
//! has that byte at its end. If the text of a node is a key, the node has the key's entries. Here are the keys `ir`, `rk`
//! and `rkin`, whose nodes are marked:
//!
//! ```text
//!             root
//!         i /      \ r
//!         i          r
//!       r |          | k
//!        [ir]       [rk]
//!                    | i
//!                   rki
//!                    | n
//!                  [rkin]
//! ```
//!
//! A [`Trie`] grows key by key. [`Trie::freeze`] makes an [`Automaton`] of it, which does not grow. An automaton finds
//! the keys that occur in a word in one pass over the word's bytes.
//!
//! Nodes are numbers below the number of texts, which contracts call `length texts`. A node keeps its number while the trie
//! grows, and in the automaton.
#![tactic(auto)]

ghost use Rattle.std.specs.Prelude.{◌≡◌, ◌<◌, ◌≤◌, ◌^◌, IfOk, OnErr, OnOk};

mod automaton;
mod chains;
mod children;
mod depths;
mod frozen;
mod growing;
pub mod laws;
mod lists;
mod look_ups;
pub mod parts;
pub mod register;
mod state;
pub mod table;
mod trail;
mod trie;

pub use automaton::Automaton;
pub use look_ups::LookUps;
use std::alloc::AllocError;
pub use trie::Trie;

/// Returns a number in 32 bits, as a dictionary holds the numbers of its nodes, cells and entries, and places in keys.
///
/// Numbers from 2^32 on are above this limit: the error is then the one of refused memory, though no memory was refused.
pub fn to_u32(number: usize) -> Result<u32, AllocError>
    ensures same_number { IfOk result (λ held. held ≡ number) }
    ensures refused_from_limit { OnErr result (2 ^ 32 ≤ number) }
{
    test_u32(number)?;
    Ok(number as u32)
}

/// Tests that a number is below 2^32, with the error of [`to_u32`] if it is not. A number that is tested and then cast takes
/// fewer instructions than one that is put into a result and taken out again.
#[inline(always)]
pub fn test_u32(number: usize) -> Result<(), AllocError>
    ensures below_limit { OnOk result (number < 2 ^ 32) }
    ensures refused_from_limit { OnErr result (2 ^ 32 ≤ number) }
{
    if number <= u32::MAX as usize {
        Ok(())
    } else {
        Err(AllocError)
    }
}
