//! The vectors of all nodes: the greatest ranks that the keys which end a node's text give to its last places.
//!
//! The keys that end a node's text are the keys that end its link's text, and the node's own text if it is a key. So the vector
//! of a node is that of its link, raised to the ranks of its own entries.

ghost use Rattle.std.specs.Prelude.{◌≡◌, ◌<◌, drop, length, IfOk, IfSome};
ghost use Rattle.hyphenation_trie.specs.Links.{IsLongest};
ghost use Rattle.hyphenation_trie.specs.Pairs.{CanBeFound, KeepsPairs};
ghost use Rattle.hyphenation_trie.specs.Private.Known.{AreByDepth, AreKnown, IsRaisedBy};
ghost use Rattle.hyphenation_trie.specs.Private.Vectors.{IsKnownAt};
ghost use Rattle.hyphenation_trie.specs.Trie.{node_text};
ghost use Rattle.hyphenation_trie.specs.Vectors.{AreNearEntries};

use super::pairs::Pairs;
use crate::Automaton;
use hyphenation_breaks::entry::{Entry, Payload};
use std::alloc::{AllocError, Global};

// The vectors of all nodes. Nodes with equal vectors and counts have one number.
#[derive(Drop)]
pub(super) struct Known {
    // The number of each node.
    pub(super) numbers: Vec<u32>,
    // The vector of each number.
    pub(super) vectors: Vec<[u8; 16]>,
    // The number of keys that end the text of a node, for each number.
    pub(super) counts: Vec<u32>,
}

// Returns a vector raised to the ranks of the entries of a key with that many bytes. `None` if an entry is more than 15
// bytes before the key's end, or past it, or has a rank above 255.
fn raised_by<C: Payload>(vector: &[u8; 16], entries: &[Entry<C>], bytes: usize) -> Option<[u8; 16]>
    requires lanes { length vector.now ≡ 16 }
    ensures raised { IfSome result (λ new. IsRaisedBy C.rank_of vector.now new entries.now bytes) }
    ensures near { IfSome result (λ new. AreNearEntries entries.now bytes) }
{
    let mut raised = *vector;
    for entry in entries {
        let place = entry.place as usize;
        if place > bytes || bytes - place > 15 {
            return None;
        }
        let rank = entry.change.rank(entry.value)?;
        let lane = 15 - (bytes - place);
        if raised[lane] < rank {
            raised[lane] = rank;
        }
    }
    Some(raised)
}

// Returns the link of a node.
fn link_of<C: Payload>(automaton: &Automaton<Entry<C>>, node: usize) -> usize
    requires { node < length automaton.now.texts }
    ensures { IsLongest automaton.now.texts (drop 1 (node_text automaton.now node)) result }
{
    automaton.trie.links(node).link as usize
}

// Returns the number of a node, given its link and the link's number. A node that is no key has that number, too.
// `None` if an entry is more than 15 bytes before the key's end, or past it, or has a rank above 255. So it is if there
// would be more than 4,096 pairs. The only error is out of memory.
fn number_of<C: Payload>(
    automaton: &Automaton<Entry<C>>,
    node: usize,
    link: usize,
    number: u32,
    pairs: &mut Pairs,
) -> Result<Option<u32>, AllocError>
    requires node { (0 < node) × (node < length automaton.now.texts) }
    requires link { IsLongest automaton.now.texts (drop 1 (node_text automaton.now node)) link }
    requires known { IsKnownAt C.rank_of automaton.now pairs.old.vectors.items pairs.old.counts.items number link }
    requires pairs { CanBeFound pairs.old }
    ensures pairs { CanBeFound pairs.new }
    ensures kept { KeepsPairs pairs.old.vectors.items pairs.old.counts.items pairs.new.vectors.items
        pairs.new.counts.items }
    ensures known { IfOk result (λ made. IfSome made
        (λ number. IsKnownAt C.rank_of automaton.now pairs.new.vectors.items pairs.new.counts.items number node)) }
{
    automaton.invariant();
    let Some(entries) = automaton.trie.entries(node) else {
        return Ok(Some(number));
    };
    let number = number as usize;
    let Some(count) = pairs.counts[number].checked_add(1) else {
        return Ok(None);
    };
    let Some(raised) = raised_by(&pairs.vectors[number], entries, automaton.depth(node)) else {
        return Ok(None);
    };
    pairs.find_or_add(&raised, count)
}

// Returns the vectors of all nodes, given the nodes by their depths. `None` if an entry is more than 15 bytes before
// its key's end, or past it, or has a rank above 255. So it is if there are more than 4,096 numbers. The only error is
// out of memory.
pub(super) fn known_of_all<C: Payload>(
    alloc: Global,
    automaton: &Automaton<Entry<C>>,
    order: &[u32],
) -> Result<Option<Known>, AllocError>
    requires order { AreByDepth automaton.now.texts order.now }
    ensures { IfOk result (λ made. IfSome made
        (λ known. AreKnown C.rank_of automaton.now known.numbers.items known.vectors.items known.counts.items)) }
{
    automaton.invariant();
    let mut numbers = vec![in alloc; 0u32; automaton.trie.count()]?;
    let mut pairs = Pairs::new(alloc)?;
    // The root's pair need not be found again: the count of a key is not 0.
    pairs.add(&[0; 16], 0)?;
    for node in order {
        let node = *node as usize;
        let link = link_of(automaton, node);
        let number = numbers[link];
        match number_of(automaton, node, link, number, &mut pairs)? {
            Some(number) => numbers[node] = number,
            None => return Ok(None),
        }
    }
    let Pairs {
        vectors,
        counts,
        ..
    } = pairs;
    Ok(Some(Known {
        numbers,
        vectors,
        counts,
    }))
}
