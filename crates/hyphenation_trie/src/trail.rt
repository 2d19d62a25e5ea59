//! The nodes along a key, so that the next key needs no look-ups for the bytes that both begin with.

ghost use Rattle.std.specs.Prelude.{◌≡◌, ◌≤◌, [], length, take};

use std::alloc::Global;

// The key that was inserted last, and the node of each of its beginnings.
#[derive(Drop)]
pub(crate) struct Trail {
    pub(crate) key: Vec<u8>,
    pub(crate) nodes: Vec<u32>,
}

impl Trail {
    // Returns the trail of the empty key.
    pub(crate) fn new(alloc: Global) -> Trail
        ensures key { result.key.items ≡ [] }
        ensures nodes { result.nodes.items ≡ [] }
    {
        Trail {
            key: Vec::new(alloc),
            nodes: Vec::new(alloc),
        }
    }

    // Makes it the trail of the empty key, which is one of each trie.
    pub(crate) fn clear(&mut self)
        ensures key { self.new.key.items ≡ [] }
        ensures nodes { self.new.nodes.items ≡ [] }
    {
        self.key.clear();
        self.nodes.clear();
    }

    // Returns the number of bytes with which the key and a text begin both.
    #[inline(always)]
    pub(crate) fn common(&self, text: &[u8]) -> usize
        ensures in_key { result ≤ length self.now.key.items }
        ensures in_text { result ≤ length text.now }
        ensures same { take result text.now ≡ take result self.now.key.items }
    {
        let most = text.len().min(self.key.len());
        for at in 0..most {
            if text[at] != self.key[at] {
                return at;
            }
        }
        most
    }
}
