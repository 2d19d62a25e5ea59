//! The classes of bytes.

ghost use Rattle.std.specs.Prelude.{IfSome};
ghost use Rattle.hyphenation_trie.specs.Private.Known.{AreClasses};

use crate::Automaton;

// Returns the class of each byte, and a quarter of the width of a row, which has a cell for each class. `None` if the nodes
// have all 256 bytes.
pub(super) fn classes_of<E: Drop>(automaton: &Automaton<E>) -> Option<([u8; 256], usize)>
    ensures { IfSome result (λ found. AreClasses automaton.now.texts found.0 found.1) }
{
    automaton.invariant();
    let mut classes = [0u8; 256];
    let mut last = 0u8;
    for node in 1..automaton.trie.count() {
        let (_, byte) = automaton.trie.from(node);
        if classes[byte as usize] == 0 {
            if last == u8::MAX {
                return None;
            }
            last += 1;
            classes[byte as usize] = last;
        }
    }
    Some((classes, last as usize / 4 + 1))
}
