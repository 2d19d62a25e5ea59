//! One pass over the frame of a word, in which the entries of the dictionary's keys compete for the word's places.
//!
//! The pass meets each key where it ends; of the keys that end at one byte it meets the longest first. Each place has a
//! slot. The type of the slots decides what is kept of the entries that bear on a place: the greatest value, or the
//! winner.

ghost use Rattle.std.specs.Prelude.{◌≡◌, ◌+◌, ◌-◌, ◌*◌, ◌<◌, ◌≤◌, ◌^◌, ◌++◌, ◌∷◌, [], length};
ghost use Rattle.hyphenation_trie.specs.Links.{IsLongest, keys_in};
ghost use Rattle.hyphenation_trie.specs.Trie.{node_text, entries_of_key, EachBeginsKey};
ghost use Rattle.hyphenation_score.specs.Counting.{CountsBy};
ghost use Rattle.hyphenation_score.specs.Private.OnePass.{bearing, entries_of_ends, bearers_by_ends, AreAfter};
ghost use Rattle.hyphenation_score.specs.Scoring.{frame};

use hyphenation_breaks::entry::Entry;
use hyphenation_trie::laws::{keys_have_nodes, longest_goes_on};
use hyphenation_trie::{Automaton, LookUps};

// A slot keeps something of the entries that have borne on its place so far.
pub(super) trait Slot<'d, C> {
    ghost use Rattle.hyphenation_breaks.specs.declared.entry.Entry.{Entry};

    // The facts that are known of a slot.
    ghost State: { Type 0 };

    // The state of a slot.
    ghost meaning: { Self → State };

    // The state after one more entry that bears on the place.
    ghost after: { State → Entry C → State };

    // Lets an entry that bears on the place compete for it.
    fn compete(&mut self, entry: &'d Entry<C>)
        ensures { meaning self.new ≡ after (meaning self.old) entry.now };
}

// Lets an entry of a key of `depth` bytes, which ends at `end`, compete for the place on which it bears, if there is
// one.
#[inline(always)]
fn compete_at_place<'d, C, S: Slot<'d, C>>(
    slots: &mut [S],
    end: usize,
    depth: usize,
    entry: &'d Entry<C>,
)
    requires depth { depth ≤ end }
    requires start { end - depth ≤ length slots.old + 2 }
    requires room { length slots.old + 1 < 2 ^ 63 }
    ensures { AreAfter S.meaning S.after slots.old (bearing (entry.now ∷ []) (end - depth)) slots.new }
{
    // The frame has a dot before the word, and the first place comes after the word's first byte. The difference from the
    // end is the same for all keys that end there, so it is taken first. The place is read before it, which saves a jump.
    let place = entry.place as usize;
    let at = end.wrapping_sub(2).wrapping_sub(depth).wrapping_add(place);
    if at < slots.len() {
        slots[at].compete(entry);
    }
}

// Lets the entries of a key of `depth` bytes that ends at `end` compete.
//
// Kept out of line: few keys have that many entries, and a loop here would take registers from the pass.
#[cold]
#[inline(never)]
fn compete_many_entries<'d, C, S: Slot<'d, C>>(
    entries: &'d [Entry<C>],
    end: usize,
    depth: usize,
    slots: &mut [S],
)
    requires depth { depth ≤ end }
    requires start { end - depth ≤ length slots.old + 2 }
    requires room { length slots.old + 1 < 2 ^ 63 }
    ensures { AreAfter S.meaning S.after slots.old (bearing entries.now (end - depth)) slots.new }
{
    for entry in entries {
        compete_at_place(slots, end, depth, entry);
    }
}

// Lets the entries of a key of `depth` bytes that ends at `end` compete. Most keys have one entry or two.
#[inline(always)]
fn compete_entries<'d, C, S: Slot<'d, C>>(
    entries: &'d [Entry<C>],
    end: usize,
    depth: usize,
    slots: &mut [S],
)
    requires depth { depth ≤ end }
    requires start { end - depth ≤ length slots.old + 2 }
    requires room { length slots.old + 1 < 2 ^ 63 }
    ensures { AreAfter S.meaning S.after slots.old (bearing entries.now (end - depth)) slots.new }
{
    match entries {
        [only] => compete_at_place(slots, end, depth, only),
        [first, second] => {
            compete_at_place(slots, end, depth, first);
            compete_at_place(slots, end, depth, second);
        }
        _ => compete_many_entries(entries, end, depth, slots),
    }
}

// Lets the entries of each key that ends the text of a node compete, where the text ends at `end` in the frame. Counts one
// report for each of these keys.
#[inline(always)]
fn compete_keys_at<'d, C: Drop, S: Slot<'d, C>>(
    automaton: &'d Automaton<Entry<C>>,
    from: usize,
    end: usize,
    slots: &mut [S],
    count: &mut LookUps,
)
    requires from { from < length automaton.now.texts }
    requires end { length (node_text automaton.now from) ≤ end }
    requires within { end ≤ length slots.old + 3 }
    requires short { length slots.old + 1 < 2 ^ 63 }
    requires room { count.old.reported + length (node_text automaton.now from) + 1 < 2 ^ 128 }
    ensures slots { AreAfter S.meaning S.after slots.old
        (entries_of_ends (entries_of_key automaton.now) (node_text automaton.now from) end) slots.new }
    ensures reported { count.new.reported
        ≡ count.old.reported + keys_in automaton.now (node_text automaton.now from)
        (length (node_text automaton.now from)) }
    ensures made { count.new.made ≡ count.old.made }
{
    automaton.invariant();
    let mut node = automaton.report(from);
    while node != 0 {
        let entries = automaton.entries(node, count);
        compete_entries(entries, end, automaton.depth(node), slots);
        node = automaton.next_report(node);
    }
}

// Reads one byte of a word's frame and lets the keys that end with it compete. Returns the node after the byte.
#[inline(always)]
fn read_byte<'d, C: Drop, S: Slot<'d, C>>(
    automaton: &'d Automaton<Entry<C>>,
    from: usize,
    byte: u8,
    end: usize,
    slots: &mut [S],
    count: &mut LookUps,
) -> usize
    requires from { from < length automaton.now.texts }
    requires end { length (node_text automaton.now from) + 1 ≤ end }
    requires within { end ≤ length slots.old + 3 }
    requires short { length slots.old + 1 < 2 ^ 63 }
    requires made { count.old.made ≤ 2 ^ 100 }
    requires reported { count.old.reported ≤ 2 ^ 127 }
    ensures longest { IsLongest automaton.now.texts (node_text automaton.now from ++ byte ∷ []) result }
    ensures slots { AreAfter S.meaning S.after slots.old
        (entries_of_ends (entries_of_key automaton.now) (node_text automaton.now result) end) slots.new }
    ensures least { count.old.made + 1 ≤ count.new.made }
    ensures most { count.new.made + length (node_text automaton.now result)
        ≤ count.old.made + length (node_text automaton.now from) + 2 }
    ensures alone { count.new.made ≤ count.old.made + length (node_text automaton.now from) + 1 }
    ensures reported { count.new.reported
        ≡ count.old.reported + keys_in automaton.now (node_text automaton.now result)
        (length (node_text automaton.now result)) }
{
    let node = automaton.step(from, byte, count);
    compete_keys_at(automaton, node, end, slots, count);
    node
}

// Lets the entries of all keys that occur in a word's frame compete, in one pass over the frame.
//
// There must be one slot for each place, from place 1 on. Each node of the automaton but the root must begin a key.
// Look-ups and reports are counted.
#[inline(always)]
pub(super) fn compete_in_frame<'d, C: Drop, S: Slot<'d, C>>(
    automaton: &'d Automaton<Entry<C>>,
    word: &[u8],
    slots: &mut [S],
    count: &mut LookUps,
)
    requires begins { EachBeginsKey automaton.now }
    requires made { count.old.made ≤ 2 ^ 64 }
    requires reported { count.old.reported ≤ 2 ^ 64 }
    requires places { length slots.old ≡ length word.now - 1 }
    ensures slots { AreAfter S.meaning S.after slots.old
        (bearers_by_ends (entries_of_key automaton.now) (frame word.now) (length word.now + 2)) slots.new }
    ensures counts { CountsBy (entries_of_key automaton.now) word.now count.old count.new (Unit {0}) }
{
    automaton.invariant();
    keys_have_nodes::<Entry<C>>();
    longest_goes_on::<Entry<C>>();
    // The frame has a dot before the word and one after it.
    let root = automaton.root();
    let mut node = read_byte(automaton, root, b'.', 1, slots, count);
    for at in 0..word.len() {
        node = read_byte(automaton, node, word[at], at + 2, slots, count);
    }
    let _last = read_byte(automaton, node, b'.', word.len() + 2, slots, count);
}
