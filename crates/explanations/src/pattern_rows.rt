//! The occurrences of keys in a text, found from each start in turn.
//!
//! From a start the search steps along the bytes while they begin a key. So it reads at most as many bytes of each start as
//! the longest key has, and one more.

ghost use Rattle.std.specs.Prelude.{◌≡◌, ◌+◌, ◌-◌, ◌*◌, ◌<◌, ◌≤◌, ◌^◌, ℕ, length, map, slice_range, IfOk, OnOk};
ghost use Rattle.hyphenation_breaks.specs.Dictionary.{entries_of_keys};
ghost use Rattle.hyphenation_trie.specs.Trie.{node_text, entries_of_key, EachBeginsKey};
ghost use Rattle.explanations.specs.Rows.{row_of, AreAllOccurrences, LiesWithin, LooksUpWithin, NoKeyIsLonger};
ghost use Rattle.explanations.specs.Private.Walking.{AreOccurrencesUpTo};

use hyphenation_breaks::breaks::Break;
use hyphenation_breaks::entry::{Entry, Payload};
use hyphenation_dictionary::dictionary::Dictionary;
use hyphenation_dictionary::search::automaton_of;
use hyphenation_trie::laws::keys_have_nodes;
use hyphenation_trie::{Automaton, LookUps};
use std::alloc::{AllocError, Global};

/// An occurrence of a key in a text, with the entries of the key.
///
/// All numbers count bytes. An entry's place counts from the key's first byte.
#[derive(Drop)]
pub struct Row<'d, C> {
    /// The place of the text at which the key occurs.
    pub start: usize,
    /// The number of bytes of the key.
    pub bytes: usize,
    /// The values at places of the key, in an extended dictionary each with a change or none.
    pub entries: &'d [Entry<C>],
}

// Returns the bytes of a text at which a row lies.
pub(crate) fn letters_of<'t, C>(text: &'t [u8], row: &Row<'_, C>) -> &'t [u8]
    requires { LiesWithin text.now (row_of row.now) }
    ensures { result.now ≡ slice_range text.now row.now.start (row.now.start + row.now.bytes) }
{
    &text[row.start..row.start + row.bytes]
}

// Adds a row if the text from `start` up to the byte number `at`, which is that of the node, is a key.
fn push_if_key<'d, C: Drop>(
    automaton: &'d Automaton<Entry<C>>,
    framed: &[u8],
    start: usize,
    at: usize,
    node: usize,
    rows: &mut Vec<Row<'d, C>>,
    count: &mut LookUps,
) -> Result<(), AllocError>
    requires begun { start ≤ at }
    requires within { at < length framed.now }
    requires node { node < length automaton.now.texts }
    requires text { node_text automaton.now node ≡ slice_range framed.now start (at + 1) }
    requires so_far { AreOccurrencesUpTo (entries_of_key automaton.now) framed.now start at (map row_of rows.old.items) }
    requires room { count.old.reported + 1 < 2 ^ 128 }
    ensures rows { OnOk result (AreOccurrencesUpTo (entries_of_key automaton.now) framed.now start (at + 1)
        (map row_of rows.new.items)) }
    ensures made { count.new.made ≡ count.old.made }
    ensures reported { count.new.reported ≤ count.old.reported + 1 }
{
    automaton.invariant();
    if automaton.report(node) != node {
        return Ok(());
    }
    let entries = automaton.entries(node, count);
    let bytes = at - start + 1;
    rows.push(Row {
        start,
        bytes,
        entries,
    })?;
    Ok(())
}

// Adds a row for each key that occurs from `start` on, the shorter ones first.
fn push_rows_from<'d, C: Drop>(
    automaton: &'d Automaton<Entry<C>>,
    framed: &[u8],
    start: usize,
    rows: &mut Vec<Row<'d, C>>,
    count: &mut LookUps,
) -> Result<(), AllocError>
    requires begins { EachBeginsKey automaton.now }
    requires start { start < length framed.now }
    requires short { length framed.now < 2 ^ 63 }
    requires so_far { AreOccurrencesUpTo (entries_of_key automaton.now) framed.now start start (map row_of rows.old.items) }
    requires made { count.old.made ≤ 2 ^ 127 }
    requires reported { count.old.reported ≤ 2 ^ 127 }
    ensures rows { OnOk result (AreOccurrencesUpTo (entries_of_key automaton.now) framed.now (start + 1) (start + 1)
        (map row_of rows.new.items)) }
    ensures made { count.new.made ≤ count.old.made + (2 * length framed.now + 2) }
    ensures made_by_longest { (longest : ℕ) → NoKeyIsLonger (entries_of_key automaton.now) longest →
        count.new.made ≤ count.old.made + (2 * longest + 2) }
    ensures reported { count.new.reported ≤ count.old.reported + length framed.now }
{
    automaton.invariant();
    keys_have_nodes::<Entry<C>>();
    let mut node = automaton.root();
    for at in start..framed.len() {
        let next = automaton.step(node, framed[at], count);
        if automaton.depth(next) <= at - start {
            return Ok(());
        }
        push_if_key(automaton, framed, start, at, next, rows, count)?;
        node = next;
    }
    Ok(())
}

// Returns the occurrences of the keys of an automaton.
fn rows_in<'d, C: Drop>(
    alloc: Global,
    automaton: &'d Automaton<Entry<C>>,
    framed: &[u8],
    count: &mut LookUps,
) -> Result<Vec<Row<'d, C>>, AllocError>
    requires begins { EachBeginsKey automaton.now }
    requires short { length framed.now < 2 ^ 63 }
    requires made { count.old.made ≤ 2 ^ 64 }
    requires reported { count.old.reported ≤ 2 ^ 64 }
    ensures rows { IfOk result (λ rows.
        AreAllOccurrences (entries_of_key automaton.now) framed.now (map row_of rows.items)) }
    ensures look_ups { LooksUpWithin (entries_of_key automaton.now) (length framed.now) count.old.made count.new.made }
{
    let mut rows = Vec::new(alloc);
    for start in 0..framed.len() {
        push_rows_from(automaton, framed, start, &mut rows, count)?;
    }
    Ok(rows)
}

/// Returns a row for each occurrence of a key in a text and for nothing else. They are in the order of their starts
/// and, from one start, of their lengths.
///
/// The text is the frame of a word: the word between two dots. Look-ups are counted: for each byte of the text there are
/// at most twice as many as the longest key has bytes, and two more. The only error is out of memory.
///
/// ```text
/// rows(alloc, &dictionary, ".firkins.", &mut count)?    // the five rows drawn above
/// ```
pub fn rows<'d, C: Payload, B: Break>(
    alloc: Global,
    dictionary: &'d Dictionary<C, B>,
    framed: &str,
    count: &mut LookUps,
) -> Result<Vec<Row<'d, C>>, AllocError>
    requires made { count.old.made ≤ 2 ^ 64 }
    requires reported { count.old.reported ≤ 2 ^ 64 }
    ensures rows { IfOk result (λ rows.
        AreAllOccurrences (entries_of_keys dictionary.now) framed.now (map row_of rows.items)) }
    ensures look_ups { LooksUpWithin (entries_of_keys dictionary.now) (length framed.now) count.old.made count.new.made }
{
    rows_in(alloc, automaton_of(dictionary), framed.as_bytes(), count)
}
