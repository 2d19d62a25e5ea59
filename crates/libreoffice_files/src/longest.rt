//! Patterns as LibreOffice reads them, and whether TeX reads them alike.
//!
//! In TeX all patterns count that occur in a word. LibreOffice takes, at each letter, the longest text that ends there
//! and begins some pattern. Only this text counts, if it is a pattern itself:
//!
//! ```text
//!   patterns a1b and xab2c, word xaby
//!   TeX:          after xab the pattern a1b counts       xa1by
//!   LibreOffice:  after xab the longest beginning is xab, which is no pattern, so nothing counts
//! ```
//!
//! So xab2c hides the value of a1b from LibreOffice. Where no pattern hides a value, both read every word alike.

ghost use Rattle.std.specs.Prelude.{◌≡◌, ◌+◌, ◌<◌, ◌==◌, nat_lt, ℕ, List, [], length, filter, unwrap_or, IsSome};
ghost use Rattle.std.specs.List.{list_any};
ghost use Rattle.hyphenation_trie.specs.Trie.{node_text, entries_of_key};
ghost use Rattle.hyphenation_score.specs.Scoring.{greatest_value};
ghost use Rattle.libreoffice_files.specs.Longest.{is_exceeded, hides_value, ClosedReadAlike};

use hyphenation_breaks::entry::Entry;
use hyphenation_score::laws::{value_is_borne, value_is_greatest};
use hyphenation_trie::{Automaton, LookUps};

// The greatest value that entries give to the place `start + place`, in bytes; 0 if none gives any.
fn value_at<C>(entries: &[Entry<C>], start: usize, place: u32) -> u8
    ensures { result ≡ greatest_value (filter (λ entry. entry.place == start + place) entries.now) }
{
    let mut value = 0;
    for entry in entries {
        let is_there = (entry.place as usize).checked_sub(start) == Some(place as usize);
        if is_there && value < entry.value {
            value = entry.value;
        }
    }
    value
}

// Whether the entries of a pattern that ends a text, from `start` on, give some place more than the text's own entries.
fn exceed<C>(ending: &[Entry<C>], start: usize, own: &[Entry<C>]) -> bool
    ensures { result ≡ list_any (λ entry. nat_lt
        (greatest_value (filter (λ e. e.place == start + entry.place) own.now)) entry.value) ending.now }
{
    ending
        .iter()
        .any(|entry| value_at(own, start, entry.place) < entry.value)
}

// The entries of a node's text; none if it is no key.
fn own_entries<C: Drop>(automaton: &Automaton<Entry<C>>, node: usize) -> &[Entry<C>]
    requires { (0 < node) × (node < length automaton.now.texts) }
    ensures { result.now ≡ unwrap_or (entries_of_key automaton.now (node_text automaton.now node)) [] }
{
    automaton.invariant();
    if automaton.report(node) == node {
        automaton.entries(node, &mut LookUps::new())
    } else {
        &[]
    }
}

// Whether a shorter pattern that ends a node's text gives some place more than the text itself.
fn is_exceeded<C: Drop>(automaton: &Automaton<Entry<C>>, node: usize) -> bool
    requires { node < length automaton.now.texts }
    ensures { result ≡ is_exceeded (entries_of_key automaton.now) (node_text automaton.now node) }
{
    automaton.invariant();
    if node == 0 {
        return false;
    }
    let own = own_entries(automaton, node);
    let mut ending = automaton.next_report(node);
    while ending != 0 {
        let start = automaton.depth(node) - automaton.depth(ending);
        if exceed(automaton.entries(ending, &mut LookUps::new()), start, own) {
            return true;
        }
        ending = automaton.next_report(ending);
    }
    false
}

/// Reports whether a pattern hides a value of a shorter one from LibreOffice. A text that is no pattern gets no
/// promise.
pub fn hides_value<C: Drop>(automaton: &Automaton<Entry<C>>, key: &[u8]) -> bool
    ensures { IsSome (entries_of_key automaton.now key.now) → result ≡ hides_value (entries_of_key automaton.now) key.now }
{
    automaton.invariant();
    let mut node = automaton.root();
    for byte in key {
        node = automaton.step(node, *byte, &mut LookUps::new());
        if is_exceeded(automaton, node) {
            return true;
        }
    }
    false
}

/// A law: in closed patterns, of which none hides a value, the longest beginnings give each place the greatest value
/// over all patterns.
pub fn closed_patterns_read_alike<C>()
    ensures { ClosedReadAlike C }
{
    value_is_greatest::<C>();
    value_is_borne::<C>();
}
