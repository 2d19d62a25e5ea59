//! The patterns of a dictionary, for the crates that score words.

ghost use Rattle.std.specs.Prelude.{◌≡◌, List, ℕ, IfSome, option_copied};
ghost use Rattle.hyphenation_breaks.specs.Dictionary.{entries_of_keys};
ghost use Rattle.hyphenation_trie.specs.Tables.{IsTableOf};
ghost use Rattle.hyphenation_trie.specs.Trie.{entries_of_key, EachBeginsKey};

use crate::dictionary::Dictionary;
use hyphenation_breaks::breaks::Break;
use hyphenation_breaks::entry::{Entry, Payload};
use hyphenation_trie::Automaton;
use hyphenation_trie::table::Table;

/// Returns the keys of a dictionary with their entries, ready to be found in words. Each node but the root begins a key.
pub fn automaton_of<C: Payload, B: Break>(dictionary: &Dictionary<C, B>) -> &Automaton<Entry<C>>
    ensures known { (text : List ℕ) → entries_of_keys dictionary.now text ≡ entries_of_key result.now text }
    ensures begins { EachBeginsKey result.now }
{
    patterns_of(dictionary).0
}

/// Returns the keys of a dictionary as [`automaton_of`] does, with their table of steps if they can have one.
pub fn patterns_of<C: Payload, B: Break>(
    dictionary: &Dictionary<C, B>,
) -> (&Automaton<Entry<C>>, Option<&Table>)
    ensures known { (text : List ℕ) → entries_of_keys dictionary.now text ≡ entries_of_key result.0.now text }
    ensures begins { EachBeginsKey result.0.now }
    ensures table { IfSome (option_copied result.1) (λ table. IsTableOf C.rank_of (entries_of_key result.0.now) table) }
{
    dictionary.patterns.invariant();
    (&dictionary.patterns, dictionary.table.as_ref())
}
