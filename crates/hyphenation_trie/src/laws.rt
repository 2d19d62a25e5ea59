//! Laws of tries, and of the links by which one pass over a text meets all keys in it.
//!
//! Each function here does nothing: its contract is a law, which the check proves.

ghost use Rattle.hyphenation_trie.specs.Laws.{KeysHaveNodes, LongestGoesOn, LongestHasReport, TableBegins};

/// Each key is the text of a node.
pub fn keys_have_nodes<E>()
    ensures { KeysHaveNodes E }
{}

/// The node with the longest text that ends a text leads to the one with the longest text that ends it with one more byte.
pub fn longest_goes_on<E>()
    ensures { LongestGoesOn E }
{}

/// The longest key that ends a text ends also the longest text of a node that ends it.
pub fn longest_has_report<E>()
    ensures { LongestHasReport E }
{}

/// The first row of a table of steps goes on from the empty text. No entry of the table's keys is far from its key's
/// end.
pub fn table_begins<C>()
    ensures { TableBegins C }
{}
