//! Laws of the finite map that the keys of a trie make.
//!
//! Each function here does nothing: its contract is a law, which the check proves.

ghost use Rattle.hyphenation_dictionary.specs.Laws.{KeysAreLookedUp, InsertedKeyIsAdded};

/// The map of a trie's keys has exactly these keys, with their entries.
pub fn keys_are_looked_up<E>()
    ensures { KeysAreLookedUp E }
{}

/// If two tries differ only by the entries of one key, their maps differ only by that key.
pub fn inserted_key_is_added<E>()
    ensures { InsertedKeyIsAdded E }
{}
