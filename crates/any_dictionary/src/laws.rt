//! Laws of dictionary texts.
//!
//! Each function does nothing, and its contract is one law.

ghost use Rattle.any_dictionary.specs.Laws.{AcceptedNamesItsKind};

/// A text that is accepted as one of a kind names that kind in its first line.
#[tactic(auto, using(crate::proofs::Heads::accepted_names_its_kind))]
pub fn accepted_texts_name_their_kind()
    ensures { AcceptedNamesItsKind }
{}
