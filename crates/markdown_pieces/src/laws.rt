//! Laws of the pieces of all texts. The calls do nothing; each contract is a law.

ghost use Rattle.std.specs.Prelude.{◌≡◌, ℕ, List, IsUtf8};
ghost use Rattle.markdown_pieces.specs.Pieces.{pieces_of};
ghost use Rattle.markdown_pieces.specs.Laws.{joined_pieces, AreUtf8, AreCutAlike};

/// The pieces of each text join to it: nothing of it is lost.
///
/// It is a law of all texts, and the call does nothing.
pub fn pieces_join()
    ensures { (text : List ℕ) → joined_pieces (pieces_of text) ≡ text }
{}

/// Each piece of a text of UTF-8 is UTF-8: no piece begins or ends within a character.
///
/// It is a law of all texts, and the call does nothing.
pub fn pieces_are_utf8()
    ensures { (text : List ℕ) → IsUtf8 text → AreUtf8 (pieces_of text) }
{}

/// A text with other texts in the places of its texts is cut into the same pieces, with these texts.
///
/// The other texts have no byte that may be markup, and begin as those of the text do, or with the first byte of U+00AD. So
/// soft hyphens that are put into the texts change no other piece: neither code nor a target nor a label. It is a law of all
/// texts, and the call does nothing.
pub fn other_texts_are_cut_alike()
    ensures { AreCutAlike }
{}
