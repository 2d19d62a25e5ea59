//! Laws of the pieces of a text between Unicode's word bounds.
//!
//! Each function here does nothing: its contract is a law, which the check proves.

ghost use Rattle.word_pieces.specs.Pieces.{PiecesAreSlices, PiecesJoin, LettersAreOnePiece};

/// Each piece is a slice of its text between two character boundaries, and the pieces follow one another.
///
/// So the pieces of a text, joined, are the text.
pub fn pieces_are_slices()
    ensures slices { PiecesAreSlices }
    ensures join { PiecesJoin }
{}

/// A text of letters of ASCII is one piece, if it is not empty.
pub fn letters_are_one_piece()
    ensures { LettersAreOnePiece }
{}
