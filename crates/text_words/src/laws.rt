//! Laws of names and words.
//!
//! Each function here does nothing: its contract is a law, which the check proves.

ghost use Rattle.text_words.specs.Names.{LettersAreNoName};
ghost use Rattle.text_words.specs.Words.{LettersAreOneWord, WordsAreSlices, WordsJoin};

use word_pieces::laws::{letters_are_one_piece, pieces_are_slices};

/// A text of letters of ASCII is no name.
pub fn letters_are_no_name()
    ensures { LettersAreNoName }
{}

/// A text of letters of ASCII is one word, if it is not empty, and may be broken.
pub fn letters_are_one_word()
    ensures { LettersAreOneWord }
{
    letters_are_one_piece();
}

/// Each word is a slice of its text between two character boundaries, and the words follow one another.
///
/// So the words of a text, joined, are the text.
pub fn words_are_slices()
    ensures slices { WordsAreSlices }
    ensures join { WordsJoin }
{
    pieces_are_slices();
}
