//! Laws of tokens and patterns. Each function does nothing: its contract is a law, which the check proves.

ghost use Rattle.hyphenation_grammar.specs.Laws.{AsciiPartsText, PiecesAreText, PartsAreText, SpeltIsText, KeysAreText};
ghost use Rattle.hyphenation_grammar.specs.Laws.{BytesAreSpelt, ElementsAreSpelt, PatternsAreSpelt};

/// UTF-8 text that is split at an ASCII byte gives UTF-8 texts, and so do the commas of a later token.
pub fn parts_are_text()
    ensures around_ascii { AsciiPartsText }
    ensures pieces { PiecesAreText }
    ensures token_parts { PartsAreText }
{}

/// A token in UTF-8 spells a text in UTF-8, and the values of a pattern are between characters of its key.
pub fn spelt_is_text()
    ensures text { SpeltIsText }
    ensures key { KeysAreText }
{}

/// Each spelling of bytes, and of a pattern's elements, is read as exactly these; nothing else is read.
///
/// A byte is spelt as itself or by an escape, a value as a digit or as a number in braces.
pub fn each_spelling_is_read()
    ensures bytes { BytesAreSpelt }
    ensures elements { ElementsAreSpelt }
    ensures patterns { PatternsAreSpelt }
{}
