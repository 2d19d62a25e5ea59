//! Laws of breaks, entries and codes.
//!
//! Each function here does nothing: its contract is a law, which the check proves.

ghost use Rattle.hyphenation_breaks.specs.Laws.{ListedInOrder, EntriesInOrder, BoundaryIsOfChars, CodesAreText};

/// Judging all listed breaks equals judging them one after the other.
pub fn listed_in_order<B>()
    ensures { ListedInOrder B }
{}

/// Judging all entries of a key equals judging them one after the other.
pub fn entries_in_order<C>()
    ensures { EntriesInOrder C }
{}

/// The test of a boundary finds exactly the character boundaries of the standard library.
pub fn boundary_is_of_chars()
    ensures { BoundaryIsOfChars }
{}

/// The code of a language is UTF-8.
pub fn codes_are_text()
    ensures { CodesAreText }
{}
