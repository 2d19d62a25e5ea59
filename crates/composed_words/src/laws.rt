//! Laws of words and their NFC.
//!
//! Each function does nothing, and its contract is one law.

ghost use Rattle.composed_words.specs.Laws.{AsciiIsComposed, CarriedAscend, ComposedBreaksAsItIs};
ghost use Rattle.composed_words.specs.Laws.{EquivalentBreakAlike, NothingIsJoined};

/// A word of ASCII is in NFC.
pub fn ascii_is_composed()
    ensures { AsciiIsComposed }
{}

/// Places that are carried back ascend strictly, each on a character boundary of the word.
pub fn carried_places_ascend()
    ensures { CarriedAscend }
{}

/// No place that is carried back is before a character that NFC joins with the one before it.
pub fn nothing_is_joined()
    ensures { NothingIsJoined }
{}

/// A word in NFC has its own breaks.
pub fn composed_words_break_as_they_are()
    ensures { ComposedBreaksAsItIs }
{}

/// Words that are canonically equivalent are broken alike.
pub fn equivalent_words_break_alike()
    ensures { EquivalentBreakAlike }
{}
