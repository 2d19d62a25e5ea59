//! Laws of what a call finds in a word, and of words written with their breaks.
//!
//! Each function here does nothing: its contract is a law, which the check proves.

ghost use Rattle.libhyphen_rule.specs.Laws.{AnswersHaveAsciiDigits, BreaksComeFromPatterns, CallsLoseNoLetter};
ghost use Rattle.libhyphen_rule.specs.Laws.{ChangesKeepMinima, ClosedPatternsReadAlike};
ghost use Rattle.libhyphen_rule.specs.Laws.{DigitsLieWithinTheWord, ForbiddenPlacesAreEven, MarksTakenOut, NoLetterIsLost};
ghost use Rattle.libhyphen_rule.specs.Laws.{RegionsLieWithinTheWord};

/// A word without an equals sign and without changes, written with its breaks, is the word again once the equals signs
/// are taken out.
pub fn marks_taken_out()
    ensures { MarksTakenOut }
{}

/// A word that a call writes by patterns without changes is the word again once the equals signs are taken out.
pub fn calls_lose_no_letter()
    ensures { CallsLoseNoLetter }
{}

/// Where no mark reaches over another one, the written word is the word with each mark's text in the place of its
/// region.
pub fn no_letter_is_lost()
    ensures { NoLetterIsLost }
{}

/// No break without a change has fewer letters before it or behind it than the minima of a call ask for.
/// None is beside a text without breaks.
pub fn forbidden_places_are_even()
    ensures { ForbiddenPlacesAreEven }
{}

/// No break with a change has fewer letters before it or behind it than the minima of a call ask for, by the letters of
/// the word where its place has enough of them, or by those before or behind its region with those of its text.
pub fn changes_keep_minima()
    ensures { ChangesKeepMinima }
{}

/// A call finds a digit for each byte of the word, and gives one for each character. No level finds a break behind the
/// last byte.
pub fn digits_lie_within_the_word()
    ensures { DigitsLieWithinTheWord }
{}

/// The region of each change that a level makes begins within the word, and no two of them overlap.
pub fn regions_lie_within_the_word()
    ensures { RegionsLieWithinTheWord }
{}

/// Where no pattern hides a digit, the longest beginnings give the digits that all patterns give.
pub fn closed_patterns_read_alike()
    ensures { ClosedPatternsReadAlike }
{}

/// Each break of a call comes from a pattern: of the first level, or of the next level in a part of the word. In a part,
/// it keeps the minima of parts at ends that are within the word. The first level changes no letters.
pub fn breaks_come_from_patterns()
    ensures { BreaksComeFromPatterns }
{}

/// Each digit of an answer is one of ASCII, by any file. Beside a text without breaks it is a byte 0, where the caller
/// gives minima.
pub fn answers_have_ascii_digits()
    ensures { AnswersHaveAsciiDigits }
{}
