//! Laws of canonical texts, for both kinds and both versions. Each function does nothing: its contract is a law, which
//! the check proves.

ghost use Rattle.hyphenation_writer.specs.Laws.{WrittenIsAccepted, WrittenGivesItAgain, CanonicalIsWrittenAgain};
ghost use Rattle.hyphenation_writer.specs.Laws.{EqualTextsAreOfEquals, VersionIsLeast};

use hyphenation_breaks::extended::Subregion;
use hyphenation_breaks::laws::{codes_are_text, entries_in_order};

/// The canonical text of a dictionary is accepted, and gives that very dictionary.
pub fn written_is_read_again<C, B>()
    ensures accepted { WrittenIsAccepted C B }
    ensures equal { WrittenGivesItAgain C B }
{
    entries_in_order::<Option<Subregion>>();
    codes_are_text();
}

/// The dictionary that is read from a canonical text has that very text.
pub fn canonical_is_written_again<C, B>()
    ensures { CanonicalIsWrittenAgain C B }
{
    entries_in_order::<Option<Subregion>>();
    codes_are_text();
}

/// Two dictionaries of one kind that have one canonical text are equal.
pub fn equal_texts_are_of_equal_dictionaries<C, B>()
    ensures { EqualTextsAreOfEquals C B }
{
    entries_in_order::<Option<Subregion>>();
    codes_are_text();
}

/// The canonical text of a dictionary is of the first version exactly if each value is at most 9.
pub fn version_is_least<C, B>()
    ensures { VersionIsLeast C B }
{}
