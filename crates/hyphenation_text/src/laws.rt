//! Laws of texts that are hyphenated.
//!
//! Each function does nothing, and its contract is one law.

ghost use Rattle.hyphenation_text.specs.Dictionaries.{AllAscend};
ghost use Rattle.hyphenation_text.specs.Laws.{AnyIsMarked, HaveNoneLeft, MarkedTextsHaveNoneLeft, MarkedTextsJoin};
ghost use Rattle.hyphenation_text.specs.Laws.{TextsAreMarked, WhiteSpaceHasNoBreaks};
ghost use Rattle.hyphenation_text.specs.Words.{breaks_under};

use crate::settings::Settings;
use any_dictionary::AnyDictionary;
use composed_words::laws::carried_places_ascend;
use hyphenation_hyphenator::hyphenator::laws::plain_breaks_fit_where_ascending;
use hyphenation_segments::iter::laws::{marked_segments_join, segments_join};
use text_words::laws::words_are_slices;

/// The breaks of each word, by this dictionary and these settings, ascend on it.
pub fn limited_breaks_fit(dictionary: &AnyDictionary, settings: &Settings<'_>)
    ensures { AllAscend (breaks_under settings.now dictionary.now) }
{
    carried_places_ascend();
    dictionary.breaks_fit();
}

/// Any text that has its soft hyphens has no break left, by this dictionary and these settings.
pub fn a_second_run_finds_no_break(dictionary: &AnyDictionary, settings: &Settings<'_>)
    ensures { HaveNoneLeft (breaks_under settings.now dictionary.now) }
{
    marked_texts_have_none_left();
    limited_breaks_fit(dictionary, settings);
}

/// Each text is marked at its places, where the breaks of each word ascend on it: without the marks it is the text.
pub fn texts_are_marked()
    ensures { TextsAreMarked }
{
    plain_breaks_fit_where_ascending();
    words_are_slices();
    segments_join();
    marked_segments_join();
}

/// Texts that are marked join to their texts, marked at the places of both. Any text is marked at no places.
pub fn marked_texts_join()
    ensures none { AnyIsMarked }
    ensures join { MarkedTextsJoin }
{}

/// A text that was marked with soft hyphens has no break left, where all that touched the text touches it still.
pub fn marked_texts_have_none_left()
    ensures { MarkedTextsHaveNoneLeft }
{
    plain_breaks_fit_where_ascending();
    words_are_slices();
    segments_join();
    marked_segments_join();
}

/// A text of white space has no breaks.
pub fn white_space_has_no_breaks()
    ensures { WhiteSpaceHasNoBreaks }
{}
