//! Exceptions that callers add and remove, with the lists that they replace, and breaks that fit a word.

use crate::support::dictionaries::{FIRKIN, extended, load};
use crate::support::{expect, expect_equal, expect_equal_in};
use hyphenation::Standard;
use hyphenation::extended::Extended;
use hyphenation::hyphenator::{Hyphenator, Word};
use hyphenation::iter::Iter;
use std::alloc::{AllocError, Global};
use std::borrow::CowStr;
use std::test::Fail;

// Lists a place for `firkins`, or removes the word, and returns the first place of the list that it had.
fn replaced(
    alloc: Global,
    dictionary: &mut Standard,
    place: Option<usize>,
) -> Result<Option<usize>, AllocError> {
    let Some(place) = place else {
        return Ok(first_of(dictionary.remove_exception("firkins")));
    };
    let places = vec![in alloc; place]?;
    let word = String::from_str(alloc, "firkins")?;
    if Standard::fits(&word, &places) {
        Ok(first_of(dictionary.add_exception(word, places)?))
    } else {
        Ok(None)
    }
}

// The first place of a list.
fn first_of(list: Option<Vec<usize>>) -> Option<usize> {
    list.and_then(|places| places.first().copied())
}

// Each row has its sentence, the place that is listed, or none where the word is removed, and the place before.
const REPLACED: &[(&str, Option<usize>, Option<usize>)] = &[
    ("a word that is new had no list", Some(3), None),
    (
        "a word that is added again had the first list",
        Some(4),
        Some(3),
    ),
    ("a word that is removed had the second list", None, Some(4)),
    ("a word that is removed again had none", None, None),
];

#[test]
fn a_list_that_is_replaced_or_removed_is_returned(rt: HostRuntime) -> Result<(), Fail> {
    let mut dictionary: Standard = load(rt.alloc(), FIRKIN)?;
    for (shows, place, wanted) in REPLACED {
        let before = replaced(rt.alloc(), &mut dictionary, *place)?;
        expect_equal_in(*shows, &before, wanted)?;
    }
    Ok(())
}

// Each row has its sentence, the text, the breaks, and whether they fit it.
const FITTED: &[(&str, &str, &[usize], bool)] = &[
    ("places that ascend fit", "hyphenation", &[2, 6, 7], true),
    ("the first and the last place fit", "ab", &[0, 1, 2], true),
    ("both ends alone fit", "ab", &[0, 2], true),
    ("no place has to be there", "", &[], true),
    ("the place of the empty word fits", "", &[0], true),
    ("a place within a character does not fit", "é", &[1], false),
    ("a place that repeats does not fit", "ab", &[1, 1], false),
    ("nor one further on", "firkins", &[3, 3], false),
    ("places that descend do not fit", "ab", &[2, 1], false),
    ("nor those of a longer word", "firkins", &[4, 3], false),
    ("a place beyond the end does not fit", "ab", &[3], false),
];

#[test]
fn breaks_fit_a_text_where_they_ascend_on_its_characters(rt: HostRuntime) -> Result<(), Fail> {
    let _ = rt;
    for (shows, text, breaks, fits) in FITTED {
        expect_equal_in(*shows, &Word::fits(text, breaks), fits)?;
        expect_equal_in(*shows, &Standard::fits(text, breaks), fits)?;
    }
    Ok(())
}

// Whether the breaks that are listed for a word of six letters fit it together.
fn listed_fit(alloc: Global, dictionary: &Extended, word: &str) -> Result<bool, AllocError> {
    match dictionary.exception_within(alloc, word, (0, 6))? {
        Some(breaks) => Ok(Word::fits(word, &breaks)),
        None => Ok(false),
    }
}

// The ranges of `spaced` are apart. One of `nested` begins within the one before it.
const RANGES: &str = "e spaced 2,1,2,1,x 5,0,0,0,z\ne nested 2,1,2,1,x 3,0,1,0,y 5,0,0,0,z";

#[test]
fn breaks_fit_where_no_range_begins_before_the_end_of_another(rt: HostRuntime) -> Result<(), Fail> {
    let dictionary = extended(rt.alloc(), "1 1", RANGES)?;
    let apart = listed_fit(rt.alloc(), &dictionary, "spaced")?;
    let within = listed_fit(rt.alloc(), &dictionary, "nested")?;
    expect_equal(&(apart, within), &(true, false))
}

// Whether a segment was made, and is borrowed.
fn is_borrowed(segment: Option<Result<CowStr<'_>, AllocError>>) -> Option<bool> {
    match segment {
        Some(Ok(CowStr::Borrowed(_))) => Some(true),
        Some(Ok(CowStr::Owned(_))) => Some(false),
        _ => None,
    }
}

// How many segments of a word are borrowed after the first ones that are owned.
fn borrowed_after_owned(
    alloc: Global,
    dictionary: &Extended,
    word: &str,
) -> Result<(usize, usize), AllocError> {
    let mut segments = dictionary.hyphenate(alloc, word)?.into_iter().segments();
    let (mut owned, mut borrowed) = (0usize, 0usize);
    for _ in 0..segments.len() {
        match is_borrowed(segments.next()) {
            Some(true) => borrowed = borrowed.saturating_add(1),
            Some(false) if borrowed == 0 => owned = owned.saturating_add(1),
            _ => {}
        }
    }
    Ok((owned, borrowed))
}

#[test]
fn segments_next_to_no_change_are_borrowed(rt: HostRuntime) -> Result<(), Fail> {
    let dictionary = extended(rt.alloc(), "1 1", "e abcdefg 2,1,2,1,x 5 6")?;
    let found = borrowed_after_owned(rt.alloc(), &dictionary, "abcdefg")?;
    expect_equal(&found, &(2, 2))
}

#[test]
fn a_copy_of_a_word_equals_it(rt: HostRuntime) -> Result<(), Fail> {
    let breaks = vec![in rt.alloc(); 2, 6, 7]?;
    let word = Word::new("hyphenation", breaks);
    let copy = word.try_clone(rt.alloc())?;
    expect(copy == word, "the copy equals the word")?;
    expect_equal(&copy.breaks.len(), &3)
}
