//! Words in small letters, with the way back to the word as it is written.

use crate::support::{expect, expect_equal, expect_equal_in};
use hyphenation::case_folding::{Shift, realign, refold};
use std::alloc::{AllocError, Global};
use std::borrow::CowStr;
use std::test::Fail;
use ucd_age::Age;

// Whether a word folds to a text with these shifts, and is borrowed where this says so.
fn folds_to(
    alloc: Global,
    word: &str,
    borrowed: bool,
    wanted: &str,
    wanted_shifts: &[Shift],
) -> Result<bool, AllocError> {
    let (text, shifts) = refold(alloc, word)?;
    let is_borrowed = matches!(&text, CowStr::Borrowed(_));
    Ok(is_borrowed == borrowed && text.as_str() == wanted && shifts.as_slice() == wanted_shifts)
}

// Each row has its sentence, the word, whether its folding is borrowed, the word in small letters, and its shifts.
const FOLDED: &[(&str, &str, bool, &str, &[Shift])] = &[
    (
        "two letters that lose bytes shift the places after both",
        "İẞab",
        false,
        "ißab",
        TWO_SHIFTS,
    ),
    (
        "a letter that loses two bytes shifts the places after it by two",
        "\u{212a}ilim",
        false,
        "kilim",
        &[Shift {
            index: 0,
            delta: -2,
        }],
    ),
    (
        "a letter that gains a byte shifts the places after it the other way",
        "ȺAB",
        false,
        "ⱥab",
        &[Shift { index: 0, delta: 1 }],
    ),
    (
        "two shifts that differ in their sign add up",
        "aȺİb",
        false,
        "aⱥib",
        &[Shift { index: 1, delta: 1 }, Shift { index: 4, delta: 0 }],
    ),
    (
        "letters of as many bytes shift nothing, and a sigma is the same at the end",
        "ΑΣ",
        false,
        "ασ",
        &[],
    ),
    (
        "a dot above a capital stays",
        "I\u{307}",
        false,
        "i\u{307}",
        &[],
    ),
    ("the empty word is borrowed", "", true, "", &[]),
    (
        "a word in small letters is borrowed",
        "kilim",
        true,
        "kilim",
        &[],
    ),
    (
        "a dot above a small letter stays",
        "i\u{307}",
        true,
        "i\u{307}",
        &[],
    ),
    (
        "a titlecase letter is not Uppercase, so that it stays",
        "\u{1c5}",
        true,
        "\u{1c5}",
        &[],
    ),
    ("a sharp s stays", "ß", true, "ß", &[]),
    (
        "a Cherokee capital is Uppercase, and its own folding",
        "\u{13a0}",
        false,
        "\u{13a0}",
        &[],
    ),
];

#[test]
fn words_fold_with_their_shifts(rt: HostRuntime) -> Result<(), Fail> {
    for (shows, word, borrowed, wanted, shifts) in FOLDED {
        expect(
            folds_to(rt.alloc(), word, *borrowed, wanted, shifts)?,
            *shows,
        )?;
    }
    Ok(())
}

// The shifts of `İẞab`. Its bytes end at 2, 5, 6 and 7, those of `ißab` at 1, 3, 4 and 5.
const TWO_SHIFTS: &[Shift] = &[
    Shift {
        index: 0,
        delta: -1,
    },
    Shift {
        index: 1,
        delta: -2,
    },
];

const GAINED: &[Shift] = &[Shift { index: 0, delta: 2 }];

const LOST: &[Shift] = &[Shift {
    index: 0,
    delta: -2,
}];

// Each row has its sentence, the shifts, a place in small letters, and the place in the word as it is written.
const CARRIED_BACK: &[(&str, &[Shift], usize, usize)] = &[
    ("place 0 stays", TWO_SHIFTS, 0, 0),
    (
        "a place after one shift is carried back by it",
        TWO_SHIFTS,
        1,
        2,
    ),
    (
        "a place after two shifts is carried back by both",
        TWO_SHIFTS,
        3,
        5,
    ),
    (
        "a later place is carried back by the same bytes",
        TWO_SHIFTS,
        4,
        6,
    ),
    ("the end is carried back to the end", TWO_SHIFTS, 5, 7),
    ("no place is carried back below 0", GAINED, 1, 0),
    (
        "no place is carried back beyond the greatest number",
        LOST,
        usize::MAX,
        usize::MAX,
    ),
    ("a place without shifts stays", &[], 1, 1),
];

#[test]
fn places_are_carried_back(rt: HostRuntime) -> Result<(), Fail> {
    let _ = rt;
    for (shows, shifts, folded, written) in CARRIED_BACK {
        expect_equal_in(*shows, &realign(*folded, shifts), written)?;
    }
    Ok(())
}

// All characters of Unicode 14.0, in order.
fn characters_of_14(alloc: Global) -> Result<String, AllocError> {
    let mut all = String::new(alloc);
    for c in '\0'..=char::MAX {
        if Age::for_char(c).number() <= Age::V14_0.number() {
            all.push(c)?;
        }
    }
    Ok(all)
}

// The number of characters that folding changes, and of those whose number of bytes it changes.
fn changes_by_folding(alloc: Global, all: &str) -> Result<(usize, usize), AllocError> {
    let (folded, shifts) = refold(alloc, all)?;
    let pairs = all.chars().zip(folded.as_str().chars());
    let changed = pairs.filter(|(c, d)| c != d).count();
    Ok((changed, shifts.len()))
}

// Python 3.11 has the tables of Unicode 14.0. It has 1402 characters that satisfy `isupper` and that `lower` changes;
// 25 change their number of bytes. 86 of the 1402 are Cherokee capitals, which are their own simple case folding.
// `lower` makes two characters of İ, of which the first counts.
#[test]
fn the_characters_of_unicode_14_fold(rt: HostRuntime) -> Result<(), Fail> {
    let all = characters_of_14(rt.alloc())?;
    expect_equal(&changes_by_folding(rt.alloc(), &all)?, &(1402 - 86, 25))
}
