//! Texts in pieces between word bounds, as the kit's iterator gives them, and pieces that are passed.

use crate::support::expect;
use std::alloc::Global;
use std::test::Fail;
use unicode_segmentation::UnicodeSegmentation;
use word_pieces::WordPieceIndices;

// Whether the pieces and their places are those of the kit's iterator.
fn is_as_by_the_kit(text: &str) -> bool {
    let mut wanted = text.split_word_bound_indices();
    for found in WordPieceIndices::new(text) {
        if wanted.next() != Some(found) {
            return false;
        }
    }
    wanted.next().is_none()
}

// One character at least of each value of Word_Break.
const SAMPLES: &[&str] = &[
    "a", "1", "_", "'", ".", ",", ":", " ", "\r", "\n", "\u{b}", "\"", "(", "é", "\u{301}",
    "\u{200d}", "\u{ad}", "’", "א", "カ", "🇦", "☃",
];

// Fails unless all texts of four samples that begin with these two, one a line, have the pieces that the kit's iterator
// has.
fn expect_after(alloc: Global, first: &str, second: &str) -> Result<(), Fail> {
    let mut text = String::new(alloc);
    for third in SAMPLES {
        for fourth in SAMPLES {
            for sample in [first, second, *third, *fourth, "\n"] {
                text.push_str(sample)?;
            }
        }
    }
    expect(is_as_by_the_kit(&text), &text)
}

#[test]
fn any_four_characters_are_cut_as_by_the_kit(rt: HostRuntime) -> Result<(), Fail> {
    for first in SAMPLES {
        for second in SAMPLES {
            expect_after(rt.alloc(), first, second)?;
        }
    }
    Ok(())
}

// Each row has its sentence, a text, a place, and the first piece to come after those before the place were passed.
const PASSED: &[(&str, &str, usize, usize, &str)] = &[
    (
        "a place within a word leaves the word",
        "to be or not",
        7,
        6,
        "or",
    ),
    (
        "a place before a word leaves the word",
        "to be or not",
        6,
        6,
        "or",
    ),
    (
        "a place after a word leaves it, and not those before it",
        "to be or not",
        5,
        3,
        "be",
    ),
    (
        "a place after the first word passes nothing",
        "to be or not",
        2,
        0,
        "to",
    ),
    (
        "a place after the text leaves the last word",
        "to be or not",
        100,
        9,
        "not",
    ),
    (
        "a place within a quotation mark leaves the word before it",
        "to “be or” not",
        12,
        9,
        "or",
    ),
    (
        "a place within the only word passes nothing",
        "tobe",
        3,
        0,
        "tobe",
    ),
    ("a place before the last letter leaves it", "a b", 2, 2, "b"),
];

#[test]
fn pieces_before_a_place_are_passed(rt: HostRuntime) -> Result<(), Fail> {
    let _ = rt;
    for (shows, text, place, offset, piece) in PASSED {
        let mut pieces = WordPieceIndices::new(text);
        pieces.pass_before(*place);
        expect(pieces.next() == Some((*offset, *piece)), *shows)?;
    }
    Ok(())
}
