//! Questions to a hyphenator that no program asks: of breaks within bounds, and of exceptions as they are listed.

use crate::questions::Question::{Allowed, Exception, Listed, Opportunities};
use crate::support::dictionaries::extended;
use crate::support::expect;
use hyphenation::Hyphenator;
use hyphenation::extended::{Extended, Subregion};
use hyphenation_breaks::breaks::Break;
use std::alloc::{AllocError, Global};
use std::test::Fail;

// A question to a dictionary. Bounds are numbers of bytes.
#[derive(Clone, Copy)]
enum Question {
    // The breaks that are listed for a word, within its boundaries.
    Exception(&'static str),
    // The breaks that are listed for a word, within bounds.
    Listed(&'static str, (usize, usize)),
    // The breaks that patterns allow in a word in small letters, within bounds.
    Allowed(&'static str, (usize, usize)),
    // The breaks of a word in small letters.
    Opportunities(&'static str),
}

// A break: its place, and whether it changes letters.
type Found = (usize, bool);

// A row of a table: a sentence of what it shows, a question, and the breaks, or none for a word that is not listed.
type Row = (&'static str, Question, Option<&'static [Found]>);

// The minima and the lines of a dictionary, and questions to it.
type Table = (&'static str, &'static str, &'static [Row]);

// The breaks that a question asks for.
fn answer<'d>(
    alloc: Global,
    dictionary: &'d Extended,
    question: Question,
) -> Result<Option<Vec<(usize, Option<&'d Subregion>)>>, AllocError> {
    match question {
        Exception(word) => dictionary.exception(alloc, word),
        Listed(word, bounds) => dictionary.exception_within(alloc, word, bounds),
        Allowed(word, bounds) => Ok(Some(dictionary.opportunities_within(alloc, word, bounds)?)),
        Opportunities(word) => Ok(Some(dictionary.opportunities(alloc, word)?)),
    }
}

// Whether breaks are these.
fn are<B: Break>(found: &[B], wanted: &[Found]) -> bool {
    let mut is_so = found.len() == wanted.len();
    for (one, (place, changed)) in found.iter().zip(wanted) {
        is_so = is_so && one.place() == *place && one.changed() == *changed;
    }
    is_so
}

// Whether the answer to a question is this.
fn answers(
    alloc: Global,
    dictionary: &Extended,
    question: Question,
    wanted: Option<&[Found]>,
) -> Result<bool, AllocError> {
    Ok(match (answer(alloc, dictionary, question)?, wanted) {
        (Some(found), Some(wanted)) => are(&found, wanted),
        (None, None) => true,
        _ => false,
    })
}

// Breaks that are listed, with capitals too.
const ANISOTROPIC: &[Row] = &[
    (
        "an exception has its listed breaks within the minima",
        Exception("anisotropic"),
        Some(&[(2, false), (5, false)]),
    ),
    (
        "a word that is not listed is no exception",
        Exception("other"),
        None,
    ),
    (
        "a listed word that is too short for the minima is none",
        Exception("ab"),
        None,
    ),
    (
        "bounds take all listed breaks between them",
        Listed("anisotropic", (0, 11)),
        Some(&[(2, false), (5, false), (9, false)]),
    ),
    (
        "a first bound above the second leaves no listed break",
        Listed("anisotropic", (9, 2)),
        Some(&[]),
    ),
    (
        "a word that is not listed has no list within bounds",
        Listed("other", (0, 5)),
        None,
    ),
    (
        "bounds take a break of a word that is too short for the minima",
        Listed("ab", (0, 2)),
        Some(&[(1, false)]),
    ),
    (
        "a listed word that is too short for the minima has no break",
        Opportunities("ab"),
        Some(&[]),
    ),
    (
        "a word with a capital is found as it is listed",
        Listed("Upper", (0, 5)),
        Some(&[(3, false)]),
    ),
    ("and not in small letters", Listed("upper", (0, 5)), None),
];

// A word that is listed hides its patterns, and not the places that they allow within bounds.
const FIRKINS: &[Row] = &[
    (
        "a listed word has its listed break and none of its patterns",
        Opportunities("firkins"),
        Some(&[(3, false)]),
    ),
    (
        "patterns allow places of a listed word within bounds",
        Allowed("firkins", (0, 7)),
        Some(&[(3, false), (4, false)]),
    ),
    (
        "a place at the first bound is allowed",
        Allowed("firkins", (4, 6)),
        Some(&[(4, false)]),
    ),
    (
        "a place at both bounds is allowed",
        Allowed("firkins", (3, 3)),
        Some(&[(3, false)]),
    ),
    (
        "a first bound above the second leaves no place",
        Allowed("firkins", (4, 3)),
        Some(&[]),
    ),
    (
        "no place is allowed after the last one",
        Allowed("firkins", (5, usize::MAX)),
        Some(&[]),
    ),
];

// A word with a capital has its listed break as a word in small letters.
const UPPER: &[Row] = &[(
    "a listed word with a capital has its break",
    Opportunities("Upper"),
    Some(&[(3, false)]),
)];

const EMPTY_LIST: &[Row] = &[(
    "a list may be empty, and hides the patterns",
    Exception("ab"),
    Some(&[]),
)];

const NO_PATTERN: &[Row] = &[(
    "a list may be empty within the minima",
    Exception("abcd"),
    Some(&[]),
)];

// Changes that are listed.
const DOUBLED: &[Row] = &[
    (
        "a listed break has its change",
        Exception("esszé"),
        Some(&[(2, true)]),
    ),
    (
        "it has its change within bounds too",
        Listed("esszé", (0, 6)),
        Some(&[(2, true)]),
    ),
    (
        "patterns allow no change that is only listed",
        Allowed("esszé", (0, 6)),
        Some(&[]),
    ),
];

// A list with a place within the range of the break before it, which `hyphenate` leaves out.
const OVERLAPPING: &[Row] = &[(
    "a place within the range before it is listed",
    Exception("asszonnyal"),
    Some(&[(2, true), (3, false), (6, true)]),
)];

// A change whose range begins before the first letter of a word, which `hyphenate` leaves out.
const PAST_THE_EDGE: &[Row] = &[(
    "a change whose range passes the head of the word is allowed",
    Opportunities("abc"),
    Some(&[(1, true)]),
)];

const TABLES: &[Table] = &[
    ("2 3", "e anisotropic 2 5 9\ne ab 1\ne Upper 3", ANISOTROPIC),
    (
        "2 3",
        "p .fi2\np i2r\np r2k\np r5kin\np k1in\np k2in.\ne firkins 3",
        FIRKINS,
    ),
    ("1 1", "e Upper 3", UPPER),
    ("0 0", "p a1b\ne ab", EMPTY_LIST),
    ("2 2", "p b1c\ne abcd", NO_PATTERN),
    (
        "2 2",
        "e asszonnyal 2,1,2,2,szsz 6,1,2,2,nyny\ne esszé 2,1,2,2,szsz",
        DOUBLED,
    ),
    (
        "2 2",
        "e asszonnyal 2,1,2,2,szsz 3 6,1,2,2,nyny",
        OVERLAPPING,
    ),
    ("1 1", "p .a1b 2,2,0,1,x", PAST_THE_EDGE),
];

// Fails unless a dictionary answers each of these questions so.
fn expect_answers(alloc: Global, dictionary: &Extended, rows: &[Row]) -> Result<(), Fail> {
    for (shows, question, wanted) in rows {
        expect(answers(alloc, dictionary, *question, *wanted)?, *shows)?;
    }
    Ok(())
}

// Fails unless the dictionary with these minima and lines does.
fn expect_table(alloc: Global, table: &Table) -> Result<(), Fail> {
    let dictionary = extended(alloc, table.0, table.1)?;
    expect_answers(alloc, &dictionary, table.2)
}

#[test]
fn a_hyphenator_answers_each_question(rt: HostRuntime) -> Result<(), Fail> {
    for table in TABLES {
        expect_table(rt.alloc(), table)?;
    }
    Ok(())
}
