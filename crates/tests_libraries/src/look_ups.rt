//! The values of a score by a table, and the numbers of look-ups and of reports that it takes.

use crate::support::dictionaries::load;
use crate::support::expect;
use hyphenation::Standard;
use hyphenation::score::{LookUps, Score};
use std::alloc::Global;
use std::test::Fail;

// Whether scoring a word by the table of the dictionary of a text gives these values, and takes so many look-ups and reports.
fn scores_by_table(
    alloc: Global,
    text: &str,
    word: &str,
    values: &[u8],
    counts: (u128, u128),
) -> Result<bool, Fail> {
    let dictionary: Standard = load(alloc, text)?;
    let mut count = LookUps::new();
    let found = dictionary.score_counted(alloc, word, &mut count)?;
    Ok((found.as_slice() == values) & ((count.made(), count.reported()) == counts))
}

const FIRKIN: &str =
    "hyphenation 1 standard\nlanguage x\nminima 0 0\np .fi2\np i2r\np r2k\np r5kin\np k1in\np k2in.\n";

const RUN: &str = "hyphenation 1 standard\nlanguage x\nminima 0 0\np aaaaaaa1\n";

const EDGES: &str = "hyphenation 1 standard\nlanguage x\nminima 0 0\np a1\np aa\np .aa\np aa.\n";

const HERS: &str =
    "hyphenation 1 standard\nlanguage x\nminima 0 0\np he2\np she1\np his3\np hers1\n";

const NONE: &str = "hyphenation 1 standard\nlanguage x\nminima 0 0\n";

// Each row has its sentence, the text of a dictionary, a word, its values, and the numbers of its look-ups and of its reports.
// The frame has two bytes more than the word.
const COUNTS: &[(&str, &str, &str, &[u8], (u128, u128))] = &[
    (
        "six keys that occur are reported once each",
        FIRKIN,
        "firkin",
        &[0, 2, 5, 2, 0],
        (8, 6),
    ),
    (
        "five of these keys occur in a longer word",
        FIRKIN,
        "firkins",
        &[0, 2, 5, 1, 0, 0],
        (9, 5),
    ),
    (
        "no byte is read again where keys end",
        RUN,
        "aaaaaaaaaaaaaaaaaaaa",
        &[0, 0, 0, 0, 0, 0, 1, 1, 1, 1, 1, 1, 1, 1, 1, 1, 1, 1, 1],
        (22, 14),
    ),
    (
        "no byte is read again where a key lacks its last letter",
        RUN,
        "aaaaaab",
        &[0, 0, 0, 0, 0, 0],
        (9, 0),
    ),
    (
        "a key is reported wherever it stands, and with an edge once",
        EDGES,
        "aaa",
        &[1, 1],
        (5, 7),
    ),
    (
        "keys within keys are reported",
        HERS,
        "ushers",
        &[0, 0, 0, 2, 0],
        (8, 3),
    ),
    (
        "without keys each byte is looked up once",
        NONE,
        "abc",
        &[0, 0],
        (5, 0),
    ),
];

#[test]
fn each_byte_takes_one_look_up_in_a_table(rt: HostRuntime) -> Result<(), Fail> {
    for (shows, text, word, values, counts) in COUNTS {
        expect(
            scores_by_table(rt.alloc(), text, word, values, *counts)?,
            *shows,
        )?;
    }
    Ok(())
}
