//! Names of lower crates that users have in `hyphenation`, and that no other test takes from there.

use crate::support::dictionaries::{DOUBLED, FIRKIN, load};
use crate::support::{expect, expect_equal, is_item};
use hyphenation::extended::{Extended, Subregion};
use hyphenation::grammar::{Kind, apply_edit};
use hyphenation::hyphenator::{Word, boundaries_of};
use hyphenation::iter::{Hyphenating, Segments, SegmentsExt, Texts};
use hyphenation::{Standard, hyphenate_text};
use std::test::Fail;

// Whether items are the segments of `fir-kin`.
fn are_of_firkin<I: Texts>(mut items: Hyphenating<'_, I>) -> bool {
    let mut is_so = is_item(&items.next(), "fir-");
    is_so &= is_item(&items.next(), "kin");
    is_so & items.next().is_none()
}

const PLACES: [usize; 1] = [3];

const PAIRS: [(usize, Option<&Subregion>); 1] = [(3, None)];

#[test]
fn each_type_of_segments_has_the_same_segments(rt: HostRuntime) -> Result<(), Fail> {
    let alloc = rt.alloc();
    let breaks = vec![in alloc; 3]?;
    let of_word = Word::fits("firkin", &breaks)
        && are_of_firkin(Word::new("firkin", breaks).into_iter());
    expect(of_word, "a word")?;
    let of_breaks = Word::fits("firkin", &PLACES)
        && are_of_firkin(Hyphenating::new(alloc, Segments::new("firkin", PLACES.iter().copied())));
    expect(of_breaks, "breaks")?;
    let of_changes = Word::fits("firkin", &PAIRS)
        && are_of_firkin(Hyphenating::new(
            alloc,
            SegmentsExt::new(alloc, "firkin", PAIRS.iter().copied()),
        ));
    expect(of_changes, "breaks with changes")
}

#[test]
fn words_are_bounded_edited_and_appended(rt: HostRuntime) -> Result<(), Fail> {
    let alloc = rt.alloc();
    expect(
        boundaries_of((2, 3), "firkin") == Some((2, 3)),
        "the bounds of firkin",
    )?;
    let mut firkin: Standard = load(alloc, FIRKIN)?;
    let edited = apply_edit(alloc, Kind::Standard, &mut firkin, "+firkins 3");
    expect(matches!(edited, Ok(true)), "an edit")?;
    let doubled: Extended = load(alloc, DOUBLED)?;
    let mut page = String::from_str(alloc, "(")?;
    hyphenate_text(alloc, &mut page, &doubled, "Az asszonnyal.", "-")?;
    expect_equal(&page.as_str(), &"(Az asz-szony-nyal.")
}
