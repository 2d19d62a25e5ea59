//! Each caller of the crate `callers`, called once.

use crate::support::dictionaries::load;
use crate::support::{expect, expect_text};
use callers::discretionaries::{Discretionary, discretionaries};
use callers::line_filler::break_to_fit;
use callers::marked_word::marked_word;
use callers::own_exceptions::list_and_write;
use callers::paragraphs::fill_paragraphs;
use callers::soft_hyphens::with_soft_hyphens;
use hyphenation::extended::Extended;
use hyphenation::{Hyphenator, Standard};
use std::alloc::Global;
use std::test::Fail;

// The breaks of `hyphenation`, in American English.
const ENGLISH: &str = "hyphenation 1 standard\nlanguage en-us\nminima 2 3\ne hyphenation 2 6 7\n";

// Those breaks, and `ta-ble`.
const LISTED: &str =
    "hyphenation 1 standard\nlanguage en-us\nminima 2 3\ne hyphenation 2 6 7\ne table 2\n";

// A doubled letter that comes back at a break.
const CHANGED: &str =
    "hyphenation 1 extended\nlanguage hu\nminima 2 2\ne asszonnyal 2,1,2,2,szsz\n";

fn is_changed(all: &[Discretionary<'_>]) -> bool {
    match all {
        [found] => {
            found.before.as_str() == "sz-"
                && found.after.as_str() == "sz"
                && found.unbroken == "ssz"
        }
        _ => false,
    }
}

#[test]
fn changed_letters_are_set_and_marked(rt: HostRuntime) -> Result<(), Fail> {
    let dictionary: Extended = load(rt.alloc(), CHANGED)?;
    let marked = marked_word(rt.alloc(), &dictionary, "asszonnyal", "=");
    expect_text(marked, "asz=szonnyal")?;
    let word = dictionary.hyphenate(rt.alloc(), "asszonnyal")?;
    let all = discretionaries(rt.alloc(), &word, "-")?;
    expect(is_changed(&all), "sz-, sz and ssz")
}

// Fails unless each caller that has a dictionary lent does with this one as its page says.
fn expect_callers(alloc: Global, english: &Standard) -> Result<(), Fail> {
    let found = break_to_fit(alloc, english, "Hyphenation", 7);
    expect(
        matches!(found, Ok(Some(("Hyphen", "ation")))),
        "the last break with room for seven columns is taken",
    )?;
    let found = marked_word(alloc, english, "Hyphenation", "-");
    expect_text(found, "Hy-phen-a-tion")?;
    // Each paragraph is filled by itself.
    let found = fill_paragraphs(alloc, english, "of a\r\n\nhyphenation", 6);
    expect_text(found, "of a\n\nhy-\nphena-\ntion\n")?;
    let found = with_soft_hyphens(alloc, english, "On hyphenation, fir\u{ad}kin.");
    expect_text(found, "On hy\u{ad}phen\u{ad}a\u{ad}tion, fir\u{ad}kin.")
}

// Whether listing a word that may be broken at a place returns `is_listed`, and writes this text.
fn lists_and_writes(
    alloc: Global,
    dictionary: &mut Standard,
    (word, place): (&str, usize),
    (is_listed, wanted): (bool, &str),
) -> Result<bool, Fail> {
    let places = vec![in alloc; place]?;
    let mut written = Vec::new(alloc);
    let found = list_and_write(alloc, dictionary, word, places, &mut written);
    Ok(matches!(found, Ok(found) if found == is_listed) & (written.as_slice() == wanted.as_bytes()))
}

// Each row has its sentence, a word with a place, and whether it is listed and what is written.
const LISTINGS: [(&str, (&str, usize), (bool, &str)); 2] = [
    (
        "a place within a character is refused",
        ("é", 1),
        (false, ""),
    ),
    (
        "a word is listed, kept and written",
        ("table", 2),
        (true, LISTED),
    ),
];

#[test]
fn each_caller_does_as_its_page_says(rt: HostRuntime) -> Result<(), Fail> {
    let mut english: Standard = load(rt.alloc(), ENGLISH)?;
    expect_callers(rt.alloc(), &english)?;
    for (shows, listed, wanted) in &LISTINGS {
        expect(
            lists_and_writes(rt.alloc(), &mut english, *listed, *wanted)?,
            shows,
        )?;
    }
    Ok(())
}
