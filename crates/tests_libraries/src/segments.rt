//! Segments of words, with marks or without, and contracts that callers can promise.

ghost use Rattle.std.specs.Prelude.{◌≡◌, ◌+◌, map, vec_len, IfOk, codes};
ghost use Rattle.std.specs.List.{concat};
ghost use Rattle.std.specs.String.{string_bytes};
ghost use Rattle.hyphenation_breaks.specs.Break.{plain_break};
ghost use Rattle.hyphenation_segments.specs.Fits.{Fits};
ghost use Rattle.hyphenation_segments.specs.Segments.{segments, marked_segments};
ghost use Rattle.hyphenation_segments.specs.Laws.{with_marks};

use crate::support::dictionaries::extended;
use crate::support::{expect, expect_equal, is_item};
use hyphenation::hyphenator::{Hyphenator, Word};
use hyphenation::iter::{Hyphenating, Iter, Segments, Texts, laws};
use std::alloc::{AllocError, Global};
use std::iter::Copied;
use std::slice;
use std::test::Fail;

// Callers of the iterators, which are proved with the tests.

fn all_segments<'t>(
    alloc: Global,
    text: &'t str,
    breaks: &[usize],
) -> Result<Vec<&'t str>, AllocError>
    requires { Fits text.now (map plain_break breaks.now) }
    ensures { IfOk result (λ list. map (λ segment. segment.now) list.items
        ≡ segments text.now (map plain_break breaks.now)) }
{
    Segments::new(text, breaks.iter().copied()).collect(alloc)
}

fn number_of_segments(text: &str, breaks: Vec<usize>) -> usize
    requires { Fits text.now (map plain_break breaks.items) }
    ensures { result ≡ vec_len breaks + 1 }
{
    laws::segments_are_one_more_than_breaks();
    Segments::new(text, breaks.into_iter()).len()
}

fn joined_segments(alloc: Global, text: &str, breaks: &[usize]) -> Result<String, AllocError>
    requires { Fits text.now (map plain_break breaks.now) }
    ensures { IfOk result (λ joined. string_bytes joined ≡ text.now) }
{
    laws::segments_join();
    let mut joined = String::new(alloc);
    for segment in Segments::new(text, breaks.iter().copied()) {
        joined.push_str(segment)?;
    }
    Ok(joined)
}

fn marked_text<I: Texts>(alloc: Global, items: Hyphenating<'_, I>) -> Result<String, AllocError>
    ensures { IfOk result (λ joined.
        string_bytes joined ≡ concat (marked_segments items.entry.1 (I.texts items.entry.0))) }
{
    let mut joined = String::new(alloc);
    for item in items {
        let item = item?;
        joined.push_str(item.as_str())?;
    }
    Ok(joined)
}

fn marked_word<'t>(
    alloc: Global,
    word: Word<'t, usize>,
    mark: &'t str,
) -> Result<String, AllocError>
    ensures { IfOk result (λ joined.
        string_bytes joined ≡ with_marks mark.now word.entry.text.now word.entry.breaks.items) }
{
    laws::marked_segments_join();
    let mut items = word.into_iter();
    items.mark_with(mark);
    marked_text(alloc, items)
}

fn number_of_marked_segments(word: &Word<'_, usize>) -> usize
    ensures { result ≡ vec_len word.now.breaks + 1 }
{
    laws::segments_are_one_more_than_breaks();
    word.iter().len()
}

fn all_marked(alloc: Global, word: Word<'_, usize>) -> Result<Vec<String>, AllocError>
    ensures { IfOk result (λ v.
        map string_bytes v.items
        ≡ marked_segments (codes "-") (segments word.entry.text.now (map plain_break word.entry.breaks.items))) }
{
    let mut list = Vec::new(alloc);
    for item in word {
        list.push(item?)?;
    }
    Ok(list)
}

fn left_unmarked<'t>(alloc: Global, word: Word<'t, usize>) -> Result<Vec<&'t str>, AllocError>
    ensures { IfOk result (λ list.
        map (λ segment. segment.now) list.items ≡ segments word.entry.text.now
        (map plain_break word.entry.breaks.items)) }
{
    word.into_iter().segments().collect(alloc)
}

fn word_of<'t>(alloc: Global, text: &'t str, breaks: &[usize]) -> Result<Word<'t, usize>, Fail> {
    if Word::fits(text, breaks) {
        Ok(Word::new(text, Vec::from_slice(alloc, breaks)?))
    } else {
        Err(Fail::new("the breaks do not fit"))
    }
}

// Whether the segments of a word are these.
fn has_segments(
    alloc: Global,
    text: &str,
    breaks: &[usize],
    wanted: &[&str],
) -> Result<bool, Fail> {
    Ok(left_unmarked(alloc, word_of(alloc, text, breaks)?)?.as_slice() == wanted)
}

// Whether a word with a mark at each break is this text.
fn has_marks(
    alloc: Global,
    text: &str,
    breaks: &[usize],
    mark: &str,
    wanted: &str,
) -> Result<bool, Fail> {
    Ok(marked_word(alloc, word_of(alloc, text, breaks)?, mark)?.as_str() == wanted)
}

// Whether the size hint of segments falls from this number to 0 as they are taken, and stays there.
fn counts_down(mut segments: Segments<'_, Copied<slice::Iter<'_, usize>>>, number: usize) -> bool {
    let mut is_so = true;
    for taken in 0..number.saturating_add(2) {
        let left = number.saturating_sub(taken);
        is_so &= segments.size_hint() == (left, Some(left));
        is_so &= segments.next().is_some() == (left > 0);
    }
    is_so
}

// Whether the items of a word are these, where the mark is `=` after the first one.
fn has_new_mark<I: Texts>(mut items: Hyphenating<'_, I>, wanted: &[&str]) -> bool {
    let mut is_so = items.len() == wanted.len();
    for text in wanted {
        is_so &= is_item(&items.next(), text);
        items.mark_with("=");
    }
    is_so &= items.next().is_none();
    is_so & items.next().is_none()
}

// Whether a copy that is made after the first item of a word has this text.
fn copy_goes_on(alloc: Global, text: &str, breaks: &[usize], wanted: &str) -> Result<bool, Fail> {
    let word = word_of(alloc, text, breaks)?;
    let mut items = word.iter();
    let _first = items.next();
    let copy = items.clone()?;
    Ok(marked_text(alloc, copy)?.as_str() == wanted)
}

// Whether the segments of a text join to it, and are so many, as callers promise.
fn join_and_count(
    alloc: Global,
    text: &str,
    breaks: &[usize],
    number: usize,
) -> Result<bool, AllocError> {
    if !Word::fits(text, breaks) {
        return Ok(false);
    }
    let all = all_segments(alloc, text, breaks)?.len();
    let counted = number_of_segments(text, Vec::from_slice(alloc, breaks)?);
    let joined = joined_segments(alloc, text, breaks)?;
    Ok(joined.as_str() == text && all == number && counted == number)
}

// Each row has its sentence, the text, its breaks, and its segments.
const CUT: &[(&str, &str, &[usize], &[&str])] = &[
    (
        "a text is cut at its breaks",
        "hyphenation",
        &[2, 6, 7],
        &["hy", "phen", "a", "tion"],
    ),
    (
        "a break at an end leaves an empty one",
        "ab",
        &[0, 2],
        &["", "ab", ""],
    ),
    ("the empty text is one empty segment", "", &[], &[""]),
];

// Each row has its sentence, the text, its breaks, the mark, and the text with it.
const MARKED: &[(&str, &str, &[usize], &str, &str)] = &[
    (
        "a mark stands after each segment but the last",
        "hyphenation",
        &[2, 6, 7],
        "-",
        "hy-phen-a-tion",
    ),
    (
        "each break has its mark",
        "anfractuous",
        &[2, 6, 8],
        "==",
        "an==frac==tu==ous",
    ),
    ("one break has one mark", "firkin", &[3], "=", "fir=kin"),
    (
        "a text without breaks has no mark",
        "bevies",
        &[],
        "-",
        "bevies",
    ),
];

#[test]
fn segments_are_cut_and_marked_at_the_breaks(rt: HostRuntime) -> Result<(), Fail> {
    for (shows, text, breaks, wanted) in CUT {
        expect(has_segments(rt.alloc(), text, breaks, wanted)?, *shows)?;
    }
    for (shows, text, breaks, mark, wanted) in MARKED {
        expect(has_marks(rt.alloc(), text, breaks, mark, wanted)?, *shows)?;
    }
    Ok(())
}

const TEXT: &str = "hyphenation";

const BREAKS: &[usize] = &[2, 6, 7];

#[test]
fn a_new_mark_holds_for_the_segments_to_come(rt: HostRuntime) -> Result<(), Fail> {
    let alloc = rt.alloc();
    let word = word_of(alloc, TEXT, BREAKS)?;
    expect(
        number_of_marked_segments(&word) == 4,
        "segments are one more than the breaks",
    )?;
    expect(
        has_new_mark(word.into_iter(), &["hy-", "phen=", "a=", "tion"]),
        "of a word",
    )?;
    let dictionary = extended(alloc, "2 2", "e asszonnyal 2,1,2,2,szsz 6,1,2,2,nyny")?;
    let changed = dictionary.hyphenate(alloc, "asszonnyal")?.into_iter();
    expect(
        has_new_mark(changed, &["asz-", "szony=", "nyal"]),
        "of a word with changes",
    )
}

#[test]
fn copies_go_on_and_segments_join(rt: HostRuntime) -> Result<(), Fail> {
    let copied = copy_goes_on(rt.alloc(), TEXT, BREAKS, "phen-a-tion")?;
    let joined = join_and_count(rt.alloc(), TEXT, BREAKS, 4)?;
    let items = all_marked(rt.alloc(), word_of(rt.alloc(), TEXT, BREAKS)?)?.len();
    let counted = Word::fits(TEXT, BREAKS)
        && counts_down(Segments::new(TEXT, BREAKS.iter().copied()), 4);
    expect_equal(&(copied, joined, counted, items), &(true, true, true, 4))
}
