//! Calls that have an allocator, and request no memory. A call without one can't request any.
//!
//! `tests/refused-memory` runs the test by its name, and refuses each request between two passings of the gate.

use crate::support::dictionaries::load;
use crate::support::expect_equal;
use crate::support::gate::pass_gate;
use hyphenation::Standard;
use hyphenation::case_folding::refold;
use hyphenation::hyphenator::{Hyphenator, Word, soft_hyphen_indices};
use hyphenation::iter::{Hyphenating, Iter, SegmentText, Segments, SegmentsExt, Texts};
use std::alloc::AllocError;
use std::borrow::CowStr;
use std::test::Fail;

// A dictionary of exceptions.
const WORDS: &str =
    "hyphenation 1 standard\nlanguage en-us\nminima 2 3\ne hyphenation 2 6 7\ne kilim 2\n";

// Counts results, and those that were right.
#[derive(Clone, Copy)]
struct Tally {
    made: usize,
    right: usize,
}

impl Tally {
    fn note(&mut self, is_right: bool) {
        self.made = self.made.saturating_add(1);
        self.right = self.right.saturating_add(usize::from(is_right));
    }
}

// Whether a text is this one, borrowed.
fn is_borrowed(text: &CowStr<'_>, wanted: &str) -> bool {
    matches!(text, CowStr::Borrowed(_)) && text.as_str() == wanted
}

fn check_folding(tally: &mut Tally, rt: &HostRuntime) {
    match refold(rt.alloc(), "asszonnyal é ß") {
        Ok((folded, shifts)) => {
            tally.note(is_borrowed(&folded, "asszonnyal é ß") && shifts.is_empty());
        }
        Err(_) => tally.note(false),
    }
    tally.note(matches!(soft_hyphen_indices(rt.alloc(), "ri-bo é"), Ok(None)));
}

fn check_removals(tally: &mut Tally, dictionary: &mut Standard) {
    let old = dictionary.remove_exception("kilim");
    tally.note(old.map_or(0, |old| old.len()) == 1);
    tally.note(dictionary.remove_exception("kilim").is_none());
    tally.note(dictionary.boundaries("hyphenation") == Some((2, 8)));
    tally.note(dictionary.unbreakable_chars() == (2, 3));
}

fn check_marked_segments(tally: &mut Tally, word: &Word<'_, usize>) {
    let mut items = word.iter();
    items.mark_with("=");
    tally.note(items.len() == 4 && items.size_hint() == (4, Some(4)));
    if let Ok(copy) = items.clone() {
        tally.note(copy.len() == 4);
    }
}

fn check_segments(tally: &mut Tally, word: &Word<'_, usize>) {
    let mut segments = word.iter().segments();
    tally.note(segments.next() == Some("hy"));
    tally.note(segments.pull() == Some("phen") && segments.left() == 2);
    if let Ok(mut copied) = segments.clone() {
        tally.note(copied.next() == Some("a") && copied.len() == 1);
    }
}

fn is_item(item: Option<Result<CowStr<'_>, AllocError>>, wanted: &str) -> bool {
    match item {
        Some(Ok(item)) => is_borrowed(&item, wanted),
        _ => false,
    }
}

// The breaks are those of `hyphenation`.
fn check_changed_segments(tally: &mut Tally, rt: &HostRuntime, breaks: Vec<usize>) {
    if Word::fits("hyphenation", &breaks) {
        let mut changed = SegmentsExt::new(rt.alloc(), "hyphenation", breaks.iter().copied());
        tally.note(is_item(changed.next(), "hy"));
        match changed.pull() {
            Some(item) => tally.note(matches!(item.text(), Ok("phen"))),
            None => tally.note(false),
        }
        let segments = Segments::new("hyphenation", breaks.iter().copied());
        tally.note(Hyphenating::new(rt.alloc(), segments).len() == 4);
    }
}

fn check_word(tally: &mut Tally, rt: &HostRuntime, word: Word<'_, usize>) {
    pass_gate(rt);
    check_marked_segments(tally, &word);
    check_segments(tally, &word);
    tally.note(word.into_iter().len() == 4);
    pass_gate(rt);
}

fn check_dictionary(tally: &mut Tally, rt: &HostRuntime, mut words: Standard) {
    if let Ok(word) = words.hyphenate(rt.alloc(), "hyphenation") {
        check_word(tally, rt, word);
    }
    pass_gate(rt);
    check_removals(tally, &mut words);
    pass_gate(rt);
}

fn check_breaks(tally: &mut Tally, rt: &HostRuntime) {
    let breaks: Result<_, _> = vec![in rt.alloc(); 2, 6, 7];
    if let Ok(breaks) = breaks {
        pass_gate(rt);
        check_changed_segments(tally, rt, breaks);
        pass_gate(rt);
    }
}

// Makes each call. It writes how many results there were, and how many were right.
fn call_each(rt: &HostRuntime) -> Result<(), Fail> {
    let mut tally = Tally { made: 0, right: 0 };
    pass_gate(rt);
    check_folding(&mut tally, rt);
    pass_gate(rt);
    check_dictionary(&mut tally, rt, load(rt.alloc(), WORDS)?);
    check_breaks(&mut tally, rt);
    let _ = println!(rt; "{} results, {} right", tally.made, tally.right);
    expect_equal(&(tally.made, tally.right), &(15, 15))
}

#[test]
fn calls_answer_without_memory(rt: HostRuntime) -> Result<(), Fail> {
    call_each(&rt)
}
