//! Calls that take memory, and that no program makes.
//!
//! `tests/refused-memory` runs these tests by their names, and refuses in turn each request for memory between the two passings
//! of the gate. All that a call needs, such as a dictionary, is there before. After them a test writes a line with the result and
//! all that the call changed, and `no memory` or crosses where the call said so. The script judges that line. With ample memory
//! it must be the one that the test names.

use crate::support::dictionaries::{DOUBLED, load};
use crate::support::expect_equal;
use crate::support::gate::pass_gate;
use hyphenation::Standard;
use hyphenation::extended::Extended;
use hyphenation::hyphenator::Hyphenator;
use hyphenation::iter::{Hyphenating, Iter, Texts};
use std::alloc::{AllocError, Global};
use std::test::Fail;

// A dictionary of exceptions, whose list has room for one more.
const WORDS: &str =
    "hyphenation 1 standard\nlanguage en-us\nminima 2 3\ne hyphenation 2 6 7\ne kilim 2\n";

// A dictionary whose list of exceptions has room for nine, so one more makes it grow.
const FULL: &str =
    "hyphenation 1 standard\nlanguage en-us\nminima 2 3\ne a\ne b\ne c\ne d\ne e\ne f\ne g\ne h\ne i\n";

// Writes the line of a call. Where no memory was refused it must be this one.
fn tell(rt: &HostRuntime, is_refused: bool, line: &str, wanted: &str) -> Result<(), Fail> {
    let _ = println!(rt; "{line}");
    if is_refused {
        Ok(())
    } else {
        expect_equal(&line, &wanted)
    }
}

// Makes the call `add_exception` to the dictionary of a text, and tells how many breaks were listed before.
fn add(rt: &HostRuntime, text: &str, wanted: &str) -> Result<(), Fail> {
    let mut dictionary: Standard = load(rt.alloc(), text)?;
    let word = String::from_str(rt.alloc(), "kilim")?;
    let places = vec![in rt.alloc(); 3]?;
    if !Standard::fits(&word, &places) {
        return Err(Fail::new("the places don't fit"));
    }
    pass_gate(rt);
    let answer = dictionary.add_exception(word, places);
    pass_gate(rt);
    match answer {
        Ok(None) => tell(rt, false, "set", wanted),
        Ok(Some(old)) => {
            let line = format!(in rt.alloc(); "set in place of {}", old.len())?;
            tell(rt, false, &line, wanted)
        }
        Err(_) => tell(rt, true, "no memory", wanted),
    }
}

#[test]
fn an_exception_is_added(rt: HostRuntime) -> Result<(), Fail> {
    add(&rt, FULL, "set")
}

#[test]
fn a_listed_exception_is_added_again(rt: HostRuntime) -> Result<(), Fail> {
    add(&rt, WORDS, "set in place of 1")
}

// Makes the call `try_clone` of a word.
fn copy(rt: &HostRuntime, words: &Standard) -> Result<(), Fail> {
    let word = words.hyphenate(rt.alloc(), "hyphenation")?;
    pass_gate(rt);
    let answer = word.try_clone(rt.alloc());
    pass_gate(rt);
    let is_refused = answer.is_err();
    let line = match answer {
        Ok(copy) => format!(in rt.alloc(); "breaks: {}", copy.breaks.len())?,
        Err(_) => format!(in rt.alloc(); "no memory, and breaks: {}", word.breaks.len())?,
    };
    tell(rt, is_refused, &line, "breaks: 3")
}

#[test]
fn a_word_is_copied(rt: HostRuntime) -> Result<(), Fail> {
    copy(&rt, &load(rt.alloc(), WORDS)?)
}

// A segment, and the number of those to come.
type Taken = (Result<String, AllocError>, usize);

// Each segment with its number. A cross stands for one that was refused.
fn line_of(alloc: Global, taken: &[Taken]) -> Result<String, AllocError> {
    let mut line = String::new(alloc);
    for (item, left) in taken {
        let text = match item {
            Ok(item) => item.as_str(),
            Err(_) => "x",
        };
        line = format!(in alloc; "{line}{text}{left} ")?;
    }
    Ok(line)
}

// Takes all segments, with a new mark after the first, and tells each with the number of those to come.
fn take<'m, I: Texts>(
    rt: &HostRuntime,
    mut items: Hyphenating<'m, I>,
    wanted: &str,
) -> Result<(), Fail> {
    // It has room for all of them, so that keeping them requests no memory.
    let mut kept: Vec<Taken> = Vec::with_capacity(rt.alloc(), 8)?;
    pass_gate(rt);
    for _ in 0..8 {
        if let Some(item) = items.next() {
            let _ = kept.push((item, items.len()));
        }
        items.mark_with("=");
    }
    pass_gate(rt);
    let is_refused = kept.iter().any(|(item, _)| item.is_err());
    let mut line = line_of(rt.alloc(), &kept)?;
    let end = if items.next().is_none() {
        "none"
    } else {
        "more"
    };
    line.push_str(end)?;
    tell(rt, is_refused, &line, wanted)
}

// Takes the segments of a word, borrowed from it or not.
fn take_segments(rt: &HostRuntime, words: &Standard, is_borrowed: bool) -> Result<(), Fail> {
    let word = words.hyphenate(rt.alloc(), "hyphenation")?;
    let wanted = "hy-3 phen=2 a=1 tion0 none";
    if is_borrowed {
        take(rt, word.iter(), wanted)
    } else {
        take(rt, word.into_iter(), wanted)
    }
}

#[test]
fn borrowed_segments_are_marked(rt: HostRuntime) -> Result<(), Fail> {
    take_segments(&rt, &load(rt.alloc(), WORDS)?, true)
}

#[test]
fn segments_are_marked(rt: HostRuntime) -> Result<(), Fail> {
    take_segments(&rt, &load(rt.alloc(), WORDS)?, false)
}

// Takes the segments of a word whose breaks change letters.
fn take_changed_segments(rt: &HostRuntime, changes: &Extended) -> Result<(), Fail> {
    let word = changes.hyphenate(rt.alloc(), "asszonnyal")?;
    take(rt, word.into_iter(), "asz-2 szony=1 nyal0 none")
}

#[test]
fn changed_segments_are_marked(rt: HostRuntime) -> Result<(), Fail> {
    take_changed_segments(&rt, &load(rt.alloc(), DOUBLED)?)
}
