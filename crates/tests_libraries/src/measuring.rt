//! Work to be measured: loads a dictionary, and scores or hyphenates each word of a list.
//!
//! It has no clock: `bench/measure` runs the test by its name with four more arguments, and counts its instructions. Each of the
//! tasks `words`, and `score` or `hyphenate`, includes the ones before it, and any other task only loads. So the cost of a task
//! is the difference of two runs.

use crate::support::dictionaries::{AMERICAN, load};
use crate::support::expect_equal_in;
use crate::support::gate::pass_gate;
use hyphenation::extended::Extended;
use hyphenation::load::Error;
use hyphenation::score::Score;
use hyphenation::{Hyphenator, Load, Standard};
use std::alloc::Global;
use std::test::Fail;
use std::{env, fs};

// The number of places of all words.
fn score_all<'d, D: Score<'d>>(
    alloc: Global,
    dictionary: &'d D,
    words: &str,
) -> Result<usize, Error> {
    let mut places = 0usize;
    for word in words.lines() {
        let values = dictionary.score(alloc, word).map_err(Error::Memory)?;
        places = places.wrapping_add(values.len());
    }
    Ok(places)
}

// The number of breaks of all words.
fn hyphenate_all<'h, H: Hyphenator<'h>>(
    alloc: Global,
    dictionary: &'h H,
    words: &str,
) -> Result<usize, Error> {
    let mut breaks = 0usize;
    for word in words.lines() {
        let word = dictionary.hyphenate(alloc, word).map_err(Error::Memory)?;
        breaks = breaks.wrapping_add(word.breaks.len());
    }
    Ok(breaks)
}

// Does a task, and returns the number that it counts.
fn do_task<'d, D: Score<'d> + Hyphenator<'d>>(
    alloc: Global,
    task: &str,
    dictionary: &'d D,
    words: &str,
) -> Result<usize, Error> {
    match task {
        "words" => Ok(words.lines().count()),
        "score" => score_all(alloc, dictionary, words),
        "hyphenate" => hyphenate_all(alloc, dictionary, words),
        _ => Ok(0),
    }
}

// Does a task with a dictionary that was loaded, or returns why it was not.
fn do_with<'d, D: Score<'d> + Hyphenator<'d>>(
    rt: &HostRuntime,
    task: &str,
    dictionary: &'d Result<D, Error>,
    list: &str,
) -> Option<usize> {
    match (dictionary, fs::read_to_string(rt, list)) {
        (Ok(dictionary), Ok(words)) => do_task(rt.alloc(), task, dictionary, &words).ok(),
        _ => None,
    }
}

// Loads the dictionary of a file.
fn load_file<D: Load>(rt: &HostRuntime, path: &str) -> Result<D, Error> {
    let mut file = fs::open(rt, path)?;
    D::any_from_reader(rt.alloc(), &mut file)
}

// Does a task with the dictionary of a kind and a path, and with the words of a list, and writes the number that it counts. After
// the task `memory` it waits for the end of standard input, so that its memory can be looked at.
fn measure(rt: &HostRuntime, task: &str, kind: &str, path: &str, list: &str) -> Result<(), Fail> {
    let count = if kind == "extended" {
        do_with(rt, task, &load_file::<Extended>(rt, path), list)
    } else {
        do_with(rt, task, &load_file::<Standard>(rt, path), list)
    };
    match count {
        Some(count) => {
            let _ = println!(rt; "{count}");
            if task == "memory" {
                pass_gate(rt);
            }
            Ok(())
        }
        None => Err(Fail::new("the task was not done")),
    }
}

// Each task, and what it counts in the two words `firkin` and `kin`.
const COUNTS: [(&str, usize); 4] = [("load", 0), ("words", 2), ("score", 7), ("hyphenate", 1)];

fn count_firkins(alloc: Global, dictionary: &Standard) -> Result<(), Fail> {
    for (task, wanted) in &COUNTS {
        let found = do_task(alloc, task, dictionary, "firkin\nkin\n")?;
        expect_equal_in(task, &found, wanted)?;
    }
    Ok(())
}

#[test]
fn tasks_count_words_places_and_breaks(rt: HostRuntime) -> Result<(), Fail> {
    let words: Vec<String> = env::args(&rt)?.collect(rt.alloc())?;
    match words.as_slice() {
        [_, _, task, kind, path, list] => measure(&rt, task, kind, path, list),
        _ => count_firkins(rt.alloc(), &load(rt.alloc(), AMERICAN)?),
    }
}
