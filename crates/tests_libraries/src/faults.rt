//! Runs whose readers or writer fail once: each error is returned as it was, and nothing is written before it is known. An
//! interrupted read or write is made again.

use crate::support::dictionaries::AMERICAN;
use crate::support::expect;
use crate::support::io_errors::{BROKEN_PIPE, CONNECTION_RESET, INTERRUPTED, OUT_OF_MEMORY};
use crate::support::readers::FailingReader;
use crate::support::writers::FailingWriter;
use hyphenation::Language;
use hyphenation::engine::{Kind, Marking, RunError, run, run_score};
use hyphenation::load::Error;
use linefill::run_fill;
use std::alloc::Global;
use std::test::Fail;

// The task of a run.
#[derive(Clone, Copy)]
enum Task {
    // Its input with hyphens.
    Text,
    // The lines of its input, of five columns.
    Lines,
    // The values of `firkin`, whatever the input is.
    Values,
}

// The numbers of the read of the dictionary, the read of the input, and the write that fail. They are counted from 1, and
// none is 0.
type Faults = (usize, usize, usize);

// How a run ended: `written`, or the name of its error with the system's code of it.
type End = (&'static str, Option<i32>);

fn told(end: &Result<(), RunError>) -> End {
    match end {
        Ok(()) => ("written", None),
        Err(RunError::Dictionary(Error::IO(error))) => ("dictionary", error.raw_os_error()),
        Err(RunError::Input(error)) => ("input", error.raw_os_error()),
        Err(RunError::Output(error)) => ("output", error.raw_os_error()),
        Err(RunError::Memory) => ("memory", None),
        Err(_) => ("refused", None),
    }
}

// A reader of two bytes a read, of which only the read of this number fails, with this code.
fn failing_once(left: &[u8], until: usize, code: i32) -> FailingReader<'_> {
    FailingReader {
        left,
        most: 2,
        until,
        stays: false,
        code,
    }
}

// Whether a run ends so, and its writer takes these bytes. Reads give two bytes, and writes take one.
fn ends_so(
    alloc: Global,
    task: Task,
    bytes: &[u8],
    (faults, code): (Faults, i32),
    (end, text): (End, &[u8]),
) -> bool {
    let lang = Language::english_us();
    let mut dictionary = failing_once(AMERICAN.as_bytes(), faults.0, code);
    let mut input = failing_once(bytes, faults.1, code);
    let mut output = FailingWriter {
        until: faults.2,
        code,
        taken: Vec::new(alloc),
    };
    let found = match task {
        Task::Text => {
            let marking = Marking {
                edits: &[],
                mark: "-",
            };
            run(
                alloc,
                Kind::Standard,
                lang,
                marking,
                &mut dictionary,
                &mut input,
                &mut output,
            )
        }
        Task::Lines => run_fill(alloc, lang, 5, &mut dictionary, &mut input, &mut output),
        Task::Values => {
            run_score(
                alloc,
                Kind::Standard,
                lang,
                "firkin",
                &mut dictionary,
                &mut output,
            )
        }
    };
    told(&found) == end && output.taken.as_slice() == text
}

const TEXT: &[u8] = b"Firkin, firkins.";

// An input that is not UTF-8.
const NO_TEXT: &[u8] = b"Firkin, firkins\xff";

// How a run ends whose read fails with a code.
fn end_of_read(code: i32, name: &'static str) -> End {
    if code == OUT_OF_MEMORY {
        ("memory", None)
    } else {
        (name, Some(code))
    }
}

// Each task, with its name and what it writes.
const TASKS: [(&str, Task, &[u8]); 3] = [
    ("hyphens", Task::Text, b"Fir-kin, fir-k-ins."),
    ("lines", Task::Lines, b"Fir-\nkin, \nfirk-\nins.\n"),
    ("values", Task::Values, b"0 2 5 2 0\n"),
];

// Whether a run ends by the read of that number of the dictionary, and by that of the input where the task reads one. The faults
// after that don't show.
fn ends_by_read(alloc: Global, task: Task, number: usize, code: i32) -> bool {
    let end = (end_of_read(code, "dictionary"), &b""[..]);
    let by_dictionary = ends_so(alloc, task, NO_TEXT, ((number, 1, 1), code), end);
    if matches!(task, Task::Values) {
        return by_dictionary;
    }
    let end = (end_of_read(code, "input"), &b""[..]);
    by_dictionary & ends_so(alloc, task, NO_TEXT, ((0, number, 1), code), end)
}

#[test]
fn a_read_that_fails_ends_a_run_with_its_error(rt: HostRuntime) -> Result<(), Fail> {
    for (shows, task, _) in &TASKS {
        for number in 1..=9 {
            for code in [CONNECTION_RESET, OUT_OF_MEMORY] {
                expect(ends_by_read(rt.alloc(), *task, number, code), shows)?;
            }
        }
    }
    Ok(())
}

#[test]
fn a_write_that_fails_leaves_a_beginning(rt: HostRuntime) -> Result<(), Fail> {
    for (shows, task, text) in &TASKS {
        for number in 1..=text.len() {
            let beginning = text.get(..number.saturating_sub(1)).unwrap_or(text);
            for code in [BROKEN_PIPE, OUT_OF_MEMORY] {
                let end = (("output", Some(code)), beginning);
                let faults = ((0, 0, number), code);
                expect(ends_so(rt.alloc(), *task, TEXT, faults, end), shows)?;
            }
        }
    }
    Ok(())
}

#[test]
fn an_interrupted_read_or_write_is_made_again(rt: HostRuntime) -> Result<(), Fail> {
    for (shows, task, text) in &TASKS {
        for number in 1..=9 {
            let faults = ((number, number, number), INTERRUPTED);
            expect(
                ends_so(rt.alloc(), *task, TEXT, faults, (("written", None), *text)),
                shows,
            )?;
        }
    }
    Ok(())
}
