//! Dictionaries that are loaded: from readers that fail or give few bytes a read, from the result of a read, and from files.

use crate::support::dictionaries::SMALLEST;
use crate::support::files::new_file;
use crate::support::io_errors::{CONNECTION_RESET, INTERRUPTED, OUT_OF_MEMORY};
use crate::support::readers::FailingReader;
use crate::support::{expect_equal, expect_equal_in};
use hyphenation::extended::Extended;
use hyphenation::load::{Error, Load};
use hyphenation::{Language, Standard};
use std::alloc::Global;
use std::fs::remove_file;
use std::io;
use std::test::Fail;

// An extended text of 61 bytes.
const EXTENDED: &[u8] = b"hyphenation 1 extended\nlanguage hu\nminima 2 2\np a1b 1,1,0,1,x";

// A standard text, in British English.
const BRITISH: &[u8] =
    b"hyphenation 1 standard\nlanguage en-gb\nminima 2 3\np .fi2\np i2r\np r2k\n";

// The system's codes of a file that is missing, and of a folder in its place.
const NO_FILE: i32 = 2;

const FOLDER: i32 = 21;

// How loading ended.
fn end_of<D: Drop>(loaded: Result<D, Error>) -> &'static str {
    match loaded {
        Ok(_) => "loaded",
        Err(Error::Memory(_)) => "no memory",
        Err(Error::Deserialization { .. }) => "refused",
        Err(Error::LanguageMismatch { .. }) => "another language",
        Err(Error::IO(error)) => {
            match error.raw_os_error() {
                Some(CONNECTION_RESET) => "reset",
                Some(NO_FILE) => "no file",
                Some(FOLDER) => "a folder",
                _ => "another error",
            }
        }
    }
}

// A text, the code of its language, and the end of loading it where no read fails.
type Row = (&'static [u8], &'static str, &'static str);

// Fails unless loading a text ends so with `fails` for each number of a read that fails, up to that of the read that finds
// the end. Nothing is read after that. Reads give at most so many bytes.
fn expect_failing<D: Load + Drop>(
    alloc: Global,
    row: &Row,
    (most, stays): (usize, bool),
    error: i32,
    fails: &'static str,
) -> Result<(), Fail> {
    let (text, code, whole) = *row;
    let language = Language::from_code(code).unwrap_or(Language::turkish());
    for number in 1..=text.len().saturating_add(2) {
        let mut reader = FailingReader {
            left: text,
            most,
            until: number,
            stays,
            code: error,
        };
        let end = end_of(D::from_reader(alloc, language, &mut reader));
        let is_reached = number.saturating_sub(1).saturating_mul(most)
            < text.len().saturating_add(most);
        let wanted = if is_reached { fails } else { whole };
        expect_equal_in(
            format_args!("{whole} in {code}, {most} bytes a read, read {number}"),
            &end,
            &wanted,
        )?;
    }
    Ok(())
}

// Fails unless each read of a text may fail. An error comes before any line is judged, and an interrupted read is tried
// again.
fn expect_reads<D: Load + Drop>(alloc: Global, row: &Row) -> Result<(), Fail> {
    expect_failing::<D>(alloc, row, (1, true), CONNECTION_RESET, "reset")?;
    expect_failing::<D>(alloc, row, (1, true), OUT_OF_MEMORY, "no memory")?;
    expect_failing::<D>(alloc, row, (2, false), CONNECTION_RESET, "reset")?;
    expect_failing::<D>(alloc, row, (2, false), OUT_OF_MEMORY, "no memory")?;
    expect_failing::<D>(alloc, row, (2, false), INTERRUPTED, row.2)
}

// Texts that are loaded as standard ones, and as extended ones.
const STANDARD_ROWS: &[Row] = &[
    (BRITISH, "en-gb", "loaded"),
    (SMALLEST, "en-us", "loaded"),
    (SMALLEST, "en-gb", "another language"),
    (b"no head\n", "en-us", "refused"),
];

const EXTENDED_ROWS: &[Row] = &[(EXTENDED, "hu", "loaded"), (SMALLEST, "hu", "refused")];

#[test]
fn a_read_that_fails_decides_the_outcome(rt: HostRuntime) -> Result<(), Fail> {
    for row in STANDARD_ROWS {
        expect_reads::<Standard>(rt.alloc(), row)?;
    }
    for row in EXTENDED_ROWS {
        expect_reads::<Extended>(rt.alloc(), row)?;
    }
    Ok(())
}

#[test]
fn the_error_of_a_read_is_passed_on(rt: HostRuntime) -> Result<(), Fail> {
    let denied = io::Error::new(io::ErrorKind::PermissionDenied, "the door is locked");
    let end = end_of(Standard::from_read(rt.alloc(), Err(denied)));
    expect_equal(&end, &"another error")?;
    let end = end_of(Standard::from_read(
        rt.alloc(),
        Err(io::Error::from_raw_os_error(OUT_OF_MEMORY)),
    ));
    expect_equal(&end, &"no memory")
}

// How loading a standard dictionary of American English from a path ends.
fn end_at(rt: &HostRuntime, path: &str) -> &'static str {
    end_of(Standard::from_path(rt, rt.alloc(), Language::english_us(), path))
}

// How loading from a new file of this name ends, and after the file was removed.
fn ends_of_file(
    rt: &HostRuntime,
    name: &str,
    bytes: &[u8],
) -> Result<(&'static str, &'static str), Fail> {
    let path = new_file(rt, name, bytes)?;
    let end = end_at(rt, &path);
    remove_file(rt, path.as_str())?;
    Ok((end, end_at(rt, &path)))
}

#[test]
fn a_dictionary_is_loaded_from_the_file_of_its_path(rt: HostRuntime) -> Result<(), Fail> {
    expect_equal(&ends_of_file(&rt, "a", SMALLEST)?, &("loaded", "no file"))?;
    expect_equal(
        &ends_of_file(&rt, "a ", BRITISH)?,
        &("another language", "no file"),
    )?;
    expect_equal(&end_at(&rt, "."), &"a folder")
}
