//! Dictionaries that are written: to writers that fail, after edits, and as `Debug` shows their parts.

use crate::support::dictionaries::{SMALLEST, load};
use crate::support::io_errors::{BROKEN_PIPE, OUT_OF_MEMORY};
use crate::support::writers::FailingWriter;
use crate::support::{expect, expect_text};
use any_dictionary::AnyDictionary;
use hyphenation::load::{Error, Load};
use hyphenation::{Language, Standard};
use hyphenation_dictionary::search::automaton_of;
use std::alloc::Global;
use std::test::Fail;

// Whether writing a dictionary to a writer that fails at this write returns its error, after the bytes before it.
fn stops_at_write(
    alloc: Global,
    dictionary: &AnyDictionary,
    text: &[u8],
    number: usize,
    code: i32,
) -> bool {
    let mut output = FailingWriter {
        until: number,
        code,
        taken: Vec::new(alloc),
    };
    let end = dictionary.to_writer(alloc, &mut output);
    matches!(end, Err(Error::IO(e)) if e.raw_os_error() == Some(code))
        && output.taken.len() + 1 == number
        && text.starts_with(&output.taken)
}

// Whether a writer of one byte a write that does not fail gets the whole text of a dictionary.
fn takes_whole_text(alloc: Global, dictionary: &AnyDictionary, text: &[u8]) -> Result<bool, Error> {
    let mut output = FailingWriter {
        until: text.len() + 1,
        code: BROKEN_PIPE,
        taken: Vec::new(alloc),
    };
    dictionary.to_writer(alloc, &mut output)?;
    Ok(output.taken.as_slice() == text)
}

// Fails unless the error of each write of a canonical text is returned, whether or not it is out of memory.
fn expect_each_write_can_fail(alloc: Global, text: &str) -> Result<(), Fail> {
    let dictionary: AnyDictionary = load(alloc, text)?;
    let text = text.as_bytes();
    for number in 1..=text.len() {
        let is_so = stops_at_write(alloc, &dictionary, text, number, BROKEN_PIPE)
            && stops_at_write(alloc, &dictionary, text, number, OUT_OF_MEMORY);
        expect(is_so, format_args!("{text:?}, write {number}"))?;
    }
    expect(
        takes_whole_text(alloc, &dictionary, text)?,
        "the whole text is taken",
    )
}

#[test]
fn an_error_of_the_writer_is_returned(rt: HostRuntime) -> Result<(), Fail> {
    let text = "hyphenation 1 standard\nlanguage x\nminima 2 3\np a1b\n";
    expect_each_write_can_fail(rt.alloc(), text)?;
    let text = "hyphenation 1 extended\nlanguage hu\nminima 2 2\np a1b 1,1,0,1,x\n";
    expect_each_write_can_fail(rt.alloc(), text)
}

// The patterns of a text's dictionary as `Debug` shows them.
fn patterns_debugged(alloc: Global, text: &[u8]) -> Result<String, Error> {
    let mut reader = text;
    let dictionary = Standard::any_from_reader(alloc, &mut reader)?;
    format!(in alloc; "{:?}", automaton_of(&dictionary)).map_err(Error::Memory)
}

// The nodes are the root, `a` and `ab`. The code of the language is the longest one, of 32 bytes.
#[test]
fn a_language_is_shown_by_its_code_and_patterns_by_their_number_of_nodes(
    rt: HostRuntime,
) -> Result<(), Fail> {
    let code = "abcdefghijklmnopqrstuvwxyz-12345";
    let language = Language::from_code(code).ok_or("a code")?;
    let wanted = "abcdefghijklmnopqrstuvwxyz-12345 Language(\"abcdefghijklmnopqrstuvwxyz-12345\")";
    expect_text(format!(in rt.alloc(); "{language} {language:?}"), wanted)?;
    expect_text(
        patterns_debugged(rt.alloc(), SMALLEST),
        "Automaton { nodes: 3 }",
    )
}
