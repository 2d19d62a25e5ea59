//! The paragraphs of a text.

ghost use Rattle.std.specs.Prelude.{◌≡◌, ◌++◌, All, IfOk, OnOk, map};
ghost use Rattle.std.specs.List.{flat_map};
ghost use Rattle.std.specs.String.{string_bytes};
ghost use Rattle.paragraphs.specs.Words.{words, if_any};
ghost use Rattle.paragraphs.specs.Paragraphs.{is_blank, paragraphs, IsParagraph};
ghost use Rattle.paragraphs.specs.Private.Gathered.{texts_of, PassesLine};

use crate::words::is_gap;
use std::alloc::{AllocError, Global};
use std::mem;

// Whether a line has only gaps.
fn is_blank(line: &str) -> bool
    ensures { result ≡ is_blank line.now }
{
    line.chars().all(|c| is_gap(c))
}

// Adds what is gathered, if it has a line.
fn push_if_any(all: &mut Vec<String>, gathered: String) -> Result<(), AllocError>
    ensures { OnOk result
        (map string_bytes all.new.items ≡ map string_bytes all.old.items ++ if_any (string_bytes gathered)) }
{
    if !gathered.is_empty() {
        all.push(gathered)?;
    }
    Ok(())
}

// Takes memory for four lines like the first one, where nothing is gathered yet. A line of more than 256 bytes gets
// less: it may be the only one.
fn make_room(gathered: &mut String, line: &str) -> Result<(), AllocError>
    ensures { OnOk result (string_bytes gathered.new ≡ string_bytes gathered.old) }
{
    if gathered.is_empty() {
        gathered.reserve(line.len().min(256) * 4)?;
    }
    Ok(())
}

// Passes a line: a blank one ends the paragraph that is gathered, and any other goes on with it.
fn pass_line(all: &mut Vec<String>, gathered: &mut String, line: &str) -> Result<(), AllocError>
    ensures { OnOk result (PassesLine (texts_of all.old.items) (string_bytes gathered.old) line.now
        (texts_of all.new.items) (string_bytes gathered.new)) }
{
    if is_blank(line) {
        let alloc = *gathered.allocator();
        push_if_any(all, mem::replace(gathered, String::new(alloc)))?;
        return Ok(());
    }
    make_room(gathered, line)?;
    gathered.push_str(line)?;
    gathered.push('\n')?;
    Ok(())
}

/// Returns the paragraphs of a text, each line with a line feed after it.
///
/// A line that has only gaps ends a paragraph, and is in none. Any other line is in one. So the words of all paragraphs
/// are the words of the text. The only error is that memory was refused.
///
/// ```text
/// paragraphs_of(alloc, "one\ntwo\n\n\nthree")?      // "one\ntwo\n", "three\n"
/// ```
pub fn paragraphs_of(alloc: Global, text: &str) -> Result<Vec<String>, AllocError>
    ensures paragraphs { IfOk result (λ all. map string_bytes all.items ≡ paragraphs text.now) }
    ensures lines { IfOk result (λ all. All IsParagraph (map string_bytes all.items)) }
    ensures words { IfOk result (λ all. flat_map words (map string_bytes all.items) ≡ words text.now) }
{
    let mut all = Vec::new(alloc);
    let mut gathered = String::new(alloc);
    for line in text.split('\n') {
        pass_line(&mut all, &mut gathered, line)?;
    }
    push_if_any(&mut all, gathered)?;
    Ok(all)
}
