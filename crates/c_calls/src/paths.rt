//! The paths at which the dictionary of a language is looked for, and its list of exceptions.

ghost use Rattle.std.specs.Prelude.{◌≡◌, ◌==◌, ◌++◌, IfOk, OnOk, map};
ghost use Rattle.std.specs.List.{list_any};
ghost use Rattle.std.specs.String.{string_bytes};
ghost use Rattle.hyphenation_breaks.specs.Borrowed.{texts_now};
ghost use Rattle.language_search.specs.Paths.{paths_by_tag};
ghost use Rattle.c_calls.specs.Paths.{ended_path, ended_paths, paths_by, WritesSought};

use crate::buffers::fill_buffer;
use crate::statuses::{NOT_UTF8, OUT_OF_MEMORY};
use language_search::{Sought, exception_paths_of, folders_of, paths_of};
use std::alloc::{AllocError, Global};

// Whether a path has a byte 0 in it.
fn has_byte_0(path: &[u8]) -> bool
    ensures { result ≡ list_any (λ byte. byte == 0) path.now }
{
    path.iter().any(|byte| *byte == 0)
}

// Adds a path with a byte 0 behind it. One with a byte 0 in it is left out.
fn push_path(text: &mut Vec<u8>, path: &[u8]) -> Result<(), AllocError>
    ensures { OnOk result (text.new.items ≡ text.old.items ++ ended_path path.now) }
{
    if has_byte_0(path) {
        return Ok(());
    }
    text.extend_from_slice(path)?;
    text.push(0)?;
    Ok(())
}

// Paths, one after the other, each with a byte 0 behind it.
fn joined(alloc: Global, paths: &[String]) -> Result<Vec<u8>, AllocError>
    ensures { IfOk result (λ text. text.items ≡ ended_paths (map string_bytes paths.now)) }
{
    let mut text = Vec::new(alloc);
    for path in paths {
        push_path(&mut text, path.as_bytes())?;
    }
    Ok(text)
}

// Texts, borrowed.
fn borrowed(alloc: Global, texts: &[String]) -> Result<Vec<&str>, AllocError>
    ensures { IfOk result (λ found. texts_now found.items ≡ map string_bytes texts.now) }
{
    texts.iter().map(|text| text.as_str()).collect(alloc)
}

// The paths of a tag in folders.
fn paths_in_folders(
    alloc: Global,
    sought: Sought,
    folders: &[&str],
    tag: &str,
) -> Result<Vec<String>, AllocError>
    ensures { IfOk result (λ paths. map string_bytes paths.items ≡ paths_by_tag sought (texts_now folders.now) tag.now) }
{
    match sought {
        Sought::Dictionary => paths_of(alloc, folders, tag),
        Sought::Exceptions => exception_paths_of(alloc, folders, tag),
    }
}

// The paths of a tag by the values of the variables, one after the other.
#[tactic(auto, unfolding(crate::specs::Paths::paths_by))]
fn paths_by(
    alloc: Global,
    sought: Sought,
    tag: &str,
    path: &str,
    data_home: &str,
    home: &str,
) -> Result<Vec<u8>, AllocError>
    ensures { IfOk result (λ text. text.items ≡ paths_by sought tag.now (path.now, data_home.now, home.now)) }
{
    let folders = folders_of(alloc, path, data_home, home)?;
    let folders = borrowed(alloc, &folders)?;
    let paths = paths_in_folders(alloc, sought, &folders, tag)?;
    joined(alloc, &paths)
}

/// Writes the paths at which a file of that sort is looked for to a buffer, each with a byte 0 behind it, and returns the
/// status. The paths are by the values of the variables.
#[tactic(auto, using(crate::proofs::Finding::finds))]
pub fn write_paths(
    alloc: Global,
    sought: Sought,
    tag: &[u8],
    path: &[u8],
    data_home: &[u8],
    home: &[u8],
    buffer: &mut [u8],
    count: &mut usize,
) -> u32
    ensures { WritesSought sought tag.now (path.now, data_home.now, home.now) buffer.old buffer.new count.old count.new
        result }
{
    let Ok(tag) = std::str::from_utf8(tag) else {
        return NOT_UTF8;
    };
    let Ok(path) = std::str::from_utf8(path) else {
        return NOT_UTF8;
    };
    let Ok(data_home) = std::str::from_utf8(data_home) else {
        return NOT_UTF8;
    };
    let Ok(home) = std::str::from_utf8(home) else {
        return NOT_UTF8;
    };
    let Ok(found) = paths_by(alloc, sought, tag, path, data_home, home) else {
        return OUT_OF_MEMORY;
    };
    fill_buffer(&found, buffer, count)
}
