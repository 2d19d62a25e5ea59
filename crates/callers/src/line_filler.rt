//! The heart of a line filler: how much of a word still goes on a line.

ghost use Rattle.std.specs.Prelude.{◌≡◌, ◌<◌, ℕ, IfOk, IfSome, length, slice_index};
ghost use Rattle.std.specs.Option.{option_map};
ghost use Rattle.std.specs.Str.{IsCharBoundary};
ghost use Rattle.callers.specs.Room.{leaves_room, last_room, fitting_parts};

use hyphenation::Hyphenator;
use std::alloc::{AllocError, Global};

// Whether a word up to a place, and a hyphen, have at most that many characters.
fn leaves_room(word: &str, columns: usize, place: usize) -> bool
    requires { IsCharBoundary word.now place }
    ensures { result ≡ leaves_room word.now columns place }
{
    word[..place].chars().count() < columns
}

// The last of the places that leave room for a hyphen.
fn last_room(word: &str, columns: usize, places: &[usize]) -> Option<usize>
    requires { (i : ℕ) → i < length places.now → IsCharBoundary word.now (slice_index places.now i) }
    ensures last_room { result ≡ last_room word.now columns places.now }
    ensures on_boundary { IfSome result (λ place. IsCharBoundary word.now place) }
{
    let mut last = None;
    for place in places {
        if leaves_room(word, columns, *place) {
            last = Some(*place);
        }
    }
    last
}

/// Splits a word at its last break that leaves room for a hyphen on a line with `columns` characters left.
///
/// Returns the part for this line, without the hyphen, and the part for the next line; `None` if no break leaves room.
/// The only error is that memory was refused. The dictionary is known only by its trait.
///
/// ```text
/// break_to_fit(alloc, &dictionary, "hyphenation", 7)?    // Some(("hyphen", "ation")), with breaks at 2, 6 and 7
/// ```
pub fn break_to_fit<'h, 't, H: Hyphenator<'h, Opportunity = usize>>(
    alloc: Global,
    dictionary: &'h H,
    word: &'t str,
    columns: usize,
) -> Result<Option<(&'t str, &'t str)>, AllocError>
    ensures { IfOk result (λ found. option_map (λ parts. (parts.0.now, parts.1.now)) found
        ≡ fitting_parts word.now columns (H.breaks_of dictionary.now word.now)) }
{
    let word = dictionary.hyphenate(alloc, word)?;
    match last_room(word.text, columns, &word.breaks) {
        Some(place) => Ok(Some(word.text.split_at(place))),
        None => Ok(None),
    }
}
