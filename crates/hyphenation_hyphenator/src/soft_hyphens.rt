//! Soft hyphens, by which a word names its own breaks.
ghost use Rattle.std.specs.Prelude.{◌≡◌, ◌≢◌, ◌<◌, ◌↔◌, [], All, length, IfOk, IfSome, IsSome, Ok, None};
ghost use Rattle.std.specs.Str.{IsCharBoundary};
ghost use Rattle.std.specs.List.Sorted.{IsStrictlyIncreasing};
ghost use Rattle.hyphenation_hyphenator.specs.SoftHyphens.{soft_hyphens};

use std::alloc::{AllocError, Global};

const SOFT_HYPHEN: char = '\u{ad}';

/// Returns the places at which the soft hyphens of a word begin, in ascending order, or `None` where it has none.
///
/// Places are counted in bytes. A word without soft hyphens takes no memory and is never an error; for any other word
/// an error says that memory was refused.
///
/// ```text
/// soft_hyphen_indices(alloc, "hy\u{ad}phen\u{ad}ation")?      // Some: 2, 8
/// soft_hyphen_indices(alloc, "hyphenation")?                  // None
/// ```
pub fn soft_hyphen_indices(alloc: Global, word: &str) -> Result<Option<Vec<usize>>, AllocError>
    ensures places { IfOk result (λ found. IfSome found (λ places. places.items ≡ soft_hyphens word.now)) }
    ensures some_if_any { IfOk result (λ found. IsSome found ↔ (soft_hyphens word.now ≢ [])) }
    ensures none_without { soft_hyphens word.now ≡ [] → result ≡ Ok None }
    ensures ascending { IfOk result (λ found. IfSome found (λ places. IsStrictlyIncreasing places.items)) }
    ensures within_word { IfOk result (λ found. IfSome found (λ places.
        All (λ place. IsCharBoundary word.now place × (place < length word.now)) places.items)) }
{
    // A fast path, since most words are ASCII.
    if word.is_ascii() {
        return Ok(None);
    }
    let mut places = Vec::new(alloc);
    for (place, c) in word.char_indices() {
        if c == SOFT_HYPHEN {
            places.push(place)?;
        }
    }
    if places.is_empty() {
        return Ok(None);
    }
    Ok(Some(places))
}
