//! Places of the NFC of a word, carried back to the word.

ghost use Rattle.std.specs.Prelude.{◌≡◌, ◌+◌, ◌-◌, ◌<◌, ◌≤◌, ◌++◌, [], ◌∷◌, length, if◌then◌else◌, IfOk, OnOk};
ghost use Rattle.composed_words.specs.Composed.{carried, composed, stands_for_any};
ghost use Rattle.composed_words.specs.Private.Segments.{carried_among, ends_at_any, has_between, IsSegment};

use crate::composing::passes;
use crate::segments::split_segment;
use hyphenation_breaks::laws::boundary_is_of_chars;
use std::alloc::{AllocError, Global};
use unicode_normalization::to_nfc;

// Puts a place at the end of a list, if it is one that is wanted.
fn push_if(found: &mut Vec<usize>, place: usize, is_wanted: bool) -> Result<(), AllocError>
    ensures { OnOk result (found.new.items ≡ found.old.items ++ (if is_wanted then place ∷ [] else [])) }
{
    if is_wanted {
        found.push(place)?;
    }
    Ok(())
}

// Whether some place lies between two others.
fn has_between(places: &[usize], low: usize, high: usize) -> bool
    ensures { result ≡ has_between places.now low high }
{
    places.iter().any(|place| low < *place && *place < high)
}

// Whether the NFC of two texts that follow one another is `nfc`, and the first of them ends at one of some places of it.
fn ends_at_any(
    alloc: Global,
    front: &str,
    back: &str,
    nfc: &str,
    places: &[usize],
) -> Result<bool, AllocError>
    ensures { IfOk result (λ ends. ends ≡ ends_at_any front.now back.now nfc.now places.now) }
{
    let mut parts = to_nfc(alloc, front)?;
    let count = parts.as_str().len();
    let second = to_nfc(alloc, back)?;
    parts.push_str(second.as_str())?;
    if parts.as_str() == nfc {
        return Ok(places.contains(&count));
    }
    Ok(false)
}

// Whether a place of a word stands for one of some places of its NFC. The word is composed on both sides of the place.
fn stands_for_any(
    alloc: Global,
    word: &str,
    nfc: &str,
    places: &[usize],
    place: usize,
) -> Result<bool, AllocError>
    requires nfc { nfc.now ≡ composed word.now }
    ensures { IfOk result (λ stands. stands ≡ stands_for_any word.now places.now place) }
{
    boundary_is_of_chars();
    match word.split_at_checked(place) {
        None => Ok(false),
        Some((front, back)) => ends_at_any(alloc, front, back, nfc, places),
    }
}

// Appends the places from `start` on, and before `end`, that stand for one of some places of the NFC.
fn push_each(
    alloc: Global,
    found: &mut Vec<usize>,
    word: &str,
    nfc: &str,
    places: &[usize],
    start: usize,
    end: usize,
) -> Result<(), AllocError>
    requires nfc { nfc.now ≡ composed word.now }
    requires order { start ≤ end }
    ensures { OnOk result (found.new.items ≡ found.old.items
        ++ carried_among word.now places.now start (end - start)) }
{
    for place in start..end {
        let stands = stands_for_any(alloc, word, nfc, places, place)?;
        push_if(found, place, stands)?;
    }
    Ok(())
}

// Returns how many bytes the NFC of a text has.
fn composed_len(alloc: Global, text: &str) -> Result<usize, AllocError>
    ensures { IfOk result (λ count. count ≡ length (composed text.now)) }
{
    if passes(text) {
        return Ok(text.len());
    }
    let nfc = to_nfc(alloc, text)?;
    Ok(nfc.as_str().len())
}

// Appends the places within a segment that stand for one of some places of the NFC. They are asked one by one only where one
// of these places lies within the NFC of the segment.
fn push_inner(
    alloc: Global,
    found: &mut Vec<usize>,
    word: &str,
    nfc: &str,
    places: &[usize],
    start: usize,
    segment: &str,
    base: usize,
    end: usize,
) -> Result<(), AllocError>
    requires nfc { nfc.now ≡ composed word.now }
    requires segment { IsSegment word.now start segment.now base }
    requires some { 0 < length segment.now }
    requires end { end ≡ base + length (composed segment.now) }
    ensures { OnOk result (found.new.items ≡ found.old.items
        ++ carried_among word.now places.now (start + 1) (length segment.now - 1)) }
{
    boundary_is_of_chars();
    if has_between(places, base, end) {
        return push_each(
            alloc,
            found,
            word,
            nfc,
            places,
            start + 1,
            start + segment.len(),
        );
    }
    Ok(())
}

// Appends the places from the beginning of a segment on, and before its end, that stand for one of some places of the NFC.
// Returns the place of the NFC for which the end of the segment stands.
fn push_segment(
    alloc: Global,
    found: &mut Vec<usize>,
    word: &str,
    nfc: &str,
    places: &[usize],
    start: usize,
    segment: &str,
    base: usize,
) -> Result<usize, AllocError>
    requires nfc { nfc.now ≡ composed word.now }
    requires segment { IsSegment word.now start segment.now base }
    requires some { 0 < length segment.now }
    ensures items { OnOk result (found.new.items ≡ found.old.items
        ++ carried_among word.now places.now start (length segment.now)) }
    ensures next { IfOk result (λ place. place ≡ base + length (composed segment.now)) }
{
    boundary_is_of_chars();
    push_if(found, start, places.contains(&base))?;
    let end = base + composed_len(alloc, segment)?;
    push_inner(alloc, found, word, nfc, places, start, segment, base, end)?;
    Ok(end)
}

/// Returns the places of a word that stand for some places of its NFC, in ascending order.
///
/// A place of a word stands for the place of its NFC that has the NFC of the same letters before it and after it. So no place
/// is before a mark that the NFC joins with the letter before it. `nfc` is the NFC of the word, as
/// [`composed`](crate::composed) returns it. The error says that memory was refused.
///
/// ```text
/// // Schü-ler: the ü has two bytes in NFC, and three as it is written here
/// carried_places(alloc, "Schu\u{308}ler", "Schüler", &[5])?      // 6
/// ```
pub fn carried_places(
    alloc: Global,
    word: &str,
    nfc: &str,
    places: &[usize],
) -> Result<Vec<usize>, AllocError>
    requires nfc { nfc.now ≡ composed word.now }
    ensures { IfOk result (λ found. found.items ≡ carried word.now places.now) }
{
    boundary_is_of_chars();
    let mut found = Vec::new(alloc);
    let mut rest = word;
    let mut base = 0;
    while !rest.is_empty() {
        let (segment, later) = split_segment(rest);
        let start = word.len() - rest.len();
        base = push_segment(alloc, &mut found, word, nfc, places, start, segment, base)?;
        rest = later;
    }
    push_if(&mut found, word.len(), places.contains(&base))?;
    Ok(found)
}
