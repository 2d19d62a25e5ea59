//! Texts sorted by their bytes.

ghost use Rattle.std.specs.Prelude.{◌≡◌, IfOk, map};
ghost use Rattle.std.specs.FinMap as finite;
ghost use Rattle.hyphenation_dictionary.specs.Parts.{pair_views};
ghost use Rattle.hyphenation_writer.specs.Private.Ordered.{in_byte_order};

use std::alloc::{AllocError, Global};
use std::collections::BTreeMap;

// Returns a map of texts with their values. If a text comes twice, its first value counts.
fn sorted_map<'a, X>(
    alloc: Global,
    pairs: &[(&'a [u8], &'a [X])],
) -> Result<BTreeMap<&'a [u8], &'a [X]>, AllocError>
    ensures { IfOk result (λ found. pair_views found.entries ≡ in_byte_order (pair_views pairs.now)) }
{
    let mut found = BTreeMap::new(alloc);
    for index in 0..pairs.len() {
        let (text, held) = pairs[pairs.len() - 1 - index];
        found.insert(text, held)?;
    }
    Ok(found)
}

// Returns texts with their values, sorted by their bytes. If a text comes twice, its first value counts.
pub(crate) fn in_order<'a, X>(
    alloc: Global,
    pairs: &[(&'a [u8], &'a [X])],
) -> Result<Vec<(&'a [u8], &'a [X])>, AllocError>
    ensures { IfOk result (λ found. pair_views found.items ≡ in_byte_order (pair_views pairs.now)) }
{
    let found = sorted_map(alloc, pairs)?;
    let mut sorted = Vec::with_capacity(alloc, found.len())?;
    for (text, held) in &found {
        sorted.push((*text, *held))?;
    }
    Ok(sorted)
}
