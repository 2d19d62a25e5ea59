//! The changes of a word's places, as C reads them.

ghost use Rattle.std.specs.Prelude.{◌≡◌, IfOk};
ghost use Rattle.libhyphen_rule.specs.Found.{placed_all};
ghost use Rattle.level_calls.specs.Changes.{listed_changes, listed_texts};

use libhyphen_rule::one_level::PlacedChange;
use std::alloc::{AllocError, Global};

/// The change of the place behind a character, counted from 0.
#[repr(C)]
#[derive(Clone, Copy)]
pub struct LevelChange {
    /// The number of the character.
    pub character: usize,
    /// The number of changed characters before the place.
    pub pos: usize,
    /// The number of changed characters.
    pub cut: usize,
    /// The length of the text that takes their place, in bytes.
    pub length: usize,
}

/// Lists the changes that there are, each with the number of its character. The only error is out of memory.
#[tactic(auto, unfolding(crate::specs::Changes::listed_changes))]
pub fn listed_changes<'d>(
    alloc: Global,
    changes: &[Option<PlacedChange<'d>>],
) -> Result<Vec<LevelChange>, AllocError>
    ensures { IfOk result (λ v. v.items ≡ listed_changes (placed_all changes.now)) }
{
    let mut listed = Vec::new(alloc);
    for (character, change) in changes.iter().enumerate() {
        if let Some(change) = change {
            listed.push(LevelChange {
                character,
                pos: change.pos,
                cut: change.cut,
                length: change.text.len(),
            })?;
        }
    }
    Ok(listed)
}

/// Lists the texts of the changes, each with a byte 0 behind it. The only error is out of memory.
#[tactic(auto, unfolding(crate::specs::Changes::listed_texts))]
pub fn listed_texts<'d>(
    alloc: Global,
    changes: &[Option<PlacedChange<'d>>],
) -> Result<Vec<u8>, AllocError>
    ensures { IfOk result (λ v. v.items ≡ listed_texts (placed_all changes.now)) }
{
    let mut texts = Vec::new(alloc);
    for change in changes {
        if let Some(change) = change {
            texts.extend_from_slice(change.text)?;
            texts.push(0)?;
        }
    }
    Ok(texts)
}
