//! Three buffers of the caller's, and how they are filled.

ghost use Rattle.std.specs.Prelude.{◌≡◌, ◌⊎◌, ◌<◌, length};
ghost use Rattle.c_calls.specs.Statuses.{into};
ghost use Rattle.level_calls.specs.Levels.{FillsOne, OneIsShort, Says};

use crate::changes::LevelChange;
use c_calls::buffers::fill_buffer;
use c_calls::statuses::{DONE, NO_ROOM};

/// The digits and the changes that are found in a word, as C reads them.
#[derive(Clone, Copy)]
pub struct WordFound<'f> {
    /// The digits of its characters.
    pub digits: &'f [u8],
    /// The changes of its places.
    pub changes: &'f [LevelChange],
    /// The texts of the changes, each with a byte 0 behind it.
    pub texts: &'f [u8],
    /// Whether a change was made.
    pub made: bool,
}

/// How much is found in a word, and whether a change is made.
#[derive(Clone, Copy)]
pub struct WordSaid {
    /// How many digits were found.
    pub digits: usize,
    /// How many changes were found.
    pub changes: usize,
    /// The length of their texts, in bytes.
    pub texts: usize,
    /// Whether a change was made.
    pub made: bool,
}

/// Fills three buffers with what is found in a word, if all are long enough. It writes the three counts, and whether a
/// change was made.
///
/// The result is the status. It is `DONE` or `NO_ROOM`, and then only the counts are written.
pub fn fill_word(
    found: &WordFound<'_>,
    digits: &mut [u8],
    changes: &mut [LevelChange],
    texts: &mut [u8],
    said: &mut WordSaid,
) -> u32
    ensures status { (result ≡ 0) ⊎ (result ≡ 1) }
    ensures digits { FillsOne found.now.digits.now (into digits.old digits.new said.old.digits said.new.digits) result }
    ensures changes { FillsOne found.now.changes.now
        (into changes.old changes.new said.old.changes said.new.changes) result }
    ensures texts { FillsOne found.now.texts.now (into texts.old texts.new said.old.texts said.new.texts) result }
    ensures short { OneIsShort result (length digits.old < said.new.digits) (length changes.old < said.new.changes)
        (length texts.old < said.new.texts) }
    ensures made { Says found.now.made said.old.made said.new.made result }
{
    said.digits = found.digits.len();
    said.changes = found.changes.len();
    said.texts = found.texts.len();
    if said.digits > digits.len() || said.changes > changes.len() || said.texts > texts.len() {
        return NO_ROOM;
    }
    fill_buffer(found.digits, digits, &mut said.digits);
    fill_buffer(found.changes, changes, &mut said.changes);
    fill_buffer(found.texts, texts, &mut said.texts);
    said.made = found.made;
    DONE
}
