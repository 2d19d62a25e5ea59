//! The head of a file: its charset and its minima, as C reads them.

ghost use Rattle.std.specs.Prelude.{◌≡◌};
ghost use Rattle.level_calls.specs.Head.{head_of, with_zeros};

use libhyphen_files::LevelDictionary;

/// The charset of a file, and the minima of its first level.
#[repr(C)]
#[derive(Clone, Copy)]
pub struct LevelHead {
    /// The name of the charset, which has at most 19 bytes. The bytes behind it are 0.
    pub charset: [u8; 20],
    /// The least number of letters before a break of the word. 0: none is set.
    pub left: i8,
    /// The least number of letters after a break of the word. 0: none is set.
    pub right: i8,
    /// The least number of letters before a break within a part of a compound. 0: none is set.
    pub compound_left: i8,
    /// The least number of letters after a break within a part of a compound. 0: none is set.
    pub compound_right: i8,
    /// Whether the charset is UTF-8.
    pub utf8: bool,
}

// The name of a charset, with bytes 0 behind it.
fn with_zeros(charset: &[u8]) -> [u8; 20]
    ensures { result ≡ with_zeros charset.now }
{
    let mut bytes = [0; 20];
    let size = charset.len().min(19);
    bytes[..size].copy_from_slice(&charset[..size]);
    bytes
}

/// Returns the head of a dictionary's file.
#[tactic(auto, unfolding(crate::specs::Head::head_of))]
pub fn head_of(dictionary: &LevelDictionary) -> LevelHead
    ensures { result ≡ head_of dictionary.now }
{
    let minima = dictionary.first_level().minima();
    LevelHead {
        charset: with_zeros(dictionary.charset()),
        left: minima.left,
        right: minima.right,
        compound_left: minima.compound_left,
        compound_right: minima.compound_right,
        utf8: dictionary.is_utf8(),
    }
}
