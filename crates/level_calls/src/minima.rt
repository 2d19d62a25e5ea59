//! Minima as C passes them.

ghost use Rattle.std.specs.Prelude.{◌≡◌};
ghost use Rattle.level_calls.specs.Levels.{minima_given};

use libhyphen_rule::calls::CallMinima;

/// The least numbers of letters before and after a break of the word, and within a part of a compound.
#[repr(C)]
#[derive(Clone, Copy)]
pub struct LevelMinima {
    /// Before a break of the word.
    pub left: i32,
    /// After a break of the word.
    pub right: i32,
    /// Before a break within a part of a compound.
    pub compound_left: i32,
    /// After a break within a part of a compound.
    pub compound_right: i32,
}

/// Returns the minima, if they are given.
pub fn minima_given(given: bool, minima: &LevelMinima) -> Option<CallMinima>
    ensures { result ≡ minima_given given minima.now }
{
    if !given {
        return None;
    }
    Some(CallMinima {
        left: minima.left,
        right: minima.right,
        compound_left: minima.compound_left,
        compound_right: minima.compound_right,
    })
}
