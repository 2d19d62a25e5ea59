//! The least numbers of letters around a break.

/// The least numbers of letters before and after a break.
#[derive(Debug, Clone, Copy)]
pub struct Minima {
    /// Before a break of the word.
    pub left: i8,
    /// After a break of the word.
    pub right: i8,
    /// Before a break within a part of a compound, if the part does not begin the word.
    pub compound_left: i8,
    /// After a break within a part of a compound, if the part does not end the word.
    pub compound_right: i8,
}
