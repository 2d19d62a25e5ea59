//! The finds in a word.

use crate::one_level::PlacedChange;

/// The finds in a word: for each of its bytes, the digit and the change of the place behind it.
#[derive(Debug, Drop)]
pub struct WordFound<'d> {
    /// The digits, from `b'0'` to `b'9'`. An odd one allows a break.
    pub digits: Vec<u8>,
    /// The changes.
    pub changes: Vec<Option<PlacedChange<'d>>>,
    /// Whether a change was made, also one that a minimum took away.
    pub made: bool,
    /// How many more parts of the word may be asked.
    pub(crate) parts: usize,
}
