//! The facts that decide where a word breaks.

ghost use Rattle.std.specs.List.{All};
ghost use Rattle.std.specs.String.{string_bytes};
ghost use Rattle.explanations.specs.Rows.{row_of, LiesWithin};

use crate::pattern_rows::Row;
use hyphenation_breaks::entry::Entry;

/// The fact that decides where a word breaks.
#[derive(Clone, Copy, Debug, PartialEq, Eq)]
pub enum Decision {
    /// The word has soft hyphens, which are its only breaks.
    SoftHyphens,
    /// The folded word has too few characters for the minima, so it has no breaks.
    TooShort,
    /// The folded word is listed as an exception: the listed breaks within its boundaries are its breaks.
    Exception,
    /// None of these: odd values within the boundaries are its breaks.
    Patterns,
}

/// The facts about a word's breaks. All places count bytes.
///
/// Soft hyphens are facts of the word as written; all others are facts of the folded word.
#[derive(Drop)]
pub struct Explanation<'d, C, B> {
    /// The fact that decides.
    pub decision: Decision,
    /// The places at which the word's soft hyphens begin.
    pub soft_hyphens: Vec<usize>,
    /// The folded word.
    pub folded: String,
    /// The folded word between two dots: its frame.
    pub framed: String,
    /// The first and the last place at which the minima allow a break, or `None` where there are too few characters.
    pub bounds: Option<(usize, usize)>,
    /// The breaks that are listed for the folded word, or `None` where it is no exception.
    pub listed: Option<&'d [B]>,
    /// A row for each occurrence of a key in the frame.
    pub rows: Vec<Row<'d, C>>,
    /// The entry that wins each place of the folded word, from place 1 on, or `None` where the value is 0.
    pub winners: Vec<Option<&'d Entry<C>>>,
    // Each row lies within the frame.
    ghost within: { All (λ row. LiesWithin (string_bytes framed) (row_of row)) rows.items },
}
