//! Laws of all segments, and of breaks that may be listed for a word.
//!
//! Each function does nothing, and its contract is one law.

ghost use Rattle.hyphenation_segments.specs.Laws.{IsGivenByNeighbours, AreOneMoreThanBreaks, JoinsToText};
ghost use Rattle.hyphenation_segments.specs.Laws.{JoinsToMarkedText, MadeAreSegments, ListedWhereEachFits};

use hyphenation_breaks::breaks::Break;
use hyphenation_breaks::laws::{boundary_is_of_chars, listed_in_order};

/// A segment depends only on its two neighbouring breaks.
pub fn segments_are_given_by_neighbours()
    ensures { IsGivenByNeighbours }
{}

/// There is one more segment than there are breaks.
pub fn segments_are_one_more_than_breaks()
    ensures { AreOneMoreThanBreaks }
{}

/// Segments at plain breaks join to the text.
pub fn segments_join()
    ensures { JoinsToText }
{}

/// Marked segments at plain breaks join to the text with the mark at each break and nowhere else.
pub fn marked_segments_join()
    ensures { JoinsToMarkedText }
{}

/// `SegmentsExt` has the same texts as the definition of segments.
pub fn made_segments_are_segments()
    ensures { MadeAreSegments }
{}

/// Breaks may be listed for a word exactly where their places ascend strictly, and each place and range lies in it on
/// character boundaries.
///
/// Ranges may overlap. All else that `Dictionary::fits` tests is true of every word and every break.
pub fn listed_where_each_fits<B: Break>()
    ensures { ListedWhereEachFits B B.meaning }
{
    listed_in_order::<B>();
    boundary_is_of_chars();
}
