//! Breaks as they are found in a word, for code that puts plain ones into a list.

ghost use Rattle.std.specs.Prelude.{◌≡◌, None};
ghost use Rattle.hyphenation_breaks.specs.Break.{plain_break};
ghost use Rattle.hyphenation_hyphenator.specs.Private.Opportunities.{borrowed_break};

use hyphenation_breaks::breaks::Break;
use hyphenation_breaks::extended::Subregion;

// A type of breaks that are found, where a plain one can be made of a place.
pub(crate) trait FoundBreak: Break + Copy {
    // Returns a plain break at a place.
    fn plain(place: usize) -> Self
        ensures { Self.meaning result ≡ plain_break place };
}

impl FoundBreak for usize {
    fn plain(place: usize) -> usize {
        place
    }
}

impl<'h> FoundBreak for (usize, Option<&'h Subregion>) {
    fn plain(place: usize) -> (usize, Option<&'h Subregion>) {
        (place, None)
    }
}
