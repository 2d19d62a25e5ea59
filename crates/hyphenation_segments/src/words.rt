//! Words with breaks that fit them.

ghost use Rattle.std.specs.Prelude.{◌≡◌, ◌↔◌, map, IsTrue, IfOk, IfNone, IfSome};
ghost use Rattle.hyphenation_breaks.specs.Break.{end_of};
ghost use Rattle.hyphenation_segments.specs.Fits.{Fits, BreakFitsAfter};
ghost use Rattle.hyphenation_segments.specs.Private.Fits.{FitsFrom-prop};

use hyphenation_breaks::breaks::Break;
use std::alloc::{AllocError, Global};

/// A word with breaks that fit it, as [`Word::fits`] tests.
#[derive(PartialEq, Eq, Hash, Debug, Drop)]
pub struct Word<'t, B: Break> {
    /// The word as written.
    pub text: &'t str,
    /// Its breaks, whose places ascend strictly and are counted in bytes.
    pub breaks: Vec<B>,
    pub ghost fit: { Fits text.now (map B.meaning breaks.items) } by { FitsFrom-prop text.now 0 0
        (map B.meaning breaks.items) },
}

impl<'t, B: Break> Word<'t, B> {
    /// Makes a word of a text and breaks that fit it.
    ///
    /// The breaks must fit; [`Word::fits`] tests that.
    ///
    /// ```text
    /// if Word::fits("hyphenation", &breaks) {                    // breaks: 2, 6, 7
    ///     for segment in Word::new("hyphenation", breaks) {      // hy-  phen-  a-  tion
    ///         line.push_str(segment?.as_str())?;
    ///     }
    /// }
    /// ```
    pub fn new(text: &'t str, breaks: Vec<B>) -> Word<'t, B>
        requires { Fits text.now (map B.meaning breaks.items) }
        ensures text { result.text.now ≡ text.now }
        ensures breaks { result.breaks ≡ breaks }
    {
        Word { text, breaks }
    }

    /// Reports whether breaks fit a text.
    ///
    /// Breaks fit where their places ascend strictly, and no range begins before the end of the range before it. Each
    /// place and both ends of each range must be character boundaries from 0 to the text's length. The range of a
    /// plain break is empty, at its place.
    ///
    /// ```text
    /// Word::fits("hyphenation", &[2usize, 6, 7])      // true
    /// Word::fits("né", &[2usize])                     // false: 2 is inside of é
    /// ```
    pub fn fits(text: &str, breaks: &[B]) -> bool
        ensures { IsTrue result ↔ Fits text.now (map B.meaning breaks.now) }
    {
        let mut last_end = 0;
        let mut least = 0;
        for b in breaks {
            match fitting_end(text, last_end, least, b) {
                None => return false,
                Some(end) => {
                    last_end = end;
                    least = b.place() + 1;
                }
            }
        }
        true
    }
}

impl<'t, B: Break + Copy> Word<'t, B> {
    /// Copies the word, with a list of breaks of its own.
    ///
    /// An error says that memory for the list was refused.
    pub fn try_clone(&self, alloc: Global) -> Result<Word<'t, B>, AllocError>
        ensures text { IfOk result (λ word. word.text.now ≡ self.now.text.now) }
        ensures breaks { IfOk result (λ word. word.breaks.items ≡ self.now.breaks.items) }
    {
        let breaks = Vec::from_slice(alloc, &self.breaks)?;
        Ok(Word {
            text: self.text,
            breaks,
        })
    }
}

// Returns where the range of a break ends, if the break fits after the last range and from the least place on.
fn fitting_end<B: Break>(text: &str, last_end: usize, least: usize, b: &B) -> Option<usize>
    ensures none_without { IfNone result (¬ (BreakFitsAfter text.now last_end least (B.meaning b.now))) }
    ensures fits_after { IfSome result (λ _. BreakFitsAfter text.now last_end least (B.meaning b.now)) }
    ensures range_end { IfSome result (λ end. end ≡ end_of (B.meaning b.now)) }
{
    let place = b.place();
    let (begin, end) = b.range()?;
    let is_after = place >= least && begin >= last_end;
    let is_at_characters = text.is_char_boundary(place)
        && text.is_char_boundary(begin)
        && text.is_char_boundary(end);
    if is_after && is_at_characters {
        Some(end)
    } else {
        None
    }
}
