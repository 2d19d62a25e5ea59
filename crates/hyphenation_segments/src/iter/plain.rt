//! The segments of a text at plain breaks.

ghost use Rattle.std.specs.Prelude.{◌≡◌, Some, IfSome, ⊤, length};
ghost use Rattle.std.specs.Iterator.{YieldsFirstRef, item_count, UpTo, at_most};
ghost use Rattle.std.specs.Iterator.SizeHint.{IsWithinCount};
ghost use Rattle.hyphenation_segments.specs.Fits.{Fits};
ghost use Rattle.hyphenation_segments.specs.Segments.{segments};
ghost use Rattle.hyphenation_segments.specs.Remaining.{TakesFirstOrRefuses};

use crate::iter::{Breaks, Texts};
use std::alloc::AllocError;
use std::iter::Copied;
use std::marker::Model;
use std::slice;

/// An iterator over the segments of a text at plain breaks, each borrowed from the text.
///
/// Contracts see it as the list of the segments to come.
#[derive(Drop)]
pub struct Segments<'t, I: Breaks<Item = usize>> {
    text: &'t str,
    breaks: I,
    // The place of the last break, 0 before the first break, and `None` after the last segment.
    start: Option<usize>,
}

impl<'t, I: Breaks<Item = usize>> Model for Segments<'t, I> {
    ghost use Rattle.std.specs.Prelude.{List, ℕ};
    ghost use Rattle.hyphenation_segments.specs.Private.Remaining.{segments_from, FitsAfterStart};

    ghost Value = { List (List ℕ) };

    ghost view = { λ s. segments_from s.text.now s.start (I.to_come s.breaks) };

    ghost invariant = { λ s. FitsAfterStart s.text.now s.start (I.to_come s.breaks) };
}

impl<'t, I: Breaks<Item = usize>> Segments<'t, I> {
    /// Makes the iterator over all segments of a text.
    ///
    /// The breaks must fit the text, as `Word::fits` tests.
    ///
    /// ```text
    /// let places = [2usize, 6, 7];
    /// if Word::fits("hyphenation", &places) {
    ///     let segments = Segments::new("hyphenation", places.iter().copied());      // hy  phen  a  tion
    /// }
    /// ```
    pub fn new(text: &'t str, breaks: I) -> Segments<'t, I>
        requires { Fits text.now (I.to_come breaks) }
        ensures { result ≡ segments text.now (I.to_come breaks) }
    {
        Segments {
            text,
            breaks,
            start: Some(0),
        }
    }
}

impl<'t, I: Breaks<Item = usize>> Iterator for Segments<'t, I> {
    type Item = &'t str;

    ghost next_gives = { YieldsFirstRef (λ s. s) };

    ghost remaining = { item_count (λ s. s) };

    /// Returns the next segment, or `None` at each call after the last segment.
    ///
    /// It takes a break only while some are to come.
    fn next(&mut self) -> Option<&'t str> {
        let start = self.start?;
        let text = self.text;
        if self.breaks.left() == 0 {
            self.start = None;
            return Some(&text[start..]);
        }
        let place = self.breaks.pull()?;
        self.start = Some(place);
        Some(&text[start..place])
    }

    /// Returns the number of segments to come, as both bounds.
    fn size_hint(&self) -> (usize, Option<usize>)
        ensures lower { IsWithinCount result.0 (at_most (length self.now)) }
        ensures upper { IfSome result.1 (UpTo (at_most (length self.now))) }
        ensures exact { result ≡ (length self.now, Some (length self.now)) }
    {
        let left = self.len();
        (left, Some(left))
    }
}

impl<'t, I: Breaks<Item = usize>> ExactSizeIterator for Segments<'t, I> {
    /// Returns the number of segments to come.
    fn len(&self) -> usize {
        match self.start {
            None => 0,
            Some(_) => {
                // A text has no more places than bytes, so the sum stays in range.
                let _text_len = self.text.len();
                self.breaks.left() + 1
            }
        }
    }
}

impl<'t, I: Breaks<Item = usize>> Texts for Segments<'t, I> {
    type Item = &'t str;

    ghost texts = { λ s. s };

    /// Returns the next segment, as `next` does.
    fn pull(&mut self) -> Option<&'t str>
        ensures takes_first { TakesFirstOrRefuses (λ text. Some text.now) (λ s. s) self.old result self.new }
        ensures as_next { YieldsFirstRef (λ s. s) self.old result self.new }
    {
        self.next()
    }

    /// Returns the number of segments to come, as `len` does.
    fn left(&self) -> usize {
        self.len()
    }
}

impl<'t> Clone for Segments<'t, Copied<slice::Iter<'t, usize>>> {
    ghost is_clone = { λ s t. t ≡ s };

    ghost is_infallible = { λ _. ⊤ };

    /// Copies the iterator, with the same segments to come.
    fn clone(&self) -> Result<Self, AllocError> {
        Ok(Segments {
            text: self.text,
            breaks: self.breaks.clone()?,
            start: self.start,
        })
    }
}
