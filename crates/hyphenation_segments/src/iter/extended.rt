//! The segments of a text at breaks that may change it.

ghost use Rattle.std.specs.Prelude.{◌≡◌, ℕ, Bool, ◌++◌, List, map, length, IfOk, Some, IfSome};
ghost use Rattle.std.specs.Iterator.{item_count, UpTo, at_most};
ghost use Rattle.std.specs.Iterator.SizeHint.{IsWithinCount};
ghost use Rattle.std.specs.Option.{option_map};
ghost use Rattle.std.specs.String.{string_bytes};
ghost use Rattle.hyphenation_segments.specs.Remaining.{TakesFirstOrRefuses};
ghost use Rattle.hyphenation_segments.specs.Fits.{Fits};
ghost use Rattle.hyphenation_segments.specs.ChangedSegments.{made_segments, YieldsMade, text_if_made};
ghost use Rattle.hyphenation_segments.specs.Private.ChangedSegments.{IsSegmentBetween, change_if_any};

use crate::iter::{Breaks, MadeSegment, Texts};
use hyphenation_breaks::breaks::Break;
use std::alloc::{AllocError, Global};
use std::borrow::CowStr;
use std::marker::Model;

/// An iterator over the segments of a text at breaks that may change it.
///
/// A segment next to a break with a change is made anew; any other is borrowed from the text. Contracts see the
/// iterator as the list of the segments to come, each with whether it is made anew.
#[derive(Drop)]
pub struct SegmentsExt<'t, I: Breaks> {
    alloc: Global,
    text: &'t str,
    breaks: I,
    // Where the range of the last break ends, 0 before the first break, and `None` after the last segment.
    start: Option<usize>,
    // The break taken last. The second half of its substitution begins the next segment.
    last: Option<I::Item>,
}

impl<'t, I: Breaks> Model for SegmentsExt<'t, I> {
    ghost use Rattle.std.specs.Prelude.{List, ℕ, Bool};
    ghost use Rattle.std.specs.Option.{option_map};
    ghost use Rattle.hyphenation_segments.specs.Private.ChangedSegments.{made_segments_from, FitsAfterLast};

    ghost Value = { List (List ℕ × Bool) };

    ghost view = { λ s. made_segments_from s.text.now s.start (option_map I.Item.meaning s.last) (I.to_come s.breaks) };

    ghost invariant = { λ s.
        FitsAfterLast s.text.now s.start (option_map I.Item.meaning s.last) (I.to_come s.breaks) };
}

impl<'t, I: Breaks> SegmentsExt<'t, I> {
    /// Makes the iterator over all segments of a text.
    ///
    /// The breaks must fit the text, as `Word::fits` tests.
    ///
    /// ```text
    /// let word = dictionary.hyphenate(alloc, "asszonnyal")?;      // breaks: 2 and 6, with changes
    /// let segments = SegmentsExt::new(alloc, word.text, word.breaks.into_iter());      // asz  szony  nyal
    /// ```
    pub fn new(alloc: Global, text: &'t str, breaks: I) -> SegmentsExt<'t, I>
        requires { Fits text.now (I.to_come breaks) }
        ensures { result ≡ made_segments text.now (I.to_come breaks) }
    {
        SegmentsExt {
            alloc,
            text,
            breaks,
            start: Some(0),
            last: None,
        }
    }
}

// Joins three texts.
fn concatenated(
    alloc: Global,
    before: &str,
    middle: &str,
    after: &str,
) -> Result<String, AllocError>
    ensures { IfOk result (λ text. string_bytes text ≡ before.now ++ middle.now ++ after.now) }
{
    let mut text = String::from_str(alloc, before)?;
    text.push_str(middle)?;
    text.push_str(after)?;
    Ok(text)
}

// Makes the segment between two breaks, of which either may be missing. The middle is the text between their ranges.
fn segment_between<'t, B: Break>(
    alloc: Global,
    last: &Option<B>,
    middle: &'t str,
    next: &Option<B>,
) -> Result<CowStr<'t>, AllocError>
    ensures { IsSegmentBetween (change_if_any (option_map B.meaning last.now)) middle.now
        (change_if_any (option_map B.meaning next.now))
        result }
{
    let (before, is_changed_before) = match last {
        Some(last) => (last.after(), last.changed()),
        None => ("", false),
    };
    let (after, is_changed_after) = match next {
        Some(next) => (next.before(), next.changed()),
        None => ("", false),
    };
    if is_changed_before || is_changed_after {
        Ok(CowStr::Owned(concatenated(alloc, before, middle, after)?))
    } else {
        Ok(CowStr::Borrowed(middle))
    }
}

impl<'t, I: Breaks> Iterator for SegmentsExt<'t, I> {
    type Item = Result<CowStr<'t>, AllocError>;

    ghost next_gives = { YieldsMade };

    ghost remaining = { item_count (λ s. s) };

    /// Returns the next segment, or `None` at each call after the last segment.
    ///
    /// An error in place of a segment says that memory for it was refused; later segments are not affected. It takes a
    /// break only while some are to come.
    fn next(&mut self) -> Option<Result<CowStr<'t>, AllocError>> {
        let start = self.start?;
        let text = self.text;
        let alloc = self.alloc;
        if self.breaks.left() == 0 {
            self.start = None;
            return Some(segment_between(alloc, &self.last, &text[start..], &None));
        }
        let b = self.breaks.pull()?;
        let (begin, end) = b.range().unwrap();
        let next = Some(b);
        let segment = segment_between(alloc, &self.last, &text[start..begin], &next);
        self.start = Some(end);
        self.last = next;
        Some(segment)
    }

    /// Returns the number of segments to come, as both bounds.
    fn size_hint(&self) -> (usize, Option<usize>)
        ensures lower { IsWithinCount result.0 (at_most (length self.now)) }
        ensures upper { IfSome result.1 (UpTo (at_most (length self.now))) }
        ensures exact { result ≡ (length self.now, Some (length self.now)) }
    {
        let left = self.len();
        (left, Some(left))
    }
}

impl<'t, I: Breaks> ExactSizeIterator for SegmentsExt<'t, I> {
    /// Returns the number of segments to come.
    fn len(&self) -> usize {
        match self.start {
            None => 0,
            Some(_) => {
                // A text has no more places than bytes, so the sum stays in range.
                let _text_len = self.text.len();
                self.breaks.left() + 1
            }
        }
    }
}

impl<'t, I: Breaks> Texts for SegmentsExt<'t, I> {
    type Item = MadeSegment<'t>;

    ghost texts = { λ s. map (λ made. made.0) s };

    /// Returns the next segment, as `next` does, in a type whose text can be borrowed.
    fn pull(&mut self) -> Option<MadeSegment<'t>>
        ensures takes_first { TakesFirstOrRefuses (λ item. text_if_made item.segment)
            (λ s. map (λ made. made.0) s) self.old
            result self.new }
        ensures as_next { YieldsMade self.old (option_map (λ item. item.segment) result) self.new }
    {
        let segment = self.next()?;
        Some(MadeSegment { segment })
    }

    /// Returns the number of segments to come, as `len` does.
    fn left(&self) -> usize {
        self.len()
    }
}
