//! Iterators over the segments of a word, with a mark after each but the last or without marks.
//!
//! [`Segments`] takes the breaks of a word one by one (from [`Breaks`]) and returns the text between each two.
//! [`SegmentsExt`] does so for breaks that may change letters. [`Hyphenating`] takes these texts (from [`Texts`]) and
//! adds marks. [`push_marked`] and [`push_marked_text`] append all marked segments to a text at once.

ghost use Rattle.std.specs.Prelude.{◌≡◌, ℕ, List, Option, Some, None, length, MatchResult};
ghost use Rattle.hyphenation_breaks.specs.Break.{Break};
ghost use Rattle.hyphenation_segments.specs.Remaining.{TakesFirst, TakesFirstOrRefuses};

mod extended;
pub mod laws;
mod marks;
mod plain;
mod pushing;

pub use extended::SegmentsExt;
use hyphenation_breaks::breaks::Break;
pub use marks::{Hyphenating, Iter};
pub use plain::Segments;
pub use pushing::{push_marked, push_marked_text};
use std::alloc::AllocError;
use std::borrow::CowStr;
use std::iter::Copied;
use std::{slice, vec};

/// A source of breaks to come, in their order.
pub trait Breaks: Drop {
    type Item: Break;

    /// The breaks to come.
    ghost to_come: { Self → List Break };

    /// Takes and returns the next break, or `None` where none is to come.
    ///
    /// Nothing is promised of calls after a `None`.
    fn pull(&mut self) -> Option<Self::Item>
        ensures { TakesFirst Self.Item.meaning to_come self.old result self.new };

    /// Returns the number of breaks to come.
    fn left(&self) -> usize
        ensures { result ≡ length (to_come self.now) };
}

impl<T: Break> Breaks for vec::IntoIter<T> {
    ghost use Rattle.std.specs.Prelude.{map};
    ghost use Rattle.std.specs.Vec.Iter.{into_iter_items};

    type Item = T;

    ghost to_come = { λ breaks. map T.meaning (into_iter_items breaks) };

    fn pull(&mut self) -> Option<T> {
        self.next()
    }

    fn left(&self) -> usize {
        self.len()
    }
}

impl<'a, T: Break + Copy> Breaks for Copied<slice::Iter<'a, T>> {
    ghost use Rattle.std.specs.Prelude.{map};
    ghost use Rattle.std.specs.Iterator.Adapters.{copied_source};
    ghost use Rattle.std.specs.Slice.Iter.{iter_rest};

    type Item = T;

    ghost to_come = { λ breaks. map T.meaning (iter_rest (copied_source breaks)) };

    fn pull(&mut self) -> Option<T> {
        self.next()
    }

    fn left(&self) -> usize {
        self.len()
    }
}

/// An item that holds a text, or an error that memory for it was refused.
pub trait SegmentText: Drop {
    /// The text, or `None` where the item holds an error.
    ghost held: { Self → Option (List ℕ) };

    /// Returns the text, or the error that the item holds.
    fn text(&self) -> Result<&str, AllocError>
        ensures { MatchResult result (λ text. held self.now ≡ Some text.now) (λ _. held self.now ≡ None) };
}

impl<'t> SegmentText for &'t str {
    ghost held = { λ text. Some text.now };

    fn text(&self) -> Result<&str, AllocError> {
        Ok(*self)
    }
}

impl<'t> SegmentText for CowStr<'t> {
    ghost use Rattle.std.specs.Cow.{cow_str_bytes};

    ghost held = { λ text. Some (cow_str_bytes text) };

    fn text(&self) -> Result<&str, AllocError> {
        Ok(self.as_str())
    }
}

impl<'t> SegmentText for Result<CowStr<'t>, AllocError> {
    ghost use Rattle.hyphenation_segments.specs.ChangedSegments.{text_if_made};

    ghost held = { text_if_made };

    fn text(&self) -> Result<&str, AllocError> {
        match self {
            Ok(text) => Ok(text.as_str()),
            Err(_) => Err(AllocError),
        }
    }
}

/// A segment that [`SegmentsExt`] made, or an error that memory for it was refused.
#[derive(Drop)]
pub struct MadeSegment<'t> {
    /// The segment, made anew or borrowed, or the error.
    pub segment: Result<CowStr<'t>, AllocError>,
}

impl<'t> SegmentText for MadeSegment<'t> {
    ghost use Rattle.hyphenation_segments.specs.ChangedSegments.{text_if_made};

    ghost held = { λ item. text_if_made item.segment };

    fn text(&self) -> Result<&str, AllocError> {
        self.segment.text()
    }
}

/// A source of texts to come, in their order.
pub trait Texts: Drop {
    type Item: SegmentText;

    /// The texts to come.
    ghost texts: { Self → List (List ℕ) };

    /// Takes the next text and returns an item that holds it, or `None` where none is to come.
    ///
    /// The item may hold an error in place of the text, which is taken all the same. Nothing is promised of calls after
    /// a `None`.
    fn pull(&mut self) -> Option<Self::Item>
        ensures { TakesFirstOrRefuses Self.Item.held texts self.old result self.new };

    /// Returns the number of texts to come.
    fn left(&self) -> usize
        ensures { result ≡ length (texts self.now) };
}
