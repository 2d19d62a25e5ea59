//! Segments with a mark after each but the last.

ghost use Rattle.std.specs.Prelude.{◌≡◌, ℕ, ◌++◌, List, map, length, IfOk, Some, IfSome, ⊤, codes};
ghost use Rattle.std.specs.Iterator.{item_count, UpTo, at_most};
ghost use Rattle.std.specs.Iterator.SizeHint.{IsWithinCount};
ghost use Rattle.std.specs.String.{string_bytes};
ghost use Rattle.hyphenation_breaks.specs.Break.{plain_break};
ghost use Rattle.hyphenation_segments.specs.Segments.{marked_segments, mark_if_more, segments};
ghost use Rattle.hyphenation_segments.specs.Remaining.{YieldsMarked};
ghost use Rattle.hyphenation_segments.specs.ChangedSegments.{made_segments};

use crate::iter::{SegmentText, Segments, SegmentsExt, Texts};
use crate::words::Word;
use hyphenation_breaks::extended::Subregion;
use std::alloc::{AllocError, Global};
use std::iter::Copied;
use std::marker::Model;
use std::{slice, vec};

/// An iterator over the texts of another iterator, each but the last with a mark after it.
///
/// A text gets the mark that is set when it is taken. Contracts see this iterator as the one inside and the mark.
#[derive(Drop)]
pub struct Hyphenating<'m, I> {
    alloc: Global,
    inner: I,
    mark: &'m str,
}

impl<'m, I> Model for Hyphenating<'m, I> {
    ghost use Rattle.std.specs.Prelude.{List, ℕ};

    ghost Value = { I × List ℕ };

    ghost view = { λ h. (h.inner, h.mark.now) };
}

impl<'m, I: Texts> Hyphenating<'m, I> {
    /// Makes the iterator over the texts of another one, with the mark `-`.
    ///
    /// ```text
    /// let segments = Segments::new("hyphenation", breaks.into_iter());      // breaks: 2, 6, 7
    /// let marked = Hyphenating::new(alloc, segments);                       // hy-  phen-  a-  tion
    /// ```
    pub fn new(alloc: Global, iter: I) -> Hyphenating<'m, I>
        ensures { result ≡ (iter, codes "-") }
    {
        Hyphenating {
            alloc,
            inner: iter,
            mark: "-",
        }
    }

    /// Returns the iterator inside, which has the texts to come without marks.
    pub fn segments(self) -> I
        ensures { result ≡ self.entry.0 }
    {
        let Hyphenating {
            alloc: _,
            inner,
            mark: _,
        } = self;
        inner
    }

    /// Sets the mark for the texts to come.
    ///
    /// ```text
    /// let mut segments = word.into_iter();      // word: hyphenation, breaks: 2, 6, 7
    /// segments.mark_with("\u{ad}\n");           // each segment but the last ends with a soft hyphen and a line feed
    /// ```
    pub fn mark_with(&mut self, mark: &'m str)
        ensures { self.new ≡ (self.old.0, mark.now) }
    {
        self.mark = mark;
    }
}

// Returns the mark where more texts are to come, and an empty text after the last one.
fn mark_after<'m, I: Texts>(texts: &I, mark: &'m str) -> &'m str
    ensures { result.now ≡ mark_if_more mark.now (I.texts texts.now) }
{
    if texts.left() > 0 { mark } else { "" }
}

// Joins a text and its mark.
fn with_mark(alloc: Global, text: &str, mark: &str) -> Result<String, AllocError>
    ensures { IfOk result (λ item. string_bytes item ≡ text.now ++ mark.now) }
{
    let mut item = String::from_str(alloc, text)?;
    item.push_str(mark)?;
    Ok(item)
}

impl<'m, I: Texts> Iterator for Hyphenating<'m, I> {
    type Item = Result<String, AllocError>;

    ghost next_gives = { λ s item t.
        YieldsMarked (marked_segments s.1 (I.texts s.0)) item (marked_segments t.1 (I.texts t.0)) × (t.1 ≡ s.1) };

    ghost remaining = { item_count (λ s. I.texts s.0) };

    /// Returns the next text with its mark, or `None` at each call after the last text.
    ///
    /// An error in place of a text says that memory for it was refused, here or by the iterator inside; later texts
    /// are not affected. After the last text it takes nothing more from the iterator inside.
    fn next(&mut self) -> Option<Result<String, AllocError>> {
        let alloc = self.alloc;
        if self.inner.left() == 0 {
            return None;
        }
        let segment = self.inner.pull()?;
        let mark = mark_after(&self.inner, self.mark);
        match segment.text() {
            Ok(text) => Some(with_mark(alloc, text, mark)),
            Err(error) => Some(Err(error)),
        }
    }

    /// Returns the number of texts to come, as both bounds.
    fn size_hint(&self) -> (usize, Option<usize>)
        ensures lower { IsWithinCount result.0 (at_most (length (I.texts self.now.0))) }
        ensures upper { IfSome result.1 (UpTo (at_most (length (I.texts self.now.0)))) }
        ensures exact { result ≡ (length (I.texts self.now.0), Some (length (I.texts self.now.0))) }
    {
        let left = self.len();
        (left, Some(left))
    }
}

impl<'m, I: Texts> ExactSizeIterator for Hyphenating<'m, I> {
    /// Returns the number of texts to come.
    fn len(&self) -> usize {
        self.inner.left()
    }
}

impl<'m, 't> Clone for Hyphenating<'m, Segments<'t, Copied<slice::Iter<'t, usize>>>> {
    ghost is_clone = { λ s t. t ≡ s };

    ghost is_infallible = { λ _. ⊤ };

    /// Copies the iterator, with the same texts to come and the same mark.
    fn clone(&self) -> Result<Self, AllocError> {
        Ok(Hyphenating {
            alloc: self.alloc,
            inner: self.inner.clone()?,
            mark: self.mark,
        })
    }
}

/// A word whose segments can be read while it is borrowed.
pub trait Iter<'t> {
    type Iter;

    /// The segments of the word, and the mark.
    ghost iter_gives: { Self → Self.Iter × List ℕ → Type 0 };

    /// Returns an iterator over the segments of the word, each but the last with the mark `-` after it.
    ///
    /// ```text
    /// for segment in word.iter() {      // word: hyphenation, breaks: 2, 6, 7
    ///     line.push_str(segment?.as_str())?;      // hy-  phen-  a-  tion
    /// }
    /// ```
    fn iter(&'t self) -> Hyphenating<'t, Self::Iter>
        ensures { iter_gives self.now result };
}

impl<'t> Iter<'t> for Word<'t, usize> {
    type Iter = Segments<'t, Copied<slice::Iter<'t, usize>>>;

    ghost iter_gives = { λ word result. result
        ≡ (segments word.text.now (map plain_break word.breaks.items), codes "-") };

    fn iter(&'t self) -> Hyphenating<'t, Self::Iter> {
        let alloc = *self.breaks.allocator();
        Hyphenating::new(alloc, Segments::new(self.text, self.breaks.iter().copied()))
    }
}

impl<'t> IntoIterator for Word<'t, usize> {
    type Item = Result<String, AllocError>;

    type IntoIter = Hyphenating<'t, Segments<'t, vec::IntoIter<usize>>>;

    ghost into_iter_gives = { λ word result.
        result ≡ (segments word.text.now (map plain_break word.breaks.items), codes "-") };

    /// Returns an iterator over the segments of the word, each but the last with the mark `-` after it.
    fn into_iter(self) -> Self::IntoIter {
        let Word { text, breaks } = self;
        let alloc = *breaks.allocator();
        Hyphenating::new(alloc, Segments::new(text, breaks.into_iter()))
    }
}

impl<'t> IntoIterator for Word<'t, (usize, Option<&'t Subregion>)> {
    ghost use Rattle.std.specs.Option.{option_copied};
    ghost use Rattle.hyphenation_breaks.specs.Break.{break_at};

    type Item = Result<String, AllocError>;

    type IntoIter = Hyphenating<'t, SegmentsExt<'t, vec::IntoIter<(usize, Option<&'t Subregion>)>>>;

    ghost into_iter_gives = { λ word result.
        result
        ≡ (made_segments word.text.now (map (λ b. break_at b.0 (option_copied b.1)) word.breaks.items), codes "-") };

    /// Returns an iterator over the segments of the word, each but the last with the mark `-` after it.
    fn into_iter(self) -> Self::IntoIter {
        let Word { text, breaks } = self;
        let alloc = *breaks.allocator();
        Hyphenating::new(alloc, SegmentsExt::new(alloc, text, breaks.into_iter()))
    }
}
