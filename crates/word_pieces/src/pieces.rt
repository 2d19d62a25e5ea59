//! The iterators over the pieces of a text.

ghost use Rattle.std.specs.Prelude.{◌≡◌, ◌<◌, ◌≤◌, length};
ghost use Rattle.std.specs.Iterator.{item_count};
ghost use Rattle.std.specs.Str.{IsUtf8, IsCharBoundary};
ghost use Rattle.unicode_segmentation.specs.Segments.{chars_before, with_offsets, GivesFirst};
ghost use Rattle.unicode_segmentation.specs.Steps.{IsFirstEnd};
ghost use Rattle.unicode_segmentation.specs.Word.{is_word_break, significant, starts_with_half_flag, word_bounds};

use crate::ascii::{bound_before_letter, plain_end};
use crate::rules::first_end;

/// An iterator over the pieces of a text between Unicode's word bounds.
///
/// They are those of `split_word_bounds` of the kit's `unicode_segmentation`. It takes fewer steps where a piece and its
/// neighbors are ASCII. `It can't be 3.5,  no.` has the pieces `It`, a space, `can't`, a space, `be`, a space, `3.5`,
/// `,`, two spaces, `no` and `.`.
#[derive(Drop)]
pub struct WordPieces<'t> {
    text: &'t str,
    // Where the next piece begins, in bytes.
    front: usize,
    // Whether half a flag ends there.
    half_flag: bool,
    ghost utf8: { ∥ IsUtf8 text.now ∥₁ },
    ghost boundary: { IsCharBoundary text.now front },
    ghost flag: { half_flag ≡ starts_with_half_flag (significant (chars_before text.now front)) },
}

impl<'t> WordPieces<'t> {
    ghost use Rattle.word_pieces.specs.Pieces.{pieces_left, pieces_offset, PassesBefore};

    /// Begins with all pieces of a text to come. The pieces of `a b` are `a`, a space and `b`.
    #[inline]
    pub fn new(text: &'t str) -> WordPieces<'t>
        ensures left { pieces_left result ≡ word_bounds text.now }
        ensures len { length (pieces_left result) ≤ length text.now }
        ensures offset { pieces_offset result ≡ 0 }
    {
        WordPieces {
            text,
            front: 0,
            half_flag: false,
        }
    }

    // Returns the next piece, with the offset at which it begins.
    #[inline(always)]
    fn next_indexed(&mut self) -> Option<(usize, &'t str)>
        ensures { GivesFirst (λ (at, piece). (at, piece.now)) (λ s. with_offsets (pieces_offset s) (pieces_left s))
            self.old result self.new }
    {
        let start = self.front;
        if start == self.text.len() {
            return None;
        }
        let (end, half_flag) = end_after(self.text, start, self.half_flag);
        self.front = end;
        self.half_flag = half_flag;
        Some((start, &self.text[start..end]))
    }

    // Passes pieces that end at or before a place.
    #[inline]
    fn pass_before(&mut self, place: usize)
        ensures { PassesBefore place (with_offsets (pieces_offset self.old) (pieces_left self.old))
            (with_offsets (pieces_offset self.new) (pieces_left self.new)) }
    {
        if let Some(bound) = bound_before_letter(self.text, self.front, place) {
            self.front = bound;
            self.half_flag = false;
        }
    }
}

// Returns where the piece that begins at an offset ends, and whether half a flag ends there.
#[inline(always)]
fn end_after(text: &str, start: usize, half_flag: bool) -> (usize, bool)
    requires some { start < length text.now }
    requires start { IsCharBoundary text.now start }
    requires flag { half_flag ≡ starts_with_half_flag (significant (chars_before text.now start)) }
    ensures end { IsFirstEnd is_word_break text.now start (length text.now) result.0 }
    ensures flag { result.1 ≡ starts_with_half_flag (significant (chars_before text.now result.0)) }
{
    match plain_end(text, start) {
        Some(end) => (end, false),
        None => first_end(text, start, text.len(), half_flag),
    }
}

impl<'t> Iterator for WordPieces<'t> {
    ghost use Rattle.word_pieces.specs.Pieces.{pieces_left};

    type Item = &'t str;

    ghost next_gives = { GivesFirst (λ piece. piece.now) pieces_left };

    ghost remaining = { item_count pieces_left };

    /// Returns the next piece, or `None` after the last. The calls for `can't go` return `can't`, a space, `go` and `None`.
    #[inline(always)]
    fn next(&mut self) -> Option<&'t str> {
        match self.next_indexed() {
            Some((_, piece)) => Some(piece),
            None => None,
        }
    }
}

/// An iterator over the pieces of a text between Unicode's word bounds, each with its offset in bytes.
///
/// They are those of `split_word_bound_indices` of the kit's `unicode_segmentation`.
#[derive(Drop)]
pub struct WordPieceIndices<'t> {
    pieces: WordPieces<'t>,
}

impl<'t> WordPieceIndices<'t> {
    ghost use Rattle.word_pieces.specs.Pieces.{piece_indices_left, PassesBefore};

    /// Begins with all pieces of a text to come. Those of `a b` are `a` at 0, a space at 1 and `b` at 2.
    #[inline]
    pub fn new(text: &'t str) -> WordPieceIndices<'t>
        ensures left { piece_indices_left result ≡ with_offsets 0 (word_bounds text.now) }
        ensures len { length (piece_indices_left result) ≤ length text.now }
    {
        WordPieceIndices {
            pieces: WordPieces::new(text),
        }
    }

    /// Passes pieces that end at or before a place, in bytes of the text, without looking at most of them.
    ///
    /// It need not pass all of these. An example is the place 7 with all pieces of `to be or not` to come. It passes
    /// `to`, a space, `be` and a space, and `or` is the next one.
    #[inline]
    pub fn pass_before(&mut self, place: usize)
        ensures { PassesBefore place (piece_indices_left self.old) (piece_indices_left self.new) }
    {
        self.pieces.pass_before(place);
    }
}

impl<'t> Iterator for WordPieceIndices<'t> {
    ghost use Rattle.word_pieces.specs.Pieces.{piece_indices_left};

    type Item = (usize, &'t str);

    ghost next_gives = { GivesFirst (λ (at, piece). (at, piece.now)) piece_indices_left };

    ghost remaining = { item_count piece_indices_left };

    /// Returns the next piece with its offset, or `None` after the last. The calls for `can't go` return 0 with `can't`,
    /// 5 with a space, 6 with `go`, and `None`.
    #[inline(always)]
    fn next(&mut self) -> Option<(usize, &'t str)> {
        self.pieces.next_indexed()
    }
}
