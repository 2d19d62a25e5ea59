//! The breaks of a text's words, one by one.

ghost use Rattle.std.specs.Prelude.{◌≡◌, ℕ, ◌<◌, [], None, All, IfOk};
ghost use Rattle.std.specs.Option.{MatchOption};
ghost use Rattle.unicode_segmentation.specs.Segments.{with_offsets};
ghost use Rattle.unicode_segmentation.specs.Word.{word_bounds};
ghost use Rattle.word_pieces.specs.Pieces.{PassesBefore};
ghost use Rattle.linefill.specs.Cuts.{is_one_of};
ghost use Rattle.linefill.specs.Private.WordBreaks.{pending_breaks, remaining_pieces, with_next_piece};
ghost use Rattle.linefill.specs.Private.WordBreaks.{remaining_breaks, places_after, first_place};
ghost use Rattle.linefill.specs.Private.WordBreaks.{InOrder, FindsFirstAfter, KeepsBreaksAfter, FitsUsize};

use hyphenation_hyphenator::hyphenator::Hyphenator;
use std::alloc::{AllocError, Global};
use word_pieces::WordPieceIndices;

// The breaks to come of a text, whose pieces between word bounds are broken when they are needed.
//
// A piece is broken at most once, and its breaks are held until they are passed. A piece that ends before the place
// that is searched is never broken.
#[derive(Drop)]
pub(crate) struct WordBreaks<'t> {
    // Where the piece that was broken last begins, in bytes of the text.
    offset: usize,
    // The breaks of that piece, in bytes from its beginning.
    breaks: Vec<usize>,
    // The number of those breaks that were passed.
    passed: usize,
    // The pieces that were not taken yet.
    pieces: WordPieceIndices<'t>,
    // Where the first piece that was not taken begins.
    reached: usize,
}

impl<'t> WordBreaks<'t> {
    // Begins with all pieces of a text to come.
    pub(crate) fn new(alloc: Global, text: &'t str) -> WordBreaks<'t>
        ensures pending { pending_breaks result ≡ [] }
        ensures pieces { remaining_pieces result ≡ with_offsets 0 (word_bounds text.now) }
        ensures reached { result.reached ≡ 0 }
    {
        WordBreaks {
            offset: 0,
            breaks: Vec::new(alloc),
            passed: 0,
            pieces: WordPieceIndices::new(text),
            reached: 0,
        }
    }

    // Returns the first pending break after a place, and passes those before it.
    fn first_pending(&mut self, from: usize) -> Option<usize>
        requires { All FitsUsize (pending_breaks self.old) }
        ensures pending { pending_breaks self.new ≡ places_after from (pending_breaks self.old) }
        ensures pieces { remaining_pieces self.new ≡ remaining_pieces self.old }
        ensures reached { self.new.reached ≡ self.old.reached }
        ensures first { result ≡ first_place (pending_breaks self.new) }
    {
        while self.passed < self.breaks.len() {
            let place = self.offset + self.breaks[self.passed];
            if from < place {
                return Some(place);
            }
            self.passed += 1;
        }
        None
    }

    // Passes pieces that end at or before a place. None of their breaks is after it, so they are never read.
    fn pass_before(&mut self, place: usize)
        ensures pending { pending_breaks self.new ≡ pending_breaks self.old }
        ensures pieces { PassesBefore place (remaining_pieces self.old) (remaining_pieces self.new) }
        ensures reached { self.new.reached ≡ self.old.reached }
    {
        if self.reached < place {
            self.pieces.pass_before(place);
        }
    }

    // Takes the next piece, and returns it with the place where it begins.
    fn next_piece(&mut self) -> Option<(usize, &'t str)>
        ensures pending { pending_breaks self.new ≡ pending_breaks self.old }
        ensures pieces { remaining_pieces self.old ≡ with_next_piece result (remaining_pieces self.new) }
        ensures no_piece_left { result ≡ None → remaining_pieces self.new ≡ [] }
        ensures reached { self.new.reached ≡ self.old.reached }
    {
        self.pieces.next()
    }

    // Returns the first break after a place, or `None` where no piece that begins before a bound has one.
    //
    // Breaks after the place stay to come. An error says that memory was refused; nothing is promised of the breaks
    // then.
    pub(crate) fn first_after<'h, H: Hyphenator<'h, Opportunity = usize>>(
        &mut self,
        dictionary: &'h H,
        from: usize,
        until: usize,
    ) -> Result<Option<usize>, AllocError>
        requires { InOrder (H.breaks_of dictionary.now) self.old }
        ensures in_order { IfOk result (λ _. InOrder (H.breaks_of dictionary.now) self.new) }
        ensures later_breaks_stay { IfOk result (λ _.
            KeepsBreaksAfter (H.breaks_of dictionary.now) from self.old self.new) }
        ensures first { IfOk result
            (FindsFirstAfter (remaining_breaks (H.breaks_of dictionary.now) self.new) from until) }
    {
        self.pass_before(from);
        loop {
            if let Some(place) = self.first_pending(from) {
                return Ok(Some(place));
            }
            if until <= self.reached {
                return Ok(None);
            }
            let Some((offset, piece)) = self.next_piece() else {
                return Ok(None);
            };
            self.reached = offset + piece.len();
            if from < self.reached {
                dictionary.breaks_into(piece, &mut self.breaks)?;
                self.offset = offset;
                self.passed = 0;
            }
        }
    }
}
