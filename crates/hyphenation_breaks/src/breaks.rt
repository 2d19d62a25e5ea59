//! Breaks of words.

ghost use Rattle.std.specs.Prelude.{◌≡◌, ◌≤◌, ◌<◌, ◌^◌, ◌&&◌, IsTrue, IsSome, IfSome, ◌↔◌};
ghost use Rattle.hyphenation_breaks.specs.Break.{left_of, begin_of, end_of, before_of, after_of, is_changed, is_boundary, has_boundary};
ghost use Rattle.hyphenation_breaks.specs.Invariant.{can_be_written_if_any, lists_within};

/// A break of a word: a place, and a change or none.
///
/// A change replaces a range of the word around the place by a substitution, and breaks the substitution. Its first half
/// ends one segment, and its second half begins the next. All numbers count bytes.
///
/// ```text
/// // `asszonnyal` with a change at place 2: asz-szonnyal
/// let b = (2, Some(Subregion::new(1, 2, szsz, 2)));
/// b.place()     // 2
/// b.range()     // Some((1, 4)): the bytes `ssz`
/// b.before()    // "sz"
/// b.after()     // "sz"
/// ```
pub trait Break: Drop {
    ghost use Rattle.hyphenation_breaks.specs.Break.{Break};

    /// The break as contracts see it.
    ghost meaning: { Self → Break };

    /// Returns the place: the number of bytes of the word before the break.
    fn place(&self) -> usize
        ensures { result ≡ (meaning self.now).place };

    /// Returns where the range begins and ends, in bytes of the word; without a change both are the place.
    ///
    /// The result is `None` if the range would begin before 0 or end at 2^64 or later, which no word reaches.
    fn range(&self) -> Option<(usize, usize)>
        ensures known { IsSome result
            ↔ ((left_of (meaning self.now).change ≤ (meaning self.now).place) × (end_of (meaning self.now) < 2 ^ 64)) }
        ensures value { IfSome result (λ r. r ≡ (begin_of (meaning self.now), end_of (meaning self.now))) };

    /// Reports whether the break has a change.
    fn changed(&self) -> bool
        ensures { result ≡ is_changed (meaning self.now) };

    /// Returns the first half of the substitution, or the empty text without a change.
    fn before(&self) -> &str
        ensures { result.now ≡ before_of (meaning self.now).change };

    /// Returns the second half of the substitution, or the empty text without a change.
    fn after(&self) -> &str
        ensures { result.now ≡ after_of (meaning self.now).change };

    /// Gives proofs the invariant of a break, and does nothing.
    ///
    /// A change is broken between characters of its substitution, and can be written in a dictionary text.
    fn invariant(&self)
        ensures boundary { IsTrue (has_boundary (meaning self.now).change) }
        ensures writable { IsTrue (can_be_written_if_any (meaning self.now).change) };
}

/// A place is a plain break: it changes nothing.
impl Break for usize {
    ghost use Rattle.hyphenation_breaks.specs.Break.{plain_break};

    ghost meaning = { plain_break };

    fn place(&self) -> usize {
        *self
    }

    fn range(&self) -> Option<(usize, usize)> {
        Some((*self, *self))
    }

    fn changed(&self) -> bool {
        false
    }

    fn before(&self) -> &str {
        ""
    }

    fn after(&self) -> &str {
        ""
    }

    fn invariant(&self) {}
}

// Reports whether a place and both ends of a range are character boundaries of a text.
fn are_boundaries(text: &str, place: usize, range: (usize, usize)) -> bool
    ensures { result
        ≡ (is_boundary text.now place && is_boundary text.now range.0 && is_boundary text.now range.1) }
{
    text.is_char_boundary(place) && text.is_char_boundary(range.0) && text.is_char_boundary(range.1)
}

/// Reports whether a break lies in a text: its place and both ends of its range are character boundaries of the text.
pub fn lies_in<B: Break>(text: &str, b: &B) -> bool
    ensures { IsTrue result
        ↔ IsTrue (is_boundary text.now (B.meaning b.now).place && lists_within text.now (B.meaning b.now).place
        (B.meaning b.now).change) }
{
    b.invariant();
    match b.range() {
        Some(range) => are_boundaries(text, b.place(), range),
        None => false,
    }
}
