//! Changes, for extended hyphenation: breaks that change the letters around them.
//!
//! The Hungarian `asszonnyal` becomes `asz-szony-nyal` when it is broken. So a value of a pattern, or a break of an
//! exception, may carry a [`Subregion`].

ghost use Rattle.std.specs.Prelude.{◌≡◌, ◌+◌, ◌-◌, ◌<◌, ◌≤◌, ◌^◌, ◌↔◌, IsTrue, IsSome, IfSome, take, drop};
ghost use Rattle.std.specs.String.{string_bytes};
ghost use Rattle.hyphenation_breaks.specs.Break.{is_boundary};
ghost use Rattle.hyphenation_breaks.specs.Invariant.{can_be_written};

use crate::breaks::Break;
use std::hash::{Hash, Hasher};
use std::marker::Model;

/// A change of a word around a break: a substitution replaces a range, and is broken at its breakpoint.
///
/// The range goes from `left` bytes before the break to `right` bytes after it. The breakpoint is a character boundary
/// of the substitution.
#[derive(Debug, Drop)]
pub struct Subregion {
    /// The number of bytes from the beginning of the range to the break.
    pub left: usize,
    /// The number of bytes from the break to the end of the range.
    pub right: usize,
    /// The text that replaces the range.
    pub substitution: String,
    /// The number of bytes of the substitution in its first half.
    pub breakpoint: usize,
}

impl Model for Subregion {
    ghost use Rattle.std.specs.Prelude.{IsTrue};
    ghost use Rattle.std.specs.String.{string_bytes};
    ghost use Rattle.hyphenation_breaks.specs.Break.{Change, is_boundary};

    ghost Value = { Change };

    ghost view = { λ s.
        record {
          left = s.left;
          right = s.right;
          substitution = string_bytes s.substitution;
          breakpoint = s.breakpoint;
        } };

    ghost invariant = { λ s. IsTrue (is_boundary (string_bytes s.substitution) s.breakpoint) };
}

impl Subregion {
    /// Returns the change of these parts; all numbers count bytes.
    ///
    /// The breakpoint must be a character boundary of the substitution.
    ///
    /// ```text
    /// // `asszonnyal`, broken before its third byte: asz-szonnyal
    /// let change = Subregion::new(1, 2, szsz, 2);
    /// change.range_at(2)    // Some((1, 4))
    /// ```
    pub fn new(left: usize, right: usize, substitution: String, breakpoint: usize) -> Subregion
        requires { IsTrue (is_boundary (string_bytes substitution) breakpoint) }
        ensures { result
            ≡ record { left = left; right = right; substitution = string_bytes substitution; breakpoint = breakpoint } }
    {
        Subregion {
            left,
            right,
            substitution,
            breakpoint,
        }
    }

    /// Returns where the range at a place begins and ends, in bytes.
    ///
    /// The result is `None` if the range would begin before 0 or end at 2^64 or later.
    pub fn range_at(&self, place: usize) -> Option<(usize, usize)>
        ensures known { IsSome result ↔ ((self.now.left ≤ place) × (place + self.now.right < 2 ^ 64)) }
        ensures value { IfSome result (λ range. range ≡ (place - self.now.left, place + self.now.right)) }
    {
        Some((
            place.checked_sub(self.left)?,
            place.checked_add(self.right)?,
        ))
    }

    /// Gives proofs the invariant of a change, and does nothing.
    ///
    /// A change is broken between characters of its substitution, and can be written in a dictionary text.
    pub fn invariant(&self)
        ensures boundary { IsTrue (is_boundary self.now.substitution self.now.breakpoint) }
        ensures writable { IsTrue (can_be_written self.now) }
    {
        // Reading the fields gives the proof the invariant of the type.
        let (_left, _right, _breakpoint) = (self.left, self.right, self.breakpoint);
    }

    // Reports whether a change equals another one.
    pub(crate) fn is_same(&self, other: &Subregion) -> bool
        ensures { IsTrue result ↔ (self.now ≡ other.now) }
    {
        self.breakpoint == other.breakpoint
            && self.left == other.left
            && self.right == other.right
            && self.substitution == other.substitution
    }

    // Returns the two halves of the substitution.
    fn halves(&self) -> (&str, &str)
        ensures before { result.0.now ≡ take self.now.breakpoint self.now.substitution }
        ensures after { result.1.now ≡ drop self.now.breakpoint self.now.substitution }
    {
        self.substitution.as_str().split_at(self.breakpoint)
    }
}

/// A place with a borrowed change, or with none, is a break.
impl<'a> Break for (usize, Option<&'a Subregion>) {
    ghost use Rattle.std.specs.Prelude.{option_copied};
    ghost use Rattle.hyphenation_breaks.specs.Break.{break_at};

    ghost meaning = { λ b. break_at b.0 (option_copied b.1) };

    fn place(&self) -> usize {
        self.0
    }

    fn range(&self) -> Option<(usize, usize)> {
        let place = self.0;
        match self.1 {
            None => Some((place, place)),
            Some(change) => change.range_at(place),
        }
    }

    fn changed(&self) -> bool {
        self.1.is_some()
    }

    fn before(&self) -> &str {
        match self.1 {
            None => "",
            Some(change) => change.halves().0,
        }
    }

    fn after(&self) -> &str {
        match self.1 {
            None => "",
            Some(change) => change.halves().1,
        }
    }

    fn invariant(&self) {
        if let Some(change) = self.1 {
            change.invariant();
        }
    }
}

/// A place with an owned change, or with none, is a break.
impl Break for (usize, Option<Subregion>) {
    ghost use Rattle.hyphenation_breaks.specs.Break.{break_at};

    ghost meaning = { λ b. break_at b.0 b.1 };

    fn place(&self) -> usize {
        self.0
    }

    fn range(&self) -> Option<(usize, usize)> {
        let place = self.0;
        match &self.1 {
            None => Some((place, place)),
            Some(change) => change.range_at(place),
        }
    }

    fn changed(&self) -> bool {
        self.1.is_some()
    }

    fn before(&self) -> &str {
        match &self.1 {
            None => "",
            Some(change) => change.halves().0,
        }
    }

    fn after(&self) -> &str {
        match &self.1 {
            None => "",
            Some(change) => change.halves().1,
        }
    }

    fn invariant(&self) {
        if let Some(change) = &self.1 {
            change.invariant();
        }
    }
}

impl PartialEq for Subregion {
    ghost use Rattle.std.specs.Prelude.{◌==◌};
    ghost use Rattle.std.proofs.Common.{rules};
    ghost use Rattle.std.specs.Cmp.Rules.{comparing};
    ghost use Rattle.std.specs.Cmp.Lexicographic.{pointwise};
    ghost use Rattle.std.specs.Ordering.{eq_of_both, on};

    ghost eq = { eq_of_both (on (λ c. c.left) ◌==◌)
        (eq_of_both (on (λ c. c.right) ◌==◌)
        (eq_of_both (on (λ c. c.substitution) (pointwise ◌==◌)) (on (λ c. c.breakpoint) ◌==◌))) };

    ghost laws = { Prim.search (comparing, rules) };

    fn eq(&self, other: &Subregion) -> bool {
        self.left == other.left
            && self.right == other.right
            && self.substitution == other.substitution
            && self.breakpoint == other.breakpoint
    }
}

impl Eq for Subregion {
    ghost use Rattle.std.proofs.Common.{rules};
    ghost use Rattle.std.specs.Cmp.Rules.{comparing};

    ghost laws = { Prim.search (comparing, rules) };
}

impl Hash for Subregion {
    ghost use Rattle.std.specs.Prelude.{◌++◌};
    ghost use Rattle.std.proofs.Common.{rules};
    ghost use Rattle.std.specs.Cmp.Rules.{hashing};
    ghost use Rattle.std.specs.Hash as fed;

    ghost hash_input = { λ c.
        fed.usize c.left ++ fed.usize c.right ++ fed.str c.substitution ++ fed.usize c.breakpoint };

    ghost respects_eq = { Prim.search (hashing, rules) };

    fn hash<H: Hasher>(&self, state: &mut H) {
        self.left.hash(state);
        self.right.hash(state);
        self.substitution.hash(state);
        self.breakpoint.hash(state);
    }
}
