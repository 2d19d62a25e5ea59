//! Values and listed breaks as a dictionary of either kind holds them: without changes, or with them.

ghost use Rattle.std.specs.Prelude.{◌≡◌, ◌↔◌, IsTrue, option_copied};
ghost use Rattle.hyphenation_breaks.specs.Break.{Break};
ghost use Rattle.hyphenation_breaks.specs.Invariant.{has_letter};
ghost use Rattle.hyphenation_breaks.specs.Ranks.{plain_rank, rank_as_byte, rank_with_change};

use crate::breaks::Break;
use crate::extended::Subregion;

/// A value at a place of a key, with its payload.
#[derive(Debug, Drop)]
pub struct Entry<C> {
    /// The number of bytes of the key before the value. No key of a dictionary has 2^32 bytes.
    pub place: u32,
    /// An odd value allows a break, and an even one forbids it. No dictionary holds the value 0.
    pub value: u8,
    /// The payload: nothing in a standard dictionary, a change or none in an extended one.
    pub change: C,
}

impl<C: Payload> Entry<C> {
    /// Reports whether an entry equals another one.
    ///
    /// ```text
    /// entry.is_same(&Entry { place: 2, value: 3, change: () })    // true for the value 3 at the place 2
    /// ```
    pub fn is_same(&self, other: &Entry<C>) -> bool
        ensures { IsTrue result ↔ (self.now ≡ other.now) }
    {
        self.place == other.place && self.value == other.value && self.change.is_same(&other.change)
    }
}

/// The payload of a value: nothing in a standard dictionary, a change or none in an extended one.
pub trait Payload: Drop {
    ghost use Rattle.std.specs.Prelude.{◌≡◌, ◌⊎◌, ◌↔◌, ℕ, Option, None, option_copied, IsTrue};
    ghost use Rattle.hyphenation_breaks.specs.Break.{Change};

    /// The change that a payload carries, if any.
    ghost change_of: { Self → Option Change };

    /// The payload that is made of a change or none.
    ghost payload_of: { Option Change → Self };

    /// Returns the payload made of a change or none. A payload of a standard dictionary drops the change.
    fn from_change(change: Option<Subregion>) -> Self
        ensures { result ≡ payload_of change };

    /// Returns the change that is carried, if any.
    fn as_change(&self) -> Option<&Subregion>
        ensures { option_copied result ≡ change_of self.now };

    /// The rank of a value with a payload: a number by which entries that bear on one place are compared.
    ghost rank_of: { Self → ℕ → ℕ };

    /// Returns the rank of a value with this payload, or `None` if the rank is above 255.
    ///
    /// In a standard dictionary it is the value. In an extended one it is twice the value, and one more with a change.
    fn rank(&self, value: u8) -> Option<u8>
        ensures { result ≡ rank_as_byte (rank_of self.now value) };

    /// Reports whether a payload equals another one.
    fn is_same(&self, other: &Self) -> bool
        ensures { IsTrue result ↔ (self.now ≡ other.now) };

    /// A payload made of a change carries that change, or none.
    ghost carried_or_none: { (c : Option Change)
        → (change_of (payload_of c) ≡ c) ⊎ (change_of (payload_of c) ≡ None) };
}

/// The payload of a standard dictionary carries nothing.
impl Payload for () {
    ghost use Rattle.std.specs.Prelude.{None, refl};
    ghost use Rattle.std.proofs.Common.{inr};
    ghost use Rattle.hyphenation_breaks.specs.Ranks.{plain_rank};

    ghost change_of = { λ _. None };

    ghost payload_of = { λ _. tt };

    ghost rank_of = { plain_rank };

    ghost carried_or_none = { λ _. inr refl };

    fn from_change(_change: Option<Subregion>) {}

    fn as_change(&self) -> Option<&Subregion> {
        None
    }

    #[inline(always)]
    fn rank(&self, value: u8) -> Option<u8> {
        Some(value)
    }

    fn is_same(&self, _other: &()) -> bool {
        true
    }
}

/// The payload of an extended dictionary is the change itself.
impl Payload for Option<Subregion> {
    ghost use Rattle.std.specs.Prelude.{refl};
    ghost use Rattle.std.proofs.Common.{inl};
    ghost use Rattle.hyphenation_breaks.specs.Ranks.{rank_with_change};

    ghost change_of = { λ change. change };

    ghost payload_of = { λ change. change };

    ghost rank_of = { rank_with_change };

    ghost carried_or_none = { λ _. inl refl };

    fn from_change(change: Option<Subregion>) -> Option<Subregion> {
        change
    }

    fn as_change(&self) -> Option<&Subregion> {
        self.as_ref()
    }

    fn rank(&self, value: u8) -> Option<u8> {
        if value > 127 {
            return None;
        }
        Some(value * 2 + u8::from(self.is_some()))
    }

    fn is_same(&self, other: &Option<Subregion>) -> bool {
        match (self, other) {
            (None, None) => true,
            (Some(change), Some(other)) => change.is_same(other),
            _ => false,
        }
    }
}

/// A listed break as a dictionary holds it: its place in a standard one, place and change in an extended one.
pub trait Listing: Break {
    ghost use Rattle.std.specs.Prelude.{◌≡◌, ◌⊎◌, option_copied};
    ghost use Rattle.hyphenation_breaks.specs.Break.{Break, break_at, plain_break};

    /// The listing that is made of a break.
    ghost listing_of: { Break → Self };

    /// Returns the listing of a place, in bytes, with a change or none. A standard dictionary drops the change.
    fn from_place(place: usize, change: Option<Subregion>) -> Self
        ensures { result ≡ listing_of (break_at place change) };

    /// Returns the change that is listed, if any.
    fn change(&self) -> Option<&Subregion>
        ensures { option_copied result ≡ (Self.meaning self.now).change };

    /// A listing made of a break means that break, or only its place.
    ghost listed_or_plain: { (b : Break)
        → (Self.meaning (listing_of b) ≡ b) ⊎ (Self.meaning (listing_of b) ≡ plain_break b.place) };
}

/// The listing of a standard dictionary is only the place.
impl Listing for usize {
    ghost use Rattle.std.specs.Prelude.{refl};
    ghost use Rattle.std.proofs.Common.{inr};

    ghost listing_of = { λ b. b.place };

    ghost listed_or_plain = { λ _. inr refl };

    fn from_place(place: usize, _change: Option<Subregion>) -> usize {
        place
    }

    fn change(&self) -> Option<&Subregion> {
        None
    }
}

/// The listing of an extended dictionary is the place with the change or none.
impl Listing for (usize, Option<Subregion>) {
    ghost use Rattle.std.specs.Prelude.{refl};
    ghost use Rattle.std.proofs.Common.{inl};

    ghost listing_of = { λ b. (b.place, b.change) };

    ghost listed_or_plain = { λ _. inl refl };

    fn from_place(place: usize, change: Option<Subregion>) -> (usize, Option<Subregion>) {
        (place, change)
    }

    fn change(&self) -> Option<&Subregion> {
        self.1.as_ref()
    }
}

/// Reports whether a key has a letter: a byte other than a dot.
///
/// ```text
/// has_letter(b".fi")    // true
/// has_letter(b"..")     // false, and so is the empty key
/// ```
pub fn has_letter(key: &[u8]) -> bool
    ensures { result ≡ has_letter key.now }
{
    for b in key {
        if *b != b'.' {
            return true;
        }
    }
    false
}
