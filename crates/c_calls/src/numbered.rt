//! Numbers with the changes that come with them, as C reads them: the breaks of exceptions, and the scores of places.

ghost use Rattle.std.specs.Prelude.{◌≡◌, IfOk, map, option_copied};
ghost use Rattle.std.specs.Option.{option_map};
ghost use Rattle.c_calls.specs.Numbered.{as_numbered, substitutions, substitution_of, AreOf, AreOfIfAny};

use hyphenation_breaks::extended::Subregion;
use std::alloc::{AllocError, Global};

/// A number with a change, or with none: the place of a listed break, or the value of a place. If there is
/// no change, all but the number is 0.
///
/// The change is a substitution for a range of the word. All but the first two are numbers of bytes.
#[repr(C)]
#[derive(Clone, Copy)]
pub struct NumberedChange {
    /// The place of a listed break, or the value of a place.
    pub number: usize,
    /// 1 if there is a change, and 0 if there is none.
    pub changed: usize,
    /// The number of bytes from the beginning of the range to the place.
    pub left: usize,
    /// The number of bytes from the place to the end of the range.
    pub right: usize,
    /// The number of bytes of the substitution before the break.
    pub breakpoint: usize,
    /// The length of the substitution.
    pub length: usize,
}

/// A number with a change, or with none.
pub trait Numbered {
    ghost use Rattle.std.specs.Prelude.{◌≡◌, option_copied};
    ghost use Rattle.c_calls.specs.Numbered.{Numbered};

    /// The number with its change.
    ghost meaning: { Self → Numbered };

    /// Returns the number.
    fn number(&self) -> usize
        ensures { result ≡ (meaning self.now).0 };

    /// Returns the change, if there is one.
    fn change(&self) -> Option<&Subregion>
        ensures { option_copied result ≡ (meaning self.now).1 };
}

/// A break that changes nothing is only a place.
impl Numbered for usize {
    ghost use Rattle.c_calls.specs.Numbered.{alone};

    ghost meaning = { alone };

    fn number(&self) -> usize {
        *self
    }

    fn change(&self) -> Option<&Subregion> {
        None
    }
}

/// An entry of a standard dictionary is only a value.
impl Numbered for u8 {
    ghost use Rattle.c_calls.specs.Numbered.{alone};

    ghost meaning = { alone };

    fn number(&self) -> usize {
        usize::from(*self)
    }

    fn change(&self) -> Option<&Subregion> {
        None
    }
}

/// A place with its change, as an extended dictionary lists it.
impl Numbered for (usize, Option<Subregion>) {
    ghost meaning = { λ listed. (listed.0, listed.1) };

    fn number(&self) -> usize {
        self.0
    }

    fn change(&self) -> Option<&Subregion> {
        self.1.as_ref()
    }
}

/// A value with its change, as an extended dictionary gives it.
impl<'a> Numbered for (u8, Option<&'a Subregion>) {
    ghost use Rattle.std.specs.Prelude.{option_copied};

    ghost meaning = { λ score. (score.0, option_copied score.1) };

    fn number(&self) -> usize {
        usize::from(self.0)
    }

    fn change(&self) -> Option<&Subregion> {
        self.1
    }
}

// A number with its change as C reads it.
#[tactic(auto, unfolding(crate::specs::Numbered::as_numbered))]
fn as_numbered<T: Numbered>(item: &T) -> NumberedChange
    ensures { result ≡ as_numbered (T.meaning item.now) }
{
    let number = item.number();
    match item.change() {
        None => NumberedChange {
            number,
            changed: 0,
            left: 0,
            right: 0,
            breakpoint: 0,
            length: 0,
        },
        Some(change) => NumberedChange {
            number,
            changed: 1,
            left: change.left,
            right: change.right,
            breakpoint: change.breakpoint,
            length: change.substitution.len(),
        },
    }
}

// The substitution of a number's change; empty without one.
fn substitution_of<T: Numbered>(item: &T) -> &str
    ensures { result.now ≡ substitution_of (T.meaning item.now).1 }
{
    match item.change() {
        None => "",
        Some(change) => &change.substitution,
    }
}

// Numbers with their changes as C reads them.
fn changes_of<T: Numbered>(alloc: Global, items: &[T]) -> Result<Vec<NumberedChange>, AllocError>
    ensures { IfOk result (λ v. v.items ≡ map as_numbered (map T.meaning items.now)) }
{
    let mut changes = Vec::new(alloc);
    for item in items {
        changes.push(as_numbered(item))?;
    }
    Ok(changes)
}

// The substitutions of numbers, one after the other.
#[tactic(auto, unfolding(crate::specs::Numbered::substitutions))]
fn substitutions<T: Numbered>(alloc: Global, items: &[T]) -> Result<Vec<u8>, AllocError>
    ensures { IfOk result (λ v. v.items ≡ substitutions (map T.meaning items.now)) }
{
    let mut texts = Vec::new(alloc);
    for item in items {
        texts.extend_from_slice(substitution_of(item).as_bytes())?;
    }
    Ok(texts)
}

/// Numbers with their changes, and the substitutions of these.
#[derive(Drop)]
pub struct NumberedChanges {
    /// The numbers with their changes.
    pub changes: Vec<NumberedChange>,
    /// The substitutions, one after the other.
    pub texts: Vec<u8>,
}

/// Returns numbers with their changes as C reads them. The only error is that memory was refused.
pub fn collected<T: Numbered>(alloc: Global, items: &[T]) -> Result<NumberedChanges, AllocError>
    ensures { IfOk result (λ found. AreOf found (map T.meaning items.now)) }
{
    let changes = changes_of(alloc, items)?;
    let texts = substitutions(alloc, items)?;
    Ok(NumberedChanges { changes, texts })
}

/// Returns the numbers, if there are any, with their changes as C reads them. The only error is that memory was refused.
pub fn collected_if_any<T: Numbered>(
    alloc: Global,
    items: Option<&[T]>,
) -> Result<Option<NumberedChanges>, AllocError>
    ensures { IfOk result (λ found. AreOfIfAny found (option_map (map T.meaning) (option_copied items.entry))) }
{
    match items {
        Some(items) => Ok(Some(collected(alloc, items)?)),
        None => Ok(None),
    }
}
