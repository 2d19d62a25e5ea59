//! Breaks with the changes that they make, as C reads them.

ghost use Rattle.std.specs.Prelude.{◌≡◌, IfOk, map};
ghost use Rattle.hyphenation_segments.specs.Fits.{BreakFitsAfter};
ghost use Rattle.c_calls.specs.Dictionaries.{as_change, texts_of};

use any_dictionary::FromBreaks;
use hyphenation_breaks::breaks::Break;
use hyphenation_segments::Word;
use std::alloc::{AllocError, Global};

/// A break: its place, the range of the word that it changes, and the lengths of the two texts in place of the range.
/// One is before the break and one after it. All are numbers of bytes.
#[repr(C)]
#[derive(Clone, Copy)]
pub struct BreakChange {
    /// The number of bytes of the word before the break.
    pub place: usize,
    /// The begin of the changed range; the place, if nothing is changed.
    pub begin: usize,
    /// The end of the changed range; the place, if nothing is changed.
    pub end: usize,
    /// The length of the text that is there at the end of a line.
    pub before: usize,
    /// The length of the text that begins the next line.
    pub after: usize,
}

// A break that is in a word.
#[tactic(auto, unfolding(crate::specs::Dictionaries::as_change))]
fn as_change<B: Break>(_word: &str, b: &B) -> BreakChange
    requires { BreakFitsAfter _word.now 0 0 (B.meaning b.now) }
    ensures { result ≡ as_change (B.meaning b.now) }
{
    let (begin, end) = b.range().unwrap();
    BreakChange {
        place: b.place(),
        begin,
        end,
        before: b.before().len(),
        after: b.after().len(),
    }
}

// The breaks of a word with the changes that they make.
fn changes_of<B: Break>(alloc: Global, word: &Word<'_, B>) -> Result<Vec<BreakChange>, AllocError>
    ensures { IfOk result (λ v. v.items ≡ map as_change (map B.meaning word.now.breaks.items)) }
{
    let mut changes = Vec::new(alloc);
    for b in &word.breaks {
        changes.push(as_change(word.text, b))?;
    }
    Ok(changes)
}

// The texts of a word's breaks, one after the other: of each break the text before it, then the text after it.
#[tactic(auto, unfolding(crate::specs::Dictionaries::texts_of))]
fn texts_of<B: Break>(alloc: Global, word: &Word<'_, B>) -> Result<Vec<u8>, AllocError>
    ensures { IfOk result (λ v. v.items ≡ texts_of (map B.meaning word.now.breaks.items)) }
{
    let mut texts = Vec::new(alloc);
    for b in &word.breaks {
        texts.extend_from_slice(b.before().as_bytes())?;
        texts.extend_from_slice(b.after().as_bytes())?;
    }
    Ok(texts)
}

/// The breaks of a word with the changes that they make, and the texts of these.
#[derive(Drop)]
pub struct Changes {
    /// The breaks.
    pub changes: Vec<BreakChange>,
    /// The texts of the breaks, one after the other: of each break the text before it, then the text after it.
    pub texts: Vec<u8>,
}

impl FromBreaks for Changes {
    ghost use Rattle.std.specs.Prelude.{◌≡◌, map};
    ghost use Rattle.c_calls.specs.Dictionaries.{as_change, texts_of};

    ghost is_of = { λ found breaks. (found.changes.items ≡ map as_change breaks) × (found.texts.items ≡ texts_of breaks) };

    fn from_breaks<B: Break>(alloc: Global, word: &Word<'_, B>) -> Result<Changes, AllocError> {
        let changes = changes_of(alloc, word)?;
        let texts = texts_of(alloc, word)?;
        Ok(Changes { changes, texts })
    }
}
