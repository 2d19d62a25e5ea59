//! Values that callers make of a word with its breaks.

ghost use Rattle.std.specs.Prelude.{◌≡◌, IfOk, List, map};
ghost use Rattle.hyphenation_breaks.specs.Break.{Break};

use hyphenation_breaks::breaks::Break;
use hyphenation_hyphenator::hyphenator::Hyphenator;
use hyphenation_segments::Word;
use std::alloc::{AllocError, Global};

/// A value that can be made of a word with its breaks, of whichever type these are.
///
/// A dictionary of either kind returns it by [`AnyDictionary::collect_breaks`](crate::AnyDictionary::collect_breaks).
///
/// ```text
/// ghost use Rattle.std.specs.Prelude.{⊤};
///
/// #[derive(Drop)]
/// struct Marked(String);
///
/// impl FromBreaks for Marked {
///     ghost is_of = { λ _ _. ⊤ }; // or what callers have to know of the value
///
///     fn from_breaks<B: Break>(alloc: Global, word: &Word<'_, B>) -> Result<Marked, AllocError> {
///         let mut text = String::new(alloc);
///         push_marked(&mut text, word, "-")?;
///         Ok(Marked(text))
///     }
/// }
/// ```
pub trait FromBreaks: Sized {
    /// The relation of a value to the breaks of which it is made.
    ghost is_of: { Self → List Break → Type 0 };

    /// Makes the value of a word with its breaks. The only error is out of memory.
    fn from_breaks<B: Break>(alloc: Global, word: &Word<'_, B>) -> Result<Self, AllocError>
        ensures { IfOk result (λ made. is_of made (map B.meaning word.now.breaks.items)) };
}

// Returns a value made of a word with the breaks that a dictionary finds.
pub(crate) fn collected<'h, H: Hyphenator<'h>, M: FromBreaks>(
    alloc: Global,
    dictionary: &'h H,
    word: &str,
) -> Result<M, AllocError>
    ensures { IfOk result (λ made. M.is_of made (H.breaks_of dictionary.now word.now)) }
{
    let word = dictionary.hyphenate(alloc, word)?;
    M::from_breaks(alloc, &word)
}
