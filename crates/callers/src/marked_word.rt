//! A word with a mark at each of its breaks, as a printed dictionary shows it: `hy-phen-a-tion`.

ghost use Rattle.std.specs.Prelude.{◌≡◌, IfOk};
ghost use Rattle.std.specs.String.{string_bytes};
ghost use Rattle.hyphenation_segments.specs.Segments.{marked_word};

use hyphenation::Hyphenator;
use hyphenation::iter::push_marked;
use std::alloc::{AllocError, Global};

/// Returns a word with the mark at each break that the dictionary finds, and with the letters that a break changes.
///
/// The only error is that memory was refused.
///
/// ```text
/// marked_word(alloc, &dictionary, "hyphenation", "·")?    // hy·phen·a·tion
/// ```
pub fn marked_word<'h, H: Hyphenator<'h>>(
    alloc: Global,
    dictionary: &'h H,
    word: &str,
    mark: &str,
) -> Result<String, AllocError>
    ensures { IfOk result (λ marked.
        string_bytes marked ≡ marked_word mark.now word.now (H.breaks_of dictionary.now word.now)) }
{
    let word = dictionary.hyphenate(alloc, word)?;
    let mut marked = String::new(alloc);
    push_marked(&mut marked, &word, mark)?;
    Ok(marked)
}
