//! Soft hyphens for a page whose reader breaks the lines: one at each place where a word may be broken.

ghost use Rattle.std.specs.Prelude.{◌≡◌, ◌++◌, IfOk, OnOk};
ghost use Rattle.std.specs.List.{flat_map};
ghost use Rattle.std.specs.String.{string_bytes};
ghost use Rattle.unicode_segmentation.specs.Word.{word_bounds};
ghost use Rattle.callers.specs.SoftHyphens.{with_soft_hyphens};

use hyphenation::Hyphenator;
use hyphenation::hyphenator::soft_hyphen_indices;
use hyphenation::iter::push_marked;
use std::alloc::{AllocError, Global};
use unicode_segmentation::UnicodeSegmentation;

// Appends a piece of a text, with its soft hyphens.
fn push_piece<'h, H: Hyphenator<'h, Opportunity = usize>>(
    page: &mut String,
    dictionary: &'h H,
    piece: &str,
) -> Result<(), AllocError>
    ensures { OnOk result (string_bytes page.new
        ≡ string_bytes page.old ++ with_soft_hyphens (H.breaks_of dictionary.now) piece.now) }
{
    let alloc = *page.allocator();
    match soft_hyphen_indices(alloc, piece)? {
        Some(_) => page.push_str(piece),
        None => push_marked(page, &dictionary.hyphenate(alloc, piece)?, "\u{ad}"),
    }
}

/// Returns a text with U+00AD at each break of its words. A word that has soft hyphens already stays as it is.
///
/// The breaks must be plain. A break that changes letters would change them also where no line ends. The only error
/// is that memory was refused.
///
/// ```text
/// with_soft_hyphens(alloc, &dictionary, "Hyphenation.")?    // Hy\u{ad}phen\u{ad}a\u{ad}tion.
/// ```
pub fn with_soft_hyphens<'h, H: Hyphenator<'h, Opportunity = usize>>(
    alloc: Global,
    dictionary: &'h H,
    text: &str,
) -> Result<String, AllocError>
    ensures { IfOk result (λ page.
        string_bytes page ≡ flat_map (with_soft_hyphens (H.breaks_of dictionary.now)) (word_bounds text.now)) }
{
    let mut page = String::new(alloc);
    for piece in text.split_word_bounds() {
        push_piece(&mut page, dictionary, piece)?;
    }
    Ok(page)
}
