//! Hyphenating whole texts, piece by piece between their word bounds.

ghost use Rattle.std.specs.Prelude.{◌≡◌, ◌++◌, IfOk, OnOk, OnErr};
ghost use Rattle.std.specs.String.{string_bytes};
ghost use Rattle.hyphenation_hyphenator.specs.Hyphenated.{hyphenated_text};

use crate::hyphenator::Hyphenator;
use hyphenation_segments::iter::push_marked_text;
use std::alloc::{AllocError, Global};
use word_pieces::WordPieces;
use word_pieces::laws::pieces_are_slices;

/// Hyphenates a whole text: returns it with the mark at each break of its words.
///
/// The text is divided at the word bounds of Unicode. Each piece is replaced by its segments, each but the last with
/// the mark after it. An error says that memory was refused.
///
/// ```text
/// let text = hyphenated_text(alloc, &dictionary, "Firkin, firkins.", "-")?;      // Fir-kin, fir-k-ins.
/// ```
pub fn hyphenated_text<'h, H: Hyphenator<'h>>(
    alloc: Global,
    dictionary: &'h H,
    text: &str,
    mark: &str,
) -> Result<String, AllocError>
    ensures { IfOk result (λ output. string_bytes output
        ≡ hyphenated_text (H.breaks_of dictionary.now) mark.now text.now) }
{
    pieces_are_slices();
    let mut output = String::with_capacity(alloc, text.len())?;
    let mut breaks = Vec::new(alloc);
    // A piece without breaks is not appended by itself: the text from `start` on is still to be appended.
    let mut start = 0;
    let mut at = 0;
    for piece in WordPieces::new(text) {
        dictionary.breaks_into(piece, &mut breaks)?;
        let end = at + piece.len();
        if !breaks.is_empty() {
            output.push_str(&text[start..at])?;
            push_marked_text(&mut output, piece, &breaks, mark)?;
            start = end;
        }
        at = end;
    }
    output.push_str(&text[start..])?;
    Ok(output)
}

/// Hyphenates a whole text and appends it to a `String`, with the mark at each break of its words.
///
/// The text is divided at the word bounds of Unicode, as the crate `unicode_segmentation` lists the pieces. Each piece,
/// whether it is a word or not, is replaced by its segments, each but the last with the mark after it.
///
/// An error says that memory was refused; the `String` is then unchanged.
///
/// ```text
/// hyphenate_text(alloc, &mut page, &dictionary, "Firkin, firkins.", "-")?;      // Fir-kin, fir-k-ins.
/// ```
pub fn hyphenate_text<'h, H: Hyphenator<'h>>(
    alloc: Global,
    output: &mut String,
    dictionary: &'h H,
    text: &str,
    mark: &str,
) -> Result<(), AllocError>
    ensures appended { OnOk result (string_bytes output.new ≡ string_bytes output.old ++ hyphenated_text
        (H.breaks_of dictionary.now) mark.now text.now) }
    ensures unchanged_on_error { OnErr result (string_bytes output.new ≡ string_bytes output.old) }
{
    let hyphenated = hyphenated_text(alloc, dictionary, text, mark)?;
    output.push_str(&hyphenated)
}
