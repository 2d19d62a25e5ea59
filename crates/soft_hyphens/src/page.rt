//! Pages without their soft hyphens.

ghost use Rattle.std.specs.Prelude.{◌≡◌, ◌++◌, IfOk, OnOk};
ghost use Rattle.std.specs.String.{string_bytes};
ghost use Rattle.html_pieces.specs.Pieces.{as_piece};
ghost use Rattle.soft_hyphens.specs.Removed.{is_soft_hyphen_reference, removed_page, removed_piece};

use crate::text::remove_soft_hyphens;
use html_pieces::forms::cut;
use html_pieces::references::read;
use html_pieces::tokenizer::{Piece, PieceKind};
use std::alloc::{AllocError, Global};

// Whether a character reference is a soft hyphen.
fn is_soft_hyphen_reference(alloc: Global, reference: &str) -> Result<bool, AllocError>
    ensures { IfOk result (λ is. is ≡ is_soft_hyphen_reference reference.now) }
{
    if reference == "&shy;" || reference == "&shy" {
        return Ok(true);
    }
    let character = read(alloc, reference.as_bytes())?;
    Ok(character.as_slice() == b"\xc2\xad".as_slice())
}

// Appends a piece of a page, without its soft hyphens.
fn push_piece(alloc: Global, rest: &mut String, piece: &Piece<'_>) -> Result<(), AllocError>
    ensures { OnOk result (string_bytes rest.new ≡ string_bytes rest.old ++ removed_piece (as_piece piece.now)) }
{
    match piece.kind {
        PieceKind::Text => {
            let text = remove_soft_hyphens(alloc, piece.text)?;
            rest.push_str(&text)
        }
        PieceKind::Reference => {
            if is_soft_hyphen_reference(alloc, piece.text)? {
                return Ok(());
            }
            rest.push_str(piece.text)
        }
        _ => rest.push_str(piece.text),
    }
}

/// Returns an HTML or XHTML page without the soft hyphens of its text.
///
/// So `&shy;` is taken out, and a number of U+00AD, as `&#173;` and `&#x00AD;`. The semicolon may be missing where no letter
/// or digit follows. Tags, comments, scripts and styles stay as they are, and so do all other references. The error says
/// that memory was refused.
///
/// ```text
/// remove_from_page(alloc, "<p title='a&shy;b'>fir&shy;kin")?     // <p title='a&shy;b'>firkin
/// ```
pub fn remove_from_page(alloc: Global, page: &str) -> Result<String, AllocError>
    ensures { IfOk result (λ rest. string_bytes rest ≡ removed_page page.now) }
{
    let cut = cut(alloc, page)?;
    let mut rest = String::with_capacity(alloc, page.len())?;
    for piece in &cut.pieces {
        push_piece(alloc, &mut rest, piece)?;
    }
    Ok(rest)
}
