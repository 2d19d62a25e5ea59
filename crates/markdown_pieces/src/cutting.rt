//! The pieces of a text.

ghost use Rattle.std.specs.Prelude.{◌≡◌, map, IfOk};
ghost use Rattle.markdown_pieces.specs.Pieces.{kind_of, kind_after, state_after, is_same_kind, as_piece, pieces_of};

use crate::bytes::is_special;
use crate::reading::{first_state, next, reads};
use crate::state::State;
use html_pieces::bytes::is_continuation;
use std::alloc::{AllocError, Global};

/// The kinds of pieces.
#[derive(Clone, Copy, Debug, PartialEq, Eq)]
pub enum PieceKind {
    /// Text.
    Text,
    /// Text in square brackets. It may be of a link, or be a label that is to stay as it is.
    Bracketed,
    /// Markup, code, or what may be either.
    Other,
}

/// A piece of a text: its kind and its text.
#[derive(Clone, Copy, Debug, PartialEq, Eq)]
pub struct Piece<'t> {
    pub kind: PieceKind,
    pub text: &'t str,
}

// The kind of a byte, by the state before it.
#[tactic(auto, unfolding(crate::specs::Pieces::kind_of))]
const fn kind_of(state: State, byte: u8) -> PieceKind
    ensures { result ≡ kind_of state byte }
{
    if reads(state.mode, state.block, byte) && !is_special(byte) {
        if state.in_brackets {
            PieceKind::Bracketed
        } else {
            PieceKind::Text
        }
    } else {
        PieceKind::Other
    }
}

// The kind of a byte, which stays within a character.
const fn kind_after(state: State, kind: PieceKind, byte: u8) -> PieceKind
    ensures { result ≡ kind_after state kind byte }
{
    if is_continuation(byte) {
        kind
    } else {
        kind_of(state, byte)
    }
}

// The state after a byte, which stays within a character.
const fn state_after(state: State, byte: u8) -> State
    ensures { result ≡ state_after state byte }
{
    if is_continuation(byte) {
        state
    } else {
        next(state, byte)
    }
}

// Whether two kinds are one.
const fn is_same_kind(one: PieceKind, other: PieceKind) -> bool
    ensures { result ≡ is_same_kind one other }
{
    match one {
        PieceKind::Text => matches!(other, PieceKind::Text),
        PieceKind::Bracketed => matches!(other, PieceKind::Bracketed),
        PieceKind::Other => matches!(other, PieceKind::Other),
    }
}

/// Returns the pieces of a text in Markdown, in order.
///
/// They join to the text. Bytes of one kind that follow one another are one piece. The only error is that memory was refused.
///
/// ```text
/// pieces(alloc, "A `word` [here](x)")?;    // "A ", "`word`", " ", "[", "here", "](x)": Text, Other, Text, Other, Bracketed, Other
/// ```
pub fn pieces(alloc: Global, text: &str) -> Result<Vec<Piece<'_>>, AllocError>
    ensures { IfOk result (λ pieces. map as_piece pieces.items ≡ pieces_of text.now) }
{
    let mut pieces = Vec::new(alloc);
    let bytes = text.as_bytes();
    if bytes.is_empty() {
        return Ok(pieces);
    }
    let mut kind = kind_of(first_state(), bytes[0]);
    let mut state = next(first_state(), bytes[0]);
    let mut start = 0;
    for i in 1..bytes.len() {
        let byte = bytes[i];
        let after = kind_after(state, kind, byte);
        if !is_same_kind(kind, after) {
            pieces.push(Piece {
                kind,
                text: &text[start..i],
            })?;
            kind = after;
            start = i;
        }
        state = state_after(state, byte);
    }
    pieces.push(Piece {
        kind,
        text: &text[start..],
    })?;
    Ok(pieces)
}
