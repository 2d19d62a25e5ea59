//! Words that go on beyond a text: over a tag within a line, or in a character reference.

ghost use Rattle.std.specs.Prelude.{◌≡◌, map};
ghost use Rattle.html_pieces.specs.Pieces.{as_piece};
ghost use Rattle.hyphenation_html.specs.Touching.{is_inline, goes_on_over, touched_after};
ghost use Rattle.hyphenation_html.specs.Touching.{begins_in_word, ends_in_word, begins_touching, ends_touching, touched_before};

use html_pieces::bytes::is_one_of;
use html_pieces::groups::FORMATTING_NAMES;
use html_pieces::tokenizer::{Piece, PieceKind, name_of};
use text_words::is_of_word;

/// Elements within a line that are not [`FORMATTING_NAMES`]: a word may begin in one and end outside of it.
pub const INLINE_NAMES: [&[u8]; 19] = [
    b"abbr", b"acronym", b"bdi", b"bdo", b"cite", b"data", b"del", b"dfn", b"ins", b"kbd", b"mark",
    b"q", b"samp", b"span", b"sub", b"sup", b"time", b"var", b"wbr",
];

// Whether an element is within a line.
fn is_inline(name: &[u8]) -> bool
    ensures { result ≡ is_inline name.now }
{
    is_one_of(name, &FORMATTING_NAMES) || is_one_of(name, &INLINE_NAMES)
}

// Whether a word goes on over a piece.
#[tactic(auto, unfolding(crate::specs::Touching::goes_on_over))]
fn goes_on_over(piece: Piece<'_>) -> bool
    ensures { result ≡ goes_on_over piece.entry.kind piece.entry.text.now }
{
    match piece.kind {
        PieceKind::StartTag | PieceKind::EmptyTag | PieceKind::EndTag => {
            is_inline(name_of(piece.text.as_bytes()))
        }
        PieceKind::Other => true,
        PieceKind::Text | PieceKind::Reference => false,
    }
}

// Whether a text begins with a byte of a word.
fn begins_in_word(text: &[u8]) -> bool
    ensures { result ≡ begins_in_word text.now }
{
    match text {
        [] => false,
        [first, ..] => is_of_word(*first),
    }
}

// Whether a text ends with a byte of a word.
fn ends_in_word(text: &[u8]) -> bool
    ensures { result ≡ ends_in_word text.now }
{
    match text.last() {
        Some(last) => is_of_word(*last),
        None => false,
    }
}

// Whether a piece begins with a byte of a word, or is a character reference.
fn begins_touching(piece: Piece<'_>) -> bool
    ensures { result ≡ begins_touching piece.entry.kind piece.entry.text.now }
{
    match piece.kind {
        PieceKind::Text => begins_in_word(piece.text.as_bytes()),
        PieceKind::Reference => true,
        _ => false,
    }
}

// Whether a piece ends with a byte of a word, or is a character reference.
fn ends_touching(piece: Piece<'_>) -> bool
    ensures { result ≡ ends_touching piece.entry.kind piece.entry.text.now }
{
    match piece.kind {
        PieceKind::Text => ends_in_word(piece.text.as_bytes()),
        PieceKind::Reference => true,
        _ => false,
    }
}

// Whether the rest of a word, or a character reference, comes next.
pub(crate) fn touched_after(pieces: &[Piece<'_>]) -> bool
    ensures { result ≡ touched_after (map as_piece pieces.now) }
{
    for piece in pieces {
        if !goes_on_over(*piece) {
            return begins_touching(*piece);
        }
    }
    false
}

// Whether the front of a word, or a character reference, was last, where `before` says so of what is before a piece.
pub(crate) fn touched_before(before: bool, piece: Piece<'_>) -> bool
    ensures { result ≡ touched_before before piece.entry.kind piece.entry.text.now }
{
    if goes_on_over(piece) {
        before
    } else {
        ends_touching(piece)
    }
}
