//! Texts in Markdown.

ghost use Rattle.std.specs.Prelude.{◌≡◌, ◌++◌, ◌<◌, false, drop, length, map, slice_get, IfOk, OnOk, Some};
ghost use Rattle.std.specs.String.{string_bytes};
ghost use Rattle.markdown_pieces.specs.Pieces.{as_piece, pieces_of};
ghost use Rattle.hyphenation_text.specs.Laws.{IsPageWithMarks, soft_hyphen};
ghost use Rattle.hyphenation_text.specs.Markdown.{touches, first_touches, last_touches, is_touched_by, is_in_no_target};
ghost use Rattle.hyphenation_text.specs.Markdown.{is_target, ends_link, is_link, stays, hyphenated_markdown};
ghost use Rattle.hyphenation_text.specs.Texts.{so_far};
ghost use Rattle.hyphenation_text.specs.Private.MarkedMarkdown.{marked_markdown_piece_by, marked_markdown_by};

use crate::laws::limited_breaks_fit;
use crate::settings::Settings;
use crate::text::{Output, push_text};
use any_dictionary::AnyDictionary;
use html_pieces::bytes::is_white_space;
use hyphenation_hyphenator::hyphenator::laws::plain_breaks_fit_where_ascending;
use hyphenation_segments::iter::laws::{marked_segments_join, segments_join};
use markdown_pieces::laws::{other_texts_are_cut_alike, pieces_are_utf8, pieces_join};
use markdown_pieces::{Piece, PieceKind, pieces};
use std::alloc::{AllocError, Global};
use text_words::laws::words_are_slices;

// Whether a word may go on in a byte of markup.
const fn touches(byte: u8) -> bool
    ensures { result ≡ touches byte }
{
    !(is_white_space(byte)
        || byte == b'!'
        || byte == b'#'
        || b'(' <= byte && byte <= b'*'
        || byte == b'['
        || byte == b']'
        || byte == b'|')
}

// Whether what comes first in a piece touches a text before it.
fn first_touches(piece: Piece<'_>) -> bool
    ensures { result ≡ first_touches piece.entry.kind piece.entry.text.now }
{
    match piece.kind {
        PieceKind::Other => {
            let bytes = piece.text.as_bytes();
            !bytes.is_empty() && touches(bytes[0])
        }
        _ => true,
    }
}

// Whether what is last in a piece touches a text after it.
fn last_touches(piece: Piece<'_>) -> bool
    ensures { result ≡ last_touches piece.entry.kind piece.entry.text.now }
{
    match piece.kind {
        PieceKind::Other => {
            let bytes = piece.text.as_bytes();
            !bytes.is_empty() && touches(bytes[bytes.len() - 1])
        }
        _ => true,
    }
}

// Whether the first of some pieces touches a text before them.
fn is_touched_by(pieces: &[Piece<'_>]) -> bool
    ensures { result ≡ is_touched_by (map as_piece pieces.now) }
{
    pieces.len() > 0 && first_touches(pieces[0])
}

// Whether a byte is in no target, or not for certain.
const fn is_in_no_target(byte: u8) -> bool
    ensures { result ≡ is_in_no_target byte }
{
    is_white_space(byte)
        || byte == b'"'
        || byte == b'\''
        || byte == b'('
        || byte == b'<'
        || b'[' <= byte && byte <= b']'
        || byte == b'`'
}

// Whether a target and its end are first in some bytes.
fn is_target(bytes: &[u8]) -> bool
    ensures { result ≡ is_target bytes.now }
{
    for byte in bytes {
        if *byte == b')' {
            return true;
        }
        if is_in_no_target(*byte) {
            return false;
        }
    }
    false
}

// Whether a piece is the end of a link.
fn ends_link(piece: Piece<'_>) -> bool
    ensures { result ≡ ends_link piece.entry.kind piece.entry.text.now }
{
    match piece.kind {
        PieceKind::Other => {
            let bytes = piece.text.as_bytes();
            bytes.starts_with(b"](") && is_target(&bytes[2..])
        }
        _ => false,
    }
}

// Whether the first of some pieces is the end of a link.
fn is_link(pieces: &[Piece<'_>]) -> bool
    ensures { result ≡ is_link (map as_piece pieces.now) }
{
    pieces.len() > 0 && ends_link(pieces[0])
}

// Whether a piece before some others stays as it is.
fn stays(kind: PieceKind, pieces: &[Piece<'_>]) -> bool
    ensures { result ≡ stays kind (map as_piece pieces.now) }
{
    match kind {
        PieceKind::Text => false,
        PieceKind::Bracketed => !is_link(pieces),
        PieceKind::Other => true,
    }
}

// Appends a piece before some others, with its marks.
fn push_piece(
    output: &mut Output,
    dictionary: &AnyDictionary,
    settings: &Settings<'_>,
    before: bool,
    piece: Piece<'_>,
    rest: &[Piece<'_>],
) -> Result<(), AllocError>
    ensures { OnOk result (so_far output.new ≡ so_far output.old
        ++ marked_markdown_piece_by settings.now dictionary.now before piece.entry rest.now) }
{
    if stays(piece.kind, rest) {
        output.text.push_str(piece.text)
    } else {
        push_text(
            output,
            dictionary,
            settings,
            piece.text,
            before,
            is_touched_by(rest),
        )
    }
}

// Returns the piece of a number.
fn piece_at<'t>(pieces: &[Piece<'t>], i: usize) -> Piece<'t>
    requires { i < length pieces.now }
    ensures { slice_get pieces.now i ≡ Some result }
{
    pieces[i]
}

// Appends the pieces of a text, each with its marks.
fn push_pieces(
    output: &mut Output,
    dictionary: &AnyDictionary,
    settings: &Settings<'_>,
    pieces: &[Piece<'_>],
) -> Result<(), AllocError>
    ensures { OnOk result (so_far output.new ≡ so_far output.old
        ++ marked_markdown_by settings.now dictionary.now (map as_piece pieces.now)) }
{
    let mut before = false;
    for i in 0..pieces.len() {
        let piece = piece_at(pieces, i);
        push_piece(
            output,
            dictionary,
            settings,
            before,
            piece,
            &pieces[i + 1..],
        )?;
        before = last_touches(piece);
    }
    Ok(())
}

// Returns a text that was written piece by piece.
fn markdown_with_marks(
    alloc: Global,
    dictionary: &AnyDictionary,
    settings: &Settings<'_>,
    text: &str,
) -> Result<String, AllocError>
    ensures { IfOk result (λ made. string_bytes made
        ≡ marked_markdown_by settings.now dictionary.now (pieces_of text.now)) }
{
    let mut output = Output::with_capacity(alloc, text.len())?;
    let pieces = pieces(alloc, text)?;
    push_pieces(&mut output, dictionary, settings, &pieces)?;
    Ok(output.text)
}

/// Returns a text in Markdown with the mark at each break of its words that changes no letters.
///
/// Code in spans, in fences and by its indent stays as it is. So do the targets and titles of links, images, definitions of
/// links, labels, addresses in `<` and `>`, HTML, character references, and front matter. Markdown is read by
/// CommonMark 0.31, line by line. Where a rule needs more than the line, all is left as it is up to a blank line, and where a
/// fence may be closed or not, up to the end. In a text the words are those of [`hyphenate_text`](crate::hyphenate_text). A word that
/// touches markup is left whole, except for brackets, `!`, `#`, `*` and `|`.
///
/// Without the marks the result is the text, byte for byte. With soft hyphens as marks a second run changes nothing. An error
/// says that memory was refused.
///
/// ```text
/// let settings = Settings { mark: "-", ..Settings::new() };
/// hyphenate_markdown(alloc, &dictionary, &settings, "The `firkin` [firkin](firkin)")?;    // The `firkin` [fir-kin](firkin)
/// ```
pub fn hyphenate_markdown(
    alloc: Global,
    dictionary: &AnyDictionary,
    settings: &Settings<'_>,
    text: &str,
) -> Result<String, AllocError>
    ensures marked { IfOk result (λ output.
        string_bytes output ≡ hyphenated_markdown settings.now dictionary.now text.now) }
    ensures kept { IfOk result (λ output. IsPageWithMarks settings.now.mark.now text.now (string_bytes output)) }
    ensures twice { settings.now.mark.now ≡ soft_hyphen → IfOk result (λ it.
        hyphenated_markdown settings.now dictionary.now (string_bytes it) ≡ string_bytes it) }
{
    plain_breaks_fit_where_ascending();
    words_are_slices();
    segments_join();
    marked_segments_join();
    pieces_join();
    pieces_are_utf8();
    other_texts_are_cut_alike();
    limited_breaks_fit(dictionary, settings);
    markdown_with_marks(alloc, dictionary, settings, text)
}
