//! The form of a page, and its pieces in that form.

ghost use Rattle.std.specs.Prelude.{◌≡◌, ◌==◌, map, IfOk, if◌then◌else◌};
ghost use Rattle.html_pieces.specs.Pieces.{as_piece, pieces_of};
ghost use Rattle.html_pieces.specs.Forms.{begins_with_order_mark, after_order_mark, begins_with_declaration, has_declaration, is_start};
ghost use Rattle.html_pieces.specs.Forms.{is_data, is_tag_end, is_past_front, front_after, front_state};
ghost use Rattle.html_pieces.specs.declared.tokenizer.State.TheVariants.{TagOpen, CommentEnd};
ghost use Rattle.html_pieces.specs.Forms.{root_tag, has_namespace, form_of};

use crate::bytes::{PageForm, is_alpha, is_continuation, is_white_space};
use crate::tags::{attributes, value_of};
use crate::tokenizer::State::{
    BogusComment, Comment, CommentEnd, CommentEndDash, CommentStart, CommentStartDash, Data,
    EmptyTagEnd, MarkupDeclarationDash, MarkupDeclarationOpen, Plaintext, ProcessingInstruction,
    ProcessingInstructionMark, TagEnd, TagName, TagOpen,
};
use crate::tokenizer::{Piece, PieceKind, State, next, pieces};
use std::alloc::{AllocError, Global};

/// A page that is cut into pieces, and its form.
#[derive(Drop)]
pub struct CutPage<'t> {
    pub form: PageForm,
    pub pieces: Vec<Piece<'t>>,
}

/// Reports whether bytes begin with U+FEFF, which is the byte order mark at the beginning of a page.
pub fn begins_with_order_mark(bytes: &[u8]) -> bool
    ensures { result ≡ begins_with_order_mark bytes.now }
{
    bytes.starts_with(b"\xef\xbb\xbf")
}

// The bytes of a page without a byte order mark.
pub(crate) fn after_order_mark(page: &[u8]) -> &[u8]
    ensures { result.now ≡ after_order_mark page.now }
{
    if begins_with_order_mark(page) {
        &page[3..]
    } else {
        page
    }
}

fn begins_with_declaration(page: &[u8]) -> bool
    ensures { result ≡ begins_with_declaration page.now }
{
    page.starts_with(b"<?xml") && page.len() > 5 && is_white_space(page[5])
}

// Reports whether a page begins with an XML declaration.
fn has_declaration(page: &[u8]) -> bool
    ensures { result ≡ has_declaration page.now }
{
    begins_with_declaration(after_order_mark(page))
}

pub(crate) const fn is_start(kind: PieceKind) -> bool
    ensures { result ≡ is_start kind }
{
    matches!(kind, PieceKind::StartTag | PieceKind::EmptyTag)
}

const fn is_data(state: State) -> bool
    ensures { result ≡ is_data state }
{
    matches!(state, Data)
}

const fn is_tag_end(state: State) -> bool
    ensures { result ≡ is_tag_end state }
{
    matches!(state, TagEnd | EmptyTagEnd)
}

// Reports whether the first tag has ended, or something came that belongs to no front.
const fn is_past_front(state: State) -> bool
    ensures { result ≡ is_past_front state }
{
    matches!(state, State::TagEnd | State::EmptyTagEnd | State::Plaintext)
}

// One state after a byte, another one after a second byte, and a third after all others.
const fn by_byte(
    byte: u8,
    first: u8,
    there: State,
    second: u8,
    next_there: State,
    other: State,
) -> State
    ensures { result ≡ (if byte == first then there else if byte == second then next_there else other) }
{
    if byte == first {
        there
    } else if byte == second {
        next_there
    } else {
        other
    }
}

// After `<`.
#[tactic(auto, unfolding(crate::specs::Forms::front_after))]
fn after_tag_open(byte: u8) -> State
    ensures { result ≡ front_after TagOpen byte }
{
    if is_alpha(byte) {
        TagName
    } else {
        by_byte(
            byte,
            b'!',
            MarkupDeclarationOpen,
            b'?',
            ProcessingInstruction,
            Plaintext,
        )
    }
}

// In a comment, after two dashes.
#[tactic(auto, unfolding(crate::specs::Forms::front_after))]
fn after_dashes(byte: u8) -> State
    ensures { result ≡ front_after CommentEnd byte }
{
    if byte == b'>' {
        Data
    } else {
        by_byte(byte, b'!', Plaintext, b'-', CommentEnd, Comment)
    }
}

// The state after a byte of a front.
#[tactic(auto, unfolding(crate::specs::Forms::front_after))]
fn front_after(state: State, byte: u8) -> State
    ensures { result ≡ front_after state byte }
{
    match state {
        Data => if byte == b'<' { TagOpen } else { Data },
        TagOpen => after_tag_open(byte),
        MarkupDeclarationOpen => by_byte(
            byte,
            b'-',
            MarkupDeclarationDash,
            b'>',
            Data,
            BogusComment,
        ),
        MarkupDeclarationDash => by_byte(byte, b'-', CommentStart, b'>', Data, BogusComment),
        BogusComment => by_byte(byte, b'>', Data, b'[', Plaintext, BogusComment),
        ProcessingInstruction => by_byte(
            byte,
            b'>',
            Plaintext,
            b'?',
            ProcessingInstructionMark,
            ProcessingInstruction,
        ),
        ProcessingInstructionMark => by_byte(
            byte,
            b'>',
            Data,
            b'?',
            ProcessingInstructionMark,
            ProcessingInstruction,
        ),
        CommentStart => by_byte(byte, b'-', CommentStartDash, b'>', Plaintext, Comment),
        CommentStartDash => by_byte(byte, b'-', CommentEnd, b'>', Plaintext, Comment),
        Comment => if byte == b'-' {
            CommentEndDash
        } else {
            Comment
        },
        CommentEndDash => if byte == b'-' { CommentEnd } else { Comment },
        CommentEnd => after_dashes(byte),
        _ => next(PageForm::Xml, false, state, &[], byte).unwrap_or(state),
    }
}

// The state after a byte of a front, where one that is not the first of its character goes with it.
fn front_state(state: State, byte: u8) -> State
    ensures { result ≡ front_state state byte }
{
    if is_continuation(byte) {
        state
    } else {
        front_after(state, byte)
    }
}

// The first tag of a page, where its front leads to one; else nothing.
fn root_tag(page: &[u8]) -> &[u8]
    ensures { result.now ≡ root_tag page.now }
{
    let mut state = Data;
    let mut start = 0;
    for i in 0..page.len() {
        state = front_state(state, page[i]);
        if is_tag_end(state) {
            return &page[start..i + 1];
        }
        if is_past_front(state) {
            return &[];
        }
        if is_data(state) {
            start = i + 1;
        }
    }
    &[]
}

// Reports whether a tag has the attribute `xmlns`.
fn has_namespace(alloc: Global, tag: &[u8]) -> Result<bool, AllocError>
    ensures { IfOk result (λ has. has ≡ has_namespace tag.now) }
{
    let attributes = attributes(alloc, PageForm::Xml, tag)?;
    Ok(value_of(PageForm::Xml, &attributes, b"xmlns").is_some())
}

// The form of a page.
fn form_of(alloc: Global, page: &[u8]) -> Result<PageForm, AllocError>
    ensures { IfOk result (λ form. form ≡ form_of page.now) }
{
    if has_declaration(page) {
        return Ok(PageForm::Xml);
    }
    Ok(if has_namespace(alloc, root_tag(page))? {
        PageForm::Xml
    } else {
        PageForm::Html
    })
}

/// Returns the form of a page, and its pieces in that form.
///
/// A page is XML where it begins with an XML declaration, or its first tag has the attribute `xmlns`; any other is HTML.
/// Before that tag there may be text, comments, declarations and instructions that HTML and XML read alike. The only error
/// is that memory was refused.
pub fn cut(alloc: Global, page: &str) -> Result<CutPage<'_>, AllocError>
    ensures form { IfOk result (λ cut. cut.form ≡ form_of page.now) }
    ensures pieces { IfOk result (λ cut. map as_piece cut.pieces.items ≡ pieces_of cut.form page.now) }
{
    let form = form_of(alloc, page.as_bytes())?;
    Ok(CutPage {
        form,
        pieces: pieces(alloc, form, page)?,
    })
}
