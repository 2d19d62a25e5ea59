//! A page, cut into pieces.

ghost use Rattle.std.specs.Prelude.{◌≡◌, ◌==◌, ◌&&◌, ◌+◌, ◌<◌, ◌≤◌, ◌^◌, [], false, None, Some, length, map, take_while, not, IfOk, if◌then◌else◌};
ghost use Rattle.html_pieces.specs.Bytes.{ends_name, is_xml};
ghost use Rattle.html_pieces.specs.declared.bytes.PageForm.TheVariants.{Html};
ghost use Rattle.html_pieces.specs.Names.{is_end_tag, name_of, raw_end_tag, raw_element, is_foreign_root};
ghost use Rattle.html_pieces.specs.Pieces.{in_tag, in_attribute, before_value, in_unquoted_value, ends_tag, in_raw};
ghost use Rattle.html_pieces.specs.Pieces.{in_escaped, in_double_escaped, next, state_after, kind_of, content_of};
ghost use Rattle.html_pieces.specs.Pieces.{content_after_tag, content_after, depth_after, begin, pieces_of};
ghost use Rattle.html_pieces.specs.Pieces.{as_piece};
ghost use Rattle.html_pieces.specs.Laws.{ends_text};
ghost use Rattle.html_pieces.specs.declared.tokenizer.State.TheVariants.{Data, CharacterReference, ReferenceName};
ghost use Rattle.html_pieces.specs.declared.tokenizer.State.TheVariants.{TagOpen, EndTagOpen, SelfClosingTag, MarkupEnd};
ghost use Rattle.html_pieces.specs.declared.tokenizer.State.TheVariants.{BogusComment, DoctypeSubsetEnd, Comment, CommentEnd};
ghost use Rattle.html_pieces.specs.Private.Quiet.{is_quiet, AreAlphanumeric, AreQuiet, AreOthers};

use self::State::*;
use crate::bytes::{
    PageForm, ends_name, is_alphanumeric, is_continuation, is_name_start, is_same_name,
    is_white_space,
};
use memchr::memchr2;
use std::alloc::{AllocError, Global};

/// An element whose content is no markup.
#[derive(Clone, Copy, Debug, PartialEq, Eq)]
pub enum RawElement {
    Script,
    Style,
    Textarea,
    Title,
    Xmp,
    Iframe,
    Noembed,
    Noframes,
}

/// The kinds of pieces.
#[derive(Clone, Copy, Debug, PartialEq, Eq)]
pub enum PieceKind {
    Text,
    Reference,
    StartTag,
    /// A start tag that ends with `/>`.
    EmptyTag,
    EndTag,
    /// Any other piece: a comment, a declaration, a processing instruction, CDATA, or the text of a script. So is a `<`
    /// that begins nothing, and a tag that is cut off.
    Other,
}

/// A state of the tokenizer.
#[derive(Clone, Copy, Debug, PartialEq, Eq)]
pub enum State {
    Data,
    CharacterReference,
    ReferenceName,
    ReferenceEnd,
    TagOpen,
    EndTagOpen,
    TagName,
    BeforeAttributeName,
    AttributeName,
    AfterAttributeName,
    BeforeAttributeValue,
    DoubleQuotedValue,
    SingleQuotedValue,
    UnquotedValue,
    AfterQuotedValue,
    SelfClosingTag,
    TagEnd,
    EmptyTagEnd,
    MarkupDeclarationOpen,
    MarkupDeclarationDash,
    BogusComment,
    DoctypeSubset,
    DoctypeSubsetEnd,
    ProcessingInstruction,
    ProcessingInstructionMark,
    CommentStart,
    CommentStartDash,
    Comment,
    CommentEndDash,
    CommentEnd,
    CommentEndBang,
    CdataSection,
    CdataSectionBracket,
    CdataSectionEnd,
    MarkupEnd,
    Raw(RawElement),
    ScriptEscaped,
    ScriptDoubleEscaped,
    Plaintext,
}

/// A piece of a page: its kind and its text.
#[derive(Clone, Copy, Debug, PartialEq, Eq)]
pub struct Piece<'t> {
    pub kind: PieceKind,
    pub text: &'t str,
}

impl RawElement {
    // The element's end tag, as far as its name.
    pub(crate) const fn end_tag(self) -> &'static [u8]
        ensures { result.now ≡ raw_end_tag self }
    {
        match self {
            RawElement::Script => b"</script",
            RawElement::Style => b"</style",
            RawElement::Textarea => b"</textarea",
            RawElement::Title => b"</title",
            RawElement::Xmp => b"</xmp",
            RawElement::Iframe => b"</iframe",
            RawElement::Noembed => b"</noembed",
            RawElement::Noframes => b"</noframes",
        }
    }
}

fn in_tag(byte: u8, other: State) -> State
    ensures { result ≡ in_tag byte other }
{
    if is_white_space(byte) {
        BeforeAttributeName
    } else if byte == b'/' {
        SelfClosingTag
    } else if byte == b'>' {
        TagEnd
    } else {
        other
    }
}

fn in_attribute(byte: u8) -> State
    ensures { result ≡ in_attribute byte }
{
    if is_white_space(byte) {
        AfterAttributeName
    } else if byte == b'/' {
        SelfClosingTag
    } else if byte == b'>' {
        TagEnd
    } else if byte == b'=' {
        BeforeAttributeValue
    } else {
        AttributeName
    }
}

fn before_value(byte: u8) -> State
    ensures { result ≡ before_value byte }
{
    if is_white_space(byte) {
        BeforeAttributeValue
    } else if byte == b'"' {
        DoubleQuotedValue
    } else if byte == b'\'' {
        SingleQuotedValue
    } else if byte == b'>' {
        TagEnd
    } else {
        UnquotedValue
    }
}

fn in_unquoted_value(byte: u8) -> State
    ensures { result ≡ in_unquoted_value byte }
{
    if is_white_space(byte) {
        BeforeAttributeName
    } else if byte == b'>' {
        TagEnd
    } else {
        UnquotedValue
    }
}

// Whether the byte ends the name of this tag, of which the front of the piece is the rest.
fn ends_tag(tag: &[u8], front: &[u8], byte: u8) -> bool
    ensures { result ≡ ends_tag tag.now front.now byte }
{
    ends_name(byte) && is_same_name(front, tag)
}

// Within a script or the like.
#[tactic(auto, unfolding(crate::specs::Pieces::in_raw))]
fn in_raw(element: RawElement, front: &[u8], byte: u8) -> Option<State>
    ensures { result ≡ in_raw element front.now byte }
{
    if byte == b'<' {
        None
    } else if ends_tag(element.end_tag(), front, byte) {
        Some(in_tag(byte, TagName))
    } else if byte == b'-' && is_same_name(front, b"<!-") && element == RawElement::Script {
        Some(ScriptEscaped)
    } else {
        Some(Raw(element))
    }
}

// Within a script, after `<!--`.
#[tactic(auto, unfolding(crate::specs::Pieces::in_escaped))]
fn in_escaped(front: &[u8], byte: u8) -> Option<State>
    ensures { result ≡ in_escaped front.now byte }
{
    if byte == b'<' {
        None
    } else if ends_tag(b"</script", front, byte) {
        Some(in_tag(byte, TagName))
    } else if ends_tag(b"<script", front, byte) {
        Some(ScriptDoubleEscaped)
    } else if byte == b'>' && front.ends_with(b"--") {
        Some(Raw(RawElement::Script))
    } else {
        Some(ScriptEscaped)
    }
}

// Within a script, after `<!--` and `<script>`.
#[tactic(auto, unfolding(crate::specs::Pieces::in_double_escaped))]
fn in_double_escaped(front: &[u8], byte: u8) -> Option<State>
    ensures { result ≡ in_double_escaped front.now byte }
{
    if byte == b'<' {
        None
    } else if ends_tag(b"</script", front, byte) {
        Some(ScriptEscaped)
    } else if byte == b'>' && front.ends_with(b"--") {
        Some(Raw(RawElement::Script))
    } else {
        Some(ScriptDoubleEscaped)
    }
}

// One state after a byte, and another one after all others.
const fn on_byte(byte: u8, stop: u8, there: State, other: State) -> Option<State>
    ensures { result ≡ (if byte == stop then Some there else Some other) }
{
    Some(if byte == stop { there } else { other })
}

// A state after each of two bytes, and another one after all others.
const fn on_either(
    byte: u8,
    first: u8,
    there: State,
    second: u8,
    next_there: State,
    other: State,
) -> Option<State>
    ensures { result ≡ (if byte == first then Some there else if byte == second then Some next_there else Some other) }
{
    Some(if byte == first {
        there
    } else if byte == second {
        next_there
    } else {
        other
    })
}

// In a text.
fn in_data(byte: u8) -> Option<State>
    ensures { result ≡ (if ends_text byte then None else Some Data) }
{
    if ends_text(byte) { None } else { Some(Data) }
}

// In a reference, after its `&`.
#[tactic(auto, unfolding(crate::specs::Pieces::next))]
fn in_reference(byte: u8) -> Option<State>
    ensures { result ≡ next Html false CharacterReference [] byte }
{
    if is_alphanumeric(byte) || byte == b'#' {
        Some(ReferenceName)
    } else {
        None
    }
}

// In the name of a reference.
#[tactic(auto, unfolding(crate::specs::Pieces::next))]
fn in_reference_name(byte: u8) -> Option<State>
    ensures { result ≡ next Html false ReferenceName [] byte }
{
    if is_alphanumeric(byte) {
        Some(ReferenceName)
    } else if byte == b';' {
        Some(ReferenceEnd)
    } else {
        None
    }
}

// After `<`.
#[tactic(auto, unfolding(crate::specs::Pieces::next))]
fn in_tag_open(form: PageForm, byte: u8) -> Option<State>
    ensures { result ≡ next form false TagOpen [] byte }
{
    if is_name_start(form, byte) {
        Some(TagName)
    } else if byte == b'/' {
        Some(EndTagOpen)
    } else if byte == b'!' {
        Some(MarkupDeclarationOpen)
    } else if byte == b'?' {
        Some(if form.is_xml() {
            ProcessingInstruction
        } else {
            BogusComment
        })
    } else {
        None
    }
}

// After `</`.
#[tactic(auto, unfolding(crate::specs::Pieces::next))]
fn in_end_tag_open(form: PageForm, byte: u8) -> Option<State>
    ensures { result ≡ next form false EndTagOpen [] byte }
{
    if is_name_start(form, byte) {
        Some(TagName)
    } else if byte == b'>' {
        Some(MarkupEnd)
    } else {
        Some(BogusComment)
    }
}

// After a `/` between the attributes of a tag.
#[tactic(auto, unfolding(crate::specs::Pieces::next))]
fn in_self_closing_tag(byte: u8) -> Option<State>
    ensures { result ≡ next Html false SelfClosingTag [] byte }
{
    if byte == b'>' {
        Some(EmptyTagEnd)
    } else {
        Some(in_tag(byte, AttributeName))
    }
}

// After `<!`, or a dash more, where one leads to a state.
const fn in_declaration(byte: u8, dash: State) -> Option<State>
    ensures { result ≡ (if byte == 45 then Some dash else if byte == 62 then Some MarkupEnd else Some BogusComment) }
{
    on_either(byte, b'-', dash, b'>', MarkupEnd, BogusComment)
}

// In a declaration that is no comment.
#[tactic(auto, unfolding(crate::specs::Pieces::next))]
fn in_bogus_comment(form: PageForm, foreign: bool, front: &[u8], byte: u8) -> Option<State>
    ensures { result ≡ next form foreign BogusComment front.now byte }
{
    if byte == b'>' {
        Some(MarkupEnd)
    } else if byte == b'[' && (form.is_xml() || foreign) && front == b"<![CDATA".as_slice() {
        Some(CdataSection)
    } else if byte == b'[' && form.is_xml() {
        Some(DoctypeSubset)
    } else {
        Some(BogusComment)
    }
}

// In a document type, after a `]` that may end its part in brackets.
#[tactic(auto, unfolding(crate::specs::Pieces::next))]
fn in_doctype_subset_end(byte: u8) -> Option<State>
    ensures { result ≡ next Html false DoctypeSubsetEnd [] byte }
{
    if byte == b'>' {
        Some(MarkupEnd)
    } else if byte == b']' || is_white_space(byte) {
        Some(DoctypeSubsetEnd)
    } else {
        Some(DoctypeSubset)
    }
}

// After `<!--`, or a dash more, where one leads to a state.
const fn in_comment_start(form: PageForm, byte: u8, dash: State) -> Option<State>
    ensures { result ≡ (if byte == 45 then Some dash else if byte == 62 && not (is_xml form) then Some MarkupEnd else Some Comment) }
{
    Some(if byte == b'-' {
        dash
    } else if byte == b'>' && !form.is_xml() {
        MarkupEnd
    } else {
        Comment
    })
}

// In a comment, after two dashes.
#[tactic(auto, unfolding(crate::specs::Pieces::next))]
fn in_comment_end(form: PageForm, byte: u8) -> Option<State>
    ensures { result ≡ next form false CommentEnd [] byte }
{
    Some(if byte == b'>' {
        MarkupEnd
    } else if byte == b'!' && !form.is_xml() {
        CommentEndBang
    } else if byte == b'-' {
        CommentEnd
    } else {
        Comment
    })
}

/// Returns the state after a byte, where `front` is what the piece has before it; none where the piece ended before the
/// byte.
///
/// `foreign` says that the piece is in SVG or MathML.
#[tactic(auto, unfolding(crate::specs::Pieces::next))]
pub fn next(form: PageForm, foreign: bool, state: State, front: &[u8], byte: u8) -> Option<State>
    ensures { result ≡ next form foreign state front.now byte }
{
    match state {
        Data => in_data(byte),
        CharacterReference => in_reference(byte),
        ReferenceName => in_reference_name(byte),
        TagOpen => in_tag_open(form, byte),
        EndTagOpen => in_end_tag_open(form, byte),
        TagName => Some(in_tag(byte, TagName)),
        BeforeAttributeName => Some(in_tag(byte, AttributeName)),
        AttributeName | AfterAttributeName => Some(in_attribute(byte)),
        BeforeAttributeValue => Some(before_value(byte)),
        DoubleQuotedValue => on_byte(byte, b'"', AfterQuotedValue, DoubleQuotedValue),
        SingleQuotedValue => on_byte(byte, b'\'', AfterQuotedValue, SingleQuotedValue),
        UnquotedValue => Some(in_unquoted_value(byte)),
        AfterQuotedValue => Some(in_tag(byte, AttributeName)),
        SelfClosingTag => in_self_closing_tag(byte),
        MarkupDeclarationOpen => in_declaration(byte, MarkupDeclarationDash),
        MarkupDeclarationDash => in_declaration(byte, CommentStart),
        BogusComment => in_bogus_comment(form, foreign, front, byte),
        DoctypeSubset => on_byte(byte, b']', DoctypeSubsetEnd, DoctypeSubset),
        DoctypeSubsetEnd => in_doctype_subset_end(byte),
        ProcessingInstruction => on_byte(
            byte,
            b'?',
            ProcessingInstructionMark,
            ProcessingInstruction,
        ),
        ProcessingInstructionMark => on_either(
            byte,
            b'>',
            MarkupEnd,
            b'?',
            ProcessingInstructionMark,
            ProcessingInstruction,
        ),
        CommentStart => in_comment_start(form, byte, CommentStartDash),
        CommentStartDash => in_comment_start(form, byte, CommentEnd),
        Comment => on_byte(byte, b'-', CommentEndDash, Comment),
        CommentEndDash => on_byte(byte, b'-', CommentEnd, Comment),
        CommentEnd => in_comment_end(form, byte),
        CommentEndBang => on_either(byte, b'-', CommentEndDash, b'>', MarkupEnd, Comment),
        CdataSection => on_byte(byte, b']', CdataSectionBracket, CdataSection),
        CdataSectionBracket => on_byte(byte, b']', CdataSectionEnd, CdataSection),
        CdataSectionEnd => on_either(byte, b']', CdataSectionEnd, b'>', MarkupEnd, CdataSection),
        Raw(element) => in_raw(element, front, byte),
        ScriptEscaped => in_escaped(front, byte),
        ScriptDoubleEscaped => in_double_escaped(front, byte),
        Plaintext => Some(Plaintext),
        ReferenceEnd | TagEnd | EmptyTagEnd | MarkupEnd => None,
    }
}

/// Reports whether a tag is an end tag.
pub fn is_end_tag(tag: &[u8]) -> bool
    ensures { result ≡ is_end_tag tag.now }
{
    tag.len() > 1 && tag[1] == b'/'
}

// The bytes before the first one that ends a name.
fn before_name_end(bytes: &[u8]) -> &[u8]
    ensures { result.now ≡ take_while (λ b. not (ends_name b)) bytes.now }
{
    for (i, byte) in bytes.iter().enumerate() {
        if ends_name(*byte) {
            return &bytes[..i];
        }
    }
    bytes
}

/// Returns the name of a tag.
#[tactic(auto, unfolding(crate::specs::Names::name_of))]
pub fn name_of(tag: &[u8]) -> &[u8]
    ensures { result.now ≡ name_of tag.now }
{
    if is_end_tag(tag) {
        before_name_end(&tag[2..])
    } else if tag.is_empty() {
        tag
    } else {
        before_name_end(&tag[1..])
    }
}

// The element of this name, if its content is no markup.
#[tactic(auto, unfolding(crate::specs::Names::raw_element))]
pub(crate) fn raw_element(name: &[u8]) -> Option<RawElement>
    ensures { result ≡ raw_element name.now }
{
    if is_same_name(name, b"script") {
        Some(RawElement::Script)
    } else if is_same_name(name, b"style") {
        Some(RawElement::Style)
    } else if is_same_name(name, b"textarea") {
        Some(RawElement::Textarea)
    } else if is_same_name(name, b"title") {
        Some(RawElement::Title)
    } else if is_same_name(name, b"xmp") {
        Some(RawElement::Xmp)
    } else if is_same_name(name, b"iframe") {
        Some(RawElement::Iframe)
    } else if is_same_name(name, b"noembed") {
        Some(RawElement::Noembed)
    } else if is_same_name(name, b"noframes") {
        Some(RawElement::Noframes)
    } else {
        None
    }
}

// The kind of a piece, by the state at its end.
#[tactic(auto, unfolding(crate::specs::Pieces::kind_of))]
fn kind_of(state: State, front: &[u8]) -> PieceKind
    ensures { result ≡ kind_of state front.now }
{
    match state {
        Data => PieceKind::Text,
        CharacterReference | ReferenceName | ReferenceEnd => PieceKind::Reference,
        TagEnd => if is_end_tag(front) {
            PieceKind::EndTag
        } else {
            PieceKind::StartTag
        },
        EmptyTagEnd => if is_end_tag(front) {
            PieceKind::EndTag
        } else {
            PieceKind::EmptyTag
        },
        _ => PieceKind::Other,
    }
}

/// Reports whether an element of this name holds SVG or MathML.
#[tactic(auto, unfolding(crate::specs::Names::is_foreign_root))]
pub fn is_foreign_root(name: &[u8]) -> bool
    ensures { result ≡ is_foreign_root name.now }
{
    is_same_name(name, b"svg") || is_same_name(name, b"math")
}

// The state in which the content of an element begins in HTML.
fn content_of(name: &[u8]) -> State
    ensures { result ≡ content_of name.now }
{
    if is_same_name(name, b"plaintext") {
        return Plaintext;
    }
    match raw_element(name) {
        Some(element) => Raw(element),
        None => Data,
    }
}

// The state after a tag.
fn content_after_tag(form: PageForm, foreign: bool, tag: &[u8]) -> State
    ensures { result ≡ content_after_tag form foreign tag.now }
{
    if form.is_xml() || foreign || is_end_tag(tag) {
        Data
    } else {
        content_of(name_of(tag))
    }
}

// The state in which the piece after this one begins.
#[tactic(auto, unfolding(crate::specs::Pieces::content_after))]
fn content_after(form: PageForm, foreign: bool, state: State, front: &[u8]) -> State
    ensures { result ≡ content_after form foreign state front.now }
{
    match state {
        TagEnd | EmptyTagEnd => content_after_tag(form, foreign, front),
        Raw(element) => Raw(element),
        ScriptEscaped => ScriptEscaped,
        ScriptDoubleEscaped => ScriptDoubleEscaped,
        Plaintext => Plaintext,
        _ => Data,
    }
}

// How many elements `svg` and `math` are open after a piece, where `depth` are open before it.
#[tactic(auto, unfolding(crate::specs::Pieces::depth_after))]
fn depth_after(depth: usize, state: State, front: &[u8]) -> usize
    requires room { depth + 1 < 2 ^ 64 }
    ensures { result ≡ depth_after depth state front.now }
{
    match state {
        TagEnd => {
            if !is_foreign_root(name_of(front)) {
                depth
            } else if is_end_tag(front) {
                depth.saturating_sub(1)
            } else {
                depth + 1
            }
        }
        EmptyTagEnd => {
            if is_foreign_root(name_of(front)) && is_end_tag(front) {
                depth.saturating_sub(1)
            } else {
                depth
            }
        }
        _ => depth,
    }
}

// The state after the first byte of a piece.
#[tactic(auto, unfolding(crate::specs::Pieces::begin))]
fn begin(content: State, byte: u8) -> State
    ensures { result ≡ begin content byte }
{
    match content {
        Data => {
            if byte == b'<' {
                TagOpen
            } else if byte == b'&' {
                CharacterReference
            } else {
                Data
            }
        }
        _ => content,
    }
}

// Whether a byte leaves a state as it is, by a quick test of the most common bytes.
pub(crate) fn is_quiet(state: State, byte: u8) -> bool
    ensures { result ≡ is_quiet state byte }
{
    match state {
        Data => byte != b'<' && byte != b'&',
        TagName | AttributeName | Raw(_) => is_alphanumeric(byte),
        DoubleQuotedValue => byte != b'"',
        SingleQuotedValue => byte != b'\'',
        Comment => byte != b'-',
        _ => false,
    }
}

// The state after a byte, which stays within a character.
fn state_after(form: PageForm, foreign: bool, state: State, front: &[u8], byte: u8) -> Option<State>
    ensures { result ≡ state_after form foreign state front.now byte }
{
    if is_quiet(state, byte) {
        Some(state)
    } else if is_continuation(byte) {
        Some(state)
    } else {
        next(form, foreign, state, front, byte)
    }
}

const fn ends_text(byte: u8) -> bool
    ensures { result ≡ ends_text byte }
{
    byte == b'<' || byte == b'&'
}

// The number of bytes before the first one that ends a text.
fn text_length(bytes: &[u8]) -> usize
    ensures within { result ≤ length bytes.now }
    ensures quiet { AreQuiet Data bytes.now 0 result }
{
    match memchr2(b'<', b'&', bytes) {
        Some(passed) => passed,
        None => bytes.len(),
    }
}

// The number of ASCII letters and digits before the first other byte.
#[tactic(auto, using(crate::proofs::QuietSteps::none_alphanumeric))]
fn alphanumeric_length(bytes: &[u8]) -> usize
    ensures within { result ≤ length bytes.now }
    ensures alphanumeric { AreAlphanumeric bytes.now 0 result }
{
    for i in 0..bytes.len() {
        if !is_alphanumeric(bytes[i]) {
            return i;
        }
    }
    bytes.len()
}

const fn is_byte(byte: u8, other: u8) -> bool
    ensures { result ≡ (byte == other) }
{
    byte == other
}

// The number of bytes before the first one that is this.
#[tactic(auto, using(crate::proofs::QuietSteps::none_before))]
fn length_before(stop: u8, bytes: &[u8]) -> usize
    ensures within { result ≤ length bytes.now }
    ensures others { AreOthers stop bytes.now 0 result }
{
    for i in 0..bytes.len() {
        if is_byte(bytes[i], stop) {
            return i;
        }
    }
    bytes.len()
}

// The number of bytes before the first one that may change a state.
//
// It goes on in texts, comments, names and values in quotes, which are most of a page.
#[tactic(auto, using(crate::proofs::QuietSteps::none_passed))]
fn quiet_length(state: State, bytes: &[u8]) -> usize
    ensures within { result ≤ length bytes.now }
    ensures quiet { AreQuiet state bytes.now 0 result }
{
    match state {
        Data => text_length(bytes),
        DoubleQuotedValue => length_before(b'"', bytes),
        SingleQuotedValue => length_before(b'\'', bytes),
        Comment => length_before(b'-', bytes),
        TagName | AttributeName | Raw(_) => alphanumeric_length(bytes),
        _ => 0,
    }
}

// The first place from one on whose byte may change a state; at most the end.
pub(crate) fn after_quiet(state: State, bytes: &[u8], from: usize) -> usize
    requires { from ≤ length bytes.now }
    ensures passed { from ≤ result }
    ensures within { result ≤ length bytes.now }
    ensures quiet { AreQuiet state bytes.now from result }
{
    from + quiet_length(state, &bytes[from..])
}

/// Returns the pieces of a page, in order.
///
/// The only error is that memory was refused.
pub fn pieces(alloc: Global, form: PageForm, page: &str) -> Result<Vec<Piece<'_>>, AllocError>
    ensures { IfOk result (λ pieces. map as_piece pieces.items ≡ pieces_of form page.now) }
{
    let mut pieces = Vec::new(alloc);
    let bytes = page.as_bytes();
    if bytes.is_empty() {
        return Ok(pieces);
    }
    let mut state = begin(Data, bytes[0]);
    let mut depth = 0;
    let mut start = 0;
    let mut i = 1;
    while i < bytes.len() {
        let byte = bytes[i];
        let front = &bytes[start..i];
        match state_after(form, 0 < depth, state, front, byte) {
            Some(after) => state = after,
            None => {
                pieces.push(Piece {
                    kind: kind_of(state, front),
                    text: &page[start..i],
                })?;
                let content = content_after(form, 0 < depth, state, front);
                depth = depth_after(depth, state, front);
                state = begin(content, byte);
                start = i;
            }
        }
        i = after_quiet(state, bytes, i + 1);
    }
    let front = &bytes[start..];
    pieces.push(Piece {
        kind: kind_of(state, front),
        text: &page[start..],
    })?;
    Ok(pieces)
}
