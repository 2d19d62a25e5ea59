//! How far a page is read alike by all parsers, whatever its tree is.
//!
//! Elements that nest wrongly, as `<b><i></b></i>`, are put into the tree in ways of their own, and so is a link in a link. It
//! does no harm where none of them names a language or is left alone: the reading is *loose* from there on, and certain still.

ghost use Rattle.std.specs.Prelude.{◌≡◌, ◌==◌, ◌||◌, ◌&&◌, not, drop, map, Bool, IfOk, OnOk, OnErr};
ghost use Rattle.std.specs.Option.{option_map, option_map_or};
ghost use Rattle.html_pieces.specs.Elements.{as_element, as_elements, as_selection, depth_limit};
ghost use Rattle.html_pieces.specs.Readings.{as_reading, at_start, has_text, may_be_adopted, is_read_text, is_root_start, has_late_root};
ghost use Rattle.html_pieces.specs.Readings.{begins_with_word, mentions, begins_with_letter, has_content};
ghost use Rattle.html_pieces.specs.Readings.{ends_at_first, quote_after, has_closed_quotes, is_doctype, is_html_doctype};
ghost use Rattle.html_pieces.specs.Readings.{has_odd_end, is_comment_alike, is_other_alike, is_sign, is_open, is_in_svg, is_read_raw};
ghost use Rattle.html_pieces.specs.Readings.{holds_no_text, is_left_out_before};
ghost use Rattle.html_pieces.specs.Readings.{ends_alike, ends_alike_from, may_hold_html};
ghost use Rattle.html_pieces.specs.Readings.{is_leaving};
ghost use Rattle.html_pieces.specs.Readings.{is_foreign_start_alike, takes_content};
ghost use Rattle.html_pieces.specs.Readings.{takes_head_content};
ghost use Rattle.html_pieces.specs.Readings.{is_before_root, is_before_head, is_before_body, takes_root, is_alone, is_expected};
ghost use Rattle.html_pieces.specs.Readings.{is_content_alike, is_html_start_alike, is_start_alike, closes_blocks};
ghost use Rattle.html_pieces.specs.Readings.{is_left_out_in, closes_alike_from, is_passed_by, is_hidden};
ghost use Rattle.html_pieces.specs.Readings.{is_html_end_alike, is_end_alike, is_content_here, is_odd_section, is_html_other_alike};
ghost use Rattle.html_pieces.specs.Readings.{is_html_alike, stays_raw, is_xml_start_alike, is_xml_empty_alike, is_xml_other_alike};
ghost use Rattle.html_pieces.specs.Readings.{is_xml_alike, is_in_raw_noscript, stays_in_noscript, is_alike_by, body_unless, head_from};
ghost use Rattle.html_pieces.specs.Readings.{phase_after_start, phase_after_other, phase_after, next_reading};
ghost use Rattle.html_pieces.specs.Readings.{standard_after_other, standard_after, may_be_elsewhere, parent_of_text};
ghost use Rattle.html_pieces.specs.Readings.{is_alike_within, is_taken, is_alike_outside, is_loose_start_alike, is_end_within};
ghost use Rattle.html_pieces.specs.Readings.{is_loose_end_alike, is_loose_html_alike, is_loosely_alike, may_be_loose, loosened};
ghost use Rattle.html_pieces.specs.Readings.{gives_to_root, start_of};
ghost use Rattle.html_pieces.specs.Private.Loose.{is_held_alike, is_held_html_alike, is_held_loosely_alike};
ghost use Rattle.html_pieces.specs.Private.Loose.{held_read, held_read_loosely, held_read_loosened};
ghost use Rattle.html_pieces.specs.Names.{name_of};
ghost use Rattle.html_pieces.specs.Pieces.{as_piece, is_script};

use crate::bytes::{PageForm, is_alpha, is_one_of, is_same_name, is_white_space};
use crate::elements::{
    DEPTH_LIMIT, Element, MATH_POINTS, SVG_POINTS, Selection, before_new, followed, gives_nothing,
    group_by, innermost, is_opened_apart, open_and_close, open_and_close_loosely,
};
use crate::forms::{after_order_mark, is_start};
use crate::groups::ElementGroup::*;
use crate::groups::{
    AROUND_CELLS, AROUND_COLUMNS, AROUND_ROW_GROUPS, AROUND_ROWS, CHOICES, CLOSING_NO_BLOCKS,
    ElementGroup, HEADING_NAMES, WITHOUT_END_TAGS, WITHOUT_TEXT, bounds, ends, is_heading, is_root,
    is_special, is_table_part, is_void, stops,
};
use crate::references::has_ampersand;
use crate::tokenizer::{Piece, PieceKind, RawElement, is_foreign_root, name_of, raw_element};
use std::alloc::{AllocError, Global};

/// How far the parts of a page have come.
#[derive(Clone, Copy, Debug, PartialEq, Eq)]
pub enum Phase {
    /// Nothing has come but comments and white space.
    Start,
    /// A document type has come.
    Typed,
    /// The start tag of `html` has come.
    Root,
    /// A part of the head has come.
    Head,
    /// A part of the body has come.
    Body,
}

/// The facts that are known of a page at a place.
#[derive(Debug, Drop)]
pub struct Reading<'t> {
    /// The open elements, the innermost one last.
    pub elements: Vec<Element<'t>>,
    pub phase: Phase,
    /// Whether the document type is that of HTML.
    pub is_standard: bool,
    /// Whether elements may be elsewhere in the tree than they are read. Only tables and what is apart are followed then.
    pub is_loose: bool,
    /// Whether all parsers have read the page alike so far, but for the places of elements in a loose reading.
    pub is_certain: bool,
}

impl<'t> Reading<'t> {
    /// Returns what is known before the first of the pieces of a page. The error says that memory was refused.
    pub fn new(
        alloc: Global,
        form: PageForm,
        selection: &Selection<'_>,
        pieces: &[Piece<'t>],
    ) -> Result<Reading<'t>, AllocError>
        ensures { IfOk result (λ reading. as_reading reading ≡ start_of form selection.now pieces.now) }
    {
        let is_certain = form.is_xml() || !has_late_root(alloc, form, selection, pieces)?;
        Ok(Reading {
            elements: Vec::new(alloc),
            phase: Phase::Start,
            is_standard: false,
            is_loose: false,
            is_certain,
        })
    }
}

// ---- bytes

fn begins_with_word(word: &[u8], bytes: &[u8]) -> bool
    ensures { result ≡ begins_with_word word.now bytes.now }
{
    if bytes.len() < word.len() {
        is_same_name(bytes, word)
    } else {
        is_same_name(&bytes[..word.len()], word)
    }
}

// Reports whether a word is somewhere in bytes.
fn mentions(word: &[u8], bytes: &[u8]) -> bool
    ensures { result ≡ mentions word.now bytes.now }
{
    for i in 0..bytes.len() {
        if begins_with_word(word, &bytes[i..]) {
            return true;
        }
    }
    false
}

fn begins_with_letter(bytes: &[u8]) -> bool
    ensures { result ≡ begins_with_letter bytes.now }
{
    match bytes {
        [] => false,
        [first, ..] => is_alpha(*first),
    }
}

// Reports whether a byte other than white space is in a text.
fn has_content(text: &[u8]) -> bool
    ensures { result ≡ has_content text.now }
{
    for byte in text {
        if !is_white_space(*byte) {
            return true;
        }
    }
    false
}

// Reports whether a text has more than white space after the byte order mark that it may begin with.
fn has_text(text: &[u8]) -> bool
    ensures { result ≡ has_text text.now }
{
    has_content(after_order_mark(text))
}

// Reports whether the first `>` is the last byte.
fn ends_at_first(bytes: &[u8]) -> bool
    ensures { result ≡ ends_at_first bytes.now }
{
    for i in 0..bytes.len() {
        if bytes[i] == b'>' {
            return i + 1 == bytes.len();
        }
    }
    false
}

fn quote_after(quote: u8, byte: u8) -> u8
    ensures { result ≡ quote_after quote byte }
{
    if quote == 0 {
        if byte == b'"' || byte == b'\'' {
            byte
        } else {
            0
        }
    } else if byte == quote {
        0
    } else {
        quote
    }
}

// Reports whether a document type has no part in brackets, and each of its identifiers ends before it does.
fn has_closed_quotes(bytes: &[u8]) -> bool
    ensures { result ≡ has_closed_quotes 0 bytes.now }
{
    let mut quote = 0;
    for byte in bytes {
        if *byte == b'[' {
            return false;
        }
        quote = quote_after(quote, *byte);
    }
    quote == 0
}

// ---- pieces that are neither text nor tags

fn is_doctype(bytes: &[u8]) -> bool
    ensures { result ≡ is_doctype bytes.now }
{
    begins_with_word(b"<!doctype", bytes)
}

fn is_html_doctype(bytes: &[u8]) -> bool
    ensures { result ≡ is_html_doctype bytes.now }
{
    is_same_name(bytes, b"<!doctype html>")
}

// Reports whether `--!>` is somewhere after the first four bytes of a comment.
fn has_odd_end(comment: &[u8]) -> bool
    ensures { result ≡ has_odd_end (drop 4 comment.now) }
{
    for i in 4..comment.len() {
        if comment[i..].starts_with(b"--!>") {
            return true;
        }
    }
    false
}

fn is_comment_alike(bytes: &[u8]) -> bool
    ensures { result ≡ is_comment_alike bytes.now }
{
    !bytes.starts_with(b"<!-->") && !bytes.starts_with(b"<!--->") && !has_odd_end(bytes)
}

// Reports whether a piece that is neither text nor tag ends in HTML where it does in XML.
#[tactic(auto, unfolding(crate::specs::Readings::is_other_alike))]
fn is_other_alike(bytes: &[u8]) -> bool
    ensures { result ≡ is_other_alike bytes.now }
{
    if bytes.starts_with(b"<!--") {
        is_comment_alike(bytes)
    } else if bytes.starts_with(b"<?") {
        ends_at_first(bytes) && bytes.ends_with(b"?>")
    } else if is_doctype(bytes) {
        ends_at_first(bytes) && has_closed_quotes(bytes)
    } else {
        ends_at_first(bytes)
    }
}

// Reports whether a piece is only a `<`.
fn is_sign(bytes: &[u8]) -> bool
    ensures { result ≡ is_sign bytes.now }
{
    bytes == b"<".as_slice()
}

// ---- elements

// Reports whether an element of a name is open, or a heading where the name is that of one.
fn is_open(name: &[u8], group: ElementGroup, elements: &[Element<'_>]) -> bool
    ensures { result ≡ is_open name.now group (as_elements elements.now) }
{
    let mut i = elements.len();
    while i > 0 {
        i -= 1;
        if is_same_name(elements[i].name, name)
            || is_heading(group) && is_heading(elements[i].group)
        {
            return true;
        }
    }
    false
}

// Reports whether the nearest drawing or formula around is a drawing.
fn is_in_svg(elements: &[Element<'_>]) -> bool
    ensures { result ≡ is_in_svg (as_elements elements.now) }
{
    let mut i = elements.len();
    while i > 0 {
        i -= 1;
        if is_same_name(elements[i].name, b"svg") {
            return true;
        }
        if is_same_name(elements[i].name, b"math") {
            return false;
        }
    }
    false
}

// Reports whether the content of an element of this name is raw text, in HTML at least with scripting on.
fn is_read_raw(name: &[u8]) -> bool
    ensures { result ≡ is_read_raw name.now }
{
    raw_element(name).is_some()
        || is_same_name(name, b"plaintext")
        || is_same_name(name, b"noscript")
}

fn holds_no_text(group: ElementGroup) -> bool
    ensures { result ≡ holds_no_text group }
{
    WITHOUT_TEXT.contains(&group)
}

// Reports whether the end tag of an open element may be left out where one of a group begins.
fn is_left_out_before(standard: bool, new: ElementGroup, other: ElementGroup) -> bool
    ensures { result ≡ is_left_out_before standard new other }
{
    WITHOUT_END_TAGS.contains(&other) && (standard || !(other == Paragraph && new == Table))
}

// Reports whether all that an element of a group ends where it begins has end tags that may be left out.
#[tactic(auto, using(crate::proofs::Limits::so_far_at_limit))]
fn ends_alike(standard: bool, new: ElementGroup, elements: &[Element<'_>]) -> bool
    ensures { result ≡ ends_alike standard new (as_elements elements.now) }
{
    let mut so_far = true;
    let mut all = true;
    let mut left = DEPTH_LIMIT;
    let mut i = elements.len();
    while i > 0 {
        if left == 0 {
            return so_far;
        }
        i -= 1;
        left -= 1;
        let other = elements[i].group;
        all = all && is_left_out_before(standard, new, other);
        if ends(new, other) {
            so_far = all;
        } else if stops(new, other) {
            return so_far;
        }
    }
    so_far
}

// ---- start tags of HTML

/// Elements within a line whose tags end SVG and MathML.
pub const LEAVING_PHRASE_NAMES: [&[u8]; 21] = [
    b"b", b"big", b"br", b"code", b"em", b"embed", b"font", b"i", b"img", b"nobr", b"ruby", b"s",
    b"small", b"span", b"strike", b"strong", b"sub", b"sup", b"tt", b"u", b"var",
];

/// The other elements whose tags end SVG and MathML, without headings.
pub const LEAVING_BLOCK_NAMES: [&[u8]; 18] = [
    b"blockquote",
    b"body",
    b"center",
    b"dd",
    b"div",
    b"dl",
    b"dt",
    b"head",
    b"hr",
    b"li",
    b"listing",
    b"menu",
    b"meta",
    b"ol",
    b"p",
    b"pre",
    b"table",
    b"ul",
];

// Reports whether a tag of a name ends SVG and MathML.
fn is_leaving(name: &[u8]) -> bool
    ensures { result ≡ is_leaving name.now }
{
    is_one_of(name, &LEAVING_PHRASE_NAMES)
        || is_one_of(name, &LEAVING_BLOCK_NAMES)
        || is_one_of(name, &HEADING_NAMES)
}

// Reports whether a tag is that of an annotation of MathML whose content may be HTML.
fn may_hold_html(name: &[u8], tag: &[u8]) -> bool
    ensures { result ≡ may_hold_html name.now tag.now }
{
    is_same_name(name, b"annotation-xml") && (mentions(b"html", tag) || has_ampersand(tag))
}

// Reports whether a start tag in SVG or MathML opens an element there.
#[tactic(auto, unfolding(crate::specs::Readings::is_foreign_start_alike))]
fn is_foreign_start_alike(elements: &[Element<'_>], name: &[u8], tag: &[u8]) -> bool
    ensures { result ≡ is_foreign_start_alike (as_elements elements.now) name.now tag.now }
{
    if is_leaving(name) {
        false
    } else if is_one_of(name, &SVG_POINTS) {
        is_in_svg(elements)
    } else if is_one_of(name, &MATH_POINTS) {
        !is_in_svg(elements)
    } else {
        !may_hold_html(name, tag)
    }
}

/// Elements that HTML reads otherwise than others of their group.
pub const ODD_NAMES: [&[u8]; 6] = [
    b"frameset",
    b"image",
    b"malignmark",
    b"mglyph",
    b"rb",
    b"rtc",
];

/// Buttons, which end an element of their own name, as those of the next two tables do.
pub const BUTTON_NAMES: [&[u8]; 1] = [b"button"];

/// Forms.
pub const FORM_NAMES: [&[u8]; 1] = [b"form"];

/// Links, and elements without a line break.
pub const LINK_NAMES: [&[u8]; 2] = [b"a", b"nobr"];

// Reports whether elements may begin that are no parts of tables or selections.
fn takes_content(around: Element<'_>, within: Element<'_>) -> bool
    ensures { result ≡ takes_content (as_element around.entry) (as_element within.entry) }
{
    !CHOICES.contains(&around.group)
        && !holds_no_text(within.group)
        && !is_same_name(within.name, b"select")
}

// Reports whether an element that a head may have may begin.
fn takes_head_content(
    around: Element<'_>,
    within: Element<'_>,
    new: ElementGroup,
    name: &[u8],
) -> bool
    ensures { result ≡ takes_head_content (as_element around.entry) (as_element within.entry) new name.now }
{
    !CHOICES.contains(&around.group)
        && !is_same_name(within.name, b"select")
        && (!holds_no_text(within.group)
            || within.group == Head
            || new == Template
            || is_same_name(name, b"script")
            || is_same_name(name, b"style"))
}

const fn is_before_root(phase: Phase) -> bool
    ensures { result ≡ is_before_root phase }
{
    matches!(phase, Phase::Start | Phase::Typed)
}

const fn is_before_head(phase: Phase) -> bool
    ensures { result ≡ is_before_head phase }
{
    matches!(phase, Phase::Start | Phase::Typed | Phase::Root)
}

const fn is_before_body(phase: Phase) -> bool
    ensures { result ≡ is_before_body phase }
{
    !matches!(phase, Phase::Body)
}

// Reports whether the element of the page or its body may begin.
fn takes_root(phase: Phase, within: Element<'_>, name: &[u8]) -> bool
    ensures { result ≡ takes_root phase (as_element within.entry) name.now }
{
    if is_same_name(name, b"html") {
        is_before_root(phase)
    } else {
        is_before_body(phase) && is_root(within.group)
    }
}

// Reports whether no element of a name is around, where the name is one of a table.
fn is_alone(names: &[&[u8]], name: &[u8], elements: &[Element<'_>]) -> bool
    ensures { result ≡ is_alone (map (λ other. other.now) names.now) name.now (as_elements elements.now) }
{
    !(is_one_of(name, names) && is_open(name, Ordinary, elements))
}

// Reports whether an element of a group may begin where it does: all parsers put it there.
#[tactic(auto, unfolding(crate::specs::Readings::is_expected))]
fn is_expected(
    phase: Phase,
    around: Element<'_>,
    within: Element<'_>,
    elements: &[Element<'_>],
    new: ElementGroup,
    name: &[u8],
) -> bool
    ensures { result ≡ is_expected phase (as_element around.entry) (as_element within.entry) (as_elements elements.now) new name.now }
{
    match new {
        Root => takes_root(phase, within, name),
        Head => is_before_head(phase) && is_root(within.group),
        HeadContent | HeadVoid | Template => { takes_head_content(around, within, new, name) }
        Cell => AROUND_CELLS.contains(&within.group),
        Row => AROUND_ROWS.contains(&within.group),
        Rows | Caption => AROUND_ROW_GROUPS.contains(&within.group),
        Columns => within.group == Table,
        Column => AROUND_COLUMNS.contains(&within.group),
        Choice => !holds_no_text(within.group),
        Choices => is_same_name(within.name, b"select"),
        Ruby => is_same_name(within.name, b"ruby"),
        Heading => takes_content(around, within) && !is_heading(within.group),
        Scope => takes_content(around, within) && is_alone(&BUTTON_NAMES, name, elements),
        Block => takes_content(around, within) && is_alone(&FORM_NAMES, name, elements),
        Formatting => takes_content(around, within) && is_alone(&LINK_NAMES, name, elements),
        Ordinary => takes_content(around, within) && !is_one_of(name, &ODD_NAMES),
        _ => takes_content(around, within),
    }
}

// Reports whether the content of an element is read alike by all.
fn is_content_alike(around: Element<'_>, name: &[u8]) -> bool
    ensures { result ≡ is_content_alike (as_element around.entry) name.now }
{
    !(around.is_in_drawing && is_read_raw(name))
        && !(around.is_in_noscript && is_same_name(name, b"noscript"))
}

// Reports whether the text of an element may be put elsewhere by the end tag of a formatting element around it.
fn may_be_adopted(within: Element<'_>, new: ElementGroup, name: &[u8]) -> bool
    ensures { result ≡ may_be_adopted (as_element within.entry) new name.now }
{
    within.inherits_from_formatting
        && !within.is_in_drawing
        && is_special(new)
        && !is_void(new)
        && !is_foreign_root(name)
}

// Reports whether a start tag of HTML is read alike by all parsers, outside of SVG and MathML.
fn is_html_start_alike<'t>(
    page: Element<'t>,
    reading: &Reading<'t>,
    new: ElementGroup,
    name: &[u8],
) -> bool
    ensures { result ≡ is_html_start_alike (as_element page.entry) (as_reading reading.now) new name.now }
{
    let elements = reading.elements.as_slice();
    let around = innermost(page, elements);
    let kept = before_new(elements, new);
    let within = innermost(page, &elements[..kept]);
    is_content_alike(around, name)
        && ends_alike(reading.is_standard, new, elements)
        && !may_be_adopted(within, new, name)
        && is_expected(reading.phase, around, within, elements, new, name)
}

// Reports whether a start tag of a page in HTML is read alike by all parsers.
fn is_start_alike<'t>(
    page: Element<'t>,
    reading: &Reading<'t>,
    new: ElementGroup,
    tag: &[u8],
) -> bool
    ensures { result ≡ is_start_alike (as_element page.entry) (as_reading reading.now) new tag.now }
{
    let elements = reading.elements.as_slice();
    if innermost(page, elements).is_foreign {
        is_foreign_start_alike(elements, name_of(tag), tag)
    } else {
        is_html_start_alike(page, reading, new, name_of(tag))
    }
}

// ---- end tags of HTML

fn closes_blocks(tag: ElementGroup) -> bool
    ensures { result ≡ closes_blocks tag }
{
    !CLOSING_NO_BLOCKS.contains(&tag) && is_special(tag)
}

// Reports whether an end tag of a group closes an element in its own that has no end tag.
#[tactic(auto, unfolding(crate::specs::Readings::is_left_out_in))]
fn is_left_out_in(tag: ElementGroup, other: ElementGroup) -> bool
    ensures { result ≡ is_left_out_in tag other }
{
    match other {
        Ruby | Choice | Choices => true,
        Paragraph | Item | Term => closes_blocks(tag),
        Cell => AROUND_CELLS.contains(&tag),
        Row => AROUND_ROWS.contains(&tag),
        Rows | Caption | Columns => AROUND_ROW_GROUPS.contains(&tag),
        _ => false,
    }
}

// Reports whether all that an end tag closes in its element has no end tag by these rules; none where the element is not found.
#[tactic(auto, using(crate::proofs::Limits::none_alike_at_limit))]
fn closes_alike(elements: &[Element<'_>], name: &[u8], tag: ElementGroup) -> Option<bool>
    ensures { result ≡ closes_alike_from name.now tag depth_limit Bool.true (as_elements elements.now) }
{
    let mut all = true;
    let mut left = DEPTH_LIMIT;
    let mut i = elements.len();
    while i > 0 {
        if left == 0 {
            return None;
        }
        i -= 1;
        left -= 1;
        let other = elements[i].group;
        if is_same_name(elements[i].name, name) || is_heading(tag) && is_heading(other) {
            return Some(all);
        }
        if bounds(tag, other) {
            return None;
        }
        all = all && is_left_out_in(tag, other);
    }
    None
}

// Reports whether an end tag without an element is passed by.
fn is_passed_by(
    around: Element<'_>,
    tag: ElementGroup,
    name: &[u8],
    elements: &[Element<'_>],
) -> bool
    ensures { result ≡ is_passed_by (as_element around.entry) tag name.now (as_elements elements.now) }
{
    !is_table_part(tag)
        && !is_same_name(name, b"br")
        && !(tag == Paragraph && holds_no_text(around.group))
        && !is_open(name, tag, elements)
}

fn is_hidden(element: Element<'_>) -> bool
    ensures { result ≡ is_hidden (as_element element.entry) }
{
    element.is_in_noscript || element.is_in_template
}

// Reports whether an end tag of HTML is read alike by all parsers, outside of SVG and MathML.
fn is_html_end_alike(
    around: Element<'_>,
    tag: ElementGroup,
    name: &[u8],
    elements: &[Element<'_>],
) -> bool
    ensures { result ≡ is_html_end_alike (as_element around.entry) tag name.now (as_elements elements.now) }
{
    if is_root(tag) {
        return !is_hidden(around);
    }
    match closes_alike(elements, name, tag) {
        Some(all) => all,
        None => is_passed_by(around, tag, name, elements),
    }
}

// Reports whether an end tag of a page in HTML is read alike by all parsers.
fn is_end_alike<'t>(
    page: Element<'t>,
    reading: &Reading<'t>,
    tag: ElementGroup,
    name: &[u8],
) -> bool
    ensures { result ≡ is_end_alike (as_element page.entry) (as_reading reading.now) tag name.now }
{
    let elements = reading.elements.as_slice();
    let around = innermost(page, elements);
    if around.is_in_drawing {
        is_same_name(around.name, name)
    } else {
        is_html_end_alike(around, tag, name, elements)
    }
}

// ---- other pieces of HTML

fn is_content_here(around: Element<'_>) -> bool
    ensures { result ≡ is_content_here (as_element around.entry) }
{
    !holds_no_text(around.group)
}

// Reports whether a piece is a section of CDATA in a drawing's text in HTML, which is none there.
fn is_odd_section(around: Element<'_>, bytes: &[u8]) -> bool
    ensures { result ≡ is_odd_section (as_element around.entry) bytes.now }
{
    around.is_in_drawing && !around.is_foreign && bytes.starts_with(b"<![CDATA[")
}

// Reports whether a piece of HTML that is neither text nor tag is read alike by all parsers.
fn is_html_other_alike(around: Element<'_>, phase: Phase, bytes: &[u8]) -> bool
    ensures { result ≡ is_html_other_alike (as_element around.entry) phase bytes.now }
{
    if is_before_root(phase) {
        is_other_alike(bytes)
    } else if is_sign(bytes) {
        is_content_here(around)
    } else {
        !is_odd_section(around, bytes)
    }
}

// Reports whether a piece of a page in HTML is read alike by all parsers.
fn is_html_alike<'t>(
    page: Element<'t>,
    reading: &Reading<'t>,
    group: ElementGroup,
    piece: Piece<'_>,
) -> bool
    ensures { result ≡ is_html_alike (as_element page.entry) (as_reading reading.now) group piece.entry.kind piece.entry.text.now }
{
    let bytes = piece.text.as_bytes();
    let around = innermost(page, &reading.elements);
    match piece.kind {
        PieceKind::Text => !has_text(bytes) || is_content_here(around),
        PieceKind::Reference => is_content_here(around),
        PieceKind::StartTag | PieceKind::EmptyTag => is_start_alike(page, reading, group, bytes),
        PieceKind::EndTag => is_end_alike(page, reading, group, name_of(bytes)),
        PieceKind::Other => is_html_other_alike(around, reading.phase, bytes),
    }
}

// ---- pieces of XML

// Reports whether raw text in HTML goes on over a piece.
fn stays_raw(element: RawElement, bytes: &[u8]) -> bool
    ensures { result ≡ stays_raw element bytes.now }
{
    !mentions(element.end_tag(), bytes)
        && !(element == RawElement::Script && mentions(b"<script", bytes))
}

// Reports whether a start tag of XML begins as one of HTML does, and opens no content there that it does not hold here.
fn is_xml_start_alike(around: Element<'_>, name: &[u8]) -> bool
    ensures { result ≡ is_xml_start_alike (as_element around.entry) name.now }
{
    begins_with_letter(name)
        && !raw_element(around.name).is_some()
        && !is_same_name(name, b"plaintext")
        && !is_same_name(name, b"frameset")
        && !(around.is_in_noscript && is_same_name(name, b"noscript"))
}

fn is_xml_empty_alike(around: Element<'_>, name: &[u8]) -> bool
    ensures { result ≡ is_xml_empty_alike (as_element around.entry) name.now }
{
    is_xml_start_alike(around, name) && !is_read_raw(name)
}

fn is_xml_other_alike(around: Element<'_>, bytes: &[u8]) -> bool
    ensures { result ≡ is_xml_other_alike (as_element around.entry) bytes.now }
{
    match raw_element(around.name) {
        Some(element) => stays_raw(element, bytes),
        None => is_other_alike(bytes),
    }
}

// Reports whether a piece of XML is read alike by all parsers.
fn is_xml_alike(around: Element<'_>, piece: Piece<'_>) -> bool
    ensures { result ≡ is_xml_alike (as_element around.entry) piece.entry.kind piece.entry.text.now }
{
    let bytes = piece.text.as_bytes();
    match piece.kind {
        PieceKind::Text | PieceKind::Reference => true,
        PieceKind::StartTag => is_xml_start_alike(around, name_of(bytes)),
        PieceKind::EmptyTag => is_xml_empty_alike(around, name_of(bytes)),
        PieceKind::EndTag => around.name == name_of(bytes),
        PieceKind::Other => is_xml_other_alike(around, bytes),
    }
}

// ---- all pieces

// Reports whether the text of a `noscript` goes on over a piece with scripting on.
fn is_in_raw_noscript(around: Element<'_>, bytes: &[u8]) -> bool
    ensures { result ≡ is_in_raw_noscript (as_element around.entry) bytes.now }
{
    !(around.is_in_noscript && mentions(b"</noscript", bytes))
}

// Reports whether the text of a `noscript` goes on over a piece with scripting on, or ends with its end tag.
fn stays_in_noscript(around: Element<'_>, piece: Piece<'_>) -> bool
    ensures { result ≡ stays_in_noscript (as_element around.entry) piece.entry.kind piece.entry.text.now }
{
    let bytes = piece.text.as_bytes();
    match piece.kind {
        PieceKind::Text | PieceKind::Reference => true,
        PieceKind::EndTag => {
            is_same_name(name_of(bytes), b"noscript") || is_in_raw_noscript(around, bytes)
        }
        _ => is_in_raw_noscript(around, bytes),
    }
}

// Reports whether a piece is read alike by all parsers.
#[tactic(auto, using(crate::proofs::Limits::as_many))]
fn is_alike<'t>(
    form: PageForm,
    page: Element<'t>,
    reading: &Reading<'t>,
    group: ElementGroup,
    piece: Piece<'_>,
) -> bool
    ensures { result ≡ is_alike_by form (as_element page.entry) (as_reading reading.now) group piece.entry.kind piece.entry.text.now }
{
    let around = innermost(page, &reading.elements);
    if reading.elements.len() >= DEPTH_LIMIT || !stays_in_noscript(around, piece) {
        return false;
    }
    if form.is_xml() {
        is_xml_alike(around, piece)
    } else {
        is_html_alike(page, reading, group, piece)
    }
}

// ---- pieces of a loose reading

// Reports whether a start tag of HTML within an element that is apart is read alike by all parsers.
fn is_alike_within(
    standard: bool,
    around: Element<'_>,
    elements: &[Element<'_>],
    new: ElementGroup,
    name: &[u8],
) -> bool
    ensures { result ≡ is_alike_within standard (as_element around.entry) (as_elements elements.now) new name.now }
{
    !is_root(new)
        && new != Head
        && !is_same_name(name, b"frameset")
        && is_content_alike(around, name)
        && ends_alike(standard, new, elements)
        && (CHOICES.contains(&new)
            || !CHOICES.contains(&around.group) && !is_same_name(around.name, b"select"))
}

// Reports whether an element may begin where it does in a loose reading, by the tables that are open.
fn is_taken<'t>(page: Element<'t>, reading: &Reading<'t>, new: ElementGroup, name: &[u8]) -> bool
    ensures { result ≡ is_taken (as_element page.entry) (as_reading reading.now) new name.now }
{
    let elements = reading.elements.as_slice();
    let around = innermost(page, elements);
    if is_table_part(new) {
        let kept = before_new(elements, new);
        let within = innermost(page, &elements[..kept]);
        is_expected(reading.phase, around, within, elements, new, name)
    } else {
        is_content_here(around)
            || new == Template
            || is_same_name(name, b"script")
            || is_same_name(name, b"style")
    }
}

// Reports whether a start tag of HTML outside of all elements that are apart is read alike by all parsers.
fn is_alike_outside<'t>(
    alloc: Global,
    form: PageForm,
    selection: &Selection<'_>,
    page: Element<'t>,
    reading: &Reading<'t>,
    new: ElementGroup,
    tag: &[u8],
) -> Result<bool, AllocError>
    ensures { IfOk result (λ is. is ≡ is_alike_outside form (as_selection selection.now) (as_element page.entry)
        (as_reading reading.now) new tag.now) }
{
    let name = name_of(tag);
    if is_root(new) {
        return gives_nothing(alloc, form, selection, tag);
    }
    let around = innermost(page, &reading.elements);
    let is_form = is_same_name(name, b"form");
    let is_apart_form = is_form && is_opened_apart(alloc, form, selection, around, tag)?;
    Ok(is_taken(page, reading, new, name) && !is_same_name(name, b"frameset") && !is_apart_form)
}

// Reports whether a start tag of a loose reading is read alike by all parsers.
fn is_loose_start_alike<'t>(
    alloc: Global,
    form: PageForm,
    selection: &Selection<'_>,
    page: Element<'t>,
    reading: &Reading<'t>,
    new: ElementGroup,
    tag: &[u8],
) -> Result<bool, AllocError>
    ensures { IfOk result (λ is. is ≡ is_loose_start_alike form (as_selection selection.now) (as_element page.entry)
        (as_reading reading.now) new tag.now) }
{
    let elements = reading.elements.as_slice();
    let around = innermost(page, elements);
    let name = name_of(tag);
    if around.is_foreign {
        Ok(
            !(is_one_of(name, &SVG_POINTS) || is_one_of(name, &MATH_POINTS))
                && is_foreign_start_alike(elements, name, tag),
        )
    } else if around.is_apart {
        Ok(is_alike_within(reading.is_standard, around, elements, new, name))
    } else {
        is_alike_outside(alloc, form, selection, page, reading, new, tag)
    }
}

// Reports whether an end tag in an element that is apart is read alike by all parsers.
fn is_end_within(tag: ElementGroup, name: &[u8], elements: &[Element<'_>]) -> bool
    ensures { result ≡ is_end_within tag name.now (as_elements elements.now) }
{
    if is_root(tag) {
        return false;
    }
    match closes_alike(elements, name, tag) {
        Some(all) => all,
        None => false,
    }
}

// Reports whether an end tag of a loose reading is read alike by all parsers.
fn is_loose_end_alike(
    around: Element<'_>,
    tag: ElementGroup,
    name: &[u8],
    elements: &[Element<'_>],
) -> bool
    ensures { result ≡ is_loose_end_alike (as_element around.entry) tag name.now (as_elements elements.now) }
{
    if around.is_in_drawing {
        return is_same_name(around.name, name);
    }
    !around.is_apart || is_end_within(tag, name, elements)
}

// Reports whether a piece of a page in HTML is read alike by all parsers, in a loose reading.
fn is_loose_html_alike<'t>(
    alloc: Global,
    form: PageForm,
    selection: &Selection<'_>,
    page: Element<'t>,
    reading: &Reading<'t>,
    group: ElementGroup,
    piece: Piece<'_>,
) -> Result<bool, AllocError>
    ensures { IfOk result (λ is. is ≡ is_held_html_alike form selection.now page.entry reading.now group piece.entry) }
{
    let bytes = piece.text.as_bytes();
    let elements = reading.elements.as_slice();
    let around = innermost(page, elements);
    match piece.kind {
        PieceKind::Text => Ok(!has_text(bytes) || is_content_here(around)),
        PieceKind::Reference => Ok(is_content_here(around)),
        PieceKind::StartTag | PieceKind::EmptyTag => {
            is_loose_start_alike(alloc, form, selection, page, reading, group, bytes)
        }
        PieceKind::EndTag => Ok(is_loose_end_alike(around, group, name_of(bytes), elements)),
        PieceKind::Other => Ok(is_html_other_alike(around, reading.phase, bytes)),
    }
}

// Reports whether a piece of a loose reading is read alike by all parsers.
#[tactic(auto, using(crate::proofs::Limits::as_many))]
fn is_loosely_alike<'t>(
    alloc: Global,
    form: PageForm,
    selection: &Selection<'_>,
    page: Element<'t>,
    reading: &Reading<'t>,
    group: ElementGroup,
    piece: Piece<'_>,
) -> Result<bool, AllocError>
    ensures { IfOk result (λ is. is ≡ is_held_loosely_alike form selection.now page.entry reading.now group piece.entry) }
{
    let around = innermost(page, &reading.elements);
    if !stays_in_noscript(around, piece) || reading.elements.len() >= DEPTH_LIMIT {
        return Ok(false);
    }
    is_loose_html_alike(alloc, form, selection, page, reading, group, piece)
}

// Reports whether a reading may become loose.
fn may_be_loose<'t>(form: PageForm, page: Element<'t>, reading: &Reading<'t>) -> bool
    ensures { result ≡ may_be_loose form (as_element page.entry) (as_reading reading.now) }
{
    !form.is_xml() && !is_before_root(reading.phase) && !innermost(page, &reading.elements).is_apart
}

// Returns the same reading as a loose one.
fn loosened<'t>(alloc: Global, reading: &Reading<'t>) -> Result<Reading<'t>, AllocError>
    ensures { IfOk result (λ loose. as_reading loose ≡ loosened (as_reading reading.now)) }
{
    Ok(Reading {
        elements: followed(alloc, &reading.elements)?,
        phase: reading.phase,
        is_standard: reading.is_standard,
        is_loose: true,
        is_certain: reading.is_certain,
    })
}

// ---- how far a page has come

const fn body_unless(is_kept: bool, phase: Phase) -> Phase
    ensures { result ≡ body_unless is_kept phase }
{
    if is_kept { phase } else { Phase::Body }
}

const fn head_from(phase: Phase) -> Phase
    ensures { result ≡ head_from phase }
{
    match phase {
        Phase::Body => Phase::Body,
        _ => Phase::Head,
    }
}

// The phase after a start tag, whose element is of a group.
fn phase_after_start(hidden: bool, phase: Phase, group: ElementGroup, tag: &[u8]) -> Phase
    ensures { result ≡ phase_after_start hidden phase group (name_of tag.now) }
{
    match group {
        Root => {
            if is_same_name(name_of(tag), b"html") {
                Phase::Root
            } else {
                Phase::Body
            }
        }
        Head => Phase::Head,
        HeadContent | HeadVoid | Template => { if hidden { phase } else { head_from(phase) } }
        _ => body_unless(hidden, phase),
    }
}

// The phase after a piece that is neither text nor tag.
fn phase_after_other(around: Element<'_>, phase: Phase, bytes: &[u8]) -> Phase
    ensures { result ≡ phase_after_other (as_element around.entry) phase bytes.now }
{
    match phase {
        Phase::Start => {
            if is_doctype(bytes) {
                Phase::Typed
            } else {
                Phase::Start
            }
        }
        _ => body_unless(
            is_hidden(around) || raw_element(around.name).is_some() || !is_sign(bytes),
            phase,
        ),
    }
}

// The phase after a piece.
fn phase_after(around: Element<'_>, phase: Phase, group: ElementGroup, piece: Piece<'_>) -> Phase
    ensures { result ≡ phase_after (as_element around.entry) phase group piece.entry.kind piece.entry.text.now }
{
    let bytes = piece.text.as_bytes();
    match piece.kind {
        PieceKind::Text => body_unless(is_hidden(around) || !has_text(bytes), phase),
        PieceKind::Reference => body_unless(is_hidden(around), phase),
        PieceKind::StartTag | PieceKind::EmptyTag => {
            phase_after_start(is_hidden(around), phase, group, bytes)
        }
        PieceKind::EndTag => body_unless(!is_root(group), phase),
        PieceKind::Other => phase_after_other(around, phase, bytes),
    }
}

// Reports whether the document type of HTML has come, after a piece that is neither text nor tag.
fn standard_after_other(standard: bool, phase: Phase, bytes: &[u8]) -> bool
    ensures { result ≡ standard_after_other standard phase bytes.now }
{
    match phase {
        Phase::Start => is_html_doctype(bytes),
        _ => standard,
    }
}

// Reports whether the document type of HTML has come, before all else.
fn standard_after(standard: bool, phase: Phase, piece: Piece<'_>) -> bool
    ensures { result ≡ standard_after standard phase piece.entry.kind piece.entry.text.now }
{
    match piece.kind {
        PieceKind::Other => standard_after_other(standard, phase, piece.text.as_bytes()),
        _ => standard,
    }
}

// Advances a reading that is not loose over a piece that all parsers read alike, or that makes it uncertain.
//
// The only error is that memory was refused; the reading is then unchanged. So it is with the next two.
fn advance_strictly<'t>(
    reading: &mut Reading<'t>,
    alloc: Global,
    form: PageForm,
    selection: &Selection<'_>,
    page: Element<'t>,
    group: ElementGroup,
    piece: Piece<'t>,
    is_certain: bool,
) -> Result<(), AllocError>
    requires { is_certain ≡ is_held_alike form page reading.old group piece }
    ensures advanced { OnOk result (as_reading reading.new
        ≡ held_read form selection.now page.entry reading.old group piece.entry) }
    ensures unchanged_on_error { OnErr result (as_reading reading.new ≡ as_reading reading.old) }
{
    let around = innermost(page, &reading.elements);
    open_and_close(
        &mut reading.elements,
        alloc,
        form,
        selection,
        page,
        group,
        piece,
    )?;
    reading.is_standard = standard_after(reading.is_standard, reading.phase, piece);
    reading.phase = phase_after(around, reading.phase, group, piece);
    reading.is_loose = false;
    reading.is_certain = is_certain;
    Ok(())
}

// Advances a loose reading over a piece.
fn advance_loosely<'t>(
    reading: &mut Reading<'t>,
    alloc: Global,
    form: PageForm,
    selection: &Selection<'_>,
    page: Element<'t>,
    group: ElementGroup,
    piece: Piece<'t>,
) -> Result<(), AllocError>
    ensures advanced { OnOk result (as_reading reading.new
        ≡ held_read_loosely form selection.now page.entry reading.old group piece.entry) }
    ensures unchanged_on_error { OnErr result (as_reading reading.new ≡ as_reading reading.old) }
{
    let around = innermost(page, &reading.elements);
    let alike = is_loosely_alike(alloc, form, selection, page, reading, group, piece)?;
    open_and_close_loosely(
        &mut reading.elements,
        alloc,
        form,
        selection,
        page,
        group,
        piece,
    )?;
    reading.is_standard = standard_after(reading.is_standard, reading.phase, piece);
    reading.phase = phase_after(around, reading.phase, group, piece);
    reading.is_loose = true;
    reading.is_certain = alike;
    Ok(())
}

// Makes a reading loose, and advances it over a piece.
fn loosen_and_advance<'t>(
    reading: &mut Reading<'t>,
    alloc: Global,
    form: PageForm,
    selection: &Selection<'_>,
    page: Element<'t>,
    group: ElementGroup,
    piece: Piece<'t>,
) -> Result<(), AllocError>
    ensures advanced { OnOk result (as_reading reading.new
        ≡ held_read_loosened form selection.now page.entry reading.old group piece.entry) }
    ensures unchanged_on_error { OnErr result (as_reading reading.new ≡ as_reading reading.old) }
{
    let mut loose = loosened(alloc, reading)?;
    advance_loosely(&mut loose, alloc, form, selection, page, group, piece)?;
    *reading = loose;
    Ok(())
}

/// Advances a reading over a piece.
///
/// The elements of `selection` are noted as the caller's. The only error is that memory was refused; the reading is then
/// unchanged.
pub fn advance<'t>(
    reading: &mut Reading<'t>,
    alloc: Global,
    form: PageForm,
    selection: &Selection<'_>,
    page: Element<'t>,
    piece: Piece<'t>,
) -> Result<(), AllocError>
    ensures advanced { OnOk result (as_reading reading.new
        ≡ next_reading form selection.now page.entry reading.old piece.entry) }
    ensures unchanged_on_error { OnErr result (as_reading reading.new ≡ as_reading reading.old) }
{
    if !reading.is_certain {
        return Ok(());
    }
    let group = group_by(form, innermost(page, &reading.elements), piece);
    if reading.is_loose {
        return advance_loosely(reading, alloc, form, selection, page, group, piece);
    }
    let is_certain = is_alike(form, page, reading, group, piece);
    if is_certain || !may_be_loose(form, page, reading) {
        advance_strictly(
            reading, alloc, form, selection, page, group, piece, is_certain,
        )
    } else {
        loosen_and_advance(reading, alloc, form, selection, page, group, piece)
    }
}

// Reports whether a piece is text of the body, whatever is around it.
fn is_read_text(piece: Piece<'_>) -> bool
    ensures { result ≡ is_read_text piece.entry.kind piece.entry.text.now }
{
    match piece.kind {
        PieceKind::Text => has_text(piece.text.as_bytes()),
        PieceKind::Reference => true,
        _ => false,
    }
}

// Reports whether a piece is a start tag of the element of the page, or of its body.
fn is_root_start(piece: Piece<'_>) -> bool
    ensures { result ≡ is_root_start piece.entry.kind piece.entry.text.now }
{
    if !is_start(piece.kind) {
        return false;
    }
    let name = name_of(piece.text.as_bytes());
    is_same_name(name, b"html") || is_same_name(name, b"body")
}

// Reports whether a piece is a start tag of the element of the page, or of its body, that gives something to it.
fn gives_to_root(
    alloc: Global,
    form: PageForm,
    selection: &Selection<'_>,
    piece: Piece<'_>,
) -> Result<bool, AllocError>
    ensures { IfOk result (λ gives. gives ≡ gives_to_root form (as_selection selection.now) piece.entry.kind piece.entry.text.now) }
{
    if !is_root_start(piece) {
        return Ok(false);
    }
    let nothing = gives_nothing(alloc, form, selection, piece.text.as_bytes())?;
    Ok(!nothing)
}

// Reports whether the start tag of the page or its body comes after text, and gives something to what is around it.
fn has_late_root(
    alloc: Global,
    form: PageForm,
    selection: &Selection<'_>,
    pieces: &[Piece<'_>],
) -> Result<bool, AllocError>
    ensures { IfOk result (λ has. has ≡ has_late_root form (as_selection selection.now) Bool.false (map as_piece pieces.now)) }
{
    let mut seen = false;
    for piece in pieces {
        if seen && gives_to_root(alloc, form, selection, *piece)? {
            return Ok(true);
        }
        seen = seen || is_read_text(*piece);
    }
    Ok(false)
}

// Reports whether a text may be elsewhere in the tree than in the innermost open element.
fn may_be_elsewhere(form: PageForm, reading: &Reading<'_>, around: Element<'_>) -> bool
    ensures { result ≡ may_be_elsewhere form (as_reading reading.now) (as_element around.entry) }
{
    !reading.is_certain
        || holds_no_text(around.group)
        || reading.is_loose && around.is_apart
        || form.is_xml() && reading.elements.is_empty()
}

/// Returns the element that a text is in: the innermost open one, or the page outside of all.
///
/// There is none where the reading is uncertain, where the text is elsewhere in the tree or in an element that is apart in a
/// loose reading, and in XML outside of the root.
pub fn parent_of_text<'t>(
    form: PageForm,
    page: Element<'t>,
    reading: &Reading<'t>,
) -> Option<Element<'t>>
    ensures { option_map (λ element. as_element element) result ≡ parent_of_text form (as_element page.entry) (as_reading reading.now) }
{
    let around = innermost(page, &reading.elements);
    if may_be_elsewhere(form, reading, around) {
        None
    } else {
        Some(around)
    }
}
