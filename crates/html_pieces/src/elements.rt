//! The elements that are open at a text.

ghost use Rattle.std.specs.Prelude.{◌≡◌, ◌≤◌, ◌&&◌, ◌||◌, ◌++◌, ◌∷◌, [], map, take, length, IfOk, OnOk, OnErr};
ghost use Rattle.std.specs.Option.{option_map};
ghost use Rattle.html_pieces.specs.References.{read_value};
ghost use Rattle.html_pieces.specs.Tags.{as_attribute};
ghost use Rattle.html_pieces.specs.Elements.{as_element, as_elements, as_selection, selects};
ghost use Rattle.html_pieces.specs.Elements.{has_word, has_class, translated_by, is_translated, value_of_either};
ghost use Rattle.html_pieces.specs.Elements.{language_value, held_language, language_by, language_of};
ghost use Rattle.html_pieces.specs.Elements.{is_formatting, has_inherited_attribute, group_in, holds_foreign, opened, innermost, before_new, closed_as};
ghost use Rattle.html_pieces.specs.Elements.{gives_nothing, has_other_language, is_apart_in, is_of_table, followed, opens_apart, AreThoseLooselyAfter};
ghost use Rattle.html_pieces.specs.Elements.{is_closed_by_slash, group_by, AreThoseBegun, AreThoseAfter};
ghost use Rattle.html_pieces.specs.Pieces.{as_piece};
ghost use Rattle.html_pieces.specs.Elements.{page_element};

use crate::bytes::{PageForm, is_one_of, is_same_in, is_same_name, is_white_space};
use crate::forms::is_start;
use crate::groups::{
    ElementGroup, bounds, ends, group_of, is_heading, is_root, is_table_part, is_void, stops,
};
use crate::references::{has_ampersand, read, read_plain};
use crate::tags::{Attribute, attributes, value_of};
use crate::tokenizer::{Piece, PieceKind, is_foreign_root, name_of};
use std::alloc::{AllocError, Global};

/// The elements that a caller asks about: those of some names, and those of a class.
///
/// [`Element::is_selected`] says of each open element whether it is in one of these.
#[derive(Clone, Copy, Debug)]
pub struct Selection<'s> {
    /// Names of elements, where ASCII capitals and small letters are alike.
    pub names: &'s [&'s [u8]],
    /// One of the words of the attribute `class`.
    pub class: &'s [u8],
}

/// An open element.
#[derive(Clone, Copy, Debug)]
pub struct Element<'t> {
    pub name: &'t [u8],
    pub group: ElementGroup,
    /// The language of its text, as it is written.
    pub language: &'t [u8],
    /// Whether its language may have character references, which are to be read.
    pub has_references: bool,
    /// Whether it or an element around it is of the selection of the caller.
    pub is_selected: bool,
    /// Whether its text may be translated.
    pub is_translated: bool,
    /// Whether its content is SVG or MathML.
    pub is_foreign: bool,
    /// Whether it is `svg` or `math`, or is in one.
    pub is_in_drawing: bool,
    /// Whether it is `noscript`, or is in one.
    pub is_in_noscript: bool,
    /// Whether it is a `template`, or is in one.
    pub is_in_template: bool,
    /// Whether it is a formatting element, as `b`, or is in one.
    pub is_in_formatting: bool,
    /// Whether a formatting element around it, or an element in one, names a language or `translate`; itself included.
    pub inherits_from_formatting: bool,
    /// Whether its text is not what that of the body is: it is in another language, of the selection, not to be translated,
    /// or in an element as `svg` or `select`.
    pub is_apart: bool,
}

// A value of more bytes is taken for a language as it is written.
const LONGEST_LANGUAGE: usize = 256;

// The number of open elements that are looked at, the innermost ones.
pub(crate) const DEPTH_LIMIT: usize = 512;

// Reports whether `word` is one of the words of `text` between white space.
fn has_word(word: &[u8], text: &[u8]) -> bool
    ensures { result ≡ has_word word.now text.now }
{
    let mut start = 0;
    for (i, byte) in text.iter().enumerate() {
        if is_white_space(*byte) {
            if &text[start..i] == word {
                return true;
            }
            start = i + 1;
        }
    }
    &text[start..] == word
}

// Whether a value, when it is read, has this class among its words.
fn has_class_in(alloc: Global, class: &[u8], value: &[u8]) -> Result<bool, AllocError>
    ensures { IfOk result (λ has. has ≡ has_word class.now (read_value value.now)) }
{
    if has_ampersand(value) {
        let characters = read(alloc, value)?;
        Ok(has_word(class, &characters))
    } else {
        Ok(has_word(class, read_plain(value)))
    }
}

// Whether attributes give a class of this name.
fn has_class(
    alloc: Global,
    form: PageForm,
    class: &[u8],
    attributes: &[Attribute<'_>],
) -> Result<bool, AllocError>
    ensures { IfOk result (λ has. has ≡ has_class form class.now (map as_attribute attributes.now)) }
{
    match value_of(form, attributes, b"class") {
        Some(value) => has_class_in(alloc, class, value),
        None => Ok(false),
    }
}

// Whether text may be translated by a value that has been read, or else as around.
fn translated_by(around: bool, value: &[u8]) -> bool
    ensures { result ≡ translated_by around value.now }
{
    if is_same_name(value, b"no") {
        false
    } else if is_same_name(value, b"yes") || is_same_name(value, b"") {
        true
    } else {
        around
    }
}

// Whether text may be translated by a value as it is written, or else as around.
fn translated_in(alloc: Global, around: bool, value: &[u8]) -> Result<bool, AllocError>
    ensures { IfOk result (λ is. is ≡ translated_by around (read_value value.now)) }
{
    if has_ampersand(value) {
        let characters = read(alloc, value)?;
        Ok(translated_by(around, &characters))
    } else {
        Ok(translated_by(around, read_plain(value)))
    }
}

// Whether text may be translated by attributes, or else by those around.
fn is_translated(
    alloc: Global,
    form: PageForm,
    attributes: &[Attribute<'_>],
    around: bool,
) -> Result<bool, AllocError>
    ensures { IfOk result (λ is. is ≡ is_translated form (map as_attribute attributes.now) around) }
{
    match value_of(form, attributes, b"translate") {
        Some(value) => translated_in(alloc, around, value),
        None => Ok(around),
    }
}

// The value of the first of two names that an attribute has.
fn value_of_either<'t>(
    form: PageForm,
    name: &[u8],
    other: &[u8],
    attributes: &[Attribute<'t>],
) -> Option<&'t [u8]>
    ensures { option_map (λ value. value.now) result ≡ value_of_either form name.now other.now (map as_attribute attributes.now) }
{
    match value_of(form, attributes, name) {
        Some(value) => Some(value),
        None => value_of(form, attributes, other),
    }
}

// The value that names the language. In HTML `xml:lang` names none.
pub(crate) fn language_value<'t>(form: PageForm, attributes: &[Attribute<'t>]) -> Option<&'t [u8]>
    ensures { option_map (λ value. value.now) result ≡ language_value form (map as_attribute attributes.now) }
{
    if form.is_xml() {
        value_of_either(form, b"xml:lang", b"lang", attributes)
    } else {
        value_of(form, attributes, b"lang")
    }
}

// A language as it is written, whose references, if it may have some, are read when it is asked for.
#[derive(Clone, Copy)]
pub(crate) struct LanguageValue<'t> {
    pub(crate) written: &'t [u8],
    pub(crate) has_references: bool,
}

// The language that a value names, whose references are read.
fn language_read(value: &[u8]) -> LanguageValue<'_>
    ensures { held_language result.has_references result.written.now ≡ read_value value.now }
{
    LanguageValue {
        written: value,
        has_references: has_ampersand(value),
    }
}

// The language that a value names.
pub(crate) fn language_by(value: &[u8]) -> LanguageValue<'_>
    ensures { held_language result.has_references result.written.now ≡ language_by value.now }
{
    if value.len() > LONGEST_LANGUAGE {
        LanguageValue {
            written: value,
            has_references: false,
        }
    } else {
        language_read(value)
    }
}

// The language that attributes name, or else the one around.
fn language_of<'t>(
    form: PageForm,
    attributes: &[Attribute<'t>],
    around: Element<'t>,
) -> LanguageValue<'t>
    ensures { held_language result.has_references result.written.now
        ≡ language_of form (map as_attribute attributes.now) (as_element around.entry).language }
{
    match language_value(form, attributes) {
        Some(value) => language_by(value),
        None => LanguageValue {
            written: around.language,
            has_references: around.has_references,
        },
    }
}

// The group of an element that begins or ends.
fn group_in(form: PageForm, foreign: bool, name: &[u8]) -> ElementGroup
    ensures { result ≡ group_in form foreign name.now }
{
    if form.is_xml() || foreign {
        ElementGroup::Ordinary
    } else {
        group_of(name)
    }
}

const fn is_formatting(group: ElementGroup) -> bool
    ensures { result ≡ is_formatting group }
{
    matches!(group, ElementGroup::Formatting)
}

// Whether attributes name what the elements within inherit: a language, or whether the text may be translated.
fn has_inherited_attribute(form: PageForm, attributes: &[Attribute<'_>]) -> bool
    ensures { result ≡ has_inherited_attribute form (map as_attribute attributes.now) }
{
    language_value(form, attributes).is_some() || value_of(form, attributes, b"translate").is_some()
}

// Whether an element is a formatting element, or is in one.
fn is_in_formatting(around: bool, group: ElementGroup) -> bool
    ensures { result ≡ (around || is_formatting group) }
{
    around || is_formatting(group)
}

// Whether a formatting element, or an element in one, names a language or `translate`: an element or one around it.
fn inherits_from_formatting(
    form: PageForm,
    in_formatting: bool,
    around: bool,
    attributes: &[Attribute<'_>],
) -> bool
    ensures { result ≡ (in_formatting && (around || has_inherited_attribute form (map as_attribute attributes.now))) }
{
    in_formatting && (around || has_inherited_attribute(form, attributes))
}

/// Reports whether a start tag gives its element nothing that texts in it take over: no language, no `translate`, and nothing
/// by which it is of a selection.
pub(crate) fn gives_nothing(
    alloc: Global,
    form: PageForm,
    selection: &Selection<'_>,
    tag: &[u8],
) -> Result<bool, AllocError>
    ensures { IfOk result (λ is. is ≡ gives_nothing form (as_selection selection.now) tag.now) }
{
    let attributes = attributes(alloc, form, tag)?;
    let selects = selects(alloc, form, selection, name_of(tag), &attributes)?;
    Ok(!has_inherited_attribute(form, &attributes) && !selects)
}

// The language of a value with its references read.
fn read_language(
    alloc: Global,
    language: &[u8],
    has_references: bool,
) -> Result<Vec<u8>, AllocError>
    ensures { IfOk result (λ made. made.items ≡ held_language has_references language.now) }
{
    if has_references {
        read(alloc, language)
    } else {
        Vec::from_slice(alloc, language)
    }
}

// Whether attributes name a language other than the one around.
fn has_other_language(
    alloc: Global,
    form: PageForm,
    attributes: &[Attribute<'_>],
    around: Element<'_>,
) -> Result<bool, AllocError>
    ensures { IfOk result (λ has. has ≡ has_other_language form (map as_attribute attributes.now) (as_element around.entry).language) }
{
    let language = language_of(form, attributes, around);
    if !language.has_references && !around.has_references {
        return Ok(language.written != around.language);
    }
    let own = read_language(alloc, language.written, language.has_references)?;
    let other = read_language(alloc, around.language, around.has_references)?;
    Ok(own.as_slice() != other.as_slice())
}

/// Elements whose content is not read as that of the body is, whatever holds them.
pub const APART_NAMES: [&[u8]; 5] = [b"math", b"noscript", b"select", b"svg", b"template"];

// Whether an element within another one is apart.
fn is_apart_in(
    around: Element<'_>,
    group: ElementGroup,
    name: &[u8],
    other_language: bool,
    is_selected: bool,
    is_translated: bool,
) -> bool
    ensures { result ≡ is_apart_in (as_element around.entry) group name.now other_language is_selected is_translated }
{
    !is_root(group)
        && (around.is_apart
            || other_language
            || is_selected
            || !is_translated
            || is_one_of(name, &APART_NAMES))
}

/// Elements of SVG whose content is HTML: its integration points.
pub const SVG_POINTS: [&[u8]; 3] = [b"desc", b"foreignObject", b"title"];

/// Elements of MathML whose content is HTML: its integration points.
pub const MATH_POINTS: [&[u8]; 5] = [b"mi", b"mn", b"mo", b"ms", b"mtext"];

// Whether the content of an element is SVG or MathML.
fn holds_foreign(foreign: bool, name: &[u8]) -> bool
    ensures { result ≡ holds_foreign foreign name.now }
{
    (foreign || is_foreign_root(name))
        && !(is_one_of(name, &SVG_POINTS) || is_one_of(name, &MATH_POINTS))
}

// Whether an element of a name and with attributes is of a selection.
fn selects(
    alloc: Global,
    form: PageForm,
    selection: &Selection<'_>,
    name: &[u8],
    attributes: &[Attribute<'_>],
) -> Result<bool, AllocError>
    ensures { IfOk result (λ is. is ≡ selects form (as_selection selection.now) name.now (map as_attribute attributes.now)) }
{
    if is_one_of(name, selection.names) {
        Ok(true)
    } else {
        has_class(alloc, form, selection.class, attributes)
    }
}

// The element that a start tag opens.
#[tactic(auto, unfolding(crate::specs::Elements::opened))]
fn opened<'t>(
    alloc: Global,
    form: PageForm,
    selection: &Selection<'_>,
    around: Element<'t>,
    tag: &'t [u8],
) -> Result<Element<'t>, AllocError>
    ensures { IfOk result (λ element. as_element element ≡ opened form (as_selection selection.now) (as_element around.entry) tag.now) }
{
    let attributes = attributes(alloc, form, tag)?;
    let name = name_of(tag);
    let is_selected = around.is_selected || selects(alloc, form, selection, name, &attributes)?;
    let is_translated = is_translated(alloc, form, &attributes, around.is_translated)?;
    let language = language_of(form, &attributes, around);
    let other_language = has_other_language(alloc, form, &attributes, around)?;
    let group = group_in(form, around.is_foreign, name);
    let is_in_formatting = is_in_formatting(around.is_in_formatting, group);
    Ok(Element {
        name,
        group,
        language: language.written,
        has_references: language.has_references,
        is_selected,
        is_translated,
        is_foreign: holds_foreign(around.is_foreign, name),
        is_in_drawing: around.is_in_drawing || is_foreign_root(name),
        is_in_noscript: around.is_in_noscript || is_same_name(name, b"noscript"),
        is_in_template: around.is_in_template || is_same_name(name, b"template"),
        is_in_formatting,
        inherits_from_formatting: inherits_from_formatting(
            form,
            is_in_formatting,
            around.inherits_from_formatting,
            &attributes,
        ),
        is_apart: is_apart_in(
            around,
            group,
            name,
            other_language,
            is_selected,
            is_translated,
        ),
    })
}

// The number of elements that stay open where one of a group begins.
#[tactic(auto, using(crate::proofs::Limits::kept_at_limit))]
pub(crate) fn before_new(elements: &[Element<'_>], new: ElementGroup) -> usize
    ensures kept { as_elements (take result elements.now) ≡ before_new new (as_elements elements.now) }
    ensures within { result ≤ length elements.now }
{
    let mut kept = elements.len();
    let mut left = DEPTH_LIMIT;
    let mut i = elements.len();
    while i > 0 {
        if left == 0 {
            return kept;
        }
        i -= 1;
        left -= 1;
        if ends(new, elements[i].group) {
            kept = i;
        } else if stops(new, elements[i].group) {
            return kept;
        }
    }
    kept
}

// The number of elements that stay open after an end tag.
fn kept_by_end_tag(
    form: PageForm,
    elements: &[Element<'_>],
    name: &[u8],
    tag: ElementGroup,
) -> usize
    ensures kept { as_elements (take result elements.now) ≡ closed_as form name.now tag (as_elements elements.now) }
    ensures within { result ≤ length elements.now }
{
    if is_root(tag) {
        return elements.len();
    }
    let mut left = DEPTH_LIMIT;
    let mut i = elements.len();
    while i > 0 {
        if left == 0 {
            return elements.len();
        }
        i -= 1;
        left -= 1;
        let other = elements[i].group;
        if is_same_in(form, elements[i].name, name) || is_heading(tag) && is_heading(other) {
            return i;
        }
        if bounds(tag, other) {
            return elements.len();
        }
    }
    elements.len()
}

/// Returns the element that a text is in.
pub fn innermost<'t>(page: Element<'t>, elements: &[Element<'t>]) -> Element<'t>
    ensures { as_element result ≡ innermost (as_element page.entry) (as_elements elements.now) }
{
    match elements.last() {
        Some(element) => *element,
        None => page,
    }
}

// Puts an element after the first ones of a list, in place of those after them.
fn put_after<'t>(
    nest: &mut Vec<Element<'t>>,
    kept: usize,
    element: Element<'t>,
) -> Result<(), AllocError>
    requires { kept ≤ length nest.old.items }
    ensures put { OnOk result (nest.new.items ≡ take kept nest.old.items ++ element.entry ∷ []) }
    ensures unchanged_on_error { OnErr result (nest.new.items ≡ nest.old.items) }
{
    if kept == nest.len() {
        nest.push(element)?;
        return Ok(());
    }
    nest[kept] = element;
    nest.truncate(kept + 1);
    Ok(())
}

// Opens the element of a start tag, and closes those that it ends.
fn begin<'t>(
    nest: &mut Vec<Element<'t>>,
    alloc: Global,
    form: PageForm,
    selection: &Selection<'_>,
    page: Element<'t>,
    new: ElementGroup,
    tag: &'t [u8],
) -> Result<(), AllocError>
    ensures begun { OnOk result (AreThoseBegun form selection.now new tag.now (as_element page.entry)
        nest.old.items nest.new.items) }
    ensures unchanged_on_error { OnErr result (nest.new.items ≡ nest.old.items) }
{
    let kept = before_new(nest, new);
    if is_void(new) {
        nest.truncate(kept);
        return Ok(());
    }
    let element = opened(alloc, form, selection, innermost(page, &nest[..kept]), tag)?;
    put_after(nest, kept, element)
}

// Whether a tag with `/>` opens no element.
fn is_closed_by_slash(form: PageForm, foreign: bool, name: &[u8]) -> bool
    ensures { result ≡ is_closed_by_slash form foreign name.now }
{
    form.is_xml() || foreign || is_foreign_root(name)
}

// The group of the element that a tag begins or ends, within another one.
pub(crate) fn group_by(form: PageForm, around: Element<'_>, piece: Piece<'_>) -> ElementGroup
    ensures { result ≡ group_by form (as_element around.entry) piece.entry.kind piece.entry.text.now }
{
    match piece.kind {
        PieceKind::StartTag | PieceKind::EmptyTag | PieceKind::EndTag => {
            group_in(form, around.is_foreign, name_of(piece.text.as_bytes()))
        }
        _ => ElementGroup::Ordinary,
    }
}

// Opens and closes elements of `nest`, as a piece says whose element is of a group.
//
// The only error is that memory was refused; `nest` is then unchanged.
pub(crate) fn open_and_close<'t>(
    nest: &mut Vec<Element<'t>>,
    alloc: Global,
    form: PageForm,
    selection: &Selection<'_>,
    page: Element<'t>,
    group: ElementGroup,
    piece: Piece<'t>,
) -> Result<(), AllocError>
    ensures changed { OnOk result (AreThoseAfter form selection.now group (as_piece piece.entry) (as_element page.entry)
        nest.old.items nest.new.items) }
    ensures unchanged_on_error { OnErr result (nest.new.items ≡ nest.old.items) }
{
    let tag = piece.text.as_bytes();
    match piece.kind {
        PieceKind::StartTag => begin(nest, alloc, form, selection, page, group, tag),
        PieceKind::EmptyTag => {
            let foreign = innermost(page, nest).is_foreign;
            if is_closed_by_slash(form, foreign, name_of(tag)) {
                Ok(())
            } else {
                begin(nest, alloc, form, selection, page, group, tag)
            }
        }
        PieceKind::EndTag => {
            let kept = kept_by_end_tag(form, nest, name_of(tag), group);
            nest.truncate(kept);
            Ok(())
        }
        _ => Ok(()),
    }
}

// Whether the elements of a group are tables or parts of them.
fn is_of_table(group: ElementGroup) -> bool
    ensures { result ≡ is_of_table group }
{
    is_table_part(group) || group == ElementGroup::Table
}

// The elements that a loose reading follows, of all that are open.
pub(crate) fn followed<'t>(
    alloc: Global,
    elements: &[Element<'t>],
) -> Result<Vec<Element<'t>>, AllocError>
    ensures { IfOk result (λ nest. as_elements nest.items ≡ followed (as_elements elements.now)) }
{
    let mut nest = Vec::new(alloc);
    for element in elements {
        if is_root(element.group) || is_of_table(element.group) {
            nest.push(*element)?;
        }
    }
    Ok(nest)
}

// Whether the element that a start tag opens is apart.
pub(crate) fn is_opened_apart(
    alloc: Global,
    form: PageForm,
    selection: &Selection<'_>,
    around: Element<'_>,
    tag: &[u8],
) -> Result<bool, AllocError>
    ensures { IfOk result (λ is. is ≡ (opened form (as_selection selection.now) (as_element around.entry) tag.now).is_apart) }
{
    let element = opened(alloc, form, selection, around, tag)?;
    Ok(element.is_apart)
}

// Whether a piece is a start tag whose element is apart.
fn opens_apart(
    alloc: Global,
    form: PageForm,
    selection: &Selection<'_>,
    around: Element<'_>,
    piece: Piece<'_>,
) -> Result<bool, AllocError>
    ensures { IfOk result (λ is. is ≡ opens_apart form (as_selection selection.now) piece.entry.kind piece.entry.text.now (as_element around.entry)) }
{
    if is_start(piece.kind) {
        is_opened_apart(alloc, form, selection, around, piece.text.as_bytes())
    } else {
        Ok(false)
    }
}

// Opens and closes elements of `nest` in a loose reading, as a piece says whose element is of a group.
//
// The only error is that memory was refused; `nest` is then unchanged.
pub(crate) fn open_and_close_loosely<'t>(
    nest: &mut Vec<Element<'t>>,
    alloc: Global,
    form: PageForm,
    selection: &Selection<'_>,
    page: Element<'t>,
    group: ElementGroup,
    piece: Piece<'t>,
) -> Result<(), AllocError>
    ensures changed { OnOk result (AreThoseLooselyAfter form selection.now group (as_piece piece.entry) (as_element page.entry)
        nest.old.items nest.new.items) }
    ensures unchanged_on_error { OnErr result (nest.new.items ≡ nest.old.items) }
{
    let around = innermost(page, nest);
    if around.is_apart
        || is_of_table(group)
        || opens_apart(alloc, form, selection, around, piece)?
    {
        open_and_close(nest, alloc, form, selection, page, group, piece)
    } else {
        Ok(())
    }
}

/// Returns the page as what is around all its elements.
pub fn page_element(language: &[u8]) -> Element<'_>
    ensures { as_element result ≡ page_element language.now }
{
    Element {
        name: b"",
        group: ElementGroup::Root,
        language,
        has_references: false,
        is_selected: false,
        is_translated: true,
        is_foreign: false,
        is_in_drawing: false,
        is_in_noscript: false,
        is_in_template: false,
        is_in_formatting: false,
        inherits_from_formatting: false,
        is_apart: false,
    }
}
