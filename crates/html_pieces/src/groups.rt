//! Elements grouped by what they end where their end tags are left out.

ghost use Rattle.std.specs.Prelude.{◌≡◌};
ghost use Rattle.html_pieces.specs.Groups.{group_of, is_void, is_table_part, ends, stops, is_special, ends_scope};
ghost use Rattle.html_pieces.specs.Groups.{bounds, group_by_content, group_in_body, group_in_table, is_heading, is_root};

use self::ElementGroup::*;
use crate::bytes::{is_one_of, is_same_name};

/// A group of elements, by the elements that they end and those that end them, where end tags are left out.
#[derive(Clone, Copy, Debug, PartialEq, Eq)]
pub enum ElementGroup {
    /// No rule names it.
    Ordinary,
    /// `b` and the like, whose end tags close them across other elements.
    Formatting,
    /// `p`
    Paragraph,
    /// `address`, `dialog` and `div`, past which items of lists are looked for.
    Division,
    /// `h1` to `h6`
    Heading,
    /// `ol` and `ul`
    Listing,
    /// The other elements that end a paragraph.
    Block,
    /// `hr`
    Rule,
    /// `li`
    Item,
    /// `dt` and `dd`
    Term,
    /// `option`
    Choice,
    /// `optgroup`
    Choices,
    /// `rt` and `rp`
    Ruby,
    /// `td` and `th`
    Cell,
    /// `tr`
    Row,
    /// `thead`, `tbody` and `tfoot`
    Rows,
    /// `caption`
    Caption,
    /// `colgroup`
    Columns,
    /// `col`
    Column,
    /// `table`
    Table,
    /// An element that holds a scope of its own, as `button` and `svg` do.
    Scope,
    /// `html` and `body`
    Root,
    /// `head`
    Head,
    /// An element that a head may have.
    HeadContent,
    /// A void element that a head may have.
    HeadVoid,
    /// `template`
    Template,
    /// A void element.
    Void,
}

/// Sections, and what is around them. Their start tags end a paragraph: "close a p element".
pub const SECTION_NAMES: [&[u8]; 9] = [
    b"article", b"aside", b"footer", b"header", b"hgroup", b"main", b"nav", b"search", b"section",
];

/// Headings.
pub const HEADING_NAMES: [&[u8]; 6] = [b"h1", b"h2", b"h3", b"h4", b"h5", b"h6"];

/// The other elements that end a paragraph, without those of a group of their own.
pub const BLOCK_NAMES: [&[u8]; 15] = [
    b"blockquote",
    b"center",
    b"details",
    b"dir",
    b"dl",
    b"fieldset",
    b"figcaption",
    b"figure",
    b"form",
    b"listing",
    b"menu",
    b"plaintext",
    b"pre",
    b"summary",
    b"xmp",
];

/// Formatting elements, whose end tags close them across other elements.
pub const FORMATTING_NAMES: [&[u8]; 14] = [
    b"a", b"b", b"big", b"code", b"em", b"font", b"i", b"nobr", b"s", b"small", b"strike",
    b"strong", b"tt", b"u",
];

/// Elements with a scope of their own: no search goes on past them.
pub const SCOPE_NAMES: [&[u8]; 7] = [
    b"applet", b"button", b"marquee", b"math", b"object", b"select", b"svg",
];

/// Void elements, which have no content and no end tag; `hr` and `col` are void too, and those of [`HEAD_VOID_NAMES`].
pub const VOID_NAMES: [&[u8]; 11] = [
    b"area", b"br", b"embed", b"frame", b"img", b"input", b"keygen", b"param", b"source", b"track",
    b"wbr",
];

/// Void elements that a head may have.
pub const HEAD_VOID_NAMES: [&[u8]; 5] = [b"base", b"basefont", b"bgsound", b"link", b"meta"];

/// The other elements that a head may have.
pub const HEAD_NAMES: [&[u8]; 5] = [b"noframes", b"noscript", b"script", b"style", b"title"];

/// Returns the group of the elements of a name.
#[tactic(auto, unfolding(crate::specs::Groups::group_of))]
pub fn group_of(name: &[u8]) -> ElementGroup
    ensures { result ≡ group_of name.now }
{
    if is_same_name(name, b"p") {
        Paragraph
    } else if is_same_name(name, b"div")
        || is_same_name(name, b"address")
        || is_same_name(name, b"dialog")
    {
        Division
    } else if is_same_name(name, b"li") {
        Item
    } else if is_same_name(name, b"dt") || is_same_name(name, b"dd") {
        Term
    } else if is_same_name(name, b"hr") {
        Rule
    } else if is_same_name(name, b"option") {
        Choice
    } else if is_same_name(name, b"optgroup") {
        Choices
    } else if is_same_name(name, b"rt") || is_same_name(name, b"rp") {
        Ruby
    } else {
        group_in_table(name)
    }
}

// Returns the group of the elements of a name that is none of the above: of a table or a part of one, or another group.
#[inline(always)]
#[tactic(auto, unfolding(crate::specs::Groups::group_in_table))]
fn group_in_table(name: &[u8]) -> ElementGroup
    ensures { result ≡ group_in_table name.now }
{
    if is_same_name(name, b"td") || is_same_name(name, b"th") {
        Cell
    } else if is_same_name(name, b"tr") {
        Row
    } else if is_same_name(name, b"thead")
        || is_same_name(name, b"tbody")
        || is_same_name(name, b"tfoot")
    {
        Rows
    } else if is_same_name(name, b"table") {
        Table
    } else if is_same_name(name, b"caption") {
        Caption
    } else if is_same_name(name, b"colgroup") {
        Columns
    } else if is_same_name(name, b"col") {
        Column
    } else {
        group_by_content(name)
    }
}

// Returns the group of the elements of a name that is none of the above: of a page, its head or a scope, of elements without
// content, or another group.
#[inline(always)]
#[tactic(auto, unfolding(crate::specs::Groups::group_by_content))]
fn group_by_content(name: &[u8]) -> ElementGroup
    ensures { result ≡ group_by_content name.now }
{
    if is_same_name(name, b"head") {
        Head
    } else if is_same_name(name, b"body") || is_same_name(name, b"html") {
        Root
    } else if is_same_name(name, b"template") {
        Template
    } else if is_one_of(name, &VOID_NAMES) {
        Void
    } else if is_one_of(name, &HEAD_VOID_NAMES) {
        HeadVoid
    } else if is_one_of(name, &HEAD_NAMES) {
        HeadContent
    } else if is_one_of(name, &SCOPE_NAMES) {
        Scope
    } else {
        group_in_body(name)
    }
}

// Returns the group of the elements of a name that is none of the above: of blocks and formatting elements, or none.
#[inline(always)]
#[tactic(auto, unfolding(crate::specs::Groups::group_in_body))]
fn group_in_body(name: &[u8]) -> ElementGroup
    ensures { result ≡ group_in_body name.now }
{
    if is_one_of(name, &SECTION_NAMES) {
        Block
    } else if is_one_of(name, &HEADING_NAMES) {
        Heading
    } else if is_same_name(name, b"ol") || is_same_name(name, b"ul") {
        Listing
    } else if is_one_of(name, &BLOCK_NAMES) {
        Block
    } else if is_one_of(name, &FORMATTING_NAMES) {
        Formatting
    } else {
        Ordinary
    }
}

/// Elements without content.
pub const VOID_GROUPS: [ElementGroup; 4] = [Rule, Column, HeadVoid, Void];

/// Parts of tables.
pub const TABLE_PARTS: [ElementGroup; 6] = [Cell, Row, Rows, Caption, Columns, Column];

/// The groups whose elements end a paragraph where they begin.
pub const ENDS_OF_PARAGRAPHS: [ElementGroup; 9] = [
    Paragraph, Division, Heading, Listing, Block, Rule, Item, Term, Table,
];

/// Those that end an option.
pub const ENDS_OF_CHOICES: [ElementGroup; 3] = [Choice, Choices, Rule];

/// Those that end a group of options.
pub const ENDS_OF_CHOICE_GROUPS: [ElementGroup; 2] = [Choices, Rule];

/// Those that end a row: they are no cells.
pub const ENDS_OF_ROWS: [ElementGroup; 5] = [Row, Rows, Caption, Columns, Column];

/// Those that end a row group: they are neither cells nor rows.
pub const ENDS_OF_ROW_GROUPS: [ElementGroup; 4] = [Rows, Caption, Columns, Column];

/// Those that end a group of columns: all parts of a table but its columns.
pub const ENDS_OF_COLUMNS: [ElementGroup; 5] = [Cell, Row, Rows, Caption, Columns];

/// Those that a head may have. All others end it.
pub const PARTS_OF_HEADS: [ElementGroup; 3] = [HeadContent, HeadVoid, Template];

/// Items of lists, terms and what is said of terms.
pub const ITEMS: [ElementGroup; 2] = [Item, Term];

/// The groups past whose elements an item looks for one that it ends.
pub const PASSED_BY_ITEMS: [ElementGroup; 6] = [
    Ordinary, Formatting, Division, Choice, Choices, Ruby,
];

/// Tables and their parts, and the elements that hold a scope of their own.
pub const BOUNDARIES: [ElementGroup; 9] = [
    Table, Cell, Row, Rows, Caption, Columns, Scope, Root, Template,
];

/// The groups whose elements are not special.
pub const NO_SPECIAL_GROUPS: [ElementGroup; 5] = [Ordinary, Formatting, Ruby, Choice, Choices];

/// Where the scope of tables and their parts ends.
pub const TABLE_SCOPES: [ElementGroup; 3] = [Table, Root, Template];

/// Where the scope of other elements ends.
pub const SCOPES: [ElementGroup; 6] = [Table, Cell, Caption, Scope, Root, Template];

/// The groups whose elements hold no text: it is elsewhere in the tree.
pub const WITHOUT_TEXT: [ElementGroup; 5] = [Table, Rows, Row, Columns, Head];

/// The groups whose end tags may be left out.
pub const WITHOUT_END_TAGS: [ElementGroup; 12] = [
    Paragraph, Item, Term, Choice, Choices, Ruby, Cell, Row, Rows, Caption, Columns, Head,
];

/// Options, and groups of them.
pub const CHOICES: [ElementGroup; 2] = [Choice, Choices];

/// Where a cell may begin. The end tags of these groups close cells.
pub const AROUND_CELLS: [ElementGroup; 4] = [Table, Rows, Row, Template];

/// Where a row may begin. The end tags of these groups close rows.
pub const AROUND_ROWS: [ElementGroup; 3] = [Table, Rows, Template];

/// Where a row group or a caption may begin. The end tags of these groups close them, and groups of columns.
pub const AROUND_ROW_GROUPS: [ElementGroup; 2] = [Table, Template];

/// Where a column may begin.
pub const AROUND_COLUMNS: [ElementGroup; 2] = [Table, Columns];

/// The special groups whose end tags close no paragraphs, items and terms.
pub const CLOSING_NO_BLOCKS: [ElementGroup; 5] = [Root, Head, HeadContent, HeadVoid, Columns];

/// Reports whether the elements of a group have no content.
pub fn is_void(group: ElementGroup) -> bool
    ensures { result ≡ is_void group }
{
    VOID_GROUPS.contains(&group)
}

pub(crate) fn is_table_part(group: ElementGroup) -> bool
    ensures { result ≡ is_table_part group }
{
    TABLE_PARTS.contains(&group)
}

/// Reports whether an element of a group that begins ends an open one: the end tag of that one may be left out.
#[tactic(auto, unfolding(crate::specs::Groups::ends))]
pub fn ends(new: ElementGroup, other: ElementGroup) -> bool
    ensures { result ≡ ends new other }
{
    match other {
        Paragraph => ENDS_OF_PARAGRAPHS.contains(&new),
        Item | Term | Ruby => new == other,
        Choice => ENDS_OF_CHOICES.contains(&new),
        Choices => ENDS_OF_CHOICE_GROUPS.contains(&new),
        Cell | Caption => is_table_part(new),
        Row => ENDS_OF_ROWS.contains(&new),
        Rows => ENDS_OF_ROW_GROUPS.contains(&new),
        Columns => ENDS_OF_COLUMNS.contains(&new),
        Head => !PARTS_OF_HEADS.contains(&new),
        _ => false,
    }
}

/// Reports whether an element of a group that begins looks no further than an open one for those that it ends.
#[tactic(auto, unfolding(crate::specs::Groups::stops))]
pub fn stops(new: ElementGroup, other: ElementGroup) -> bool
    ensures { result ≡ stops new other }
{
    if ITEMS.contains(&new) {
        !PASSED_BY_ITEMS.contains(&other)
    } else if ENDS_OF_PARAGRAPHS.contains(&new) || is_table_part(new) {
        BOUNDARIES.contains(&other)
    } else {
        true
    }
}

pub(crate) fn is_special(group: ElementGroup) -> bool
    ensures { result ≡ is_special group }
{
    !NO_SPECIAL_GROUPS.contains(&group)
}

fn ends_scope(group: ElementGroup) -> bool
    ensures { result ≡ ends_scope group }
{
    SCOPES.contains(&group)
}

/// Reports whether an end tag of a group looks no further than an open element for its own.
#[tactic(auto, unfolding(crate::specs::Groups::bounds))]
pub fn bounds(tag: ElementGroup, other: ElementGroup) -> bool
    ensures { result ≡ bounds tag other }
{
    match tag {
        Ordinary => is_special(other),
        Item => other == Listing || ends_scope(other),
        _ => {
            if tag == Table || is_table_part(tag) {
                TABLE_SCOPES.contains(&other)
            } else {
                ends_scope(other)
            }
        }
    }
}

/// Reports whether the elements of a group are headings.
pub fn is_heading(group: ElementGroup) -> bool
    ensures { result ≡ is_heading group }
{
    group == Heading
}

/// Reports whether the end tags of a group close nothing.
pub fn is_root(tag: ElementGroup) -> bool
    ensures { result ≡ is_root tag }
{
    tag == Root
}
