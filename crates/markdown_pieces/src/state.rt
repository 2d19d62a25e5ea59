//! States of reading: all that is known of the bytes before.

ghost use Rattle.std.specs.Prelude.{◌≡◌};
ghost use Rattle.markdown_pieces.specs.States.{in_state, in_mode, more, tabbed, is_left, is_html, is_new, is_paragraph};
ghost use Rattle.markdown_pieces.specs.States.{begun, prefixed, without_text, after_line, new_line, alone, ended};

use self::Block::*;
use self::Mode::*;

/// The block that is open at a line.
#[derive(Clone, Copy, Debug, PartialEq, Eq)]
pub enum Block {
    /// Nothing: a line that is indented is code.
    New,
    /// A paragraph.
    Paragraph,
    /// The line itself, which is a heading or a row of a table.
    Heading,
    /// A paragraph whose rest is left alone.
    Rest,
    /// HTML, or what may be HTML, up to a blank line.
    Html,
}

/// A fence of code.
#[derive(Clone, Copy, Debug, PartialEq, Eq)]
pub struct Fence {
    /// Its byte, which is a backtick or a tilde.
    pub byte: u8,
    /// How many of them it has.
    pub length: u8,
    /// How many columns are before it; 255 where that is not known.
    pub indent: u8,
}

/// The part of a text to which the next byte may belong.
#[derive(Clone, Copy, Debug, PartialEq, Eq)]
pub enum Mode {
    /// The first line of the text, after some dashes.
    Head(u8),
    /// A line of front matter, after some dashes.
    Front(u8),
    /// A line of front matter that does not end it.
    FrontLine,
    /// A line, after some columns of white space.
    Start(u8),
    /// A line that began with a prefix, after some columns of white space.
    Prefix(u8),
    /// A line whose rest is left alone.
    Line,
    /// A text whose rest is left alone.
    End,
    /// The run of what may be a fence.
    FenceRun(Fence),
    /// The rest of a fence's line.
    FenceInfo(Fence),
    /// A line of code in fences, after some columns of white space.
    FenceIndent(Fence, u8),
    /// A run that may end the code, its length, and whether it ends it for certain.
    FenceEndRun(Fence, u8, bool),
    /// White space after such a run.
    FenceEnd(Fence, bool),
    /// A line of the code.
    FenceText(Fence),
    /// After a `<` that begins a line.
    BlockAngle,
    /// After `<p`.
    BlockP,
    /// After `<s`.
    BlockS,
    /// After `<st`.
    BlockSt,
    /// After `<t`.
    BlockT,
    /// A comment that began a line, after some dashes.
    Comment(u8),
    /// The element `pre`, after some bytes of its end tag.
    Pre(u8),
    /// Text.
    Plain,
    /// After a backslash.
    Escape,
    /// A run of backticks.
    Ticks(u8),
    /// A code span that began with a run of this length.
    Code(u8),
    /// A run that may end it, with its length.
    CodeEnd(u8, u8),
    /// After `<`.
    Angle,
    /// A tag or an autolink.
    Tag,
    /// A value in these quotes.
    TagQuote(u8),
    /// After `!`.
    Bang,
    /// After `]`.
    Closed,
    /// The target of a link, in which some brackets are open.
    Target(u8),
    /// A target after a backslash.
    TargetEscape(u8),
    /// The title of a link, in these quotes.
    TargetQuote(u8, u8),
    /// A label, or what stands for an image.
    Label,
    /// A label after a backslash.
    LabelEscape,
    /// A character reference.
    Reference,
}

/// A state of reading.
#[derive(Clone, Copy, Debug, PartialEq, Eq)]
pub struct State {
    /// The part to which the next byte may belong.
    pub mode: Mode,
    /// The block that is open at its line.
    pub block: Block,
    /// Whether a square bracket is open.
    pub in_brackets: bool,
}

// A state of these parts.
pub(crate) const fn in_state(mode: Mode, block: Block, in_brackets: bool) -> State
    ensures { result ≡ in_state mode block in_brackets }
{
    State {
        mode,
        block,
        in_brackets,
    }
}

// This state in another mode.
pub(crate) const fn in_mode(state: State, mode: Mode) -> State
    ensures { result ≡ in_mode state mode }
{
    in_state(mode, state.block, state.in_brackets)
}

// One more, where counts from 255 on are one.
pub(crate) const fn more(count: u8) -> u8
    ensures { result ≡ more count }
{
    if count < 255 { count + 1 } else { 255 }
}

// The columns after a tab.
pub(crate) const fn tabbed(columns: u8) -> u8
    ensures { result ≡ tabbed columns }
{
    if columns < 251 { columns + 4 } else { 255 }
}

// Whether lines are left alone up to a blank one.
pub(crate) const fn is_left(block: Block) -> bool
    ensures { result ≡ is_left block }
{
    matches!(block, Rest | Html)
}

// Whether lines may be of HTML.
pub(crate) const fn is_html(block: Block) -> bool
    ensures { result ≡ is_html block }
{
    matches!(block, Html)
}

// Whether no paragraph is open before a line.
pub(crate) const fn is_new(block: Block) -> bool
    ensures { result ≡ is_new block }
{
    matches!(block, New)
}

// Whether a paragraph is open.
pub(crate) const fn is_paragraph(block: Block) -> bool
    ensures { result ≡ is_paragraph block }
{
    matches!(block, Paragraph)
}

// The block once text of its line begins.
pub(crate) const fn begun(block: Block) -> Block
    ensures { result ≡ begun block }
{
    match block {
        New => Paragraph,
        _ => block,
    }
}

// The block after a byte of a prefix.
pub(crate) const fn prefixed(block: Block, byte: u8) -> Block
    ensures { result ≡ prefixed block byte }
{
    if (byte == b'#' || byte == b'|') && !is_left(block) {
        Heading
    } else {
        block
    }
}

// The block after a line without text.
pub(crate) const fn without_text(block: Block) -> Block
    ensures { result ≡ without_text block }
{
    if is_left(block) { block } else { New }
}

// The block after a line with text.
pub(crate) const fn after_line(block: Block, in_brackets: bool) -> Block
    ensures { result ≡ after_line block in_brackets }
{
    match block {
        Heading => if in_brackets { Rest } else { New },
        _ => if in_brackets { Rest } else { block },
    }
}

// The beginning of a line.
pub(crate) const fn new_line(block: Block) -> State
    ensures { result ≡ new_line block }
{
    in_state(Start(0), block, false)
}

// The rest of a line that is left alone, from a byte on that may end it.
pub(crate) const fn alone(block: Block, byte: u8) -> State
    ensures { result ≡ alone block byte }
{
    if byte == b'\n' {
        new_line(block)
    } else {
        in_state(Line, block, false)
    }
}

// The rest of a text that is left alone.
pub(crate) const fn ended() -> State
    ensures { result ≡ ended }
{
    in_state(End, New, false)
}
