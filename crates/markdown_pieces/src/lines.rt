//! The beginnings of lines, and front matter.

ghost use Rattle.std.specs.Prelude.{◌≡◌};
ghost use Rattle.markdown_pieces.specs.States.{after_prefix, at_start, in_prefix, in_head, in_front};

use crate::bytes::is_prefix;
use crate::state::Block::*;
use crate::state::Mode::*;
use crate::state::{
    Block, Fence, State, alone, begun, in_state, is_paragraph, more, new_line, prefixed, tabbed,
    without_text,
};

// After the first byte of a prefix, or of what is left alone.
const fn after_prefix(block: Block, byte: u8) -> State
    ensures { result ≡ after_prefix block byte }
{
    if is_prefix(byte) {
        in_state(Prefix(0), prefixed(block, byte), false)
    } else {
        alone(block, byte)
    }
}

// The first byte of what may be a fence.
const fn fence(byte: u8, indent: u8) -> Fence
    ensures byte { result.byte ≡ byte }
    ensures length { result.length ≡ 1 }
    ensures indent { result.indent ≡ indent }
{
    Fence {
        byte,
        length: 1,
        indent,
    }
}

// At the beginning of a line, after some columns of white space.
#[tactic(auto, unfolding(crate::specs::States::at_start))]
pub(crate) const fn at_start(columns: u8, block: Block, byte: u8) -> State
    ensures { result ≡ at_start columns block byte }
{
    if byte == b'\n' {
        new_line(New)
    } else if byte == b' ' {
        in_state(Start(more(columns)), block, false)
    } else if byte == b'\t' {
        in_state(Start(tabbed(columns)), block, false)
    } else if byte == b'\r' {
        in_state(Start(columns), block, false)
    } else if byte == b'`' || byte == b'~' {
        in_state(FenceRun(fence(byte, columns)), block, false)
    } else if byte == b'<' {
        in_state(BlockAngle, block, false)
    } else if 3 < columns && !is_paragraph(block) {
        in_state(Line, block, false)
    } else {
        after_prefix(block, byte)
    }
}

// After a prefix and some columns of white space.
#[tactic(auto, unfolding(crate::specs::States::in_prefix))]
pub(crate) const fn in_prefix(columns: u8, block: Block, byte: u8) -> State
    ensures { result ≡ in_prefix columns block byte }
{
    if byte == b'\n' {
        new_line(without_text(block))
    } else if byte == b' ' && columns < 4 {
        in_state(Prefix(more(columns)), block, false)
    } else if byte == b'\t' && columns == 0 {
        in_state(Prefix(4), block, false)
    } else if byte == b'\t' || byte == b' ' {
        in_state(Line, without_text(block), false)
    } else if byte == b'\r' {
        in_state(Prefix(columns), block, false)
    } else if byte == b'`' || byte == b'~' {
        in_state(FenceRun(fence(byte, 255)), begun(block), false)
    } else if byte == b'<' {
        in_state(BlockAngle, block, false)
    } else {
        after_prefix(block, byte)
    }
}

// In the first line of a text, after some dashes.
#[tactic(auto, unfolding(crate::specs::States::in_head))]
pub(crate) const fn in_head(dashes: u8, byte: u8) -> State
    ensures { result ≡ in_head dashes byte }
{
    if byte == b'-' {
        in_state(Head(more(dashes)), New, false)
    } else if byte == b'\n' && dashes == 3 {
        in_state(Front(0), New, false)
    } else if byte == b'\r' && dashes == 3 {
        in_state(Head(3), New, false)
    } else if dashes == 0 {
        // U+FEFF, the byte order mark, begins with this byte.
        if byte == 0xEF {
            in_state(Start(0), New, false)
        } else {
            at_start(0, New, byte)
        }
    } else {
        in_prefix(0, New, byte)
    }
}

// In front matter, after some dashes that began a line.
#[tactic(auto, unfolding(crate::specs::States::in_front))]
pub(crate) const fn in_front(dashes: u8, byte: u8) -> State
    ensures { result ≡ in_front dashes byte }
{
    if byte == b'-' {
        in_state(Front(more(dashes)), New, false)
    } else if byte == b'\n' {
        if dashes == 3 {
            new_line(New)
        } else {
            in_state(Front(0), New, false)
        }
    } else if byte == b'\r' {
        in_state(Front(dashes), New, false)
    } else {
        in_state(FrontLine, New, false)
    }
}
