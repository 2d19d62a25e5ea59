//! The state after a byte.

ghost use Rattle.std.specs.Prelude.{◌≡◌, ◌==◌, if◌then◌else◌};
ghost use Rattle.markdown_pieces.specs.declared.state.Block.TheVariants.{Rest};
ghost use Rattle.markdown_pieces.specs.declared.state.Mode.TheVariants.{FenceRun};
ghost use Rattle.markdown_pieces.specs.States.{first_state, begins_text, reads, after_text, after_other, next, alone, in_mode};

use crate::bytes::{is_opening, is_punctuation};
use crate::fences::{in_end, in_end_run, in_indent, in_info, in_run};
use crate::html::{
    in_block_angle, in_block_p, in_block_s, in_block_st, in_block_t, in_comment, in_pre,
};
use crate::lines::{at_start, in_front, in_head, in_prefix};
use crate::spans::{
    in_angle, in_closed, in_code, in_code_end, in_label, in_tag, in_tag_quote, in_target,
    in_target_quote, in_ticks,
};
use crate::state::Block::*;
use crate::state::Mode::*;
use crate::state::{
    Block, Fence, Mode, State, after_line, alone, begun, ended, in_mode, in_state, is_left, is_new,
    is_paragraph, new_line,
};
use html_pieces::bytes::{is_alpha, is_alphanumeric};

// The state in which a text begins.
pub(crate) const fn first_state() -> State
    ensures { result ≡ first_state }
{
    in_state(Head(0), New, false)
}

// Whether a line may begin with a byte as its text.
const fn begins_text(block: Block, byte: u8) -> bool
    ensures { result ≡ begins_text block byte }
{
    !is_left(block) && !is_opening(byte)
}

// Whether what may be a fence is text, with the byte after it.
#[tactic(auto, unfolding(crate::specs::States::reads))]
const fn is_no_fence(fence: Fence, block: Block, byte: u8) -> bool
    ensures { result ≡ reads (FenceRun fence) block byte }
{
    fence.byte == b'~'
        && fence.length < 3
        && byte != b'~'
        && !is_left(block)
        && !(3 < fence.indent && is_new(block))
}

// Whether a byte is read as in the midst of a text.
#[tactic(auto, unfolding(crate::specs::States::reads))]
pub(crate) const fn reads(mode: Mode, block: Block, byte: u8) -> bool
    ensures { result ≡ reads mode block byte }
{
    match mode {
        Plain => true,
        Escape => !is_punctuation(byte),
        CodeEnd(length, run) => length == run && byte != b'`',
        Angle => !(is_alpha(byte) || byte == b'!' || byte == b'/' || byte == b'?'),
        Bang => byte != b'[',
        Closed => !(byte == b'(' || byte == b':' || byte == b'['),
        Reference => !(is_alphanumeric(byte) || byte == b'#' || byte == b';'),
        Head(_) | Prefix(_) => begins_text(block, byte),
        Start(columns) => (columns < 4 || is_paragraph(block)) && begins_text(block, byte),
        FenceRun(fence) => is_no_fence(fence, block, byte),
        _ => false,
    }
}

// The state after a byte that is read so.
#[tactic(auto, unfolding(crate::specs::States::after_text))]
const fn after_text(block: Block, in_brackets: bool, byte: u8) -> State
    ensures { result ≡ after_text block in_brackets byte }
{
    match byte {
        b'\n' => new_line(after_line(block, in_brackets)),
        b'!' => in_state(Bang, block, in_brackets),
        b'&' => in_state(Reference, block, in_brackets),
        b'<' => in_state(Angle, block, in_brackets),
        b'[' => if in_brackets {
            alone(Rest, byte)
        } else {
            in_state(Plain, block, true)
        },
        b'\\' => in_state(Escape, block, in_brackets),
        b']' => in_state(Closed, block, false),
        b'`' => in_state(Ticks(1), block, in_brackets),
        _ => in_state(Plain, block, in_brackets),
    }
}

// A mode, or the rest of the line where a byte ends it.
const fn unless_line(state: State, byte: u8, mode: Mode) -> State
    ensures { result ≡ (if byte == 10 then alone Rest byte else in_mode state mode) }
{
    if byte == b'\n' {
        alone(Rest, byte)
    } else {
        in_mode(state, mode)
    }
}

// The state after a byte that is not read as text.
#[tactic(auto, unfolding(crate::specs::States::after_other))]
const fn after_other(state: State, byte: u8) -> State
    ensures { result ≡ after_other state.mode state byte }
{
    match state.mode {
        Plain | Escape => in_mode(state, Plain),
        Head(dashes) => in_head(dashes, byte),
        Front(dashes) => in_front(dashes, byte),
        FrontLine => if byte == b'\n' {
            in_state(Front(0), New, false)
        } else {
            in_mode(state, FrontLine)
        },
        Start(columns) => at_start(columns, state.block, byte),
        Prefix(columns) => in_prefix(columns, state.block, byte),
        Line => alone(state.block, byte),
        End => ended(),
        FenceRun(fence) => in_run(fence, state, byte),
        FenceInfo(fence) => in_info(fence, state, byte),
        FenceIndent(fence, columns) => in_indent(fence, columns, state, byte),
        FenceEndRun(fence, run, certain) => in_end_run(fence, run, certain, state, byte),
        FenceEnd(fence, certain) => in_end(fence, certain, state, byte),
        FenceText(fence) => if byte == b'\n' {
            in_mode(state, FenceIndent(fence, 0))
        } else {
            in_mode(state, FenceText(fence))
        },
        BlockAngle => in_block_angle(state, byte),
        BlockP => in_block_p(byte),
        BlockS => in_block_s(state, byte),
        BlockSt => in_block_st(byte),
        BlockT => in_block_t(byte),
        Comment(dashes) => in_comment(dashes, state, byte),
        Pre(n) => in_pre(n, state, byte),
        Ticks(length) => in_ticks(length, state, byte),
        Code(length) => in_code(length, state, byte),
        CodeEnd(length, run) => in_code_end(length, run, state, byte),
        Angle => in_angle(state, byte),
        Tag => in_tag(state, byte),
        TagQuote(quote) => in_tag_quote(quote, state, byte),
        Bang => if state.in_brackets {
            alone(Rest, byte)
        } else {
            in_mode(state, Label)
        },
        Closed => in_closed(state, byte),
        Target(depth) => in_target(depth, state, byte),
        TargetEscape(depth) => unless_line(state, byte, Target(depth)),
        TargetQuote(depth, quote) => in_target_quote(depth, quote, state, byte),
        Label => in_label(state, byte),
        LabelEscape => unless_line(state, byte, Label),
        Reference => if byte == b';' {
            in_mode(state, Plain)
        } else {
            in_mode(state, Reference)
        },
    }
}

// The state after a byte.
pub(crate) const fn next(state: State, byte: u8) -> State
    ensures { result ≡ next state byte }
{
    if reads(state.mode, state.block, byte) {
        after_text(begun(state.block), state.in_brackets, byte)
    } else {
        after_other(state, byte)
    }
}
