//! Code in fences.

ghost use Rattle.std.specs.Prelude.{◌≡◌, ◌+◌, nat_lt};
ghost use Rattle.markdown_pieces.specs.States.{has_no_span, in_info, in_run, ends_fence, in_indent, after_fence, in_end_run, in_end};

use crate::state::Block::*;
use crate::state::Mode::*;
use crate::state::{
    Fence, State, alone, begun, ended, in_mode, in_state, is_html, is_left, is_new, more, new_line,
    tabbed,
};

// Whether no code span can be where a fence may be.
const fn has_no_span(fence: Fence, state: State) -> bool
    ensures { result ≡ has_no_span fence state.block }
{
    is_left(state.block) || 3 < fence.indent && is_new(state.block)
}

// After the run of a fence.
pub(crate) const fn in_info(fence: Fence, state: State, byte: u8) -> State
    ensures { result ≡ in_info fence state byte }
{
    if byte == b'\n' {
        if is_html(state.block) {
            ended()
        } else {
            in_mode(state, FenceIndent(fence, 0))
        }
    } else if byte == b'`' && fence.byte == b'`' {
        if has_no_span(fence, state) {
            alone(Rest, byte)
        } else {
            in_state(CodeEnd(fence.length, 1), begun(state.block), false)
        }
    } else {
        in_mode(state, FenceInfo(fence))
    }
}

// In what may be the run of a fence.
#[tactic(auto, unfolding(crate::specs::States::in_run))]
pub(crate) const fn in_run(fence: Fence, state: State, byte: u8) -> State
    ensures { result ≡ in_run fence state byte }
{
    if byte == fence.byte {
        let longer = Fence {
            byte: fence.byte,
            length: more(fence.length),
            indent: fence.indent,
        };
        in_mode(state, FenceRun(longer))
    } else if 2 < fence.length {
        in_info(fence, state, byte)
    } else if has_no_span(fence, state) {
        alone(state.block, byte)
    } else if byte == b'\n' {
        new_line(Rest)
    } else {
        in_state(Code(fence.length), begun(state.block), false)
    }
}

// Whether a line of some columns ends some code for certain, if it may end it.
const fn ends_fence(fence: Fence, columns: u8) -> bool
    ensures { result ≡ ends_fence fence columns }
{
    columns == fence.indent || fence.indent == 0
}

// Whether a line of some columns may end some code.
const fn may_end(fence: Fence, columns: u8) -> bool
    ensures { result ≡ nat_lt columns (fence.indent + 4) }
{
    (columns as u16) < (fence.indent as u16) + 4
}

// At the beginning of a line of code, after some columns.
#[tactic(auto, unfolding(crate::specs::States::in_indent))]
pub(crate) const fn in_indent(fence: Fence, columns: u8, state: State, byte: u8) -> State
    ensures { result ≡ in_indent fence columns state byte }
{
    if byte == b'\n' {
        in_mode(state, FenceIndent(fence, 0))
    } else if byte == b' ' {
        in_mode(state, FenceIndent(fence, more(columns)))
    } else if byte == b'\t' {
        in_mode(state, FenceIndent(fence, tabbed(columns)))
    } else if byte == b'\r' {
        in_mode(state, FenceIndent(fence, columns))
    } else if columns < fence.indent {
        ended()
    } else if byte == fence.byte && may_end(fence, columns) {
        in_mode(state, FenceEndRun(fence, 1, ends_fence(fence, columns)))
    } else {
        in_mode(state, FenceText(fence))
    }
}

// After the line that ends some code.
const fn after_fence(certain: bool) -> State
    ensures { result ≡ after_fence certain }
{
    if certain { new_line(New) } else { ended() }
}

// Within a run that may end some code.
#[tactic(auto, unfolding(crate::specs::States::in_end_run))]
pub(crate) const fn in_end_run(
    fence: Fence,
    run: u8,
    certain: bool,
    state: State,
    byte: u8,
) -> State
    ensures { result ≡ in_end_run fence run certain state byte }
{
    if byte == fence.byte {
        in_mode(state, FenceEndRun(fence, more(run), certain))
    } else if run < fence.length {
        if byte == b'\n' {
            in_mode(state, FenceIndent(fence, 0))
        } else {
            in_mode(state, FenceText(fence))
        }
    } else {
        in_end(fence, certain, state, byte)
    }
}

// After a run that ends some code, if no more than white space follows.
#[tactic(auto, unfolding(crate::specs::States::in_end))]
pub(crate) const fn in_end(fence: Fence, certain: bool, state: State, byte: u8) -> State
    ensures { result ≡ in_end fence certain state byte }
{
    if byte == b'\n' {
        after_fence(certain)
    } else if byte == b'\t' || byte == b'\r' || byte == b' ' {
        in_mode(state, FenceEnd(fence, certain))
    } else {
        in_mode(state, FenceText(fence))
    }
}
