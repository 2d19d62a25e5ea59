//! HTML that begins a line.

ghost use Rattle.std.specs.Prelude.{◌≡◌};
ghost use Rattle.markdown_pieces.specs.States.{in_block_angle, in_block_p, in_block_s, in_block_st, in_block_t, in_comment, pre_end, in_pre};

use crate::state::Block::*;
use crate::state::Mode::*;
use crate::state::{State, alone, ended, in_mode, in_state, more};

// After a `<` that begins a line.
pub(crate) const fn in_block_angle(state: State, byte: u8) -> State
    ensures { result ≡ in_block_angle state byte }
{
    match byte {
        b'!' => in_state(Comment(0), Html, false),
        b'?' => ended(),
        b'P' | b'p' => in_mode(state, BlockP),
        b'S' | b's' => in_mode(state, BlockS),
        b'T' | b't' => in_mode(state, BlockT),
        _ => alone(Html, byte),
    }
}

// After `<p`.
pub(crate) const fn in_block_p(byte: u8) -> State
    ensures { result ≡ in_block_p byte }
{
    match byte {
        b'R' | b'r' => in_state(Pre(0), Html, false),
        _ => alone(Html, byte),
    }
}

// After `<s`.
pub(crate) const fn in_block_s(state: State, byte: u8) -> State
    ensures { result ≡ in_block_s state byte }
{
    match byte {
        b'C' | b'c' => ended(),
        b'T' | b't' => in_mode(state, BlockSt),
        _ => alone(Html, byte),
    }
}

// After `<st`.
pub(crate) const fn in_block_st(byte: u8) -> State
    ensures { result ≡ in_block_st byte }
{
    match byte {
        b'Y' | b'y' => ended(),
        _ => alone(Html, byte),
    }
}

// After `<t`.
pub(crate) const fn in_block_t(byte: u8) -> State
    ensures { result ≡ in_block_t byte }
{
    match byte {
        b'E' | b'e' => ended(),
        _ => alone(Html, byte),
    }
}

// In a comment, after some dashes.
pub(crate) const fn in_comment(dashes: u8, state: State, byte: u8) -> State
    ensures { result ≡ in_comment dashes state byte }
{
    if byte == b'-' {
        in_mode(state, Comment(if dashes == 0 { 1 } else { 2 }))
    } else if byte == b'>' && dashes == 2 {
        in_state(Line, Html, false)
    } else {
        in_mode(state, Comment(0))
    }
}

// A byte of the end tag of `pre`.
const fn pre_end(n: u8) -> u8
    ensures { result ≡ pre_end n }
{
    match n {
        0 => b'<',
        1 => b'/',
        2 => b'p',
        3 => b'r',
        4 => b'e',
        _ => b'>',
    }
}

// In the element `pre`, after some bytes of its end tag.
#[tactic(auto, unfolding(crate::specs::States::in_pre))]
pub(crate) const fn in_pre(n: u8, state: State, byte: u8) -> State
    ensures { result ≡ in_pre n state byte }
{
    if byte.to_ascii_lowercase() == pre_end(n) {
        if n < 5 {
            in_mode(state, Pre(more(n)))
        } else {
            in_state(Line, Html, false)
        }
    } else if byte == b'<' {
        in_mode(state, Pre(1))
    } else {
        in_mode(state, Pre(0))
    }
}
