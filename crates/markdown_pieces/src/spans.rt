//! Code spans, tags, links and images.

ghost use Rattle.std.specs.Prelude.{◌≡◌};
ghost use Rattle.markdown_pieces.specs.States.{may_hold_code, in_angle, in_code, in_ticks, in_code_end, in_tag};
ghost use Rattle.markdown_pieces.specs.States.{in_tag_quote, in_closed, in_target, in_target_quote, in_label};

use crate::state::Block::*;
use crate::state::Mode::*;
use crate::state::{State, alone, in_mode, more};

// Whether a tag that begins with a letter may be of an element whose text is code or the like.
const fn may_hold_code(letter: u8) -> bool
    ensures { result ≡ may_hold_code letter }
{
    letter == b'c'
        || b'k' <= letter && letter <= b'p'
        || letter == b's'
        || letter == b't'
        || letter == b'v'
        || letter == b'x'
}

// After a `<` that begins a tag, an autolink or a declaration.
pub(crate) const fn in_angle(state: State, byte: u8) -> State
    ensures { result ≡ in_angle state byte }
{
    if byte == b'!' || byte == b'?' || may_hold_code(byte.to_ascii_lowercase()) {
        alone(Rest, byte)
    } else {
        in_mode(state, Tag)
    }
}

// In a code span.
pub(crate) const fn in_code(length: u8, state: State, byte: u8) -> State
    ensures { result ≡ in_code length state byte }
{
    match byte {
        b'\n' => alone(Rest, byte),
        b'`' => in_mode(state, CodeEnd(length, 1)),
        _ => in_mode(state, Code(length)),
    }
}

// In the run that begins a code span.
pub(crate) const fn in_ticks(length: u8, state: State, byte: u8) -> State
    ensures { result ≡ in_ticks length state byte }
{
    if byte == b'`' {
        in_mode(state, Ticks(more(length)))
    } else {
        in_code(length, state, byte)
    }
}

// In a run that ends no code span yet.
pub(crate) const fn in_code_end(length: u8, run: u8, state: State, byte: u8) -> State
    ensures { result ≡ in_code_end length run state byte }
{
    if byte == b'`' {
        in_mode(state, CodeEnd(length, more(run)))
    } else {
        in_code(length, state, byte)
    }
}

// In a tag or an autolink.
pub(crate) const fn in_tag(state: State, byte: u8) -> State
    ensures { result ≡ in_tag state byte }
{
    match byte {
        b'>' => in_mode(state, Plain),
        b'"' | b'\'' => in_mode(state, TagQuote(byte)),
        b'\n' | b'<' | b']' | b'`' => alone(Rest, byte),
        _ => in_mode(state, Tag),
    }
}

// In a value in quotes.
pub(crate) const fn in_tag_quote(quote: u8, state: State, byte: u8) -> State
    ensures { result ≡ in_tag_quote quote state byte }
{
    if byte == quote {
        return in_mode(state, Tag);
    }
    match byte {
        b'\n' | b'<' | b'>' | b']' | b'`' => alone(Rest, byte),
        _ => in_mode(state, TagQuote(quote)),
    }
}

// After `]`.
pub(crate) const fn in_closed(state: State, byte: u8) -> State
    ensures { result ≡ in_closed state byte }
{
    match byte {
        b'(' => in_mode(state, Target(0)),
        b'[' => in_mode(state, Label),
        _ => alone(Rest, byte),
    }
}

// In the target of a link.
#[tactic(auto, unfolding(crate::specs::States::in_target))]
pub(crate) const fn in_target(depth: u8, state: State, byte: u8) -> State
    ensures { result ≡ in_target depth state byte }
{
    if byte == b')' {
        if depth == 0 {
            in_mode(state, Plain)
        } else {
            in_mode(state, Target(depth - 1))
        }
    } else if byte == b'(' && depth < 255 {
        in_mode(state, Target(more(depth)))
    } else if byte == b'\\' {
        in_mode(state, TargetEscape(depth))
    } else if byte == b'"' || byte == b'\'' {
        in_mode(state, TargetQuote(depth, byte))
    } else if byte == b'\n'
        || byte == b'('
        || byte == b'<'
        || byte == b'['
        || byte == b']'
        || byte == b'`'
    {
        alone(Rest, byte)
    } else {
        in_mode(state, Target(depth))
    }
}

// In the title of a link.
pub(crate) const fn in_target_quote(depth: u8, quote: u8, state: State, byte: u8) -> State
    ensures { result ≡ in_target_quote depth quote state byte }
{
    if byte == quote {
        return in_mode(state, Target(depth));
    }
    match byte {
        b'\n' | b'<' | b'[' | b'\\' | b']' | b'`' => alone(Rest, byte),
        _ => in_mode(state, TargetQuote(depth, quote)),
    }
}

// In a label.
pub(crate) const fn in_label(state: State, byte: u8) -> State
    ensures { result ≡ in_label state byte }
{
    match byte {
        b']' => in_mode(state, Closed),
        b'\\' => in_mode(state, LabelEscape),
        b'\n' | b'<' | b'[' | b'`' => alone(Rest, byte),
        _ => in_mode(state, Label),
    }
}
