//! The attributes of tags.

ghost use Rattle.std.specs.Prelude.{◌≡◌, ◌++◌, ◌∷◌, [], ◌<◌, ◌≤◌, false, IsTrue, if◌then◌else◌, length, slice_index, slice_range, map, IfOk, OnOk};
ghost use Rattle.std.specs.Option.{option_map, unwrap_or};
ghost use Rattle.html_pieces.specs.Pieces.{next};
ghost use Rattle.html_pieces.specs.declared.tokenizer.State.TheVariants.{TagEnd};
ghost use Rattle.html_pieces.specs.Tags.{Appends, as_attribute, attributes_of, is_name, is_unquoted, is_value, attribute_name_after};
ghost use Rattle.html_pieces.specs.Tags.{attribute_value_after, read, ended, value_of};
ghost use Rattle.html_pieces.specs.Private.Parts.{EndsAt};
ghost use Rattle.html_pieces.specs.Private.Quiet.{AreQuiet};

use crate::bytes::{PageForm, is_same_in};
use crate::tokenizer::{State, after_quiet, is_quiet, next};
use std::alloc::{AllocError, Global};

/// An attribute of a tag, as it is written.
#[derive(Clone, Copy, Debug, PartialEq, Eq)]
pub struct Attribute<'t> {
    pub name: &'t [u8],
    pub value: &'t [u8],
}

const fn is_name(state: State) -> bool
    ensures { result ≡ is_name state }
{
    matches!(state, State::AttributeName)
}

const fn is_unquoted(state: State) -> bool
    ensures { result ≡ is_unquoted state }
{
    matches!(state, State::UnquotedValue)
}

const fn is_value(state: State) -> bool
    ensures { result ≡ is_value state }
{
    matches!(
        state,
        State::DoubleQuotedValue | State::SingleQuotedValue | State::UnquotedValue
    )
}

// The name of the attribute that is being read, after a byte.
fn attribute_name_after<'t>(
    tag: &'t [u8],
    i: usize,
    state: State,
    after: State,
    name: &'t [u8],
) -> &'t [u8]
    requires within { i < length tag.now }
    requires part { IsTrue (is_name state) → EndsAt tag.now name.now i }
    ensures { result.now ≡ attribute_name_after state after name.entry.now (slice_index tag.now i) }
{
    if !is_name(after) {
        name
    } else if is_name(state) {
        &tag[i - name.len()..i + 1]
    } else {
        &tag[i..i + 1]
    }
}

// Its value, after a byte.
fn attribute_value_after<'t>(
    tag: &'t [u8],
    i: usize,
    state: State,
    after: State,
    value: &'t [u8],
) -> &'t [u8]
    requires within { i < length tag.now }
    requires part { IsTrue (is_value state) → EndsAt tag.now value.now i }
    ensures { result.now ≡ attribute_value_after state after value.entry.now (slice_index tag.now i) }
{
    if is_name(after) {
        &[]
    } else if !is_value(after) {
        value
    } else if is_value(state) {
        &tag[i - value.len()..i + 1]
    } else if is_unquoted(after) {
        &tag[i..i + 1]
    } else {
        &[]
    }
}

// Appends the attribute that has been read, if one has begun.
fn push_read<'t>(
    attributes: &mut Vec<Attribute<'t>>,
    name: &'t [u8],
    value: &'t [u8],
) -> Result<(), AllocError>
    ensures { OnOk result (Appends attributes.old.items attributes.new.items (read name.entry.now value.entry.now)) }
{
    if !name.is_empty() {
        attributes.push(Attribute { name, value })?;
    }
    Ok(())
}

// Appends the attribute that ends where another one begins.
fn push_ended<'t>(
    attributes: &mut Vec<Attribute<'t>>,
    state: State,
    after: State,
    name: &'t [u8],
    value: &'t [u8],
) -> Result<(), AllocError>
    ensures { OnOk result (Appends attributes.old.items attributes.new.items
        (ended state after name.entry.now value.entry.now)) }
{
    if is_name(after) && !is_name(state) {
        push_read(attributes, name, value)?;
    }
    Ok(())
}

// The state after a byte of a tag; at its end, that of a tag that ended.
fn next_in_tag(form: PageForm, state: State, byte: u8) -> State
    ensures { result ≡ unwrap_or (next form false state [] byte) TagEnd }
{
    if is_quiet(state, byte) {
        state
    } else {
        next(form, false, state, &[], byte).unwrap_or(State::TagEnd)
    }
}

// The first place from one on whose byte may end a value; outside of values the place where it is asked.
#[tactic(auto, using(crate::proofs::QuietSteps::none_passed))]
fn after_value(state: State, tag: &[u8], from: usize) -> usize
    requires { from ≤ length tag.now }
    ensures passed { from ≤ result }
    ensures within { result ≤ length tag.now }
    ensures quiet { AreQuiet state tag.now from result }
    ensures kept { is_value state ≡ false → result ≡ from }
{
    if is_value(state) {
        after_quiet(state, tag, from)
    } else {
        from
    }
}

// The value that is being read, after more bytes of it.
fn value_past<'t>(tag: &'t [u8], from: usize, to: usize, state: State, value: &'t [u8]) -> &'t [u8]
    requires order { from ≤ to }
    requires within { to ≤ length tag.now }
    requires part { IsTrue (is_value state) → EndsAt tag.now value.now from }
    ensures { result.now ≡ (if is_value state then value.entry.now ++ slice_range tag.now from to else value.entry.now) }
{
    if is_value(state) {
        &tag[from - value.len()..to]
    } else {
        value
    }
}

/// Returns the attributes of a tag, in order, as they are written.
///
/// The only error is that memory was refused.
pub fn attributes(
    alloc: Global,
    form: PageForm,
    tag: &[u8],
) -> Result<Vec<Attribute<'_>>, AllocError>
    ensures { IfOk result (λ attributes. map as_attribute attributes.items ≡ attributes_of form tag.now) }
{
    let mut attributes = Vec::new(alloc);
    let mut state = State::TagOpen;
    let mut name: &[u8] = &[];
    let mut value: &[u8] = &[];
    let mut i = 1;
    while i < tag.len() {
        let after = next_in_tag(form, state, tag[i]);
        push_ended(&mut attributes, state, after, name, value)?;
        name = attribute_name_after(tag, i, state, after, name);
        value = attribute_value_after(tag, i, state, after, value);
        let end = after_value(after, tag, i + 1);
        value = value_past(tag, i + 1, end, after, value);
        state = after;
        i = end;
    }
    push_read(&mut attributes, name, value)?;
    Ok(attributes)
}

/// Returns the value of the first attribute of a name.
pub fn value_of<'t>(form: PageForm, attributes: &[Attribute<'t>], name: &[u8]) -> Option<&'t [u8]>
    ensures { option_map (λ value. value.now) result ≡ value_of form name.now (map as_attribute attributes.now) }
{
    for attribute in attributes {
        if is_same_in(form, attribute.name, name) {
            return Some(attribute.value);
        }
    }
    None
}
