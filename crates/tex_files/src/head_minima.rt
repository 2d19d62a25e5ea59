//! The least numbers of characters around a break, as the heads of TeX files have them.
//!
//! ```text
//! % hyphenmins:
//! %     generation:         these minima are for the making of patterns, and count nowhere
//! %         left: 1
//! %         right: 1
//! %     typesetting:
//! %         left: 2         at least two characters before a break
//! %         right: 3        at least three after it
//! ```

ghost use Rattle.std.specs.Prelude.{◌≡◌, ◌<◌, ◌∷◌, [], length, option_map, IfNone, IfSome, IsSome};
ghost use Rattle.hyphenation_grammar.specs.Lines.{number_to_255};
ghost use Rattle.tex_files.specs.Heads.{trimmed, comment_of, comments_in, part_of, value_of, is_minimum, first_minimum};
ghost use Rattle.tex_files.specs.Heads.{head_minimum, minimum_in_heads, minimum_for, minima_for};

use crate::group::File;
use hyphenation_grammar::lines::{first_token, next_line, number_of, strip_prefix};

// A text without ASCII white space at its ends.
fn trimmed(text: &[u8]) -> &[u8]
    ensures { result.now ≡ trimmed text.now }
{
    text.trim_ascii()
}

// The text of a comment, without white space around it. None if the line is no comment.
fn comment_of(line: &[u8]) -> Option<&[u8]>
    ensures { option_map (λ comment. comment.now) result ≡ comment_of line.now }
{
    match strip_prefix(b"%", line) {
        Some(comment) => Some(trimmed(comment)),
        None => None,
    }
}

// The first comment of a text, and the text after its line. None if the text has no comment.
fn next_comment(text: &[u8]) -> Option<(&[u8], &[u8])>
    ensures none { IfNone result (comments_in text.now ≡ []) }
    ensures first { IfSome result (λ x. comments_in text.now ≡ x.0.now ∷ comments_in x.1.now) }
    ensures shorter { IfSome result (λ x. length x.1.now < length text.now) }
{
    let mut rest = text;
    while let Some((line, others)) = next_line(rest) {
        if let Some(comment) = comment_of(line) {
            return Some((comment, others));
        }
        rest = others;
    }
    None
}

// The text after the first comment that is this name. Its comments are the part with that name, and more may follow.
fn part_of<'t>(name: &[u8], text: &'t [u8]) -> &'t [u8]
    ensures { comments_in result.now ≡ part_of name.now (comments_in text.now) }
{
    let mut rest = text;
    while let Some((comment, others)) = next_comment(rest) {
        if comment == name {
            return others;
        }
        rest = others;
    }
    rest
}

// The number from 0 to 255 that a text spells.
fn number_to_255(text: &[u8]) -> Option<u8>
    ensures { result ≡ number_to_255 text.now }
{
    let number = number_of(text)?;
    u8::try_from(number).ok()
}

// The number after a name, in a comment. A remark may follow after a space.
fn value_of(name: &[u8], comment: &[u8]) -> Option<u8>
    ensures { result ≡ value_of name.now comment.now }
{
    let text = strip_prefix(name, comment)?;
    let (number, _remark) = first_token(trimmed(text));
    number_to_255(number)
}

// Whether a comment is the left minimum or the right one.
fn is_minimum(comment: &[u8]) -> bool
    ensures { result ≡ is_minimum comment.now }
{
    value_of(b"left:", comment).is_some() || value_of(b"right:", comment).is_some()
}

// The first minimum with that name among those that the comments of a text begin with.
fn first_minimum(name: &[u8], text: &[u8]) -> Option<u8>
    ensures { result ≡ first_minimum name.now (comments_in text.now) }
{
    let mut rest = text;
    while let Some((comment, others)) = next_comment(rest) {
        if !is_minimum(comment) {
            return None;
        }
        if let Some(value) = value_of(name, comment) {
            return Some(value);
        }
        rest = others;
    }
    None
}

// The minimum with that name in the head of a file.
fn head_minimum(name: &[u8], bytes: &[u8]) -> Option<u8>
    ensures { result ≡ head_minimum name.now bytes.now }
{
    let minima = part_of(b"hyphenmins:", bytes);
    first_minimum(name, part_of(b"typesetting:", minima))
}

// The minimum with that name in the first file whose head has it.
fn minimum_in_heads(name: &[u8], files: &[File<'_>]) -> Option<u8>
    ensures { result ≡ minimum_in_heads name.now files.now }
{
    for file in files {
        if let Some(minimum) = head_minimum(name, file.bytes) {
            return Some(minimum);
        }
    }
    None
}

// The given minimum, or else the one in the heads.
fn minimum_for(name: &[u8], given: Option<u8>, files: &[File<'_>]) -> Option<u8>
    ensures { result ≡ minimum_for name.now given files.now }
{
    match given {
        Some(minimum) => Some(minimum),
        None => minimum_in_heads(name, files),
    }
}

/// Returns the least numbers of characters before and after a break. Each is the given one, or else that of the first
/// file whose head has it. None if one of the two is neither given nor in a head.
#[tactic(auto, unfolding(crate::specs::Heads::minima_for))]
pub fn minima_for(left: Option<u8>, right: Option<u8>, files: &[File<'_>]) -> Option<(u8, u8)>
    ensures exact { result ≡ minima_for left right files.now }
    ensures some_if_both_given { IsSome left → IsSome right → IsSome result }
    ensures left_if_given { IfSome result (λ minima. IfSome left (λ given. minima.0 ≡ given)) }
    ensures right_if_given { IfSome result (λ minima. IfSome right (λ given. minima.1 ≡ given)) }
{
    let least_left = minimum_for(b"left:", left, files)?;
    let least_right = minimum_for(b"right:", right, files)?;
    Some((least_left, least_right))
}
