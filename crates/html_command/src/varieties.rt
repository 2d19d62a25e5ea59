//! Varieties of a language, by their codes.

ghost use Rattle.std.specs.Prelude.{◌≡◌, ◌==◌, IfOk};
ghost use Rattle.std.specs.List.{list_any, slice_split};
ghost use Rattle.hyphenation_breaks.specs.Borrowed.{texts_now};
ghost use Rattle.html_command.specs.Varieties.{are_other_varieties, are_rivals, are_varieties, have_rivals, parts_of};

use hyphenation_breaks::language::Language;
use std::alloc::{AllocError, Global};

// Returns the parts of a code.
fn parts_of(alloc: Global, code: &[u8]) -> Result<Vec<&[u8]>, AllocError>
    ensures { IfOk result (λ parts. texts_now parts.items ≡ parts_of code.now) }
{
    code.split(|byte| *byte == b'-').collect(alloc)
}

// Reports whether two parts are equally long, and not the same.
fn are_rivals(one: &[u8], other: &[u8]) -> bool
    ensures { result ≡ are_rivals one.now other.now }
{
    one.len() == other.len() && one != other
}

// Reports whether a part is a rival of one of some others.
fn has_rival(part: &[u8], others: &[&[u8]]) -> bool
    ensures { result ≡ list_any (λ other. are_rivals part.now other.now) others.now }
{
    others.iter().any(|other| are_rivals(part, *other))
}

// Reports whether one of some parts is a rival of one of some others.
fn have_rivals(parts: &[&[u8]], others: &[&[u8]]) -> bool
    ensures { result ≡ list_any (λ part. list_any (λ other. are_rivals part.now other.now) others.now) parts.now }
{
    parts.iter().any(|part| has_rival(*part, others))
}

// Reports whether the parts of two codes are those of two varieties of one language.
#[tactic(auto, using(crate::proofs::Rivals::rivals_there))]
fn are_varieties(parts: &[&[u8]], others: &[&[u8]]) -> bool
    ensures { result ≡ are_varieties (texts_now parts.now) (texts_now others.now) }
{
    match parts {
        [] => false,
        [one, parts @ ..] => match others {
            [] => false,
            [other, others @ ..] => *one == *other && have_rivals(parts, others),
        },
    }
}

/// Reports whether two codes are those of two varieties of one language.
///
/// ```text
/// are_other_varieties(alloc, &Language::from_code("en-gb").unwrap(), &Language::english_us())?     // true
/// ```
pub fn are_other_varieties(
    alloc: Global,
    code: &Language,
    other: &Language,
) -> Result<bool, AllocError>
    ensures { IfOk result (λ are. are ≡ are_other_varieties code.now other.now) }
{
    let parts = parts_of(alloc, code.code().as_bytes())?;
    let others = parts_of(alloc, other.code().as_bytes())?;
    Ok(are_varieties(&parts, &others))
}
