//! Tags as they are searched, and their codes.

ghost use Rattle.std.specs.Prelude.{◌≡◌, ◌<◌, ◌↔◌, ◌∷◌, ◌++◌, [], IfOk, IfSome, IsSome, OnOk, filter, length};
ghost use Rattle.hyphenation_breaks.specs.Language.{is_code, IsCode};
ghost use Rattle.language_search.specs.Private.Fronts.{PassesPlace};
ghost use Rattle.language_search.specs.Tags.{codes_of, fronts, searched, searched_byte};

use hyphenation_breaks::language::Language;
use hyphenation_breaks::laws::codes_are_text;
use std::alloc::{AllocError, Global};

// A byte of a tag as it is searched.
fn searched_byte(byte: u8) -> u8
    ensures { result ≡ searched_byte byte }
{
    if byte == b'_' {
        b'-'
    } else {
        byte.to_ascii_lowercase()
    }
}

// A tag as it is searched: in small letters, with hyphens for underscores.
fn searched_tag(alloc: Global, tag: &str) -> Result<Vec<u8>, AllocError>
    ensures { IfOk result (λ bytes. bytes.items ≡ searched tag.now) }
{
    tag.as_bytes()
        .iter()
        .map(|byte| searched_byte(*byte))
        .collect(alloc)
}

// The language whose code a text is; `None` if it is no code.
#[tactic(auto, using(crate::proofs::Codes::code_is_short))]
fn language_of(text: &[u8]) -> Option<Language>
    ensures if_code { IsSome result ↔ IsCode text.now }
    ensures code { IfSome result (λ language. language ≡ text.now) }
{
    // A longer text is no code, so long tags take linear time.
    if text.len() > 32 {
        return None;
    }
    codes_are_text();
    match std::str::from_utf8(text) {
        Ok(text) => Language::from_code(text),
        Err(_) => None,
    }
}

// Adds the language of a front, if that is a code.
fn push_front(languages: &mut Vec<Language>, front: &[u8]) -> Result<(), AllocError>
    ensures { OnOk result (languages.new.items ≡ languages.old.items ++ filter is_code (front.now ∷ [])) }
{
    if let Some(language) = language_of(front) {
        languages.push(language)?;
    }
    Ok(())
}

// Adds the language of the front that ends at a place, if a hyphen is there and the front is a code.
fn push_front_before(
    languages: &mut Vec<Language>,
    tag: &[u8],
    place: usize,
) -> Result<(), AllocError>
    requires { place < length tag.now }
    ensures { OnOk result (PassesPlace tag.now place languages.old.items languages.new.items) }
{
    if tag[place] != b'-' {
        return Ok(());
    }
    push_front(languages, &tag[..place])?;
    Ok(())
}

// The languages of the fronts that are codes.
fn languages_of(alloc: Global, tag: &[u8]) -> Result<Vec<Language>, AllocError>
    ensures { IfOk result (λ languages. languages.items ≡ filter is_code (fronts tag.now)) }
{
    let mut languages = Vec::new(alloc);
    push_front(&mut languages, tag)?;
    for place in (0..tag.len()).rev() {
        push_front_before(&mut languages, tag, place)?;
    }
    Ok(languages)
}

/// Returns the languages of a tag, from the whole tag to its first part: those of its fronts that are codes.
///
/// The tag is read in small letters, and `_` as `-`. Its fronts are the tag itself and what is before each of its
/// hyphens. The error says that memory was refused.
///
/// ```text
/// codes_of(alloc, "de_CH-1901")?      // de-ch-1901, de-ch, de
/// codes_of(alloc, "fr.UTF-8")?        // none
/// ```
pub fn codes_of(alloc: Global, tag: &str) -> Result<Vec<Language>, AllocError>
    ensures { IfOk result (λ languages. languages.items ≡ codes_of tag.now) }
{
    let tag = searched_tag(alloc, tag)?;
    languages_of(alloc, &tag)
}
