//! The languages that a page names.

ghost use Rattle.std.specs.Prelude.{◌≡◌, ◌++◌, ◌∷◌, [], map, IfOk, OnOk};
ghost use Rattle.std.specs.Option.{option_map};
ghost use Rattle.std.specs.String.{string_bytes};
ghost use Rattle.html_pieces.specs.Languages.{language_named, with_language, with_named, with_those_of};
ghost use Rattle.html_pieces.specs.Pieces.{as_piece};
ghost use Rattle.html_pieces.specs.Private.Languages.{as_language, HasThese};

use crate::bytes::PageForm;
use crate::elements::{LanguageValue, language_by, language_value};
use crate::forms::is_start;
use crate::references::read;
use crate::tags::attributes;
use crate::tokenizer::Piece;
use std::alloc::{AllocError, Global};
use std::collections::BTreeSet;

// The language that a piece names.
fn language_named<'t>(
    alloc: Global,
    form: PageForm,
    piece: Piece<'t>,
) -> Result<Option<LanguageValue<'t>>, AllocError>
    ensures { IfOk result (λ named. option_map as_language named ≡ language_named form (as_piece piece.entry)) }
{
    if !is_start(piece.kind) {
        return Ok(None);
    }
    let attributes = attributes(alloc, form, piece.text.as_bytes())?;
    match language_value(form, &attributes) {
        Some(value) => Ok(Some(language_by(value))),
        None => Ok(None),
    }
}

// Appends a language to those so far, if it is there not yet.
fn push_language(
    all: &mut Vec<String>,
    set: &mut BTreeSet<String>,
    alloc: Global,
    language: &[u8],
) -> Result<(), AllocError>
    requires { HasThese all.old.items set.old }
    ensures pushed { OnOk result (map string_bytes all.new.items ≡ with_language (map string_bytes all.old.items) language.now) }
    ensures these { OnOk result (HasThese all.new.items set.new) }
{
    match std::str::from_utf8(language) {
        Ok(language) => {
            if set.contains(language) {
                return Ok(());
            }
            all.push(String::from_str(alloc, language)?)?;
            set.insert(String::from_str(alloc, language)?)?;
            Ok(())
        }
        Err(_) => Ok(()),
    }
}

// Appends a language that may be named to those so far, with its references read.
fn push_named(
    all: &mut Vec<String>,
    set: &mut BTreeSet<String>,
    alloc: Global,
    named: Option<LanguageValue<'_>>,
) -> Result<(), AllocError>
    requires { HasThese all.old.items set.old }
    ensures pushed { OnOk result (map string_bytes all.new.items
        ≡ with_named (map string_bytes all.old.items) (option_map as_language named.entry)) }
    ensures these { OnOk result (HasThese all.new.items set.new) }
{
    match named {
        None => Ok(()),
        Some(language) => {
            if language.has_references {
                let language = read(alloc, language.written)?;
                push_language(all, set, alloc, &language)
            } else {
                push_language(all, set, alloc, language.written)
            }
        }
    }
}

/// Returns the languages that the pieces of a page name, each once, in the order in which they name them first.
///
/// A start tag names the language of its attribute `lang`, in XML that of `xml:lang` or else `lang`, with character
/// references read. The error says that memory was refused.
pub fn languages_of_pieces(
    alloc: Global,
    form: PageForm,
    pieces: &[Piece<'_>],
) -> Result<Vec<String>, AllocError>
    ensures { IfOk result (λ languages. map string_bytes languages.items
        ≡ with_those_of form [] (map as_piece pieces.now)) }
{
    let mut all = Vec::new(alloc);
    let mut set = BTreeSet::new(alloc);
    for piece in pieces {
        let named = language_named(alloc, form, *piece)?;
        push_named(&mut all, &mut set, alloc, named)?;
    }
    Ok(all)
}
