//! The lines of a whole text.

ghost use Rattle.std.specs.Prelude.{◌≡◌, [], ◌∷◌, ◌++◌, IfOk, IfErr, OnOk, map};
ghost use Rattle.std.specs.String.{string_bytes};
ghost use Rattle.paragraphs.specs.Pages.{HasTooLong, IsPage};
ghost use Rattle.paragraphs.specs.Private.Added.{texts_of as texts, AddsLines};
ghost use Rattle.paragraphs.specs.Settings.{IsTooLong};
ghost use Rattle.paragraphs.specs.Styles.{style_of};
ghost use Rattle.paragraphs.specs.Parts.{parts_of};
ghost use Rattle.paragraphs.specs.Paragraphs.{paragraphs};
ghost use Rattle.paragraphs.specs.Words.{words};

use crate::gathering::paragraphs_of;
use crate::setting::Aim;
use crate::style::Style;
use crate::text::{FillError, fill};
use hyphenation_hyphenator::hyphenator::Hyphenator;
use std::alloc::{AllocError, Global};

// Appends an empty line.
fn push_empty_line(alloc: Global, page: &mut Vec<String>) -> Result<(), AllocError>
    ensures { OnOk result (texts page.new.items ≡ texts page.old.items ++ [] ∷ []) }
{
    page.push(String::new(alloc))?;
    Ok(())
}

// Appends the lines of a paragraph.
fn push_lines<'h, H: Hyphenator<'h>>(
    alloc: Global,
    dictionary: &'h H,
    style: &Style,
    text: &str,
    columns: u16,
    aim: Aim,
    page: &mut Vec<String>,
) -> Result<(), FillError>
    ensures lines { OnOk result (AddsLines aim (H.breaks_of dictionary.now) (style_of style.now) columns text.now
        (texts page.old.items) (texts page.new.items)) }
    ensures too_long { IfErr result (λ e. e ≡ FillError.TooLong →
        IsTooLong (parts_of (H.breaks_of dictionary.now) (style_of style.now) (words text.now))) }
{
    let mut lines = fill(alloc, dictionary, style, text, columns, aim)?;
    page.append(&mut lines)?;
    Ok(())
}

/// Returns the lines of all paragraphs of a text, with an empty line between two of them.
///
/// A paragraph ends at a line without a word. [`fill`] says which lines a paragraph has.
///
/// The error says that memory was refused, or that one of the paragraphs is too long. It then has 2^30 parts, or a text
/// of one of them has 2^31 bytes.
///
/// ```text
/// let style = Style { first: "", indent: "", price: 0 };
/// fill_text(alloc, &dictionary, &style, "one\ntwo\n\nthree", 8, Aim::Full)?      // "one two", "", "three"
/// ```
pub fn fill_text<'h, H: Hyphenator<'h>>(
    alloc: Global,
    dictionary: &'h H,
    style: &Style,
    text: &str,
    columns: u16,
    aim: Aim,
) -> Result<Vec<String>, FillError>
    ensures page { IfOk result (λ page.
        IsPage aim (H.breaks_of dictionary.now) (style_of style.now) columns text.now (map string_bytes page.items)) }
    ensures too_long { IfErr result (λ e. e ≡ FillError.TooLong →
        HasTooLong (H.breaks_of dictionary.now) (style_of style.now) (paragraphs text.now)) }
{
    let paragraphs = paragraphs_of(alloc, text)?;
    let mut page = Vec::new(alloc);
    let Some((first, others)) = paragraphs.split_first() else {
        return Ok(page);
    };
    push_lines(alloc, dictionary, style, first, columns, aim, &mut page)?;
    for paragraph in others {
        push_empty_line(alloc, &mut page)?;
        push_lines(alloc, dictionary, style, paragraph, columns, aim, &mut page)?;
    }
    Ok(page)
}
