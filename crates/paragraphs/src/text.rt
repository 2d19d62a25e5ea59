//! The parts of a paragraph, and its lines.

ghost use Rattle.std.specs.Prelude.{◌≡◌, ◌<◌, IfOk, IfErr, OnOk, length, map};
ghost use Rattle.std.specs.String.{string_bytes};
ghost use Rattle.paragraphs.specs.Aims.{IsSet};
ghost use Rattle.paragraphs.specs.declared.setting.Aim.TheVariants.{Full, Even};
ghost use Rattle.paragraphs.specs.Pages.{IsFilled};
ghost use Rattle.paragraphs.specs.Private.FullLines.{IsOpen, IsAdded};
ghost use Rattle.paragraphs.specs.Private.Open.{AddsParts, found_parts, text_parts, HasLong};
ghost use Rattle.paragraphs.specs.Private.PartSettings.{settings_of};
ghost use Rattle.paragraphs.specs.Private.PartStyles.{indent_of};
ghost use Rattle.paragraphs.specs.Settings.{IsTooLong};
ghost use Rattle.paragraphs.specs.Styles.{style_of};
ghost use Rattle.paragraphs.specs.Parts.{word_parts, other_parts, parts_of};
ghost use Rattle.paragraphs.specs.Words.{words};

use crate::full_lines::{FullLines, add_parts, add_whole, close, no_lines};
use crate::part::Part;
use crate::parting::StyledWord;
use crate::plain::{FirstWord, next_word};
use crate::setting::{Aim, set_evenly, stretches};
use crate::style::{Indent, Style};
use crate::word::push_word;
use hyphenation_hyphenator::hyphenator::Hyphenator;
use line_division::laws;
use std::alloc::{AllocError, Global};

// Adds the parts of a word that was found. A line that begins with it has this indent.
#[inline(always)]
fn push_found<'s, 't, 'h, H: Hyphenator<'h>>(
    dictionary: &'h H,
    style: &'s Style<'t>,
    indent: Indent,
    word: &FirstWord<'t>,
    breaks: &mut Vec<H::Opportunity>,
    parts: &mut Vec<Part<'s, 't>>,
) -> Result<(), AllocError>
    ensures { OnOk result (AddsParts parts.old.items parts.new.items (word_parts (H.breaks_of dictionary.now)
        (style_of style.now) (indent_of style.now indent) (word.now).text.now)) }
{
    let alloc = *parts.allocator();
    let styled = StyledWord {
        style,
        indent,
        text: word.text,
        plain: word.plain,
        letters: word.letters,
    };
    push_word(alloc, dictionary, &styled, breaks, parts)?;
    Ok(())
}

// Adds the parts of all words of a text, none of which is the first one of its paragraph.
fn push_others<'s, 't, 'h, H: Hyphenator<'h>>(
    dictionary: &'h H,
    style: &'s Style<'t>,
    text: &'t str,
    breaks: &mut Vec<H::Opportunity>,
    parts: &mut Vec<Part<'s, 't>>,
) -> Result<(), AllocError>
    ensures { OnOk result (AddsParts parts.old.items parts.new.items
        (other_parts (H.breaks_of dictionary.now) (style_of style.now) (words text.now))) }
{
    let mut rest = text;
    while let Some(word) = next_word(rest) {
        push_found(dictionary, style, Indent::Other, &word, breaks, parts)?;
        rest = word.after;
    }
    Ok(())
}

// Returns the parts of a paragraph.
fn parts_of<'s, 't, 'h, H: Hyphenator<'h>>(
    alloc: Global,
    dictionary: &'h H,
    style: &'s Style<'t>,
    text: &'t str,
) -> Result<Vec<Part<'s, 't>>, AllocError>
    ensures { IfOk result (λ parts.
        settings_of parts.items ≡ parts_of (H.breaks_of dictionary.now) (style_of style.now) (words text.now)) }
{
    // English prose has a part for every four bytes or so.
    let mut parts = Vec::with_capacity(alloc, text.len() / 3)?;
    let Some(first) = next_word(text) else {
        return Ok(parts);
    };
    let mut breaks = Vec::with_capacity(alloc, 16)?;
    push_found(
        dictionary,
        style,
        Indent::First,
        &first,
        &mut breaks,
        &mut parts,
    )?;
    push_others(dictionary, style, first.after, &mut breaks, &mut parts)?;
    Ok(parts)
}

/// Why there are no lines.
#[derive(Debug, Drop)]
pub enum FillError {
    /// Memory was refused.
    Memory,
    /// A paragraph has 2^30 parts, or a text of one of them has 2^31 bytes.
    TooLong,
}

impl From<AllocError> for FillError {
    ghost use Rattle.std.specs.Prelude.{◌≡◌};
    ghost use Rattle.paragraphs.specs.declared.text.FillError.TheVariants.{Memory};

    ghost from_gives = { λ _ result. result ≡ Memory };

    fn from(_error: AllocError) -> FillError {
        FillError::Memory
    }
}

// Adds a word that was found, by its parts. A line that begins with it has this indent.
fn add_parted<'s, 't, 'h, H: Hyphenator<'h>>(
    dictionary: &'h H,
    style: &'s Style<'t>,
    indent: Indent,
    word: &FirstWord<'t>,
    breaks: &mut Vec<H::Opportunity>,
    full: &mut FullLines<'s, 't>,
) -> Result<(), FillError>
    requires { IsOpen full.old }
    ensures added { OnOk result (IsAdded full.old full.new
        (found_parts (H.breaks_of dictionary.now) style.now indent word.now)) }
    ensures too_long { IfErr result (λ e. e ≡ FillError.TooLong →
        HasLong (found_parts (H.breaks_of dictionary.now) style.now indent word.now)) }
{
    let alloc = *breaks.allocator();
    let mut parts = Vec::with_capacity(alloc, 8)?;
    push_found(dictionary, style, indent, word, breaks, &mut parts)?;
    let measured = add_parts(alloc, full, &mut parts)?;
    if !measured {
        return Err(FillError::TooLong);
    }
    Ok(())
}

// Adds a word that is not the first one of its paragraph. It is parted only where it does not fit whole.
fn add_word<'s, 't, 'h, H: Hyphenator<'h>>(
    dictionary: &'h H,
    style: &'s Style<'t>,
    word: &FirstWord<'t>,
    breaks: &mut Vec<H::Opportunity>,
    full: &mut FullLines<'s, 't>,
) -> Result<(), FillError>
    requires { IsOpen full.old }
    ensures added { OnOk result (IsAdded full.old full.new
        (found_parts (H.breaks_of dictionary.now) style.now Indent.Other word.now)) }
    ensures too_long { IfErr result (λ e. e ≡ FillError.TooLong →
        HasLong (found_parts (H.breaks_of dictionary.now) style.now Indent.Other word.now)) }
{
    if word.plain && word.text.len() < full.room as usize {
        add_whole(full, style, word.text)?;
        return Ok(());
    }
    add_parted(dictionary, style, Indent::Other, word, breaks, full)
}

// Adds all words of a text, none of which is the first one of its paragraph.
fn add_others<'s, 't, 'h, H: Hyphenator<'h>>(
    dictionary: &'h H,
    style: &'s Style<'t>,
    text: &'t str,
    breaks: &mut Vec<H::Opportunity>,
    full: &mut FullLines<'s, 't>,
) -> Result<(), FillError>
    requires is_open { IsOpen full.old }
    requires some { 0 < length full.old.stretches.items }
    ensures added { OnOk result (IsAdded full.old full.new
        (other_parts (H.breaks_of dictionary.now) (style_of style.now) (words text.now))) }
    ensures too_long { IfErr result (λ e. e ≡ FillError.TooLong →
        HasLong (other_parts (H.breaks_of dictionary.now) (style_of style.now) (words text.now))) }
{
    let mut rest = text;
    while let Some(next) = next_word(rest) {
        add_word(dictionary, style, &next, breaks, full)?;
        rest = next.after;
    }
    Ok(())
}

// Returns the lines of a paragraph, each of which holds as much as fits.
#[tactic(auto, using(crate::proofs::OpenLines::too_long_first, crate::proofs::OpenLines::too_long_others))]
fn full_lines<'h, H: Hyphenator<'h>>(
    alloc: Global,
    dictionary: &'h H,
    style: &Style,
    text: &str,
    columns: u16,
) -> Result<Vec<String>, FillError>
    ensures lines { IfOk result (λ lines. IsSet Full
        (text_parts (H.breaks_of dictionary.now) style.now text.now) columns (map string_bytes lines.items)) }
    ensures too_long { IfErr result (λ e. e ≡ FillError.TooLong →
        IsTooLong (text_parts (H.breaks_of dictionary.now) style.now text.now)) }
{
    laws::furthest_ends_are_fewest();
    let Some(first) = next_word(text) else {
        return Ok(Vec::new(alloc));
    };
    let mut full = no_lines(alloc, columns);
    let mut breaks = Vec::with_capacity(alloc, 16)?;
    let indent = Indent::First;
    add_parted(dictionary, style, indent, &first, &mut breaks, &mut full)?;
    add_others(dictionary, style, first.after, &mut breaks, &mut full)?;
    let lines = close(alloc, full)?;
    Ok(lines)
}

// Returns the lines of a paragraph that cost the least.
fn even_lines<'h, H: Hyphenator<'h>>(
    alloc: Global,
    dictionary: &'h H,
    style: &Style,
    text: &str,
    columns: u16,
    last_columns: u16,
    ladder: Option<u8>,
) -> Result<Vec<String>, FillError>
    ensures lines { IfOk result (λ lines. IsSet (Even last_columns ladder)
        (text_parts (H.breaks_of dictionary.now) style.now text.now) columns (map string_bytes lines.items)) }
    ensures too_long { IfErr result (λ e. e ≡ FillError.TooLong →
        IsTooLong (text_parts (H.breaks_of dictionary.now) style.now text.now)) }
{
    let parts = parts_of(alloc, dictionary, style, text)?;
    if parts.len() >= 1 << 30 {
        return Err(FillError::TooLong);
    }
    let made = stretches(alloc, &parts)?;
    match made {
        Some(stretches) => {
            let lines = set_evenly(alloc, &parts, &stretches, columns, last_columns, ladder)?;
            Ok(lines)
        }
        None => Err(FillError::TooLong),
    }
}

/// Returns the lines of a paragraph: its words with one space between them, broken where a line ends.
///
/// A word is what is between gaps. It may be broken where the dictionary breaks one of its pieces, which are the words
/// that `text_words` has, if some of the word is on either side. An address, a path, an identifier or the name of a
/// file is not broken. A soft hyphen is shown only as the hyphen of a line that ends there. A line has at most
/// `columns` columns of a terminal, or it holds one part, which can't be divided.
///
/// The error says that memory was refused, or that the paragraph is too long.
///
/// ```text
/// let style = Style { first: "", indent: "", price: 0 };
/// fill(alloc, &dictionary, &style, "on  hyphenation", 8, Aim::Full)?      // "on hy-", "phena-", "tion"
/// ```
pub fn fill<'h, H: Hyphenator<'h>>(
    alloc: Global,
    dictionary: &'h H,
    style: &Style,
    text: &str,
    columns: u16,
    aim: Aim,
) -> Result<Vec<String>, FillError>
    ensures lines { IfOk result (λ lines. IsFilled aim (H.breaks_of dictionary.now) (style_of style.now) columns
        text.now (map string_bytes lines.items)) }
    ensures too_long { IfErr result (λ e. e ≡ FillError.TooLong →
        IsTooLong (parts_of (H.breaks_of dictionary.now) (style_of style.now) (words text.now))) }
{
    match aim {
        Aim::Full => {
            let lines = full_lines(alloc, dictionary, style, text, columns)?;
            Ok(lines)
        }
        Aim::Even {
            last_columns,
            ladder,
        } => {
            let lines = even_lines(
                alloc,
                dictionary,
                style,
                text,
                columns,
                last_columns,
                ladder,
            )?;
            Ok(lines)
        }
    }
}
