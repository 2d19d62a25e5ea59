//! The lines of a whole text.

ghost use Rattle.std.specs.Prelude.{◌≡◌, [], ◌∷◌, ◌++◌, IfOk, IfErr, OnOk, map};
ghost use Rattle.std.specs.Str.{encode_utf8_all};
ghost use Rattle.std.specs.String.{string_bytes};
ghost use Rattle.hyphenation_breaks.specs.Ascii.{space};
ghost use Rattle.paragraphs.specs.Styles.{style_of};
ghost use Rattle.written_texts.specs.Blocks.{blocks};
ghost use Rattle.written_texts.specs.Prefixes.{blank_prefix, spread, spread_char, written_prefix};
ghost use Rattle.written_texts.specs.Private.Added.{AddsBlock, texts_of as texts};
ghost use Rattle.written_texts.specs.Private.Views as views;
ghost use Rattle.written_texts.specs.Private.Views.{block_of};
ghost use Rattle.written_texts.specs.Written.{HasTooLong, IsBlockSet, IsWritten, set_line};

use crate::blocks::{Block, Paragraph, Prefix, blocks_of};
use hyphenation_hyphenator::hyphenator::Hyphenator;
use paragraphs::{Aim, FillError, Style, fill};
use std::alloc::{AllocError, Global};

// Appends a character of a lead. A tab is four spaces.
fn push_lead_char(text: &mut String, c: char) -> Result<(), AllocError>
    ensures { OnOk result (string_bytes text.new ≡ string_bytes text.old ++ encode_utf8_all (spread_char c)) }
{
    if c == '\t' {
        text.push_str("    ")?;
    } else {
        text.push(c)?;
    }
    Ok(())
}

// Appends a lead.
fn push_lead(text: &mut String, lead: &str) -> Result<(), AllocError>
    ensures { OnOk result (string_bytes text.new ≡ string_bytes text.old ++ encode_utf8_all (spread lead.now)) }
{
    for c in lead.chars() {
        push_lead_char(text, c)?;
    }
    Ok(())
}

// Appends a space in place of a character of a lead, or four.
fn push_blank(text: &mut String, c: char) -> Result<(), AllocError>
    ensures { OnOk result (string_bytes text.new ≡ string_bytes text.old ++ map (λ _. space) (spread_char c)) }
{
    if c == '\t' {
        text.push_str("    ")?;
    } else {
        text.push_str(" ")?;
    }
    Ok(())
}

// Appends a space in place of each character of a lead.
fn push_blanks(text: &mut String, lead: &str) -> Result<(), AllocError>
    ensures { OnOk result (string_bytes text.new ≡ string_bytes text.old ++ map (λ _. space) (spread lead.now)) }
{
    for c in lead.chars() {
        push_blank(text, c)?;
    }
    Ok(())
}

// Returns a text with a prefix after it.
fn with_prefix(alloc: Global, text: &str, prefix: &Prefix<'_>) -> Result<String, AllocError>
    ensures { IfOk result (λ made. string_bytes made ≡ text.now ++ written_prefix (views.prefix_of prefix.now)) }
{
    let mut made = String::from_str(alloc, text)?;
    made.push_str(prefix.quote)?;
    push_lead(&mut made, prefix.lead)?;
    Ok(made)
}

// Returns a text with a prefix after it, whose lead is spaces.
fn with_spaces(alloc: Global, text: &str, prefix: &Prefix<'_>) -> Result<String, AllocError>
    ensures { IfOk result (λ made. string_bytes made ≡ text.now ++ blank_prefix (views.prefix_of prefix.now)) }
{
    let mut made = String::from_str(alloc, text)?;
    made.push_str(prefix.quote)?;
    push_blanks(&mut made, prefix.lead)?;
    Ok(made)
}

// Returns a line that stays, after the indent.
fn set_line(alloc: Global, style: &Style<'_>, line: &str) -> Result<String, AllocError>
    ensures { IfOk result (λ made. string_bytes made ≡ set_line (style_of style.now) line.now) }
{
    if line.is_empty() {
        return Ok(String::new(alloc));
    }
    let mut made = String::from_str(alloc, style.indent)?;
    made.push_str(line)?;
    Ok(made)
}

// Appends a line that stays.
fn push_line(
    alloc: Global,
    style: &Style<'_>,
    line: &str,
    page: &mut Vec<String>,
) -> Result<(), AllocError>
    ensures { OnOk result (texts page.new.items ≡ texts page.old.items ++ set_line (style_of style.now) line.now ∷ []) }
{
    let made = set_line(alloc, style, line)?;
    page.push(made)?;
    Ok(())
}

// Returns the lines of a paragraph.
fn fill_paragraph<'h, H: Hyphenator<'h>>(
    alloc: Global,
    dictionary: &'h H,
    style: &Style<'_>,
    paragraph: &Paragraph<'_>,
    columns: u16,
    aim: Aim,
) -> Result<Vec<String>, FillError>
    ensures lines { IfOk result (λ lines. IsBlockSet aim (H.breaks_of dictionary.now) (style_of style.now) columns
        (views.filled paragraph.now) (texts lines.items)) }
    ensures too_long { IfErr result (λ e. e ≡ FillError.TooLong →
        HasTooLong (H.breaks_of dictionary.now) (style_of style.now) (views.filled paragraph.now ∷ [])) }
{
    let first = with_prefix(alloc, style.first, &paragraph.first)?;
    let indent = with_spaces(alloc, style.indent, &paragraph.others)?;
    let own = Style {
        first: &first,
        indent: &indent,
        price: style.price,
    };
    fill(alloc, dictionary, &own, &paragraph.text, columns, aim)
}

// Appends the lines of a block.
fn push_block<'h, H: Hyphenator<'h>>(
    alloc: Global,
    dictionary: &'h H,
    style: &Style<'_>,
    block: &Block<'_>,
    columns: u16,
    aim: Aim,
    page: &mut Vec<String>,
) -> Result<(), FillError>
    ensures lines { OnOk result (AddsBlock aim (H.breaks_of dictionary.now) (style_of style.now) columns
        (block_of block.now) (texts page.old.items) (texts page.new.items)) }
    ensures too_long { IfErr result (λ e. e ≡ FillError.TooLong →
        HasTooLong (H.breaks_of dictionary.now) (style_of style.now) (block_of block.now ∷ [])) }
{
    match block {
        Block::Line(line) => {
            push_line(alloc, style, line, page)?;
        }
        Block::Filled(paragraph) => {
            let mut lines = fill_paragraph(alloc, dictionary, style, paragraph, columns, aim)?;
            page.append(&mut lines)?;
        }
    }
    Ok(())
}

/// Returns the lines of a text as people write it: quotes keep their signs on each line, items their indent.
///
/// A paragraph has lines with as many quote signs (`>`). It ends at an empty line, and the mark of an item begins
/// another one. The mark is `-`, `*`, `+`, a bullet, or a number with a dot or a parenthesis. Each of its lines begins
/// with its quote signs, and with its indent, or with spaces below the mark. A tab there is four spaces.
///
/// These stay as they are: the head of a mail, headings (`#`), rows of tables (`|`), lines without a letter or digit,
/// and signatures. So does code between fences, or indented by four spaces or a tab. Empty lines in a row are one.
///
/// The texts of the style come before all of that. The error says that memory was refused, or that one of the
/// paragraphs is too long. It then has 2^30 parts, or a text of one of them has 2^31 bytes.
///
/// ```text
/// let style = Style { first: "", indent: "", price: 0 };
/// fill_written(alloc, &dictionary, &style, "> two\n> firkins\n- of ale", 9, Aim::Full)?
/// // "> two", "> firkins", "- of ale"
/// ```
pub fn fill_written<'h, H: Hyphenator<'h>>(
    alloc: Global,
    dictionary: &'h H,
    style: &Style,
    text: &str,
    columns: u16,
    aim: Aim,
) -> Result<Vec<String>, FillError>
    ensures written { IfOk result (λ page. IsWritten aim (H.breaks_of dictionary.now) (style_of style.now) columns
        text.now (map string_bytes page.items)) }
    ensures too_long { IfErr result (λ e. e ≡ FillError.TooLong →
        HasTooLong (H.breaks_of dictionary.now) (style_of style.now) (blocks text.now)) }
{
    let blocks = blocks_of(alloc, text)?;
    let mut page = Vec::new(alloc);
    for block in &blocks {
        push_block(alloc, dictionary, style, block, columns, aim, &mut page)?;
    }
    Ok(page)
}
