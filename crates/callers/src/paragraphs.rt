//! A caller of `linefill` that fills each paragraph of a text by itself.

ghost use Rattle.std.specs.Prelude.{◌≡◌, ◌++◌, OnOk, IfOk};
ghost use Rattle.std.specs.List.{flat_map};
ghost use Rattle.std.specs.Str.Lines.{lines};
ghost use Rattle.std.specs.String.{string_bytes};
ghost use Rattle.callers.specs.Paragraphs.{filled_paragraph};

use hyphenation::Hyphenator;
use linefill::{fill, push_lines};
use std::alloc::{AllocError, Global};

// Appends the lines of a paragraph, each with a line feed after it; for an empty paragraph only a line feed.
fn push_paragraph<'h, H: Hyphenator<'h, Opportunity = usize>>(
    page: &mut String,
    dictionary: &'h H,
    paragraph: &str,
    columns: usize,
) -> Result<(), AllocError>
    ensures { OnOk result (string_bytes page.new
        ≡ string_bytes page.old ++ filled_paragraph (H.breaks_of dictionary.now) columns paragraph.now) }
{
    let lines = fill(*page.allocator(), dictionary, paragraph, columns)?;
    push_lines(page, &lines)?;
    if paragraph.is_empty() {
        page.push('\n')?;
    }
    Ok(())
}

/// Fills the paragraphs of a text, which its line ends separate, each by itself to lines of at most `columns`
/// characters.
///
/// Returns the lines of [`fill`], in their order, each with a line feed after it. An empty paragraph stays as an empty
/// line. The only error is that memory was refused.
///
/// ```text
/// fill_paragraphs(alloc, &dictionary, "I know\n\nnoble accents", 10)?    // "I know\n\nnoble ac-\ncents\n"
/// ```
pub fn fill_paragraphs<'h, H: Hyphenator<'h, Opportunity = usize>>(
    alloc: Global,
    dictionary: &'h H,
    text: &str,
    columns: usize,
) -> Result<String, AllocError>
    ensures { IfOk result (λ page.
        string_bytes page ≡ flat_map (filled_paragraph (H.breaks_of dictionary.now) columns) (lines text.now)) }
{
    let mut page = String::new(alloc);
    for paragraph in text.lines() {
        push_paragraph(&mut page, dictionary, paragraph, columns)?;
    }
    Ok(page)
}
