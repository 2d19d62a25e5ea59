//! From which line on a page is left alone, since parsers may read it otherwise there.

ghost use Rattle.std.specs.Prelude.{◌≡◌, map, IfOk};
ghost use Rattle.html_pieces.specs.Elements.{as_element};
ghost use Rattle.html_pieces.specs.Pieces.{as_piece};
ghost use Rattle.hyphenation_html.specs.Unread.{line_feeds, unread_in, unread_line};

use crate::cut::HtmlPage;
use crate::left_alone::left_alone_by;
use html_pieces::bytes::PageForm;
use html_pieces::elements::{Element, page_element};
use html_pieces::readings::{Reading, advance};
use html_pieces::tokenizer::Piece;
use hyphenation_text::Settings;
use std::alloc::{AllocError, Global};

// Returns the number of line feeds in bytes.
fn line_feeds(bytes: &[u8]) -> u64
    ensures { result ≡ line_feeds bytes.now }
{
    let mut feeds = 0;
    for byte in bytes {
        if *byte == b'\n' {
            feeds += 1;
        }
    }
    feeds
}

// Returns the line of the first of the pieces of a page at which its reading becomes uncertain.
fn unread_in<'t>(
    alloc: Global,
    settings: &Settings<'_>,
    form: PageForm,
    around: Element<'t>,
    pieces: &[Piece<'t>],
) -> Result<Option<u64>, AllocError>
    ensures { IfOk result (λ line. line ≡ unread_in settings.now form (as_element around.entry) (map as_piece pieces.now)) }
{
    let left_alone = left_alone_by(settings);
    let mut reading = Reading::new(alloc, form, &left_alone, pieces)?;
    let mut line: u64 = 1;
    for piece in pieces {
        advance(&mut reading, alloc, form, &left_alone, around, *piece)?;
        if !reading.is_certain {
            return Ok(Some(line));
        }
        line = line.saturating_add(line_feeds(piece.text.as_bytes()));
    }
    Ok(None)
}

/// Returns the line, counted from 1, from which on [`hyphenate_html`](crate::hyphenate_html) leaves a page alone, since
/// parsers may read it in different ways from there on. `None` if it reads the page to its end.
///
/// The language is the one that the page is hyphenated with. The error says that memory was refused.
///
/// ```text
/// let page = HtmlPage::new(alloc, "<p>Firkin\n<table>Firkin")?;
/// unread_line(alloc, "en", &Settings::new(), &page)?    // Some(2)
/// ```
pub fn unread_line(
    alloc: Global,
    language: &str,
    settings: &Settings<'_>,
    page: &HtmlPage<'_>,
) -> Result<Option<u64>, AllocError>
    ensures { IfOk result (λ line. line ≡ unread_line settings.now language.now page.now) }
{
    let around = page_element(language.as_bytes());
    unread_in(alloc, settings, page.form(), around, page.pieces())
}
