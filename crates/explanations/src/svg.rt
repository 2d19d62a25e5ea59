//! Drawings of words, below one another in one document.

ghost use Rattle.std.specs.Prelude.{◌≡◌, ◌++◌, IfOk, OnOk, map, true};
ghost use Rattle.std.specs.List.{concat};
ghost use Rattle.explanations.specs.Picture.{picture_of};
ghost use Rattle.explanations.specs.Private.Drawing.{facts_in};
ghost use Rattle.explanations.specs.Svg.{IsDocument, document_begin, document_of, drawn};

use crate::known::Known;
use crate::numbers::{product, sum};
use crate::picture::picture_of;
use hyphenation_breaks::entry::{Listing, Payload};
use std::alloc::{AllocError, Global};

/// The style sheet of a document.
pub const STYLE: &str = "\
text{font-family:monospace;font-size:18px;fill:#1d2433}\
.odd,.even{font-size:13px}.odd{fill:#c8102e;font-weight:bold}.even{fill:#6b7a90}\
.wins{text-decoration:underline}.word{font-weight:bold}.note{font-size:14px;fill:#5a6475}";

/// The drawing of a word in SVG.
///
/// Each row is below the one before. So [`document`] puts the drawings of several words below one another.
#[derive(Drop)]
pub struct Drawing {
    /// The number of rows, of 24 pixels each.
    pub rows: usize,
    /// The width in pixels.
    pub width: usize,
    /// The elements: those of each row, and of an empty one.
    pub svg: Vec<u8>,
}

// Returns the drawing of what is known of a word. The only error is out of memory.
pub(crate) fn known_drawing<C: Payload, B: Listing>(
    alloc: Global,
    known: &Known<'_, '_, C, B>,
) -> Result<Drawing, AllocError>
    ensures { IfOk result (λ drawing. drawn drawing
        ≡ picture_of true C.change_of (facts_in C.change_of B.meaning known.now)) }
{
    let rows = sum(known.facts.rows.len(), 4)?;
    let canvas = picture_of(alloc, true, known)?;
    Ok(Drawing {
        rows,
        width: canvas.width,
        svg: canvas.text,
    })
}

// Appends the beginning of a document of this width and height.
#[tactic(auto, unfolding(crate::specs::Svg::document_begin))]
fn push_document_begin(text: &mut Vec<u8>, width: usize, height: usize) -> Result<(), AllocError>
    ensures { OnOk result (text.new.items ≡ text.old.items ++ document_begin width height) }
{
    let begin = format!(in *text.allocator();
        "<svg xmlns='http://www.w3.org/2000/svg' viewBox='0 0 {width} {height}' role='img' xml:space='preserve'>\
        <title>Why words break where they do</title><style>{STYLE}</style>\
        <rect width='100%' height='100%' fill='#fff'/><text>"
    )?;
    text.extend_from_slice(begin.as_bytes())
}

// Appends the elements of drawings.
fn push_drawings(text: &mut Vec<u8>, drawings: &[Drawing]) -> Result<(), AllocError>
    ensures { OnOk result (text.new.items ≡ text.old.items ++ concat (map drawn drawings.now)) }
{
    for drawing in drawings {
        text.extend_from_slice(&drawing.svg)?;
    }
    Ok(())
}

// Returns the document of drawings, of this width and height. The only error is out of memory.
fn document_of(
    alloc: Global,
    width: usize,
    height: usize,
    drawings: &[Drawing],
) -> Result<Vec<u8>, AllocError>
    ensures { IfOk result (λ text. text.items ≡ document_of width height (map drawn drawings.now)) }
{
    let mut text = Vec::new(alloc);
    push_document_begin(&mut text, width, height)?;
    push_drawings(&mut text, drawings)?;
    text.extend_from_slice(b"</text></svg>\n")?;
    Ok(text)
}

/// Returns one standalone document in SVG of these drawings, each below the one before.
///
/// The only error is out of memory.
///
/// ```text
/// let drawings = [drawing(alloc, &dictionary, "firkins")?];
/// document(alloc, &drawings)?    // <svg xmlns='http://www.w3.org/2000/svg' viewBox='0 0 ..
/// ```
pub fn document(alloc: Global, drawings: &[Drawing]) -> Result<Vec<u8>, AllocError>
    ensures { IfOk result (λ text. IsDocument (map drawn drawings.now) text.items) }
{
    let mut width = 0;
    let mut rows = 0;
    for drawing in drawings {
        width = drawing.width.max(width);
        rows = sum(rows, drawing.rows)?;
    }
    let height = product(24, rows)?;
    let text = document_of(alloc, width, height, drawings)?;
    Ok(text)
}
