//! The text that explains a word, in any style, and its drawing.

ghost use Rattle.std.specs.Prelude.{IfOk, map};
ghost use Rattle.explanations.specs.Private.Drawing.{facts_in};
ghost use Rattle.explanations.specs.Svg.{drawn};
ghost use Rattle.explanations.specs.Texts.{Explains, IsDrawn, IsTextOf};
ghost use Rattle.explanations.specs.Words.{IsDrawingOf, IsExplanation};

use crate::known::{Known, known_of};
use crate::lines::push_lines;
use crate::picture::picture_of;
use crate::style::Style;
use crate::svg::{Drawing, document, known_drawing};
use any_dictionary::AnyDictionary;
use hyphenation_breaks::breaks::Break;
use hyphenation_breaks::entry::{Listing, Payload};
use hyphenation_dictionary::dictionary::Dictionary;
use hyphenation_hyphenator::hyphenator::Hyphenator;
use hyphenation_segments::Word;
use std::alloc::{AllocError, Global};

// Returns the text of what is known in a style. The only error is out of memory.
fn styled<C: Payload, B: Listing>(
    alloc: Global,
    style: Style,
    known: &Known<'_, '_, C, B>,
) -> Result<Vec<u8>, AllocError>
    ensures { IfOk result (λ text. IsTextOf style C.change_of (facts_in C.change_of B.meaning known.now) text.items) }
{
    match style {
        Style::Lines => {
            let mut text = Vec::new(alloc);
            push_lines(&mut text, known)?;
            Ok(text)
        }
        Style::Picture => {
            let canvas = picture_of(alloc, false, known)?;
            Ok(canvas.text)
        }
        Style::Svg => {
            let drawing = known_drawing(alloc, known)?;
            let text = document(alloc, &[drawing])?;
            Ok(text)
        }
    }
}

// Returns the text that explains a word with known breaks. The only error is out of memory.
fn text_of<C: Payload, B: Listing, O: Break>(
    alloc: Global,
    dictionary: &Dictionary<C, B>,
    style: Style,
    word: &Word<'_, O>,
) -> Result<Vec<u8>, AllocError>
    ensures { IfOk result (λ text. Explains C.change_of B.meaning dictionary.now style word.now.text.now
        (map O.meaning word.now.breaks.items) text.items) }
{
    let known = known_of(alloc, dictionary, word)?;
    let text = styled(alloc, style, &known)?;
    Ok(text)
}

// Returns the drawing of a word with known breaks. The only error is out of memory.
fn drawing_of<C: Payload, B: Listing, O: Break>(
    alloc: Global,
    dictionary: &Dictionary<C, B>,
    word: &Word<'_, O>,
) -> Result<Drawing, AllocError>
    ensures { IfOk result (λ drawing. IsDrawn C.change_of B.meaning dictionary.now word.now.text.now
        (map O.meaning word.now.breaks.items) (drawn drawing)) }
{
    let known = known_of(alloc, dictionary, word)?;
    let drawing = known_drawing(alloc, &known)?;
    Ok(drawing)
}

/// Returns the text that explains a word as written, by a dictionary. It has the patterns that occur in the word, its
/// scores, the facts that decide, and the word with its hyphens.
///
/// The only error is out of memory.
///
/// ```text
/// explanation(alloc, &dictionary, Style::Picture, "firkins")?      // the picture drawn above
/// ```
pub fn explanation(
    alloc: Global,
    dictionary: &AnyDictionary,
    style: Style,
    word: &str,
) -> Result<Vec<u8>, AllocError>
    ensures { IfOk result (λ text. IsExplanation dictionary.now style word.now text.items) }
{
    match dictionary {
        AnyDictionary::Standard(standard) => {
            let word = standard.hyphenate(alloc, word)?;
            text_of(alloc, standard, style, &word)
        }
        AnyDictionary::Extended(extended) => {
            let word = extended.hyphenate(alloc, word)?;
            text_of(alloc, extended, style, &word)
        }
    }
}

/// Returns the drawing in SVG that explains a word as written, by a dictionary. [`document`](crate::document) puts it into a
/// document.
///
/// The only error is out of memory.
///
/// ```text
/// drawing(alloc, &dictionary, "firkins")?.rows      // 9: the lines of the picture drawn above, and an empty one
/// ```
pub fn drawing(alloc: Global, dictionary: &AnyDictionary, word: &str) -> Result<Drawing, AllocError>
    ensures { IfOk result (λ drawing. IsDrawingOf dictionary.now word.now (drawn drawing)) }
{
    match dictionary {
        AnyDictionary::Standard(standard) => {
            let word = standard.hyphenate(alloc, word)?;
            drawing_of(alloc, standard, &word)
        }
        AnyDictionary::Extended(extended) => {
            let word = extended.hyphenate(alloc, word)?;
            drawing_of(alloc, extended, &word)
        }
    }
}
