//! A run of the program: from a dictionary and words to the text that is written.

ghost use Rattle.std.specs.Prelude.{◌≡◌, ◌⊎◌, ◌++◌, codes, true, IfErr, IfOk, OnOk, map};
ghost use Rattle.std.specs.List.{AllZip};
ghost use Rattle.command_line.specs.Inputs.{IsFailureOfInput};
ghost use Rattle.explain_command.specs.Endings.{has_words, IsFailureFor, IsFailureOfWords};
ghost use Rattle.explain_command.specs.Explained.{AreDrawn, AreExplained, AreJoined, ExplainsGiven, ExplainsInput};
ghost use Rattle.explain_command.specs.Explained.{IsDrawingOfNfc, IsExplanationOfNfc, Writes};
ghost use Rattle.explain_command.specs.Private.Joined.{gap_before};
ghost use Rattle.explain_command.specs.Private.Requests.{parsed_request, BeforeReading};
ghost use Rattle.explanations.specs.Svg.{drawn};
ghost use Rattle.hyphenation_breaks.specs.Borrowed.{texts_now};

use crate::request::Request;
use any_dictionary::AnyDictionary;
use command_line::adjustments::load_adjusted;
use command_line::inputs::read_text;
use command_line::{Failure, NamedFiles};
use explanations::{Drawing, Style, document, drawing, explanation};
use std::alloc::{AllocError, Global};
use std::io::{Read, Write};
use unicode_normalization::to_nfc;

// Appends the text of a word, after an empty line unless it is the first.
fn push_after(text: &mut Vec<u8>, index: usize, explanation: &[u8]) -> Result<(), AllocError>
    ensures { OnOk result (text.new.items ≡ text.old.items ++ (gap_before index ++ explanation.now)) }
{
    if index > 0 {
        text.push(b'\n')?;
    }
    text.extend_from_slice(explanation)
}

// Returns the text that explains the NFC of a word. The only error is out of memory.
#[tactic(auto, unfolding(composed_words::specs::Composed::composed))]
fn nfc_explanation(
    alloc: Global,
    dictionary: &AnyDictionary,
    style: Style,
    word: &str,
) -> Result<Vec<u8>, AllocError>
    ensures { IfOk result (λ text. IsExplanationOfNfc dictionary.now style word.now text.items) }
{
    let nfc = to_nfc(alloc, word)?;
    let text = explanation(alloc, dictionary, style, nfc.as_str())?;
    Ok(text)
}

// Returns the drawing that explains the NFC of a word. The only error is out of memory.
#[tactic(auto, unfolding(composed_words::specs::Composed::composed))]
fn nfc_drawing(alloc: Global, dictionary: &AnyDictionary, word: &str) -> Result<Drawing, AllocError>
    ensures { IfOk result (λ drawing. IsDrawingOfNfc dictionary.now word.now (drawn drawing)) }
{
    let nfc = to_nfc(alloc, word)?;
    let drawing = drawing(alloc, dictionary, nfc.as_str())?;
    Ok(drawing)
}

// Returns the texts that explain words, with an empty line between two. The only error is out of memory.
fn joined(
    alloc: Global,
    dictionary: &AnyDictionary,
    style: Style,
    words: &[&str],
) -> Result<Vec<u8>, AllocError>
    ensures { IfOk result (λ text. AreJoined (IsExplanationOfNfc dictionary.now style) (texts_now words.now) text.items) }
{
    let mut text = Vec::new(alloc);
    for (index, word) in words.iter().enumerate() {
        let explained = nfc_explanation(alloc, dictionary, style, word)?;
        push_after(&mut text, index, &explained)?;
    }
    Ok(text)
}

// Returns the drawings that explain words. The only error is out of memory.
fn drawings_of(
    alloc: Global,
    dictionary: &AnyDictionary,
    words: &[&str],
) -> Result<Vec<Drawing>, AllocError>
    ensures { IfOk result (λ drawings.
        AllZip (IsDrawingOfNfc dictionary.now) (texts_now words.now) (map drawn drawings.items)) }
{
    let mut drawings = Vec::new(alloc);
    for word in words {
        drawings.push(nfc_drawing(alloc, dictionary, word)?)?;
    }
    Ok(drawings)
}

// Returns the document of the drawings that explain words. The only error is out of memory.
fn drawn_words(
    alloc: Global,
    dictionary: &AnyDictionary,
    words: &[&str],
) -> Result<Vec<u8>, AllocError>
    ensures { IfOk result (λ text. AreDrawn (IsDrawingOfNfc dictionary.now) (texts_now words.now) text.items) }
{
    let drawings = drawings_of(alloc, dictionary, words)?;
    document(alloc, &drawings)
}

/// Returns the text that explains words in a style, by a dictionary. A word that is not in NFC is explained as its NFC.
///
/// Pictures and lines have an empty line between those of two words. With [`Style::Svg`] it is one document, with a drawing
/// for each word below the one before. The only error is out of memory.
///
/// ```text
/// explained(alloc, &dictionary, Style::Picture, &["firkins", "present"])?
/// ```
pub fn explained(
    alloc: Global,
    dictionary: &AnyDictionary,
    style: Style,
    words: &[&str],
) -> Result<Vec<u8>, AllocError>
    ensures { IfOk result (λ text. AreExplained dictionary.now style (texts_now words.now) text.items) }
{
    match style {
        Style::Picture => joined(alloc, dictionary, Style::Picture, words),
        Style::Lines => joined(alloc, dictionary, Style::Lines, words),
        Style::Svg => drawn_words(alloc, dictionary, words),
    }
}

// Returns the text that explains the words of standard input, which white space parts.
fn explained_input<F: NamedFiles, I: Read>(
    files: &F,
    alloc: Global,
    dictionary: &AnyDictionary,
    style: Style,
    input: &mut I,
) -> Result<Vec<u8>, Failure>
    ensures text { IfOk result (λ text. ExplainsInput dictionary.now style (F.bytes files.now)
        (I.remaining input.old) text.items) }
    ensures failure { IfErr result (IsFailureOfInput (F.bytes files.now) (I.remaining input.old) (codes "-")) }
{
    let text = read_text(files, alloc, "-", input)?;
    let words: Vec<&str> = text.split_whitespace().collect(alloc)?;
    Ok(explained(alloc, dictionary, style, &words)?)
}

// Returns the text that explains the given words or, without any, those of standard input.
fn explained_words<F: NamedFiles, I: Read>(
    files: &F,
    alloc: Global,
    dictionary: &AnyDictionary,
    style: Style,
    words: &[&str],
    input: &mut I,
) -> Result<Vec<u8>, Failure>
    ensures text { IfOk result (λ text. ExplainsGiven dictionary.now style (F.bytes files.now)
        (I.remaining input.old) (texts_now words.now) text.items) }
    ensures failure { IfErr result (IsFailureOfWords (F.bytes files.now) (I.remaining input.old) (texts_now words.now)) }
    ensures unread { has_words (texts_now words.now) ≡ true → input.new ≡ input.old }
{
    match words {
        [] => explained_input(files, alloc, dictionary, style, input),
        [_, ..] => Ok(explained(alloc, dictionary, style, words)?),
    }
}

/// Writes the text that a request asks for, once all of it is made.
///
/// The dictionary is loaded first. Then standard input is read to its end, if no word is given. The first step that fails
/// gives the failure. After [`Failure::Output`] a beginning may be written; after any other nothing is.
pub fn run<F: NamedFiles, I: Read, O: Write>(
    files: &F,
    alloc: Global,
    request: &Request<'_>,
    folders: &[&str],
    input: &mut I,
    output: &mut O,
) -> Result<(), Failure>
    ensures written { OnOk result (Writes (parsed_request request.now) (F.bytes files.now) folders.now
        (I.remaining input.old) O.contents output.old output.new) }
    ensures failure { IfErr result (IsFailureFor (parsed_request request.now) (F.bytes files.now) folders.now
        (I.remaining input.old)) }
    ensures unread { has_words (texts_now request.now.words.items) ≡ true → input.new ≡ input.old }
    ensures dictionary_first { IfErr result (BeforeReading (input.new ≡ input.old)) }
    ensures untouched { IfErr result (λ failure. (failure ≡ Failure.Output) ⊎ (output.new ≡ output.old)) }
{
    let dictionary = load_adjusted(
        files,
        alloc,
        folders,
        request.dictionary,
        &request.adjustments,
    )?;
    let text = explained_words(
        files,
        alloc,
        &dictionary,
        request.style,
        &request.words,
        input,
    )?;
    match output.write_all(&text) {
        Ok(()) => Ok(()),
        Err(_) => Err(Failure::Output),
    }
}
