//! Whole pages.

ghost use Rattle.std.specs.Prelude.{◌≡◌, ◌++◌, ◌<◌, ◌&&◌, [], All, Some, map, length, slice_get, IfOk, OnOk};
ghost use Rattle.std.specs.Option.{option_map};
ghost use Rattle.std.specs.String.{string_bytes};
ghost use Rattle.html_pieces.specs.Pieces.{as_piece, pieces_of};
ghost use Rattle.html_pieces.specs.Forms.{form_of};
ghost use Rattle.html_pieces.specs.Elements.{as_element};
ghost use Rattle.hyphenation_text.specs.Laws.{IsPageWithMarks, soft_hyphen};
ghost use Rattle.hyphenation_text.specs.Texts.{so_far};
ghost use Rattle.hyphenation_html.specs.Languages.{coded, languages_by};
ghost use Rattle.hyphenation_html.specs.Places.{page_places, marked_page, IsDone};
ghost use Rattle.hyphenation_html.specs.Touching.{touched_after};
ghost use Rattle.hyphenation_html.specs.Laws.{IsInText};
ghost use Rattle.hyphenation_html.specs.Private.Fit.{AllFit};
ghost use Rattle.hyphenation_html.specs.Private.Marked.{dictionary_in, is_text, marked_in_by};
ghost use Rattle.hyphenation_html.specs.Private.Marked.{marked_piece_by, marked_pieces_by, marked_page_by};

use crate::cut::HtmlPage;
use crate::languages::{LanguageDictionary, best_of};
use crate::left_alone::{is_left_alone, left_alone_by};
use crate::touching::{touched_after, touched_before};
use html_pieces::bytes::PageForm;
use html_pieces::elements::{Element, page_element};
use html_pieces::laws::{
    other_texts_are_cut_alike, other_texts_leave_the_form, pieces_are_utf8, pieces_join,
};
use html_pieces::readings::{Reading, advance, parent_of_text};
use html_pieces::references::read;
use html_pieces::tokenizer::{Piece, PieceKind};
use hyphenation_text::laws::{
    limited_breaks_fit, marked_texts_have_none_left, marked_texts_join, texts_are_marked,
    white_space_has_no_breaks,
};
use hyphenation_text::{Output, Settings, push_text};
use std::alloc::{AllocError, Global};

// Returns the dictionary for the words of a text: none where it is left alone, or in no element that is known.
fn dictionary_in<'l>(
    alloc: Global,
    languages: &'l [LanguageDictionary],
    parent: Option<Element<'_>>,
    text: &str,
) -> Result<Option<&'l LanguageDictionary>, AllocError>
    ensures { IfOk result (λ found. option_map (λ l. coded l.now) found
        ≡ dictionary_in languages.now (option_map as_element parent.entry) text.now) }
{
    match parent {
        Some(element) => {
            if is_left_alone(element, text) {
                Ok(None)
            } else if element.has_references {
                let language = read(alloc, element.language)?;
                Ok(best_of(languages, &language))
            } else {
                Ok(best_of(languages, element.language))
            }
        }
        None => Ok(None),
    }
}

// Appends a text, with the mark at the breaks of its words by the dictionary of its language.
fn push_in(
    output: &mut Output,
    languages: &[LanguageDictionary],
    settings: &Settings<'_>,
    parent: Option<Element<'_>>,
    text: &str,
    before: bool,
    after: bool,
) -> Result<(), AllocError>
    ensures { OnOk result (so_far output.new ≡ so_far output.old
        ++ marked_in_by settings.now languages.now parent.entry before after text.now) }
{
    match dictionary_in(output.alloc, languages, parent, text)? {
        Some(found) => push_text(output, &found.dictionary, settings, text, before, after),
        None => {
            output.text.push_str(text)?;
            Ok(())
        }
    }
}

// Appends a piece; the mark comes into text alone.
fn push_piece(
    output: &mut Output,
    languages: &[LanguageDictionary],
    settings: &Settings<'_>,
    parent: Option<Element<'_>>,
    piece: Piece<'_>,
    before: bool,
    after: bool,
) -> Result<(), AllocError>
    ensures { OnOk result (so_far output.new ≡ so_far output.old
        ++ marked_piece_by settings.now languages.now parent.entry before after piece.entry) }
{
    match piece.kind {
        PieceKind::Text => push_in(
            output, languages, settings, parent, piece.text, before, after,
        ),
        _ => output.text.push_str(piece.text),
    }
}

// Returns the piece of a number.
fn piece_at<'t>(pieces: &[Piece<'t>], i: usize) -> Piece<'t>
    requires { i < length pieces.now }
    ensures { slice_get pieces.now i ≡ Some result }
{
    pieces[i]
}

// Whether a piece is text.
const fn is_text(kind: PieceKind) -> bool
    ensures { result ≡ is_text kind }
{
    matches!(kind, PieceKind::Text)
}

// Whether something touches a text from after. It is asked of text alone, so that each piece is passed once.
fn text_touched_after(kind: PieceKind, rest: &[Piece<'_>]) -> bool
    ensures { result ≡ (is_text kind && touched_after (map as_piece rest.now)) }
{
    is_text(kind) && touched_after(rest)
}

// Appends the pieces of a page, each in the element that it is in.
fn push_pieces<'t>(
    output: &mut Output,
    languages: &[LanguageDictionary],
    settings: &Settings<'_>,
    form: PageForm,
    around: Element<'t>,
    pieces: &[Piece<'t>],
) -> Result<(), AllocError>
    ensures { OnOk result (so_far output.new ≡ so_far output.old
        ++ marked_pieces_by settings.now languages.now form around.entry pieces.now) }
{
    let left_alone = left_alone_by(settings);
    let mut reading = Reading::new(output.alloc, form, &left_alone, pieces)?;
    let mut before = false;
    for i in 0..pieces.len() {
        let piece = piece_at(pieces, i);
        let after = text_touched_after(piece.kind, &pieces[i + 1..]);
        let parent = parent_of_text(form, around, &reading);
        push_piece(output, languages, settings, parent, piece, before, after)?;
        advance(&mut reading, output.alloc, form, &left_alone, around, piece)?;
        before = touched_before(before, piece);
    }
    Ok(())
}

// A page with its marks, written piece by piece.
fn page_with_marks(
    alloc: Global,
    languages: &[LanguageDictionary],
    language: &str,
    settings: &Settings<'_>,
    page: &HtmlPage<'_>,
) -> Result<String, AllocError>
    ensures { IfOk result (λ made.
        string_bytes made ≡ marked_page_by settings.now languages.now language.now page.now) }
{
    let mut output = Output::with_capacity(alloc, page.len())?;
    let around = page_element(language.as_bytes());
    push_pieces(
        &mut output,
        languages,
        settings,
        page.form(),
        around,
        page.pieces(),
    )?;
    Ok(output.text)
}

// Gives proofs that the breaks of each word, by each of some dictionaries, ascend on it.
fn all_fit(languages: &[LanguageDictionary], settings: &Settings<'_>)
    ensures { AllFit (languages_by settings.now languages.now) }
{
    for language in languages {
        limited_breaks_fit(&language.dictionary, settings);
    }
}

/// Returns an HTML or XHTML page with the mark at each break of the words of its text.
///
/// Each word is broken by the dictionary of the language that `lang` names for it, in XML `xml:lang` or else `lang`. Where
/// the page names none it is broken by that of `language`. A code serves each language that begins with it and a hyphen, and the
/// longest of these codes counts. A text whose language has no dictionary is left as it is. A word is broken as its NFC is.
///
/// All that is not text stays as it is, byte for byte: tags, comments, scripts, character references. So do the texts
/// of elements as `pre` and `code` ([`LEFT_ALONE_NAMES`](crate::LEFT_ALONE_NAMES)), with `translate="no"`, or with the
/// class of the settings. So does the rest of a page that parsers may read in different ways. A part of a text between
/// white space is left whole if it has a soft hyphen or is a name: an address, a path, an identifier, or the name of a
/// file. So is one that goes on in a character reference, or over a tag within a line, as that of `b`. So with soft
/// hyphens as marks a second run changes nothing of the result.
///
/// An error says that memory was refused.
///
/// ```text
/// let page = HtmlPage::new(alloc, "<p>Firkin <code>firkin</code></p>")?;
/// let settings = Settings { mark: "-", ..Settings::new() };
/// hyphenate_html(alloc, &languages, "en", &settings, &page)?    // <p>Fir-kin <code>firkin</code></p>
/// ```
pub fn hyphenate_html(
    alloc: Global,
    languages: &[LanguageDictionary],
    language: &str,
    settings: &Settings<'_>,
    page: &HtmlPage<'_>,
) -> Result<String, AllocError>
    ensures marked { IfOk result (λ output.
        string_bytes output ≡ marked_page settings.now languages.now language.now page.now) }
    ensures kept { IfOk result (λ output. IsPageWithMarks settings.now.mark.now page.now (string_bytes output)) }
    ensures in_text { All (IsInText (pieces_of (form_of page.now) page.now))
        (page_places settings.now languages.now language.now page.now) }
    ensures twice { settings.now.mark.now ≡ soft_hyphen → IfOk result (λ output.
        IsDone settings.now languages.now language.now page.now (string_bytes output)) }
    ensures without { languages.now ≡ [] → IfOk result (λ output. string_bytes output ≡ page.now) }
{
    texts_are_marked();
    marked_texts_join();
    marked_texts_have_none_left();
    white_space_has_no_breaks();
    pieces_join();
    pieces_are_utf8();
    other_texts_are_cut_alike();
    other_texts_leave_the_form();
    all_fit(languages, settings);
    page.invariant();
    page_with_marks(alloc, languages, language, settings, page)
}
