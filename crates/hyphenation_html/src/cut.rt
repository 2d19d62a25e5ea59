//! Pages that are cut into pieces, and the languages that they name.

ghost use Rattle.std.specs.Prelude.{◌≡◌, map, IfOk, IsUtf8, length};
ghost use Rattle.std.specs.String.{string_bytes};
ghost use Rattle.html_pieces.specs.Forms.{form_of};
ghost use Rattle.html_pieces.specs.Languages.{languages_of};
ghost use Rattle.html_pieces.specs.Pieces.{as_piece, pieces_of};

use html_pieces::bytes::PageForm;
use html_pieces::forms::{CutPage, cut};
use html_pieces::languages::languages_of_pieces;
use html_pieces::tokenizer::Piece;
use std::alloc::{AllocError, Global};
use std::marker::Model;

/// An HTML or XHTML page that is cut into pieces.
#[derive(Drop)]
pub struct HtmlPage<'t> {
    text: &'t str,
    cut: CutPage<'t>,
}

impl<'t> Model for HtmlPage<'t> {
    ghost use Rattle.std.specs.Prelude.{◌≡◌, ℕ, List, map, IsUtf8};
    ghost use Rattle.html_pieces.specs.Forms.{form_of};
    ghost use Rattle.html_pieces.specs.Pieces.{as_piece, pieces_of};

    ghost Value = { List ℕ };

    ghost view = { λ page. page.text.now };

    ghost invariant = { λ page. IsUtf8 page.text.now × (page.cut.form ≡ form_of page.text.now)
        × (map as_piece page.cut.pieces.items ≡ pieces_of page.cut.form page.text.now) };
}

impl<'t> HtmlPage<'t> {
    /// Cuts a page into pieces. The error says that memory was refused.
    ///
    /// ```text
    /// HtmlPage::new(alloc, "<p lang='de'>Wort")?
    /// ```
    pub fn new(alloc: Global, text: &'t str) -> Result<HtmlPage<'t>, AllocError>
        ensures { IfOk result (λ page. page ≡ text.now) }
    {
        let cut = cut(alloc, text)?;
        Ok(HtmlPage { text, cut })
    }

    /// Returns the languages that the page names, each once, in the order in which it names them first.
    ///
    /// A start tag names the language of its attribute `lang`, in XML that of `xml:lang` or else `lang`, with character
    /// references read, as it is written: `de-CH`, `DE`. The error says that memory was refused.
    ///
    /// ```text
    /// HtmlPage::new(alloc, "<p lang=de>Wort <i LANG='f&#114;-CA'>mot</i>")?.languages(alloc)?     // de, fr-CA
    /// ```
    pub fn languages(&self, alloc: Global) -> Result<Vec<String>, AllocError>
        ensures { IfOk result (λ languages. map string_bytes languages.items ≡ languages_of self.now) }
    {
        languages_of_pieces(alloc, self.cut.form, &self.cut.pieces)
    }

    // Returns the number of bytes of the page.
    pub(crate) fn len(&self) -> usize
        ensures { result ≡ length self.now }
    {
        self.text.len()
    }

    // Returns the form of the page.
    pub(crate) fn form(&self) -> PageForm
        ensures { result ≡ form_of self.now }
    {
        self.cut.form
    }

    // Returns the pieces of the page in its form.
    pub(crate) fn pieces(&self) -> &[Piece<'t>]
        ensures { map as_piece result.now ≡ pieces_of (form_of self.now) self.now }
    {
        &self.cut.pieces
    }

    // Gives proofs that the page is UTF-8, and does nothing.
    pub(crate) fn invariant(&self)
        ensures { IsUtf8 self.now }
    {
        // Reading a field gives the proof the invariant of the type.
        let _text = self.text;
    }
}
