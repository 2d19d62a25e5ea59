//! Laws of the pieces of all pages. The calls do nothing; each contract is a law.

ghost use Rattle.std.specs.Prelude.{◌≡◌, ℕ, List, IsUtf8};
ghost use Rattle.html_pieces.specs.declared.bytes.PageForm.{PageForm};
ghost use Rattle.html_pieces.specs.Pieces.{pieces_of};
ghost use Rattle.html_pieces.specs.Laws.{joined_pieces, AreUtf8, AreCutAlike, FormStays};

/// The pieces of each page join to it: nothing of it is lost.
///
/// It is a law of all pages, and the call does nothing.
pub fn pieces_join()
    ensures { (form : PageForm) (page : List ℕ) → joined_pieces (pieces_of form page) ≡ page }
{}

/// Each piece of a page of UTF-8 is UTF-8: no piece begins or ends within a character.
///
/// It is a law of all pages, and the call does nothing.
pub fn pieces_are_utf8()
    ensures { (form : PageForm) (page : List ℕ) → IsUtf8 page → AreUtf8 (pieces_of form page) }
{}

/// A page with other texts in the places of its texts is cut into the same pieces, with these texts.
///
/// The other texts have no `<` and no `&`, and begin as those of the page do, or with the first byte of U+00AD. So soft
/// hyphens that are put into the texts of a page change none of its other pieces. It is a law of all pages, and the call
/// does nothing.
pub fn other_texts_are_cut_alike()
    ensures { AreCutAlike }
{}

/// A page with other texts in the places of its texts has the form of the page.
///
/// The other texts are those of [`other_texts_are_cut_alike`], and a byte order mark stays. It is a law of all pages, and
/// the call does nothing.
pub fn other_texts_leave_the_form()
    ensures { FormStays }
{}
