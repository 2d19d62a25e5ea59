//! A word that is being parted.

ghost use Rattle.std.specs.Prelude.{◌≡◌, ◌<◌, ◌^◌, true, length};
ghost use Rattle.std.specs.List.{list_all};
ghost use Rattle.std.specs.Str.{IsUtf8, IsCharBoundary};
ghost use Rattle.paragraphs.specs.Private.Plain.{AreLetters};
ghost use Rattle.paragraphs.specs.Private.Printable.{is_printable};

use crate::style::{Indent, Style};

// A word that is to be parted, and what is known of it.
#[derive(Clone, Copy)]
pub(crate) struct StyledWord<'s, 't> {
    // The indents of the paragraph's lines, and the price of a hyphen.
    pub(crate) style: &'s Style<'t>,
    // The indent of a line that begins with the word.
    pub(crate) indent: Indent,
    // Its text.
    pub(crate) text: &'t str,
    // Whether it is known to be of printable ASCII.
    pub(crate) plain: bool,
    // Whether it is known to be only of letters of ASCII.
    pub(crate) letters: bool,
    ghost utf8: { ∥ IsUtf8 text.now ∥₁ },
    ghost short: { length text.now < 2 ^ 63 },
    ghost printable: { plain ≡ true → list_all is_printable text.now ≡ true },
    ghost alphabetic: { letters ≡ true → AreLetters text.now },
}

// The part of a word that is being made.
#[derive(Drop)]
pub(crate) struct OpenPart<'w, 's, 't> {
    // Its word.
    pub(crate) word: &'w StyledWord<'s, 't>,
    // The indent of a line that begins with it.
    pub(crate) indent: Indent,
    // The second half of the change before it.
    pub(crate) after: String,
    // Where it begins, in bytes of its word.
    pub(crate) from: usize,
    ghost boundary: { IsCharBoundary word.now.text.now from },
}
