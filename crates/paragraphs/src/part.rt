//! The parts of which the lines of a paragraph are made.

ghost use Rattle.std.specs.Prelude.{◌≡◌, true};
ghost use Rattle.std.specs.List.{list_all};
ghost use Rattle.paragraphs.specs.Private.Changes.{joint_bytes};
ghost use Rattle.paragraphs.specs.Private.Printable.{is_printable};

use crate::changes::PartChanges;
use crate::style::{Indent, Style, indent_of};
use std::mem::size_of;

// A text between two neighbouring places at which a line may end.
//
// ```text
//     indent after | text | before -          where a line holds only it
//                    text | joint | ..        where the line goes on after it
// ```
//
// The last part of a word has a space for its joint. Any other has a hyphen. Where its break changes letters, the joint
// has those letters. Then `before` has the first half of the change, and `after` of the next part the second half.
//
// A paragraph has many parts at once. So what most of them share, or have not at all, is kept apart from them.
#[derive(Debug, Drop)]
pub struct Part<'s, 't> {
    // The style of its paragraph.
    pub style: &'s Style<'t>,
    // Its own text, with soft hyphens.
    pub text: &'t str,
    // The texts before it, after it, and between it and the next part, where letters are changed.
    pub changes: PartChanges<'t>,
    // The indent of a line that begins with it.
    pub indent: Indent,
    // Whether a line that ends with it ends in a hyphen.
    pub hyphenated: bool,
    // Whether its text and its joint are known to be of printable ASCII.
    pub plain: bool,
    ghost text_printable: { plain ≡ true → list_all is_printable text.now ≡ true },
    ghost joint_printable: { plain ≡ true → list_all is_printable (joint_bytes changes hyphenated) ≡ true },
}

// All parts of a paragraph are in memory at once. English prose has one for every four bytes or so.
const _: () = prove!(size_of::<Part<'static, 'static>>() == 48);

impl<'s, 't> Part<'s, 't> {
    ghost use Rattle.std.specs.Prelude.{◌≡◌};
    ghost use Rattle.paragraphs.specs.Private.Changes.{joint_bytes};
    ghost use Rattle.paragraphs.specs.Private.PartStyles.{indent_of};

    // Returns the text of its indent.
    #[inline(always)]
    pub(crate) fn indent_text(&self) -> &str
        ensures { result.now ≡ indent_of (self.now).style.now (self.now).indent }
    {
        indent_of(self.style, self.indent)
    }

    // Returns the text between it and the next part of the same line.
    #[inline(always)]
    pub(crate) fn joint(&self) -> &str
        ensures { result.now ≡ joint_bytes (self.now).changes (self.now).hyphenated }
    {
        self.changes.joint(self.hyphenated)
    }
}
