//! Parts that are short enough to be measured.

ghost use Rattle.std.specs.Prelude.{◌≡◌};
ghost use Rattle.paragraphs.specs.Private.PartSettings.{is_short_part};

use crate::part::Part;

// Reports whether no text of a part is too long to be measured.
pub(crate) fn is_short(part: &Part) -> bool
    ensures { result ≡ is_short_part part.now }
{
    part.indent_text().len() + part.changes.after().len() < 1 << 31
        && part.text.len() < 1 << 31
        && part.joint().len() < 1 << 31
        && part.changes.before().len() + usize::from(part.hyphenated) < 1 << 31
}
