//! Laws of texts without their soft hyphens.
//!
//! Each function does nothing, and its contract is one law.

ghost use Rattle.soft_hyphens.specs.Laws.{MarksComeOut, TextComesBack};

use hyphenation_segments::iter::laws::marked_segments_join;

/// Soft hyphens that are put into a text at any breaks come out again: the rest is that of the text itself.
pub fn marks_come_out()
    ensures { MarksComeOut }
{
    marked_segments_join();
}

/// A text without soft hyphens comes back, byte for byte, after soft hyphens were put in at any breaks.
pub fn text_comes_back()
    ensures { TextComesBack }
{
    marked_segments_join();
}
