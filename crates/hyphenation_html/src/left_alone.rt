//! Which text of a page is left as it is.
//!
//! So is any text of which `html_pieces` knows no element, since parsers may read the page otherwise there.

ghost use Rattle.std.specs.Prelude.{◌≡◌};
ghost use Rattle.html_pieces.specs.Elements.{as_element, as_selection};
ghost use Rattle.hyphenation_html.specs.LeftAlone.{left_alone_elements, is_left_alone};

use html_pieces::elements::{Element, Selection};
use html_pieces::forms::begins_with_order_mark;
use hyphenation_text::Settings;

/// Elements whose text is left as it is: code and the like, drawings and formulas, and texts that forms send or windows
/// show. So are those that are not shown, or read otherwise with scripting than without.
///
/// The names are of the HTML Living Standard, 4.2 to 4.12, and of its obsolete elements, 16.2. Which of them these are is a
/// choice of this crate.
pub const LEFT_ALONE_NAMES: [&[u8]; 21] = [
    b"code",
    b"iframe",
    b"kbd",
    b"listing",
    b"math",
    b"noembed",
    b"noframes",
    b"noscript",
    b"option",
    b"plaintext",
    b"pre",
    b"samp",
    b"script",
    b"style",
    b"svg",
    b"template",
    b"textarea",
    b"title",
    b"tt",
    b"var",
    b"xmp",
];

// Returns the elements whose text is left alone: those of these names, and of the class of some settings.
pub(crate) fn left_alone_by<'s>(settings: &Settings<'s>) -> Selection<'s>
    ensures { as_selection result ≡ left_alone_elements settings.now.class.now }
{
    Selection {
        names: &LEFT_ALONE_NAMES,
        class: settings.class.as_bytes(),
    }
}

// Reports whether a text in an element is left alone.
pub(crate) fn is_left_alone(element: Element<'_>, text: &str) -> bool
    ensures { result ≡ is_left_alone (as_element element.entry) text.now }
{
    element.is_selected || !element.is_translated || begins_with_order_mark(text.as_bytes())
}
