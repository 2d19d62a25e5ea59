//! The kind of a dictionary text.

ghost use Rattle.std.specs.Prelude.{◌≡◌};
ghost use Rattle.any_dictionary.specs.Kinds.{is_head_of, kind_by_head, kind_in, kind_of};

use hyphenation_grammar::form::{Form, Kind, Version};
use hyphenation_grammar::lines::{is_head, next_line};

// Reports whether a line is line 1 of a text of that kind.
fn is_head_of(kind: Kind, line: &[u8]) -> bool
    ensures { result ≡ is_head_of kind line.now }
{
    let first = Form {
        kind,
        version: Version::First,
    };
    let second = Form {
        kind,
        version: Version::Second,
    };
    is_head(first, line) || is_head(second, line)
}

// Returns the kind that a first line names.
fn kind_by_head(line: &[u8]) -> Option<Kind>
    ensures { result ≡ kind_by_head line.now }
{
    if is_head_of(Kind::Standard, line) {
        Some(Kind::Standard)
    } else if is_head_of(Kind::Extended, line) {
        Some(Kind::Extended)
    } else {
        None
    }
}

/// Returns the kind that the first line of a dictionary text names, of either version. `None` if it names none.
///
/// The rest of the text is not read, and may be of any form.
///
/// ```text
/// kind_of(b"hyphenation 1 extended\nlanguage hu\nminima 2 2\n")     // Some(Kind::Extended)
/// kind_of(b"\\patterns{ 1a }")                                      // None
/// ```
pub fn kind_of(text: &[u8]) -> Option<Kind>
    ensures { result ≡ kind_of text.now }
{
    match next_line(text) {
        Some((line, _)) => kind_by_head(line),
        None => None,
    }
}

// Returns the kind as which a text is read.
pub(crate) fn kind_in(text: &[u8]) -> Kind
    ensures { result ≡ kind_in text.now }
{
    kind_of(text).unwrap_or(Kind::Standard)
}
