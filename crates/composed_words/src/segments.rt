//! Segments of words, which NFC keeps apart.

ghost use Rattle.std.specs.Prelude.{◌≡◌, ◌<◌, ◌++◌, chars, length, true, IsUtf8};
ghost use Rattle.composed_words.specs.Private.Segments.{begin_apart, is_apart};

use ucd_normal::{Form, QuickCheck, class_and_quick_check};

// Whether NFC keeps a character apart from all that is before it.
fn is_apart(c: char) -> bool
    ensures { result ≡ is_apart c }
{
    let (class, answer) = class_and_quick_check(c, Form::Nfc);
    class == 0 && matches!(answer, QuickCheck::Yes)
}

// Cuts a text after its first segment.
pub(crate) fn split_segment(text: &str) -> (&str, &str)
    ensures parts { text.now ≡ result.0.now ++ result.1.now }
    ensures some { 0 < length text.now → 0 < length result.0.now }
    ensures front { IsUtf8 result.0.now }
    ensures rest { IsUtf8 result.1.now }
    ensures apart { begin_apart (chars result.1.now) ≡ true }
{
    let mut iter = text.chars();
    let _first = iter.next();
    'scan: loop {
        let here = iter.as_str();
        let Some(c) = iter.next() else {
            return (text, here);
        };
        if is_apart(c) {
            return (&text[..text.len() - here.len()], here);
        }
    }
}
