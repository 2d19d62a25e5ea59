//! Texts of bytes.

ghost use Rattle.std.specs.Prelude.{◌≡◌, false, true, IfSome, IfNone};
ghost use Rattle.std.specs.Str.{is_utf8};
ghost use Rattle.std.specs.String.{string_bytes};

use hyphenation_grammar::lines::is_utf8;

/// Returns the text of bytes that are UTF-8, and none of other bytes.
pub fn text_from_utf8(bytes: Vec<u8>) -> Option<String>
    ensures same_bytes { IfSome result (λ text. string_bytes text ≡ bytes.items) }
    ensures utf8 { IfSome result (λ _. is_utf8 bytes.items ≡ true) }
    ensures not_utf8 { IfNone result (is_utf8 bytes.items ≡ false) }
{
    if !is_utf8(&bytes) {
        return None;
    }
    Some(String::from_utf8(bytes).unwrap())
}
