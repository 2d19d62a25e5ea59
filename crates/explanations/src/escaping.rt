//! Texts as XML has them.

ghost use Rattle.std.specs.Prelude.{List, ℕ, false, ◌≡◌, ◌++◌, OnOk};
ghost use Rattle.std.specs.List.{All};
ghost use Rattle.explanations.specs.Escaping.{escaped, escaped_byte, is_markup};

use std::alloc::AllocError;

// Appends a byte as XML has it, after the two bytes before it.
pub(crate) fn push_escaped_byte(
    text: &mut Vec<u8>,
    first: u8,
    second: u8,
    byte: u8,
) -> Result<(), AllocError>
    ensures { OnOk result (text.new.items ≡ text.old.items ++ escaped_byte first second byte) }
{
    if byte == b'&' {
        text.extend_from_slice(b"&amp;")
    } else if byte == b'<' {
        text.extend_from_slice(b"&lt;")
    } else if byte == b'>' {
        text.extend_from_slice(b"&gt;")
    } else if byte == b'"' {
        text.extend_from_slice(b"&quot;")
    } else if byte == b'\'' {
        text.extend_from_slice(b"&#39;")
    } else if byte < 32 {
        text.extend_from_slice(&[239, 191, 189])
    } else if first == 239 && second == 191 && 190 <= byte {
        text.extend_from_slice(&[189])
    } else {
        text.extend_from_slice(&[byte])
    }
}

// Appends a text as XML has it.
pub(crate) fn push_escaped(text: &mut Vec<u8>, bytes: &[u8]) -> Result<(), AllocError>
    ensures { OnOk result (text.new.items ≡ text.old.items ++ escaped bytes.now) }
{
    let mut first = 0;
    let mut second = 0;
    for byte in bytes {
        push_escaped_byte(text, first, second, *byte)?;
        first = second;
        second = *byte;
    }
    Ok(())
}

/// A law: a text of a drawing has no `<`, `>` or quote, whatever the word is. So it ends neither its element nor an attribute.
pub fn texts_of_drawings_are_escaped()
    ensures { (text : List ℕ) → All (λ byte. is_markup byte ≡ false) (escaped text) }
{}
