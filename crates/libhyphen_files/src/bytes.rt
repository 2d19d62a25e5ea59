//! Bytes of texts in the charset of a file.

ghost use Rattle.std.specs.Prelude.{◌≡◌};
ghost use Rattle.libhyphen_files.specs.Bytes.{before_nul, continues};

/// Returns a text up to its first byte 0, as C reads it.
pub fn before_nul(text: &[u8]) -> &[u8]
    ensures { result.now ≡ before_nul text.now }
{
    for (i, byte) in text.iter().enumerate() {
        if *byte == 0 {
            return &text[..i];
        }
    }
    text
}

/// Reports whether a byte continues a character of UTF-8.
#[inline(always)]
pub fn continues(byte: u8) -> bool
    ensures { result ≡ continues byte }
{
    (128..192).contains(&byte)
}
