//! Kinds of bytes.

ghost use Rattle.std.specs.Prelude.{◌≡◌};
ghost use Rattle.markdown_pieces.specs.Bytes.{is_punctuation, is_prefix, is_opening, is_special};

use html_pieces::bytes::is_white_space;

// Reports whether a byte is ASCII punctuation.
pub(crate) const fn is_punctuation(byte: u8) -> bool
    ensures { result ≡ is_punctuation byte }
{
    33 <= byte && byte <= 47
        || 58 <= byte && byte <= 64
        || 91 <= byte && byte <= 96
        || 123 <= byte && byte <= 126
}

// Reports whether a line may begin with a byte before its text.
pub(crate) const fn is_prefix(byte: u8) -> bool
    ensures { result ≡ is_prefix byte }
{
    byte == b'\x0c'
        || byte == b'#'
        || b')' <= byte && byte <= b'+'
        || byte == b'-'
        || byte == b'.'
        || b'0' <= byte && byte <= b'9'
        || byte == b'='
        || byte == b'>'
        || byte == b'_'
        || byte == b'|'
}

// Reports whether a byte at the beginning of a line is not of its text, or may not be.
pub(crate) const fn is_opening(byte: u8) -> bool
    ensures { result ≡ is_opening byte }
{
    is_white_space(byte) || is_prefix(byte) || byte == b'`' || byte == b'~' || byte == b'<'
}

/// Reports whether a byte within a line may be markup, or is a line feed.
pub const fn is_special(byte: u8) -> bool
    ensures { result ≡ is_special byte }
{
    byte == b'\n'
        || byte == b'!'
        || byte == b'&'
        || byte == b'<'
        || b'[' <= byte && byte <= b']'
        || byte == b'`'
}
