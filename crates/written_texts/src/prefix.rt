//! The prefix of a line: its quote signs, its indent, and the mark of an item.

ghost use Rattle.std.specs.Prelude.{◌≡◌, ◌≤◌, drop, length};
ghost use Rattle.std.specs.Char.{is_ascii_digit};
ghost use Rattle.std.specs.List.{prefix_len};
ghost use Rattle.written_texts.specs.Private.Cuts.{EndsInAscii};
ghost use Rattle.written_texts.specs.Prefixes.{is_deep, is_indent, is_item, indent_length, lead_length, mark_length};
ghost use Rattle.written_texts.specs.Prefixes.{number_length};
ghost use Rattle.written_texts.specs.Prefixes.{quote_length, sign_length, signs_length, lead_of, quote_of, rest_of};
ghost use Rattle.written_texts.specs.Prefixes as parts;

// Reports whether a text is indented as code is.
pub(crate) fn is_deep(text: &[u8]) -> bool
    ensures { result ≡ is_deep text.now }
{
    text.starts_with(b"    ") || text.starts_with(b"\t")
}

// Returns the bytes up to the last quote sign of those that a text begins with.
fn signs_length(text: &[u8]) -> usize
    ensures { result ≡ signs_length text.now }
{
    let mut length = 0;
    for (i, byte) in text.iter().enumerate() {
        if *byte == b'>' {
            length = i + 1;
        } else if *byte != b' ' {
            return length;
        }
    }
    length
}

// Returns the bytes of a line's quote.
fn quote_length(line: &[u8]) -> usize
    ensures { result ≡ quote_length line.now }
{
    if is_deep(line) { 0 } else { signs_length(line) }
}

// Returns the bytes of the spaces and tabs that a text begins with.
fn indent_length(text: &[u8]) -> usize
    ensures value { result ≡ indent_length text.now }
    ensures within { result ≤ length text.now }
{
    for (i, byte) in text.iter().enumerate() {
        if *byte != b' ' && *byte != b'\t' {
            return i;
        }
    }
    text.len()
}

// Returns the bytes of the digits that a text begins with.
fn digits_length(text: &[u8]) -> usize
    ensures value { result ≡ prefix_len is_ascii_digit text.now }
    ensures within { result ≤ length text.now }
{
    for (i, byte) in text.iter().enumerate() {
        if !byte.is_ascii_digit() {
            return i;
        }
    }
    text.len()
}

// Returns the bytes of an item's number, or 0.
fn number_length(text: &[u8]) -> usize
    ensures value { result ≡ number_length text.now }
    ensures within { result ≤ length text.now }
{
    let digits = digits_length(text);
    if digits == 0 || digits > 3 || digits == text.len() {
        return 0;
    }
    if text[digits] == b'.' || text[digits] == b')' {
        digits + 1
    } else {
        0
    }
}

// Returns the bytes of an item's sign, or 0.
fn sign_length(text: &[u8]) -> usize
    ensures value { result ≡ sign_length text.now }
    ensures within { result ≤ length text.now }
{
    if text.starts_with(b"-") || text.starts_with(b"*") || text.starts_with(b"+") {
        1
    } else if text.starts_with(b"\xE2\x80\xA2") {
        3
    } else {
        number_length(text)
    }
}

// Returns the text after that many bytes, which end in ASCII.
fn after(text: &str, place: usize) -> &str
    requires { EndsInAscii text.now place }
    ensures { result.now ≡ drop place text.now }
{
    text.split_at(place).1
}

// Returns the bytes of an item's mark, or 0.
fn mark_length(text: &[u8]) -> usize
    ensures value { result ≡ mark_length text.now }
    ensures within { result ≤ length text.now }
{
    let sign = sign_length(text);
    let mark = sign + indent_length(&text[sign..]);
    if 0 < sign && sign < mark { mark } else { 0 }
}

// Returns the bytes of the indent and the mark of a line without its quote.
fn lead_length(text: &[u8]) -> usize
    ensures { result ≡ lead_length text.now }
{
    let indent = indent_length(text);
    indent + mark_length(&text[indent..])
}

/// A line in its parts: `text` is `quote` with `unquoted`, and that is `lead` with `rest`.
#[derive(Clone, Copy)]
pub(crate) struct Parted<'t> {
    /// The line.
    pub text: &'t str,
    /// Its quote signs.
    pub quote: &'t str,
    /// The line without its quote.
    pub unquoted: &'t str,
    /// The line without its quote and its indent.
    pub bare: &'t str,
    /// The indent and the mark.
    pub lead: &'t str,
    /// The line without quote, indent and mark.
    pub rest: &'t str,
    /// Whether it has a mark.
    pub item: bool,
    ghost quote_is: { quote.now ≡ quote_of text.now },
    ghost unquoted_is: { unquoted.now ≡ parts.unquoted text.now },
    ghost bare_is: { bare.now ≡ parts.bare text.now },
    ghost lead_is: { lead.now ≡ lead_of text.now },
    ghost rest_is: { rest.now ≡ rest_of text.now },
    ghost item_is: { item ≡ is_item text.now },
}

impl<'t> Parted<'t> {
    // Returns the parts of a line.
    pub(crate) fn of(text: &'t str) -> Parted<'t>
        ensures { result.text.now ≡ text.now }
    {
        let (quote, unquoted) = text.split_at(quote_length(text.as_bytes()));
        let bare = after(unquoted, indent_length(unquoted.as_bytes()));
        let (lead, rest) = unquoted.split_at(lead_length(unquoted.as_bytes()));
        Parted {
            text,
            quote,
            unquoted,
            bare,
            lead,
            rest,
            item: mark_length(bare.as_bytes()) > 0,
        }
    }
}
