//! The form of a page, kinds of bytes, and names.

ghost use Rattle.std.specs.Prelude.{◌≡◌, map};
ghost use Rattle.html_pieces.specs.Bytes.{is_white_space, is_alpha, is_alphanumeric, is_continuation, ends_name};
ghost use Rattle.html_pieces.specs.Bytes.{is_same_name, is_xml, is_name_start, is_same_in, is_one_of};

/// The form of a page.
#[derive(Clone, Copy, Debug, PartialEq, Eq)]
pub enum PageForm {
    /// HTML, as browsers read it: names of elements say how they are read, and end tags may be left out.
    Html,
    /// XML, as in XHTML and e-books: each element has an end tag or ends with `/>`, and case tells names apart.
    Xml,
}

impl PageForm {
    /// Reports whether the page is XML.
    pub const fn is_xml(self) -> bool
        ensures { result ≡ is_xml self }
    {
        matches!(self, PageForm::Xml)
    }
}

/// Reports whether a byte is ASCII whitespace, as HTML has it.
pub const fn is_white_space(byte: u8) -> bool
    ensures { result ≡ is_white_space byte }
{
    byte == b'\t' || byte == b'\n' || byte == b'\x0c' || byte == b'\r' || byte == b' '
}

/// Reports whether a byte is an ASCII letter.
pub const fn is_alpha(byte: u8) -> bool
    ensures { result ≡ is_alpha byte }
{
    b'A' <= byte && byte <= b'Z' || b'a' <= byte && byte <= b'z'
}

/// Reports whether a byte is an ASCII letter or digit.
pub const fn is_alphanumeric(byte: u8) -> bool
    ensures { result ≡ is_alphanumeric byte }
{
    is_alpha(byte) || b'0' <= byte && byte <= b'9'
}

/// Reports whether a byte of UTF-8 is not the first of its character.
pub const fn is_continuation(byte: u8) -> bool
    ensures { result ≡ is_continuation byte }
{
    128 <= byte && byte < 192
}

/// Reports whether a byte ends the name of a tag.
pub const fn ends_name(byte: u8) -> bool
    ensures { result ≡ ends_name byte }
{
    is_white_space(byte) || byte == b'/' || byte == b'>'
}

// Reports whether two names of one length are one.
fn is_same_by_letters(a: &[u8], b: &[u8]) -> bool
    ensures { result ≡ is_same_name a.now b.now }
{
    a.eq_ignore_ascii_case(b)
}

/// Reports whether two names are one, where ASCII capitals and small letters are alike.
// It is laid into its callers: most names differ in length, and there that of one name is known.
#[inline(always)]
pub fn is_same_name(a: &[u8], b: &[u8]) -> bool
    ensures { result ≡ is_same_name a.now b.now }
{
    if a.len() != b.len() {
        return false;
    }
    is_same_by_letters(a, b)
}

/// Reports whether a name is one of a table, where ASCII capitals and small letters are alike.
#[inline]
pub fn is_one_of(name: &[u8], table: &[&[u8]]) -> bool
    ensures { result ≡ is_one_of (map (λ other. other.now) table.now) name.now }
{
    for other in table {
        if is_same_name(name, other) {
            return true;
        }
    }
    false
}

/// Reports whether a byte begins the name of a tag.
pub const fn is_name_start(form: PageForm, byte: u8) -> bool
    ensures { result ≡ is_name_start form byte }
{
    match form {
        PageForm::Html => is_alpha(byte),
        PageForm::Xml => is_alpha(byte) || byte == b':' || byte == b'_' || 195 <= byte,
    }
}

/// Reports whether two names are one in a form of pages.
#[tactic(auto, unfolding(crate::specs::Bytes::is_same_in))]
pub fn is_same_in(form: PageForm, a: &[u8], b: &[u8]) -> bool
    ensures { result ≡ is_same_in form a.now b.now }
{
    match form {
        PageForm::Html => is_same_name(a, b),
        PageForm::Xml => a == b,
    }
}
