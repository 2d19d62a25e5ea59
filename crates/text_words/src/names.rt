//! The signs of names, which are left whole.

ghost use Rattle.std.specs.Prelude.{◌≡◌, ◌∷◌, ℕ, List, false, map};
ghost use Rattle.text_words.specs.Names.{is_of_word, begins_with_at, begins_with_mark, begins_with_path, begins_with_sign};
ghost use Rattle.text_words.specs.Names.{begins_with_word, ends_name, ends_with, has_end_of, is_name};

/// The endings by which the name of a file or of a host is told, after its last dot.
///
/// Which of them these are is a choice of this crate. Few of them are words that may come right after a dot.
pub const ENDINGS: [&[u8]; 44] = [
    b"cfg", b"com", b"conf", b"css", b"csv", b"deb", b"de", b"dll", b"docx", b"doc", b"edu",
    b"epub", b"exe", b"fr", b"gif", b"gz", b"html", b"htm", b"hu", b"ini", b"jpeg", b"jpg",
    b"json", b"js", b"log", b"md", b"mp3", b"net", b"odt", b"org", b"pdf", b"png", b"py", b"sh",
    b"svg", b"tar", b"tex", b"txt", b"uk", b"xhtml", b"xml", b"yaml", b"yml", b"zip",
];

/// Reports whether a byte is an ASCII letter or digit, or of a character beyond ASCII.
pub const fn is_of_word(byte: u8) -> bool
    ensures { result ≡ is_of_word byte }
{
    byte.is_ascii_alphanumeric() || byte >= 128
}

// Whether a byte begins a sign of a name, or may do so.
#[inline(always)]
#[tactic(auto, unfolding(crate::specs::Names::begins_with_sign))]
const fn may_begin_sign(byte: u8) -> bool
    ensures { result ≡ false → (before : ℕ) (text : List ℕ) → begins_with_sign before (byte ∷ text) ≡ false }
{
    byte == b':'
        || byte == b'w'
        || byte == b'@'
        || byte == b'\\'
        || byte == b'_'
        || byte == b'/'
        || byte == b'.'
        || byte == b'~'
}

// Whether a text begins with a byte of a word.
fn begins_with_word(text: &[u8]) -> bool
    ensures { result ≡ begins_with_word text.now }
{
    text.len() > 0 && is_of_word(text[0])
}

// Whether a text begins with an `@` between a byte before it and one after it, which are of words.
fn begins_with_at(before: u8, text: &[u8]) -> bool
    ensures { result ≡ begins_with_at before text.now }
{
    text.len() > 1 && text[0] == b'@' && is_of_word(before) && is_of_word(text[1])
}

// Whether a text begins with a backslash or a low line.
fn begins_with_mark(text: &[u8]) -> bool
    ensures { result ≡ begins_with_mark text.now }
{
    text.len() > 0 && (text[0] == b'\\' || text[0] == b'_')
}

// Whether a text begins a path, after a byte that is of no word.
fn begins_with_path(before: u8, text: &[u8]) -> bool
    ensures { result ≡ begins_with_path before text.now }
{
    text.len() > 1
        && !is_of_word(before)
        && (text[0] == b'/' && is_of_word(text[1])
            || (text[0] == b'.' || text[0] == b'~') && text[1] == b'/')
}

// Whether a text begins with an ending, after which no byte of a word follows.
fn ends_with(text: &[u8], ending: &[u8]) -> bool
    ensures { result ≡ ends_with text.now ending.now }
{
    text.starts_with(ending) && !begins_with_word(&text[ending.len()..])
}

// Whether it does so with one of a table of endings.
fn has_end_of(text: &[u8], endings: &[&[u8]]) -> bool
    ensures { result ≡ has_end_of text.now (map (λ ending. ending.now) endings.now) }
{
    for ending in endings {
        if ends_with(text, ending) {
            return true;
        }
    }
    false
}

// Whether a text begins with the dot before the ending of a name. A byte is before it.
fn ends_name(before: u8, text: &[u8]) -> bool
    ensures { result ≡ ends_name before text.now }
{
    text.len() > 0 && text[0] == b'.' && is_of_word(before) && has_end_of(&text[1..], &ENDINGS)
}

// Whether a text begins with a sign of a name. A byte is before it.
#[tactic(auto, unfolding(crate::specs::Names::begins_with_sign))]
fn begins_with_sign(before: u8, text: &[u8]) -> bool
    ensures { result ≡ begins_with_sign before text.now }
{
    text.starts_with(b":/")
        || text.starts_with(b"www.")
        || begins_with_at(before, text)
        || begins_with_mark(text)
        || begins_with_path(before, text)
        || ends_name(before, text)
}

/// Reports whether a part of a text is a name, which is left whole: an address of the web or of mail, a path, an
/// identifier, or the name of a file or a host. It may have punctuation around it. The part is between white space.
///
/// It is one if it has any of these signs:
///
/// - `:/`, `www.`, a backslash or a low line;
/// - an `@` between two ASCII letters or digits or characters beyond ASCII;
/// - at its beginning, or after another sign of ASCII, `./`, `~/`, or a slash before a letter or digit;
/// - after a letter or digit a dot and one of [`ENDINGS`], after which neither follows.
///
/// ```text
/// is_name("<https://example.org/a-b>,")       // true
/// is_name("(ada@example.org)")                // true
/// is_name("/usr/share")                       // true
/// is_name("is_name")                          // true
/// is_name("README.md,")                       // true
/// is_name("and/or")                           // false
/// is_name("end.Begin")                        // false
/// ```
#[tactic(auto, unfolding(crate::specs::Names::is_name))]
pub fn is_name(text: &str) -> bool
    ensures { result ≡ is_name text.now }
{
    let bytes = text.as_bytes();
    let mut before = 0;
    for at in 0..bytes.len() {
        let byte = bytes[at];
        if may_begin_sign(byte) && begins_with_sign(before, &bytes[at..]) {
            return true;
        }
        before = byte;
    }
    false
}
