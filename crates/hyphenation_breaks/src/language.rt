//! Languages, known by their codes.
//!
//! There is no table of languages: each text of 1 to 32 bytes of `a-z`, `0-9` and `-` is a code.

ghost use Rattle.std.specs.Prelude.{◌≡◌, ◌<◌, ◌≤◌, ◌↔◌, IsSome, IfSome, codes};
ghost use Rattle.hyphenation_breaks.specs.Language.{IsCode, is_code, is_code_byte};
ghost use Rattle.std.specs.List.{list_all};

use std::fmt;
use std::marker::Model;

/// A language, known by its code: 1 to 32 bytes of `a-z`, `0-9` and `-`.
///
/// `Display` writes the code.
#[derive(Clone, Copy)]
pub struct Language {
    // The code, with zeros after it.
    bytes: [u8; 32],
    len: usize,
}

impl Model for Language {
    ghost use Rattle.std.specs.Prelude.{◌≡◌, ◌-◌, ◌≤◌, ◌++◌, List, ℕ, length, take, replicate};
    ghost use Rattle.hyphenation_breaks.specs.Private.Language.{IsPadded, padded-take};

    ghost Value = { List ℕ };

    ghost view = { λ s. take s.len s.bytes };

    ghost invariant = { λ s. IsPadded s.len s.bytes };

    ghost inverse = { λ code. record { bytes = code ++ replicate (32 - length code) 0; len = length code } };

    ghost inverse_ok = { λ s h i. record {
      bytes = (padded-take s.len s.bytes h.within h.zeros).0 i;
      len = (padded-take s.len s.bytes h.within h.zeros).1 i;
    } };
}

// Reports whether a byte may occur in a code.
fn is_code_byte(byte: u8) -> bool
    ensures { result ≡ is_code_byte byte }
{
    matches!(byte, b'a'..=b'z' | b'0'..=b'9' | b'-')
}

// Reports whether each byte of a text may occur in a code.
fn are_code_bytes(text: &[u8]) -> bool
    ensures { result ≡ list_all is_code_byte text.now }
{
    text.iter().all(|b| is_code_byte(*b))
}

// Reports whether a text is a code.
fn is_code(text: &[u8]) -> bool
    ensures { result ≡ is_code text.now }
{
    (1..=32).contains(&text.len()) && are_code_bytes(text)
}

impl Language {
    /// Returns the language of a code, or `None` if the text is not a code.
    ///
    /// ```text
    /// Language::from_code("en-gb")    // Some(Language("en-gb"))
    /// Language::from_code("en_GB")    // None: a code has no capitals and no underscore
    /// ```
    pub fn from_code(code: &str) -> Option<Language>
        ensures if_code { IsSome result ↔ IsCode code.now }
        ensures code { IfSome result (λ language. language ≡ code.now) }
    {
        let text = code.as_bytes();
        let len = text.len();
        if !is_code(text) {
            return None;
        }
        let mut bytes = [0u8; 32];
        bytes[..len].copy_from_slice(text);
        Some(Language { bytes, len })
    }

    /// Returns American English, `en-us`.
    pub fn english_us() -> Language
        ensures { result ≡ codes "en-us" }
    {
        Language::from_code("en-us").unwrap()
    }

    /// Returns Hungarian, `hu`.
    pub fn hungarian() -> Language
        ensures { result ≡ codes "hu" }
    {
        Language::from_code("hu").unwrap()
    }

    /// Returns Turkish, `tr`.
    pub fn turkish() -> Language
        ensures { result ≡ codes "tr" }
    {
        Language::from_code("tr").unwrap()
    }

    /// Gives proofs the invariant of a language: its text is a code. The call does nothing.
    pub fn invariant(&self)
        ensures { IsCode self.now }
    {
        // Reading a field gives the proof the invariant of the type.
        let _len = self.len;
    }

    /// Returns the code.
    pub fn code(&self) -> &str
        ensures { result.now ≡ self.now }
    {
        let Language { bytes, len } = self;
        std::str::from_utf8(&bytes[..*len]).unwrap()
    }
}

/// Two languages are equal if their codes are equal.
impl PartialEq for Language {
    ghost use Rattle.std.specs.Cmp.{partial_equiv_from_equiv};
    ghost use Rattle.std.specs.Cmp.Lexicographic.{nat_list_eq_equiv};
    ghost use Rattle.std.specs.Str.{bytes_eq};

    ghost eq = { bytes_eq };

    ghost laws = { partial_equiv_from_equiv nat_list_eq_equiv };

    fn eq(&self, other: &Language) -> bool {
        self.code() == other.code()
    }
}

impl Eq for Language {
    ghost use Rattle.std.specs.Cmp.Lexicographic.{nat_list_eq_equiv};

    ghost laws = { nat_list_eq_equiv };
}

/// Writes `Language("en-us")` for the code `en-us`.
impl fmt::Debug for Language {
    fn fmt<W: fmt::Write>(&self, f: &mut fmt::Formatter<W>) -> fmt::Result {
        f.debug_tuple("Language").field(&self.code()).finish()
    }
}

impl fmt::Display for Language {
    ghost use Rattle.std.specs.Prelude.{Some};
    ghost use Rattle.std.specs.Fmt.{padded};

    ghost output = { λ language. Some language };

    ghost styled_output = { λ language spec. Some (padded spec language) };

    fn fmt<W: fmt::Write>(&self, f: &mut fmt::Formatter<W>) -> fmt::Result {
        f.pad(self.code())
    }
}
