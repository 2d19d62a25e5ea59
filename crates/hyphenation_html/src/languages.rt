//! Dictionaries by languages.

ghost use Rattle.std.specs.Prelude.{◌≡◌, map};
ghost use Rattle.std.specs.Option.{option_map};
ghost use Rattle.hyphenation_html.specs.Languages.{coded, serves, better, best_of};

use any_dictionary::AnyDictionary;
use html_pieces::bytes::is_same_name;

/// A dictionary, and the code of the language that it serves.
#[derive(Drop)]
pub struct LanguageDictionary {
    /// The code, as `de` or `en-GB`. It serves the language of this code and those that begin with it and a hyphen.
    pub code: String,
    /// The dictionary.
    pub dictionary: AnyDictionary,
}

// Whether a code is that of a language tag, or of what is before one of its hyphens.
#[tactic(auto, unfolding(crate::specs::Languages::serves))]
fn serves(code: &[u8], tag: &[u8]) -> bool
    ensures { result ≡ serves code.now tag.now }
{
    if code.len() > tag.len() {
        return false;
    }
    is_same_name(code, &tag[..code.len()]) && (code.len() == tag.len() || tag[code.len()] == b'-')
}

// Returns the better of the best language so far and of one more.
fn better<'l>(
    tag: &[u8],
    best: Option<&'l LanguageDictionary>,
    language: &'l LanguageDictionary,
) -> Option<&'l LanguageDictionary>
    ensures { option_map (λ l. coded l.now) result
        ≡ better tag.now (option_map (λ l. coded l.now) best.entry) (coded language.now) }
{
    let length = match best {
        Some(best) => best.code.len(),
        None => 0,
    };
    if serves(language.code.as_bytes(), tag) && length < language.code.len() {
        Some(language)
    } else {
        best
    }
}

/// Returns the dictionary that serves a language tag: of those whose codes serve it the first with the longest code. `None`
/// if no code serves it.
///
/// A code serves the tag that it is, and each one that begins with it and a hyphen. ASCII capitals and small letters are
/// alike.
///
/// ```text
/// best_of(&languages, b"de-CH")      // that of de-ch, or else that of de
/// ```
pub fn best_of<'l>(
    languages: &'l [LanguageDictionary],
    tag: &[u8],
) -> Option<&'l LanguageDictionary>
    ensures { option_map (λ l. coded l.now) result ≡ best_of tag.now (map coded languages.now) }
{
    let mut best: Option<&'l LanguageDictionary> = None;
    for language in languages {
        best = better(tag, best, language);
    }
    best
}
