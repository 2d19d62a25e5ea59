//! Words that are left as they are.

ghost use Rattle.std.specs.Prelude.{◌≡◌, chars, length, nat_lt};
ghost use Rattle.hyphenation_text.specs.Words.{first_is_capital, is_passed_over, has_soft_hyphen_after, is_left_whole};

use crate::settings::Settings;
use text_words::is_name;
use unicode::properties::is_uppercase;

// Whether a word begins with a capital.
fn begins_with_capital(word: &str) -> bool
    ensures { result ≡ first_is_capital (chars word.now) }
{
    match word.chars().next() {
        Some(first) => is_uppercase(first),
        None => false,
    }
}

// Counts the characters of a word.
fn count_characters(word: &str) -> usize
    ensures { result ≡ length (chars word.now) }
{
    word.chars().count()
}

// Whether a word has fewer characters than a number. They are counted only where the number is not 0.
fn is_short(word: &str, least: usize) -> bool
    ensures { result ≡ nat_lt (length (chars word.now)) least }
{
    least > 0 && count_characters(word) < least
}

// Whether a word is left as it is: it is short, or begins with a capital where such words are left alone.
#[tactic(auto, unfolding(crate::specs::Words::is_passed_over))]
pub(crate) fn is_passed_over(settings: &Settings<'_>, word: &str) -> bool
    ensures { result ≡ is_passed_over settings.now.min_word settings.now.skip_capitals word.now }
{
    is_short(word, settings.min_word) || settings.skip_capitals && begins_with_capital(word)
}

// Whether a token has a soft hyphen.
fn has_soft_hyphen(token: &[u8]) -> bool
    ensures { result ≡ has_soft_hyphen_after 0 token.now }
{
    let mut before = 0;
    for byte in token {
        if before == 0xC2 && *byte == 0xAD {
            return true;
        }
        before = *byte;
    }
    false
}

// Whether a token is left whole: it has a soft hyphen of its own, or is a name.
#[tactic(auto, unfolding(crate::specs::Words::is_left_whole))]
pub(crate) fn is_left_whole(token: &str) -> bool
    ensures { result ≡ is_left_whole token.now }
{
    has_soft_hyphen(token.as_bytes()) || is_name(token)
}
