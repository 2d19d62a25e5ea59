//! The words of a text, one by one.

ghost use Rattle.std.specs.Prelude.{◌≡◌, ◌∷◌, ◌++◌, ◌<◌, ◌≤◌, [], MatchOption, IfSome, IsUtf8, chars, encode_utf8};
ghost use Rattle.std.specs.Prelude.{length};
ghost use Rattle.paragraphs.specs.Words.{is_gap, words, EndsIn};
ghost use Rattle.paragraphs.specs.Private.Cuts.{begins_with, is_word_part, CutsWord};

/// Reports whether a character is a gap: white space, but no no-break space.
///
/// The no-break spaces are U+00A0, U+2007 and U+202F.
pub fn is_gap(c: char) -> bool
    ensures { result ≡ is_gap c }
{
    c.is_whitespace() && c != '\u{a0}' && c != '\u{2007}' && c != '\u{202f}'
}

// The first character of a text, and what is after it.
fn split_char(text: &str) -> Option<(char, &str)>
    ensures read { MatchOption result (text.now ≡ []) (λ x. text.now ≡ encode_utf8 x.0 ++ x.1.now) }
    ensures chars { MatchOption result (chars text.now ≡ []) (λ x. chars text.now ≡ x.0 ∷ chars x.1.now) }
    ensures less { IfSome result (λ x. length x.1.now < length text.now) }
    ensures utf8 { IfSome result (λ x. IsUtf8 x.1.now) }
{
    let mut chars = text.chars();
    let first = chars.next()?;
    Some((first, chars.as_str()))
}

// The text from its first character on that is no gap.
fn after_gaps(text: &str) -> &str
    ensures words { words result.now ≡ words text.now }
    ensures begins { begins_with is_word_part (chars result.now) }
    ensures end { EndsIn text.now result.now }
    ensures no_longer { length result.now ≤ length text.now }
{
    let mut rest = text;
    while let Some((c, after)) = split_char(rest) {
        if !is_gap(c) {
            return rest;
        }
        rest = after;
    }
    rest
}

// The text from its first gap on.
fn after_word(text: &str) -> &str
    ensures cut { CutsWord text.now result.now }
    ensures begins { begins_with is_gap (chars result.now) }
{
    let mut rest = text;
    while let Some((c, after)) = split_char(rest) {
        if is_gap(c) {
            return rest;
        }
        rest = after;
    }
    rest
}

/// Returns the first word of a text with the text after it, or `None` where it has no word. They are the end of the
/// text.
///
/// ```text
/// split_word(" two firkins")      // Some(("two", " firkins"))
/// split_word(" \n")               // None
/// ```
pub fn split_word(text: &str) -> Option<(&str, &str)>
    ensures word { MatchOption result (words text.now ≡ []) (λ x. words text.now ≡ x.0.now ∷ words x.1.now) }
    ensures end { IfSome result (λ x. EndsIn text.now (x.0.now ++ x.1.now)) }
    ensures less { IfSome result (λ x. length x.1.now < length text.now) }
{
    let begun = after_gaps(text);
    let rest = after_word(begun);
    let length = begun.len() - rest.len();
    if length == 0 {
        return None;
    }
    Some(begun.split_at(length))
}
