//! Steps over the characters of a text.

ghost use Rattle.std.specs.Prelude.{◌≡◌, ◌<◌, ◌≤◌, [], reverse, MatchOption};
ghost use Rattle.std.specs.Str.{chars, IsCharBoundary};
ghost use Rattle.unicode_segmentation.specs.Steps.{IsCharAt};
ghost use Rattle.word_pieces.specs.Private.Walks.{IsFirstChar, IsLastChar};

// Returns the character that begins at an offset, and the offset at which it ends.
#[inline(always)]
pub(crate) fn char_at(text: &str, start: usize, limit: usize) -> (char, usize)
    requires some { start < limit }
    requires start { IsCharBoundary text.now start }
    requires limit { IsCharBoundary text.now limit }
    ensures is { IsCharAt text.now start result.0 result.1 }
    ensures within { result.1 ≤ limit }
{
    let mut chars = text[start..limit].chars();
    let Some(c) = chars.next() else {
        unreachable!()
    };
    (c, limit - chars.as_str().len())
}

// Returns the first character of a text, and what follows it.
#[inline]
pub(crate) fn split_first_char(text: &str) -> Option<(char, &str)>
    ensures { MatchOption result ((chars text.now ≡ []) × (text.now ≡ [])) (λ (c, rest). IsFirstChar text.now c rest.now) }
{
    let mut chars = text.chars();
    match chars.next() {
        Some(c) => Some((c, chars.as_str())),
        None => None,
    }
}

// Returns the last character of a text, and what precedes it.
#[inline]
pub(crate) fn split_last_char(text: &str) -> Option<(char, &str)>
    ensures { MatchOption result ((reverse (chars text.now) ≡ []) × (text.now ≡ []))
        (λ (c, rest). IsLastChar text.now c rest.now) }
{
    let mut chars = text.chars();
    match chars.next_back() {
        Some(c) => Some((c, chars.as_str())),
        None => None,
    }
}
