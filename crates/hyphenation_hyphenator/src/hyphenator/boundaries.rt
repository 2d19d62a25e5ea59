//! The first and the last place at which the minima allow a break.

ghost use Rattle.std.specs.Prelude.{◌≡◌, ◌≤◌, ◌<◌, ◌-◌, IsTrue, IfSome, IfNone, Some, None, false, length, chars};
ghost use Rattle.std.specs.Str.{IsAscii, IsCharBoundary};
ghost use Rattle.hyphenation_hyphenator.specs.Boundaries.{boundaries};
ghost use Rattle.hyphenation_hyphenator.specs.Places.{place_of_character};

/// Returns the first and the last place at which minima allow a break of a word, in bytes.
///
/// The minima `(l, r)` count characters. For a word of `c` characters the boundaries are the places of the characters
/// number `l` and `c - max(r, 1)`, counted from 0. The result is `None` where the word has fewer than `l + r`
/// characters, or no more than `l`.
///
/// ```text
/// boundaries_of((2, 3), "hyphenation")      // Some((2, 8))
/// boundaries_of((2, 3), "hyph")             // None
/// ```
pub fn boundaries_of(minima: (usize, usize), word: &str) -> Option<(usize, usize)>
    ensures value { result ≡ boundaries minima.0 minima.1 word.now }
    ensures ordered { IfSome result (λ bounds. bounds.0 ≤ bounds.1) }
    ensures first_at_character { IfSome result (λ bounds. IsCharBoundary word.now bounds.0) }
    ensures last_at_character { IfSome result (λ bounds. IsCharBoundary word.now bounds.1) }
{
    // Only the characters outside of the bounds are read: those before the first, and those after the last.
    let (left, right) = minima;
    let last = place_of_character_from_end(word, right.max(1))?;
    let first = place_of_character(word, left);
    if last < first {
        return None;
    }
    Some((first, last))
}

// Returns the boundaries of a word. Those of a word that is known to be ASCII, whose characters are its bytes, are found
// without reading it.
#[inline(always)]
pub(super) fn boundaries_where(
    is_ascii: bool,
    minima: (usize, usize),
    word: &str,
) -> Option<(usize, usize)>
    requires { IsTrue is_ascii → IsAscii word.now }
    ensures { result ≡ boundaries minima.0 minima.1 word.now }
{
    if !is_ascii {
        return boundaries_of(minima, word);
    }
    let (left, right) = minima;
    let bytes = word.len();
    if bytes <= left || bytes - left < right {
        return None;
    }
    Some((left, bytes - right.max(1)))
}

// Returns the place of a character by its number from 0, or the text's end where there are not that many.
fn place_of_character(text: &str, number: usize) -> usize
    ensures value { result ≡ place_of_character text.now number }
    ensures boundary { IsCharBoundary text.now result }
{
    let mut rest = text;
    for count in 0..number {
        let mut chars = rest.chars();
        match chars.next() {
            Some(_) => rest = chars.as_str(),
            None => return text.len(),
        }
    }
    text.len() - rest.len()
}

// Returns the place from which on the text has that many characters, or `None` where it has fewer.
fn place_of_character_from_end(text: &str, number: usize) -> Option<usize>
    ensures enough { IfSome result (λ place. number ≤ length (chars text.now)) }
    ensures value { IfSome result (λ place. place ≡ place_of_character text.now (length (chars text.now) - number)) }
    ensures boundary { IfSome result (λ place. IsCharBoundary text.now place) }
    ensures few { IfNone result (length (chars text.now) < number) }
{
    let mut rest = text;
    for count in 0..number {
        let mut chars = rest.chars();
        chars.next_back()?;
        rest = chars.as_str();
    }
    Some(rest.len())
}
