//! Testing whether a word has only the letters a to z, as most words do.

ghost use Rattle.std.specs.Prelude.{◌≡◌, ◌+◌, ◌≤◌, ◌&&◌, length};
ghost use Rattle.std.specs.Char.{is_ascii_lowercase};
ghost use Rattle.std.specs.List.{list_all};

// Whether all bytes of two arrays are letters. It has no early exit, so that the bytes can be tested at once.
#[inline(always)]
fn are_ascii_lowercase_at_once<const N: usize>(first: &[u8; N], last: &[u8; N]) -> bool
    ensures { result ≡ (list_all is_ascii_lowercase first.now && list_all is_ascii_lowercase last.now) }
{
    let mut all = true;
    for at in 0..N {
        all &= first[at].is_ascii_lowercase();
        all &= last[at].is_ascii_lowercase();
    }
    all
}

// Whether each of at least `N` bytes, and at most twice as many, is one of the letters a to z. The first `N` and the
// last `N` bytes are tested at once. They have some bytes in common, and together they are all.
#[inline(always)]
fn are_ascii_lowercase_by_ends<const N: usize>(word: &[u8]) -> bool
    requires least { N ≤ length word.now }
    requires most { length word.now ≤ N + N }
    ensures { result ≡ list_all is_ascii_lowercase word.now }
{
    let Some((first, _)) = word.split_first_chunk::<N>() else {
        return false;
    };
    let Some((_, last)) = word.split_last_chunk::<N>() else {
        return false;
    };
    are_ascii_lowercase_at_once(first, last)
}

// Whether each byte is one of the letters a to z, tested one by one.
#[inline(always)]
fn are_ascii_lowercase_in_turn(word: &[u8]) -> bool
    ensures { result ≡ list_all is_ascii_lowercase word.now }
{
    word.iter().all(|byte| byte.is_ascii_lowercase())
}

// Whether each byte is one of the letters a to z. Most words have 4 to 32 bytes.
#[inline(always)]
pub(super) fn are_ascii_lowercase(word: &[u8]) -> bool
    ensures { result ≡ list_all is_ascii_lowercase word.now }
{
    let count = word.len();
    if 8 < count && count <= 16 {
        are_ascii_lowercase_by_ends::<8>(word)
    } else if 4 <= count && count <= 8 {
        are_ascii_lowercase_by_ends::<4>(word)
    } else if 16 < count && count <= 32 {
        are_ascii_lowercase_by_ends::<16>(word)
    } else {
        are_ascii_lowercase_in_turn(word)
    }
}
