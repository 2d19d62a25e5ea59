//! Kinds of bytes, by the word bounds around them.

ghost use Rattle.std.specs.Prelude.{◌≡◌};
ghost use Rattle.word_pieces.specs.Private.Kinds.{kind_of_byte, verdict, may_be_letter};

use ByteKind::*;

// The kinds of bytes that differ in the bounds around them.
#[derive(Clone, Copy, PartialEq)]
pub(crate) enum ByteKind {
    // Letters, digits and the underscore, which join with one another.
    Letter,
    // `'`, `.`, `:`, `,` and `;`, some of which join between two letters, and some between two digits.
    Middle,
    Space,
    // CR.
    Return,
    // LF.
    Feed,
    // All others of ASCII, which join with no other.
    Alone,
    // Bytes of characters beyond ASCII.
    Beyond,
}

static KINDS: [ByteKind; 256] = [
    Alone, Alone, Alone, Alone, Alone, Alone, Alone, Alone, Alone, Alone, Feed, Alone, Alone,
    Return, Alone, Alone, Alone, Alone, Alone, Alone, Alone, Alone, Alone, Alone, Alone, Alone,
    Alone, Alone, Alone, Alone, Alone, Alone, Space, Alone, Alone, Alone, Alone, Alone, Alone,
    Middle, Alone, Alone, Alone, Alone, Middle, Alone, Middle, Alone, Letter, Letter, Letter,
    Letter, Letter, Letter, Letter, Letter, Letter, Letter, Middle, Middle, Alone, Alone, Alone,
    Alone, Alone, Letter, Letter, Letter, Letter, Letter, Letter, Letter, Letter, Letter, Letter,
    Letter, Letter, Letter, Letter, Letter, Letter, Letter, Letter, Letter, Letter, Letter, Letter,
    Letter, Letter, Letter, Letter, Alone, Alone, Alone, Alone, Letter, Alone, Letter, Letter,
    Letter, Letter, Letter, Letter, Letter, Letter, Letter, Letter, Letter, Letter, Letter, Letter,
    Letter, Letter, Letter, Letter, Letter, Letter, Letter, Letter, Letter, Letter, Letter, Letter,
    Alone, Alone, Alone, Alone, Alone, Beyond, Beyond, Beyond, Beyond, Beyond, Beyond, Beyond,
    Beyond, Beyond, Beyond, Beyond, Beyond, Beyond, Beyond, Beyond, Beyond, Beyond, Beyond, Beyond,
    Beyond, Beyond, Beyond, Beyond, Beyond, Beyond, Beyond, Beyond, Beyond, Beyond, Beyond, Beyond,
    Beyond, Beyond, Beyond, Beyond, Beyond, Beyond, Beyond, Beyond, Beyond, Beyond, Beyond, Beyond,
    Beyond, Beyond, Beyond, Beyond, Beyond, Beyond, Beyond, Beyond, Beyond, Beyond, Beyond, Beyond,
    Beyond, Beyond, Beyond, Beyond, Beyond, Beyond, Beyond, Beyond, Beyond, Beyond, Beyond, Beyond,
    Beyond, Beyond, Beyond, Beyond, Beyond, Beyond, Beyond, Beyond, Beyond, Beyond, Beyond, Beyond,
    Beyond, Beyond, Beyond, Beyond, Beyond, Beyond, Beyond, Beyond, Beyond, Beyond, Beyond, Beyond,
    Beyond, Beyond, Beyond, Beyond, Beyond, Beyond, Beyond, Beyond, Beyond, Beyond, Beyond, Beyond,
    Beyond, Beyond, Beyond, Beyond, Beyond, Beyond, Beyond, Beyond, Beyond, Beyond, Beyond, Beyond,
    Beyond, Beyond, Beyond, Beyond, Beyond, Beyond, Beyond, Beyond, Beyond, Beyond, Beyond, Beyond,
    Beyond,
];

// Returns the kind of a byte.
#[inline(always)]
pub(crate) fn kind_of(byte: u8) -> ByteKind
    ensures { result ≡ kind_of_byte byte }
{
    KINDS[byte as usize]
}

const BOUND: Option<bool> = Some(true);

const JOINT: Option<bool> = Some(false);

// Whether there is a bound between characters of two kinds, or `None` where these don't decide it.
#[inline(always)]
pub(crate) fn verdict(last: ByteKind, next: ByteKind) -> Option<bool>
    ensures { result ≡ verdict last next }
{
    // A row for each kind of the first character, with a column for each kind of the second.
    static VERDICTS: [[Option<bool>; 7]; 7] = [
        [JOINT, None, BOUND, BOUND, BOUND, BOUND, None],
        [None, BOUND, BOUND, BOUND, BOUND, BOUND, None],
        [BOUND, BOUND, JOINT, BOUND, BOUND, BOUND, None],
        [BOUND, BOUND, BOUND, BOUND, JOINT, BOUND, None],
        [BOUND, BOUND, BOUND, BOUND, BOUND, BOUND, None],
        [BOUND, BOUND, BOUND, BOUND, BOUND, BOUND, None],
        [None, None, None, None, None, None, None],
    ];
    VERDICTS[last as usize][next as usize]
}

// Whether a character of a kind may be a letter or a number.
#[inline(always)]
pub(crate) fn may_be_letter(kind: ByteKind) -> bool
    ensures { result ≡ may_be_letter kind }
{
    matches!(kind, Letter | Beyond)
}
