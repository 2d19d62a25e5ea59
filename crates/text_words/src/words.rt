//! The words of a text.

ghost use Rattle.std.specs.Prelude.{◌≡◌, ◌<◌, ◌∷◌, [], true, false, take, drop, length};
ghost use Rattle.std.specs.Char.{is_ascii_digit};
ghost use Rattle.std.specs.Iterator.{item_count};
ghost use Rattle.std.specs.List.{list_any};
ghost use Rattle.std.specs.Str.{IsUtf8, IsCharBoundary};
ghost use Rattle.unicode_segmentation.specs.Segments.{GivesFirst};
ghost use Rattle.text_words.specs.Words.{are_mixed, is_mixed, is_of_letter, is_sign, text_words, words_of_piece};

use word_pieces::WordPieces;

/// An iterator over the words of a text.
///
/// They are the pieces between Unicode's word bounds, each cut further at its dots and colons, which are words of their
/// own. So the words, joined, are the text. `it's 3.5, no.` has the words `it's`, a space, `3`, `.`, `5`, `,`, a space,
/// `no` and `.`.
#[derive(Drop)]
pub struct TextWords<'t> {
    // The pieces that are not begun.
    pieces: WordPieces<'t>,
    // The rest of the piece that is begun.
    rest: &'t str,
    ghost utf8: { ∥ IsUtf8 rest.now ∥₁ },
}

// Whether a byte is a dot or a colon.
const fn is_sign(byte: u8) -> bool
    ensures { result ≡ is_sign byte }
{
    byte == b'.' || byte == b':'
}

// Whether a text has a dot or a colon.
#[inline(always)]
fn has_sign(text: &[u8]) -> bool
    ensures { result ≡ list_any is_sign text.now }
{
    for byte in text {
        if is_sign(*byte) {
            return true;
        }
    }
    false
}

// Whether a piece is known to be one word: it has one byte, or no sign. Most are.
#[inline(always)]
#[tactic(auto, using(crate::proofs::Taken::one_byte, crate::proofs::Unsigned::unsigned))]
fn is_one_word(piece: &str) -> bool
    ensures { result ≡ true → 0 < length piece.now → words_of_piece piece.now ≡ piece.now ∷ [] }
{
    piece.len() == 1 || !has_sign(piece.as_bytes())
}

// Returns how many bytes the first word of a piece has: those before a sign, or the sign alone.
fn first_length(piece: &str) -> usize
    requires { 0 < length piece.now }
    ensures some { 0 < result }
    ensures boundary { IsCharBoundary piece.now result }
    ensures word { words_of_piece piece.now ≡ take result piece.now ∷ words_of_piece (drop result piece.now) }
{
    let bytes = piece.as_bytes();
    if is_sign(bytes[0]) {
        return 1;
    }
    for at in 1..bytes.len() {
        if is_sign(bytes[at]) {
            return at;
        }
    }
    bytes.len()
}

impl<'t> TextWords<'t> {
    ghost use Rattle.text_words.specs.Left.{words_left};

    /// Begins with all words of a text to come. The words of `a.b` are `a`, `.` and `b`.
    #[inline]
    pub fn new(text: &'t str) -> TextWords<'t>
        ensures left { words_left result ≡ text_words text.now }
    {
        TextWords {
            pieces: WordPieces::new(text),
            rest: "",
        }
    }

    // Begins pieces until one is not empty. Returns whether there is one.
    #[inline(always)]
    #[tactic(auto, unfolding(crate::specs::Left::words_left))]
    fn begin_piece(&mut self) -> bool
        ensures words { words_left self.new ≡ words_left self.old }
        ensures some { result ≡ true → 0 < length self.new.rest.now }
        ensures none { result ≡ false → words_left self.new ≡ [] }
    {
        while self.rest.is_empty() {
            match self.pieces.next() {
                Some(piece) => self.rest = piece,
                None => return false,
            }
        }
        true
    }

    // Cuts the first word off the piece that is begun.
    #[inline(never)]
    fn cut_word(&mut self) -> &'t str
        requires { 0 < length self.old.rest.now }
        ensures { words_left self.old ≡ result.now ∷ words_left self.new }
    {
        let (word, rest) = self.rest.split_at(first_length(self.rest));
        self.rest = rest;
        word
    }

    // Returns the next word, or `None` after the last.
    #[inline(always)]
    fn next_word(&mut self) -> Option<&'t str>
        ensures { GivesFirst (λ word. word.now) words_left self.old result self.new }
    {
        if !self.begin_piece() {
            return None;
        }
        let piece = self.rest;
        if is_one_word(piece) {
            self.rest = "";
            return Some(piece);
        }
        Some(self.cut_word())
    }
}

impl<'t> Iterator for TextWords<'t> {
    ghost use Rattle.text_words.specs.Left.{words_left};

    type Item = &'t str;

    ghost next_gives = { GivesFirst (λ word. word.now) words_left };

    ghost remaining = { item_count words_left };

    /// Returns the next word, or `None` after the last. The calls for `a.b` return `a`, `.`, `b` and `None`.
    #[inline(always)]
    fn next(&mut self) -> Option<&'t str> {
        self.next_word()
    }
}

// Whether a byte is an ASCII letter, or of a character beyond ASCII.
const fn is_of_letter(byte: u8) -> bool
    ensures { result ≡ is_of_letter byte }
{
    byte.is_ascii_alphabetic() || byte >= 128
}

// Whether one of two bytes is of a letter, and the other a digit.
const fn are_mixed(a: u8, b: u8) -> bool
    ensures { result ≡ are_mixed a b }
{
    is_of_letter(a) && b.is_ascii_digit() || a.is_ascii_digit() && is_of_letter(b)
}

// Whether a word has a digit.
fn has_digit(word: &[u8]) -> bool
    ensures { result ≡ list_any is_ascii_digit word.now }
{
    for byte in word {
        if byte.is_ascii_digit() {
            return true;
        }
    }
    false
}

// Whether a word has a letter beside a digit, by each of its bytes and the one before it.
fn is_mixed_in_turn(word: &[u8]) -> bool
    ensures { result ≡ is_mixed word.now }
{
    let mut before = 0;
    for byte in word {
        if are_mixed(before, *byte) {
            return true;
        }
        before = *byte;
    }
    false
}

/// Reports whether a word has a letter beside a digit, as `H2O` and `v2` have. A character beyond ASCII counts as a
/// letter.
#[tactic(auto, using(crate::proofs::Unsigned::no_digit))]
pub fn is_mixed(word: &str) -> bool
    ensures { result ≡ is_mixed word.now }
{
    // Most words have no digit.
    has_digit(word.as_bytes()) && is_mixed_in_turn(word.as_bytes())
}
