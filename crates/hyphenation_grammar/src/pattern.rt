//! A pattern's token, read in one pass.

ghost use Rattle.std.specs.Prelude.{◌≡◌, ◌≢◌, ◌==◌, ◌<◌, ◌∷◌, [], IfNone, IfOk, IfSome, IsUtf8, OnOk, Some, length, false, true};
ghost use Rattle.std.specs.Prelude.{position, take};
ghost use Rattle.hyphenation_breaks.specs.Ascii.{backslash, carriage_return, close_brace, line_feed, open_brace};
ghost use Rattle.hyphenation_grammar.specs.Lines.{between_spaces, is_digit, lines_of};
ghost use Rattle.hyphenation_grammar.specs.Parsed.{IsPatternLine, read_pattern, pattern_view, some_if};
ghost use Rattle.hyphenation_grammar.specs.Tokens.{braced_value, pattern_escapes};
ghost use Rattle.hyphenation_grammar.specs.Private.Tokens.{is_ordinary};

use crate::form::Version;
use crate::lines::{cut_at_line_feed, next_line, number_to_255, strip_prefix};
use crate::tokens::{EscapedByte, Escapes, PatternElement, element_of, unescape_byte};
use std::alloc::{AllocError, Global};

/// The contents of a pattern's token, as far as it is read. It can be filled again and again, and keeps its buffers.
#[derive(Drop)]
pub struct PatternToken {
    /// The letters, as bytes.
    pub key: Vec<u8>,
    /// The values other than 0, each with its place in the key, in bytes.
    pub values: Vec<(usize, u8)>,
    /// Whether the last element is a value.
    pub ends_in_value: bool,
    /// Whether two values follow one another.
    pub has_two_values: bool,
    /// Whether some brace is known to open or close no value.
    pub has_bad_value: bool,
    /// The digits after a brace that is still open.
    pub digits: Option<Vec<u8>>,
}

impl PatternToken {
    ghost use Rattle.std.specs.Prelude.{◌≡◌, ◌≢◌, None, Some, IfOk, OnOk, false, true};
    ghost use Rattle.hyphenation_grammar.specs.Parsed.{is_bad, pattern_view, nothing_read, some_if, with_byte};
    ghost use Rattle.hyphenation_grammar.specs.Parsed.{with_element, with_spelt, with_step};
    ghost use Rattle.hyphenation_grammar.specs.Tokens.{step_inside, step_outside};
    ghost use Rattle.hyphenation_grammar.specs.Private.Tokens.{is_ordinary};

    /// Returns an empty token. It allocates nothing yet.
    pub fn new(alloc: Global) -> Self
        ensures { pattern_view result ≡ nothing_read }
    {
        PatternToken {
            key: Vec::new(alloc),
            values: Vec::new(alloc),
            ends_in_value: false,
            has_two_values: false,
            has_bad_value: false,
            digits: None,
        }
    }

    // Empties the token, and keeps its buffers.
    fn clear(&mut self)
        ensures { pattern_view self.new ≡ nothing_read }
    {
        self.key.clear();
        self.values.clear();
        self.ends_in_value = false;
        self.has_two_values = false;
        self.has_bad_value = false;
        self.digits = None;
    }

    /// Reports whether some brace opens or closes no value.
    pub fn is_bad(&self) -> bool
        ensures { result ≡ is_bad (pattern_view self.now) }
    {
        self.has_bad_value || self.digits.is_some()
    }

    // Reads one byte more; `after` says whether the byte before it began an escape. False if the byte is not allowed.
    #[inline(always)]
    fn read(
        &mut self,
        alloc: Global,
        version: Version,
        after: bool,
        byte: u8,
    ) -> Result<bool, AllocError>
        ensures { IfOk result (λ stands.
            some_if stands (pattern_view self.new) ≡ with_byte version after (pattern_view self.old) byte) }
    {
        // Most bytes are letters outside braces.
        if !after && is_plain(byte) && self.digits.is_none() {
            self.add_element(PatternElement::Letter(byte))?;
            return Ok(true);
        }
        match unescape_byte(pattern_escapes(version), after, byte) {
            None => Ok(false),
            Some(None) => Ok(true),
            Some(Some(spelt)) => {
                self.add(alloc, version, spelt)?;
                Ok(true)
            }
        }
    }

    // Reads one byte more that is outside braces and has no meaning but its own: a digit is a value, any other byte a letter.
    #[inline(always)]
    fn read_ordinary(&mut self, byte: u8) -> Result<(), AllocError>
        requires escape { (byte ≢ backslash) × (byte ≢ carriage_return) }
        requires brace { (byte ≢ open_brace) × (byte ≢ close_brace) }
        requires outside { (pattern_view self.old).digits ≡ None }
        ensures read { OnOk result ((version : Version)
            → Some (pattern_view self.new) ≡ with_byte version false (pattern_view self.old) byte) }
        ensures outside { OnOk result ((pattern_view self.new).digits ≡ None) }
    {
        self.add_element(element_of(EscapedByte {
            byte,
            escaped: false,
        }))?;
        Ok(())
    }

    // Reads one byte more that is outside braces, if it is ordinary, and returns whether it is. Most bytes are letters from a
    // to z, which one test tells.
    #[inline(always)]
    fn read_if_ordinary(&mut self, byte: u8) -> Result<bool, AllocError>
        requires { (pattern_view self.old).digits ≡ None }
        ensures ordinary { IfOk result (λ is_read. is_read ≡ is_ordinary byte) }
        ensures read { IfOk result (λ read. read ≡ true → (version : Version)
            → Some (pattern_view self.new) ≡ with_byte version false (pattern_view self.old) byte) }
        ensures outside { IfOk result (λ is_read. is_read ≡ true → (pattern_view self.new).digits ≡ None) }
        ensures unread { IfOk result (λ is_read. is_read ≡ false → pattern_view self.new ≡ pattern_view self.old) }
    {
        if b'a' <= byte && byte <= b'z' {
            self.read_ordinary(byte)?;
            return Ok(true);
        }
        if !is_ordinary(byte) {
            return Ok(false);
        }
        self.read_ordinary(byte)?;
        Ok(true)
    }

    // Appends an element.
    #[inline(always)]
    fn add_element(&mut self, element: PatternElement) -> Result<(), AllocError>
        ensures { OnOk result (pattern_view self.new ≡ with_element (pattern_view self.old) element) }
    {
        match element {
            PatternElement::Letter(byte) => {
                self.key.push(byte)?;
                self.ends_in_value = false;
            }
            PatternElement::Value(value) => {
                let place = self.key.len();
                if value != 0 {
                    self.values.push((place, value))?;
                }
                self.has_two_values = self.has_two_values || self.ends_in_value;
                self.ends_in_value = true;
            }
        }
        Ok(())
    }

    // Appends a byte whose escape is read.
    #[inline(always)]
    fn add(&mut self, alloc: Global, version: Version, spelt: EscapedByte) -> Result<(), AllocError>
        ensures { OnOk result (pattern_view self.new ≡ with_spelt version (pattern_view self.old) spelt) }
    {
        match version {
            Version::First => self.add_element(element_of(spelt)),
            Version::Second => match self.digits.take() {
                None => self.add_outside(alloc, spelt),
                Some(digits) => self.add_inside(digits, spelt),
            },
        }
    }

    // Appends a byte outside braces.
    fn add_outside(&mut self, alloc: Global, spelt: EscapedByte) -> Result<(), AllocError>
        requires { (pattern_view self.old).digits ≡ None }
        ensures { OnOk result (pattern_view self.new ≡ with_step (pattern_view self.old) (step_outside spelt)) }
    {
        match (spelt.byte, spelt.escaped) {
            (b'{', false) => self.digits = Some(Vec::new(alloc)),
            (b'}', false) => self.has_bad_value = true,
            _ => self.add_element(element_of(spelt))?,
        }
        Ok(())
    }

    // Appends a byte in braces, after these digits.
    fn add_inside(&mut self, mut digits: Vec<u8>, spelt: EscapedByte) -> Result<(), AllocError>
        requires { (pattern_view self.old).digits ≡ None }
        ensures { OnOk result (pattern_view self.new
            ≡ with_step (pattern_view self.old) (step_inside digits.items spelt)) }
    {
        match (spelt.byte, spelt.escaped) {
            (b'}', false) => match braced(&digits) {
                Some(value) => self.add_element(PatternElement::Value(value))?,
                None => self.has_bad_value = true,
            },
            (digit @ b'0'..=b'9', false) => {
                digits.push(digit)?;
                self.digits = Some(digits);
            }
            _ => self.has_bad_value = true,
        }
        Ok(())
    }
}

// Whether a byte is surely a letter outside braces and escapes: the fast path. False also for the dot and some other
// letters.
fn is_plain(byte: u8) -> bool
    ensures digit { result ≡ true → is_digit byte ≡ false }
    ensures escape { result ≡ true → (byte ≢ backslash) × (byte ≢ carriage_return) }
    ensures brace { result ≡ true → (byte ≢ open_brace) × (byte ≢ close_brace) }
{
    b'9' < byte && byte != b'\\' && byte != b'{' && byte != b'}'
}

// Whether a byte is a letter or a value by itself in each pattern: no space, no control character, no backslash, no brace.
fn is_ordinary(byte: u8) -> bool
    ensures { result ≡ is_ordinary byte }
{
    b' ' < byte && byte != b'\\' && (byte < b'{' || 127 < byte)
}

// Returns the value that digits in braces write: a number from 10 to 255.
fn braced(digits: &[u8]) -> Option<u8>
    ensures { result ≡ braced_value digits.now }
{
    let value = number_to_255(digits)?;
    if value < 10 {
        return None;
    }
    Some(value)
}

/// Returns which letters a backslash may escape in a pattern of that version.
pub fn pattern_escapes(version: Version) -> Escapes
    ensures { result ≡ pattern_escapes version }
{
    match version {
        Version::First => Escapes::Digits,
        Version::Second => Escapes::DigitsAndBraces,
    }
}

/// Reads a pattern's token into `pattern`, whose old contents are dropped. False if an escape is bad; then `pattern`
/// means nothing. The only error is memory.
#[inline(always)]
pub fn read_pattern(
    alloc: Global,
    version: Version,
    token: &[u8],
    pattern: &mut PatternToken,
) -> Result<bool, AllocError>
    ensures { IfOk result (λ is_read. some_if is_read (pattern_view pattern.new) ≡ read_pattern version token.now) }
{
    pattern.clear();
    let mut after = false;
    for byte in token {
        if !pattern.read(alloc, version, after, *byte)? {
            return Ok(false);
        }
        after = !after && *byte == b'\\';
    }
    Ok(!after)
}

/// Returns the first line of a text as [`next_line`] does, and whether it was read into `pattern`, whose old contents are
/// dropped.
///
/// It was read only if the line is `p ` and one token, without escape and brace, and ends with a line feed. Most lines
/// of patterns are like this. To read them so takes less time than [`read_pattern`] does, and gives the same. If the
/// line was not read, `pattern` means nothing.
#[inline(always)]
pub fn next_line_reading<'t>(
    text: &'t [u8],
    pattern: &mut PatternToken,
) -> Option<(&'t [u8], &'t [u8], bool)>
    ensures none { IfNone result (lines_of text.now ≡ []) }
    ensures first { IfSome result (λ x. lines_of text.now ≡ x.0.now ∷ lines_of x.1.now) }
    ensures utf8 { IsUtf8 text.now → IfSome result (λ x. IsUtf8 x.0.now × IsUtf8 x.1.now) }
    ensures shorter { IfSome result (λ x. length x.1.now < length text.now) }
    ensures read { IfSome result (λ x. x.2 ≡ true → IsPatternLine (pattern_view pattern.new) x.0.now) }
{
    match ordinary_line(text, pattern) {
        Some((line, after)) => Some((line, after, true)),
        None => match next_line(text) {
            Some((line, after)) => Some((line, after, false)),
            None => None,
        },
    }
}

// Reads the first line of a text, if it is only `p ` and an ordinary token, and ends with a line feed. Returns that line and
// the rest of the text after it. `None` also if memory is refused: the line is read otherwise then, and the error found.
#[inline(always)]
fn ordinary_line<'t>(text: &'t [u8], pattern: &mut PatternToken) -> Option<(&'t [u8], &'t [u8])>
    ensures first { IfSome result (λ x. lines_of text.now ≡ x.0.now ∷ lines_of x.1.now) }
    ensures utf8 { IsUtf8 text.now → IfSome result (λ x. IsUtf8 x.0.now × IsUtf8 x.1.now) }
    ensures shorter { IfSome result (λ x. length x.1.now < length text.now) }
    ensures read { IfSome result (λ x. IsPatternLine (pattern_view pattern.new) x.0.now) }
{
    let rest = strip_prefix(b"p ", text)?;
    match read_ordinary_token(rest, pattern) {
        Ok(Some(end)) => Some(cut_at_line_feed(text, end + 2)),
        _ => None,
    }
}

// Returns the place of the byte after a token, if the byte is a line feed and the token is not empty.
fn end_of_token(place: usize, byte: u8) -> Option<usize>
    ensures { IfSome result (λ end. (end ≡ place) × (0 < place) × (byte ≡ line_feed)) }
{
    if byte == b'\n' && 0 < place {
        Some(place)
    } else {
        None
    }
}

// Reads the token at the beginning of a text into `pattern`, whose old contents are dropped. It returns the place of
// the line feed that ends the token. `None` if there is none, or if the token is not ordinary; then `pattern` means
// nothing. The only error is memory.
#[inline(always)]
fn read_ordinary_token(text: &[u8], pattern: &mut PatternToken) -> Result<Option<usize>, AllocError>
    ensures ends { IfOk result (λ found. IfSome found (λ end.
        Some end ≡ position (λ b. b == line_feed) text.now)) }
    ensures token { IfOk result (λ found. IfSome found (λ end.
        (0 < end) × (between_spaces (take end text.now) ≡ take end text.now ∷ []))) }
    ensures read { IfOk result (λ found. IfSome found (λ end. (version : Version)
        → Some (pattern_view pattern.new) ≡ read_pattern version (take end text.now))) }
{
    pattern.clear();
    let mut end: usize = 0;
    while end < text.len() {
        let byte = text[end];
        if !pattern.read_if_ordinary(byte)? {
            return Ok(end_of_token(end, byte));
        }
        end += 1;
    }
    Ok(None)
}
