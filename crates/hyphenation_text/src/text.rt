//! The words of a text, which may be a part of another one.

ghost use Rattle.std.specs.Prelude.{◌≡◌, ◌++◌, ◌&&◌, ◌<◌, ◌≤◌, [], false, true, map, not, slice_range, IfOk, IsTrue, OnOk};
ghost use Rattle.std.specs.Char.{is_ascii_alphabetic};
ghost use Rattle.std.specs.List.{list_all};
ghost use Rattle.std.specs.Str.{IsCharBoundary};
ghost use Rattle.std.specs.String.{string_bytes};
ghost use Rattle.hyphenation_breaks.specs.Break.{plain_break};
ghost use Rattle.hyphenation_segments.specs.Fits.{Fits};
ghost use Rattle.text_words.specs.Words.{is_mixed};
ghost use Rattle.composed_words.specs.Composed.{composed, is_composed};
ghost use Rattle.hyphenation_text.specs.Texts.{marked_text_by, so_far};
ghost use Rattle.hyphenation_text.specs.Words.{breaks_under, composed_breaks_under, is_left_whole};
ghost use Rattle.hyphenation_text.specs.Private.Marked.{marked_tokens_by, Puts};

use crate::laws::limited_breaks_fit;
use crate::settings::Settings;
use crate::words::{is_left_whole, is_passed_over};
use any_dictionary::AnyDictionary;
use composed_words::laws::{
    ascii_is_composed, carried_places_ascend, composed_words_break_as_they_are,
};
use composed_words::{carried_places, composed, passes};
use html_pieces::bytes::is_white_space;
use hyphenation_hyphenator::hyphenator::laws::plain_breaks_fit_where_ascending;
use hyphenation_segments::iter::laws::{marked_segments_join, segments_join};
use hyphenation_segments::iter::push_marked_text;
use std::alloc::{AllocError, Global};
use text_words::laws::{letters_are_no_name, letters_are_one_word, words_are_slices};
use text_words::{TextWords, is_mixed};

/// A text that is being written, with a list for the breaks of a word, for which memory is taken once.
#[derive(Drop)]
pub struct Output {
    /// The text that is written so far.
    pub text: String,
    /// Where memory is taken from.
    pub alloc: Global,
    // The breaks of a word.
    breaks: Vec<usize>,
}

impl Output {
    /// Returns an output with nothing written, and room for a number of bytes. The error says that memory was refused.
    ///
    /// ```text
    /// Output::with_capacity(alloc, 64)?
    /// ```
    pub fn with_capacity(alloc: Global, bytes: usize) -> Result<Output, AllocError>
        ensures { IfOk result (λ output. string_bytes output.text ≡ []) }
    {
        Ok(Output {
            text: String::with_capacity(alloc, bytes)?,
            alloc,
            breaks: Vec::new(alloc),
        })
    }

    // Puts the breaks of a word in NFC into the list, none where it is passed over or has a letter beside a digit. Returns
    // whether there is one. Words of letters need not be looked through for digits.
    #[inline(always)]
    fn find_composed_breaks(
        &mut self,
        dictionary: &AnyDictionary,
        settings: &Settings<'_>,
        word: &str,
        letters: bool,
    ) -> Result<bool, AllocError>
        requires letters { letters ≡ true → is_mixed word.now ≡ false }
        ensures breaks { OnOk result (self.new.breaks.items ≡ composed_breaks_under settings.now dictionary.now word.now) }
        ensures fit { IfOk result (λ found. IsTrue found → Fits word.now (map plain_break self.new.breaks.items)) }
        ensures none { IfOk result (λ found.
            IsTrue (not found) → composed_breaks_under settings.now dictionary.now word.now ≡ []) }
        ensures text { self.new.text ≡ self.old.text }
    {
        if is_passed_over(settings, word) {
            self.breaks.clear();
            return Ok(false);
        }
        dictionary.plain_places_into(self.alloc, word, &mut self.breaks)?;
        if self.breaks.is_empty() {
            return Ok(false);
        }
        if !letters && is_mixed(word) {
            self.breaks.clear();
            return Ok(false);
        }
        Ok(true)
    }

    // Puts the breaks of a word that is not in NFC into the list: those of its NFC, carried back. Returns whether there is one.
    fn carry_breaks(
        &mut self,
        dictionary: &AnyDictionary,
        settings: &Settings<'_>,
        word: &str,
        nfc: &str,
    ) -> Result<bool, AllocError>
        requires nfc { nfc.now ≡ composed word.now }
        requires other { is_composed word.now ≡ false }
        ensures breaks { OnOk result (self.new.breaks.items ≡ breaks_under settings.now dictionary.now word.now) }
        ensures fit { IfOk result (λ found. IsTrue found → Fits word.now (map plain_break self.new.breaks.items)) }
        ensures none { IfOk result (λ found. IsTrue (not found) → breaks_under settings.now dictionary.now word.now ≡ []) }
        ensures text { self.new.text ≡ self.old.text }
    {
        carried_places_ascend();
        plain_breaks_fit_where_ascending();
        self.find_composed_breaks(dictionary, settings, nfc, false)?;
        let carried = carried_places(self.alloc, word, nfc, &self.breaks)?;
        self.breaks = carried;
        if self.breaks.is_empty() {
            return Ok(false);
        }
        Ok(true)
    }

    // Puts the breaks of a word that does not pass the quick check into the list. Returns whether there is one.
    #[inline(never)]
    fn compose_and_find(
        &mut self,
        dictionary: &AnyDictionary,
        settings: &Settings<'_>,
        word: &str,
    ) -> Result<bool, AllocError>
        ensures breaks { OnOk result (self.new.breaks.items ≡ breaks_under settings.now dictionary.now word.now) }
        ensures fit { IfOk result (λ found. IsTrue found → Fits word.now (map plain_break self.new.breaks.items)) }
        ensures none { IfOk result (λ found. IsTrue (not found) → breaks_under settings.now dictionary.now word.now ≡ []) }
        ensures text { self.new.text ≡ self.old.text }
    {
        composed_words_break_as_they_are();
        match composed(self.alloc, word)? {
            None => self.find_composed_breaks(dictionary, settings, word, false),
            Some(nfc) => self.carry_breaks(dictionary, settings, word, nfc.as_str()),
        }
    }

    // Puts the breaks of a word into the list, which are those of its NFC. Returns whether there is one. Words of letters need
    // not be composed.
    #[inline(always)]
    fn find_breaks(
        &mut self,
        dictionary: &AnyDictionary,
        settings: &Settings<'_>,
        word: &str,
        letters: bool,
    ) -> Result<bool, AllocError>
        requires letters { letters ≡ true → is_mixed word.now ≡ false }
        requires in_nfc { letters ≡ true → is_composed word.now ≡ true }
        ensures breaks { OnOk result (self.new.breaks.items ≡ breaks_under settings.now dictionary.now word.now) }
        ensures fit { IfOk result (λ found. IsTrue found → Fits word.now (map plain_break self.new.breaks.items)) }
        ensures none { IfOk result (λ found. IsTrue (not found) → breaks_under settings.now dictionary.now word.now ≡ []) }
        ensures text { self.new.text ≡ self.old.text }
    {
        composed_words_break_as_they_are();
        if is_surely_composed(letters, word) {
            return self.find_composed_breaks(dictionary, settings, word, letters);
        }
        self.compose_and_find(dictionary, settings, word)
    }
}

// Whether a word is known to be in NFC, or passes the quick check.
#[inline(always)]
fn is_surely_composed(is_known: bool, word: &str) -> bool
    requires { is_known ≡ true → is_composed word.now ≡ true }
    ensures { IsTrue result → is_composed word.now ≡ true }
{
    if is_known {
        return true;
    }
    passes(word)
}

// Tests whether a token is left whole, unless that was asked before and it was not.
fn is_whole(is_asked: bool, token: &str) -> bool
    ensures { result ≡ (not is_asked && is_left_whole token.now) }
{
    !is_asked && is_left_whole(token)
}

// A token of a text, which is between white space.
#[derive(Clone, Copy)]
struct Token<'t> {
    // The text.
    text: &'t str,
    // Where it begins and ends.
    start: usize,
    end: usize,
    // Whether its word goes on outside of the text.
    touches: bool,
    // Whether it is known to be of ASCII letters only.
    letters: bool,
    ghost order: { start ≤ end },
    ghost begins: { IsCharBoundary text.now start },
    ghost ends: { IsCharBoundary text.now end },
    ghost alphabetic: { letters ≡ true → list_all is_ascii_alphabetic (slice_range text.now start end) ≡ true },
}

// Writes a token of some ASCII letters, as `push_token` does: it is one word, and is not left whole.
#[inline(always)]
fn push_letters(
    output: &mut Output,
    dictionary: &AnyDictionary,
    settings: &Settings<'_>,
    token: Token<'_>,
    kept: usize,
) -> Result<usize, AllocError>
    requires letters { token.letters ≡ true }
    requires some { token.start < token.end }
    requires kept { kept ≤ token.start }
    requires begins { IsCharBoundary token.text.now kept }
    ensures { IfOk result (Puts false settings.now dictionary.now
        token.entry.text.now kept token.entry.start token.entry.end output.old output.new) }
{
    ascii_is_composed();
    letters_are_one_word();
    letters_are_no_name();
    marked_segments_join();
    let word = &token.text[token.start..token.end];
    if !output.find_breaks(dictionary, settings, word, true)? {
        return Ok(kept);
    }
    output.text.push_str(&token.text[kept..token.start])?;
    push_marked_text(&mut output.text, word, &output.breaks, settings.mark)?;
    Ok(token.end)
}

// Writes a token, as `push_token` does, by its words.
fn push_words(
    output: &mut Output,
    dictionary: &AnyDictionary,
    settings: &Settings<'_>,
    token: Token<'_>,
    kept: usize,
) -> Result<usize, AllocError>
    requires kept { kept ≤ token.start }
    requires begins { IsCharBoundary token.text.now kept }
    ensures { IfOk result (Puts false settings.now dictionary.now
        token.entry.text.now kept token.entry.start token.entry.end output.old output.new) }
{
    words_are_slices();
    marked_segments_join();
    // Most tokens have no word with breaks, and need not be looked at for what leaves them whole.
    let mut is_asked = false;
    let mut left = kept;
    let mut at = token.start;
    let own = &token.text[token.start..token.end];
    for word in TextWords::new(own) {
        let end = at + word.len();
        if output.find_breaks(dictionary, settings, word, false)? {
            if is_whole(is_asked, own) {
                return Ok(kept);
            }
            is_asked = true;
            output.text.push_str(&token.text[left..at])?;
            push_marked_text(&mut output.text, word, &output.breaks, settings.mark)?;
            left = end;
        }
        at = end;
    }
    Ok(left)
}

// Appends the text from `kept` on through a token, with the mark at the breaks of the token's words. The token is left as it
// is where it is left whole, or where its word goes on outside of the text. Bytes at its end that stay as they are wait to be
// appended with the text after them. Returns where they begin.
#[inline(always)]
fn push_token(
    output: &mut Output,
    dictionary: &AnyDictionary,
    settings: &Settings<'_>,
    token: Token<'_>,
    kept: usize,
) -> Result<usize, AllocError>
    requires kept { kept ≤ token.start }
    requires begins { IsCharBoundary token.text.now kept }
    ensures { IfOk result (Puts token.entry.touches settings.now dictionary.now
        token.entry.text.now kept token.entry.start token.entry.end output.old output.new) }
{
    if token.touches {
        return Ok(kept);
    }
    if token.start == token.end {
        return Ok(kept);
    }
    if token.letters {
        push_letters(output, dictionary, settings, token, kept)
    } else {
        push_words(output, dictionary, settings, token, kept)
    }
}

// Appends a text with its marks, token by token.
fn push_tokens(
    output: &mut Output,
    dictionary: &AnyDictionary,
    settings: &Settings<'_>,
    text: &str,
    touched_before: bool,
    touched_after: bool,
) -> Result<(), AllocError>
    ensures { OnOk result (so_far output.new ≡ so_far output.old
        ++ marked_tokens_by settings.now dictionary.now touched_before touched_after text.now) }
{
    let bytes = text.as_bytes();
    let mut touches = touched_before;
    let mut letters = true;
    let mut start = 0;
    // The text from here on is not appended yet.
    let mut kept = 0;
    for end in 0..bytes.len() {
        let byte = bytes[end];
        if byte.is_ascii_alphabetic() {
            continue;
        }
        if is_white_space(byte) {
            let token = Token {
                text,
                start,
                end,
                touches,
                letters,
            };
            kept = push_token(output, dictionary, settings, token, kept)?;
            touches = false;
            letters = true;
            start = end + 1;
        } else {
            letters = false;
        }
    }
    let token = Token {
        text,
        start,
        end: text.len(),
        touches: touches || touched_after,
        letters,
    };
    kept = push_token(output, dictionary, settings, token, kept)?;
    output.text.push_str(&text[kept..])
}

/// Appends a text with the mark at each break of its words, as [`hyphenate_text`](crate::hyphenate_text) has it, except that
/// the text may be a part of another one.
///
/// Its first word goes on before it where `touched_before` says so, and its last one after it where `touched_after` does.
/// The part of the text up to white space is left as it is then. The error says that memory was refused.
///
/// ```text
/// let mut marked = Output::with_capacity(alloc, 64)?;
/// let settings = Settings { mark: "-", ..Settings::new() };
/// push_text(&mut marked, &dictionary, &settings, "firkin firkin", false, true)?;
/// marked.text     // fir-kin firkin
/// ```
pub fn push_text(
    output: &mut Output,
    dictionary: &AnyDictionary,
    settings: &Settings<'_>,
    text: &str,
    touched_before: bool,
    touched_after: bool,
) -> Result<(), AllocError>
    ensures { OnOk result (so_far output.new ≡ so_far output.old
        ++ marked_text_by settings.now dictionary.now touched_before touched_after text.now) }
{
    plain_breaks_fit_where_ascending();
    words_are_slices();
    segments_join();
    marked_segments_join();
    limited_breaks_fit(dictionary, settings);
    push_tokens(
        output,
        dictionary,
        settings,
        text,
        touched_before,
        touched_after,
    )
}
