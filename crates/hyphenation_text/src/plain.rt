//! Texts without markup.

ghost use Rattle.std.specs.Prelude.{◌≡◌, IfOk};
ghost use Rattle.std.specs.String.{string_bytes};
ghost use Rattle.hyphenation_text.specs.Laws.{IsPageWithMarks, soft_hyphen};
ghost use Rattle.hyphenation_text.specs.Texts.{hyphenated};

use crate::laws::{a_second_run_finds_no_break, limited_breaks_fit, texts_are_marked};
use crate::settings::Settings;
use crate::text::{Output, push_text};
use any_dictionary::AnyDictionary;
use std::alloc::{AllocError, Global};

// Returns a text that was written token by token.
fn text_with_marks(
    alloc: Global,
    dictionary: &AnyDictionary,
    settings: &Settings<'_>,
    text: &str,
) -> Result<String, AllocError>
    ensures { IfOk result (λ made. string_bytes made ≡ hyphenated settings.now dictionary.now text.now) }
{
    let mut output = Output::with_capacity(alloc, text.len())?;
    push_text(&mut output, dictionary, settings, text, false, false)?;
    Ok(output.text)
}

/// Returns a text without markup with the mark at each break of its words that changes no letters.
///
/// A part of the text between ASCII white space is left whole if it has a soft hyphen, or is a name: an address, a
/// path, an identifier, or the name of a file. So are words with a letter beside a digit, and words that the settings
/// leave alone; their class is not asked. Each word is broken as its NFC is, and no mark is put between a letter and an accent
/// that NFC joins. Without the marks the result is the text, byte for byte. With soft hyphens as
/// marks a second run changes nothing.
///
/// An error says that memory was refused.
///
/// ```text
/// hyphenate_text(alloc, &dictionary, &Settings { mark: "-", ..Settings::new() }, "Hyphenation")?;    // Hy-phen-a-tion
/// ```
pub fn hyphenate_text(
    alloc: Global,
    dictionary: &AnyDictionary,
    settings: &Settings<'_>,
    text: &str,
) -> Result<String, AllocError>
    ensures marked { IfOk result (λ output. string_bytes output ≡ hyphenated settings.now dictionary.now text.now) }
    ensures kept { IfOk result (λ output. IsPageWithMarks settings.now.mark.now text.now (string_bytes output)) }
    ensures twice { settings.now.mark.now ≡ soft_hyphen → IfOk result (λ made.
        hyphenated settings.now dictionary.now (string_bytes made) ≡ string_bytes made) }
{
    texts_are_marked();
    limited_breaks_fit(dictionary, settings);
    a_second_run_finds_no_break(dictionary, settings);
    text_with_marks(alloc, dictionary, settings, text)
}
