//! The NFC of words.

ghost use Rattle.std.specs.Prelude.{◌≡◌, chars, false, true, IfNone, IfOk, IfSome, IsTrue};
ghost use Rattle.std.specs.String.{string_bytes};
ghost use Rattle.unicode_normalization.specs.Forms.{Form};
ghost use Rattle.unicode_normalization.specs.QuickCheck.{QuickCheck, quick_check_text};
ghost use Rattle.composed_words.specs.Composed.{composed, is_composed};

use std::alloc::{AllocError, Global};
use unicode_normalization::{IsNormalized, is_nfc_quick, to_nfc};

/// Reports whether a word passes Unicode's quick check, and so is in NFC. It takes no memory.
///
/// ```text
/// passes("Schüler")               // true
/// passes("Schu\u{308}ler")        // false
/// ```
pub fn passes(word: &str) -> bool
    ensures composed { IsTrue result → is_composed word.now ≡ true }
    ensures all { quick_check_text Form.Nfc (chars word.now) ≡ QuickCheck.Yes → IsTrue result }
{
    if word.is_ascii() {
        return true;
    }
    match is_nfc_quick(word.chars()) {
        IsNormalized::Yes => true,
        _ => false,
    }
}

/// Returns a word in NFC, or `None` where it is in that form.
///
/// A word that passes Unicode's quick check takes no memory. The error says that memory was refused.
///
/// ```text
/// composed(alloc, "Schu\u{308}ler")?      // Some: Schüler
/// composed(alloc, "Schüler")?             // None
/// ```
pub fn composed(alloc: Global, word: &str) -> Result<Option<String>, AllocError>
    ensures none { IfOk result (λ found. IfNone found (is_composed word.now ≡ true)) }
    ensures some { IfOk result (λ found. IfSome found (λ text. string_bytes text ≡ composed word.now)) }
    ensures differs { IfOk result (λ found. IfSome found (λ text. is_composed word.now ≡ false)) }
{
    if passes(word) {
        return Ok(None);
    }
    let text = to_nfc(alloc, word)?;
    if text.as_str() == word {
        return Ok(None);
    }
    Ok(Some(text))
}
