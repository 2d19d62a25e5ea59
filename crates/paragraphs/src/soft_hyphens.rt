//! Texts without their soft hyphens, as they are shown.

ghost use Rattle.std.specs.Prelude.{◌≡◌, ◌++◌, IfOk, OnOk, chars};
ghost use Rattle.std.specs.List.{list_all, list_any};
ghost use Rattle.std.specs.String.{string_bytes};
ghost use Rattle.paragraphs.specs.Private.Printable.{is_printable};
ghost use Rattle.paragraphs.specs.Settings.{is_soft_hyphen, shown};

use std::alloc::{AllocError, Global};

// Reports whether a byte is a printable character of ASCII.
fn is_printable_byte(byte: u8) -> bool
    ensures { result ≡ is_printable byte }
{
    0x20 <= byte && byte <= 0x7e
}

// Reports whether a text has printable characters of ASCII only. Such a text is shown as it is, a column for each byte.
pub(crate) fn is_printable(text: &str) -> bool
    ensures { result ≡ list_all is_printable text.now }
{
    text.as_bytes().iter().all(|byte| is_printable_byte(*byte))
}

// Reports whether a text has a soft hyphen.
pub(crate) fn has_soft_hyphen(text: &str) -> bool
    ensures { result ≡ list_any is_soft_hyphen (chars text.now) }
{
    text.chars().any(|c| c == '\u{ad}')
}

// Returns a text without its soft hyphens.
pub(crate) fn without_soft_hyphens(alloc: Global, text: &str) -> Result<String, AllocError>
    ensures { IfOk result (λ made. string_bytes made ≡ shown text.now) }
{
    text.chars().filter(|c| *c != '\u{ad}').collect(alloc)
}

// Appends a text without its soft hyphens.
pub(crate) fn push_without_soft_hyphens(line: &mut String, text: &str) -> Result<(), AllocError>
    ensures { OnOk result (string_bytes line.new ≡ string_bytes line.old ++ shown text.now) }
{
    if is_printable(text) {
        line.push_str(text)?;
        return Ok(());
    }
    if has_soft_hyphen(text) {
        let rest = without_soft_hyphens(*line.allocator(), text)?;
        line.push_str(&rest)?;
        return Ok(());
    }
    line.push_str(text)?;
    Ok(())
}
