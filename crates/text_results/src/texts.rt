//! The texts of inputs, read one after the other.

ghost use Rattle.std.specs.Prelude.{◌≡◌, ◌++◌, ◌∷◌, [], false, IfErr, IfOk, OnOk, map};
ghost use Rattle.std.specs.List.{list_any};
ghost use Rattle.std.specs.String.{string_bytes};
ghost use Rattle.command_line.specs.Inputs.{is_standard_input, AreTextsOf};
ghost use Rattle.hyphenation_breaks.specs.Borrowed.{texts_now};
ghost use Rattle.text_results.specs.Texts.{IsFailureAmong};

use command_line::inputs::read_text;
use command_line::{Failure, NamedFiles};
use std::alloc::{AllocError, Global};
use std::io::Read;

/// Appends a text.
pub fn push(texts: &mut Vec<String>, text: String) -> Result<(), AllocError>
    ensures { OnOk result (map string_bytes texts.new.items ≡ map string_bytes texts.old.items ++ string_bytes text ∷ []) }
{
    texts.push(text)?;
    Ok(())
}

/// Returns the texts of these names, in their order. Standard input is that of the name `-`.
///
/// The error is that of the first text that can't be read or is not UTF-8, or says that memory was refused.
///
/// ```text
/// read_texts(&rt, alloc, &["letter.txt", "-"], &mut rt.stdin())?
/// ```
#[tactic(auto, using(crate::proofs::Reading::begins, crate::proofs::Reading::goes_on, crate::proofs::Reading::ends))]
pub fn read_texts<F: NamedFiles, I: Read>(
    files: &F,
    alloc: Global,
    inputs: &[&str],
    input: &mut I,
) -> Result<Vec<String>, Failure>
    ensures texts { IfOk result (λ texts. AreTextsOf (F.bytes files.now) (I.remaining input.old) (texts_now inputs.now)
        (map string_bytes texts.items)) }
    ensures failure { IfErr result (IsFailureAmong (F.bytes files.now) (I.remaining input.old) (texts_now inputs.now)) }
    ensures unread { list_any is_standard_input (texts_now inputs.now) ≡ false → input.new ≡ input.old }
{
    let mut texts = Vec::new(alloc);
    for name in inputs {
        let text = read_text(files, alloc, name, input)?;
        push(&mut texts, text)?;
    }
    Ok(texts)
}

// Returns the number of bytes of texts, or `usize::MAX` if it is greater.
pub(crate) fn bytes_of(texts: &[String]) -> usize {
    let mut bytes: usize = 0;
    for text in texts {
        bytes = bytes.saturating_add(text.len());
    }
    bytes
}
