//! A word that a user adds to a dictionary, which is then written as a text.

ghost use Rattle.std.specs.Prelude.{◌≡◌, ◌⊎◌, IfErr, IfOk, IsOk, IsTrue, OnErr, not};
ghost use Rattle.callers.specs.OwnExceptions.{with_exception};
ghost use Rattle.hyphenation_breaks.specs.Break.{plain_break};
ghost use Rattle.hyphenation_writer.specs.Canonical.{standard_text};
ghost use Rattle.hyphenation_breaks.specs.Invariant.{are_listed};
ghost use Rattle.hyphenation_load.specs.Load.{AppendsTo, IfMemory, IsWriteError};

use hyphenation::load::{Error, Result};
use hyphenation::{Load, Standard};
use std::alloc::Global;
use std::io::Write;

/// Lists the places, in bytes, at which a word is to be broken, and writes the dictionary with them.
///
/// Reports whether the places may be listed for the word. If not, nothing is written and nothing has changed.
///
/// The errors are those of [`Load::to_writer`], and that memory for the word was refused. After an error the word may
/// be listed. After `Error::IO` a beginning of the text may be written, after `Error::Memory` nothing is.
///
/// ```text
/// let mut places = Vec::new(alloc);
/// places.push(3)?;
/// list_and_write(alloc, &mut dictionary, "firkins", places, &mut rt.stdout())?    // true; fir-kins is an exception
/// ```
pub fn list_and_write<W: Write>(
    alloc: Global,
    dictionary: &mut Standard,
    word: &str,
    places: Vec<usize>,
    writer: &mut W,
) -> Result<bool>
    ensures may_be_listed { IfOk result (λ good. good ≡ are_listed plain_break word.now places.items) }
    ensures listed { IfOk result (λ good.
        IsTrue good → dictionary.new ≡ with_exception dictionary.old word.now places.items) }
    ensures written { IfOk result (λ good.
        IsTrue good → AppendsTo W.contents writer.old writer.new (standard_text dictionary.new)) }
    ensures unchanged { IfOk result (λ good. IsTrue (not good) → dictionary.new ≡ dictionary.old) }
    ensures unwritten { IfOk result (λ good. IsTrue (not good) → writer.new ≡ writer.old) }
    ensures refused_without_error { IsTrue (not (are_listed plain_break word.now places.items)) → IsOk result }
    ensures listed_or_unchanged { OnErr result ((dictionary.new ≡ dictionary.old)
        ⊎ (dictionary.new ≡ with_exception dictionary.old word.now places.items)) }
    ensures unwritten_without_memory { IfMemory result (writer.new ≡ writer.old) }
    ensures write_error { IfErr result IsWriteError }
{
    if !Standard::fits(word, &places) {
        return Ok(false);
    }
    let word = String::from_str(alloc, word).map_err(Error::Memory)?;
    dictionary
        .insert_exception(word, places)
        .map_err(Error::Memory)?;
    dictionary.to_writer(alloc, writer)?;
    Ok(true)
}
