//! The values of the places of words by a dictionary of one kind.

ghost use Rattle.std.specs.Prelude.{◌≡◌, IfOk, map};
ghost use Rattle.hyphenation_breaks.specs.Dictionary.{entries_of_keys};
ghost use Rattle.hyphenation_score.specs.Scoring.{values};

use hyphenation_breaks::extended::Subregion;
use hyphenation_dictionary::dictionary::{Extended, Standard};
use hyphenation_score::Score;
use hyphenation_score::laws::scores_have_values;
use std::alloc::{AllocError, Global};

// Returns the values that a standard dictionary gives.
pub(crate) fn standard_values(
    alloc: Global,
    dictionary: &Standard,
    word: &str,
) -> Result<Vec<u8>, AllocError>
    ensures { IfOk result (λ v. v.items ≡ values (entries_of_keys dictionary.now) word.now) }
{
    dictionary.score(alloc, word)
}

// Returns values without the changes that come with them.
fn without_changes(
    alloc: Global,
    scored: &[(u8, Option<&Subregion>)],
) -> Result<Vec<u8>, AllocError>
    ensures { IfOk result (λ v. v.items ≡ map (λ pair. pair.0) scored.now) }
{
    let mut values = Vec::with_capacity(alloc, scored.len())?;
    for pair in scored {
        values.push(pair.0)?;
    }
    Ok(values)
}

// Returns the values that an extended dictionary gives.
pub(crate) fn extended_values(
    alloc: Global,
    dictionary: &Extended,
    word: &str,
) -> Result<Vec<u8>, AllocError>
    ensures { IfOk result (λ v. v.items ≡ values (entries_of_keys dictionary.now) word.now) }
{
    scores_have_values::<Option<Subregion>>();
    let scored = dictionary.score(alloc, word)?;
    let found = without_changes(alloc, &scored)?;
    Ok(found)
}
