//! The breaks of words by a dictionary of one kind, and their places.

ghost use Rattle.std.specs.Prelude.{◌≡◌, [], List, ℕ, IsTrue, IsUtf8, IfOk, OnErr, OnOk, map};
ghost use Rattle.hyphenation_breaks.specs.Break.{Break, ascend_on, plain_break};
ghost use Rattle.hyphenation_hyphenator.specs.Opportunities.{Ascending};
ghost use Rattle.hyphenation_segments.specs.Fits.{Fits};
ghost use Rattle.any_dictionary.specs.Dictionaries.{plain_places};

use hyphenation_breaks::breaks::Break;
use hyphenation_hyphenator::hyphenator::Hyphenator;
use hyphenation_hyphenator::hyphenator::laws::plain_breaks_fit_where_ascending;
use std::alloc::{AllocError, Global};

// Gives proofs that the breaks of a dictionary fit every word, and those without a change ascend on it.
pub(crate) fn all_breaks_fit<'h, H: Hyphenator<'h>>(dictionary: &H)
    ensures fit { (word : List ℕ) → IsUtf8 word → Fits word (H.breaks_of dictionary.now word) }
    ensures ascend { (word : List ℕ) → IsUtf8 word → Ascending word (H.breaks_of dictionary.now word) }
    ensures places { (word : List ℕ) → IsUtf8 word
        → IsTrue (ascend_on word 0 (plain_places (H.breaks_of dictionary.now word))) }
{
    dictionary.breaks_fit();
}

// Puts the places of the breaks of a word into a list, in place of what it held, where no break changes letters. It takes
// no second list.
#[inline(always)]
pub(crate) fn put_breaks<'h, H: Hyphenator<'h, Opportunity = usize>>(
    dictionary: &'h H,
    word: &str,
    places: &mut Vec<usize>,
) -> Result<(), AllocError>
    ensures places { OnOk result (places.new.items ≡ map (λ b. b.place) (H.breaks_of dictionary.now word.now)) }
    ensures plain { OnOk result (places.new.items ≡ plain_places (H.breaks_of dictionary.now word.now)) }
    ensures fit { OnOk result (Fits word.now (map plain_break places.new.items)) }
    ensures empty_on_error { OnErr result (places.new.items ≡ []) }
{
    dictionary.breaks_into(word, places)
}

// Puts the places of breaks into a list, in place of what it held.
fn places_of<B: Break>(breaks: &[B], places: &mut Vec<usize>) -> Result<(), AllocError>
    ensures places { OnOk result (places.new.items ≡ map (λ b. b.place) (map B.meaning breaks.now)) }
    ensures empty_on_error { OnErr result (places.new.items ≡ []) }
{
    places.clear();
    places.reserve(breaks.len())?;
    for b in breaks {
        // The list has room for all.
        places.push_reserved(b.place());
    }
    Ok(())
}

// Puts the places of the breaks of a word into a list, in place of what it held.
pub(crate) fn put_places<'h, H: Hyphenator<'h>>(
    alloc: Global,
    dictionary: &'h H,
    word: &str,
    places: &mut Vec<usize>,
) -> Result<(), AllocError>
    ensures places { OnOk result (places.new.items ≡ map (λ b. b.place) (H.breaks_of dictionary.now word.now)) }
    ensures empty_on_error { OnErr result (places.new.items ≡ []) }
{
    match dictionary.breaks(alloc, word) {
        Ok(breaks) => places_of(&breaks, places),
        Err(e) => {
            places.clear();
            Err(e)
        }
    }
}

// Puts the places of the breaks that change no letters into a list, in place of what it held.
fn plain_places_of<B: Break>(breaks: &[B], places: &mut Vec<usize>) -> Result<(), AllocError>
    ensures { OnOk result (places.new.items ≡ plain_places (map B.meaning breaks.now)) }
{
    places.clear();
    for b in breaks {
        if !b.changed() {
            places.push(b.place())?;
        }
    }
    Ok(())
}

// Puts the places of the breaks of a word that change no letters into a list, in place of what it held.
pub(crate) fn put_plain_places<'h, H: Hyphenator<'h>>(
    alloc: Global,
    dictionary: &'h H,
    word: &str,
    places: &mut Vec<usize>,
) -> Result<(), AllocError>
    ensures plain { OnOk result (places.new.items ≡ plain_places (H.breaks_of dictionary.now word.now)) }
    ensures fit { OnOk result (Fits word.now (map plain_break places.new.items)) }
{
    plain_breaks_fit_where_ascending();
    all_breaks_fit(dictionary);
    let breaks = dictionary.breaks(alloc, word)?;
    plain_places_of(&breaks, places)
}
