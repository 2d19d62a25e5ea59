//! All that is known of a word, of which its texts are made.

ghost use Rattle.std.specs.Prelude.{◌≡◌, IfOk, map};
ghost use Rattle.explanations.specs.Facts.{place_of};
ghost use Rattle.explanations.specs.Private.Knowing.{IsKnown};

use crate::facts::Explanation;
use crate::finding::explain;
use hyphenation_breaks::breaks::Break;
use hyphenation_breaks::entry::{Listing, Payload};
use hyphenation_dictionary::dictionary::Dictionary;
use hyphenation_segments::Word;
use hyphenation_segments::iter::push_marked;
use std::alloc::{AllocError, Global};

// A word as written, and what is known of it.
#[derive(Drop)]
pub(crate) struct Known<'a, 'd, C, B> {
    pub(crate) word: &'a str,
    pub(crate) facts: Explanation<'d, C, B>,
    pub(crate) minima: (usize, usize),
    // The places of the word's breaks, and the word with a hyphen at each of them.
    pub(crate) places: Vec<usize>,
    pub(crate) hyphenated: String,
}

// Returns the places of breaks. The only error is out of memory.
fn places_of<O: Break>(alloc: Global, breaks: &[O]) -> Result<Vec<usize>, AllocError>
    ensures { IfOk result (λ places. places.items ≡ map place_of (map O.meaning breaks.now)) }
{
    let mut places = Vec::new(alloc);
    for b in breaks {
        places.push(b.place())?;
    }
    Ok(places)
}

// Returns what is known of a word with known breaks, by a dictionary. The only error is out of memory.
pub(crate) fn known_of<'a, 'd, C: Payload, B: Listing, O: Break>(
    alloc: Global,
    dictionary: &'d Dictionary<C, B>,
    word: &Word<'a, O>,
) -> Result<Known<'a, 'd, C, B>, AllocError>
    ensures { IfOk result (λ known. IsKnown C.change_of B.meaning dictionary.now word.now.text.now
        (map O.meaning word.now.breaks.items) known) }
{
    let places = places_of(alloc, &word.breaks)?;
    let mut hyphenated = String::new(alloc);
    push_marked(&mut hyphenated, word, "-")?;
    let minima = dictionary.minima();
    let facts = explain(alloc, dictionary, word.text)?;
    Ok(Known {
        word: word.text,
        facts,
        minima,
        places,
        hyphenated,
    })
}
