//! The keys and words of a dictionary, gathered from files.

ghost use Rattle.std.specs.Prelude.{◌≡◌, IfOk, OnOk, OnErr, IsTrue};
ghost use Rattle.std.specs.String.{string_bytes};
ghost use Rattle.hyphenation_breaks.specs.Invariant.{are_listed};
ghost use Rattle.hyphenation_dictionary.specs.Maker.{fits_key};
ghost use Rattle.pattern_results.specs.Parts.{nothing_spelt, with_key, with_word, contents_made};

use hyphenation_breaks::entry::{Entry, Listing, Payload};
use hyphenation_breaks::language::Language;
use hyphenation_dictionary::dictionary::Dictionary;
use hyphenation_dictionary::maker::make;
use std::alloc::{AllocError, Global};
use std::marker::Model;

/// Keys with their entries and words with their breaks that fit a dictionary, in the order in which files have them.
#[derive(Drop)]
pub struct DictionaryParts<C: Payload, B: Listing> {
    patterns: Vec<(String, Vec<Entry<C>>)>,
    exceptions: Vec<(String, Vec<B>)>,
}

impl<C: Payload, B: Listing> Model for DictionaryParts<C, B> {
    ghost use Rattle.std.specs.Prelude.{map, All, IsTrue};
    ghost use Rattle.std.specs.String.{string_bytes};
    ghost use Rattle.hyphenation_breaks.specs.Invariant.{are_listed};
    ghost use Rattle.hyphenation_dictionary.specs.Maker.{pair_of, fits_key};
    ghost use Rattle.pattern_results.specs.Parts.{SpeltWords};

    ghost Value = { SpeltWords C B };

    ghost view = { λ p.
        record {
          patterns = map pair_of p.patterns.items;
          exceptions = map pair_of p.exceptions.items;
        } };

    ghost invariant = { λ p.
        All (λ k. IsTrue (fits_key C.change_of (string_bytes k.0) k.1.items)) p.patterns.items
        × All (λ e. IsTrue (are_listed B.meaning (string_bytes e.0) e.1.items)) p.exceptions.items };
}

impl<C: Payload, B: Listing> DictionaryParts<C, B> {
    /// Makes parts with neither a key nor a word.
    pub fn new(alloc: Global) -> DictionaryParts<C, B>
        ensures { result ≡ nothing_spelt }
    {
        DictionaryParts {
            patterns: Vec::new(alloc),
            exceptions: Vec::new(alloc),
        }
    }

    /// Appends a key with its entries. The key must be one that may have these entries. The only error is out of memory,
    /// and then nothing has changed.
    pub fn push_pattern(&mut self, key: String, entries: Vec<Entry<C>>) -> Result<(), AllocError>
        requires { IsTrue (fits_key C.change_of (string_bytes key) entries.items) }
        ensures appended { OnOk result (self.new ≡ with_key self.old (string_bytes key, entries.items)) }
        ensures unchanged_on_error { OnErr result (self.new ≡ self.old) }
    {
        self.patterns.push((key, entries))?;
        Ok(())
    }

    /// Appends a word with its breaks. The word must be one for which these breaks may be listed. The only error is out
    /// of memory, and then nothing has changed.
    pub fn push_exception(&mut self, word: String, listed: Vec<B>) -> Result<(), AllocError>
        requires { IsTrue (are_listed B.meaning (string_bytes word) listed.items) }
        ensures appended { OnOk result (self.new ≡ with_word self.old (string_bytes word, listed.items)) }
        ensures unchanged_on_error { OnErr result (self.new ≡ self.old) }
    {
        self.exceptions.push((word, listed))?;
        Ok(())
    }

    /// Makes the dictionary of these keys and words, with least numbers of characters before and after a break. If a
    /// key or a word comes several times, the last one counts. The only error is out of memory.
    pub fn make(
        self,
        alloc: Global,
        language: Language,
        left: u8,
        right: u8,
    ) -> Result<Dictionary<C, B>, AllocError>
        ensures { IfOk result (λ d. d ≡ contents_made language left right self) }
    {
        make(alloc, language, left, right, self.patterns, self.exceptions)
    }
}
