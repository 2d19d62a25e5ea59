//! Dictionaries: patterns that allow and forbid breaks, and exceptions.
//!
//! A pattern is a key, a text that may occur in words, with values at places of the key. An exception is a word with its
//! listed breaks.

ghost use Rattle.std.specs.Prelude.{◌≡◌, ◌↔◌, IsTrue, IfOk, OnOk, OnErr, max, option_copied};
ghost use Rattle.std.specs.FinMap as finite;
ghost use Rattle.std.specs.Option.{option_map};
ghost use Rattle.std.specs.String.{string_bytes};
ghost use Rattle.hyphenation_breaks.specs.Break.{Break};
ghost use Rattle.hyphenation_breaks.specs.Dictionary.{Contents};
ghost use Rattle.hyphenation_breaks.specs.Invariant.{IsDictionary, are_listed};

use crate::exceptions::Exceptions;
use hyphenation_breaks::breaks::{Break, lies_in};
use hyphenation_breaks::entry::{Entry, Payload};
use hyphenation_breaks::extended::Subregion;
use hyphenation_breaks::language::Language;
use hyphenation_breaks::laws::listed_in_order;
use hyphenation_trie::Automaton;
use hyphenation_trie::table::Table;
use std::alloc::AllocError;
use std::fmt;
use std::marker::Model;

/// A dictionary whose values carry a payload `C`, and whose exceptions list breaks of type `B`.
///
/// Words are searched by a table of steps, which is made with the dictionary. There is none if a value is more than 15
/// bytes before its key's end. Nor is there one of more than 67 MB of cells, or of 17 MB where more than 1,024 different
/// lists of values end texts. Nor has an extended dictionary with a value above 127 one. Such a dictionary is searched by
/// links, with the same breaks. So is a word of an extended dictionary whose breaks may change letters, also where there
/// is a table.
pub struct Dictionary<C: Payload, B: Break> {
    pub(crate) language: Language,
    // The least number of characters of a word before its first break.
    pub(crate) left: u8,
    // The least number of characters of a word after its last break.
    pub(crate) right: u8,
    pub(crate) patterns: Automaton<Entry<C>>,
    // The table of steps of the patterns, if they can have one.
    pub(crate) table: Option<Table>,
    // Words, each with its listed breaks.
    pub(crate) exceptions: Exceptions<B>,
}

// It drops each field, as the derived implementation would. The proof of a function that drops a dictionary has one
// step for this call. With the derived implementation it has a step for each list of the dictionary.
impl<C: Payload, B: Break> Drop for Dictionary<C, B> {
    fn drop(self) {
        let Dictionary {
            language: _,
            left: _,
            right: _,
            patterns,
            table,
            exceptions,
        } = self;
        drop(patterns);
        drop(table);
        drop(exceptions);
    }
}

/// A dictionary whose breaks change no letters.
pub type Standard = Dictionary<(), usize>;

/// A dictionary whose breaks may change the letters around them.
pub type Extended = Dictionary<Option<Subregion>, (usize, Option<Subregion>)>;

impl<C: Payload, B: Break> Model for Dictionary<C, B> {
    ghost use Rattle.hyphenation_breaks.specs.Dictionary.{Contents};
    ghost use Rattle.hyphenation_dictionary.specs.Private.Views.{contents_code};
    ghost use Rattle.hyphenation_dictionary.specs.Parts.{contents_of_parts};
    ghost use Rattle.std.specs.Prelude.{IfSome};
    ghost use Rattle.hyphenation_trie.specs.Tables.{IsTableOf};
    ghost use Rattle.hyphenation_trie.specs.Trie.{entries_of_key, EachBeginsKey};
    ghost use Rattle.hyphenation_breaks.specs.Invariant.{IsDictionary};

    ghost Value = { Contents C B };

    ghost coded = { contents_code C.code B.code };

    ghost view = { λ d.
        contents_of_parts d.language d.left d.right d.patterns d.exceptions };

    ghost invariant = { λ d.
        EachBeginsKey d.patterns
        × IfSome d.table (λ table. IsTableOf C.rank_of (entries_of_key d.patterns) table)
        × IsDictionary C.change_of B.meaning
        (contents_of_parts d.language d.left d.right d.patterns d.exceptions) };
}

impl<C: Payload, B: Break> Dictionary<C, B> {
    /// Returns the language whose words the dictionary breaks.
    ///
    /// ```text
    /// dictionary.language().code()    // "en-gb"
    /// ```
    pub fn language(&self) -> Language
        ensures { result ≡ self.now.language }
    {
        self.language
    }

    /// Gives proofs the invariant of a dictionary, and does nothing.
    pub fn invariant(&self)
        ensures { IsDictionary C.change_of B.meaning self.now }
    {
        // Reading a field gives the proof the invariant of the type.
        let _left = self.left;
    }

    /// Returns the minima: the least numbers of characters of a word before its first break and after its last one.
    ///
    /// ```text
    /// let (left, right) = dictionary.minima();    // (2, 3) for British English
    /// ```
    pub fn minima(&self) -> (usize, usize)
        ensures { result ≡ (self.now.left, self.now.right) }
    {
        (usize::from(self.left), usize::from(self.right))
    }

    /// Raises the minima to at least these numbers of characters. Greater ones stay, and nothing else changes.
    ///
    /// ```text
    /// dictionary.raise_minima(4, 2);      // the minima 2 and 3 are then 4 and 3
    /// ```
    pub fn raise_minima(&mut self, left: u8, right: u8)
        ensures { self.new ≡ record self.old { left = max self.old.left left; right = max self.old.right right } }
    {
        self.left = self.left.max(left);
        self.right = self.right.max(right);
    }

    /// Returns the breaks listed for a word, or `None` if the word is not an exception.
    ///
    /// The look-up compares bytes, so an exception in small letters is found only by small letters.
    ///
    /// ```text
    /// dictionary.listed("table")    // Some(&[2]) if the exceptions have ta-ble
    /// ```
    pub fn listed(&self, word: &str) -> Option<&[B]>
        ensures { option_copied result ≡ finite.get self.now.exceptions word.now }
    {
        self.exceptions.get(word)
    }

    /// Reports whether breaks may be listed for a word.
    ///
    /// They may be listed if their places ascend strictly, and each place and each end of a range is a character boundary
    /// of the word. Ranges may overlap. The empty list may be listed for each word.
    ///
    /// ```text
    /// Standard::fits("table", &[2])       // true
    /// Standard::fits("table", &[3, 2])    // false: the places do not ascend
    /// Standard::fits("né", &[2])          // false: the place is inside the é
    /// ```
    pub fn fits(word: &str, listed: &[B]) -> bool
        ensures { IsTrue result ↔ IsTrue (are_listed B.meaning word.now listed.now) }
    {
        listed_in_order::<B>();
        let mut least = 0;
        for b in listed {
            if b.place() < least {
                return false;
            }
            if !lies_in(word, b) {
                return false;
            }
            least = b.place() + 1;
        }
        true
    }

    /// Lists breaks for a word, and returns the breaks that were listed for it before, if any.
    ///
    /// The breaks must fit the word, as [`Dictionary::fits`] tests. No other word changes. The only error is out of memory;
    /// it leaves the dictionary as it was.
    ///
    /// ```text
    /// dictionary.insert_exception(table, breaks)?    // None if `table` was not an exception
    /// ```
    pub fn insert_exception(
        &mut self,
        word: String,
        listed: Vec<B>,
    ) -> Result<Option<Vec<B>>, AllocError>
        requires { IsTrue (are_listed B.meaning (string_bytes word) listed.items) }
        ensures listed { OnOk result (self.new ≡ record self.old
            { exceptions = finite.insert self.old.exceptions (string_bytes word) listed.items }) }
        ensures listed_before { IfOk result (λ old.
            option_map (λ v. v.items) old ≡ finite.get self.old.exceptions (string_bytes word)) }
        ensures unchanged_on_error { OnErr result (self.new ≡ self.old) }
    {
        let old = self.exceptions.insert(word, listed)?;
        Ok(old)
    }

    /// Removes a word from the exceptions, and returns the breaks that were listed for it, if any.
    ///
    /// No other word changes.
    ///
    /// ```text
    /// dictionary.remove_exception("table")    // Some([2]) if the exceptions have ta-ble; the patterns decide then
    /// ```
    pub fn remove_exception(&mut self, word: &str) -> Option<Vec<B>>
        ensures removed { self.new ≡ record self.old { exceptions = finite.remove self.old.exceptions word.now } }
        ensures listed_before { option_map (λ v. v.items) result ≡ finite.get self.old.exceptions word.now }
    {
        self.exceptions.remove(word)
    }
}

impl<C: Payload, B: Break> fmt::Debug for Dictionary<C, B> {
    fn fmt<W: fmt::Write>(&self, f: &mut fmt::Formatter<W>) -> fmt::Result {
        f.debug_struct("Dictionary")
            .field("language", &self.language)
            .field("minima", &(self.left, self.right))
            .finish_non_exhaustive()
    }
}
