//! Dictionaries that find the breaks of words.
//!
//! A [`Hyphenator`] finds where a word may be broken. [`Hyphenator::hyphenate`] takes a word as written, which may have
//! capitals and soft hyphens. The other calls take a word in lowercase and return places of that very word.

ghost use Rattle.std.specs.Prelude.{◌≡◌, ℕ, ◌≤◌, List, [], IsTrue, Option, Some, None, IfSome, IfOk, OnOk, OnErr, map};
ghost use Rattle.std.specs.Option.{option_map};
ghost use Rattle.std.specs.Str.{IsCharBoundary, IsUtf8};
ghost use Rattle.std.specs.String.{string_bytes};
ghost use Rattle.hyphenation_breaks.specs.Break.{Break};
ghost use Rattle.hyphenation_breaks.specs.Invariant.{are_listed};
ghost use Rattle.hyphenation_segments.specs.Fits.{Fits};
ghost use Rattle.hyphenation_hyphenator.specs.Fitting.{KeepRanges};
ghost use Rattle.hyphenation_hyphenator.specs.Opportunities.{Rules, boundaries_by, by_patterns, by_exception};
ghost use Rattle.hyphenation_hyphenator.specs.Opportunities.{exception_within_boundaries, opportunities};
ghost use Rattle.hyphenation_hyphenator.specs.Opportunities.{HasBreaks, HasBreaksIfAny, Ascending, ListsOnly};

mod ascii_lowercase;
mod boundaries;
mod break_kind;
mod extended;
mod fitting;
mod found_break;
pub mod laws;
mod pattern_breaks;
mod standard;
mod word_paths;

pub use crate::soft_hyphens::soft_hyphen_indices;
pub use boundaries::boundaries_of;
pub use hyphenation_breaks::breaks::Break;
pub use hyphenation_segments::Word;
use std::alloc::{AllocError, Global};

/// A dictionary that finds the breaks of single words.
///
/// All places and bounds are counted in bytes. An error of any of these calls says that memory was refused.
pub trait Hyphenator<'h> {
    /// A break that is found in a word: a place, or a place with a change or none.
    type Opportunity: Break;

    /// A break that is listed for an exception.
    type Exact: Break;

    /// The minima, the listed breaks of each exception, and the breaks that patterns allow.
    ghost rules: { Self → Rules };

    /// The breaks of a word as written.
    ghost breaks_of: { Self → List ℕ → List Break };

    /// A law for proofs: the breaks of every word fit it, so they ascend strictly on its character boundaries.
    ///
    /// The call does nothing.
    fn breaks_fit(&self)
        ensures fit { (word : List ℕ) → IsUtf8 word → Fits word (breaks_of self.now word) }
        ensures ascend { (word : List ℕ) → IsUtf8 word → Ascending word (breaks_of self.now word) };

    /// Returns the minima: the least numbers of characters before the first break of a word and after the last one.
    fn unbreakable_chars(&self) -> (usize, usize)
        ensures { result ≡ (rules self.now).minima };

    /// Returns the first and the last place at which the minima allow a break, as [`boundaries_of`] does.
    ///
    /// The result is `None` where the word has too few characters.
    fn boundaries(&self, word: &str) -> Option<(usize, usize)>
        ensures value { result ≡ boundaries_by (rules self.now) word.now }
        ensures ordered { IfSome result (λ bounds. bounds.0 ≤ bounds.1) }
        ensures first_at_character { IfSome result (λ bounds. IsCharBoundary word.now bounds.0) }
        ensures last_at_character { IfSome result (λ bounds. IsCharBoundary word.now bounds.1) };

    /// Returns the breaks that patterns allow from the first bound to the second, both included.
    ///
    /// Minima and exceptions play no part. Bounds may be any numbers; where the first is greater than the second there
    /// is no break.
    ///
    /// ```text
    /// dictionary.opportunities_within(alloc, "hyphenation", (0, 7))?      // 2, 6: the 7 is an exception's
    /// ```
    fn opportunities_within(
        &'h self,
        alloc: Global,
        lowercase_word: &str,
        bounds: (usize, usize),
    ) -> Result<Vec<Self::Opportunity>, AllocError>
        ensures breaks { HasBreaks Self.Opportunity.meaning result
            (by_patterns (rules self.now) lowercase_word.now bounds) }
        ensures ascend { IfOk result (λ v. Ascending lowercase_word.now (map Self.Opportunity.meaning v.items)) };

    /// Returns the breaks listed for a word from the first bound to the second, both included.
    ///
    /// The result is `None` where the word is no exception.
    fn exception_within(
        &'h self,
        alloc: Global,
        lowercase_word: &str,
        bounds: (usize, usize),
    ) -> Result<Option<Vec<Self::Opportunity>>, AllocError>
        ensures breaks { HasBreaksIfAny Self.Opportunity.meaning result
            (by_exception (rules self.now) lowercase_word.now bounds) }
        ensures ascend { IfOk result
            (λ found. IfSome found (λ v. Ascending lowercase_word.now (map Self.Opportunity.meaning v.items))) };

    /// Returns the breaks listed for a word, within its boundaries.
    ///
    /// The result is `None` where the word has too few characters, or is no exception.
    fn exception(
        &'h self,
        alloc: Global,
        lowercase_word: &str,
    ) -> Result<Option<Vec<Self::Opportunity>>, AllocError>
        ensures breaks { HasBreaksIfAny Self.Opportunity.meaning result
            (exception_within_boundaries (rules self.now) lowercase_word.now) }
        ensures ascend { IfOk result
            (λ found. IfSome found (λ v. Ascending lowercase_word.now (map Self.Opportunity.meaning v.items))) };

    /// Returns the breaks of a word in lowercase, within its boundaries.
    ///
    /// For an exception these are the breaks listed for it, and patterns play no part. For any other word they are the
    /// breaks that patterns allow.
    ///
    /// ```text
    /// dictionary.opportunities(alloc, "hyphenation")?      // 2, 6, 7
    /// ```
    fn opportunities(
        &'h self,
        alloc: Global,
        lowercase_word: &str,
    ) -> Result<Vec<Self::Opportunity>, AllocError>
        ensures breaks { HasBreaks Self.Opportunity.meaning result (opportunities (rules self.now) lowercase_word.now) }
        ensures ascend { IfOk result (λ v. Ascending lowercase_word.now (map Self.Opportunity.meaning v.items)) };

    /// Makes a word an exception with these breaks, and returns the breaks that were listed for it before.
    ///
    /// The word must be one for which these breaks may be listed, as `Dictionary::fits` tests. Nothing else changes.
    /// After an error the dictionary is unchanged, and the word and the breaks are dropped.
    ///
    /// ```text
    /// let mut places = Vec::new(alloc);
    /// places.push(3)?;
    /// let word = String::from_str(alloc, "present")?;
    /// if Standard::fits("present", &places) {
    ///     let before = dictionary.add_exception(word, places)?;      // None, or the breaks listed before
    /// }
    /// ```
    fn add_exception(
        &mut self,
        lowercase_word: String,
        ops: Vec<Self::Exact>,
    ) -> Result<Option<Vec<Self::Exact>>, AllocError>
        requires { IsTrue (are_listed Self.Exact.meaning (string_bytes lowercase_word) ops.items) }
        ensures lists { OnOk result (ListsOnly (rules self.old) (rules self.new) (string_bytes lowercase_word)
            (Some (map Self.Exact.meaning ops.items))) }
        ensures returns_old { HasBreaksIfAny Self.Exact.meaning result
            ((rules self.old).listed (string_bytes lowercase_word)) }
        ensures unchanged_on_error { OnErr result (self.new ≡ self.old) };

    /// Makes a word no exception, and returns the breaks that were listed for it, or `None` where it was none.
    ///
    /// Nothing else changes.
    ///
    /// ```text
    /// let before = dictionary.remove_exception("present");      // None, or the breaks listed before
    /// ```
    fn remove_exception(&mut self, word: &str) -> Option<Vec<Self::Exact>>
        ensures unlists { ListsOnly (rules self.old) (rules self.new) word.now None }
        ensures returns_old { option_map (λ v. map Self.Exact.meaning v.items) result
            ≡ (rules self.old).listed word.now };

    /// Returns the breaks of a word as written, which are those of [`hyphenate`](Hyphenator::hyphenate).
    fn breaks(&'h self, alloc: Global, word: &str) -> Result<Vec<Self::Opportunity>, AllocError>
        ensures breaks { HasBreaks Self.Opportunity.meaning result (breaks_of self.now word.now) }
        ensures fits { IfOk result (λ v. Fits word.now (map Self.Opportunity.meaning v.items)) }
        ensures ranges { OnOk result (KeepRanges (rules self.now) word.now) };

    /// Puts the breaks of a word as written into a list, in place of what it held. They are those of
    /// [`hyphenate`](Hyphenator::hyphenate).
    ///
    /// A caller with many words keeps one list, so that memory is taken for it once. After an error the list is empty.
    ///
    /// ```text
    /// let mut places = Vec::new(alloc);
    /// for word in words {
    ///     dictionary.breaks_into(word, &mut places)?;      // 2, 6, 7 for "Hyphenation"
    /// }
    /// ```
    fn breaks_into(
        &'h self,
        word: &str,
        breaks: &mut Vec<Self::Opportunity>,
    ) -> Result<(), AllocError>
        ensures breaks { OnOk result (map Self.Opportunity.meaning breaks.new.items ≡ breaks_of self.now word.now) }
        ensures fits { OnOk result (Fits word.now (map Self.Opportunity.meaning breaks.new.items)) }
        ensures empty_on_error { OnErr result (breaks.new.items ≡ []) };

    /// Returns a word as written, with its breaks.
    ///
    /// A word with soft hyphens is broken where they begin, and nowhere else. Any other word is folded to lowercase.
    /// Each break of the folded word is carried back to the place with as many characters before it.
    ///
    /// An extended dictionary leaves out a break whose range lies outside of the folded word, or begins before a kept
    /// range ends. It leaves out one whose range holds a character whose number of bytes the folding changed. The other
    /// changes apply to the same letters of the word as written.
    ///
    /// ```text
    /// let word = dictionary.hyphenate(alloc, "Hyphenation")?;      // word.breaks: 2, 6, 7
    /// for segment in word {                                        // Hy-  phen-  a-  tion
    ///     line.push_str(segment?.as_str())?;
    /// }
    /// ```
    #[inline(always)]
    final fn hyphenate<'t>(
        &'h self,
        alloc: Global,
        word: &'t str,
    ) -> Result<Word<'t, Self::Opportunity>, AllocError>
        ensures text { IfOk result (λ w. w.text.now ≡ word.now) }
        ensures breaks { IfOk result (λ w. map Self.Opportunity.meaning w.breaks.items ≡ breaks_of self.now word.now) }
        ensures ranges { OnOk result (KeepRanges (rules self.now) word.now) }
    {
        let breaks = self.breaks(alloc, word)?;
        Ok(Word::new(word, breaks))
    }
}
