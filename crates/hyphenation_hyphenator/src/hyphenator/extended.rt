//! Hyphenation by an extended dictionary.

ghost use Rattle.std.specs.Prelude.{◌≡◌, ◌≤◌, ℕ, List, IsTrue, Option, Some, None, IfSome, IfOk, OnOk, OnErr, map};
ghost use Rattle.std.specs.Str.{IsCharBoundary, IsUtf8};
ghost use Rattle.std.specs.FinMap as finite;
ghost use Rattle.std.specs.Option.{option_map};
ghost use Rattle.std.specs.String.{string_bytes};
ghost use Rattle.hyphenation_breaks.specs.Invariant.{are_listed};
ghost use Rattle.hyphenation_segments.specs.Fits.{Fits};
ghost use Rattle.hyphenation_hyphenator.specs.Fitting.{fitted_breaks_of};
ghost use Rattle.hyphenation_hyphenator.specs.Opportunities.{own_break, rules_of, extended_rules, boundaries_by};
ghost use Rattle.hyphenation_hyphenator.specs.Opportunities.{HasBreaksIfAny, Ascending, ListsOnly};
ghost use Rattle.hyphenation_score.specs.Scoring.{own_change};

use super::word_paths::{
    breaks, breaks_into, exception, exception_within, opportunities, opportunities_within,
};
use super::{Hyphenator, boundaries_of};
use hyphenation_breaks::extended::Subregion;
use hyphenation_dictionary::dictionary::Extended;
use hyphenation_score::laws::{value_is_borne, winner_is_first};
use std::alloc::{AllocError, Global};

impl<'h> Hyphenator<'h> for Extended {
    ghost use Rattle.hyphenation_hyphenator.specs.Fitting.{fitted_breaks_of};
    ghost use Rattle.hyphenation_hyphenator.specs.Opportunities.{extended_rules};
    ghost use Rattle.hyphenation_score.specs.Scoring.{own_change};

    type Opportunity = (usize, Option<&'h Subregion>);

    type Exact = (usize, Option<Subregion>);

    ghost rules = { extended_rules };

    ghost breaks_of = { λ dictionary word. fitted_breaks_of (extended_rules dictionary) word };

    fn breaks_fit(&self)
        ensures fit { (word : List ℕ) → IsUtf8 word
            → Fits word (fitted_breaks_of (extended_rules self.now) word) }
        ensures ascend { (word : List ℕ) → IsUtf8 word
            → Ascending word (fitted_breaks_of (extended_rules self.now) word) }
    {
        self.invariant();
        value_is_borne::<Option<Subregion>>();
        winner_is_first::<Option<Subregion>>();
    }

    fn unbreakable_chars(&self) -> (usize, usize)
        ensures { result ≡ (extended_rules self.now).minima }
    {
        self.minima()
    }

    fn boundaries(&self, word: &str) -> Option<(usize, usize)>
        ensures value { result ≡ boundaries_by (extended_rules self.now) word.now }
        ensures ordered { IfSome result (λ bounds. bounds.0 ≤ bounds.1) }
        ensures first_at_character { IfSome result (λ bounds. IsCharBoundary word.now bounds.0) }
        ensures last_at_character { IfSome result (λ bounds. IsCharBoundary word.now bounds.1) }
    {
        boundaries_of(self.minima(), word)
    }

    fn opportunities_within(
        &'h self,
        alloc: Global,
        lowercase_word: &str,
        bounds: (usize, usize),
    ) -> Result<Vec<(usize, Option<&'h Subregion>)>, AllocError> {
        opportunities_within(alloc, self, lowercase_word, bounds)
    }

    fn exception_within(
        &'h self,
        alloc: Global,
        lowercase_word: &str,
        bounds: (usize, usize),
    ) -> Result<Option<Vec<(usize, Option<&'h Subregion>)>>, AllocError> {
        exception_within(alloc, self, lowercase_word, bounds)
    }

    fn exception(
        &'h self,
        alloc: Global,
        lowercase_word: &str,
    ) -> Result<Option<Vec<(usize, Option<&'h Subregion>)>>, AllocError> {
        exception(alloc, self, lowercase_word)
    }

    fn opportunities(
        &'h self,
        alloc: Global,
        lowercase_word: &str,
    ) -> Result<Vec<(usize, Option<&'h Subregion>)>, AllocError> {
        opportunities(alloc, self, lowercase_word)
    }

    fn add_exception(
        &mut self,
        lowercase_word: String,
        ops: Vec<(usize, Option<Subregion>)>,
    ) -> Result<Option<Vec<(usize, Option<Subregion>)>>, AllocError>
        requires { IsTrue (are_listed own_break (string_bytes lowercase_word) ops.items) }
        ensures lists { OnOk result (ListsOnly (extended_rules self.old)
            (extended_rules self.new) (string_bytes lowercase_word) (Some (map own_break ops.items))) }
        ensures returns_old { HasBreaksIfAny own_break result
            ((extended_rules self.old).listed (string_bytes lowercase_word)) }
        ensures unchanged_on_error { OnErr result (self.new ≡ self.old) }
        ensures contents { OnOk result (self.new ≡ record self.old
            { exceptions = finite.insert self.old.exceptions (string_bytes lowercase_word) ops.items }) }
    {
        self.insert_exception(lowercase_word, ops)
    }

    fn remove_exception(&mut self, word: &str) -> Option<Vec<(usize, Option<Subregion>)>>
        ensures unlists { ListsOnly (extended_rules self.old)
            (extended_rules self.new) word.now
            None }
        ensures returns_old { option_map (λ v. map own_break v.items) result
            ≡ (extended_rules self.old).listed word.now }
        ensures contents { self.new ≡ record self.old { exceptions = finite.remove self.old.exceptions word.now } }
    {
        self.remove_exception(word)
    }

    #[inline(always)]
    fn breaks(
        &'h self,
        alloc: Global,
        word: &str,
    ) -> Result<Vec<(usize, Option<&'h Subregion>)>, AllocError> {
        breaks(alloc, self, word)
    }

    #[inline(always)]
    fn breaks_into(
        &'h self,
        word: &str,
        breaks: &mut Vec<(usize, Option<&'h Subregion>)>,
    ) -> Result<(), AllocError> {
        breaks_into(self, word, breaks)
    }
}
