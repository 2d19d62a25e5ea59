//! Hyphenation by a standard dictionary.

ghost use Rattle.std.specs.Prelude.{◌≡◌, IsTrue, Some, None, IfOk, OnOk, OnErr, map};
ghost use Rattle.std.specs.Option.{option_map};
ghost use Rattle.std.specs.String.{string_bytes};
ghost use Rattle.std.specs.FinMap as finite;
ghost use Rattle.hyphenation_breaks.specs.Break.{plain_break};
ghost use Rattle.hyphenation_breaks.specs.Invariant.{are_listed};
ghost use Rattle.hyphenation_hyphenator.specs.Opportunities.{no_change, rules_of, standard_rules};
ghost use Rattle.hyphenation_hyphenator.specs.Opportunities.{HasBreaksIfAny, ListsOnly};

use super::word_paths::{
    breaks, breaks_into, exception, exception_within, opportunities, opportunities_within,
};
use super::{Hyphenator, boundaries_of};
use hyphenation_dictionary::dictionary::Standard;
use hyphenation_score::laws::{value_is_borne, winner_is_first};
use std::alloc::{AllocError, Global};

impl<'h> Hyphenator<'h> for Standard {
    ghost use Rattle.hyphenation_breaks.specs.Break.{plain_break};
    ghost use Rattle.hyphenation_hyphenator.specs.Opportunities.{standard_rules, all_breaks_of};

    type Opportunity = usize;

    type Exact = usize;

    ghost rules = { standard_rules };

    ghost breaks_of = { λ dictionary word. all_breaks_of (standard_rules dictionary) word };

    fn breaks_fit(&self) {
        self.invariant();
        value_is_borne::<()>();
        winner_is_first::<()>();
    }

    fn unbreakable_chars(&self) -> (usize, usize) {
        self.minima()
    }

    fn boundaries(&self, word: &str) -> Option<(usize, usize)> {
        boundaries_of(self.minima(), word)
    }

    fn opportunities_within(
        &'h self,
        alloc: Global,
        lowercase_word: &str,
        bounds: (usize, usize),
    ) -> Result<Vec<usize>, AllocError> {
        opportunities_within(alloc, self, lowercase_word, bounds)
    }

    fn exception_within(
        &'h self,
        alloc: Global,
        lowercase_word: &str,
        bounds: (usize, usize),
    ) -> Result<Option<Vec<usize>>, AllocError> {
        exception_within(alloc, self, lowercase_word, bounds)
    }

    fn exception(
        &'h self,
        alloc: Global,
        lowercase_word: &str,
    ) -> Result<Option<Vec<usize>>, AllocError> {
        exception(alloc, self, lowercase_word)
    }

    fn opportunities(
        &'h self,
        alloc: Global,
        lowercase_word: &str,
    ) -> Result<Vec<usize>, AllocError> {
        opportunities(alloc, self, lowercase_word)
    }

    fn add_exception(
        &mut self,
        lowercase_word: String,
        ops: Vec<usize>,
    ) -> Result<Option<Vec<usize>>, AllocError>
        requires { IsTrue (are_listed plain_break (string_bytes lowercase_word) ops.items) }
        ensures lists { OnOk result (ListsOnly (standard_rules self.old)
            (standard_rules self.new)
            (string_bytes lowercase_word) (Some (map plain_break ops.items))) }
        ensures returns_old { HasBreaksIfAny plain_break result
            ((standard_rules self.old).listed (string_bytes lowercase_word)) }
        ensures unchanged_on_error { OnErr result (self.new ≡ self.old) }
        ensures contents { OnOk result (self.new ≡ record self.old
            { exceptions = finite.insert self.old.exceptions (string_bytes lowercase_word) ops.items }) }
    {
        self.insert_exception(lowercase_word, ops)
    }

    fn remove_exception(&mut self, word: &str) -> Option<Vec<usize>>
        ensures unlists { ListsOnly (standard_rules self.old)
            (standard_rules self.new) word.now None }
        ensures returns_old { option_map (λ v. map plain_break v.items) result
            ≡ (standard_rules self.old).listed word.now }
        ensures contents { self.new ≡ record self.old { exceptions = finite.remove self.old.exceptions word.now } }
    {
        self.remove_exception(word)
    }

    #[inline(always)]
    fn breaks(&'h self, alloc: Global, word: &str) -> Result<Vec<usize>, AllocError> {
        self.invariant();
        value_is_borne::<()>();
        breaks(alloc, self, word)
    }

    #[inline(always)]
    fn breaks_into(&'h self, word: &str, breaks: &mut Vec<usize>) -> Result<(), AllocError> {
        self.invariant();
        value_is_borne::<()>();
        breaks_into(self, word, breaks)
    }
}
