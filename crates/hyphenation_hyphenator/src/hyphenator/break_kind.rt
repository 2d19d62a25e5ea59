//! The breaks of standard and of extended dictionaries, for code that finds both.

ghost use Rattle.std.specs.Prelude.{◌≡◌, ◌+◌, ◌-◌, ◌<◌, Option, None, IfSome, OnOk, [], length, map, option_copied};
ghost use Rattle.std.specs.List.Sorted.{IsNonDecreasingBy};
ghost use Rattle.hyphenation_breaks.specs.Break.{plain_break, break_at};
ghost use Rattle.hyphenation_hyphenator.specs.Fitting.{kept_breaks};
ghost use Rattle.hyphenation_hyphenator.specs.Private.Fitting.{range_holds_no_shift, kept_by_shifts};
ghost use Rattle.hyphenation_trie.specs.Tables.{IsTableOf};
ghost use Rattle.hyphenation_trie.specs.Trie.{entries_of_key, EachBeginsKey};
ghost use Rattle.hyphenation_hyphenator.specs.Opportunities.{breaks_within, breaks_at_odd_values, Ascending};
ghost use Rattle.hyphenation_hyphenator.specs.Private.Opportunities.{borrowed_break, breaks_by_keys};

use super::fitting::{are_plain, keep_fitting};
use super::found_break::FoundBreak;
use super::pattern_breaks::{breaks_with_changes, plain_breaks};
use crate::case_folding::Shift;
use hyphenation_breaks::breaks::Break;
use hyphenation_breaks::entry::{Entry, Payload};
use hyphenation_breaks::extended::Subregion;
use hyphenation_trie::Automaton;
use hyphenation_trie::table::Table;
use std::alloc::AllocError;

// The type of the breaks that a kind of dictionary finds.
pub(crate) trait BreakKind<'h>: FoundBreak {
    // The payload of the dictionary's entries.
    type Payload: Payload;

    // A break as the dictionary's exceptions hold it.
    type Listing: Break;

    // Puts the breaks within bounds that patterns allow into an empty list. The patterns may have a table of steps.
    fn pattern_breaks(
        patterns: &'h Automaton<Entry<Self::Payload>>,
        table: Option<&'h Table>,
        word: &str,
        bounds: (usize, usize),
        list: &mut Vec<Self>,
    ) -> Result<(), AllocError>
        requires each_begins_key { EachBeginsKey patterns.now }
        requires table { IfSome (option_copied table) (λ table.
            IsTableOf Self.Payload.rank_of (entries_of_key patterns.now) table) }
        requires empty { list.old.items ≡ [] }
        ensures { OnOk result (map Self.meaning list.new.items
            ≡ breaks_by_keys Self.Payload.change_of (entries_of_key patterns.now) word.now bounds) };

    // Returns a listed break as a break that is found.
    fn from_listed(listed: &'h Self::Listing) -> Self
        ensures { Self.meaning result ≡ Self.Listing.meaning listed.now };

    // Returns this break with another place.
    fn at_place(self, place: usize) -> Self
        ensures { Self.meaning result ≡ break_at place (Self.meaning self).change };

    // Keeps those breaks of a folded word that fit the word as written, and takes the others out of the list.
    //
    // The shifts are sorted by their indices, and the places of the breaks ascend.
    fn keep_fitting(folded: &str, shifts: &[Shift], list: &mut Vec<Self>) -> Result<(), AllocError>
        requires shifts_sorted { IsNonDecreasingBy (λ shift. shift.index) shifts.now }
        requires ascend { Ascending folded.now (map Self.meaning list.old.items) }
        ensures { OnOk result (map Self.meaning list.new.items
            ≡ kept_by_shifts folded.now shifts.now (map Self.meaning list.old.items)) };
}

impl<'h> BreakKind<'h> for usize {
    type Payload = ();

    type Listing = usize;

    #[inline(always)]
    fn pattern_breaks(
        patterns: &'h Automaton<Entry<()>>,
        table: Option<&'h Table>,
        word: &str,
        bounds: (usize, usize),
        list: &mut Vec<usize>,
    ) -> Result<(), AllocError> {
        plain_breaks(patterns, table, word, bounds, list)
    }

    fn from_listed(listed: &'h usize) -> usize {
        *listed
    }

    fn at_place(self, place: usize) -> usize {
        place
    }

    // Plain breaks always fit.
    fn keep_fitting(
        _folded: &str,
        _shifts: &[Shift],
        _list: &mut Vec<usize>,
    ) -> Result<(), AllocError>
        requires shifts_sorted { IsNonDecreasingBy (λ shift. shift.index) _shifts.now }
        requires ascend { Ascending _folded.now (map plain_break _list.old.items) }
        ensures { OnOk result (map plain_break _list.new.items
            ≡ kept_by_shifts _folded.now _shifts.now (map plain_break _list.old.items)) }
    {
        Ok(())
    }
}

impl<'h> BreakKind<'h> for (usize, Option<&'h Subregion>) {
    type Payload = Option<Subregion>;

    type Listing = (usize, Option<Subregion>);

    #[inline(always)]
    fn pattern_breaks(
        patterns: &'h Automaton<Entry<Option<Subregion>>>,
        table: Option<&'h Table>,
        word: &str,
        bounds: (usize, usize),
        list: &mut Vec<(usize, Option<&'h Subregion>)>,
    ) -> Result<(), AllocError> {
        breaks_with_changes(patterns, table, word, bounds, list)
    }

    fn from_listed(listed: &'h (usize, Option<Subregion>)) -> (usize, Option<&'h Subregion>) {
        (listed.0, listed.1.as_ref())
    }

    fn at_place(self, place: usize) -> (usize, Option<&'h Subregion>) {
        (place, self.1)
    }

    #[inline(always)]
    fn keep_fitting(
        folded: &str,
        shifts: &[Shift],
        list: &mut Vec<(usize, Option<&'h Subregion>)>,
    ) -> Result<(), AllocError>
        requires shifts_sorted { IsNonDecreasingBy (λ shift. shift.index) shifts.now }
        requires ascend { Ascending folded.now (map borrowed_break list.old.items) }
        ensures { OnOk result (map borrowed_break list.new.items
            ≡ kept_by_shifts folded.now shifts.now (map borrowed_break list.old.items)) }
    {
        // Plain breaks always fit.
        if are_plain(list) {
            return Ok(());
        }
        *list = keep_fitting(*list.allocator(), folded.len(), shifts, list)?;
        Ok(())
    }
}
