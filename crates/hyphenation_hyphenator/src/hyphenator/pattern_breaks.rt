//! Finding the breaks that patterns allow, at the places of odd values.
//!
//! A standard dictionary needs only the values. An extended one needs the winners of the places, whose entries may
//! carry changes. If it has a table, the ranks of the places show the words whose winners carry none, which are most.

ghost use Rattle.std.specs.Prelude.{◌≡◌, ◌+◌, ◌-◌, ◌<◌, ◌≤◌, [], ◌∷◌, ◌++◌, ℕ, false, not, length, map, take, Option, None, option_copied};
ghost use Rattle.std.specs.Prelude.{IfOk, IfSome, IsTrue, OnOk};
ghost use Rattle.std.specs.List.{list_all, slice_index_or};
ghost use Rattle.std.specs.Option.{option_map};
ghost use Rattle.hyphenation_breaks.specs.Break.{plain_break};
ghost use Rattle.hyphenation_breaks.specs.Ranks.{plain_rank, rank_with_change};
ghost use Rattle.hyphenation_trie.specs.Tables.{IsTableOf};
ghost use Rattle.hyphenation_trie.specs.Trie.{entries_of_key, EachBeginsKey};
ghost use Rattle.hyphenation_score.specs.Scoring.{own_change};
ghost use Rattle.hyphenation_hyphenator.specs.Opportunities.{no_change, within};
ghost use Rattle.hyphenation_hyphenator.specs.Private.Opportunities.{borrowed_break, break_at_winner, breaks_at_winners};
ghost use Rattle.hyphenation_hyphenator.specs.Private.Opportunities.{breaks_by_keys, is_unchanged, odd_places, values_of_ranks};

use super::found_break::FoundBreak;
use hyphenation_breaks::entry::Entry;
use hyphenation_breaks::extended::Subregion;
use hyphenation_score::laws::{ranks_show_changes, winner_has_value};
use hyphenation_score::{LookUps, compete_all, find_ranks, put_values};
use hyphenation_trie::Automaton;
use hyphenation_trie::table::Table;
use std::alloc::AllocError;

// Whether a place is within bounds, both included.
pub(super) fn is_within(bounds: (usize, usize), place: usize) -> bool
    ensures { result ≡ within bounds place }
{
    bounds.0 <= place && place <= bounds.1
}

// Appends a break. A list without memory takes some for eight breaks at once, since most words have a few.
#[inline(always)]
pub(super) fn push_with_room<B: Copy>(list: &mut Vec<B>, b: B) -> Result<(), AllocError>
    ensures { OnOk result (list.new.items ≡ list.old.items ++ b ∷ []) }
{
    if list.capacity() == 0 {
        list.reserve_exact(8)?;
    }
    list.push(b)?;
    Ok(())
}

// Returns the break at a place by its winner, if the winner's value is odd.
fn break_at_winner<'h>(
    place: usize,
    winner: Option<&'h Entry<Option<Subregion>>>,
) -> Option<(usize, Option<&'h Subregion>)>
    ensures { option_map borrowed_break result ≡ break_at_winner own_change place (option_copied winner.entry) }
{
    let entry = winner?;
    if entry.value % 2 == 1 {
        Some((place, entry.change.as_ref()))
    } else {
        None
    }
}

// Puts the breaks within bounds by the winners of the places from place 1 on into an empty list.
#[inline(always)]
fn breaks_at_winners<'h>(
    winners: &[Option<&'h Entry<Option<Subregion>>>],
    bounds: (usize, usize),
    breaks: &mut Vec<(usize, Option<&'h Subregion>)>,
) -> Result<(), AllocError>
    requires { breaks.old.items ≡ [] }
    ensures { OnOk result (map borrowed_break breaks.new.items
        ≡ breaks_at_winners own_change (map option_copied winners.now) bounds) }
{
    // Places outside of the bounds are not read.
    let end = winners.len().min(bounds.1);
    let first = bounds.0.saturating_sub(1).min(end);
    for index in first..end {
        if let Some(b) = break_at_winner(index + 1, winners[index]) {
            push_with_room(breaks, b)?;
        }
    }
    Ok(())
}

// Puts the breaks within bounds that patterns allow into an empty list. The buffer has a winner for each place, all
// `None` at first.
#[inline(always)]
fn winning_breaks_with_buffer<'h>(
    patterns: &'h Automaton<Entry<Option<Subregion>>>,
    word: &str,
    winners: &mut [Option<&'h Entry<Option<Subregion>>>],
    bounds: (usize, usize),
    breaks: &mut Vec<(usize, Option<&'h Subregion>)>,
) -> Result<(), AllocError>
    requires each_begins_key { EachBeginsKey patterns.now }
    requires one_for_each_place { length winners.old ≡ length word.now - 1 }
    requires none_at_first { (i : ℕ) → i < length winners.old → slice_index_or winners.old i None ≡ None }
    requires empty { breaks.old.items ≡ [] }
    ensures { OnOk result (map borrowed_break breaks.new.items
        ≡ breaks_by_keys own_change (entries_of_key patterns.now) word.now bounds) }
{
    winner_has_value::<Option<Subregion>>();
    let mut count = LookUps::new();
    compete_all(patterns, word.as_bytes(), winners, &mut count);
    breaks_at_winners(winners, bounds, breaks)
}

// Puts the breaks within bounds that the patterns of an extended dictionary allow into an empty list, with the changes
// of the winners. It is kept out of line, since few words have such breaks where there is a table.
#[inline(never)]
fn winning_breaks<'h>(
    patterns: &'h Automaton<Entry<Option<Subregion>>>,
    word: &str,
    bounds: (usize, usize),
    breaks: &mut Vec<(usize, Option<&'h Subregion>)>,
) -> Result<(), AllocError>
    requires each_begins_key { EachBeginsKey patterns.now }
    requires empty { breaks.old.items ≡ [] }
    ensures { OnOk result (map borrowed_break breaks.new.items
        ≡ breaks_by_keys own_change (entries_of_key patterns.now) word.now bounds) }
{
    let places = word.len().saturating_sub(1);
    if places <= 32 {
        // The winners of most words are on the stack.
        let mut winners: [Option<&'h Entry<Option<Subregion>>>; 32] = [None; 32];
        return winning_breaks_with_buffer(patterns, word, &mut winners[..places], bounds, breaks);
    }
    let mut winners: Vec<Option<&'h Entry<Option<Subregion>>>> =
        vec![in *breaks.allocator(); None; places]?;
    winning_breaks_with_buffer(patterns, word, &mut winners, bounds, breaks)
}

// Reports whether a place within bounds may have a break with a change: its value is odd, and so is its rank. The ranks
// begin with that of place 1. No branch depends on a rank, since a processor foresees few of those.
#[inline(always)]
fn may_change(ranks: &[u8], bounds: (usize, usize)) -> bool
    ensures { result ≡ not (list_all (is_unchanged ranks.now) (odd_places (values_of_ranks ranks.now) bounds)) }
{
    // Places outside of the bounds are not read.
    let first = bounds.0.max(1);
    let end = ranks.len().min(bounds.1);
    let mut changed = false;
    for place in first..end + 1 {
        // The lowest bit of a rank tells of a change, and the next one is that of an odd value.
        changed |= ranks[place - 1] % 4 == 3;
    }
    changed
}

// Puts the values of places in the stead of their ranks.
#[inline(always)]
fn halve_all(ranks: &mut [u8])
    ensures { ranks.new ≡ values_of_ranks ranks.old }
{
    for rank in ranks {
        *rank /= 2;
    }
}

// Puts plain breaks at the places within bounds whose value is odd into an empty list, and returns `true`. It is given
// the ranks of the places from place 1 on. Where one of them may have a change, it returns `false`, and the list is
// empty. The ranks may be overwritten.
#[inline(always)]
fn unchanged_breaks<'h>(
    ranks: &mut [u8],
    bounds: (usize, usize),
    breaks: &mut Vec<(usize, Option<&'h Subregion>)>,
) -> Result<bool, AllocError>
    requires { breaks.old.items ≡ [] }
    ensures unchanged { IfOk result (λ all.
        all ≡ list_all (is_unchanged ranks.old) (odd_places (values_of_ranks ranks.old) bounds)) }
    ensures all { IfOk result (λ all. IsTrue all
        → map borrowed_break breaks.new.items ≡ map plain_break (odd_places (values_of_ranks ranks.old) bounds)) }
    ensures empty { IfOk result (λ all. all ≡ false → breaks.new.items ≡ []) }
{
    if may_change(ranks, bounds) {
        return Ok(false);
    }
    halve_all(ranks);
    odd_places(ranks, bounds, breaks)?;
    Ok(true)
}

// Puts the breaks within bounds that the patterns of an extended dictionary allow into an empty list, by a table, and
// returns `true`. Where one of them may have a change, it returns `false`, and the list is empty.
#[inline(always)]
fn breaks_by_ranks<'h>(
    patterns: &'h Automaton<Entry<Option<Subregion>>>,
    table: &Table,
    word: &str,
    bounds: (usize, usize),
    breaks: &mut Vec<(usize, Option<&'h Subregion>)>,
) -> Result<bool, AllocError>
    requires table { IsTableOf rank_with_change (entries_of_key patterns.now) table.now }
    requires short { length word.now ≤ 62 }
    requires empty { breaks.old.items ≡ [] }
    ensures all { IfOk result (λ all. IsTrue all → map borrowed_break breaks.new.items
        ≡ breaks_by_keys own_change (entries_of_key patterns.now) word.now bounds) }
    ensures empty { IfOk result (λ all. all ≡ false → breaks.new.items ≡ []) }
{
    ranks_show_changes();
    let mut count = LookUps::new();
    let mut buffer = [0u8; 80];
    let list = &mut buffer[..word.len() + 18];
    find_ranks(patterns, table, word.as_bytes(), list, &mut count);
    let end = 16 + word.len().saturating_sub(1);
    unchanged_breaks(&mut list[16..end], bounds, breaks)
}

// Puts the breaks within bounds that the patterns of an extended dictionary allow into an empty list. With a table a
// word is searched by links only where its breaks may have changes, or where it is longer than most.
#[inline(always)]
pub(super) fn breaks_with_changes<'h>(
    patterns: &'h Automaton<Entry<Option<Subregion>>>,
    table: Option<&Table>,
    word: &str,
    bounds: (usize, usize),
    breaks: &mut Vec<(usize, Option<&'h Subregion>)>,
) -> Result<(), AllocError>
    requires each_begins_key { EachBeginsKey patterns.now }
    requires table { IfSome (option_copied table) (λ table. IsTableOf rank_with_change (entries_of_key patterns.now) table) }
    requires empty { breaks.old.items ≡ [] }
    ensures { OnOk result (map borrowed_break breaks.new.items
        ≡ breaks_by_keys own_change (entries_of_key patterns.now) word.now bounds) }
{
    if let Some(table) = table {
        if word.len() <= 62 && breaks_by_ranks(patterns, table, word, bounds, breaks)? {
            return Ok(());
        }
    }
    winning_breaks(patterns, word, bounds, breaks)
}

// Writes the places within bounds that have an odd value to the front of a list, and returns how many they are. The values
// begin with that of place 1. No branch depends on a value, since a processor foresees few of those.
#[inline(always)]
fn write_odd_places(values: &[u8], bounds: (usize, usize), found: &mut [u8; 64]) -> usize
    requires short { length values.now ≤ 64 }
    ensures count { result ≤ 64 }
    ensures found { take result found.new ≡ odd_places values.now bounds }
{
    // Places outside of the bounds are not read.
    let first = bounds.0.max(1);
    let end = values.len().min(bounds.1);
    let mut count = 0;
    for place in first..end + 1 {
        // Each place is written. The next one overwrites it if its value is even.
        found[count] = place as u8;
        count += (values[place - 1] % 2) as usize;
    }
    count
}

// Puts plain breaks at the places within bounds that have an odd value into an empty list, one after another. The
// values begin with that of place 1. It is kept out of line, since few words have that many places.
#[inline(never)]
fn odd_places_in_turn<F: FoundBreak>(
    values: &[u8],
    bounds: (usize, usize),
    list: &mut Vec<F>,
) -> Result<(), AllocError>
    requires { list.old.items ≡ [] }
    ensures { OnOk result (map F.meaning list.new.items ≡ map plain_break (odd_places values.now bounds)) }
{
    // Places outside of the bounds are not read.
    let first = bounds.0.max(1);
    let last = values.len().min(bounds.1);
    for place in first..last + 1 {
        if values[place - 1] % 2 == 1 {
            push_with_room(list, F::plain(place))?;
        }
    }
    Ok(())
}

// Puts plain breaks at places into an empty list. One with too little memory takes some for eight breaks or more at once, since
// most words have a few.
#[inline(always)]
fn put_found<F: FoundBreak>(found: &[u8], list: &mut Vec<F>) -> Result<(), AllocError>
    requires { list.old.items ≡ [] }
    ensures { OnOk result (map F.meaning list.new.items ≡ map plain_break found.now) }
{
    if list.capacity() < found.len() {
        list.reserve_exact(found.len().max(8))?;
    }
    for place in found {
        list.push_reserved(F::plain(*place as usize));
    }
    Ok(())
}

// Puts plain breaks at the places within bounds that have an odd value into an empty list. The values begin with that of
// place 1.
#[inline(always)]
fn odd_places<F: FoundBreak>(
    values: &[u8],
    bounds: (usize, usize),
    list: &mut Vec<F>,
) -> Result<(), AllocError>
    requires { list.old.items ≡ [] }
    ensures { OnOk result (map F.meaning list.new.items ≡ map plain_break (odd_places values.now bounds)) }
{
    if values.len() > 64 {
        return odd_places_in_turn(values, bounds, list);
    }
    let mut found = [0u8; 64];
    let count = write_odd_places(values, bounds, &mut found);
    put_found(&found[..count], list)
}

// Puts the places within bounds that patterns allow into an empty list. The list of values has 18 bytes more than the word.
#[inline(always)]
fn plain_breaks_with_buffer(
    patterns: &Automaton<Entry<()>>,
    table: Option<&Table>,
    word: &str,
    values: &mut [u8],
    bounds: (usize, usize),
    places: &mut Vec<usize>,
) -> Result<(), AllocError>
    requires each_begins_key { EachBeginsKey patterns.now }
    requires table { IfSome (option_copied table) (λ table. IsTableOf plain_rank (entries_of_key patterns.now) table) }
    requires room { length values.old ≡ length word.now + 18 }
    requires empty { places.old.items ≡ [] }
    ensures { OnOk result (map plain_break places.new.items
        ≡ breaks_by_keys no_change (entries_of_key patterns.now) word.now bounds) }
{
    let mut count = LookUps::new();
    put_values(patterns, table, word.as_bytes(), values, &mut count);
    let end = 16 + word.len().saturating_sub(1);
    odd_places(&values[16..end], bounds, places)
}

// Puts the places within bounds that the patterns of a standard dictionary allow into an empty list.
#[inline(always)]
pub(super) fn plain_breaks(
    patterns: &Automaton<Entry<()>>,
    table: Option<&Table>,
    word: &str,
    bounds: (usize, usize),
    places: &mut Vec<usize>,
) -> Result<(), AllocError>
    requires each_begins_key { EachBeginsKey patterns.now }
    requires table { IfSome (option_copied table) (λ table. IsTableOf plain_rank (entries_of_key patterns.now) table) }
    requires empty { places.old.items ≡ [] }
    ensures { OnOk result (map plain_break places.new.items
        ≡ breaks_by_keys no_change (entries_of_key patterns.now) word.now bounds) }
{
    let count = word.len();
    if count <= 62 {
        // The values of most words are on the stack.
        let mut values = [0u8; 80];
        return plain_breaks_with_buffer(
            patterns,
            table,
            word,
            &mut values[..count + 18],
            bounds,
            places,
        );
    }
    let mut values = vec![in *places.allocator(); 0u8; count + 18]?;
    plain_breaks_with_buffer(patterns, table, word, &mut values, bounds, places)
}
