//! Finding the breaks of a word, for both kinds of dictionaries.
//!
//! The calls for lowercase words come first. Then come the paths of a word as written: words of common lowercase letters,
//! short words whose folding moves no place, and any.

ghost use Rattle.std.specs.Prelude.{◌≡◌, ◌≤◌, [], true, length, map};
ghost use Rattle.std.specs.Prelude.{Option, Some, None, IsTrue, IfOk, OnOk, OnErr, IfSome};
ghost use Rattle.std.specs.Char.{is_ascii_lowercase};
ghost use Rattle.std.specs.List.{list_all};
ghost use Rattle.std.specs.List.Sorted.{IsNonDecreasingBy};
ghost use Rattle.std.specs.Option.{option_map};
ghost use Rattle.std.specs.Str.{IsAscii};
ghost use Rattle.hyphenation_breaks.specs.Break.{plain_break};
ghost use Rattle.hyphenation_segments.specs.Fits.{Fits};
ghost use Rattle.hyphenation_hyphenator.specs.Folding.{shifts_of};
ghost use Rattle.hyphenation_hyphenator.specs.Fitting.{kept_breaks, fitted_breaks_of, KeepRanges};
ghost use Rattle.hyphenation_hyphenator.specs.Private.Fitting.{range_holds_no_shift, kept_by_shifts};
ghost use Rattle.hyphenation_hyphenator.specs.Private.Fitting.{kept_opportunities, realigned_breaks};
ghost use Rattle.hyphenation_hyphenator.specs.Private.CommonLowercase.{are_common_lowercase};
ghost use Rattle.hyphenation_hyphenator.specs.Opportunities.{rules_of, within, breaks_within, by_patterns};
ghost use Rattle.hyphenation_hyphenator.specs.Opportunities.{by_exception, exception_within_boundaries, opportunities_in};
ghost use Rattle.hyphenation_hyphenator.specs.Opportunities.{opportunities, HasBreaks, HasBreaksIfAny, Ascending};
ghost use Rattle.hyphenation_hyphenator.specs.Private.Opportunities.{realigned_break};

use super::ascii_lowercase::are_ascii_lowercase;
use super::boundaries::{boundaries_of, boundaries_where};
use super::break_kind::BreakKind;
use super::found_break::FoundBreak;
use super::pattern_breaks::{is_within, push_with_room};
use crate::case_folding::{Shift, are_common_lowercase, fold_in_place, realign_sorted, refold};
use crate::soft_hyphens::soft_hyphen_indices;
use hyphenation_breaks::breaks::Break;
use hyphenation_breaks::entry::{Entry, Payload};
use hyphenation_dictionary::dictionary::Dictionary;
use hyphenation_dictionary::search::patterns_of;
use hyphenation_score::laws::{value_is_borne, winner_is_first};
use std::alloc::{AllocError, Global};
use std::str;

// Puts the listed breaks that are within bounds into an empty list. It is kept out of line, since few words are listed.
#[inline(never)]
fn listed_within<'h, F: BreakKind<'h>>(
    listed: &'h [F::Listing],
    bounds: (usize, usize),
    list: &mut Vec<F>,
) -> Result<(), AllocError>
    requires { list.old.items ≡ [] }
    ensures { OnOk result (map F.meaning list.new.items ≡ breaks_within (map F.Listing.meaning listed.now) bounds) }
{
    for b in listed {
        if is_within(bounds, b.place()) {
            push_with_room(list, F::from_listed(b))?;
        }
    }
    Ok(())
}

// Puts the breaks that patterns allow from the first bound to the second into an empty list.
#[inline(always)]
fn patterned_within<'h, F: BreakKind<'h>>(
    dictionary: &'h Dictionary<F::Payload, F::Listing>,
    word: &str,
    bounds: (usize, usize),
    list: &mut Vec<F>,
) -> Result<(), AllocError>
    requires { list.old.items ≡ [] }
    ensures breaks { OnOk result (map F.meaning list.new.items
        ≡ by_patterns (rules_of F.Payload.change_of F.Listing.meaning dictionary.now) word.now bounds) }
    ensures ascend { OnOk result (Ascending word.now (map F.meaning list.new.items)) }
{
    dictionary.invariant();
    value_is_borne::<F::Payload>();
    let (patterns, table) = patterns_of(dictionary);
    F::pattern_breaks(patterns, table, word, bounds, list)
}

// Finds the breaks that patterns allow from the first bound to the second.
pub(crate) fn opportunities_within<'h, F: BreakKind<'h>>(
    alloc: Global,
    dictionary: &'h Dictionary<F::Payload, F::Listing>,
    word: &str,
    bounds: (usize, usize),
) -> Result<Vec<F>, AllocError>
    ensures breaks { HasBreaks F.meaning result
        (by_patterns (rules_of F.Payload.change_of F.Listing.meaning dictionary.now) word.now bounds) }
    ensures ascend { IfOk result (λ v. Ascending word.now (map F.meaning v.items)) }
{
    let mut list = Vec::new(alloc);
    patterned_within(dictionary, word, bounds, &mut list)?;
    Ok(list)
}

// Returns the breaks listed for a word from the first bound to the second.
#[inline(always)]
pub(crate) fn exception_within<'h, F: BreakKind<'h>>(
    alloc: Global,
    dictionary: &'h Dictionary<F::Payload, F::Listing>,
    word: &str,
    bounds: (usize, usize),
) -> Result<Option<Vec<F>>, AllocError>
    ensures breaks { HasBreaksIfAny F.meaning result
        (by_exception (rules_of F.Payload.change_of F.Listing.meaning dictionary.now) word.now bounds) }
    ensures ascend { IfOk result (λ found. IfSome found (λ v. Ascending word.now (map F.meaning v.items))) }
{
    dictionary.invariant();
    match dictionary.listed(word) {
        Some(listed) => {
            let mut list = Vec::new(alloc);
            listed_within(listed, bounds, &mut list)?;
            Ok(Some(list))
        }
        None => Ok(None),
    }
}

// Returns the breaks listed for a word, within its boundaries.
pub(crate) fn exception<'h, F: BreakKind<'h>>(
    alloc: Global,
    dictionary: &'h Dictionary<F::Payload, F::Listing>,
    word: &str,
) -> Result<Option<Vec<F>>, AllocError>
    ensures breaks { HasBreaksIfAny F.meaning result
        (exception_within_boundaries (rules_of F.Payload.change_of F.Listing.meaning dictionary.now) word.now) }
    ensures ascend { IfOk result (λ found. IfSome found (λ v. Ascending word.now (map F.meaning v.items))) }
{
    match boundaries_of(dictionary.minima(), word) {
        Some(bounds) => exception_within(alloc, dictionary, word, bounds),
        None => Ok(None),
    }
}

// Puts the breaks from the first bound to the second into an empty list. They are the listed ones of an exception, and
// else those that patterns allow.
#[inline(always)]
fn opportunities_in<'h, F: BreakKind<'h>>(
    dictionary: &'h Dictionary<F::Payload, F::Listing>,
    word: &str,
    bounds: (usize, usize),
    list: &mut Vec<F>,
) -> Result<(), AllocError>
    requires { list.old.items ≡ [] }
    ensures breaks { OnOk result (map F.meaning list.new.items
        ≡ opportunities_in (rules_of F.Payload.change_of F.Listing.meaning dictionary.now) word.now bounds) }
    ensures ascend { OnOk result (Ascending word.now (map F.meaning list.new.items)) }
{
    dictionary.invariant();
    match dictionary.listed(word) {
        Some(listed) => listed_within(listed, bounds, list),
        None => patterned_within(dictionary, word, bounds, list),
    }
}

// Puts the breaks of a lowercase word, within its boundaries, into an empty list. The word may be known to be ASCII.
#[inline(always)]
#[tactic(auto, unfolding(crate::specs::Opportunities::opportunities))]
fn put_opportunities<'h, F: BreakKind<'h>>(
    dictionary: &'h Dictionary<F::Payload, F::Listing>,
    word: &str,
    is_ascii: bool,
    list: &mut Vec<F>,
) -> Result<(), AllocError>
    requires ascii { IsTrue is_ascii → IsAscii word.now }
    requires empty { list.old.items ≡ [] }
    ensures breaks { OnOk result (map F.meaning list.new.items
        ≡ opportunities (rules_of F.Payload.change_of F.Listing.meaning dictionary.now) word.now) }
    ensures ascend { OnOk result (Ascending word.now (map F.meaning list.new.items)) }
{
    let Some(bounds) = boundaries_where(is_ascii, dictionary.minima(), word) else {
        return Ok(());
    };
    opportunities_in(dictionary, word, bounds, list)
}

// Finds the breaks of a lowercase word, within its boundaries.
pub(crate) fn opportunities<'h, F: BreakKind<'h>>(
    alloc: Global,
    dictionary: &'h Dictionary<F::Payload, F::Listing>,
    word: &str,
) -> Result<Vec<F>, AllocError>
    ensures breaks { HasBreaks F.meaning result
        (opportunities (rules_of F.Payload.change_of F.Listing.meaning dictionary.now) word.now) }
    ensures ascend { IfOk result (λ v. Ascending word.now (map F.meaning v.items)) }
{
    let mut list = Vec::new(alloc);
    put_opportunities(dictionary, word, false, &mut list)?;
    Ok(list)
}

// Carries each break of a folded word back to the word as written. The shifts are sorted by their indices.
pub(crate) fn realign_all<'h, F: BreakKind<'h>>(breaks: &mut [F], shifts: &[Shift])
    requires shifts_sorted { IsNonDecreasingBy (λ shift. shift.index) shifts.now }
    ensures { map F.meaning breaks.new ≡ map (realigned_break shifts.now) (map F.meaning breaks.old) }
{
    for b in breaks {
        *b = b.at_place(realign_sorted(b.place(), shifts));
    }
}

// Puts the breaks of a folded word, carried back, into an empty list. The shifts of the folding are sorted by their
// indices.
fn breaks_of_folded<'h, F: BreakKind<'h>>(
    dictionary: &'h Dictionary<F::Payload, F::Listing>,
    folded: &str,
    shifts: &[Shift],
    list: &mut Vec<F>,
) -> Result<(), AllocError>
    requires shifts_sorted { IsNonDecreasingBy (λ shift. shift.index) shifts.now }
    requires empty { list.old.items ≡ [] }
    ensures { OnOk result (map F.meaning list.new.items ≡ realigned_breaks
        (rules_of F.Payload.change_of F.Listing.meaning dictionary.now) folded.now shifts.now) }
{
    put_opportunities(dictionary, folded, false, list)?;
    F::keep_fitting(folded, shifts, list)?;
    realign_all(list, shifts);
    Ok(())
}

// Puts plain breaks at the places into an empty list.
fn put_plain<F: FoundBreak>(places: &[usize], list: &mut Vec<F>) -> Result<(), AllocError>
    requires { list.old.items ≡ [] }
    ensures { OnOk result (map F.meaning list.new.items ≡ map plain_break places.now) }
{
    for place in places {
        push_with_room(list, F::plain(*place))?;
    }
    Ok(())
}

// Does nothing. Its contract is a law: the shifts of a word's folding are sorted by their indices.
#[inline(always)]
fn shifts_are_in_order(word: &str, shifts: &[Shift])
    requires { shifts.now ≡ shifts_of word.now }
    ensures { IsNonDecreasingBy (λ shift. shift.index) shifts.now }
{}

// Puts the breaks of any word into an empty list.
#[inline(never)]
fn breaks_of_any<'h, F: BreakKind<'h>>(
    dictionary: &'h Dictionary<F::Payload, F::Listing>,
    word: &str,
    list: &mut Vec<F>,
) -> Result<(), AllocError>
    requires { list.old.items ≡ [] }
    ensures { OnOk result (map F.meaning list.new.items
        ≡ fitted_breaks_of (rules_of F.Payload.change_of F.Listing.meaning dictionary.now) word.now) }
{
    dictionary.invariant();
    value_is_borne::<F::Payload>();
    let alloc = *list.allocator();
    if let Some(places) = soft_hyphen_indices(alloc, word)? {
        return put_plain(&places, list);
    }
    let (folded, shifts) = refold(alloc, word)?;
    let text = folded.as_str();
    let shifts: &[Shift] = &shifts;
    shifts_are_in_order(word, shifts);
    breaks_of_folded(dictionary, text, shifts, list)
}

// Puts the breaks of a word of at most 64 bytes into an empty list. Most such words are folded on the stack, without
// shifts. It is kept out of line, so that the scoring loop has all registers.
#[inline(never)]
fn breaks_of_short<'h, F: BreakKind<'h>>(
    dictionary: &'h Dictionary<F::Payload, F::Listing>,
    word: &str,
    list: &mut Vec<F>,
) -> Result<(), AllocError>
    requires short { length word.now ≤ 64 }
    requires empty { list.old.items ≡ [] }
    ensures { OnOk result (map F.meaning list.new.items
        ≡ fitted_breaks_of (rules_of F.Payload.change_of F.Listing.meaning dictionary.now) word.now) }
{
    let mut buffer = [0u8; 64];
    let Some(is_ascii) = fold_in_place(word, &mut buffer) else {
        return breaks_of_any(dictionary, word, list);
    };
    let folded = unsafe { str::from_utf8_unchecked(&buffer[..word.len()]) };
    put_opportunities(dictionary, folded, is_ascii, list)?;
    F::keep_fitting(folded, &[], list)
}

// Puts the breaks of a word of the letters a to z, which folds to itself, into an empty list.
#[inline(never)]
fn breaks_of_ascii_lowercase<'h, F: BreakKind<'h>>(
    dictionary: &'h Dictionary<F::Payload, F::Listing>,
    word: &str,
    list: &mut Vec<F>,
) -> Result<(), AllocError>
    requires letters { list_all is_ascii_lowercase word.now ≡ true }
    requires empty { list.old.items ≡ [] }
    ensures { OnOk result (map F.meaning list.new.items
        ≡ fitted_breaks_of (rules_of F.Payload.change_of F.Listing.meaning dictionary.now) word.now) }
{
    put_opportunities(dictionary, word, true, list)?;
    F::keep_fitting(word, &[], list)
}

// Puts the breaks of a word of common lowercase letters, which folds to itself, into an empty list.
fn breaks_of_common_lowercase<'h, F: BreakKind<'h>>(
    dictionary: &'h Dictionary<F::Payload, F::Listing>,
    word: &str,
    list: &mut Vec<F>,
) -> Result<(), AllocError>
    requires letters { are_common_lowercase word.now ≡ true }
    requires empty { list.old.items ≡ [] }
    ensures { OnOk result (map F.meaning list.new.items
        ≡ fitted_breaks_of (rules_of F.Payload.change_of F.Listing.meaning dictionary.now) word.now) }
{
    put_opportunities(dictionary, word, false, list)?;
    F::keep_fitting(word, &[], list)
}

// Whether a word is one byte of ASCII, which the minima leave whole. Half of the pieces of a text are: spaces, commas
// and other marks.
#[inline(always)]
fn is_whole_byte<'h, F: BreakKind<'h>>(
    dictionary: &'h Dictionary<F::Payload, F::Listing>,
    word: &str,
) -> bool
    ensures { IsTrue result
        → fitted_breaks_of (rules_of F.Payload.change_of F.Listing.meaning dictionary.now) word.now ≡ [] }
{
    let bytes = word.as_bytes();
    if bytes.len() != 1 || bytes[0] >= 0x80 || dictionary.minima().0 == 0 {
        return false;
    }
    true
}

// Puts the breaks of a word as written into an empty list. Most words have common lowercase
// letters alone, or are short.
#[inline(always)]
fn breaks_by_path<'h, F: BreakKind<'h>>(
    dictionary: &'h Dictionary<F::Payload, F::Listing>,
    word: &str,
    list: &mut Vec<F>,
) -> Result<(), AllocError>
    requires { list.old.items ≡ [] }
    ensures { OnOk result (map F.meaning list.new.items
        ≡ fitted_breaks_of (rules_of F.Payload.change_of F.Listing.meaning dictionary.now) word.now) }
{
    if is_whole_byte::<F>(dictionary, word) {
        return Ok(());
    }
    let bytes = word.as_bytes();
    if !bytes.is_empty() && bytes[0] < 0x80 && are_ascii_lowercase(bytes) {
        breaks_of_ascii_lowercase(dictionary, word, list)
    } else if are_common_lowercase(word) {
        breaks_of_common_lowercase(dictionary, word, list)
    } else if word.len() <= 64 {
        breaks_of_short(dictionary, word, list)
    } else {
        breaks_of_any(dictionary, word, list)
    }
}

// Finds the breaks of a word as written.
#[inline(always)]
pub(crate) fn breaks<'h, F: BreakKind<'h>>(
    alloc: Global,
    dictionary: &'h Dictionary<F::Payload, F::Listing>,
    word: &str,
) -> Result<Vec<F>, AllocError>
    ensures breaks { HasBreaks F.meaning result
        (fitted_breaks_of (rules_of F.Payload.change_of F.Listing.meaning dictionary.now) word.now) }
    ensures fits { IfOk result (λ v. Fits word.now (map F.meaning v.items)) }
    ensures ranges { OnOk result (KeepRanges (rules_of F.Payload.change_of F.Listing.meaning dictionary.now) word.now) }
{
    dictionary.invariant();
    value_is_borne::<F::Payload>();
    winner_is_first::<F::Payload>();
    let mut list = Vec::new(alloc);
    breaks_by_path(dictionary, word, &mut list)?;
    Ok(list)
}

// Puts the breaks of a word as written into a list, in place of what it held.
#[inline(always)]
pub(crate) fn breaks_into<'h, F: BreakKind<'h>>(
    dictionary: &'h Dictionary<F::Payload, F::Listing>,
    word: &str,
    list: &mut Vec<F>,
) -> Result<(), AllocError>
    ensures breaks { OnOk result (map F.meaning list.new.items
        ≡ fitted_breaks_of (rules_of F.Payload.change_of F.Listing.meaning dictionary.now) word.now) }
    ensures fits { OnOk result (Fits word.now (map F.meaning list.new.items)) }
    ensures empty_on_error { OnErr result (list.new.items ≡ []) }
{
    dictionary.invariant();
    value_is_borne::<F::Payload>();
    winner_is_first::<F::Payload>();
    list.clear();
    match breaks_by_path(dictionary, word, list) {
        Ok(()) => Ok(()),
        Err(error) => {
            list.clear();
            Err(error)
        }
    }
}
