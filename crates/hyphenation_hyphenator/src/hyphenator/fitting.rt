//! Keeping those breaks of a folded word that fit the word as written.

ghost use Rattle.std.specs.Prelude.{◌≡◌, ◌+◌, ◌-◌, ◌<◌, ◌&&◌, nat_le, false, if◌then◌else◌, length, map};
ghost use Rattle.std.specs.Prelude.{Option, Some, None, is_none, IfOk};
ghost use Rattle.std.specs.List.{list_all};
ghost use Rattle.std.specs.List.Sorted.{IsNonDecreasingBy};
ghost use Rattle.hyphenation_breaks.specs.Break.{begin_of, end_of};
ghost use Rattle.hyphenation_hyphenator.specs.Fitting.{kept_breaks};
ghost use Rattle.hyphenation_hyphenator.specs.Opportunities.{HasBreaks};
ghost use Rattle.hyphenation_hyphenator.specs.Private.Fitting.{holds_shift, range_holds_no_shift, fitting_end};

use crate::case_folding::Shift;
use hyphenation_breaks::breaks::Break;
use hyphenation_breaks::extended::Subregion;
use std::alloc::{AllocError, Global};

// Whether none of the breaks has a change.
pub(super) fn are_plain(breaks: &[(usize, Option<&Subregion>)]) -> bool
    ensures { result ≡ list_all (λ b. is_none b.1) breaks.now }
{
    breaks.iter().all(|b| b.1.is_none())
}

// Whether a character whose number of bytes the folding changed begins at `begin` or later, and before `end`. The
// shifts are sorted by their indices.
fn holds_shift(shifts: &[Shift], begin: usize, end: usize) -> bool
    requires { IsNonDecreasingBy (λ shift. shift.index) shifts.now }
    ensures { result ≡ holds_shift shifts.now begin end }
{
    let first = shifts.partition_point(|shift| shift.index < begin);
    match shifts.get(first) {
        Some(shift) => shift.index < end,
        None => false,
    }
}

// Returns where the range of a break ends, if the break is kept after ranges up to the last end. The folded word has
// `length` bytes.
#[tactic(auto, unfolding(crate::specs::Private::Fitting::range_holds_no_shift))]
fn fitting_end<B: Break>(length: usize, shifts: &[Shift], last_end: usize, b: &B) -> Option<usize>
    requires { IsNonDecreasingBy (λ shift. shift.index) shifts.now }
    ensures { result ≡ fitting_end length shifts.now last_end (B.meaning b.now) }
{
    let (begin, end) = b.range()?;
    if end <= length && !holds_shift(shifts, begin, end) && last_end <= begin {
        Some(end)
    } else {
        None
    }
}

// Keeps those breaks of a folded word of that many bytes that fit the word as written.
pub(crate) fn keep_fitting<B: Break + Copy>(
    alloc: Global,
    length: usize,
    shifts: &[Shift],
    breaks: &[B],
) -> Result<Vec<B>, AllocError>
    requires { IsNonDecreasingBy (λ shift. shift.index) shifts.now }
    ensures { HasBreaks B.meaning result
        (kept_breaks (range_holds_no_shift length shifts.now) (map B.meaning breaks.now)) }
{
    let mut kept = Vec::new(alloc);
    let mut last_end = 0;
    for b in breaks {
        if let Some(end) = fitting_end(length, shifts, last_end, b) {
            kept.push(*b)?;
            last_end = end;
        }
    }
    Ok(kept)
}
