//! The cells of a frame's places, which keep what the patterns that count say of them, for the changes of a word.

ghost use Rattle.std.specs.Prelude.{◌≡◌, ℕ, pos, ◌+◌, ◌-◌, ◌<◌, ◌≤◌, ◌^◌, ◌&&◌, ◌==◌, ◌+ℤ◌, ◌<ℤ◌, [], IfOk, MatchOption};
ghost use Rattle.std.specs.Prelude.{int_le, length, nat_le};
ghost use Rattle.libhyphen_rule.specs.OneLevel.{if_change};
ghost use Rattle.libhyphen_rule.specs.Private.Cells.{HasCells, AreCells, IsBegin, TakesOffer, TakesOffers, TakesPattern};
ghost use Rattle.libhyphen_rule.specs.Private.Cells.{is_at, lies_in, with_change, with_cut, with_digit, with_region};
ghost use Rattle.libhyphen_rule.specs.Private.Pass.{value_of};

use libhyphen_files::pattern::{StoredChange, StoredPattern};
use std::alloc::{AllocError, Global};

// A place of a frame.
#[derive(Clone, Copy, Drop)]
pub(crate) struct Cell<'d> {
    // The greatest digit that is given to the place.
    pub(crate) digit: u8,
    // The change of the pattern that decides, if it has one.
    pub(crate) change: Option<&'d StoredChange>,
    // The place of the region that begins here.
    pub(crate) place: Option<usize>,
    // The cut of the region that begins here.
    pub(crate) cut: i8,
}

// Returns cells of that many places, to which nothing is given. The only error is out of memory.
pub(crate) fn empty_cells<'d>(alloc: Global, places: usize) -> Result<Vec<Cell<'d>>, AllocError>
    ensures size { IfOk result (λ cells. length cells.items ≡ places) }
    ensures cells { IfOk result (λ cells. HasCells [] [] cells.items) }
{
    let mut cells = Vec::with_capacity(alloc, places)?;
    for _place in 0..places {
        cells.push(Cell {
            digit: b'0',
            change: None,
            place: None,
            cut: 0,
        })?;
    }
    Ok(cells)
}

// Returns where the region of a change begins, if not before the frame.
#[inline(always)]
fn begin_of(first: usize, change: &StoredChange) -> Option<usize>
    requires { first < 2 ^ 63 - 200 }
    ensures { MatchOption result ((pos first +ℤ change.now.start) <ℤ pos 0)
        (λ at. pos at ≡ pos first +ℤ change.now.start) }
{
    let begin = first as isize + isize::from(change.start);
    if begin < 0 {
        None
    } else {
        Some(begin as usize)
    }
}

// Returns where the region of a pattern begins, if it has one and it begins not before the frame.
#[inline(always)]
fn region_begin(first: usize, change: Option<&StoredChange>) -> Option<usize>
    requires { first < 2 ^ 63 - 200 }
    ensures { IsBegin first (value_of change.entry) result }
{
    match change {
        Some(change) => begin_of(first, change),
        None => None,
    }
}

// Reports whether a place lies within a region or at one of its ends.
#[inline(always)]
fn reaches(begin: usize, place: usize, cut: i8) -> bool
    requires begin { begin < 2 ^ 63 - 200 }
    requires place { place < 2 ^ 63 - 200 }
    ensures { result ≡ (nat_le begin place && int_le (pos place) (pos begin +ℤ cut)) }
{
    begin <= place && place as isize <= begin as isize + isize::from(cut)
}

// Notes that a place decides of a region, if it lies there.
#[inline(always)]
fn note_region<'d>(
    cells: &mut [Cell<'d>],
    place: usize,
    change: Option<&'d StoredChange>,
    begin: Option<usize>,
)
    requires { (place < length cells.old) × (length cells.old < 2 ^ 63 - 200) }
    ensures { AreCells cells.old cells.new (λ at. with_region place (lies_in place (value_of change.entry) begin at)) }
{
    if let Some(change) = change {
        if let Some(begin) = begin {
            if begin < cells.len() && reaches(begin, place, change.cut) {
                cells[begin].place = Some(place);
            }
        }
    }
}

// Raises the digit of a place.
#[inline(always)]
fn raise<'d>(cells: &mut [Cell<'d>], place: usize, digit: u8)
    requires { place < length cells.old }
    ensures { AreCells cells.old cells.new (λ at. with_digit digit (at == place)) }
{
    cells[place].digit = digit;
}

// Notes the change of the pattern that decides of a place.
#[inline(always)]
fn note_change<'d>(cells: &mut [Cell<'d>], place: usize, change: Option<&'d StoredChange>)
    requires { place < length cells.old }
    ensures { AreCells cells.old cells.new (λ at. with_change change.entry (at == place)) }
{
    cells[place].change = change;
}

// Takes one digit of a pattern.
#[inline(always)]
fn take_offer<'d>(
    cells: &mut [Cell<'d>],
    place: usize,
    digit: u8,
    change: Option<&'d StoredChange>,
    begin: Option<usize>,
)
    requires place { place < length cells.old }
    requires room { length cells.old < 2 ^ 63 - 200 }
    ensures { TakesOffer place digit (value_of change.entry) begin cells.old cells.new }
{
    if cells[place].digit < digit {
        raise(cells, place, digit);
        if digit % 2 == 1 {
            note_change(cells, place, change);
            note_region(cells, place, change, begin);
        }
    }
}

// Takes the digits of a pattern.
#[inline(always)]
fn take_offers<'d>(
    cells: &mut [Cell<'d>],
    start: usize,
    digits: &[u8],
    change: Option<&'d StoredChange>,
    begin: Option<usize>,
)
    requires places { start + length digits.now ≤ length cells.old }
    requires room { length cells.old < 2 ^ 63 - 200 }
    ensures { TakesOffers start digits.now (value_of change.entry) begin cells.old cells.new }
{
    for (number, digit) in digits.iter().enumerate() {
        take_offer(cells, start + number, *digit, change, begin);
    }
}

// Notes the cut of a region.
#[inline(always)]
fn note_cut<'d>(cells: &mut [Cell<'d>], change: Option<&'d StoredChange>, begin: Option<usize>)
    ensures { AreCells cells.old cells.new
        (λ at. with_cut (value_of change.entry) (if_change (λ _. is_at begin at) (value_of change.entry))) }
{
    if let Some(change) = change {
        if let Some(begin) = begin {
            if begin < cells.len() {
                cells[begin].cut = change.cut;
            }
        }
    }
}

// Takes a pattern that counts. Its key begins at the place `start` of the frame; the start of its region is counted
// from the place `first`.
#[inline(always)]
pub(crate) fn take_pattern<'d>(
    cells: &mut [Cell<'d>],
    start: usize,
    first: usize,
    digits: &[u8],
    change: Option<&'d StoredChange>,
)
    requires places { start + length digits.now ≤ length cells.old }
    requires room { length cells.old < 2 ^ 63 - 200 }
    requires first { first ≤ length cells.old }
    ensures { TakesPattern start first digits.now (value_of change.entry) cells.old cells.new }
{
    let begin = region_begin(first, change);
    take_offers(cells, start, digits, change, begin);
    note_cut(cells, change, begin);
}
