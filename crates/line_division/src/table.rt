//! The lines that are best to begin at each place, after each run of hyphens.
//!
//! Most often one line is the best after many runs. So it is kept once, with the longest run after which it is known to
//! be the best. At most places that is one line. The lines of a place are in the order of their runs: the first one by
//! itself, and all others in one list.
//!
//! There is a first line for each place, so it is kept in few bytes. In most paragraphs no line has faults. So faults are
//! kept apart from it, and only where lines may have some.

ghost use Rattle.std.specs.Prelude.{◌≡◌, ℕ, ◌+◌, ◌^◌, ◌<◌, ◌≤◌, Option, length, drop};
ghost use Rattle.line_division.specs.Private.Plain.{IsSpentAlone};
ghost use Rattle.line_division.specs.Private.Table.{kept_for, HasRun, begin_at, kept_at, choice_at, row_at, IsKept};
ghost use Rattle.line_division.specs.Private.Table.{faults_at, first_at};

use crate::cost::Cost;
use std::mem::size_of;

// The line that is best to begin at a place.
#[derive(Clone, Copy)]
pub(crate) struct Choice {
    // The cost of it and of the best lines after it.
    pub(crate) cost: Cost,
    // Where it ends.
    pub(crate) end: usize,
}

// A line that is best to begin at a place after some runs of hyphens.
#[derive(Clone, Copy)]
pub(crate) struct Kept {
    // The cost of it and of the best lines after it.
    pub(crate) cost: Cost,
    // Where it ends.
    pub(crate) end: u32,
    // The longest of these runs.
    pub(crate) last_run: u8,
}

// The line that is best to begin at a place after no hyphens, without its faults.
#[derive(Clone, Copy)]
pub(crate) struct First {
    // The squares and prices of it and of the best lines after it.
    pub(crate) spent: u64,
    // Where it ends.
    pub(crate) end: u32,
    // The longest run of hyphens after which it is known to be the best.
    pub(crate) last_run: u8,
}

// There is one for each place of a paragraph at once.
const _: () = prove!(size_of::<First>() == 16);

// The part of a cost that counts before what is spent.
#[derive(Clone, Copy)]
pub(crate) struct Faults {
    // The columns by which lines are too wide.
    pub(crate) excess: u64,
    // The lines over the ladder.
    pub(crate) over: u64,
}

impl Faults {
    // No faults.
    pub(crate) const NONE: Faults = Faults { excess: 0, over: 0 };
}

// The lines that are best to begin at each place.
#[derive(Drop)]
pub(crate) struct Choices {
    // For each place the line after no hyphens.
    pub(crate) firsts: Vec<First>,
    // For each place the faults of that line and of the best ones after it. It is empty where no line has any.
    pub(crate) faults: Vec<Faults>,
    // The lines after longer runs.
    pub(crate) others: Vec<Kept>,
    // For each place where its lines begin among the others. It is empty without a ladder.
    pub(crate) begins: Vec<usize>,
}

// Returns the first line from one on that is for a run or a longer one.
#[inline(always)]
fn kept_from(others: &[Kept], begin: usize, run: usize) -> Kept
    requires { HasRun (drop begin others.now) run }
    ensures { result ≡ kept_for (drop begin others.now) run }
{
    let mut at = begin;
    while usize::from(others[at].last_run) < run {
        at += 1;
    }
    others[at]
}

// Returns the faults of the line that is kept for a place after no hyphens, and of the best ones after it.
#[inline(always)]
fn faults_at(choices: &Choices, place: usize) -> Faults
    ensures { result ≡ faults_at choices.now place }
{
    if place < choices.faults.len() {
        choices.faults[place]
    } else {
        Faults::NONE
    }
}

// Returns the line that is kept for a place after no hyphens.
#[inline(always)]
fn first_at(choices: &Choices, place: usize) -> Kept
    requires { place < length choices.now.firsts.items }
    ensures { result ≡ first_at choices.now place }
{
    let first = choices.firsts[place];
    let faults = faults_at(choices, place);
    Kept {
        cost: Cost {
            excess: faults.excess,
            over: faults.over,
            spent: first.spent,
        },
        end: first.end,
        last_run: first.last_run,
    }
}

// Keeps the line that is best to begin at a place after no hyphens.
#[inline(always)]
pub(crate) fn keep_first(choices: &mut Choices, place: usize, kept: Kept)
    requires place { place < length choices.old.firsts.items }
    requires faults { length choices.old.faults.items ≤ place → IsSpentAlone kept.cost }
    ensures here { first_at choices.new place ≡ kept }
    ensures elsewhere { (e : ℕ) → place < e → first_at choices.new e ≡ first_at choices.old e }
    ensures firsts { length choices.new.firsts.items ≡ length choices.old.firsts.items }
    ensures faults { length choices.new.faults.items ≡ length choices.old.faults.items }
    ensures others { choices.new.others ≡ choices.old.others }
    ensures begins { choices.new.begins ≡ choices.old.begins }
{
    choices.firsts[place] = First {
        spent: kept.cost.spent,
        end: kept.end,
        last_run: kept.last_run,
    };
    if place < choices.faults.len() {
        choices.faults[place] = Faults {
            excess: kept.cost.excess,
            over: kept.cost.over,
        };
    }
}

// Returns the line that is kept for a place after a run.
#[inline(always)]
pub(crate) fn kept_at(choices: &Choices, run: usize, place: usize) -> Kept
    requires { IsKept choices.now run place }
    ensures { result ≡ kept_at choices.now run place }
{
    let first = first_at(choices, place);
    if run <= usize::from(first.last_run) {
        return first;
    }
    kept_from(&choices.others, choices.begins[place], run)
}

// Returns the line that is best to begin at a place after a run.
#[inline(always)]
pub(crate) fn choice_at(choices: &Choices, run: usize, place: usize) -> Choice
    requires { IsKept choices.now run place }
    ensures { result ≡ choice_at choices.now run place }
{
    let kept = kept_at(choices, run, place);
    Choice {
        cost: kept.cost,
        end: kept.end as usize,
    }
}

// Begins the lines of a place after longer runs, where there are any.
#[inline(always)]
pub(crate) fn begin_others(choices: &mut Choices, runs: usize, place: usize)
    requires { 1 < runs → place < length choices.old.begins.items }
    ensures firsts { choices.new.firsts ≡ choices.old.firsts }
    ensures faults { choices.new.faults ≡ choices.old.faults }
    ensures others { choices.new.others.items ≡ choices.old.others.items }
    ensures many { length choices.new.begins.items ≡ length choices.old.begins.items }
    ensures here { 1 < runs → begin_at choices.new place ≡ length choices.old.others.items }
    ensures later { (e : ℕ) → place < e → begin_at choices.new e ≡ begin_at choices.old e }
{
    if 1 < runs {
        choices.begins[place] = choices.others.len();
    }
}
