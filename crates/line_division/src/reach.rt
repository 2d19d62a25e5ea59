//! How far lines reach.

ghost use Rattle.std.specs.Prelude.{◌≡◌, ℕ, ◌+◌, ◌-◌, ◌^◌, ◌<◌, ◌≤◌, true, MatchBool, length};
ghost use Rattle.line_division.specs.Lines.{line_width, joined_width};
ghost use Rattle.line_division.specs.Greedy.{IsFurthest};
ghost use Rattle.line_division.specs.Private.Reaches.{IsReach, columns_before};

use crate::problem::Problem;
use crate::stretch::{Stretch, widened};

// How far the lines that begin at a place reach.
#[derive(Clone, Copy)]
pub(crate) struct Reach {
    // A stretch after which no line from there ends that fits.
    pub(crate) last: usize,
    // The columns of the stretches before it, with their joints.
    pub(crate) joined: u64,
}

// Returns the columns of a stretch that is not the last one of its line.
#[inline(always)]
fn joined_width(stretch: &Stretch) -> u64
    ensures value { result ≡ joined_width stretch.now }
    ensures small { result < 2 ^ 33 }
{
    widened(stretch.width) + widened(stretch.joint)
}

// Returns the columns of a stretch that is the last one of its line, without those before it.
#[inline(always)]
fn own_width(stretch: &Stretch) -> u64
    ensures value { result ≡ (stretch.now).width + (stretch.now).closing }
    ensures small { result < 2 ^ 33 }
{
    widened(stretch.width) + widened(stretch.closing)
}

// Reports whether a line from a start to a stretch that ends it holds more than one. Where each single stretch fits,
// this is known of a line that does not fit.
#[inline(always)]
fn holds_more(plain: bool, start: usize, last: usize) -> bool
    requires order { start ≤ last }
    requires plain { plain ≡ true → start < last }
    ensures { MatchBool result (start < last) (start ≡ last) }
{
    plain || start < last
}

// Returns how far the lines that begin at a place reach, where it is known for those that begin a stretch later.
#[inline(always)]
fn reach_from(problem: Problem, start: usize, later: Reach) -> Reach
    requires { IsReach problem.stretches.now problem.columns (start + 1) later }
    ensures reach { IsReach problem.entry.stretches.now problem.entry.columns start result }
    ensures earlier { result.last ≤ later.last }
{
    let Problem {
        stretches,
        columns,
        plain,
        ..
    } = problem;
    let mut last = later.last;
    let mut joined = later.joined + joined_width(&stretches[start]);
    while u64::from(columns) < joined + widened(stretches[last].width)
        && holds_more(plain, start, last)
    {
        last -= 1;
        joined -= joined_width(&stretches[last]);
    }
    Reach { last, joined }
}

// Returns how far the lines reach that begin a stretch before a place, if there is one.
#[inline(always)]
pub(crate) fn reach_before(problem: Problem, start: usize, later: Reach) -> Reach
    requires { IsReach problem.stretches.now problem.columns start later }
    ensures reach { 0 < start → IsReach problem.entry.stretches.now problem.entry.columns (start - 1) result }
    ensures earlier { result.last ≤ later.last }
{
    if start == 0 {
        return later;
    }
    reach_from(problem, start - 1, later)
}

// Returns how far the line that begins at the last stretch reaches, if there is one.
#[inline(always)]
pub(crate) fn last_reach(stretches: &[Stretch]) -> Reach
    ensures { (columns : ℕ) → 0 < length stretches.now
        → IsReach stretches.now columns (length stretches.now - 1) result }
{
    Reach {
        last: stretches.len().saturating_sub(1),
        joined: 0,
    }
}

// The longest line that begins at a place and fits, or else the one of a single stretch.
#[derive(Clone, Copy)]
pub(crate) struct Longest {
    // Its last stretch.
    pub(crate) last: usize,
    // The columns before its last stretch.
    pub(crate) joined: u64,
    // All its columns.
    pub(crate) wide: u64,
}

// Returns the longest line that begins at a place and fits, or else the one of a single stretch.
#[inline(always)]
pub(crate) fn longest_line(problem: Problem, start: usize, reach: Reach) -> Longest
    requires { IsReach problem.stretches.now problem.columns start reach }
    ensures furthest { IsFurthest problem.entry.stretches.now problem.entry.columns start (result.last + 1) }
    ensures joined { result.joined ≡ columns_before problem.entry.stretches.now start result.last }
    ensures wide { result.wide ≡ line_width problem.entry.stretches.now start (result.last + 1) }
    ensures small { result.joined < 2 ^ 33 }
    ensures narrow { result.wide < 2 ^ 34 }
    ensures upto { result.last ≤ reach.last }
{
    let Problem {
        stretches,
        columns,
        plain,
        ..
    } = problem;
    let mut last = reach.last;
    let mut joined = widened(stretches[start].opening) + reach.joined;
    let mut wide = joined + own_width(&stretches[last]);
    while u64::from(columns) < wide && holds_more(plain, start, last) {
        last -= 1;
        joined -= joined_width(&stretches[last]);
        wide = joined + own_width(&stretches[last]);
    }
    Longest { last, joined, wide }
}
