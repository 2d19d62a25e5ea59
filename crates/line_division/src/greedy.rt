//! The division that fills each line.
//!
//! Each line ends as late as it can while it fits. Where no line from its start fits, it holds one stretch.

ghost use Rattle.std.specs.Prelude.{◌≡◌, ℕ, ◌+◌, ◌^◌, ◌<◌, ◌≤◌, List, IfOk, length};
ghost use Rattle.line_division.specs.Lines.{line_width};
ghost use Rattle.line_division.specs.Division.{Divides, FitsIfAny, IsFewest};
ghost use Rattle.line_division.specs.Greedy.{IsFurthest, AreFurthest, IsOrderly};

use crate::stretch::{Stretch, widened};
use std::alloc::{AllocError, Global};

// Returns the end of the line from a start that holds as much as fits.
fn furthest_end(stretches: &[Stretch], columns: u16, start: usize) -> usize
    requires { start < length stretches.now }
    ensures { IsFurthest stretches.now columns start result }
{
    let first = &stretches[start];
    let mut furthest = start + 1;
    let mut joined = widened(first.opening) + widened(first.width) + widened(first.joint);
    for last in start + 1..stretches.len() {
        let stretch = &stretches[last];
        let reached = joined + widened(stretch.width);
        if u64::from(columns) < reached {
            return furthest;
        }
        if reached + widened(stretch.closing) <= u64::from(columns) {
            furthest = last + 1;
        }
        joined = reached + widened(stretch.joint);
    }
    furthest
}

/// Returns the ends of the lines of a paragraph, each of which holds as much as fits.
///
/// An end is the number of stretches before it. Each line has at most `columns` columns, or holds one stretch. A
/// paragraph is orderly where no line is wider because it begins later; indents that differ at most on the first line
/// keep it so. Then no division into lines that fit has fewer lines, and where there is one, each line fits. The only
/// error is that memory was refused.
pub fn greedy_ends(
    alloc: Global,
    stretches: &[Stretch],
    columns: u16,
) -> Result<Vec<usize>, AllocError>
    ensures furthest { IfOk result (λ ends. AreFurthest stretches.now columns 0 ends.items) }
    ensures divides { IfOk result (λ ends. Divides stretches.now columns 0 ends.items) }
    ensures fewest { IfOk result (λ ends. IsOrderly stretches.now → IsFewest stretches.now columns ends.items) }
    ensures fits { IfOk result (λ ends. IsOrderly stretches.now → FitsIfAny stretches.now columns ends.items) }
{
    let mut ends = Vec::with_capacity(alloc, 8)?;
    let mut start = 0;
    while start < stretches.len() {
        start = furthest_end(stretches, columns, start);
        ends.push(start)?;
    }
    Ok(ends)
}
