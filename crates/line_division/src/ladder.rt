//! The hyphens in a row at the ends of lines.

ghost use Rattle.std.specs.Prelude.{◌≡◌, ◌^◌, ◌<◌, ◌≤◌, true, Some, length};
ghost use Rattle.line_division.specs.Lines.{hyphens_to};
ghost use Rattle.line_division.specs.Division.{KeepsLadder};
ghost use Rattle.line_division.specs.Private.Ladder.{AreEnds};

use crate::stretch::Stretch;

// Returns the hyphens in a row at a line's end, after a run of them.
#[inline(always)]
pub(crate) fn hyphens_to(stretches: &[Stretch], run: usize, end: usize) -> usize
    requires small { run < 2 ^ 8 }
    requires some { 1 ≤ end }
    requires within { end ≤ length stretches.now }
    ensures { result ≡ hyphens_to stretches.now run end }
{
    if stretches[end - 1].hyphenated {
        run + 1
    } else {
        0
    }
}

// Reports whether no more lines in a row end in a hyphen than a ladder may have.
pub(crate) fn keeps_ladder(stretches: &[Stretch], most: u8, ends: &[usize]) -> bool
    requires { AreEnds stretches.now ends.now }
    ensures { result ≡ true → KeepsLadder stretches.now (Some most) 0 ends.now }
{
    let mut hyphens = 0;
    for end in ends {
        hyphens = hyphens_to(stretches, hyphens, *end);
        if usize::from(most) < hyphens {
            return false;
        }
    }
    true
}
