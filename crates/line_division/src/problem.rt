//! A paragraph that is to be divided, and what is known of its stretches.

ghost use Rattle.std.specs.Prelude.{◌≡◌, ◌+◌, ◌^◌, ◌<◌, ◌≤◌, ◌⊎◌, true, length};
ghost use Rattle.line_division.specs.Private.Best.{runs};
ghost use Rattle.line_division.specs.Private.Plain.{AreMost, IsPlain};
ghost use Rattle.line_division.specs.Private.Reaches.{IsMostClosing};

use crate::stretch::{Stretch, widened};

// A paragraph, and the columns of its lines.
#[derive(Clone, Copy)]
pub(crate) struct MeasuredParagraph<'s> {
    // Its stretches.
    pub(crate) stretches: &'s [Stretch],
    // The most columns of a line.
    pub(crate) columns: u16,
    // The columns that the last line should have at least.
    pub(crate) last_columns: u16,
    ghost count: { length stretches.now < 2 ^ 30 },
}

// A paragraph that is to be divided so that it costs the least.
//
// Its two small numbers are apart. The compiler would else read them at once, and keep both in memory.
#[derive(Clone, Copy)]
pub(crate) struct Problem<'s> {
    // The most columns of a line.
    pub(crate) columns: u16,
    // Its stretches.
    pub(crate) stretches: &'s [Stretch],
    // The columns that the last line should have at least.
    pub(crate) last_columns: u16,
    // The most columns of a closing.
    pub(crate) closing: u64,
    // The most lines in a row that should end in a hyphen.
    pub(crate) ladder: Option<u8>,
    // Whether it is known that there is no ladder, and that each single stretch fits.
    pub(crate) plain: bool,
    ghost count: { length stretches.now < 2 ^ 30 },
    ghost most: { IsMostClosing stretches.now closing },
    ghost fits: { plain ≡ true → IsPlain stretches.now columns ladder },
}

// A place of a paragraph at which a line begins, after a run of hyphens.
#[derive(Clone, Copy)]
pub(crate) struct Begin<'s> {
    pub(crate) problem: Problem<'s>,
    pub(crate) start: usize,
    pub(crate) run: usize,
    ghost before: { start < length problem.stretches.now },
    ghost known: { run < runs problem.ladder },
}

// The most columns that parts of stretches have.
#[derive(Clone, Copy)]
pub(crate) struct Widest {
    opening: u32,
    width: u32,
    pub(crate) closing: u32,
}

// Returns the greater of two numbers.
#[inline(always)]
fn greater(one: u32, other: u32) -> u32
    ensures first { one ≤ result }
    ensures second { other ≤ result }
    ensures either { (result ≡ one) ⊎ (result ≡ other) }
{
    if one < other { other } else { one }
}

// Returns the most columns that parts of stretches have. Each part is compared by itself, since the compiler then
// compares those of several stretches at once.
#[inline(always)]
pub(crate) fn widest_of(stretches: &[Stretch]) -> Widest
    ensures { AreMost stretches.now result }
{
    let mut most = Widest {
        opening: 0,
        width: 0,
        closing: 0,
    };
    for stretch in stretches {
        most = Widest {
            opening: greater(most.opening, stretch.opening),
            width: greater(most.width, stretch.width),
            closing: greater(most.closing, stretch.closing),
        };
    }
    most
}

// Reports whether it is seen that no single stretch is too wide for a line.
#[inline(always)]
pub(crate) fn each_fits(widest: Widest, columns: u16) -> bool
    ensures { result ≡ true → widest.opening + widest.width + widest.closing ≤ columns }
{
    let most = widened(widest.opening) + widened(widest.width) + widened(widest.closing);
    most <= u64::from(columns)
}
