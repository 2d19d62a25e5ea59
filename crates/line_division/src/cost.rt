//! The cost of lines.

ghost use Rattle.std.specs.Prelude.{◌≡◌, ◌+◌, ◌<◌, ◌^◌, MatchBool};

/// The cost of lines. The excess counts first, then the lines over the ladder, then what is spent.
#[derive(Clone, Copy, Debug)]
pub struct Cost {
    /// The columns by which lines are too wide.
    pub excess: u64,
    /// The lines at whose ends more hyphens are in a row than the ladder has.
    pub over: u64,
    /// The squares of the columns that lines are short of, and the prices of their ends.
    pub spent: u64,
}

impl Cost {
    ghost use Rattle.line_division.specs.Cost.{together, CostsNoMore};

    // The cost of no lines.
    pub(crate) const NONE: Cost = Cost {
        excess: 0,
        over: 0,
        spent: 0,
    };

    // The cost of both together.
    #[inline(always)]
    pub(crate) fn plus(self, other: Cost) -> Cost
        requires excess { self.excess + other.excess < 2 ^ 64 }
        requires over { self.over + other.over < 2 ^ 64 }
        requires spent { self.spent + other.spent < 2 ^ 64 }
        ensures { result ≡ together self other }
    {
        Cost {
            excess: self.excess + other.excess,
            over: self.over + other.over,
            spent: self.spent + other.spent,
        }
    }

    // Reports whether it is less than another.
    #[inline(always)]
    pub(crate) fn is_less(self, other: Cost) -> bool
        ensures { MatchBool result (CostsNoMore self other) (CostsNoMore other self) }
    {
        if self.excess != other.excess {
            self.excess < other.excess
        } else if self.over != other.over {
            self.over < other.over
        } else {
            self.spent < other.spent
        }
    }
}
