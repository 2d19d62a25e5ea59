//! A law of lines that hold as much as fits. The call does nothing; its contract is the law.

ghost use Rattle.std.specs.Prelude.{ℕ, List};
ghost use Rattle.line_division.specs.declared.stretch.Stretch.{Stretch};
ghost use Rattle.line_division.specs.Division.{Divides, FitsIfAny, IsFewest};
ghost use Rattle.line_division.specs.Greedy.{AreFurthest, IsOrderly};

/// Where each line ends as late as it can, no division of an orderly paragraph into lines that fit has fewer lines.
///
/// Where some division fits, each line fits. It is a law of all rows of ends, and the call does nothing.
pub fn furthest_ends_are_fewest()
    ensures divide { (all : List Stretch) (columns : ℕ) (row : List ℕ)
        → AreFurthest all columns 0 row → Divides all columns 0 row }
    ensures fewest { (all : List Stretch) (columns : ℕ) (row : List ℕ)
        → AreFurthest all columns 0 row → IsOrderly all → IsFewest all columns row }
    ensures fit { (all : List Stretch) (columns : ℕ) (row : List ℕ)
        → AreFurthest all columns 0 row → IsOrderly all → FitsIfAny all columns row }
{}
