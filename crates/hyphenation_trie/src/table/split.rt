//! How a cell of 32 bits holds a place and a number.

ghost use Rattle.std.specs.Prelude.{◌≡◌, ◌+◌, ◌*◌, ◌<◌, ◌≤◌, ◌^◌, ℕ, length, slice_index};
ghost use Rattle.hyphenation_trie.specs.Cells.{number_in, numbers_of, place_in, IsSplit};

/// How the cells of a table hold a place and a number: the place in the low bits, the number in those above.
///
/// Places are in units of four cells.
#[derive(Clone, Copy)]
pub struct Split {
    /// The number of low bits, which hold the place: 22 where all numbers are below 1,024, and else 20.
    pub place_bits: u32,
    /// The greatest place that these bits hold: a number whose lowest bits, as many, are 1 and the others 0.
    pub last_place: u32,
}

// Cells with 22 bits for a place and 10 for a number.
const MANY_PLACES: Split = Split {
    place_bits: 22,
    last_place: (1 << 22) - 1,
};

// Cells with 20 bits for a place and 12 for a number.
const MANY_NUMBERS: Split = Split {
    place_bits: 20,
    last_place: (1 << 20) - 1,
};

// Numbers from this on leave 20 bits for a place.
const FEW: u32 = 1024;

impl Split {
    /// Returns the place and the number that a cell holds.
    #[inline(always)]
    pub fn parts(self, cell: u32) -> (usize, usize)
        requires { IsSplit self }
        ensures place { result.0 ≡ place_in self cell }
        ensures number { result.1 ≡ number_in self cell }
    {
        (
            (cell & self.last_place) as usize,
            (cell >> self.place_bits) as usize,
        )
    }

    // Returns the cell that holds a place and a number.
    pub(super) fn cell(self, place: usize, number: u32) -> u32
        requires split { IsSplit self }
        requires place { place ≤ self.last_place }
        requires number { number < numbers_of self }
        ensures { result ≡ number * 2 ^ self.place_bits + place }
    {
        (number << self.place_bits) + place as u32
    }
}

// Returns how cells hold these numbers, so that as many bits as can be are left for a place.
pub(super) fn split_of(numbers: &[u32]) -> Split
    requires few { (j : ℕ) → j < length numbers.now → slice_index numbers.now j < 4096 }
    ensures split { IsSplit result }
    ensures few { (j : ℕ) → j < length numbers.now → slice_index numbers.now j < numbers_of result }
    ensures many_places { ((j : ℕ) → j < length numbers.now → slice_index numbers.now j < 1024) → result.place_bits ≡ 22 }
{
    for number in numbers {
        if *number >= FEW {
            return MANY_NUMBERS;
        }
    }
    MANY_PLACES
}
