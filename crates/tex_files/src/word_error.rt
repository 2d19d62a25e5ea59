//! The errors of reading one word of a group.

use pattern_results::errors::FileCause;
use std::alloc::AllocError;

/// The error of reading a word.
#[derive(Drop)]
pub enum WordError {
    /// Out of memory.
    Memory,
    /// The first test that the word fails.
    Fails(FileCause),
}

impl From<AllocError> for WordError {
    ghost use Rattle.std.specs.Prelude.{◌≡◌};
    ghost use Rattle.tex_files.specs.declared.word_error.WordError.TheVariants.{Memory};

    ghost from_gives = { λ _ e. e ≡ Memory };

    fn from(_error: AllocError) -> WordError {
        WordError::Memory
    }
}
