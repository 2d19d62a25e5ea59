//! Counts of the look-ups and reports of a search.

ghost use Rattle.std.specs.Prelude.{◌≡◌, ◌+◌, ◌<◌, ◌^◌};

use std::marker::Model;

/// Counts of the look-ups that a search makes, and of the keys that it reports.
///
/// A look-up asks for the child of a node at a byte. It is counted whether that child is there or not.
///
/// ```text
/// let mut count = LookUps::new();
/// dictionary.score_counted(alloc, "firkin", &mut count)?;
/// count.made()    // at least 8, one for each byte of `.firkin.`
/// ```
#[derive(Debug, Drop)]
pub struct LookUps {
    made: u128,
    reported: u128,
}

impl Model for LookUps {
    ghost use Rattle.hyphenation_trie.specs.Counts.{Counts};

    ghost Value = { Counts };

    ghost view = { λ counts. record { made = counts.made; reported = counts.reported } };
}

impl LookUps {
    /// Returns counts of 0.
    pub fn new() -> Self
        ensures { result ≡ record { made = 0; reported = 0 } }
    {
        LookUps {
            made: 0,
            reported: 0,
        }
    }

    /// Returns the number of look-ups made.
    pub fn made(&self) -> u128
        ensures { result ≡ self.now.made }
    {
        self.made
    }

    /// Returns the number of keys reported.
    pub fn reported(&self) -> u128
        ensures { result ≡ self.now.reported }
    {
        self.reported
    }

    // Counts one look-up.
    pub(crate) fn look_up(&mut self)
        requires { self.old.made + 1 < 2 ^ 128 }
        ensures { self.new ≡ record self.old { made = self.old.made + 1 } }
    {
        self.made += 1;
    }

    // Counts one report.
    pub(crate) fn report(&mut self)
        requires { self.old.reported + 1 < 2 ^ 128 }
        ensures { self.new ≡ record self.old { reported = self.old.reported + 1 } }
    {
        self.reported += 1;
    }

    // Counts that many reports.
    pub(crate) fn report_many(&mut self, number: u32)
        requires { self.old.reported + number < 2 ^ 128 }
        ensures { self.new ≡ record self.old { reported = self.old.reported + number } }
    {
        self.reported += u128::from(number);
    }
}
