//! Words that are broken as their NFC is.
//!
//! A letter with an accent may be written as one character or as two: texts of file names and of PDF often have two.
//! Dictionaries know the one. So a word is composed ([`composed`]), its NFC is broken, and the breaks are carried back to the
//! word as it is written ([`carried_places`]).
#![tactic(auto)]

mod carrying;
mod composing;
pub mod laws;
mod segments;

pub use carrying::carried_places;
pub use composing::{composed, passes};
