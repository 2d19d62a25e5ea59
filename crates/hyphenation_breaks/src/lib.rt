//! Languages, and the breaks of words: places, and changes of the letters around them.
//!
//! The module [`breaks`] says what a break is, [`extended`] what a change is. The module [`entry`] says how each kind of
//! dictionary holds them.
#![tactic(auto)]

pub mod breaks;
pub mod entry;
pub mod extended;
pub mod language;
pub mod laws;
