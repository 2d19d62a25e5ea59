//! Words with breaks that fit them, and the segments between the breaks.
//!
//! A [`Word`] is a text with its breaks. [`iter`] goes over its segments, with marks or without, and appends them all
//! to a text at once. The crate `hyphenation_hyphenator` finds the breaks, and `hyphenation` exports both.
#![tactic(auto)]

pub mod iter;
mod words;

pub use words::Word;
