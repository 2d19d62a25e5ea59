//! The words of texts: what is broken as a word, and what is left whole.
//!
//! A text is cut at white space first. [`is_name`] tells which of these parts are addresses, paths, identifiers or names of
//! files. Such a part is left whole. The others have words, which [`TextWords`] gives one by one. A word with a letter beside
//! a digit ([`is_mixed`]) is not broken.
#![tactic(auto)]

pub mod laws;
mod names;
mod words;

pub use names::{ENDINGS, is_name, is_of_word};
pub use words::{TextWords, is_mixed};
