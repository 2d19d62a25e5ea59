//! Finding the breaks of words, and hyphenating whole texts.
//!
//! [`case_folding`] folds a word to lowercase. [`hyphenator`] finds the breaks of a word, by soft hyphens, exceptions
//! and patterns. [`text`] hyphenates a text piece by piece. Nothing here knows how dictionaries are read.
#![tactic(auto)]

pub mod case_folding;
pub mod hyphenator;
mod soft_hyphens;
pub mod text;
