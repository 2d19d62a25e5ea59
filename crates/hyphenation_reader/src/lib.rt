//! Dictionaries read from their texts, and edits of exceptions.
//!
//! [`reader`] makes a dictionary of a text, or returns its first fault. [`edits`] judges and applies edits, which are
//! written as lines of a text. [`laws`] has what is true of all accepted texts.
#![tactic(auto)]

pub mod edits;
mod items;
mod known_entries;
pub mod laws;
pub mod reader;
