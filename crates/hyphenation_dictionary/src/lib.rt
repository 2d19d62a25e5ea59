//! Dictionaries: patterns that allow and forbid breaks, exceptions, and how both make a dictionary.
//!
//! The module [`dictionary`] has the type, and [`maker`] makes one of keys and words. The modules [`search`] and [`parts`]
//! serve the crates that search a dictionary, read it or write it.
#![tactic(auto)]

pub mod dictionary;
pub mod exceptions;
pub mod laws;
pub mod maker;
pub mod parts;
pub mod search;
