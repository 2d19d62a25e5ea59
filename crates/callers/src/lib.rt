//! Callers of these libraries, to be copied: thirty to sixty lines each.
//!
//! The contract of each follows from the contracts of the calls that it makes, and from nothing else of the libraries.
#![tactic(auto)]

pub mod discretionaries;
pub mod line_filler;
pub mod marked_word;
pub mod own_exceptions;
pub mod paragraphs;
pub mod soft_hyphens;
