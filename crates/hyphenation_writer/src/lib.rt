//! The canonical texts of dictionaries.
//!
//! [`writer`] writes the canonical text of a dictionary, from which it is read again; [`laws`] has what is true of all
//! canonical texts.
#![tactic(auto)]

pub mod laws;
mod order;
pub mod writer;
