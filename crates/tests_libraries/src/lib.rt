//! Tests of the libraries by calls that no program makes.
//!
//! Dictionaries are loaded, edited, written, and asked for breaks, segments and look-ups. Each name of `hyphenation` that users
//! have is called once, and so is each caller in `callers`. Readers, writers and files fail. Texts in pieces are those of the
//! kit's iterator. `tests/rows` has what programs show of dictionary texts, words and files of patterns, and
//! `tests/long-texts` what they show of long ones.
//!
//! Scripts run the tests of `memory_free`, `refused_memory` and `measuring` by their names, over refused memory or to be measured.
#![tactic(auto)]

#[cfg(test)]
mod any_kind;
#[cfg(test)]
mod caller_examples;
#[cfg(test)]
mod exceptions;
#[cfg(test)]
mod faults;
#[cfg(test)]
mod first_example;
#[cfg(test)]
mod folding;
#[cfg(test)]
mod loading;
#[cfg(test)]
mod look_ups;
#[cfg(test)]
mod measuring;
#[cfg(test)]
mod memory_free;
#[cfg(test)]
mod names;
#[cfg(test)]
mod pieces;
#[cfg(test)]
mod questions;
#[cfg(test)]
mod refused_memory;
#[cfg(test)]
mod segments;
#[cfg(test)]
mod support;
#[cfg(test)]
mod tables;
#[cfg(test)]
mod writing;
