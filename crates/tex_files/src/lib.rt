//! TeX files of hyphenation patterns, and plain ones, made into dictionaries.
//!
//! A TeX file of hyph-utf8 has its patterns in a group after `\patterns`, and its exceptions in one after
//! `\hyphenation`. A plain file has the inside of one of these groups:
//!
//! ```text
//! \patterns{                   .fi2      2 after fi, where a word begins with it
//! .fi2 r5kin 4k1i              r5kin     5 between r and k, wherever rkin is in a word
//! }
//! \hyphenation{as-so-ciate}    associate, with breaks at 2 and 4
//! ```
//!
//! [`convert::convert`] makes the dictionary, and its contract says which one. The modules, from the bottom up:
//! [`group`] has files, their groups and the words of groups; `tex` reads files into words, and [`laws`] say which words
//! these are; `spelling` reads one word, and `words` all of them; [`head_minima`] reads the head of a TeX file, and
//! `word_notes` makes remarks. [`exception_list`] adds the exceptions that a user lists to a dictionary.
#![tactic(auto)]

pub mod convert;
pub mod exception_list;
pub mod group;
pub mod head_minima;
pub mod laws;
mod spelling;
mod tex;
mod word_error;
mod word_notes;
mod words;
