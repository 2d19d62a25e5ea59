//! Breaks of words exactly as libhyphen finds them, and defined where libhyphen is not.
//!
//! [`calls`] has the calls. [`one_level`] reads a word by one level of a `.dic`: at each end of the word's frame only
//! the longest beginning of a pattern counts. [`found`] is what is found in a word. [`laws`] says of all of it, in the
//! field's own words, what holds for each file and each word. The other modules, from the bottom up: `counting` finds
//! the patterns that count; `digits` and `cells` keep what they give; `letters` and `minima` take away breaks too near
//! to an end; `parts` parts a compound by the first level, and breaks its parts by the next level; `plain_words`
//! and `plain_compounds` do the same, with less work, where no pattern counts that changes letters, as in most words;
//! `words` takes away breaks beside texts without breaks, counts characters, and writes the word with its breaks.
#![tactic(auto)]

pub mod calls;
mod cells;
mod counting;
mod digits;
pub mod found;
pub mod laws;
mod letters;
mod minima;
pub mod one_level;
mod parts;
mod plain_compounds;
mod plain_words;
mod words;
