//! A `.dic` of LibreOffice as libhyphen reads it: any bytes, in any charset, as two levels of patterns with settings.
//!
//! ```text
//! ISO8859-1              the charset, which is only passed on
//! LEFTHYPHENMIN 2        a setting: at least two letters before a break
//! COMPOUNDLEFTHYPHENMIN 3
//! 1-1                    a pattern of the first level, at which compounds are parted
//! NEXTLEVEL
//! r5kin                  a pattern of the second level: 5 between r and k
//! o1ss/s=s,2,1           a pattern with a change: at its break, an s is added
//! ```
//!
//! [`load`] makes a [`LevelDictionary`] of the file, and its contract says which one. No charset is converted: keys are
//! bytes as they are in the file. The modules, from the bottom up: `numbers` and `lines` read these, and `settings` the
//! number or the texts that a line sets. `pattern` reads a line with a pattern. [`vectors`] has the digits of each
//! node's pattern side by side, and [`level`] collects the lines of one level.
#![tactic(auto)]

pub mod bytes;
mod file;
pub mod level;
mod lines;
pub mod minima;
mod numbers;
pub mod pattern;
mod settings;
pub mod vectors;

pub use file::{LevelDictionary, load};
