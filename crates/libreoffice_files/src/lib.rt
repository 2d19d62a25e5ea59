//! A `.dic` of LibreOffice, made into a dictionary.
//!
//! The file names its charset in line 1, and then has settings and patterns, some with changes of letters:
//!
//! ```text
//! UTF-8                  the charset
//! LEFTHYPHENMIN 2        a setting: at least two letters before a break
//! r5kin                  a pattern: 5 between r and k
//! o1ss/s=s,2,1           a pattern with a change: at its break, an s is added
//! ```
//!
//! [`dic::convert_dic`] makes the dictionary, and its contract says which one. The modules, from the bottom up: `charset`
//! reads bytes as text, and `lines` text as lines; `change` reads a pattern's change, [`carried_changes`] says what each
//! kind of dictionary keeps of it, `dic_patterns` reads patterns, and `dic_notes` makes remarks; [`longest`] says whether
//! LibreOffice reads patterns as TeX does.
#![tactic(auto)]

pub mod carried_changes;
mod change;
mod charset;
pub mod dic;
mod dic_notes;
mod dic_patterns;
mod lines;
pub mod longest;
mod value;
