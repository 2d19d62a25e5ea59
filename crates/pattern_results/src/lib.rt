//! The results of reading files of hyphenation patterns: a dictionary with its notes, or an error.
//!
//! The crates `tex_files` and `libreoffice_files` read files, and both use this one. [`errors`] has the errors,
//! [`notes`] the remarks on files that give a dictionary, and [`converted`] a dictionary with its remarks.
//! [`dictionary_parts`] gathers the keys and words of a dictionary, and [`texts`] makes texts of bytes.
#![tactic(auto)]

pub mod converted;
pub mod dictionary_parts;
pub mod errors;
pub mod notes;
pub mod texts;
