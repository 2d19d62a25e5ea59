//! The results of texts: which texts arguments name, and which output or files get the results.
//!
//! Programs that change texts share it. A text is standard input or a file. The results go to the output, into one file,
//! or each into the file from which its text came.
#![tactic(auto)]

pub mod files;
pub mod removal;
pub mod results;
pub mod targets;
pub mod texts;
