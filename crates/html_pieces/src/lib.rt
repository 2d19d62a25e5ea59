//! HTML and XHTML pages, cut into pieces: text, tags and what is neither; the attributes of tags; the open elements.
#![tactic(auto)]

pub mod bytes;
pub mod elements;
pub mod forms;
pub mod groups;
pub mod languages;
pub mod laws;
pub mod readings;
pub mod references;
pub mod tags;
pub mod tokenizer;
