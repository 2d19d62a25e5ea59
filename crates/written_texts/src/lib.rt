//! Texts as people write them, in lines of a width: mails, lists, and files for readers.
//!
//! Quotes keep their signs on each line, items their indent, and lines that are no prose stay as they are.
//! [`fill_written`] returns the lines. `paragraphs` fills each paragraph.
#![tactic(auto)]

mod blocks;
mod kept;
pub mod laws;
mod page;
mod place;
mod prefix;

pub use page::fill_written;
