//! Paragraphs in lines of a width, broken by a dictionary of either kind.
//!
//! [`fill_text`] returns the lines of a whole text, and [`fill`] those of one paragraph. They are as few as any choice
//! of breaks gives, or those whose cost is least ([`Aim`]). Widths are columns of a terminal.
//!
//! A word is what is between gaps: white space, but no no-break space ([`split_word`]). A paragraph is a row of lines
//! that have a word, up to the next line that has none ([`paragraphs_of`]).
#![tactic(auto)]

mod changes;
mod full_lines;
mod gathering;
mod length;
mod page;
mod part;
mod parting;
mod plain;
mod setting;
mod soft_hyphens;
mod style;
mod text;
mod word;
mod words;

pub use gathering::paragraphs_of;
pub use page::fill_text;
pub use setting::Aim;
pub use style::Style;
pub use text::{FillError, fill};
pub use words::{is_gap, split_word};
