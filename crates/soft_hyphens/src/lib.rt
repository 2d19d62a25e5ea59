//! Texts and pages without their soft hyphens, U+00AD: the way back from texts and pages that have them at the breaks of
//! words.
//!
//! [`remove_soft_hyphens`] takes them out of a text. [`remove_from_page`] takes them out of an HTML or XHTML page, also
//! where character references spell them. By the laws a text with soft hyphens at any breaks comes back.
#![tactic(auto)]

pub mod laws;
mod page;
mod text;

pub use page::remove_from_page;
pub use text::remove_soft_hyphens;
