//! Soft hyphens for texts without markup and for Markdown.
//!
//! [`hyphenate_text`] puts a mark where the words of a text may be broken by a dictionary, and [`hyphenate_markdown`] where
//! those of a text in Markdown may, outside of code and markup. Nothing else of the text changes. [`push_text`] appends a text
//! that is a part of another one, such as a page: its first word and its last one may go on outside of it.
#![tactic(auto)]

pub mod laws;
mod markdown;
mod plain;
mod settings;
mod text;
mod words;

pub use any_dictionary::AnyDictionary;
pub use markdown::hyphenate_markdown;
pub use plain::hyphenate_text;
pub use settings::Settings;
pub use text::{Output, push_text};
