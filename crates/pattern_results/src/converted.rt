//! A dictionary with the remarks on its files.

use crate::notes::Note;
use hyphenation_breaks::entry::{Listing, Payload};
use hyphenation_dictionary::dictionary::Dictionary;

/// A dictionary that was made of files, and the remarks on these files.
#[derive(Drop)]
pub struct Converted<C: Payload, B: Listing> {
    pub dictionary: Dictionary<C, B>,
    pub notes: Vec<Note>,
}
