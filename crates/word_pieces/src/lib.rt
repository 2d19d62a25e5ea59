//! The pieces of a text between Unicode's word bounds, as the kit's `unicode_segmentation` has them, sooner where a text
//! is ASCII.
#![tactic(auto)]

mod ascii;
mod characters;
mod kinds;
pub mod laws;
mod pieces;
mod rules;

pub use pieces::{WordPieceIndices, WordPieces};
