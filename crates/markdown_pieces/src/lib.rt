//! Markdown, cut into pieces: texts, texts in brackets, and the rest, which is markup or code.
//!
//! [`pieces`] cuts a text, by CommonMark 0.31. It reads byte by byte ([`State`](state::State)) and looks at no line twice. Where a
//! rule needs more than the line, what may be markup is none of the texts, up to a blank line or to the end.
#![tactic(auto)]

pub mod bytes;
mod cutting;
mod fences;
mod html;
pub mod laws;
mod lines;
mod reading;
mod spans;
pub mod state;

pub use cutting::{Piece, PieceKind, pieces};
