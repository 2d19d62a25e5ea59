//! Why a word breaks where it does: the patterns that occur in it, and the facts that decide.
//!
//! [`rows`] lists the occurrences of keys in a word's frame, each with the key's entries. Here are the rows of the word
//! `firkins` by six patterns, below its frame:
//!
//! ```text
//!     . f i r k i n s .
//!     . f i2                 start 0, 3 bytes, value 2 at place 3
//!         i2r                start 2, 2 bytes, value 2 at place 1
//!           r2k
//!           r5k i n          the longer of two keys with one start comes later
//!             k1i n
//! ```
#![tactic(auto)]

mod escaping;
mod facts;
mod fields;
mod finding;
mod known;
mod layout;
mod lines;
mod marks;
mod notes;
mod numbers;
mod pattern_rows;
mod picture;
mod style;
mod svg;
mod texts;

pub use escaping::texts_of_drawings_are_escaped;
pub use facts::{Decision, Explanation};
pub use fields::fields_have_no_control_characters;
pub use finding::explain;
pub use pattern_rows::{Row, rows};
pub use style::Style;
pub use svg::{Drawing, document};
pub use texts::{drawing, explanation};
