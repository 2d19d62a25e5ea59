//! Dividing a paragraph into lines, by the columns of its stretches.
//!
//! A [`Stretch`] is between two neighbouring places at which a line may end. A line holds stretches that are side by
//! side. [`even_ends`] returns the division that costs the least. Its cost is the squares of the columns that lines are
//! short of, and a price for each line that ends within a word. [`greedy_ends`] returns the one whose lines hold as
//! much as fits; no division into lines that fit has fewer of them.
#![tactic(auto)]

mod cost;
mod even;
mod greedy;
mod ladder;
pub mod laws;
mod problem;
mod reach;
mod stretch;
mod table;

pub use cost::Cost;
pub use even::even_ends;
pub use greedy::greedy_ends;
pub use stretch::Stretch;
