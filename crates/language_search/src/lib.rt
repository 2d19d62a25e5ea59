//! The search for the dictionary of a language and its list of exceptions: in which folders, by which names, and in which
//! order.
//!
//! It opens nothing. [`folders_of`] gives the folders, and [`paths_of`] the paths at which to look, in their order; the
//! first one at which there is a file has the dictionary. So each program and each binding finds the same one.
//! [`codes_of`] and [`paths_of_code`] give the same paths code by code. [`exception_paths_of`] gives those of the list.
//!
//! ```text
//! let folders = folders_of(alloc, "", "", "/users/ada")?;
//! paths_of(alloc, &["/users/ada/.local/share/hyphenation"], "de_CH")?
//! // /users/ada/.local/share/hyphenation/de-ch.txt
//! // /users/ada/.local/share/hyphenation/de-ch.extended.txt
//! // /users/ada/.local/share/hyphenation/de.txt
//! // /users/ada/.local/share/hyphenation/de.extended.txt
//! // /users/ada/.local/share/hyphenation/de-1996.txt
//! // /users/ada/.local/share/hyphenation/de-1996.extended.txt
//! ```
#![tactic(auto)]

mod folders;
pub mod laws;
mod names;
mod paths;
mod tags;

pub use folders::folders_of;
pub use paths::{Sought, exception_paths_of, exception_paths_of_code, paths_of, paths_of_code};
pub use tags::codes_of;
