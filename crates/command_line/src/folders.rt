//! The folders in which dictionaries are searched if the arguments name none.

use language_search::folders_of;
use std::alloc::AllocError;
use std::env;
use std::env::{Env, VarError};

/// Why the folders can't be had.
#[derive(Debug, Drop)]
pub enum FoldersError {
    /// The variable `HYPHENATION_PATH` is not UTF-8.
    NotUtf8,
    /// Memory was refused.
    Memory,
}

impl From<AllocError> for FoldersError {
    fn from(_error: AllocError) -> FoldersError {
        FoldersError::Memory
    }
}

// The value of an environment variable; empty if it is not there.
fn variable<R: Env + AllocGlobal>(rt: &R, name: &str) -> Result<String, FoldersError> {
    match env::var(rt, name) {
        Ok(value) => Ok(value),
        Err(VarError::NotPresent) => Ok(String::new(rt.alloc())),
        Err(VarError::NotUnicode) => Err(FoldersError::NotUtf8),
        Err(VarError::OutOfMemory) => Err(FoldersError::Memory),
    }
}

// The value of a variable that other programs have too; empty also if it is not UTF-8.
fn shared_variable<R: Env + AllocGlobal>(rt: &R, name: &str) -> Result<String, FoldersError> {
    match variable(rt, name) {
        Err(FoldersError::NotUtf8) => Ok(String::new(rt.alloc())),
        found => found,
    }
}

/// Returns the folders in which dictionaries are searched, in their order.
///
/// First come those of the environment variable `HYPHENATION_PATH`, separated by colons. Then comes the user's:
/// `hyphenation` in `XDG_DATA_HOME`, or else `.local/share/hyphenation` in `HOME`. Then come
/// `/usr/local/share/hyphenation` and `/usr/share/hyphenation`. So the folder to which `hyphenate-languages` writes is
/// among them. `XDG_DATA_HOME` and `HOME` are ignored where they are not UTF-8. The error says that `HYPHENATION_PATH` is
/// not, or that memory was refused.
pub fn default_folders<R: Env + AllocGlobal>(rt: &R) -> Result<Vec<String>, FoldersError> {
    let path = variable(rt, "HYPHENATION_PATH")?;
    let data = shared_variable(rt, "XDG_DATA_HOME")?;
    let home = shared_variable(rt, "HOME")?;
    Ok(folders_of(rt.alloc(), &path, &data, &home)?)
}
