//! Files that are opened by their paths, and what is known of their bytes.
//!
//! [`NamedFiles`] is implemented for the files of a runtime, of which nothing is known, and for files that are listed
//! with their bytes ([`Listed`]). So a contract over any `NamedFiles` says what a call does whatever the files hold.
#![tactic(auto)]

ghost use Rattle.std.specs.Prelude.{◌≡◌, ◌≢◌, ℕ, List, Option, None, Some, IfErr, IfOk, IfSome, MatchOption, MatchResult};
ghost use Rattle.std.specs.IoError.{error_kind};
ghost use Rattle.named_files.specs.Files.{bytes_at, known_bytes};

use std::fs::Files;
use std::io::{ErrorKind, Read};
use std::{fs, io};

/// Files that can be opened by their paths.
///
/// `bytes` says what is known of the file at a path. It is `None` if nothing is known, `Some None` if there is no file,
/// and else `Some (Some bytes)`.
pub trait NamedFiles {
    /// A file that was opened.
    type File: Read + Drop;

    /// The bytes of the file at a path, or that there is none, where that is known.
    ghost bytes: { Self → List ℕ → Option (Option (List ℕ)) };

    /// Opens the file at a path.
    ///
    /// If its bytes are known, they are what the reader has left. An error of the kind `NotFound` says that there is no
    /// such file. Any other error may come for a file that is there, and for no other.
    ///
    /// ```text
    /// let mut file = files.open("examples/firkin.txt")?;
    /// ```
    fn open(&self, path: &str) -> io::Result<Self::File>
        ensures bytes { IfOk result (λ file. IfSome (known_bytes (bytes self.now path.now)) (λ known.
            Self.File.remaining file ≡ Some known)) }
        ensures absent { bytes self.now path.now ≡ Some None →
            MatchResult result (λ _. ⊥) (λ e. error_kind e ≡ ErrorKind.NotFound) }
        ensures present { IfErr result (λ e. IfSome (known_bytes (bytes self.now path.now)) (λ _.
            error_kind e ≢ ErrorKind.NotFound)) };
}

// Nothing is known of the files of a runtime.
impl<F: Files> NamedFiles for F {
    type File = F::File;

    ghost bytes = { λ _ _. None };

    fn open(&self, path: &str) -> io::Result<F::File> {
        fs::open(self, path)
    }
}

/// A list of paths, each with the bytes of its file; the first of two equal paths counts. There are no other files.
#[derive(Clone, Copy)]
pub struct Listed<'a> {
    /// The paths and bytes.
    pub files: &'a [(&'a str, &'a [u8])],
}

impl<'a> NamedFiles for Listed<'a> {
    type File = &'a [u8];

    ghost bytes = { λ listed path. Some (bytes_at listed.files.now path) };

    /// Opens the file at a path. The error says that the list has no such file, and is of the kind `NotFound`.
    fn open(&self, path: &str) -> io::Result<&'a [u8]>
        ensures listed { IfSome (bytes_at self.now.files.now path.now) (λ known.
            MatchResult result (λ file. file.now ≡ known) (λ _. ⊥)) }
        ensures bytes { IfOk result (λ file. IfSome (bytes_at self.now.files.now path.now) (λ known.
            Some file.now ≡ Some known)) }
        ensures absent { Some (bytes_at self.now.files.now path.now) ≡ Some None →
            MatchResult result (λ _. ⊥) (λ e. error_kind e ≡ ErrorKind.NotFound) }
        ensures present { IfErr result (λ e. IfSome (bytes_at self.now.files.now path.now) (λ _.
            error_kind e ≢ ErrorKind.NotFound)) }
    {
        match find(self.files, path) {
            Some(bytes) => Ok(bytes),
            None => Err(io::Error::from(ErrorKind::NotFound)),
        }
    }
}

// The bytes of the first file of that path.
fn find<'a>(files: &[(&str, &'a [u8])], path: &str) -> Option<&'a [u8]>
    ensures { MatchOption result (bytes_at files.now path.now ≡ None)
        (λ bytes. bytes_at files.now path.now ≡ Some bytes.now) }
{
    match files.split_first() {
        Some((file, rest)) => {
            if file.0 == path {
                return Some(file.1);
            }
            find(rest, path)
        }
        None => None,
    }
}
