//! Files that are replaced by new ones, so that nothing is lost where memory or the disk fails.
//!
//! [`ReplaceFiles`] is implemented for the files of a runtime, and for a list that records what was written
//! ([`Recorded`]). So a contract over any `ReplaceFiles` says which file gets which bytes.

ghost use Rattle.std.specs.Prelude.{◌≡◌, ◌∷◌, [], Option, None, Some, is_some, OnErr, OnOk, map, if◌then◌else◌};
ghost use Rattle.std.specs.String.{string_bytes};
ghost use Rattle.text_results.specs.Files.{WrittenFiles, WritesFiles};

use std::alloc::Global;
use std::fs::{Files, Metadata, OpenFile, OpenOptions, Permissions};
use std::io::{ErrorKind, Write};
use std::os::unix::fs::{OpenOptionsExt, PermissionsExt};
use std::path::AsPath;
use std::{fs, io};

/// Files that can be replaced by new ones.
pub trait ReplaceFiles {
    /// The paths of the files that were written, in their order, each with its bytes, where that is known.
    ghost written: { Self → Option WrittenFiles };

    /// Replaces the file at a path by one of these bytes, or makes it if there is none.
    ///
    /// After an error it is as it was.
    ///
    /// ```text
    /// files.replace(alloc, "letter.txt", b"Dear reader\n")?;
    /// ```
    fn replace(&mut self, alloc: Global, path: &str, bytes: &[u8]) -> io::Result<()>
        ensures written { OnOk result (WritesFiles (written self.old) (written self.new) ((path.now, bytes.now) ∷ [])) }
        ensures kept { OnErr result (WritesFiles (written self.old) (written self.new) []) };
}

// A new file is written beside the old one, with its permissions, and then gets its name. A symbolic link is followed, also
// one that leads to no file yet. A file that is none of the disk, as a terminal or a pipe, is written where it is.
impl<F: Files> ReplaceFiles for F {
    ghost written = { λ _. None };

    fn replace(&mut self, alloc: Global, path: &str, bytes: &[u8]) -> io::Result<()> {
        replace_file(self, alloc, path, bytes)
    }
}

/// The files that were written, in their order.
#[derive(Drop)]
pub struct Recorded {
    /// The path of each, and its bytes.
    pub files: Vec<(String, Vec<u8>)>,
}

impl ReplaceFiles for Recorded {
    ghost written = { λ recorded. Some (map (λ file. (string_bytes file.0, file.1.items)) recorded.files.items) };

    fn replace(&mut self, alloc: Global, path: &str, bytes: &[u8]) -> io::Result<()> {
        let path = String::from_str(alloc, path)?;
        let mut copy = Vec::new(alloc);
        copy.extend_from_slice(bytes)?;
        self.files.push((path, copy))?;
        Ok(())
    }
}

// Writes bytes to a file that is there and is none of the disk, or to the new file to which a link leads.
fn write_through<F: Files>(files: &F, path: &str, is_new: bool, bytes: &[u8]) -> io::Result<()> {
    let mut file = OpenOptions::new()
        .write(true)
        .create(is_new)
        .open(files, path)?;
    file.write_all(bytes)
}

// Returns the permissions with which a new file is made, where the mask leaves them: those of any new file or, where it takes
// the place of an old one, none for others, who could open it before it gets those of the old one.
fn first_mode(old: &Option<Metadata>) -> u32
    ensures { result ≡ (if is_some old.now then 0o600 else 0o666) }
{
    if old.is_some() { 0o600 } else { 0o666 }
}

// Fills a new file, which gets the permissions of the old one first, and waits until the disk has it. The bits by which a
// program gets the rights of its file's owner are left out, since the owner may be another one now.
fn fill<T: Write + OpenFile>(file: &mut T, old: &Option<Metadata>, bytes: &[u8]) -> io::Result<()> {
    if let Some(old) = old {
        let permissions = old.permissions().mode() & 0o777;
        file.set_permissions(Permissions::from_mode(permissions))?;
    }
    file.write_all(bytes)?;
    file.sync_all()
}

// Makes a new file of this path with these bytes, and then gives it the path `target`. After an error it is removed.
fn fill_and_rename<F: Files>(
    files: &F,
    mut file: F::File,
    beside: &str,
    target: &str,
    old: &Option<Metadata>,
    bytes: &[u8],
) -> io::Result<()> {
    let filled = fill(&mut file, old, bytes);
    drop(file);
    let done = match filled {
        Ok(()) => fs::rename(files, beside, target),
        Err(e) => Err(e),
    };
    if done.is_err() {
        let _ = fs::remove_file(files, beside);
    }
    done
}

// Replaces a file of the disk, or makes it, by a new file beside it: the first of some names that no file has.
fn replace_by_new<F: Files>(
    files: &F,
    alloc: Global,
    target: &str,
    old: &Option<Metadata>,
    bytes: &[u8],
) -> io::Result<()> {
    for number in 0..1000 {
        let beside = format!(in alloc; "{target}.{number}.new")?;
        match OpenOptions::new()
            .write(true)
            .create_new(true)
            .mode(first_mode(old))
            .open(files, beside.as_str())
        {
            Ok(file) => return fill_and_rename(files, file, &beside, target, old, bytes),
            Err(e) => {
                if e.kind() != ErrorKind::AlreadyExists {
                    return Err(e);
                }
            }
        }
    }
    Err(io::Error::from(ErrorKind::AlreadyExists))
}

// Replaces the file at a path, or makes it.
fn replace_file<F: Files>(files: &F, alloc: Global, path: &str, bytes: &[u8]) -> io::Result<()> {
    let old = match fs::metadata(files, path) {
        Ok(old) => Some(old),
        Err(e) => {
            if e.kind() != ErrorKind::NotFound {
                return Err(e);
            }
            None
        }
    };
    if let Some(old) = &old {
        if !old.is_file() {
            return write_through(files, path, false, bytes);
        }
    }
    match files.canonicalize(alloc, path) {
        Ok(target) => replace_by_new(files, alloc, target.path_text(), &old, bytes),
        Err(e) => {
            if old.is_some() {
                return Err(e);
            }
            if files.symlink_metadata(path).is_ok() {
                return write_through(files, path, true, bytes);
            }
            replace_by_new(files, alloc, path, &old, bytes)
        }
    }
}
