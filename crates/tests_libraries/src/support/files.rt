//! New files in the folder of temporary files.

use std::test::Fail;
use std::{env, fs, process};

/// Writes a new file of these bytes into the folder of temporary files, and returns its path. It has the number of this
/// process and a name.
pub fn new_file(rt: &HostRuntime, name: &str, bytes: &[u8]) -> Result<String, Fail> {
    let folder = env::temp_dir(rt)?;
    let id = process::id(rt.process());
    let path = format!(in rt.alloc(); "{}/test-{id}-{name}", folder.as_path().display())?;
    fs::write(rt, path.as_str(), bytes)?;
    Ok(path)
}
