//! The texts of `--help` and `--version`.

ghost use Rattle.std.specs.Prelude.{◌≡◌, None, OnOk};
ghost use Rattle.command_line.specs.About.{help_or_version, version_line, WritesHelp};
ghost use Rattle.hyphenation_load.specs.Load.{AppendsTo};

use crate::VERSION;
use std::io;
use std::io::Write;

// Writes the line of a program's name and version.
fn write_version<W: Write>(name: &str, output: &mut W) -> io::Result<()>
    ensures { OnOk result (AppendsTo W.contents output.old output.new (version_line name.now VERSION.now)) }
{
    output.write_all(name.as_bytes())?;
    output.write_all(b" ")?;
    output.write_all(VERSION.as_bytes())?;
    output.write_all(b"\n")
}

/// Writes the usage if the only argument is `--help` or `-h`, and the name with the version if it is `--version`.
///
/// Returns the status to end with: 0, or 5 if the text can't be written. For other arguments it returns `None`, and
/// nothing is written.
///
/// ```text
/// write_help_or_version("hyphenate-convert", USAGE, &["--version"], &mut rt.stdout())    // hyphenate-convert 0.1.0
/// ```
pub fn write_help_or_version<W: Write>(
    name: &str,
    usage: &str,
    args: &[&str],
    output: &mut W,
) -> Option<u8>
    ensures other { help_or_version name.now VERSION.now usage.now args.now ≡ None →
        (result ≡ None) × (output.new ≡ output.old) }
    ensures asked { WritesHelp name.now VERSION.now usage.now args.now result W.contents output.old output.new }
{
    let [arg] = args else {
        return None;
    };
    let written = if *arg == "--version" {
        write_version(name, output)
    } else if *arg == "--help" || *arg == "-h" {
        output.write_all(usage.as_bytes())
    } else {
        return None;
    };
    match written {
        Ok(()) => Some(0),
        Err(_) => Some(5),
    }
}
