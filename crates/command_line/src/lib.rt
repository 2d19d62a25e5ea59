//! Shared by the programs: the version, the arguments, the files, the messages, and the texts of `--help` and `--version`.
#![tactic(auto)]

ghost use Rattle.std.specs.Prelude.{◌≡◌, ◌≢◌, IfSome, OnOk};
ghost use Rattle.std.specs.IoError.{error_kind};
ghost use Rattle.hyphenation_load.specs.Load.{AppendsTo};
ghost use Rattle.command_line.specs.Endings.{Tells};

mod about;
pub mod adjustments;
pub mod dictionaries;
mod failure;
pub mod folders;
pub mod inputs;
mod messages;
pub mod options;
pub mod programs;
mod steps;

pub use about::write_help_or_version;
pub use failure::{Failure, InputRefusal, ListRefusal, report};
use hyphenation_load::is_out_of_memory;
pub use messages::{Messages, done};
pub use named_files::{Listed, NamedFiles};
use programs::{Program, program_at};
use std::alloc::Global;
use std::env::{Env, FillError};
use std::fmt::Display;
use std::io::{ErrorKind, Write};
use std::{env, io};
pub use steps::{Notes, ProgramSteps, ProgramTexts, answer};

/// The version of all programs. The file `VERSION` has the same, and `tests/figures` compares them.
pub const VERSION: &str = "0.1.0";

/// Returns the program by whose name the file was called, by the path that is the first word of the command line.
///
/// `None` if there is no such path, or it is no program's. The path may be any bytes, at most 4,096.
pub fn program_of_call<R: Env>(rt: &R) -> Option<Program> {
    let mut path = [0; 4096];
    let bytes = rt.arg(0, &mut path).ok()?;
    program_at(path.get(..bytes)?)
}

// The command line without its first word.
#[derive(Clone, Copy)]
struct AfterFirst<'r, R> {
    rt: &'r R,
}

impl<R: Env> Env for AfterFirst<'_, R> {
    fn arg(&self, i: usize, buf: &mut [u8]) -> Result<usize, FillError> {
        self.rt.arg(i.saturating_add(1), buf)
    }

    fn var(&self, name: &str, buf: &mut [u8]) -> Result<usize, FillError> {
        self.rt.var(name, buf)
    }

    fn var_at(&self, i: usize, buf: &mut [u8]) -> Result<usize, FillError> {
        self.rt.var_at(i, buf)
    }
}

/// Calls a function with the arguments of the command line, and returns what that returns.
///
/// They are the words after the path by which the program was called. The error says that one of them is not UTF-8, or,
/// of the kind `OutOfMemory`, that memory was refused.
pub fn with_args<R: Env + AllocGlobal, T, F: FnOnce(&[&str]) -> T>(rt: &R, call: F) -> io::Result<T>
    requires { F.IsAlwaysCallable call }
{
    let args: Vec<String> = env::args(&(AfterFirst { rt }, rt.alloc()))?.collect(rt.alloc())?;
    let args: Vec<&str> = args.iter().map(|arg| arg.as_str()).collect(rt.alloc())?;
    Ok(call(&args))
}

/// Writes why the arguments could not be had, and returns the status to end with.
///
/// If memory was refused, it writes `no_memory`, a whole line, and returns 6; else it writes the usage and returns 2.
/// An error of writing changes neither.
pub fn report_bad_args<W: Write>(
    alloc: Global,
    usage: &str,
    no_memory: &str,
    error: &io::Error,
    errors: &mut Messages<W>,
) -> u8
    ensures out_of_memory { error_kind error.now ≡ ErrorKind.OutOfMemory →
        (result ≡ 6) × Tells W.contents errors.old errors.new no_memory.now }
    ensures other { error_kind error.now ≢ ErrorKind.OutOfMemory →
        (result ≡ 2) × Tells W.contents errors.old errors.new usage.now }
{
    if is_out_of_memory(error) {
        errors.write(alloc, &no_memory);
        return 6;
    }
    errors.write(alloc, &usage);
    2
}

/// Writes a message at once, or, if memory for that is refused, in pieces. The error is that of the writer.
///
/// ```text
/// write_whole(alloc, &format_args!("{path}: {cause}\n"), &mut rt.stderr())?
/// ```
pub fn write_whole<D: Display, W: Write>(
    alloc: Global,
    message: &D,
    output: &mut W,
) -> io::Result<()>
    ensures { OnOk result (IfSome (D.output message.now) (AppendsTo W.contents output.old output.new)) }
{
    match format!(in alloc; "{message}") {
        Ok(text) => output.write_all(text.as_bytes()),
        Err(_) => write!(output, "{message}"),
    }
}
