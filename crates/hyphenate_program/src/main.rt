//! The programs, in one file: it does the work of the program by whose name it is called.
//!
//! `main` hands the arguments to `answer` of that program's crate, which does the rest. Tests call that.
#![tactic(auto)]

use command_line::folders::{FoldersError, default_folders};
use command_line::programs::{Program, called};
use command_line::{Messages, program_of_call, report_bad_args, with_args};
use language_search::folders_of;
use std::alloc::AllocError;
use std::env::Env;
use std::io::Write;
use std::process::ExitCode;
use std::{fs, io};

// The usage where no program is named.
const USAGE: &str = "\
usage: NAME [ARGUMENT..]
       NAME: hyphenate, hyphenate-canonical, hyphenate-convert, hyphenate-explain, hyphenate-html, hyphenate-lines or
             hyphenate-text. A link of such a name to this file is that program
";

// The message if memory was refused where no program is named.
const NO_MEMORY: &str = "hyphenate: no memory\n";

// Returns the usage of a program.
fn usage_of(program: Program) -> &'static str {
    match program {
        Program::Hyphenate => hyphenate_command::USAGE,
        Program::Canonical => canonical_command::USAGE,
        Program::Convert => convert_command::USAGE,
        Program::Explain => explain_command::USAGE,
        Program::Html => html_command::USAGE,
        Program::Lines => lines_command::USAGE,
        Program::Text => text_command::USAGE,
    }
}

// Returns the message of a program if memory was refused.
fn no_memory_of(program: Program) -> &'static str {
    match program {
        Program::Hyphenate => hyphenate_command::NO_MEMORY,
        Program::Canonical => canonical_command::NO_MEMORY,
        Program::Convert => convert_command::NO_MEMORY,
        Program::Explain => explain_command::NO_MEMORY,
        Program::Html => html_command::NO_MEMORY,
        Program::Lines => lines_command::NO_MEMORY,
        Program::Text => text_command::NO_MEMORY,
    }
}

// Writes why the arguments can't be had as texts, and returns the status.
fn report_no_args(rt: &HostRuntime, error: &io::Error) -> u8 {
    let (usage, no_memory) = match program_of_call(rt) {
        Some(program) => (usage_of(program), no_memory_of(program)),
        None => (USAGE, NO_MEMORY),
    };
    report_bad_args(
        rt.alloc(),
        usage,
        no_memory,
        error,
        &mut Messages::new(rt.stderr()),
    )
}

// Does the work of a program, and returns the status.
fn run(rt: &HostRuntime, program: Program, args: &[&str], folders: &[&str]) -> u8 {
    let input = &mut rt.stdin();
    let output = &mut rt.stdout();
    let errors = &mut Messages::new(rt.stderr());
    let store = &mut &*rt;
    let alloc = rt.alloc();
    match program {
        Program::Hyphenate => hyphenate_command::answer(rt, alloc, args, input, output, errors),
        Program::Canonical => {
            canonical_command::answer(rt, alloc, args, folders, input, output, errors)
        }
        Program::Convert => convert_command::answer(rt, alloc, args, output, errors),
        Program::Explain => {
            explain_command::answer(rt, alloc, args, folders, input, output, errors)
        }
        Program::Html => {
            let call = html_command::Call { args, folders };
            html_command::answer(rt, store, alloc, &call, input, output, errors)
        }
        Program::Lines => lines_command::answer(rt, alloc, args, folders, input, output, errors),
        Program::Text => {
            let call = text_command::Call { args, folders };
            text_command::answer(rt, store, alloc, &call, input, output, errors)
        }
    }
}

// Returns the folders of a word `HYPHENATION_PATH=FOLDERS`. `None` if it has another form.
fn given_folders(rt: &HostRuntime, word: &str) -> Result<Option<Vec<String>>, AllocError> {
    match word.strip_prefix("HYPHENATION_PATH=") {
        Some(path) => Ok(Some(folders_of(rt.alloc(), path, "", "")?)),
        None => Ok(None),
    }
}

// Does the work of a program with these folders of dictionaries.
fn run_in(
    rt: &HostRuntime,
    program: Program,
    args: &[&str],
    folders: &[String],
) -> Result<u8, AllocError> {
    let folders: Vec<&str> = folders
        .iter()
        .map(|folder| folder.as_str())
        .collect(rt.alloc())?;
    Ok(run(rt, program, args, &folders))
}

// Writes that the variable of the folders is not UTF-8, and returns the status.
fn report_bad_variable(rt: &HostRuntime, program: Program) -> u8 {
    let message = format_args!("{}: HYPHENATION_PATH: not UTF-8\n", program.name());
    Messages::new(rt.stderr()).write(rt.alloc(), &message);
    2
}

// Does the work of a program with the folders of dictionaries that the environment names, if it searches there.
fn run_program(rt: &HostRuntime, program: Program, args: &[&str]) -> Result<u8, AllocError> {
    match program {
        Program::Hyphenate | Program::Convert => Ok(run(rt, program, args, &[])),
        _ => match default_folders(rt) {
            Ok(folders) => run_in(rt, program, args, &folders),
            Err(FoldersError::NotUtf8) => Ok(report_bad_variable(rt, program)),
            Err(FoldersError::Memory) => Err(AllocError),
        },
    }
}

// Does what arguments ask for that name no program first. A trial run has no environment, so the folders may come before
// the program's name.
fn run_tried(rt: &HostRuntime, args: &[&str]) -> Result<u8, AllocError> {
    if let Some((first, others)) = args.split_first() {
        if let Some(folders) = given_folders(rt, first)? {
            if let Some((program, args)) = called(None, others) {
                return run_in(rt, program, args, &folders);
            }
        }
    }
    let _ = rt.stderr().write_all(USAGE.as_bytes());
    Ok(2)
}

// Does what a command line asks for.
fn run_args(rt: &HostRuntime, args: &[&str]) -> Result<u8, AllocError> {
    match called(program_of_call(rt), args) {
        Some((program, args)) => run_program(rt, program, args),
        None => run_tried(rt, args),
    }
}

fn main(rt: HostRuntime) -> ExitCode {
    // A closed standard input has no file, and the next one that is opened would be read in its place. This folder takes
    // that place: it can't be read.
    let _held = fs::open(&rt, "/");
    let status = match with_args(&rt, |args| run_args(&rt, args)) {
        Ok(Ok(status)) => status,
        Ok(Err(e)) => report_no_args(&rt, &io::Error::from(e)),
        Err(e) => report_no_args(&rt, &e),
    };
    ExitCode::from(status)
}
