//! The programs that one file holds, and which of them a command line calls.

ghost use Rattle.std.specs.Prelude.{◌≡◌, Some, option_map};
ghost use Rattle.hyphenation_breaks.specs.Borrowed.{texts_now};
ghost use Rattle.command_line.specs.Programs.{called, called_by_first, file_name, program_of};

/// A program.
#[derive(Clone, Copy, PartialEq, Eq, Debug)]
pub enum Program {
    /// `hyphenate`
    Hyphenate,
    /// `hyphenate-canonical`
    Canonical,
    /// `hyphenate-convert`
    Convert,
    /// `hyphenate-explain`
    Explain,
    /// `hyphenate-html`
    Html,
    /// `hyphenate-lines`
    Lines,
    /// `hyphenate-text`
    Text,
}

impl Program {
    /// Returns the name of the program, such as `hyphenate-lines`.
    #[tactic(auto, unfolding(crate::specs::Programs::program_of))]
    pub fn name(self) -> &'static str
        ensures { program_of result.now ≡ Some self }
    {
        match self {
            Program::Hyphenate => "hyphenate",
            Program::Canonical => "hyphenate-canonical",
            Program::Convert => "hyphenate-convert",
            Program::Explain => "hyphenate-explain",
            Program::Html => "hyphenate-html",
            Program::Lines => "hyphenate-lines",
            Program::Text => "hyphenate-text",
        }
    }
}

// Returns the name of the file at a path.
fn file_name(path: &[u8]) -> &[u8]
    ensures { result.now ≡ file_name path.now }
{
    let mut end = path;
    for at in 0..path.len() {
        if path[at] == b'/' {
            end = &path[at + 1..];
        }
    }
    end
}

// Returns the program of a name.
#[tactic(auto, unfolding(crate::specs::Programs::program_of))]
fn program_of(name: &[u8]) -> Option<Program>
    ensures { result ≡ program_of name.now }
{
    if name == b"hyphenate".as_slice() {
        Some(Program::Hyphenate)
    } else if name == b"hyphenate-canonical".as_slice() {
        Some(Program::Canonical)
    } else if name == b"hyphenate-convert".as_slice() {
        Some(Program::Convert)
    } else if name == b"hyphenate-explain".as_slice() {
        Some(Program::Explain)
    } else if name == b"hyphenate-html".as_slice() {
        Some(Program::Html)
    } else if name == b"hyphenate-lines".as_slice() {
        Some(Program::Lines)
    } else if name == b"hyphenate-text".as_slice() {
        Some(Program::Text)
    } else {
        None
    }
}

/// Returns the program by whose name the file at a path is called: the last part of the path. `None` if that is no
/// program's name.
///
/// ```text
/// program_at(b"/usr/bin/hyphenate-lines")       // Some(Program::Lines)
/// ```
pub fn program_at(path: &[u8]) -> Option<Program>
    ensures { result ≡ program_of (file_name path.now) }
{
    program_of(file_name(path))
}

/// Returns the program that a command line calls, with its arguments. `None` if it calls none.
///
/// `program` is the one by whose name the file was called, as [`program_at`] returns it. Where there is none, the first
/// argument names the program.
///
/// ```text
/// called(program_at(b"/usr/bin/hyphenate-lines"), &["de"])            // Some((Program::Lines, ["de"]))
/// called(program_at(b"./programs"), &["hyphenate-lines", "de"])       // the same
/// called(program_at(b"./programs"), &["de"])                          // None
/// ```
pub fn called<'w>(program: Option<Program>, args: &'w [&'w str]) -> Option<(Program, &'w [&'w str])>
    ensures { option_map (λ found. (found.0, texts_now found.1.now)) result ≡ called program (texts_now args.now) }
{
    match program {
        Some(program) => Some((program, args)),
        None => called_by_first(args),
    }
}

// Returns the program that the first of some arguments names, with the others.
fn called_by_first<'w>(args: &'w [&'w str]) -> Option<(Program, &'w [&'w str])>
    ensures { option_map (λ found. (found.0, texts_now found.1.now)) result ≡ called_by_first (texts_now args.now) }
{
    let (name, others) = args.split_first()?;
    match program_of(name.as_bytes()) {
        Some(program) => Some((program, others)),
        None => None,
    }
}
