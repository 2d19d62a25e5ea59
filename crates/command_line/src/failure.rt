//! Why a program wrote nothing, or not all: one type for all programs, with its status and its message.

ghost use Rattle.command_line.specs.Endings.{EndsBy, Fails, Tells};

use crate::messages::Messages;
use hyphenation_load::Error;
use pattern_results::errors::FileCause;
use std::alloc::{AllocError, Global};
use std::fmt;
use std::fmt::{Display, Formatter};
use std::io::Write;

/// Why an input is refused.
#[derive(Clone, Copy)]
pub enum InputRefusal {
    /// It is UTF-8 up to that many bytes, and not beyond; that place is in the line of this number, from 1.
    NotUtf8 { valid: usize, line: usize },
    /// A paragraph of it is too long.
    LongParagraph,
}

/// Why a list of exceptions is refused.
#[derive(Clone, Copy)]
pub enum ListRefusal {
    /// Its file can't be opened or read.
    Unread,
    /// The first line that is refused, from 1, and why.
    OnLine { line: usize, cause: FileCause },
}

/// Why a program wrote nothing, or not all.
#[derive(Drop)]
pub enum Failure {
    /// The dictionary at this path can't be opened, read or accepted.
    Dictionary { path: String, cause: Error },
    /// No folder has a dictionary of this language.
    NoDictionary { language: String },
    /// The list of exceptions at this path is refused.
    Exceptions { path: String, cause: ListRefusal },
    /// The input of this name is refused.
    Refused { input: String, cause: InputRefusal },
    /// The input of this name can't be read.
    Reading { input: String },
    /// The output of this name can't be written.
    Writing { output: String },
    /// The result can't be written.
    Output,
    /// Memory was refused.
    Memory,
}

impl From<AllocError> for Failure {
    ghost use Rattle.std.specs.Prelude.{◌≡◌};
    ghost use Rattle.command_line.specs.declared.failure.Failure.TheVariants.{Memory};

    ghost from_gives = { λ _ result. result ≡ Memory };

    fn from(_error: AllocError) -> Failure {
        Failure::Memory
    }
}

/// Writes the words for why an input is refused, as `not UTF-8: line 2, after 17 bytes`.
impl Display for InputRefusal {
    ghost use Rattle.std.specs.Prelude.{Some};
    ghost use Rattle.command_line.specs.Failures.{refusal_words};

    ghost output = { λ refusal. Some (refusal_words refusal) };

    fn fmt<W: fmt::Write>(&self, f: &mut Formatter<W>) -> fmt::Result {
        match self {
            InputRefusal::NotUtf8 { valid, line } => {
                write!(f, "not UTF-8: line {line}, after {valid} bytes")
            }
            InputRefusal::LongParagraph => f.write_str("a paragraph is too long"),
        }
    }
}

/// Writes the words for why a list of exceptions is refused, as `line 2: not UTF-8`.
impl Display for ListRefusal {
    ghost use Rattle.std.specs.Prelude.{Some};
    ghost use Rattle.command_line.specs.Failures.{list_refusal_words};

    ghost output = { λ refusal. Some (list_refusal_words refusal) };

    fn fmt<W: fmt::Write>(&self, f: &mut Formatter<W>) -> fmt::Result {
        match self {
            ListRefusal::Unread => f.write_str("can't be read"),
            ListRefusal::OnLine { line, cause } => write!(f, "line {line}: {cause}"),
        }
    }
}

/// Writes why a run failed, as `de.txt: line 1: not the head of this kind of dictionary`.
impl Display for Failure {
    ghost use Rattle.command_line.specs.Failures.{failure_text};

    ghost output = { failure_text };

    fn fmt<W: fmt::Write>(&self, f: &mut Formatter<W>) -> fmt::Result {
        match self {
            Failure::Dictionary { path, cause } => write!(f, "{path}: {cause}"),
            Failure::NoDictionary { language } => {
                write!(
                    f,
                    "{language}: there is no dictionary of this language; hyphenate-languages makes those that it can"
                )
            }
            Failure::Exceptions { path, cause } => write!(f, "{path}: {cause}"),
            Failure::Refused { input, cause } => write!(f, "{input}: {cause}"),
            Failure::Reading { input } => write!(f, "{input}: can't be read"),
            Failure::Writing { output } => write!(f, "{output}: can't be written"),
            Failure::Output => f.write_str("the result can't be written"),
            Failure::Memory => f.write_str("no memory"),
        }
    }
}

/// Writes why a run of the program of this name failed, in a line, and returns its status.
///
/// An error of writing changes nothing of the status.
///
/// | Status | When |
/// |---|---|
/// | 3 | a dictionary or a list of exceptions can't be opened, read or accepted, or there is no dictionary |
/// | 4 | an input is refused |
/// | 5 | an input can't be read, or a result can't be written |
/// | 6 | memory was refused |
///
/// ```text
/// report(alloc, "hyphenate-lines", &Failure::Memory, &mut errors)      // hyphenate-lines: no memory
/// ```
pub fn report<E: Write>(
    alloc: Global,
    name: &str,
    failure: &Failure,
    errors: &mut Messages<E>,
) -> u8
    ensures { EndsBy name.now result (Tells E.contents errors.old errors.new) (Fails failure.now) }
{
    errors.write(alloc, &format_args!("{name}: {failure}\n"));
    match failure {
        Failure::Dictionary { .. } | Failure::NoDictionary { .. } | Failure::Exceptions { .. } => 3,
        Failure::Refused { .. } => 4,
        Failure::Reading { .. } | Failure::Writing { .. } | Failure::Output => 5,
        Failure::Memory => 6,
    }
}
