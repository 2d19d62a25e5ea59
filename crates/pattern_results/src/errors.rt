//! The errors of reading files of patterns.

use std::alloc::AllocError;
use std::fmt;

/// The fault of a line of a file.
#[derive(Clone, Copy, Debug, PartialEq, Eq)]
pub enum FileCause {
    /// A command or a group of TeX's within patterns or exceptions.
    Command,
    /// `^`, with which TeX files write characters of a font's encoding.
    Caret,
    /// An ASCII symbol that is allowed in no pattern, or in no exception.
    Symbol,
    /// Two digits, or two hyphens, in one place.
    TwoInOnePlace,
    /// A pattern has no character other than dots and digits.
    NoLetters,
    /// A pattern or an exception is not UTF-8; in a `.dic` in UTF-8, the text after line 1 is not.
    NotUtf8,
    /// `\input`: the patterns are in another file.
    Input,
    /// The group that begins on that line is not closed.
    Unclosed,
    /// Line 1 of a `.dic` names a charset that is not known here.
    Charset,
    /// A byte means no character in the charset that line 1 of a `.dic` names.
    NotInCharset,
    /// No number from 0 to 255 follows LEFTHYPHENMIN or RIGHTHYPHENMIN.
    Minimum,
    /// The file has no pattern and no exception.
    Nothing,
}

/// Writes what is wrong in the line, as `two digits or two hyphens in one place`.
impl fmt::Display for FileCause {
    ghost use Rattle.std.specs.Prelude.{Some};
    ghost use Rattle.pattern_results.specs.Messages.{fault_message};

    ghost output = { λ cause. Some (fault_message cause) };

    fn fmt<W: fmt::Write>(&self, f: &mut fmt::Formatter<W>) -> fmt::Result {
        f.write_str(match self {
            FileCause::Command => "a TeX command or group within patterns or exceptions",
            FileCause::Caret => "^, a character of a font's encoding: take the file in UTF-8",
            FileCause::Symbol => "a sign that stands in no pattern or exception",
            FileCause::TwoInOnePlace => "two digits or two hyphens in one place",
            FileCause::NoLetters => "a pattern without letters",
            FileCause::NotUtf8 => "not UTF-8",
            FileCause::Input => "\\input: give the files that have the patterns themselves",
            FileCause::Unclosed =>
                "the group of patterns or exceptions that begins here is not closed",
            FileCause::Charset => "no charset that is known here",
            FileCause::NotInCharset =>
                "a byte that stands for no character in the charset of line 1",
            FileCause::Minimum => "not a minimum, which is a number from 0 to 255",
            FileCause::Nothing => "no pattern and no exception in the file",
        })
    }
}

/// The error of reading one file.
#[derive(Drop)]
pub enum FileError {
    /// Out of memory.
    Memory,
    /// The file's first fault: the line, counted from 1, and its cause.
    OnLine(usize, FileCause),
}

impl From<AllocError> for FileError {
    ghost use Rattle.std.specs.Prelude.{◌≡◌};
    ghost use Rattle.pattern_results.specs.declared.errors.FileError.TheVariants.{Memory};

    ghost from_gives = { λ _ e. e ≡ Memory };

    fn from(_error: AllocError) -> FileError {
        FileError::Memory
    }
}

/// The error of making a dictionary of files.
#[derive(Clone, Copy, Debug, PartialEq, Eq)]
pub enum ConvertError {
    /// Out of memory.
    Memory,
    /// The first fault: the file, counted from 0, its line, counted from 1, and the cause.
    Fault {
        file: usize,
        line: usize,
        cause: FileCause,
    },
}

impl From<AllocError> for ConvertError {
    ghost use Rattle.std.specs.Prelude.{◌≡◌};
    ghost use Rattle.pattern_results.specs.declared.errors.ConvertError.TheVariants.{Memory};

    ghost from_gives = { λ _ e. e ≡ Memory };

    fn from(_error: AllocError) -> ConvertError {
        ConvertError::Memory
    }
}
