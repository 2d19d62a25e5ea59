//! The grammar of dictionary texts: forms, lines, tokens and patterns, and why a text is refused.
//!
//! The definitions, in `specs/`, say what each line spells, which test it fails first, and which dictionary an accepted
//! text gives. [`form`] has kinds and versions, [`lines`] lines and numbers, [`tokens`] and [`pattern`] tokens, and
//! [`laws`] what is true of all of them. Two crates use this one: `hyphenation_reader` makes a dictionary of a text,
//! and `hyphenation_writer` writes the canonical text of a dictionary.
#![tactic(auto)]

mod examples;
pub mod form;
pub mod laws;
pub mod lines;
pub mod pattern;
pub mod tokens;

use hyphenation_breaks::language::Language;
pub use lines::number_of;
use std::alloc::AllocError;
use std::{fmt, io};
use thiserror::Error;

/// The tests of a line of a dictionary text, in the order in which they are tried.
/// A refusal names the first that fails.
#[derive(Clone, Copy, Debug, PartialEq, Eq)]
pub enum Cause {
    /// The bytes of the line are not UTF-8.
    NotUtf8,
    /// Line 1 is not a head of the kind of dictionary that was asked for.
    Header,
    /// Line 2 names no language.
    Language,
    /// Line 3 gives no two minima from 0 to 255.
    Minima,
    /// A later line is not empty, and begins with none of `#`, `p ` and `e `.
    UnknownLine,
    /// A token is empty, holds an unescaped carriage return, or a backslash that begins no escape there.
    Token,
    /// In a text of version 2 a brace opens or closes no value from 10 to 255.
    Value,
    /// Two values of a pattern follow one another without a letter between them.
    Pattern,
    /// The key of a pattern has no character other than a dot.
    NoLetters,
    /// A part that must be a number below 2^64 is none.
    Number,
    /// The places, in bytes, do not ascend, or one is no character boundary of the key or word.
    Place,
    /// A change is not allowed there, has not all parts, or reaches past the key or word.
    Change,
    /// An earlier line has the same key.
    RepeatedPattern,
    /// An earlier line has the same word.
    RepeatedException,
}

impl fmt::Display for Cause {
    ghost use Rattle.std.specs.Prelude.{Some};
    ghost use Rattle.hyphenation_grammar.specs.Messages.{message};

    ghost output = { λ cause. Some (message cause) };

    ghost styled_output = { λ cause _. Some (message cause) };

    fn fmt<W: fmt::Write>(&self, f: &mut fmt::Formatter<W>) -> fmt::Result {
        f.write_str(match self {
            Cause::NotUtf8 => "not UTF-8",
            Cause::Header => "not the head of this kind of dictionary",
            Cause::Language => "not a language line",
            Cause::Minima => "not a minima line",
            Cause::UnknownLine => "unknown line",
            Cause::Token => "bad token",
            Cause::Value => "bad value",
            Cause::Pattern => "two values in one place",
            Cause::NoLetters => "a pattern without letters",
            Cause::Number => "bad number",
            Cause::Place => "bad place",
            Cause::Change => "bad change",
            Cause::RepeatedPattern => "repeated pattern",
            Cause::RepeatedException => "repeated exception",
        })
    }
}

/// Why a dictionary was not loaded, or not written.
#[derive(Debug, Drop, Error)]
pub enum Error {
    /// The text was read and is refused: the number of its first bad line, from 1, and the first test that this fails.
    Deserialization { line: usize, cause: Cause },
    /// Opening, reading or writing failed. Loading never returns it with the kind `OutOfMemory`; writing and
    /// `From<io::Error>` may.
    IO(io::Error),
    /// The text is accepted, but its language is not the one asked for.
    LanguageMismatch { expected: Language, found: Language },
    /// Out of memory.
    Memory(AllocError),
}

impl fmt::Display for Error {
    ghost use Rattle.hyphenation_grammar.specs.Messages.{error_text};

    ghost output = { error_text };

    fn fmt<W: fmt::Write>(&self, f: &mut fmt::Formatter<W>) -> fmt::Result {
        match self {
            Error::Deserialization { line, cause } => write!(f, "line {line}: {cause}"),
            Error::IO(error) => write!(f, "{error}"),
            Error::LanguageMismatch { expected, found } => write!(
                f,
                "Language mismatch: attempted to load a dictionary for `{expected}`, but found\na dictionary for `{found}` instead."
            ),
            Error::Memory(_) => f.write_str("no memory"),
        }
    }
}

impl From<io::Error> for Error {
    ghost use Rattle.std.specs.Prelude.{◌≡◌};
    ghost use Rattle.hyphenation_grammar.specs.declared.Error.TheVariants.{IO};

    ghost from_gives = { λ error e. e ≡ IO error };

    fn from(error: io::Error) -> Error {
        Error::IO(error)
    }
}

/// The result of loading and writing dictionaries.
pub type Result<T> = std::result::Result<T, Error>;
