//! The program `hyphenate-canonical` without its `main`: its arguments, messages and statuses.
//!
//! It puts a dictionary text in order, of the kind that its first line names.
#![tactic(auto)]

ghost use Rattle.std.specs.Prelude.{◌≡◌, ◌⊎◌, true, is_some, Ok, Some, option_copied, OnOk, IfErr, IfOk};
ghost use Rattle.command_line.specs.About.{WritesHelp};
ghost use Rattle.command_line.specs.Endings.{EndsBy, Tells};
ghost use Rattle.command_line.specs.Reading.{IsReadError};
ghost use Rattle.command_line.specs.Statuses.{BeforeOutput};
ghost use Rattle.hyphenation_breaks.specs.Borrowed.{texts_now};
ghost use Rattle.canonical_command.specs.Canonical.{asked_text, asks_no_input, named_by, parsed_args};
ghost use Rattle.canonical_command.specs.Canonical.{EndsFor, EndsUnlessAsked, IsAsked, IsFailureFor, IsFailureOfLoading, Writes};
ghost use Rattle.canonical_command.specs.Private.Refusals.{IsRefusalOf};

use any_dictionary::AnyDictionary;
use command_line::dictionaries::load_dictionary;
use command_line::options::{BadArgument, Expected, ReadError, read};
use command_line::{Failure, Messages, NamedFiles, ProgramSteps, ProgramTexts, VERSION};
use hyphenation_load::{Error, Load};
use std::alloc::Global;
use std::io::{Read, Write};

/// The name of the program.
pub const NAME: &str = "hyphenate-canonical";

/// The usage, for `--help`.
pub const USAGE: &str = "\
usage: hyphenate-canonical [DICTIONARY]
       hyphenate-canonical --lang CODE
       hyphenate-canonical -h | --help
       hyphenate-canonical --version
Puts a dictionary text in order, of the kind that its first line names.
  DICTIONARY       a dictionary text, by its path, which has a / or a .; or the
                   language of one that hyphenate-languages made; standard input
                   without DICTIONARY
  -l, --lang CODE  the language of the dictionary, in place of DICTIONARY
";

/// The message if memory was refused.
pub const NO_MEMORY: &str = "hyphenate-canonical: no memory\n";

// Returns what a language or operands name, unless there is one operand too many. `None` means standard input.
fn named_by<'w>(
    language: Option<&'w str>,
    operands: &[&'w str],
) -> Result<Option<&'w str>, ReadError<'w>>
    ensures named { IfOk result (λ named.
        named_by (option_copied language.entry) (texts_now operands.now) ≡ Ok (option_copied named)) }
    ensures refused { IfErr result (IsReadError (named_by (option_copied language.entry) (texts_now operands.now))) }
{
    match (language, operands) {
        (named, []) => Ok(named),
        (None, [dictionary]) => Ok(Some(*dictionary)),
        (None, [_, other, ..]) | (Some(_), [other, ..]) => Err(ReadError::Bad(BadArgument {
            argument: *other,
            value: None,
            expected: Expected::NoMore,
        })),
    }
}

// Returns the path or the language that the arguments name.
fn parsed_args<'w>(alloc: Global, args: &'w [&'w str]) -> Result<Option<&'w str>, ReadError<'w>>
    ensures parsed { IfOk result (λ named. parsed_args args.now ≡ Ok (option_copied named)) }
    ensures refused { IfErr result (IsReadError (parsed_args args.now)) }
{
    let arguments = read(alloc, USAGE, args)?;
    named_by(arguments.last("--lang"), &arguments.operands)
}

// Returns why standard input gave no dictionary, as a failure of the program.
fn refused(alloc: Global, cause: Error) -> Failure
    ensures { IsRefusalOf cause result }
{
    let Ok(name) = String::from_str(alloc, "standard input") else {
        return Failure::Memory;
    };
    match cause {
        Error::Memory(_) => Failure::Memory,
        Error::IO(_) => Failure::Reading { input: name },
        cause => Failure::Dictionary { path: name, cause },
    }
}

// Returns the dictionary of a path or a language, or of standard input.
#[tactic(auto, using(crate::proofs::Failing::input_fails))]
fn load<F: NamedFiles, I: Read>(
    files: &F,
    alloc: Global,
    folders: &[&str],
    named: Option<&str>,
    input: &mut I,
) -> Result<AnyDictionary, Failure>
    ensures loaded { IfOk result (IsAsked (option_copied named.entry) (F.bytes files.now) folders.now
        (I.remaining input.old)) }
    ensures failure { IfErr result (IsFailureOfLoading (option_copied named.entry) (F.bytes files.now)
        folders.now (I.remaining input.old)) }
    ensures unread { is_some (option_copied named.entry) ≡ true → input.new ≡ input.old }
{
    if let Some(argument) = named {
        return load_dictionary(files, alloc, folders, argument);
    }
    match AnyDictionary::any_from_reader(alloc, input) {
        Ok(dictionary) => Ok(dictionary),
        Err(cause) => Err(refused(alloc, cause)),
    }
}

// Writes the canonical text of the dictionary of a path or a language, or of standard input.
fn put_in_order<F: NamedFiles, I: Read, O: Write>(
    files: &F,
    alloc: Global,
    folders: &[&str],
    named: Option<&str>,
    input: &mut I,
    output: &mut O,
) -> Result<(), Failure>
    ensures written { OnOk result (Writes (option_copied named.entry) (F.bytes files.now) folders.now
        (I.remaining input.old) O.contents output.old output.new) }
    ensures failure { IfErr result (IsFailureFor (option_copied named.entry) (F.bytes files.now) folders.now
        (I.remaining input.old)) }
    ensures unread { is_some (option_copied named.entry) ≡ true → input.new ≡ input.old }
    ensures untouched { IfErr result (λ failure. (failure ≡ Failure.Output) ⊎ (output.new ≡ output.old)) }
{
    let dictionary = load(files, alloc, folders, named, input)?;
    match dictionary.to_writer(alloc, output) {
        Ok(()) => Ok(()),
        Err(Error::Memory(_)) => Err(Failure::Memory),
        Err(_) => Err(Failure::Output),
    }
}

// The program over files, with its arguments, and the folders in which dictionaries are searched.
#[derive(Clone, Copy)]
struct Canonical<'w, F> {
    files: &'w F,
    args: &'w [&'w str],
    folders: &'w [&'w str],
}

impl<'w, F: NamedFiles, I: Read, O: Write> ProgramSteps<(), I, O> for Canonical<'w, F> {
    type Request = Option<&'w str>;

    type Told = ();

    ghost args = { λ program. program.args.now };

    ghost is_request = { λ program named. parsed_args program.args.now ≡ Ok (option_copied named) };

    ghost ends = { λ program end _ _ before after old new. EndsFor (parsed_args program.args.now)
        (F.bytes program.files.now) program.folders.now (I.remaining before) O.contents old new end };

    ghost leaves_input = { λ program _. asks_no_input (parsed_args program.args.now) ≡ true };

    fn args(&self) -> &[&str] {
        self.args
    }

    fn request(&self, alloc: Global) -> Result<Option<&'w str>, ReadError<'_>> {
        parsed_args(alloc, self.args)
    }

    fn run(
        &self,
        alloc: Global,
        named: Option<&'w str>,
        _store: &mut (),
        input: &mut I,
        output: &mut O,
    ) -> Result<(), Failure> {
        put_in_order(self.files, alloc, self.folders, named, input, output)
    }
}

/// Does what the arguments ask for, and returns the status to end with.
///
/// The whole text is made before the first byte of it is written. A language is looked for in `folders`.
///
/// | Status | When |
/// |---|---|
/// | 0 | it is done |
/// | 2 | an argument is refused |
/// | 3 | the dictionary can't be opened, read or accepted, or there is none of the language |
/// | 5 | standard input can't be read, or the result can't be written |
/// | 6 | memory was refused |
///
/// With any status but 0 exactly its message is written to `errors`, except if the text of `--help` or `--version` can't
/// be written. The output is as it was unless the status is 0, or the output can't be written. Standard input is read only
/// if no dictionary is named.
///
/// ```text
/// answer(&rt, rt.alloc(), &["en-us.txt"], &[], &mut rt.stdin(), &mut rt.stdout(), &mut errors)    // 0
/// ```
pub fn answer<F: NamedFiles, I: Read, O: Write, E: Write>(
    files: &F,
    alloc: Global,
    args: &[&str],
    folders: &[&str],
    input: &mut I,
    output: &mut O,
    errors: &mut Messages<E>,
) -> u8
    ensures help { WritesHelp NAME.now VERSION.now USAGE.now args.now (Some result) O.contents output.old output.new }
    ensures ended { EndsUnlessAsked args.now (F.bytes files.now) folders.now (I.remaining input.old)
        (EndsBy NAME.now result (Tells E.contents errors.old errors.new)) O.contents output.old output.new }
    ensures quiet { is_some (asked_text args.now) ≡ true → errors.new ≡ errors.old }
    ensures unread { asks_no_input (parsed_args args.now) ≡ true → input.new ≡ input.old }
    ensures untouched { BeforeOutput result (output.new ≡ output.old) }
{
    let program = Canonical {
        files,
        args,
        folders,
    };
    let texts = ProgramTexts {
        name: NAME,
        usage: USAGE,
    };
    command_line::answer(&program, &texts, alloc, &mut (), input, output, errors)
}
