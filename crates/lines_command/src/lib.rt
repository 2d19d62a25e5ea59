//! The program `hyphenate-lines` without its `main`: its arguments, messages and statuses.
//!
//! It sets the paragraphs of texts in lines, by a dictionary of either kind.
#![tactic(auto)]

ghost use Rattle.std.specs.Prelude.{◌≡◌, Ok, Some, is_some, true};
ghost use Rattle.command_line.specs.About.{WritesHelp};
ghost use Rattle.command_line.specs.Endings.{EndsBy, Tells};
ghost use Rattle.command_line.specs.Statuses.{BeforeOutput};
ghost use Rattle.hyphenation_breaks.specs.Borrowed.{texts_now};
ghost use Rattle.lines_command.specs.Arguments.{parsed_args};
ghost use Rattle.lines_command.specs.Private.Requests.{parsed_request};
ghost use Rattle.lines_command.specs.Written.{EndsParsed, EndsUnlessAsked, asked_text};

mod request;
mod run;

use command_line::options::ReadError;
use command_line::{Failure, Messages, NamedFiles, ProgramSteps, ProgramTexts, VERSION};
use request::Request;
use run::run;
use std::alloc::Global;
use std::io::{Read, Write};

/// The name of the program.
pub const NAME: &str = "hyphenate-lines";

/// The usage, for `--help`. The arguments are read by the options that it has.
pub const USAGE: &str = "\
usage: hyphenate-lines [OPTION..] DICTIONARY [FILE..]
       hyphenate-lines [OPTION..] --lang CODE [FILE..]
       hyphenate-lines -h | --help
       hyphenate-lines --version
Writes texts in lines, with words broken where a dictionary says. Quotes,
items and heads of mails keep their form.
  DICTIONARY         a dictionary text, by its path, which has a / or a .; or
                     the language of one that hyphenate-languages made
  FILE               a text; standard input for -, or without FILE
  -l, --lang CODE    the language of the dictionary; then all operands are FILEs
  --exceptions FILE  words of your own, with hyphens where they may break
  --left N           at least N characters before the first break of a word
  --right N          at least N characters after its last break
  --width N          the columns of a line, 72 without it
  --even             lines of the least cost, and not as full as can be
  --price P          with --even, the cost of a hyphen
  --last N           with --even, the columns that a last line must have
  --ladder N         only with --even: the hyphens in a row, 1 to 255
  --indent TEXT      before each line of a paragraph
  --first TEXT       before its first line, in place of that of the others
  --plain            texts are paragraphs alone, with an empty line between two
";

/// The message if memory was refused.
pub const NO_MEMORY: &str = "hyphenate-lines: no memory\n";

// The program over files, with its arguments, and the folders in which dictionaries are searched.
#[derive(Clone, Copy)]
struct Lines<'w, F> {
    files: &'w F,
    args: &'w [&'w str],
    folders: &'w [&'w str],
}

impl<'w, F: NamedFiles, I: Read, O: Write> ProgramSteps<(), I, O> for Lines<'w, F> {
    type Request = Request<'w>;

    type Told = ();

    ghost args = { λ program. program.args.now };

    ghost is_request = { λ program request. parsed_args program.args.now ≡ Ok (parsed_request request) };

    ghost ends = { λ program end _ _ before after old new. EndsParsed (parsed_args program.args.now)
        (F.bytes program.files.now) (texts_now program.folders.now) I.remaining before after O.contents old new end };

    ghost leaves_input = { λ _ status. status ≡ 3 };

    fn args(&self) -> &[&str] {
        self.args
    }

    fn request(&self, alloc: Global) -> Result<Request<'w>, ReadError<'_>> {
        Request::from_args(alloc, self.args)
    }

    #[tactic(auto, using(crate::proofs::Runs::by_status))]
    fn run(
        &self,
        alloc: Global,
        request: Request<'w>,
        _store: &mut (),
        input: &mut I,
        output: &mut O,
    ) -> Result<(), Failure> {
        run(self.files, alloc, &request, self.folders, input, output)
    }
}

/// Does what the arguments ask for, and returns the status to end with.
///
/// The inputs are set one after the other. All of them are made before the first byte is written. A language is looked
/// for in `folders`.
///
/// | Status | When |
/// |---|---|
/// | 0 | it is done |
/// | 2 | an argument is refused |
/// | 3 | the dictionary or a list of exceptions can't be opened, read or accepted, or there is no dictionary |
/// | 4 | an input is not UTF-8, or a paragraph of it is too long |
/// | 5 | an input can't be read, or the result can't be written |
/// | 6 | memory was refused |
///
/// With any status but 0 exactly its message is written to `errors`, except if the text of `--help` or `--version`
/// can't be written. The output is as it was unless the status is 0, or the output can't be written. Standard input is
/// read only if it is one of the inputs, and not with status 3.
///
/// ```text
/// let args = ["--width", "40", "examples/firkin.txt", "letter.txt"];
/// answer(&rt, rt.alloc(), &args, &[], &mut rt.stdin(), &mut rt.stdout(), &mut errors)    // 0
/// ```
pub fn answer<F: NamedFiles, I: Read, O: Write, E: Write>(
    files: &F,
    alloc: Global,
    args: &[&str],
    folders: &[&str],
    input: &mut I,
    output: &mut O,
    errors: &mut Messages<E>,
) -> u8
    ensures help { WritesHelp NAME.now VERSION.now USAGE.now args.now (Some result) O.contents output.old output.new }
    ensures ended { EndsUnlessAsked args.now (F.bytes files.now) (texts_now folders.now)
        I.remaining input.old input.new (EndsBy NAME.now result (Tells E.contents errors.old errors.new))
        O.contents output.old output.new }
    ensures quiet { is_some (asked_text args.now) ≡ true → errors.new ≡ errors.old }
    ensures dictionary_first { result ≡ 3 → input.new ≡ input.old }
    ensures untouched { BeforeOutput result (output.new ≡ output.old) }
{
    let program = Lines {
        files,
        args,
        folders,
    };
    let texts = ProgramTexts {
        name: NAME,
        usage: USAGE,
    };
    command_line::answer(&program, &texts, alloc, &mut (), input, output, errors)
}
