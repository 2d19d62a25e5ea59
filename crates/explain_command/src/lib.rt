//! The program `hyphenate-explain` without its `main`: its arguments, messages and statuses.
//!
//! For each word it writes the patterns that occur in it, the values that they give, and the fact that decides.
#![tactic(auto)]

ghost use Rattle.std.specs.Prelude.{◌≡◌, Ok, Some, is_some, true};
ghost use Rattle.command_line.specs.About.{WritesHelp};
ghost use Rattle.command_line.specs.Endings.{EndsBy, Tells};
ghost use Rattle.command_line.specs.Statuses.{BeforeOutput};
ghost use Rattle.explain_command.specs.Arguments.{parsed_args};
ghost use Rattle.explain_command.specs.Endings.{EndsParsed, EndsUnasked, asked_text};
ghost use Rattle.explain_command.specs.Private.Requests.{parsed_request};

mod request;
mod run;

use command_line::options::ReadError;
use command_line::{Failure, Messages, NamedFiles, ProgramSteps, ProgramTexts, VERSION};
use request::Request;
pub use run::explained;
use run::run;
use std::alloc::Global;
use std::io::{Read, Write};

/// The name of the program.
pub const NAME: &str = "hyphenate-explain";

/// The usage, for `--help`. The arguments are read by the options that it has.
pub const USAGE: &str = "\
usage: hyphenate-explain [OPTION..] DICTIONARY [WORD..]
       hyphenate-explain [OPTION..] --lang CODE [WORD..]
       hyphenate-explain -h | --help
       hyphenate-explain --version
Shows why words break where they do: the patterns in each word, the values that
they give, and the fact that decides.
  DICTIONARY         a dictionary text, by its path, which has a / or a .; or
                     the language of one that hyphenate-languages made
  WORD               a word; the words of standard input without WORD
  -l, --lang CODE    the language of the dictionary; then all operands are WORDs
  --exceptions FILE  words of your own, with hyphens where they may break
  --left N           at least N characters before the first break of a word
  --right N          at least N characters after its last break
  --plain            lines for programs, in place of pictures
  --svg              a drawing in SVG, in place of pictures
";

/// The message if memory was refused.
pub const NO_MEMORY: &str = "hyphenate-explain: no memory\n";

// The program over files, with its arguments, and the folders in which dictionaries are searched.
#[derive(Clone, Copy)]
struct Explain<'w, F> {
    files: &'w F,
    args: &'w [&'w str],
    folders: &'w [&'w str],
}

impl<'w, F: NamedFiles, I: Read, O: Write> ProgramSteps<(), I, O> for Explain<'w, F> {
    type Request = Request<'w>;

    type Told = ();

    ghost args = { λ program. program.args.now };

    ghost is_request = { λ program request. parsed_args program.args.now ≡ Ok (parsed_request request) };

    ghost ends = { λ program end _ _ before after old new. EndsParsed (parsed_args program.args.now) (F.bytes program.files.now)
        program.folders.now (I.remaining before) (after ≡ before) O.contents old new end };

    ghost leaves_input = { λ _ status. status ≡ 3 };

    fn args(&self) -> &[&str] {
        self.args
    }

    fn request(&self, alloc: Global) -> Result<Request<'w>, ReadError<'_>> {
        Request::from_args(alloc, self.args)
    }

    fn run(
        &self,
        alloc: Global,
        request: Request<'w>,
        _store: &mut (),
        input: &mut I,
        output: &mut O,
    ) -> Result<(), Failure> {
        run(self.files, alloc, &request, self.folders, input, output)
    }
}

/// Does what the arguments ask for, and returns the status to end with.
///
/// The whole text is made before the first byte of it is written. A language is looked for in `folders`.
///
/// | Status | When |
/// |---|---|
/// | 0 | it is done |
/// | 2 | an argument is refused |
/// | 3 | the dictionary or a list of exceptions can't be opened, read or accepted, or there is no dictionary |
/// | 4 | standard input is not UTF-8 |
/// | 5 | standard input can't be read, or the result can't be written |
/// | 6 | memory was refused |
///
/// With any status but 0 exactly its message is written to `errors`, except if the text of `--help` or `--version` can't
/// be written. The output is as it was unless the status is 0, or the output can't be written. Standard input is read only
/// if no word is given, and not with status 3.
///
/// ```text
/// let args = ["examples/firkin.txt", "firkins"];
/// answer(&rt, rt.alloc(), &args, &[], &mut rt.stdin(), &mut rt.stdout(), &mut errors)    // 0
/// ```
pub fn answer<F: NamedFiles, I: Read, O: Write, E: Write>(
    files: &F,
    alloc: Global,
    args: &[&str],
    folders: &[&str],
    input: &mut I,
    output: &mut O,
    errors: &mut Messages<E>,
) -> u8
    ensures help { WritesHelp NAME.now VERSION.now USAGE.now args.now (Some result) O.contents output.old output.new }
    ensures ended { EndsUnasked args.now (F.bytes files.now) folders.now (I.remaining input.old)
        (input.new ≡ input.old) (EndsBy NAME.now result (Tells E.contents errors.old errors.new))
        O.contents output.old output.new }
    ensures quiet { is_some (asked_text args.now) ≡ true → errors.new ≡ errors.old }
    ensures dictionary_first { result ≡ 3 → input.new ≡ input.old }
    ensures untouched { BeforeOutput result (output.new ≡ output.old) }
{
    let program = Explain {
        files,
        args,
        folders,
    };
    let texts = ProgramTexts {
        name: NAME,
        usage: USAGE,
    };
    command_line::answer(&program, &texts, alloc, &mut (), input, output, errors)
}
