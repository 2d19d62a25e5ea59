//! The program `hyphenate-text` without its `main`: its arguments, messages and statuses.
//!
//! It puts marks into texts, plain or in Markdown, where their words may be broken, and leaves all else as it is. Or it
//! takes soft hyphens out.
#![tactic(auto)]

ghost use Rattle.std.specs.Prelude.{◌≡◌, true, Ok, Some, is_some};
ghost use Rattle.command_line.specs.About.{WritesHelp};
ghost use Rattle.command_line.specs.Endings.{EndsBy, Tells};
ghost use Rattle.command_line.specs.Statuses.{BeforeOutput};
ghost use Rattle.hyphenation_breaks.specs.Borrowed.{texts_now};
ghost use Rattle.text_command.specs.Arguments.{parsed_args};
ghost use Rattle.text_command.specs.Private.Requests.{parsed_task};
ghost use Rattle.text_command.specs.Written.{EndsParsed, EndsUnlessAsked, asked_text};

mod request;
mod run;

use command_line::options::ReadError;
use command_line::{Failure, Messages, NamedFiles, ProgramSteps, ProgramTexts, VERSION};
use request::Task;
use run::run;
use std::alloc::Global;
use std::io::{Read, Write};
pub use text_results::files::{Recorded, ReplaceFiles};
use text_results::removal::remove;

/// A call of the program: its arguments, and the folders in which dictionaries are searched that no path names.
#[derive(Clone, Copy)]
pub struct Call<'w> {
    /// The arguments.
    pub args: &'w [&'w str],
    /// The folders.
    pub folders: &'w [&'w str],
}

/// The name of the program.
pub const NAME: &str = "hyphenate-text";

/// The usage, for `--help`. The arguments are read by the options that it has.
pub const USAGE: &str = "\
usage: hyphenate-text [OPTION..] DICTIONARY [FILE..]
       hyphenate-text [OPTION..] --lang CODE [FILE..]
       hyphenate-text --remove [OPTION..] [FILE..]
       hyphenate-text -h | --help
       hyphenate-text --version
Writes plain texts with soft hyphens where a dictionary breaks their words.
  DICTIONARY         a dictionary text, by its path, which has a / or a .; or
                     the language of one that hyphenate-languages made
  FILE               a text; standard input for -, or without FILE
  -l, --lang CODE    the language of the dictionary; then all operands are FILEs
  --exceptions FILE  words of your own, with hyphens where they may break
  --left N           at least N characters before the first break of a word
  --right N          at least N characters after its last break
  --mark MARK        in place of the soft hyphen
  --min-word N       shorter words are left alone; N counts characters
  --skip-capitals    words that begin with a capital are left alone
  --markdown         each FILE is Markdown; so is one whose name ends in .md
                     or .markdown
  --remove           soft hyphens are taken out, and none are put in; then all
                     operands are FILEs
  -o, --output FILE  the results go into this file, which is replaced
  -i, --in-place     each FILE is replaced by its result
Of an extended dictionary the breaks that change no letter are used. Addresses,
paths, names of files, and what has a soft hyphen, are left alone. So are code,
targets of links, HTML and front matter in Markdown.
";

/// The message if memory was refused.
pub const NO_MEMORY: &str = "hyphenate-text: no memory\n";

// The program over files, with its call.
#[derive(Clone, Copy)]
struct Text<'w, F> {
    files: &'w F,
    call: Call<'w>,
}

impl<'w, F: NamedFiles, S: ReplaceFiles, I: Read, O: Write> ProgramSteps<S, I, O> for Text<'w, F> {
    type Request = Task<'w>;

    type Told = ();

    ghost args = { λ program. program.call.args.now };

    ghost is_request = { λ program task. parsed_args program.call.args.now ≡ Ok (parsed_task task) };

    ghost ends = { λ program end old_files new_files before after old new. EndsParsed (parsed_args program.call.args.now)
        (F.bytes program.files.now) (texts_now program.call.folders.now) I.remaining before after
        O.contents old new S.written old_files new_files end };

    ghost leaves_input = { λ _ status. status ≡ 3 };

    fn args(&self) -> &[&str] {
        self.call.args
    }

    fn request(&self, alloc: Global) -> Result<Task<'w>, ReadError<'_>> {
        Task::from_args(alloc, self.call.args)
    }

    #[tactic(auto, using(crate::proofs::Runs::by_status))]
    fn run(
        &self,
        alloc: Global,
        task: Task<'w>,
        store: &mut S,
        input: &mut I,
        output: &mut O,
    ) -> Result<(), Failure> {
        let folders = self.call.folders;
        match task {
            Task::Mark(request) => run(self.files, store, alloc, &request, folders, input, output),
            Task::Remove(removal) => remove(self.files, store, alloc, &removal, input, output),
        }
    }
}

/// Does what the arguments of a call ask for, and returns the status to end with.
///
/// The texts are read by `files` and `input`. Their results go to `output`, one after the other, or into files that
/// `store` replaces. All of them are made before the first byte is written. A language is looked for in
/// the folders of the call. A text is read as Markdown by the option `--markdown`, or if its name ends in `.md` or
/// `.markdown`.
///
/// | Status | When |
/// |---|---|
/// | 0 | it is done |
/// | 2 | an argument is refused |
/// | 3 | the dictionary or a list of exceptions can't be opened, read or accepted, or there is no dictionary |
/// | 4 | a text is not UTF-8 |
/// | 5 | a text can't be read, or a result can't be written |
/// | 6 | memory was refused |
///
/// With any status but 0 exactly its message is written to `errors`, except if the text of `--help` or `--version` can't
/// be written. The output is as it was unless the status is 0, or the output can't be written. Standard input is read only
/// if it is one of the texts, and not with status 3.
///
/// ```text
/// let call = Call { args: &["--in-place", "examples/firkin.txt", "letter.txt"], folders: &[] };
/// answer(&rt, &mut &rt, rt.alloc(), &call, &mut rt.stdin(), &mut rt.stdout(), &mut errors)    // 0
/// ```
pub fn answer<F: NamedFiles, S: ReplaceFiles, I: Read, O: Write, E: Write>(
    files: &F,
    store: &mut S,
    alloc: Global,
    call: &Call<'_>,
    input: &mut I,
    output: &mut O,
    errors: &mut Messages<E>,
) -> u8
    ensures help { WritesHelp NAME.now VERSION.now USAGE.now call.now.args.now (Some result) O.contents output.old output.new }
    ensures ended { EndsUnlessAsked call.now.args.now (F.bytes files.now) (texts_now call.now.folders.now) I.remaining input.old input.new
        (EndsBy NAME.now result (Tells E.contents errors.old errors.new)) O.contents output.old output.new
        S.written store.old store.new }
    ensures quiet { is_some (asked_text call.now.args.now) ≡ true → errors.new ≡ errors.old }
    ensures dictionary_first { result ≡ 3 → input.new ≡ input.old }
    ensures untouched { BeforeOutput result (output.new ≡ output.old) }
{
    let program = Text { files, call: *call };
    let texts = ProgramTexts {
        name: NAME,
        usage: USAGE,
    };
    command_line::answer(&program, &texts, alloc, store, input, output, errors)
}
