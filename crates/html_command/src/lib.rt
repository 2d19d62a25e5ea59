//! The program `hyphenate-html` without its `main`: its arguments, messages and statuses.
//!
//! It puts a mark into pages where the words of their text may be broken, and leaves all else as it is. Or it takes soft
//! hyphens out.
#![tactic(auto)]

ghost use Rattle.std.specs.Prelude.{◌≡◌, true, Ok, Some, is_some};
ghost use Rattle.command_line.specs.About.{WritesHelp};
ghost use Rattle.command_line.specs.Endings.{EndsBy, Tells};
ghost use Rattle.command_line.specs.Statuses.{BeforeOutput};
ghost use Rattle.hyphenation_breaks.specs.Borrowed.{texts_now};
ghost use Rattle.html_command.specs.Arguments.{parsed_args};
ghost use Rattle.html_command.specs.Private.Requests.{noted_text, parsed_task};
ghost use Rattle.html_command.specs.Written.{EndsParsed, EndsUnlessAsked, asked_text};

mod dictionaries;
mod notes;
mod request;
mod run;
mod varieties;

use command_line::options::ReadError;
use command_line::{Failure, Messages, NamedFiles, Notes, ProgramSteps, ProgramTexts, VERSION};
use notes::{PageNote, write_notes};
use request::{Request, Task};
use run::run;
use std::alloc::Global;
use std::io::{Read, Write};
pub use text_results::files::{Recorded, ReplaceFiles};
use text_results::removal::remove;

/// A call of the program: its arguments, and the folders in which dictionaries are searched that no path names.
#[derive(Clone, Copy)]
pub struct Call<'w> {
    /// The arguments.
    pub args: &'w [&'w str],
    /// The folders.
    pub folders: &'w [&'w str],
}

/// The name of the program.
pub const NAME: &str = "hyphenate-html";

/// The usage, for `--help`. The arguments are read by the options that it has.
pub const USAGE: &str = "\
usage: hyphenate-html [OPTION..] [FILE..]
       hyphenate-html --remove [OPTION..] [FILE..]
       hyphenate-html -h | --help
       hyphenate-html --version
Writes HTML or XHTML pages with soft hyphens in the words of their text.
  FILE                    a page; standard input for -, or without FILE
  -l, --lang CODE         the language of text for which a page names none
  --dictionary CODE=PATH  the dictionary of a language, once for each. Without
                          it, those that hyphenate-languages made
  --dictionaries FOLDER   the folder in which these are
  --exceptions FILE       words of your own, with hyphens where they may break
  --left N                at least N characters before the first break of a word
  --right N               at least N characters after its last break
  --mark MARK             in place of the soft hyphen
  --class CLASS           elements of this class are left alone, in place of
                          those of the class donthyphenate
  --min-word N            shorter words are left alone; N counts characters
  --skip-capitals         words that begin with a capital are left alone
  --remove                soft hyphens of the text are taken out, as character
                          references too, and none are put in
  -o, --output FILE       the results go into this file, which is replaced
  -i, --in-place          each FILE is replaced by its result
  --quiet                 no notes on pages that are left as they are
Of an extended dictionary the breaks that change no letter are used.
";

/// The message if memory was refused.
pub const NO_MEMORY: &str = "hyphenate-html: no memory\n";

// The notes of a task that is done: those on pages that got marks. There are none where soft hyphens were taken out.
#[derive(Drop)]
enum Noted<'w> {
    Marked {
        request: Request<'w>,
        notes: Vec<PageNote>,
    },
    Removed,
}

impl<'w> Notes for Noted<'w> {
    ghost use Rattle.html_command.specs.Private.Requests.{noted_text};

    ghost text = { noted_text };

    fn tell<E: Write>(&self, alloc: Global, errors: &mut Messages<E>) {
        match self {
            Noted::Marked { request, notes } => {
                write_notes(alloc, NAME, &request.inputs, notes, errors);
            }
            Noted::Removed => {}
        }
    }
}

// The program over files, with its call.
#[derive(Clone, Copy)]
struct Html<'w, F> {
    files: &'w F,
    call: Call<'w>,
}

impl<'w, F: NamedFiles, S: ReplaceFiles, I: Read, O: Write> ProgramSteps<S, I, O> for Html<'w, F> {
    type Request = Task<'w>;

    type Told = Noted<'w>;

    ghost args = { λ program. program.call.args.now };

    ghost is_request = { λ program task. parsed_args program.call.args.now ≡ Ok (parsed_task task) };

    ghost ends = { λ program end old_files new_files before after old new. EndsParsed (parsed_args program.call.args.now)
        (F.bytes program.files.now) (texts_now program.call.folders.now) I.remaining before after
        O.contents old new S.written old_files new_files end };

    ghost leaves_input = { λ _ _. ⊥ };

    fn args(&self) -> &[&str] {
        self.call.args
    }

    fn request(&self, alloc: Global) -> Result<Task<'w>, ReadError<'_>> {
        Task::from_args(alloc, self.call.args)
    }

    fn run(
        &self,
        alloc: Global,
        task: Task<'w>,
        store: &mut S,
        input: &mut I,
        output: &mut O,
    ) -> Result<Noted<'w>, Failure> {
        let folders = self.call.folders;
        match task {
            Task::Mark(request) => {
                match run(self.files, store, alloc, &request, folders, input, output) {
                    Ok(notes) => Ok(Noted::Marked { request, notes }),
                    Err(failure) => Err(failure),
                }
            }
            Task::Remove(removal) => {
                match remove(self.files, store, alloc, &removal, input, output) {
                    Ok(()) => Ok(Noted::Removed),
                    Err(refused) => Err(refused),
                }
            }
        }
    }
}

/// Does what the arguments of a call ask for, and returns the status to end with.
///
/// The pages are read by `files` and `input`. Their results go to `output`, one after the other, or into files that
/// `store` replaces. All of them are made before the first byte is written. Dictionaries that the arguments don't give are
/// searched in the folders of the call, for each page those of the languages that it names. The dictionary of a language is
/// opened once, however many pages name it.
///
/// | Status | When |
/// |---|---|
/// | 0 | it is done |
/// | 2 | an argument is refused |
/// | 3 | a dictionary or a list of exceptions can't be opened, read or accepted |
/// | 4 | a page is not UTF-8 |
/// | 5 | a page can't be read, or a result can't be written |
/// | 6 | memory was refused |
///
/// With any status but 0 exactly its message is written to `errors`, except if the text of `--help` or `--version` can't
/// be written. With status 0 `errors` gets a note on each language of a page for which there was no dictionary, and on each
/// page that is not read to its end. The output is as it was unless the status is 0, or the output can't be written. Standard
/// input is read only if it is one of the pages.
///
/// ```text
/// let call = Call { args: &["-i", "--dictionary", "en=en-us.txt", "chapter.html"], folders: &[] };
/// answer(&rt, &mut &rt, rt.alloc(), &call, &mut rt.stdin(), &mut rt.stdout(), &mut errors)    // 0
/// ```
pub fn answer<F: NamedFiles, S: ReplaceFiles, I: Read, O: Write, E: Write>(
    files: &F,
    store: &mut S,
    alloc: Global,
    call: &Call<'_>,
    input: &mut I,
    output: &mut O,
    errors: &mut Messages<E>,
) -> u8
    ensures help { WritesHelp NAME.now VERSION.now USAGE.now call.now.args.now (Some result) O.contents output.old output.new }
    ensures ended { EndsUnlessAsked call.now.args.now (F.bytes files.now) (texts_now call.now.folders.now) I.remaining input.old input.new
        (EndsBy NAME.now result (Tells E.contents errors.old errors.new)) O.contents output.old output.new
        S.written store.old store.new }
    ensures quiet { is_some (asked_text call.now.args.now) ≡ true → errors.new ≡ errors.old }
    ensures untouched { BeforeOutput result (output.new ≡ output.old) }
{
    let program = Html { files, call: *call };
    let texts = ProgramTexts {
        name: NAME,
        usage: USAGE,
    };
    command_line::answer(&program, &texts, alloc, store, input, output, errors)
}
