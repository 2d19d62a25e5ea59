//! The program `hyphenate` without its `main`: its arguments, messages and statuses.
//!
//! By a dictionary it writes a text with marks at the breaks of its words, its lines, or the score of a word.
#![tactic(auto)]

ghost use Rattle.std.specs.Prelude.{◌≡◌, ◌≢◌, List, ℕ, Err, None, Some, Option, OnOk, IfSome, MatchOption};
ghost use Rattle.hyphenation_load.specs.Load.{AppendsTo};
ghost use Rattle.std.specs.IoError.{error_kind};
ghost use Rattle.hyphenation.specs.Engine.{BeforeWriting, IsUnwritten};
ghost use Rattle.command_line.specs.Endings.{Tells};
ghost use Rattle.command_line.specs.Statuses.{BeforeOutput};
ghost use Rattle.hyphenate_command.specs.Arguments.{parsed_args, score_args, text_args, lines_args};
ghost use Rattle.hyphenate_command.specs.Messages.{failure_message};
ghost use Rattle.hyphenate_command.specs.Statuses.{status_of, EndsFor, BeforeText, EndsWith, JudgesFile, WritesFor, WritesAnswer};
ghost use Rattle.hyphenate_command.specs.Private.Requests.{parsed_task, parsed_request};

use command_line::{Messages, NamedFiles, done};
use hyphenation::Language;
use hyphenation::engine::{Kind, Marking, RunError, number_of, run, run_score};
use hyphenation::load::Error;
use hyphenation_load::is_out_of_memory;
use linefill::run_fill;
use std::alloc::Global;
use std::io;
use std::io::{ErrorKind, Read, Write};

/// The usage, for arguments of no form.
pub const USAGE: &str =
    "usage: hyphenate KIND CODE PATH MARK [EDIT..]\n       hyphenate score KIND CODE PATH WORD\n       hyphenate fill CODE PATH COLUMNS\n";

/// The message if memory was refused.
pub const NO_MEMORY: &str = "hyphenate: no memory\n";

// The task that a dictionary is for.
#[derive(Drop)]
enum Task<'w> {
    // The score of a word.
    Score {
        kind: Kind,
        word: &'w str,
    },
    // The input with a mark at the breaks of its words, after edits of the exceptions.
    Text {
        kind: Kind,
        mark: &'w str,
        edits: &'w [&'w str],
    },
    // The lines of the input, of at most that many columns, by a standard dictionary.
    Lines {
        columns: usize,
    },
}

// The arguments as parsed: a task, and the dictionary for it.
#[derive(Drop)]
struct Request<'w> {
    language: Language,
    path: &'w str,
    task: Task<'w>,
}

impl<'w> Request<'w> {
    // The request, if the arguments have one of the forms. A first argument `score` always chooses the score, and
    // `fill` the lines.
    fn from_args(args: &'w [&'w str]) -> Option<Request<'w>>
        ensures { MatchOption result (parsed_args args.now ≡ None)
            (λ request. parsed_args args.now ≡ Some (parsed_request request)) }
    {
        match args.split_first() {
            Some((form, rest)) if *form == "score" => Self::for_score(rest),
            Some((form, rest)) if *form == "fill" => Self::for_lines(rest),
            _ => Self::for_text(args),
        }
    }

    // The request of arguments `KIND CODE PATH WORD`.
    fn for_score(args: &[&'w str]) -> Option<Request<'w>>
        ensures { MatchOption result (score_args args.now ≡ None)
            (λ request. score_args args.now ≡ Some (parsed_request request)) }
    {
        match args {
            [kind, code, path, word] => Some(Request {
                task: Task::Score {
                    kind: Kind::from_name(kind)?,
                    word,
                },
                language: Language::from_code(code)?,
                path,
            }),
            _ => None,
        }
    }

    // The request of arguments `KIND CODE PATH MARK [EDIT..]`.
    fn for_text(args: &'w [&'w str]) -> Option<Request<'w>>
        ensures { MatchOption result (text_args args.now ≡ None)
            (λ request. text_args args.now ≡ Some (parsed_request request)) }
    {
        match args {
            [kind, code, path, mark, edits @ ..] => Some(Request {
                task: Task::Text {
                    kind: Kind::from_name(kind)?,
                    mark,
                    edits,
                },
                language: Language::from_code(code)?,
                path,
            }),
            _ => None,
        }
    }

    // The request of arguments `CODE PATH COLUMNS`, where COLUMNS is a number as dictionary texts have it.
    fn for_lines(args: &[&'w str]) -> Option<Request<'w>>
        ensures { MatchOption result (lines_args args.now ≡ None)
            (λ request. lines_args args.now ≡ Some (parsed_request request)) }
    {
        match args {
            [code, path, columns] => Some(Request {
                task: Task::Lines {
                    columns: number_of(columns.as_bytes())?,
                },
                language: Language::from_code(code)?,
                path,
            }),
            _ => None,
        }
    }
}

// Opens the dictionary, and does the task.
fn run_request<F: NamedFiles, I: Read, O: Write>(
    files: &F,
    alloc: Global,
    request: &Request<'_>,
    input: &mut I,
    output: &mut O,
) -> Result<(), RunError>
    ensures dictionary { JudgesFile (parsed_request request.now) (F.bytes files.now) result }
    ensures written { OnOk result (WritesFor (parsed_request request.now) (F.bytes files.now) (I.remaining input.old)
        O.contents output.old output.new) }
    ensures there { OnOk result (F.bytes files.now request.now.path.now ≢ Some None) }
    ensures ended { EndsFor (parsed_task request.now.task) (I.remaining input.old) result }
    ensures unread { BeforeText (parsed_task request.now.task) result (input.new ≡ input.old) }
    ensures untouched { BeforeWriting result (output.new ≡ output.old) }
    ensures appends_some_text { OnOk result ((text : List ℕ) × AppendsTo O.contents output.old output.new text) }
{
    let mut dictionary = files.open(request.path).map_err(opening_error)?;
    let language = request.language;
    match request.task {
        Task::Score { kind, word } => run_score(
            alloc,
            kind,
            language,
            word,
            &mut dictionary,
            output,
        ),
        Task::Text { kind, mark, edits } => run(
            alloc,
            kind,
            language,
            Marking { edits, mark },
            &mut dictionary,
            input,
            output,
        ),
        Task::Lines { columns } => run_fill(
            alloc,
            language,
            columns,
            &mut dictionary,
            input,
            output,
        ),
    }
}

// An error of opening the dictionary as an error of the run.
fn opening_error(e: io::Error) -> RunError
    ensures out_of_memory { error_kind e ≡ ErrorKind.OutOfMemory → result ≡ RunError.Memory }
    ensures other { error_kind e ≢ ErrorKind.OutOfMemory → result ≡ RunError.Dictionary (Error.IO e) }
    ensures unwritten { IsUnwritten result }
{
    if is_out_of_memory(&e) {
        return RunError::Memory;
    }
    RunError::Dictionary(Error::IO(e))
}

// Writes why a run failed, by the path of its dictionary, and returns its status. An error of writing does not change that.
fn report<E: Write>(alloc: Global, path: &str, error: &RunError, errors: &mut Messages<E>) -> u8
    ensures status { result ≡ status_of (Err error.now) }
    ensures told { IfSome (failure_message path.now error.now) (Tells E.contents errors.old errors.new) }
{
    match error {
        RunError::Dictionary(cause) => {
            errors.write(alloc, &format_args!("hyphenate: {path}: {cause}\n"));
            3
        }
        RunError::Edit(number) => {
            errors.write(
                alloc,
                &format_args!("hyphenate: edit {number} is refused\n"),
            );
            2
        }
        RunError::TextNotUtf8 => {
            errors.write(alloc, &"hyphenate: the text is not UTF-8\n");
            4
        }
        RunError::Input(_) => {
            errors.write(alloc, &"hyphenate: the text can't be read\n");
            5
        }
        RunError::Output(_) => {
            errors.write(alloc, &"hyphenate: the result can't be written\n");
            5
        }
        RunError::Memory => {
            errors.write(alloc, &NO_MEMORY);
            6
        }
    }
}

/// Does what the arguments ask for, and returns the status to end with.
///
/// | Status | When |
/// |---|---|
/// | 0 | it is done |
/// | 2 | the arguments have no form of the usage, or an edit is refused |
/// | 3 | the dictionary can't be opened, read or accepted, or is of another language |
/// | 4 | the text is not UTF-8 |
/// | 5 | the text can't be read, or the result can't be written |
/// | 6 | memory was refused |
///
/// With any status but 0 exactly its message is written to `errors`. The output is as it was unless the status is 0 or 5.
///
/// ```text
/// let args = ["score", "standard", "en-gb", "examples/firkin.txt", "firkins"];
/// answer(&rt, rt.alloc(), &args, &mut rt.stdin(), &mut rt.stdout(), &mut errors)    // 0, and 0 2 5 1 0 0
/// ```
pub fn answer<F: NamedFiles, I: Read, O: Write, E: Write>(
    files: &F,
    alloc: Global,
    args: &[&str],
    input: &mut I,
    output: &mut O,
    errors: &mut Messages<E>,
) -> u8
    ensures usage { parsed_args args.now ≡ None → (result ≡ 2) × (input.new ≡ input.old)
        × Tells E.contents errors.old errors.new USAGE.now }
    ensures ended { IfSome (parsed_args args.now) (λ parsed. EndsWith parsed (F.bytes files.now) (I.remaining input.old)
        (input.new ≡ input.old) result (Tells E.contents errors.old errors.new)) }
    ensures written { result ≡ 0 → WritesAnswer args.now (F.bytes files.now) (I.remaining input.old) O.contents
        output.old output.new }
    ensures there { result ≡ 0 → IfSome (parsed_args args.now) (λ parsed. F.bytes files.now parsed.path ≢ Some None) }
    ensures untouched { BeforeOutput result (output.new ≡ output.old) }
    ensures appends_some_text { result ≡ 0 → (text : List ℕ) × AppendsTo O.contents output.old output.new text }
{
    let Some(request) = Request::from_args(args) else {
        errors.write(alloc, &USAGE);
        return 2;
    };
    match run_request(files, alloc, &request, input, output) {
        Ok(()) => done(errors),
        Err(error) => report(alloc, request.path, &error, errors),
    }
}
