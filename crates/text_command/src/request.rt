//! Parses the arguments of the program.

ghost use Rattle.std.specs.Prelude.{◌≡◌, IfErr, IfOk, Ok, option_map};
ghost use Rattle.hyphenation_breaks.specs.Borrowed.{texts_now};
ghost use Rattle.command_line.specs.Reading.{as_read, given_options, IsReadError};
ghost use Rattle.text_command.specs.Arguments.{options_of};
ghost use Rattle.text_command.specs.Arguments.{args_by, args_as_read, task_by, task_as_read, parsed_args};
ghost use Rattle.text_command.specs.Private.Requests.{args_for, args_named, parsed_options, parsed_request, parsed_task, AreAsWanted};
ghost use Rattle.text_results.specs.Reading.{parsed_removal};

use crate::USAGE;
use command_line::adjustments::Adjustments;
use command_line::options::{Arguments, BadArgument, ReadError, read};
use std::alloc::Global;
use text_results::removal::{Removal, Source, removal_of};
use text_results::targets::{Target, names_for, target_of};

/// The soft hyphen.
pub const SOFT_HYPHEN: &str = "\u{ad}";

/// The options as parsed.
#[derive(Clone, Copy)]
pub struct Options<'w> {
    /// The mark.
    pub mark: &'w str,
    /// Words of fewer characters are left as they are.
    pub min_word: usize,
    /// Whether words that begin with a capital are left as they are.
    pub skip_capitals: bool,
    /// Whether each text is Markdown.
    pub markdown: bool,
    /// The place to which results go.
    pub target: Target<'w>,
}

/// The task that arguments ask for.
#[derive(Drop)]
pub enum Task<'w> {
    /// Marks are put in.
    Mark(Request<'w>),
    /// Soft hyphens are taken out.
    Remove(Removal<'w>),
}

/// The arguments of marks, as parsed.
#[derive(Drop)]
pub struct Request<'w> {
    /// The options.
    pub options: Options<'w>,
    /// The adjustments of the dictionary.
    pub adjustments: Adjustments<'w>,
    /// The path or the language of the dictionary.
    pub dictionary: &'w str,
    /// The names of the texts.
    pub inputs: Vec<&'w str>,
}

impl<'w> Options<'w> {
    // Returns the options by those that are given.
    fn from_arguments(arguments: &Arguments<'w>) -> Result<Options<'w>, BadArgument<'w>>
        ensures { AreAsWanted result (options_of (given_options arguments.now)) }
    {
        let min_word = arguments.number("--min-word", 0, 65535, 0)?;
        let target = target_of(arguments)?;
        Ok(Options {
            mark: arguments.last("--mark").unwrap_or(SOFT_HYPHEN),
            min_word,
            skip_capitals: arguments.has("--skip-capitals"),
            markdown: arguments.has("--markdown"),
            target,
        })
    }
}

// Returns the request of options, adjustments, a dictionary and the names of texts.
fn with_names<'w>(
    alloc: Global,
    options: Options<'w>,
    adjustments: Adjustments<'w>,
    dictionary: &'w str,
    names: &[&'w str],
) -> Result<Request<'w>, ReadError<'w>>
    ensures parsed { IfOk result (λ request.
        args_for options.entry adjustments.entry dictionary.now names.now ≡ Ok (parsed_request request)) }
    ensures refused { IfErr result (IsReadError (args_for options.entry adjustments.entry dictionary.now names.now)) }
{
    let inputs = names_for(alloc, options.target, names)?;
    Ok(Request {
        options,
        adjustments,
        dictionary,
        inputs,
    })
}

// Returns the request of options and adjustments, and of the dictionary and the texts that arguments name.
fn with_texts<'w>(
    alloc: Global,
    options: Options<'w>,
    adjustments: Adjustments<'w>,
    arguments: &Arguments<'w>,
) -> Result<Request<'w>, ReadError<'w>>
    ensures parsed { IfOk result (λ one.
        args_named options.entry adjustments.entry arguments.now ≡ Ok (parsed_request one)) }
    ensures refused { IfErr result (IsReadError (args_named options.entry adjustments.entry arguments.now)) }
{
    match arguments.dictionary_and_rest() {
        Ok((dictionary, names)) => with_names(alloc, options, adjustments, dictionary, names),
        Err(bad) => Err(ReadError::Bad(bad)),
    }
}

// Returns the request of options, and of the adjustments, the dictionary and the texts that arguments name.
fn with_adjustments<'w>(
    alloc: Global,
    options: Options<'w>,
    arguments: &Arguments<'w>,
) -> Result<Request<'w>, ReadError<'w>>
    ensures parsed { IfOk result (λ one. args_by (parsed_options options.entry) (as_read arguments.now)
        ≡ Ok (parsed_request one)) }
    ensures refused { IfErr result (IsReadError (args_by (parsed_options options.entry) (as_read arguments.now))) }
{
    match Adjustments::from_arguments(arguments) {
        Ok(adjustments) => with_texts(alloc, options, adjustments, arguments),
        Err(bad) => Err(ReadError::Bad(bad)),
    }
}

// Returns the marks that arguments ask for.
fn of_arguments<'w>(alloc: Global, arguments: &Arguments<'w>) -> Result<Request<'w>, ReadError<'w>>
    ensures parsed { IfOk result (λ request. args_as_read (as_read arguments.now) ≡ Ok (parsed_request request)) }
    ensures refused { IfErr result (IsReadError (args_as_read (as_read arguments.now))) }
{
    match Options::from_arguments(arguments) {
        Ok(options) => with_adjustments(alloc, options, arguments),
        Err(bad) => Err(ReadError::Bad(bad)),
    }
}

// Returns the task of arguments that ask for this removal, or for none.
fn task_by<'w>(
    alloc: Global,
    removal: Option<Removal<'w>>,
    arguments: &Arguments<'w>,
) -> Result<Task<'w>, ReadError<'w>>
    ensures parsed { IfOk result (λ task.
        task_by (option_map parsed_removal removal.entry) (as_read arguments.now) ≡ Ok (parsed_task task)) }
    ensures refused { IfErr result
        (IsReadError (task_by (option_map parsed_removal removal.entry) (as_read arguments.now))) }
{
    match removal {
        Some(removal) => Ok(Task::Remove(removal)),
        None => Ok(Task::Mark(of_arguments(alloc, arguments)?)),
    }
}

// Returns the task of arguments that are read.
fn task_of<'w>(alloc: Global, arguments: &Arguments<'w>) -> Result<Task<'w>, ReadError<'w>>
    ensures parsed { IfOk result (λ task. task_as_read (as_read arguments.now) ≡ Ok (parsed_task task)) }
    ensures refused { IfErr result (IsReadError (task_as_read (as_read arguments.now))) }
{
    let removal = removal_of(alloc, Source::Text, arguments)?;
    task_by(alloc, removal, arguments)
}

impl<'w> Task<'w> {
    /// Parses arguments `[OPTION..] [DICTIONARY] [FILE..]`, or `--remove [OPTION..] [FILE..]`. The error is the first that is
    /// refused, or says that memory was refused.
    pub fn from_args(alloc: Global, args: &'w [&'w str]) -> Result<Task<'w>, ReadError<'w>>
        ensures parsed { IfOk result (λ task. parsed_args args.now ≡ Ok (parsed_task task)) }
        ensures refused { IfErr result (IsReadError (parsed_args args.now)) }
    {
        let arguments = read(alloc, USAGE, args)?;
        task_of(alloc, &arguments)
    }
}
