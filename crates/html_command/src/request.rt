//! Parses the arguments of the program.

ghost use Rattle.std.specs.Prelude.{◌≡◌, ◌==◌, IfErr, IfOk, Ok, Err, map, option_map, position};
ghost use Rattle.hyphenation_breaks.specs.Borrowed.{texts_now};
ghost use Rattle.command_line.specs.Reading.{as_read, as_refused, given_options, IsReadError};
ghost use Rattle.html_command.specs.Arguments.{code_and_path, dictionaries_of, dictionaries_given};
ghost use Rattle.html_command.specs.Arguments.{language_given, options_with, options_of, args_of, args_as_read};
ghost use Rattle.html_command.specs.Arguments.{task_by, task_as_read, parsed_args};
ghost use Rattle.html_command.specs.Private.Requests.{parsed_dictionary, parsed_options, parsed_request, parsed_task, AreAsWanted};
ghost use Rattle.text_results.specs.Reading.{parsed_removal};

use crate::USAGE;
use command_line::adjustments::Adjustments;
use command_line::options::{Arguments, BadArgument, Expected, ReadError, read};
use hyphenation_breaks::language::Language;
use hyphenation_html::Settings;
use std::alloc::Global;
use text_results::removal::{Removal, Source, removal_of};
use text_results::targets::{Target, names_for, target_of};

/// A dictionary that the arguments give.
#[derive(Clone, Copy)]
pub struct GivenDictionary<'w> {
    /// The language that it is for.
    pub language: Language,
    /// The path of its text.
    pub path: &'w str,
}

/// The options as parsed.
#[derive(Drop)]
pub struct Options<'w> {
    /// The dictionaries that are given.
    pub given: Vec<GivenDictionary<'w>>,
    /// The folder in which others are searched, if one is given.
    pub folder: Option<&'w str>,
    /// The language of text for which the page names none; empty if it has none.
    pub language: &'w str,
    /// The adjustments of dictionaries.
    pub adjustments: Adjustments<'w>,
    /// The mark, and which words are left alone.
    pub settings: Settings<'w>,
    /// Whether no notes are written.
    pub quiet: bool,
    /// The place to which results go.
    pub target: Target<'w>,
}

/// The task that arguments ask for.
#[derive(Drop)]
pub enum Task<'w> {
    /// Marks are put in.
    Mark(Request<'w>),
    /// Soft hyphens are taken out.
    Remove(Removal<'w>),
}

/// The arguments of marks, as parsed.
#[derive(Drop)]
pub struct Request<'w> {
    /// The options.
    pub options: Options<'w>,
    /// The names of the pages.
    pub inputs: Vec<&'w str>,
}

// The place of the first `=`.
fn first_equals_sign(text: &[u8]) -> Option<usize>
    ensures { result ≡ position (λ b. b == 61) text.now }
{
    text.iter().position(|b| *b == b'=')
}

// The dictionary of `CODE=PATH`.
#[tactic(auto, using(crate::proofs::EqualsSign::begins_at_sign, crate::proofs::EqualsSign::begins_after_sign))]
fn given_dictionary(text: &str) -> Option<GivenDictionary<'_>>
    ensures { option_map parsed_dictionary result ≡ code_and_path text.now }
{
    let at = first_equals_sign(text.as_bytes())?;
    Some(GivenDictionary {
        language: Language::from_code(&text[..at])?,
        path: &text[at + 1..],
    })
}

// Returns the dictionaries that values of `--dictionary` give.
fn dictionaries_of<'w>(
    alloc: Global,
    values: &[&'w str],
) -> Result<Vec<GivenDictionary<'w>>, ReadError<'w>>
    ensures given { IfOk result (λ given.
        dictionaries_of (texts_now values.now) ≡ Ok (map parsed_dictionary given.items)) }
    ensures refused { IfErr result (IsReadError (dictionaries_of (texts_now values.now))) }
{
    let mut given = Vec::new(alloc);
    for value in values {
        let Some(one) = given_dictionary(*value) else {
            return Err(ReadError::Bad(BadArgument {
                argument: "--dictionary",
                value: Some(*value),
                expected: Expected::CodeAndPath,
            }));
        };
        if given.push(one).is_err() {
            return Err(ReadError::Memory);
        }
    }
    Ok(given)
}

// Returns the dictionaries that arguments give.
fn dictionaries_given<'w>(
    alloc: Global,
    arguments: &Arguments<'w>,
) -> Result<Vec<GivenDictionary<'w>>, ReadError<'w>>
    ensures given { IfOk result (λ given. dictionaries_given (given_options arguments.now)
        ≡ Ok (map parsed_dictionary given.items)) }
    ensures refused { IfErr result (IsReadError (dictionaries_given (given_options arguments.now))) }
{
    let values = arguments.all(alloc, "--dictionary")?;
    dictionaries_of(alloc, &values)
}

// Returns the language of text for which a page names none. It is empty if none is given.
fn language_given<'w>(arguments: &Arguments<'w>) -> Result<&'w str, BadArgument<'w>>
    ensures given { IfOk result (λ language. language_given (given_options arguments.now) ≡ Ok language.now) }
    ensures refused { IfErr result (λ bad. language_given (given_options arguments.now) ≡ Err (as_refused bad)) }
{
    let Some(value) = arguments.last("--lang") else {
        return Ok("");
    };
    if first_equals_sign(value.as_bytes()).is_some() {
        return Err(BadArgument {
            argument: "--lang",
            value: Some(value),
            expected: Expected::CodeAlone,
        });
    }
    Ok(value)
}

// Returns the options with these dictionaries, by those that are given.
fn options_with<'w>(
    given: Vec<GivenDictionary<'w>>,
    arguments: &Arguments<'w>,
) -> Result<Options<'w>, BadArgument<'w>>
    ensures { AreAsWanted result (options_with (map parsed_dictionary given.entry.items) (given_options arguments.now)) }
{
    let language = language_given(arguments)?;
    let adjustments = Adjustments::from_arguments(arguments)?;
    let min_word = arguments.number("--min-word", 0, 65535, 0)?;
    let target = target_of(arguments)?;
    let usual = Settings::new();
    Ok(Options {
        given,
        folder: arguments.last("--dictionaries"),
        language,
        adjustments,
        settings: Settings {
            mark: arguments.last("--mark").unwrap_or(usual.mark),
            class: arguments.last("--class").unwrap_or(usual.class),
            min_word,
            skip_capitals: arguments.has("--skip-capitals"),
        },
        quiet: arguments.has("--quiet"),
        target,
    })
}

// Returns the options of arguments.
fn options_of<'w>(alloc: Global, arguments: &Arguments<'w>) -> Result<Options<'w>, ReadError<'w>>
    ensures parsed { IfOk result (λ options. options_of (given_options arguments.now) ≡ Ok (parsed_options options)) }
    ensures refused { IfErr result (IsReadError (options_of (given_options arguments.now))) }
{
    let given = dictionaries_given(alloc, arguments)?;
    match options_with(given, arguments) {
        Ok(options) => Ok(options),
        Err(bad) => Err(ReadError::Bad(bad)),
    }
}

// Returns the request of options and the names of pages.
fn with_names<'w>(
    alloc: Global,
    options: Options<'w>,
    names: &[&'w str],
) -> Result<Request<'w>, ReadError<'w>>
    ensures parsed { IfOk result (λ request.
        args_of (parsed_options options.entry) (texts_now names.now) ≡ Ok (parsed_request request)) }
    ensures refused { IfErr result (IsReadError (args_of (parsed_options options.entry) (texts_now names.now))) }
{
    let inputs = names_for(alloc, options.target, names)?;
    Ok(Request { options, inputs })
}

// Returns the marks that arguments ask for.
fn of_arguments<'w>(alloc: Global, arguments: &Arguments<'w>) -> Result<Request<'w>, ReadError<'w>>
    ensures parsed { IfOk result (λ request. args_as_read (as_read arguments.now) ≡ Ok (parsed_request request)) }
    ensures refused { IfErr result (IsReadError (args_as_read (as_read arguments.now))) }
{
    let options = options_of(alloc, arguments)?;
    with_names(alloc, options, &arguments.operands)
}

// Returns the task of arguments that ask for this removal, or for none.
fn task_of_page<'w>(
    alloc: Global,
    removal: Option<Removal<'w>>,
    arguments: &Arguments<'w>,
) -> Result<Task<'w>, ReadError<'w>>
    ensures parsed { IfOk result (λ task.
        task_by (option_map parsed_removal removal.entry) (as_read arguments.now) ≡ Ok (parsed_task task)) }
    ensures refused { IfErr result
        (IsReadError (task_by (option_map parsed_removal removal.entry) (as_read arguments.now))) }
{
    if let Some(removal) = removal {
        return Ok(Task::Remove(removal));
    }
    let request = of_arguments(alloc, arguments)?;
    Ok(Task::Mark(request))
}

// Returns the task of arguments that are read.
fn task_of_pages<'w>(alloc: Global, arguments: &Arguments<'w>) -> Result<Task<'w>, ReadError<'w>>
    ensures parsed { IfOk result (λ task. task_as_read (as_read arguments.now) ≡ Ok (parsed_task task)) }
    ensures refused { IfErr result (IsReadError (task_as_read (as_read arguments.now))) }
{
    let removal = removal_of(alloc, Source::Page, arguments)?;
    task_of_page(alloc, removal, arguments)
}

impl<'w> Task<'w> {
    /// Parses arguments `[OPTION..] [FILE..]`. The error is the first that is refused, or says that memory was refused.
    pub fn from_args(alloc: Global, args: &'w [&'w str]) -> Result<Task<'w>, ReadError<'w>>
        ensures parsed { IfOk result (λ task. parsed_args args.now ≡ Ok (parsed_task task)) }
        ensures refused { IfErr result (IsReadError (parsed_args args.now)) }
    {
        let arguments = read(alloc, USAGE, args)?;
        task_of_pages(alloc, &arguments)
    }
}
