//! Parses the arguments of the program.

ghost use Rattle.std.specs.Prelude.{◌≡◌, IfErr, IfOk, Ok, map};
ghost use Rattle.hyphenation_breaks.specs.Borrowed.{texts_now};
ghost use Rattle.command_line.specs.Adjustments.{as_adjustments};
ghost use Rattle.command_line.specs.Options.{named_dictionary};
ghost use Rattle.command_line.specs.Reading.{as_given, as_read, IsReadError};
ghost use Rattle.explain_command.specs.Arguments.{args_as_read, args_of, style_by, style_of, parsed_args};
ghost use Rattle.explain_command.specs.Private.Requests.{parsed_request};

use crate::USAGE;
use command_line::adjustments::Adjustments;
use command_line::options::{Arguments, Given, ReadError, read};
use explanations::Style;
use std::alloc::{AllocError, Global};

/// The arguments as parsed.
#[derive(Drop)]
pub struct Request<'w> {
    /// The style of the texts.
    pub style: Style,
    /// The adjustments of the dictionary.
    pub adjustments: Adjustments<'w>,
    /// The path or the language of the dictionary.
    pub dictionary: &'w str,
    /// The words that are given.
    pub words: Vec<&'w str>,
}

// Returns the style that the option of a name asks for, or the one so far if it asks for none.
fn style_by(so_far: Style, name: &str) -> Style
    ensures { result ≡ style_by so_far name.now }
{
    if name == "--svg" {
        Style::Svg
    } else if name == "--plain" {
        Style::Lines
    } else {
        so_far
    }
}

// Returns the style that options ask for: that of the last one that asks for one.
fn style_of(given: &[Given<'_>]) -> Style
    ensures { result ≡ style_of (map as_given given.now) }
{
    let mut style = Style::Picture;
    for one in given {
        style = style_by(style, one.name);
    }
    style
}

// Returns the given words.
fn words_of<'w>(alloc: Global, words: &[&'w str]) -> Result<Vec<&'w str>, AllocError>
    ensures { IfOk result (λ copied. texts_now copied.items ≡ texts_now words.now) }
{
    let mut copied = Vec::new(alloc);
    copied.extend_from_slice(words)?;
    Ok(copied)
}

// Returns the request of a style and adjustments, and of the dictionary and the words that arguments name.
fn with_words<'w>(
    alloc: Global,
    style: Style,
    adjustments: Adjustments<'w>,
    arguments: &Arguments<'w>,
) -> Result<Request<'w>, ReadError<'w>>
    ensures parsed { IfOk result (λ one. args_of style (as_adjustments adjustments.entry)
        (named_dictionary (as_read arguments.now)) ≡ Ok (parsed_request one)) }
    ensures refused { IfErr result (IsReadError
        (args_of style (as_adjustments adjustments.entry) (named_dictionary (as_read arguments.now)))) }
{
    match arguments.dictionary_and_rest() {
        Ok((dictionary, words)) => Ok(Request {
            style,
            adjustments,
            dictionary,
            words: words_of(alloc, words)?,
        }),
        Err(bad) => Err(ReadError::Bad(bad)),
    }
}

// Returns the request of arguments that are read.
fn of_arguments<'w>(alloc: Global, arguments: &Arguments<'w>) -> Result<Request<'w>, ReadError<'w>>
    ensures parsed { IfOk result (λ request. args_as_read (as_read arguments.now) ≡ Ok (parsed_request request)) }
    ensures refused { IfErr result (IsReadError (args_as_read (as_read arguments.now))) }
{
    match Adjustments::from_arguments(arguments) {
        Ok(adjustments) => with_words(alloc, style_of(&arguments.given), adjustments, arguments),
        Err(bad) => Err(ReadError::Bad(bad)),
    }
}

impl<'w> Request<'w> {
    /// Parses arguments `[OPTION..] [DICTIONARY] [WORD..]`. The error is the first that is refused, or says that memory
    /// was refused.
    pub fn from_args(alloc: Global, args: &'w [&'w str]) -> Result<Request<'w>, ReadError<'w>>
        ensures parsed { IfOk result (λ request. parsed_args args.now ≡ Ok (parsed_request request)) }
        ensures refused { IfErr result (IsReadError (parsed_args args.now)) }
    {
        let arguments = read(alloc, USAGE, args)?;
        of_arguments(alloc, &arguments)
    }
}
