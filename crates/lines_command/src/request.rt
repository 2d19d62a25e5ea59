//! Parses the arguments of the program.

ghost use Rattle.std.specs.Prelude.{◌≡◌, [], codes, IfErr, IfOk, Ok, option_copied, option_map, unwrap_or};
ghost use Rattle.hyphenation_breaks.specs.Borrowed.{texts_now};
ghost use Rattle.command_line.specs.Options.{last_value, number_given};
ghost use Rattle.command_line.specs.Reading.{as_read, given_options, IsAsWanted, IsReadError};
ghost use Rattle.lines_command.specs.Arguments.{limit_of, if_limit_serves, options_of, args_with, args_as_read};
ghost use Rattle.lines_command.specs.Arguments.{style_for, aim_for, parsed_args};
ghost use Rattle.lines_command.specs.Private.Requests.{args_named, parsed_options, parsed_request, AreAsWanted};
ghost use Rattle.paragraphs.specs.Styles.{style_of};

use crate::USAGE;
use command_line::adjustments::Adjustments;
use command_line::options::{Arguments, BadArgument, Expected, ReadError, read};
use paragraphs::{Aim, Style};
use std::alloc::Global;
use text_results::targets::inputs_of;

/// The options as parsed.
#[derive(Clone, Copy)]
pub struct Options<'w> {
    /// Whether texts are plain paragraphs, and not as people write them.
    pub plain: bool,
    /// The columns of a line.
    pub columns: u16,
    /// Whether the lines are even, and not as full as possible.
    pub even: bool,
    /// The columns below which the last line of a paragraph is too short.
    pub last_columns: u16,
    /// How many lines in a row may end in a hyphen, if it is limited.
    pub ladder: Option<u8>,
    /// The cost of a line's end at a break of a word.
    pub price: u32,
    /// The text before the first line of a paragraph, if it is not that of the others.
    pub first: Option<&'w str>,
    /// The text before the lines of a paragraph.
    pub indent: &'w str,
}

/// The arguments as parsed.
#[derive(Drop)]
pub struct Request<'w> {
    /// The options.
    pub options: Options<'w>,
    /// The adjustments of the dictionary.
    pub adjustments: Adjustments<'w>,
    /// The path or the language of the dictionary.
    pub dictionary: &'w str,
    /// The names of the inputs.
    pub inputs: Vec<&'w str>,
}

// The number of columns that is the value of an option, or `otherwise` if it is not given.
fn columns_given<'w>(
    arguments: &Arguments<'w>,
    name: &'static str,
    otherwise: u16,
) -> Result<u16, BadArgument<'w>>
    ensures { IsAsWanted result (number_given name.now 0 65535 otherwise (given_options arguments.now)) }
{
    let number = arguments.number(name, 0, 65535, usize::from(otherwise))?;
    Ok(number as u16)
}

// The price of a hyphen.
fn price_given<'w>(arguments: &Arguments<'w>) -> Result<u32, BadArgument<'w>>
    ensures { IsAsWanted result (number_given (codes "--price") 0 4294967295 0 (given_options arguments.now)) }
{
    let number = arguments.number("--price", 0, 4294967295, 0)?;
    Ok(number as u32)
}

// The limit of a row of hyphens; 0 if there is none.
fn ladder_given<'w>(arguments: &Arguments<'w>) -> Result<u8, BadArgument<'w>>
    ensures { IsAsWanted result (number_given (codes "--ladder") 1 255 0 (given_options arguments.now)) }
{
    let number = arguments.number("--ladder", 1, 255, 0)?;
    Ok(number as u8)
}

// The limit that a number means.
fn limit_of(number: u8) -> Option<u8>
    ensures { result ≡ limit_of number }
{
    if number == 0 {
        return None;
    }
    Some(number)
}

// The text before the first line of a paragraph, if it has its own.
fn first_given<'w>(arguments: &Arguments<'w>) -> Option<&'w str>
    ensures { option_map (λ text. text.now) result ≡ last_value (codes "--first") (given_options arguments.now) }
{
    arguments.last("--first")
}

// The text before the lines of a paragraph.
fn indent_given<'w>(arguments: &Arguments<'w>) -> &'w str
    ensures { result.now ≡ unwrap_or (last_value (codes "--indent") (given_options arguments.now)) [] }
{
    match arguments.last("--indent") {
        Some(text) => text,
        None => "",
    }
}

// The options, unless they have a limit that is only for even lines.
fn if_limit_serves<'w>(
    ladder: Option<&'w str>,
    options: Options<'w>,
) -> Result<Options<'w>, BadArgument<'w>>
    ensures { AreAsWanted result (if_limit_serves (option_copied ladder.entry) (parsed_options options.entry)) }
{
    if options.ladder.is_some() && !options.even {
        return Err(BadArgument {
            argument: "--ladder",
            value: ladder,
            expected: Expected::EvenLines,
        });
    }
    Ok(options)
}

impl<'w> Options<'w> {
    // Returns the options by those that are given.
    fn from_arguments(arguments: &Arguments<'w>) -> Result<Options<'w>, BadArgument<'w>>
        ensures { AreAsWanted result (options_of (given_options arguments.now)) }
    {
        let columns = columns_given(arguments, "--width", 72)?;
        let last_columns = columns_given(arguments, "--last", 0)?;
        let ladder = ladder_given(arguments)?;
        let price = price_given(arguments)?;
        let options = Options {
            plain: arguments.has("--plain"),
            columns,
            even: arguments.has("--even"),
            last_columns,
            ladder: limit_of(ladder),
            price,
            first: first_given(arguments),
            indent: indent_given(arguments),
        };
        if_limit_serves(arguments.last("--ladder"), options)
    }

    /// Returns the style that the options ask for. The first line has the indent of the others if none is given for it.
    pub fn style(&self) -> Style<'w>
        ensures { style_of result ≡ style_for (parsed_options self.now) }
    {
        Style {
            first: self.first.unwrap_or(self.indent),
            indent: self.indent,
            price: self.price,
        }
    }

    /// Returns the division into lines that the options ask for.
    pub fn aim(&self) -> Aim
        ensures { result ≡ aim_for (parsed_options self.now) }
    {
        if self.even {
            Aim::Even {
                last_columns: self.last_columns,
                ladder: self.ladder,
            }
        } else {
            Aim::Full
        }
    }
}

// Returns the request of options and adjustments, and of the dictionary and the inputs that arguments name.
fn with_inputs<'w>(
    alloc: Global,
    options: Options<'w>,
    adjustments: Adjustments<'w>,
    arguments: &Arguments<'w>,
) -> Result<Request<'w>, ReadError<'w>>
    ensures parsed { IfOk result (λ request.
        args_named options.entry adjustments.entry arguments.now ≡ Ok (parsed_request request)) }
    ensures refused { IfErr result (IsReadError (args_named options.entry adjustments.entry arguments.now)) }
{
    match arguments.dictionary_and_rest() {
        Ok((dictionary, names)) => Ok(Request {
            options,
            adjustments,
            dictionary,
            inputs: inputs_of(alloc, names)?,
        }),
        Err(bad) => Err(ReadError::Bad(bad)),
    }
}

// Returns the request of options, and of the adjustments, the dictionary and the inputs that arguments name.
fn with_options<'w>(
    alloc: Global,
    options: Options<'w>,
    arguments: &Arguments<'w>,
) -> Result<Request<'w>, ReadError<'w>>
    ensures parsed { IfOk result (λ request. args_with (parsed_options options.entry) (as_read arguments.now)
        ≡ Ok (parsed_request request)) }
    ensures refused { IfErr result (IsReadError (args_with (parsed_options options.entry) (as_read arguments.now))) }
{
    match Adjustments::from_arguments(arguments) {
        Ok(adjustments) => with_inputs(alloc, options, adjustments, arguments),
        Err(bad) => Err(ReadError::Bad(bad)),
    }
}

// Returns the request of arguments that are read.
fn of_arguments<'w>(alloc: Global, arguments: &Arguments<'w>) -> Result<Request<'w>, ReadError<'w>>
    ensures parsed { IfOk result (λ request. args_as_read (as_read arguments.now) ≡ Ok (parsed_request request)) }
    ensures refused { IfErr result (IsReadError (args_as_read (as_read arguments.now))) }
{
    match Options::from_arguments(arguments) {
        Ok(options) => with_options(alloc, options, arguments),
        Err(bad) => Err(ReadError::Bad(bad)),
    }
}

impl<'w> Request<'w> {
    /// Parses arguments `[OPTION..] [DICTIONARY] [FILE..]`. The error is the first that is refused, or says that memory was
    /// refused.
    pub fn from_args(alloc: Global, args: &'w [&'w str]) -> Result<Request<'w>, ReadError<'w>>
        ensures parsed { IfOk result (λ request. parsed_args args.now ≡ Ok (parsed_request request)) }
        ensures refused { IfErr result (IsReadError (parsed_args args.now)) }
    {
        let arguments = read(alloc, USAGE, args)?;
        of_arguments(alloc, &arguments)
    }
}
