//! The arguments of a program, read by the options that its usage has.

ghost use Rattle.std.specs.Prelude.{◌≡◌, ◌≤◌, ◌==◌, ◌++◌, IfErr, IfOk, IfSome, MatchResult, Ok, Err, OnOk, map, option_copied, option_map, position};
ghost use Rattle.std.specs.Option.{option_to_list};
ghost use Rattle.hyphenation_breaks.specs.Borrowed.{texts_now};
ghost use Rattle.hyphenation_grammar.specs.Lines.{tokens_after};
ghost use Rattle.command_line.specs.Endings.{EndsBy, Refuses, Tells};
ghost use Rattle.command_line.specs.Options.{Any, no_arguments, with_given, with_operand, is_operand, name_in, value_in, long_name, form_named, form_of};
ghost use Rattle.command_line.specs.Options.{expected_for, named_dictionary};
ghost use Rattle.command_line.specs.Options.{with_option, with_option_if_known, with_argument, ended, read_arguments};
ghost use Rattle.command_line.specs.Options.{is_given, values_of, last_value, number_within, number_given};
ghost use Rattle.command_line.specs.OptionLaws.{ValuesJoin, OperandsFollowDashes, OperandsAreRead, OptionsMove, OperandsAreKept};
ghost use Rattle.command_line.specs.Reading.{given_options, as_read, as_refused, IsAsWanted, IsReadError};
ghost use Rattle.command_line.specs.Usage.{begin_with_word, option_in, option_of, options_in, without_short};
ghost use Rattle.command_line.specs.Private.Readers.{as_form, as_form_in, as_next, IsReader, IsStep};

use crate::messages::Messages;
use hyphenation_grammar::lines::{first_token, next_line, number_of, starts_with, strip_prefix};
use std::alloc::{AllocError, Global};
use std::fmt;
use std::fmt::Display;
use std::io::Write;

/// An option that is given.
#[derive(Clone, Copy)]
pub struct Given<'w> {
    /// The name with its dashes, as `--width`.
    pub name: &'w str,
    /// The value, if it takes one.
    pub value: Option<&'w str>,
}

/// The arguments as read.
#[derive(Drop)]
pub struct Arguments<'w> {
    /// The options, in their order.
    pub given: Vec<Given<'w>>,
    /// The operands, in their order: all that is neither an option nor a value of one.
    pub operands: Vec<&'w str>,
}

/// The expectation that an argument does not meet.
#[derive(Clone, Copy)]
pub enum Expected {
    /// The name of an option that the program has.
    KnownOption,
    /// The option `--lang`, which is called otherwise.
    Lang,
    /// A value of the option, after an equals sign or as the next argument.
    Value,
    /// The option without a value.
    NoValue,
    /// A number within these bounds, which belong to it.
    Number { least: usize, greatest: usize },
    /// The code of a language.
    Code,
    /// The code of a language, without the path that `--dictionary` takes.
    CodeAlone,
    /// The code of a language, and a path, as `CODE=PATH`.
    CodeAndPath,
    /// One of these names, as `standard, extended`.
    OneOf(&'static str),
    /// The option `--even` beside it.
    EvenLines,
    /// The operand that the usage calls so.
    Operand,
    /// No further operand.
    NoMore,
}

/// An argument that a program refuses.
#[derive(Clone, Copy)]
pub struct BadArgument<'w> {
    /// The operand, or the name of the option.
    pub argument: &'w str,
    /// The value that came with the option, if one did.
    pub value: Option<&'w str>,
    /// The expectation that it does not meet.
    pub expected: Expected,
}

/// Why arguments were not read.
#[derive(Drop)]
pub enum ReadError<'w> {
    /// The first argument that is refused.
    Bad(BadArgument<'w>),
    /// Memory was refused.
    Memory,
}

impl From<AllocError> for ReadError<'_> {
    ghost use Rattle.std.specs.Prelude.{◌≡◌};
    ghost use Rattle.command_line.specs.declared.options.ReadError.TheVariants.{Memory};

    ghost from_gives = { λ _ result. result ≡ Memory };

    fn from(_error: AllocError) -> Self {
        ReadError::Memory
    }
}

// An option that a program has.
#[derive(Clone, Copy)]
struct OptionForm<'w> {
    name: &'w str,
    takes_value: bool,
}

// Which arguments may come next.
#[derive(Clone, Copy)]
enum Next<'w> {
    // Any.
    Any,
    // The value of the option of that name.
    ValueOf(&'w str),
    // Only operands.
    OperandsAlone,
}

// Arguments as far as they are read.
#[derive(Drop)]
struct Reader<'w> {
    arguments: Arguments<'w>,
    next: Next<'w>,
}

// The place of the first `=`.
fn first_equals_sign(text: &[u8]) -> Option<usize>
    ensures { result ≡ position (λ b. b == 61) text.now }
{
    text.iter().position(|b| *b == b'=')
}

// The name in the text of an option, and the value after its first `=`.
#[tactic(auto, using(crate::proofs::EqualsSign::begins_at_sign, crate::proofs::EqualsSign::begins_after_sign))]
fn name_and_value(text: &str) -> (&str, Option<&str>)
    ensures name { result.0.now ≡ name_in text.now }
    ensures value { option_copied result.1 ≡ value_in text.now }
{
    match first_equals_sign(text.as_bytes()) {
        Some(at) => (&text[..at], Some(&text[at + 1..])),
        None => (text, None),
    }
}

// Whether a text is an operand, and no option.
fn is_operand(text: &str) -> bool
    ensures { result ≡ is_operand text.now }
{
    !starts_with(b"-", text.as_bytes()) || text == "-"
}

// Whether a word for a value comes after the name of an option and a space.
fn begins_with_word(rest: Option<&[u8]>) -> bool
    ensures { result ≡ begin_with_word (tokens_after (option_map (λ rest. rest.now) rest.entry)) }
{
    match rest {
        Some(rest) => !first_token(rest).0.is_empty(),
        None => false,
    }
}

// A text without the short form at its beginning.
fn without_short(text: &[u8]) -> &[u8]
    ensures { result.now ≡ without_short text.now }
{
    match text {
        [_, _, rest @ ..] => strip_prefix(b", ", rest).unwrap_or(text),
        _ => text,
    }
}

// The name of the option of a text, and whether it takes a value.
fn option_of(text: &[u8]) -> Option<(&[u8], bool)>
    ensures { option_map as_form_in result ≡ option_of text.now }
{
    if !starts_with(b"--", text) {
        return None;
    }
    let (name, rest) = first_token(text);
    Some((name, begins_with_word(rest)))
}

// The name of the option that a line of a usage has, and whether it takes a value.
fn option_in(line: &[u8]) -> Option<(&[u8], bool)>
    ensures { option_map as_form_in result ≡ option_in line.now }
{
    let text = strip_prefix(b"  ", line)?;
    option_of(without_short(text))
}

// The name of the option that a name or a short form means.
#[tactic(auto, unfolding(crate::specs::Options::long_name))]
fn long_name(name: &str) -> &str
    ensures { result.now ≡ long_name name.now }
{
    if name == "-i" {
        "--in-place"
    } else if name == "-l" {
        "--lang"
    } else if name == "-o" {
        "--output"
    } else {
        name
    }
}

// The first option of that name in a usage.
#[tactic(auto, unfolding(crate::specs::Usage::options_in))]
fn form_named<'w>(usage: &str, name: &'w str) -> Option<OptionForm<'w>>
    ensures { option_map as_form result ≡ form_named (options_in usage.now) name.now }
{
    let mut rest = usage.as_bytes();
    while let Some((line, after)) = next_line(rest) {
        if let Some((found, takes_value)) = option_in(line) {
            if found == name.as_bytes() {
                return Some(OptionForm { name, takes_value });
            }
        }
        rest = after;
    }
    None
}

// The first option in a usage that a name or a short form means.
fn form_of<'w>(usage: &str, name: &'w str) -> Option<OptionForm<'w>>
    ensures { option_map as_form result ≡ form_of (options_in usage.now) name.now }
{
    form_named(usage, long_name(name))
}

// The expectation in place of a name that no option has.
fn expected_for(name: &str) -> Expected
    ensures { result ≡ expected_for name.now }
{
    if name == "--language" {
        Expected::Lang
    } else {
        Expected::KnownOption
    }
}

// Appends a value, if there is one.
fn push_value<'w>(values: &mut Vec<&'w str>, value: Option<&'w str>) -> Result<(), AllocError>
    ensures { OnOk result (map (λ value. value.now) values.new.items
        ≡ map (λ value. value.now) values.old.items ++ option_to_list (option_copied value.entry)) }
{
    if let Some(value) = value {
        values.push(value)?;
    }
    Ok(())
}

impl<'w> Reader<'w> {
    // No argument is read.
    fn new(alloc: Global) -> Reader<'w>
        ensures { IsReader result no_arguments Any }
    {
        Reader {
            arguments: Arguments {
                given: Vec::new(alloc),
                operands: Vec::new(alloc),
            },
            next: Next::Any,
        }
    }

    // Appends an option. Any argument may come after it.
    fn push_given(&mut self, name: &'w str, value: Option<&'w str>) -> Result<(), AllocError>
        ensures { OnOk result (IsReader self.new
            (with_given (as_read self.old.arguments) name.now (option_copied value.entry)) Any) }
    {
        self.arguments.given.push(Given { name, value })?;
        self.next = Next::Any;
        Ok(())
    }

    // Appends an operand.
    fn push_operand(&mut self, operand: &'w str) -> Result<(), AllocError>
        ensures { OnOk result (IsReader self.new
            (with_operand (as_read self.old.arguments) operand.now) (as_next self.old.next)) }
    {
        self.arguments.operands.push(operand)?;
        Ok(())
    }

    // Takes an option of that form, with the value that is in the same argument.
    fn take_option(
        &mut self,
        form: OptionForm<'w>,
        value: Option<&'w str>,
    ) -> Result<(), ReadError<'w>>
        ensures { IsStep result
            (with_option (as_read self.old.arguments) (as_form form.entry) (option_copied value.entry)) self.new }
    {
        match value {
            Some(_) if !form.takes_value => Err(ReadError::Bad(BadArgument {
                argument: form.name,
                value,
                expected: Expected::NoValue,
            })),
            None if form.takes_value => {
                self.next = Next::ValueOf(form.name);
                Ok(())
            }
            _ => {
                self.push_given(form.name, value)?;
                Ok(())
            }
        }
    }

    // Takes an option, if the usage has one of that name.
    fn take_option_if_known(&mut self, usage: &str, text: &'w str) -> Result<(), ReadError<'w>>
        ensures { IsStep result (with_option_if_known (as_read self.old.arguments)
            (form_of (options_in usage.now) (name_in text.now)) text.now) self.new }
    {
        let (name, value) = name_and_value(text);
        match form_of(usage, name) {
            Some(form) => self.take_option(form, value),
            None => Err(ReadError::Bad(BadArgument {
                argument: name,
                value: None,
                expected: expected_for(name),
            })),
        }
    }

    // Takes the next argument.
    fn take(&mut self, usage: &str, text: &'w str) -> Result<(), ReadError<'w>>
        ensures { IsStep result
            (with_argument (options_in usage.now) (as_read self.old.arguments) (as_next self.old.next) text.now) self.new }
    {
        match self.next {
            Next::ValueOf(name) => self.push_given(name, Some(text))?,
            Next::OperandsAlone => self.push_operand(text)?,
            Next::Any => {
                if text == "--" {
                    self.next = Next::OperandsAlone;
                } else if is_operand(text) {
                    self.push_operand(text)?;
                } else {
                    return self.take_option_if_known(usage, text);
                }
            }
        }
        Ok(())
    }

    // The arguments, to their end.
    fn end(self) -> Result<Arguments<'w>, ReadError<'w>>
        ensures read { IfOk result (λ arguments.
            ended (as_read self.entry.arguments) (as_next self.entry.next) ≡ Ok (as_read arguments)) }
        ensures refused { IfErr result (IsReadError (ended (as_read self.entry.arguments) (as_next self.entry.next))) }
    {
        match self.next {
            Next::ValueOf(name) => Err(ReadError::Bad(BadArgument {
                argument: name,
                value: None,
                expected: Expected::Value,
            })),
            _ => Ok(self.arguments),
        }
    }
}

/// Reads arguments by the options that the usage of a program has.
///
/// A line of the usage is that of an option if it begins with two spaces and two hyphens, as `  --width N  the columns`. A
/// short form may stand before the hyphens, as `  -l, --lang CODE`. The option takes a value if a word comes after one
/// space, and none if a second space comes there.
///
/// The short forms `-i`, `-l` and `-o` are read as `--in-place`, `--lang` and `--output`, where the usage has these.
///
/// An argument that begins with `-` is an option, except `-` itself, which is an operand. The value of an option is the
/// text after its first `=`, or else the next argument. After the argument `--` all are operands.
///
/// The error is the first argument that is refused, or says that memory was refused.
///
/// ```text
/// let usage = "usage: lines [OPTION] FILE..\n  --width N  the columns of a line\n";
/// let arguments = read(alloc, usage, &["en-us", "--width=40", "en-us.txt"])?;    // two operands
/// ```
pub fn read<'w>(
    alloc: Global,
    usage: &str,
    args: &'w [&'w str],
) -> Result<Arguments<'w>, ReadError<'w>>
    ensures read { IfOk result (λ arguments.
        read_arguments (options_in usage.now) (map (λ arg. arg.now) args.now) ≡ Ok (as_read arguments)) }
    ensures refused { IfErr result (IsReadError
        (read_arguments (options_in usage.now) (map (λ arg. arg.now) args.now))) }
{
    let mut reader = Reader::new(alloc);
    for text in args {
        reader.take(usage, text)?;
    }
    reader.end()
}

impl<'w> Arguments<'w> {
    /// Reports whether an option of that name is given.
    pub fn has(&self, name: &str) -> bool
        ensures { result ≡ is_given name.now (given_options self.now) }
    {
        for given in &self.given {
            if given.name == name {
                return true;
            }
        }
        false
    }

    /// Returns the value of the last option of that name. `None` if none is given.
    pub fn last(&self, name: &str) -> Option<&'w str>
        ensures { option_copied result ≡ last_value name.now (given_options self.now) }
    {
        let mut last = None;
        for given in &self.given {
            if given.name == name && given.value.is_some() {
                last = given.value;
            }
        }
        last
    }

    /// Returns the dictionary that the arguments name, and the operands beside it.
    ///
    /// The value of the last `--lang` is the dictionary, and all operands are beside it. Without `--lang` the dictionary is
    /// the first operand. The error says that it is missing.
    ///
    /// ```text
    /// arguments.dictionary_and_rest()?    // of `de letter.txt` and of `letter.txt --lang de`: ("de", ["letter.txt"])
    /// ```
    pub fn dictionary_and_rest(&self) -> Result<(&'w str, &[&'w str]), BadArgument<'w>>
        ensures named { IfOk result (λ found. named_dictionary (as_read self.now) ≡ Ok (found.0.now, texts_now found.1.now)) }
        ensures refused { IfErr result (λ bad. named_dictionary (as_read self.now) ≡ Err (as_refused bad)) }
    {
        if let Some(language) = self.last("--lang") {
            return Ok((language, &self.operands));
        }
        match self.operands.split_first() {
            Some((dictionary, rest)) => Ok((*dictionary, rest)),
            None => Err(BadArgument {
                argument: "DICTIONARY",
                value: None,
                expected: Expected::Operand,
            }),
        }
    }

    /// Returns the values of all options of that name, in their order. The error says that memory was refused.
    pub fn all(&self, alloc: Global, name: &str) -> Result<Vec<&'w str>, AllocError>
        ensures { IfOk result (λ values. map (λ value. value.now) values.items ≡ values_of name.now (given_options self.now)) }
    {
        let mut values = Vec::new(alloc);
        for given in &self.given {
            if given.name == name {
                push_value(&mut values, given.value)?;
            }
        }
        Ok(values)
    }

    /// Returns the number that is the value of the last option of that name, or `otherwise` if none is given.
    ///
    /// The error says that the value is no number from `least` to `greatest`, both included.
    pub fn number(
        &self,
        name: &'static str,
        least: usize,
        greatest: usize,
        otherwise: usize,
    ) -> Result<usize, BadArgument<'w>>
        ensures given { IsAsWanted result
            (number_given name.now least greatest otherwise (given_options self.now)) }
        ensures at_most { otherwise ≤ greatest → IfOk result (λ number. number ≤ greatest) }
    {
        match self.last(name) {
            None => Ok(otherwise),
            Some(text) => match number_within(least, greatest, text) {
                Some(number) => Ok(number),
                None => Err(BadArgument {
                    argument: name,
                    value: Some(text),
                    expected: Expected::Number { least, greatest },
                }),
            },
        }
    }
}

/// Returns the number from `least` to `greatest`, both included, that a text spells: `0`, or digits without a leading
/// zero. `None` for any other text.
pub fn number_within(least: usize, greatest: usize, text: &str) -> Option<usize>
    ensures number { result ≡ number_within least greatest text.now }
    ensures at_most { IfSome result (λ number. number ≤ greatest) }
{
    let number = number_of(text.as_bytes())?;
    if least <= number && number <= greatest {
        Some(number)
    } else {
        None
    }
}

/// Writes the words for what was expected, as `not a number from 1 to 65535`.
impl Display for Expected {
    ghost use Rattle.std.specs.Prelude.{Some};
    ghost use Rattle.command_line.specs.Options.{expectation};

    ghost output = { λ expected. Some (expectation expected) };

    fn fmt<W: fmt::Write>(&self, f: &mut fmt::Formatter<W>) -> fmt::Result {
        match self {
            Expected::KnownOption => f.write_str("no such option"),
            Expected::Lang => f.write_str("no such option: it is --lang"),
            Expected::Value => f.write_str("a value is missing"),
            Expected::NoValue => f.write_str("takes no value"),
            Expected::Number { least, greatest } => {
                write!(f, "not a number from {least} to {greatest}")
            }
            Expected::Code => f.write_str("not the code of a language"),
            Expected::CodeAlone => f.write_str(
                "not the code of a language: --dictionary CODE=PATH gives a path",
            ),
            Expected::CodeAndPath => f.write_str("not of the form CODE=PATH"),
            Expected::OneOf(names) => write!(f, "not one of {names}"),
            Expected::EvenLines => f.write_str("only with --even"),
            Expected::Operand => f.write_str("is missing"),
            Expected::NoMore => f.write_str("one argument too many"),
        }
    }
}

/// Writes the argument and why it is refused, as `--width=4o: not a number from 1 to 65535`.
impl<'w> Display for BadArgument<'w> {
    ghost use Rattle.std.specs.Prelude.{Some};
    ghost use Rattle.command_line.specs.Options.{refusal_text};
    ghost use Rattle.command_line.specs.Reading.{as_refused};

    ghost output = { λ bad. Some (refusal_text (as_refused bad)) };

    fn fmt<W: fmt::Write>(&self, f: &mut fmt::Formatter<W>) -> fmt::Result {
        let argument = self.argument;
        let expected = self.expected;
        match self.value {
            Some(value) => write!(f, "{argument}={value}: {expected}"),
            None => write!(f, "{argument}: {expected}"),
        }
    }
}

/// Writes the message of a program of that name that it refuses an argument, and returns the status to end with, which
/// is 2. One line says why, and one points to `--help`. An error of writing changes nothing of the status.
///
/// ```text
/// hyphenate-lines: --width=4o: not a number from 1 to 65535
/// Try 'hyphenate-lines --help'.
/// ```
pub fn report_bad_argument<W: Write>(
    alloc: Global,
    name: &str,
    bad: &BadArgument<'_>,
    errors: &mut Messages<W>,
) -> u8
    ensures { EndsBy name.now result (Tells W.contents errors.old errors.new) (Refuses (as_refused bad.now)) }
{
    errors.write(
        alloc,
        &format_args!("{name}: {bad}\nTry '{name} --help'.\n"),
    );
    2
}

// Laws. Each function here does nothing: its contract is the law, which the check proves.

/// A value may be the next argument, or follow an equals sign: `--width 40` and `--width=40` are read alike.
pub fn values_join()
    ensures { ValuesJoin }
{}

/// After `--` each argument is an operand.
pub fn operands_follow_dashes()
    ensures { OperandsFollowDashes }
{}

/// Arguments that are operands by themselves are read as operands, whatever options there are.
pub fn operands_are_read()
    ensures { OperandsAreRead }
{}

/// An option that has its value, or takes none, may be before an operand or after it.
pub fn options_move()
    ensures { OptionsMove }
{}

/// Among options that have their values, or take none, each operand is kept, in order.
pub fn operands_are_kept()
    ensures { OperandsAreKept }
{}
