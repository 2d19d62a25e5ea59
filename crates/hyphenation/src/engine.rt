//! Whole runs, from the bytes of a dictionary to what is written: the score of a word, and a hyphenated text.

ghost use Rattle.std.specs.Prelude.{◌≡◌, ◌++◌, List, ℕ, OnOk, IfOk, IfErr, IfSome, decimal};
ghost use Rattle.std.specs.String.{string_bytes};
ghost use Rattle.hyphenation_load.specs.Load.{AppendsTo};
ghost use Rattle.any_dictionary.specs.Dictionaries.{contents_as, kind_by};
ghost use Rattle.hyphenation.specs.Engine.{score_line, score_by, marked_output, RunWrites};
ghost use Rattle.hyphenation.specs.Engine.{JudgesDictionary, JudgesEdits, JudgesText};
ghost use Rattle.hyphenation.specs.Engine.{BeforeReading, BeforeWriting, IsScoreError, IsUnwritten, HidesNoOutOfMemory};
ghost use Rattle.hyphenation.specs.Private.Engine.{space_before, IsLoadingError};
ghost use Rattle.hyphenation_breaks.specs.Borrowed.{texts_now};

mod text_run;

use any_dictionary::AnyDictionary;
use hyphenation_breaks::language::Language;
pub use hyphenation_grammar::form::Kind;
pub use hyphenation_grammar::number_of;
use hyphenation_load::Error;
use std::alloc::{AllocError, Global};
use std::io;
use std::io::{Read, Write};
pub use text_run::read_input;
use text_run::run_text;

/// Why a run wrote nothing, or not all.
#[derive(Debug, Drop)]
pub enum RunError {
    /// Loading the dictionary failed. Running out of memory is `Memory`, never this.
    Dictionary(Error),
    /// The edit of this number, counted from 1, is the first that is refused.
    Edit(usize),
    /// The input is not UTF-8.
    TextNotUtf8,
    /// Reading the input failed. Running out of memory is `Memory`, never this.
    Input(io::Error),
    /// Writing the result failed; a beginning of it may be written.
    Output(io::Error),
    /// Memory was refused.
    Memory,
}

/// How a run hyphenates a text: the edits that are done before, and the mark.
#[derive(Debug, Clone, Copy)]
pub struct Marking<'m> {
    /// The edits of the dictionary's exceptions, from first to last.
    pub edits: &'m [&'m str],
    /// The mark that is written at each break.
    pub mark: &'m str,
}

impl From<Error> for RunError {
    ghost use Rattle.std.specs.Prelude.{◌≡◌};
    ghost use Rattle.hyphenation.specs.Engine.{run_error};

    ghost from_gives = { λ e result. result ≡ run_error e };

    fn from(e: Error) -> RunError {
        match e {
            Error::Memory(_) => RunError::Memory,
            e => RunError::Dictionary(e),
        }
    }
}

impl From<AllocError> for RunError {
    ghost use Rattle.std.specs.Prelude.{◌≡◌};
    ghost use Rattle.hyphenation.specs.declared.engine.RunError.TheVariants.{Memory};

    ghost from_gives = { λ _ result. result ≡ Memory };

    fn from(_: AllocError) -> RunError {
        RunError::Memory
    }
}

// Appends a value in decimal, after a space unless it is the first.
fn append_value(line: &mut String, index: usize, value: u8) -> Result<(), AllocError>
    ensures { OnOk result (string_bytes line.new ≡ string_bytes line.old ++ space_before index ++ decimal value) }
{
    if index > 0 {
        line.push(' ')?;
    }
    let digits = value.to_string(*line.allocator())?;
    line.push_str(&digits)
}

// The line of values: in decimal, one space between, and a line feed.
fn line_of(alloc: Global, values: &[u8]) -> Result<String, AllocError>
    ensures { IfOk result (λ line. string_bytes line ≡ score_line values.now) }
{
    let mut line = String::new(alloc);
    for (index, value) in values.iter().enumerate() {
        append_value(&mut line, index, *value)?;
    }
    line.push('\n')?;
    Ok(line)
}

// The dictionary of that kind and language that a reader's bytes give.
fn load<D: Read>(
    alloc: Global,
    kind: Kind,
    lang: Language,
    reader: &mut D,
) -> Result<AnyDictionary, RunError>
    ensures judged { JudgesDictionary kind lang (D.remaining reader.old) result }
    ensures contents { IfOk result (λ dictionary.
        IfSome (D.remaining reader.old) (λ bytes. dictionary ≡ contents_as kind bytes)) }
    ensures of_kind { IfOk result (λ dictionary. kind_by dictionary ≡ kind) }
    ensures loading_error { IfErr result IsLoadingError }
    ensures not_out_of_memory { IfErr result HidesNoOutOfMemory }
{
    Ok(AnyDictionary::of_kind(alloc, kind, lang, reader)?)
}

// The line of a word's values by the dictionary of that kind and language that a reader's bytes give.
fn score_line<D: Read>(
    alloc: Global,
    kind: Kind,
    lang: Language,
    word: &str,
    reader: &mut D,
) -> Result<String, RunError>
    ensures dictionary { JudgesDictionary kind lang (D.remaining reader.old) result }
    ensures line { IfOk result (λ line.
        IfSome (D.remaining reader.old) (λ bytes. string_bytes line ≡ score_by kind word.now bytes)) }
    ensures unwritten { IfErr result IsUnwritten }
    ensures score_error { IfErr result IsScoreError }
    ensures not_out_of_memory { IfErr result HidesNoOutOfMemory }
{
    let dictionary = load(alloc, kind, lang, reader)?;
    let values = dictionary.values(alloc, word)?;
    Ok(line_of(alloc, &values)?)
}

/// Loads a dictionary of that kind and language, and writes the values of a word's places.
///
/// They are written in decimal, with one space between and a line feed at the end. The word is taken as it is,
/// capitals included. Nothing is written before that line is whole. The errors are `Dictionary`, `Output` and
/// `Memory`.
///
/// ```text
/// let mut dictionary = &b"hyphenation 1 standard\nlanguage en-us\nminima 2 3\np hy3ph\n"[..];
/// let lang = Language::english_us();
/// run_score(alloc, Kind::Standard, lang, "hyphen", &mut dictionary, &mut rt.stdout())?;    // 0 3 0 0 0
/// ```
pub fn run_score<D: Read, O: Write>(
    alloc: Global,
    kind: Kind,
    lang: Language,
    word: &str,
    dictionary: &mut D,
    output: &mut O,
) -> Result<(), RunError>
    ensures dictionary { JudgesDictionary kind lang (D.remaining dictionary.old) result }
    ensures written { OnOk result (IfSome (D.remaining dictionary.old) (λ bytes.
        AppendsTo O.contents output.old output.new (score_by kind word.now bytes))) }
    ensures appends_some_text { OnOk result ((text : List ℕ) × AppendsTo O.contents output.old output.new text) }
    ensures untouched { BeforeWriting result (output.new ≡ output.old) }
    ensures score_error { IfErr result IsScoreError }
    ensures not_out_of_memory { IfErr result HidesNoOutOfMemory }
{
    let line = score_line(alloc, kind, lang, word, dictionary)?;
    output.write_all(line.as_bytes()).map_err(RunError::Output)
}

/// Writes the text of an input with the mark at each break of its words, by a dictionary of that kind and language.
///
/// The steps come in this order. The dictionary is loaded. The edits of its exceptions are judged and done, from first
/// to last. The input is read to its end, and must be UTF-8. The result is written, once all of it is made. The first
/// step that fails gives the error; [`RunError`] has one for each. A word is a piece of the text between word bounds.
///
/// ```text
/// let mut dictionary = &b"hyphenation 1 standard\nlanguage en-us\nminima 2 3\ne hyphenation 2 6 7\n"[..];
/// let mut input = &b"Hyphenation, again.\n"[..];
/// let lang = Language::english_us();
/// let marking = Marking { edits: &["+again 2"], mark: "-" };
/// // Hy-phen-a-tion, ag-ain.
/// run(alloc, Kind::Standard, lang, marking, &mut dictionary, &mut input, &mut rt.stdout())?;
/// ```
pub fn run<D: Read, I: Read, O: Write>(
    alloc: Global,
    kind: Kind,
    lang: Language,
    marking: Marking<'_>,
    dictionary: &mut D,
    input: &mut I,
    output: &mut O,
) -> Result<(), RunError>
    ensures dictionary { JudgesDictionary kind lang (D.remaining dictionary.old) result }
    ensures edits { JudgesEdits kind (texts_now marking.entry.edits.now) result }
    ensures text { JudgesText (I.remaining input.old) result }
    ensures written { RunWrites result O.contents output.old output.new (marked_output kind marking.entry)
        (D.remaining dictionary.old) (I.remaining input.old) }
    ensures appends_some_text { OnOk result ((text : List ℕ) × AppendsTo O.contents output.old output.new text) }
    ensures untouched { BeforeWriting result (output.new ≡ output.old) }
    ensures unread { BeforeReading result (input.new ≡ input.old) }
    ensures not_out_of_memory { IfErr result HidesNoOutOfMemory }
{
    let text = run_text(alloc, kind, lang, marking, dictionary, input)?;
    output.write_all(text.as_bytes()).map_err(RunError::Output)
}
