//! The program `hyphenate-convert` without its `main`: its arguments, messages and statuses.
//!
//! It makes a dictionary text from files of hyphenation patterns.
#![tactic(auto)]

ghost use Rattle.std.specs.Prelude.{◌≡◌, ◌≢◌, ◌⊎◌, ◌∷◌, ◌++◌, [], false, None, Some, OnOk, IfOk, IfErr, is_some, length, map, slice_index_or, true};
ghost use Rattle.command_line.specs.About.{WritesHelp};
ghost use Rattle.command_line.specs.Endings.{Tells, TellsMore};
ghost use Rattle.command_line.specs.Statuses.{BeforeOutput};
ghost use Rattle.hyphenation_load.specs.Load.{AppendsTo};
ghost use Rattle.convert_command.specs.Arguments.{asked_text, known_form, path_at};
ghost use Rattle.convert_command.specs.Written.{IsFor, AreBytesOf, AreBytesAt, AreFilesAt, WritesParsed, WritesFor, IsExitStatus};
ghost use Rattle.convert_command.specs.Private.Failures.{IsReadingOf, IsFailureOf, failure_of_writing};
ghost use Rattle.convert_command.specs.Private.Requests.{parsed_request, is_dic, AreNotesOn, IsMadeFor};
ghost use Rattle.convert_command.specs.Private.Statuses.{MissesMinima};
ghost use Rattle.convert_command.specs.Failures.{IsOutside};
ghost use Rattle.convert_command.specs.Endings.{AreNotesFor, IsFailureFor, IsStatusOf, EndsUnlessAsked};
ghost use Rattle.convert_command.specs.Messages.{TellsFailure, note_line, notes_text, files_in, rejection_message, rejection_of};
ghost use Rattle.hyphenation_breaks.specs.Borrowed.{texts_now};
ghost use Rattle.std.specs.IoError.{error_kind};

mod request;

use command_line::{Messages, NamedFiles, VERSION, write_help_or_version};
use hyphenation_breaks::entry::{Listing, Payload};
use hyphenation_breaks::extended::Subregion;
use hyphenation_grammar::form::Kind;
use hyphenation_load::{Error, Load, is_out_of_memory, read_all};
use libreoffice_files::dic::convert_dic;
use pattern_results::converted::Converted;
use pattern_results::errors::ConvertError;
use pattern_results::notes::Note;
use request::{BadArgs, Input, Request, form_of};
use std::alloc::{AllocError, Global};
use std::io;
use std::io::{ErrorKind, Write};
use tex_files::convert::convert_with_notes;
use tex_files::group::{File, FileForm};
use tex_files::head_minima::minima_for;

/// The name of the program.
pub const NAME: &str = "hyphenate-convert";

/// The usage, for `--help` and for arguments of no form.
pub const USAGE: &str =
    "usage: hyphenate-convert KIND CODE LEFT RIGHT FILE..\n       hyphenate-convert -h | --help\n       hyphenate-convert --version\n       FILE: one .dic; or .tex, .pat.txt and .hyp.txt. LEFT and RIGHT: 0 to 255, or - for what the file says\n";

/// The message if memory was refused.
pub const NO_MEMORY: &str = "hyphenate-convert: no memory\n";

// Why nothing, or not all, was written.
#[derive(Drop)]
enum Failure {
    // The file of this number, counted from 0, can't be opened or read.
    Reading(usize, io::Error),
    // A file is refused: a fault in it, or memory.
    Refused(ConvertError),
    // A minimum is not given, and no file says it.
    Minima,
    // The result can't be written.
    Writing,
    // Memory was refused.
    Memory,
}

impl From<AllocError> for Failure {
    ghost use Rattle.std.specs.Prelude.{◌≡◌};
    ghost use Rattle.convert_command.specs.declared.Failure.TheVariants.{Memory};

    ghost from_gives = { λ _ result. result ≡ Memory };

    fn from(_error: AllocError) -> Failure {
        Failure::Memory
    }
}

impl From<ConvertError> for Failure {
    ghost use Rattle.std.specs.Prelude.{◌≡◌};
    ghost use Rattle.convert_command.specs.declared.Failure.TheVariants.{Refused};

    ghost from_gives = { λ error result. result ≡ Refused error };

    fn from(error: ConvertError) -> Failure {
        Failure::Refused(error)
    }
}

// All bytes of a file.
fn read_path<F: NamedFiles>(files: &F, alloc: Global, path: &str) -> io::Result<Vec<u8>>
    ensures { IfOk result (λ bytes. AreBytesOf (F.bytes files.now path.now) bytes.items) }
{
    let mut file = files.open(path)?;
    read_all(alloc, &mut file)
}

// All bytes of the file of a number.
fn read_file<F: NamedFiles>(
    files: &F,
    alloc: Global,
    paths: &[&str],
    index: usize,
) -> Result<Vec<u8>, Failure>
    ensures bytes { IfOk result (λ bytes.
        AreBytesOf (F.bytes files.now (path_at (map (λ path. path.now) paths.now) index)) bytes.items) }
    ensures failure { IfErr result (IsReadingOf index) }
    ensures not_minima { IfErr result (λ failure. failure ≢ Failure.Minima) }
    ensures outside { IfErr result IsOutside }
{
    match read_path(files, alloc, path_at(paths, index)) {
        Ok(bytes) => Ok(bytes),
        Err(e) => Err(Failure::Reading(index, e)),
    }
}

// Adds the bytes of a file.
fn push(all: &mut Vec<Vec<u8>>, bytes: Vec<u8>) -> Result<(), AllocError>
    ensures { OnOk result (all.new.items ≡ all.old.items ++ bytes ∷ []) }
{
    all.push(bytes)?;
    Ok(())
}

// All bytes of each file, in their order.
fn read_files<F: NamedFiles>(
    files: &F,
    alloc: Global,
    paths: &[&str],
) -> Result<Vec<Vec<u8>>, Failure>
    ensures of_paths { IfOk result (λ all. AreBytesAt (F.bytes files.now) (map (λ path. path.now) paths.now)
        (map (λ bytes. bytes.items) all.items)) }
    ensures not_minima { IfErr result (λ failure. failure ≢ Failure.Minima) }
    ensures outside { IfErr result IsOutside }
{
    let mut all = Vec::new(alloc);
    for (index, _path) in paths.iter().enumerate() {
        let bytes = read_file(files, alloc, paths, index)?;
        push(&mut all, bytes)?;
    }
    Ok(all)
}

// The form of a file, as TeX's for an ending that is not known.
fn known_form(path: &str) -> FileForm
    ensures { result ≡ known_form path.now }
{
    form_of(path).unwrap_or(FileForm::Tex)
}

// The files with their forms.
fn with_forms<'a>(
    alloc: Global,
    paths: &[&str],
    files: &'a [Vec<u8>],
) -> Result<Vec<File<'a>>, AllocError>
    requires { length files.now ≡ length paths.now }
    ensures { IfOk result (λ made. AreFilesAt (map (λ path. path.now) paths.now) (map (λ bytes. bytes.items) files.now)
        made.items) }
{
    let mut with_forms = Vec::new(alloc);
    for (index, bytes) in files.iter().enumerate() {
        let form = known_form(paths[index]);
        with_forms.push(File { form, bytes })?;
    }
    Ok(with_forms)
}

// The dictionary of files of TeX and plain ones.
fn convert_tex<C: Payload, B: Listing>(
    alloc: Global,
    request: &Request<'_>,
    bytes: &[Vec<u8>],
) -> Result<Converted<C, B>, Failure>
    requires { length bytes.now ≡ length request.now.paths.now }
    ensures as_asked { IfOk result (λ found.
        IsFor request.now.language request.now.left request.now.right found.dictionary) }
    ensures of_files { IfOk result (λ found. IsMadeFor C.change_of C.payload_of B.listing_of false request.now bytes.now
        found.dictionary) }
    ensures notes { IfOk result (λ found.
        AreNotesOn C.change_of C.payload_of false request.now bytes.now found.notes.items) }
    ensures misses_minima { IfErr result (MissesMinima request.now.left request.now.right) }
    ensures failure { IfErr result (IsFailureOf false request.now bytes.now) }
{
    let files = with_forms(alloc, request.paths, bytes)?;
    let minima = minima_for(request.left, request.right, &files);
    // a file that is refused is reported before missing minima are
    let (left, right) = minima.unwrap_or((0, 0));
    let converted = convert_with_notes(alloc, request.language, left, right, &files)?;
    match minima {
        Some(_) => Ok(converted),
        None => Err(Failure::Minima),
    }
}

// The bytes of the first file.
fn first_file(bytes: &[Vec<u8>]) -> &[u8]
    ensures { result.now ≡ slice_index_or (map (λ one. one.items) bytes.now) 0 [] }
{
    match bytes.first() {
        Some(first) => first.as_slice(),
        None => &[],
    }
}

// The dictionary of the files.
#[tactic(auto, using(crate::proofs::Minima::dic_is_for, crate::proofs::Made::dic_is_made, crate::proofs::Noting::dic_is_noted))]
fn convert_files<C: Payload, B: Listing>(
    alloc: Global,
    request: &Request<'_>,
    bytes: &[Vec<u8>],
) -> Result<Converted<C, B>, Failure>
    requires { length bytes.now ≡ length request.now.paths.now }
    ensures as_asked { IfOk result (λ found.
        IsFor request.now.language request.now.left request.now.right found.dictionary) }
    ensures of_files { IfOk result (λ found. IsMadeFor C.change_of C.payload_of B.listing_of (is_dic request.now.input)
        request.now bytes.now found.dictionary) }
    ensures notes { IfOk result (λ found. AreNotesOn C.change_of C.payload_of (is_dic request.now.input) request.now
        bytes.now found.notes.items) }
    ensures misses_minima { IfErr result (MissesMinima request.now.left request.now.right) }
    ensures failure { IfErr result (IsFailureOf (is_dic request.now.input) request.now bytes.now) }
{
    match request.input {
        Input::Tex => convert_tex(alloc, request, bytes),
        Input::Dic => {
            let converted = convert_dic(
                alloc,
                request.language,
                request.left,
                request.right,
                first_file(bytes),
            )?;
            Ok(converted)
        }
    }
}

// The failure of an error of writing.
fn failure_of_writing(error: Error) -> Failure
    ensures failure { result ≡ failure_of_writing error }
    ensures outside { IsOutside result }
{
    match error {
        Error::Memory(_) => Failure::Memory,
        _ => Failure::Writing,
    }
}

// Writes a dictionary as its canonical text, once all of that is made.
fn write_text<D: Load, O: Write>(
    alloc: Global,
    dictionary: &D,
    output: &mut O,
) -> Result<(), Failure>
    ensures written { OnOk result (AppendsTo O.contents output.old output.new (D.canonical dictionary.now)) }
    ensures untouched { IfErr result (λ failure. (failure ≡ Failure.Writing) ⊎ (output.new ≡ output.old)) }
    ensures not_minima { IfErr result (λ failure. failure ≢ Failure.Minima) }
    ensures outside { IfErr result IsOutside }
{
    match dictionary.to_writer(alloc, output) {
        Ok(()) => Ok(()),
        Err(error) => Err(failure_of_writing(error)),
    }
}

// Reads the files, makes a dictionary of them and writes it. Returns the notes on the files.
#[tactic(auto, using(crate::proofs::Writing::standard_written, crate::proofs::Writing::extended_written, crate::proofs::Reading::as_many, crate::proofs::Failing::outside_fails, crate::proofs::Failing::bytes_fail, crate::proofs::Noting::noted_for, crate::proofs::Noting::standard_noted, crate::proofs::Noting::extended_noted))]
fn run<F: NamedFiles, O: Write>(
    files: &F,
    alloc: Global,
    request: &Request<'_>,
    output: &mut O,
) -> Result<Vec<Note>, Failure>
    ensures written { OnOk result (WritesParsed (parsed_request request.now) (is_dic request.now.input)
        (F.bytes files.now) O.contents output.old output.new) }
    ensures notes { IfOk result (λ notes.
        AreNotesFor (parsed_request request.now) (is_dic request.now.input) (F.bytes files.now) notes.items) }
    ensures untouched { IfErr result (λ failure. (failure ≡ Failure.Writing) ⊎ (output.new ≡ output.old)) }
    ensures misses_minima { IfErr result (MissesMinima request.now.left request.now.right) }
    ensures failure { IfErr result
        (IsFailureFor (parsed_request request.now) (is_dic request.now.input) (F.bytes files.now)) }
{
    let bytes = read_files(files, alloc, request.paths)?;
    match request.kind {
        Kind::Standard => {
            let Converted { dictionary, notes } = convert_files::<(), usize>(
                alloc, request, &bytes,
            )?;
            write_text(alloc, &dictionary, output)?;
            Ok(notes)
        }
        Kind::Extended => {
            let Converted { dictionary, notes } = convert_files::<
                Option<Subregion>,
                (usize, Option<Subregion>),
            >(alloc, request, &bytes)?;
            write_text(alloc, &dictionary, output)?;
            Ok(notes)
        }
    }
}

// Returns the path of the file of a number, or an empty one if there are not that many.
fn path_at<'p>(paths: &[&'p str], index: usize) -> &'p str
    ensures { result.now ≡ path_at (map (λ path. path.now) paths.now) index }
{
    if index < paths.len() {
        paths[index]
    } else {
        ""
    }
}

// Writes a note, in a line.
fn report_note<E: Write>(alloc: Global, paths: &[&str], note: &Note, errors: &mut Messages<E>)
    ensures { TellsMore E.contents errors.old errors.new (note_line (texts_now paths.now) note.now) }
{
    let path = path_at(paths, note.first.file);
    let line = note.first.line;
    let kind = note.kind;
    let times = note.times;
    errors.write(
        alloc,
        &format_args!("hyphenate-convert: {path}:{line}: note: {kind} ({times})\n"),
    );
}

// Writes all notes.
fn report_notes<E: Write>(alloc: Global, paths: &[&str], notes: &[Note], errors: &mut Messages<E>)
    ensures { Tells E.contents errors.old errors.new (notes_text (texts_now paths.now) notes.now) }
{
    for note in notes {
        report_note(alloc, paths, note, errors);
    }
}

// Writes that memory was refused, and returns the status.
fn report_memory<E: Write>(alloc: Global, errors: &mut Messages<E>) -> u8
    ensures status { result ≡ 6 }
    ensures told { Tells E.contents errors.old errors.new NO_MEMORY.now }
{
    errors.write(alloc, &NO_MEMORY);
    6
}

// Writes that the file of a number can't be opened or read, and returns the status.
fn report_unread<E: Write>(
    alloc: Global,
    paths: &[&str],
    index: usize,
    e: &io::Error,
    errors: &mut Messages<E>,
) -> u8
    ensures out_of_memory { error_kind e.now ≡ ErrorKind.OutOfMemory →
        (result ≡ 6) × Tells E.contents errors.old errors.new NO_MEMORY.now }
    ensures other { error_kind e.now ≢ ErrorKind.OutOfMemory → result ≡ 3 }
{
    if is_out_of_memory(e) {
        return report_memory(alloc, errors);
    }
    let path = path_at(paths, index);
    errors.write(alloc, &format_args!("hyphenate-convert: {path}: {e}\n"));
    3
}

// Writes why a file is refused, and returns the status.
fn report_refused<E: Write>(
    alloc: Global,
    paths: &[&str],
    error: &ConvertError,
    errors: &mut Messages<E>,
) -> u8
    ensures status { IsStatusOf (Failure.Refused error.now) result }
    ensures told { TellsFailure (texts_now paths.now) (Failure.Refused error.now) (Tells E.contents errors.old errors.new) }
{
    match error {
        ConvertError::Fault { file, line, cause } => {
            let path = path_at(paths, *file);
            errors.write(
                alloc,
                &format_args!("hyphenate-convert: {path}:{line}: {cause}\n"),
            );
            3
        }
        ConvertError::Memory => report_memory(alloc, errors),
    }
}

// Writes why a conversion failed, and returns the status.
fn report<E: Write>(
    alloc: Global,
    paths: &[&str],
    failure: &Failure,
    errors: &mut Messages<E>,
) -> u8
    ensures status { IsStatusOf failure.now result }
    ensures told { TellsFailure (texts_now paths.now) failure.now (Tells E.contents errors.old errors.new) }
{
    match failure {
        Failure::Reading(index, e) => report_unread(alloc, paths, *index, e, errors),
        Failure::Refused(error) => report_refused(alloc, paths, error, errors),
        Failure::Minima => {
            errors.write(
                alloc,
                &"hyphenate-convert: no file says the minima: give LEFT and RIGHT\n",
            );
            2
        }
        Failure::Writing => {
            errors.write(alloc, &"hyphenate-convert: the result can't be written\n");
            5
        }
        Failure::Memory => report_memory(alloc, errors),
    }
}

// Returns the files of arguments, which come after four others.
fn files_in<'w, 'a>(args: &'a [&'w str]) -> &'a [&'w str]
    ensures { texts_now result.now ≡ files_in (texts_now args.now) }
{
    match args {
        [_, _, _, _, files @ ..] => files,
        _ => &[],
    }
}

// Returns the file of a number in arguments.
fn file_at<'w>(args: &[&'w str], index: usize) -> &'w str
    ensures { result.now ≡ path_at (files_in (texts_now args.now)) index }
{
    path_at(files_in(args), index)
}

// Writes that the file of a number is rejected, and returns the status.
fn report_rejected_file<E: Write>(
    alloc: Global,
    args: &[&str],
    index: usize,
    why: &str,
    errors: &mut Messages<E>,
) -> u8
    ensures status { result ≡ 2 }
    ensures told { Tells E.contents errors.old errors.new (rejection_of (texts_now args.now) index why.now) }
{
    let path = file_at(args, index);
    errors.write(alloc, &format_args!("hyphenate-convert: {path}: {why}\n"));
    2
}

// Writes why the arguments are rejected, and returns the status.
fn report_rejected_args<E: Write>(
    alloc: Global,
    args: &[&str],
    bad_args: BadArgs,
    errors: &mut Messages<E>,
) -> u8
    ensures status { result ≡ 2 }
    ensures told { Tells E.contents errors.old errors.new (rejection_message (texts_now args.now) bad_args) }
{
    match bad_args {
        BadArgs::NoForm => {
            errors.write(alloc, &USAGE);
            2
        }
        BadArgs::Ending(index) => report_rejected_file(
            alloc,
            args,
            index,
            "a file is .dic, .tex, .pat.txt or .hyp.txt, and this is none of them",
            errors,
        ),
        BadArgs::NotAlone(index) => {
            report_rejected_file(alloc, args, index, "a .dic is converted alone", errors)
        }
        BadArgs::OtherLanguage(index) => report_rejected_file(
            alloc,
            args,
            index,
            "another language than the file before it, by its name",
            errors,
        ),
    }
}

/// Does what the arguments ask for, and returns the status to end with.
///
/// | Status | When |
/// |---|---|
/// | 0 | it is done |
/// | 2 | the arguments have no form of the usage, or the minima are missing |
/// | 3 | a file can't be opened, read or understood |
/// | 5 | the result can't be written |
/// | 6 | memory was refused |
///
/// With any status but 0 exactly its message is written to `errors`, except if the text of `--help` or `--version` can't
/// be written. With status 0 `errors` gets exactly the notes on the files: what was left out or decided. The output is as
/// it was unless the status is 0 or 5.
///
/// ```text
/// let args = ["standard", "en-us", "2", "3", "hyph-en-us.tex"];
/// answer(&rt, rt.alloc(), &args, &mut rt.stdout(), &mut errors)    // 0
/// ```
pub fn answer<F: NamedFiles, O: Write, E: Write>(
    files: &F,
    alloc: Global,
    args: &[&str],
    output: &mut O,
    errors: &mut Messages<E>,
) -> u8
    ensures help { WritesHelp NAME.now VERSION.now USAGE.now args.now (Some result) O.contents output.old output.new }
    ensures written { asked_text args.now ≡ None → result ≡ 0 →
        WritesFor args.now (F.bytes files.now) O.contents output.old output.new }
    ensures exit_status { asked_text args.now ≡ None → IsExitStatus result }
    ensures ended { EndsUnlessAsked args.now (F.bytes files.now) result (Tells E.contents errors.old errors.new) }
    ensures quiet { is_some (asked_text args.now) ≡ true → errors.new ≡ errors.old }
    ensures untouched { BeforeOutput result (output.new ≡ output.old) }
{
    if let Some(status) = write_help_or_version(NAME, USAGE, args, output) {
        return status;
    }
    let request = match Request::from_args(args) {
        Ok(request) => request,
        Err(bad_args) => return report_rejected_args(alloc, args, bad_args, errors),
    };
    match run(files, alloc, &request, output) {
        Ok(notes) => {
            report_notes(alloc, request.paths, &notes, errors);
            0
        }
        Err(failure) => report(alloc, request.paths, &failure, errors),
    }
}
