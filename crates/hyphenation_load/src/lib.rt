//! Reading, loading and writing dictionaries.
//!
//! A dictionary is a text; docs/DICTIONARY_TEXT.md has its format. A reader is read to its end before any line is
//! judged, and a text is whole before any of it is written.
#![tactic(auto)]

ghost use Rattle.std.specs.Prelude.{◌≡◌, ◌≢◌, ◌↔◌, Ok, Err, None, Some, List, ℕ, IfOk, IfErr, IfSome, IsTrue, Option, OnOk, MatchResult, alloc_error};
ghost use Rattle.std.specs.Io.KnownBytes.{IsAtEnd};
ghost use Rattle.std.specs.IoError.{error_kind};
ghost use Rattle.hyphenation_grammar.specs.declared.Cause.{Cause};
ghost use Rattle.hyphenation_load.specs.Load.{Loads, LoadsIn, LoadsFile, LoadsSomeFile, IsNotMissing, IsNotThere, RespectsLanguage, HasNoMismatch};
ghost use Rattle.named_files.specs.Files.{known_bytes};
ghost use Rattle.hyphenation_load.specs.Load.{IsNotIo, IsNotOutOfMemory, AppendsTo, IfMemory, IsReadError, IsWriteError};
ghost use Rattle.hyphenation_load.specs.Private.Load.{error_of, ChecksLanguage};

use hyphenation_breaks::breaks::Break;
use hyphenation_breaks::entry::Payload;
use hyphenation_breaks::language::Language;
use hyphenation_dictionary::dictionary::{Dictionary, Extended, Standard};
pub use hyphenation_grammar::{Cause, Error, Result};
use hyphenation_reader::reader::{Refusal, take_extended, take_standard};
use hyphenation_writer::writer::{write_extended, write_standard};
use named_files::NamedFiles;
use std::alloc::{AllocError, Global};
use std::io;
use std::io::{ErrorKind, Read, Write};

/// A kind of dictionary that is loaded from its text and written as one.
pub trait Load: Sized {
    /// The line and cause for which a text is refused; none if it is accepted.
    ghost refusal: { List ℕ → Option (ℕ × Cause) };

    /// The dictionary that an accepted text gives.
    ghost contents: { List ℕ → Self };

    /// The code of a dictionary's language.
    ghost language: { Self → List ℕ };

    /// The canonical text of a dictionary.
    ghost canonical: { Self → List ℕ };

    /// Makes a dictionary of any language from the result of reading its text.
    ///
    /// Bytes give the dictionary, or `Error::Deserialization` with the first faulty line and the first test that it
    /// fails. An I/O error becomes `Error::Memory` if its kind is `OutOfMemory`, else `Error::IO` with that error.
    /// `Error::Memory` also says that memory for the dictionary was refused.
    ///
    /// ```text
    /// let dictionary = Standard::from_read(alloc, read_all(alloc, &mut file))?;
    /// ```
    fn from_read(alloc: Global, read: io::Result<Vec<u8>>) -> Result<Self>
        ensures loaded { IfOk read (λ bytes. Loads (refusal bytes.items) (contents bytes.items) result) }
        ensures no_io_error { IfOk read (λ _. IsNotIo result) }
        ensures memory { IfErr read (λ e.
            error_kind e ≡ ErrorKind.OutOfMemory → result ≡ Err (Error.Memory alloc_error)) }
        ensures io_error { IfErr read (λ e. error_kind e ≢ ErrorKind.OutOfMemory → result ≡ Err (Error.IO e)) };

    /// Loads a dictionary of any language from all bytes that a reader has left.
    ///
    /// The reader is read to its end, then the lines are judged. So an I/O error comes before any
    /// `Error::Deserialization`. How far the reader was read after an error is not said.
    ///
    /// ```text
    /// let mut text = &b"hyphenation 1 standard\nlanguage en-us\nminima 2 3\ne hyphenation 2 6 7\n"[..];
    /// let dictionary = Standard::any_from_reader(alloc, &mut text)?;
    /// ```
    fn any_from_reader<R: Read>(alloc: Global, reader: &mut R) -> Result<Self>
        ensures loaded { IfSome (R.remaining reader.old) (λ bytes. Loads (refusal bytes) (contents bytes) result) }
        ensures read_to_end { OnOk result (IsAtEnd (R.remaining reader.new)) }
        ensures no_mismatch { HasNoMismatch result }
        ensures not_out_of_memory { IfErr result IsNotOutOfMemory };

    /// Loads a dictionary of the language `lang` from all bytes that a reader has left.
    ///
    /// An accepted text of another language gives `Error::LanguageMismatch`. The other errors are those of
    /// `any_from_reader`.
    ///
    /// ```text
    /// let mut text = &b"hyphenation 1 standard\nlanguage en-us\nminima 2 3\n"[..];
    /// // Err(LanguageMismatch { expected: hu, found: en-us })
    /// Standard::from_reader(alloc, Language::hungarian(), &mut text)
    /// ```
    fn from_reader<R: Read>(alloc: Global, lang: Language, reader: &mut R) -> Result<Self>
        ensures loaded { IfSome (R.remaining reader.old) (λ bytes.
            LoadsIn refusal contents language lang bytes result) }
        ensures read_to_end { OnOk result (IsAtEnd (R.remaining reader.new)) }
        ensures in_language { RespectsLanguage language lang result }
        ensures not_out_of_memory { IfErr result IsNotOutOfMemory };

    /// Loads a dictionary of the language `lang` from the file at a path: opens it, and reads it by `from_reader`.
    ///
    /// If it can't be opened, the error is `Error::Memory` if its kind is `OutOfMemory`, else `Error::IO` with it. If
    /// there is no such file, its kind is `NotFound`.
    ///
    /// ```text
    /// let lang = Language::from_code("en-gb").unwrap();
    /// let dictionary = Standard::from_path(&rt, rt.alloc(), lang, "examples/firkin.txt")?;
    /// ```
    fn from_path<F: NamedFiles>(rt: &F, alloc: Global, lang: Language, path: &str) -> Result<Self>
        ensures of_file { LoadsFile refusal contents language lang (F.bytes rt.now path.now) result }
        ensures of_some_file { LoadsSomeFile F.File.remaining refusal contents language lang result }
        ensures in_language { RespectsLanguage language lang result }
        ensures not_out_of_memory { IfErr result IsNotOutOfMemory };

    /// Returns the canonical text of the dictionary, from which this very dictionary is loaded again.
    ///
    /// It has the three head lines, then a line for each key, then one for each exception, both in the order of their
    /// bytes. Only bytes that must be escaped are. It is of version 1 if each value is at most 9, else of version 2.
    /// The only error is that memory was refused.
    ///
    /// ```text
    /// let text = dictionary.to_text(alloc)?;
    /// let again = Standard::any_from_reader(alloc, &mut text.as_slice())?;    // equal to dictionary
    /// ```
    fn to_text(&self, alloc: Global) -> std::result::Result<Vec<u8>, AllocError>
        ensures canonical { IfOk result (λ text. text.items ≡ canonical self.now) }
        ensures accepted { IfOk result (λ text. refusal text.items ≡ None) }
        ensures read_again { IfOk result (λ text. self.now ≡ contents text.items) };

    /// Writes the canonical text of the dictionary, once all of it is made.
    ///
    /// `Error::Memory` says that memory for the text was refused, and then nothing was written. `Error::IO` holds the
    /// error of the writer, whatever its kind, and then a beginning of the text may be written.
    ///
    /// ```text
    /// dictionary.to_writer(alloc, &mut rt.stdout())?;
    /// ```
    fn to_writer<W: Write>(&self, alloc: Global, writer: &mut W) -> Result<()>
        ensures written { OnOk result (AppendsTo W.contents writer.old writer.new (canonical self.now)) }
        ensures accepted { OnOk result (refusal (canonical self.now) ≡ None) }
        ensures read_again { OnOk result (self.now ≡ contents (canonical self.now)) }
        ensures unwritten_without_memory { IfMemory result (writer.new ≡ writer.old) }
        ensures write_error { IfErr result IsWriteError };
}

/// Returns all bytes that a reader has left. Any error is that of the reader.
pub fn read_all<R: Read>(alloc: Global, reader: &mut R) -> io::Result<Vec<u8>>
    ensures read { IfOk result (λ read. IfSome (R.remaining reader.old) (λ bytes. read.items ≡ bytes)) }
    ensures read_to_end { OnOk result (IsAtEnd (R.remaining reader.new)) }
{
    let mut bytes = Vec::new(alloc);
    reader.read_to_end(&mut bytes)?;
    Ok(bytes)
}

/// Reports whether an I/O error says that memory was refused.
pub fn is_out_of_memory(error: &io::Error) -> bool
    ensures { IsTrue result ↔ (error_kind error.now ≡ ErrorKind.OutOfMemory) }
{
    matches!(error.kind(), ErrorKind::OutOfMemory)
}

// The dictionary, if it is of that language.
fn of_language<C: Payload, B: Break>(
    lang: Language,
    dictionary: Dictionary<C, B>,
) -> Result<Dictionary<C, B>>
    ensures { ChecksLanguage lang dictionary result }
{
    let found = dictionary.language();
    if found != lang {
        return Err(Error::LanguageMismatch {
            expected: lang,
            found,
        });
    }
    Ok(dictionary)
}

// The refusal of a text as an error of loading.
fn error_of(refusal: Refusal) -> Error
    ensures { result ≡ error_of refusal }
{
    match refusal {
        Refusal::Memory => Error::Memory(AllocError),
        Refusal::Fault { line, cause } => Error::Deserialization { line, cause },
    }
}

/// Returns an error of opening or reading a dictionary as an error of loading it.
///
/// It is `Error::Memory` if its kind is `OutOfMemory`, else `Error::IO` with it.
///
/// ```text
/// error_of_reading(io::Error::from(ErrorKind::NotFound))       // Error::IO
/// ```
pub fn error_of_reading(e: io::Error) -> Error
    ensures out_of_memory { error_kind e ≡ ErrorKind.OutOfMemory → result ≡ Error.Memory alloc_error }
    ensures other { error_kind e ≢ ErrorKind.OutOfMemory → result ≡ Error.IO e }
    ensures read_error { IsReadError result }
{
    if is_out_of_memory(&e) {
        return Error::Memory(AllocError);
    }
    Error::IO(e)
}

/// Opens the file at a path, to load a dictionary from it.
///
/// The errors are those of [`error_of_reading`]. If there is no such file, the error is `Error::IO` of the kind
/// `NotFound`.
///
/// ```text
/// let mut file = open_dictionary(&rt, "examples/firkin.txt")?;
/// ```
pub fn open_dictionary<F: NamedFiles>(rt: &F, path: &str) -> Result<F::File>
    ensures bytes { IfOk result (λ file. IfSome (known_bytes (F.bytes rt.now path.now)) (λ known.
        F.File.remaining file ≡ Some known)) }
    ensures absent { F.bytes rt.now path.now ≡ Some None → IsNotThere result }
    ensures present { IfSome (known_bytes (F.bytes rt.now path.now)) (λ _. IsNotMissing result) }
    ensures read_error { IfErr result IsReadError }
{
    rt.open(path).map_err(error_of_reading)
}

// Writes a text that was made, or returns the error that memory for it was refused.
fn write_if_made<W: Write>(
    text: std::result::Result<Vec<u8>, AllocError>,
    writer: &mut W,
) -> Result<()>
    ensures written { OnOk result (MatchResult text (λ text. AppendsTo W.contents writer.old writer.new text.items) (λ _. ⊥)) }
    ensures unwritten_without_memory { IfMemory result (writer.new ≡ writer.old) }
    ensures write_error { IfErr result IsWriteError }
{
    let text = text.map_err(Error::Memory)?;
    writer.write_all(&text).map_err(Error::IO)
}

impl Load for Standard {
    ghost use Rattle.hyphenation_grammar.specs.declared.form.Kind.TheVariants.{Standard as OfStandard};
    ghost use Rattle.hyphenation_grammar.specs.Reading.{standard_contents};
    ghost use Rattle.hyphenation_grammar.specs.Judging.{refusal_of};
    ghost use Rattle.hyphenation_writer.specs.Canonical.{standard_text};

    ghost refusal = { refusal_of OfStandard };

    ghost contents = { standard_contents };

    ghost language = { λ dictionary. dictionary.language };

    ghost canonical = { standard_text };

    fn from_read(alloc: Global, read: io::Result<Vec<u8>>) -> Result<Standard> {
        match read {
            Ok(bytes) => match take_standard(alloc, bytes) {
                Ok(dictionary) => Ok(dictionary),
                Err(refusal) => Err(error_of(refusal)),
            },
            Err(e) => Err(error_of_reading(e)),
        }
    }

    fn any_from_reader<R: Read>(alloc: Global, reader: &mut R) -> Result<Standard> {
        Self::from_read(alloc, read_all(alloc, reader))
    }

    fn from_reader<R: Read>(alloc: Global, lang: Language, reader: &mut R) -> Result<Standard> {
        of_language(lang, Self::any_from_reader(alloc, reader)?)
    }

    fn from_path<F: NamedFiles>(
        rt: &F,
        alloc: Global,
        lang: Language,
        path: &str,
    ) -> Result<Standard> {
        let mut file = open_dictionary(rt, path)?;
        Self::from_reader(alloc, lang, &mut file)
    }

    fn to_text(&self, alloc: Global) -> std::result::Result<Vec<u8>, AllocError> {
        write_standard(alloc, self)
    }

    fn to_writer<W: Write>(&self, alloc: Global, writer: &mut W) -> Result<()> {
        write_if_made(self.to_text(alloc), writer)
    }
}

impl Load for Extended {
    ghost use Rattle.hyphenation_grammar.specs.declared.form.Kind.TheVariants.{Extended as OfExtended};
    ghost use Rattle.hyphenation_grammar.specs.Reading.{extended_contents};
    ghost use Rattle.hyphenation_grammar.specs.Judging.{refusal_of};
    ghost use Rattle.hyphenation_writer.specs.Canonical.{extended_text};

    ghost refusal = { refusal_of OfExtended };

    ghost contents = { extended_contents };

    ghost language = { λ dictionary. dictionary.language };

    ghost canonical = { extended_text };

    fn from_read(alloc: Global, read: io::Result<Vec<u8>>) -> Result<Extended> {
        match read {
            Ok(bytes) => match take_extended(alloc, bytes) {
                Ok(dictionary) => Ok(dictionary),
                Err(refusal) => Err(error_of(refusal)),
            },
            Err(e) => Err(error_of_reading(e)),
        }
    }

    fn any_from_reader<R: Read>(alloc: Global, reader: &mut R) -> Result<Extended> {
        Self::from_read(alloc, read_all(alloc, reader))
    }

    fn from_reader<R: Read>(alloc: Global, lang: Language, reader: &mut R) -> Result<Extended> {
        of_language(lang, Self::any_from_reader(alloc, reader)?)
    }

    fn from_path<F: NamedFiles>(
        rt: &F,
        alloc: Global,
        lang: Language,
        path: &str,
    ) -> Result<Extended> {
        let mut file = open_dictionary(rt, path)?;
        Self::from_reader(alloc, lang, &mut file)
    }

    fn to_text(&self, alloc: Global) -> std::result::Result<Vec<u8>, AllocError> {
        write_extended(alloc, self)
    }

    fn to_writer<W: Write>(&self, alloc: Global, writer: &mut W) -> Result<()> {
        write_if_made(self.to_text(alloc), writer)
    }
}
