//! Exceptions that a user lists: one word a line, with hyphens where it may break.
//!
//! ```text
//! # words of my own
//! Stau-becken                  breaks after `Stau` only
//! Urinstinkt                   a word without a hyphen is never broken
//! \hyphenation{as-so-ciate     a group of TeX's, with words between white space
//!   ta-ble}
//! ```
//!
//! A comment begins with `#` or `%`. Capitals are read in small letters.

ghost use Rattle.std.specs.Prelude.{◌≡◌, IfErr, IfOk, None, OnOk, fold, map};
ghost use Rattle.pattern_results.specs.Errors.{IsFileError};
ghost use Rattle.tex_files.specs.ExceptionLists.{as_comment, exceptions_listed, fault_at_end, first_unfit, list_fault};
ghost use Rattle.tex_files.specs.ExceptionLists.{LastLineCounts, list_scan, listing_in, listings_of, nothing_listed};
ghost use Rattle.tex_files.specs.ExceptionLists.{second_cause, with_list_piece, with_listed, with_listing, with_listings};
ghost use Rattle.tex_files.specs.ExceptionLists.{with_exceptions, with_piece_at, with_refused};
ghost use Rattle.tex_files.specs.Private.Views.{IsWordError, list_view, piece_view};
ghost use Rattle.tex_files.specs.Spelling.{word_cause};
ghost use Rattle.tex_files.specs.declared.group.Group.TheVariants.{Exceptions};

use crate::spelling::{has_command, read_exception};
use crate::tex::{FilePiece, is_text, pieces_of};
use crate::word_error::WordError;
use any_dictionary::AnyDictionary;
use hyphenation_breaks::entry::{Listing, Payload};
use hyphenation_dictionary::dictionary::Dictionary;
use pattern_results::errors::{FileCause, FileError};
use std::alloc::{AllocError, Global};

/// The place of a piece in a list of exceptions.
#[derive(Clone, Copy, Debug)]
pub enum ListPlace {
    /// Outside of groups. The line of the last word there, or 0.
    Outside(usize),
    /// After `\hyphenation` on that line, before the brace.
    AfterCommand(usize),
    /// Within a group that was opened on that line.
    InGroup(usize),
}

// Returns a byte of a list with `%` for `#`.
fn as_comment(byte: u8) -> u8
    ensures { result ≡ as_comment byte }
{
    if byte == b'#' { b'%' } else { byte }
}

// Returns a list with `%` for each `#`.
fn with_percent_signs(alloc: Global, text: &[u8]) -> Result<Vec<u8>, AllocError>
    ensures { IfOk result (λ bytes. bytes.items ≡ map as_comment text.now) }
{
    text.iter().map(|byte| as_comment(*byte)).collect(alloc)
}

// Returns the cause for which a second piece on a line is refused.
fn second_cause(text: &[u8]) -> FileCause
    ensures { result ≡ second_cause text.now }
{
    if has_command(text) {
        FileCause::Command
    } else {
        FileCause::Symbol
    }
}

// A scan of a list: the words that it found, the place of the next piece, and the fault that ended it.
#[derive(Drop)]
pub(crate) struct ListScan {
    words: Vec<FilePiece>,
    place: ListPlace,
    fault: Option<(usize, FileCause)>,
}

impl ListScan {
    // A scan at the start of a list.
    fn new(alloc: Global) -> ListScan
        ensures { list_view result ≡ nothing_listed }
    {
        ListScan {
            words: Vec::new(alloc),
            place: ListPlace::Outside(0),
            fault: None,
        }
    }

    // Refuses a line.
    fn refuse(&mut self, line: usize, cause: FileCause)
        ensures { list_view self.new ≡ with_refused (list_view self.old) line cause }
    {
        self.fault = Some((line, cause));
    }

    // Takes in a piece as a word, with the place after it.
    fn push(&mut self, alloc: Global, piece: &FilePiece, next: ListPlace) -> Result<(), AllocError>
        ensures { OnOk result (list_view self.new ≡ with_listed (list_view self.old) (piece_view piece.now) next) }
    {
        self.words.push(FilePiece {
            line: piece.line,
            text: Vec::from_slice(alloc, &piece.text)?,
        })?;
        self.place = next;
        Ok(())
    }

    // Takes in a piece at the scan's place.
    fn take_at(&mut self, alloc: Global, piece: &FilePiece) -> Result<(), AllocError>
        ensures { OnOk result (list_view self.new
            ≡ with_piece_at (list_view self.old).place (list_view self.old) (piece_view piece.now)) }
    {
        match self.place {
            ListPlace::Outside(last) => {
                if piece.line == last {
                    self.refuse(piece.line, second_cause(&piece.text));
                    return Ok(());
                }
                if is_text(&piece.text, "\\hyphenation") {
                    self.place = ListPlace::AfterCommand(piece.line);
                    return Ok(());
                }
                self.push(alloc, piece, ListPlace::Outside(piece.line))
            }
            ListPlace::AfterCommand(line) => {
                if is_text(&piece.text, "{") {
                    self.place = ListPlace::InGroup(piece.line);
                } else {
                    self.refuse(line, FileCause::Command);
                }
                Ok(())
            }
            ListPlace::InGroup(opened) => {
                if is_text(&piece.text, "}") {
                    self.place = ListPlace::Outside(0);
                    return Ok(());
                }
                self.push(alloc, piece, ListPlace::InGroup(opened))
            }
        }
    }

    // Takes in a piece. An empty piece is none, and a fault ends the scan.
    fn take(&mut self, alloc: Global, piece: &FilePiece) -> Result<(), AllocError>
        ensures { OnOk result (list_view self.new ≡ with_list_piece (list_view self.old) (piece_view piece.now)) }
    {
        if self.fault.is_some() || piece.text.is_empty() {
            return Ok(());
        }
        self.take_at(alloc, piece)
    }
}

// Scans pieces.
fn scan_pieces(alloc: Global, pieces: &[FilePiece]) -> Result<ListScan, AllocError>
    ensures { IfOk result (λ scan. list_view scan ≡ fold with_list_piece nothing_listed (map piece_view pieces.now)) }
{
    let mut scan = ListScan::new(alloc);
    for piece in pieces {
        scan.take(alloc, piece)?;
    }
    Ok(scan)
}

// Scans a list.
fn list_scan(alloc: Global, text: &[u8]) -> Result<ListScan, AllocError>
    ensures { IfOk result (λ scan. list_view scan ≡ list_scan text.now) }
{
    let bytes = with_percent_signs(alloc, text)?;
    let pieces = pieces_of(alloc, &bytes)?;
    scan_pieces(alloc, &pieces)
}

// Returns the fault of a list that ends at that place.
fn fault_at_end(place: ListPlace) -> Option<(usize, FileCause)>
    ensures { result ≡ fault_at_end place }
{
    match place {
        ListPlace::Outside(_) => None,
        ListPlace::AfterCommand(line) => Some((line, FileCause::Command)),
        ListPlace::InGroup(opened) => Some((opened, FileCause::Unclosed)),
    }
}

// Lists a word in a dictionary with the breaks at its hyphens. An error leaves the dictionary in no promised state.
fn list_word<C: Payload, B: Listing>(
    alloc: Global,
    dictionary: &mut Dictionary<C, B>,
    text: &[u8],
) -> Result<(), WordError>
    ensures passes_tests { OnOk result (word_cause Exceptions text.now ≡ None) }
    ensures listed { OnOk result (dictionary.new ≡ with_listing dictionary.old (listing_in B.listing_of text.now)) }
    ensures first_failed_test { IfErr result (λ error. IsWordError error (word_cause Exceptions text.now)) }
{
    let (word, listed) = read_exception::<C, B>(alloc, text)?;
    drop(dictionary.insert_exception(word, listed)?);
    Ok(())
}

// Lists words in a dictionary. The error is the first that fails a test, and leaves the dictionary in no promised state.
fn list_words<C: Payload, B: Listing>(
    alloc: Global,
    dictionary: &mut Dictionary<C, B>,
    words: &[FilePiece],
) -> Result<(), FileError>
    ensures pass_tests { OnOk result (first_unfit (map piece_view words.now) ≡ None) }
    ensures listed { OnOk result (dictionary.new
        ≡ with_listings dictionary.old (listings_of B.listing_of (map piece_view words.now))) }
    ensures first_unfit { IfErr result (λ error. IsFileError error (first_unfit (map piece_view words.now))) }
{
    for word in words {
        match list_word(alloc, dictionary, &word.text) {
            Ok(()) => {}
            Err(WordError::Memory) => return Err(FileError::Memory),
            Err(WordError::Fails(cause)) => return Err(FileError::OnLine(word.line, cause)),
        }
    }
    Ok(())
}

/// Returns a dictionary with the exceptions of a list, each in place of the breaks that its word had.
///
/// A list has one word a line, with hyphens where it may break. A word without a hyphen is never broken. A comment begins
/// with `#` or `%`. A group `\hyphenation{..}` of TeX's has words between white space. Words are read in small letters,
/// as words of texts are. If a word is listed several times, the last one counts.
///
/// The error names the first line that is refused, counted from 1, and why: it has two words, a sign that stands in no
/// word, or two hyphens in succession, or it is not UTF-8, or a group that it opens is not closed. Or memory was refused.
///
/// ```text
/// let english = add_exceptions(alloc, dictionary, b"# mine\nHyphen-ation\nnoble\n")?;
/// hyphenated_text(alloc, &english, "A noble hyphenation", "-")?      // A noble hyphen-ation
/// ```
pub fn add_exceptions<C: Payload, B: Listing>(
    alloc: Global,
    dictionary: Dictionary<C, B>,
    text: &[u8],
) -> Result<Dictionary<C, B>, FileError>
    ensures no_fault { OnOk result (list_fault text.now ≡ None) }
    ensures listed { IfOk result (λ d. d ≡ with_listings dictionary (exceptions_listed B.listing_of text.now)) }
    ensures first_fault { IfErr result (λ error. IsFileError error (list_fault text.now)) }
{
    let ListScan {
        words,
        place,
        fault,
    } = list_scan(alloc, text)?;
    let mut dictionary = dictionary;
    list_words(alloc, &mut dictionary, &words)?;
    match fault.or(fault_at_end(place)) {
        Some((line, cause)) => Err(FileError::OnLine(line, cause)),
        None => Ok(dictionary),
    }
}

/// Returns a dictionary of either kind with the exceptions of a list, as [`add_exceptions`] does for one of a known kind.
///
/// The errors are those of [`add_exceptions`].
///
/// ```text
/// let dictionary = add_exceptions_to_any(alloc, dictionary, b"Stau-becken\nUrinstinkt\n")?;
/// dictionary.hyphenated(alloc, "Staubecken", "-")?      // Stau-becken
/// ```
pub fn add_exceptions_to_any(
    alloc: Global,
    dictionary: AnyDictionary,
    text: &[u8],
) -> Result<AnyDictionary, FileError>
    ensures no_fault { OnOk result (list_fault text.now ≡ None) }
    ensures listed { IfOk result (λ d. d ≡ with_exceptions dictionary text.now) }
    ensures first_fault { IfErr result (λ error. IsFileError error (list_fault text.now)) }
{
    match dictionary {
        AnyDictionary::Standard(standard) => Ok(AnyDictionary::Standard(add_exceptions(
            alloc, standard, text,
        )?)),
        AnyDictionary::Extended(extended) => Ok(AnyDictionary::Extended(add_exceptions(
            alloc, extended, text,
        )?)),
    }
}

/// The last line of a list that has a word decides on its breaks. Other words keep what the dictionary has for them.
pub fn the_last_line_counts<C, B>()
    ensures { LastLineCounts C B }
{}
