//! TeX files and plain ones, split into pieces, and scanned for the words of their groups.

ghost use Rattle.std.specs.Prelude.{◌≡◌, ◌+◌, ◌<◌, ◌^◌, IfOk, OnOk, map, fold};
ghost use Rattle.hyphenation_grammar.specs.Lines.{is_same};
ghost use Rattle.tex_files.specs.Converting.{words_of, group_fault};
ghost use Rattle.tex_files.specs.Groups.{is_space, with_piece_outside, closed_at, with_read_byte, with_piece_ended, with_byte, pieces_of};
ghost use Rattle.tex_files.specs.Groups.{place_after, with_piece, with_plain, nothing_scanned, nothing_lexed, groups, plain_words};
ghost use Rattle.hyphenation_grammar.specs.Tokens.{is_brace};
ghost use Rattle.tex_files.specs.Private.Views.{piece_view, lexer_view, scan_view, word_view};

use crate::group::{FileForm, Group, Place, Word};
use pattern_results::errors::FileCause;
use std::alloc::{AllocError, Global};
use std::mem;

// Whether a byte is white space within a line.
fn is_space(b: u8) -> bool
    ensures { result ≡ is_space b }
{
    matches!(b, b' ' | b'\t' | 12 | b'\r')
}

// Whether a byte is a brace.
fn is_brace(b: u8) -> bool
    ensures { result ≡ is_brace b }
{
    matches!(b, b'{' | b'}')
}

// A piece of a file, and the number of its line, counted from 1.
#[derive(Drop)]
pub(crate) struct FilePiece {
    pub(crate) line: usize,
    pub(crate) text: Vec<u8>,
}

// A reader of bytes into pieces: the line, whether its comment has begun, the pieces that ended, and the one that goes
// on.
#[derive(Drop)]
struct Lexer {
    line: usize,
    in_comment: bool,
    pieces: Vec<FilePiece>,
    last: Vec<u8>,
}

impl Lexer {
    // A reader at the start of a file.
    fn new(alloc: Global) -> Lexer
        ensures { lexer_view result ≡ nothing_lexed }
    {
        Lexer {
            line: 1,
            in_comment: false,
            pieces: Vec::new(alloc),
            last: Vec::new(alloc),
        }
    }

    // Ends the piece that goes on. The next piece begins with these bytes.
    fn end(&mut self, next: Vec<u8>) -> Result<(), AllocError>
        ensures { OnOk result (lexer_view self.new ≡ with_piece_ended (lexer_view self.old) next.items) }
    {
        let text = mem::replace(&mut self.last, next);
        self.pieces.push(FilePiece {
            line: self.line,
            text,
        })?;
        Ok(())
    }

    // Reads a byte that neither is in a comment, nor begins one, nor ends a line.
    fn take_byte(&mut self, alloc: Global, b: u8) -> Result<(), AllocError>
        ensures { OnOk result (lexer_view self.new ≡ with_read_byte (lexer_view self.old) b) }
    {
        if is_space(b) {
            return self.end(Vec::new(alloc));
        }
        if is_brace(b) {
            self.end(vec![in alloc; b]?)?;
            return self.end(Vec::new(alloc));
        }
        if b == b'\\' {
            return self.end(vec![in alloc; b]?);
        }
        self.last.push(b)?;
        Ok(())
    }

    // Reads a byte.
    fn take(&mut self, alloc: Global, b: u8) -> Result<(), AllocError>
        requires { self.old.line + 1 < 2 ^ 64 }
        ensures { OnOk result (lexer_view self.new ≡ with_byte (lexer_view self.old) b) }
    {
        if b == b'\n' {
            self.end(Vec::new(alloc))?;
            self.line += 1;
            self.in_comment = false;
            return Ok(());
        }
        if self.in_comment || b == b'%' {
            self.in_comment = true;
            return Ok(());
        }
        self.take_byte(alloc, b)
    }
}

// Splits a file into its pieces.
pub(crate) fn pieces_of(alloc: Global, bytes: &[u8]) -> Result<Vec<FilePiece>, AllocError>
    ensures { IfOk result (λ found. map piece_view found.items ≡ pieces_of bytes.now) }
{
    let mut lexer = Lexer::new(alloc);
    for b in bytes {
        lexer.take(alloc, *b)?;
    }
    lexer.end(Vec::new(alloc))?;
    Ok(lexer.pieces)
}

// A scan of pieces: the words of groups that it found, and the place of the next piece. It keeps whether the file has
// ended, and the first fault of a group with its line.
#[derive(Drop)]
pub(crate) struct Scan {
    words: Vec<Word>,
    place: Place,
    at_end: bool,
    fault: Option<(usize, FileCause)>,
}

// Whether a piece is that text.
pub(crate) fn is_text(piece: &[u8], text: &str) -> bool
    ensures { result ≡ is_same piece.now text.now }
{
    piece == text.as_bytes()
}

// The place of the next piece, after a piece outside of groups.
fn place_after(piece: &[u8]) -> Place
    ensures { result ≡ place_after piece.now }
{
    if is_text(piece, "\\patterns") {
        Place::Before(Group::Patterns)
    } else if is_text(piece, "\\hyphenation") {
        Place::Before(Group::Exceptions)
    } else {
        Place::Outside
    }
}

impl Scan {
    // A scan at the start of a file.
    fn new(alloc: Global) -> Scan
        ensures { scan_view result ≡ nothing_scanned }
    {
        Scan {
            words: Vec::new(alloc),
            place: Place::Outside,
            at_end: false,
            fault: None,
        }
    }

    // Takes in a piece that is outside of groups.
    fn take_outside(&mut self, line: usize, text: &[u8])
        ensures { scan_view self.new
            ≡ with_piece_outside (scan_view self.old) (record { line = line; text = text.now }) }
    {
        if is_text(text, "\\input") {
            self.at_end = true;
            self.fault = Some((line, FileCause::Input));
            return;
        }
        if is_text(text, "\\endinput") {
            self.at_end = true;
            return;
        }
        self.place = place_after(text);
    }

    // Takes in a piece.
    fn take(&mut self, alloc: Global, piece: &FilePiece) -> Result<(), AllocError>
        ensures { OnOk result (scan_view self.new ≡ with_piece (scan_view self.old) (piece_view piece.now)) }
    {
        if self.at_end || piece.text.is_empty() {
            return Ok(());
        }
        match self.place {
            Place::Outside => {
                self.take_outside(piece.line, &piece.text);
                Ok(())
            }
            Place::Before(group) => {
                if is_text(&piece.text, "{") {
                    self.place = Place::Within(group, piece.line);
                } else {
                    self.take_outside(piece.line, &piece.text);
                }
                Ok(())
            }
            Place::Within(group, _) => {
                if is_text(&piece.text, "}") {
                    self.place = Place::Outside;
                    return Ok(());
                }
                self.words.push(Word {
                    line: piece.line,
                    group,
                    text: Vec::from_slice(alloc, &piece.text)?,
                })?;
                Ok(())
            }
        }
    }

    // Ends the scan with the file. A group that is still open is a fault on its first line.
    fn close(&mut self)
        ensures { scan_view self.new ≡ closed_at (scan_view self.old).place (scan_view self.old) }
    {
        if let Place::Within(_, opened) = self.place {
            self.fault = Some((opened, FileCause::Unclosed));
        }
    }
}

// Scans all pieces of a file for groups.
fn groups(alloc: Global, pieces: &[FilePiece]) -> Result<Scan, AllocError>
    ensures { IfOk result (λ scan. scan_view scan ≡ groups (map piece_view pieces.now)) }
{
    let mut scan = Scan::new(alloc);
    for piece in pieces {
        scan.take(alloc, piece)?;
    }
    scan.close();
    Ok(scan)
}

// The words of a plain file: its pieces.
fn plain_words(alloc: Global, group: Group, pieces: &[FilePiece]) -> Result<Vec<Word>, AllocError>
    ensures { IfOk result (λ words. map word_view words.items ≡ plain_words group (map piece_view pieces.now)) }
{
    let mut words = Vec::new(alloc);
    for piece in pieces {
        if !piece.text.is_empty() {
            words.push(Word {
                line: piece.line,
                group,
                text: Vec::from_slice(alloc, &piece.text)?,
            })?;
        }
    }
    Ok(words)
}

/// The words of a file's groups, and the first fault of the groups with its line. A fault comes after all words.
pub(crate) fn words_of(
    alloc: Global,
    form: FileForm,
    bytes: &[u8],
) -> Result<(Vec<Word>, Option<(usize, FileCause)>), AllocError>
    ensures words { IfOk result (λ found. map word_view found.0.items ≡ words_of form bytes.now) }
    ensures fault { IfOk result (λ found. found.1 ≡ group_fault form bytes.now) }
{
    let pieces = pieces_of(alloc, bytes)?;
    match form {
        FileForm::Tex => {
            let Scan { words, fault, .. } = groups(alloc, &pieces)?;
            Ok((words, fault))
        }
        FileForm::Plain(group) => Ok((plain_words(alloc, group, &pieces)?, None)),
    }
}
