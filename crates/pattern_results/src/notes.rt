//! Remarks on files that give a dictionary: what was left out and what was decided, each kind with its first line.

ghost use Rattle.std.specs.Prelude.{◌≡◌, OnErr, OnOk, position};
ghost use Rattle.pattern_results.specs.Notes.{counted_note, earlier_line, is_same_kind, with_remark};

use std::alloc::AllocError;
use std::fmt;

/// A line of a file: the file, counted from 0, and the line, counted from 1.
#[derive(Clone, Copy, Debug)]
pub struct LineRef {
    pub file: usize,
    pub line: usize,
}

/// The kind of a remark. `Display` has its message.
#[derive(Clone, Copy, Debug, PartialEq, Eq)]
pub enum NoteKind {
    Setting,
    NoLevels,
    TwoLevels,
    NoMinima,
    NoHyphen,
    NoCharset,
    HidesValue,
    ChangeForbidden,
    ChangeNumber,
    ChangeParts,
    ChangeWithoutEquals,
    ChangePastKey,
    ChangeWithoutValue,
    ChangeOfSeveral,
    TwoValues,
    NoLetters,
    NoValue,
    Repeated,
    Capital,
    ExceptionRepeated,
}

/// Writes what was left out or decided, as `a repeated pattern: the last is taken`.
impl fmt::Display for NoteKind {
    ghost use Rattle.std.specs.Prelude.{Some};
    ghost use Rattle.pattern_results.specs.Messages.{note_message};

    ghost output = { λ kind. Some (note_message kind) };

    fn fmt<W: fmt::Write>(&self, f: &mut fmt::Formatter<W>) -> fmt::Result {
        f.write_str(match self {
            NoteKind::Setting => "a setting that a dictionary text can't say, left out",
            NoteKind::NoLevels =>
                "no NEXTLEVEL: the breaks that LibreOffice itself adds at - and ' are not there",
            NoteKind::TwoLevels =>
                "two levels, joined: LibreOffice hyphenates parts of compounds apart, so its breaks may differ",
            NoteKind::NoMinima => "no minima in the file: 2 and 2, as LibreOffice takes them",
            NoteKind::NoHyphen => "NOHYPHEN: said by patterns with the value 8 at both sides",
            NoteKind::NoCharset =>
                "no charset on line 1: read as ISO8859-1, as in LibreOffice, and line 1 as any other",
            NoteKind::HidesValue =>
                "a pattern that hides a shorter one from LibreOffice, so its breaks may differ",
            NoteKind::ChangeForbidden =>
                "a pattern with a change: a standard dictionary forbids that break",
            NoteKind::ChangeNumber => "a change with a bad number, left out with its pattern",
            NoteKind::ChangeParts =>
                "a change with a wrong number of parts, left out with its pattern",
            NoteKind::ChangeWithoutEquals =>
                "a change without exactly one =, left out with its pattern",
            NoteKind::ChangePastKey =>
                "a change past the pattern's letters, left out with its pattern",
            NoteKind::ChangeWithoutValue =>
                "a change with no odd value in its range, left out with its pattern",
            NoteKind::ChangeOfSeveral =>
                "a change with several odd values in its range: it goes to one of them",
            NoteKind::TwoValues => "two values in one place: the last is taken",
            NoteKind::NoLetters => "a pattern without letters, left out",
            NoteKind::NoValue => "a pattern without values, kept; it bears on nothing",
            NoteKind::Repeated => "a repeated pattern: the last is taken",
            NoteKind::Capital => "a pattern or an exception with capitals: read in small letters",
            NoteKind::ExceptionRepeated => "a repeated exception: the last is taken",
        })
    }
}

/// A remark: its kind, the line that it is first made on, and how often it is made.
#[derive(Clone, Copy, Debug)]
pub struct Note {
    pub kind: NoteKind,
    pub first: LineRef,
    pub times: u64,
}

// Tests whether a note is of a kind.
#[tactic(auto, unfolding(crate::specs::Notes::is_same_kind))]
fn is_of(note: &Note, kind: NoteKind) -> bool
    ensures { result ≡ is_same_kind note.now.kind kind }
{
    note.kind == kind
}

// Returns the place of the note of a kind.
fn place_of(notes: &[Note], kind: NoteKind) -> Option<usize>
    ensures { result ≡ position (λ note. is_same_kind note.kind kind) notes.now }
{
    notes.iter().position(|note| is_of(note, kind))
}

// Returns the first line of a note and of one remark more: the least one in the file of the note.
fn earlier_line(first: LineRef, at: LineRef) -> LineRef
    ensures { result ≡ earlier_line first at }
{
    if at.file == first.file && at.line < first.line {
        at
    } else {
        first
    }
}

// Returns a note after one remark more of its kind.
fn counted_note(note: Note, kind: NoteKind, at: LineRef) -> Note
    ensures { result ≡ counted_note (record { kind = kind; at = at }) note }
{
    Note {
        kind: note.kind,
        first: earlier_line(note.first, at),
        times: note.times.saturating_add(1),
    }
}

/// Notes a remark on a line. A new kind of remark is appended. One that is there already is counted once more, with the
/// least line of its first file.
///
/// The only error is out of memory, and then the notes are unchanged.
pub fn add_note(notes: &mut Vec<Note>, kind: NoteKind, at: LineRef) -> Result<(), AllocError>
    ensures noted { OnOk result (notes.new.items ≡ with_remark notes.old.items (record { kind = kind; at = at })) }
    ensures unchanged_on_error { OnErr result (notes.new.items ≡ notes.old.items) }
{
    match place_of(notes, kind) {
        Some(place) => {
            notes[place] = counted_note(notes[place], kind, at);
        }
        None => notes.push(Note {
            kind,
            first: at,
            times: 1,
        })?,
    }
    Ok(())
}
