//! Notes on pages: on their languages that have no dictionary of their own, and on rests that are not read.

ghost use Rattle.std.specs.Prelude.{◌≡◌, ◌==◌, ◌++◌, ◌∷◌, slice_index_or, [], map, IfOk, OnOk};
ghost use Rattle.std.specs.List.{list_all, list_any};
ghost use Rattle.std.specs.String.{string_bytes};
ghost use Rattle.any_dictionary.specs.Dictionaries.{language_by};
ghost use Rattle.command_line.specs.Endings.{Tells, TellsMore};
ghost use Rattle.hyphenation_breaks.specs.Borrowed.{texts_now};
ghost use Rattle.html_pieces.specs.Languages.{languages_of};
ghost use Rattle.language_search.specs.Tags.{codes_of, underscore};
ghost use Rattle.html_command.specs.Notes.{is_empty_tag, is_on_same, language_note, language_notes, note_by_codes, note_without};
ghost use Rattle.html_command.specs.Notes.{variety_note};
ghost use Rattle.html_command.specs.Notes.{line_on, note_line, notes_at, notes_on, notes_text, unread_note, with_new, with_note, words_of};

use crate::varieties::are_other_varieties;
use any_dictionary::AnyDictionary;
use command_line::Messages;
use command_line::inputs::is_standard_input;
use hyphenation_breaks::language::Language;
use hyphenation_html::{HtmlPage, LanguageDictionary, Settings, best_of, unread_line};
use language_search::codes_of;
use std::alloc::{AllocError, Global};
use std::fmt;
use std::io::Write;

/// A note on a page: which of its languages has no dictionary of its own, or how far it is read.
#[derive(Clone, Copy)]
pub enum Note {
    /// The language of this code has no dictionary.
    NoDictionary(Language),
    /// A language has no dictionary, since its tag is no code of a language.
    NoCode,
    /// It names no language, and the arguments name none for it.
    NoLanguage,
    /// The language of this code is hyphenated by a dictionary of another variety of it, which has that code.
    OtherVariety {
        language: Language,
        dictionary: Language,
    },
    /// From this line on, counted from 1, it is left alone, since parsers may read it in different ways.
    LeftAlone(u64),
}

/// A note on the page of this number, counted from 0.
#[derive(Clone, Copy)]
pub struct PageNote {
    pub page: usize,
    pub note: Note,
}

// Returns the note on a language without a dictionary, by the codes of its tag.
fn note_by_codes(codes: &[Language]) -> Note
    ensures { result ≡ note_by_codes codes.now }
{
    match codes {
        [] => Note::NoCode,
        [code, ..] => Note::NoDictionary(*code),
    }
}

// Reports whether a tag has an underscore.
fn has_underscore(tag: &[u8]) -> bool
    ensures { result ≡ list_any (λ byte. byte == underscore) tag.now }
{
    tag.iter().any(|byte| *byte == b'_')
}

// Returns the note on a language without a dictionary, by its tag.
fn note_without(alloc: Global, tag: &str) -> Result<Note, AllocError>
    ensures { IfOk result (λ note. note ≡ note_without tag.now) }
{
    if has_underscore(tag.as_bytes()) {
        return Ok(Note::NoCode);
    }
    let codes = codes_of(alloc, tag)?;
    Ok(note_by_codes(&codes))
}

// Returns the note on a language of these codes, if the dictionary that serves it is one of another variety.
fn variety_note(
    alloc: Global,
    codes: &[Language],
    dictionary: &Language,
) -> Result<Option<Note>, AllocError>
    ensures { IfOk result (λ note. note ≡ variety_note codes.now dictionary.now) }
{
    match codes {
        [] => Ok(None),
        [code, ..] => {
            if are_other_varieties(alloc, code, dictionary)? {
                Ok(Some(Note::OtherVariety {
                    language: *code,
                    dictionary: *dictionary,
                }))
            } else {
                Ok(None)
            }
        }
    }
}

// Returns the note on the language of a tag, if the dictionary that serves it is one of another variety.
fn served_note(
    alloc: Global,
    tag: &str,
    dictionary: &AnyDictionary,
) -> Result<Option<Note>, AllocError>
    ensures { IfOk result (λ note. note ≡ variety_note (codes_of tag.now) (language_by dictionary.now)) }
{
    let codes = codes_of(alloc, tag)?;
    variety_note(alloc, &codes, &dictionary.language())
}

// Returns the note on the language of a tag, if it has no dictionary of its own. An empty tag is that of no language.
fn language_note(
    alloc: Global,
    dictionaries: &[LanguageDictionary],
    tag: &str,
) -> Result<Option<Note>, AllocError>
    ensures { IfOk result (λ note. note ≡ language_note dictionaries.now tag.now) }
{
    if tag.is_empty() {
        return Ok(None);
    }
    match best_of(dictionaries, tag.as_bytes()) {
        Some(one) => served_note(alloc, tag, &one.dictionary),
        None => Ok(Some(note_without(alloc, tag)?)),
    }
}

// Reports whether two notes are on the same language.
fn is_on_same(one: &Note, other: &Note) -> bool
    ensures { result ≡ is_on_same one.now other.now }
{
    match one {
        Note::NoDictionary(one) => match other {
            Note::NoDictionary(other) => one.code() == other.code(),
            _ => false,
        },
        Note::OtherVariety { language: one, .. } => match other {
            Note::OtherVariety {
                language: other,
                ..
            } => one.code() == other.code(),
            _ => false,
        },
        Note::NoCode => matches!(other, Note::NoCode),
        _ => false,
    }
}

// Reports whether one of some notes is on the same language as another one.
fn has_note(notes: &[Note], note: &Note) -> bool
    ensures { result ≡ list_any (λ one. is_on_same one note.now) notes.now }
{
    notes.iter().any(|one| is_on_same(one, note))
}

// Appends a note, if it is not there yet.
fn push_new(notes: &mut Vec<Note>, note: Note) -> Result<(), AllocError>
    ensures { OnOk result (notes.new.items ≡ with_new notes.old.items note) }
{
    if !has_note(notes, &note) {
        notes.push(note)?;
    }
    Ok(())
}

// Appends a note, if there is one, and it is not there yet.
fn push_note(notes: &mut Vec<Note>, note: Option<Note>) -> Result<(), AllocError>
    ensures { OnOk result (notes.new.items ≡ with_note notes.old.items note) }
{
    match note {
        Some(note) => push_new(notes, note),
        None => Ok(()),
    }
}

// Reports whether a tag is that of no language.
fn is_empty_tag(tag: &[u8]) -> bool
    ensures { result ≡ is_empty_tag tag.now }
{
    match tag {
        [] => true,
        [_, ..] => false,
    }
}

// Reports whether no tag is that of a language.
fn are_empty_tags(tags: &[String]) -> bool
    ensures { result ≡ list_all (λ tag. is_empty_tag (string_bytes tag)) tags.now }
{
    tags.iter().all(|tag| is_empty_tag(tag.as_bytes()))
}

// Reports whether neither the arguments name a language for a page, nor the page one.
#[tactic(auto, using(crate::proofs::Tags::all_mapped))]
fn is_in_no_language(language: &str, languages: &[String]) -> bool
    ensures { result ≡ list_all is_empty_tag (language.now ∷ map string_bytes languages.now) }
{
    is_empty_tag(language.as_bytes()) && are_empty_tags(languages)
}

// Returns the notes on the language that the arguments name for a page, and on those that it names.
fn notes_on_languages(
    alloc: Global,
    dictionaries: &[LanguageDictionary],
    language: &str,
    languages: &[String],
) -> Result<Vec<Note>, AllocError>
    ensures { IfOk result (λ notes.
        notes.items ≡ language_notes dictionaries.now (language.now ∷ map string_bytes languages.now)) }
{
    let mut notes = Vec::new(alloc);
    if is_in_no_language(language, languages) {
        notes.push(Note::NoLanguage)?;
        return Ok(notes);
    }
    push_note(&mut notes, language_note(alloc, dictionaries, language)?)?;
    for tag in languages {
        push_note(&mut notes, language_note(alloc, dictionaries, tag)?)?;
    }
    Ok(notes)
}

// Returns the notes on the languages of a page, where the arguments name this one for it.
fn language_notes(
    alloc: Global,
    dictionaries: &[LanguageDictionary],
    language: &str,
    page: &HtmlPage<'_>,
) -> Result<Vec<Note>, AllocError>
    ensures { IfOk result (λ notes. notes.items ≡ language_notes dictionaries.now (language.now ∷ languages_of page.now)) }
{
    let languages = page.languages(alloc)?;
    notes_on_languages(alloc, dictionaries, language, &languages)
}

// Appends the note that a page with these dictionaries is not read to its end. Without any dictionary there is none.
fn push_unread(
    notes: &mut Vec<Note>,
    alloc: Global,
    dictionaries: &[LanguageDictionary],
    language: &str,
    settings: &Settings<'_>,
    page: &HtmlPage<'_>,
) -> Result<(), AllocError>
    ensures { OnOk result (notes.new.items
        ≡ notes.old.items ++ unread_note dictionaries.now language.now settings.now page.now) }
{
    if dictionaries.is_empty() {
        return Ok(());
    }
    if let Some(line) = unread_line(alloc, language, settings, page)? {
        notes.push(Note::LeftAlone(line))?;
    }
    Ok(())
}

/// Returns the notes on a page with these dictionaries and settings, where the arguments name this language for it. The
/// error says that memory was refused.
pub fn notes_on(
    alloc: Global,
    dictionaries: &[LanguageDictionary],
    language: &str,
    settings: &Settings<'_>,
    page: &HtmlPage<'_>,
) -> Result<Vec<Note>, AllocError>
    ensures { IfOk result (λ notes. notes.items ≡ notes_on dictionaries.now language.now settings.now page.now) }
{
    let mut notes = language_notes(alloc, dictionaries, language, page)?;
    push_unread(&mut notes, alloc, dictionaries, language, settings, page)?;
    Ok(notes)
}

/// Appends the notes on the page of a number to those on pages before it.
pub fn push_notes(all: &mut Vec<PageNote>, page: usize, notes: &[Note]) -> Result<(), AllocError>
    ensures { OnOk result (all.new.items ≡ all.old.items ++ notes_at page notes.now) }
{
    for note in notes {
        all.push(PageNote { page, note: *note })?;
    }
    Ok(())
}

/// Writes a note without the page that it is on.
impl fmt::Display for Note {
    ghost use Rattle.std.specs.Prelude.{Some};
    ghost use Rattle.html_command.specs.Notes.{words_of};

    ghost output = { λ note. Some (words_of note) };

    fn fmt<W: fmt::Write>(&self, f: &mut fmt::Formatter<W>) -> fmt::Result {
        match self {
            Note::NoDictionary(language) => write!(
                f,
                "no dictionary for the language {language}: its text is left alone"
            ),
            Note::NoCode => f.write_str(
                "a language of the page is no code, such as en-gb: its text is left alone",
            ),
            Note::NoLanguage => {
                f.write_str("the page names no language, so nothing is changed; --lang names it")
            }
            Note::OtherVariety {
                language,
                dictionary,
            } => write!(f, "{language} is hyphenated by the dictionary {dictionary}"),
            Note::LeftAlone(line) => write!(
                f,
                "line {line}: left alone from here on, since parsers may read it in different ways"
            ),
        }
    }
}

// Returns the name of the page of a number, or an empty one if there are not that many.
fn name_at<'w>(names: &[&'w str], page: usize) -> &'w str
    ensures { result.now ≡ slice_index_or (texts_now names.now) page [] }
{
    if page < names.len() { names[page] } else { "" }
}

// Writes a note on the page of a name, in a line.
fn write_line<E: Write>(
    alloc: Global,
    program: &str,
    name: &str,
    note: Note,
    errors: &mut Messages<E>,
)
    ensures { TellsMore E.contents errors.old errors.new (line_on program.now name.now (words_of note)) }
{
    if is_standard_input(name) {
        errors.write(alloc, &format_args!("{program}: note: {note}\n"));
    } else {
        errors.write(alloc, &format_args!("{program}: note: {name}: {note}\n"));
    }
}

// Writes the note on a page, in a line.
fn write_note<E: Write>(
    alloc: Global,
    program: &str,
    names: &[&str],
    note: &PageNote,
    errors: &mut Messages<E>,
)
    ensures { TellsMore E.contents errors.old errors.new (note_line program.now (texts_now names.now) note.now) }
{
    let name = name_at(names, note.page);
    write_line(alloc, program, name, note.note, errors);
}

/// Writes the notes of the program of this name on pages of these names, each in a line.
///
/// ```text
/// hyphenate-html: note: old.html: no dictionary for the language nl: its text is left alone
/// ```
pub fn write_notes<E: Write>(
    alloc: Global,
    program: &str,
    names: &[&str],
    notes: &[PageNote],
    errors: &mut Messages<E>,
)
    ensures { Tells E.contents errors.old errors.new (notes_text program.now (texts_now names.now) notes.now) }
{
    for note in notes {
        write_note(alloc, program, names, note, errors);
    }
}
