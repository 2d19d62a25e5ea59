//! Remarks on the words of TeX files and plain ones.

ghost use Rattle.std.specs.Prelude.{◌≡◌, ◌==◌, ◌∷◌, ◌++◌, [], List, ℕ, IfOk, OnOk, filter, fold, length, map, not};
ghost use Rattle.pattern_results.specs.Notes.{with_remark};
ghost use Rattle.tex_files.specs.Notes.{group_remarks, is_among, notes_of_files, remark_if, remarks_on, words_from};
ghost use Rattle.tex_files.specs.Private.Notes.{AddsTo, AreTexts, GetRemarks, file_word, letters_by};
ghost use Rattle.tex_files.specs.Private.Views.{word_view};
ghost use Rattle.tex_files.specs.Spelling.{says_place};
ghost use Rattle.tex_files.specs.declared.group.Group.TheVariants.{Exceptions, Patterns};

use crate::group::{File, Group, Word};
use crate::spelling::{folded, says_place};
use crate::tex::words_of;
use pattern_results::notes::{LineRef, Note, NoteKind, add_note};
use std::alloc::{AllocError, Global};
use std::collections::HashMap;

// Returns a text without the bytes that say places in words of a group.
fn without_places(alloc: Global, group: Group, text: &[u8]) -> Result<Vec<u8>, AllocError>
    ensures { IfOk result (λ found. found.items ≡ filter (λ b. not (says_place group b)) text.now) }
{
    let mut letters = Vec::new(alloc);
    for byte in text {
        if !says_place(group, *byte) {
            letters.push(*byte)?;
        }
    }
    Ok(letters)
}

// Makes a remark if there is cause for it.
fn note_if(
    notes: &mut Vec<Note>,
    is_made: bool,
    kind: NoteKind,
    at: LineRef,
) -> Result<(), AllocError>
    ensures { OnOk result (notes.new.items ≡ fold with_remark notes.old.items (remark_if is_made kind at)) }
{
    if is_made {
        add_note(notes, kind, at)?;
    }
    Ok(())
}

// Adds a text to a set, and returns whether it was there.
fn is_added_again(texts: &mut HashMap<Vec<u8>, ()>, text: Vec<u8>) -> Result<bool, AllocError>
    ensures was_there { IfOk result (λ found. (known : List (List ℕ)) → AreTexts texts.old known
        → found ≡ is_among known text.items) }
    ensures added { OnOk result ((known : List (List ℕ)) → AreTexts texts.old known
        → AreTexts texts.new (text.items ∷ known)) }
{
    Ok(texts.insert(text, ())?.is_some())
}

// The letters of patterns and of exceptions that came before.
#[derive(Drop)]
struct SeenWords {
    keys: HashMap<Vec<u8>, ()>,
    exceptions: HashMap<Vec<u8>, ()>,
}

// Makes the remarks on a word of a group, of which these are the letters.
fn note_letters(
    seen: &mut SeenWords,
    notes: &mut Vec<Note>,
    group: Group,
    letters: Vec<u8>,
    without_values: bool,
    at: LineRef,
) -> Result<(), AllocError>
    ensures keys { OnOk result (AddsTo Patterns seen.old.keys seen.new.keys group letters.items) }
    ensures exceptions { OnOk result (AddsTo Exceptions seen.old.exceptions seen.new.exceptions group letters.items) }
    ensures noted { OnOk result (GetRemarks seen.old group letters.items notes.old.items notes.new.items
        (group_remarks group without_values at)) }
{
    match group {
        Group::Patterns => {
            note_if(notes, without_values, NoteKind::NoValue, at)?;
            let is_repeated = is_added_again(&mut seen.keys, letters)?;
            note_if(notes, is_repeated, NoteKind::Repeated, at)
        }
        Group::Exceptions => {
            let is_repeated = is_added_again(&mut seen.exceptions, letters)?;
            note_if(notes, is_repeated, NoteKind::ExceptionRepeated, at)
        }
    }
}

// Tests whether two texts have as many bytes.
fn are_as_long(one: &[u8], other: &[u8]) -> bool
    ensures { result ≡ (length one.now == length other.now) }
{
    one.len() == other.len()
}

// Makes the remarks on a word.
fn note_word(
    alloc: Global,
    seen: &mut SeenWords,
    notes: &mut Vec<Note>,
    word: &Word,
    at: LineRef,
) -> Result<(), AllocError>
    ensures keys { OnOk result (AddsTo Patterns seen.old.keys seen.new.keys word.now.group (letters_by word.now)) }
    ensures exceptions { OnOk result (AddsTo Exceptions seen.old.exceptions seen.new.exceptions word.now.group
        (letters_by word.now)) }
    ensures noted { OnOk result (GetRemarks seen.old word.now.group (letters_by word.now) notes.old.items
        notes.new.items (remarks_on at (word_view word.now))) }
{
    let folded = folded(alloc, &word.text)?;
    let has_capitals = folded.as_slice() != word.text.as_slice();
    note_if(notes, has_capitals, NoteKind::Capital, at)?;
    let letters = without_places(alloc, word.group, &folded)?;
    let without_values = are_as_long(&letters, &folded);
    note_letters(seen, notes, word.group, letters, without_values, at)
}

// Appends words with the number of their file.
fn push_all(all: &mut Vec<(usize, Word)>, words: Vec<Word>, number: usize) -> Result<(), AllocError>
    ensures { OnOk result (map file_word all.new.items
        ≡ map file_word all.old.items ++ map (λ word. file_word (number, word)) words.items) }
{
    for word in words {
        all.push((number, word))?;
    }
    Ok(())
}

// Appends the words of a file with its number, counted from 0.
fn push_words(
    alloc: Global,
    all: &mut Vec<(usize, Word)>,
    file: &File<'_>,
    number: usize,
) -> Result<(), AllocError>
    ensures { OnOk result (map file_word all.new.items ≡ map file_word all.old.items ++ words_from number (file.now ∷ [])) }
{
    let (words, _) = words_of(alloc, file.form, file.bytes)?;
    push_all(all, words, number)
}

// Returns the words of files, each with the number of its file.
#[tactic(auto, using(crate::proofs::Noting::file_added))]
fn words_in(alloc: Global, files: &[File<'_>]) -> Result<Vec<(usize, Word)>, AllocError>
    ensures { IfOk result (λ found. map file_word found.items ≡ words_from 0 files.now) }
{
    let mut all = Vec::new(alloc);
    let mut number: usize = 0;
    for file in files {
        push_words(alloc, &mut all, file, number)?;
        number += 1;
    }
    Ok(all)
}

// Returns the notes on files: the remarks on their words, each kind with its first line.
pub(crate) fn notes_of(alloc: Global, files: &[File<'_>]) -> Result<Vec<Note>, AllocError>
    ensures { IfOk result (λ notes. notes.items ≡ notes_of_files files.now) }
{
    let words = words_in(alloc, files)?;
    let mut seen = SeenWords {
        keys: HashMap::new(alloc),
        exceptions: HashMap::new(alloc),
    };
    let mut notes = Vec::new(alloc);
    for pair in &words {
        let file = pair.0;
        let line = pair.1.line;
        note_word(
            alloc,
            &mut seen,
            &mut notes,
            &pair.1,
            LineRef { file, line },
        )?;
    }
    Ok(notes)
}
