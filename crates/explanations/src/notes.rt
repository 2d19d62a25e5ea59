//! The notes beside rows: the changes of values, and the fact that decides.

ghost use Rattle.std.specs.Prelude.{◌≡◌, ◌++◌, IfOk, OnOk, flat_map, option_copied};
ghost use Rattle.std.specs.String.{string_bytes};
ghost use Rattle.explanations.specs.Notes.{change_note, decision_text, entry_note, row_note, scores_note};
ghost use Rattle.explanations.specs.Private.Drawing.{pattern_in, scores_by};

use crate::facts::Decision;
use crate::marks::score_of;
use crate::pattern_rows::Row;
use hyphenation_breaks::breaks::Break;
use hyphenation_breaks::entry::{Entry, Payload};
use hyphenation_breaks::extended::Subregion;
use std::alloc::{AllocError, Global};

// Appends the change that a value makes, or nothing without one.
fn push_change(text: &mut Vec<u8>, value: u8, change: Option<&Subregion>) -> Result<(), AllocError>
    ensures { OnOk result (text.new.items ≡ text.old.items ++ change_note value (option_copied change.entry)) }
{
    let Some(change) = change else {
        return Ok(());
    };
    let made = (0, Some(change));
    let (before, after) = (made.before(), made.after());
    let (left, right) = (change.left, change.right);
    let alloc = *text.allocator();
    let note = format!(in alloc; "  {value}: {before}-{after} for {left}+{right} bytes")?;
    text.extend_from_slice(note.as_bytes())
}

// Returns the note of a row with these entries. The only error is out of memory.
fn entries_note<C: Payload>(alloc: Global, entries: &[Entry<C>]) -> Result<Vec<u8>, AllocError>
    ensures { IfOk result (λ note. note.items ≡ flat_map (entry_note C.change_of) entries.now) }
{
    let mut note = Vec::new(alloc);
    for entry in entries {
        push_change(&mut note, entry.value, entry.change.as_change())?;
    }
    Ok(note)
}

// Returns the note of the scores. The only error is out of memory.
fn scores_note<C: Payload>(
    alloc: Global,
    winners: &[Option<&Entry<C>>],
) -> Result<Vec<u8>, AllocError>
    ensures { IfOk result (λ note. note.items ≡ scores_note (scores_by C.change_of winners.now)) }
{
    let mut note = Vec::new(alloc);
    note.extend_from_slice(b"the greatest value of each place")?;
    for winner in winners {
        let (value, change) = score_of(*winner);
        push_change(&mut note, value, change)?;
    }
    Ok(note)
}

// Returns the note of the row of a pattern or, without one, that of the scores. The only error is out of memory.
#[tactic(auto, unfolding(crate::specs::Notes::row_note))]
pub(crate) fn row_note<C: Payload>(
    alloc: Global,
    winners: &[Option<&Entry<C>>],
    row: Option<&Row<'_, C>>,
) -> Result<Vec<u8>, AllocError>
    ensures { IfOk result (λ note. note.items
        ≡ row_note C.change_of (scores_by C.change_of winners.now) (pattern_in row.entry)) }
{
    match row {
        Some(row) => entries_note(alloc, row.entries),
        None => scores_note(alloc, winners),
    }
}

// Returns the fact that decides, in words. The only error is out of memory.
pub(crate) fn decision_note(
    alloc: Global,
    decision: Decision,
    minima: (usize, usize),
) -> Result<String, AllocError>
    ensures { IfOk result (λ note. string_bytes note ≡ decision_text decision minima) }
{
    let (left, right) = minima;
    match decision {
        Decision::SoftHyphens => String::from_str(
            alloc,
            "its own soft hyphens, whatever patterns and minima say",
        ),
        Decision::TooShort => {
            format!(in alloc; "too few characters for the minima {left} and {right}")
        }
        Decision::Exception => {
            format!(in alloc; "the breaks of an exception within the minima {left} and {right}")
        }
        Decision::Patterns => {
            format!(in alloc; "odd values within the minima {left} and {right}")
        }
    }
}
