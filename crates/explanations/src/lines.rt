//! The lines for programs, field by field. Functions named `push_..` append to a text.

ghost use Rattle.std.specs.Prelude.{◌≡◌, ◌++◌, OnOk, flat_map, map, option_copied};
ghost use Rattle.std.specs.Option.{option_map};
ghost use Rattle.explanations.specs.Lines.{bounds_line, change_numbers, change_text, decision_name, entry_field};
ghost use Rattle.explanations.specs.Lines.{exception_line, limit_lines, lines_of, pattern_line, place_field, places_line};
ghost use Rattle.explanations.specs.Lines.{score_line, text_line, value_field, word_lines};
ghost use Rattle.explanations.specs.Private.Drawing.{facts_in, scores_by};
ghost use Rattle.explanations.specs.Rows.{row_of, LiesWithin};

use crate::facts::Decision;
use crate::fields::push_field_text;
use crate::known::Known;
use crate::marks::score_of;
use crate::pattern_rows::{Row, letters_of};
use hyphenation_breaks::entry::{Entry, Listing, Payload};
use hyphenation_breaks::extended::Subregion;
use std::alloc::AllocError;

// Appends the numbers of a change, after a colon and each with a comma after it.
fn push_change_numbers(text: &mut Vec<u8>, change: &Subregion) -> Result<(), AllocError>
    ensures { OnOk result (text.new.items ≡ text.old.items ++ change_numbers change.now) }
{
    let (left, right, breakpoint) = (change.left, change.right, change.breakpoint);
    let numbers = format!(in *text.allocator(); ":{left},{right},{breakpoint},")?;
    text.extend_from_slice(numbers.as_bytes())
}

// Appends a change, or nothing without one.
fn push_change(text: &mut Vec<u8>, change: Option<&Subregion>) -> Result<(), AllocError>
    ensures { OnOk result (text.new.items ≡ text.old.items ++ change_text (option_copied change.entry)) }
{
    let Some(change) = change else {
        return Ok(());
    };
    push_change_numbers(text, change)?;
    push_field_text(text, change.substitution.as_bytes())
}

// Appends a field of a place, with its change.
#[tactic(auto, unfolding(crate::specs::Lines::place_field))]
fn push_place_field(
    text: &mut Vec<u8>,
    place: usize,
    change: Option<&Subregion>,
) -> Result<(), AllocError>
    ensures { OnOk result (text.new.items ≡ text.old.items ++ place_field place (option_copied change.entry)) }
{
    let number = format!(in *text.allocator(); "\t{place}")?;
    text.extend_from_slice(number.as_bytes())?;
    push_change(text, change)
}

// Appends a field of a value at a place, with its change.
#[tactic(auto, unfolding(crate::specs::Lines::value_field))]
fn push_value_field(
    text: &mut Vec<u8>,
    place: usize,
    value: u8,
    change: Option<&Subregion>,
) -> Result<(), AllocError>
    ensures { OnOk result (text.new.items ≡ text.old.items ++ value_field place value (option_copied change.entry)) }
{
    let numbers = format!(in *text.allocator(); "\t{place}:{value}")?;
    text.extend_from_slice(numbers.as_bytes())?;
    push_change(text, change)
}

// Appends the fields of entries.
fn push_entries<C: Payload>(text: &mut Vec<u8>, entries: &[Entry<C>]) -> Result<(), AllocError>
    ensures { OnOk result (text.new.items ≡ text.old.items ++ flat_map (entry_field C.change_of) entries.now) }
{
    for entry in entries {
        push_value_field(
            text,
            entry.place as usize,
            entry.value,
            entry.change.as_change(),
        )?;
    }
    Ok(())
}

// Appends the line of a pattern that occurs in the frame.
#[tactic(auto, unfolding(crate::specs::Lines::pattern_line))]
fn push_pattern<C: Payload>(
    text: &mut Vec<u8>,
    framed: &[u8],
    row: &Row<'_, C>,
) -> Result<(), AllocError>
    requires { LiesWithin framed.now (row_of row.now) }
    ensures { OnOk result (text.new.items ≡ text.old.items ++ pattern_line C.change_of framed.now (row_of row.now)) }
{
    let (start, bytes) = (row.start, row.bytes);
    let numbers = format!(in *text.allocator(); "pattern\t{start}\t{bytes}\t")?;
    text.extend_from_slice(numbers.as_bytes())?;
    push_field_text(text, letters_of(framed, row))?;
    push_entries(text, row.entries)?;
    text.extend_from_slice(b"\n")
}

// Appends the line of the scores of all places, by their winners.
#[tactic(auto, unfolding(crate::specs::Lines::score_line))]
fn push_scores<C: Payload>(
    text: &mut Vec<u8>,
    winners: &[Option<&Entry<C>>],
) -> Result<(), AllocError>
    ensures { OnOk result (text.new.items ≡ text.old.items ++ score_line (scores_by C.change_of winners.now)) }
{
    text.extend_from_slice(b"score")?;
    for (index, winner) in winners.iter().enumerate() {
        let (value, change) = score_of(*winner);
        push_value_field(text, index + 1, value, change)?;
    }
    text.extend_from_slice(b"\n")
}

// Appends a line of a name and places.
#[tactic(auto, unfolding(crate::specs::Lines::places_line))]
fn push_places(text: &mut Vec<u8>, name: &[u8], places: &[usize]) -> Result<(), AllocError>
    ensures { OnOk result (text.new.items ≡ text.old.items ++ places_line name.now places.now) }
{
    text.extend_from_slice(name)?;
    for place in places {
        push_place_field(text, *place, None)?;
    }
    text.extend_from_slice(b"\n")
}

// Appends the line of the bounds.
fn push_bounds(text: &mut Vec<u8>, bounds: Option<(usize, usize)>) -> Result<(), AllocError>
    ensures { OnOk result (text.new.items ≡ text.old.items ++ bounds_line bounds) }
{
    match bounds {
        Some((first, last)) => push_places(text, b"bounds", &[first, last]),
        None => push_places(text, b"bounds", &[]),
    }
}

// Appends the line of the listed breaks, or nothing if the word is no exception.
#[tactic(auto, unfolding(crate::specs::Lines::exception_line))]
fn push_exception<B: Listing>(text: &mut Vec<u8>, listed: Option<&[B]>) -> Result<(), AllocError>
    ensures { OnOk result (text.new.items
        ≡ text.old.items ++ exception_line (option_map (map B.meaning) (option_copied listed.entry))) }
{
    let Some(listed) = listed else {
        return Ok(());
    };
    text.extend_from_slice(b"exception")?;
    for b in listed {
        push_place_field(text, b.place(), b.change())?;
    }
    text.extend_from_slice(b"\n")
}

// Returns the name of the fact that decides.
fn name_of(decision: Decision) -> &'static str
    ensures { result.now ≡ decision_name decision }
{
    match decision {
        Decision::SoftHyphens => "soft-hyphens",
        Decision::TooShort => "minima",
        Decision::Exception => "exception",
        Decision::Patterns => "patterns",
    }
}

// Appends a line of a name and one field, which has a text.
#[tactic(auto, unfolding(crate::specs::Lines::text_line))]
fn push_text_line(text: &mut Vec<u8>, name: &[u8], field: &[u8]) -> Result<(), AllocError>
    ensures { OnOk result (text.new.items ≡ text.old.items ++ text_line name.now field.now) }
{
    text.extend_from_slice(name)?;
    text.extend_from_slice(b"\t")?;
    push_field_text(text, field)?;
    text.extend_from_slice(b"\n")
}

// Appends the lines of a word, its patterns and its scores.
#[tactic(auto, unfolding(crate::specs::Lines::word_lines))]
fn push_word_lines<C: Payload, B: Listing>(
    text: &mut Vec<u8>,
    known: &Known<'_, '_, C, B>,
) -> Result<(), AllocError>
    ensures { OnOk result (text.new.items
        ≡ text.old.items ++ word_lines C.change_of (facts_in C.change_of B.meaning known.now)) }
{
    let facts = &known.facts;
    push_text_line(text, b"word", known.word.as_bytes())?;
    push_text_line(text, b"folded", facts.folded.as_bytes())?;
    for row in &facts.rows {
        push_pattern(text, facts.framed.as_bytes(), row)?;
    }
    push_scores(text, &facts.winners)
}

// Appends the lines of where the minima, soft hyphens and an exception allow breaks.
#[tactic(auto, unfolding(crate::specs::Lines::limit_lines))]
fn push_limit_lines<C: Payload, B: Listing>(
    text: &mut Vec<u8>,
    known: &Known<'_, '_, C, B>,
) -> Result<(), AllocError>
    ensures { OnOk result (text.new.items
        ≡ text.old.items ++ limit_lines (facts_in C.change_of B.meaning known.now)) }
{
    let facts = &known.facts;
    let (left, right) = known.minima;
    push_places(text, b"minima", &[left, right])?;
    push_bounds(text, facts.bounds)?;
    push_places(text, b"soft-hyphens", &facts.soft_hyphens)?;
    push_exception(text, facts.listed)
}

// Appends the lines for programs of what is known of a word.
pub(crate) fn push_lines<C: Payload, B: Listing>(
    text: &mut Vec<u8>,
    known: &Known<'_, '_, C, B>,
) -> Result<(), AllocError>
    ensures { OnOk result (text.new.items
        ≡ text.old.items ++ lines_of C.change_of (facts_in C.change_of B.meaning known.now)) }
{
    push_word_lines(text, known)?;
    push_limit_lines(text, known)?;
    let decision = name_of(known.facts.decision);
    push_text_line(text, b"decided-by", decision.as_bytes())?;
    push_places(text, b"breaks", &known.places)?;
    push_text_line(text, b"hyphenated", known.hyphenated.as_bytes())
}
