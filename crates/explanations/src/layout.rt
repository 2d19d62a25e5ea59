//! The columns of a picture.

ghost use Rattle.std.specs.Prelude.{◌≡◌, chars, map, IfOk, OnOk};
ghost use Rattle.explanations.specs.Columns.{column_before, line_begin, note_column, place_in, places_above, places_from};
ghost use Rattle.explanations.specs.Columns.{value_columns, with_room_above, with_room_at, with_room_for_entries};
ghost use Rattle.explanations.specs.Rows.{row_of};

use crate::numbers::{item_at, sum};
use crate::pattern_rows::Row;
use hyphenation_breaks::entry::Entry;
use std::alloc::{AllocError, Global};
use unicode_width::UnicodeWidthChar;

// The most columns of a frame below which rows are put below their letters. In the picture of a wider one, each line begins
// with its row, so that a picture grows with the rows alone.
const MOST_COLUMNS: usize = 400;

// The columns of a place of the frame: where its value begins, where its letter begins, and where the letter ends.
#[derive(Clone, Copy)]
pub(crate) struct Place {
    pub(crate) value: usize,
    pub(crate) letter: usize,
    pub(crate) end: usize,
}

// The number of columns of a value.
pub(crate) fn columns_of_value(value: u8) -> usize
    ensures { result ≡ value_columns value }
{
    if value < 10 {
        1
    } else if value < 100 {
        2
    } else {
        3
    }
}

// The number of columns for a value of one digit before a byte.
fn column_before(byte: u8) -> usize
    ensures { result ≡ column_before byte }
{
    if 128 <= byte && byte < 192 { 0 } else { 1 }
}

// Makes room for a value at a place.
fn make_room(values: &mut Vec<usize>, place: usize, value: u8)
    ensures { values.new.items ≡ with_room_at values.old.items place value }
{
    if place < values.len() {
        values[place] = values[place].max(columns_of_value(value));
    }
}

// Makes room for the values of entries, by where their row starts. The only error is out of memory.
fn make_room_for_entries<C>(
    values: &mut Vec<usize>,
    start: usize,
    entries: &[Entry<C>],
) -> Result<(), AllocError>
    ensures { OnOk result (values.new.items ≡ with_room_for_entries start values.old.items entries.now) }
{
    for entry in entries {
        make_room(values, sum(start, entry.place as usize)?, entry.value);
    }
    Ok(())
}

// Returns the number of columns for a value at each place of a frame. The only error is out of memory.
fn room_above<C>(
    alloc: Global,
    framed: &[u8],
    rows: &[Row<'_, C>],
) -> Result<Vec<usize>, AllocError>
    ensures { IfOk result (λ values. values.items ≡ with_room_above framed.now (map row_of rows.now)) }
{
    let mut values: Vec<usize> = framed
        .iter()
        .map(|byte| column_before(*byte))
        .collect(alloc)?;
    values.push(1)?;
    for row in rows {
        make_room_for_entries(&mut values, row.start, row.entries)?;
    }
    Ok(values)
}

// Returns the columns of each place of a frame, by its characters and the columns for values. The only error is out of
// memory.
fn places_of_chars(
    alloc: Global,
    letters: &[char],
    values: &[usize],
) -> Result<Vec<Place>, AllocError>
    ensures { IfOk result (λ places. places.items ≡ places_from values.now 0 0 letters.now) }
{
    let mut places = Vec::new(alloc);
    let mut at = 0;
    let mut value = 0;
    for character in letters {
        let letter = sum(value, item_at(values, at, 0))?;
        let end = sum(letter, character.width().unwrap_or(1))?;
        places.push(Place { value, letter, end })?;
        let past = sum(places.len(), character.len_utf8() - 1)?;
        places.resize(
            past,
            Place {
                value: end,
                letter: end,
                end,
            },
        )?;
        at = sum(at, character.len_utf8())?;
        value = end;
    }
    let letter = sum(value, item_at(values, at, 0))?;
    places.push(Place {
        value,
        letter,
        end: letter,
    })?;
    Ok(places)
}

// Returns the columns of each place of a frame above rows. The only error is out of memory.
pub(crate) fn places_above<C>(
    alloc: Global,
    framed: &str,
    rows: &[Row<'_, C>],
) -> Result<Vec<Place>, AllocError>
    ensures { IfOk result (λ places. places.items ≡ places_above framed.now (map row_of rows.now)) }
{
    let letters: Vec<char> = framed.chars().collect(alloc)?;
    let values = room_above(alloc, framed.as_bytes(), rows)?;
    let places = places_of_chars(alloc, &letters, &values)?;
    Ok(places)
}

// Returns the columns of a place.
#[tactic(auto, unfolding(crate::specs::Columns::place_in))]
pub(crate) fn place_in(places: &[Place], at: usize) -> Place
    ensures { result ≡ place_in places.now at }
{
    item_at(
        places,
        at,
        Place {
            value: 0,
            letter: 0,
            end: 0,
        },
    )
}

// Returns the column at which the line of a row begins, by the place at which the row starts.
#[tactic(auto, unfolding(crate::specs::Columns::line_begin))]
pub(crate) fn line_begin(places: &[Place], start: usize) -> usize
    ensures { result ≡ line_begin places.now start }
{
    if place_in(places, places.len().saturating_sub(1)).value > MOST_COLUMNS {
        place_in(places, start).value
    } else {
        0
    }
}

// Returns the column of words about a row of the whole word, whose letters have that many columns. The only error is out
// of memory.
#[tactic(auto, unfolding(crate::specs::Columns::note_column))]
pub(crate) fn note_column(places: &[Place], width: usize) -> Result<usize, AllocError>
    ensures { IfOk result (λ column. column ≡ note_column places.now width) }
{
    let frame_end = sum(place_in(places, places.len().saturating_sub(1)).value, 2)?;
    let row_end = sum(place_in(places, 1).letter, width)?;
    sum(frame_end.max(row_end), 2)
}
