//! The values of a drawing: what is at each place of a row.

ghost use Rattle.std.specs.Prelude.{◌≡◌, option_copied};
ghost use Rattle.hyphenation_breaks.specs.Break.{is_boundary};
ghost use Rattle.hyphenation_score.specs.Scoring.{score_of_winner, scored_pair};
ghost use Rattle.explanations.specs.Marks.{entry_value, mark_at, pattern_mark, score_value};
ghost use Rattle.explanations.specs.Private.Drawing.{pattern_in, scores_by};

use crate::pattern_rows::Row;
use hyphenation_breaks::entry::{Entry, Payload};
use hyphenation_breaks::extended::Subregion;

// A value that is drawn.
#[derive(Clone, Copy)]
pub(crate) struct Mark {
    pub(crate) value: u8,
    // Whether it is the greatest of its place of the word.
    pub(crate) wins: bool,
}

// Returns the value that entries have at a place.
fn entry_value<C>(entries: &[Entry<C>], place: usize) -> Option<u8>
    ensures { result ≡ entry_value entries.now place }
{
    for entry in entries {
        if entry.place as usize == place {
            return Some(entry.value);
        }
    }
    None
}

// Returns the value of a winner, with its change.
pub(crate) fn score_of<C: Payload>(winner: Option<&Entry<C>>) -> (u8, Option<&Subregion>)
    ensures { scored_pair result ≡ score_of_winner C.change_of (option_copied winner.entry) }
{
    match winner {
        Some(entry) => (entry.value, entry.change.as_change()),
        None => (0, None),
    }
}

// Reports whether a place is a character boundary of a word.
fn is_boundary(word: &str, place: usize) -> bool
    ensures { result ≡ is_boundary word.now place }
{
    word.is_char_boundary(place)
}

// Returns the value of a word's place between two characters, by the winners of the places from place 1 on.
fn score_value<C: Payload>(word: &str, winners: &[Option<&Entry<C>>], place: usize) -> Option<u8>
    ensures { result ≡ score_value word.now (scores_by C.change_of winners.now) place }
{
    if !is_boundary(word, place) {
        return None;
    }
    if place == 0 {
        return None;
    }
    if winners.len() < place {
        return None;
    }
    Some(score_of(winners[place - 1]).0)
}

// Returns a value of a pattern, by the greatest value of its place.
fn pattern_mark(greatest: Option<u8>, value: u8) -> Mark
    ensures { result ≡ pattern_mark greatest value }
{
    Mark {
        value,
        wins: greatest == Some(value),
    }
}

// Returns the value of a row at a place of the frame. Without a pattern it is the greatest value there.
#[tactic(auto, unfolding(crate::specs::Marks::mark_at))]
pub(crate) fn mark_at<C: Payload>(
    word: &str,
    winners: &[Option<&Entry<C>>],
    row: Option<&Row<'_, C>>,
    place: usize,
) -> Option<Mark>
    ensures { result ≡ mark_at word.now (scores_by C.change_of winners.now) (pattern_in row.entry) place }
{
    let greatest = score_value(word, winners, place.saturating_sub(1));
    match row {
        Some(row) => {
            let value = entry_value(row.entries, place.saturating_sub(row.start))?;
            Some(pattern_mark(greatest, value))
        }
        None => greatest.map(|value| Mark { value, wins: false }),
    }
}
