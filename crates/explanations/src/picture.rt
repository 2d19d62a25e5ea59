//! The rows of a picture: for people lines, and in a drawing in SVG elements.

ghost use Rattle.std.specs.Prelude.{◌≡◌, [], IfOk, IfSome, OnOk, map};
ghost use Rattle.std.specs.String.{string_bytes};
ghost use Rattle.explanations.specs.Marks.{mark_at};
ghost use Rattle.explanations.specs.Picture.{breaks_put, byte_put, letter_put, line_put, marked, note_put, picture_of};
ghost use Rattle.explanations.specs.Picture.{put, row_put, rows_put, value_class, value_put, whole_row};
ghost use Rattle.explanations.specs.Private.Drawing.{facts_in, painted, pattern_in, scores_by};
ghost use Rattle.explanations.specs.Rows.{row_of, LiesWithin};

use crate::escaping::{push_escaped, push_escaped_byte};
use crate::facts::Explanation;
use crate::known::Known;
use crate::layout::{Place, columns_of_value, line_begin, note_column, place_in, places_above};
use crate::marks::{Mark, mark_at};
use crate::notes::{decision_note, row_note};
use crate::numbers::{product, sum};
use crate::pattern_rows::{Row, letters_of};
use hyphenation_breaks::entry::{Entry, Listing, Payload};
use std::alloc::{AllocError, Global};
use unicode_width::UnicodeWidthStr;

// A picture as far as it is made.
#[derive(Drop)]
pub(crate) struct Canvas {
    // Whether it is a drawing in SVG.
    svg: bool,
    pub(crate) text: Vec<u8>,
    // The column at which the last text of the row ends.
    column: usize,
    // How many pixels the rows so far have at most.
    pub(crate) width: usize,
}

// Returns the class of a value as an attribute.
#[tactic(auto, unfolding(crate::specs::Picture::value_class))]
fn value_class(mark: Mark) -> &'static str
    ensures { result.now ≡ value_class mark }
{
    if mark.value % 2 == 1 && mark.wins {
        " class='odd wins'"
    } else if mark.value % 2 == 1 {
        " class='odd'"
    } else if mark.wins {
        " class='even wins'"
    } else {
        " class='even'"
    }
}

// Returns a row that has a whole text.
fn whole_row<'e, C>(text: &str, entries: &'e [Entry<C>]) -> Row<'e, C>
    ensures { row_of result ≡ whole_row text.now entries.now }
{
    Row {
        start: 0,
        bytes: text.len(),
        entries,
    }
}

impl Canvas {
    // Puts a text of a class at a column. It ends at another one.
    #[tactic(auto, unfolding(crate::specs::Picture::put))]
    fn put(&mut self, class: &str, column: usize, text: &[u8], end: usize) -> Result<(), AllocError>
        ensures { OnOk result (painted self.new ≡ put class.now column text.now end (painted self.old)) }
    {
        let from = self.column;
        self.column = end;
        if self.svg {
            let x = product(12, sum(column, 1)?)?;
            let begin = format!(in *self.text.allocator(); "</tspan><tspan{class} x='{x}'>")?;
            self.text.extend_from_slice(begin.as_bytes())?;
            push_escaped(&mut self.text, text)
        } else {
            let past = sum(self.text.len(), column.saturating_sub(from))?;
            self.text.resize(past, b' ')?;
            self.text.extend_from_slice(text)
        }
    }

    // Puts a byte after the two bytes before it.
    #[tactic(auto, unfolding(crate::specs::Picture::byte_put))]
    fn put_byte(&mut self, first: u8, second: u8, byte: u8) -> Result<(), AllocError>
        ensures { OnOk result (painted self.new ≡ byte_put first second byte (painted self.old)) }
    {
        if self.svg {
            push_escaped_byte(&mut self.text, first, second, byte)
        } else {
            self.text.extend_from_slice(&[byte])
        }
    }

    // Puts the begin or the end of a row, which is this in a drawing, and that in a text. The text after it is at a column.
    #[tactic(auto, unfolding(crate::specs::Picture::marked))]
    fn mark(&mut self, drawn: &[u8], text: &[u8], column: usize) -> Result<(), AllocError>
        ensures { OnOk result (painted self.new ≡ marked drawn.now text.now column (painted self.old)) }
    {
        self.column = column;
        if self.svg {
            self.text.extend_from_slice(drawn)
        } else {
            self.text.extend_from_slice(text)
        }
    }

    // Puts a note at a column, or nothing if it is empty.
    #[tactic(auto, unfolding(crate::specs::Picture::note_put))]
    fn put_note(&mut self, column: usize, note: &[u8]) -> Result<(), AllocError>
        ensures { OnOk result (painted self.new ≡ note_put column note.now (painted self.old)) }
    {
        if note.len() == 0 {
            return Ok(());
        }
        let columns = sum(sum(column, note.len())?, 2)?;
        self.width = product(12, columns)?.max(self.width);
        self.put(" class='note'", column, note, column)
    }

    // Puts the value at a place, if it has one.
    #[tactic(auto, unfolding(crate::specs::Picture::value_put))]
    fn put_value(&mut self, place: Place, mark: Option<Mark>) -> Result<(), AllocError>
        ensures { OnOk result (painted self.new ≡ value_put place mark (painted self.old)) }
    {
        let Some(mark) = mark else {
            return Ok(());
        };
        let column = place.letter.saturating_sub(columns_of_value(mark.value));
        let digits = mark.value.to_string(*self.text.allocator())?;
        self.put(value_class(mark), column, digits.as_bytes(), place.letter)
    }

    // Puts the byte at a place, after the two bytes before it. A letter begins there, if it is the first or has columns.
    #[tactic(auto, unfolding(crate::specs::Picture::letter_put))]
    fn put_letter(
        &mut self,
        place: Place,
        is_first: bool,
        first: u8,
        second: u8,
        byte: u8,
    ) -> Result<(), AllocError>
        ensures { OnOk result (painted self.new ≡ letter_put place is_first first second byte (painted self.old)) }
    {
        if !is_first && place.letter == place.end {
            return self.put_byte(first, second, byte);
        }
        self.put("", place.letter, b"", place.end)?;
        self.put_byte(first, second, byte)
    }

    // Puts the row of letters that start at a place of the frame, with their values, and a note at a column.
    #[tactic(auto, unfolding(crate::specs::Picture::line_put))]
    fn put_line<C: Payload, B>(
        &mut self,
        facts: &Explanation<'_, C, B>,
        places: &[Place],
        row: Option<&Row<'_, C>>,
        start: usize,
        letters: &[u8],
        column: usize,
        note: &[u8],
    ) -> Result<(), AllocError>
        ensures { OnOk result (painted self.new ≡ line_put places.now (mark_at (string_bytes facts.now.folded)
            (scores_by C.change_of facts.now.winners.items) (pattern_in row.entry))
            start letters.now column note.now (painted self.old)) }
    {
        self.mark(
            b"<tspan x='0' dy='24'>&#160;",
            b"",
            line_begin(places, start),
        )?;
        let mut at = start;
        let mut is_first = true;
        let mut first = 0;
        let mut second = 0;
        for byte in letters {
            let place = place_in(places, at);
            self.put_value(place, mark_at(&facts.folded, &facts.winners, row, at))?;
            self.put_letter(place, is_first, first, second, *byte)?;
            at = sum(at, 1)?;
            is_first = false;
            first = second;
            second = *byte;
        }
        self.put_value(
            place_in(places, at),
            mark_at(&facts.folded, &facts.winners, row, at),
        )?;
        self.put_note(column, note)?;
        self.mark(b"</tspan\n>", b"\n", 0)?;
        Ok(())
    }

    // Puts the row of a pattern that occurs in the frame or, without one, that of the scores.
    #[tactic(auto, unfolding(crate::specs::Picture::row_put))]
    fn put_row<C: Payload, B: Listing>(
        &mut self,
        known: &Known<'_, '_, C, B>,
        places: &[Place],
        row: Option<&Row<'_, C>>,
    ) -> Result<(), AllocError>
        requires { IfSome row (λ row. LiesWithin (string_bytes known.now.facts.framed) (row_of row.now)) }
        ensures { OnOk result (painted self.new ≡ row_put C.change_of places.now
            (facts_in C.change_of B.meaning known.now) (pattern_in row.entry) (painted self.old)) }
    {
        let facts = &known.facts;
        let note = row_note(*self.text.allocator(), &facts.winners, row)?;
        match row {
            Some(pattern) => {
                let letters = letters_of(facts.framed.as_bytes(), pattern);
                let column = place_in(places, pattern.start + pattern.bytes).letter;
                self.put_line(facts, places, row, pattern.start, letters, column, &note)
            }
            None => {
                let column = note_column(places, 0)?;
                self.put_line(
                    facts,
                    places,
                    row,
                    1,
                    facts.folded.as_bytes(),
                    column,
                    &note,
                )
            }
        }
    }

    // Puts the row of the word with its breaks, and the fact that decides. In a drawing an empty row comes after it.
    #[tactic(auto, unfolding(crate::specs::Picture::breaks_put))]
    fn put_breaks<C: Payload, B: Listing>(
        &mut self,
        known: &Known<'_, '_, C, B>,
        places: &[Place],
    ) -> Result<(), AllocError>
        ensures { OnOk result (painted self.new
            ≡ breaks_put places.now (facts_in C.change_of B.meaning known.now) (painted self.old)) }
    {
        let width = known.hyphenated.as_str().width();
        let letter = place_in(places, 1).letter;
        let end = sum(letter, width)?;
        let column = note_column(places, width)?;
        self.mark(b"<tspan x='0' dy='24'>&#160;", b"", line_begin(places, 1))?;
        self.put(" class='word'", letter, known.hyphenated.as_bytes(), end)?;
        let note = decision_note(*self.text.allocator(), known.facts.decision, known.minima)?;
        self.put_note(column, note.as_bytes())?;
        let drawn = b"</tspan\n><tspan x='0' dy='24'>&#160;</tspan\n>";
        self.mark(drawn, b"\n", 0)?;
        Ok(())
    }

    // Puts all rows: the frame, the patterns that occur in it, the scores, and the word with its breaks.
    #[tactic(auto, unfolding(crate::specs::Picture::rows_put))]
    fn put_rows<C: Payload, B: Listing>(
        &mut self,
        known: &Known<'_, '_, C, B>,
        places: &[Place],
        frame: &Row<'_, C>,
    ) -> Result<(), AllocError>
        requires { row_of frame.now ≡ whole_row (string_bytes known.now.facts.framed) [] }
        ensures { OnOk result (painted self.new ≡ rows_put C.change_of places.now
            (facts_in C.change_of B.meaning known.now) (painted self.old)) }
    {
        self.put_row(known, places, Some(frame))?;
        for row in &known.facts.rows {
            self.put_row(known, places, Some(row))?;
        }
        self.put_row(known, places, None)?;
        self.put_breaks(known, places)
    }
}

// Returns the picture of what is known of a word, or the elements of its drawing. The only error is out of memory.
pub(crate) fn picture_of<C: Payload, B: Listing>(
    alloc: Global,
    svg: bool,
    known: &Known<'_, '_, C, B>,
) -> Result<Canvas, AllocError>
    ensures { IfOk result (λ canvas. canvas.text.items
        ≡ picture_of svg C.change_of (facts_in C.change_of B.meaning known.now)) }
{
    let places = places_above(alloc, &known.facts.framed, &known.facts.rows)?;
    let mut canvas = Canvas {
        svg,
        text: Vec::new(alloc),
        column: 0,
        width: 0,
    };
    let entries = Vec::new(alloc);
    let frame = whole_row(&known.facts.framed, &entries);
    canvas.put_rows(known, &places, &frame)?;
    Ok(canvas)
}
