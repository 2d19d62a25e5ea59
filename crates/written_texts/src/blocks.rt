//! The blocks of a text.

ghost use Rattle.std.specs.Prelude.{◌≡◌, ◌++◌, false, not, if◌then◌else◌, IfOk, OnOk, Some, option_map};
ghost use Rattle.written_texts.specs.Blocks.{begun, blocks, completed, is_open, block_if_any, joined, shorter, step};
ghost use Rattle.written_texts.specs.Blocks.{step_empty};
ghost use Rattle.written_texts.specs.Blocks.{step_prose, step_worded, with_line};
ghost use Rattle.written_texts.specs.Prefixes.{is_item, prefix_of, signs_in};
ghost use Rattle.written_texts.specs.Private.Views as views;

use crate::kept::{is_empty_line, place_of_words};
use crate::place::LinePlace;
use crate::prefix::Parted;
use std::alloc::{AllocError, Global};
use std::mem;

// The quote of a line, and the indent and the mark after it.
#[derive(Clone, Copy, Debug)]
pub(crate) struct Prefix<'t> {
    pub quote: &'t str,
    pub lead: &'t str,
}

// A paragraph: its prefixes, whether that of its other lines is settled, and its text.
#[derive(Debug, Drop)]
pub(crate) struct Paragraph<'t> {
    pub first: Prefix<'t>,
    pub others: Prefix<'t>,
    pub settled: bool,
    pub text: String,
}

// A part of a text: a line that stays as it is, or a paragraph.
#[derive(Debug, Drop)]
pub(crate) enum Block<'t> {
    Line(&'t str),
    Filled(Paragraph<'t>),
}

// The lines so far: the place after them, the paragraph that may go on, and the empty line that is to come.
#[derive(Drop)]
struct State<'t> {
    pub place: LinePlace,
    pub current: Option<Paragraph<'t>>,
    pub gap: Option<&'t str>,
}

// Returns the prefix of a line.
fn prefix_of<'t>(line: &Parted<'t>) -> Prefix<'t>
    ensures { views.prefix_of result ≡ prefix_of line.now.text.now }
{
    Prefix {
        quote: line.quote,
        lead: line.lead,
    }
}

// Returns the paragraph of one line, with memory for some more lines. For a line of more than 256 bytes it is less: it
// may be the only one.
fn begin<'t>(alloc: Global, line: &Parted<'t>) -> Result<Paragraph<'t>, AllocError>
    ensures { IfOk result (λ p. views.paragraph_of p ≡ begun line.now.text.now) }
{
    let prefix = prefix_of(line);
    let mut text = String::new(alloc);
    text.reserve(line.rest.len().min(256) * 4)?;
    text.push_str(line.rest)?;
    text.push('\n')?;
    Ok(Paragraph {
        first: prefix,
        others: prefix,
        settled: line.item,
        text,
    })
}

// Adds a line to a paragraph.
fn add_line<'t>(paragraph: &mut Paragraph<'t>, line: &Parted<'t>) -> Result<(), AllocError>
    ensures { OnOk result
        (views.paragraph_of paragraph.new ≡ with_line (views.paragraph_of paragraph.old) line.now.text.now) }
{
    if !paragraph.settled {
        paragraph.others = prefix_of(line);
    }
    paragraph.settled = true;
    paragraph.text.push_str(line.rest)?;
    paragraph.text.push('\n')?;
    Ok(())
}

// Returns the number of quote signs of a quote.
fn signs_in(quote: &str) -> usize
    ensures { result ≡ signs_in quote.now }
{
    quote
        .as_bytes()
        .iter()
        .filter(|byte| **byte == b'>')
        .count()
}

// Reports whether a paragraph goes on with a line of as many quote signs.
fn is_open(current: &Option<Paragraph<'_>>, line: &Parted<'_>) -> bool
    ensures { result ≡ is_open (option_map views.paragraph_of current.now) line.now.text.now }
{
    match current {
        None => false,
        Some(paragraph) => signs_in(paragraph.first.quote) == signs_in(line.quote),
    }
}

// Returns the shorter of two quotes.
fn shorter<'t>(gap: Option<&'t str>, quote: &'t str) -> &'t str
    ensures { result.now ≡ shorter (option_map (λ gap. gap.now) gap.entry) quote.now }
{
    match gap {
        None => quote,
        Some(gap) => { if gap.len() < quote.len() { gap } else { quote } }
    }
}

impl<'t> State<'t> {
    // Adds the paragraph that is open, which ends.
    fn end_paragraph(&mut self, all: &mut Vec<Block<'t>>) -> Result<(), AllocError>
        ensures added { OnOk result (views.blocks_of all.new.items
            ≡ views.blocks_of all.old.items ++ block_if_any (views.state_of self.old).current) }
        ensures after { OnOk result (views.state_of self.new ≡ record (views.state_of self.old) { current = None }) }
    {
        if let Some(paragraph) = mem::replace(&mut self.current, None) {
            all.push(Block::Filled(paragraph))?;
        }
        Ok(())
    }

    // Adds the blocks that are complete where another block begins.
    fn complete(&mut self, all: &mut Vec<Block<'t>>) -> Result<(), AllocError>
        ensures added { OnOk result (views.blocks_of all.new.items
            ≡ views.blocks_of all.old.items ++ completed (views.state_of self.old)) }
    {
        self.end_paragraph(all)?;
        if let Some(quote) = self.gap {
            all.push(Block::Line(quote))?;
        }
        Ok(())
    }

    // Passes an empty line.
    fn pass_empty(&mut self, all: &mut Vec<Block<'t>>, line: &Parted<'t>) -> Result<(), AllocError>
        ensures { OnOk result (views.Takes (step_empty (views.state_of self.old) line.now.text.now)
            all.old.items all.new.items self.new) }
    {
        self.end_paragraph(all)?;
        if let LinePlace::Beginning = self.place {
            self.gap = None;
        } else {
            self.gap = Some(shorter(self.gap, line.quote));
            self.place = LinePlace::Body;
        }
        Ok(())
    }

    // Passes a line of prose.
    fn pass_prose(
        &mut self,
        alloc: Global,
        all: &mut Vec<Block<'t>>,
        line: &Parted<'t>,
    ) -> Result<(), AllocError>
        ensures { OnOk result (views.Takes (step_prose (views.state_of self.old) line.now.text.now)
            all.old.items all.new.items self.new) }
    {
        if is_open(&self.current, line) && !line.item {
            let joined = match mem::replace(&mut self.current, None) {
                Some(mut paragraph) => {
                    add_line(&mut paragraph, line)?;
                    paragraph
                }
                None => begin(alloc, line)?,
            };
            self.current = Some(joined);
        } else {
            self.complete(all)?;
            self.current = Some(begin(alloc, line)?);
        }
        self.place = LinePlace::Body;
        self.gap = None;
        Ok(())
    }

    // Passes a line that stays as it is, after which this is the place.
    fn pass_kept(
        &mut self,
        all: &mut Vec<Block<'t>>,
        line: &Parted<'t>,
        place: LinePlace,
    ) -> Result<(), AllocError>
        ensures { OnOk result (views.Takes (step_worded (views.state_of self.old) line.now.text.now (Some place))
            all.old.items all.new.items self.new) }
    {
        self.complete(all)?;
        all.push(Block::Line(line.text))?;
        self.place = place;
        self.current = None;
        self.gap = None;
        Ok(())
    }

    // Passes a line.
    fn pass_line(
        &mut self,
        alloc: Global,
        all: &mut Vec<Block<'t>>,
        text: &'t str,
    ) -> Result<(), AllocError>
        ensures { OnOk result (views.Takes (step (views.state_of self.old) text.now)
            all.old.items all.new.items self.new) }
    {
        let line = Parted::of(text);
        if is_empty_line(self.place, &line) {
            return self.pass_empty(all, &line);
        }
        match place_of_words(self.place, is_open(&self.current, &line), &line) {
            Some(place) => self.pass_kept(all, &line, place),
            None => self.pass_prose(alloc, all, &line),
        }
    }
}

// Returns the blocks of a text.
pub(crate) fn blocks_of(alloc: Global, text: &str) -> Result<Vec<Block<'_>>, AllocError>
    ensures { IfOk result (λ all. views.blocks_of all.items ≡ blocks text.now) }
{
    let mut all = Vec::new(alloc);
    let mut state = State {
        place: LinePlace::Beginning,
        current: None,
        gap: None,
    };
    for line in text.lines() {
        state.pass_line(alloc, &mut all, line)?;
    }
    state.end_paragraph(&mut all)?;
    Ok(all)
}
