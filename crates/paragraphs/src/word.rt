//! The parts of words.

ghost use Rattle.std.specs.Prelude.{◌≡◌, ◌+◌, ◌-◌, ◌<◌, ◌≤◌, ◌^◌, ◌∷◌, [], None, false, true, IfOk, OnOk, length, map};
ghost use Rattle.composed_words.specs.Composed.{composed, is_composed};
ghost use Rattle.hyphenation_segments.specs.Fits.{Fits};
ghost use Rattle.paragraphs.specs.Private.Open.{LiesIn, Passes, AddsParts, word_of, next_then};
ghost use Rattle.paragraphs.specs.Private.PartStyles.{indent_of};
ghost use Rattle.paragraphs.specs.Styles.{style_of};
ghost use Rattle.paragraphs.specs.Parts.{set_off, breaks_in, composed_breaks, piece_breaks, unchanged_places, word_breaks, word_parts};
ghost use Rattle.text_words.specs.Left.{words_left};
ghost use Rattle.text_words.specs.Words.{unless_mixed};
ghost use Rattle.word_pieces.specs.Pieces.{IsSlice};

use crate::changes::PartChanges;
use crate::part::Part;
use crate::parting::{OpenPart, StyledWord};
use crate::style::Indent;
use composed_words::laws::{ascii_is_composed, carried_places_ascend};
use composed_words::{carried_places, composed};
use hyphenation_breaks::breaks::Break;
use hyphenation_hyphenator::hyphenator::Hyphenator;
use hyphenation_hyphenator::hyphenator::laws::plain_breaks_fit_where_ascending;
use std::alloc::{AllocError, Global};
use std::mem;
use text_words::laws::{letters_are_no_name, letters_are_one_word, words_are_slices};
use text_words::{TextWords, is_mixed, is_name};

// Passes a break of a piece of a word. The part that is being made ends there, where some of the word is on either
// side.
#[inline(always)]
#[tactic(auto, using(crate::proofs::Printable::printable_between))]
fn pass_break<'w, 's, 't, B: Break>(
    alloc: Global,
    offset: usize,
    b: &B,
    parts: &mut Vec<Part<'s, 't>>,
    current: &mut OpenPart<'w, 's, 't>,
) -> Result<(), AllocError>
    requires { LiesIn (word_of current.old) offset (B.meaning b.now) }
    ensures { OnOk result
        (Passes (set_off offset (B.meaning b.now) ∷ []) parts.old.items current.old parts.new.items current.new) }
{
    let (left, right) = b.range().unwrap();
    let (begin, end) = (offset + left, offset + right);
    let word = current.word;
    if begin <= current.from || word.text.len() <= end {
        return Ok(());
    }
    let after = mem::replace(&mut current.after, String::from_str(alloc, b.after())?);
    parts.push(Part {
        style: word.style,
        text: &word.text[current.from..begin],
        changes: PartChanges::at_break(alloc, after, &word.text[begin..end], b.before())?,
        indent: current.indent,
        hyphenated: true,
        plain: word.plain,
    })?;
    current.indent = Indent::Other;
    current.from = end;
    Ok(())
}

// Passes these breaks of a piece of a word, which begins at a place there.
#[inline(always)]
fn pass_breaks<'w, 's, 't, B: Break>(
    alloc: Global,
    piece: (usize, &str),
    breaks: &[B],
    parts: &mut Vec<Part<'s, 't>>,
    current: &mut OpenPart<'w, 's, 't>,
) -> Result<(), AllocError>
    requires slice { IsSlice (word_of current.old) (piece.0, piece.1.now) }
    requires fit { Fits piece.1.now (map B.meaning breaks.now) }
    ensures { OnOk result (Passes (map (set_off piece.entry.0) (map B.meaning breaks.now))
        parts.old.items current.old parts.new.items current.new) }
{
    for b in breaks {
        pass_break(alloc, piece.0, b, parts, current)?;
    }
    Ok(())
}

// Passes the breaks of a piece of a word, which begins at a place there. They replace those in the list.
#[inline(always)]
fn pass_piece<'w, 's, 't, 'h, H: Hyphenator<'h>>(
    alloc: Global,
    dictionary: &'h H,
    piece: (usize, &str),
    breaks: &mut Vec<H::Opportunity>,
    parts: &mut Vec<Part<'s, 't>>,
    current: &mut OpenPart<'w, 's, 't>,
) -> Result<(), AllocError>
    requires { IsSlice (word_of current.old) (piece.0, piece.1.now) }
    ensures { OnOk result (Passes (breaks_in (H.breaks_of dictionary.now) (piece.entry.0, piece.entry.1.now))
        parts.old.items current.old parts.new.items current.new) }
{
    dictionary.breaks_into(piece.1, breaks)?;
    pass_breaks(alloc, piece, breaks, parts, current)
}

// Passes the breaks of a piece, or none where it has a letter beside a digit.
fn pass_unless_mixed<'w, 's, 't, 'h, H: Hyphenator<'h>>(
    alloc: Global,
    dictionary: &'h H,
    piece: (usize, &str),
    breaks: &mut Vec<H::Opportunity>,
    parts: &mut Vec<Part<'s, 't>>,
    current: &mut OpenPart<'w, 's, 't>,
) -> Result<(), AllocError>
    requires { IsSlice (word_of current.old) (piece.0, piece.1.now) }
    ensures { OnOk result (Passes (breaks_in (unless_mixed (H.breaks_of dictionary.now)) (piece.entry.0, piece.entry.1.now))
        parts.old.items current.old parts.new.items current.new) }
{
    if is_mixed(piece.1) {
        return Ok(());
    }
    pass_piece(alloc, dictionary, piece, breaks, parts, current)
}

// Returns the places of the breaks that change no letters.
fn unchanged_places<B: Break>(alloc: Global, breaks: &[B]) -> Result<Vec<usize>, AllocError>
    ensures { IfOk result (λ places. places.items ≡ unchanged_places (map B.meaning breaks.now)) }
{
    let mut places = Vec::new(alloc);
    for b in breaks {
        if !b.changed() {
            places.push(b.place())?;
        }
    }
    Ok(places)
}

// Returns the places of the breaks of a piece that change no letters. There is none where it has a letter beside a digit.
fn unchanged_places_of<'h, H: Hyphenator<'h>>(
    alloc: Global,
    dictionary: &'h H,
    piece: &str,
    breaks: &mut Vec<H::Opportunity>,
) -> Result<Vec<usize>, AllocError>
    ensures { IfOk result (λ places.
        places.items ≡ unchanged_places (unless_mixed (H.breaks_of dictionary.now) piece.now)) }
{
    if is_mixed(piece) {
        return Ok(Vec::new(alloc));
    }
    dictionary.breaks_into(piece, breaks)?;
    unchanged_places(alloc, breaks)
}

// Passes the breaks of a piece that is not in NFC: those of its NFC that change no letters, carried back.
fn pass_carried<'w, 's, 't, 'h, H: Hyphenator<'h>>(
    alloc: Global,
    dictionary: &'h H,
    piece: (usize, &str),
    nfc: &str,
    breaks: &mut Vec<H::Opportunity>,
    parts: &mut Vec<Part<'s, 't>>,
    current: &mut OpenPart<'w, 's, 't>,
) -> Result<(), AllocError>
    requires slice { IsSlice (word_of current.old) (piece.0, piece.1.now) }
    requires nfc { nfc.now ≡ composed piece.1.now }
    requires other { is_composed piece.1.now ≡ false }
    ensures { OnOk result (Passes
        (breaks_in (composed_breaks (unless_mixed (H.breaks_of dictionary.now))) (piece.entry.0, piece.entry.1.now))
        parts.old.items current.old parts.new.items current.new) }
{
    carried_places_ascend();
    plain_breaks_fit_where_ascending();
    let places = unchanged_places_of(alloc, dictionary, nfc, breaks)?;
    let carried = carried_places(alloc, piece.1, nfc, &places)?;
    pass_breaks(alloc, piece, &carried, parts, current)
}

// Passes the breaks of a piece, which are those of its NFC.
fn pass_composed<'w, 's, 't, 'h, H: Hyphenator<'h>>(
    alloc: Global,
    dictionary: &'h H,
    piece: (usize, &str),
    breaks: &mut Vec<H::Opportunity>,
    parts: &mut Vec<Part<'s, 't>>,
    current: &mut OpenPart<'w, 's, 't>,
) -> Result<(), AllocError>
    requires { IsSlice (word_of current.old) (piece.0, piece.1.now) }
    ensures { OnOk result (Passes
        (breaks_in (composed_breaks (unless_mixed (H.breaks_of dictionary.now))) (piece.entry.0, piece.entry.1.now))
        parts.old.items current.old parts.new.items current.new) }
{
    match composed(alloc, piece.1)? {
        None => pass_unless_mixed(alloc, dictionary, piece, breaks, parts, current),
        Some(nfc) => pass_carried(
            alloc,
            dictionary,
            piece,
            nfc.as_str(),
            breaks,
            parts,
            current,
        ),
    }
}

// Takes the next piece of a word.
fn next_piece<'t>(pieces: &mut TextWords<'t>) -> Option<&'t str>
    ensures pieces { words_left pieces.old ≡ next_then result (words_left pieces.new) }
    ensures end { result ≡ None → words_left pieces.new ≡ [] }
{
    pieces.next()
}

// Passes the breaks of all pieces of a word, one by one.
fn pass_each_piece<'w, 's, 't, 'h, H: Hyphenator<'h>>(
    alloc: Global,
    dictionary: &'h H,
    breaks: &mut Vec<H::Opportunity>,
    parts: &mut Vec<Part<'s, 't>>,
    current: &mut OpenPart<'w, 's, 't>,
) -> Result<(), AllocError>
    ensures { OnOk result (Passes (piece_breaks (H.breaks_of dictionary.now) (word_of current.old))
        parts.old.items current.old parts.new.items current.new) }
{
    words_are_slices();
    let mut pieces = TextWords::new(current.word.text);
    let mut offset = 0;
    while let Some(piece) = next_piece(&mut pieces) {
        let end = offset + piece.len();
        pass_composed(alloc, dictionary, (offset, piece), breaks, parts, current)?;
        offset = end;
    }
    Ok(())
}

// Passes the breaks of a word: those of all its pieces, or none if it is a name. One of letters of ASCII only is one piece,
// and no name.
#[inline(always)]
fn pass_pieces<'w, 's, 't, 'h, H: Hyphenator<'h>>(
    alloc: Global,
    dictionary: &'h H,
    breaks: &mut Vec<H::Opportunity>,
    parts: &mut Vec<Part<'s, 't>>,
    current: &mut OpenPart<'w, 's, 't>,
) -> Result<(), AllocError>
    ensures { OnOk result (Passes (word_breaks (H.breaks_of dictionary.now) (word_of current.old))
        parts.old.items current.old parts.new.items current.new) }
{
    ascii_is_composed();
    words_are_slices();
    letters_are_one_word();
    letters_are_no_name();
    let word = current.word;
    if word.letters {
        pass_piece(alloc, dictionary, (0, word.text), breaks, parts, current)?;
        return Ok(());
    }
    if is_name(word.text) {
        return Ok(());
    }
    pass_each_piece(alloc, dictionary, breaks, parts, current)?;
    Ok(())
}

// Adds the parts of a word. `breaks` is scratch space.
#[tactic(auto, using(crate::proofs::Printable::printable_drop))]
pub(crate) fn push_word<'s, 't, 'h, H: Hyphenator<'h>>(
    alloc: Global,
    dictionary: &'h H,
    word: &StyledWord<'s, 't>,
    breaks: &mut Vec<H::Opportunity>,
    parts: &mut Vec<Part<'s, 't>>,
) -> Result<(), AllocError>
    ensures { OnOk result (AddsParts parts.old.items parts.new.items (word_parts (H.breaks_of dictionary.now)
        (style_of word.now.style.now) (indent_of word.now.style.now word.now.indent) word.now.text.now)) }
{
    let mut current = OpenPart {
        word,
        indent: word.indent,
        after: String::new(alloc),
        from: 0,
    };
    pass_pieces(alloc, dictionary, breaks, parts, &mut current)?;
    let word = current.word;
    let last = Part {
        style: word.style,
        text: &word.text[current.from..],
        changes: PartChanges::at_end(alloc, current.after)?,
        indent: current.indent,
        hyphenated: false,
        plain: word.plain,
    };
    parts.push(last)?;
    Ok(())
}
