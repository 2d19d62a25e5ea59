//! The digits and the changes of a word's places by one level.

ghost use Rattle.std.specs.Prelude.{◌≡◌, ℕ, List, ◌+◌, ◌-◌, ◌<◌, ◌^◌, [], length, replicate, None, MatchOption, OnOk};
ghost use Rattle.hyphenation_dictionary.specs.Parts.{patterns_of};
ghost use Rattle.hyphenation_trie.specs.Trie.{EachBeginsKey};
ghost use Rattle.libhyphen_rule.specs.Counting.{Counted, counted_in, framed};
ghost use Rattle.libhyphen_rule.specs.Found.{placed, placed_all};
ghost use Rattle.libhyphen_rule.specs.OneLevel.{level_digits, level_changes, changes_by, offers};
ghost use Rattle.libhyphen_rule.specs.OneLevel.{claim, put, made_up_to, at_least_one};
ghost use Rattle.libhyphen_rule.specs.Private.Cells.{HasCells};
ghost use Rattle.libhyphen_rule.specs.Private.Claims.{AreMade, AreWithin, claimed};

use crate::cells::{Cell, empty_cells, take_pattern};
use crate::counting::{first_digits, framed_byte};
use crate::digits::read_digits;
use hyphenation_dictionary::laws::keys_are_looked_up;
use hyphenation_trie::laws::{keys_have_nodes, longest_goes_on};
use hyphenation_trie::{Automaton, LookUps};
use libhyphen_files::level::FrozenLevel;
use libhyphen_files::pattern::StoredPattern;
use libhyphen_files::vectors::pattern_of_node;
use std::alloc::{AllocError, Global};

/// A change at a place of a word: a text takes the place of some bytes.
#[derive(Debug, Clone, Copy, Drop)]
pub struct PlacedChange<'d> {
    /// The text, with an equals sign where the break is.
    pub text: &'d [u8],
    /// The number of changed bytes before the place.
    pub pos: usize,
    /// The number of changed bytes.
    pub cut: usize,
}

// Meets the patterns that count in a word, by the cells of the frame's places.
fn read_cells<'d>(patterns: &'d Automaton<StoredPattern>, word: &[u8], cells: &mut [Cell<'d>])
    requires begins { EachBeginsKey patterns.now }
    requires places { length cells.old ≡ length word.now + 3 }
    requires room { length cells.old < 2 ^ 63 - 200 }
    requires empty { HasCells [] [] cells.old }
    ensures { HasCells (counted_in (patterns_of patterns.now) (framed word.now))
        (offers (counted_in (patterns_of patterns.now) (framed word.now))) cells.new }
{
    patterns.invariant();
    keys_have_nodes::<StoredPattern>();
    longest_goes_on::<StoredPattern>();
    keys_are_looked_up::<StoredPattern>();
    let mut node = patterns.root();
    for at in 0..word.len() + 2 {
        node = patterns.step(node, framed_byte(word, at), &mut LookUps::new());
        if let Some(pattern) = pattern_of_node(patterns, node) {
            let depth = patterns.depth(node);
            let start = at + 1 - depth;
            // A leading dot of the key is at the word's beginning, or is one of the word.
            let first = start + usize::from(framed_byte(word, start) == b'.');
            let digits = first_digits(pattern, depth + 1);
            take_pattern(cells, start, first, digits, pattern.change.as_ref());
        }
    }
}

// Returns a cut, but at least 1.
fn at_least_one(cut: i8) -> usize
    ensures value { result ≡ at_least_one cut }
    ensures short { result < 200 }
{
    if cut >= 1 { cut as usize } else { 1 }
}

// Returns the change of the region that begins at a place of the frame, and the place at which it is.
fn claim<'d>(cells: &[Cell<'d>], begin: usize) -> Option<(usize, PlacedChange<'d>)>
    requires begin { begin < length cells.now }
    requires within { AreWithin cells.now }
    ensures claimed { (counted : List Counted) → HasCells counted (offers counted) cells.now
        → claimed result ≡ claim counted begin }
    ensures short { MatchOption result (Unit {0}) (λ made. made.1.cut < 200) }
{
    let place = cells[begin].place?;
    let change = cells[place].change?;
    let cut = at_least_one(cells[begin].cut);
    let made = PlacedChange {
        text: &change.text,
        pos: place - begin,
        cut,
    };
    Some((place, made))
}

// Puts a change at a place of the frame, if that is one of the word's bytes' places.
fn put<'d>(changes: &mut [Option<PlacedChange<'d>>], place: usize, change: PlacedChange<'d>)
    ensures { placed_all changes.new
        ≡ put (record { place = place; change = placed change.entry }) (placed_all changes.old) }
{
    if place >= 2 && place - 2 < changes.len() {
        changes[place - 2] = Some(change);
    }
}

// Takes away all changes.
fn clear<'d>(changes: &mut [Option<PlacedChange<'d>>])
    ensures { placed_all changes.new ≡ replicate (length changes.old) None }
{
    for change in changes.iter_mut() {
        *change = None;
    }
}

// Makes the changes of the regions from left to right.
fn make_changes<'d>(cells: &[Cell<'d>], changes: &mut [Option<PlacedChange<'d>>])
    requires places { length cells.now ≡ length changes.old + 3 }
    requires room { length cells.now < 2 ^ 63 - 200 }
    requires within { AreWithin cells.now }
    ensures { AreMade cells.now (length changes.old) changes.new }
{
    clear(changes);
    let mut next = 1;
    for begin in 1..changes.len() + 1 {
        if begin >= next {
            if let Some((place, change)) = claim(cells, begin) {
                next = begin + change.cut;
                put(changes, place, change);
            }
        }
    }
}

// Finds the changes of a word's places. The only error is out of memory.
fn read_changes<'d>(
    alloc: Global,
    patterns: &'d Automaton<StoredPattern>,
    word: &[u8],
    changes: &mut [Option<PlacedChange<'d>>],
) -> Result<(), AllocError>
    requires begins { EachBeginsKey patterns.now }
    requires changes { length changes.old ≡ length word.now }
    ensures { OnOk result (placed_all changes.new ≡ changes_by (patterns_of patterns.now) word.now) }
{
    let mut cells = empty_cells(alloc, word.len() + 3)?;
    read_cells(patterns, word, &mut cells);
    make_changes(&cells, changes);
    Ok(())
}

/// Finds the digits and the changes of a word's places by one level: for each byte of the word those of the place
/// behind it.
///
/// Both lists have one item for each byte, and each item is written. The only error is out of memory; what the lists
/// then contain is not known. A level without changes takes no memory.
pub fn read_level<'d>(
    alloc: Global,
    level: &'d FrozenLevel,
    word: &[u8],
    digits: &mut [u8],
    changes: &mut [Option<PlacedChange<'d>>],
) -> Result<(), AllocError>
    requires digits { length digits.old ≡ length word.now }
    requires changes { length changes.old ≡ length word.now }
    ensures digits { OnOk result (digits.new ≡ level_digits level.now word.now) }
    ensures changes { OnOk result (placed_all changes.new ≡ level_changes level.now word.now) }
{
    read_digits(level.patterns(), word, false, digits);
    if !level.has_changes() {
        clear(changes);
        return Ok(());
    }
    read_changes(alloc, level.patterns(), word, changes)?;
    Ok(())
}
