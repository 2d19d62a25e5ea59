//! A line with a pattern: its key, the digits at its places, and maybe a change of letters.

ghost use Rattle.std.specs.Prelude.{◌≡◌, ◌+◌, ◌<◌, ◌≤◌, ◌%◌, ◌==◌, nat_le, IfOk, IfSome, OnOk, filter, length, position, take};
ghost use Rattle.std.specs.List.{list_any, before_first, after_first, slice_split};
ghost use Rattle.hyphenation_breaks.specs.Ascii.{digit_zero};
ghost use Rattle.libhyphen_files.specs.Patterns.{before_blank, no_digit, digits_from, begins_with_dot, without_line_end, fields_of, text_of};
ghost use Rattle.libhyphen_files.specs.Patterns.{one_less, region_written, first_place, is_char_place, place_of, char_place};
ghost use Rattle.libhyphen_files.specs.Patterns.{char_end, start_taken, cut_in_bytes, start_in_bytes, start_behind_dot};
ghost use Rattle.libhyphen_files.specs.Patterns.{region_in_bytes, with_cut, region_of, change_with, changing_digits, key_of, pattern_of};
ghost use Rattle.libhyphen_files.specs.Private.Cuts.{IsRest, ArePartsOf};
ghost use Rattle.libhyphen_files.specs.Private.Growing.{SpellsAlone, ends_spelling};

use crate::numbers::{number_byte, signed};
use std::alloc::{AllocError, Global};
use std::marker::Model;

/// A change: at a break a text takes the place of some bytes.
#[derive(Debug, Drop)]
pub struct StoredChange {
    /// The text, with an equals sign where the break is.
    pub text: Vec<u8>,
    /// Where the changed bytes begin: the number of bytes after the first byte of the key that is no leading dot.
    pub start: i8,
    /// The number of bytes whose place the text takes.
    pub cut: i8,
}

impl Model for StoredChange {
    ghost use Rattle.libhyphen_files.specs.Patterns.{Change};

    ghost Value = { Change };

    ghost view = { λ c. record { text = c.text.items; start = c.start; cut = c.cut } };
}

/// A pattern without its key.
#[derive(Debug, Drop)]
pub struct StoredPattern {
    /// The digit, from `b'0'` to `b'9'`, of each place, from before the first byte of the key to after its last one.
    pub digits: Vec<u8>,
    /// The change that it makes at its breaks.
    pub change: Option<StoredChange>,
}

impl Model for StoredPattern {
    ghost use Rattle.libhyphen_files.specs.Patterns.{Pattern};

    ghost Value = { Pattern };

    ghost view = { λ p. record { digits = p.digits.items; change = p.change } };
}

// A region of a key: where it begins and how long it is, each a signed byte.
#[derive(Clone, Copy)]
struct Region {
    start: u8,
    cut: u8,
}

// Returns the index of the first byte of a text that equals `byte`.
fn position_of(text: &[u8], byte: u8) -> Option<usize>
    ensures { result ≡ position (λ b. b == byte) text.now }
{
    text.iter().position(|b| *b == byte)
}

// Returns the index of the first space or control character of a text.
fn blank_position(text: &[u8]) -> Option<usize>
    ensures { result ≡ position (λ b. nat_le b 32) text.now }
{
    text.iter().position(|b| *b <= b' ')
}

// Returns what is before the first byte of a text that equals `byte`, and what is after it, if there is one.
fn cut_at(text: &[u8], byte: u8) -> (&[u8], Option<&[u8]>)
    ensures before { result.0.now ≡ before_first (λ b. b == byte) text.now }
    ensures after { IsRest byte text.now result.1 }
    ensures split { ArePartsOf byte text.now result.0.now result.1 }
{
    match position_of(text, byte) {
        None => (text, None),
        Some(at) => (&text[..at], Some(&text[at + 1..])),
    }
}

// Returns the part of a text before its first space or control character.
fn before_blank(text: &[u8]) -> &[u8]
    ensures { result.now ≡ before_blank text.now }
{
    match blank_position(text) {
        None => text,
        Some(at) => &text[..at],
    }
}

// Room for the key and the digits of one line after the other.
#[derive(Drop)]
pub(crate) struct Spelling {
    pub(crate) key: Vec<u8>,
    pub(crate) digits: Vec<u8>,
}

impl Spelling {
    // Returns room for nothing, which grows.
    pub(crate) fn new(alloc: Global) -> Spelling {
        Spelling {
            key: Vec::new(alloc),
            digits: Vec::new(alloc),
        }
    }

    // Makes room for the bytes of a text, and for one digit more. The only error is out of memory.
    #[inline(always)]
    fn make_room(&mut self, spelt: &[u8]) -> Result<(), AllocError>
        ensures key { OnOk result (length spelt.now ≤ length self.new.key.items) }
        ensures digits { OnOk result (length spelt.now < length self.new.digits.items) }
    {
        if self.key.len() < spelt.len() {
            self.key.resize(spelt.len(), 0)?;
        }
        if self.digits.len() <= spelt.len() {
            self.digits.resize(spelt.len() + 1, 0)?;
        }
        Ok(())
    }
}

// The length of a key, and a hash of its digits. Equal digits have equal hashes; nothing else is known of these.
#[derive(Clone, Copy)]
pub(crate) struct Spelt {
    pub(crate) count: usize,
    pub(crate) hash: usize,
}

// Writes the key and the digits that a text spells to the fronts of two buffers, and returns the length of the key.
#[inline(always)]
fn spell(spelt: &[u8], key: &mut [u8], digits: &mut [u8]) -> Spelt
    requires key { length spelt.now ≤ length key.old }
    requires digits { length spelt.now < length digits.old }
    ensures within { result.count ≤ length spelt.now }
    ensures key { take result.count key.new ≡ filter no_digit spelt.now }
    ensures digits { take (result.count + 1) digits.new ≡ digits_from digit_zero spelt.now }
{
    let mut count = 0;
    let mut digit = b'0';
    let mut hash = 0usize;
    for byte in spelt {
        // The next byte writes anew what a digit writes, so that no test for digits need be a branch.
        key[count] = *byte;
        digits[count] = digit;
        let is_digit = byte.is_ascii_digit();
        let hash_with = hash.wrapping_mul(33).wrapping_add(digit as usize);
        hash = if is_digit { hash } else { hash_with };
        digit = if is_digit { *byte } else { b'0' };
        count = if is_digit { count } else { count + 1 };
    }
    digits[count] = digit;
    hash = hash.wrapping_mul(33).wrapping_add(digit as usize);
    Spelt { count, hash }
}

// Writes the key and the digits that a text spells to the fronts of their buffers, and returns the length of the key.
// The only error is out of memory.
#[inline(always)]
pub(crate) fn spell_into(spelt: &[u8], spelling: &mut Spelling) -> Result<Spelt, AllocError>
    ensures key_within { IfOk result (λ found. found.count ≤ length spelling.new.key.items) }
    ensures digits_within { IfOk result (λ found. found.count < length spelling.new.digits.items) }
    ensures key { IfOk result (λ found. take found.count spelling.new.key.items ≡ filter no_digit spelt.now) }
    ensures digits { IfOk result (λ found.
        take (found.count + 1) spelling.new.digits.items ≡ digits_from digit_zero spelt.now) }
{
    spelling.make_room(spelt)?;
    let found = spell(spelt, &mut spelling.key, &mut spelling.digits);
    Ok(found)
}

// Writes the key that a text spells to the front of a buffer, and returns the length of the key, and the digits. The
// only error is out of memory.
pub(crate) fn key_and_digits(
    alloc: Global,
    spelt: &[u8],
    spelling: &mut Spelling,
) -> Result<(usize, Vec<u8>), AllocError>
    ensures within { IfOk result (λ found. found.0 ≤ length spelling.new.key.items) }
    ensures key { IfOk result (λ found. take found.0 spelling.new.key.items ≡ filter no_digit spelt.now) }
    ensures digits { IfOk result (λ found. found.1.items ≡ digits_from digit_zero spelt.now) }
    ensures some { IfOk result (λ found. 0 < length found.1.items) }
{
    let found = spell_into(spelt, spelling)?;
    let digits = Vec::from_slice(alloc, &spelling.digits[..found.count + 1])?;
    Ok((found.count, digits))
}

// Reports whether a key begins with a dot.
fn begins_with_dot(key: &[u8]) -> bool
    ensures { result ≡ begins_with_dot key.now }
{
    match key.first() {
        Some(byte) => *byte == b'.',
        None => false,
    }
}

// Returns a text without the end of its line.
fn without_line_end(text: &[u8]) -> &[u8]
    ensures { result.now ≡ without_line_end text.now }
{
    let len = text.len();
    if len > 1 && text[len - 2] == b'\r' {
        return &text[..len - 2];
    }
    if len > 0 && (text[len - 1] == b'\r' || text[len - 1] == b'\n') {
        return &text[..len - 1];
    }
    text
}

// Returns the text of a change, by what is after the slash.
fn text_of(after: &[u8]) -> &[u8]
    ensures { result.now ≡ text_of (fields_of after.now) }
{
    let (text, numbers) = cut_at(after, b',');
    match numbers {
        None => without_line_end(text),
        Some(_) => text,
    }
}

// Returns one less, where 255 is less than 0.
fn one_less(byte: u8) -> u8
    ensures { result ≡ one_less byte }
{
    byte.wrapping_sub(1)
}

// Returns the lowest byte of a number.
fn low_byte(number: usize) -> u8
    ensures { result ≡ number % 256 }
{
    (number % 256) as u8
}

// Returns the region as it is written, by the number of bytes before the slash and what is after it.
fn region_written(before: usize, after: &[u8]) -> Region
    ensures { result ≡ region_written before (fields_of after.now) }
{
    let (_, numbers) = cut_at(after, b',');
    let Some(numbers) = numbers else {
        return Region {
            start: 0,
            cut: low_byte(before),
        };
    };
    let (start, rest) = cut_at(numbers, b',');
    let Some(rest) = rest else {
        return Region { start: 0, cut: 0 };
    };
    let (cut, _) = cut_at(rest, b',');
    Region {
        start: one_less(number_byte(start)),
        cut: number_byte(cut),
    }
}

// Returns the first place of a key that is not before a leading dot.
fn first_place(key: &[u8]) -> usize
    ensures { result ≡ first_place key.now }
{
    if begins_with_dot(key) { 1 } else { 0 }
}

// Reports whether a place is at the beginning of a character, or at the end of the key.
fn is_char_place(key: &[u8], at: usize) -> bool
    requires { at ≤ length key.now }
    ensures { result ≡ is_char_place key.now at }
{
    at == key.len() || key[at] < 128 || key[at] >= 192
}

// Returns the place of a character by its number, if the key has it.
fn place_of(key: &[u8], number: usize) -> Option<usize>
    ensures { result ≡ place_of key.now number }
{
    (first_place(key)..key.len() + 1)
        .filter(|at| is_char_place(key, *at))
        .nth(number)
}

// Returns the place of a character, by its number as a signed byte.
fn char_place(key: &[u8], number: u8) -> Option<usize>
    ensures { result ≡ char_place key.now number }
{
    if number < 128 {
        place_of(key, number as usize)
    } else {
        None
    }
}

// Returns the end of a region by the numbers of its first character and of its characters.
fn char_end(key: &[u8], start: u8, cut: u8) -> Option<usize>
    ensures { result ≡ char_end key.now start cut }
{
    if cut < 128 {
        place_of(key, start as usize + cut as usize)
    } else {
        None
    }
}

// Returns the number of the first character of a region, or the first place if the key begins within a character.
fn start_taken(key: &[u8], start: u8) -> u8
    ensures { result ≡ start_taken key.now start }
{
    let first = first_place(key);
    if start == 255 && !is_char_place(key, first) {
        first as u8
    } else {
        start
    }
}

// Returns the cut in bytes, by the place at which the region begins.
fn cut_in_bytes(key: &[u8], start: u8, cut: u8, begin: Option<usize>) -> u8
    ensures { result ≡ cut_in_bytes key.now start cut begin }
{
    match (begin, char_end(key, start, cut)) {
        (Some(begin), Some(end)) => low_byte(end.saturating_sub(begin)),
        _ => cut,
    }
}

// Returns the start in bytes, by the place at which the region begins.
fn start_in_bytes(start: u8, begin: Option<usize>) -> u8
    ensures { result ≡ start_in_bytes start begin }
{
    match begin {
        Some(begin) => low_byte(begin),
        None => start,
    }
}

// Returns the start, counted behind a leading dot.
fn start_behind_dot(key: &[u8], start: u8) -> u8
    ensures { result ≡ start_behind_dot key.now start }
{
    if begins_with_dot(key) {
        one_less(start)
    } else {
        start
    }
}

// Returns the region in bytes, of one in characters of UTF-8.
fn region_in_bytes(key: &[u8], region: Region) -> Region
    ensures { result ≡ region_in_bytes key.now region }
{
    let start = start_taken(key, region.start);
    let begin = char_place(key, start);
    Region {
        start: start_behind_dot(key, start_in_bytes(start, begin)),
        cut: cut_in_bytes(key, start, region.cut, begin),
    }
}

// Returns the region with as many bytes as the key, if it has no cut.
fn with_cut(key: &[u8], region: Region) -> Region
    ensures { result ≡ with_cut key.now region }
{
    if region.cut == 0 {
        Region {
            start: region.start,
            cut: low_byte(key.len()),
        }
    } else {
        region
    }
}

// Returns the region of a change in bytes, of one as it is written.
fn region_of(utf8: bool, key: &[u8], written: Region) -> Region
    ensures { result ≡ region_of utf8 key.now written }
{
    with_cut(
        key,
        if utf8 {
            region_in_bytes(key, written)
        } else {
            written
        },
    )
}

// Returns the change of a key, by the number of bytes before the slash and what is after it. The only error is out of
// memory.
fn change_with(
    alloc: Global,
    utf8: bool,
    key: &[u8],
    before: usize,
    after: &[u8],
) -> Result<StoredChange, AllocError>
    ensures { IfOk result (λ change. change ≡ change_with utf8 key.now before (fields_of after.now)) }
{
    let region = region_of(utf8, key, region_written(before, after));
    let text = Vec::from_slice(alloc, text_of(after))?;
    Ok(StoredChange {
        text,
        start: signed(region.start),
        cut: signed(region.cut),
    })
}

// Takes the first digit away if the key begins with a dot.
fn drop_digit_before_dot(key: &[u8], digits: &mut Vec<u8>)
    requires { 0 < length digits.old.items }
    ensures { digits.new.items ≡ changing_digits key.now digits.old.items }
{
    if begins_with_dot(key) {
        digits[0] = b'0';
    }
}

// Writes the key of a line to the front of a buffer, and returns the length of the key, and the pattern without it.
// The only error is out of memory.
pub(crate) fn pattern_of(
    alloc: Global,
    utf8: bool,
    line: &[u8],
    spelling: &mut Spelling,
) -> Result<(usize, StoredPattern), AllocError>
    ensures within { IfOk result (λ pair. pair.0 ≤ length spelling.new.key.items) }
    ensures key { IfOk result (λ pair. take pair.0 spelling.new.key.items ≡ key_of line.now) }
    ensures pattern { IfOk result (λ pair. pair.1 ≡ pattern_of utf8 line.now) }
{
    let (before, after) = cut_at(line, b'/');
    let (count, mut digits) = key_and_digits(alloc, before_blank(before), spelling)?;
    let Some(after) = after else {
        let change = None;
        return Ok((count, StoredPattern { digits, change }));
    };
    let key = &spelling.key[..count];
    drop_digit_before_dot(key, &mut digits);
    let change = Some(change_with(alloc, utf8, key, before.len(), after)?);
    Ok((count, StoredPattern { digits, change }))
}

// Returns the index of the first space, control character or slash of a text.
#[inline(always)]
fn stop_position(text: &[u8]) -> Option<usize>
    ensures { result ≡ position ends_spelling text.now }
{
    text.iter().position(|b| *b <= b' ' || *b == b'/')
}

// Returns what a line spells, if that is followed by no more than one byte, which is no slash.
#[inline(always)]
pub(crate) fn spelt_alone(line: &[u8]) -> Option<&[u8]>
    ensures { IfSome result (λ part. SpellsAlone line.now part.now) }
{
    let Some(end) = stop_position(line) else {
        return Some(line);
    };
    if end + 1 == line.len() && line[end] != b'/' {
        return Some(&line[..end]);
    }
    None
}
