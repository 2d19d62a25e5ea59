//! The item that one line spells, or the first test that the line fails by itself.

ghost use Rattle.std.specs.Prelude.{◌≡◌, ◌==◌, IfOk, IfErr, IfSome, IsTrue, OnOk, None, Some, IsUtf8, List, [], ℕ, codes};
ghost use Rattle.std.specs.Prelude.{false, is_some, map, nat_lt, option_map, true};
ghost use Rattle.std.specs.List.{list_all};
ghost use Rattle.std.specs.Str.{is_utf8};
ghost use Rattle.std.specs.String.{string_bytes};
ghost use Rattle.hyphenation_breaks.specs.Break.{ascend_on, keeps_within};
ghost use Rattle.hyphenation_grammar.specs.Judging.{is_extended, is_known, own_cause};
ghost use Rattle.hyphenation_reader.specs.Private.Judging.{early_cause};
ghost use Rattle.hyphenation_grammar.specs.Lines.{between_spaces, strip_prefix, tokens_after};
ghost use Rattle.hyphenation_reader.specs.Private.Matched.{ascend, cause_before_match, head_change_at, have_values};
ghost use Rattle.hyphenation_reader.specs.Private.Matched.{suits_form_in_pattern, tail_after, pending};
ghost use Rattle.hyphenation_grammar.specs.Parsed.{IsPatternLine, later_token, pattern_view, some_if};
ghost use Rattle.hyphenation_grammar.specs.declared.tokens.LaterToken.TheVariants.{Sound};
ghost use Rattle.hyphenation_reader.specs.Private.Parsed.{exception_parts, no_later, pattern_parts, read_later};
ghost use Rattle.hyphenation_reader.specs.Private.Parsed.{later_view};
ghost use Rattle.hyphenation_reader.specs.Private.LineAnswers.{ReturnsItem, ReturnsPattern, ReturnsListed, ReturnsException, IsItemIn};
ghost use Rattle.hyphenation_reader.specs.Private.LineAnswers.{breaks_listed, entries_of, exception_cause};
ghost use Rattle.hyphenation_reader.specs.Private.LineAnswers.{suits_word, suits_form, places_cause, token_cause};

use hyphenation_breaks::entry::{Entry, Listing, Payload, has_letter};
use hyphenation_breaks::extended::Subregion;
use hyphenation_grammar::Cause;
use hyphenation_grammar::form::{Form, Kind, Version};
use hyphenation_grammar::lines::{first_token, is_utf8, starts_with, strip_prefix};
use hyphenation_grammar::pattern::{PatternToken, read_pattern};
use hyphenation_grammar::tokens::{LaterToken, is_boundary, later_token, string_of};
use hyphenation_trie::{test_u32, to_u32};
use std::alloc::{AllocError, Global};
use std::vec::IntoIter;

// The item that a line spells.
#[derive(Drop)]
pub(crate) enum Item<B: Drop> {
    // A head line, an empty line or a comment.
    Nothing,
    // A key with its entries. The buffers have both.
    Pattern,
    // A word with its listed breaks.
    Exception { word: String, listed: Vec<B> },
}

// Buffers that each line fills anew, so that not each line asks for memory. They have the key and the entries of a pattern
// until its item is added. They have nothing of other lines that counts.
pub(crate) struct LineBuffers<C: Drop> {
    // The contents of a pattern's token.
    pub pattern: PatternToken,
    // The entries of a key.
    pub entries: Vec<Entry<C>>,
    // The later tokens of a line.
    later: Later,
}

// Does as the derived one would. As a call it is one step in the proof of a function that holds these buffers. The
// derived one is a step for each buffer, at each way out.
impl<C: Drop> Drop for LineBuffers<C> {
    fn drop(self) {
        let LineBuffers {
            pattern,
            entries,
            later,
        } = self;
        drop(pattern);
        drop(entries);
        drop(later);
    }
}

impl<C: Drop> LineBuffers<C> {
    // Returns empty buffers. Nothing is allocated yet.
    pub(crate) fn new(alloc: Global) -> Self {
        LineBuffers {
            pattern: PatternToken::new(alloc),
            entries: Vec::new(alloc),
            later: Later::new(alloc),
        }
    }
}

// Returns the item that a line after the third spells, or the first test that it fails by itself, in a text of a form.
// Such lines are judged alike whatever their numbers. `known` says that the caller knows the line to be UTF-8. `is_read` says
// that the line is that of the pattern in the buffers. The only error is memory.
pub(crate) fn item_of<C: Payload, B: Listing>(
    alloc: Global,
    form: Form,
    line: &[u8],
    known: bool,
    is_read: bool,
    buffers: &mut LineBuffers<C>,
) -> Result<Result<Item<B>, Cause>, AllocError>
    requires utf8 { known ≡ true → IsUtf8 line.now }
    requires read { is_read ≡ true → IsPatternLine (pattern_view buffers.old.pattern) line.now }
    ensures passes { IfOk result (λ found. OnOk found (own_cause form 4 line.now ≡ None)) }
    ensures says { IfOk result (λ found. IfOk found (λ item.
        IsItemIn buffers.new form.version C.payload_of B.listing_of item line.now)) }
    ensures refused { IfOk result (λ found. IfErr found (λ cause. own_cause form 4 line.now ≡ Some cause)) }
{
    if known && is_read {
        return item_of_read(form, line, buffers);
    }
    if let Some(cause) = early_cause(line, known) {
        return Ok(Err(cause));
    }
    match strip_prefix(b"p ", line) {
        Some(text) => pattern_item(alloc, form, text, buffers),
        None => match strip_prefix(b"e ", line) {
            Some(text) => exception_item::<C, B>(alloc, form, text, &mut buffers.later),
            None => Ok(Ok(Item::Nothing)),
        },
    }
}

// Returns the first test before `Token` that a line after the third fails.
#[inline(always)]
fn early_cause(line: &[u8], known: bool) -> Option<Cause>
    requires { known ≡ true → IsUtf8 line.now }
    ensures { result ≡ early_cause line.now }
{
    if !is_utf8_line(line, known) {
        return Some(Cause::NotUtf8);
    }
    if !is_known(line) {
        return Some(Cause::UnknownLine);
    }
    None
}

// Whether a line is UTF-8. If that is known already, the line is not tested.
fn is_utf8_line(line: &[u8], known: bool) -> bool
    requires { known ≡ true → IsUtf8 line.now }
    ensures { result ≡ is_utf8 line.now }
{
    known || is_utf8(line)
}

// Whether a line is empty, a comment, a `p` line or an `e` line.
fn is_known(line: &[u8]) -> bool
    ensures { result ≡ is_known line.now }
{
    line.is_empty()
        || starts_with(b"#", line)
        || starts_with(b"p ", line)
        || starts_with(b"e ", line)
}

// Returns the item of a `p` line, given the text after `p `, or the first test that it fails. Its key and its entries are
// left in the buffers.
fn pattern_item<C: Payload, B: Listing>(
    alloc: Global,
    form: Form,
    text: &[u8],
    buffers: &mut LineBuffers<C>,
) -> Result<Result<Item<B>, Cause>, AllocError>
    requires { IsUtf8 text.now }
    ensures { IfOk result (λ found. ReturnsPattern buffers.new form C.payload_of B.listing_of text.now found) }
{
    let mut later = Later::new(alloc);
    if !pattern_parts(alloc, form.version, text, &mut buffers.pattern, &mut later)? {
        return Ok(Err(Cause::Token));
    }
    if let Some(cause) = pattern_cause(form, &buffers.pattern, &later) {
        return Ok(Err(cause));
    }
    if !entries_with_changes(&buffers.pattern.values, later.listed, &mut buffers.entries)? {
        return Ok(Err(Cause::Change));
    }
    Ok(Ok(Item::Pattern))
}

// Returns the item of a `p` line of one token, whose contents the buffers have, or the first test that it fails. Its entries
// are left in the buffers. Most `p` lines are read so: without later tokens there are no changes to judge and to match.
#[inline(always)]
fn item_of_read<C: Payload, B: Listing>(
    form: Form,
    line: &[u8],
    buffers: &mut LineBuffers<C>,
) -> Result<Result<Item<B>, Cause>, AllocError>
    requires { IsPatternLine (pattern_view buffers.old.pattern) line.now }
    ensures { IfOk result (λ found. ReturnsItem form C.payload_of B.listing_of buffers.new.pattern.key.items
        buffers.new.entries.items line.now found) }
{
    if let Some(cause) = token_cause(&buffers.pattern) {
        return Ok(Err(cause));
    }
    plain_entries(&buffers.pattern.values, &mut buffers.entries)?;
    Ok(Ok(Item::Pattern))
}

// Returns the first test after `Token` that a `p` line without later tokens fails.
#[inline(always)]
fn token_cause(pattern: &PatternToken) -> Option<Cause>
    ensures { result ≡ token_cause (pattern_view pattern.now) }
{
    if pattern.is_bad() {
        return Some(Cause::Value);
    }
    if pattern.has_two_values {
        return Some(Cause::Pattern);
    }
    if !has_letter(&pattern.key) {
        return Some(Cause::NoLetters);
    }
    None
}

// Fills `entries` with the values, each without a change. The only error is out of memory.
#[inline(always)]
fn plain_entries<C: Payload>(
    values: &[(usize, u8)],
    entries: &mut Vec<Entry<C>>,
) -> Result<(), AllocError>
    ensures { OnOk result (entries.new.items ≡ entries_of C.payload_of values.now []) }
{
    entries.clear();
    for value in values {
        let place = value.0;
        test_u32(place)?;
        entries.push(Entry {
            place: place as u32,
            value: value.1,
            change: C::from_change(None),
        })?;
    }
    Ok(())
}

// Reads the tokens of a `p` line: the first into `pattern`, and those after it into `later`. False if one of them can't be
// read.
#[inline(always)]
fn pattern_parts(
    alloc: Global,
    version: Version,
    text: &[u8],
    pattern: &mut PatternToken,
    later: &mut Later,
) -> Result<bool, AllocError>
    requires { IsUtf8 text.now }
    ensures { IfOk result (λ is_read.
        some_if is_read (pattern_view pattern.new, later_view later.new)
        ≡ pattern_parts version (between_spaces text.now)) }
{
    let (first, after) = first_token(text);
    if first.is_empty() {
        return Ok(false);
    }
    if !read_pattern(alloc, version, first, pattern)? {
        return Ok(false);
    }
    read_later(alloc, after, later)
}

// Returns the first test after `Token` that a `p` line fails, before its changes are matched with its values. Inlined
// for the same reason as `pattern_parts`.
#[inline(always)]
fn pattern_cause(form: Form, pattern: &PatternToken, later: &Later) -> Option<Cause>
    ensures { result ≡ cause_before_match form (pattern_view pattern.now) (later_view later.now) }
{
    if pattern.is_bad() {
        return Some(Cause::Value);
    }
    if pattern.has_two_values {
        return Some(Cause::Pattern);
    }
    if !has_letter(&pattern.key) {
        return Some(Cause::NoLetters);
    }
    if let Some(cause) = places_cause(&pattern.key, later) {
        return Some(cause);
    }
    if !later.are_sound || !suit_form_in_pattern(form, &pattern.key, &later.listed) {
        return Some(Cause::Change);
    }
    None
}

// Whether each change is allowed in a pattern, even without a value at its place.
fn suit_form_in_pattern(form: Form, key: &[u8], listed: &[(usize, Option<Subregion>)]) -> bool
    ensures { result ≡ list_all (suits_form_in_pattern form key.now) listed.now }
{
    for b in listed {
        if !suits_form_in_pattern(form, key, b) {
            return false;
        }
    }
    true
}

// Whether a listed place has a change that the form allows and that keeps within the key.
fn suits_form_in_pattern(form: Form, key: &[u8], b: &(usize, Option<Subregion>)) -> bool
    ensures { result ≡ suits_form_in_pattern form key.now b.now }
{
    let place = b.0;
    match &b.1 {
        None => false,
        Some(change) => suits_form(form, key, place, change),
    }
}

// Whether the form allows changes, and the change keeps within the key or the word.
fn suits_form(form: Form, text: &[u8], place: usize, change: &Subregion) -> bool
    ensures { result ≡ suits_form form text.now place change.now }
{
    is_extended(form) && keeps_within(text, place, change)
}

// Whether texts of that form may have changes.
fn is_extended(form: Form) -> bool
    ensures { result ≡ is_extended form.kind }
{
    match form.kind {
        Kind::Standard => false,
        Kind::Extended => true,
    }
}

// Whether both ends of a change's range are character boundaries of the text.
fn keeps_within(text: &[u8], place: usize, change: &Subregion) -> bool
    ensures { result ≡ keeps_within text.now place change.now }
{
    change.invariant();
    match change.range_at(place) {
        None => false,
        Some((begin, end)) => is_boundary(text, begin) && is_boundary(text, end),
    }
}

// Fills `entries` with the values, each with the change that is listed at its place. Reports whether each listed place
// has a value; if not, `entries` means nothing. Places must ascend in both lists, so that one pass is enough.
fn entries_with_changes<C: Payload>(
    values: &[(usize, u8)],
    listed: Vec<(usize, Option<Subregion>)>,
    entries: &mut Vec<Entry<C>>,
) -> Result<bool, AllocError>
    requires values { IsTrue (ascend 0 values.now) }
    requires listed { IsTrue (ascend 0 listed.items) }
    ensures each_has_value { IfOk result (λ all. all ≡ have_values values.now listed.items) }
    ensures entries { IfOk result (λ all.
        IsTrue all → entries.new.items ≡ entries_of C.payload_of values.now listed.items) }
{
    entries.clear();
    let mut rest = listed.into_iter();
    let mut next = rest.next();
    for value in values {
        let place = to_u32(value.0)?;
        let change = take_change_at(value.0, &mut next, &mut rest);
        entries.push(Entry {
            place,
            value: value.1,
            change: C::from_change(change),
        })?;
    }
    Ok(next.is_none())
}

// Takes the next listed change, if it is at the place.
fn take_change_at(
    place: usize,
    next: &mut Option<(usize, Option<Subregion>)>,
    rest: &mut IntoIter<(usize, Option<Subregion>)>,
) -> Option<Subregion>
    ensures change { result ≡ head_change_at place (pending next.old rest.old.rest.items) }
    ensures tail { pending next.new rest.new.rest.items ≡ tail_after place (pending next.old rest.old.rest.items) }
{
    match next.take() {
        Some((at, change)) if at == place => {
            *next = rest.next();
            change
        }
        other => {
            *next = other;
            None
        }
    }
}

// Returns the item of an `e` line, given the text after `e `, or the first test that it fails.
fn exception_item<C: Payload, B: Listing>(
    alloc: Global,
    form: Form,
    text: &[u8],
    later: &mut Later,
) -> Result<Result<Item<B>, Cause>, AllocError>
    requires { IsUtf8 text.now }
    ensures { IfOk result (λ found. ReturnsListed C form C.payload_of B.listing_of text.now found) }
{
    match exception_of(alloc, form, text, later)? {
        Ok((word, listed)) => Ok(Ok(Item::Exception { word, listed })),
        Err(cause) => Ok(Err(cause)),
    }
}

// Returns the word of an `e` line and its listed breaks, given the text after `e `, or the first test that it fails. `later` is
// filled anew, and means nothing then.
pub(crate) fn exception_of<B: Listing>(
    alloc: Global,
    form: Form,
    text: &[u8],
    later: &mut Later,
) -> Result<Result<(String, Vec<B>), Cause>, AllocError>
    requires { IsUtf8 text.now }
    ensures { IfOk result (λ found. (line : List ℕ) → Some text.now ≡ strip_prefix (codes "e ") line
        → ReturnsException form B.listing_of line found) }
{
    let Some(word) = exception_parts(alloc, text, later)? else {
        return Ok(Err(Cause::Token));
    };
    if let Some(cause) = exception_cause(form, word.as_bytes(), later) {
        return Ok(Err(cause));
    }
    let listed = listed_of(alloc, &mut later.listed)?;
    Ok(Ok((word, listed)))
}

// Returns the word of an `e` line, and reads the tokens after it into `later`. `None` if one of them can't be read.
#[inline(always)]
fn exception_parts(
    alloc: Global,
    text: &[u8],
    later: &mut Later,
) -> Result<Option<String>, AllocError>
    requires { IsUtf8 text.now }
    ensures { IfOk result (λ found.
        option_map (λ word. (string_bytes word, later_view later.new)) found
        ≡ exception_parts (between_spaces text.now)) }
{
    let (first, after) = first_token(text);
    if first.is_empty() {
        return Ok(None);
    }
    let Some(word) = string_of(alloc, first)? else {
        return Ok(None);
    };
    if !read_later(alloc, after, later)? {
        return Ok(None);
    }
    Ok(Some(word))
}

// Returns the first test after `Token` that an `e` line fails.
fn exception_cause(form: Form, word: &[u8], later: &Later) -> Option<Cause>
    ensures { result ≡ exception_cause form word.now (later_view later.now) }
{
    if let Some(cause) = places_cause(word, later) {
        return Some(cause);
    }
    if !later.are_sound || !suit_word(form, word, &later.listed) {
        return Some(Cause::Change);
    }
    None
}

// Whether each break may be listed for a word.
fn suit_word(form: Form, word: &[u8], listed: &[(usize, Option<Subregion>)]) -> bool
    ensures { result ≡ list_all (suits_word form word.now) listed.now }
{
    for b in listed {
        if !suits_word(form, word, b) {
            return false;
        }
    }
    true
}

// Whether a break may be listed for a word: its change, if it has one, fits the form and the word.
fn suits_word(form: Form, word: &[u8], b: &(usize, Option<Subregion>)) -> bool
    ensures { result ≡ suits_word form word.now b.now }
{
    let place = b.0;
    match &b.1 {
        None => true,
        Some(change) => suits_form(form, word, place, change),
    }
}

// Returns breaks as a dictionary lists them. Their changes are moved out of `listed`.
fn listed_of<B: Listing>(
    alloc: Global,
    listed: &mut Vec<(usize, Option<Subregion>)>,
) -> Result<Vec<B>, AllocError>
    ensures { IfOk result (λ found. found.items ≡ map B.listing_of (breaks_listed listed.old.items)) }
{
    let mut found = Vec::with_capacity(alloc, listed.len())?;
    for at in 0..listed.len() {
        let place = listed[at].0;
        let change = listed[at].1.take();
        found.push(B::from_place(place, change))?;
    }
    Ok(found)
}

// The later tokens of a line, as far as they are read. They can be read again and again into one of these, which keeps its
// list.
#[derive(Drop)]
pub(crate) struct Later {
    // Places with their changes, as far as the parts are numbers.
    listed: Vec<(usize, Option<Subregion>)>,
    // Whether each part is a number that must be one.
    are_numbers: bool,
    // Whether each change has all parts, and its breakpoint between characters.
    are_sound: bool,
}

impl Later {
    ghost use Rattle.std.specs.Prelude.{◌≡◌, IfOk, OnOk};
    ghost use Rattle.hyphenation_reader.specs.Private.Parsed.{no_later, later_view, with_token};

    // Returns the contents of no tokens. Nothing is allocated yet.
    pub(crate) fn new(alloc: Global) -> Self
        ensures { later_view result ≡ no_later }
    {
        Later {
            listed: Vec::new(alloc),
            are_numbers: true,
            are_sound: true,
        }
    }

    // Empties the contents, and keeps the list.
    fn clear(&mut self)
        ensures { later_view self.new ≡ no_later }
    {
        self.listed.clear();
        self.are_numbers = true;
        self.are_sound = true;
    }

    // Appends a token.
    #[inline(always)]
    fn add(&mut self, token: LaterToken) -> Result<(), AllocError>
        ensures { OnOk result (later_view self.new ≡ with_token (later_view self.old) token) }
    {
        match token {
            LaterToken::NoNumber => self.are_numbers = false,
            LaterToken::Unsound(place) => {
                self.listed.push((place, None))?;
                self.are_sound = false;
            }
            LaterToken::Sound(place, change) => self.listed.push((place, change))?,
        }
        Ok(())
    }
}

// Reads the tokens after a space into `later`, if there is a space. False if one of them can't be read.
#[inline]
fn read_later(alloc: Global, after: Option<&[u8]>, later: &mut Later) -> Result<bool, AllocError>
    requires { IfSome after (λ text. IsUtf8 text.now) }
    ensures { IfOk result (λ is_read. some_if is_read (later_view later.new)
        ≡ read_later no_later (tokens_after (option_map (λ text. text.now) after.entry))) }
{
    later.clear();
    let mut rest = after;
    while let Some(text) = rest {
        let (token, more) = first_token(text);
        match short_place(token) {
            Some(place) => later.add(LaterToken::Sound(place, None))?,
            None => match later_token(alloc, token)? {
                Some(token) => later.add(token)?,
                None => return Ok(false),
            },
        }
        rest = more;
    }
    Ok(true)
}

// Returns the place that a later token is, if it is a number of one or two digits. Nearly all places are so short.
#[inline(always)]
fn short_place(token: &[u8]) -> Option<usize>
    ensures { IfSome result (λ place. later_token token.now ≡ Some (Sound place None)) }
{
    match token {
        [ones] if ones.is_ascii_digit() => Some(usize::from(*ones - b'0')),
        [tens, ones] if *tens != b'0' && tens.is_ascii_digit() && ones.is_ascii_digit() => {
            Some(usize::from(*tens - b'0') * 10 + usize::from(*ones - b'0'))
        }
        _ => None,
    }
}

// Returns the first of the tests `Number` and `Place` that later tokens fail. Their places are bytes of the text.
fn places_cause(text: &[u8], later: &Later) -> Option<Cause>
    ensures { result ≡ places_cause text.now (later_view later.now) }
{
    if !later.are_numbers {
        return Some(Cause::Number);
    }
    if !are_places(text, &later.listed) {
        return Some(Cause::Place);
    }
    None
}

// Whether places ascend on character boundaries of the text.
fn are_places(text: &[u8], listed: &[(usize, Option<Subregion>)]) -> bool
    ensures { result ≡ ascend_on text.now 0 (map (λ b. b.0) listed.now) }
{
    let mut least: usize = 0;
    for b in listed {
        if b.0 < least || !is_boundary(text, b.0) {
            return false;
        }
        least = b.0 + 1;
    }
    true
}
