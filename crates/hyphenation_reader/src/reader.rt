//! Whole texts, in one pass over their lines. Each line is judged and its item added; an item that replaces another one
//! repeats an earlier line.

ghost use Rattle.std.specs.Prelude.{◌≡◌, [], None, Some, IfOk, IfErr, IsUtf8, ◌<◌, true, take, drop, OnOk, length};
ghost use Rattle.std.specs.FinMap as finite;
ghost use Rattle.std.specs.String.{string_bytes};
ghost use Rattle.hyphenation_reader.specs.Private.Builder.{HasHead, IsAfterHead, spell_nothing, items_held, no_items};
ghost use Rattle.hyphenation_reader.specs.Private.Builder.{contents_unfrozen, with_item, repeated_by};
ghost use Rattle.hyphenation_breaks.specs.Invariant.{IsDictionary};
ghost use Rattle.hyphenation_grammar.specs.Form.{form_of};
ghost use Rattle.hyphenation_grammar.specs.Lines.{lines_of, language_of, minima_of};
ghost use Rattle.hyphenation_grammar.specs.Judging.{own_cause, fault_after, refusal_of};
ghost use Rattle.hyphenation_reader.specs.Private.Judging.{cause_before_token};
ghost use Rattle.hyphenation_grammar.specs.Parsed.{IsPatternLine, pattern_view};
ghost use Rattle.hyphenation_grammar.specs.Reading.{items_of_lines, contents_in, contents_of, standard_contents};
ghost use Rattle.hyphenation_grammar.specs.Reading.{extended_contents};
ghost use Rattle.hyphenation_reader.specs.Refusals.{IsRefusal};
ghost use Rattle.hyphenation_reader.specs.Private.Refusals.{at_number};
ghost use Rattle.hyphenation_reader.specs.Private.LineAnswers.{IsItemIn};
ghost use Rattle.hyphenation_trie.specs.Trie.{EachBeginsKey};

use crate::items::{Item, LineBuffers, item_of};
use crate::known_entries::{KnownEntries, insert_pattern};
use crate::laws::spelt_is_sound;
use hyphenation_breaks::entry::{Entry, Listing, Payload};
use hyphenation_breaks::language::Language;
use hyphenation_dictionary::dictionary::{Dictionary, Extended, Standard};
use hyphenation_dictionary::exceptions::Exceptions;
use hyphenation_dictionary::laws::{inserted_key_is_added, keys_are_looked_up};
use hyphenation_dictionary::parts;
use hyphenation_grammar::Cause;
use hyphenation_grammar::form::{Form, Kind, Version};
use hyphenation_grammar::lines::{is_head, is_utf8, language_of, minima_of, next_line, version_by};
use hyphenation_grammar::pattern::next_line_reading;
use hyphenation_trie::Trie;
use std::alloc::{AllocError, Global};

/// Why a text gives no dictionary.
#[derive(Drop)]
pub enum Refusal {
    /// Out of memory. This says nothing of the text.
    Memory,
    /// The first fault of the text: the number of its line, from 1, and the first test that this line fails. A
    /// missing line 1, 2 or 3 counts as the line after the last one.
    Fault { line: usize, cause: Cause },
}

impl From<AllocError> for Refusal {
    ghost use Rattle.std.specs.Prelude.{◌≡◌};
    ghost use Rattle.hyphenation_reader.specs.declared.reader.Refusal.TheVariants.{Memory};

    ghost from_gives = { λ _ e. e ≡ Memory };

    fn from(_error: AllocError) -> Refusal {
        Refusal::Memory
    }
}

// The items of the lines so far.
struct Builder<C: Payload, B: Listing> {
    patterns: Trie<Entry<C>>,
    exceptions: Exceptions<B>,
    known: KnownEntries,
}

// Does as the derived one would, in one step of a proof.
impl<C: Payload, B: Listing> Drop for Builder<C, B> {
    fn drop(self) {
        let Builder {
            patterns,
            exceptions,
            known,
        } = self;
        drop(patterns);
        drop(exceptions);
        drop(known);
    }
}

impl<C: Payload, B: Listing> Builder<C, B> {
    // Returns an empty builder for a dictionary of that kind, with room for a text of that many bytes. Texts of
    // patterns have six to eight bytes for each node, and seldom more than one exception in 40 bytes.
    fn new(alloc: Global, kind: Kind, bytes: usize) -> Result<Builder<C, B>, AllocError>
        ensures empty { IfOk result (λ builder. items_held builder ≡ no_items) }
        ensures begins { IfOk result (λ builder. EachBeginsKey builder.patterns) }
    {
        let patterns = Trie::with_room(alloc, bytes / 6)?;
        let exceptions = Exceptions::with_room(alloc, bytes / 40)?;
        let known = KnownEntries::new(alloc, kind)?;
        Ok(Builder {
            patterns,
            exceptions,
            known,
        })
    }

    // Returns the patterns and the exceptions.
    fn into_parts(self) -> (Trie<Entry<C>>, Exceptions<B>)
        ensures patterns { result.0 ≡ self.patterns }
        ensures exceptions { result.1 ≡ self.exceptions }
    {
        let Builder {
            patterns,
            exceptions,
            known,
        } = self;
        drop(known);
        (patterns, exceptions)
    }

    // Adds a key with its entries, in place of its old ones. Reports whether it had any.
    fn add_pattern(&mut self, key: &[u8], entries: &mut Vec<Entry<C>>) -> Result<bool, AllocError>
        ensures was_held { IfOk result (λ had. had ≡ finite.contains_key (items_held self.old).patterns key.now) }
        ensures patterns { OnOk result ((items_held self.new).patterns
            ≡ finite.insert (items_held self.old).patterns key.now
            entries.old.items) }
        ensures exceptions { self.new.exceptions ≡ self.old.exceptions }
        ensures begins { OnOk result (EachBeginsKey self.old.patterns → EachBeginsKey self.new.patterns) }
    {
        keys_are_looked_up::<Entry<C>>();
        inserted_key_is_added::<Entry<C>>();
        self.patterns.invariant();
        let had = insert_pattern(&mut self.patterns, &mut self.known, key, entries)?;
        self.patterns.invariant();
        Ok(had)
    }

    // Adds a word with its listed breaks, in place of its old ones. Reports whether it had any.
    fn add_exception(&mut self, word: String, listed: Vec<B>) -> Result<bool, AllocError>
        ensures was_held { IfOk result (λ had. had
            ≡ finite.contains_key (items_held self.old).exceptions (string_bytes word)) }
        ensures exceptions { OnOk result ((items_held self.new).exceptions
            ≡ finite.insert (items_held self.old).exceptions
            (string_bytes word) listed.items) }
        ensures patterns { self.new.patterns ≡ self.old.patterns }
    {
        let old = self.exceptions.insert(word, listed)?;
        Ok(old.is_some())
    }

    // Adds the item of a line; the buffers have a pattern's key and entries. Returns the cause if an earlier line has its
    // key or its word.
    fn add(
        &mut self,
        item: Item<B>,
        buffers: &mut LineBuffers<C>,
    ) -> Result<Option<Cause>, AllocError>
        ensures cause { IfOk result (λ cause.
            cause ≡ repeated_by (items_held self.old) buffers.old.pattern.key.items item) }
        ensures added { OnOk result (items_held self.new
            ≡ with_item (items_held self.old) buffers.old.pattern.key.items buffers.old.entries.items item) }
        ensures begins { OnOk result (EachBeginsKey self.old.patterns → EachBeginsKey self.new.patterns) }
    {
        match item {
            Item::Nothing => Ok(None),
            Item::Pattern => {
                let had = self.add_pattern(&buffers.pattern.key, &mut buffers.entries)?;
                Ok(had.then_some(Cause::RepeatedPattern))
            }
            Item::Exception { word, listed } => {
                let had = self.add_exception(word, listed)?;
                Ok(had.then_some(Cause::RepeatedException))
            }
        }
    }
}

// Returns the item of the line of that number, which must be above 3, or its refusal. The buffers have a pattern's key and
// entries. `is_read` says that the line is that of the pattern in the buffers.
fn item_at<C: Payload, B: Listing>(
    alloc: Global,
    form: Form,
    number: usize,
    line: &[u8],
    known: bool,
    is_read: bool,
    buffers: &mut LineBuffers<C>,
) -> Result<Item<B>, Refusal>
    requires utf8 { known ≡ true → IsUtf8 line.now }
    requires read { is_read ≡ true → IsPatternLine (pattern_view buffers.old.pattern) line.now }
    requires past_head { 3 < number }
    ensures passes { OnOk result (own_cause form number line.now ≡ None) }
    ensures says { IfOk result (λ item.
        IsItemIn buffers.new form.version C.payload_of B.listing_of item line.now) }
    ensures refused { IfErr result (λ refusal. IsRefusal refusal (at_number number (own_cause form number line.now))) }
{
    match item_of(alloc, form, line, known, is_read, buffers)? {
        Ok(item) => Ok(item),
        Err(cause) => Err(Refusal::Fault {
            line: number,
            cause,
        }),
    }
}

// The contents of the three head lines, and the text after them.
#[derive(Drop)]
struct Head<'t> {
    language: Language,
    left: u8,
    right: u8,
    rest: &'t [u8],
}

// Judges line 1.
fn read_first(form: Form, line: &[u8]) -> Result<(), Refusal>
    ensures passes { OnOk result (cause_before_token form 1 line.now ≡ None) }
    ensures refused { IfErr result (λ refusal. IsRefusal refusal (at_number 1 (cause_before_token form 1 line.now))) }
{
    if !is_utf8(line) {
        return Err(Refusal::Fault {
            line: 1,
            cause: Cause::NotUtf8,
        });
    }
    if !is_head(form, line) {
        return Err(Refusal::Fault {
            line: 1,
            cause: Cause::Header,
        });
    }
    Ok(())
}

// Returns the language of line 2, or its refusal.
fn read_language(form: Form, line: &[u8]) -> Result<Language, Refusal>
    ensures passes { OnOk result (cause_before_token form 2 line.now ≡ None) }
    ensures says { IfOk result (λ language. language_of line.now ≡ Some language) }
    ensures refused { IfErr result (λ refusal. IsRefusal refusal (at_number 2 (cause_before_token form 2 line.now))) }
{
    if !is_utf8(line) {
        return Err(Refusal::Fault {
            line: 2,
            cause: Cause::NotUtf8,
        });
    }
    match language_of(line) {
        Some(language) => Ok(language),
        None => Err(Refusal::Fault {
            line: 2,
            cause: Cause::Language,
        }),
    }
}

// Returns the minima of line 3, or its refusal.
fn read_minima(alloc: Global, form: Form, line: &[u8]) -> Result<(u8, u8), Refusal>
    ensures passes { OnOk result (cause_before_token form 3 line.now ≡ None) }
    ensures says { IfOk result (λ minima. minima_of line.now ≡ Some minima) }
    ensures refused { IfErr result (λ refusal. IsRefusal refusal (at_number 3 (cause_before_token form 3 line.now))) }
{
    if !is_utf8(line) {
        return Err(Refusal::Fault {
            line: 3,
            cause: Cause::NotUtf8,
        });
    }
    match minima_of(alloc, line)? {
        Some(minima) => Ok(minima),
        None => Err(Refusal::Fault {
            line: 3,
            cause: Cause::Minima,
        }),
    }
}

// Reads the three head lines. Refused for the first bad or missing one.
fn read_head(alloc: Global, form: Form, bytes: &[u8]) -> Result<Head<'_>, Refusal>
    ensures says { IfOk result (λ head. HasHead form (lines_of bytes.now) head.language (head.left, head.right)) }
    ensures rest { IfOk result (λ head. IsAfterHead bytes.now head.rest.now) }
    ensures refused { IfErr result (λ refusal. IsRefusal refusal (fault_after form [] (lines_of bytes.now))) }
{
    let Some((first, rest)) = next_line(bytes) else {
        return Err(Refusal::Fault {
            line: 1,
            cause: Cause::Header,
        });
    };
    read_first(form, first)?;
    let Some((second, rest)) = next_line(rest) else {
        return Err(Refusal::Fault {
            line: 2,
            cause: Cause::Language,
        });
    };
    let language = read_language(form, second)?;
    let Some((third, rest)) = next_line(rest) else {
        return Err(Refusal::Fault {
            line: 3,
            cause: Cause::Minima,
        });
    };
    let (left, right) = read_minima(alloc, form, third)?;
    Ok(Head {
        language,
        left,
        right,
        rest,
    })
}

// Adds the items of the lines after the head. Refused for the first bad line.
fn add_lines<C: Payload, B: Listing>(
    alloc: Global,
    form: Form,
    bytes: &[u8],
    after_head: &[u8],
    builder: &mut Builder<C, B>,
) -> Result<(), Refusal>
    requires three_lines { 2 < length (lines_of bytes.now) }
    requires head { fault_after form [] (lines_of bytes.now)
        ≡ fault_after form (take 3 (lines_of bytes.now)) (drop 3 (lines_of bytes.now)) }
    requires spells_nothing { spell_nothing (take 3 (lines_of bytes.now)) ≡ true }
    requires rest { IsAfterHead bytes.now after_head.now }
    requires empty { items_held builder.old ≡ no_items }
    requires begins { EachBeginsKey builder.old.patterns }
    ensures accepted { OnOk result (fault_after form [] (lines_of bytes.now) ≡ None) }
    ensures spelt { OnOk result (items_held builder.new
        ≡ items_of_lines form.version C.payload_of B.listing_of (lines_of bytes.now)) }
    ensures begins { OnOk result (EachBeginsKey builder.new.patterns) }
    ensures refused { IfErr result (λ refusal. IsRefusal refusal (fault_after form [] (lines_of bytes.now))) }
{
    let mut buffers = LineBuffers::new(alloc);
    // If the whole text is UTF-8, so is each line; then no line is tested again.
    let known = is_utf8(bytes);
    let mut rest = after_head;
    let mut count: usize = 3;
    while let Some((line, after, is_read)) = next_line_reading(rest, &mut buffers.pattern) {
        let item = item_at(alloc, form, count + 1, line, known, is_read, &mut buffers)?;
        if let Some(cause) = builder.add(item, &mut buffers)? {
            return Err(Refusal::Fault {
                line: count + 1,
                cause,
            });
        }
        count += 1;
        rest = after;
    }
    Ok(())
}

// Returns the items of the lines after the head. Refused for the first bad line.
fn read_lines<C: Payload, B: Listing>(
    alloc: Global,
    form: Form,
    bytes: &[u8],
    after_head: &[u8],
) -> Result<Builder<C, B>, Refusal>
    requires three_lines { 2 < length (lines_of bytes.now) }
    requires head { fault_after form [] (lines_of bytes.now)
        ≡ fault_after form (take 3 (lines_of bytes.now)) (drop 3 (lines_of bytes.now)) }
    requires spells_nothing { spell_nothing (take 3 (lines_of bytes.now)) ≡ true }
    requires rest { IsAfterHead bytes.now after_head.now }
    ensures accepted { OnOk result (fault_after form [] (lines_of bytes.now) ≡ None) }
    ensures spelt { IfOk result (λ builder. items_held builder
        ≡ items_of_lines form.version C.payload_of B.listing_of (lines_of bytes.now)) }
    ensures begins { IfOk result (λ builder. EachBeginsKey builder.patterns) }
    ensures refused { IfErr result (λ refusal. IsRefusal refusal (fault_after form [] (lines_of bytes.now))) }
{
    let mut builder = Builder::new(alloc, form.kind, bytes.len())?;
    add_lines(alloc, form, bytes, after_head, &mut builder)?;
    Ok(builder)
}

// The parts of the dictionary of an accepted text. Its patterns are not frozen yet, which needs nothing of the text.
struct Unfrozen<C: Payload, B: Listing> {
    language: Language,
    left: u8,
    right: u8,
    patterns: Trie<Entry<C>>,
    exceptions: Exceptions<B>,
}

// Does as the derived one would, in one step of a proof.
impl<C: Payload, B: Listing> Drop for Unfrozen<C, B> {
    fn drop(self) {
        let Unfrozen {
            language: _,
            left: _,
            right: _,
            patterns,
            exceptions,
        } = self;
        drop(patterns);
        drop(exceptions);
    }
}

// Returns the parts of the dictionary of an accepted text, given its head and its items.
fn unfrozen_of<C: Payload, B: Listing>(
    form: Form,
    bytes: &[u8],
    head: Head<'_>,
    builder: Builder<C, B>,
) -> Unfrozen<C, B>
    requires accepted { fault_after form [] (lines_of bytes.now) ≡ None }
    requires head { HasHead form (lines_of bytes.now) head.language (head.left, head.right) }
    requires spelt { items_held builder ≡ items_of_lines form.version C.payload_of B.listing_of (lines_of bytes.now) }
    requires begins { EachBeginsKey builder.patterns }
    ensures contents { contents_unfrozen result ≡ contents_in form.version C.payload_of B.listing_of (lines_of bytes.now) }
    ensures sound { IsDictionary C.change_of B.meaning (contents_unfrozen result) }
    ensures begins { EachBeginsKey result.patterns }
{
    let (patterns, exceptions) = builder.into_parts();
    spelt_is_sound();
    Unfrozen {
        language: head.language,
        left: head.left,
        right: head.right,
        patterns,
        exceptions,
    }
}

impl<C: Payload, B: Listing> Unfrozen<C, B> {
    // Returns the dictionary of these parts. The only error is out of memory.
    fn into_dictionary(self, alloc: Global) -> Result<Dictionary<C, B>, AllocError>
        requires sound { IsDictionary C.change_of B.meaning (contents_unfrozen self) }
        requires begins { EachBeginsKey self.patterns }
        ensures { IfOk result (λ dictionary. dictionary ≡ contents_unfrozen self) }
    {
        let Unfrozen {
            language,
            left,
            right,
            patterns,
            exceptions,
        } = self;
        let patterns = patterns.freeze(alloc)?;
        parts::dictionary_of(alloc, language, left, right, patterns, exceptions)
    }
}

// Returns the form of a text of that kind, whose first line names the version.
fn form_of(kind: Kind, bytes: &[u8]) -> Form
    ensures { result ≡ form_of kind (lines_of bytes.now) }
{
    let version = match next_line(bytes) {
        Some((line, _)) => version_by(kind, line),
        None => Version::First,
    };
    Form { kind, version }
}

// Returns the parts of the dictionary of a text of that kind, or the refusal of the text.
fn read_unfrozen<C: Payload, B: Listing>(
    alloc: Global,
    kind: Kind,
    bytes: &[u8],
) -> Result<Unfrozen<C, B>, Refusal>
    ensures accepted { OnOk result (refusal_of kind bytes.now ≡ None) }
    ensures contents { IfOk result (λ unfrozen.
        contents_unfrozen unfrozen ≡ contents_of kind C.payload_of B.listing_of (lines_of bytes.now)) }
    ensures sound { IfOk result (λ unfrozen. IsDictionary C.change_of B.meaning (contents_unfrozen unfrozen)) }
    ensures begins { IfOk result (λ unfrozen. EachBeginsKey unfrozen.patterns) }
    ensures refused { IfErr result (λ refusal. IsRefusal refusal (refusal_of kind bytes.now)) }
{
    let form = form_of(kind, bytes);
    // No `?`: there is no rule for one whose result holds a language and a reference.
    let head = match read_head(alloc, form, bytes) {
        Ok(head) => head,
        Err(refusal) => return Err(refusal),
    };
    let builder = read_lines(alloc, form, bytes, head.rest)?;
    Ok(unfrozen_of(form, bytes, head, builder))
}

/// Reads a dictionary of a kind from its text, in either version, in one pass. A refusal names the first line that
/// fails a test, with that test, or says that memory ran out.
///
/// The kind must be that of the dictionary type: with the other kind changes are refused, or dropped.
pub fn read_text<C: Payload, B: Listing>(
    alloc: Global,
    kind: Kind,
    bytes: &[u8],
) -> Result<Dictionary<C, B>, Refusal>
    ensures accepted { OnOk result (refusal_of kind bytes.now ≡ None) }
    ensures contents { IfOk result (λ d. d ≡ contents_of kind C.payload_of B.listing_of (lines_of bytes.now)) }
    ensures refused { IfErr result (λ refusal. IsRefusal refusal (refusal_of kind bytes.now)) }
{
    let unfrozen = read_unfrozen(alloc, kind, bytes)?;
    Ok(unfrozen.into_dictionary(alloc)?)
}

/// Reads a dictionary as [`read_text`] does, and lets the text go as soon as its lines are read. So the memory of the text is
/// free for the rest of the work.
pub fn take_text<C: Payload, B: Listing>(
    alloc: Global,
    kind: Kind,
    bytes: Vec<u8>,
) -> Result<Dictionary<C, B>, Refusal>
    ensures accepted { OnOk result (refusal_of kind bytes.items ≡ None) }
    ensures contents { IfOk result (λ d. d ≡ contents_of kind C.payload_of B.listing_of (lines_of bytes.items)) }
    ensures refused { IfErr result (λ refusal. IsRefusal refusal (refusal_of kind bytes.items)) }
{
    let unfrozen = read_unfrozen(alloc, kind, &bytes)?;
    drop(bytes);
    Ok(unfrozen.into_dictionary(alloc)?)
}

/// Reads a standard dictionary from its text. Refused for the first bad line, or if memory runs out.
pub fn read_standard(alloc: Global, bytes: &[u8]) -> Result<Standard, Refusal>
    ensures accepted { OnOk result (refusal_of Kind.Standard bytes.now ≡ None) }
    ensures contents { IfOk result (λ d. d ≡ standard_contents bytes.now) }
    ensures refused { IfErr result (λ refusal. IsRefusal refusal (refusal_of Kind.Standard bytes.now)) }
{
    read_text(alloc, Kind::Standard, bytes)
}

/// Reads an extended dictionary from its text. Refused for the first bad line, or if memory runs out.
pub fn read_extended(alloc: Global, bytes: &[u8]) -> Result<Extended, Refusal>
    ensures accepted { OnOk result (refusal_of Kind.Extended bytes.now ≡ None) }
    ensures contents { IfOk result (λ d. d ≡ extended_contents bytes.now) }
    ensures refused { IfErr result (λ refusal. IsRefusal refusal (refusal_of Kind.Extended bytes.now)) }
{
    read_text(alloc, Kind::Extended, bytes)
}

/// Reads a standard dictionary as [`read_standard`] does, and lets the text go as soon as its lines are read.
pub fn take_standard(alloc: Global, bytes: Vec<u8>) -> Result<Standard, Refusal>
    ensures accepted { OnOk result (refusal_of Kind.Standard bytes.items ≡ None) }
    ensures contents { IfOk result (λ d. d ≡ standard_contents bytes.items) }
    ensures refused { IfErr result (λ refusal. IsRefusal refusal (refusal_of Kind.Standard bytes.items)) }
{
    take_text(alloc, Kind::Standard, bytes)
}

/// Reads an extended dictionary as [`read_extended`] does, and lets the text go as soon as its lines are read.
pub fn take_extended(alloc: Global, bytes: Vec<u8>) -> Result<Extended, Refusal>
    ensures accepted { OnOk result (refusal_of Kind.Extended bytes.items ≡ None) }
    ensures contents { IfOk result (λ d. d ≡ extended_contents bytes.items) }
    ensures refused { IfErr result (λ refusal. IsRefusal refusal (refusal_of Kind.Extended bytes.items)) }
{
    take_text(alloc, Kind::Extended, bytes)
}
