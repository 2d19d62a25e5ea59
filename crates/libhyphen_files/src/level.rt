//! One level of a `.dic`: its settings and its patterns.
//!
//! A level grows line by line, and is then frozen. The last line of each setting counts, and so does the last line with
//! a key.

ghost use Rattle.std.specs.Prelude.{◌≡◌, ◌≤◌, [], IfOk, IsSome, IsTrue, None, slice_index_or, IfSome, OnOk, IsFalse, length, map, take};
ghost use Rattle.hyphenation_dictionary.specs.Maker.{with_pair};
ghost use Rattle.hyphenation_dictionary.specs.Parts.{patterns_of};
ghost use Rattle.hyphenation_trie.specs.Trie.{EachBeginsKey, entries_of_node};
ghost use Rattle.libhyphen_files.specs.Levels.{empty_level, with_line, with_text, HasNoChanges};
ghost use Rattle.libhyphen_files.specs.Private.Growing.{HasDigits, IsGrowing, IsPlain, level_in, unchanging, with_key, with_spelt};
ghost use Rattle.libhyphen_files.specs.Private.Settings.{may_be_setting};
ghost use Rattle.libhyphen_files.specs.Vectors.{AreVectors, BeginsNoKey, BeginsSomeKey};

use crate::bytes::before_nul;
use crate::minima::Minima;
use crate::pattern::{Spelling, StoredPattern, pattern_of, spell_into, spelt_alone};
use crate::settings::{setting, texts_without_breaks, without_name};
use crate::vectors::{NodeVectors, first_bytes, vectors_of};
use hyphenation_dictionary::laws::inserted_key_is_added;
use hyphenation_trie::{Automaton, Trie, to_u32};
use std::alloc::{AllocError, Global};
use std::marker::Model;

/// A level, with its patterns ready to be found in words.
///
/// ```text
/// let dictionary = load(alloc, b"UTF-8\nLEFTHYPHENMIN 2\nr5kin\n")?;
/// dictionary.next_level().minima().left        // 2
/// dictionary.next_level().has_changes()        // false
/// ```
#[derive(Drop)]
pub struct FrozenLevel {
    minima: Minima,
    no_hyphen: Vec<Vec<u8>>,
    patterns: Automaton<StoredPattern>,
    // Whether some pattern may have a change.
    has_changes: bool,
    // The vectors of the nodes, with a table of steps, if the steps fit into one.
    vectors: Option<NodeVectors>,
    // For each byte whether it may begin a key.
    first_bytes: [bool; 256],
}

impl Model for FrozenLevel {
    ghost use Rattle.std.specs.Prelude.{map, IfSome, IsFalse};
    ghost use Rattle.hyphenation_dictionary.specs.Parts.{patterns_of};
    ghost use Rattle.hyphenation_trie.specs.Trie.{EachBeginsKey};
    ghost use Rattle.libhyphen_files.specs.Levels.{Level, HasNoChanges};
    ghost use Rattle.libhyphen_files.specs.Vectors.{AreFirst, AreVectors};
    ghost use Rattle.libhyphen_files.specs.Private.Codes.{level_code};

    ghost Value = { Level };

    ghost coded = { level_code };

    ghost view = { λ l. record {
      minima = l.minima;
      no_hyphen = map (λ text. text.items) l.no_hyphen.items;
      patterns = patterns_of l.patterns;
    } };

    ghost invariant = { λ l. EachBeginsKey l.patterns
        × (IsFalse l.has_changes → HasNoChanges (patterns_of l.patterns))
        × IfSome l.vectors (λ vectors. AreVectors l.patterns vectors) × AreFirst (patterns_of l.patterns) l.first_bytes };
}

impl FrozenLevel {
    /// Returns the least numbers of letters around a break, as the level sets them; 0 where it sets none.
    #[inline(always)]
    pub fn minima(&self) -> &Minima
        ensures { result.now ≡ self.now.minima }
    {
        &self.minima
    }

    /// Returns the texts directly before and after which no break is.
    #[inline(always)]
    pub fn no_hyphen(&self) -> &[Vec<u8>]
        ensures { map (λ text. text.items) result.now ≡ self.now.no_hyphen }
    {
        &self.no_hyphen
    }

    /// Returns the keys, each with its pattern, ready to be found in words. Each node but the root begins a key.
    #[inline(always)]
    pub fn patterns(&self) -> &Automaton<StoredPattern>
        ensures known { patterns_of result.now ≡ self.now.patterns }
        ensures begins { EachBeginsKey result.now }
    {
        &self.patterns
    }

    /// Returns the keys, as [`patterns`](FrozenLevel::patterns) does, and the vectors of the nodes. There are none if the
    /// steps do not fit into a table.
    #[inline(always)]
    pub fn patterns_with_vectors(&self) -> (&Automaton<StoredPattern>, &Option<NodeVectors>)
        ensures known { patterns_of result.0.now ≡ self.now.patterns }
        ensures begins { EachBeginsKey result.0.now }
        ensures vectors { IfSome result.1.now (λ vectors. AreVectors result.0.now vectors) }
    {
        (&self.patterns, &self.vectors)
    }

    /// Reports whether a key begins with a byte.
    #[inline(always)]
    pub fn may_begin(&self, byte: u8) -> bool
        ensures none { IsFalse result → BeginsNoKey self.now.patterns byte }
        ensures some { IsTrue result → BeginsSomeKey self.now.patterns byte }
    {
        self.first_bytes[byte as usize]
    }

    /// Reports whether some pattern may have a change. If not, a caller need not look for changes.
    #[inline(always)]
    pub fn has_changes(&self) -> bool
        ensures { IsFalse result → HasNoChanges self.now.patterns }
    {
        self.has_changes
    }
}

// A level that grows line by line. After an error its trie may have nodes that begin no key.
#[derive(Drop)]
pub(crate) struct GrowingLevel {
    pub(crate) minima: Minima,
    pub(crate) no_hyphen: Vec<Vec<u8>>,
    pub(crate) patterns: Trie<StoredPattern>,
    pub(crate) has_changes: bool,
    // Room for the key and the digits of a line.
    spelling: Spelling,
    // Room for the pattern of a line.
    pattern: Vec<StoredPattern>,
    // For each slot the node of a key whose pattern may have the digits looked for. It guides a search and proves
    // nothing.
    known: Vec<u32>,
}

// The number of slots. Files have some hundred to some thousand different lists of digits.
const SLOTS: usize = 4096;

impl GrowingLevel {
    // Returns the level without lines, with room for that many nodes. The only error is out of memory.
    pub(crate) fn with_room(alloc: Global, nodes: usize) -> Result<GrowingLevel, AllocError>
        ensures empty { IfOk result (λ level. level_in level ≡ empty_level) }
        ensures growing { IfOk result (λ level. IsGrowing level) }
    {
        let minima = Minima {
            left: 0,
            right: 0,
            compound_left: 0,
            compound_right: 0,
        };
        Ok(GrowingLevel {
            minima,
            no_hyphen: Vec::new(alloc),
            patterns: Trie::with_room(alloc, nodes)?,
            has_changes: false,
            spelling: Spelling::new(alloc),
            pattern: Vec::new(alloc),
            known: vec![in alloc; 0u32; SLOTS]?,
        })
    }

    // Adds one more line of a file. A comment adds nothing, and what follows a byte 0 is not seen. The only error is
    // out of memory.
    #[inline(always)]
    pub(crate) fn add_line(
        &mut self,
        alloc: Global,
        utf8: bool,
        line: &[u8],
    ) -> Result<(), AllocError>
        requires { IsGrowing self.old }
        ensures added { OnOk result (level_in self.new ≡ with_line utf8 (level_in self.old) line.now) }
        ensures growing { OnOk result (IsGrowing self.new) }
    {
        if let Some(spelt) = plain_part(line) {
            self.add_spelt(alloc, spelt)?;
            return Ok(());
        }
        self.add_other(alloc, utf8, line)
    }

    // Adds one more line of a file, whatever it is. The only error is out of memory.
    fn add_other(&mut self, alloc: Global, utf8: bool, line: &[u8]) -> Result<(), AllocError>
        requires { IsGrowing self.old }
        ensures added { OnOk result (level_in self.new ≡ with_line utf8 (level_in self.old) line.now) }
        ensures growing { OnOk result (IsGrowing self.new) }
    {
        if line.starts_with(b"%") {
            return Ok(());
        }
        self.add_text(alloc, utf8, before_nul(line))?;
        Ok(())
    }

    // Adds one more line, which is no comment and has no byte 0. The last line of each setting counts. The only error
    // is out of memory.
    fn add_text(&mut self, alloc: Global, utf8: bool, line: &[u8]) -> Result<(), AllocError>
        requires { IsGrowing self.old }
        ensures added { OnOk result (level_in self.new ≡ with_text utf8 (level_in self.old) line.now) }
        ensures growing { OnOk result (IsGrowing self.new) }
    {
        if let Some(number) = setting(line, b"LEFTHYPHENMIN") {
            self.minima.left = number;
            return Ok(());
        }
        if let Some(number) = setting(line, b"RIGHTHYPHENMIN") {
            self.minima.right = number;
            return Ok(());
        }
        if let Some(number) = setting(line, b"COMPOUNDLEFTHYPHENMIN") {
            self.minima.compound_left = number;
            return Ok(());
        }
        if let Some(number) = setting(line, b"COMPOUNDRIGHTHYPHENMIN") {
            self.minima.compound_right = number;
            return Ok(());
        }
        if let Some(texts) = without_name(line, b"NOHYPHEN") {
            self.no_hyphen = texts_without_breaks(alloc, texts)?;
            return Ok(());
        }
        let (count, pattern) = pattern_of(alloc, utf8, line, &mut self.spelling)?;
        self.add_pattern(count, pattern)?;
        Ok(())
    }

    // Adds the pattern without a change that a text spells. A key of an earlier pattern with these digits has it in
    // common with the new one, so that it takes no more memory. The only error is out of memory.
    #[inline(always)]
    fn add_spelt(&mut self, alloc: Global, spelt: &[u8]) -> Result<(), AllocError>
        requires { IsGrowing self.old }
        ensures added { OnOk result (level_in self.new ≡ with_spelt (level_in self.old) spelt.now) }
        ensures growing { OnOk result (IsGrowing self.new) }
    {
        let found = spell_into(spelt, &mut self.spelling)?;
        if found.count == 0 {
            return Ok(());
        }
        let slot = found.hash % SLOTS;
        let like = node_in(&self.known, slot);
        let digits = &self.spelling.digits[..found.count + 1];
        if has_digits(&self.patterns, like, digits) {
            let key = &self.spelling.key[..found.count];
            add_like(&mut self.patterns, key, like)?;
            return Ok(());
        }
        let digits = Vec::from_slice(alloc, digits)?;
        let change = None;
        self.add_pattern(found.count, StoredPattern { digits, change })?;
        // Most keys end at the node that was added last.
        let last = to_u32(self.patterns.count().saturating_sub(1))?;
        set_node(&mut self.known, slot, last);
        Ok(())
    }

    // Adds a pattern, whose key has `count` bytes and is at the front of its buffer. The last pattern of a key
    // counts; the empty key never does. The only error is out of memory.
    #[inline(always)]
    fn add_pattern(&mut self, count: usize, pattern: StoredPattern) -> Result<(), AllocError>
        requires growing { IsGrowing self.old }
        requires within { count ≤ length self.old.spelling.key.items }
        ensures added { OnOk result (level_in self.new
            ≡ with_key (level_in self.old) (take count self.old.spelling.key.items) pattern) }
        ensures growing { OnOk result (IsGrowing self.new) }
    {
        if count == 0 {
            return Ok(());
        }
        let has_changes = self.has_changes || pattern.change.is_some();
        self.pattern.push(pattern)?;
        let key = &self.spelling.key[..count];
        add_pattern(&mut self.patterns, key, &mut self.pattern)?;
        self.has_changes = has_changes;
        Ok(())
    }

    // Makes the level ready for words. The only error is out of memory.
    pub(crate) fn freeze(self, alloc: Global) -> Result<FrozenLevel, AllocError>
        requires { IsGrowing self }
        ensures { IfOk result (λ level. level ≡ level_in self) }
    {
        let GrowingLevel {
            minima,
            no_hyphen,
            patterns,
            has_changes,
            spelling: _,
            pattern: _,
            known: _,
        } = self;
        let patterns = patterns.freeze(alloc)?;
        let vectors = vectors_of(alloc, &patterns)?;
        let first_bytes = first_bytes(&patterns);
        Ok(FrozenLevel {
            minima,
            no_hyphen,
            patterns,
            has_changes,
            vectors,
            first_bytes,
        })
    }
}

// Returns what a line spells, if the line can be nothing but a pattern without a change.
#[inline(always)]
fn plain_part(line: &[u8]) -> Option<&[u8]>
    ensures { IfSome result (λ part. IsPlain line.now part.now) }
{
    if line.starts_with(b"%") || may_be_setting(line) {
        return None;
    }
    let part = spelt_alone(line)?;
    Some(part)
}

// Reports whether a line begins with a byte with which the name of a setting does.
#[inline(always)]
fn may_be_setting(line: &[u8]) -> bool
    ensures { result ≡ may_be_setting line.now }
{
    match line {
        [] => false,
        [first, ..] => *first == b'L' || *first == b'R' || *first == b'C' || *first == b'N',
    }
}

// Returns the node in a slot; the root, which is no key, if there is none.
#[inline(always)]
fn node_in(known: &[u32], slot: usize) -> usize {
    if slot < known.len() {
        return known[slot] as usize;
    }
    0
}

// Sets the node in a slot.
#[inline(always)]
fn set_node(known: &mut [u32], slot: usize, node: u32) {
    if slot < known.len() {
        known[slot] = node;
    }
}

// Reports whether a node has a pattern without a change that has these digits.
#[inline(always)]
fn has_digits(patterns: &Trie<StoredPattern>, node: usize, digits: &[u8]) -> bool
    ensures { IsTrue result → HasDigits patterns.now node digits.now }
{
    let Some(entries) = patterns.entries_of_node(node) else {
        return false;
    };
    match entries {
        [pattern] => is_unchanging(pattern, digits),
        _ => false,
    }
}

// Reports whether a pattern changes nothing and has these digits.
#[inline(always)]
fn is_unchanging(pattern: &StoredPattern, digits: &[u8]) -> bool
    ensures { IsTrue result → pattern.now ≡ unchanging digits.now }
{
    if pattern.change.is_some() {
        return false;
    }
    pattern.digits.as_slice() == digits
}

// Gives a key the patterns of a node, in place of those that it had. The only error is out of memory.
#[inline(always)]
fn add_like(patterns: &mut Trie<StoredPattern>, key: &[u8], like: usize) -> Result<(), AllocError>
    requires { IsSome (slice_index_or patterns.old.entries like None) }
    ensures added { OnOk result (patterns_of patterns.new
        ≡ with_pair (patterns_of patterns.old) (key.now, entries_of_node patterns.old like)) }
    ensures begins { OnOk result (EachBeginsKey patterns.old → EachBeginsKey patterns.new) }
{
    inserted_key_is_added::<StoredPattern>();
    patterns.invariant();
    patterns.insert_as(key, like)?;
    patterns.invariant();
    Ok(())
}

// Moves a pattern to its key, in place of the one that it had. The only error is out of memory.
#[inline(always)]
fn add_pattern(
    patterns: &mut Trie<StoredPattern>,
    key: &[u8],
    pattern: &mut Vec<StoredPattern>,
) -> Result<(), AllocError>
    ensures added { OnOk result (patterns_of patterns.new
        ≡ with_pair (patterns_of patterns.old) (key.now, pattern.old.items)) }
    ensures begins { OnOk result (EachBeginsKey patterns.old → EachBeginsKey patterns.new) }
    ensures moved { OnOk result (pattern.new.items ≡ []) }
{
    inserted_key_is_added::<StoredPattern>();
    patterns.invariant();
    patterns.insert(key, pattern)?;
    patterns.invariant();
    Ok(())
}
