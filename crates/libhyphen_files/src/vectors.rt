//! The digits that each node's own pattern gives, as vectors of the last places, and the bytes that begin keys.

ghost use Rattle.std.specs.Prelude.{◌≡◌, ◌+◌, ◌<◌, IfOk, IfSome, IsFalse, IsTrue, Some, length, option_copied};
ghost use Rattle.std.specs.Prelude.{slice_index, take};
ghost use Rattle.hyphenation_breaks.specs.Ascii.{digit_zero};
ghost use Rattle.hyphenation_dictionary.specs.Parts.{patterns_of};
ghost use Rattle.hyphenation_trie.specs.Pairs.{CanBeFound};
ghost use Rattle.hyphenation_trie.specs.Trie.{EachBeginsKey};
ghost use Rattle.libhyphen_files.specs.Private.Vectors.{AreNodesNumbered, AreNumbered, HasDigitsOf, IsAt, KeepsVectors};
ghost use Rattle.libhyphen_files.specs.Vectors.{AreFirst, AreVectors, BeginsNoKey, BeginsSomeKey, IsNumberOf, IsVectorOf, pattern_of_node};

use crate::pattern::StoredPattern;
use hyphenation_dictionary::laws::keys_are_looked_up;
use hyphenation_trie::laws::keys_have_nodes;
use hyphenation_trie::table::pairs::Pairs;
use hyphenation_trie::table::steps::{Steps, make_steps};
use hyphenation_trie::{Automaton, LookUps};
use std::alloc::{AllocError, Global};

/// Returns the pattern of a node's text, if that is a key. The root has none.
#[inline(always)]
pub fn pattern_of_node<'d>(
    patterns: &'d Automaton<StoredPattern>,
    node: usize,
) -> Option<&'d StoredPattern>
    requires { node < length patterns.now.texts }
    ensures { option_copied result ≡ pattern_of_node patterns.now node }
{
    patterns.invariant();
    if node == 0 || patterns.report(node) != node {
        return None;
    }
    patterns.entries(node, &mut LookUps::new()).first()
}

// A vector that says nothing of its node's pattern.
const UNKNOWN: [u8; 16] = [255; 16];

/// The vectors of all nodes, with a table of steps. A vector has the digits that a node's own pattern gives to the 16
/// last places, counted from 0.
///
/// If the first lane is 10 or more, nothing is known of the node's pattern. Otherwise it changes no letters, and has
/// no digits but those of the vector.
#[derive(Drop)]
pub struct NodeVectors {
    /// The vectors.
    pub vectors: Vec<[u8; 16]>,
    /// The steps from node to node, each with the number of a node's vector.
    pub steps: Steps,
}

// Returns the number that a digit writes. `None` if the byte is no digit.
fn digit_value(byte: u8) -> Option<u8>
    ensures { IfSome result (λ value. byte ≡ digit_zero + value) }
{
    if byte.is_ascii_digit() {
        Some(byte - b'0')
    } else {
        None
    }
}

// Writes the digit of one more place of a key of that many bytes into a vector, and returns whether it could. The byte
// must be a digit, and no digit other than 0 may be more than 15 bytes before the key's end. A digit past the key's end
// does not count.
#[tactic(auto, using(crate::proofs::DigitVectors::digit_far, crate::proofs::DigitVectors::digit_past))]
#[inline(always)]
fn put_place(vector: &mut [u8; 16], digits: &[u8], place: usize, bytes: usize) -> bool
    requires place { place < length digits.now }
    requires before { HasDigitsOf (take place digits.now) bytes vector.old }
    ensures { IsTrue result → HasDigitsOf (take (place + 1) digits.now) bytes vector.new }
{
    if place > bytes {
        return true;
    }
    let Some(value) = digit_value(digits[place]) else {
        return false;
    };
    let distance = bytes - place;
    if distance <= 15 {
        vector[15 - distance] = value;
        return true;
    }
    value == 0
}

// Returns the vector of the digits of a key with that many bytes. `None` if a byte is no digit, or if a place more than
// 15 bytes before the key's end has a digit other than 0. Digits past the key's end do not count.
fn vector_of_digits(digits: &[u8], bytes: usize) -> Option<[u8; 16]>
    ensures { IfSome result (λ vector. HasDigitsOf digits.now bytes vector) }
{
    let mut vector = [0; 16];
    for place in 0..digits.len() {
        if !put_place(&mut vector, digits, place, bytes) {
            return None;
        }
    }
    Some(vector)
}

// Returns the vector of a node with this pattern and that many bytes.
fn vector_of(pattern: &StoredPattern, bytes: usize) -> [u8; 16]
    ensures lanes { length result ≡ 16 }
    ensures known { slice_index result 0 < 10 → IsVectorOf (Some pattern.now) bytes result }
{
    if pattern.change.is_some() {
        return UNKNOWN;
    }
    match vector_of_digits(&pattern.digits, bytes) {
        Some(vector) => vector,
        None => UNKNOWN,
    }
}

// Returns the number of a vector, which is added if no vector is equal. Where there are too many, it is the number of
// the one that says nothing. The only error is out of memory.
fn number_at(pairs: &mut Pairs, vector: &[u8; 16]) -> Result<u32, AllocError>
    requires numbered { AreNumbered pairs.old.vectors.items }
    requires pairs { CanBeFound pairs.old }
    ensures pairs { CanBeFound pairs.new }
    ensures numbered { AreNumbered pairs.new.vectors.items }
    ensures kept { KeepsVectors pairs.old.vectors.items pairs.new.vectors.items }
    ensures found { IfOk result (λ number. IsAt pairs.new.vectors.items number vector.now) }
{
    match pairs.find_or_add(vector, 0)? {
        Some(number) => Ok(number),
        None => Ok(1),
    }
}

// Returns the number of a node's vector. The only error is out of memory.
fn number_of(
    patterns: &Automaton<StoredPattern>,
    node: usize,
    pairs: &mut Pairs,
) -> Result<u32, AllocError>
    requires node { node < length patterns.now.texts }
    requires numbered { AreNumbered pairs.old.vectors.items }
    requires pairs { CanBeFound pairs.old }
    ensures pairs { CanBeFound pairs.new }
    ensures numbered { AreNumbered pairs.new.vectors.items }
    ensures kept { KeepsVectors pairs.old.vectors.items pairs.new.vectors.items }
    ensures found { IfOk result (λ number. IsNumberOf patterns.now pairs.new.vectors.items node number) }
{
    let Some(pattern) = pattern_of_node(patterns, node) else {
        return Ok(0);
    };
    let vector = vector_of(pattern, patterns.depth(node));
    number_at(pairs, &vector)
}

// The numbers of all nodes, and the vectors.
#[derive(Drop)]
struct Numbered {
    numbers: Vec<u32>,
    vectors: Vec<[u8; 16]>,
}

// Returns the numbers of all nodes, and the vectors. The only error is out of memory.
fn numbered_vectors(
    alloc: Global,
    patterns: &Automaton<StoredPattern>,
) -> Result<Numbered, AllocError>
    ensures { IfOk result
        (λ n. AreNodesNumbered patterns.now n.numbers.items n.vectors.items (length patterns.now.texts)) }
{
    patterns.invariant();
    let nodes = patterns.nodes();
    let mut pairs = Pairs::new(alloc)?;
    pairs.add(&[0; 16], 0)?;
    pairs.add(&UNKNOWN, 0)?;
    let mut numbers = Vec::with_capacity(alloc, nodes)?;
    numbers.push(0u32)?;
    for node in 1..nodes {
        let number = number_of(patterns, node, &mut pairs)?;
        numbers.push(number)?;
    }
    let Pairs { vectors, .. } = pairs;
    Ok(Numbered { numbers, vectors })
}

// Returns the vectors of all nodes with a table of steps; `None` if the steps do not fit into one. The only error is out
// of memory.
pub(crate) fn vectors_of(
    alloc: Global,
    patterns: &Automaton<StoredPattern>,
) -> Result<Option<NodeVectors>, AllocError>
    ensures { IfOk result (λ made. IfSome made (λ vectors. AreVectors patterns.now vectors)) }
{
    let Numbered { numbers, vectors } = numbered_vectors(alloc, patterns)?;
    let Some(steps) = make_steps(alloc, patterns, &numbers)? else {
        return Ok(None);
    };
    Ok(Some(NodeVectors { vectors, steps }))
}

// Reports whether a node's text begins with a byte. Only then a key does.
fn may_begin(patterns: &Automaton<StoredPattern>, byte: u8) -> bool
    requires { EachBeginsKey patterns.now }
    ensures none { IsFalse result → BeginsNoKey (patterns_of patterns.now) byte }
    ensures some { IsTrue result → BeginsSomeKey (patterns_of patterns.now) byte }
{
    patterns.invariant();
    keys_have_nodes::<StoredPattern>();
    keys_are_looked_up::<StoredPattern>();
    patterns.step(patterns.root(), byte, &mut LookUps::new()) != 0
}

// Marks each byte that begins a key.
pub(crate) fn first_bytes(patterns: &Automaton<StoredPattern>) -> [bool; 256]
    requires { EachBeginsKey patterns.now }
    ensures { AreFirst (patterns_of patterns.now) result }
{
    let mut marks = [true; 256];
    for byte in 0..marks.len() {
        marks[byte] = may_begin(patterns, byte as u8);
    }
    marks
}
