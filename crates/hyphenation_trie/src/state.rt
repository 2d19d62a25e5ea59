//! The state of a node: the span of its entries if its text is a key.

ghost use Rattle.std.specs.Prelude.{◌≡◌, ◌≢◌, ◌+◌, ◌≤◌, ◌^◌, ◌-◌, length, Some, None, is_some, IfOk};
ghost use Rattle.std.specs.List.{slice_range};
ghost use Rattle.hyphenation_trie.specs.Private.States.{is_key, span_in};

use super::test_u32;
use std::alloc::AllocError;

// The entries of a key, as a range of the entries of all keys.
#[derive(Clone, Copy)]
pub(crate) struct Span {
    pub(crate) start: u32,
    pub(crate) count: u32,
}

// The start of a span that is none. The list of all entries ends before it.
const NO_START: u32 = u32::MAX;

impl Span {
    // Returns the span of `count` entries from `start` on. The only error is out of memory, for a start from 2^32 - 1 on, and
    // for a count from 2^32 on.
    pub(crate) fn of(start: usize, count: usize) -> Result<Span, AllocError>
        ensures numbers { IfOk result (λ span. (span.start ≡ start) × (span.count ≡ count)) }
        ensures is_a_start { IfOk result (λ span. span.start ≢ 2 ^ 32 - 1) }
    {
        test_u32(start)?;
        test_u32(count)?;
        let start = start as u32;
        if start == NO_START {
            return Err(AllocError);
        }
        Ok(Span {
            start,
            count: count as u32,
        })
    }
}

// Returns the entries of a span.
pub(crate) fn entries_in<E>(entries: &[E], span: Span) -> &[E]
    requires { span.start + span.count ≤ length entries.now }
    ensures { result.now ≡ slice_range entries.now span.start (span.start + span.count) }
{
    let start = span.start as usize;
    &entries[start..start + span.count as usize]
}

// The part of a node that a search reads if the text is a key.
#[derive(Clone, Copy)]
pub(crate) struct State {
    // The span of its entries if it is a key. Callers that know it is one read this directly. The start of no key's span tells
    // the other nodes, so that a state takes 8 bytes.
    pub(crate) span: Span,
}

impl State {
    // Returns the state of a node whose text is not a key.
    pub(crate) fn of_no_key() -> State
        ensures { span_in result ≡ None }
    {
        State {
            span: Span {
                start: NO_START,
                count: 0,
            },
        }
    }

    // Whether the node's text is a key.
    pub(crate) fn is_key(&self) -> bool
        ensures { result ≡ is_key self.now }
    {
        self.span.start != NO_START
    }

    // Makes the node's text a key with the entries of a span, and returns whether it was a key.
    pub(crate) fn set_span(&mut self, span: Span) -> bool
        requires { span.start ≢ 2 ^ 32 - 1 }
        ensures set { span_in self.new ≡ Some span }
        ensures had { result ≡ is_some (span_in self.old) }
    {
        let had = self.is_key();
        self.span = span;
        had
    }
}
