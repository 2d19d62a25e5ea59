//! The reads around the part of a test in which `tests/refused-memory` refuses requests for memory.

use std::io::Read;
use std::slice;

/// Reads a byte of standard input. The first such read begins the part, and the second one ends it.
pub fn pass_gate(rt: &HostRuntime) {
    let mut byte = 0u8;
    let _ = rt.stdin().read(slice::from_mut(&mut byte));
}
