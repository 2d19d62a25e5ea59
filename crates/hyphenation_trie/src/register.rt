//! A register of 16 numbers, one for each of the last places of a text that a pass reads.
//!
//! With each byte that it reads, the pass moves the numbers by one place, raises them to those of a vector, and writes them
//! to a list. A number that is moved out of the register is written for good.

ghost use Rattle.std.specs.Prelude.{◌≡◌, ◌+◌, ◌<◌, ◌≤◌, ℕ, max, length, slice_index};

use std::simd::prelude::*;

/// Moves the lanes by one to the front, with 0 at the end.
#[inline(always)]
pub fn moved(register: u8x16) -> u8x16
    requires { length register ≡ 16 }
    ensures lanes { length result ≡ 16 }
    ensures each { (lane : ℕ) → lane < 16 → slice_index result lane ≡ slice_index register (lane + 1) }
{
    register.shuffle(
        u8x16::splat(0),
        [1, 2, 3, 4, 5, 6, 7, 8, 9, 10, 11, 12, 13, 14, 15, 16],
    )
}

/// Returns the greater of two numbers in each lane.
#[inline(always)]
pub fn greater(a: u8x16, b: u8x16) -> u8x16
    requires lanes { (length a ≡ 16) × (length b ≡ 16) }
    ensures lanes { length result ≡ 16 }
    ensures each { (lane : ℕ) → lane < 16 → slice_index result lane ≡ max (slice_index a lane) (slice_index b lane) }
{
    a.simd_max(b)
}

/// Writes the 16 numbers to a place of a list. Those before the place stay.
#[inline(always)]
pub fn store(register: u8x16, list: &mut [u8], at: usize)
    requires lanes { length register ≡ 16 }
    requires room { at + 16 ≤ length list.old }
    ensures written { (lane : ℕ) → lane < 16 → slice_index list.new (at + lane) ≡ slice_index register lane }
    ensures before { (i : ℕ) → i < at → slice_index list.new i ≡ slice_index list.old i }
    ensures room { length list.new ≡ length list.old }
{
    register.copy_to_slice(&mut list[at..at + 16]);
}
