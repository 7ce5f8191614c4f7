//! A test of many bytes at a time: whether each is clear, a character of ASCII that is neither of
//! two given ones.

ghost use Rattle.std.specs.Prelude.{◌≡◌, ◌+◌, ◌*◌, ◌≤◌, length, IsTrue};
ghost use Rattle.pytoken.specs.Inner.Readings.{is_clear, IsClearBetween};

use std::simd::prelude::*;

/// Whether a byte is a character of ASCII, and neither of two.
fn is_clear(byte: u8, one: u8, other: u8) -> bool
    ensures { result ≡ is_clear one other byte }
{
    byte <= 0x7F && byte != one && byte != other
}

/// Whether each of a few bytes is clear.
#[inline(always)]
fn few_are_clear(bytes: &[u8], one: u8, other: u8) -> bool
    ensures { IsTrue result → IsClearBetween one other bytes.now 0 (length bytes.now) }
{
    for byte in bytes {
        if !is_clear(*byte, one, other) {
            return false;
        }
    }
    true
}

/// Whether each byte of a block that begins at a place is clear.
#[inline(always)]
fn block_is_clear<const N: usize>(bytes: &[u8], at: usize, one: u8, other: u8) -> bool
    requires room { at + N ≤ length bytes.now }
    requires few { N ≤ 64 }
    ensures { IsTrue result → IsClearBetween one other bytes.now at (at + N) }
{
    let block = Simd::<u8, N>::from_slice(&bytes[at..]);
    let is_high = block.simd_gt(Simd::splat(0x7F));
    let is_one = block.simd_eq(Simd::splat(one));
    let is_other = block.simd_eq(Simd::splat(other));
    (is_high | is_one | is_other).to_bitmask() == 0
}

/// Whether each byte is clear, by a block at either end.
#[inline(always)]
fn ends_are_clear<const N: usize>(bytes: &[u8], one: u8, other: u8) -> bool
    requires long { N ≤ length bytes.now }
    requires short { length bytes.now ≤ 2 * N }
    requires few { N ≤ 64 }
    ensures { IsTrue result → IsClearBetween one other bytes.now 0 (length bytes.now) }
{
    let front = block_is_clear::<N>(bytes, 0, one, other);
    let back = block_is_clear::<N>(bytes, bytes.len() - N, one, other);
    front & back
}

/// Whether each byte is clear, block after block. The last one may overlap the one before.
fn blocks_are_clear(bytes: &[u8], one: u8, other: u8) -> bool
    requires { 32 ≤ length bytes.now }
    ensures { IsTrue result → IsClearBetween one other bytes.now 0 (length bytes.now) }
{
    let mut at = 0;
    while bytes.len() - at > 32 {
        if !block_is_clear::<32>(bytes, at, one, other) {
            return false;
        }
        at += 32;
    }
    block_is_clear::<32>(bytes, bytes.len() - 32, one, other)
}

/// Whether each byte of a text that isn't short is clear.
#[inline(never)]
fn long_is_clear(bytes: &[u8], one: u8, other: u8) -> bool
    requires { 16 ≤ length bytes.now }
    ensures { IsTrue result → IsClearBetween one other bytes.now 0 (length bytes.now) }
{
    if bytes.len() < 32 {
        ends_are_clear::<16>(bytes, one, other)
    } else {
        blocks_are_clear(bytes, one, other)
    }
}

/// Whether each byte is a character of ASCII, and neither of two.
#[inline(always)]
pub(crate) fn are_clear(bytes: &[u8], one: u8, other: u8) -> bool
    ensures { IsTrue result → IsClearBetween one other bytes.now 0 (length bytes.now) }
{
    let len = bytes.len();
    if len >= 16 {
        long_is_clear(bytes, one, other)
    } else if len >= 8 {
        ends_are_clear::<8>(bytes, one, other)
    } else if len >= 4 {
        ends_are_clear::<4>(bytes, one, other)
    } else {
        few_are_clear(bytes, one, other)
    }
}
