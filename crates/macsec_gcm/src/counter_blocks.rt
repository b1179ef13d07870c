//! The counter blocks of a text (SP 800-38D, 6.2 and 7.1).

ghost use Rattle.std.specs.Prelude.{
  ◌≡◌,
  ℕ,
  ◌+◌,
  ◌-◌,
  ◌/◌,
  ◌%◌,
  ◌^◌,
  ◌<◌,
  [],
  drop,
  length,
  slice_index,
  slice_index_or,
};
ghost use Rattle.std.specs.Fn.{iterate};
ghost use Rattle.std.specs.Int.{w32, from_le_bytes};
ghost use Rattle.macsec_gcm.specs.Gcm.{inc32, pre_counter_block};

use std::simd::{u8x16, u32x4};

/// J0, the counter block before the first one of the plaintext (7.1, step 2).
pub fn pre_counter_block(iv: &[u8; 12]) -> [u8; 16]
    ensures { result ≡ pre_counter_block iv.now }
{
    let mut counter = [0; 16];
    counter[..12].copy_from_slice(iv);
    counter[15] = 1;
    counter
}

/// Adds one to the last four octets modulo 2^32, and keeps the first twelve (SP 800-38D, 6.2).
pub fn inc32(block: [u8; 16]) -> [u8; 16]
    ensures { result ≡ inc32 block }
{
    let count = u32::from_be_bytes([block[12], block[13], block[14], block[15]]);
    let mut next = block;
    next[12..].copy_from_slice(&count.wrapping_add(1).to_be_bytes());
    next
}

/// A counter block with its last four octets in reverse order, the lowest first.
#[inline(always)]
fn turned(block: u8x16) -> u8x16
    ensures sixteen { length result ≡ 16 }
    ensures kept { (j : ℕ) → j < 12 → slice_index result j ≡ slice_index block j }
    ensures reversed { (j : ℕ) → j < 4 → slice_index result (12 + j) ≡ slice_index block (15 - j) }
{
    block.swizzle([0, 1, 2, 3, 4, 5, 6, 7, 8, 9, 10, 11, 15, 14, 13, 12])
}

/// Adds one to the number that the last four octets are, the lowest first, modulo 2^32.
#[inline(always)]
fn add_one(block: u8x16) -> u8x16
    ensures kept { (j : ℕ) → j < 12 → slice_index result j ≡ slice_index block j }
    ensures counts { (j : ℕ) → j < 4 → slice_index result (12 + j)
        ≡ (from_le_bytes w32 (drop 12 block) + 1) % 2 ^ 32 / 256 ^ j % 256 }
{
    let words = u32x4::from_le_bytes(block) + u32x4::from_array([0, 0, 0, 1]);
    words.to_le_bytes()
}

/// The same as `inc32`, in a vector.
#[inline(always)]
fn next_block(block: u8x16) -> u8x16
    ensures { result ≡ inc32 block }
{
    let low_first = turned(block);
    let next = add_one(low_first);
    turned(next)
}

/// The same as `inc32`, by a vector.
#[inline(always)]
pub fn block_after(block: [u8; 16]) -> [u8; 16]
    ensures { result ≡ inc32 block }
{
    next_block(u8x16::from_array(block)).to_array()
}

/// Consecutive counter blocks, starting with `first`.
pub fn blocks_from<const N: usize>(first: [u8; 16]) -> [[u8; 16]; N]
    requires { 0 < N }
    ensures count { length result ≡ N }
    ensures each { (i : ℕ) → i < N → slice_index_or result i [] ≡ iterate inc32 i first }
{
    let mut blocks = [first; N];
    for i in 1..N {
        blocks[i] = inc32(blocks[i - 1]);
    }
    blocks
}

/// The same as `blocks_from`, by vectors: shorter code for many blocks, and longer code for few.
pub fn blocks_by_vectors<const N: usize>(first: [u8; 16]) -> [[u8; 16]; N]
    requires { 0 < N }
    ensures count { length result ≡ N }
    ensures each { (i : ℕ) → i < N → slice_index_or result i [] ≡ iterate inc32 i first }
{
    let mut blocks = [first; N];
    let mut last = u8x16::from_array(first);
    for i in 1..N {
        let next = next_block(last);
        blocks[i] = next.to_array();
        last = next;
    }
    blocks
}
