//! The rounds of two states at a time, whose bytes are represented as in `nibbles`. The lanes of each half of a vector
//! are the bytes of a block, in their order.

ghost use Rattle.std.specs.Prelude.{◌≡◌, ℕ, ◌+◌, ◌*◌, ◌<◌, [], ◌∷◌, slice_index, slice_index_or};
ghost use Rattle.macsec_aes.specs.Aes.{add_round_key, mix_columns, shift_rows, sub_bytes};
ghost use Rattle.macsec_aes_lanes.specs.AffineConstant.{with_constant};
ghost use Rattle.macsec_aes_lanes.specs.Lanes.{lane_at};
ghost use Rattle.macsec_aes_lanes.specs.Nibbles.{block_in, byte_below, byte_shifted, state_in};

use crate::nibbles::{last_substituted, representing, substituted};
use crate::wide_lanes::{add, side_by_side};
use std::simd::{u8x16, u8x32};

/// Each byte of a state becomes the one that ShiftRows moves to it.
#[inline(always)]
fn rows_shifted(a: u8x32) -> u8x32
    ensures { (h : ℕ) → h < 2 → (m : ℕ) → m < 16
        → slice_index result (16 * h + m) ≡ slice_index a (16 * h + byte_shifted 0 m) }
{
    a.swizzle([
        0, 5, 10, 15, 4, 9, 14, 3, 8, 13, 2, 7, 12, 1, 6, 11, 16, 21, 26, 31, 20, 25, 30, 19, 24,
        29, 18, 23, 28, 17, 22, 27,
    ])
}

/// Each byte of a state becomes the one below it after ShiftRows.
#[inline(always)]
fn next_shifted(a: u8x32) -> u8x32
    ensures { (h : ℕ) → h < 2 → (m : ℕ) → m < 16
        → slice_index result (16 * h + m) ≡ slice_index a (16 * h + byte_shifted 1 m) }
{
    a.swizzle([
        5, 10, 15, 0, 9, 14, 3, 4, 13, 2, 7, 8, 1, 6, 11, 12, 21, 26, 31, 16, 25, 30, 19, 20, 29,
        18, 23, 24, 17, 22, 27, 28,
    ])
}

/// Each byte of a state becomes the one above it after ShiftRows.
#[inline(always)]
fn last_shifted(a: u8x32) -> u8x32
    ensures { (h : ℕ) → h < 2 → (m : ℕ) → m < 16
        → slice_index result (16 * h + m) ≡ slice_index a (16 * h + byte_shifted 3 m) }
{
    a.swizzle([
        15, 0, 5, 10, 3, 4, 9, 14, 7, 8, 13, 2, 11, 12, 1, 6, 31, 16, 21, 26, 19, 20, 25, 30, 23,
        24, 29, 18, 27, 28, 17, 22,
    ])
}

/// Each byte of a state becomes the one in the next row.
#[inline(always)]
fn from_next_row(a: u8x32) -> u8x32
    ensures { (h : ℕ) → h < 2 → (m : ℕ) → m < 16
        → slice_index result (16 * h + m) ≡ slice_index a (16 * h + byte_below 1 m) }
{
    a.swizzle([
        1, 2, 3, 0, 5, 6, 7, 4, 9, 10, 11, 8, 13, 14, 15, 12, 17, 18, 19, 16, 21, 22, 23, 20, 25,
        26, 27, 24, 29, 30, 31, 28,
    ])
}

/// Two blocks, one in each half.
#[inline(always)]
pub fn both(first: [u8; 16], second: [u8; 16]) -> u8x32
    ensures { (h : ℕ) → h < 2 → (m : ℕ) → m < 16 → slice_index result (16 * h + m) ≡ lane_at (first ∷ second ∷ []) h m }
{
    side_by_side(u8x16::from_array(first), u8x16::from_array(second))
}

/// The states of two blocks after AddRoundKey.
#[inline(always)]
pub fn first_round(blocks: u8x32, key: u8x32) -> u8x32
    ensures { (h : ℕ) → h < 2 → state_in result h ≡ add_round_key (block_in blocks h) (state_in key h) }
{
    add(representing(blocks), key)
}

/// A round (FIPS 197, 5.1) with a round key that includes the constant which SubBytes omits. For the bytes a, b, c and
/// d from a row downwards, 02 a + b + d and 02 b + c are added.
#[inline(always)]
pub fn round(x: u8x32, key: u8x32) -> u8x32
    ensures { (h : ℕ) → h < 2 → state_in result h
        ≡ add_round_key (mix_columns (shift_rows (with_constant (sub_bytes (state_in x h))))) (state_in key h) }
{
    let [once, twice] = substituted(x);
    let pairs = add(rows_shifted(twice), next_shifted(once));
    let sum = add(add(pairs, last_shifted(once)), from_next_row(pairs));
    add(sum, key)
}

/// The blocks after the last round, which has no MixColumns.
#[inline(always)]
pub fn last_round(x: u8x32, key: u8x32) -> u8x32
    ensures { (h : ℕ) → h < 2 → block_in result h
        ≡ add_round_key (shift_rows (with_constant (sub_bytes (state_in x h)))) (block_in key h) }
{
    add(rows_shifted(last_substituted(x)), key)
}

/// The two blocks in the halves of a vector.
#[inline(always)]
pub fn blocks_of(a: u8x32) -> [[u8; 16]; 2]
    ensures { (h : ℕ) → h < 2 → slice_index_or result h [] ≡ block_in a h }
{
    [
        a.extract::<0, 16>().to_array(),
        a.extract::<16, 16>().to_array(),
    ]
}
