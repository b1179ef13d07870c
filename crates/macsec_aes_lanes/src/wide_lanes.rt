//! Operations on vectors of 32 bytes, which are two states one after the other: lane by lane, and permutations of the
//! lanes of each state.

ghost use Rattle.std.specs.Prelude.{◌≡◌, ℕ, ◌+◌, ◌*◌, ◌/◌, ◌%◌, ◌^◌, ◌<◌, ◌≤◌, [], ◌∷◌, map};
ghost use Rattle.std.specs.Prelude.{slice_index, slice_index_or, bit_xor};
ghost use Rattle.std.specs.Int.{bit_at};
ghost use Rattle.std.specs.List.{range_with_len};
ghost use Rattle.macsec_aes_lanes.specs.Lanes.{columns_right, lane_at, lane_of, unmoved_rows_below};

use crate::lanes::{bytes_of, lanes_of};
use std::simd::{u8x16, u8x32, u64x4};

/// The sum of two vectors in each lane.
#[inline(always)]
pub fn add(a: u8x32, b: u8x32) -> u8x32
    ensures { (j : ℕ) → j < 32 → slice_index result j ≡ bit_xor (slice_index a j) (slice_index b j) }
{
    a ^ b
}

/// The lanes of a vector, followed by the lanes of another one.
#[inline(always)]
pub fn side_by_side(a: u8x16, b: u8x16) -> u8x32
    ensures { (h : ℕ) → h < 2 → (j : ℕ) → j < 16 → slice_index result (16 * h + j) ≡ lane_at (a ∷ b ∷ []) h j }
{
    a.shuffle(
        b,
        [
            0, 1, 2, 3, 4, 5, 6, 7, 8, 9, 10, 11, 12, 13, 14, 15, 16, 17, 18, 19, 20, 21, 22, 23,
            24, 25, 26, 27, 28, 29, 30, 31,
        ],
    )
}

/// The lanes of the first half.
#[inline(always)]
pub fn first_half(a: u8x32) -> u8x16
    ensures { (j : ℕ) → j < 16 → slice_index result j ≡ slice_index a (16 * 0 + j) }
{
    a.extract::<0, 16>()
}

#[inline(always)]
fn second_half(a: u8x32) -> u8x16
    ensures { (j : ℕ) → j < 16 → slice_index result j ≡ slice_index a (16 * 1 + j) }
{
    a.extract::<16, 16>()
}

/// The bytes of two blocks, each in the order of the lanes of its state.
#[inline(always)]
pub fn lanes_of_two(first: [u8; 16], second: [u8; 16]) -> u8x32
    ensures { (h : ℕ) → h < 2 → (m : ℕ) → m < 16
        → slice_index result (16 * h + lane_of m) ≡ lane_at (first ∷ second ∷ []) h m }
{
    side_by_side(lanes_of(first), lanes_of(second))
}

/// The two blocks whose bytes are in the lanes.
#[inline(always)]
pub fn bytes_of_two(a: u8x32) -> [[u8; 16]; 2]
    ensures { (h : ℕ) → h < 2 → slice_index_or result h []
        ≡ map (λ m. slice_index a (16 * h + lane_of m)) (range_with_len 0 16) }
{
    [bytes_of(first_half(a)), bytes_of(second_half(a))]
}

/// ShiftRows of two states twice.
#[inline(always)]
pub fn shifted_twice(a: u8x32) -> u8x32
    ensures { (h : ℕ) → h < 2 → (j : ℕ) → j < 16
        → slice_index result (16 * h + j) ≡ slice_index a (16 * h + columns_right (columns_right j)) }
{
    a.swizzle([
        0, 1, 2, 3, 6, 7, 4, 5, 8, 9, 10, 11, 14, 15, 12, 13, 16, 17, 18, 19, 22, 23, 20, 21, 24,
        25, 26, 27, 30, 31, 28, 29,
    ])
}

/// Each entry of two states becomes the one in the next row that will be in its column once ShiftRows has moved the
/// rows `moves` times.
#[inline(always)]
pub fn from_next_row(a: u8x32, moves: usize) -> u8x32
    requires some { 0 < moves }
    requires most { moves ≤ 4 }
    ensures { (h : ℕ) → h < 2 → (j : ℕ) → j < 16
        → slice_index result (16 * h + j) ≡ slice_index a (16 * h + unmoved_rows_below moves 1 j) }
{
    match moves {
        1 => a.swizzle([
            5, 6, 7, 4, 9, 10, 11, 8, 13, 14, 15, 12, 1, 2, 3, 0, 21, 22, 23, 20, 25, 26, 27, 24,
            29, 30, 31, 28, 17, 18, 19, 16,
        ]),
        2 => a.swizzle([
            6, 7, 4, 5, 10, 11, 8, 9, 14, 15, 12, 13, 2, 3, 0, 1, 22, 23, 20, 21, 26, 27, 24, 25,
            30, 31, 28, 29, 18, 19, 16, 17,
        ]),
        3 => a.swizzle([
            7, 4, 5, 6, 11, 8, 9, 10, 15, 12, 13, 14, 3, 0, 1, 2, 23, 20, 21, 22, 27, 24, 25, 26,
            31, 28, 29, 30, 19, 16, 17, 18,
        ]),
        _ => a.swizzle([
            4, 5, 6, 7, 8, 9, 10, 11, 12, 13, 14, 15, 0, 1, 2, 3, 20, 21, 22, 23, 24, 25, 26, 27,
            28, 29, 30, 31, 16, 17, 18, 19,
        ]),
    }
}

/// Each entry of two states becomes the one two rows below that will be in its column then.
#[inline(always)]
pub fn from_second_row(a: u8x32, moves: usize) -> u8x32
    ensures { (h : ℕ) → h < 2 → (j : ℕ) → j < 16
        → slice_index result (16 * h + j) ≡ slice_index a (16 * h + unmoved_rows_below moves 2 j) }
{
    if moves % 2 == 0 {
        a.swizzle([
            8, 9, 10, 11, 12, 13, 14, 15, 0, 1, 2, 3, 4, 5, 6, 7, 24, 25, 26, 27, 28, 29, 30, 31,
            16, 17, 18, 19, 20, 21, 22, 23,
        ])
    } else {
        a.swizzle([
            10, 11, 8, 9, 14, 15, 12, 13, 2, 3, 0, 1, 6, 7, 4, 5, 26, 27, 24, 25, 30, 31, 28, 29,
            18, 19, 16, 17, 22, 23, 20, 21,
        ])
    }
}

/// The lanes as four words. The first of a word's eight lanes is in its lowest bits.
#[inline(always)]
pub fn words_of(a: u8x32) -> [u64; 4]
    ensures { (l : ℕ) → l < 4 → (k : ℕ) → k < 64
        → bit_at (slice_index result l) k ≡ bit_at (slice_index a (8 * l + k / 8)) (k % 8) }
{
    u64x4::from_le_bytes(a).to_array()
}

/// The lanes that four words are.
#[inline(always)]
pub fn lanes_of_words(words: u64x4) -> u8x32
    ensures { (j : ℕ) → j < 32 → (k : ℕ) → k < 8
        → bit_at (slice_index result j) k ≡ bit_at (slice_index words (j / 8)) (8 * (j % 8) + k) }
{
    words.to_le_bytes()
}
