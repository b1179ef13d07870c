//! The S-box by look-ups of nibbles within vectors, as Hamburg found it, in two states at a time.
//!
//! The bytes of a state are represented by other bytes, under a linear map: the two nibbles of such a byte are elements
//! of a field of 16 elements. The inverse of the byte is found by five look-ups of inverses and quotients of nibbles.
//! There 80 hexadecimal represents infinity: the entry for infinity is 0. The last look-ups apply the affine
//! transformation and give the byte, or its representation. All tables have 16 entries and are held in vectors.

ghost use Rattle.std.specs.Prelude.{◌≡◌, ℕ, ◌/◌, ◌%◌, ◌^◌, ◌<◌, slice_index, bit_xor};
ghost use Rattle.macsec_aes.specs.Field.{byte_product, s_box};
ghost use Rattle.macsec_aes_lanes.specs.AffineConstant.{plus_constant};
ghost use Rattle.macsec_aes_lanes.specs.Lanes.{lane_at};
ghost use Rattle.macsec_aes_lanes.specs.Nibbles.{IsPlace, entry, left_part, represented, right_part};

use crate::wide_lanes::{add, side_by_side};
use std::simd::{u8x16, u8x32};

/// The inverse of each nibble.
const INVERSES: [u8; 16] = [
    0x80, 0x01, 0x08, 0x0d, 0x0f, 0x06, 0x05, 0x0e, 0x02, 0x0c, 0x0b, 0x0a, 0x09, 0x03, 0x07, 0x04,
];

/// A constant, divided by each nibble.
const QUOTIENTS: [u8; 16] = [
    0x80, 0x07, 0x0b, 0x0f, 0x06, 0x0a, 0x04, 0x01, 0x09, 0x08, 0x05, 0x02, 0x0c, 0x0e, 0x0d, 0x03,
];

/// What represents a byte: the sums of an entry for its left nibble and one for its right nibble.
const FROM_LEFT: [u8; 16] = [
    0x00, 0x4d, 0x7c, 0x31, 0x7d, 0x30, 0x01, 0x4c, 0x81, 0xcc, 0xfd, 0xb0, 0xfc, 0xb1, 0x80, 0xcd,
];

const FROM_RIGHT: [u8; 16] = [
    0x00, 0x70, 0x2a, 0x5a, 0x98, 0xe8, 0xb2, 0xc2, 0x08, 0x78, 0x22, 0x52, 0x90, 0xe0, 0xba, 0xca,
];

/// What represents a byte of SubBytes: the sums of an entry for each part of the inverse.
const ONCE_LEFT: [u8; 16] = [
    0x00, 0x3e, 0x50, 0xcb, 0x8f, 0xe1, 0x9b, 0xb1, 0x44, 0xf5, 0x2a, 0x14, 0x6e, 0x7a, 0xdf, 0xa5,
];

const ONCE_RIGHT: [u8; 16] = [
    0x00, 0x23, 0xe2, 0xfa, 0x15, 0xd4, 0x18, 0x36, 0xef, 0xd9, 0x2e, 0x0d, 0xc1, 0xcc, 0xf7, 0x3b,
];

/// What represents 02 times a byte of SubBytes.
const TWICE_LEFT: [u8; 16] = [
    0x00, 0x24, 0x71, 0x0b, 0xc6, 0x93, 0x7a, 0xe2, 0xcd, 0x2f, 0x98, 0xbc, 0x55, 0xe9, 0xb7, 0x5e,
];

const TWICE_RIGHT: [u8; 16] = [
    0x00, 0x29, 0xe1, 0x0a, 0x40, 0x88, 0xeb, 0x69, 0x4a, 0x23, 0x82, 0xab, 0xc8, 0x63, 0xa1, 0xc2,
];

/// A byte of SubBytes itself.
const LAST_LEFT: [u8; 16] = [
    0x00, 0xc7, 0xbd, 0x6f, 0x17, 0x6d, 0xd2, 0xd0, 0x78, 0xa8, 0x02, 0xc5, 0x7a, 0xbf, 0xaa, 0x15,
];

const LAST_RIGHT: [u8; 16] = [
    0x00, 0x6a, 0xbb, 0x5f, 0xa5, 0x74, 0xe4, 0xcf, 0xfa, 0x35, 0x2b, 0x41, 0xd1, 0x90, 0x1e, 0x8e,
];

#[inline(always)]
fn left_nibbles(a: u8x32) -> u8x32
    ensures nibbles { (k : ℕ) → k < 32 → slice_index result k ≡ slice_index a k / 2 ^ 4 }
    ensures given { (k : ℕ) → k < 32 → slice_index a k < 256 }
{
    a >> u8x32::splat(4)
}

#[inline(always)]
fn right_nibbles(a: u8x32) -> u8x32
    ensures { (k : ℕ) → k < 32 → slice_index result k ≡ slice_index a k % 2 ^ 4 }
{
    a & u8x32::splat(15)
}

/// The entry of a table for the nibble in each lane, and 0 for infinity.
#[inline(always)]
fn looked_up(table: [u8; 16], places: u8x32) -> u8x32
    requires { (k : ℕ) → k < 32 → IsPlace (slice_index places k) }
    ensures { (k : ℕ) → k < 32 → slice_index result k ≡ entry table (slice_index places k) }
{
    let half = u8x16::from_array(table);
    side_by_side(half, half).swizzle_dyn_within::<16>(places)
}

/// What represents each byte.
#[inline(always)]
pub fn representing(x: u8x32) -> u8x32
    ensures { (k : ℕ) → k < 32 → represented (slice_index result k) ≡ slice_index x k }
{
    let left = left_nibbles(x);
    let right = right_nibbles(x);
    add(looked_up(FROM_LEFT, left), looked_up(FROM_RIGHT, right))
}

/// The two parts of the inverse of each byte that is represented, each a nibble or infinity.
#[inline(always)]
fn parts(x: u8x32) -> [u8x32; 2]
    ensures left { (k : ℕ) → k < 32 → lane_at result 0 k ≡ left_part (slice_index x k) }
    ensures right { (k : ℕ) → k < 32 → lane_at result 1 k ≡ right_part (slice_index x k) }
    ensures given { (k : ℕ) → k < 32 → slice_index x k < 256 }
{
    let left = left_nibbles(x);
    let right = right_nibbles(x);
    let sum = add(left, right);
    let quotient = looked_up(QUOTIENTS, right);
    let first = add(looked_up(INVERSES, left), quotient);
    let second = add(looked_up(INVERSES, sum), quotient);
    [
        add(looked_up(INVERSES, first), sum),
        add(looked_up(INVERSES, second), left),
    ]
}

/// SubBytes without its constant, and 02 times that, both of bytes that are represented and as what represents them.
#[inline(always)]
pub fn substituted(x: u8x32) -> [u8x32; 2]
    ensures once { (k : ℕ) → k < 32
        → represented (lane_at result 0 k) ≡ plus_constant (s_box (represented (slice_index x k))) }
    ensures twice { (k : ℕ) → k < 32
        → represented (lane_at result 1 k) ≡ byte_product 2 (plus_constant (s_box (represented (slice_index x k)))) }
    ensures given { (k : ℕ) → k < 32 → slice_index x k < 256 }
{
    let [left, right] = parts(x);
    [
        add(looked_up(ONCE_LEFT, left), looked_up(ONCE_RIGHT, right)),
        add(looked_up(TWICE_LEFT, left), looked_up(TWICE_RIGHT, right)),
    ]
}

/// SubBytes without its constant, of bytes that are represented.
#[inline(always)]
pub fn last_substituted(x: u8x32) -> u8x32
    ensures { (k : ℕ) → k < 32 → slice_index result k ≡ plus_constant (s_box (represented (slice_index x k))) }
{
    let [left, right] = parts(x);
    add(looked_up(LAST_LEFT, left), looked_up(LAST_RIGHT, right))
}
