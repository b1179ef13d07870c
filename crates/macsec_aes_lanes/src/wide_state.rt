//! The transformations of a round, on sixteen states at once, in eight bit planes of 32 lanes. The lanes of each half
//! of a plane are the entries of a state, as in `state`. Bit k of a lane of half h belongs to the state of block
//! 8 h + k (FIPS 197, 3.4). No round moves rows: MixColumns takes the entries that ShiftRows would have moved to a
//! column.

ghost use Rattle.std.specs.Prelude.{◌≡◌, ℕ, ◌+◌, ◌-◌, ◌*◌, ◌<◌, ◌≤◌, [], bit_xor, length, slice_index_or};
ghost use Rattle.macsec_aes.specs.Aes.{add_round_key, mix_columns, shift_rows, sub_bytes};
ghost use Rattle.macsec_aes.specs.Field.{byte_product, s_box};
ghost use Rattle.macsec_aes_lanes.specs.AffineConstant.{plus_constant, with_constant};
ghost use Rattle.macsec_aes_lanes.specs.Lanes.{lane_at, unmoved_rows_below};
ghost use Rattle.macsec_aes_lanes.specs.Moved.{rows_moved};
ghost use Rattle.macsec_aes_lanes.specs.Planes.{block_of, byte_of, octet};
ghost use Rattle.macsec_aes_lanes.specs.Wide.{block_in_half, byte_in_half};

use crate::wide_lanes::{
    add, bytes_of_two, from_next_row, from_second_row, lanes_of_two, lanes_of_words, shifted_twice,
    side_by_side, words_of,
};
use crate::wide_planes::transpose;
use crate::words;
use std::simd::{u8x16, u8x32, u64x4};

/// The bit planes of the states of sixteen blocks.
pub type WideStates = [u8x32; 8];

/// The states of sixteen blocks.
#[inline(always)]
pub fn states_of(blocks: &[[u8; 16]; 16]) -> WideStates
    ensures { (h : ℕ) → h < 2 → (k : ℕ) → k < 8 → (m : ℕ) → m < 16
        → byte_in_half result h k m ≡ lane_at blocks.now (8 * h + k) m }
{
    transpose([
        lanes_of_two(blocks[0], blocks[8]),
        lanes_of_two(blocks[1], blocks[9]),
        lanes_of_two(blocks[2], blocks[10]),
        lanes_of_two(blocks[3], blocks[11]),
        lanes_of_two(blocks[4], blocks[12]),
        lanes_of_two(blocks[5], blocks[13]),
        lanes_of_two(blocks[6], blocks[14]),
        lanes_of_two(blocks[7], blocks[15]),
    ])
}

/// The blocks of sixteen states after ShiftRows twice.
#[inline(always)]
pub fn blocks_of(v: WideStates) -> [[u8; 16]; 16]
    ensures sixteen { length result ≡ 16 }
    ensures blocks { (h : ℕ) → h < 2 → (k : ℕ) → k < 8
        → slice_index_or result (8 * h + k) [] ≡ rows_moved 2 (block_in_half v h k) }
{
    let blocks = transpose(v);
    let [a0, b0] = bytes_of_two(shifted_twice(blocks[0]));
    let [a1, b1] = bytes_of_two(shifted_twice(blocks[1]));
    let [a2, b2] = bytes_of_two(shifted_twice(blocks[2]));
    let [a3, b3] = bytes_of_two(shifted_twice(blocks[3]));
    let [a4, b4] = bytes_of_two(shifted_twice(blocks[4]));
    let [a5, b5] = bytes_of_two(shifted_twice(blocks[5]));
    let [a6, b6] = bytes_of_two(shifted_twice(blocks[6]));
    let [a7, b7] = bytes_of_two(shifted_twice(blocks[7]));
    [
        a0, a1, a2, a3, a4, a5, a6, a7, b0, b1, b2, b3, b4, b5, b6, b7,
    ]
}

/// The S-box of each entry, without the constant of its affine transformation.
#[inline(always)]
fn s_box_but_constant(v: WideStates) -> WideStates
    ensures { (j : ℕ) → j < 32 → (k : ℕ) → k < 8 → octet result j k ≡ plus_constant (s_box (octet v j k)) }
{
    let s = words::sub_bytes_but_constant(&[
        words_of(v[0]),
        words_of(v[1]),
        words_of(v[2]),
        words_of(v[3]),
        words_of(v[4]),
        words_of(v[5]),
        words_of(v[6]),
        words_of(v[7]),
    ]);
    [
        lanes_of_words(u64x4::from_array(s[0])),
        lanes_of_words(u64x4::from_array(s[1])),
        lanes_of_words(u64x4::from_array(s[2])),
        lanes_of_words(u64x4::from_array(s[3])),
        lanes_of_words(u64x4::from_array(s[4])),
        lanes_of_words(u64x4::from_array(s[5])),
        lanes_of_words(u64x4::from_array(s[6])),
        lanes_of_words(u64x4::from_array(s[7])),
    ]
}

/// SubBytes (FIPS 197, 5.1.1) without the constant of its affine transformation. The next round key includes it.
#[inline(always)]
pub fn sub_bytes_but_constant(v: WideStates) -> WideStates
    ensures { (h : ℕ) → h < 2 → (k : ℕ) → k < 8
        → block_in_half result h k ≡ with_constant (sub_bytes (block_in_half v h k)) }
{
    s_box_but_constant(v)
}

/// Each entry becomes the one in the next row that will be in its column after ShiftRows `moves` times.
#[inline(always)]
fn next_rows(v: WideStates, moves: usize) -> WideStates
    requires some { 0 < moves }
    requires most { moves ≤ 4 }
    ensures { (k : ℕ) → (h : ℕ) → h < 2 → (j : ℕ) → j < 16
        → octet result (16 * h + j) k ≡ octet v (16 * h + unmoved_rows_below moves 1 j) k }
{
    [
        from_next_row(v[0], moves),
        from_next_row(v[1], moves),
        from_next_row(v[2], moves),
        from_next_row(v[3], moves),
        from_next_row(v[4], moves),
        from_next_row(v[5], moves),
        from_next_row(v[6], moves),
        from_next_row(v[7], moves),
    ]
}

/// Each entry becomes the one two rows below that will be in its column after ShiftRows `moves` times.
#[inline(always)]
fn second_rows(v: WideStates, moves: usize) -> WideStates
    ensures { (k : ℕ) → (h : ℕ) → h < 2 → (j : ℕ) → j < 16
        → octet result (16 * h + j) k ≡ octet v (16 * h + unmoved_rows_below moves 2 j) k }
{
    [
        from_second_row(v[0], moves),
        from_second_row(v[1], moves),
        from_second_row(v[2], moves),
        from_second_row(v[3], moves),
        from_second_row(v[4], moves),
        from_second_row(v[5], moves),
        from_second_row(v[6], moves),
        from_second_row(v[7], moves),
    ]
}

/// The sum of two sets of states, entry by entry.
#[inline(always)]
fn sum(v: WideStates, w: WideStates) -> WideStates
    ensures { (k : ℕ) → (j : ℕ) → j < 32 → octet result j k ≡ bit_xor (octet v j k) (octet w j k) }
{
    [
        add(v[0], w[0]),
        add(v[1], w[1]),
        add(v[2], w[2]),
        add(v[3], w[3]),
        add(v[4], w[4]),
        add(v[5], w[5]),
        add(v[6], w[6]),
        add(v[7], w[7]),
    ]
}

/// Each entry times 02 (FIPS 197, 4.2), as `state::double`.
#[inline(always)]
fn double(v: WideStates) -> WideStates
    ensures { (k : ℕ) → k < 8 → (j : ℕ) → j < 32 → octet result j k ≡ byte_product 2 (octet v j k) }
{
    [
        v[7],
        add(v[0], v[7]),
        v[1],
        add(v[2], v[7]),
        add(v[3], v[7]),
        v[4],
        v[5],
        v[6],
    ]
}

/// MixColumns (FIPS 197, 5.1.3), as `state::mix_columns`, of states whose rows ShiftRows has yet to move `moves` times.
#[inline(always)]
fn mix_columns(v: WideStates, moves: usize) -> WideStates
    requires some { 0 < moves }
    requires most { moves ≤ 4 }
    ensures { (h : ℕ) → h < 2 → (k : ℕ) → k < 8
        → rows_moved moves (block_in_half result h k) ≡ mix_columns (rows_moved moves (block_in_half v h k)) }
{
    let next = next_rows(v, moves);
    let pairs = sum(v, next);
    sum(sum(double(pairs), next), second_rows(pairs, moves))
}

/// A round key for eight states, copied for sixteen.
#[inline(always)]
fn in_halves(key: [u8x16; 8]) -> WideStates
    ensures { (h : ℕ) → h < 2 → (k : ℕ) → k < 8 → (m : ℕ) → m < 16 → byte_in_half result h k m ≡ byte_of key k m }
{
    [
        side_by_side(key[0], key[0]),
        side_by_side(key[1], key[1]),
        side_by_side(key[2], key[2]),
        side_by_side(key[3], key[3]),
        side_by_side(key[4], key[4]),
        side_by_side(key[5], key[5]),
        side_by_side(key[6], key[6]),
        side_by_side(key[7], key[7]),
    ]
}

/// AddRoundKey (FIPS 197, 5.1.4), with the same round keys for both halves.
#[inline(always)]
pub fn add_round_key(v: WideStates, key: [u8x16; 8]) -> WideStates
    ensures { (h : ℕ) → h < 2 → (k : ℕ) → k < 8
        → block_in_half result h k ≡ add_round_key (block_in_half v h k) (block_of key k) }
{
    sum(v, in_halves(key))
}

/// A round (FIPS 197, 5.1) before the last one, without moving rows: ShiftRows has yet to move those of the states
/// `moves - 1` times, and those of the result and of the round key `moves` times.
#[inline(always)]
pub fn round(v: WideStates, key: [u8x16; 8], moves: usize) -> WideStates
    requires some { 0 < moves }
    requires most { moves ≤ 4 }
    ensures { (h : ℕ) → h < 2 → (k : ℕ) → k < 8 → rows_moved moves (block_in_half result h k)
        ≡ add_round_key
        (mix_columns (shift_rows (with_constant (sub_bytes (rows_moved (moves - 1) (block_in_half v h k))))))
        (rows_moved moves (block_of key k)) }
{
    add_round_key(mix_columns(sub_bytes_but_constant(v), moves), key)
}
