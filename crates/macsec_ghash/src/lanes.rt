//! Products of eight blocks with eight numbers. Products of nibbles are looked up in tables held in vectors, one octet
//! of each product at a time.

ghost use Rattle.std.specs.Prelude.{◌≡◌, ℕ, suc, ◌+◌, ◌-◌, ◌*◌, ◌/◌, ◌%◌, ◌^◌, ◌<◌, ◌≤◌, slice_index, bit_xor};
ghost use Rattle.std.specs.Prelude.{length, take, drop};
ghost use Rattle.std.specs.Int.{byte_at};
ghost use Rattle.macsec_field128.specs.Field.{block_product, sum_below};
ghost use Rattle.macsec_ghash.specs.Ghash.{block_of};
ghost use Rattle.macsec_ghash.specs.Powers.{power};
ghost use Rattle.macsec_ghash.specs.Tables.{IsAfter, IsMoved, block_at, lane_at, number_from, number_in, octet_of_sum};
ghost use Rattle.macsec_ghash.specs.Tables.{sum_by_octets};

use crate::powers::{KeyPowers, OCTETS, TABLES_LEN};
use macsec_field128::laws::{carryless_laws, product_is_block, product_is_residue, residue_adds};
use macsec_field128::{Block, residue};
use std::simd::{u8x16, u8x32, u64x2};

/// The sum of two vectors, octet by octet.
#[inline(always)]
fn add(a: u8x32, b: u8x32) -> u8x32
    ensures { (k : ℕ) → k < 32 → slice_index result k ≡ bit_xor (slice_index a k) (slice_index b k) }
{
    a ^ b
}

/// The lanes of a vector, followed by the lanes of another one.
#[inline(always)]
fn side_by_side(a: u8x16, b: u8x16) -> u8x32
    ensures { (i : ℕ) → i < 16
        → (slice_index result (0 + i) ≡ slice_index a i) × (slice_index result (16 + i) ≡ slice_index b i) }
{
    a.shuffle(
        b,
        [
            0, 1, 2, 3, 4, 5, 6, 7, 8, 9, 10, 11, 12, 13, 14, 15, 16, 17, 18, 19, 20, 21, 22, 23,
            24, 25, 26, 27, 28, 29, 30, 31,
        ],
    )
}

#[inline(always)]
fn left_nibbles(octets: u8x16) -> u8x16
    ensures { (i : ℕ) → i < 16 → (slice_index result i ≡ slice_index octets i / 2 ^ 4) × (slice_index result i < 16) }
{
    octets >> u8x16::splat(4)
}

#[inline(always)]
fn right_nibbles(octets: u8x16) -> u8x16
    ensures { (i : ℕ) → i < 16 → slice_index result i ≡ slice_index octets i % 2 ^ 4 }
{
    octets & u8x16::splat(15)
}

/// The octets of a block, starting at the right.
#[inline(always)]
fn octets_from_right(block: u128) -> u8x16
    ensures { (i : ℕ) → i < 16 → slice_index result i ≡ byte_at i block }
{
    let right = (block & 0xffff_ffff_ffff_ffff) as u64;
    let left = (block >> 64) as u64;
    u64x2::from_array([right, left]).to_le_bytes()
}

/// The lanes of a vector in reverse order.
#[inline(always)]
fn turned(a: u8x16) -> u8x16
    ensures { (i : ℕ) → i < 16 → slice_index result i ≡ slice_index a (15 - i) }
{
    a.swizzle([15, 14, 13, 12, 11, 10, 9, 8, 7, 6, 5, 4, 3, 2, 1, 0])
}

/// The octets of a block.
#[inline(always)]
pub fn octets_of(block: u128) -> u8x16
    ensures { number_from 0 result ≡ block }
{
    turned(octets_from_right(block))
}

/// The 16 octets of a text from `start` on.
#[inline(always)]
pub fn octets_at(text: &[u8], start: usize) -> u8x16
    requires { start + 16 ≤ length text.now }
    ensures { number_from 0 result ≡ block_of (take 16 (drop start text.now)) }
{
    u8x16::from_slice(&text[start..start + 16])
}

/// The octets of the sum of two blocks.
#[inline(always)]
pub fn sum_of_blocks(a: u8x16, b: u8x16) -> u8x16
    ensures { number_from 0 result ≡ bit_xor (number_from 0 a) (number_from 0 b) }
{
    a ^ b
}

/// The left nibbles of octets, followed by the right ones.
#[inline(always)]
fn nibbles_of(octets: u8x16) -> u8x32
    ensures left { (i : ℕ) → i < 16 → slice_index result (0 + i) ≡ slice_index octets (0 + i) / 2 ^ 4 }
    ensures right { (i : ℕ) → i < 16 → slice_index result (16 + i) ≡ slice_index octets (0 + i) % 2 ^ 4 }
    ensures small { (k : ℕ) → k < 32 → slice_index result k < 16 }
    ensures octets { (i : ℕ) → slice_index octets i < 2 ^ 8 }
{
    side_by_side(left_nibbles(octets), right_nibbles(octets))
}

/// The entry of a table for the nibble in each lane.
#[inline(always)]
fn looked_up(table: u8x16, nibbles: u8x32) -> u8x32
    requires { (k : ℕ) → k < 32 → slice_index nibbles k < 16 }
    ensures { (k : ℕ) → k < 32 → slice_index result k ≡ slice_index table (slice_index nibbles k) }
{
    side_by_side(table, table).swizzle_dyn_within::<16>(nibbles)
}

/// One octet of the sum of the products of eight nibbles with eight numbers, for the nibbles in each lane.
#[inline(always)]
fn octets_of_sums(tables: &[u8; TABLES_LEN], octet: usize, nibbles: &[u8x32; 8]) -> u8x32
    requires octet { octet < 17 }
    requires small { (p : ℕ) → p < 8 → (k : ℕ) → k < 32 → lane_at nibbles.now p k < 16 }
    ensures { (k : ℕ) → k < 32 → slice_index result k ≡ octet_of_sum tables.now octet (λ p. lane_at nibbles.now p k) }
{
    let mut sums = u8x32::splat(0);
    for place in 0..8usize {
        let table = u8x16::from_slice(&tables[128 * octet + 16 * place..]);
        sums = add(sums, looked_up(table, nibbles[place]));
    }
    sums
}

/// Each half of a vector without its first lane, followed by the first lane of the same half of another vector.
#[inline(always)]
fn moved_left(a: u8x32, b: u8x32) -> u8x32
    ensures inner { (i : ℕ) → i < 15
        → (slice_index result (0 + i) ≡ slice_index a (0 + suc i))
        × (slice_index result (16 + i) ≡ slice_index a (16 + suc i)) }
    ensures last { (slice_index result 15 ≡ slice_index b 0) × (slice_index result 31 ≡ slice_index b 16) }
{
    a.shuffle(
        b,
        [
            1, 2, 3, 4, 5, 6, 7, 8, 9, 10, 11, 12, 13, 14, 15, 32, 17, 18, 19, 20, 21, 22, 23, 24,
            25, 26, 27, 28, 29, 30, 31, 48,
        ],
    )
}

/// Shifts numbers of 32 octets left by one octet, and adds sums at their right ends. The first vector has the left
/// halves of the numbers, the second the right halves.
#[inline(always)]
fn moved(left: u8x32, right: u8x32, sums: u8x32) -> (u8x32, u8x32)
    ensures first { IsMoved 0 left right sums result.0 result.1 }
    ensures second { IsMoved 16 left right sums result.0 result.1 }
{
    (
        moved_left(left, right),
        add(moved_left(right, u8x32::splat(0)), sums),
    )
}

#[inline(always)]
fn first_half(v: u8x32) -> u8x16
    ensures { (i : ℕ) → i < 16 → slice_index result (0 + i) ≡ slice_index v (0 + i) }
{
    v.extract::<0, 16>()
}

#[inline(always)]
fn second_half(v: u8x32) -> u8x16
    ensures { (i : ℕ) → i < 16 → slice_index result (0 + i) ≡ slice_index v (16 + i) }
{
    v.extract::<16, 16>()
}

/// Sixteen octets as a big-endian number.
#[inline(always)]
fn number_of(octets: u8x16) -> u128
    ensures { result ≡ number_from 0 octets }
{
    u128::from_be_bytes(octets.to_array())
}

/// One more turn of `moved_sums`: the numbers so far are shifted left by one octet, and the sums of the next octet of
/// the products are added.
#[inline(always)]
fn after_turn(
    tables: &[u8; TABLES_LEN],
    nibbles: &[u8x32; 8],
    turn: usize,
    left: u8x32,
    right: u8x32,
) -> (u8x32, u8x32)
    requires turn { turn < 17 }
    requires small { (p : ℕ) → p < 8 → (k : ℕ) → k < 32 → lane_at nibbles.now p k < 16 }
    requires first { IsAfter turn 0 tables.now nibbles.now left right }
    requires second { IsAfter turn 16 tables.now nibbles.now left right }
    ensures first { IsAfter (turn + 1) 0 tables.now nibbles.now result.0 result.1 }
    ensures second { IsAfter (turn + 1) 16 tables.now nibbles.now result.0 result.1 }
{
    let sums = octets_of_sums(tables, OCTETS - 1 - turn, nibbles);
    moved(left, right, sums)
}

/// Two more turns of `moved_sums`.
#[inline(always)]
fn after_two_turns(
    tables: &[u8; TABLES_LEN],
    nibbles: &[u8x32; 8],
    turn: usize,
    left: u8x32,
    right: u8x32,
) -> (u8x32, u8x32)
    requires turn { turn + 1 < 17 }
    requires small { (p : ℕ) → p < 8 → (k : ℕ) → k < 32 → lane_at nibbles.now p k < 16 }
    requires first { IsAfter turn 0 tables.now nibbles.now left right }
    requires second { IsAfter turn 16 tables.now nibbles.now left right }
    ensures first { IsAfter (turn + 1 + 1) 0 tables.now nibbles.now result.0 result.1 }
    ensures second { IsAfter (turn + 1 + 1) 16 tables.now nibbles.now result.0 result.1 }
{
    let (left, right) = after_turn(tables, nibbles, turn, left, right);
    after_turn(tables, nibbles, turn + 1, left, right)
}

/// Two sums of products of nibbles with eight numbers: one over the lanes of the first halves of `nibbles`, one over
/// the second halves. In each sum, the products of a lane are shifted one octet to the left of the products of the next
/// lane. The sums are numbers of 32 octets. The first vector has their left halves, the second their right halves.
#[inline(always)]
fn moved_sums(tables: &[u8; TABLES_LEN], nibbles: &[u8x32; 8]) -> (u8x32, u8x32)
    requires { (p : ℕ) → p < 8 → (k : ℕ) → k < 32 → lane_at nibbles.now p k < 16 }
    ensures first { number_in 0 result.0 result.1 ≡ sum_by_octets tables.now (λ p i. lane_at nibbles.now p (0 + i)) }
    ensures second { number_in 16 result.0 result.1 ≡ sum_by_octets tables.now (λ p i. lane_at nibbles.now p (16 + i)) }
{
    let zeros = u8x32::splat(0);
    // One turn alone, and then two at a time: with four, compiled code keeps entries of the tables on the stack.
    let (mut left, mut right) = after_turn(tables, nibbles, 0, zeros, zeros);
    for pair in 0..8usize {
        (left, right) = after_two_turns(tables, nibbles, 2 * pair + 1, left, right);
    }
    (left, right)
}

/// The sum of the products of eight blocks with the powers of a key, from the eighth power down. The blocks are given
/// as vectors of octets. The products of their nibbles are looked up and added, and one residue is computed for all of
/// them.
#[inline(always)]
pub fn sum_of_products(blocks: &[u8x16; 8], powers: &KeyPowers) -> Block
    ensures { result.0 ≡ sum_below 8 (λ p. block_product (block_at blocks.now p) (power powers.now (7 - p))) }
{
    // The proof cites these laws: the residue of a sum is the sum of the residues, and powers are blocks.
    carryless_laws();
    residue_adds();
    product_is_residue();
    product_is_block();
    let nibbles = [
        nibbles_of(blocks[0]),
        nibbles_of(blocks[1]),
        nibbles_of(blocks[2]),
        nibbles_of(blocks[3]),
        nibbles_of(blocks[4]),
        nibbles_of(blocks[5]),
        nibbles_of(blocks[6]),
        nibbles_of(blocks[7]),
    ];
    let (left, right) = moved_sums(&powers.tables, &nibbles);
    // The products of the left nibbles are four bits to the left of the products of the right nibbles.
    let (a, b) = (number_of(first_half(left)), number_of(first_half(right)));
    let (c, d) = (number_of(second_half(left)), number_of(second_half(right)));
    residue((a << 4) ^ (b >> 124) ^ c, (b << 4) ^ d)
}
