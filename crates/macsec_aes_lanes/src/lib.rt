//! AES, the block cipher of FIPS 197, on six, eight or 16 blocks at a time, in vector lanes.
//!
//! Proved: `encrypt6`, `encrypt8` and `encrypt16` replace each block by its AES encryption under the key of a schedule.
//! AES is as `macsec_aes` defines it and as its `encrypt` computes it. Contracts see a `LaneSchedule` as its key's
//! bytes, so round keys of another key cannot take its place.
//!
//! No contract is about time. Tables of 16 entries are held in vectors, so no address depends on secret data.
//! `macsec_aes`, which expands a schedule, reads its table whole.
#![tactic(auto)]

ghost use Rattle.std.specs.Prelude.{◌≡◌, ℕ, ◌<◌, [], false, length, map, slice_index_or, true};
ghost use Rattle.macsec_aes.specs.Aes.{aes};
ghost use Rattle.macsec_aes.specs.Keys.{key_bytes};
ghost use Rattle.macsec_aes_lanes.specs.Expanded.{IsExpanded};

mod lanes;
mod nibble_state;
mod nibbles;
mod planes;
mod schedule;
mod state;
mod tower;
mod wide_lanes;
mod wide_planes;
mod wide_state;
mod words;

use nibble_state::{both, first_round, last_round};
use schedule::ExpandedKey;
pub use schedule::LaneSchedule;
use state::{add_round_key, blocks_of, mix_columns, shift_rows, states_of, sub_bytes_but_constant};

/// Encrypts eight blocks of 16 bytes under the key of a schedule: Cipher (FIPS 197, 5.1).
pub fn encrypt8(schedule: &LaneSchedule, blocks: &mut [[u8; 16]; 8])
    ensures { blocks.new ≡ map (aes schedule.now) blocks.old }
{
    let expanded = schedule.expanded();
    if expanded.wide {
        encrypt8_by_look_ups(schedule, blocks);
    } else {
        encrypt8_in_planes(expanded, blocks);
    }
}

/// The same in planes of 128 bits.
fn encrypt8_in_planes(schedule: &ExpandedKey, blocks: &mut [[u8; 16]; 8])
    requires expanded { IsExpanded schedule.now }
    requires narrow { schedule.now.wide ≡ false }
    ensures { blocks.new ≡ map (aes (key_bytes schedule.now.key)) blocks.old }
{
    let rounds = schedule.rounds;
    let mut states = add_round_key(states_of(blocks), schedule.round_key(0));
    for round in 1..rounds {
        let shifted = shift_rows(sub_bytes_but_constant(states));
        states = add_round_key(mix_columns(shifted), schedule.round_key(round));
    }
    let last = shift_rows(sub_bytes_but_constant(states));
    *blocks = blocks_of(add_round_key(last, schedule.round_key(rounds)));
}

/// The same by look-ups, in vectors of 256 bits.
#[inline(never)]
fn encrypt8_by_look_ups(schedule: &LaneSchedule, blocks: &mut [[u8; 16]; 8])
    ensures { blocks.new ≡ map (aes schedule.now) blocks.old }
{
    let rounds = schedule.rounds();
    let first = schedule.nibble_key(0);
    let mut a = first_round(both(blocks[0], blocks[1]), first);
    let mut b = first_round(both(blocks[2], blocks[3]), first);
    let mut c = first_round(both(blocks[4], blocks[5]), first);
    let mut d = first_round(both(blocks[6], blocks[7]), first);
    for round in 1..rounds {
        let key = schedule.nibble_key(round);
        a = nibble_state::round(a, key);
        b = nibble_state::round(b, key);
        c = nibble_state::round(c, key);
        d = nibble_state::round(d, key);
    }
    let last = schedule.last_nibble_key();
    let [b0, b1] = nibble_state::blocks_of(last_round(a, last));
    let [b2, b3] = nibble_state::blocks_of(last_round(b, last));
    let [b4, b5] = nibble_state::blocks_of(last_round(c, last));
    let [b6, b7] = nibble_state::blocks_of(last_round(d, last));
    *blocks = [b0, b1, b2, b3, b4, b5, b6, b7];
}

/// Encrypts six blocks of 16 bytes under the key of a schedule: Cipher (FIPS 197, 5.1).
#[inline(never)]
pub fn encrypt6(schedule: &LaneSchedule, blocks: &mut [[u8; 16]; 6])
    ensures { blocks.new ≡ map (aes schedule.now) blocks.old }
{
    let rounds = schedule.rounds();
    let first = schedule.nibble_key(0);
    let mut a = first_round(both(blocks[0], blocks[1]), first);
    let mut b = first_round(both(blocks[2], blocks[3]), first);
    let mut c = first_round(both(blocks[4], blocks[5]), first);
    for round in 1..rounds {
        let key = schedule.nibble_key(round);
        a = nibble_state::round(a, key);
        b = nibble_state::round(b, key);
        c = nibble_state::round(c, key);
    }
    let last = schedule.last_nibble_key();
    let [b0, b1] = nibble_state::blocks_of(last_round(a, last));
    let [b2, b3] = nibble_state::blocks_of(last_round(b, last));
    let [b4, b5] = nibble_state::blocks_of(last_round(c, last));
    *blocks = [b0, b1, b2, b3, b4, b5];
}

/// Encrypts 16 blocks of 16 bytes under the key of a schedule: Cipher (FIPS 197, 5.1).
#[inline(never)]
pub fn encrypt16(schedule: &LaneSchedule, blocks: &mut [[u8; 16]; 16])
    ensures { blocks.new ≡ map (aes schedule.now) blocks.old }
{
    let expanded = schedule.expanded();
    if expanded.wide {
        encrypt16_at_once(expanded, blocks);
    } else {
        encrypt16_in_halves(expanded, blocks);
    }
}

/// The same in planes of 128 bits, eight blocks after the other eight.
#[inline(always)]
fn encrypt16_in_halves(schedule: &ExpandedKey, blocks: &mut [[u8; 16]; 16])
    requires expanded { IsExpanded schedule.now }
    requires narrow { schedule.now.wide ≡ false }
    ensures { blocks.new ≡ map (aes (key_bytes schedule.now.key)) blocks.old }
{
    let mut first = [[0; 16]; 8];
    let mut second = [[0; 16]; 8];
    first.copy_from_slice(&blocks[..8]);
    second.copy_from_slice(&blocks[8..]);
    encrypt8_in_planes(schedule, &mut first);
    encrypt8_in_planes(schedule, &mut second);
    blocks[..8].copy_from_slice(&first);
    blocks[8..].copy_from_slice(&second);
}

/// The same in planes of 256 bits, without ShiftRows in the rounds. Four times ShiftRows move no row. The rounds are
/// two more than a multiple of four, and `blocks_of` moves the rows for these two.
#[inline(always)]
fn encrypt16_at_once(schedule: &ExpandedKey, blocks: &mut [[u8; 16]; 16])
    requires expanded { IsExpanded schedule.now }
    requires wide { schedule.now.wide ≡ true }
    ensures { blocks.new ≡ map (aes (key_bytes schedule.now.key)) blocks.old }
{
    let rounds = schedule.rounds;
    let first = wide_state::states_of(blocks);
    let mut states = wide_state::add_round_key(first, schedule.round_key(0));
    for four in 0..rounds / 4 {
        let before = 4 * four;
        let one = wide_state::round(states, schedule.round_key(before + 1), 1);
        let two = wide_state::round(one, schedule.round_key(before + 2), 2);
        let three = wide_state::round(two, schedule.round_key(before + 3), 3);
        states = wide_state::round(three, schedule.round_key(before + 4), 4);
    }
    let next = wide_state::round(states, schedule.round_key(rounds - 1), 1);
    let last = wide_state::sub_bytes_but_constant(next);
    *blocks = wide_state::blocks_of(wide_state::add_round_key(last, schedule.round_key(rounds)));
}
