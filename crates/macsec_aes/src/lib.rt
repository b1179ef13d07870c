//! AES, the block cipher of FIPS 197, for keys of 128 and 256 bits, one block of 16 bytes at a time.
//!
//! Proved: `encrypt` after `Schedule::expand` is AES of FIPS 197, for both key lengths and every block. Contracts see a
//! `Schedule` as its key's bytes, so a schedule of another key cannot take its place. `sub` is the S-box: the affine
//! transformation of the inverse. The inverse is the byte whose product with the given one is 1, and 0 for 0. The law
//! `laws::one_inverse` says that each byte but 0 has exactly one inverse.
//!
//! `Schedule::round_key` requires a round that the key has. No contract is about time. In the source no branch and no
//! address depends on a key or a block: `sub` reads its whole table.
#![tactic(auto)]

ghost use Rattle.std.specs.Prelude.{◌≡◌, ◌+◌, ◌*◌, ◌/◌, ◌%◌, ◌<◌, ◌≤◌, ◌⊎◌, ◌==◌, if◌then◌else◌, length, bit_xor, slice_index};
ghost use Rattle.macsec_aes.specs.Field.{byte_product, s_box};
ghost use Rattle.macsec_aes.specs.Aes.{mixed_entry, word, add_round_key, added_word, aes, mix_columns, schedule_of};
ghost use Rattle.macsec_aes.specs.Aes.{round_key, rounds_of, shift_rows, sub_bytes, sub_word, sum_of_words};
ghost use Rattle.macsec_aes.specs.Keys.{key_bytes};

use std::array;
use std::marker::Model;

pub mod laws;

/// A key of 128 or 256 bits: its 16 or 32 bytes, in the order of FIPS 197, 3.3.
#[derive(Clone, Copy, PartialEq, Eq)]
pub enum Key {
    K128([u8; 16]),
    K256([u8; 32]),
}

/// The words of the longest schedule, the one for 256-bit keys.
const MAX_WORDS: usize = 60;

/// The key schedule of a key (FIPS 197, 5.2): 11 round keys for a 128-bit key, 15 for a 256-bit key. Contracts see it
/// as the bytes of the key.
#[derive(Drop)]
pub struct Schedule {
    words: [[u8; 4]; MAX_WORDS],
    rounds: usize,
}

impl Model for Schedule {
    ghost use Rattle.std.specs.Prelude.{List, ℕ};
    ghost use Rattle.macsec_aes.specs.Schedule.{key_of, IsSchedule};

    ghost Value = { List ℕ };

    ghost view = { λ s. key_of s.words s.rounds };

    ghost invariant = { λ s. IsSchedule s.words s.rounds };
}

impl Schedule {
    /// Expands a key: KeyExpansion (FIPS 197, 5.2).
    pub fn expand(key: &Key) -> Schedule
        ensures { result ≡ key_bytes key.now }
    {
        match key {
            Key::K128(bytes) => expand_bytes(bytes),
            Key::K256(bytes) => expand_bytes(bytes),
        }
    }

    /// The number of rounds: 10 or 14.
    pub fn rounds(&self) -> usize
        ensures { result ≡ rounds_of self.now }
    {
        self.rounds
    }

    /// The round key of a round, from 1. Round 0 is the round key added before the first round. Its four words are the
    /// columns of a state.
    pub fn round_key(&self, round: usize) -> [u8; 16]
        requires { round ≤ rounds_of self.now }
        ensures { result ≡ round_key (schedule_of self.now) round }
    {
        let words = &self.words;
        array::from_fn(
            |k: usize| -> u8
                requires byte { k < 16 }
                requires round { round ≤ 14 }
                ensures { result ≡ slice_index (word words.entry.now (4 * round + k / 4)) (k % 4) }
            { words[4 * round + k / 4][k % 4] },
        )
    }
}

/// Expands a key of 16 or 32 bytes.
fn expand_bytes(key: &[u8]) -> Schedule
    requires { (length key.now ≡ 16) ⊎ (length key.now ≡ 32) }
    ensures { result ≡ key.now }
{
    let key_words = key.len() / 4;
    let rounds = key_words + 6;
    let mut words = [[0; 4]; MAX_WORDS];
    'copy: for i in 0..key_words {
        words[i] = [key[4 * i], key[4 * i + 1], key[4 * i + 2], key[4 * i + 3]];
    }
    'extend: for i in key_words..4 * (rounds + 1) {
        words[i] = sum_of_words(words[i - key_words], added_word(key_words, i, words[i - 1]));
    }
    Schedule { words, rounds }
}

fn sum_of_words(v: [u8; 4], w: [u8; 4]) -> [u8; 4]
    ensures { result ≡ sum_of_words v w }
{
    [v[0] ^ w[0], v[1] ^ w[1], v[2] ^ w[2], v[3] ^ w[3]]
}

/// SubWord: applies the S-box to each byte of a word.
fn sub_word(w: [u8; 4]) -> [u8; 4]
    ensures { result ≡ sub_word w }
{
    [sub(w[0]), sub(w[1]), sub(w[2]), sub(w[3])]
}

/// The word added to word `i - key_words` to give word `i`. `last` is word `i - 1`.
#[tactic(auto, unfolding(crate::specs::Aes::added_word))]
fn added_word(key_words: usize, i: usize, last: [u8; 4]) -> [u8; 4]
    requires words { (key_words ≡ 4) ⊎ (key_words ≡ 8) }
    requires index { (key_words ≤ i) × (i < 4 * (key_words + 7)) }
    ensures { result ≡ added_word key_words i last }
{
    if i % key_words == 0 {
        let rotated = [last[1], last[2], last[3], last[0]];
        sum_of_words(
            sub_word(rotated),
            [ROUND_CONSTANTS[i / key_words - 1], 0, 0, 0],
        )
    } else if key_words == 8 && i % 8 == 4 {
        sub_word(last)
    } else {
        last
    }
}

/// The S-box of each byte (FIPS 197, 5.1.1).
const S_BOX: [u8; 256] = [
    0x63, 0x7c, 0x77, 0x7b, 0xf2, 0x6b, 0x6f, 0xc5, 0x30, 0x01, 0x67, 0x2b, 0xfe, 0xd7, 0xab, 0x76,
    0xca, 0x82, 0xc9, 0x7d, 0xfa, 0x59, 0x47, 0xf0, 0xad, 0xd4, 0xa2, 0xaf, 0x9c, 0xa4, 0x72, 0xc0,
    0xb7, 0xfd, 0x93, 0x26, 0x36, 0x3f, 0xf7, 0xcc, 0x34, 0xa5, 0xe5, 0xf1, 0x71, 0xd8, 0x31, 0x15,
    0x04, 0xc7, 0x23, 0xc3, 0x18, 0x96, 0x05, 0x9a, 0x07, 0x12, 0x80, 0xe2, 0xeb, 0x27, 0xb2, 0x75,
    0x09, 0x83, 0x2c, 0x1a, 0x1b, 0x6e, 0x5a, 0xa0, 0x52, 0x3b, 0xd6, 0xb3, 0x29, 0xe3, 0x2f, 0x84,
    0x53, 0xd1, 0x00, 0xed, 0x20, 0xfc, 0xb1, 0x5b, 0x6a, 0xcb, 0xbe, 0x39, 0x4a, 0x4c, 0x58, 0xcf,
    0xd0, 0xef, 0xaa, 0xfb, 0x43, 0x4d, 0x33, 0x85, 0x45, 0xf9, 0x02, 0x7f, 0x50, 0x3c, 0x9f, 0xa8,
    0x51, 0xa3, 0x40, 0x8f, 0x92, 0x9d, 0x38, 0xf5, 0xbc, 0xb6, 0xda, 0x21, 0x10, 0xff, 0xf3, 0xd2,
    0xcd, 0x0c, 0x13, 0xec, 0x5f, 0x97, 0x44, 0x17, 0xc4, 0xa7, 0x7e, 0x3d, 0x64, 0x5d, 0x19, 0x73,
    0x60, 0x81, 0x4f, 0xdc, 0x22, 0x2a, 0x90, 0x88, 0x46, 0xee, 0xb8, 0x14, 0xde, 0x5e, 0x0b, 0xdb,
    0xe0, 0x32, 0x3a, 0x0a, 0x49, 0x06, 0x24, 0x5c, 0xc2, 0xd3, 0xac, 0x62, 0x91, 0x95, 0xe4, 0x79,
    0xe7, 0xc8, 0x37, 0x6d, 0x8d, 0xd5, 0x4e, 0xa9, 0x6c, 0x56, 0xf4, 0xea, 0x65, 0x7a, 0xae, 0x08,
    0xba, 0x78, 0x25, 0x2e, 0x1c, 0xa6, 0xb4, 0xc6, 0xe8, 0xdd, 0x74, 0x1f, 0x4b, 0xbd, 0x8b, 0x8a,
    0x70, 0x3e, 0xb5, 0x66, 0x48, 0x03, 0xf6, 0x0e, 0x61, 0x35, 0x57, 0xb9, 0x86, 0xc1, 0x1d, 0x9e,
    0xe1, 0xf8, 0x98, 0x11, 0x69, 0xd9, 0x8e, 0x94, 0x9b, 0x1e, 0x87, 0xe9, 0xce, 0x55, 0x28, 0xdf,
    0x8c, 0xa1, 0x89, 0x0d, 0xbf, 0xe6, 0x42, 0x68, 0x41, 0x99, 0x2d, 0x0f, 0xb0, 0x54, 0xbb, 0x16,
];

/// `entry` if the bytes `i` and `a` are equal, otherwise 0. It computes both cases alike: `differ` is 0 or 1.
#[inline(always)]
fn entry_if_same(entry: u8, i: u8, a: u8) -> u8
    ensures { result ≡ (if i == a then entry else 0) }
{
    let differ = ((i ^ a) as u16 + 255) >> 8;
    entry * (1 - differ as u8)
}

/// The S-box (FIPS 197, 5.1.1): the affine transformation of the byte's inverse in the field of bytes (4.2), or of 0
/// for 0. It reads every entry of the table, so that no address depends on `a`.
pub fn sub(a: u8) -> u8
    ensures { result ≡ s_box a }
{
    let mut found = 0;
    'entries: for i in 0..256 {
        found ^= entry_if_same(S_BOX[i], i as u8, a);
    }
    found
}

/// The first bytes of the round constants: the powers of x from x^0 (FIPS 197, 5.2).
const ROUND_CONSTANTS: [u8; 10] = [0x01, 0x02, 0x04, 0x08, 0x10, 0x20, 0x40, 0x80, 0x1b, 0x36];

/// SubBytes (FIPS 197, 5.1.1): applies the S-box to each byte of a state.
fn sub_bytes(state: [u8; 16]) -> [u8; 16]
    ensures { result ≡ sub_bytes state }
{
    array::from_fn(|k| sub(state[k]))
}

/// ShiftRows (FIPS 197, 5.1.2): rotates row r of a state left by r bytes.
fn shift_rows(state: [u8; 16]) -> [u8; 16]
    ensures { result ≡ shift_rows state }
{
    array::from_fn(|k| state[(k + k % 4 * 4) % 16])
}

/// A byte times 02 in the field of bytes, which is x (FIPS 197, 4.2).
fn double(a: u8) -> u8
    ensures { result ≡ byte_product 2 a }
{
    (a << 1) ^ ((a >> 7) * 0x1b)
}

/// A byte times 03 in the field of bytes, which is x + 1 (FIPS 197, 4.2).
fn triple(a: u8) -> u8
    ensures { result ≡ byte_product 3 a }
{
    double(a) ^ a
}

/// MixColumns (FIPS 197, 5.1.3): multiplies each column of a state by the matrix.
fn mix_columns(state: [u8; 16]) -> [u8; 16]
    ensures { result ≡ mix_columns state }
{
    array::from_fn(
        |k: usize| -> u8
            requires { k < 16 }
            ensures { result ≡ mixed_entry state (k % 4) (k / 4) }
        {
            let (row, column) = (k % 4, k / 4);
            double(state[k])
                ^ triple(state[(row + 1) % 4 + 4 * column])
                ^ state[(row + 2) % 4 + 4 * column]
                ^ state[(row + 3) % 4 + 4 * column]
        },
    )
}

/// AddRoundKey (FIPS 197, 5.1.4): the sum of a state and a round key.
fn add_round_key(state: [u8; 16], key: [u8; 16]) -> [u8; 16]
    ensures { result ≡ add_round_key state key }
{
    array::from_fn(
        |k: usize| -> u8
            requires { k < 16 }
            ensures { result ≡ bit_xor (slice_index state k) (slice_index key k) }
        { state[k] ^ key[k] },
    )
}

fn full_round(state: [u8; 16], key: [u8; 16]) -> [u8; 16]
    ensures { result ≡ add_round_key (mix_columns (shift_rows (sub_bytes state))) key }
{
    add_round_key(mix_columns(shift_rows(sub_bytes(state))), key)
}

fn last_round(state: [u8; 16], key: [u8; 16]) -> [u8; 16]
    ensures { result ≡ add_round_key (shift_rows (sub_bytes state)) key }
{
    add_round_key(shift_rows(sub_bytes(state)), key)
}

/// Encrypts a block of 16 bytes under the key of a schedule: Cipher (FIPS 197, 5.1).
pub fn encrypt(schedule: &Schedule, block: [u8; 16]) -> [u8; 16]
    ensures { result ≡ aes schedule.now block }
{
    let rounds = schedule.rounds();
    let mut state = add_round_key(block, schedule.round_key(0));
    for round in 1..rounds {
        let next = full_round(state, schedule.round_key(round));
        state = next;
    }
    last_round(state, schedule.round_key(rounds))
}
