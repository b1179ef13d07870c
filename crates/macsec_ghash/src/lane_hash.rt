//! GHASH of eight blocks at a time, with powers of the key.

ghost use Rattle.std.specs.Prelude.{◌≡◌, ◌≤◌, ◌+◌, ℕ, List, [], ◌∷◌, ◌++◌, ◌^◌, ◌<◌, length, take, drop};
ghost use Rattle.std.specs.Prelude.{set, slice_index, bit_xor};
ghost use Rattle.macsec_ghash.specs.Ghash.{blocks_of, ghash, hash_after, hash_next, pad};
ghost use Rattle.macsec_ghash.specs.Powers.{weighted};
ghost use Rattle.macsec_ghash.specs.Tables.{blocks_in};

use crate::lanes::{octets_at, octets_of, sum_of_blocks, sum_of_products};
use crate::powers::KeyPowers;
use crate::{Hash128, block_of};
use macsec_field128::Block;
use macsec_field128::laws::{product_adds, product_associates, product_is_block};
use std::simd::u8x16;

/// The sum of the products of eight blocks with powers of the key.
#[inline(always)]
fn weighted(powers: &KeyPowers, blocks: &[u8x16; 8]) -> Block
    ensures { result.0 ≡ weighted powers.now (blocks_in blocks.now) }
{
    sum_of_products(blocks, powers)
}

/// The first eight blocks of a text, with a sum added to the first of them.
#[inline(always)]
fn first_eight(text: &[u8], sum: Block) -> [u8x16; 8]
    requires { 128 ≤ length text.now }
    ensures { blocks_in result
        ≡ set (blocks_of 8 text.now) 0 (bit_xor (slice_index (blocks_of 8 text.now) 0) sum.0) }
{
    [
        sum_of_blocks(octets_at(text, 0), octets_of(sum.0)),
        octets_at(text, 16),
        octets_at(text, 32),
        octets_at(text, 48),
        octets_at(text, 64),
        octets_at(text, 80),
        octets_at(text, 96),
        octets_at(text, 112),
    ]
}

/// The octets of eight blocks.
#[inline(always)]
fn octets_of_eight(blocks: &[u128; 8]) -> [u8x16; 8]
    ensures { blocks_in result ≡ blocks.now }
{
    [
        octets_of(blocks[0]),
        octets_of(blocks[1]),
        octets_of(blocks[2]),
        octets_of(blocks[3]),
        octets_of(blocks[4]),
        octets_of(blocks[5]),
        octets_of(blocks[6]),
        octets_of(blocks[7]),
    ]
}

/// A hash that uses eight powers of a key, which the caller keeps. Eight blocks take one sum of eight products.
#[derive(Drop)]
pub struct RunningHash {
    /// The hash of all blocks except the waiting ones.
    sum: Block,
    /// The blocks that wait until there are eight. The entries after them are leftovers.
    waiting: [u128; 8],
    /// The number of waiting blocks.
    waiting_count: usize,
    ghost has_room: { waiting_count < 8 },
}

impl RunningHash {
    ghost use Rattle.macsec_ghash.specs.Running.{HasRun, hash_so_far};

    /// Starts a hash of no blocks.
    #[inline(always)]
    pub fn start() -> RunningHash
        ensures { (h : ℕ) → HasRun result h [] }
    {
        RunningHash {
            sum: Block(0),
            waiting: [0; 8],
            waiting_count: 0,
        }
    }

    /// Hashes the blocks of `bytes`. The last block is padded with zeros.
    pub fn absorb(&mut self, powers: &KeyPowers, bytes: &[u8])
        ensures { (blocks : List ℕ) → HasRun self.old powers.now blocks
            → HasRun self.new powers.now (blocks ++ pad bytes.now) }
    {
        let mut done = 0;
        while bytes.len() - done >= 128 {
            done += self.absorb_first(powers, &bytes[done..]);
        }
        self.absorb_rest(powers, &bytes[done..]);
    }

    /// Hashes one block.
    #[inline(always)]
    pub fn absorb_block(&mut self, powers: &KeyPowers, block: Block)
        ensures { (blocks : List ℕ) → HasRun self.old powers.now blocks
            → HasRun self.new powers.now (blocks ++ block.0 ∷ []) }
    {
        self.push(powers, block);
    }

    /// Hashes the blocks of `bytes` one by one. The last block is padded with zeros.
    #[inline(always)]
    fn absorb_rest(&mut self, powers: &KeyPowers, bytes: &[u8])
        ensures { hash_so_far self.new powers.now
            ≡ hash_after powers.now (hash_so_far self.old powers.now) (pad bytes.now) }
    {
        for chunk in bytes.chunks(16) {
            self.push(powers, block_of(chunk));
        }
    }

    /// Hashes the first eight blocks of `bytes` if none are waiting, else the first. Returns the number of their
    /// octets.
    #[inline(always)]
    fn absorb_first(&mut self, powers: &KeyPowers, bytes: &[u8]) -> usize
        requires { 128 ≤ length bytes.now }
        ensures some { 0 < result }
        ensures within { result ≤ length bytes.now }
        ensures hash { hash_after powers.now (hash_so_far self.new powers.now) (pad (drop result bytes.now))
            ≡ hash_after powers.now (hash_so_far self.old powers.now) (pad bytes.now) }
    {
        if self.waiting_count == 0 {
            self.absorb_eight(powers, bytes);
            return 128;
        }
        self.push(powers, block_of(&bytes[..16]));
        16
    }

    /// Hashes the first eight blocks of `bytes` while none are waiting.
    #[inline(always)]
    fn absorb_eight(&mut self, powers: &KeyPowers, bytes: &[u8])
        requires none { self.old.waiting_count ≡ 0 }
        requires whole { 128 ≤ length bytes.now }
        ensures none { self.new.waiting_count ≡ 0 }
        ensures hash { self.new.sum.0 ≡ hash_after powers.now self.old.sum.0 (blocks_of 8 bytes.now) }
    {
        product_adds();
        product_associates();
        product_is_block();
        let _powers = &powers.tables;
        self.sum = weighted(powers, &first_eight(bytes, self.sum));
    }

    /// The hash of all blocks so far.
    pub fn value(&self, powers: &KeyPowers) -> Block
        ensures { (blocks : List ℕ) → HasRun self.now powers.now blocks
            → result.0 ≡ ghash powers.now blocks }
    {
        self.after(powers, &self.waiting[..self.waiting_count])
    }

    /// The hash of all blocks except the waiting ones, followed by up to eight more.
    fn after(&self, powers: &KeyPowers, blocks: &[u128]) -> Block
        requires { length blocks.now ≤ 8 }
        ensures { result.0 ≡ hash_after powers.now self.now.sum.0 blocks.now }
    {
        // The proof cites these laws: with them the steps of the hash over these blocks are one sum of products.
        product_adds();
        product_associates();
        product_is_block();
        let _powers = &powers.tables;
        if blocks.is_empty() {
            return self.sum;
        }
        let start = 8 - blocks.len();
        let mut lanes = [0; 8];
        lanes[start..].copy_from_slice(blocks);
        lanes[start] ^= self.sum.0;
        weighted(powers, &octets_of_eight(&lanes))
    }

    /// Hashes the eight waiting blocks.
    fn after_eight(&mut self, powers: &KeyPowers)
        ensures none { self.new.waiting_count ≡ 0 }
        ensures hash { self.new.sum.0 ≡ hash_after powers.now self.old.sum.0 self.old.waiting }
    {
        product_adds();
        product_associates();
        product_is_block();
        let _powers = &powers.tables;
        self.waiting[0] ^= self.sum.0;
        self.sum = weighted(powers, &octets_of_eight(&self.waiting));
        self.waiting_count = 0;
    }

    /// Hashes one block.
    #[inline(always)]
    fn push(&mut self, powers: &KeyPowers, block: Block)
        ensures { hash_so_far self.new powers.now ≡ hash_next powers.now (hash_so_far self.old powers.now) block.0 }
    {
        self.waiting[self.waiting_count] = block.0;
        if self.waiting_count < 7 {
            self.waiting_count += 1;
        } else {
            self.after_eight(powers);
        }
    }
}

/// The hash with eight powers of the key, which it keeps. Starting it takes seven products.
#[derive(Drop)]
pub struct LaneHash {
    powers: KeyPowers,
    hash: RunningHash,
}

impl Hash128 for LaneHash {
    ghost use Rattle.macsec_ghash.specs.Running.{HasRun};

    ghost has_hashed = { λ s h blocks. (s.powers ≡ h) × HasRun s.hash h blocks };

    fn start(h: Block) -> Self {
        LaneHash {
            powers: KeyPowers::of(h),
            hash: RunningHash::start(),
        }
    }

    fn absorb(&mut self, bytes: &[u8]) {
        self.hash.absorb(&self.powers, bytes);
    }

    fn value(&self) -> Block {
        self.hash.value(&self.powers)
    }
}
