//! GHASH, the hash of GCM (SP 800-38D, 6.4).
//!
//! Proved: for `PlainHash`, `LaneHash` and every other implementation of `Hash128`, and for every list of absorbed
//! pieces, `value` is GHASH of the pieces' blocks in order. Each piece is padded with zeros to whole blocks.
//! `PlainHash` and `LaneHash` meet the one contract of `Hash128`, so they return the same value. So does a
//! `RunningHash`, whose powers the caller keeps. Contracts see `KeyPowers` as the key, so powers of another key cannot
//! take their place. Laws (`laws`) state GHASH by its steps, and the hash of several blocks at once as a sum of
//! products with powers of the key.
//!
//! No contract is about time, or says that lanes are used.
#![tactic(auto)]

ghost use Rattle.std.specs.Prelude.{◌≡◌, ◌≤◌, ℕ, List, [], ◌++◌, length};
ghost use Rattle.macsec_ghash.specs.Ghash.{block_of, ghash, pad};

use macsec_field128::{Block, add, mul};

mod lane_hash;
mod lanes;
pub mod laws;
mod powers;

pub use lane_hash::{LaneHash, RunningHash};
pub use powers::KeyPowers;

/// A hash of blocks under a key.
pub trait Hash128 {
    /// The state has hashed these blocks under this key.
    ghost has_hashed: { Self → ℕ → List ℕ → Type 0 };

    /// Starts a hash of no blocks under `h`.
    fn start(h: Block) -> Self
        ensures { has_hashed result h.0 [] };

    /// Hashes the blocks of `bytes`. The last block is padded with zeros.
    fn absorb(&mut self, bytes: &[u8])
        ensures { (h : ℕ) (blocks : List ℕ) → has_hashed self.old h blocks
            → has_hashed self.new h (blocks ++ pad bytes.now) };

    /// The hash of all blocks so far.
    fn value(&self) -> Block
        ensures { (h : ℕ) (blocks : List ℕ) → has_hashed self.now h blocks
            → result.0 ≡ ghash h blocks };
}

/// The hash by its definition, one block at a time.
#[derive(Clone, Copy)]
pub struct PlainHash {
    key: Block,
    sum: Block,
}

impl Hash128 for PlainHash {
    ghost has_hashed = { λ s h blocks. (s.key.0 ≡ h) × (s.sum.0 ≡ ghash h blocks) };

    fn start(h: Block) -> Self {
        PlainHash {
            key: h,
            sum: Block(0),
        }
    }

    fn absorb(&mut self, bytes: &[u8]) {
        for chunk in bytes.chunks(16) {
            self.sum = mul(add(self.sum, block_of(chunk)), self.key);
        }
    }

    fn value(&self) -> Block {
        self.sum
    }
}

/// The block of up to 16 octets, padded with zeros.
fn block_of(octets: &[u8]) -> Block
    requires { length octets.now ≤ 16 }
    ensures { result.0 ≡ block_of octets.now }
{
    if let Some(whole) = octets.as_array::<16>() {
        return Block(u128::from_be_bytes(*whole));
    }
    let mut filled = [0; 16];
    filled[..octets.len()].copy_from_slice(octets);
    Block(u128::from_be_bytes(filled))
}
