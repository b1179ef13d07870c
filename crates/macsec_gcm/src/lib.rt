//! AES-GCM with 96-bit IVs and 128-bit tags (SP 800-38D).
//!
//! Proved for texts of at most 68,719,476,704 octets with at most 2^61 - 1 octets of additional data (both required):
//! `GcmKey::seal` is authenticated encryption, with ciphertext and tag. `GcmKey::open` returns true exactly if some
//! plaintext seals to the ciphertext and the tag; that plaintext then replaces the ciphertext. If it returns false, the
//! text is unchanged. Contracts see a `GcmKey` as its key's octets, so another key's `GcmKey` cannot take its place. By
//! the laws (`laws`), key, IV, additional data and ciphertext determine the plaintext. `inc32` adds one to the last
//! four octets modulo 2^32, and keeps the first twelve.
//!
//! Proved for texts in pieces (`specs/Pieces.antt`): a sealer that has taken in the text T has, after a call with the
//! piece P, taken in T followed by P. `Sealer::data` leaves the next octets of the ciphertext, and `Sealer::finish`
//! gives the tag of all pieces. `Opener::finish` gives an `Unlocked` exactly if the joined pieces open, and `check`
//! changes no piece. `Unlocked::data` leaves the next octets of the plaintext if the joined pieces are the ones that
//! were checked. The limits on lengths are conditions on what `finish` gives. No clause says what the tag is if
//! additional data come after an octet of the text.
//!
//! No contract is about time, or says that lanes are used.
#![tactic(auto)]

ghost use Rattle.std.specs.Prelude.{◌≡◌, ◌≤◌, ℕ, List, length, if◌then◌else◌};
ghost use Rattle.std.specs.Bool.{OnTrue, OnFalse};
ghost use Rattle.macsec_aes.specs.Keys.{key_bytes};
ghost use Rattle.macsec_gcm.specs.Gcm.{max_aad_len, max_plaintext_len, open_of, seal_of};

use macsec_aes::Key;
use macsec_aes_lanes::{LaneSchedule, encrypt6};
use macsec_field128::Block;
use macsec_ghash::KeyPowers;
use std::marker::Model;

mod authenticator;
mod counter_blocks;
mod hash;
mod key_stream;
pub mod laws;
mod pieces;

pub use counter_blocks::inc32;
pub use pieces::{Opener, Sealer, Unlocked};

/// A GCM key: the schedule of the AES key, and the powers of the hash subkey. Contracts see it as the octets of the AES
/// key.
#[derive(Clone, Drop)]
pub struct GcmKey {
    schedule: LaneSchedule,
    powers: KeyPowers,
}

impl Model for GcmKey {
    ghost use Rattle.std.specs.Prelude.{◌≡◌, List, ℕ};
    ghost use Rattle.macsec_gcm.specs.Gcm.{hash_subkey};

    ghost Value = { List ℕ };

    ghost view = { λ k. k.schedule };

    ghost invariant = { λ k. k.powers ≡ hash_subkey k.schedule };
}

impl GcmKey {
    /// Prepares a GCM key from an AES key.
    pub fn new(key: Key) -> GcmKey
        ensures { result ≡ key_bytes key }
    {
        let schedule = LaneSchedule::expand(&key);
        // The subkey is the first of six equal blocks: encrypting six uses vectors, which look up no table in memory.
        let mut blocks = [[0; 16]; 6];
        encrypt6(&schedule, &mut blocks);
        let subkey = Block(u128::from_be_bytes(blocks[0]));
        let powers = KeyPowers::of(subkey);
        GcmKey { schedule, powers }
    }

    /// Says whether key streams are to be made 16 blocks at once, for processors with vectors of 256 bits, or eight
    /// after eight. This changes no result.
    pub fn prefer_wide(&mut self, wide: bool)
        ensures { self.new ≡ self.old }
    {
        self.schedule.prefer_wide(wide);
    }

    /// Whether key streams are made 16 blocks at once.
    pub fn is_wide(&self) -> bool {
        self.schedule.is_wide()
    }

    /// Encrypts the plaintext `text` in place, at most 2^36 - 32 octets. Returns the authentication tag of the
    /// ciphertext and of the additional authenticated data, at most 2^61 - 1 octets (SP 800-38D, 7.1). No contract
    /// prevents a caller from using an IV twice under a key.
    pub fn seal(&self, iv: &[u8; 12], aad: &[u8], text: &mut [u8]) -> [u8; 16]
        requires text_length { length text.old ≤ max_plaintext_len }
        requires aad_length { length aad.now ≤ max_aad_len }
        ensures { (text.new, result) ≡ seal_of self.now iv.now aad.now text.old }
    {
        let mut sealer = Sealer::before_text(self, iv, text.len());
        sealer.aad(aad);
        sealer.data(text);
        sealer.finish()
    }

    /// If the ciphertext `text` and the additional authenticated data have this tag, decrypts the text in place and
    /// returns true. Otherwise returns false and changes nothing (SP 800-38D, 7.2). The limits on lengths are as for
    /// `seal`.
    pub fn open(&self, iv: &[u8; 12], aad: &[u8], text: &mut [u8], tag: &[u8; 16]) -> bool
        requires text_length { length text.old ≤ max_plaintext_len }
        requires aad_length { length aad.now ≤ max_aad_len }
        // The text is now a plaintext that seals to the ciphertext and the tag.
        ensures opened { OnTrue result
            (seal_of self.now iv.now aad.now text.new ≡ (text.old, tag.now)) }
        // No plaintext seals to them.
        ensures refused { OnFalse result
            ((p : List ℕ) → seal_of self.now iv.now aad.now p ≡ (text.old, tag.now) → ⊥) }
        ensures unchanged { OnFalse result (text.new ≡ text.old) }
        // Both cases in terms of `open_of`, for the layers above.
        ensures gives { open_of self.now iv.now aad.now text.old tag.now
            ≡ (if result then Some text.new else None) }
    {
        let mut opener = Opener::before_text(self, iv, text.len());
        opener.aad(aad);
        opener.check(text);
        match opener.finish(tag) {
            Some(mut unlocked) => {
                unlocked.data(text);
                true
            }
            None => false,
        }
    }
}
