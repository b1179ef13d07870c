//! The tag of additional authenticated data and a ciphertext, both in pieces (SP 800-38D, 7.1, steps 4 to 6).

ghost use Rattle.std.specs.Prelude.{◌≡◌, ◌*◌, ◌^◌, ◌<◌, ◌≤◌, ◌∷◌, ◌++◌, [], ℕ, List, length, replicate};
ghost use Rattle.macsec_ghash.specs.Ghash.{pad};
ghost use Rattle.macsec_gcm.specs.Gcm.{authentication_tag, gctr, hash_subkey, length_block, max_aad_len, max_plaintext_len};

use crate::hash::PaddedHash;
use crate::key_stream::add_octets;
use macsec_field128::Block;
use macsec_ghash::KeyPowers;

/// Authenticates additional authenticated data and a ciphertext in pieces.
#[derive(Drop)]
pub struct Authenticator<'k> {
    hash: PaddedHash<'k>,
    /// The key stream of the pre-counter block, which is added to the hash.
    mask: [u8; 16],
    /// The octets so far, or 2^64 - 1 if there are more.
    aad_len: u64,
    ciphertext_len: u64,
}

impl<'k> Authenticator<'k> {
    ghost use Rattle.macsec_ghash.specs.Ghash.{pad};
    ghost use Rattle.macsec_gcm.specs.Pieces.{HasAuthenticated, IsHashing};

    /// Starts an authentication. `powers` are the powers of the hash subkey, and `mask` is the key stream of the
    /// pre-counter block.
    #[inline(always)]
    pub fn start(powers: &'k KeyPowers, mask: [u8; 16]) -> Authenticator<'k>
        ensures { (key j0 : List ℕ) → powers.now ≡ hash_subkey key
            → mask ≡ gctr key j0 (replicate 16 0) → HasAuthenticated result key j0 [] [] }
    {
        Authenticator {
            hash: PaddedHash::start(powers),
            mask,
            aad_len: 0,
            ciphertext_len: 0,
        }
    }

    /// Takes the next piece of the additional authenticated data.
    pub fn aad(&mut self, piece: &[u8])
        ensures { (key j0 aad : List ℕ) → HasAuthenticated self.old key j0 aad []
            → HasAuthenticated self.new key j0 (aad ++ piece.now) [] }
    {
        self.hash.absorb(piece);
        self.aad_len = self.aad_len.saturating_add(piece.len() as u64);
    }

    /// Takes the next piece of the ciphertext.
    pub fn ciphertext(&mut self, piece: &[u8])
        ensures { (key j0 aad text : List ℕ) → HasAuthenticated self.old key j0 aad text
            → HasAuthenticated self.new key j0 aad (text ++ piece.now) }
    {
        // The first octet of the ciphertext ends the additional authenticated data. An empty piece does not.
        if piece.is_empty() {
            return;
        }
        self.end_aad();
        self.hash.absorb(piece);
        self.ciphertext_len = self.ciphertext_len.saturating_add(piece.len() as u64);
    }

    /// Returns the authentication tag of all pieces.
    pub fn tag(&mut self) -> [u8; 16]
        ensures { (key j0 aad text : List ℕ) → HasAuthenticated self.old key j0 aad text
            → length aad ≤ max_aad_len → length text ≤ max_plaintext_len
            → result ≡ authentication_tag key j0 aad text }
    {
        self.hash.end_text();
        let lengths = length_block(self.aad_len, self.ciphertext_len);
        let mut tag = self.hash.value_after(lengths).0.to_be_bytes();
        add_octets(&mut tag, &self.mask);
        tag
    }

    /// Ends the additional authenticated data, unless they have already ended.
    fn end_aad(&mut self)
        ensures mask { self.new.mask ≡ self.old.mask }
        ensures aad_len { self.new.aad_len ≡ self.old.aad_len }
        ensures ciphertext_len { self.new.ciphertext_len ≡ self.old.ciphertext_len }
        ensures hash { (key j0 aad text : List ℕ) → HasAuthenticated self.old key j0 aad text
            → IsHashing self.new.hash (hash_subkey key) (pad aad) text }
    {
        if self.ciphertext_len == 0 {
            self.hash.end_text();
        }
    }
}

/// The block of the bit lengths, given the lengths in octets.
fn length_block(aad: u64, ciphertext: u64) -> Block
    ensures { (a c : List ℕ) → length a ≡ aad → length c ≡ ciphertext → 8 * aad < 2 ^ 64 → 8 * ciphertext < 2 ^ 64
        → pad (length_block a c) ≡ result.0 ∷ [] }
{
    let left = aad.wrapping_mul(8) as u128 * 0x1_0000_0000_0000_0000;
    Block(left + ciphertext.wrapping_mul(8) as u128)
}
