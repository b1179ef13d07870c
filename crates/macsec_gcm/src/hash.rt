//! Hashes texts in pieces. Each text is padded with zeros to whole blocks (SP 800-38D, 7.1, step 5).

ghost use Rattle.std.specs.Prelude.{◌≡◌, ◌+◌, ◌%◌, ◌<◌, ◌∷◌, ◌++◌, [], ℕ, List, length};

use macsec_field128::Block;
use macsec_ghash::{KeyPowers, RunningHash};

/// The hash of texts in pieces. The octets after the last whole block of a text wait until their block is complete or
/// the text ends.
#[derive(Drop)]
pub struct PaddedHash<'k> {
    /// The powers of the hash subkey, borrowed from the key.
    powers: &'k KeyPowers,
    /// The number of waiting octets.
    waiting_count: usize,
    hash: RunningHash,
    /// The waiting octets. The octets after them are leftovers.
    waiting: [u8; 16],
    ghost has_room: { waiting_count < 16 },
}

impl<'k> PaddedHash<'k> {
    ghost use Rattle.macsec_ghash.specs.Ghash.{ghash, pad};
    ghost use Rattle.macsec_gcm.specs.Pieces.{IsHashing};

    /// Starts a hash of no texts, with these powers of the hash subkey.
    #[inline(always)]
    pub fn start(powers: &'k KeyPowers) -> PaddedHash<'k>
        ensures { IsHashing result powers.now [] [] }
    {
        PaddedHash {
            powers,
            waiting_count: 0,
            hash: RunningHash::start(),
            waiting: [0; 16],
        }
    }

    /// Hashes the next piece of a text.
    pub fn absorb(&mut self, piece: &[u8])
        ensures { (h : ℕ) (blocks text : List ℕ) → IsHashing self.old h blocks text
            → IsHashing self.new h blocks (text ++ piece.now) }
    {
        if self.waiting_count == 0 {
            self.absorb_next(piece);
            return;
        }
        let missing = 16 - self.waiting_count;
        if piece.len() < missing {
            self.wait(piece);
            return;
        }
        let (head, rest) = piece.split_at(missing);
        self.complete(head);
        self.absorb_next(rest);
    }

    /// Hashes the next piece of a text while no octets are waiting.
    #[inline(always)]
    fn absorb_next(&mut self, piece: &[u8])
        requires none { self.old.waiting_count ≡ 0 }
        ensures { (h : ℕ) (blocks text : List ℕ) → IsHashing self.old h blocks text
            → IsHashing self.new h blocks (text ++ piece.now) }
    {
        let (whole, tail) = piece.split_at(piece.len() - piece.len() % 16);
        self.absorb_whole(whole);
        self.wait(tail);
    }

    /// Ends a text: pads and hashes the waiting octets.
    pub fn end_text(&mut self)
        ensures { (h : ℕ) (blocks text : List ℕ) → IsHashing self.old h blocks text
            → IsHashing self.new h (blocks ++ pad text) [] }
    {
        if self.waiting_count == 0 {
            return;
        }
        let mut last = [0; 16];
        last[..self.waiting_count].copy_from_slice(&self.waiting[..self.waiting_count]);
        self.waiting_count = 0;
        let block = Block(u128::from_be_bytes(last));
        self.hash.absorb_block(self.powers, block);
    }

    /// Hashes one more block after texts that have ended. Returns the hash of all blocks.
    #[inline(always)]
    pub fn value_after(&mut self, last: Block) -> Block
        ensures { (h : ℕ) (blocks : List ℕ) → IsHashing self.old h blocks []
            → result.0 ≡ ghash h (blocks ++ last.0 ∷ []) }
    {
        self.hash.absorb_block(self.powers, last);
        self.hash.value(self.powers)
    }

    /// Adds to the waiting octets, which do not complete a block.
    fn wait(&mut self, octets: &[u8])
        requires { self.old.waiting_count + length octets.now < 16 }
        ensures { (h : ℕ) (blocks text : List ℕ) → IsHashing self.old h blocks text
            → IsHashing self.new h blocks (text ++ octets.now) }
    {
        if octets.is_empty() {
            return;
        }
        let end = self.waiting_count + octets.len();
        self.waiting[self.waiting_count..end].copy_from_slice(octets);
        self.waiting_count = end;
    }

    /// Hashes the block of the waiting octets and the octets that complete it.
    fn complete(&mut self, octets: &[u8])
        requires { self.old.waiting_count + length octets.now ≡ 16 }
        ensures none { self.new.waiting_count ≡ 0 }
        ensures hashes { (h : ℕ) (blocks text : List ℕ) → IsHashing self.old h blocks text
            → IsHashing self.new h blocks (text ++ octets.now) }
    {
        self.waiting[self.waiting_count..].copy_from_slice(octets);
        self.hash.absorb(self.powers, &self.waiting);
        self.waiting_count = 0;
    }

    /// Hashes whole blocks while no octets are waiting.
    fn absorb_whole(&mut self, octets: &[u8])
        requires none { self.old.waiting_count ≡ 0 }
        requires whole { length octets.now % 16 ≡ 0 }
        ensures none { self.new.waiting_count ≡ 0 }
        ensures hashes { (h : ℕ) (blocks text : List ℕ) → IsHashing self.old h blocks text
            → IsHashing self.new h blocks (text ++ octets.now) }
    {
        self.hash.absorb(self.powers, octets);
    }
}
