//! Sealing and opening in pieces (SP 800-38D, 7). Texts can be cut anywhere.

ghost use Rattle.std.specs.Prelude.{◌≡◌, ◌≤◌, ◌++◌, [], ℕ, List, length, Some, None, IfSome, IfNone};
ghost use Rattle.macsec_gcm.specs.Gcm.{inc32, max_aad_len, max_plaintext_len, open_of, pre_counter_block, seal_of};
ghost use Rattle.macsec_gcm.specs.Octets.{same_octets};
ghost use Rattle.macsec_gcm.specs.Pieces.{HasAuthenticated, HasChecked, HasOpened, HasSealed, IsStreamAt, decrypted};

use crate::GcmKey;
use crate::authenticator::Authenticator;
use crate::counter_blocks::pre_counter_block;
use crate::key_stream::KeyStream;

/// Seals a text in pieces (SP 800-38D, 7.1): first the additional authenticated data, at most 2^61 - 1 octets, then the
/// plaintext, at most 2^36 - 32 octets. No clause says what the tag is beyond these lengths, or if additional
/// authenticated data come after an octet of the plaintext.
#[derive(Drop)]
pub struct Sealer<'k> {
    stream: KeyStream<'k>,
    authenticator: Authenticator<'k>,
}

impl<'k> Sealer<'k> {
    /// Starts sealing under the key and the IV.
    #[inline(always)]
    pub fn start(key: &'k GcmKey, iv: &[u8; 12]) -> Sealer<'k>
        ensures { HasSealed result key.now iv.now [] [] }
    {
        Sealer::before_text(key, iv, 0)
    }

    /// The same before a text of about so many octets. The number changes no result: it says how many blocks of key
    /// stream to make at first.
    #[inline(always)]
    pub fn before_text(key: &'k GcmKey, iv: &[u8; 12], text_len: usize) -> Sealer<'k>
        ensures { HasSealed result key.now iv.now [] [] }
    {
        let mut stream = KeyStream::before(&key.schedule, pre_counter_block(iv));
        let mask = stream.begin(text_len);
        let authenticator = Authenticator::start(&key.powers, mask);
        Sealer {
            stream,
            authenticator,
        }
    }

    /// Takes the next piece of the additional authenticated data, before any octet of the plaintext.
    pub fn aad(&mut self, piece: &[u8])
        ensures { (key iv aad : List ℕ) → HasSealed self.old key iv aad []
            → HasSealed self.new key iv (aad ++ piece.now) [] }
    {
        self.authenticator.aad(piece);
    }

    /// Encrypts the next piece of the plaintext in place.
    pub fn data(&mut self, piece: &mut [u8])
        ensures { (key iv aad plaintext : List ℕ) → HasSealed self.old key iv aad plaintext
            → HasSealed self.new key iv aad (plaintext ++ piece.old)
            × ((seal_of key iv aad (plaintext ++ piece.old)).0 ≡ (seal_of key iv aad plaintext).0 ++ piece.new) }
    {
        self.stream.add_to(piece);
        self.authenticator.ciphertext(piece);
    }

    /// Returns the authentication tag of all pieces.
    #[inline(always)]
    pub fn finish(self) -> [u8; 16]
        ensures { (key iv aad plaintext : List ℕ) → HasSealed self.entry key iv aad plaintext
            → length aad ≤ max_aad_len → length plaintext ≤ max_plaintext_len
            → result ≡ (seal_of key iv aad plaintext).1 }
    {
        // Moved out alone, so that the key stream is not copied.
        let mut authenticator = self.authenticator;
        authenticator.tag()
    }
}

/// Whether two tags are equal. It tests the sum of the whole tags, so the source has no exit at the first octet that
/// differs.
#[inline(always)]
fn are_same(a: [u8; 16], b: [u8; 16]) -> bool
    ensures { result ≡ same_octets a b }
{
    u128::from_be_bytes(a) ^ u128::from_be_bytes(b) == 0
}

/// Checks a text in pieces, without changing them (SP 800-38D, 7.2): first the additional authenticated data, then the
/// ciphertext. Lengths and order are as for `Sealer`.
#[derive(Drop)]
pub struct Opener<'k> {
    stream: KeyStream<'k>,
    authenticator: Authenticator<'k>,
}

impl<'k> Opener<'k> {
    /// Starts checking under the key and the IV.
    #[inline(always)]
    pub fn start(key: &'k GcmKey, iv: &[u8; 12]) -> Opener<'k>
        ensures { HasChecked result key.now iv.now [] [] }
    {
        Opener::before_text(key, iv, 0)
    }

    /// The same before a text of about so many octets. The number changes no result: it says how many blocks of key
    /// stream to make at first.
    #[inline(always)]
    pub fn before_text(key: &'k GcmKey, iv: &[u8; 12], text_len: usize) -> Opener<'k>
        ensures { HasChecked result key.now iv.now [] [] }
    {
        let mut stream = KeyStream::before(&key.schedule, pre_counter_block(iv));
        let mask = stream.begin(text_len);
        let authenticator = Authenticator::start(&key.powers, mask);
        Opener {
            stream,
            authenticator,
        }
    }

    /// Takes the next piece of the additional authenticated data, before any octet of the ciphertext.
    pub fn aad(&mut self, piece: &[u8])
        ensures { (key iv aad : List ℕ) → HasChecked self.old key iv aad []
            → HasChecked self.new key iv (aad ++ piece.now) [] }
    {
        self.authenticator.aad(piece);
    }

    /// Takes the next piece of the ciphertext.
    pub fn check(&mut self, piece: &[u8])
        ensures { (key iv aad ciphertext : List ℕ) → HasChecked self.old key iv aad ciphertext
            → HasChecked self.new key iv aad (ciphertext ++ piece.now) }
    {
        self.authenticator.ciphertext(piece);
    }

    /// If this is the tag of all pieces, returns what decrypts the ciphertext. Otherwise returns `None`: no plaintext
    /// seals to the ciphertext and this tag.
    #[inline(always)]
    pub fn finish(self, tag: &[u8; 16]) -> Option<Unlocked<'k>>
        ensures opened { (key iv aad ciphertext : List ℕ) → HasChecked self.entry key iv aad ciphertext
            → length aad ≤ max_aad_len → length ciphertext ≤ max_plaintext_len
            → IfSome result (λ unlocked. HasOpened unlocked key iv []
            × (open_of key iv aad ciphertext tag.now ≡ Some (decrypted key iv ciphertext))) }
        ensures refused { (key iv aad ciphertext : List ℕ) → HasChecked self.entry key iv aad ciphertext
            → length aad ≤ max_aad_len → length ciphertext ≤ max_plaintext_len
            → IfNone result (open_of key iv aad ciphertext tag.now ≡ None) }
    {
        // Moved out first, so that the key stream is copied less often.
        let rest = self.stream;
        let mut authenticator = self.authenticator;
        if are_same(authenticator.tag(), *tag) {
            return Some(Unlocked { rest });
        }
        None
    }
}

/// Decrypts a ciphertext whose tag was valid, in pieces, from its first octet on. The pieces can be cut differently
/// from the ones that were checked, but their octets must be the same.
#[derive(Drop)]
pub struct Unlocked<'k> {
    /// The key stream of the rest of the ciphertext.
    rest: KeyStream<'k>,
}

impl<'k> Unlocked<'k> {
    /// Decrypts the next piece of the ciphertext in place.
    pub fn data(&mut self, piece: &mut [u8])
        ensures { (key iv ciphertext : List ℕ) → HasOpened self.old key iv ciphertext
            → HasOpened self.new key iv (ciphertext ++ piece.old)
            × (decrypted key iv (ciphertext ++ piece.old) ≡ decrypted key iv ciphertext ++ piece.new) }
    {
        self.rest.add_to(piece);
    }
}
