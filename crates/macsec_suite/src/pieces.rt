//! Seals and opens texts piece by piece.

ghost use Rattle.std.specs.Prelude.{◌≡◌, ◌≤◌, ℕ, List, [], length, if◌then◌else◌, Some, None};
ghost use Rattle.std.specs.Bool.{OnFalse};
ghost use Rattle.macsec_gcm.specs.Gcm.{max_aad_len, max_plaintext_len, open_of, seal_of};
ghost use Rattle.macsec_gcm.specs.Pieces.{HasChecked, HasOpened, HasSealed, decrypted};

use macsec_gcm::laws::sealed_lengths;
use macsec_gcm::{GcmKey, Opener, Sealer, Unlocked};

/// The length of a piece in octets; the last one can be shorter.
const PIECE_LENGTH: usize = 2_048;

/// Encrypts the plaintext `text` in place, piece by piece. Returns the authentication tag of the ciphertext and the
/// additional authenticated data. The limits on lengths are as for `GcmKey::seal`.
pub fn seal(key: &GcmKey, iv: &[u8; 12], aad: &[u8], text: &mut [u8]) -> [u8; 16]
    requires text_length { length text.old ≤ max_plaintext_len }
    requires aad_length { length aad.now ≤ max_aad_len }
    ensures { (text.new, result) ≡ seal_of key.now iv.now aad.now text.old }
{
    let mut sealer = Sealer::start(key, iv);
    seal_aad(&mut sealer, aad);
    seal_text(&mut sealer, text);
    sealer.finish()
}

/// Checks the tag of the ciphertext `text` and the additional authenticated data, piece by piece. If the tag is valid,
/// decrypts the ciphertext in place and returns true; otherwise returns false and changes nothing. The limits on
/// lengths are the same as for `GcmKey::open`.
pub fn open(key: &GcmKey, iv: &[u8; 12], aad: &[u8], text: &mut [u8], tag: &[u8; 16]) -> bool
    requires text_length { length text.old ≤ max_plaintext_len }
    requires aad_length { length aad.now ≤ max_aad_len }
    ensures unchanged { OnFalse result (text.new ≡ text.old) }
    ensures gives { open_of key.now iv.now aad.now text.old tag.now
        ≡ (if result then Some text.new else None) }
{
    let mut opener = Opener::start(key, iv);
    check_aad(&mut opener, aad);
    check_text(&mut opener, text);
    // Match on a reference: moving the key stream out would copy a batch of key stream.
    match &mut opener.finish(tag) {
        Some(unlocked) => {
            decrypt(unlocked, text);
            true
        }
        None => false,
    }
}

fn seal_aad(sealer: &mut Sealer<'_>, aad: &[u8])
    ensures { (key iv : List ℕ) → HasSealed sealer.old key iv [] [] → HasSealed sealer.new key iv aad.now [] }
{
    for piece in aad.chunks(PIECE_LENGTH) {
        sealer.aad(piece);
    }
}

fn seal_text(sealer: &mut Sealer<'_>, text: &mut [u8])
    ensures { (key iv aad : List ℕ) → HasSealed sealer.old key iv aad []
        → HasSealed sealer.new key iv aad text.old × (text.new ≡ (seal_of key iv aad text.old).0) }
{
    // The proof cites this law; the call does nothing.
    sealed_lengths();
    // By index: std's contract of `chunks_mut` gives the length of the text afterwards, but not what was written.
    for i in 0..text.len().div_ceil(PIECE_LENGTH) {
        let end = text.len().min(PIECE_LENGTH * i + PIECE_LENGTH);
        sealer.data(&mut text[PIECE_LENGTH * i..end]);
    }
}

fn check_aad(opener: &mut Opener<'_>, aad: &[u8])
    ensures { (key iv : List ℕ) → HasChecked opener.old key iv [] [] → HasChecked opener.new key iv aad.now [] }
{
    for piece in aad.chunks(PIECE_LENGTH) {
        opener.aad(piece);
    }
}

fn check_text(opener: &mut Opener<'_>, text: &[u8])
    ensures { (key iv aad : List ℕ) → HasChecked opener.old key iv aad [] → HasChecked opener.new key iv aad text.now }
{
    for piece in text.chunks(PIECE_LENGTH) {
        opener.check(piece);
    }
}

fn decrypt(unlocked: &mut Unlocked<'_>, text: &mut [u8])
    ensures { (key iv : List ℕ) → HasOpened unlocked.old key iv [] → text.new ≡ decrypted key iv text.old }
{
    // By index, as in `seal_text`.
    for i in 0..text.len().div_ceil(PIECE_LENGTH) {
        let end = text.len().min(PIECE_LENGTH * i + PIECE_LENGTH);
        unlocked.data(&mut text[PIECE_LENGTH * i..end]);
    }
}
