//! Opening undoes sealing (SP 800-38D, 7). Each law is the contract of a function with an empty body.

ghost use Rattle.macsec_gcm.specs.Laws.{OpenUndoesSeal, SealedLengths, SealingIsInjective};

/// Opening gives a plaintext exactly if that plaintext seals to the ciphertext and the tag.
pub fn open_undoes_seal()
    ensures { OpenUndoesSeal }
{}

/// No two plaintexts have the same ciphertext under one key, IV and additional authenticated data.
pub fn sealing_is_injective()
    ensures { SealingIsInjective }
{}

/// A ciphertext is as long as its plaintext, and a tag has 16 octets.
pub fn sealed_lengths()
    ensures { SealedLengths }
{}
