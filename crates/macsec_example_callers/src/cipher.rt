//! AES-GCM without an endpoint (SP 800-38D).

ghost use Rattle.std.specs.Prelude.{◌≡◌, ◌≤◌, [], length, if◌then◌else◌, Some, None};
ghost use Rattle.std.specs.Bool.{OnFalse};
ghost use Rattle.macsec_aes.specs.Keys.{key_bytes};
ghost use Rattle.macsec_gcm.specs.Gcm.{open_of, seal_of};

use macsec_aes::Key;
use macsec_gcm::GcmKey;

/// Encrypts a text of at most 1,500 octets in place under a key and an IV, and returns its tag. The caller must never
/// use an IV twice under the same key.
pub fn sealed(key: Key, iv: &[u8; 12], text: &mut [u8]) -> [u8; 16]
    requires { length text.old ≤ 1500 }
    ensures { (text.new, result) ≡ seal_of (key_bytes key) iv.now [] text.old }
{
    GcmKey::new(key).seal(iv, &[], text)
}

/// Decrypts such a text in place if the tag is valid; otherwise leaves it unchanged.
pub fn opened(key: Key, iv: &[u8; 12], text: &mut [u8], tag: &[u8; 16]) -> bool
    requires { length text.old ≤ 1500 }
    ensures gives { open_of (key_bytes key) iv.now [] text.old tag.now ≡ (if result then Some text.new else None) }
    ensures unchanged { OnFalse result (text.new ≡ text.old) }
{
    GcmKey::new(key).open(iv, &[], text, tag)
}
