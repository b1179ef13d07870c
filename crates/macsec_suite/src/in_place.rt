//! Protects and validates frames in place.

ghost use Rattle.std.specs.Prelude.{◌≡◌, ◌≤◌, ◌+◌, length, min, if◌then◌else◌, Some, None};
ghost use Rattle.std.specs.Bool.{OnTrue, OnFalse};
ghost use Rattle.macsec_gcm.specs.Gcm.{max_plaintext_len};
ghost use Rattle.macsec_suite.specs.InPlace.{IsTagLength, protected_octets, sealed_octets, validated_octets};

use crate::SuiteKey;
use crate::pieces::{open, seal};
use macsec_gcm::GcmKey;
use macsec_tag::{ADDRESSES_LENGTH, ICV_LENGTH};

/// Protects a frame in place. `frame` has DA, SA, a SecTAG of `tag_len` octets (8 or 16), the data, and space for the
/// 16 octets of the ICV. The data have at most 2^36 - 32 octets. If `conf` is true, the data after the key's
/// confidentiality offset are encrypted. Everything else is only authenticated.
///
/// No contract prevents a caller from using an IV twice under a key. Two frames with one IV reveal the exclusive or of
/// their encrypted data and help an attacker to forge ICVs. For one sender, `iv_of` gives each packet number a
/// different IV, so use each packet number only once under a key.
pub fn protect_in_place(key: &SuiteKey, iv: &[u8; 12], conf: bool, tag_len: usize, frame: &mut [u8])
    requires tag { IsTagLength tag_len }
    requires room { 28 + tag_len ≤ length frame.old }
    requires data_length { length frame.old ≤ 28 + tag_len + max_plaintext_len }
    ensures { frame.new ≡ protected_octets key.now iv.now conf (12 + tag_len) frame.old }
{
    let head = ADDRESSES_LENGTH + tag_len;
    seal_in_place(&key.key, key.offset, iv, conf, head, frame);
}

/// Protects a frame in place, whatever its SecTAG is: the data begin after `head` octets, and the last 16 octets are
/// for the ICV. If `conf` is true, the data after the first `offset` octets are encrypted. Everything else is only
/// authenticated. No clause says what the octets before the data are.
///
/// No contract prevents a caller from using an IV twice under a key.
pub fn seal_in_place(
    key: &GcmKey,
    offset: u8,
    iv: &[u8; 12],
    conf: bool,
    head: usize,
    frame: &mut [u8],
)
    requires head_length { head ≤ max_plaintext_len }
    requires room { head + 16 ≤ length frame.old }
    requires data_length { length frame.old ≤ head + 16 + max_plaintext_len }
    ensures { frame.new ≡ sealed_octets key.now offset iv.now conf head frame.old }
{
    let end = frame.len() - ICV_LENGTH;
    let clear = head + clear_length(offset, conf, end - head);
    let (body, icv) = frame.split_at_mut(end);
    let (aad, text) = body.split_at_mut(clear);
    let tag = seal(key, iv, aad, text);
    icv.copy_from_slice(&tag);
}

/// Validates a frame in place and returns whether its ICV is valid. `frame` begins with DA, SA, a SecTAG of `tag_len`
/// octets (8 or 16), `data_len` octets of Secure Data (at most 2^36 - 32), and the 16 octets of the ICV. If the ICV is
/// valid and `e` is true, the Secure Data after the key's confidentiality offset are decrypted. If the ICV is invalid,
/// nothing is changed.
pub fn validate_in_place(
    key: &SuiteKey,
    iv: &[u8; 12],
    e: bool,
    tag_len: usize,
    data_len: usize,
    frame: &mut [u8],
) -> bool
    requires tag { IsTagLength tag_len }
    requires data_length { data_len ≤ max_plaintext_len }
    requires room { 28 + tag_len + data_len ≤ length frame.old }
    ensures genuine { OnTrue result (validated_octets key.now iv.now e (12 + tag_len) (12 + tag_len + data_len) frame.old ≡ Some frame.new) }
    ensures false_frame { OnFalse result (validated_octets key.now iv.now e (12 + tag_len) (12 + tag_len + data_len) frame.old ≡ None) }
    ensures unchanged { OnFalse result (frame.new ≡ frame.old) }
{
    let head = ADDRESSES_LENGTH + tag_len;
    let end = head + data_len;
    let clear = head + clear_length(key.offset, e, data_len);
    let (body, behind) = frame.split_at_mut(end);
    let (aad, text) = body.split_at_mut(clear);
    let mut icv = [0; ICV_LENGTH];
    icv.copy_from_slice(&behind[..ICV_LENGTH]);
    open(&key.key, iv, aad, text, &icv)
}

/// How many of `len` octets of data are not encrypted.
fn clear_length(offset: u8, e: bool, len: usize) -> usize
    ensures { result ≡ (if e then min offset len else len) }
{
    if e { len.min(offset as usize) } else { len }
}
