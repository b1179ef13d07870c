//! Writes the delivered frame (DA, SA and data) to a slice.

ghost use Rattle.std.specs.Prelude.{◌≡◌, ◌≤◌, ◌+◌, ◌++◌, ℕ, drop, length, option_map, take, IfNone, IfSome};
ghost use Rattle.macsec_gcm.specs.Gcm.{max_plaintext_len};
ghost use Rattle.macsec_tag.specs.Tag.{encoding};
ghost use Rattle.macsec_rx.specs.Limits.{unpadded_length};
ghost use Rattle.macsec_rx.specs.Judge.{bare_frame, octets_at};
ghost use Rattle.macsec_rx.specs.Opened.{IsOpenedBy};
ghost use Rattle.macsec_rx.specs.Delivered.{HasFixedLengths, IsInPlace, LeavesReceived, delivered_place, frame_with, opened_under, received_octets};

use crate::{OpenJob, OpenedFrame};
use macsec_gcm::laws::{open_undoes_seal, sealed_lengths};
use macsec_suite::laws::parts_in_place;
use macsec_suite::{KeyNumber, SuiteKey, validate_in_place};
use macsec_tag::{ADDRESSES_LENGTH, Mpdu};

/// Writes a part after the first `at` octets of `out`, and returns where it ends.
fn put(part: &[u8], at: usize, out: &mut [u8]) -> usize
    requires { at + length part.now ≤ length out.old }
    ensures end { result ≡ at + length part.now }
    ensures octets { take result out.new ≡ take at out.old ++ part.now }
    ensures rest { (n : ℕ) → result ≤ n → drop n out.new ≡ drop n out.old }
{
    let end = at + part.len();
    out[at..end].copy_from_slice(part);
    end
}

/// Writes DA, SA, SecTAG, Secure Data and ICV of a frame to the start of `out`. Returns their length in octets.
fn lay_out(mpdu: &Mpdu<'_>, out: &mut [u8]) -> usize
    requires { unpadded_length mpdu.now ≤ length out.old }
    ensures length { result ≡ unpadded_length mpdu.now }
    ensures octets { take result out.new ≡ received_octets mpdu.now }
    ensures rest { drop result out.new ≡ drop result out.old }
    ensures lengths { HasFixedLengths mpdu.now }
{
    let addresses = put(mpdu.addresses(), 0, out);
    let tag = put(mpdu.tag_bytes(), addresses, out);
    let data = put(mpdu.secure_data(), tag, out);
    put(mpdu.icv(), data, out)
}

/// Writes DA and SA directly before the data, which are in `out` after the SecTAG. Returns the position and length of
/// the delivered frame.
fn deliver(mpdu: &Mpdu<'_>, out: &mut [u8]) -> (usize, usize)
    requires { 12 + length (encoding mpdu.now.tag) + length mpdu.now.secure_data ≤ length out.old }
    ensures octets { octets_at out.new result ≡ mpdu.now.da ++ mpdu.now.sa ++
        take (length mpdu.now.secure_data) (drop (12 + length (encoding mpdu.now.tag)) out.old) }
    ensures within { result.0 + result.1 ≤ length out.new }
    ensures place { result ≡ delivered_place mpdu.now }
{
    let tag_length = mpdu.tag_bytes().len();
    put(mpdu.addresses(), tag_length, out);
    (tag_length, ADDRESSES_LENGTH + mpdu.secure_data().len())
}

/// Delivers the frame without SecTAG, ICV and padding. The data are as received.
pub fn deliver_bare(mpdu: &Mpdu<'_>, out: &mut [u8]) -> (usize, usize)
    requires { 12 + length (encoding mpdu.now.tag) + length mpdu.now.secure_data ≤ length out.old }
    ensures octets { octets_at out.new result ≡ bare_frame mpdu.now }
    ensures within { result.0 + result.1 ≤ length out.new }
    ensures place { result ≡ delivered_place mpdu.now }
{
    let data = ADDRESSES_LENGTH + mpdu.tag_bytes().len();
    put(mpdu.secure_data(), data, out);
    deliver(mpdu, out)
}

/// If the ICV is valid under this key and IV, delivers the frame with its plaintext. Otherwise delivers nothing, and no
/// decrypted octet of the frame is in `out`.
#[inline(always)]
pub fn deliver_opened(
    key: &SuiteKey,
    iv: &[u8; 12],
    mpdu: &Mpdu<'_>,
    out: &mut [u8],
) -> Option<(usize, usize)>
    requires data_length { length mpdu.now.secure_data ≤ max_plaintext_len }
    requires room { unpadded_length mpdu.now ≤ length out.old }
    ensures octets { option_map (octets_at out.new) result ≡
        option_map (frame_with key.now mpdu.now) (opened_under key.now iv.now mpdu.now) }
    ensures within { IfSome result (λ at. at.0 + at.1 ≤ length out.new) }
    ensures place { IsInPlace result mpdu.now }
    ensures undelivered { IfNone result (LeavesReceived out.old out.new mpdu.now) }
{
    // The proof cites these laws; the calls do nothing.
    parts_in_place();
    open_undoes_seal();
    sealed_lengths();
    let end = lay_out(mpdu, out);
    let tag = mpdu.tag();
    let data_length = mpdu.secure_data().len();
    if validate_in_place(key, iv, tag.e(), tag.length(), data_length, &mut out[..end]) {
        Some(deliver(mpdu, out))
    } else {
        None
    }
}

impl OpenJob {
    /// The number of the key that the job needs.
    pub fn key(&self) -> KeyNumber
        ensures { result ≡ self.now.key }
    {
        self.key
    }

    /// Opens the frame. `key` is the prepared key of the job's number. If the ICV is valid, the frame to deliver is in
    /// `out` afterwards; otherwise no decrypted octet of the frame is.
    pub fn open(&self, key: &SuiteKey, mpdu: &Mpdu<'_>, out: &mut [u8]) -> OpenedFrame
        requires data_length { length mpdu.now.secure_data ≤ max_plaintext_len }
        requires room { unpadded_length mpdu.now ≤ length out.old }
        ensures job { (result.key ≡ self.now.key) × (result.iv ≡ self.now.iv) }
        ensures opened { IsOpenedBy result key.now mpdu.now out.new }
        ensures undelivered { IfNone result.delivered (LeavesReceived out.old out.new mpdu.now) }
    {
        OpenedFrame {
            key: self.key,
            iv: self.iv,
            delivered: deliver_opened(key, &self.iv, mpdu, out),
        }
    }
}
