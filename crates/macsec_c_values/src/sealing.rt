//! Frames for tests: any SecTAG, with a valid ICV (IEEE 802.1AE, 10.5 and 14.5 to 14.8).

ghost use Rattle.std.specs.Prelude.{◌≡◌};
ghost use Rattle.macsec_aes.specs.Keys.{key_bytes};
ghost use Rattle.macsec_c_values.specs.Arguments.{sci_of};
ghost use Rattle.macsec_c_values.specs.Sealing.{seal_fault, sealed};

use crate::{DONE, Sak, key_of, status_of_frame_fault, suite_of};
use macsec_aes::Key;
use macsec_gcm::GcmKey;
use macsec_secy::{FrameFault, Refusal, Sci, Suite};
use macsec_suite::{iv_of, seal_in_place};
use macsec_tag::ICV_LENGTH;

/// The most octets of a frame that is sealed: as many as a plaintext can have, 2^36 - 32 (SP 800-38D, 5.2.1.1).
const LONGEST: usize = (1 << 36) - 32;

/// The octets of a key.
fn octets_of(key: &Key) -> &[u8]
    ensures { result.now ≡ key_bytes key.now }
{
    match key {
        Key::K128(octets) => octets,
        Key::K256(octets) => octets,
    }
}

/// The first status that applies, if a frame cannot be sealed.
fn seal_fault(suite: Suite, key: &Key, pn: u64, head: usize, frame: &[u8]) -> Option<u32>
    ensures { result ≡ seal_fault suite key.now pn head frame.now }
{
    if octets_of(key).len() != suite.key_length() {
        return Some(u32::from(Refusal::KeyLength.number()));
    }
    if pn > suite.last() {
        return Some(u32::from(Refusal::PnRange.number()));
    }
    if frame.len() < ICV_LENGTH || frame.len() - ICV_LENGTH < head {
        return Some(status_of_frame_fault(FrameFault::Short));
    }
    if frame.len() > LONGEST {
        return Some(status_of_frame_fault(FrameFault::Long));
    }
    None
}

/// Seals a frame in place, whatever its SecTAG is. Returns the status.
///
/// No contract prevents a caller from using an IV twice under a key.
pub fn seal(key: &Sak, sci: &[u8; 8], pn: u64, conf: bool, head: usize, frame: &mut [u8]) -> u32
    ensures { (result, frame.new) ≡ sealed key.now (sci_of sci.now) pn conf head frame.old }
{
    let suite = match suite_of(key.suite) {
        Ok(suite) => suite,
        Err(fault) => return fault.status(),
    };
    let octets = match key_of(&key.bytes, key.length) {
        Ok(octets) => octets,
        Err(fault) => return fault.status(),
    };
    if let Some(status) = seal_fault(suite, &octets, pn, head, frame) {
        return status;
    }
    let iv = iv_of(suite, Sci(*sci), key.ssci, key.salt, pn);
    let gcm_key = GcmKey::new(octets);
    seal_in_place(&gcm_key, key.offset, &iv, conf, head, frame);
    DONE
}
