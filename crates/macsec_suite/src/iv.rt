//! The IV of a frame (IEEE 802.1AE, 14.5 to 14.8).

ghost use Rattle.std.specs.Prelude.{◌≡◌, ◌<◌, ◌≤◌, bit_xor, slice_index};
ghost use Rattle.macsec_gcm.specs.Octets.{sum_with_stream};
ghost use Rattle.macsec_suite.specs.Suites.{extended_iv, is_xpn, iv_of, last_of};

use crate::Suite;
use byteorder::{BigEndian, ByteOrder};
use macsec_tag::Sci;
use std::array;

/// Returns the IV of a frame. `pn` is at most the suite's last packet number.
///
/// With 32-bit packet numbers the IV is the SCI followed by the packet number; SSCI and salt are not used (14.5, 14.6).
/// With extended packet numbers it is the exclusive or of two lists of 12 octets: the salt, and the SSCI followed by
/// the packet number. The SCI is not used (14.7, 14.8).
pub fn iv_of(suite: Suite, sci: Sci, ssci: u32, salt: [u8; 12], pn: u64) -> [u8; 12]
    requires { pn ≤ last_of suite }
    ensures { result ≡ iv_of suite sci ssci salt pn }
{
    if suite.is_xpn() {
        return extended_iv(ssci, salt, pn);
    }
    let mut iv = [0; 12];
    BigEndian::write_u32(&mut iv[8..], pn as u32);
    iv[..8].copy_from_slice(&sci.0);
    iv
}

/// The exclusive or of two lists of 12 octets: the salt, and the SSCI followed by the packet number.
fn extended_iv(ssci: u32, salt: [u8; 12], pn: u64) -> [u8; 12]
    ensures { result ≡ extended_iv ssci salt pn }
{
    let mut numbers = [0; 12];
    BigEndian::write_u64(&mut numbers[4..], pn);
    BigEndian::write_u32(&mut numbers[..4], ssci);
    exclusive_or(salt, numbers)
}

/// The exclusive or of two arrays of 12 octets.
fn exclusive_or(text: [u8; 12], other: [u8; 12]) -> [u8; 12]
    ensures { result ≡ sum_with_stream text other }
{
    array::from_fn(
        |k: usize| -> u8
            requires { k < 12 }
            ensures { result ≡ bit_xor (slice_index text k) (slice_index other k) }
        { text[k] ^ other[k] },
    )
}
