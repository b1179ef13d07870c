//! Checksums of keys. A key whose checksum no key of a table has is not in the table.

ghost use Rattle.std.specs.Prelude.{◌≡◌};
ghost use Rattle.macsec_suite.specs.Checksums.{checksum_of};

/// The checksum is multiplied by this before each octet is added. It is odd, so that no octet is lost.
const FACTOR: u32 = 16_777_619;

/// The checksum of a key's octets. Keys with different checksums are different. The time depends only on how many
/// octets there are.
pub(crate) fn checksum_of(octets: &[u8]) -> u32
    ensures { result ≡ checksum_of octets.now }
{
    let mut checksum: u32 = 0;
    'octets: for i in 0..octets.len() {
        checksum = checksum
            .wrapping_mul(FACTOR)
            .wrapping_add(u32::from(octets[i]));
    }
    checksum
}
