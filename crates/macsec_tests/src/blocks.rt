//! FIPS 197: a block encrypted under a key of each length.

use macsec_aes::{Key, Schedule, encrypt};

// 00112233445566778899aabbccddeeff
const BLOCK: [u8; 16] = [
    0x00, 0x11, 0x22, 0x33, 0x44, 0x55, 0x66, 0x77, 0x88, 0x99, 0xaa, 0xbb, 0xcc, 0xdd, 0xee, 0xff,
];

// FIPS 197, appendices C.1 and C.3: keys and the encrypted block.
const EXAMPLES: [(Key, u128); 2] = [
    (
        Key::K128([0, 1, 2, 3, 4, 5, 6, 7, 8, 9, 10, 11, 12, 13, 14, 15]),
        0x69c4_e0d8_6a7b_0430_d8cd_b780_70b4_c55a,
    ),
    (
        Key::K256([
            0, 1, 2, 3, 4, 5, 6, 7, 8, 9, 10, 11, 12, 13, 14, 15, 16, 17, 18, 19, 20, 21, 22, 23,
            24, 25, 26, 27, 28, 29, 30, 31,
        ]),
        0x8ea2_b7ca_5167_45bf_eafc_4990_4b49_6089,
    ),
];

#[test]
fn examples_of_fips_197(rt: HostRuntime) {
    for (key, expected) in EXAMPLES {
        assert!(rt; encrypt(&Schedule::expand(&key), BLOCK) == expected.to_be_bytes());
    }
}
