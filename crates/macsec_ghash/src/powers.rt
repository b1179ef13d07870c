//! The powers of a key, kept as tables of products with nibbles.

ghost use Rattle.std.specs.Prelude.{◌≡◌, ℕ, ◌+◌, ◌-◌, ◌*◌, ◌/◌, ◌%◌, ◌^◌, ◌<◌, slice_index, bit_xor};
ghost use Rattle.std.specs.Int.{bit_at, byte_at};
ghost use Rattle.macsec_field128.specs.Carryless.{carryless};
ghost use Rattle.macsec_ghash.specs.Tables.{AreTables, octet_of_product};

use macsec_field128::laws::carryless_laws;
use macsec_field128::{Block, mul};
use std::marker::Model;

/// The most octets of the product of a nibble and a block.
pub const OCTETS: usize = 17;

/// The octets of the tables of eight numbers: 16 for each number and each octet of the products.
pub const TABLES_LEN: usize = 2_176;

/// Eight powers of a key, from the eighth down to the key itself, as tables of their products with nibbles. Contracts
/// see them as the key. They are kept because computing them takes seven products.
#[derive(Clone, Drop)]
pub struct KeyPowers {
    key: Block,
    pub(crate) tables: [u8; TABLES_LEN],
}

impl Model for KeyPowers {
    ghost use Rattle.std.specs.Prelude.{ℕ, ◌-◌, ◌^◌, ◌<◌};
    ghost use Rattle.macsec_ghash.specs.Powers.{power};
    ghost use Rattle.macsec_ghash.specs.Tables.{AreTables};

    ghost Value = { ℕ };

    ghost view = { λ p. p.key.0 };

    ghost invariant = { λ p. (p.key.0 < 2 ^ 128) × AreTables p.tables (λ k. power p.key.0 (7 - k)) };
}

impl KeyPowers {
    /// Computes the powers of a key.
    pub fn of(h: Block) -> KeyPowers
        ensures { result ≡ h.0 }
    {
        let h2 = mul(h, h);
        let h3 = mul(h, h2);
        let h4 = mul(h, h3);
        let h5 = mul(h, h4);
        let h6 = mul(h, h5);
        let h7 = mul(h, h6);
        let h8 = mul(h, h7);
        KeyPowers {
            key: h,
            tables: tables_of(&[h8.0, h7.0, h6.0, h5.0, h4.0, h3.0, h2.0, h.0]),
        }
    }
}

/// The tables of eight numbers.
fn tables_of(numbers: &[u128; 8]) -> [u8; TABLES_LEN]
    ensures { AreTables result (slice_index numbers.now) }
{
    let mut tables = [0; TABLES_LEN];
    for place in 0..136usize {
        let octets = octets_of_products(two_octets(numbers[place % 8], place / 8));
        tables[16 * place..16 * place + 16].copy_from_slice(&octets);
    }
    tables
}

/// Octet `octet` of a number, counted from the right, followed by the octet on its right.
fn two_octets(number: u128, octet: usize) -> u16
    requires { octet < 17 }
    ensures { result ≡ number * 2 ^ 8 / 2 ^ (8 * octet) % 2 ^ 16 }
{
    if octet == 0 {
        ((number & 0xff) as u16) << 8
    } else {
        ((number >> (8 * (octet - 1))) & 0xffff) as u16
    }
}

/// One octet of the products of all nibbles with a number. `octets` has this octet of the number and the one on its
/// right.
fn octets_of_products(octets: u16) -> [u8; 16]
    ensures { (n : ℕ) → n < 16 → slice_index result n ≡ octet_of_product n octets }
{
    let one = (octets >> 8) as u8;
    let two = ((octets >> 7) & 0xff) as u8;
    let four = ((octets >> 6) & 0xff) as u8;
    let eight = ((octets >> 5) & 0xff) as u8;
    [
        0,
        one,
        two,
        one ^ two,
        four,
        one ^ four,
        two ^ four,
        one ^ two ^ four,
        eight,
        one ^ eight,
        two ^ eight,
        one ^ two ^ eight,
        four ^ eight,
        one ^ four ^ eight,
        two ^ four ^ eight,
        one ^ two ^ four ^ eight,
    ]
}
