//! The field of 2^128 elements in which GCM hashes (SP 800-38D, 6.3).
//!
//! Proved: `add` is the bitwise xor, and `times_x` the shift with reduction. `mul` is a sum over the bits that are set
//! in the first block. The term of a bit is the second block multiplied by x as many times as the bit's position from
//! the left. `residue` is the field element of a polynomial with 255 coefficients.
//!
//! Laws of these definitions (`laws`): the product distributes over sums in both factors, and is a block of 128 bits;
//! the product of three blocks does not depend on which two are multiplied first; the product of two blocks is the
//! residue of their carryless product; carryless products and residues distribute over sums.
#![tactic(auto)]

ghost use Rattle.std.specs.Prelude.{◌≡◌, ◌+◌, ◌*◌, ◌^◌, ◌<◌, bit_xor};
ghost use Rattle.macsec_field128.specs.Carryless.{residue};
ghost use Rattle.macsec_field128.specs.Field.{block_product, times_x};

pub mod laws;

/// An element of the field. Its leftmost bit is the most significant one.
#[derive(Clone, Copy, PartialEq, Eq)]
pub struct Block(pub u128);

/// The octet e1 followed by 15 zero octets.
const REDUCTION: u128 = 0xe1 << 120;

/// The sum of two elements.
pub fn add(a: Block, b: Block) -> Block
    ensures { result.0 ≡ bit_xor a.0 b.0 }
{
    Block(a.0 ^ b.0)
}

/// `block` if `bit` is 1, and 0 if it is 0. It uses a mask, so that no branch depends on the bit of a key.
#[inline(always)]
fn where_set(bit: u128, block: u128) -> u128
    requires { bit < 2 }
    ensures { result ≡ bit * block }
{
    block & 0u128.wrapping_sub(bit)
}

/// An element multiplied by x.
pub fn times_x(v: Block) -> Block
    ensures { result.0 ≡ times_x v.0 }
{
    Block((v.0 >> 1) ^ where_set(v.0 & 1, REDUCTION))
}

/// The product of two elements.
pub fn mul(a: Block, b: Block) -> Block
    ensures { result.0 ≡ block_product a.0 b.0 }
{
    let mut sum = Block(0);
    let mut power = b;
    for i in 0..128u32 {
        let bit = (a.0 >> (127 - i)) & 1;
        sum = add(sum, Block(where_set(bit, power.0)));
        power = times_x(power);
    }
    sum
}

/// The field element of a polynomial with 255 coefficients, given in two halves of 128 bits: its residue modulo the
/// polynomial of the field (SP 800-38D, 6.3). Bit 254 is the coefficient of x^0. Bit 255 is ignored.
pub fn residue(left: u128, right: u128) -> Block
    ensures { result.0 ≡ residue (left * 2 ^ 128 + right) }
{
    let first = (left << 1) | (right >> 127);
    let others = right << 1;
    // x^128 is 1 + x + x^2 + x^7, so the coefficients from x^128 on are added four times. The ones that are shifted out
    // at the right are again coefficients from x^128 on.
    let wrapped = others ^ (others << 127) ^ (others << 126) ^ (others << 121);
    Block(first ^ (wrapped ^ (wrapped >> 1) ^ (wrapped >> 2) ^ (wrapped >> 7)))
}
