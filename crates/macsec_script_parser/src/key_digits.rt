//! Reads the hex digits of a key by arithmetic. No address depends on an octet, and no branch but the last one, which
//! says whether all octets are digits. That the compilers keep it so is not proved.

ghost use Rattle.std.specs.Prelude.{◌≡◌};
ghost use Rattle.macsec_script_parser.specs.Numerals.{octets_of};
ghost use Rattle.macsec_script_parser.specs.Digits.{digit_code};

use crate::lines::LineFault;

/// 256 more than the value of a hex digit, or 0 for any other octet.
// `letter` and `number` are 1 or 0.
#[inline(always)]
fn digit_code(octet: u8) -> u16
    ensures { result ≡ digit_code octet }
{
    let upper = (octet & 0xdf) as u16;
    let letter = 1 - ((((upper + 191) & 0xff) + 250) >> 8);
    let number = 1 - ((((octet as u16 + 208) & 0xff) + 246) >> 8);
    (letter * (upper + 201) + number * (octet as u16 + 208)) & 0xff | (letter + number) << 8
}

/// A fixed number of octets of a key in hex.
pub fn key_octets<const N: usize>(word: &[u8]) -> Result<[u8; N], LineFault>
    ensures { result ≡ octets_of N word.now }
{
    if word.len() % 2 != 0 || word.len() / 2 != N {
        return Err(LineFault::Hex);
    }
    let mut octets = [0; N];
    let mut digits = 0;
    for i in 0..N {
        let high = digit_code(word[2 * i]);
        let low = digit_code(word[2 * i + 1]);
        octets[i] = (high % 256 * 16 + low % 256) as u8;
        digits += (high / 256 + low / 256) as usize;
    }
    if digits != word.len() {
        return Err(LineFault::Hex);
    }
    Ok(octets)
}
