//! A law of the field of bytes (FIPS 197, 4.2). It is about the definition only: the contract of a function with an
//! empty body.

ghost use Rattle.macsec_aes.specs.Laws.{InverseIsByte, OneInverse};

/// For each byte other than 0, exactly one byte gives the product 1 with it.
pub fn one_inverse()
    ensures byte { InverseIsByte }
    ensures only { OneInverse }
{}
