//! Laws of IVs and of frames in place. They are about definitions only: each is the contract of a function with an
//! empty body.

ghost use Rattle.std.specs.Prelude.{ℕ, List, Bool};
ghost use Rattle.macsec_tag.specs.Tag.{Tag};
ghost use Rattle.macsec_suite.specs.declared.suite.Suite.{Suite};
ghost use Rattle.macsec_suite.specs.Laws.{PartsInPlace};
ghost use Rattle.macsec_suite.specs.IvLaws.{EqualIvs, IvParts};

/// The octets of a frame in place that stay clear are the additional authenticated data of the frame's parts. The other
/// octets of its body are the plaintext.
pub fn parts_in_place()
    ensures { (offset : ℕ) (e : Bool) (da sa : List ℕ) (tag : Tag) (user_data : List ℕ) → PartsInPlace offset e da sa tag user_data }
{}

/// Under one suite, two frames with equal IVs have the same packet number. With 32-bit packet numbers they also have
/// the same SCI. With extended packet numbers and equal salts they have the same packet number and the same SSCI (IEEE
/// 802.1AE, 14.5 to 14.8).
pub fn equal_ivs()
    ensures { (suite : Suite) (p q : IvParts) → EqualIvs suite p q }
{}
