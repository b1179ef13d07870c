//! Laws of the product of two blocks and of its two steps. They are about definitions only: each is the contract of a
//! function with an empty body.

ghost use Rattle.macsec_field128.specs.Carryless.{CarrylessLaws, ProductIsResidue, ResidueAdds};
ghost use Rattle.macsec_field128.specs.Laws.{AddsInFirst, AddsInSecond, Associates, ProductIsBlock};

/// The product distributes over sums, in either factor.
pub fn product_adds()
    ensures first { AddsInFirst }
    ensures second { AddsInSecond }
{}

/// The product with a block of 128 bits has 128 bits.
pub fn product_is_block()
    ensures { ProductIsBlock }
{}

/// The product of three blocks does not depend on which two are multiplied first.
pub fn product_associates()
    ensures { Associates }
{}

/// The carryless product distributes over sums in both factors, is shifted left when a factor is, and with 1 is the
/// other factor.
pub fn carryless_laws()
    ensures { CarrylessLaws }
{}

/// The residue of a sum is the sum of the residues.
pub fn residue_adds()
    ensures { ResidueAdds }
{}

/// The product of two blocks is the residue of their carryless product.
pub fn product_is_residue()
    ensures { ProductIsResidue }
{}
