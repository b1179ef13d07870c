//! Laws of GHASH (SP 800-38D, 6.4): the contracts of functions that do nothing.

ghost use Rattle.macsec_ghash.specs.Laws.{StartsFromZero, GoesBlockByBlock};
ghost use Rattle.macsec_ghash.specs.Powers.{GoesByPowers};

use macsec_field128::laws::{product_adds, product_associates, product_is_block};

/// The hash of no blocks is 0. One more block is added to the hash so far, and the sum is multiplied by the key.
pub fn ghash_by_steps()
    ensures none { StartsFromZero }
    ensures one_more { GoesBlockByBlock }
{}

/// Hashing more blocks is a sum of products with powers of the key, where the hash so far is added to the first of
/// these blocks.
pub fn ghash_by_powers()
    ensures { GoesByPowers }
{
    product_adds();
    product_associates();
    product_is_block();
}
