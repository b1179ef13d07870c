//! Each law is the contract of a function with an empty body.

ghost use Rattle.macsec_hash_keys.specs.Collisions.{BoundIsReached, FewCollisions};
ghost use Rattle.macsec_hash_keys.specs.Counting.{AllKeys, FewOfAllKeys, OwnKeyIsOfThem};
ghost use Rattle.macsec_hash_keys.specs.EachKey.{EachKeyHasForgery, EachKeyIsCounted, ForgeryBoundIsReached};
ghost use Rattle.macsec_hash_keys.specs.Field.{Commutes, HasInverses, NoZeroDivisors, OneIsNeutral};
ghost use Rattle.macsec_hash_keys.specs.Forgeries.{EveryKeyIsPossible, FewKeysHaveForgeries, ForgeryIsCounted};
ghost use Rattle.macsec_hash_keys.specs.Forgeries.{UnderHasAll};
ghost use Rattle.macsec_hash_keys.specs.Polynomials.{FewRoots};
ghost use Rattle.macsec_hash_keys.specs.Tags.{EmptyMessageHidesKey, FewKeysAccept, FewKeysForge, HashKeyIsBlock};
ghost use Rattle.macsec_hash_keys.specs.Tags.{OneMaskForEachKey, OpensIfTagIs, TagIsMaskedHash};

/// The blocks are a field: with the laws of `macsec_field128`, the product commutes, has a neutral element and
/// inverses, and is 0 only if a factor is.
pub fn blocks_are_a_field()
    ensures commutes { Commutes }
    ensures one { OneIsNeutral }
    ensures inverses { HasInverses }
    ensures no_zero_divisors { NoZeroDivisors }
{}

/// A polynomial over this field has at most as many roots as its degree.
pub fn few_roots()
    ensures { FewRoots }
{}

/// GHASH is almost XOR-universal over what GCM hashes for a tag: for two messages and any difference, at most as many
/// keys give their hashes this difference as the longer message has blocks, the block of lengths among them. Some
/// messages reach this bound.
pub fn few_collisions()
    ensures bound { FewCollisions }
    ensures reached { BoundIsReached }
{}

/// GCM's tag is the hash under the hash key of the AES key, added to the mask that AES gives for the IV; a ciphertext
/// opens exactly if its tag is this one. The hash key of a key of octets is a block.
pub fn tags_are_masked_hashes()
    ensures sealing { TagIsMaskedHash }
    ensures opening { OpensIfTagIs }
    ensures hash_key { HashKeyIsBlock }
{}

/// For few hash keys the tag of a message is right, if the mask is known. For few hash keys that one sealed message
/// allows, another message or tag is right under its mask, whatever that is.
pub fn few_keys_accept()
    ensures known_mask { FewKeysAccept }
    ensures but_of_empty { EmptyMessageHidesKey }
    ensures sealed_message { FewKeysForge }
{}

/// Whatever was sealed under a key, and whatever is tried, of messages with authenticated octets: at most n hash keys
/// for each try have a forgery, where n bounds the blocks of each. If no IV was used twice, what was sealed allows
/// every hash key, each with one mask for each IV.
pub fn few_keys_have_forgeries()
    ensures few { FewKeysHaveForgeries }
    ensures of_all { EveryKeyIsPossible }
    ensures one_mask { OneMaskForEachKey }
{}

/// If a use of the cipher opens that was not sealed under its key, the hash key is one of those that have a forgery.
pub fn forgery_is_counted()
    ensures { ForgeryIsCounted }
{}

/// Of the 2^128 hash keys, at most n for each try have a forgery. If a use of the cipher opens that was not sealed
/// under its key, the key's own hash key is one of them.
pub fn few_of_all_keys()
    ensures all { AllKeys }
    ensures few { FewOfAllKeys }
    ensures own { OwnKeyIsOfThem }
{}

/// Each hash key has forgeries: whatever was sealed without using an IV twice, a message whose additional authenticated
/// data is new has a tag that is a forgery under this key. For some messages as many keys as the bound says have one.
pub fn each_key_has_forgeries()
    ensures forgery { EachKeyHasForgery }
    ensures counted { EachKeyIsCounted }
    ensures reached { ForgeryBoundIsReached }
{}

/// What was sealed under a key is each use of the cipher that was sealed with its bytes, and no other.
pub fn under_has_all()
    ensures { UnderHasAll }
{}
