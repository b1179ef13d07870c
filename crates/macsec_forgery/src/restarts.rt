//! Each law is about definitions only: the contract of a function that does nothing. The ends renew keys, each run with
//! the option to reserve ahead of receiving or without it.

ghost use Rattle.macsec_forgery.specs.Histories.{AllowsEveryKey, FewKeysForgeByLength, FewKeysForgeInAnyHistory};
ghost use Rattle.macsec_forgery.specs.Histories.{OfAllSealed, SaysNothingIfOctets, UsesNoInputTwice};
ghost use Rattle.macsec_forgery.specs.OneFunction.{HidesAndRefusesIfOctets};
ghost use Rattle.macsec_forgery.specs.Restarts.{FewKeysForgeOverRestarts, ForgeryIsCountedOverRestarts};
ghost use Rattle.macsec_forgery.specs.Restarts.{GenuineOrForgedOverRestarts, OrderOrForgedOverRestarts};
ghost use Rattle.macsec_forgery.specs.Restarts.{OriginOrForgedOverRestarts};
ghost use Rattle.macsec_forgery.specs.Under.{SealedByBothHasAll, SealedByBothHasNoOther};

use macsec_restarts::laws::{
    comes_from_other_renewing, comes_in_order_if_kept_renewing, no_iv_at_both_renewing,
};
use macsec_secy::laws::protects_frames;
use macsec_tag::laws::reads_by_grammar;

/// In every history no tag is forged, or there is a first forged one, and the hash key is one of those that are
/// counted.
pub fn genuine_or_forged()
    ensures first { GenuineOrForgedOverRestarts }
    ensures counted { ForgeryIsCountedOverRestarts }
{}

/// What a strict end delivers was sent by the other end, in one of its runs, or a tag is forged.
pub fn origin_or_forged()
    ensures { OriginOrForgedOverRestarts }
{
    // The proof cites this law.
    comes_from_other_renewing();
}

/// What is delivered over all runs is in the order of sending, each frame at most once, or a tag is forged.
pub fn order_or_forged()
    ensures { OrderOrForgedOverRestarts }
{
    // The proof cites this law.
    comes_in_order_if_kept_renewing();
}

/// At most as many hash keys have this forgery as the longest message has blocks: one more than the longest link frame
/// has, and at most 579 in any history.
pub fn few_keys_forge()
    ensures within { FewKeysForgeOverRestarts }
    ensures by_length { FewKeysForgeByLength }
    ensures in_any_history { FewKeysForgeInAnyHistory }
{
    // The proof cites these laws.
    protects_frames();
    reads_by_grammar();
}

/// What two ends sealed allows every hash key, no input of AES is used twice under a key, except the block of zeros,
/// and the link says nothing of the encrypted octets but how many there are, if the function of blocks is not known.
/// Both are said of one function too (`both`): with each hash key some function shows of any other messages what the
/// link shows, and with all but few it makes no tag right that was not sealed. The premises are those of
/// `no_iv_at_both_renewing`.
pub fn two_ends_renew()
    ensures possible { OfAllSealed AllowsEveryKey }
    ensures inputs { OfAllSealed UsesNoInputTwice }
    ensures hidden { OfAllSealed SaysNothingIfOctets }
    ensures both { OfAllSealed HidesAndRefusesIfOctets }
{
    // The proof cites this law.
    no_iv_at_both_renewing();
}

/// What counts as sealed is all that each end has sealed, in any of its runs, and nothing else.
pub fn sealed_by_both_has_all()
    ensures all { SealedByBothHasAll }
    ensures alone { SealedByBothHasNoOther }
{}
