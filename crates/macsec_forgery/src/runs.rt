//! Each law is about definitions only: the contract of a function that does nothing.

ghost use Rattle.macsec_forgery.specs.Runs.{EveryKeyIsPossibleInRuns, OneOfFewKeys, OrderOrForged, OriginOrForged};
ghost use Rattle.macsec_forgery.specs.WholeRuns.{FewKeysForgeInWholeRun, OwnKeyForgesInRun, TriesHaveAll};

use macsec_link::laws::promises;
use macsec_tag::laws::reads_by_grammar;

/// What a strict end delivers was sent by the other end, and in that order, or a tag is forged.
pub fn origin_or_forged()
    ensures origin { OriginOrForged }
    ensures order { OrderOrForged }
{
    // The proof cites this law.
    promises();
}

/// If no IV is used twice, what was sealed allows every hash key.
pub fn every_key_is_possible()
    ensures { EveryKeyIsPossibleInRuns }
{
    // The proof cites this law.
    promises();
}

/// Of the hash keys, at most that many for each frame that is tried in a run have a forgery among these frames. If the
/// first forged tag of the run is under this key, the key's own hash key is one of them. No frame is left out whose tag
/// an end looks at.
pub fn few_keys_forge_in_whole_run()
    ensures few { FewKeysForgeInWholeRun }
    ensures own { OwnKeyForgesInRun }
    ensures tries { TriesHaveAll }
{
    // The proof cites these laws.
    promises();
    reads_by_grammar();
}

/// The hash key of a forged use's key is one of the at most 579, of all 2^128, that this use needs, if no IV is used
/// twice.
pub fn one_of_few_keys()
    ensures { OneOfFewKeys }
{
    // The proof cites these laws.
    promises();
    reads_by_grammar();
}
