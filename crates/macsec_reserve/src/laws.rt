//! Laws of histories: each is the contract of a function that does nothing.

ghost use Rattle.std.specs.Prelude.{ℕ, List};
ghost use Rattle.macsec_reserve.specs.declared.reservation.Reservation.{Reservation};
ghost use Rattle.macsec_reserve.specs.Crashes.{ReadsWritten};
ghost use Rattle.macsec_reserve.specs.Entries.{SaysTheSame, reduced};
ghost use Rattle.macsec_commands.specs.declared.config.EndConfig.{EndConfig};
ghost use Rattle.macsec_reserve.specs.Histories.{Run, opening};
ghost use Rattle.macsec_tag.specs.declared.identifiers.Sci.{Sci};
ghost use Rattle.macsec_rx.specs.declared.RxRow.{RxRow};
ghost use Rattle.macsec_secy.specs.State.{State};
ghost use Rattle.macsec_secy.specs.Step.{Input};
ghost use Rattle.macsec_suite.specs.KeyRows.{InstalledKey};
ghost use Rattle.macsec_suite.specs.declared.key_row.NewKey.{NewKey};
ghost use Rattle.macsec_reserve.specs.Forgotten.{BecomesKnown, ForgetsAlike, IsAsBefore, RefusesKnown};
ghost use Rattle.macsec_reserve.specs.Forgotten.{RepeatsNoIvForgetting, StaysKnown};
ghost use Rattle.macsec_reserve.specs.OfKeys.{RepeatsNoIvOfKeys, RepeatsNoIvOfKeysForgetting};
ghost use Rattle.macsec_reserve.specs.Keeping.{Keeping, KeepingInput, alone};
ghost use Rattle.macsec_reserve.specs.Renewing.{GivesUpOctets, KeepsFloors, RefusesGivenUp, StaysGivenUp};
ghost use Rattle.macsec_reserve.specs.Renewing.{StaysGivenUpBy};
ghost use Rattle.macsec_reserve.specs.RenewingRuns.{OctetsHaveOneKey, RepeatsNoIvRenewing};
ghost use Rattle.macsec_reserve.specs.Replay.{DeliversAbove, NeverDeliversAgain, NeverDeliversAgainUnder};
ghost use Rattle.macsec_reserve.specs.Replay.{SavesAccepted};
ghost use Rattle.macsec_reserve.specs.Transparent.{IsTheMachine, IsTheMachineAlone};
ghost use Rattle.macsec_reserve.specs.TwoEnds.{RepeatsNoIvAtBoth, RepeatsNoIvAtBothAfterCrashes};
ghost use Rattle.macsec_reserve.specs.Unique.{RepeatsNoIv, RepeatsNoIvAfterCrashes};

use macsec_secy::laws::{
    keys_stay, protects_frames, retired_keys_decide_nothing, rows_agree, rx_rows_stay,
};
use macsec_suite::laws::equal_ivs;

/// Over all runs of a history, whatever the moment at which each ended, no two frames are sealed with the same key
/// octets and the same IV. Premises: every later run reads the same salt of the journal, and what was reported durable
/// to a run (`durable`), or its records, with any octets around them (`crashes`); and keys with the same octets have
/// the same suite and, with extended packet numbers, the same salt.
pub fn repeats_no_iv()
    ensures durable { (runs : List Run) → RepeatsNoIv runs }
    ensures crashes { (runs : List Run) → RepeatsNoIvAfterCrashes runs }
{
    // Laws that the proof cites; the calls do nothing.
    equal_ivs();
    keys_stay();
    protects_frames();
}

/// The same over all runs of two ends, each with its own journal. Premises, in addition to the premises of
/// `repeats_no_iv` for each end: the ends' SCIs differ, keys with the same octets at both agree as above, and with
/// extended packet numbers their own SSCIs differ.
pub fn repeats_no_iv_at_both()
    ensures durable { (runs others : List Run) → RepeatsNoIvAtBoth runs others }
    ensures crashes { (runs others : List Run) → RepeatsNoIvAtBothAfterCrashes runs others }
{
    // Laws that the proof cites; the calls do nothing.
    equal_ivs();
    keys_stay();
    protects_frames();
}

/// Every later run reads records that were appended to whole records, and everything before them, whatever octets a
/// crash leaves after them.
pub fn reads_written()
    ensures { (journal : List ℕ) (rs : List Reservation) (behind : List ℕ) → ReadsWritten journal rs behind }
{}

/// One entry for each name says of each name what the whole list says.
pub fn reduces()
    ensures { (rs : List Reservation) → SaysTheSame rs (reduced rs) }
{}

/// At each moment of a run a frame that is delivered while late frames are dropped has a packet number above all that
/// the journal had saved for its association when the run began.
pub fn delivers_above()
    ensures { (run : Run) (inputs : List KeepingInput) (frame : List ℕ) (row : RxRow) (delivered : List ℕ)
        → DeliversAbove run inputs frame row delivered }
{
    // A law that the proof cites; the call does nothing.
    rows_agree();
}

/// While the replay window is 0, what is to be saved of a receive association covers each packet number that it has
/// accepted.
pub fn saves_accepted()
    ensures { (salt : List ℕ) (s : State) (sci : Sci) (an : ℕ) (row : RxRow) (n : ℕ)
        → SavesAccepted salt s sci an row n }
{}

/// What a run accepted before it saved the association's number, at replay window 0, is not delivered again by a later
/// run that drops late frames. This holds for an association of that name or, if the journal keeps its salt, of those
/// key octets.
pub fn never_delivers_again()
    ensures named { (run later : Run) (name : List ℕ) (n : ℕ) → NeverDeliversAgain run later name n }
    ensures keyed { (run later : Run) (bytes : List ℕ) (sci : Sci) (an n : ℕ)
        → NeverDeliversAgainUnder run later bytes sci an n }
{
    // Laws that the proof cites; the calls do nothing.
    rows_agree();
    rx_rows_stay();
}

/// A keeping endpoint with an empty journal is the machine, if the packet numbers that an input uses are reserved.
/// Without a journal it always is.
pub fn is_the_machine()
    ensures reserved { (k : Keeping) (input : Input) → IsTheMachine k input }
    ensures alone { (k : Keeping) (input : Input) → IsTheMachineAlone k input }
{
    // Laws that the proof cites; the calls do nothing.
    equal_ivs();
    keys_stay();
    protects_frames();
}

/// An endpoint that forgets retired keys takes each step as before, except the retirement of a key and the
/// installation of octets that a retired key has or whose fingerprint it has (`before`). Over a whole run it seals the
/// same frames and gives the same answers as the endpoint that forgets none and is not given those installations, with
/// a journal (`alike`) or without one (`alone`). A new SA under a retired key is refused by both, with `KeyRetired` or
/// with `PnFloor`.
pub fn forgets_alike()
    ensures before { (k : Keeping) (input : KeepingInput) → IsAsBefore k input }
    ensures alike { (run : Run) → ForgetsAlike (opening run) run.inputs }
    ensures alone { (config : EndConfig) (inputs : List KeepingInput) → ForgetsAlike (alone config) inputs }
{
    // Laws that the proof cites; the calls do nothing.
    keys_stay();
    retired_keys_decide_nothing();
    rows_agree();
}

/// The octets of a key that was installed are known from then on, even once the key is forgotten. They are refused with
/// `KeyRepeated`, unless an earlier refusal applies.
pub fn refuses_forgotten_keys()
    ensures begins { (k : Keeping) (key : NewKey) → BecomesKnown k key }
    ensures stays { (k : Keeping) (input : KeepingInput) (bytes : List ℕ) → StaysKnown k input bytes }
    ensures refuses { (k : Keeping) (key : NewKey) → RefusesKnown k key }
{
    // Laws that the proof cites; the calls do nothing.
    keys_stay();
    retired_keys_decide_nothing();
    rows_agree();
}

/// When a new key takes the row of a retired one, the retired key's octets are given up: `Keeper::renew_forgetting`
/// refuses them from then on, also if only their fingerprint was left, whatever the inputs and the renewals are. No
/// floor changes: what an earlier run may have used stays refused, and nothing else is.
pub fn renewing_gives_up_octets()
    ensures gives_up { (k : Keeping) (key : NewKey) (bytes : List ℕ) → GivesUpOctets k key bytes }
    ensures stays { (k : Keeping) (key : NewKey) (bytes : List ℕ) → StaysGivenUp k key bytes }
    ensures forever { (k : Keeping) (input : KeepingInput) (bytes : List ℕ) → StaysGivenUpBy k input bytes }
    ensures refuses { (k : Keeping) (key : NewKey) → RefusesGivenUp k key }
    ensures floors { (k : Keeping) (key : NewKey) → KeepsFloors k key }
{}

/// One run of an endpoint that renews keys, with a journal or without one: each key is installed by
/// `Keeper::renew_forgetting`, and each other command is carried out by `Keeper::command_forgetting`. The first
/// promise: no two frames are sealed with the same key octets and the same IV, however many keys took the row of
/// another one (`ivs`). Octets of a key that was installed do not return: if an SA uses a key with these octets later,
/// it is that key, and the key's first unused packet number has not fallen (`octets`).
pub fn renews_keys_safely()
    ensures ivs { (k : Keeping) (inputs : List KeepingInput) → RepeatsNoIvRenewing k inputs }
    ensures octets { (k : Keeping) (inputs : List KeepingInput) (n : ℕ) (key : InstalledKey) (m : ℕ)
        (later : InstalledKey) → OctetsHaveOneKey k inputs n key m later }
{
    // Laws that the proof cites; the calls do nothing.
    equal_ivs();
    keys_stay();
    protects_frames();
    retired_keys_decide_nothing();
    rows_agree();
}

/// The first promise for endpoints that forget retired keys: over all runs of a history no two frames are sealed with
/// the same key octets and the same IV.
pub fn repeats_no_iv_forgetting()
    ensures { (runs : List Run) → RepeatsNoIvForgetting runs }
{
    // Laws that the proof cites; the calls do nothing.
    equal_ivs();
    keys_stay();
    protects_frames();
    retired_keys_decide_nothing();
    rows_agree();
}

/// The first promise with a weaker premise: a later run reads what was reported durable under the names of its own
/// keys. So names of keys that no later run has may leave the journal. It is of endpoints that forget no key (`kept`),
/// and of those that forget the keys that they retire (`forgetting`).
pub fn repeats_no_iv_of_keys()
    ensures kept { (runs : List Run) → RepeatsNoIvOfKeys runs }
    ensures forgetting { (runs : List Run) → RepeatsNoIvOfKeysForgetting runs }
{
    // Laws that the proof cites; the calls do nothing.
    equal_ivs();
    keys_stay();
    protects_frames();
    retired_keys_decide_nothing();
    rows_agree();
}
