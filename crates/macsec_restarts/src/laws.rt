//! Laws: each is the contract of a function that does nothing.

ghost use Rattle.std.specs.Prelude.{ℕ, Bool, List};
ghost use Rattle.macsec_tx.specs.declared.TxRow.{TxRow};
ghost use Rattle.macsec_rx.specs.declared.RxRow.{RxRow};
ghost use Rattle.macsec_tag.specs.declared.identifiers.Sci.{Sci};
ghost use Rattle.macsec_commands.specs.declared.event.End.{End};
ghost use Rattle.macsec_secy.specs.Step.{Input};
ghost use Rattle.macsec_reserve.specs.declared.reservation.Reservation.{Reservation};
ghost use Rattle.macsec_reserve.specs.Keeping.{Keeping, KeepingInput};
ghost use Rattle.macsec_reserve.specs.Histories.{Run};
ghost use Rattle.macsec_journal.specs.World.{Event, Form};
ghost use Rattle.macsec_restarts.specs.Acceptance.{AcceptsInTime};
ghost use Rattle.macsec_rx.specs.declared.within.RxPn.{RxPn};
ghost use Rattle.macsec_ahead.specs.Ahead.{Ahead};
ghost use Rattle.macsec_restarts.specs.AheadForgetting.{StepsForgetting};
ghost use Rattle.macsec_restarts.specs.AheadSteps.{AsksWhereDropped, IsAsBefore, PassesOnceReserved};
ghost use Rattle.macsec_restarts.specs.AheadSteps.{StepsInside, WantsEnough};
ghost use Rattle.macsec_restarts.specs.Happenings.{Happening};
ghost use Rattle.macsec_restarts.specs.OnDisk.{RisesOnDiskRenewing};
ghost use Rattle.macsec_restarts.specs.OneRun.{DeliversAboveAccepted};
ghost use Rattle.macsec_restarts.specs.OnDiskOrder.{ComesInOrderOnDisk, HasTheRuns, JournalHistory, KeepsUsedInAll};
ghost use Rattle.macsec_restarts.specs.OnDiskOrder.{NoIvAtBothOnDisk, NoIvOnDisk, TwoJournals};
ghost use Rattle.macsec_restarts.specs.Kept.{RunWith};
ghost use Rattle.macsec_restarts.specs.RenewingOrder.{ComesFromOtherRenewing, ComesInOrderIfKeptRenewing};
ghost use Rattle.macsec_restarts.specs.RenewingOrder.{ComesInOrderIfReadRenewing, IsWeakerToDeliverWith};
ghost use Rattle.macsec_restarts.specs.RenewingOrder.{IsWeakerToSendWith, NoIvAtBothRenewing, PeersAtEachRenewing};
ghost use Rattle.macsec_restarts.specs.RenewingEnds.{BeginsAboveItsEnd, KeepsEndsRenewing};
ghost use Rattle.macsec_restarts.specs.RenewingEnds.{NeverDeliversAgainRenewing, NeverDeliversAgainUnderRenewing};
ghost use Rattle.macsec_restarts.specs.RenewingEnds.{RefusesBelowEndRenewing, RemembersEndRenewing};
ghost use Rattle.macsec_restarts.specs.RenewingLists.{DeliversEachListedRenewing, DeliversFromSasRenewing};
ghost use Rattle.macsec_restarts.specs.RenewingLists.{SealsEachFrameRenewing};
ghost use Rattle.macsec_restarts.specs.RenewingOutputs.{DeliversFromSasWhatIsListed, DeliversWhatIsListed};
ghost use Rattle.macsec_restarts.specs.RenewingOutputs.{SendsWhatIsListed};
ghost use Rattle.macsec_restarts.specs.RenewingRuns.{AcceptsAboveIfKeptWith, IsWeakerToAcceptWith, IsWeakerWith};
ghost use Rattle.macsec_restarts.specs.RenewingRuns.{NoIvIfUsedIsKeptRenewing, NoIvIfUsedIsKeptWith};
ghost use Rattle.macsec_restarts.specs.RenewingRuns.{RisesIfUsedIsKeptRenewing, RisesIfUsedIsKeptWith};
ghost use Rattle.macsec_restarts.specs.RenewingRuns.{StepsRenewing};
ghost use Rattle.macsec_restarts.specs.Sent.{ListsEachUse};

use macsec_journal::laws::keeps_history;
use macsec_reserve::laws::{
    refuses_forgotten_keys, renewing_gives_up_octets, renews_keys_safely, saves_accepted,
};
use macsec_secy::laws::{accepts_sent, delivers_in_time, keys_stay, protects_frames, rx_rows_stay};
use macsec_suite::laws::equal_ivs;
use macsec_tag::laws::reads_by_grammar;

/// The frame that one endpoint's SA makes of a client frame is accepted by another endpoint, at any moments of any runs
/// of the two. Premises: both are sound, and the receive SA matches, is enabled, and finds the packet number not late
/// nor, under an XPN suite, too far ahead (`CanAccept`).
pub fn accepts_in_time()
    ensures { (sender receiver : Keeping) (client : List ℕ) (tx : TxRow) (rx : RxRow) (behind : List ℕ) →
        AcceptsInTime sender receiver client tx rx behind }
{
    // The law that the proof cites; the call does nothing.
    accepts_sent();
}

/// An endpoint that can reserve ahead of receiving takes each step of the keeping endpoint inside, or nothing changes
/// (`step`). Without the option it differs only where a command creates an SA again at a packet number which the run
/// may have accepted (`before`). If it forgets retired keys, or renews keys, it takes the steps of the keeping endpoint
/// that does so (`forgetting`, `renewing`). A frame or a report takes the same step in all three.
pub fn is_keeping_inside()
    ensures step { (a : Ahead) (input : KeepingInput) → StepsInside a input }
    ensures before { (a : Ahead) (input : Input) → IsAsBefore a input }
    ensures forgetting { (a : Ahead) (input : KeepingInput) → StepsForgetting a input }
    ensures renewing { (a : Ahead) (input : KeepingInput) → StepsRenewing a input }
{}

/// A frame that was dropped because its packet number was not reserved asks for a record (`asks`). Such a record
/// reaches the packet number (`enough`), and once it is durable the frame passes (`passes`).
pub fn accepts_once_reserved()
    ensures asks { (a : Ahead) (frame : List ℕ) (amount : ℕ) (row : RxRow) (at : RxPn) →
        AsksWhereDropped a frame amount row at }
    ensures enough { (a : Ahead) (amount next : ℕ) (row : RxRow) (r : Reservation) → WantsEnough a amount next row r }
    ensures passes { (a : Ahead) (frame : List ℕ) (row : RxRow) (delivered : List ℕ) (r : Reservation) →
        PassesOnceReserved a frame row delivered r }
{
    // The law that the proof cites; the call does nothing.
    delivers_in_time();
}

// ---- endpoints that renew keys: a new key may take the row of a retired one, and retired keys are forgotten

/// No IV twice over several runs of an endpoint that renews keys, each run with the option to reserve ahead of
/// receiving or without it (`kept`), and of the `Keeper` (`keeper`). Each key is installed as a renewal, so a run
/// may have any number of keys. Premises: the endpoint is sound at each moment; keys that SAs use in two runs, and
/// that have the same octets, agree; and each later run reads what was used before, under the names under which it
/// sends. For the last of these it is enough that it reads the same salt, and what was reported durable (`weaker`
/// of `numbers_rise_if_used_is_kept_renewing`, of `kept` alone).
pub fn no_iv_if_used_is_kept_renewing()
    ensures keeper { (runs : List Run) → NoIvIfUsedIsKeptRenewing runs }
    ensures kept { (runs : List RunWith) → NoIvIfUsedIsKeptWith runs }
{
    // Laws that the proof cites; the calls do nothing.
    equal_ivs();
    keys_stay();
    rx_rows_stay();
    protects_frames();
    delivers_in_time();
    renews_keys_safely();
}

/// The packet numbers that an endpoint which renews keys uses under the octets of a key rise over all its runs, with
/// the option or without it (`kept`), and so do those of the `Keeper` (`keeper`), if the endpoint is sound at each
/// moment, and each later run reads what was used before, under the names under which it sends. For `kept` it is enough
/// that it reads the same salt, and what was reported durable (`weaker`).
pub fn numbers_rise_if_used_is_kept_renewing()
    ensures keeper { (runs : List Run) → RisesIfUsedIsKeptRenewing runs }
    ensures kept { (runs : List RunWith) → RisesIfUsedIsKeptWith runs }
    ensures weaker { (run later : RunWith) → IsWeakerWith run later }
{
    // Laws that the proof cites; the calls do nothing.
    equal_ivs();
    keys_stay();
    rx_rows_stay();
    protects_frames();
    delivers_in_time();
    renews_keys_safely();
}

/// What a later run with the option accepts from an SA has higher packet numbers than all that an earlier run accepted
/// from it, of an endpoint that renews keys, if the later run reads what was accepted before, of the SAs from which it
/// accepts (`kept`). If the earlier run had the option, it is enough that the later one reads the same salt, and what
/// was reported durable (`weaker`).
pub fn accepts_above_if_kept_renewing()
    ensures kept { (runs : List RunWith) → AcceptsAboveIfKeptWith runs }
    ensures weaker { (run later : RunWith) → IsWeakerToAcceptWith run later }
{}

/// Within one run of an endpoint that renews keys, with the option or without it: after a frame is accepted from an SA,
/// each frame that is delivered from the SA at a replay window of 0, with replay protection on, has a higher packet
/// number. So no frame is accepted twice. Premises: the endpoint is sound at each moment; and if the SA is deleted in
/// between, the window was 0 at the earlier frame too. The mode does not matter, nor who sealed the frames.
pub fn delivers_above_accepted()
    ensures { (a : Ahead) (input : KeepingInput) (inputs : List KeepingInput) (last : KeepingInput) →
        DeliversAboveAccepted a input inputs last }
{
    // Laws that the proof cites; the calls do nothing.
    equal_ivs();
    keys_stay();
    rx_rows_stay();
    protects_frames();
    delivers_in_time();
    refuses_forgotten_keys();
    renewing_gives_up_octets();
}

/// Over a journal on a disk that fails (`macsec_journal`), a later run sends under a key, and accepts from a receive
/// SA, only higher packet numbers than an earlier run did, if the name of the key or of the SA was not let go between
/// their beginnings. No other name matters. Each run reserves ahead of receiving or not; for what is accepted both do.
pub fn rises_on_disk_renewing()
    ensures { (form : Form) (salt : List ℕ) (events : List Event) → RisesOnDiskRenewing form salt events }
{
    // The law that the proof cites; the call does nothing.
    keeps_history();
}

/// No IV at both ends, of endpoints that renew keys, each run with the option or without it. Premises: each end meets
/// the premises of `no_iv_if_used_is_kept_renewing`; the ends' SCIs differ; and keys that SAs use at both ends, and
/// that have the same octets, agree and, under an XPN suite, have different own SSCIs.
pub fn no_iv_at_both_renewing()
    ensures { (ra rb : List RunWith) → NoIvAtBothRenewing ra rb }
{
    // Laws that the proof cites; the calls do nothing.
    equal_ivs();
    keys_stay();
    rx_rows_stay();
    protects_frames();
    delivers_in_time();
    renews_keys_safely();
}

/// Origin, of endpoints that renew keys: at each moment, the other end has sent each frame that an end delivered on an
/// SA, under the same key octets and with the same packet number. Premises: both ends are sound at each moment; and
/// wherever the end delivers a frame on an SA, it validates strictly, the frame is octets, no ICV is forged, and the
/// ends are peers so far: keys that SAs use in any two runs, and that have the same octets, agree, and all runs of an
/// end have its SCI and, under an XPN suite, one own SSCI for the same key octets. Journals do not matter.
pub fn comes_from_other_renewing()
    ensures { (ahead : End → ℕ → Bool) (events : List Happening) → ComesFromOtherRenewing ahead events }
{
    // Laws that the proof cites; the calls do nothing.
    reads_by_grammar();
    equal_ivs();
    keys_stay();
    rx_rows_stay();
    protects_frames();
    delivers_in_time();
    renews_keys_safely();
}

/// Order, and each frame at most once, of endpoints that renew keys: at each moment, what an end delivered over all
/// runs under the octets of a key, from one SCI and association number, is with its packet numbers a subsequence of
/// what the other end sent under them. Premises: those of `comes_from_other_renewing`, and strict order, wherever the
/// end delivers from this SA; and each later run reads what was delivered before from the SA, if it delivers from it,
/// and what was sent before under the key octets, if it sends under them (`kept`). What was reported durable need not
/// be read; but it suffices (`sends`, `delivers`), for any two runs, of the receiver if the earlier one had the option
/// (`read`). Nothing is asked of other names. So a journal may lose the names of keys that do not come again, and an
/// endpoint that takes over may begin below what the one before it had reserved. It is enough that the ends are peers
/// in the end (`peers`).
pub fn comes_in_order_if_kept_renewing()
    ensures kept { (ahead : End → ℕ → Bool) (events : List Happening) → ComesInOrderIfKeptRenewing ahead events }
    ensures read { (ahead : End → ℕ → Bool) (events : List Happening) → ComesInOrderIfReadRenewing ahead events }
    ensures sends { (bytes : List ℕ) (r later : RunWith) → IsWeakerToSendWith bytes r later }
    ensures delivers { (bytes : List ℕ) (sci : Sci) (an : ℕ) (r later : RunWith) →
        IsWeakerToDeliverWith bytes sci an r later }
    ensures peers { (ahead : End → ℕ → Bool) (events : List Happening) → PeersAtEachRenewing ahead events }
{
    // Laws that the proof cites; the calls do nothing.
    reads_by_grammar();
    equal_ivs();
    keys_stay();
    rx_rows_stay();
    protects_frames();
    delivers_in_time();
    refuses_forgotten_keys();
    renewing_gives_up_octets();
    renews_keys_safely();
}

/// The list of what an endpoint that renews keys delivered has one entry for each client frame that comes out from a
/// receive SA, and no other output adds to it (`listed`). In the mode Strict no frame is delivered at the controlled
/// port without an SA (`strict`).
pub fn lists_each_delivery_renewing()
    ensures listed { (a : Ahead) (input : KeepingInput) → DeliversEachListedRenewing a input }
    ensures strict { (a : Ahead) (input : KeepingInput) → DeliversFromSasRenewing a input }
{}

/// Each protected frame that leaves an endpoint that renews keys is one use of the cipher, and has its octets. No other
/// output seals anything (`leaves`). The list of what was sent has one entry for each use, with that use (`listed`).
pub fn seals_each_frame_renewing()
    ensures leaves { (a : Ahead) (input : KeepingInput) → SealsEachFrameRenewing a input }
    ensures listed { (k : Keeping) (input : KeepingInput) → ListsEachUse k input }
{}

/// Where a step of an endpoint that renews keys deletes a receive SA, its end is remembered (`remembers`) for the rest
/// of the run, or until its key is given up (`keeps`): at that end or below it the SA is not created under the key
/// (`refuses`). So it begins above its end (`begins`), unless the key was given up: then a new key may have the number.
pub fn begins_above_its_end_renewing()
    ensures remembers { (a : Ahead) (input : KeepingInput) (row : RxRow) → RemembersEndRenewing a input row }
    ensures keeps { (a : Ahead) (inputs : List KeepingInput) (key : ℕ) (sci : Sci) (an : ℕ) →
        KeepsEndsRenewing a inputs key sci an }
    ensures refuses { (a : Ahead) (sci : Sci) (an key ssci lowest : ℕ) →
        RefusesBelowEndRenewing a sci an key ssci lowest }
    ensures begins { (a : Ahead) (input : KeepingInput) (inputs : List KeepingInput) (row : RxRow) (ssci lowest : ℕ) →
        BeginsAboveItsEnd a input inputs row ssci lowest }
{}

/// What a run accepted before it saved the SA's number, at replay window 0, is not delivered again by a later run that
/// drops late frames, of endpoints that renew keys. Each run has the option to reserve ahead of receiving, or it does
/// not. It holds for an SA of that name (`named`) or, if the journal keeps its salt, of those key octets (`keyed`). The
/// later run need only read what was reported durable under this one name.
pub fn never_delivers_again_renewing()
    ensures named { (run later : RunWith) (name : List ℕ) (n : ℕ) → NeverDeliversAgainRenewing run later name n }
    ensures keyed { (run later : RunWith) (bytes : List ℕ) (sci : Sci) (an n : ℕ) →
        NeverDeliversAgainUnderRenewing run later bytes sci an n }
{
    // Laws that the proof cites; the calls do nothing.
    delivers_in_time();
    saves_accepted();
}

/// What a whole run gives out, of endpoints that renew keys. Its protected frames are those of the uses that are listed
/// as sent, each once and in their order: additional data, ciphertext and tag of the use (`sent`). The client frames
/// that it delivers from SAs are those that are listed as delivered, each once and in their order (`from_sas`). If the
/// mode is always Strict, it delivers no others at the controlled port (`strict`).
pub fn gives_out_what_is_listed()
    ensures sent { (r : RunWith) → SendsWhatIsListed r }
    ensures from_sas { (r : RunWith) → DeliversFromSasWhatIsListed r }
    ensures strict { (r : RunWith) → DeliversWhatIsListed r }
{}

// ---- over the journal of `macsec_journal`, on a disk that fails: no premise is about what a later run reads

/// Over a journal on a disk that fails, each later run reads what earlier runs sent and accepted, under each name that
/// was not let go between the beginnings of the two runs: the premises on journals of
/// `no_iv_if_used_is_kept_renewing`, `accepts_above_if_kept_renewing` and `comes_in_order_if_kept_renewing`. For what
/// is accepted the earlier run reserved ahead of receiving. Each run has this option, or it does not.
pub fn keeps_used_on_disk()
    ensures { (ahead : ℕ → Bool) (journal : JournalHistory) → KeepsUsedInAll ahead journal }
{
    // The law that the proof cites; the call does nothing.
    keeps_history();
}

/// `no_iv_if_used_is_kept_renewing` for the runs over such a journal. In place of what a later run reads, the premise
/// is that no name was let go between the beginnings of two runs that both send under its key.
pub fn no_iv_on_disk()
    ensures { (ahead : ℕ → Bool) (journal : JournalHistory) → NoIvOnDisk ahead journal }
{
    // Laws that the proof cites; the calls do nothing.
    equal_ivs();
    keys_stay();
    rx_rows_stay();
    protects_frames();
    delivers_in_time();
    renews_keys_safely();
    keeps_history();
}

/// `no_iv_at_both_renewing` for the runs of two ends, over such a journal at each.
pub fn no_iv_at_both_on_disk()
    ensures { (ahead other : ℕ → Bool) (journal theirs : JournalHistory) →
        NoIvAtBothOnDisk ahead other journal theirs }
{
    // Laws that the proof cites; the calls do nothing.
    equal_ivs();
    keys_stay();
    rx_rows_stay();
    protects_frames();
    delivers_in_time();
    renews_keys_safely();
    keeps_history();
}

/// `comes_in_order_if_kept_renewing` for two ends, over such a journal at each, whatever happens to both in one order
/// of time (`order`). The runs of each end are those that were begun over its journal (`runs`). In place of what a
/// later run reads, the premises are that no name was let go between the beginnings of two runs of the sender that both
/// send under the key, nor of two runs of the receiver that both deliver from the SA, and that the earlier one of the
/// receiver reserved ahead of receiving.
pub fn comes_in_order_on_disk()
    ensures runs { (two : TwoJournals) (e : End) → HasTheRuns two e }
    ensures order { (ahead : End → ℕ → Bool) (two : TwoJournals) → ComesInOrderOnDisk ahead two }
{
    // Laws that the proof cites; the calls do nothing.
    reads_by_grammar();
    equal_ivs();
    keys_stay();
    rx_rows_stay();
    protects_frames();
    delivers_in_time();
    refuses_forgotten_keys();
    renewing_gives_up_octets();
    renews_keys_safely();
    keeps_history();
}
