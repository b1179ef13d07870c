//! Laws: each is the contract of a function that does nothing.

ghost use Rattle.std.specs.Prelude.{List, ℕ};
ghost use Rattle.macsec_tag.specs.declared.identifiers.Sci.{Sci};
ghost use Rattle.macsec_rx.specs.declared.RxRow.{RxRow};
ghost use Rattle.macsec_ahead.specs.Ahead.{Ahead};
ghost use Rattle.macsec_c_calls.specs.GivenUp.{Call};
ghost use Rattle.macsec_c_runs.specs.GivenOut.{AnswersAreOutputs, DeliversFromSasWhatIsListed, DeliversWhatIsListed};
ghost use Rattle.macsec_c_runs.specs.GivenOut.{SendsWhatIsListed};
ghost use Rattle.macsec_c_runs.specs.Runs.{AcceptsAboveOverCalls, AcceptsOnceOverCalls, CallRun};
ghost use Rattle.macsec_c_runs.specs.Runs.{IsWeaker, IsWeakerToAccept, NoIvOverCalls, NumbersRiseOverCalls};
ghost use Rattle.macsec_c_runs.specs.SingleCalls.{BeginsAboveItsEnd, DeliversAboveAccepted, DeliversEachListed};
ghost use Rattle.macsec_c_runs.specs.SingleCalls.{DeliversFromSas, KeepsEnds, NeverDeliversAgain};
ghost use Rattle.macsec_c_runs.specs.SingleCalls.{NeverDeliversAgainUnder, RefusesBelowEnd, RemembersEnd};
ghost use Rattle.macsec_c_runs.specs.SingleCalls.{SealsEachFrame};
ghost use Rattle.macsec_c_runs.specs.TwoEnds.{CallHappening, ComesFromOtherOverCalls, ComesInOrderIfReadOverCalls};
ghost use Rattle.macsec_c_runs.specs.TwoEnds.{ComesInOrderOverCalls, NoIvAtBothOverCalls, PeersAtEachOverCalls};

use macsec_restarts::laws::{
    begins_above_its_end_renewing, comes_from_other_renewing, comes_in_order_if_kept_renewing,
    delivers_above_accepted, lists_each_delivery_renewing, never_delivers_again_renewing,
    no_iv_at_both_renewing, no_iv_if_used_is_kept_renewing, numbers_rise_if_used_is_kept_renewing,
    seals_each_frame_renewing,
};

/// No IV twice over several runs of calls: `no_iv_if_used_is_kept_renewing` of `macsec_restarts`, for callers in C. A
/// key may also be installed by a command. Premises: each run is one (`IsRun`: its endpoint is sound at each moment, as
/// in each run that `make_run` makes); keys that SAs use in two runs and that have the same octets agree; and each
/// later run reads what was used before, under the names under which it sends.
pub fn no_iv_over_calls()
    ensures { (runs : List CallRun) → NoIvOverCalls runs }
{
    // The law that the proof cites; the call does nothing.
    no_iv_if_used_is_kept_renewing();
}

/// The packet numbers that are used under the octets of a key rise over all runs of calls. Premises: each run is one
/// (`IsRun`), and each later run reads what was used before, under the names under which it sends (`kept`). It is
/// enough that it reads the same salt, and what was reported durable (`weaker`).
pub fn numbers_rise_over_calls()
    ensures kept { (runs : List CallRun) → NumbersRiseOverCalls runs }
    ensures weaker { (run later : CallRun) → IsWeaker run later }
{
    // The law that the proof cites; the call does nothing.
    numbers_rise_if_used_is_kept_renewing();
}

/// What a later run of calls with `ahead` accepts from an SA has higher packet numbers than all that an earlier run
/// accepted from it, if the later run reads what was accepted before, of the SAs from which it accepts (`kept`). So no
/// packet number of an SA is accepted in two runs (`once`). If the earlier run had `ahead`, it is enough that the later
/// one reads the same salt, and what was reported durable (`weaker`).
pub fn accepts_above_over_calls()
    ensures kept { (runs : List CallRun) → AcceptsAboveOverCalls runs }
    ensures once { (runs : List CallRun) → AcceptsOnceOverCalls runs }
    ensures weaker { (run later : CallRun) → IsWeakerToAccept run later }
{}

// ---- two ends

/// No IV at both ends: `no_iv_at_both_renewing` of `macsec_restarts`, for callers in C. Premises: each end meets the
/// premises of `no_iv_over_calls`; the ends' SCIs differ; and keys that SAs use at both ends, and that have the same
/// octets, agree and, under an XPN suite, have different own SSCIs.
pub fn no_iv_at_both_over_calls()
    ensures { (ra rb : List CallRun) → NoIvAtBothOverCalls ra rb }
{
    // The law that the proof cites; the call does nothing.
    no_iv_at_both_renewing();
}

/// Origin: at each moment, the other end has sent each frame that an end delivered on an SA, under the same key octets
/// and with the same packet number. Premises: each run is one (`IsRun`); and wherever the end delivers a frame on an
/// SA, it validates strictly, the frame is octets, no ICV is forged, and the ends are peers so far: keys that SAs use
/// in any two runs, and that have the same octets, agree, and all runs of an end have its SCI and, under an XPN suite,
/// one own SSCI for the same key octets. Journals do not matter.
pub fn comes_from_other_over_calls()
    ensures { (events : List CallHappening) → ComesFromOtherOverCalls events }
{
    // The law that the proof cites; the call does nothing.
    comes_from_other_renewing();
}

/// Order, and each frame at most once: at each moment, what an end delivered over all runs under the octets of a key,
/// from one SCI and association number, is with its packet numbers a subsequence of what the other end sent under them.
/// Premises: those of `comes_from_other_over_calls`, and strict order, wherever the end delivers from this SA; and each
/// later run reads what was delivered before from the SA, if it delivers from it, and what was sent before under the
/// key octets, if it sends under them (`kept`). For any two runs it is enough that the later one reads the same salt
/// and what was reported durable, of the receiver if the earlier one had `ahead` (`read`). It is enough that the ends
/// are peers in the end (`peers`).
pub fn comes_in_order_over_calls()
    ensures kept { (events : List CallHappening) → ComesInOrderOverCalls events }
    ensures read { (events : List CallHappening) → ComesInOrderIfReadOverCalls events }
    ensures peers { (events : List CallHappening) → PeersAtEachOverCalls events }
{
    // The law that the proof cites; the call does nothing.
    comes_in_order_if_kept_renewing();
}

/// What a run accepted before it saved the SA's number, at replay window 0, is not delivered again by a later run that
/// drops late frames. Each of the two is one (`IsRun`). It holds for an SA of that name (`named`) or, if the journal
/// keeps its salt, of those key octets (`keyed`). The later run need only read what was reported durable under this one
/// name.
pub fn never_delivers_again_over_calls()
    ensures named { (run later : CallRun) (name : List ℕ) (n : ℕ) → NeverDeliversAgain run later name n }
    ensures keyed { (run later : CallRun) (bytes : List ℕ) (sci : Sci) (an n : ℕ) →
        NeverDeliversAgainUnder run later bytes sci an n }
{
    // The law that the proof cites; the call does nothing.
    never_delivers_again_renewing();
}

// ---- single calls

/// Where a call deletes an SA, its end is remembered (`remembers`) for the rest of the run, or until its key is given
/// up (`keeps`): at that end or below it the SA is not created under the key (`refuses`). So it begins above its end
/// (`begins`), unless the key was given up: then a new key may have the number.
pub fn begins_above_its_end_over_calls()
    ensures remembers { (e : Ahead) (call : Call) (row : RxRow) → RemembersEnd e call row }
    ensures keeps { (e : Ahead) (calls : List Call) (key : ℕ) (sci : Sci) (an : ℕ) → KeepsEnds e calls key sci an }
    ensures refuses { (e : Ahead) (sci : Sci) (an key ssci lowest : ℕ) → RefusesBelowEnd e sci an key ssci lowest }
    ensures begins { (e : Ahead) (call : Call) (calls : List Call) (row : RxRow) (ssci lowest : ℕ) →
        BeginsAboveItsEnd e call calls row ssci lowest }
{
    // The law that the proof cites; the call does nothing.
    begins_above_its_end_renewing();
}

/// The list of deliveries has one entry for each client frame that comes out from a receive SA (`listed`), and in the
/// mode Strict no frame is delivered at the controlled port without an SA (`strict`).
pub fn lists_each_delivery_over_calls()
    ensures listed { (e : Ahead) (call : Call) → DeliversEachListed e call }
    ensures strict { (e : Ahead) (call : Call) → DeliversFromSas e call }
{
    // The law that the proof cites; the call does nothing.
    lists_each_delivery_renewing();
}

/// Each protected frame that leaves is one use of the cipher, and has its octets. No other answer seals anything.
pub fn seals_each_frame_over_calls()
    ensures { (e : Ahead) (call : Call) → SealsEachFrame e call }
{
    // The law that the proof cites; the call does nothing.
    seals_each_frame_renewing();
}

// ---- within one run

/// Within one run of calls: after a frame is accepted from an SA, each frame that is delivered from the SA at a replay
/// window of 0, with replay protection on, has a higher packet number. So no frame is accepted twice. Premises: the run
/// is one (`IsRun`); and if the SA is deleted in between, the window was 0 at the earlier frame too. The mode does not
/// matter, nor who sealed the frames.
pub fn delivers_above_over_calls()
    ensures { (r : CallRun) (before : List Call) (call : Call) (between : List Call) (last : Call)
        (more : List Call) → DeliversAboveAccepted r before call between last more }
{
    // The law that the proof cites; the call does nothing.
    delivers_above_accepted();
}

// ---- whole runs

/// What a whole run of calls gives out. Its protected frames are those of the uses that are listed as sent (`sent`).
/// The client frames that it delivers from SAs are those that are listed as delivered (`from_sas`). Each list has each
/// frame once, in the order of the calls. If the mode is always Strict, no others are delivered at the controlled port
/// (`strict`). If each key is installed as a renewal, the answers are the outputs of the endpoint of `macsec_restarts`
/// (`outputs`).
pub fn gives_out_over_calls()
    ensures sent { (r : CallRun) → SendsWhatIsListed r }
    ensures from_sas { (r : CallRun) → DeliversFromSasWhatIsListed r }
    ensures strict { (r : CallRun) → DeliversWhatIsListed r }
    ensures outputs { (r : CallRun) → AnswersAreOutputs r }
{
    // Laws that the proof cites; the calls do nothing.
    seals_each_frame_over_calls();
    seals_each_frame_renewing();
    lists_each_delivery_over_calls();
}
