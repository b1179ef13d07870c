//! Laws of the machine. They are about the definitions alone; each is the contract of a function that does nothing.

ghost use Rattle.std.specs.Prelude.{ℕ, List};
ghost use Rattle.macsec_tag.specs.declared.identifiers.Sci.{Sci};
ghost use Rattle.macsec_tx.specs.declared.TxRow.{TxRow};
ghost use Rattle.macsec_rx.specs.declared.RxRow.{RxRow};
ghost use Rattle.macsec_commands.specs.declared.config.EndConfig.{EndConfig};
ghost use Rattle.macsec_secy.specs.State.{State, start};
ghost use Rattle.macsec_secy.specs.Agrees.{Agrees};
ghost use Rattle.macsec_secy.specs.Sound.{IsSound};
ghost use Rattle.macsec_secy.specs.Step.{Input, Output, client_frame, step};
ghost use Rattle.macsec_secy.specs.Frames.{HasFrameLengths, HasLengthsFrom};
ghost use Rattle.macsec_secy.specs.Laws.{UsesNoNumberTwice, UsesRisingNumbers};
ghost use Rattle.macsec_secy.specs.Accepts.{AcceptsSent};
ghost use Rattle.macsec_secy.specs.Kept.{KeysAreApart, KeysStay, RxRowStays, RxRowsAreApart};
ghost use Rattle.macsec_secy.specs.GivenUp.{GivesUp, StaysGivenUp, StaysReplaced, StepsAlike};
ghost use Rattle.macsec_rx.specs.declared.OpenJob.{OpenJob};
ghost use Rattle.macsec_rx.specs.declared.OpenedFrame.{OpenedFrame};
ghost use Rattle.macsec_tx.specs.declared.SealJob.{SealJob};
ghost use Rattle.macsec_secy.specs.Jobs.{KeyStaysPrepared, OpensLater, SealsLater};
ghost use Rattle.macsec_secy.specs.Protects.{Protects};
ghost use Rattle.macsec_suite.specs.declared.key_row.NewKey.{NewKey};
ghost use Rattle.macsec_secy.specs.Renewing.{KeepsAllButKeys, KeepsOtherKeys, TakesNewOctets, TakesNoKeyInUse};
ghost use Rattle.macsec_secy.specs.Delivers.{DeliversFrom};

use macsec_gcm::laws::{open_undoes_seal, sealed_lengths, sealing_is_injective};
use macsec_tag::laws::read_again;
use macsec_tx::laws::read_as_sent;

/// For every list of inputs since the creation of an endpoint, the packet numbers used under a key number rise in the
/// order of their use. So none is used twice.
pub fn uses_no_number_twice()
    ensures rising { (config : EndConfig) (inputs : List Input) → UsesRisingNumbers config inputs }
    ensures no_two { (config : EndConfig) (inputs : List Input) → UsesNoNumberTwice config inputs }
{}

/// The rows of the tables agree at creation, and every input keeps it so.
pub fn rows_agree()
    ensures start { (config : EndConfig) → Agrees (start config) }
    ensures step { (s : State) (input : Input) → Agrees s → Agrees (step s input).1 }
{}

/// In every state for which `IsSound` holds, and for every input, a frame that is sent or shown has 14 to 9,248 octets.
/// A delivered frame is no longer than the received one.
pub fn lengths_of_frames()
    ensures { (s : State) (input : Input) → IsSound s → HasFrameLengths (step s input).0 }
{
    // The proof cites these laws; the calls do nothing.
    open_undoes_seal();
    sealed_lengths();
    read_as_sent();
}

/// In every state for which `IsSound` holds, a client frame that is sent unprotected keeps its length, and a protected
/// one is 24 to 32 octets longer.
pub fn lengths_of_protected_frames()
    ensures { (s : State) (frame : List ℕ) → IsSound s → HasLengthsFrom frame (step s (client_frame frame)).0 }
{
    // The proof cites this law; the call does nothing.
    read_as_sent();
}

/// A protected frame that one endpoint sends is accepted by another endpoint and gives the client frame; if its SL is
/// not 0, also with octets after it. The premises: the receiver validates frames; its SA for the frame is enabled, and
/// that SA's key matches the sender's; the packet number is not late nor, if it is extended, too high to be recovered.
/// The frame is read as its parts, with the octets after it as padding. Step 13 of reception decides, with the sender's
/// packet number, and opens the same use of the cipher that the sender sealed.
pub fn accepts_sent()
    ensures { (sender receiver : State) (client : List ℕ) (tx : TxRow) (rx : RxRow) (behind : List ℕ) → AcceptsSent sender receiver client tx rx behind }
{
    // The proof cites these laws; the calls do nothing.
    open_undoes_seal();
    sealed_lengths();
    read_again();
    read_as_sent();
}

/// In every state for which `IsSound` holds, no two keys have the same number or the same bytes. Every input keeps the
/// configuration. It also keeps each key with its number, suite, bytes, salt, own SSCI and offset; the key's first
/// unused packet number does not fall.
pub fn keys_stay()
    ensures apart { (s : State) → IsSound s → KeysAreApart s.keys }
    ensures stay { (s : State) (input : Input) → IsSound s → KeysStay s (step s input).1 }
{}

/// From the command on that retires a key, it stays retired and no SA uses it, whatever the inputs are and whichever key
/// `replace_key` gives other octets. Its octets then decide nothing but the refusal `KeyRepeated`: with any other octets
/// in its row every input has the same output, and the same state after it except for those octets, unless it installs a
/// key that only one of the two states has.
pub fn retired_keys_decide_nothing()
    ensures begins { (s : State) (n : ℕ) → GivesUp s n }
    ensures stays { (s : State) (n : ℕ) (input : Input) → StaysGivenUp s n input }
    ensures replaced { (s : State) (m n : ℕ) (bytes : List ℕ) → StaysReplaced s m n bytes }
    ensures alike { (s : State) (n : ℕ) (bytes : List ℕ) (input : Input) → StepsAlike s n bytes input }
{}

/// A new key that takes the number of a retired key changes nothing but that key's row: every other key stays, with its
/// first unused packet number, and so do all SAs, options and counters. It takes no number of a key that an SA uses or that
/// is not retired, and brings no octets that a key in the table has.
pub fn renewing_changes_one_key()
    ensures others { (s : State) (key : NewKey) (n : ℕ) → KeepsOtherKeys s key n }
    ensures all_but_keys { (s : State) (key : NewKey) → KeepsAllButKeys s key }
    ensures in_use { (s : State) (key : NewKey) → TakesNoKeyInUse s key }
    ensures octets { (s : State) (key : NewKey) → TakesNewOctets s key }
{}

/// In every state for which `IsSound` holds, a receive SA is the only one with its SC and number. After every input
/// there is still an SA with that SC and number, and its next packet number is no lower, until a command deletes the SA
/// or its SC.
pub fn rx_rows_stay()
    ensures apart { (s : State) → IsSound s → RxRowsAreApart s.rx.rows }
    ensures stay { (s : State) (input : Input) (sci : Sci) (an n : ℕ) → RxRowStays s input sci an n }
{}

/// In every state for which `IsSound` holds, the packet number under which a client frame is protected was never used
/// under the key, is at most the suite's last one, and is recorded as used afterwards. The protected frame is read as
/// the parts that were sent. Whoever opens it, with whatever offset, gets the client frame.
pub fn protects_frames()
    ensures { (s : State) (frame : List ℕ) (row : TxRow) → Protects s frame row }
{
    // The proof cites these laws; the calls do nothing.
    open_undoes_seal();
    sealing_is_injective();
    sealed_lengths();
    read_as_sent();
}

/// In every state for which `IsSound` holds, a frame delivered from a receive SA is delivered from the SA that is
/// enabled for it, and that SA belongs to another sender. If replay protection is enabled, the frame's packet number is
/// not late. The SA's next packet number exceeds its lowest acceptable one by at most the replay window. If step 13 of
/// reception decided, the next packet number is above the frame's afterwards. In the mode Strict step 13 did decide,
/// and the cipher opened what is delivered (IEEE 802.1AE, 10.6).
pub fn delivers_in_time()
    ensures { (s : State) (frame : List ℕ) (row : RxRow) (delivered : List ℕ) → DeliversFrom s frame row delivered }
{}

/// Whatever the inputs between a plan and its job are: a key stays as it was prepared, a job seals the frame that it
/// was planned for, and what was opened with the job's key can be used by `finish_receive`.
pub fn jobs_stay()
    ensures keys { (s : State) (inputs : List Input) (n : ℕ) → KeyStaysPrepared s inputs n }
    ensures seals { (s : State) (inputs : List Input) (job : SealJob) (frame : List ℕ) (output : Output) → SealsLater s inputs job frame output }
    ensures opens { (s : State) (inputs : List Input) (opened : OpenedFrame) (job : OpenJob) (frame out : List ℕ) → OpensLater s inputs opened job frame out }
{}
