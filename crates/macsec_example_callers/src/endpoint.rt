//! Creates an endpoint, gives it a key and SAs, sends, receives, and reads its counters.

ghost use Rattle.std.specs.Prelude.{◌≡◌, IfOk, option_map};
ghost use Rattle.macsec_secy.specs.Answers.{rx_counters_of};
ghost use Rattle.macsec_secy.specs.Sound.{IsSound};
ghost use Rattle.macsec_secy.specs.Step.{client_frame, link_frame, step};
ghost use Rattle.macsec_example_callers.specs.Answers.{octets_leaving, passes};
ghost use Rattle.macsec_example_callers.specs.Ready.{key_of, ready_receiver, ready_sender};

use macsec_secy::{
    An, Command, EndConfig, FrameFault, Key, KeyNumber, NewFault, NewKey, Refusal, Sci, Secy, Sent,
    Suite, TagForm, Verdict,
};
use std::alloc::Global;
use thiserror::Error;

/// Why an endpoint is not ready to send or to receive.
#[derive(Clone, Copy, Debug, Error)]
pub enum SetupFault {
    /// It was not created.
    #[error(transparent)]
    New(#[from] NewFault),
    /// It refused a command.
    #[error(transparent)]
    Refused(#[from] Refusal),
}

/// The number of the key of both ends.
pub fn key_number() -> KeyNumber
    ensures { result ≡ 0 }
{
    KeyNumber::new(0).unwrap()
}

/// A key for GCM-AES-128, with number 0 and confidentiality offset 0.
pub fn key_of(bytes: [u8; 16]) -> NewKey
    ensures { result ≡ key_of bytes }
{
    NewKey {
        number: key_number(),
        bytes: Key::K128(bytes),
        salt: [0; 12],
        ssci: 0,
        offset: 0,
        suite: None,
    }
}

/// The association number of both ends.
pub fn association_number() -> An
    ensures { result ≡ 0 }
{
    An::new(0).unwrap()
}

/// An endpoint with this SCI that protects client frames under a key, encrypted, from packet number 1 on.
pub fn sender(alloc: Global, sci: Sci, bytes: [u8; 16]) -> Result<Secy, SetupFault>
    ensures ready { IfOk result (λ s. s ≡ ready_sender sci bytes) }
    ensures sound { IfOk result IsSound }
{
    let mut secy = Secy::new(
        alloc,
        EndConfig {
            suite: Suite::Gcm128,
            sci,
            max_frame: 1518,
            form: TagForm::Sci,
        },
    )?;
    let an = association_number();
    secy.command(&Command::Key(key_of(bytes)))?;
    secy.command(&Command::TxSa {
        an,
        key: key_number(),
        next: 1,
        conf: true,
    })?;
    secy.command(&Command::TxOn(an))?;
    Ok(secy)
}

/// An endpoint with this SCI that receives what that sender sends, in the mode Strict with a replay window of 0. These
/// are the initial values of the options.
pub fn receiver(alloc: Global, sci: Sci, sender: Sci, bytes: [u8; 16]) -> Result<Secy, SetupFault>
    ensures ready { IfOk result (λ s. s ≡ ready_receiver sci sender bytes) }
    ensures sound { IfOk result IsSound }
{
    let mut secy = Secy::new(
        alloc,
        EndConfig {
            suite: Suite::Gcm128,
            sci,
            max_frame: 1518,
            form: TagForm::Auto,
        },
    )?;
    let an = association_number();
    secy.command(&Command::Key(key_of(bytes)))?;
    secy.command(&Command::RxSc(sender))?;
    secy.command(&Command::RxSa {
        sci: sender,
        an,
        key: key_number(),
        ssci: 0,
        lowest: 1,
    })?;
    secy.command(&Command::RxOn(sender, an))?;
    Ok(secy)
}

/// The number of octets sent to the link for a client frame: 0 if it is dropped.
pub fn octets_sent(secy: &mut Secy, frame: &[u8]) -> Result<usize, FrameFault>
    ensures octets { result ≡ octets_leaving (step secy.old (client_frame frame.now)).0 }
    ensures after { secy.new ≡ (step secy.old (client_frame frame.now)).1 }
{
    match secy.send(frame)? {
        // `under` is the key number, or `None` if the frame is sent unprotected.
        Sent::Link { frame, under: _ } => Ok(frame.len()),
        // A counter has counted the drop: no SA can send, or the frame would be too long.
        Sent::Dropped(_) => Ok(0),
    }
}

/// Whether a link frame was found valid and not late, and so delivered.
pub fn is_passed(secy: &mut Secy, frame: &[u8]) -> Result<bool, FrameFault>
    ensures passed { result ≡ passes (step secy.old (link_frame frame.now)).0 }
    ensures after { secy.new ≡ (step secy.old (link_frame frame.now)).1 }
{
    let received = secy.receive(frame)?;
    // `received.controlled` is the client frame, borrowed until the next call.
    Ok(received.verdict == Verdict::Passed)
}

/// The number of frames from a sender that were found valid and not late; `None` if it has no receive SC.
pub fn passed_count(secy: &Secy, sender: Sci) -> Option<u64>
    ensures { result ≡ option_map (λ counters. counters.in_pkts_ok) (rx_counters_of secy.now.rx_counters sender) }
{
    Some(secy.rx_counters(sender)?.in_pkts_ok)
}
