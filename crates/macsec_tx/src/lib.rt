//! The transmit SC: its SAs (secure associations), and how a client frame is sent (IEEE 802.1AE, 10.5).
//!
//! Proved: a `TxChannel` is the list of its SAs, which have different association numbers. `tx_sa`, `tx_on`, `tx_off`
//! and `tx_del` refuse with the first refusal of their lists that applies, and then change nothing; otherwise they do
//! what `specs/Commands.antt` says. `plan_frame` is the transmission of `specs/Transmit.antt` without the cipher's
//! work: what is sent, and under which key. The SA and its key use a packet number exactly if a protected frame is
//! planned. Such a plan is a `SealJob`. `SealJob::seal` makes the protected frame of the prepared key and the client
//! frame. It needs no SA, so the result is the same whatever the transmit SC did in between. By its type a job is
//! sealed at most once. `plan_frame` requires a client frame of 14 to 9,248 octets, and the enabled SA as `enabled`
//! found it. Like `tx_on`, it requires that the key of each SA is in the table.
//!
//! The law `laws::read_as_sent`: take a client frame of 14 octets or more, an SCI of 8 octets and an association number
//! from 0 to 3. The protected frame then reads as the parts that were sent, and is as long as the client frame, SecTAG
//! and ICV together.
#![tactic(auto)]

mod channel;
pub mod laws;
mod sending;

pub use channel::TxChannel;
pub use macsec_commands::TagForm;
use macsec_suite::{KeyNumber, KeyPlace};
use macsec_tag::{An, Sci, SecTag};

/// The options of transmission.
#[derive(Clone, Copy, PartialEq, Eq, Debug)]
pub struct TxOptions {
    /// Whether client frames are protected.
    pub protect: bool,
    /// When the SecTAG carries the SCI, and whether ES or SCB is set.
    pub form: TagForm,
    /// The endpoint's own SCI.
    pub sci: Sci,
    /// The largest frame that is sent, in octets.
    pub max_frame: u32,
    /// Whether there is more than one receive SC. If so, the tag form `Auto` sends the SCI.
    pub many: bool,
}

/// A transmit SA (secure association, 10.7), as one row of `TxChannel`.
#[derive(Clone, Copy, PartialEq, Eq, Debug, Default)]
pub struct TxRow {
    /// Its association number.
    pub an: An,
    /// The number of its key.
    pub key: KeyNumber,
    /// Its next packet number, or one past the last if the SA is exhausted.
    pub next: u128,
    /// Whether it encrypts.
    pub conf: bool,
    /// Whether it is enabled.
    pub on: bool,
}

/// The enabled SA of a transmit SC.
#[derive(Clone, Copy)]
pub struct EnabledSa {
    /// Its index among the SAs of the transmit SC.
    pub(crate) index: usize,
    /// The SA.
    pub row: TxRow,
}

/// How a client frame will be sent, or why it is dropped. A protected frame is not made yet.
#[derive(Drop)]
pub enum TxPlan {
    /// It is sent unchanged.
    Plain,
    /// It is sent protected, as this job makes it.
    Job(SealJob),
    /// It is dropped: no SA is enabled, or the enabled SA is exhausted.
    NoSa,
    /// It is dropped: the frame to send would be longer than the largest frame.
    TooLong,
}

/// The protection of one client frame: all that the cipher needs in addition to the prepared key and the frame. `seal`
/// takes the job, and it cannot be copied, so that its IV is used at most once.
#[derive(Drop)]
pub struct SealJob {
    /// The place of the key.
    pub(crate) key: KeyPlace,
    /// The IV.
    pub(crate) iv: [u8; 12],
    /// The SecTAG.
    pub(crate) tag: SecTag,
}
