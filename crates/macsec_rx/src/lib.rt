//! The receive SCs and their SAs (secure channels and associations), and the verdict on a tagged frame (IEEE 802.1AE,
//! 10.6 and 10.7).
//!
//! Proved: `RxChannels` is the list of SCs in the order of their creation, and their SAs. `rx_sc`, `rx_sc_del`,
//! `rx_sa`, `rx_on`, `rx_off`, `rx_low` and `rx_del` refuse with the first refusal of their lists that applies, and
//! then change nothing; otherwise they do what `specs/Commands.antt` says. `narrow` narrows every SA to the replay
//! window. No two SCs have the same SCI. Each SA belongs to an SC, where no other SA has its association number. Its
//! lowest acceptable packet number is from 1 to its next one, which is at most 2^64.
//!
//! Proved: `judge` gives the verdict on a tagged frame, its SA, and what is delivered, as the table of
//! `specs/Judge.antt` says; the first step that applies decides. The delivered frame is in the caller's slice. The
//! packet number is accepted if and only if the ICV was found valid. If nothing is delivered, the slice is unchanged,
//! except that it may begin with DA, SA, SecTAG, Secure Data and ICV as received (`LeavesReceived`). So it has no
//! decrypted octet of the frame. No clause says what is left outside a delivered frame. `judge` requires parts of at
//! most 9,248 octets together and a slice of 9,248 or more. `judge` and `rx_low` require that each SA's key is in the
//! table.
//!
//! Proved: the cipher's work for a frame may be done before and elsewhere. `plan_open` returns the `OpenJob` that a
//! frame needs now, if it needs one: the number of a key, and the IV. `OpenJob::open` does the job with the prepared
//! key, and needs no SA. `judge` compares the key and the IV of what was opened with its own, and opens the frame
//! itself if they differ. So it judges and delivers the same, whether a frame was opened before or not.
//!
//! Proved: `judge_within` judges as `judge` does, except that it accepts a packet number only within the limits of its
//! SA (`specs/Within.antt`). A valid frame outside them changes nothing but the slice. `rows` returns the SAs, at most
//! 256.
#![tactic(auto)]

ghost use Rattle.std.specs.Prelude.{◌≡◌, Some};
ghost use Rattle.macsec_rx.specs.Channels.{numbers_of, with_numbers};
ghost use Rattle.macsec_rx.specs.Verdicts.{verdict_name};

mod channels;
mod delivering;
mod index;
mod judging;
mod within;

pub use channels::{MAX_CHANNEL_COUNT, MAX_ROW_COUNT, RxChannels};
pub use macsec_commands::Mode;
use macsec_pn::RxNumbers;
use macsec_suite::KeyNumber;
use macsec_tag::{An, Sci};
use std::fmt;
pub use within::{OutsidePn, PnLimits, RxPn};

/// The verdict on a received frame. Each verdict is named like its counter, without InPkts.
#[derive(Clone, Copy, PartialEq, Eq, Debug)]
pub enum Verdict {
    /// It has no SecTAG and is delivered.
    Untagged,
    /// It has no SecTAG and is dropped.
    NoTag,
    /// Its SecTAG is invalid, or it has no packet number. It is dropped.
    BadTag,
    /// E is set and C is clear. It is dropped.
    Reserved,
    /// No SA is enabled for it, and it is dropped.
    NoSaError,
    /// No SA is enabled for it, and it is delivered.
    NoSa,
    /// Its packet number is late, and it is dropped.
    Late,
    /// It is invalid, or cannot be delivered without validation, and is dropped.
    NotValid,
    /// It was not validated, and is delivered.
    Unchecked,
    /// Its packet number is late, and it is delivered.
    Delayed,
    /// It is invalid, and is delivered.
    Invalid,
    /// It is valid and not late, and is delivered. Its name is `OK`.
    Passed,
}

impl Verdict {
    /// The name of the verdict, as it is printed.
    pub fn name(self) -> &'static str
        ensures { result.now ≡ verdict_name self }
    {
        match self {
            Verdict::Untagged => "Untagged",
            Verdict::NoTag => "NoTag",
            Verdict::BadTag => "BadTag",
            Verdict::Reserved => "Reserved",
            Verdict::NoSaError => "NoSAError",
            Verdict::NoSa => "NoSA",
            Verdict::Late => "Late",
            Verdict::NotValid => "NotValid",
            Verdict::Unchecked => "Unchecked",
            Verdict::Delayed => "Delayed",
            Verdict::Invalid => "Invalid",
            Verdict::Passed => "OK",
        }
    }
}

impl fmt::Display for Verdict {
    ghost output = { λ verdict. Some (verdict_name verdict) };

    fn fmt<W: fmt::Write>(&self, f: &mut fmt::Formatter<W>) -> fmt::Result {
        f.write_str(self.name())
    }
}

/// The options of reception.
#[derive(Clone, Copy, PartialEq, Eq, Debug)]
pub struct RxOptions {
    /// How frames are validated.
    pub mode: Mode,
    /// Whether late frames are dropped.
    pub replay: bool,
    /// The replay window, in packet numbers.
    pub window: u64,
}

/// A receive SA (secure association, 10.7), as one row of `RxChannels`.
#[derive(Clone, Copy, PartialEq, Eq, Debug, Default)]
pub struct RxRow {
    /// The SCI of its SC.
    pub sci: Sci,
    /// Its association number.
    pub an: An,
    /// The number of its key.
    pub key: KeyNumber,
    /// The SSCI of the sender.
    pub ssci: u32,
    /// Its next packet number, above every number that was accepted.
    pub next: u128,
    /// Its lowest acceptable packet number.
    pub lowest: u128,
    /// Whether it is enabled.
    pub on: bool,
}

impl RxRow {
    /// Its packet numbers.
    pub(crate) fn numbers(&self) -> RxNumbers
        ensures { result ≡ numbers_of self.now }
    {
        RxNumbers {
            next: self.next,
            lowest: self.lowest,
        }
    }

    /// The same SA with these packet numbers.
    pub(crate) fn with_numbers(self, numbers: RxNumbers) -> RxRow
        ensures { result ≡ with_numbers numbers self }
    {
        RxRow {
            next: numbers.next,
            lowest: numbers.lowest,
            ..self
        }
    }
}

/// The result of judging a tagged frame.
#[derive(Clone, Copy, PartialEq, Eq, Debug)]
pub struct Judged {
    /// The verdict.
    pub verdict: Verdict,
    /// The SA of the frame, if the verdict depends on one: its SCI and association number.
    pub row: Option<(Sci, An)>,
    /// The position of the SC of `row`, in the order of creation. Without a `row` it means nothing.
    pub channel: usize,
    /// The position and length, in octets, of the delivered frame in the caller's slice.
    pub delivered: Option<(usize, usize)>,
}

/// The opening of one tagged frame: all that the cipher needs besides the prepared key and the frame.
#[derive(Clone, Copy, PartialEq, Eq, Debug)]
pub struct OpenJob {
    /// The number of the key.
    pub(crate) key: KeyNumber,
    /// The IV.
    pub(crate) iv: [u8; 12],
}

/// What a job gave for a frame. The delivered frame is in the slice that the job was given.
#[derive(Clone, Copy, PartialEq, Eq, Debug)]
pub struct OpenedFrame {
    /// The number of the job's key.
    pub(crate) key: KeyNumber,
    /// The job's IV.
    pub(crate) iv: [u8; 12],
    /// The position and length, in octets, of the frame with its plaintext; `None` if the ICV is invalid.
    pub(crate) delivered: Option<(usize, usize)>,
}
