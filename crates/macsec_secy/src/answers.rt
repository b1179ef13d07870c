//! What the endpoint returns for a frame.

use crate::{OutsidePn, Sci, SealJob, Verdict};

/// Why nothing is sent for a client frame.
#[derive(Clone, Copy, PartialEq, Eq, Debug)]
pub enum DropReason {
    /// No SA is enabled, or the enabled SA has used all its packet numbers.
    NoSa,
    /// The frame to send would be longer than the configured largest frame.
    TooLong,
}

/// The result for a client frame.
#[derive(Drop)]
pub enum Sent<'a> {
    /// This frame is sent. If it is protected, `under` is the number of the key, 0 to 4,095; otherwise the frame is
    /// unchanged and `under` is `None`. The frame borrows from the endpoint's buffer or from the caller's frame.
    Link { frame: &'a [u8], under: Option<u16> },
    /// Nothing is sent.
    Dropped(DropReason),
}

/// The plan for a client frame.
#[derive(Drop)]
pub enum Planned<'a> {
    /// This frame is sent unchanged.
    Plain(&'a [u8]),
    /// The protected frame that this job makes is sent.
    Job(SealJob),
    /// Nothing is sent.
    Dropped(DropReason),
}

/// The result for a link frame.
#[derive(Drop)]
pub struct Received<'a> {
    /// The verdict on the frame. Exactly one packet counter of the endpoint and its receive SCs counts it.
    pub verdict: Verdict,
    /// The receive SA (secure association) for the frame, as its SCI and its association number, 0 to 3; `None` if the
    /// verdict does not depend on an SA. `Secy::rx_row` returns the SA.
    pub row: Option<(Sci, u8)>,
    /// The frame at the uncontrolled port, unchanged.
    pub uncontrolled: &'a [u8],
    /// The frame at the controlled port, if one is delivered.
    pub controlled: Option<&'a [u8]>,
}

/// The result for a link frame whose packet number is accepted only within limits.
#[derive(Drop)]
pub enum LimitedReceived<'a> {
    /// The endpoint received the frame.
    Received(Received<'a>),
    /// The frame is valid, and dropped: its packet number is outside the limits of its SA. Nothing changes.
    Outside(OutsidePn),
}
