//! What the calls of a slot return.

use macsec_ahead::RxPn;
use macsec_secy::{DropReason, Sci, Verdict};

/// The plan for a client frame.
#[derive(Clone, Copy, PartialEq, Eq, Debug)]
pub enum SendPlan {
    /// The frame is in the slot, and is sent protected, as `Slot::seal` makes it.
    Job,
    /// The frame itself is sent, unchanged.
    Plain,
    /// Nothing is sent.
    Dropped(DropReason),
    /// Nothing is sent: the packet number is not reserved.
    NoReservation,
}

/// What becomes of a link frame.
#[derive(Clone, Copy, PartialEq, Eq, Debug)]
pub enum Finished {
    /// What the endpoint makes of it.
    Received(Reception),
    /// It is valid, and dropped: its packet number is not reserved yet.
    NoReservation(RxPn),
    /// It is valid, and dropped: an earlier run had reserved its packet number, and may have accepted it.
    BeforeThisRun(RxPn),
}

/// The result for a link frame that is received.
#[derive(Clone, Copy, PartialEq, Eq, Debug)]
pub struct Reception {
    /// The verdict on the frame.
    pub verdict: Verdict,
    /// The receive SA (secure association) for the frame, as its SCI and its association number, if there is one.
    pub row: Option<(Sci, u8)>,
    /// How many octets the frame delivered at the controlled port has, if one is delivered.
    pub delivered: Option<usize>,
}
