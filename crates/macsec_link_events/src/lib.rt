//! The result of an event of two endpoints and their link: its outcome, or the fault for which it did not happen.
//!
//! Proved: the number of a fault (`specs/FaultNumbers.antt`).
#![tactic(auto)]

ghost use Rattle.std.specs.Prelude.{◌≡◌};
ghost use Rattle.macsec_link_events.specs.FaultNumbers.{number_of_world_fault};

use macsec_commands::{End, Frame, NewFault};
use macsec_secy::{DropReason, Refusal, Verdict};
use thiserror::Error;

/// The outcome of an event.
#[derive(Drop)]
pub enum Outcome {
    /// The command was carried out.
    Done,
    /// The command was refused, and nothing changed.
    Refused(Refusal),
    /// The link frame with this number was created.
    Made(u32),
    /// Nothing is sent for a client frame, for this reason.
    Dropped(DropReason),
    /// An end received a link frame: the verdict on it, and the frame delivered at the controlled port, if any.
    Heard {
        verdict: Verdict,
        controlled: Option<Frame>,
    },
}

/// Why an event did not happen, or no world was created. The world is unchanged.
#[derive(Clone, Copy, PartialEq, Eq, Debug, Error)]
pub enum WorldFault {
    /// Out of memory.
    #[error("out of memory")]
    Memory,
    /// No link frame has this number.
    #[error("there is no such link frame")]
    NoFrame,
    /// The link has 65,536 frames, which is the maximum.
    #[error("the link has 65,536 frames")]
    LinkFull,
    /// The link frame has no octet at this index.
    #[error("the link frame has no such octet")]
    AlterRange,
    /// The frame is too short.
    #[error("the frame is too short")]
    Short,
    /// The frame has more than 9,248 octets.
    #[error("the frame has more than 9,248 octets")]
    Long,
    /// No endpoint can be created from the configuration of this end.
    #[error("an end cannot be made of its configuration")]
    Make(End, NewFault),
}

impl WorldFault {
    /// The number of the fault, 1 to 7.
    pub fn number(self) -> u8
        ensures { result ≡ number_of_world_fault self }
    {
        match self {
            WorldFault::Memory => 1,
            WorldFault::NoFrame => 2,
            WorldFault::LinkFull => 3,
            WorldFault::AlterRange => 4,
            WorldFault::Short => 5,
            WorldFault::Long => 6,
            WorldFault::Make(..) => 7,
        }
    }
}
