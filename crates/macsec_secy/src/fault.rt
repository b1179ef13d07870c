//! The faults of frames.

ghost use Rattle.std.specs.Prelude.{◌≡◌};
ghost use Rattle.macsec_secy.specs.FaultNumbers.{number_of_frame_fault};

use thiserror::Error;

/// The fault of a frame.
#[derive(Clone, Copy, PartialEq, Eq, Debug, Error)]
pub enum FrameFault {
    /// It has fewer than 14 octets.
    #[error("the frame has fewer than 14 octets")]
    Short = 1,
    /// It has more than 9,248 octets.
    #[error("the frame has more than 9,248 octets")]
    Long = 2,
}

impl FrameFault {
    /// The number of the fault, 1 or 2.
    pub fn number(self) -> u8
        ensures { result ≡ number_of_frame_fault self }
    {
        self as u8
    }
}
