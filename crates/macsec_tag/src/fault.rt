//! Faults of frames.

ghost use Rattle.std.specs.Prelude.{◌≡◌, length};
ghost use Rattle.macsec_tag.specs.FaultNumbers.{number_of_fault};

use thiserror::Error;

/// Why a frame is neither tagged nor untagged, in the order of the reader's tests.
#[derive(Clone, Copy, PartialEq, Eq, Debug, Error)]
pub enum TagFault {
    /// There are too few octets for two addresses and an EtherType, or for the SecTAG.
    #[error("the frame ends before its SecTAG does")]
    Cut = 1,
    /// The version bit is set.
    #[error("the version bit is set")]
    Version = 2,
    /// SC is set, and so is ES or SCB.
    #[error("ES or SCB is set, and SC too")]
    SciBits = 3,
    /// The first two bits of the SL octet are not clear.
    #[error("the octet of SL has more than six bits")]
    ShortBits = 4,
    /// SL is 48 or more, or fewer octets follow the SecTAG than SL requires.
    #[error("the frame's length is not what SL says")]
    Length = 5,
}

impl TagFault {
    /// The number of the fault, 1 to 5, in the order of the tests.
    pub fn number(self) -> u8
        ensures { result ≡ number_of_fault self }
    {
        self as u8
    }
}
