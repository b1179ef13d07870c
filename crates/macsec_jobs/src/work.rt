//! What is to be done with a frame.

use macsec_rx::{OpenJob, OpenedFrame};
use macsec_tx::SealJob;

/// What is to be done with the frame of a slot.
#[derive(Drop)]
pub enum Work {
    /// There is no frame.
    Nothing,
    /// A client frame is to be sealed.
    Seal(SealJob),
    /// A link frame is to be opened, and then to be finished.
    Open(OpenJob),
    /// A link frame is to be finished, with what was opened, if anything was.
    Finish(Option<OpenedFrame>),
}
