//! Management commands (IEEE 802.1AE, 10.7).

use crate::{An, KeyNumber, Mode, NewKey, Sci, TagForm};

/// A management command.
#[derive(Clone, Copy)]
pub enum Command {
    /// Protect client frames, or send them unchanged.
    Protect(bool),
    /// Validate received frames in this mode.
    Validate(Mode),
    /// Set whether late frames are dropped, and set the replay window.
    Replay {
        protect: bool,
        window: u64,
    },
    /// Set the tag form.
    Tag(TagForm),
    /// Install a key.
    Key(NewKey),
    /// Retire a key: no new SA (secure association) may use it.
    Retire(KeyNumber),
    /// Create a transmit SA. It is disabled, its first packet number is `next`, and it encrypts if `conf` is true.
    TxSa {
        an: An,
        key: KeyNumber,
        next: u64,
        conf: bool,
    },
    /// Enable a transmit SA, and disable all others.
    TxOn(An),
    /// Disable a transmit SA.
    TxOff(An),
    /// Delete a transmit SA.
    TxDel(An),
    /// Create a receive SC after the others.
    RxSc(Sci),
    /// Delete a receive SC, its SAs and its counters.
    RxScDel(Sci),
    /// Create a receive SA. It is disabled, and its lowest acceptable packet number is `lowest`.
    RxSa {
        sci: Sci,
        an: An,
        key: KeyNumber,
        ssci: u32,
        lowest: u64,
    },
    /// Enable a receive SA.
    RxOn(Sci, An),
    /// Disable a receive SA.
    RxOff(Sci, An),
    /// Raise the lowest acceptable packet number of a receive SA.
    RxLow {
        sci: Sci,
        an: An,
        pn: u64,
    },
    /// Delete a receive SA.
    RxDel(Sci, An),
}
