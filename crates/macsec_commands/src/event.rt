//! Events at two ends and on the link between them.

use crate::{Command, Frame};

/// One of the two ends.
#[derive(Clone, Copy, PartialEq, Eq, Debug)]
pub enum End {
    A,
    B,
}

/// An event at an end or on the link.
#[derive(Drop)]
pub enum Event {
    /// A management command at an end.
    Command(End, Command),
    /// A client frame at an end's controlled port.
    Send(End, Frame),
    /// A client frame at an end's uncontrolled port.
    SendUncontrolled(End, Frame),
    /// The link frame of this number arrives at an end.
    Deliver(End, u32),
    /// A new link frame: a copy of the frame of this number, with the octet at this offset set to this value.
    Alter(u32, u32, u8),
    /// A new link frame: a copy of the frame of this number, padded with zeros to 60 octets.
    Pad(u32),
    /// A new link frame with these octets.
    Inject(Frame),
}
