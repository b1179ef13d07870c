//! The options that management commands set (IEEE 802.1AE, 10.7).

use crate::{Mode, TagForm};

/// The options that commands set.
#[derive(Clone, Copy, PartialEq, Eq, Debug)]
pub struct Options {
    /// Whether client frames are protected.
    pub protect: bool,
    /// How received frames are validated.
    pub mode: Mode,
    /// Whether late frames are dropped.
    pub replay: bool,
    /// The replay window, in packet numbers.
    pub window: u64,
    /// The form of the SecTAG on sent frames.
    pub form: TagForm,
}
