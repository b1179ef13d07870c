//! How received frames are validated (IEEE 802.1AE, 10.6).

/// How received frames are validated.
#[derive(Clone, Copy, PartialEq, Eq, Debug)]
pub enum Mode {
    /// Frames are not validated.
    Disabled,
    /// Frames are validated. Invalid frames are delivered too, unless their C bit is set.
    Check,
    /// Frames are validated. Only valid frames are delivered.
    Strict,
}
