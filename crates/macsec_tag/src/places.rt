//! Positions of octets in a frame, and lengths of its parts (IEEE 802.1AE, 9.2 and 9.3).

/// The length in octets of the destination and source addresses together.
pub const ADDRESSES_LENGTH: usize = 12;

/// The length in octets of an ICV (14.5).
pub const ICV_LENGTH: usize = 16;

/// The length in octets of the shortest frame at a port: two addresses and an EtherType.
pub const MIN_FRAME_LEN: usize = 14;

/// The length in octets of the longest frame at a port.
pub const MAX_FRAME_LEN: usize = 9248;

/// The position of the octet of TCI and AN.
pub(crate) const TCI_PLACE: usize = 14;

/// The position of SL.
pub(crate) const SL_PLACE: usize = 15;

/// The position of PN.
pub(crate) const PN_PLACE: usize = 16;

/// The position of the SCI if the SecTAG carries one, otherwise of the Secure Data.
pub(crate) const SCI_PLACE: usize = 20;

/// The position of the Secure Data if the SecTAG carries an SCI.
pub(crate) const AFTER_SCI: usize = 28;
