//! The SecTAG and the grammar of MACsec frames (IEEE 802.1AE, clause 9): a reader that accepts exactly the frames of
//! the grammar, and a writer of SecTAGs. Each SecTAG has one encoding.
//!
//! Proved: `reading::read` returns the parts of a frame exactly if the grammar has them, and untagged exactly if the
//! grammar says so. Otherwise it returns the first fault of a table of positions (`docs/ENDPOINT.md`). The grammar says
//! that a tagged frame *is* its parts concatenated. `write_tag` writes the encoding of a SecTAG, 8 or 16 octets, to the
//! start of a slice and keeps the rest; it requires a slice of 16 octets or more. `An::new` and `SecTag::new` return a
//! value exactly if there is such an association number or SecTAG. Each function that reads a `SecTag` or an `Mpdu`
//! returns its field.
//!
//! Laws (`laws`): the table and the grammar agree on every list of octets, in both directions; a frame has at most one
//! reading; reading a frame assembled from parts gives those parts; no two SecTAGs have the same encoding.
#![tactic(auto)]

mod fault;
mod identifiers;
pub mod laws;
mod mpdu;
mod places;
pub mod reading;
mod sec_tag;
mod writing;

pub use fault::TagFault;
pub use identifiers::{ASSOCIATION_COUNT, An, Sci};
pub use mpdu::{Mpdu, Read};
pub use places::{ADDRESSES_LENGTH, ICV_LENGTH, MAX_FRAME_LEN, MIN_FRAME_LEN};
pub use sec_tag::SecTag;
pub use writing::write_tag;
