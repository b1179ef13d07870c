//! What the tests of several crates use: the counters that a run over a capture prints, and readers and writers over
//! memory that fail at chosen calls.
//!
//! Proved: which calls of a device fail (`Fails::fails_at`). Of a reader exactly these fail; of a writer these, and
//! maybe others if memory runs out. Also proved: which octets a reader has left and a writer has, and what each shows.
//! Of the counters nothing is proved.
#![tactic(auto)]

mod counters;
mod failing_io;

pub use counters::{COUNTERS_OF_TWO_RECEIVED, COUNTERS_OF_TWO_SENT};
pub use failing_io::{FailingReader, FailingWriter, Fails};
