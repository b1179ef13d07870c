//! Runs an endpoint over a capture file, pcap or pcapng: it protects client frames or validates link frames, and writes
//! what is sent or delivered to another capture file, in the format pcap.
//!
//! `captured` (`specs/Captured.antt`) defines what a run writes to the output and to the text, and the fault that ends
//! it: the commands and then the frames go through the steps of the machine. A run has a stop after the commands, after
//! the output's header, and after each record, without counters. A configuration with a fault has no stops.
//!
//! Proved, of `run_capture` and `run_config`, over readers and writers whose octets a contract can name:
//! - `Ok`: output and text are what `captured` gives, and it gives no fault.
//! - A fault of the configuration: it has that fault, at that line, and nothing was written.
//! - A fault of the input's format: the configuration has no fault, and the input has that one. Output and text have
//!   what comes before it, without counters.
//! - If `captured` gives a fault, the run returns it, unless `Memory`, `Read` or `Write` comes first.
//! - `Script(Memory)`, `Script(Read)`: nothing was written. `Pcap(Memory)`: output and text are at the first stop.
//!   `Pcap(Read)`: both are at the same stop. `Pcap(Write)`: the text is at a stop, and the output has all of the stop
//!   before it and at most what this one has. `Script(Write)`: the output is at a stop. `run_records`: at which record.
//!
//! Over any reader: `run_config` returns the first fault of its octets, or they have none. A run is one by some octets,
//! at most 1,048,576, over some capture (`RunsSome`). With a fault in `Script` other than `Write` nothing was written. A
//! configuration without a fault makes an endpoint, and no frame of an endpoint is too long for a record.
#![tactic(auto)]

mod commands;
mod fault;
mod lines;
mod outputs;
mod records;
mod running;

pub use fault::CaptureFault;
pub use records::run_records;
pub use running::{run_capture, run_config};

/// What a run does with the frames of a capture.
#[derive(Clone, Copy, PartialEq, Eq, Debug)]
pub enum Direction {
    /// Protects them as client frames of the controlled port (IEEE 802.1AE, 10.5).
    Protect,
    /// Validates them as link frames (10.6).
    Validate,
}
