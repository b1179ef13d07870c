//! Tests that use public calls only. They show what no clause states and no run of the program shows, and that the
//! definitions give published answers:
//!
//! - `blocks`, `cases`: the cipher gives the known answers of FIPS 197 and of the GCM specification.
//! - `endpoint`: configurations at their limits make an endpoint; a frame at the uncontrolled port.
//! - `pcap`, `pcapng`, `reads`: the readers of capture files take as many records as a file may have, read what
//!   Wireshark wrote, and read no more after a failed read or the end.
//! - `devices`: each read and each write of a script and of a capture fails, at one call alone and from that call on.
//!   The tests check what is reported, and the number of calls.
//! - `sentences`: the sentences of faults and refusals, which the program does not print.
//! - `worlds`: the logs of a rollover; worlds and steps do not return `Memory` if there is memory.
//!
//! They are in one crate above all that they test: a crate with tests is proved twice, and each crate of tests is
//! compiled with all that is below it.
//!
//! Frames of the standard are in `vectors/`, and what the program prints is in `examples/scripts/` and
//! `tests/program/runs`. The programs in C (`tests/library/c-programs`) show the endpoint beside a journal.
#![tactic(auto)]

#[cfg(test)]
mod blocks;
#[cfg(test)]
mod cases;
#[cfg(test)]
mod devices;
#[cfg(test)]
mod endpoint;
#[cfg(test)]
mod pcap;
#[cfg(test)]
mod pcapng;
#[cfg(test)]
mod reads;
#[cfg(test)]
mod sentences;
#[cfg(test)]
mod worlds;
