//! What a script prints: the outcomes of events, and the counters and packet numbers of an endpoint.
//!
//! Proved, of `print_outcome`, `print_command`, `print_counters` and `print_numbers`, over a writer whose octets a
//! contract can name: if they return `Ok`, what was written is the text of the outcome, of all counters, and of all SAs.
//! Over any writer they return no fault but `Write`, and do not allocate. `print_outcome` requires that the result is not `Memory` and not
//! `Make`, and that the link frame is given exactly if one was created. A refusal and a fault of an event are printed
//! as their number (`Refusal::number`, `WorldFault::number`) and their name. Worked packet numbers are in
//! `proofs/Examples.antt`.
#![tactic(auto)]

mod counters;
mod numbers;
mod outcomes;
mod writing;

pub use counters::{Label, print_counters};
pub use numbers::print_numbers;
pub use outcomes::{drop_text, print_command, print_outcome, refusal_name};
pub use writing::write_fault;
