//! Runs scripts: each has two endpoints and the link between them. Reads a script, and prints the results of its lines.
//!
//! Proved, of `run_text` over a writer whose octets a contract can name (as a `Vec`):
//! - `Ok`: what was written is what `printed_text` gives for the script (`specs/Printed.antt`).
//! - A fault of the script: the script has that fault, at that line if the fault names one, and nothing was written.
//!   For a script with a fault, `run_text` returns that fault or `Memory`.
//! - `Memory`: what was written is all that the first lines print, perhaps no line or every one, and the four promises
//!   hold of these lines (`promised_before`). Nothing was written if the script has a fault.
//! - `Write`: the script has no fault. What was written is all that the first lines print, and a prefix of what the
//!   next line prints. The promises hold of these lines and that one (`promised_before`).
//!
//! Over any writer: with `Ok`, the four promises hold of the run of the script's two ends over the events of all its
//! lines, and no tag is forged, or a first one is and needs one of few hash keys (`promised`). `run_script` is
//! `read_text`, then `run_text`. Of it the same is proved for all that the reader had, if a contract can name that (as
//! of a slice). Over any reader: with a fault other than `Memory` and `Write` nothing was written.
//!
//! The world refuses no configuration of a script without a fault, so `Memory` hides no such refusal.
//! A law: each line is printed from the world after the events of the lines before it. Worked scripts are in
//! `proofs/Examples.antt`.
#![tactic(auto)]

pub mod laws;
mod running;

pub use macsec_link::{
    An, Command, DropReason, End, EndConfig, Event, Frame, Key, Mode, NewFault, NewKey, Outcome,
    Refusal, Sci, Secy, Suite, TagForm, Verdict, WorldFault,
};
pub use macsec_script_parser::{
    Action, CheckedEnd, Config, Line, LineFault, Script, ScriptFault, parse_config, parse_line,
    parse_script, read_text,
};
pub use macsec_script_printer::{Label, print_counters, print_numbers, print_outcome};
pub use running::{run_script, run_text};
