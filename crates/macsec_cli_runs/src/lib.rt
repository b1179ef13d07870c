//! The program `macsec` except its `main`: the run that its arguments ask for, over named files, and how it reports
//! failures, by a line on standard error and the exit status.
//!
//! Proved, of `run_named`: with the name `-`, over standard input whose octets a contract can name, it returns and
//! writes what `run_script` may, and after `Ok` the four promises hold of these octets. With another name, standard
//! input is unchanged. With any name, it returns and writes what `run_text` may of some text of at most 1,048,576
//! octets, and the promises hold of it, or up to where memory ran out or a write failed; or no text was read
//! completely, and nothing was written.
//! `CannotOpen` has the name that was passed, and then nothing was written. Neither `Usage` nor a fault of a capture
//! file is returned. With a fault of the script other than `Memory` and `Write` nothing was written.
//!
//! Proved, of `capture_named`: `CannotOpen` has one of the three names, and then nothing was written to the text. Any
//! other failure reports a fault of the run. With `Script(Memory)`, `Script(Read)` or a fault of the configuration
//! nothing was written to the text. It returns and prints what a run by some octets, at most 1,048,576, over some
//! capture gives (`RunsFiles`). No clause says that the files contain these.
//!
//! Proved: `tell` returns the exit status for a result. If it returns that the line was written, it wrote the line of
//! the failure, or nothing if there is none, to a writer whose octets a contract can name. `failure_of_words` returns
//! `Memory` for an error that is out of memory, else `Usage`. If `open_stand_ins` fails, the failure is that `/` can't
//! be opened; no clause says when it fails. A failed flush of the text never replaces a fault of the run (private
//! functions).
//!
//! Proved: `task_of_words` returns the task that the arguments ask for, as `clap`'s definitions read the program's
//! three forms (`specs/Words.antt`); or `Usage`, only if they match no form; or `Memory`. `run_words` returns `Ok` only
//! if the arguments match a form, `Usage` only if they match none, and `CannotOpen` only for a file that they name. It
//! returns a fault of a capture file only if they ask for a capture, and a fault of a script other than `Memory` only
//! if they match a form. No clause says that it does what they ask for.
//!
//! Proved: `run_and_tell` returns the exit status of some result and, if the line was written, wrote the line of that
//! result to a writer whose octets a contract can name. The result is one that `run_words` may return for these
//! arguments, or that `/` can't be opened. `run_program` returns the exit status and writes the line of *some*
//! arguments, or of arguments that can't be read. No contract says that they are the process's. Worked command lines
//! are in `proofs/Examples.antt`.
#![tactic(auto)]

mod arguments;
mod captures;
mod failures;
mod program;
mod scripts;
mod streams;

pub use arguments::{Task, run_words, task_of_words};
pub use captures::{CapturePaths, capture_named};
pub use failures::{Failure, failure_of_words, tell};
pub use macsec_capture::Direction;
pub use macsec_pcap::PcapFault;
pub use macsec_script_parser::ScriptFault;
pub use program::{run_and_tell, run_program};
pub use scripts::run_named;
pub use streams::{StandIns, open_stand_ins};
