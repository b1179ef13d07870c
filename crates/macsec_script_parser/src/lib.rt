//! The language of scripts for two endpoints and the link between them: parses a line, a whole script, and the
//! configuration of one end.
//!
//! Proved: `parse_line` and `parse_script` return the line, the lines with their numbers, or the first fault, as the
//! table of the kinds of lines says (`specs/Kinds.antt`, `specs/Scripts.antt`), or `Memory`. `parse_config` does the
//! same for the configuration of one end: the `end` line of A, then commands at A, and nothing else. The functions
//! `name`, `line` and `status` of a `ScriptFault` return what `specs/Faults.antt` defines. If its `tell` returns `Ok`,
//! what it wrote, to a writer whose octets a contract can name, is the one line of the fault. `read_text` returns at
//! most 1,048,576 octets, or `ScriptLong`, `Memory` or `Read`. Over a reader whose octets a contract can name it
//! returns all of them, and `ScriptLong` only if there are more. Each `CheckedEnd` is a configuration without a fault.
//! The digits of a key are read by arithmetic (`key_digits.rt`). That no branch depends on them is not proved.
//!
//! Proved of the definitions: more than eighty worked lines, and ten configurations (`proofs/Examples.antt`).
#![tactic(auto)]

mod ends;
mod faults;
mod key_digits;
mod lines;
mod script;
mod text;
mod words;

pub use ends::CheckedEnd;
pub use faults::ScriptFault;
pub use lines::{Action, Line, LineFault, parse_line};
pub use script::{Config, MAX_SCRIPT_LEN, Script, at_line, parse_config, parse_script};
pub use text::read_text;
