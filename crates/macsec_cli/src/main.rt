//! The program `macsec`: runs a script for two MACsec endpoints, or protects or validates the frames of a capture file.
//!
//! Proved: `main` is safe and returns. No clause says that it passes on the process's arguments, the line and the exit
//! status; `tests/program/stored-runs` compares them.
#![tactic(auto)]

use macsec_cli_runs::run_program;
use std::process::ExitCode;

/// Are key streams made 16 blocks at once? In the build for x86-64-v3, which has vectors of 256 bits, `tools/prove`
/// writes `true` here.
const IS_WIDE: bool = false;

fn main(rt: HostRuntime) -> ExitCode {
    let (status, _) = run_program(&rt, IS_WIDE, &mut rt.stderr());
    ExitCode::from(status)
}
