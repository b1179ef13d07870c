//! Replacements for standard streams that were closed before the program started.

ghost use Rattle.std.specs.Prelude.{codes, IfErr};
ghost use Rattle.macsec_cli_runs.specs.Failures.{FailsAsOpening};

use crate::failures::Failure;
use std::fs;
use std::rt::Files;

/// The directory that replaces a closed stream. No read from it and no write to it succeeds.
const STAND_IN: &str = "/";

/// Three open directories. A system gives an opened file the lowest free descriptor, and the standard streams have the
/// first three. So while these are open, no other file gets the descriptor of a standard stream, and a closed stream
/// fails at its first read or write. Without them, if standard output was closed, CONFIG would get its descriptor, and
/// `macsec protect CONFIG IN /dev/stdout` would truncate CONFIG.
#[derive(Drop)]
pub struct StandIns<F> {
    _first: F,
    _second: F,
    _third: F,
}

/// Opens the replacements for closed standard streams. Call it before any other file is opened, and keep the result for
/// the whole run. Returns `CannotOpen` if the directory `/` can't be opened three times.
pub fn open_stand_ins<H: Files>(rt: &H) -> Result<StandIns<H::File>, Failure<'static>>
    ensures { IfErr result (FailsAsOpening (codes "/")) }
{
    match (
        fs::open(rt, STAND_IN),
        fs::open(rt, STAND_IN),
        fs::open(rt, STAND_IN),
    ) {
        (Ok(first), Ok(second), Ok(third)) => Ok(StandIns {
            _first: first,
            _second: second,
            _third: third,
        }),
        _ => Err(Failure::CannotOpen(STAND_IN)),
    }
}
