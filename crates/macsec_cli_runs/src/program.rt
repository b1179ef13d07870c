//! The whole program except `main`: carries out its arguments, reports a failure, and returns the exit status.

ghost use Rattle.std.specs.Prelude.{map, string_bytes, IfErr, IfOk};
ghost use Rattle.std.specs.IoError.{error_kind};
ghost use Rattle.macsec_cli_runs.specs.Ends.{EndsAtAll, EndsBy, IsTold, IsUnread};

use crate::arguments::run_words;
use crate::failures::{Failure, failure_of_words, tell};
use crate::streams::open_stand_ins;
use std::env;
use std::io::{self, Write};

/// The program `macsec`: carries out the task of the process's arguments, and reports a failure on `errors`, as
/// `run_and_tell` does. `wide` is what `Secy::prefer_wide` takes.
pub fn run_program<W: Write>(rt: &HostRuntime, wide: bool, errors: &mut W) -> (u8, io::Result<()>)
    ensures { IsTold EndsAtAll (W.contents errors.old) (W.contents errors.new) result.0 result.1 }
{
    let own = own_words(rt);
    run_own(rt, wide, &own, errors)
}

/// The same, for arguments that were read or could not be read.
fn run_own<W: Write>(
    rt: &HostRuntime,
    wide: bool,
    own: &io::Result<Vec<String>>,
    errors: &mut W,
) -> (u8, io::Result<()>)
    ensures read { IfOk own.now (λ words. IsTold (EndsBy (map string_bytes words.items)) (W.contents errors.old) (W.contents errors.new) result.0 result.1) }
    ensures unread { IfErr own.now (λ error. IsTold (IsUnread (error_kind error)) (W.contents errors.old) (W.contents errors.new) result.0 result.1) }
{
    match own {
        Ok(words) => run_and_tell(rt, wide, words.as_slice(), errors),
        Err(error) => tell(errors, Err(failure_of_words(error))),
    }
}

/// Carries out the task of the arguments after the program's name, and writes a line to `errors` if it fails. Returns
/// the exit status, and whether the line was written.
pub fn run_and_tell<W: Write>(
    rt: &HostRuntime,
    wide: bool,
    words: &[String],
    errors: &mut W,
) -> (u8, io::Result<()>)
    ensures { IsTold (EndsBy (map string_bytes words.now)) (W.contents errors.old) (W.contents errors.new) result.0 result.1 }
{
    let ended = end_of_words(rt, wide, words);
    tell(errors, ended)
}

/// Carries out the task of the arguments, while no file that is opened can get the descriptor of a standard stream.
fn end_of_words<'a>(rt: &HostRuntime, wide: bool, words: &'a [String]) -> Result<(), Failure<'a>>
    ensures { EndsBy (map string_bytes words.now) result }
{
    match open_stand_ins(rt) {
        Ok(_held) => run_words(rt, wide, words),
        Err(failure) => Err(failure),
    }
}

/// The arguments of the process, beginning with the program's name.
fn own_words(rt: &HostRuntime) -> io::Result<Vec<String>> {
    Ok(env::args(rt)?.collect(rt.alloc())?)
}
