//! Writes octets so that it is known what was written if a write fails, which std's `write_all` does not say.
//!
//! Proved, of `write_octets` over a writer whose octets a contract can name: with `Ok` it wrote all octets. With an
//! error it wrote a prefix of them, which can be empty or all of them, and nothing else.
#![tactic(auto)]

ghost use Rattle.std.specs.Prelude.{OnErr, OnOk};
ghost use Rattle.std.specs.Io.KnownBytes.{Appends};
ghost use Rattle.macsec_writes.specs.Fronts.{AppendsFront};

use std::io::{self, ErrorKind, Write};

/// Writes all of these octets. A write that is interrupted is tried again. Returns the error of a write that failed, or
/// `WriteZero` if a write took no octet; then at most a prefix of the octets was written.
#[inline(always)]
pub fn write_octets<W: Write>(destination: &mut W, octets: &[u8]) -> io::Result<()>
    ensures whole { OnOk result (Appends (W.contents destination.old) (W.contents destination.new) octets.now) }
    ensures cut { OnErr result (AppendsFront (W.contents destination.old) (W.contents destination.new) octets.now) }
{
    let mut rest = octets;
    for _ in 0..u64::MAX {
        if rest.is_empty() {
            return Ok(());
        }
        match destination.write(rest) {
            Ok(0) => return Err(io::Error::from(ErrorKind::WriteZero)),
            Ok(count) => rest = &rest[count..],
            Err(error) if error.kind() == ErrorKind::Interrupted => {}
            Err(error) => return Err(error),
        }
    }
    Err(io::Error::from(ErrorKind::Interrupted))
}
