//! Reads the text of a script.

ghost use Rattle.std.specs.Prelude.{◌≡◌, ◌≤◌, length, IfErr, IfSome, MatchResult};
ghost use Rattle.std.specs.Io.KnownBytes.{ReadConsumes};
ghost use Rattle.std.specs.Io.{ReadsAtMost};
ghost use Rattle.macsec_script_parser.specs.Limits.{max_script_len};
ghost use Rattle.macsec_script_parser.specs.Readings.{IsInputFault, IsReadFault};
ghost use Rattle.macsec_script_parser.specs.declared.faults.ScriptFault.TheVariants as by;

use crate::faults::ScriptFault;
use crate::script::MAX_SCRIPT_LEN;
use std::alloc::Global;
use std::io::Read;

/// Reads everything that a reader has, at most `MAX_SCRIPT_LEN` octets. Returns `ScriptLong` if it has more, or
/// `Memory`, or `Read`.
pub fn read_text<R: Read>(alloc: Global, reader: &mut R) -> Result<Vec<u8>, ScriptFault>
    ensures text { IfSome (R.remaining reader.old) (λ all. MatchResult result
        (λ text. (text.items ≡ all) × (length all ≤ max_script_len)) (λ fault. IsInputFault all fault)) }
    ensures fits { MatchResult result (λ text. length text.items ≤ max_script_len) IsReadFault }
{
    let mut text = Vec::new(alloc);
    let mut piece = [0u8; 4096];
    for _ in 0..1_048_577u32 {
        let count = match read_piece(reader, &mut piece) {
            Ok(count) => count,
            Err(fault) => return Err(fault),
        };
        if count == 0 {
            return Ok(text);
        }
        if text.len() + count > MAX_SCRIPT_LEN {
            return Err(ScriptFault::ScriptLong);
        }
        if text.extend_from_slice(&piece[..count]).is_err() {
            return Err(ScriptFault::Memory);
        }
    }
    unreachable!()
}

/// Reads some octets into `piece`, or returns `Read` if the read fails.
fn read_piece<R: Read>(reader: &mut R, piece: &mut [u8]) -> Result<usize, ScriptFault>
    ensures bound { ReadsAtMost result piece.new }
    ensures octets { ReadConsumes (R.remaining reader.old) (R.remaining reader.new) result piece.new }
    ensures fault { IfErr result (λ fault. fault ≡ by.Read) }
{
    match reader.read(piece) {
        Ok(count) => Ok(count),
        Err(_) => Err(ScriptFault::Read),
    }
}
