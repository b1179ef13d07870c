//! Writing octets in hex, and the fault of a write.

ghost use Rattle.std.specs.Prelude.{◌≡◌, [], ◌∷◌, OnOk, MatchResult, Ok, Err};
ghost use Rattle.std.specs.Io.KnownBytes.{Appends};
ghost use Rattle.hex.specs.Hex.{encode_lower};
ghost use Rattle.macsec_script_parser.specs.declared.faults.ScriptFault.TheVariants.{Write};

use macsec_script_parser::ScriptFault;
use std::io::{self, Write};

/// Turns a failed write into the script's fault `Write`.
pub fn write_fault(written: io::Result<()>) -> Result<(), ScriptFault>
    ensures { MatchResult written (λ _. result ≡ Ok tt) (λ _. result ≡ Err Write) }
{
    match written {
        Ok(()) => Ok(()),
        Err(_) => Err(ScriptFault::Write),
    }
}

/// An octet in hex, in lower case.
fn hex_digits(octet: u8) -> [u8; 2]
    ensures { result ≡ encode_lower (octet ∷ []) }
{
    let mut digits = [0; 2];
    hex::encode_to_slice([octet], &mut digits).unwrap();
    digits
}

/// Writes octets in hex, in lower case. Does not allocate.
pub fn write_hex<W: Write>(writer: &mut W, octets: &[u8]) -> io::Result<()>
    ensures { OnOk result (Appends (W.contents writer.old) (W.contents writer.new) (encode_lower octets.now)) }
{
    for octet in octets {
        writer.write_all(&hex_digits(*octet))?;
    }
    Ok(())
}
