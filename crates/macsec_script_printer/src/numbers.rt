//! The packet numbers of an endpoint, as a script prints them.

ghost use Rattle.std.specs.Prelude.{◌≡◌, flat_map, IfErr, OnOk, Some};
ghost use Rattle.std.specs.Io.KnownBytes.{Appends};
ghost use Rattle.macsec_tx.specs.Transmit.{tx_row};
ghost use Rattle.macsec_script_parser.specs.declared.faults.ScriptFault.TheVariants.{Write};
ghost use Rattle.macsec_script_printer.specs.Numbers.{association_numbers, channel_text, mode_text, numbers_text, packet_number_text, rx_text, state_text, tx_text};
ghost use Rattle.macsec_script_printer.specs.Printing.{Prints};

use crate::writing::{write_fault, write_hex};
use macsec_rx::MAX_CHANNEL_COUNT;
use macsec_script_parser::ScriptFault;
use macsec_secy::{An, RxRow, Sci, Secy, TxRow};
use std::fmt;
use std::io::{self, Write};

/// A packet number. It is displayed in hex, with leading zeros up to 16 digits.
#[derive(Clone, Copy)]
struct PacketNumber(u128);

impl fmt::Display for PacketNumber {
    ghost output = { λ number. Some (packet_number_text number.0) };

    fn fmt<W: fmt::Write>(&self, f: &mut fmt::Formatter<W>) -> fmt::Result {
        let high = (self.0 / (1 << 64)) as u64;
        let low = (self.0 % (1 << 64)) as u64;
        if high == 0 {
            write!(f, "{low:016x}")
        } else {
            write!(f, "{high:x}{low:016x}")
        }
    }
}

/// The word for whether an SA is enabled.
fn state_text(on: bool) -> &'static str
    ensures { result.now ≡ state_text on }
{
    if on { "on" } else { "off" }
}

/// The word for whether an SA encrypts.
fn mode_text(conf: bool) -> &'static str
    ensures { result.now ≡ mode_text conf }
{
    if conf { "conf" } else { "int" }
}

/// The association numbers.
pub(crate) fn association_numbers() -> [An; 4]
    ensures { result ≡ association_numbers }
{
    [
        An::new(0).unwrap(),
        An::new(1).unwrap(),
        An::new(2).unwrap(),
        An::new(3).unwrap(),
    ]
}

/// Writes the line of a transmit SA, if there is one.
fn write_tx_row<W: Write>(writer: &mut W, n: u32, row: Option<TxRow>) -> io::Result<()>
    ensures { OnOk result (Appends (W.contents writer.old) (W.contents writer.new) (tx_text n row)) }
{
    let Some(row) = row else {
        return Ok(());
    };
    let an = row.an.number();
    let key = row.key.number();
    let next = PacketNumber(row.next);
    let state = state_text(row.on);
    let mode = mode_text(row.conf);
    writeln!(writer, "{n} tx {an} {key} {next} {state} {mode}")
}

/// Writes the lines of the transmit SAs, in the order of their ANs.
fn write_tx_rows<W: Write>(writer: &mut W, n: u32, endpoint: &Secy) -> io::Result<()>
    ensures { OnOk result (Appends (W.contents writer.old) (W.contents writer.new) (flat_map (λ an. tx_text n (tx_row endpoint.now.tx an)) association_numbers)) }
{
    for an in association_numbers() {
        write_tx_row(writer, n, endpoint.tx_row(an))?;
    }
    Ok(())
}

/// Writes the line of a receive SA, if there is one.
fn write_rx_row<W: Write>(writer: &mut W, n: u32, row: Option<RxRow>) -> io::Result<()>
    ensures { OnOk result (Appends (W.contents writer.old) (W.contents writer.new) (rx_text n row)) }
{
    let Some(row) = row else {
        return Ok(());
    };
    let an = row.an.number();
    let key = row.key.number();
    let next = PacketNumber(row.next);
    let lowest = PacketNumber(row.lowest);
    let state = state_text(row.on);
    write!(writer, "{n} rx ")?;
    write_hex(writer, &row.sci.0)?;
    writeln!(writer, " {an} {key} {next} {lowest} {state}")
}

/// Writes the lines of the SAs of a receive SC, in the order of their ANs.
fn write_rx_rows<W: Write>(writer: &mut W, n: u32, endpoint: &Secy, sci: Sci) -> io::Result<()>
    ensures { OnOk result (Appends (W.contents writer.old) (W.contents writer.new) (channel_text n endpoint.now sci)) }
{
    for an in association_numbers() {
        write_rx_row(writer, n, endpoint.rx_row(sci, an))?;
    }
    Ok(())
}

/// Writes the lines of the receive SCs, in the order of their creation.
fn write_rx_channels<W: Write>(writer: &mut W, n: u32, endpoint: &Secy) -> io::Result<()>
    ensures { OnOk result (Appends (W.contents writer.old) (W.contents writer.new) (flat_map (channel_text n endpoint.now) endpoint.now.rx.scis)) }
{
    for place in 0..MAX_CHANNEL_COUNT {
        let Some(sci) = endpoint.rx_channel(place) else {
            return Ok(());
        };
        write_rx_rows(writer, n, endpoint, sci)?;
    }
    Ok(())
}

fn write_numbers<W: Write>(writer: &mut W, n: u32, endpoint: &Secy) -> io::Result<()>
    ensures { OnOk result (Appends (W.contents writer.old) (W.contents writer.new) (numbers_text n endpoint.now)) }
{
    write_tx_rows(writer, n, endpoint)?;
    write_rx_channels(writer, n, endpoint)
}

/// Prints the packet numbers of an endpoint, as line `n` of a script shows them: a line for each transmit SA in the
/// order of the ANs, and then one for each receive SA. The receive SCs are in the order of their creation, the SAs of
/// each in the order of their ANs. Fails only if the writer does.
pub fn print_numbers<W: Write>(writer: &mut W, n: u32, endpoint: &Secy) -> Result<(), ScriptFault>
    ensures text { Prints (numbers_text n endpoint.now) (W.contents writer.old) (W.contents writer.new) result }
    ensures fault { IfErr result (λ fault. fault ≡ Write) }
{
    write_fault(write_numbers(writer, n, endpoint))
}
