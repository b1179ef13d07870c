//! The counters of an endpoint, as a script prints them.

ghost use Rattle.std.specs.Prelude.{◌≡◌, flat_map, map, IfErr, OnOk, Some};
ghost use Rattle.std.specs.Io.KnownBytes.{Appends};
ghost use Rattle.macsec_script_parser.specs.declared.faults.ScriptFault.TheVariants.{Write};
ghost use Rattle.macsec_script_printer.specs.Counters.{associations_text, channel_counters, channel_text, counter_text, counters_text, own_counters};
ghost use Rattle.macsec_script_printer.specs.Counters.{rx_counter_text, rx_counters_text, sa_counter_text, sa_counters_text};
ghost use Rattle.macsec_script_printer.specs.Printing.{Prints};

use crate::numbers::association_numbers;
use crate::writing::{write_fault, write_hex};
use macsec_rx::MAX_CHANNEL_COUNT;
use macsec_script_parser::ScriptFault;
use macsec_secy::{An, Counters, RxCounters, Sci, Secy, TxCounters};
use std::fmt;
use std::io::{self, Write};

/// The beginning of a line of counters: the number of a line of the script, or the word `end`.
#[derive(Clone, Copy)]
pub enum Label {
    Line(u32),
    End,
}

impl fmt::Display for Label {
    ghost use Rattle.macsec_script_printer.specs.Counters.{label_text};

    ghost output = { λ label. Some (label_text label) };

    fn fmt<W: fmt::Write>(&self, f: &mut fmt::Formatter<W>) -> fmt::Result {
        match self {
            Label::Line(n) => write!(f, "{n}"),
            Label::End => f.write_str("end"),
        }
    }
}

/// A counter's name and its value.
type NamedCounter = (&'static str, u64);

/// The counters of an endpoint and of its transmit SC, with their names.
fn own_counters(own: Counters, tx: TxCounters) -> [NamedCounter; 15]
    ensures { map (λ c. (c.0.now, c.1)) result ≡ own_counters own tx }
{
    [
        ("InPktsUntagged", own.in_pkts_untagged),
        ("InPktsNoTag", own.in_pkts_no_tag),
        ("InPktsBadTag", own.in_pkts_bad_tag),
        ("InPktsReserved", own.in_pkts_reserved),
        ("InPktsNoSA", own.in_pkts_no_sa),
        ("InPktsNoSAError", own.in_pkts_no_sa_error),
        ("InOctetsValidated", own.in_octets_validated),
        ("InOctetsDecrypted", own.in_octets_decrypted),
        ("OutPktsUntagged", own.out_pkts_untagged),
        ("OutPktsTooLong", own.out_pkts_too_long),
        ("OutPktsNoSA", own.out_pkts_no_sa),
        ("OutPktsProtected", tx.out_pkts_protected),
        ("OutPktsEncrypted", tx.out_pkts_encrypted),
        ("OutOctetsProtected", tx.out_octets_protected),
        ("OutOctetsEncrypted", tx.out_octets_encrypted),
    ]
}

/// The counters of a receive SC or of a receive SA, with their names.
fn channel_counters(counters: RxCounters) -> [NamedCounter; 6]
    ensures { map (λ c. (c.0.now, c.1)) result ≡ channel_counters counters }
{
    [
        ("InPktsOK", counters.in_pkts_ok),
        ("InPktsUnchecked", counters.in_pkts_unchecked),
        ("InPktsDelayed", counters.in_pkts_delayed),
        ("InPktsLate", counters.in_pkts_late),
        ("InPktsInvalid", counters.in_pkts_invalid),
        ("InPktsNotValid", counters.in_pkts_not_valid),
    ]
}

fn write_counter<W: Write>(writer: &mut W, label: Label, name: &str, value: u64) -> io::Result<()>
    ensures { OnOk result (Appends (W.contents writer.old) (W.contents writer.new) (counter_text label (name.now, value))) }
{
    writeln!(writer, "{label} {name} {value}")
}

fn write_own<W: Write>(writer: &mut W, label: Label, counters: &[NamedCounter]) -> io::Result<()>
    ensures { OnOk result (Appends (W.contents writer.old) (W.contents writer.new) (flat_map (counter_text label) (map (λ c. (c.0.now, c.1)) counters.now))) }
{
    for (name, value) in counters {
        write_counter(writer, label, name, *value)?;
    }
    Ok(())
}

fn write_rx_counter<W: Write>(
    writer: &mut W,
    label: Label,
    sci: Sci,
    name: &str,
    value: u64,
) -> io::Result<()>
    ensures { OnOk result (Appends (W.contents writer.old) (W.contents writer.new) (rx_counter_text label sci (name.now, value))) }
{
    write!(writer, "{label} ")?;
    write_hex(writer, &sci.0)?;
    writeln!(writer, " {name} {value}")
}

fn write_rx<W: Write>(
    writer: &mut W,
    label: Label,
    sci: Sci,
    counters: &[NamedCounter],
) -> io::Result<()>
    ensures { OnOk result (Appends (W.contents writer.old) (W.contents writer.new) (flat_map (rx_counter_text label sci) (map (λ c. (c.0.now, c.1)) counters.now))) }
{
    for (name, value) in counters {
        write_rx_counter(writer, label, sci, name, *value)?;
    }
    Ok(())
}

/// Writes the lines of a receive SC, if it has counters.
fn write_channel<W: Write>(
    writer: &mut W,
    label: Label,
    sci: Sci,
    counters: Option<RxCounters>,
) -> io::Result<()>
    ensures { OnOk result (Appends (W.contents writer.old) (W.contents writer.new) (rx_counters_text label sci counters)) }
{
    match counters {
        Some(counters) => write_rx(writer, label, sci, &channel_counters(counters)),
        None => Ok(()),
    }
}

fn write_sa_counter<W: Write>(
    writer: &mut W,
    label: Label,
    sci: Sci,
    an: u8,
    name: &str,
    value: u64,
) -> io::Result<()>
    ensures { OnOk result (Appends (W.contents writer.old) (W.contents writer.new) (sa_counter_text label sci an (name.now, value))) }
{
    write!(writer, "{label} ")?;
    write_hex(writer, &sci.0)?;
    writeln!(writer, " {an} {name} {value}")
}

fn write_sa<W: Write>(
    writer: &mut W,
    label: Label,
    sci: Sci,
    an: u8,
    counters: &[NamedCounter],
) -> io::Result<()>
    ensures { OnOk result (Appends (W.contents writer.old) (W.contents writer.new) (flat_map (sa_counter_text label sci an) (map (λ c. (c.0.now, c.1)) counters.now))) }
{
    for (name, value) in counters {
        write_sa_counter(writer, label, sci, an, name, *value)?;
    }
    Ok(())
}

/// Writes the lines of a receive SA, if there is one.
fn write_association<W: Write>(
    writer: &mut W,
    label: Label,
    sci: Sci,
    an: An,
    counters: Option<RxCounters>,
) -> io::Result<()>
    ensures { OnOk result (Appends (W.contents writer.old) (W.contents writer.new) (sa_counters_text label sci an counters)) }
{
    match counters {
        Some(counters) => write_sa(writer, label, sci, an.number(), &channel_counters(counters)),
        None => Ok(()),
    }
}

/// Writes the lines of the SAs of a receive SC, in the order of their ANs.
fn write_associations<W: Write>(
    writer: &mut W,
    label: Label,
    endpoint: &Secy,
    sci: Sci,
) -> io::Result<()>
    ensures { OnOk result (Appends (W.contents writer.old) (W.contents writer.new) (associations_text label endpoint.now sci)) }
{
    for an in association_numbers() {
        write_association(writer, label, sci, an, endpoint.rx_sa_counters(sci, an))?;
    }
    Ok(())
}

/// Writes the lines of a receive SC, and then of its SAs.
fn write_channel_and_associations<W: Write>(
    writer: &mut W,
    label: Label,
    endpoint: &Secy,
    sci: Sci,
) -> io::Result<()>
    ensures { OnOk result (Appends (W.contents writer.old) (W.contents writer.new) (channel_text label endpoint.now sci)) }
{
    write_channel(writer, label, sci, endpoint.rx_counters(sci))?;
    write_associations(writer, label, endpoint, sci)
}

/// Writes the lines of the receive SCs, in the order of their creation.
fn write_channels<W: Write>(writer: &mut W, label: Label, endpoint: &Secy) -> io::Result<()>
    ensures { OnOk result (Appends (W.contents writer.old) (W.contents writer.new) (flat_map (channel_text label endpoint.now) endpoint.now.rx.scis)) }
{
    for place in 0..MAX_CHANNEL_COUNT {
        let Some(sci) = endpoint.rx_channel(place) else {
            return Ok(());
        };
        write_channel_and_associations(writer, label, endpoint, sci)?;
    }
    Ok(())
}

fn write_counters<W: Write>(writer: &mut W, label: Label, endpoint: &Secy) -> io::Result<()>
    ensures { OnOk result (Appends (W.contents writer.old) (W.contents writer.new) (counters_text label endpoint.now)) }
{
    let own = own_counters(endpoint.counters(), endpoint.tx_counters());
    write_own(writer, label, &own)?;
    write_channels(writer, label, endpoint)
}

/// Prints the counters of an endpoint, each on a line that begins with the label: of the endpoint, of its transmit SC,
/// and of its receive SCs. The receive SCs are in the order of their creation, each with its SAs in the order of their
/// ANs. Does not allocate, and fails only if the writer does.
pub fn print_counters<W: Write>(
    writer: &mut W,
    label: Label,
    endpoint: &Secy,
) -> Result<(), ScriptFault>
    ensures text { Prints (counters_text label endpoint.now) (W.contents writer.old) (W.contents writer.new) result }
    ensures fault { IfErr result (λ fault. fault ≡ Write) }
{
    write_fault(write_counters(writer, label, endpoint))
}
