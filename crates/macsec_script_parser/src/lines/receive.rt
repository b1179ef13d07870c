//! The lines of an end's receive SCs and their SAs.

ghost use Rattle.std.specs.Prelude.{◌≡◌, [], map, codes, Ok, IfSome, IfNone};
ghost use Rattle.macsec_commands.specs.declared.command.Command.TheVariants as by;
ghost use Rattle.macsec_script_parser.specs.Numerals.{decimal_in, octets_of, packet_number};
ghost use Rattle.macsec_script_parser.specs.Fields.{as_sci, map_ok};
ghost use Rattle.macsec_script_parser.specs.Kinds.{and_then, read_line, kinds_at, kinds_of, channel_kinds, receive_kinds, tells};

use crate::lines::{Action, Line, LineFault};
use crate::words;
use crate::words::{association, is_word, key_number};
use macsec_commands::{Command, End, Event};

/// Parses the words after `rxsc`, which creates a receive SC.
fn rx_sc(at: End, words: &[&[u8]]) -> Result<Line, LineFault>
    ensures { result ≡ read_line (kinds_at at) (codes "rxsc") (map (λ w. w.now) words.now) }
{
    let [sci] = words else {
        return Err(LineFault::Count);
    };
    Ok(Line::Action(Action::Event(Event::Command(at, Command::RxSc(words::sci(sci)?)))))
}

/// Parses the words after `rxscdel`, which deletes a receive SC.
fn rx_sc_del(at: End, words: &[&[u8]]) -> Result<Line, LineFault>
    ensures { result ≡ read_line (kinds_at at) (codes "rxscdel") (map (λ w. w.now) words.now) }
{
    let [sci] = words else {
        return Err(LineFault::Count);
    };
    Ok(Line::Action(Action::Event(Event::Command(at, Command::RxScDel(words::sci(sci)?)))))
}

/// The line that creates a receive SA, from its first four words and the parsed SSCI of its sender.
fn association_with(
    at: End,
    sci: &[u8],
    an: &[u8],
    key: &[u8],
    lowest: &[u8],
    ssci: Result<u32, LineFault>,
) -> Result<Line, LineFault>
    ensures { result ≡ and_then (map_ok as_sci (octets_of 8 sci.now)) (λ sci. and_then (decimal_in 0 3 an.now) (λ an.
        and_then (decimal_in 0 4095 key.now) (λ key. and_then (packet_number lowest.now) (λ lowest. and_then ssci (λ ssci.
        Ok (tells at (by.RxSa sci an key ssci lowest))))))) }
{
    let sci = words::sci(sci)?;
    let an = association(an)?;
    let key = key_number(key)?;
    let lowest = words::packet_number(lowest)?;
    let ssci = ssci?;
    Ok(Line::Action(Action::Event(Event::Command(
        at,
        Command::RxSa {
            sci,
            an,
            key,
            ssci,
            lowest,
        },
    ))))
}

/// Parses the words after `rxsa`, which creates a receive SA. The last word, the SSCI of its sender, is optional: zero
/// if it is left out.
fn rx_sa(at: End, words: &[&[u8]]) -> Result<Line, LineFault>
    ensures { result ≡ read_line (kinds_at at) (codes "rxsa") (map (λ w. w.now) words.now) }
{
    match words {
        [sci, an, key, lowest] => association_with(at, sci, an, key, lowest, Ok(0)),
        [sci, an, key, lowest, ssci] => {
            association_with(at, sci, an, key, lowest, words::ssci(ssci))
        }
        _ => Err(LineFault::Count),
    }
}

/// Parses the words after `rxon`, which enables a receive SA.
fn rx_on(at: End, words: &[&[u8]]) -> Result<Line, LineFault>
    ensures { result ≡ read_line (kinds_at at) (codes "rxon") (map (λ w. w.now) words.now) }
{
    let [sci, an] = words else {
        return Err(LineFault::Count);
    };
    let sci = words::sci(sci)?;
    let an = association(an)?;
    Ok(Line::Action(Action::Event(Event::Command(at, Command::RxOn(sci, an)))))
}

/// Parses the words after `rxoff`, which disables a receive SA.
fn rx_off(at: End, words: &[&[u8]]) -> Result<Line, LineFault>
    ensures { result ≡ read_line (kinds_at at) (codes "rxoff") (map (λ w. w.now) words.now) }
{
    let [sci, an] = words else {
        return Err(LineFault::Count);
    };
    let sci = words::sci(sci)?;
    let an = association(an)?;
    Ok(Line::Action(Action::Event(Event::Command(at, Command::RxOff(sci, an)))))
}

/// Parses the words after `rxlow`: the lowest acceptable packet number of a receive SA.
fn rx_low(at: End, words: &[&[u8]]) -> Result<Line, LineFault>
    ensures { result ≡ read_line (kinds_at at) (codes "rxlow") (map (λ w. w.now) words.now) }
{
    let [sci, an, pn] = words else {
        return Err(LineFault::Count);
    };
    let sci = words::sci(sci)?;
    let an = association(an)?;
    let pn = words::packet_number(pn)?;
    Ok(Line::Action(Action::Event(Event::Command(at, Command::RxLow { sci, an, pn }))))
}

/// Parses the words after `rxdel`, which deletes a receive SA.
fn rx_del(at: End, words: &[&[u8]]) -> Result<Line, LineFault>
    ensures { result ≡ read_line (kinds_at at) (codes "rxdel") (map (λ w. w.now) words.now) }
{
    let [sci, an] = words else {
        return Err(LineFault::Count);
    };
    let sci = words::sci(sci)?;
    let an = association(an)?;
    Ok(Line::Action(Action::Event(Event::Command(at, Command::RxDel(sci, an)))))
}

/// Parses a line of a receive SC: its keyword and the words after it. Returns `None` for any other keyword.
pub fn channel_line(at: End, keyword: &[u8], words: &[&[u8]]) -> Option<Result<Line, LineFault>>
    ensures some { IfSome result (λ line. line ≡ read_line (kinds_at at) keyword.now (map (λ w. w.now) words.now)) }
    ensures none { IfNone result (kinds_of (channel_kinds at) keyword.now ≡ []) }
{
    if is_word(keyword, b"rxsc") {
        return Some(rx_sc(at, words));
    }
    if is_word(keyword, b"rxscdel") {
        return Some(rx_sc_del(at, words));
    }
    None
}

/// Parses a line of a receive SA: its keyword and the words after it. Returns `None` for any other keyword.
pub fn receive_line(at: End, keyword: &[u8], words: &[&[u8]]) -> Option<Result<Line, LineFault>>
    ensures some { IfSome result (λ line. line ≡ read_line (kinds_at at) keyword.now (map (λ w. w.now) words.now)) }
    ensures none { IfNone result (kinds_of (receive_kinds at) keyword.now ≡ []) }
{
    if is_word(keyword, b"rxsa") {
        return Some(rx_sa(at, words));
    }
    if is_word(keyword, b"rxon") {
        return Some(rx_on(at, words));
    }
    if is_word(keyword, b"rxoff") {
        return Some(rx_off(at, words));
    }
    if is_word(keyword, b"rxlow") {
        return Some(rx_low(at, words));
    }
    if is_word(keyword, b"rxdel") {
        return Some(rx_del(at, words));
    }
    None
}
