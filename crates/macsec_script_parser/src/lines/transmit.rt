//! The lines of an end's transmit SAs.

ghost use Rattle.std.specs.Prelude.{◌≡◌, [], map, codes, IfSome, IfNone};
ghost use Rattle.macsec_script_parser.specs.Kinds.{read_line, kinds_at, kinds_of, transmit_kinds};

use crate::lines::{Action, Line, LineFault};
use crate::words;
use crate::words::{association, is_word, key_number};
use macsec_commands::{Command, End, Event};

/// Parses the words after `txsa`, which creates a transmit SA.
fn tx_sa(at: End, words: &[&[u8]]) -> Result<Line, LineFault>
    ensures { result ≡ read_line (kinds_at at) (codes "txsa") (map (λ w. w.now) words.now) }
{
    let [an, key, next, protection] = words else {
        return Err(LineFault::Count);
    };
    let an = association(an)?;
    let key = key_number(key)?;
    let next = words::packet_number(next)?;
    let conf = words::protection(protection)?;
    Ok(Line::Action(Action::Event(Event::Command(
        at,
        Command::TxSa {
            an,
            key,
            next,
            conf,
        },
    ))))
}

/// Parses the words after `txon`, which enables a transmit SA.
fn tx_on(at: End, words: &[&[u8]]) -> Result<Line, LineFault>
    ensures { result ≡ read_line (kinds_at at) (codes "txon") (map (λ w. w.now) words.now) }
{
    let [an] = words else {
        return Err(LineFault::Count);
    };
    Ok(Line::Action(Action::Event(Event::Command(at, Command::TxOn(association(an)?)))))
}

/// Parses the words after `txoff`, which disables a transmit SA.
fn tx_off(at: End, words: &[&[u8]]) -> Result<Line, LineFault>
    ensures { result ≡ read_line (kinds_at at) (codes "txoff") (map (λ w. w.now) words.now) }
{
    let [an] = words else {
        return Err(LineFault::Count);
    };
    Ok(Line::Action(Action::Event(Event::Command(at, Command::TxOff(association(an)?)))))
}

/// Parses the words after `txdel`, which deletes a transmit SA.
fn tx_del(at: End, words: &[&[u8]]) -> Result<Line, LineFault>
    ensures { result ≡ read_line (kinds_at at) (codes "txdel") (map (λ w. w.now) words.now) }
{
    let [an] = words else {
        return Err(LineFault::Count);
    };
    Ok(Line::Action(Action::Event(Event::Command(at, Command::TxDel(association(an)?)))))
}

/// Parses a line of a transmit SA: its keyword and the words after it. Returns `None` for any other keyword.
pub fn transmit_line(at: End, keyword: &[u8], words: &[&[u8]]) -> Option<Result<Line, LineFault>>
    ensures some { IfSome result (λ line. line ≡ read_line (kinds_at at) keyword.now (map (λ w. w.now) words.now)) }
    ensures none { IfNone result (kinds_of (transmit_kinds at) keyword.now ≡ []) }
{
    if is_word(keyword, b"txsa") {
        return Some(tx_sa(at, words));
    }
    if is_word(keyword, b"txon") {
        return Some(tx_on(at, words));
    }
    if is_word(keyword, b"txoff") {
        return Some(tx_off(at, words));
    }
    if is_word(keyword, b"txdel") {
        return Some(tx_del(at, words));
    }
    None
}
