//! The lines of the link.

ghost use Rattle.std.specs.Prelude.{◌≡◌, [], map, codes, IfSome, IfNone};
ghost use Rattle.macsec_script_parser.specs.Kinds.{read_line, kinds_of, kinds, link_kinds};
ghost use Rattle.macsec_script_parser.specs.Readings.{Reads};

use crate::lines::{Action, Line, LineFault};
use crate::words;
use crate::words::{frame_number, is_word};
use macsec_commands::Event;
use std::alloc::Global;

/// Parses the words after `alter`: a link frame with one octet set.
fn alter(words: &[&[u8]]) -> Result<Line, LineFault>
    ensures { result ≡ read_line kinds (codes "alter") (map (λ w. w.now) words.now) }
{
    let [n, place, octet] = words else {
        return Err(LineFault::Count);
    };
    let n = frame_number(n)?;
    let place = frame_number(place)?;
    let octet = words::octet(octet)?;
    Ok(Line::Action(Action::Event(Event::Alter(n, place, octet))))
}

/// Parses the words after `pad`: a link frame with zeros up to 60 octets.
fn pad(words: &[&[u8]]) -> Result<Line, LineFault>
    ensures { result ≡ read_line kinds (codes "pad") (map (λ w. w.now) words.now) }
{
    let [n] = words else {
        return Err(LineFault::Count);
    };
    Ok(Line::Action(Action::Event(Event::Pad(frame_number(n)?))))
}

/// Parses the words after `inject`: a link frame of these octets.
fn inject(alloc: Global, words: &[&[u8]]) -> Result<Line, LineFault>
    ensures { Reads (read_line kinds (codes "inject") (map (λ w. w.now) words.now)) result }
{
    let [octets] = words else {
        return Err(LineFault::Count);
    };
    Ok(Line::Action(Action::Event(Event::Inject(words::frame(alloc, octets)?))))
}

/// Parses a line of the link: its keyword and the words after it. Returns `None` for any other keyword.
pub fn link_line(alloc: Global, keyword: &[u8], words: &[&[u8]]) -> Option<Result<Line, LineFault>>
    ensures some { IfSome result (λ line. Reads (read_line kinds keyword.now (map (λ w. w.now) words.now)) line) }
    ensures none { IfNone result (kinds_of link_kinds keyword.now ≡ []) }
{
    if is_word(keyword, b"alter") {
        return Some(alter(words));
    }
    if is_word(keyword, b"pad") {
        return Some(pad(words));
    }
    if is_word(keyword, b"inject") {
        return Some(inject(alloc, words));
    }
    None
}
