//! The lines of an end's frames.

ghost use Rattle.std.specs.Prelude.{◌≡◌, [], map, codes, IfSome, IfNone};
ghost use Rattle.macsec_script_parser.specs.Kinds.{read_line, kinds_at, kinds_of, frame_kinds};
ghost use Rattle.macsec_script_parser.specs.Readings.{Reads};

use crate::lines::{Action, Line, LineFault};
use crate::words;
use crate::words::{frame_number, is_word};
use macsec_commands::{End, Event};
use std::alloc::Global;

/// Parses the words after `send`: a client frame.
fn send(alloc: Global, at: End, words: &[&[u8]]) -> Result<Line, LineFault>
    ensures { Reads (read_line (kinds_at at) (codes "send") (map (λ w. w.now) words.now)) result }
{
    let [octets] = words else {
        return Err(LineFault::Count);
    };
    Ok(Line::Action(Action::Event(Event::Send(at, words::frame(alloc, octets)?))))
}

/// Parses the words after `sendu`: a client frame at the uncontrolled port.
fn send_uncontrolled(alloc: Global, at: End, words: &[&[u8]]) -> Result<Line, LineFault>
    ensures { Reads (read_line (kinds_at at) (codes "sendu") (map (λ w. w.now) words.now)) result }
{
    let [octets] = words else {
        return Err(LineFault::Count);
    };
    Ok(Line::Action(Action::Event(Event::SendUncontrolled(at, words::frame(alloc, octets)?))))
}

/// Parses the words after `deliver`: a link frame that arrives at the end.
fn deliver(at: End, words: &[&[u8]]) -> Result<Line, LineFault>
    ensures { result ≡ read_line (kinds_at at) (codes "deliver") (map (λ w. w.now) words.now) }
{
    let [n] = words else {
        return Err(LineFault::Count);
    };
    Ok(Line::Action(Action::Event(Event::Deliver(at, frame_number(n)?))))
}

/// Parses a line of a frame: its keyword and the words after it. Returns `None` for any other keyword.
pub fn frame_line(
    alloc: Global,
    at: End,
    keyword: &[u8],
    words: &[&[u8]],
) -> Option<Result<Line, LineFault>>
    ensures some { IfSome result (λ line. Reads (read_line (kinds_at at) keyword.now (map (λ w. w.now) words.now)) line) }
    ensures none { IfNone result (kinds_of (frame_kinds at) keyword.now ≡ []) }
{
    if is_word(keyword, b"send") {
        return Some(send(alloc, at, words));
    }
    if is_word(keyword, b"sendu") {
        return Some(send_uncontrolled(alloc, at, words));
    }
    if is_word(keyword, b"deliver") {
        return Some(deliver(at, words));
    }
    None
}
