//! Parses the lines of a script.

ghost use Rattle.std.specs.Prelude.{◌≡◌, [], map, IfSome, IfNone};
ghost use Rattle.macsec_script_parser.specs.Fields.{value_of_keyword, ends};
ghost use Rattle.macsec_script_parser.specs.Kinds.{read_line, read_at, kinds_at, kinds, kinds_of, operator_kinds, of_words, line_of};
ghost use Rattle.macsec_script_parser.specs.Readings.{Reads};

mod ends;
mod frames;
mod keys;
mod link;
mod options;
mod receive;
mod showing;
mod transmit;

use crate::ends::CheckedEnd;
use crate::words;
use ends::end_line;
use frames::frame_line;
use keys::key_line;
use link::link_line;
use macsec_commands::{End, Event};
use options::{option_line, protection_line};
use receive::{channel_line, receive_line};
use showing::show_line;
use std::alloc::Global;
use transmit::transmit_line;

/// A parsed line of a script.
#[derive(Drop)]
pub enum Line {
    /// The configuration of an end.
    End(End, CheckedEnd),
    /// What the script does.
    Action(Action),
}

/// What a line does that is not an `end` line.
#[derive(Drop)]
pub enum Action {
    /// An event at an end or on the link.
    Event(Event),
    /// Show the counters of an end.
    Counters(End),
    /// Show the packet numbers of an end.
    Numbers(End),
}

/// A fault of a line, without its number. A `ScriptFault` adds the number, or is a fault of the whole script.
#[derive(Clone, Copy, PartialEq, Eq)]
pub enum LineFault {
    /// Its keyword is unknown, or a word is not in the list of words that its position allows.
    Word,
    /// It has too few words or too many.
    Count,
    /// A word is not hex text, or has the wrong number of octets.
    Hex,
    /// A word is not a decimal number, or is out of range.
    Number,
    /// The tag form of an end does not fit its SCI.
    Ends,
    /// It has more than 20,000 octets.
    LineLong,
    /// Out of memory.
    Memory,
}

/// The most octets of a line, not counting its line feed.
const MAX_LINE_LEN: usize = 20_000;

/// Parses a command at an end: its keyword and the words after it. Returns `None` for any other keyword.
// Keywords are compared as whole words, here and in each group. A `match` compares lengths and then single octets, and
// its proof takes two to seven times as long.
fn operator_line(at: End, keyword: &[u8], words: &[&[u8]]) -> Option<Result<Line, LineFault>>
    ensures some { IfSome result (λ line. line ≡ read_line (kinds_at at) keyword.now (map (λ w. w.now) words.now)) }
    ensures none { IfNone result (kinds_of (operator_kinds at) keyword.now ≡ []) }
{
    if let Some(line) = protection_line(at, keyword, words) {
        return Some(line);
    }
    if let Some(line) = option_line(at, keyword, words) {
        return Some(line);
    }
    if let Some(line) = key_line(at, keyword, words) {
        return Some(line);
    }
    if let Some(line) = transmit_line(at, keyword, words) {
        return Some(line);
    }
    if let Some(line) = channel_line(at, keyword, words) {
        return Some(line);
    }
    receive_line(at, keyword, words)
}

/// Parses a line that begins with the letter of an end: its keyword and the words after it.
fn line_at(alloc: Global, at: End, keyword: &[u8], words: &[&[u8]]) -> Result<Line, LineFault>
    ensures { Reads (read_line (kinds_at at) keyword.now (map (λ w. w.now) words.now)) result }
{
    if let Some(line) = operator_line(at, keyword, words) {
        return line;
    }
    if let Some(line) = frame_line(alloc, at, keyword, words) {
        return line;
    }
    match show_line(at, keyword, words) {
        Some(line) => line,
        None => Err(LineFault::Word),
    }
}

/// Parses a line that does not begin with the letter of an end: its keyword and the words after it.
fn line_of_none(alloc: Global, keyword: &[u8], words: &[&[u8]]) -> Result<Line, LineFault>
    ensures { Reads (read_line kinds keyword.now (map (λ w. w.now) words.now)) result }
{
    if let Some(line) = end_line(keyword, words) {
        return line;
    }
    match link_line(alloc, keyword, words) {
        Some(line) => line,
        None => Err(LineFault::Word),
    }
}

/// Parses a line: its first word and the words after it.
fn line_from(alloc: Global, first: &[u8], words: &[&[u8]]) -> Result<Line, LineFault>
    ensures { Reads (read_at (value_of_keyword ends first.now) first.now (map (λ w. w.now) words.now)) result }
{
    let Ok(at) = words::end(first) else {
        return line_of_none(alloc, first, words);
    };
    let [keyword, words @ ..] = words else {
        return Err(LineFault::Count);
    };
    line_at(alloc, at, keyword, words)
}

/// Parses a line from its words. Returns `None` if it is skipped.
fn line_of_words(alloc: Global, words: &[&[u8]]) -> Result<Option<Line>, LineFault>
    ensures { Reads (of_words (map (λ w. w.now) words.now)) result }
{
    let [first, words @ ..] = words else {
        return Ok(None);
    };
    if first.is_empty() || first[0] == b'#' {
        return Ok(None);
    }
    let line = line_from(alloc, first, words)?;
    Ok(Some(line))
}

/// Parses a line, given without its line feed but with its carriage return. Returns `None` if it is skipped, or its
/// first fault in this order: `LineLong`; `Word` if the keyword is unknown (the first word, or the second after the
/// letter of an end); `Count`; the first fault of a word, from left to right; `Ends` if the tag form of an `end` line
/// does not fit its SCI. Returns `Memory` if memory runs out.
pub fn parse_line(alloc: Global, text: &[u8]) -> Result<Option<Line>, LineFault>
    ensures { Reads (line_of text.now) result }
{
    if text.len() > MAX_LINE_LEN {
        return Err(LineFault::LineLong);
    }
    let Ok(words) = words::words(alloc, text) else {
        return Err(LineFault::Memory);
    };
    line_of_words(alloc, words.as_slice())
}
