//! The lines that set an end's options.

ghost use Rattle.std.specs.Prelude.{◌≡◌, [], map, codes, IfSome, IfNone};
ghost use Rattle.macsec_script_parser.specs.Kinds.{read_line, kinds_at, kinds_of, protection_kinds, option_kinds};

use crate::lines::{Action, Line, LineFault};
use crate::words;
use crate::words::{decimal, is_word};
use macsec_commands::{Command, End, Event};

/// Parses the words after `protect`: whether frames are protected.
fn protect(at: End, words: &[&[u8]]) -> Result<Line, LineFault>
    ensures { result ≡ read_line (kinds_at at) (codes "protect") (map (λ w. w.now) words.now) }
{
    let [on] = words else {
        return Err(LineFault::Count);
    };
    Ok(Line::Action(Action::Event(Event::Command(at, Command::Protect(words::switch(on)?)))))
}

/// Parses the words after `validate`: how received frames are validated.
fn validate(at: End, words: &[&[u8]]) -> Result<Line, LineFault>
    ensures { result ≡ read_line (kinds_at at) (codes "validate") (map (λ w. w.now) words.now) }
{
    let [mode] = words else {
        return Err(LineFault::Count);
    };
    Ok(Line::Action(Action::Event(Event::Command(at, Command::Validate(words::validation(mode)?)))))
}

/// Parses the words after `replay`: whether late frames are dropped, and the window.
fn replay(at: End, words: &[&[u8]]) -> Result<Line, LineFault>
    ensures { result ≡ read_line (kinds_at at) (codes "replay") (map (λ w. w.now) words.now) }
{
    let [on, window] = words else {
        return Err(LineFault::Count);
    };
    let protect = words::switch(on)?;
    let window = decimal(0, u64::MAX, window)?;
    Ok(Line::Action(Action::Event(Event::Command(at, Command::Replay { protect, window }))))
}

/// Parses the words after `tag`: the tag form.
fn tag(at: End, words: &[&[u8]]) -> Result<Line, LineFault>
    ensures { result ≡ read_line (kinds_at at) (codes "tag") (map (λ w. w.now) words.now) }
{
    let [form] = words else {
        return Err(LineFault::Count);
    };
    Ok(Line::Action(Action::Event(Event::Command(at, Command::Tag(words::tag_form(form)?)))))
}

/// Parses a line that sets whether frames are protected, or how they are validated: its keyword and the words after it.
/// Returns `None` for any other keyword.
pub fn protection_line(at: End, keyword: &[u8], words: &[&[u8]]) -> Option<Result<Line, LineFault>>
    ensures some { IfSome result (λ line. line ≡ read_line (kinds_at at) keyword.now (map (λ w. w.now) words.now)) }
    ensures none { IfNone result (kinds_of (protection_kinds at) keyword.now ≡ []) }
{
    if is_word(keyword, b"protect") {
        return Some(protect(at, words));
    }
    if is_word(keyword, b"validate") {
        return Some(validate(at, words));
    }
    None
}

/// Parses a line that sets another option: its keyword and the words after it. Returns `None` for any other keyword.
pub fn option_line(at: End, keyword: &[u8], words: &[&[u8]]) -> Option<Result<Line, LineFault>>
    ensures some { IfSome result (λ line. line ≡ read_line (kinds_at at) keyword.now (map (λ w. w.now) words.now)) }
    ensures none { IfNone result (kinds_of (option_kinds at) keyword.now ≡ []) }
{
    if is_word(keyword, b"replay") {
        return Some(replay(at, words));
    }
    if is_word(keyword, b"tag") {
        return Some(tag(at, words));
    }
    None
}
