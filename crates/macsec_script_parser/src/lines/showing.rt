//! The lines that show something of an end.

ghost use Rattle.std.specs.Prelude.{◌≡◌, [], map, codes, IfSome, IfNone};
ghost use Rattle.macsec_script_parser.specs.Kinds.{read_line, kinds_at, kinds_of, show_kinds};

use crate::lines::{Action, Line, LineFault};
use crate::words::is_word;
use macsec_commands::End;

/// Parses the words after `counters`, which shows counters.
fn counters(at: End, words: &[&[u8]]) -> Result<Line, LineFault>
    ensures { result ≡ read_line (kinds_at at) (codes "counters") (map (λ w. w.now) words.now) }
{
    if !words.is_empty() {
        return Err(LineFault::Count);
    }
    Ok(Line::Action(Action::Counters(at)))
}

/// Parses the words after `numbers`, which shows packet numbers.
fn numbers(at: End, words: &[&[u8]]) -> Result<Line, LineFault>
    ensures { result ≡ read_line (kinds_at at) (codes "numbers") (map (λ w. w.now) words.now) }
{
    if !words.is_empty() {
        return Err(LineFault::Count);
    }
    Ok(Line::Action(Action::Numbers(at)))
}

/// Parses a line that shows counters or packet numbers: its keyword and the words after it. Returns `None` for any
/// other keyword.
pub fn show_line(at: End, keyword: &[u8], words: &[&[u8]]) -> Option<Result<Line, LineFault>>
    ensures some { IfSome result (λ line. line ≡ read_line (kinds_at at) keyword.now (map (λ w. w.now) words.now)) }
    ensures none { IfNone result (kinds_of (show_kinds at) keyword.now ≡ []) }
{
    if is_word(keyword, b"counters") {
        return Some(counters(at, words));
    }
    if is_word(keyword, b"numbers") {
        return Some(numbers(at, words));
    }
    None
}
