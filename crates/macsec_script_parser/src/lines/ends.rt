//! The lines of the ends' configurations.

ghost use Rattle.std.specs.Prelude.{◌≡◌, [], map, codes, IfSome, IfNone};
ghost use Rattle.macsec_script_parser.specs.Kinds.{read_line, kinds_of, kinds, end_kinds};

use crate::ends::CheckedEnd;
use crate::lines::{Line, LineFault};
use crate::words;
use crate::words::{decimal, is_word};
use macsec_commands::{EndConfig, MAX_FRAME_LEN, MIN_MAX_FRAME};

/// Parses the words after `end`: the configuration of an end.
fn configured_end(words: &[&[u8]]) -> Result<Line, LineFault>
    ensures { result ≡ read_line kinds (codes "end") (map (λ w. w.now) words.now) }
{
    let [at, suite, sci, max_frame, form] = words else {
        return Err(LineFault::Count);
    };
    let at = words::end(at)?;
    let suite = words::suite(suite)?;
    let sci = words::sci(sci)?;
    let max_frame = decimal(MIN_MAX_FRAME as u64, MAX_FRAME_LEN as u64, max_frame)? as u32;
    let form = words::tag_form(form)?;
    let config = EndConfig {
        suite,
        sci,
        max_frame,
        form,
    };
    match CheckedEnd::new(config) {
        Some(end) => Ok(Line::End(at, end)),
        None => Err(LineFault::Ends),
    }
}

/// Parses a line of an end's configuration: its keyword and the words after it. Returns `None` for any other keyword.
pub fn end_line(keyword: &[u8], words: &[&[u8]]) -> Option<Result<Line, LineFault>>
    ensures some { IfSome result (λ line. line ≡ read_line kinds keyword.now (map (λ w. w.now) words.now)) }
    ensures none { IfNone result (kinds_of end_kinds keyword.now ≡ []) }
{
    if is_word(keyword, b"end") {
        return Some(configured_end(words));
    }
    None
}
