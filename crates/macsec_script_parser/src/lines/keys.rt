//! The lines of an end's keys.

ghost use Rattle.std.specs.Prelude.{◌≡◌, [], map, codes, Some, Ok, IfSome, IfNone};
ghost use Rattle.macsec_commands.specs.declared.command.Command.TheVariants as by;
ghost use Rattle.macsec_script_parser.specs.Numerals.{decimal_in, octets_of};
ghost use Rattle.macsec_script_parser.specs.Fields.{as_ssci, key_of_word, map_ok, suites, value_of_keyword};
ghost use Rattle.macsec_script_parser.specs.Kinds.{and_then, key_from, read_line, kinds_at, kinds_of, key_kinds, tells};

use crate::lines::{Action, Line, LineFault};
use crate::words;
use crate::words::{decimal, is_word, key_number};
use macsec_commands::{Command, End, Event, NewKey, Suite};

/// Parses the suite of a key.
fn some_suite(word: &[u8]) -> Result<Option<Suite>, LineFault>
    ensures { result ≡ map_ok Some (value_of_keyword suites word.now) }
{
    let suite = words::suite(word)?;
    Ok(Some(suite))
}

/// Parses the SSCI and the salt of a key.
fn ssci_and_salt(ssci: &[u8], salt: &[u8]) -> Result<(u32, [u8; 12]), LineFault>
    ensures { result ≡ and_then (map_ok as_ssci (octets_of 4 ssci.now)) (λ ssci. map_ok (λ salt. (ssci, salt)) (octets_of 12 salt.now)) }
{
    let ssci = words::ssci(ssci)?;
    let salt = words::salt(salt)?;
    Ok((ssci, salt))
}

/// The line that installs a key, from its first three words and the parsed suite, SSCI and salt.
fn installation(
    at: End,
    number: &[u8],
    bytes: &[u8],
    offset: &[u8],
    suite: Result<Option<Suite>, LineFault>,
    more: Result<(u32, [u8; 12]), LineFault>,
) -> Result<Line, LineFault>
    ensures { result ≡ and_then (decimal_in 0 4095 number.now) (λ n. and_then (key_of_word bytes.now) (λ key.
        and_then (decimal_in 0 255 offset.now) (λ offset. and_then suite (λ suite. and_then more (λ more.
        Ok (tells at (by.Key (key_from n key offset suite more.0 more.1)))))))) }
{
    let number = key_number(number)?;
    let bytes = words::key(bytes)?;
    let offset = decimal(0, 255, offset)? as u8;
    let suite = suite?;
    let (ssci, salt) = more?;
    Ok(Line::Action(Action::Event(Event::Command(
        at,
        Command::Key(NewKey {
            number,
            bytes,
            salt,
            ssci,
            offset,
            suite,
        }),
    ))))
}

/// Parses the words after `key`, which installs a key. Their count decides what follows the offset: nothing, a suite,
/// an SSCI and a salt, or all three. If they are left out, the SSCI and the salt are zero.
fn new_key(at: End, words: &[&[u8]]) -> Result<Line, LineFault>
    ensures { result ≡ read_line (kinds_at at) (codes "key") (map (λ w. w.now) words.now) }
{
    match words {
        [number, bytes, offset] => {
            installation(at, number, bytes, offset, Ok(None), Ok((0, [0; 12])))
        }
        [number, bytes, offset, suite] => {
            let suite = some_suite(suite);
            installation(at, number, bytes, offset, suite, Ok((0, [0; 12])))
        }
        [number, bytes, offset, ssci, salt] => {
            let more = ssci_and_salt(ssci, salt);
            installation(at, number, bytes, offset, Ok(None), more)
        }
        [number, bytes, offset, suite, ssci, salt] => {
            let suite = some_suite(suite);
            installation(at, number, bytes, offset, suite, ssci_and_salt(ssci, salt))
        }
        _ => Err(LineFault::Count),
    }
}

/// Parses the words after `retire`, which retires a key.
fn retire(at: End, words: &[&[u8]]) -> Result<Line, LineFault>
    ensures { result ≡ read_line (kinds_at at) (codes "retire") (map (λ w. w.now) words.now) }
{
    let [number] = words else {
        return Err(LineFault::Count);
    };
    Ok(Line::Action(Action::Event(Event::Command(at, Command::Retire(key_number(number)?)))))
}

/// Parses a line of a key: its keyword and the words after it. Returns `None` for any other keyword.
pub fn key_line(at: End, keyword: &[u8], words: &[&[u8]]) -> Option<Result<Line, LineFault>>
    ensures some { IfSome result (λ line. line ≡ read_line (kinds_at at) keyword.now (map (λ w. w.now) words.now)) }
    ensures none { IfNone result (kinds_of (key_kinds at) keyword.now ≡ []) }
{
    if is_word(keyword, b"key") {
        return Some(new_key(at, words));
    }
    if is_word(keyword, b"retire") {
        return Some(retire(at, words));
    }
    None
}
