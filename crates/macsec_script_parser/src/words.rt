//! Splits a text into lines and words, and parses words as numbers, octets and keywords.

ghost use Rattle.std.specs.Prelude.{◌≡◌, ◌==◌, ◌<◌, ◌-◌, ◌^◌, map, bytes_eq, IfSome, IfOk};
ghost use Rattle.std.specs.List.{slice_split};
ghost use Rattle.hex.specs.Hex.{hex_digit_value};
ghost use Rattle.macsec_script_parser.specs.Words.{lines_of, words_of, without_return};
ghost use Rattle.macsec_script_parser.specs.Numerals.{decimal_in, packet_number, octets_of, some_octets};
ghost use Rattle.macsec_script_parser.specs.Fields.{value_of_keyword, ends, suites, forms, protections, switches, modes, map_ok, as_octet, as_sci, as_ssci, key_of_word};
ghost use Rattle.macsec_script_parser.specs.Readings.{Reads};

use crate::key_digits::key_octets;
use crate::lines::LineFault;
use hex::FromHexError;
use macsec_commands::{An, End, Frame, Key, KeyNumber, Mode, Sci, Suite, TagForm};
use std::alloc::{AllocError, Global};

/// The parts of a text between its line feeds.
fn pieces(alloc: Global, text: &[u8]) -> Result<Vec<&[u8]>, AllocError>
    ensures { IfOk result (λ pieces. map (λ piece. piece.now) pieces.items ≡ slice_split (λ octet. octet == 10) text.now) }
{
    text.split(|octet| *octet == b'\n').collect(alloc)
}

/// The lines of a text, without their line feeds. A line feed at the end of the text does not start another line.
pub fn lines(alloc: Global, text: &[u8]) -> Result<Vec<&[u8]>, AllocError>
    ensures { IfOk result (λ lines. map (λ line. line.now) lines.items ≡ lines_of text.now) }
{
    let mut lines = pieces(alloc, text)?;
    if let Some(last) = lines.last() {
        if last.is_empty() {
            lines.pop();
        }
    }
    Ok(lines)
}

/// The line without the carriage return at its end.
fn line_body(line: &[u8]) -> &[u8]
    ensures { result.now ≡ without_return line.now }
{
    if !line.is_empty() && line[line.len() - 1] == b'\r' {
        &line[..line.len() - 1]
    } else {
        line
    }
}

/// The words of a line.
pub fn words(alloc: Global, line: &[u8]) -> Result<Vec<&[u8]>, AllocError>
    ensures { IfOk result (λ words. map (λ word. word.now) words.items ≡ words_of line.now) }
{
    line_body(line)
        .split(|octet| *octet == b' ' || *octet == b'\t')
        .filter(|word| word.len() != 0)
        .collect(alloc)
}

/// Parses a number from `low` to `high` in 1 to 20 decimal digits.
pub fn decimal(low: u64, high: u64, word: &[u8]) -> Result<u64, LineFault>
    ensures { result ≡ decimal_in low high word.now }
{
    if word.is_empty() || word.len() > 20 {
        return Err(LineFault::Number);
    }
    let mut number = 0u64;
    for digit in word {
        if !digit.is_ascii_digit() {
            return Err(LineFault::Number);
        }
        let next = number as u128 * 10 + (*digit - b'0') as u128;
        if next > high as u128 {
            return Err(LineFault::Number);
        }
        number = next as u64;
    }
    if number < low {
        return Err(LineFault::Number);
    }
    Ok(number)
}

/// An association number.
pub fn association(word: &[u8]) -> Result<An, LineFault>
    ensures { result ≡ decimal_in 0 3 word.now }
{
    match An::new(decimal(0, 3, word)? as u8) {
        Some(an) => Ok(an),
        None => Err(LineFault::Number),
    }
}

/// The number of a key.
pub fn key_number(word: &[u8]) -> Result<KeyNumber, LineFault>
    ensures { result ≡ decimal_in 0 4095 word.now }
{
    match KeyNumber::new(decimal(0, 4095, word)? as u16) {
        Some(number) => Ok(number),
        None => Err(LineFault::Number),
    }
}

/// The number of a link frame, or the offset of an octet in one.
pub fn frame_number(word: &[u8]) -> Result<u32, LineFault>
    ensures { result ≡ decimal_in 0 (2 ^ 32 - 1) word.now }
{
    Ok(decimal(0, u32::MAX as u64, word)? as u32)
}

/// The value of a hex digit.
fn hex_digit(octet: u8) -> Option<u8>
    ensures value { result ≡ hex_digit_value octet }
    ensures below { IfSome result (λ value. value < 16) }
{
    match octet {
        b'A'..=b'F' => Some(octet - b'A' + 10),
        b'a'..=b'f' => Some(octet - b'a' + 10),
        b'0'..=b'9' => Some(octet - b'0'),
        _ => None,
    }
}

/// A packet number in 1 to 16 hex digits.
pub fn packet_number(word: &[u8]) -> Result<u64, LineFault>
    ensures { result ≡ packet_number word.now }
{
    if word.is_empty() || word.len() > 16 {
        return Err(LineFault::Hex);
    }
    let mut number = 0u64;
    for digit in word {
        let Some(value) = hex_digit(*digit) else {
            return Err(LineFault::Hex);
        };
        number = number * 16 + value as u64;
    }
    Ok(number)
}

/// A fixed number of octets in hex.
pub fn fixed_octets<const N: usize>(word: &[u8]) -> Result<[u8; N], LineFault>
    ensures { result ≡ octets_of N word.now }
{
    let mut octets = [0; N];
    match hex::decode_to_slice(word, &mut octets) {
        Ok(()) => Ok(octets),
        Err(_) => Err(LineFault::Hex),
    }
}

/// An octet in hex.
pub fn octet(word: &[u8]) -> Result<u8, LineFault>
    ensures { result ≡ map_ok as_octet (octets_of 1 word.now) }
{
    let octets: [u8; 1] = fixed_octets(word)?;
    Ok(octets[0])
}

/// An SCI in hex.
pub fn sci(word: &[u8]) -> Result<Sci, LineFault>
    ensures { result ≡ map_ok as_sci (octets_of 8 word.now) }
{
    Ok(Sci(fixed_octets(word)?))
}

/// A key of 16 or 32 octets in hex.
pub fn key(word: &[u8]) -> Result<Key, LineFault>
    ensures { result ≡ key_of_word word.now }
{
    match key_octets(word) {
        Ok(bytes) => Ok(Key::K128(bytes)),
        Err(_) => Ok(Key::K256(key_octets(word)?)),
    }
}

/// An SSCI in hex, its first octet the most significant.
pub fn ssci(word: &[u8]) -> Result<u32, LineFault>
    ensures { result ≡ map_ok as_ssci (octets_of 4 word.now) }
{
    Ok(u32::from_be_bytes(fixed_octets(word)?))
}

/// A salt in hex.
pub fn salt(word: &[u8]) -> Result<[u8; 12], LineFault>
    ensures { result ≡ octets_of 12 word.now }
{
    fixed_octets(word)
}

/// A frame of one octet or more in hex.
pub fn frame(alloc: Global, word: &[u8]) -> Result<Frame, LineFault>
    ensures { Reads (some_octets word.now) result }
{
    if word.is_empty() {
        return Err(LineFault::Hex);
    }
    match hex::decode(alloc, word) {
        Ok(octets) => Ok(Frame::new(octets)),
        Err(FromHexError::OutOfMemory) => Err(LineFault::Memory),
        Err(_) => Err(LineFault::Hex),
    }
}

/// Does the word have exactly these letters?
pub fn is_word(word: &[u8], letters: &[u8]) -> bool
    ensures { result ≡ bytes_eq letters.now word.now }
{
    letters == word
}

/// The letter of an end.
pub fn end(word: &[u8]) -> Result<End, LineFault>
    ensures { result ≡ value_of_keyword ends word.now }
{
    if is_word(word, b"A") {
        return Ok(End::A);
    }
    if is_word(word, b"B") {
        return Ok(End::B);
    }
    Err(LineFault::Word)
}

/// The keyword of a cipher suite.
pub fn suite(word: &[u8]) -> Result<Suite, LineFault>
    ensures { result ≡ value_of_keyword suites word.now }
{
    if is_word(word, b"gcm128") {
        return Ok(Suite::Gcm128);
    }
    if is_word(word, b"gcm256") {
        return Ok(Suite::Gcm256);
    }
    if is_word(word, b"xpn128") {
        return Ok(Suite::Xpn128);
    }
    if is_word(word, b"xpn256") {
        return Ok(Suite::Xpn256);
    }
    Err(LineFault::Word)
}

/// The keyword of a tag form.
pub fn tag_form(word: &[u8]) -> Result<TagForm, LineFault>
    ensures { result ≡ value_of_keyword forms word.now }
{
    if is_word(word, b"auto") {
        return Ok(TagForm::Auto);
    }
    if is_word(word, b"sci") {
        return Ok(TagForm::Sci);
    }
    if is_word(word, b"es") {
        return Ok(TagForm::Es);
    }
    if is_word(word, b"scb") {
        return Ok(TagForm::Scb);
    }
    Err(LineFault::Word)
}

/// `int` or `conf`: is the data of client frames encrypted as well?
pub fn protection(word: &[u8]) -> Result<bool, LineFault>
    ensures { result ≡ value_of_keyword protections word.now }
{
    if is_word(word, b"int") {
        return Ok(false);
    }
    if is_word(word, b"conf") {
        return Ok(true);
    }
    Err(LineFault::Word)
}

/// `on` or `off`: is it on?
pub fn switch(word: &[u8]) -> Result<bool, LineFault>
    ensures { result ≡ value_of_keyword switches word.now }
{
    if is_word(word, b"on") {
        return Ok(true);
    }
    if is_word(word, b"off") {
        return Ok(false);
    }
    Err(LineFault::Word)
}

/// The keyword of a validation mode.
pub fn validation(word: &[u8]) -> Result<Mode, LineFault>
    ensures { result ≡ value_of_keyword modes word.now }
{
    if is_word(word, b"disabled") {
        return Ok(Mode::Disabled);
    }
    if is_word(word, b"check") {
        return Ok(Mode::Check);
    }
    if is_word(word, b"strict") {
        return Ok(Mode::Strict);
    }
    Err(LineFault::Word)
}
