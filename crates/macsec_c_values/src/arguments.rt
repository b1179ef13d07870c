//! Checks the arguments of a caller in C. An argument that names nothing is refused.

ghost use Rattle.std.specs.Prelude.{◌≡◌};
ghost use Rattle.macsec_c_values.specs.Arguments.{an_of, form_of, key_number_of, key_of, key_suite_of};
ghost use Rattle.macsec_c_values.specs.Arguments.{mode_of, suite_of};
ghost use Rattle.macsec_c_values.specs.Statuses.{status_of_argument_fault};

use macsec_secy::{An, Key, KeyNumber, Mode, Suite, TagForm};

/// Which argument names nothing. The value is the status.
#[derive(Clone, Copy, PartialEq, Eq, Debug)]
pub enum ArgumentFault {
    /// No cipher suite has this number.
    Suite = 34,
    /// No tag form has this number.
    Form = 35,
    /// No validation mode has this number.
    Mode = 36,
    /// The number is not an association number (AN).
    An = 37,
    /// The number is not a key number.
    KeyNumber = 38,
    /// No key has this number of octets.
    KeyOctets = 39,
    /// The kind, the flag or the key number of a row means no command.
    Command = 59,
}

impl ArgumentFault {
    /// The status.
    pub fn status(self) -> u32
        ensures { result ≡ status_of_argument_fault self }
    {
        self as u32
    }
}

/// The suite with this number.
pub fn suite_of(number: u32) -> Result<Suite, ArgumentFault>
    ensures { result ≡ suite_of number }
{
    match number {
        1 => Ok(Suite::Gcm128),
        2 => Ok(Suite::Gcm256),
        3 => Ok(Suite::Xpn128),
        4 => Ok(Suite::Xpn256),
        _ => Err(ArgumentFault::Suite),
    }
}

/// The suite of a key. The number 0 is the endpoint's default.
pub fn key_suite_of(number: u32) -> Result<Option<Suite>, ArgumentFault>
    ensures { result ≡ key_suite_of number }
{
    if number == 0 {
        return Ok(None);
    }
    Ok(Some(suite_of(number)?))
}

/// The tag form with this number.
pub fn form_of(number: u32) -> Result<TagForm, ArgumentFault>
    ensures { result ≡ form_of number }
{
    match number {
        0 => Ok(TagForm::Auto),
        1 => Ok(TagForm::Sci),
        2 => Ok(TagForm::Es),
        3 => Ok(TagForm::Scb),
        _ => Err(ArgumentFault::Form),
    }
}

/// The validation mode with this number.
pub fn mode_of(number: u32) -> Result<Mode, ArgumentFault>
    ensures { result ≡ mode_of number }
{
    match number {
        0 => Ok(Mode::Disabled),
        1 => Ok(Mode::Check),
        2 => Ok(Mode::Strict),
        _ => Err(ArgumentFault::Mode),
    }
}

/// The association number `n`.
pub fn an_of(n: u8) -> Result<An, ArgumentFault>
    ensures { result ≡ an_of n }
{
    match An::new(n) {
        Some(an) => Ok(an),
        None => Err(ArgumentFault::An),
    }
}

/// The key number `n`.
pub fn key_number_of(n: u16) -> Result<KeyNumber, ArgumentFault>
    ensures { result ≡ key_number_of n }
{
    match KeyNumber::new(n) {
        Some(number) => Ok(number),
        None => Err(ArgumentFault::KeyNumber),
    }
}

/// The key of this length, 16 or 32 octets, at the beginning of `bytes`.
pub fn key_of(bytes: &[u8; 32], length: u8) -> Result<Key, ArgumentFault>
    ensures { result ≡ key_of bytes.now length }
{
    match length {
        16 => {
            let mut first = [0; 16];
            first.copy_from_slice(&bytes[..16]);
            Ok(Key::K128(first))
        }
        32 => Ok(Key::K256(*bytes)),
        _ => Err(ArgumentFault::KeyOctets),
    }
}
