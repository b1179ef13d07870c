//! Keys and commands that the arguments of a caller in C name.

ghost use Rattle.std.specs.Prelude.{◌≡◌};
ghost use Rattle.macsec_commands.specs.declared.command.Command.TheVariants as by;
ghost use Rattle.macsec_c_values.specs.Arguments.{an_of, key_number_of, naming_both};
ghost use Rattle.macsec_c_values.specs.Keys.{new_key_of};

use crate::{ArgumentFault, an_of, key_number_of, key_of, key_suite_of};
use macsec_secy::{Command, NewKey, Sci};

/// A key to install, as C gives it. The key is the first `length` octets of `bytes`.
#[repr(C)]
#[derive(Drop)]
pub struct Sak {
    pub bytes: [u8; 32],
    pub salt: [u8; 12],
    pub ssci: u32,
    pub suite: u32,
    pub number: u16,
    pub length: u8,
    pub offset: u8,
}

/// The key that it names, or the first argument that names nothing.
pub fn new_key_of(key: &Sak) -> Result<NewKey, ArgumentFault>
    ensures { result ≡ new_key_of key.now }
{
    let suite = key_suite_of(key.suite)?;
    let number = key_number_of(key.number)?;
    let bytes = key_of(&key.bytes, key.length)?;
    Ok(NewKey {
        number,
        bytes,
        salt: key.salt,
        ssci: key.ssci,
        offset: key.offset,
        suite,
    })
}

/// The command that creates this transmit SA.
pub fn tx_sa_of(an: u8, key: u16, next: u64, conf: bool) -> Result<Command, ArgumentFault>
    ensures { result ≡ naming_both (λ n k. by.TxSa n k next conf) (an_of an) (key_number_of key) }
{
    let an = an_of(an)?;
    let key = key_number_of(key)?;
    Ok(Command::TxSa {
        an,
        key,
        next,
        conf,
    })
}

/// The command that creates this receive SA.
pub fn rx_sa_of(
    sci: Sci,
    an: u8,
    key: u16,
    ssci: u32,
    lowest: u64,
) -> Result<Command, ArgumentFault>
    ensures { result ≡ naming_both (λ n k. by.RxSa sci n k ssci lowest) (an_of an) (key_number_of key) }
{
    let an = an_of(an)?;
    let key = key_number_of(key)?;
    Ok(Command::RxSa {
        sci,
        an,
        key,
        ssci,
        lowest,
    })
}
