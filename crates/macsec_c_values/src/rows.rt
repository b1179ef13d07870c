//! The command of a line as C sees it.

ghost use Rattle.std.specs.Prelude.{◌≡◌, ◌<◌, Ok};
ghost use Rattle.macsec_commands.specs.declared.command.Command.TheVariants as by;
ghost use Rattle.macsec_c_values.specs.Arguments.{an_of, key_number_of};
ghost use Rattle.macsec_c_values.specs.Keys.{new_key_of};
ghost use Rattle.macsec_c_values.specs.Rows.{HasLength, IsCommand, flag_of, key_octets, kind_of, number_of_flag};
ghost use Rattle.macsec_c_values.specs.Rows.{number_of_key_suite, number_of_kind, sak_of};
ghost use Rattle.macsec_c_values.specs.Rows.{choice_row, command_row, config_row, flag_row, kind_row, no_config};
ghost use Rattle.macsec_c_values.specs.Rows.{no_row, row_of, rx_row, sc_row, tx_row};
ghost use Rattle.macsec_c_values.specs.Rows.{command_as, command_of_row, key_shown, tx_sa_with};

use crate::showing::{number_of_form, number_of_mode};
use crate::{
    ArgumentFault, Config, Sak, an_of, form_of, key_number_of, mode_of, new_key_of, rx_sa_of,
};
use macsec_secy::{An, Command, EndConfig, Key, KeyNumber, NewKey, Sci, Suite};

/// Which command a row is. The value is the number.
#[derive(Clone, Copy, PartialEq, Eq, Debug)]
pub enum CommandKind {
    /// No command: the line is skipped.
    None = 0,
    Protect = 1,
    Validate = 2,
    Replay = 3,
    Tag = 4,
    Key = 5,
    Retire = 6,
    TxSa = 7,
    TxOn = 8,
    TxOff = 9,
    TxDel = 10,
    RxSc = 11,
    RxScDel = 12,
    RxSa = 13,
    RxOn = 14,
    RxOff = 15,
    RxLow = 16,
    RxDel = 17,
}

impl CommandKind {
    /// The number.
    fn number(self) -> u32
        ensures { result ≡ number_of_kind self }
    {
        self as u32
    }
}

/// A command as C sees it. `kind` says which members it uses; the others are zero.
#[repr(C)]
#[derive(Drop)]
pub struct CommandRow {
    pub sak: Sak,
    pub pn: u64,
    pub sci: [u8; 8],
    pub ssci: u32,
    pub kind: u32,
    pub choice: u32,
    pub key: u16,
    pub an: u8,
    pub flag: u8,
    pub reserved: [u64; 5],
}

/// The kind with this number.
fn kind_of(number: u32) -> Result<CommandKind, ArgumentFault>
    ensures { result ≡ kind_of number }
{
    match number {
        0 => Ok(CommandKind::None),
        1 => Ok(CommandKind::Protect),
        2 => Ok(CommandKind::Validate),
        3 => Ok(CommandKind::Replay),
        4 => Ok(CommandKind::Tag),
        5 => Ok(CommandKind::Key),
        6 => Ok(CommandKind::Retire),
        7 => Ok(CommandKind::TxSa),
        8 => Ok(CommandKind::TxOn),
        9 => Ok(CommandKind::TxOff),
        10 => Ok(CommandKind::TxDel),
        11 => Ok(CommandKind::RxSc),
        12 => Ok(CommandKind::RxScDel),
        13 => Ok(CommandKind::RxSa),
        14 => Ok(CommandKind::RxOn),
        15 => Ok(CommandKind::RxOff),
        16 => Ok(CommandKind::RxLow),
        17 => Ok(CommandKind::RxDel),
        _ => Err(ArgumentFault::Command),
    }
}

/// The number of an option that is on or off.
fn number_of_flag(flag: bool) -> u8
    ensures { result ≡ number_of_flag flag }
{
    if flag { 1 } else { 0 }
}

/// Whether the option with this number is on.
fn flag_of(number: u8) -> Result<bool, ArgumentFault>
    ensures { result ≡ flag_of number }
{
    match number {
        0 => Ok(false),
        1 => Ok(true),
        _ => Err(ArgumentFault::Command),
    }
}

/// The number of a key's suite: 0 is the endpoint's default.
fn number_of_key_suite(suite: Option<Suite>) -> u32
    ensures { result ≡ number_of_key_suite suite }
{
    match suite {
        None => 0,
        Some(suite) => suite.number() as u32,
    }
}

/// A key in 32 octets, and its length.
fn key_octets(key: &Key) -> ([u8; 32], u8)
    ensures octets { result ≡ key_octets key.now }
    ensures length { HasLength key.now }
{
    match key {
        Key::K128(octets) => {
            let mut bytes = [0; 32];
            bytes[..16].copy_from_slice(octets);
            (bytes, 16)
        }
        Key::K256(octets) => {
            let mut bytes = [0; 32];
            bytes.copy_from_slice(octets);
            (bytes, 32)
        }
    }
}

/// A key as C sees it.
fn sak_of(key: &NewKey) -> Sak
    ensures { result ≡ sak_of key.now }
{
    let (bytes, length) = key_octets(&key.bytes);
    Sak {
        bytes,
        salt: key.salt,
        ssci: key.ssci,
        suite: number_of_key_suite(key.suite),
        number: key.number.number(),
        length,
        offset: key.offset,
    }
}

/// A row of this kind, all of whose other members are zero.
fn kind_row(kind: CommandKind) -> CommandRow
    ensures { result ≡ kind_row kind }
{
    CommandRow {
        sak: Sak {
            bytes: [0; 32],
            salt: [0; 12],
            ssci: 0,
            suite: 0,
            number: 0,
            length: 0,
            offset: 0,
        },
        pn: 0,
        sci: [0; 8],
        ssci: 0,
        kind: kind.number(),
        choice: 0,
        key: 0,
        an: 0,
        flag: 0,
        reserved: [0; 5],
    }
}

/// The row of no command.
pub fn no_row() -> CommandRow
    ensures { result ≡ no_row }
{
    kind_row(CommandKind::None)
}

/// The row of an option that is on or off, with a window if it has one.
fn flag_row(kind: CommandKind, flag: bool, pn: u64) -> CommandRow
    ensures { result ≡ flag_row kind flag pn }
{
    CommandRow {
        flag: number_of_flag(flag),
        pn,
        ..kind_row(kind)
    }
}

/// The row of an option with a number.
fn choice_row(kind: CommandKind, choice: u32) -> CommandRow
    ensures { result ≡ choice_row kind choice }
{
    CommandRow {
        choice,
        ..kind_row(kind)
    }
}

/// The row of a command for this transmit SA.
fn tx_row(kind: CommandKind, an: An) -> CommandRow
    ensures row { result ≡ tx_row kind an }
    ensures below { an < 4 }
{
    CommandRow {
        an: an.number(),
        ..kind_row(kind)
    }
}

/// The row of a command for this receive SC.
fn sc_row(kind: CommandKind, sci: Sci) -> CommandRow
    ensures { result ≡ sc_row kind sci }
{
    let sci = sci.0;
    CommandRow {
        sci,
        ..kind_row(kind)
    }
}

/// The row of a command for this receive SA.
fn rx_row(kind: CommandKind, sci: Sci, an: An) -> CommandRow
    ensures row { result ≡ rx_row kind sci an }
    ensures below { an < 4 }
{
    let sci = sci.0;
    CommandRow {
        sci,
        an: an.number(),
        ..kind_row(kind)
    }
}

/// The row that installs a key. Its number and its octets are in range, whatever its source.
fn key_row(key: &NewKey) -> CommandRow
    ensures row { result ≡ command_row (by.Key key.now) }
    ensures command { IsCommand (by.Key key.now) }
{
    CommandRow {
        sak: sak_of(key),
        key: key.number.number(),
        ..kind_row(CommandKind::Key)
    }
}

/// The row that retires a key.
fn retire_row(key: KeyNumber) -> CommandRow
    ensures row { result ≡ command_row (by.Retire key) }
    ensures command { IsCommand (by.Retire key) }
{
    CommandRow {
        key: key.number(),
        ..kind_row(CommandKind::Retire)
    }
}

/// The row that creates a transmit SA.
fn tx_sa_row(an: An, key: KeyNumber, next: u64, conf: bool) -> CommandRow
    ensures row { result ≡ command_row (by.TxSa an key next conf) }
    ensures command { IsCommand (by.TxSa an key next conf) }
{
    CommandRow {
        key: key.number(),
        pn: next,
        flag: number_of_flag(conf),
        ..tx_row(CommandKind::TxSa, an)
    }
}

/// The row that creates a receive SA.
fn rx_sa_row(sci: Sci, an: An, key: KeyNumber, ssci: u32, lowest: u64) -> CommandRow
    ensures row { result ≡ command_row (by.RxSa sci an key ssci lowest) }
    ensures command { IsCommand (by.RxSa sci an key ssci lowest) }
{
    CommandRow {
        key: key.number(),
        ssci,
        pn: lowest,
        ..rx_row(CommandKind::RxSa, sci, an)
    }
}

/// The row that raises the lowest acceptable packet number of a receive SA.
fn rx_low_row(sci: Sci, an: An, pn: u64) -> CommandRow
    ensures row { result ≡ command_row (by.RxLow sci an pn) }
    ensures command { IsCommand (by.RxLow sci an pn) }
{
    CommandRow {
        pn,
        ..rx_row(CommandKind::RxLow, sci, an)
    }
}

/// The row of a command. The command's numbers are in range, whatever its source.
fn command_row(command: Command) -> CommandRow
    ensures row { result ≡ command_row command }
    ensures command { IsCommand command }
{
    match command {
        Command::Protect(on) => flag_row(CommandKind::Protect, on, 0),
        Command::Validate(mode) => choice_row(CommandKind::Validate, number_of_mode(mode)),
        Command::Replay { protect, window } => flag_row(CommandKind::Replay, protect, window),
        Command::Tag(form) => choice_row(CommandKind::Tag, number_of_form(form)),
        Command::Key(key) => key_row(&key),
        Command::Retire(key) => retire_row(key),
        Command::TxSa {
            an,
            key,
            next,
            conf,
        } => tx_sa_row(an, key, next, conf),
        Command::TxOn(an) => tx_row(CommandKind::TxOn, an),
        Command::TxOff(an) => tx_row(CommandKind::TxOff, an),
        Command::TxDel(an) => tx_row(CommandKind::TxDel, an),
        Command::RxSc(sci) => sc_row(CommandKind::RxSc, sci),
        Command::RxScDel(sci) => sc_row(CommandKind::RxScDel, sci),
        Command::RxSa {
            sci,
            an,
            key,
            ssci,
            lowest,
        } => rx_sa_row(sci, an, key, ssci, lowest),
        Command::RxOn(sci, an) => rx_row(CommandKind::RxOn, sci, an),
        Command::RxOff(sci, an) => rx_row(CommandKind::RxOff, sci, an),
        Command::RxLow { sci, an, pn } => rx_low_row(sci, an, pn),
        Command::RxDel(sci, an) => rx_row(CommandKind::RxDel, sci, an),
    }
}

/// The row of a line's command. It means this command.
pub fn row_of(command: Option<Command>) -> CommandRow
    ensures row { result ≡ row_of command }
    ensures means { command_of_row result ≡ Ok command }
{
    match command {
        None => no_row(),
        Some(command) => command_row(command),
    }
}

/// The configuration of an end as C sees it.
pub fn config_row(end: EndConfig) -> Config
    ensures { result ≡ config_row end }
{
    let sci = end.sci.0;
    Config {
        sci,
        suite: end.suite.number() as u32,
        form: number_of_form(end.form),
        max_frame: end.max_frame,
    }
}

/// A configuration that is all zeros.
pub fn no_config() -> Config
    ensures { result ≡ no_config }
{
    Config {
        sci: [0; 8],
        suite: 0,
        form: 0,
        max_frame: 0,
    }
}

/// The command that installs the row's key, if `key` is its number. So a caller may check either of them.
fn key_shown(row: &CommandRow) -> Result<Option<Command>, ArgumentFault>
    ensures { result ≡ key_shown row.now.key (new_key_of row.now.sak) }
{
    let key = new_key_of(&row.sak)?;
    if key.number.number() != row.key {
        return Err(ArgumentFault::Command);
    }
    Ok(Some(Command::Key(key)))
}

/// The command that creates the row's transmit SA.
fn tx_sa_of_row(row: &CommandRow) -> Result<Option<Command>, ArgumentFault>
    ensures { result ≡ tx_sa_with row.now.pn (an_of row.now.an) (key_number_of row.now.key) (flag_of row.now.flag) }
{
    let an = an_of(row.an)?;
    let key = key_number_of(row.key)?;
    let conf = flag_of(row.flag)?;
    Ok(Some(Command::TxSa {
        an,
        key,
        next: row.pn,
        conf,
    }))
}

/// The command of a row of this kind, or `None` for no command.
fn command_as(row: &CommandRow, kind: CommandKind) -> Result<Option<Command>, ArgumentFault>
    ensures { result ≡ command_as row.now kind }
{
    match kind {
        CommandKind::None => Ok(None),
        CommandKind::Protect => Ok(Some(Command::Protect(flag_of(row.flag)?))),
        CommandKind::Validate => Ok(Some(Command::Validate(mode_of(row.choice)?))),
        CommandKind::Replay => Ok(Some(Command::Replay {
            protect: flag_of(row.flag)?,
            window: row.pn,
        })),
        CommandKind::Tag => Ok(Some(Command::Tag(form_of(row.choice)?))),
        CommandKind::Key => key_shown(row),
        CommandKind::Retire => Ok(Some(Command::Retire(key_number_of(row.key)?))),
        CommandKind::TxSa => tx_sa_of_row(row),
        CommandKind::TxOn => Ok(Some(Command::TxOn(an_of(row.an)?))),
        CommandKind::TxOff => Ok(Some(Command::TxOff(an_of(row.an)?))),
        CommandKind::TxDel => Ok(Some(Command::TxDel(an_of(row.an)?))),
        CommandKind::RxSc => Ok(Some(Command::RxSc(Sci(row.sci)))),
        CommandKind::RxScDel => Ok(Some(Command::RxScDel(Sci(row.sci)))),
        CommandKind::RxSa => Ok(Some(rx_sa_of(Sci(row.sci), row.an, row.key, row.ssci, row.pn)?)),
        CommandKind::RxOn => Ok(Some(Command::RxOn(Sci(row.sci), an_of(row.an)?))),
        CommandKind::RxOff => Ok(Some(Command::RxOff(Sci(row.sci), an_of(row.an)?))),
        CommandKind::RxLow => Ok(Some(Command::RxLow {
            sci: Sci(row.sci),
            an: an_of(row.an)?,
            pn: row.pn,
        })),
        CommandKind::RxDel => Ok(Some(Command::RxDel(Sci(row.sci), an_of(row.an)?))),
    }
}

/// The command that a row means, or `None` for no command; or the first argument that names nothing, the kind first.
pub fn command_of_row(row: &CommandRow) -> Result<Option<Command>, ArgumentFault>
    ensures { result ≡ command_of_row row.now }
{
    command_as(row, kind_of(row.kind)?)
}
