//! The management commands (IEEE 802.1AE, 10.7).

ghost use Rattle.std.specs.Prelude.{◌≡◌, Ok};
ghost use Rattle.macsec_commands.specs.declared.command.Command.TheVariants as by;
ghost use Rattle.macsec_c_values.specs.Arguments.{an_of, form_of, key_number_of, mode_of, naming, naming_both, sci_of};
ghost use Rattle.macsec_c_values.specs.Keys.{new_key_of};
ghost use Rattle.macsec_c.specs.Answers.{commanded};

use crate::endpoint::Endpoint;
use macsec_c_values::{
    ArgumentFault, EMPTY, Sak, an_of, form_of, key_number_of, mode_of, new_key_of, rx_sa_of,
    tx_sa_of,
};
use macsec_secy::{Command, Sci};

/// Carries out a command, or refuses it and changes nothing. Returns the status.
pub(crate) fn carry_out(e: &mut Endpoint, command: Result<Command, ArgumentFault>) -> u32
    ensures { (result, e.new.state) ≡ commanded e.old.state command }
{
    if !e.is_made() {
        return EMPTY;
    }
    macsec_c_calls::carry_out(e.held(), command)
}

/// Protect client frames, or send them unchanged.
#[unsafe(no_mangle)]
pub extern "C" fn macsec_set_protect(e: &mut Endpoint, on: bool) -> u32
    ensures { (result, e.new.state) ≡ commanded e.old.state (Ok (by.Protect on)) }
{
    carry_out(e, Ok(Command::Protect(on)))
}

/// Validate received frames in the mode of this number.
#[unsafe(no_mangle)]
pub extern "C" fn macsec_set_validation(e: &mut Endpoint, mode: u32) -> u32
    ensures { (result, e.new.state) ≡ commanded e.old.state (naming by.Validate (mode_of mode)) }
{
    carry_out(e, mode_of(mode).map(|mode| Command::Validate(mode)))
}

/// Turn replay protection on or off, and set the replay window. If it is on, late frames are dropped.
#[unsafe(no_mangle)]
pub extern "C" fn macsec_set_replay(e: &mut Endpoint, protect: bool, window: u64) -> u32
    ensures { (result, e.new.state) ≡ commanded e.old.state (Ok (by.Replay protect window)) }
{
    carry_out(e, Ok(Command::Replay { protect, window }))
}

/// Set the tag form of this number.
#[unsafe(no_mangle)]
pub extern "C" fn macsec_set_tag_form(e: &mut Endpoint, form: u32) -> u32
    ensures { (result, e.new.state) ≡ commanded e.old.state (naming by.Tag (form_of form)) }
{
    carry_out(e, form_of(form).map(|form| Command::Tag(form)))
}

/// Install a key.
#[unsafe(no_mangle)]
pub extern "C" fn macsec_install_key(e: &mut Endpoint, key: &Sak) -> u32
    ensures { (result, e.new.state) ≡ commanded e.old.state (naming by.Key (new_key_of key.now)) }
{
    carry_out(e, new_key_of(key).map(|key| Command::Key(key)))
}

/// Retire the key of this number: no new SA may use it, and its octets are overwritten.
#[unsafe(no_mangle)]
pub extern "C" fn macsec_retire_key(e: &mut Endpoint, key: u16) -> u32
    ensures { (result, e.new.state) ≡ commanded e.old.state (naming by.Retire (key_number_of key)) }
{
    carry_out(e, key_number_of(key).map(|key| Command::Retire(key)))
}

/// Create a transmit SA, disabled, whose first packet number is `next`. It encrypts if `conf` is true.
#[unsafe(no_mangle)]
pub extern "C" fn macsec_add_tx_sa(e: &mut Endpoint, an: u8, key: u16, next: u64, conf: bool) -> u32
    ensures { (result, e.new.state) ≡ commanded e.old.state
        (naming_both (λ n k. by.TxSa n k next conf) (an_of an) (key_number_of key)) }
{
    carry_out(e, tx_sa_of(an, key, next, conf))
}

/// Enable this transmit SA, and disable every other one.
#[unsafe(no_mangle)]
pub extern "C" fn macsec_enable_tx_sa(e: &mut Endpoint, an: u8) -> u32
    ensures { (result, e.new.state) ≡ commanded e.old.state (naming by.TxOn (an_of an)) }
{
    carry_out(e, an_of(an).map(|an| Command::TxOn(an)))
}

/// Disable this transmit SA.
#[unsafe(no_mangle)]
pub extern "C" fn macsec_disable_tx_sa(e: &mut Endpoint, an: u8) -> u32
    ensures { (result, e.new.state) ≡ commanded e.old.state (naming by.TxOff (an_of an)) }
{
    carry_out(e, an_of(an).map(|an| Command::TxOff(an)))
}

/// Delete this transmit SA.
#[unsafe(no_mangle)]
pub extern "C" fn macsec_delete_tx_sa(e: &mut Endpoint, an: u8) -> u32
    ensures { (result, e.new.state) ≡ commanded e.old.state (naming by.TxDel (an_of an)) }
{
    carry_out(e, an_of(an).map(|an| Command::TxDel(an)))
}

/// Create a receive SC, the last in the order of the channels.
#[unsafe(no_mangle)]
pub extern "C" fn macsec_add_rx_sc(e: &mut Endpoint, sci: &[u8; 8]) -> u32
    ensures { (result, e.new.state) ≡ commanded e.old.state (Ok (by.RxSc (sci_of sci.now))) }
{
    carry_out(e, Ok(Command::RxSc(Sci(*sci))))
}

/// Delete this receive SC, its SAs and its counters.
#[unsafe(no_mangle)]
pub extern "C" fn macsec_delete_rx_sc(e: &mut Endpoint, sci: &[u8; 8]) -> u32
    ensures { (result, e.new.state) ≡ commanded e.old.state (Ok (by.RxScDel (sci_of sci.now))) }
{
    carry_out(e, Ok(Command::RxScDel(Sci(*sci))))
}

/// Create a receive SA, disabled, whose lowest acceptable packet number is `lowest`.
#[unsafe(no_mangle)]
pub extern "C" fn macsec_add_rx_sa(
    e: &mut Endpoint,
    sci: &[u8; 8],
    an: u8,
    key: u16,
    lowest: u64,
    ssci: u32,
) -> u32
    ensures { (result, e.new.state) ≡ commanded e.old.state
        (naming_both (λ n k. by.RxSa (sci_of sci.now) n k ssci lowest) (an_of an) (key_number_of key)) }
{
    carry_out(e, rx_sa_of(Sci(*sci), an, key, ssci, lowest))
}

/// Enable this receive SA.
#[unsafe(no_mangle)]
pub extern "C" fn macsec_enable_rx_sa(e: &mut Endpoint, sci: &[u8; 8], an: u8) -> u32
    ensures { (result, e.new.state) ≡ commanded e.old.state (naming (by.RxOn (sci_of sci.now)) (an_of an)) }
{
    let sci = Sci(*sci);
    carry_out(e, an_of(an).map(|an| Command::RxOn(sci, an)))
}

/// Disable this receive SA.
#[unsafe(no_mangle)]
pub extern "C" fn macsec_disable_rx_sa(e: &mut Endpoint, sci: &[u8; 8], an: u8) -> u32
    ensures { (result, e.new.state) ≡ commanded e.old.state (naming (by.RxOff (sci_of sci.now)) (an_of an)) }
{
    let sci = Sci(*sci);
    carry_out(e, an_of(an).map(|an| Command::RxOff(sci, an)))
}

/// Raise the lowest acceptable packet number of this receive SA.
#[unsafe(no_mangle)]
pub extern "C" fn macsec_set_lowest_pn(e: &mut Endpoint, sci: &[u8; 8], an: u8, pn: u64) -> u32
    ensures { (result, e.new.state) ≡ commanded e.old.state (naming (λ n. by.RxLow (sci_of sci.now) n pn) (an_of an)) }
{
    let sci = Sci(*sci);
    carry_out(e, an_of(an).map(|an| Command::RxLow { sci, an, pn }))
}

/// Delete this receive SA.
#[unsafe(no_mangle)]
pub extern "C" fn macsec_delete_rx_sa(e: &mut Endpoint, sci: &[u8; 8], an: u8) -> u32
    ensures { (result, e.new.state) ≡ commanded e.old.state (naming (by.RxDel (sci_of sci.now)) (an_of an)) }
{
    let sci = Sci(*sci);
    carry_out(e, an_of(an).map(|an| Command::RxDel(sci, an)))
}
