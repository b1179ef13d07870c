//! The readers of an endpoint's state.

ghost use Rattle.std.specs.Prelude.{◌≡◌, IfNone, IfSome, slice_get};
ghost use Rattle.macsec_tx.specs.Transmit.{tx_row};
ghost use Rattle.macsec_rx.specs.Channels.{rx_row};
ghost use Rattle.macsec_secy.specs.Answers.{rx_counters_of, rx_removed_of, rx_sa_counters_of};
ghost use Rattle.macsec_c_values.specs.Arguments.{an_of, sci_of};
ghost use Rattle.macsec_c_values.specs.Shown.{counters_shown, options_shown, rx_counters_shown, rx_row_shown};
ghost use Rattle.macsec_c_values.specs.Shown.{tx_counters_shown, tx_row_shown};
ghost use Rattle.macsec_c_values.specs.Shown.{high_half, low_half, number_of_form, number_of_mode};
ghost use Rattle.macsec_c_values.specs.Shown.{found_at, status_at, status_if};

use crate::{DONE, NONE, an_of};
use macsec_reserve::Keeper;
use macsec_secy::{Counters, Mode, Options, RxCounters, RxRow, Sci, TagForm, TxCounters, TxRow};

// The reserved members are 0: a later library may show more there, to callers that know it.

/// The options.
#[repr(C)]
#[derive(Drop)]
pub struct OptionsShown {
    pub window: u64,
    pub mode: u32,
    pub form: u32,
    pub protect: bool,
    pub replay: bool,
    pub reserved: [u64; 5],
}

/// The endpoint's counters, modulo 2^64.
#[repr(C)]
#[derive(Drop)]
pub struct CountersShown {
    pub in_pkts_untagged: u64,
    pub in_pkts_no_tag: u64,
    pub in_pkts_bad_tag: u64,
    pub in_pkts_reserved: u64,
    pub in_pkts_no_sa: u64,
    pub in_pkts_no_sa_error: u64,
    pub in_octets_validated: u64,
    pub in_octets_decrypted: u64,
    pub out_pkts_untagged: u64,
    pub out_pkts_too_long: u64,
    pub out_pkts_no_sa: u64,
    pub reserved: [u64; 5],
}

/// The counters of the transmit SC, modulo 2^64.
#[repr(C)]
#[derive(Drop)]
pub struct TxCountersShown {
    pub out_pkts_protected: u64,
    pub out_pkts_encrypted: u64,
    pub out_octets_protected: u64,
    pub out_octets_encrypted: u64,
    pub reserved: [u64; 4],
}

/// The counters of a receive SC or SA, modulo 2^64.
#[repr(C)]
#[derive(Drop)]
pub struct RxCountersShown {
    pub in_pkts_ok: u64,
    pub in_pkts_unchecked: u64,
    pub in_pkts_delayed: u64,
    pub in_pkts_late: u64,
    pub in_pkts_invalid: u64,
    pub in_pkts_not_valid: u64,
    pub reserved: [u64; 10],
}

/// A transmit SA. Its next packet number is `next`, plus 2^64 if `next_high` is 1.
#[repr(C)]
#[derive(Drop)]
pub struct TxRowShown {
    pub next: u64,
    pub next_high: u64,
    pub key: u16,
    pub conf: bool,
    pub on: bool,
    pub reserved: [u64; 5],
}

/// A receive SA. Its next packet number is `next`, plus 2^64 if `next_high` is 1. The same holds of `lowest`.
#[repr(C)]
#[derive(Drop)]
pub struct RxRowShown {
    pub next: u64,
    pub next_high: u64,
    pub lowest: u64,
    pub lowest_high: u64,
    pub ssci: u32,
    pub key: u16,
    pub on: bool,
    pub reserved: [u64; 3],
}

pub(crate) fn number_of_mode(mode: Mode) -> u32
    ensures { result ≡ number_of_mode mode }
{
    match mode {
        Mode::Disabled => 0,
        Mode::Check => 1,
        Mode::Strict => 2,
    }
}

pub(crate) fn number_of_form(form: TagForm) -> u32
    ensures { result ≡ number_of_form form }
{
    match form {
        TagForm::Auto => 0,
        TagForm::Sci => 1,
        TagForm::Es => 2,
        TagForm::Scb => 3,
    }
}

/// The low 64 bits of a number.
fn low_half(number: u128) -> u64
    ensures { result ≡ low_half number }
{
    (number % 0x1_0000_0000_0000_0000) as u64
}

/// The high 64 bits of a number.
fn high_half(number: u128) -> u64
    ensures { result ≡ high_half number }
{
    (number / 0x1_0000_0000_0000_0000) as u64
}

/// The options as C sees them.
pub fn options_shown(options: Options) -> OptionsShown
    ensures { result ≡ options_shown options }
{
    OptionsShown {
        window: options.window,
        mode: number_of_mode(options.mode),
        form: number_of_form(options.form),
        protect: options.protect,
        replay: options.replay,
        reserved: [0; 5],
    }
}

/// The endpoint's counters as C sees them.
pub fn counters_shown(counters: Counters) -> CountersShown
    ensures { result ≡ counters_shown counters }
{
    CountersShown {
        in_pkts_untagged: counters.in_pkts_untagged,
        in_pkts_no_tag: counters.in_pkts_no_tag,
        in_pkts_bad_tag: counters.in_pkts_bad_tag,
        in_pkts_reserved: counters.in_pkts_reserved,
        in_pkts_no_sa: counters.in_pkts_no_sa,
        in_pkts_no_sa_error: counters.in_pkts_no_sa_error,
        in_octets_validated: counters.in_octets_validated,
        in_octets_decrypted: counters.in_octets_decrypted,
        out_pkts_untagged: counters.out_pkts_untagged,
        out_pkts_too_long: counters.out_pkts_too_long,
        out_pkts_no_sa: counters.out_pkts_no_sa,
        reserved: [0; 5],
    }
}

/// The counters of the transmit SC as C sees them.
pub fn tx_counters_shown(counters: TxCounters) -> TxCountersShown
    ensures { result ≡ tx_counters_shown counters }
{
    TxCountersShown {
        out_pkts_protected: counters.out_pkts_protected,
        out_pkts_encrypted: counters.out_pkts_encrypted,
        out_octets_protected: counters.out_octets_protected,
        out_octets_encrypted: counters.out_octets_encrypted,
        reserved: [0; 4],
    }
}

fn rx_counters_shown(counters: RxCounters) -> RxCountersShown
    ensures { result ≡ rx_counters_shown counters }
{
    RxCountersShown {
        in_pkts_ok: counters.in_pkts_ok,
        in_pkts_unchecked: counters.in_pkts_unchecked,
        in_pkts_delayed: counters.in_pkts_delayed,
        in_pkts_late: counters.in_pkts_late,
        in_pkts_invalid: counters.in_pkts_invalid,
        in_pkts_not_valid: counters.in_pkts_not_valid,
        reserved: [0; 10],
    }
}

fn tx_row_shown(row: TxRow) -> TxRowShown
    ensures { result ≡ tx_row_shown row }
{
    TxRowShown {
        next: low_half(row.next),
        next_high: high_half(row.next),
        key: row.key.number(),
        conf: row.conf,
        on: row.on,
        reserved: [0; 5],
    }
}

fn rx_row_shown(row: RxRow) -> RxRowShown
    ensures { result ≡ rx_row_shown row }
{
    RxRowShown {
        next: low_half(row.next),
        next_high: high_half(row.next),
        lowest: low_half(row.lowest),
        lowest_high: high_half(row.lowest),
        ssci: row.ssci,
        key: row.key.number(),
        on: row.on,
        reserved: [0; 3],
    }
}

/// Shows the counters that a reader found, if it found any.
fn show_found_counters(counters: Option<RxCounters>, out: &mut RxCountersShown) -> u32
    ensures status { result ≡ status_if counters }
    ensures shown { IfSome counters (λ c. out.new ≡ rx_counters_shown c) }
    ensures kept { IfNone counters (out.new ≡ out.old) }
{
    match counters {
        Some(counters) => {
            *out = rx_counters_shown(counters);
            DONE
        }
        None => NONE,
    }
}

/// Shows the counters of the receive SC with this SCI.
pub fn show_rx_counters(keeper: &Keeper, sci: &[u8; 8], out: &mut RxCountersShown) -> u32
    ensures status { result ≡ status_if (rx_counters_of keeper.now.secy.rx_counters (sci_of sci.now)) }
    ensures shown { IfSome (rx_counters_of keeper.now.secy.rx_counters (sci_of sci.now))
        (λ c. out.new ≡ rx_counters_shown c) }
    ensures kept { IfNone (rx_counters_of keeper.now.secy.rx_counters (sci_of sci.now)) (out.new ≡ out.old) }
{
    show_found_counters(keeper.secy().rx_counters(Sci(*sci)), out)
}

/// Shows the counters of the receive SA with this SCI and AN.
pub fn show_rx_sa_counters(keeper: &Keeper, sci: &[u8; 8], an: u8, out: &mut RxCountersShown) -> u32
    ensures status { result
        ≡ status_at (an_of an) (λ n. rx_sa_counters_of keeper.now.secy.rx_counters (sci_of sci.now) n) }
    ensures shown { IfSome
        (found_at (an_of an) (λ n. rx_sa_counters_of keeper.now.secy.rx_counters (sci_of sci.now) n))
        (λ c. out.new ≡ rx_counters_shown c) }
    ensures kept { IfNone
        (found_at (an_of an) (λ n. rx_sa_counters_of keeper.now.secy.rx_counters (sci_of sci.now) n))
        (out.new ≡ out.old) }
{
    match an_of(an) {
        Ok(an) => show_found_counters(keeper.secy().rx_sa_counters(Sci(*sci), an), out),
        Err(fault) => fault.status(),
    }
}

/// Shows the counts of the deleted SAs of the receive SC with this SCI.
pub fn show_removed_counters(keeper: &Keeper, sci: &[u8; 8], out: &mut RxCountersShown) -> u32
    ensures status { result ≡ status_if (rx_removed_of keeper.now.secy.rx_counters (sci_of sci.now)) }
    ensures shown { IfSome (rx_removed_of keeper.now.secy.rx_counters (sci_of sci.now))
        (λ c. out.new ≡ rx_counters_shown c) }
    ensures kept { IfNone (rx_removed_of keeper.now.secy.rx_counters (sci_of sci.now)) (out.new ≡ out.old) }
{
    show_found_counters(keeper.secy().rx_removed(Sci(*sci)), out)
}

/// Shows the SCI of the receive SC at this index in the order of creation, from 0.
pub fn show_rx_sc(keeper: &Keeper, place: usize, out: &mut [u8; 8]) -> u32
    ensures status { result ≡ status_if (slice_get keeper.now.secy.rx.scis place) }
    ensures shown { IfSome (slice_get keeper.now.secy.rx.scis place) (λ sci. sci_of out.new ≡ sci) }
    ensures kept { IfNone (slice_get keeper.now.secy.rx.scis place) (out.new ≡ out.old) }
{
    match keeper.secy().rx_channel(place) {
        Some(sci) => {
            let octets = sci.0;
            *out = octets;
            DONE
        }
        None => NONE,
    }
}

/// Shows the transmit SA with this AN.
pub fn show_tx_sa(keeper: &Keeper, an: u8, out: &mut TxRowShown) -> u32
    ensures status { result ≡ status_at (an_of an) (λ n. tx_row keeper.now.secy.tx n) }
    ensures shown { IfSome (found_at (an_of an) (λ n. tx_row keeper.now.secy.tx n))
        (λ row. out.new ≡ tx_row_shown row) }
    ensures kept { IfNone (found_at (an_of an) (λ n. tx_row keeper.now.secy.tx n)) (out.new ≡ out.old) }
{
    let an = match an_of(an) {
        Ok(an) => an,
        Err(fault) => return fault.status(),
    };
    match keeper.secy().tx_row(an) {
        Some(row) => {
            *out = tx_row_shown(row);
            DONE
        }
        None => NONE,
    }
}

/// Shows the receive SA with this SCI and AN.
pub fn show_rx_sa(keeper: &Keeper, sci: &[u8; 8], an: u8, out: &mut RxRowShown) -> u32
    ensures status { result ≡ status_at (an_of an) (λ n. rx_row keeper.now.secy.rx.rows (sci_of sci.now) n) }
    ensures shown { IfSome (found_at (an_of an) (λ n. rx_row keeper.now.secy.rx.rows (sci_of sci.now) n))
        (λ row. out.new ≡ rx_row_shown row) }
    ensures kept { IfNone (found_at (an_of an) (λ n. rx_row keeper.now.secy.rx.rows (sci_of sci.now) n))
        (out.new ≡ out.old) }
{
    let an = match an_of(an) {
        Ok(an) => an,
        Err(fault) => return fault.status(),
    };
    match keeper.secy().rx_row(Sci(*sci), an) {
        Some(row) => {
            *out = rx_row_shown(row);
            DONE
        }
        None => NONE,
    }
}
