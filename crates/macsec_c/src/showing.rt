//! The readers of an endpoint's state.

ghost use Rattle.std.specs.Prelude.{◌≡◌, ◌+◌, Some, IfNone, IfSome, length, slice_get};
ghost use Rattle.macsec_suite.specs.KeyNumbers.{max_key_count};
ghost use Rattle.macsec_tx.specs.Transmit.{tx_row};
ghost use Rattle.macsec_rx.specs.Channels.{rx_row};
ghost use Rattle.macsec_secy.specs.Answers.{rx_counters_of, rx_removed_of, rx_sa_counters_of};
ghost use Rattle.macsec_c_values.specs.Arguments.{an_of, sci_of};
ghost use Rattle.macsec_c_values.specs.Shown.{counters_shown, options_shown, rx_counters_shown, rx_row_shown};
ghost use Rattle.macsec_c_values.specs.Shown.{tx_counters_shown, tx_row_shown};
ghost use Rattle.macsec_c.specs.Found.{found, found_at, inside, status_of_an, status_of_found};

use crate::endpoint::Endpoint;
use macsec_c_values::{
    CountersShown, DONE, EMPTY, OptionsShown, RxCountersShown, RxRowShown, TxCountersShown,
    TxRowShown, counters_shown, options_shown, show_removed_counters, show_rx_counters, show_rx_sa,
    show_rx_sa_counters, show_rx_sc, show_tx_sa, tx_counters_shown,
};

/// Shows the options.
#[unsafe(no_mangle)]
pub extern "C" fn macsec_get_options(e: &mut Endpoint, out: &mut OptionsShown) -> u32
    ensures status { result ≡ status_of_found (inside e.old.state) (λ k. Some k.secy.options) }
    ensures same { e.new.state ≡ e.old.state }
    ensures shown { IfSome (inside e.old.state) (λ k. out.new ≡ options_shown k.secy.options) }
    ensures kept { IfNone (inside e.old.state) (out.new ≡ out.old) }
{
    if !e.is_made() {
        return EMPTY;
    }
    *out = options_shown(e.held().keeper().secy().options());
    DONE
}

/// Shows the endpoint's counters.
#[unsafe(no_mangle)]
pub extern "C" fn macsec_get_counters(e: &mut Endpoint, out: &mut CountersShown) -> u32
    ensures status { result ≡ status_of_found (inside e.old.state) (λ k. Some k.secy.counters) }
    ensures same { e.new.state ≡ e.old.state }
    ensures shown { IfSome (inside e.old.state) (λ k. out.new ≡ counters_shown k.secy.counters) }
    ensures kept { IfNone (inside e.old.state) (out.new ≡ out.old) }
{
    if !e.is_made() {
        return EMPTY;
    }
    *out = counters_shown(e.held().keeper().secy().counters());
    DONE
}

/// Shows the counters of the transmit SC.
#[unsafe(no_mangle)]
pub extern "C" fn macsec_get_tx_counters(e: &mut Endpoint, out: &mut TxCountersShown) -> u32
    ensures status { result ≡ status_of_found (inside e.old.state) (λ k. Some k.secy.tx_counters) }
    ensures same { e.new.state ≡ e.old.state }
    ensures shown { IfSome (inside e.old.state) (λ k. out.new ≡ tx_counters_shown k.secy.tx_counters) }
    ensures kept { IfNone (inside e.old.state) (out.new ≡ out.old) }
{
    if !e.is_made() {
        return EMPTY;
    }
    *out = tx_counters_shown(e.held().keeper().secy().tx_counters());
    DONE
}

/// Shows how many keys the endpoint can still take in its life: 4,096 less the number that were installed.
#[unsafe(no_mangle)]
pub extern "C" fn macsec_keys_left(e: &mut Endpoint, out: &mut u32) -> u32
    ensures status { result ≡ status_of_found (inside e.old.state) (λ k. Some k.secy.keys) }
    ensures same { e.new.state ≡ e.old.state }
    ensures shown { IfSome (inside e.old.state) (λ k. out.new + length k.secy.keys ≡ max_key_count) }
    ensures kept { IfNone (inside e.old.state) (out.new ≡ out.old) }
{
    if !e.is_made() {
        return EMPTY;
    }
    *out = u32::from(e.held().keeper().secy().keys_left());
    DONE
}

/// Shows the counters of the receive SC with this SCI.
#[unsafe(no_mangle)]
pub extern "C" fn macsec_get_rx_counters(
    e: &mut Endpoint,
    sci: &[u8; 8],
    out: &mut RxCountersShown,
) -> u32
    ensures status { result ≡ status_of_found (inside e.old.state)
        (λ k. rx_counters_of k.secy.rx_counters (sci_of sci.now)) }
    ensures same { e.new.state ≡ e.old.state }
    ensures shown { IfSome (found (inside e.old.state) (λ k. rx_counters_of k.secy.rx_counters (sci_of sci.now)))
        (λ c. out.new ≡ rx_counters_shown c) }
    ensures kept { IfNone (found (inside e.old.state) (λ k. rx_counters_of k.secy.rx_counters (sci_of sci.now)))
        (out.new ≡ out.old) }
{
    if !e.is_made() {
        return EMPTY;
    }
    show_rx_counters(e.held().keeper(), sci, out)
}

/// Shows the counters of the receive SA with this SCI and AN.
#[unsafe(no_mangle)]
pub extern "C" fn macsec_get_rx_sa_counters(
    e: &mut Endpoint,
    sci: &[u8; 8],
    an: u8,
    out: &mut RxCountersShown,
) -> u32
    ensures status { result ≡ status_of_an (inside e.old.state) (an_of an)
        (λ k n. rx_sa_counters_of k.secy.rx_counters (sci_of sci.now) n) }
    ensures same { e.new.state ≡ e.old.state }
    ensures shown { IfSome (found_at (inside e.old.state) (an_of an)
        (λ k n. rx_sa_counters_of k.secy.rx_counters (sci_of sci.now) n)) (λ c. out.new ≡ rx_counters_shown c) }
    ensures kept { IfNone (found_at (inside e.old.state) (an_of an)
        (λ k n. rx_sa_counters_of k.secy.rx_counters (sci_of sci.now) n)) (out.new ≡ out.old) }
{
    if !e.is_made() {
        return EMPTY;
    }
    show_rx_sa_counters(e.held().keeper(), sci, an, out)
}

/// Shows the counts of the deleted SAs of the receive SC with this SCI.
#[unsafe(no_mangle)]
pub extern "C" fn macsec_get_removed_counters(
    e: &mut Endpoint,
    sci: &[u8; 8],
    out: &mut RxCountersShown,
) -> u32
    ensures status { result ≡ status_of_found (inside e.old.state)
        (λ k. rx_removed_of k.secy.rx_counters (sci_of sci.now)) }
    ensures same { e.new.state ≡ e.old.state }
    ensures shown { IfSome (found (inside e.old.state) (λ k. rx_removed_of k.secy.rx_counters (sci_of sci.now)))
        (λ c. out.new ≡ rx_counters_shown c) }
    ensures kept { IfNone (found (inside e.old.state) (λ k. rx_removed_of k.secy.rx_counters (sci_of sci.now)))
        (out.new ≡ out.old) }
{
    if !e.is_made() {
        return EMPTY;
    }
    show_removed_counters(e.held().keeper(), sci, out)
}

/// Shows the SCI of the receive SC at this index in the order of creation, from 0.
#[unsafe(no_mangle)]
pub extern "C" fn macsec_get_rx_sc(e: &mut Endpoint, place: usize, out: &mut [u8; 8]) -> u32
    ensures status { result ≡ status_of_found (inside e.old.state) (λ k. slice_get k.secy.rx.scis place) }
    ensures same { e.new.state ≡ e.old.state }
    ensures shown { IfSome (found (inside e.old.state) (λ k. slice_get k.secy.rx.scis place))
        (λ sci. sci_of out.new ≡ sci) }
    ensures kept { IfNone (found (inside e.old.state) (λ k. slice_get k.secy.rx.scis place)) (out.new ≡ out.old) }
{
    if !e.is_made() {
        return EMPTY;
    }
    show_rx_sc(e.held().keeper(), place, out)
}

/// Shows the transmit SA with this AN.
#[unsafe(no_mangle)]
pub extern "C" fn macsec_get_tx_sa(e: &mut Endpoint, an: u8, out: &mut TxRowShown) -> u32
    ensures status { result ≡ status_of_an (inside e.old.state) (an_of an) (λ k n. tx_row k.secy.tx n) }
    ensures same { e.new.state ≡ e.old.state }
    ensures shown { IfSome (found_at (inside e.old.state) (an_of an) (λ k n. tx_row k.secy.tx n))
        (λ row. out.new ≡ tx_row_shown row) }
    ensures kept { IfNone (found_at (inside e.old.state) (an_of an) (λ k n. tx_row k.secy.tx n)) (out.new ≡ out.old) }
{
    if !e.is_made() {
        return EMPTY;
    }
    show_tx_sa(e.held().keeper(), an, out)
}

/// Shows the receive SA with this SCI and AN.
#[unsafe(no_mangle)]
pub extern "C" fn macsec_get_rx_sa(
    e: &mut Endpoint,
    sci: &[u8; 8],
    an: u8,
    out: &mut RxRowShown,
) -> u32
    ensures status { result ≡ status_of_an (inside e.old.state) (an_of an)
        (λ k n. rx_row k.secy.rx.rows (sci_of sci.now) n) }
    ensures same { e.new.state ≡ e.old.state }
    ensures shown { IfSome (found_at (inside e.old.state) (an_of an) (λ k n. rx_row k.secy.rx.rows (sci_of sci.now) n))
        (λ row. out.new ≡ rx_row_shown row) }
    ensures kept { IfNone (found_at (inside e.old.state) (an_of an) (λ k n. rx_row k.secy.rx.rows (sci_of sci.now) n))
        (out.new ≡ out.old) }
{
    if !e.is_made() {
        return EMPTY;
    }
    show_rx_sa(e.held().keeper(), sci, an, out)
}
