//! Calls of the library for C, made one after another.

ghost use Rattle.std.specs.Prelude.{◌≡◌, map, OnErr, OnOk};
ghost use Rattle.macsec_secy.specs.Sound.{IsSound};
ghost use Rattle.macsec_c_calls.specs.GivenUp.{after_call, after_calls};
ghost use Rattle.macsec_c_runs.specs.Calling.{IsRenewal, StaysSound, call_of};

use macsec_ahead::AheadKeeper;
use macsec_c_calls::carry_out;
use macsec_reserve::{KeptSent, Reservation};
use macsec_secy::{Command, NewKey};
use std::alloc::AllocError;

/// A call that changes an endpoint, with its values. Its octets are the caller's.
#[derive(Clone, Copy)]
pub enum MadeCall<'a> {
    /// A command, also one that is refused.
    Command(Command),
    /// A key that may take the row of a retired one.
    Renewal(NewKey),
    /// A client frame to transmit.
    Client(&'a [u8]),
    /// A link frame that was received.
    Link(&'a [u8]),
    /// A report that this reservation is durable.
    Durable(Reservation),
}

/// Makes these calls, until memory runs out.
pub(crate) fn make_calls(
    endpoint: &mut AheadKeeper,
    calls: &[MadeCall<'_>],
) -> Result<(), AllocError>
    ensures after { OnOk result (endpoint.new ≡ after_calls endpoint.old (map call_of calls.now)) }
    ensures sound { OnOk result (StaysSound endpoint.old (map call_of calls.now)) }
{
    // For the prover only: the endpoint is sound before the first call.
    endpoint.is_sound();
    for call in calls {
        make_call(endpoint, call)?;
    }
    Ok(())
}

/// Makes a call. Only a renewal can run out of memory, and then nothing changes.
pub fn make_call(endpoint: &mut AheadKeeper, call: &MadeCall<'_>) -> Result<(), AllocError>
    ensures after { OnOk result (endpoint.new ≡ after_call endpoint.old (call_of call.now)) }
    ensures unchanged { OnErr result (endpoint.new ≡ endpoint.old) }
    ensures memory { OnErr result (IsRenewal call.now) }
    ensures sound { IsSound endpoint.new.k.secy }
{
    let made = change(endpoint, call);
    // For the prover only: the endpoint is sound, whatever the call has done.
    endpoint.is_sound();
    made
}

/// The same, without what is proved of soundness. Nothing is done with the answers.
fn change(endpoint: &mut AheadKeeper, call: &MadeCall<'_>) -> Result<(), AllocError>
    ensures after { OnOk result (endpoint.new ≡ after_call endpoint.old (call_of call.now)) }
    ensures unchanged { OnErr result (endpoint.new ≡ endpoint.old) }
    ensures memory { OnErr result (IsRenewal call.now) }
{
    match *call {
        MadeCall::Command(command) => {
            let _ = carry_out(endpoint, Ok(command));
            Ok(())
        }
        MadeCall::Renewal(key) => {
            let _ = endpoint.renew_key(&key)?;
            Ok(())
        }
        MadeCall::Client(frame) => match endpoint.send(frame) {
            Ok(KeptSent::Sent(_sent)) => Ok(()),
            Ok(KeptSent::NoReservation) => Ok(()),
            Err(_fault) => Ok(()),
        },
        MadeCall::Link(frame) => {
            let _ = endpoint.receive_inside(frame);
            Ok(())
        }
        MadeCall::Durable(reservation) => {
            endpoint.now_durable(&reservation);
            Ok(())
        }
    }
}
