//! A run that code makes.

ghost use Rattle.std.specs.Prelude.{◌≡◌, IfErr, IfOk, OnOk};
ghost use Rattle.macsec_ahead.specs.Answers.{MakesAhead};
ghost use Rattle.macsec_c_runs.specs.Made.{run_of};
ghost use Rattle.macsec_c_runs.specs.Runs.{IsRun};
ghost use Rattle.macsec_c_runs.specs.TwoEnds.{closing};

use crate::calling::{MadeCall, make_calls};
use macsec_ahead::AheadKeeper;
use macsec_c_calls::endpoint_beside;
use macsec_reserve::OpenFault;
use macsec_secy::EndConfig;
use std::alloc::Global;

/// Makes a run: opens an endpoint with this configuration and a journal of these octets, and makes these calls, one
/// after another. Returns the endpoint after them. The run is one (`IsRun`), whatever the calls are, so it meets this
/// premise of the laws. If memory runs out, also at a renewal, there is no endpoint.
pub fn make_run(
    alloc: Global,
    config: EndConfig,
    journal: &[u8],
    ahead: bool,
    calls: &[MadeCall<'_>],
) -> Result<Box<AheadKeeper, Global>, OpenFault>
    ensures run { OnOk result (IsRun (run_of journal.now config ahead calls.now)) }
    ensures after { IfOk result (λ endpoint. endpoint.value ≡ closing (run_of journal.now config ahead calls.now)) }
    ensures fault { IfErr result (λ fault. MakesAhead ahead config journal.now (Err fault)) }
{
    let mut endpoint = endpoint_beside(alloc, config, journal, ahead)?;
    let Ok(()) = make_calls(&mut *endpoint, calls) else {
        return Err(OpenFault::Memory);
    };
    Ok(endpoint)
}
