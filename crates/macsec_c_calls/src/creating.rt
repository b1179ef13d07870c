//! Creating an endpoint.

ghost use Rattle.macsec_script_parser.specs.Fields.{map_ok};
ghost use Rattle.macsec_ahead.specs.Answers.{MakesAhead, MakesAloneWith};

use macsec_ahead::AheadKeeper;
use macsec_reserve::OpenFault;
use macsec_secy::{EndConfig, NewFault};
use std::alloc::Global;

/// Creates an endpoint of this configuration on the heap, without a journal.
pub fn endpoint_alone(
    alloc: Global,
    config: EndConfig,
) -> Result<Box<AheadKeeper, Global>, NewFault>
    ensures { MakesAloneWith config (map_ok (λ endpoint. endpoint.value) result) }
{
    // `?` and a second `match` would need twice the stack for the endpoint.
    let endpoint = match AheadKeeper::new(alloc, config) {
        Ok(endpoint) => endpoint,
        Err(fault) => return Err(fault),
    };
    let Ok(endpoint) = Box::new(alloc, endpoint) else {
        return Err(NewFault::Memory);
    };
    Ok(endpoint)
}

/// Creates an endpoint of this configuration on the heap, with a journal. With `ahead` it reserves ahead of receiving.
pub fn endpoint_beside(
    alloc: Global,
    config: EndConfig,
    journal: &[u8],
    ahead: bool,
) -> Result<Box<AheadKeeper, Global>, OpenFault>
    ensures { MakesAhead ahead config journal.now (map_ok (λ endpoint. endpoint.value) result) }
{
    let endpoint = match AheadKeeper::open(alloc, config, journal, ahead) {
        Ok(endpoint) => endpoint,
        Err(fault) => return Err(fault),
    };
    let Ok(endpoint) = Box::new(alloc, endpoint) else {
        return Err(OpenFault::Memory);
    };
    Ok(endpoint)
}
