//! Creating the endpoint of a handle, and freeing it.

ghost use Rattle.std.specs.Prelude.{◌≡◌, None};
ghost use Rattle.macsec_c_values.specs.Configs.{config_of};
ghost use Rattle.macsec_c.specs.Answers.{Makes, Opens};

use crate::endpoint::Endpoint;
use crate::loose::Loose;
use macsec_c_calls::{endpoint_alone, endpoint_beside};
use macsec_c_values::{Config, DONE, TAKEN, config_of, status_of_new_fault, status_of_open_fault};
use std::alloc::Global;

/// Creates an endpoint of this configuration on the heap, in a handle without one.
#[unsafe(no_mangle)]
pub extern "C" fn macsec_new(alloc: Global, e: &mut Endpoint, config: &Config) -> u32
    ensures { Makes e.old.state (config_of config.now) result e.new.state }
{
    if e.is_made() {
        return TAKEN;
    }
    let config = match config_of(config) {
        Ok(config) => config,
        Err(fault) => return fault.status(),
    };
    match endpoint_alone(alloc, config) {
        Ok(endpoint) => {
            e.put(Loose::of(endpoint));
            DONE
        }
        Err(fault) => status_of_new_fault(fault),
    }
}

/// Creates an endpoint of this configuration with a journal, in a handle without one. With `ahead` it reserves packet
/// numbers ahead of receiving. `macsec_reserve_open` of the header calls this with a journal that is not null.
#[unsafe(no_mangle)]
pub extern "C" fn macsec_reserve_open_raw(
    alloc: Global,
    e: &mut Endpoint,
    config: &Config,
    journal: &[u8],
    ahead: bool,
) -> u32
    ensures { Opens e.old.state ahead (config_of config.now) journal.now result e.new.state }
{
    if e.is_made() {
        return TAKEN;
    }
    let config = match config_of(config) {
        Ok(config) => config,
        Err(fault) => return fault.status(),
    };
    match endpoint_beside(alloc, config, journal, ahead) {
        Ok(endpoint) => {
            e.put(Loose::of(endpoint));
            DONE
        }
        Err(fault) => status_of_open_fault(fault),
    }
}

/// Frees the endpoint of a handle, if it holds one. Afterwards the handle holds none. `macsec_free` of the header calls
/// this, unless its handle is null.
#[unsafe(no_mangle)]
pub extern "C" fn macsec_free_raw(alloc: Global, e: &mut Endpoint)
    ensures { e.new.state ≡ None }
{
    if e.is_made() {
        drop(e.take(alloc).into_box());
    }
}
