//! The configuration that a caller in C gives.

ghost use Rattle.std.specs.Prelude.{◌≡◌};
ghost use Rattle.macsec_c_values.specs.Configs.{config_of};

use crate::{ArgumentFault, form_of, suite_of};
use macsec_secy::{EndConfig, Sci};

/// A configuration as C gives it.
#[repr(C)]
#[derive(Drop)]
pub struct Config {
    pub sci: [u8; 8],
    pub suite: u32,
    pub form: u32,
    pub max_frame: u32,
}

/// The configuration that it names, or the first argument that names nothing.
pub fn config_of(config: &Config) -> Result<EndConfig, ArgumentFault>
    ensures { result ≡ config_of config.now }
{
    Ok(EndConfig {
        suite: suite_of(config.suite)?,
        sci: Sci(config.sci),
        max_frame: config.max_frame,
        form: form_of(config.form)?,
    })
}
