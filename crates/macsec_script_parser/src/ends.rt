//! The configuration of an end that was checked.

ghost use Rattle.std.specs.Prelude.{◌≡◌, None};
ghost use Rattle.macsec_commands.specs.Configs.{config_fault};
ghost use Rattle.macsec_script_parser.specs.Kinds.{checked};

use macsec_commands::EndConfig;
use std::marker::Model;

/// The configuration of an end, without a fault: an endpoint can be created from it.
#[derive(Clone, Copy)]
pub struct CheckedEnd {
    config: EndConfig,
}

impl Model for CheckedEnd {
    ghost use Rattle.std.specs.Prelude.{◌≡◌, None};
    ghost use Rattle.macsec_commands.specs.Configs.{config_fault};
    ghost use Rattle.macsec_commands.specs.declared.config.EndConfig.{EndConfig};

    ghost Value = { EndConfig };

    ghost view = { λ e. e.config };

    ghost invariant = { λ e. config_fault e.config ≡ None };

    ghost inverse = { λ config. record { config = config } };
}

impl CheckedEnd {
    /// Returns this configuration, or `None` if it has a fault.
    pub fn new(config: EndConfig) -> Option<CheckedEnd>
        ensures { result ≡ checked config }
    {
        match config.fault() {
            None => Some(CheckedEnd { config }),
            Some(_) => None,
        }
    }

    /// The configuration.
    pub fn config(self) -> EndConfig
        ensures config { result ≡ self }
        ensures good { config_fault result ≡ None }
    {
        self.config
    }
}
