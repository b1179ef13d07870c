//! A key of an endpoint, prepared once more.

ghost use Rattle.std.specs.Prelude.{◌≡◌, IfOk};
ghost use Rattle.macsec_suite.specs.KeyRows.{key_row, prepared_key, the_key};
ghost use Rattle.macsec_suite.specs.Refusals.{refusal_of};
ghost use Rattle.macsec_jobs.specs.PlannedKeys.{key_of, same_key, take_refusal};

use crate::PlannedKey;
use macsec_reserve::Keeper;
use macsec_secy::{KeyNumber, Refusal};
use macsec_suite::{KeyRow, SuiteKey};
use std::marker::Model;

/// A key of an endpoint, prepared once more for jobs. It needs no endpoint. Contracts see it as the key of its jobs.
#[derive(Drop)]
pub struct JobKey {
    row: KeyRow,
}

impl Model for JobKey {
    ghost use Rattle.macsec_suite.specs.KeyTables.{HasOwnKey};
    ghost use Rattle.macsec_jobs.specs.declared.planned_key.PlannedKey.{PlannedKey};
    ghost use Rattle.macsec_jobs.specs.PlannedKeys.{planned_of};

    ghost Value = { PlannedKey };

    ghost view = { λ k. planned_of k.row };

    // It is prepared from its own octets.
    ghost invariant = { λ k. HasOwnKey k.row };
}

impl JobKey {
    /// Prepares the endpoint's key of this number once more.
    ///
    /// Errors: `NoKey`, then `KeyRetired`.
    pub fn take(keeper: &Keeper, number: KeyNumber) -> Result<JobKey, Refusal>
        ensures refusal { refusal_of result ≡ take_refusal (key_row keeper.now.secy.keys number) }
        ensures number { IfOk result (λ key. key.number ≡ number) }
        ensures key { IfOk result (λ key. key_of key ≡ prepared_key (the_key keeper.now.secy.keys number)) }
    {
        let Some(row) = keeper.secy().installed(number) else {
            return Err(Refusal::NoKey);
        };
        if row.retired {
            return Err(Refusal::KeyRetired);
        }
        Ok(JobKey {
            row: row.prepared_again(),
        })
    }

    /// Whether this is the key that a job needs. All octets of the two are compared.
    pub(crate) fn is_for(&self, planned: &PlannedKey) -> bool
        ensures { result ≡ same_key planned.now self.now }
    {
        planned.is_of(&self.row)
    }

    /// The prepared key.
    pub(crate) fn suite_key(&self) -> &SuiteKey
        ensures { result.now ≡ key_of self.now }
    {
        &self.row.suite_key
    }
}
