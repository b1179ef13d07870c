//! The SAs of the transmit SC, and the commands on them.

ghost use Rattle.std.specs.Prelude.{◌≡◌, ◌<◌, ◌^◌, [], length, map, set, slice_get, IfSome, OnOk, OnErr, Some};
ghost use Rattle.macsec_suite.specs.Refusals.{first_refusal, refusal_of};
ghost use Rattle.macsec_tx.specs.Transmit.{next_used, row_on, tx_row, used_at};
ghost use Rattle.macsec_tx.specs.Rows.{AreTxRows, IsEnabled};
ghost use Rattle.macsec_tx.specs.Commands.{HaveKeys, off_at, switch_to, tx_off_refusals, tx_on_refusals};
ghost use Rattle.macsec_tx.specs.Commands.{tx_sa_refusals, tx_uses, with_tx_off, with_tx_on, with_tx_sa, without_tx};

use crate::{EnabledSa, TxRow};
use arrayvec::ArrayVec;
use macsec_suite::{KeyNumber, KeyTable, Refusal};
use macsec_tag::{ASSOCIATION_COUNT, An};
use std::marker::Model;

/// The transmit SC: up to four SAs with different association numbers. Contracts see it as the list of its SAs, in the
/// order of their creation.
#[derive(Drop)]
pub struct TxChannel {
    rows: ArrayVec<TxRow, ASSOCIATION_COUNT>,
}

impl Model for TxChannel {
    ghost use Rattle.std.specs.Prelude.{List};
    ghost use Rattle.macsec_tx.specs.declared.TxRow.{TxRow};
    ghost use Rattle.macsec_tx.specs.Rows.{AreTxRows};

    ghost Value = { List TxRow };

    ghost view = { λ c. c.rows.items };

    ghost invariant = { λ c. AreTxRows c.rows.items };
}

impl TxChannel {
    /// Creates a transmit SC without SAs.
    pub fn new() -> TxChannel
        ensures { result ≡ [] }
    {
        TxChannel {
            rows: ArrayVec::new(),
        }
    }

    /// Becomes equal to another transmit SC.
    pub fn copy_from(&mut self, other: &TxChannel)
        ensures { self.new ≡ other.now }
    {
        self.rows.clear();
        self.rows
            .try_extend_from_slice(other.rows.as_slice())
            .unwrap();
    }

    /// Returns the SA with this association number.
    pub fn row(&self, an: An) -> Option<TxRow>
        ensures { result ≡ tx_row self.now an }
    {
        for row in self.rows.as_slice() {
            if row.an.number() == an.number() {
                return Some(*row);
            }
        }
        None
    }

    /// Finds the enabled SA.
    pub fn enabled(&self) -> Option<EnabledSa>
        ensures { IsEnabled self.now result }
    {
        let rows = self.rows.as_slice();
        'rows: for index in 0..rows.len() {
            let row = rows[index];
            if row.on {
                return Some(EnabledSa { index, row });
            }
        }
        None
    }

    /// Returns the enabled SA.
    pub fn row_on(&self) -> Option<TxRow>
        ensures row { result ≡ row_on self.now }
        ensures number { IfSome result (λ row. tx_row self.now row.an ≡ Some row) }
    {
        let enabled = self.enabled()?;
        Some(enabled.row)
    }

    /// Whether an SA uses the key.
    pub fn uses(&self, key: KeyNumber) -> bool
        ensures { result ≡ tx_uses self.now key }
    {
        self.rows.iter().any(|row| row.key == key)
    }

    /// Creates an SA. It is disabled, its first packet number is `next`, and it encrypts if `conf` is true.
    ///
    /// Errors: the first of `NoKey`, `KeyRetired`, `KeyInUse`, `AnTaken`, `PnRange` and `PnFloor` that applies.
    pub fn tx_sa(
        &mut self,
        keys: &KeyTable,
        an: An,
        key: KeyNumber,
        next: u64,
        conf: bool,
    ) -> Result<(), Refusal>
        ensures refusal { refusal_of result ≡ first_refusal (tx_sa_refusals keys.now self.old an key next) }
        ensures done { OnOk result (self.new ≡ with_tx_sa self.old an key next conf) }
        ensures unchanged { OnErr result (self.new ≡ self.old) }
        ensures rows { OnOk result (AreTxRows self.new) }
    {
        // Shows the prover that the association number is below 4. The compiler deletes the line.
        let _number = an.number();
        let Some(row) = keys.key(key) else {
            return Err(Refusal::NoKey);
        };
        if row.retired {
            return Err(Refusal::KeyRetired);
        }
        if self.uses(key) {
            return Err(Refusal::KeyInUse);
        }
        if self.row(an).is_some() {
            return Err(Refusal::AnTaken);
        }
        if next == 0 || next > row.suite_key.suite().last() {
            return Err(Refusal::PnRange);
        }
        if u128::from(next) < keys.first_unused(key).unwrap_or(1) {
            return Err(Refusal::PnFloor);
        }
        self.rows.push(TxRow {
            an,
            key,
            next: u128::from(next),
            conf,
            on: false,
        });
        Ok(())
    }

    /// Enables this SA and disables all others.
    ///
    /// Errors: `NoSa`, then `Exhausted`.
    pub fn tx_on(&mut self, keys: &KeyTable, an: An) -> Result<(), Refusal>
        requires { HaveKeys keys.now self.old }
        ensures refusal { refusal_of result ≡ first_refusal (tx_on_refusals keys.now self.old an) }
        ensures done { OnOk result (self.new ≡ with_tx_on self.old an) }
        ensures unchanged { OnErr result (self.new ≡ self.old) }
        ensures rows { OnOk result (AreTxRows self.new) }
    {
        let Some(row) = self.row(an) else {
            return Err(Refusal::NoSa);
        };
        let last = keys.key(row.key).unwrap().suite_key.suite().last();
        if row.next > u128::from(last) {
            return Err(Refusal::Exhausted);
        }
        switch_to(self.rows.as_mut_slice(), an);
        Ok(())
    }

    /// Disables this SA.
    ///
    /// Errors: `NoSa`.
    pub fn tx_off(&mut self, an: An) -> Result<(), Refusal>
        ensures refusal { refusal_of result ≡ first_refusal (tx_off_refusals self.old an) }
        ensures done { OnOk result (self.new ≡ with_tx_off self.old an) }
        ensures unchanged { OnErr result (self.new ≡ self.old) }
        ensures rows { OnOk result (AreTxRows self.new) }
    {
        if self.row(an).is_none() {
            return Err(Refusal::NoSa);
        }
        switch_off(self.rows.as_mut_slice(), an);
        Ok(())
    }

    /// Deletes this SA.
    ///
    /// Errors: `NoSa`.
    pub fn tx_del(&mut self, an: An) -> Result<(), Refusal>
        ensures refusal { refusal_of result ≡ first_refusal (tx_off_refusals self.old an) }
        ensures done { OnOk result (self.new ≡ without_tx self.old an) }
        ensures unchanged { OnErr result (self.new ≡ self.old) }
        ensures rows { OnOk result (AreTxRows self.new) }
    {
        if self.row(an).is_none() {
            return Err(Refusal::NoSa);
        }
        self.rows.retain(|row| row.an.number() != an.number());
        Ok(())
    }

    /// Advances the next packet number of the enabled SA, as `enabled` found it. The number must have 64 bits.
    pub(crate) fn use_number(&mut self, enabled: &EnabledSa)
        requires at { slice_get self.old enabled.now.index ≡ Some enabled.now.row }
        requires next { enabled.now.row.next < 2 ^ 64 }
        ensures used { self.new ≡ map (used_at enabled.now.row.an) self.old }
        ensures rows { AreTxRows self.new }
    {
        set_row(
            self.rows.as_mut_slice(),
            enabled.index,
            used_row(enabled.row),
        );
    }
}

fn switched_row(row: TxRow, an: An) -> TxRow
    ensures { result ≡ switch_to an row }
{
    TxRow {
        on: row.an.number() == an.number(),
        ..row
    }
}

fn off_row(row: TxRow, an: An) -> TxRow
    ensures { result ≡ off_at an row }
{
    if row.an.number() == an.number() {
        TxRow { on: false, ..row }
    } else {
        row
    }
}

fn switch_to(rows: &mut [TxRow], an: An)
    ensures { rows.new ≡ with_tx_on rows.old an }
{
    for row in rows.iter_mut() {
        *row = switched_row(*row, an);
    }
}

fn switch_off(rows: &mut [TxRow], an: An)
    ensures { rows.new ≡ with_tx_off rows.old an }
{
    for row in rows.iter_mut() {
        *row = off_row(*row, an);
    }
}

/// The SA, with its next packet number advanced.
fn used_row(row: TxRow) -> TxRow
    requires { row.next < 2 ^ 64 }
    ensures { result ≡ next_used row }
{
    let next = row.next + 1;
    TxRow { next, ..row }
}

/// Replaces the SA at this index.
fn set_row(rows: &mut [TxRow], index: usize, row: TxRow)
    requires { index < length rows.old }
    ensures { rows.new ≡ set rows.old index row }
{
    rows[index] = row;
}
