//! Keys and slots on the heap.

ghost use Rattle.std.specs.Prelude.{◌≡◌, true, IfErr, IfOk};
ghost use Rattle.macsec_commands.specs.declared.fault.NewFault.TheVariants.{Memory};
ghost use Rattle.macsec_suite.specs.KeyRows.{key_row};
ghost use Rattle.macsec_script_parser.specs.Fields.{map_ok};
ghost use Rattle.macsec_jobs.specs.Slots.{is_idle};
ghost use Rattle.macsec_c_values.specs.Statuses.{status_of_new_fault};
ghost use Rattle.macsec_c_calls.specs.TakenKeys.{TakesResult};

use macsec_c_values::status_of_new_fault;
use macsec_jobs::{JobKey, Slot};
use macsec_reserve::Keeper;
use macsec_secy::{KeyNumber, NewFault};
use std::alloc::Global;

/// Prepares the endpoint's key of this number once more, on the heap, or returns why not: a status.
pub fn take_key(
    alloc: Global,
    keeper: &Keeper,
    number: KeyNumber,
) -> Result<Box<JobKey, Global>, u32>
    ensures { TakesResult (key_row keeper.now.secy.keys number) number (map_ok (λ key. key.value) result) }
{
    let key = match JobKey::take(keeper, number) {
        Ok(key) => key,
        Err(refusal) => return Err(u32::from(refusal.number())),
    };
    let Ok(key) = Box::new(alloc, key) else {
        return Err(status_of_new_fault(NewFault::Memory));
    };
    Ok(key)
}

/// Creates a slot on the heap, or returns why not: a status.
pub fn new_slot(alloc: Global) -> Result<Box<Slot, Global>, u32>
    ensures idle { IfOk result (λ slot. is_idle slot.value.work ≡ true) }
    ensures memory { IfErr result (λ status. status ≡ status_of_new_fault Memory) }
{
    let Ok(slot) = Slot::new(alloc) else {
        return Err(status_of_new_fault(NewFault::Memory));
    };
    let Ok(slot) = Box::new(alloc, slot) else {
        return Err(status_of_new_fault(NewFault::Memory));
    };
    Ok(slot)
}
