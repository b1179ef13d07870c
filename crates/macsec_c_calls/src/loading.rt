//! Rows that are carried out all or none.

ghost use Rattle.std.specs.Prelude.{◌≡◌, ◌≤◌, ◌+◌, ◌++◌, length, vec_capacity, vec_len, IfOk, OnErr, None};
ghost use Rattle.macsec_c_calls.specs.Loading.{Loads, answer_of_rows, commands_of, first_fault};

use macsec_ahead::AheadKeeper;
use macsec_c_values::{
    ArgumentFault, CommandRow, DONE, SPACE, command_of_row, status_of_new_fault,
};
use macsec_secy::{Command, NewFault};
use std::alloc::{AllocError, Global};

/// What became of a load.
#[derive(Clone, Copy)]
pub struct Loaded {
    /// The status. After another one than `DONE` nothing has changed.
    pub status: u32,
    /// The place of the row that the status is about, or the number of rows.
    pub place: usize,
}

/// Carries out the commands of all rows, or of none. Writes to `begins`, which has a number for each row, where the SA
/// of the row begins, if that is above its own packet number; otherwise 0. A row that means no command is named before
/// each refusal.
pub fn load_rows(
    alloc: Global,
    endpoint: &mut AheadKeeper,
    rows: &[CommandRow],
    begins: &mut [u64],
) -> Loaded
    ensures { Loads endpoint.old rows.now begins.old
        (record { status = result.status; place = result.place; begins = begins.new; after = endpoint.new }) }
{
    if rows.len() != begins.len() {
        return Loaded {
            status: SPACE,
            place: 0,
        };
    }
    match load_commands(alloc, endpoint, rows, begins) {
        Ok(answer) => answer,
        Err(_) => Loaded {
            status: status_of_new_fault(NewFault::Memory),
            place: 0,
        },
    }
}

/// The same, for as many numbers as rows.
fn load_commands(
    alloc: Global,
    endpoint: &mut AheadKeeper,
    rows: &[CommandRow],
    begins: &mut [u64],
) -> Result<Loaded, AllocError>
    requires { length begins.old ≡ length rows.now }
    ensures answer { IfOk result
        (λ answer. record { status = answer.status; place = answer.place; begins = begins.new; after = endpoint.new }
        ≡ answer_of_rows endpoint.old begins.old (commands_of rows.now) (first_fault 0 rows.now)) }
    ensures unchanged { OnErr result ((endpoint.new ≡ endpoint.old) × (begins.new ≡ begins.old)) }
{
    let mut commands = Vec::with_capacity(alloc, rows.len())?;
    if let Some((place, fault)) = append_commands(&mut commands, rows) {
        return Ok(Loaded {
            status: fault.status(),
            place,
        });
    }
    match endpoint.load(alloc, commands.as_slice())? {
        Ok(numbers) => {
            begins.copy_from_slice(numbers.as_slice());
            Ok(Loaded {
                status: DONE,
                place: rows.len(),
            })
        }
        Err((place, refusal)) => Ok(Loaded {
            status: u32::from(refusal.number()),
            place,
        }),
    }
}

/// Appends the commands that these rows mean, up to the first row that means none, which is returned.
fn append_commands(
    commands: &mut Vec<Option<Command>>,
    rows: &[CommandRow],
) -> Option<(usize, ArgumentFault)>
    requires { vec_len commands.old + length rows.now ≤ vec_capacity commands.old }
    ensures fault { result ≡ first_fault 0 rows.now }
    ensures commands { result ≡ None → commands.new.items ≡ commands.old.items ++ commands_of rows.now }
{
    for (place, row) in rows.iter().enumerate() {
        match command_of_row(row) {
            Ok(command) => commands.push(command).unwrap(),
            Err(fault) => return Some((place, fault)),
        }
    }
    None
}
