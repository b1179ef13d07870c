//! Reservations, one entry for each name.

ghost use Rattle.std.specs.Prelude.{◌≡◌, map, set, OnOk};
ghost use Rattle.macsec_reserve.specs.Entries.{has_entry, raised_by, with_one_more};

use crate::Reservation;
use crate::names::is_same_name;
use std::alloc::AllocError;

/// Takes one more reservation in: the entry of its name is raised to its number, or it becomes an entry.
pub(crate) fn add(entries: &mut Vec<Reservation>, more: &Reservation) -> Result<(), AllocError>
    ensures { OnOk result (entries.new.items ≡ with_one_more entries.old.items more.now) }
{
    if has_entry(entries.as_slice(), &more.name) {
        raise(entries.as_mut_slice(), more);
        Ok(())
    } else {
        entries.push(*more)?;
        Ok(())
    }
}

/// Is there an entry of this name?
fn has_entry(entries: &[Reservation], name: &[u8; 32]) -> bool
    ensures { result ≡ has_entry entries.now name.now }
{
    for entry in entries {
        if is_same_name(&entry.name, name) {
            return true;
        }
    }
    false
}

/// Raises the entries of a reservation's name to its number.
pub fn raise(entries: &mut [Reservation], by: &Reservation)
    ensures { entries.new ≡ map (raised_by by.now) entries.old }
{
    for reserved in entries.iter_mut() {
        *reserved = raised_by(*reserved, by);
    }
}

/// An entry, raised if a reservation has its name.
fn raised_by(entry: Reservation, by: &Reservation) -> Reservation
    ensures { result ≡ raised_by by.now entry }
{
    if is_same_name(&entry.name, &by.name) {
        let name = entry.name;
        let last = entry.last.max(by.last);
        Reservation { name, last }
    } else {
        entry
    }
}

/// Gives the entry at a place, if there is one, another name, with nothing reserved.
pub(crate) fn restart(entries: &mut [Reservation], place: usize, name: &[u8; 32])
    ensures { entries.new ≡ set entries.old place (record { name = name.now; last = 0 }) }
{
    if place < entries.len() {
        let name = *name;
        entries[place] = Reservation { name, last: 0 };
    }
}
