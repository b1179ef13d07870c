//! Commands that are carried out all or none.

ghost use Rattle.macsec_c.specs.Answers.{LoadsHeld};

use crate::endpoint::Endpoint;
use macsec_c_calls::loading::load_rows;
use macsec_c_values::{CommandRow, EMPTY};
use std::alloc::Global;

/// Carries out the commands of all rows, or of none. Writes to `begins`, which has a number for each row, where the SA
/// of the row begins, if that is above its own packet number; otherwise 0. Writes to `place` the place of the row that
/// the status is about, or the number of rows. `macsec_load` of the header calls this.
#[unsafe(no_mangle)]
pub extern "C" fn macsec_load_raw(
    alloc: Global,
    e: &mut Endpoint,
    rows: &[CommandRow],
    begins: &mut [u64],
    place: &mut usize,
) -> u32
    ensures { LoadsHeld e.old.state rows.now begins.old result place.new begins.new e.new.state }
{
    if !e.is_made() {
        *place = 0;
        return EMPTY;
    }
    let loaded = load_rows(alloc, e.held(), rows, begins);
    *place = loaded.place;
    loaded.status
}
