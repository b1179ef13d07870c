//! The answer to a line of the script language.

ghost use Rattle.macsec_c.specs.Answering.{AnswersHeld};

use crate::endpoint::Endpoint;
use macsec_c_calls::answer;
use macsec_c_values::EMPTY;
use std::alloc::Global;

/// Answers a line at end A as line `number` of a script: carries out its command, or shows what it asks for, and writes
/// what a script prints for it. `macsec_answer` of the header calls this with a text and a buffer that are not null.
#[unsafe(no_mangle)]
pub extern "C" fn macsec_answer_raw(
    alloc: Global,
    e: &mut Endpoint,
    number: u32,
    text: &[u8],
    out: &mut [u8],
    written: &mut usize,
) -> u32
    ensures { AnswersHeld e.old.state number text.now (out.old, written.old) result (out.new, written.new) e.new.state }
{
    *written = 0;
    if !e.is_made() {
        return EMPTY;
    }
    let answered = answer(alloc, e.held(), number, text, out);
    *written = answered.length;
    answered.ending.status()
}
