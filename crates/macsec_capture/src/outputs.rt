//! Where a run writes.

use std::io::Write;

/// The two writers of a run.
#[derive(Drop)]
pub(crate) struct Outputs<'a, W: Write, T: Write> {
    /// The capture file that is written.
    pub(crate) output: &'a mut W,
    /// The lines that are printed.
    pub(crate) text: &'a mut T,
}
