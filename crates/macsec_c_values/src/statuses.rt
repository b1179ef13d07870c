//! The numbers that the calls return.

ghost use Rattle.std.specs.Prelude.{◌≡◌};
ghost use Rattle.macsec_c_values.specs.Statuses.{number_of_verdict, status_of_frame_fault, status_of_line_fault};
ghost use Rattle.macsec_c_values.specs.Statuses.{status_of_new_fault, status_of_open_fault, status_of_script_fault};

use macsec_reserve::OpenFault;
use macsec_script_parser::{LineFault, ScriptFault};
use macsec_secy::{FrameFault, NewFault, Verdict};

/// The call succeeded.
pub const DONE: u32 = 0;

/// The handle is empty.
pub const EMPTY: u32 = 32;

/// The handle holds an endpoint, a key or a slot already.
pub const TAKEN: u32 = 33;

/// There is no such SC or SA.
pub const NONE: u32 = 40;

/// The octets are not a journal of this version.
pub const NOT_JOURNAL: u32 = 53;

/// The octets are not a record of a journal.
pub const NOT_RECORD: u32 = 54;

/// The buffer is too small for the answer to a line.
pub const ANSWER_LONG: u32 = 55;

/// The slot has no such job, or it has a frame already.
pub const JOB: u32 = 56;

/// The key is not the one that the job needs.
pub const OTHER_KEY: u32 = 57;

/// The buffer is too small for a frame.
pub const SPACE: u32 = 58;

/// No client frame was taken: the status is not 0.
pub const FATE_NONE: u32 = 0;

/// The frame is sent protected.
pub const FATE_PROTECTED: u32 = 1;

/// The frame is sent unchanged.
pub const FATE_PLAIN: u32 = 2;

/// The frame is dropped: no SA is enabled, or the enabled one is exhausted.
pub const FATE_NO_SA: u32 = 3;

/// The frame is dropped: it would be too long.
pub const FATE_TOO_LONG: u32 = 4;

/// The frame is dropped: its packet number is not reserved.
pub const FATE_NO_RESERVATION: u32 = 5;

/// The verdict on a valid link frame that is dropped: its packet number is not reserved yet.
pub const VERDICT_NO_RESERVATION: u32 = 13;

/// The verdict on a valid link frame that is dropped: an earlier run had reserved its packet number.
pub const VERDICT_EARLIER_RUN: u32 = 14;

/// The status of a fault of a configuration.
pub fn status_of_new_fault(fault: NewFault) -> u32
    ensures { result ≡ status_of_new_fault fault }
{
    match fault {
        NewFault::Memory => 41,
        NewFault::MaxFrame => 42,
        NewFault::SciForm => 43,
    }
}

/// The status of a fault of an endpoint with a journal.
pub fn status_of_open_fault(fault: OpenFault) -> u32
    ensures { result ≡ status_of_open_fault fault }
{
    match fault {
        OpenFault::Endpoint(fault) => status_of_new_fault(fault),
        OpenFault::NotJournal => NOT_JOURNAL,
        OpenFault::Memory => status_of_new_fault(NewFault::Memory),
    }
}

/// The status of a fault of a frame.
pub fn status_of_frame_fault(fault: FrameFault) -> u32
    ensures { result ≡ status_of_frame_fault fault }
{
    match fault {
        FrameFault::Short => 44,
        FrameFault::Long => 45,
    }
}

/// The status of a fault of a line.
pub fn status_of_line_fault(fault: LineFault) -> u32
    ensures { result ≡ status_of_line_fault fault }
{
    match fault {
        LineFault::Word => 46,
        LineFault::Count => 47,
        LineFault::Hex => 48,
        LineFault::Number => 49,
        LineFault::Ends => 50,
        LineFault::LineLong => 51,
        LineFault::Memory => status_of_new_fault(NewFault::Memory),
    }
}

/// The status of a fault of a text in memory. A text in memory has neither `Read` nor `Write`.
pub fn status_of_script_fault(fault: ScriptFault) -> u32
    ensures { result ≡ status_of_script_fault fault }
{
    match fault {
        ScriptFault::Word(_) => status_of_line_fault(LineFault::Word),
        ScriptFault::Count(_) => status_of_line_fault(LineFault::Count),
        ScriptFault::Hex(_) => status_of_line_fault(LineFault::Hex),
        ScriptFault::Number(_) => status_of_line_fault(LineFault::Number),
        ScriptFault::Ends(_) => status_of_line_fault(LineFault::Ends),
        ScriptFault::LineLong(_) => status_of_line_fault(LineFault::LineLong),
        ScriptFault::ScriptLong => 52,
        ScriptFault::Memory | ScriptFault::Read | ScriptFault::Write => {
            status_of_new_fault(NewFault::Memory)
        }
    }
}

/// The number of a verdict.
pub fn number_of_verdict(verdict: Verdict) -> u32
    ensures { result ≡ number_of_verdict verdict }
{
    match verdict {
        Verdict::Untagged => 1,
        Verdict::NoTag => 2,
        Verdict::BadTag => 3,
        Verdict::Reserved => 4,
        Verdict::NoSaError => 5,
        Verdict::NoSa => 6,
        Verdict::Late => 7,
        Verdict::NotValid => 8,
        Verdict::Unchecked => 9,
        Verdict::Delayed => 10,
        Verdict::Invalid => 11,
        Verdict::Passed => 12,
    }
}
