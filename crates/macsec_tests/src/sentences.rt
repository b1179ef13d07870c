//! The sentences of faults and refusals, for callers that show them. The expected texts follow `docs/` and the
//! definitions.

use macsec_capture::CaptureFault;
use macsec_cli_runs::Failure;
use macsec_link::{End, WorldFault};
use macsec_pcap::PcapFault;
use macsec_script::ScriptFault;
use macsec_secy::{FrameFault, NewFault};
use macsec_suite::{Refusal, SuiteFault};
use macsec_tag::TagFault;
use std::alloc::Global;
use std::fmt::Display;
use std::process::Abort;
use std::test::Fail;

/// Checks that each of these is displayed as the sentence beside it.
fn assert_told<E: Display>(rt: &impl Abort, alloc: Global, rows: &[(E, &str)]) -> Result<(), Fail> {
    for (fault, wanted) in rows {
        let told = format!(in alloc; "{fault}")?;
        assert_eq!(rt; told.as_str(), *wanted);
    }
    Ok(())
}

const TAG: [(TagFault, &str); 5] = [
    (TagFault::Cut, "the frame ends before its SecTAG does"),
    (TagFault::Version, "the version bit is set"),
    (TagFault::SciBits, "ES or SCB is set, and SC too"),
    (
        TagFault::ShortBits,
        "the octet of SL has more than six bits",
    ),
    (TagFault::Length, "the frame's length is not what SL says"),
];

const SUITE: [(SuiteFault, &str); 2] = [
    (SuiteFault::KeyLength, "the key's length is not the suite's"),
    (SuiteFault::Offset, "the suite's keys have no such offset"),
];

const REFUSAL: [(Refusal, &str); 20] = [
    (Refusal::KeyLength, "the key's length is not the suite's"),
    (Refusal::Offset, "the suite's keys have no such offset"),
    (
        Refusal::KeyNumberUsed,
        "the number of the key was used before",
    ),
    (
        Refusal::KeyRepeated,
        "the bytes of the key were used before",
    ),
    (Refusal::NoKey, "there is no such key"),
    (Refusal::KeyRetired, "the key is retired"),
    (Refusal::KeyInUse, "an association uses the key"),
    (Refusal::OwnSci, "the SCI is the endpoint's own"),
    (Refusal::ScTaken, "there is such a channel"),
    (
        Refusal::ScFull,
        "there are as many channels as there can be",
    ),
    (Refusal::NoSc, "there is no such channel"),
    (Refusal::AnTaken, "there is such an association"),
    (Refusal::NoSa, "there is no such association"),
    (
        Refusal::PnRange,
        "the packet number is not from 1 to the last",
    ),
    (
        Refusal::PnLower,
        "the packet number is below the lowest acceptable one",
    ),
    (
        Refusal::PnFloor,
        "the packet number is below the key's first unused one",
    ),
    (Refusal::SsciOwn, "the SSCI is the key's own"),
    (Refusal::Window, "the replay window is too wide"),
    (
        Refusal::SciForm,
        "the tag form does not fit the endpoint's SCI",
    ),
    (
        Refusal::Exhausted,
        "the association has no packet number left",
    ),
];

const NEW: [(NewFault, &str); 3] = [
    (NewFault::Memory, "out of memory"),
    (
        NewFault::MaxFrame,
        "the largest frame is not 64 to 9,248 octets",
    ),
    (NewFault::SciForm, "the tag form does not fit the SCI"),
];

const FRAME: [(FrameFault, &str); 2] = [
    (FrameFault::Short, "the frame has fewer than 14 octets"),
    (FrameFault::Long, "the frame has more than 9,248 octets"),
];

const WORLD: [(WorldFault, &str); 7] = [
    (WorldFault::Memory, "out of memory"),
    (WorldFault::NoFrame, "there is no such link frame"),
    (WorldFault::LinkFull, "the link has 65,536 frames"),
    (WorldFault::AlterRange, "the link frame has no such octet"),
    (WorldFault::Short, "the frame is too short"),
    (WorldFault::Long, "the frame has more than 9,248 octets"),
    (
        WorldFault::Make(End::B, NewFault::SciForm),
        "an end cannot be made of its configuration",
    ),
];

const PCAP: [(PcapFault, &str); 14] = [
    (
        PcapFault::Magic,
        "the file begins with no magic number of the format",
    ),
    (PcapFault::Version, "the version is not one of the format"),
    (PcapFault::LinkType, "the link type is not that of Ethernet"),
    (PcapFault::CutHeader, "the file ends within its header"),
    (PcapFault::CutRecord, "the file ends within a record"),
    (PcapFault::RecordLength, "a record is too long"),
    (PcapFault::Read, "the file can't be read"),
    (PcapFault::Write, "the file can't be written"),
    (PcapFault::Memory, "out of memory"),
    (PcapFault::RecordCount, "the file has too many records"),
    (PcapFault::BlockLength, "a block has a wrong length"),
    (
        PcapFault::NoInterface,
        "a packet's interface is not described",
    ),
    (
        PcapFault::InterfaceCount,
        "a section has too many interfaces",
    ),
    (PcapFault::Time, "a time is out of range"),
];

const SCRIPT: [(ScriptFault, &str); 10] = [
    (ScriptFault::Word(3), "line 3 has an unknown word"),
    (
        ScriptFault::Count(4),
        "line 4 has too few words or too many",
    ),
    (
        ScriptFault::Hex(5),
        "line 5 has a word that is not hex text of the right length",
    ),
    (
        ScriptFault::Number(6),
        "line 6 has a word that is not a number in its range",
    ),
    (
        ScriptFault::Ends(7),
        "line 7 is in a wrong place, or its tag form does not fit its SCI",
    ),
    (ScriptFault::LineLong(8), "line 8 is too long"),
    (ScriptFault::ScriptLong, "the script is too long"),
    (ScriptFault::Memory, "out of memory"),
    (ScriptFault::Read, "the script can't be read"),
    (ScriptFault::Write, "the text can't be written"),
];

/// A fault that holds another one is displayed as that one.
const HELD: [(CaptureFault, &str); 2] = [
    (
        CaptureFault::Script(ScriptFault::Word(3)),
        "line 3 has an unknown word",
    ),
    (
        CaptureFault::Pcap(PcapFault::CutRecord),
        "the file ends within a record",
    ),
];

const FAILURE: [(Failure<'static>, &str); 4] = [
    (Failure::Usage, "the arguments are invalid"),
    (Failure::CannotOpen("no/such"), "no/such can't be opened"),
    (Failure::Script(ScriptFault::Memory), "out of memory"),
    (
        Failure::Pcap(PcapFault::Magic),
        "the file begins with no magic number of the format",
    ),
];

fn check_parts(rt: &impl Abort, alloc: Global) -> Result<(), Fail> {
    assert_told(rt, alloc, &TAG)?;
    assert_told(rt, alloc, &SUITE)?;
    assert_told(rt, alloc, &FRAME)
}

fn check_refusals(rt: &impl Abort, alloc: Global) -> Result<(), Fail> {
    assert_told(rt, alloc, &REFUSAL)
}

fn check_ends(rt: &impl Abort, alloc: Global) -> Result<(), Fail> {
    assert_told(rt, alloc, &NEW)?;
    assert_told(rt, alloc, &WORLD)
}

fn check_files(rt: &impl Abort, alloc: Global) -> Result<(), Fail> {
    assert_told(rt, alloc, &PCAP)
}

fn check_runs(rt: &impl Abort, alloc: Global) -> Result<(), Fail> {
    assert_told(rt, alloc, &SCRIPT)?;
    assert_told(rt, alloc, &HELD)?;
    assert_told(rt, alloc, &FAILURE)
}

#[test]
fn sentences(rt: HostRuntime) -> Result<(), Fail> {
    check_parts(&rt, rt.alloc())?;
    check_refusals(&rt, rt.alloc())?;
    check_ends(&rt, rt.alloc())?;
    check_files(&rt, rt.alloc())?;
    check_runs(&rt, rt.alloc())
}
