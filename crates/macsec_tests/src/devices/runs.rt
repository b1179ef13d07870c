//! Runs of scripts and captures with one failing device.

use super::{CLIENT, LINK, RECEIVER, SCRIPT, SCRIPT_TEXT, SENDER};
use macsec_capture::{CaptureFault, Direction, run_capture};
use macsec_script::run_script;
use macsec_test_tools::{
    COUNTERS_OF_TWO_RECEIVED, COUNTERS_OF_TWO_SENT, FailingReader, FailingWriter, Fails,
};
use std::alloc::Global;
use std::process::Abort;

/// A run of a script, or of a capture in a direction: its source, which is the script or the configuration, the capture
/// file, and what a complete run writes: the output, the text before the counters, and the counters.
struct Run {
    direction: Option<Direction>,
    source: &'static str,
    input: &'static [u8],
    output: &'static [u8],
    lines: &'static str,
    counters: &'static str,
}

const OF_SCRIPT: Run = Run {
    direction: None,
    source: SCRIPT,
    input: &[],
    output: &[],
    lines: SCRIPT_TEXT,
    counters: "",
};

const OF_PROTECTION: Run = Run {
    direction: Some(Direction::Protect),
    source: SENDER,
    input: CLIENT,
    output: LINK,
    lines: "2 done\n3 done\n4 done\nrecord 0 link 46\nrecord 1 link 46\n",
    counters: COUNTERS_OF_TWO_SENT,
};

const OF_VALIDATION: Run = Run {
    direction: Some(Direction::Validate),
    source: RECEIVER,
    input: LINK,
    output: CLIENT,
    lines: "2 done\n3 done\n4 done\n5 done\nrecord 0 OK 14\nrecord 1 OK 14\n",
    counters: COUNTERS_OF_TWO_RECEIVED,
};

/// The devices of a run.
#[derive(Clone, Copy, PartialEq, Eq)]
enum Place {
    Source,
    Input,
    Output,
    Text,
}

/// The fault of a run: its part and its name.
type Answer = (&'static str, &'static str);

/// What a run has written when a call fails: how many octets of the output and of the text. Of the device that fails
/// only a beginning of the whole is written.
type Stop = (usize, usize);

/// A device: its fault, and its calls. An entry is a number of calls, and where the run is if one of them fails.
type Device = (Place, Answer, &'static [(usize, Stop)]);

/// A read returns at most 16 octets, and the last one none. The header of a file is written by one call, a record by
/// two, and a line of a script by one. In a line of a capture each piece (such as `3` and ` done`) and each octet in
/// hex is one call. The stops of a capture are after the configuration, the header, and each record.
const DEVICES_OF_SCRIPT: [Device; 2] = [
    (Place::Source, ("script", "Read"), &[(13, (0, 0))]),
    (Place::Text, ("script", "Write"), &[(4, (0, 0))]),
];

const DEVICES_OF_PROTECTION: [Device; 4] = [
    (Place::Source, ("script", "Read"), &[(8, (0, 0))]),
    (
        Place::Input,
        ("pcap", "Read"),
        &[(2, (0, 21)), (2, (24, 21)), (2, (86, 38)), (1, (148, 55))],
    ),
    (
        Place::Output,
        ("pcap", "Write"),
        &[(1, (0, 21)), (2, (0, 38)), (2, (0, 55))],
    ),
    (
        Place::Text,
        ("script", "Write"),
        &[(6, (0, 0)), (5, (24, 0)), (5, (86, 0)), (90, (148, 0))],
    ),
];

const DEVICES_OF_VALIDATION: [Device; 4] = [
    (Place::Source, ("script", "Read"), &[(12, (0, 0))]),
    (
        Place::Input,
        ("pcap", "Read"),
        &[(2, (0, 28)), (4, (24, 28)), (4, (54, 43)), (1, (84, 58))],
    ),
    (
        Place::Output,
        ("pcap", "Write"),
        &[(1, (0, 28)), (2, (0, 43)), (2, (0, 58))],
    ),
    (
        Place::Text,
        ("script", "Write"),
        &[(8, (0, 0)), (7, (24, 0)), (7, (54, 0)), (282, (84, 0))],
    ),
];

/// The number of calls of a device that are made to fail: all except the calls for the counters of the SC and of its
/// SA, at the end of a validation.
const CHECKED_CALLS: usize = 112;

/// The devices of a run.
#[derive(Drop)]
struct Devices<'a> {
    source: FailingReader<'a>,
    input: FailingReader<'a>,
    output: FailingWriter,
    text: FailingWriter,
}

/// `fails` if the failing device is this one, else no failure.
fn if_at(place: Place, other: Place, fails: Fails) -> Fails {
    if place == other { fails } else { Fails::Never }
}

/// The devices of a run. Only the one at this place fails.
fn devices_of(alloc: Global, run: &Run, place: Place, fails: Fails) -> Devices<'static> {
    let source = run.source.as_bytes();
    Devices {
        source: FailingReader::new(source, 16, if_at(place, Place::Source, fails)),
        input: FailingReader::new(run.input, 16, if_at(place, Place::Input, fails)),
        output: FailingWriter::new(alloc, if_at(place, Place::Output, fails)),
        text: FailingWriter::new(alloc, if_at(place, Place::Text, fails)),
    }
}

fn script_run(alloc: Global, devices: &mut Devices<'_>) -> Answer {
    match run_script(alloc, true, &mut devices.source, &mut devices.text) {
        Ok(()) => ("", ""),
        Err(fault) => ("script", fault.name()),
    }
}

fn of_capture(done: Result<(), CaptureFault>) -> Answer {
    match done {
        Ok(()) => ("", ""),
        Err(CaptureFault::Script(fault)) => ("script", fault.name()),
        Err(CaptureFault::Pcap(fault)) => ("pcap", fault.name()),
    }
}

fn capture_run(alloc: Global, direction: Direction, devices: &mut Devices<'_>) -> Answer {
    of_capture(run_capture(
        alloc,
        true,
        direction,
        &mut devices.source,
        &mut devices.input,
        &mut devices.output,
        &mut devices.text,
    ))
}

fn run_over(alloc: Global, run: &Run, devices: &mut Devices<'_>) -> Answer {
    match run.direction {
        None => script_run(alloc, devices),
        Some(direction) => capture_run(alloc, direction, devices),
    }
}

/// The number of calls of the device at this place, and the number of calls after it failed or was at its end.
fn calls_of(devices: &Devices<'_>, place: Place) -> (usize, usize) {
    match place {
        Place::Source => (devices.source.calls(), devices.source.calls_after()),
        Place::Input => (devices.input.calls(), devices.input.calls_after()),
        Place::Output => (devices.output.calls(), devices.output.calls_after()),
        Place::Text => (devices.text.calls(), devices.text.calls_after()),
    }
}

/// Whether this is a beginning of the text of a run.
fn is_begun(text: &[u8], run: &Run) -> bool {
    match text.strip_prefix(run.lines.as_bytes()) {
        Some(rest) => run.counters.as_bytes().starts_with(rest),
        None => run.lines.as_bytes().starts_with(text),
    }
}

/// Whether this is the whole text of a run.
fn is_whole(text: &[u8], run: &Run) -> bool {
    match text.strip_prefix(run.lines.as_bytes()) {
        Some(rest) => rest == run.counters.as_bytes(),
        None => false,
    }
}

/// Whether a run whose device at this place failed is at this stop.
fn is_at(devices: &Devices<'_>, run: &Run, place: Place, stop: Stop) -> bool {
    let output = devices.output.written();
    let text = devices.text.written();
    run.output.starts_with(output)
        && is_begun(text, run)
        && (place == Place::Output || output.len() == stop.0)
        && (place == Place::Text || text.len() == stop.1)
}

/// Checks that a run ends with the fault of its device if this call fails, alone or with all calls after it: the run is
/// at its stop, and the device was not called again.
fn check_call(rt: &impl Abort, alloc: Global, run: &Run, device: &Device, at: usize, stop: Stop) {
    let (place, fault, _) = *device;
    for fails in [Fails::At(at), Fails::From(at)] {
        let mut devices = devices_of(alloc, run, place, fails);
        let answer = run_over(alloc, run, &mut devices);
        let calls = calls_of(&devices, place);
        assert!(rt;
            answer == fault && calls == (at.saturating_add(1), 0),
            "{at}"
        );
        assert!(rt; is_at(&devices, run, place, stop), "{at}");
    }
}

/// Checks that a run whose device has this many calls is complete if none of them fails.
fn check_end(rt: &impl Abort, alloc: Global, run: &Run, place: Place, count: usize) {
    for fails in [Fails::Never, Fails::At(count)] {
        let mut devices = devices_of(alloc, run, place, fails);
        let answer = run_over(alloc, run, &mut devices);
        let (calls, _) = calls_of(&devices, place);
        assert!(rt; answer == ("", "") && calls == count, "{count}");
        assert!(rt; devices.output.written() == run.output, "{count}");
        assert!(rt; is_whole(devices.text.written(), run), "{count}");
    }
}

fn check_device(rt: &impl Abort, alloc: Global, run: &Run, device: &Device) {
    let (place, _, entries) = *device;
    let mut at: usize = 0;
    for (calls, stop) in entries {
        for _ in 0..*calls {
            if at < CHECKED_CALLS {
                check_call(rt, alloc, run, device, at, *stop);
            }
            at = at.saturating_add(1);
        }
    }
    check_end(rt, alloc, run, place, at);
}

fn check_devices(rt: &impl Abort, alloc: Global, run: &Run, devices: &[Device]) {
    for device in devices {
        check_device(rt, alloc, run, device);
    }
}

/// A run ends with the fault of the device that fails, at each of its calls, and is complete if none fails.
///
/// Finds the mistake: The run of a script always reports that memory, a read or a write failed.
///
/// Finds the mistake: The run of a capture always reports that memory, a read or a write failed.
#[test]
fn devices_that_fail(rt: HostRuntime) {
    check_devices(&rt, rt.alloc(), &OF_SCRIPT, &DEVICES_OF_SCRIPT);
    check_devices(&rt, rt.alloc(), &OF_PROTECTION, &DEVICES_OF_PROTECTION);
    check_devices(&rt, rt.alloc(), &OF_VALIDATION, &DEVICES_OF_VALIDATION);
}
