//! Runs a script, from a reader or already read, and prints to a writer.

ghost use Rattle.std.specs.Prelude.{◌≡◌, IfSome, IfErr, OnOk, option_copied};
ghost use Rattle.macsec_link.specs.Sound.{IsSound};
ghost use Rattle.macsec_link.specs.Beginnings.{StaysSound};
ghost use Rattle.macsec_script_parser.specs.declared.lines.Action.TheVariants as action;
ghost use Rattle.macsec_script.specs.Printed.{frame_made, line_step, text_from, text_of};
ghost use Rattle.macsec_script.specs.Promised.{ArePromised, ArePromisedUpTo, IsPromised, IsPromisedBefore};
ghost use Rattle.macsec_script.specs.Promised.{IsPromisedUpTo, IsSoundUpTo, LeavesAll, UnlessMemory, events_of};
ghost use Rattle.macsec_script.specs.Runs.{IsAfterRead, LeavesText, RunGives, WritesText};
ghost use Rattle.macsec_script_printer.specs.Printing.{Prints};

use macsec_link::laws::{promises, worlds_are_sound};
use macsec_link::{Event, Outcome, World, WorldFault};
use macsec_script_parser::{Action, CheckedEnd, ScriptFault, parse_script, read_text};
use macsec_script_printer::{Label, print_counters, print_numbers, print_outcome, write_fault};
use macsec_writes::write_octets;
use std::alloc::Global;
use std::io::{Read, Write};

/// Runs a script: reads all of it by `read_text`, and runs it by `run_text`. Returns the script's first fault, having
/// written nothing, or `Memory`, `Read` or `Write`.
pub fn run_script<R: Read, W: Write>(
    alloc: Global,
    wide: bool,
    reader: &mut R,
    writer: &mut W,
) -> Result<(), ScriptFault>
    ensures run { IfSome (R.remaining reader.old)
        (λ script. RunGives script (W.contents writer.old) (W.contents writer.new) result) }
    ensures unwritten { IfErr result (λ fault. LeavesText (W.contents writer.old) (W.contents writer.new) fault) }
    ensures promised { OnOk result (IfSome (R.remaining reader.old) IsPromised) }
    ensures promised_before { IfErr result (λ fault. IfSome (R.remaining reader.old) (λ script.
        IsPromisedBefore (IsPromisedUpTo script) (W.contents writer.old) (W.contents writer.new) fault)) }
{
    let text = read_text(alloc, reader)?;
    run_text(alloc, wide, writer, text.as_slice())
}

/// Runs a script that was read: parses all of it, and then carries out its lines and prints their results. Returns the
/// script's first fault, having written nothing, or `Memory` or `Write`. `wide` is what `Secy::prefer_wide` takes.
pub fn run_text<W: Write>(
    alloc: Global,
    wide: bool,
    writer: &mut W,
    script: &[u8],
) -> Result<(), ScriptFault>
    ensures run { RunGives script.now (W.contents writer.old) (W.contents writer.new) result }
    ensures read { IfErr result IsAfterRead }
    ensures unwritten { IfErr result (λ fault. LeavesText (W.contents writer.old) (W.contents writer.new) fault) }
    // The four promises hold of the run of the script's two ends over the events of its lines; and no tag is forged in
    // it, or there is a first forged one, which needs one of few hash keys. The text shows the worlds of that run
    // (`laws::prints_of_worlds`).
    ensures promised { OnOk result (IsPromised script.now) }
    // If memory runs out, what was written is all that the first lines print, and the same holds of these lines. If a
    // write fails, what was written ends in the text of one line, and the same holds of the lines up to that one.
    ensures promised_before { IfErr result (λ fault. IsPromisedBefore (IsPromisedUpTo script.now)
        (W.contents writer.old) (W.contents writer.new) fault) }
{
    let parsed = parse_script(alloc, script)?;
    let Some(script) = parsed else {
        return Ok(());
    };
    print_script(
        alloc,
        wide,
        writer,
        script.a,
        script.b,
        script.lines.as_slice(),
    )
}

/// Carries out the lines of a script, and prints their results.
fn print_script<W: Write>(
    alloc: Global,
    wide: bool,
    writer: &mut W,
    a: CheckedEnd,
    b: CheckedEnd,
    lines: &[(u32, Action)],
) -> Result<(), ScriptFault>
    ensures text { WritesText (text_of (record { a = a; b = b; lines = lines.now })) (W.contents writer.old)
        (W.contents writer.new) result }
    ensures promised { OnOk result (ArePromised (record { a = a; b = b; lines = lines.now })) }
    ensures promised_before { IfErr result (λ fault.
        IsPromisedBefore (ArePromisedUpTo (record { a = a; b = b; lines = lines.now })) (W.contents writer.old)
        (W.contents writer.new) fault) }
{
    // A law that the proof cites.
    promises();
    let mut world = match World::new(alloc, wide, a.config(), b.config()) {
        Ok(world) => world,
        Err(WorldFault::Memory) => return Err(ScriptFault::Memory),
        Err(_) => unreachable!(),
    };
    print_lines(alloc, &mut world, writer, lines)
}

/// Carries out the lines one after another, and prints their results.
fn print_lines<W: Write>(
    alloc: Global,
    world: &mut World,
    writer: &mut W,
    lines: &[(u32, Action)],
) -> Result<(), ScriptFault>
    ensures text { WritesText (text_from world.old lines.now) (W.contents writer.old) (W.contents writer.new) result }
    ensures sound { OnOk result (IsSound world.old → StaysSound world.old (events_of lines.now)) }
    ensures sound_before { IfErr result (λ fault. IsPromisedBefore (IsSoundUpTo world.old world.new lines.now)
        (W.contents writer.old) (W.contents writer.new) fault) }
{
    // A law that the proof cites.
    worlds_are_sound();
    let mut room = Vec::new(alloc);
    for (n, action) in lines {
        print_line(&mut room, world, writer, *n, action)?;
    }
    Ok(())
}

/// Carries out one line, and prints its result. Its text is composed in `room` and then written.
fn print_line<W: Write>(
    room: &mut Vec<u8>,
    world: &mut World,
    writer: &mut W,
    n: u32,
    action: &Action,
) -> Result<(), ScriptFault>
    ensures text { WritesText (line_step world.old n action.now).0 (W.contents writer.old)
        (W.contents writer.new) result }
    ensures unwritten { IfErr result (λ fault. LeavesAll (W.contents writer.old) (W.contents writer.new) fault) }
    // Also if the write fails.
    ensures world { UnlessMemory result (world.new ≡ (line_step world.old n action.now).1) }
    ensures sound { IsSound world.old → IsSound world.new }
{
    room.clear();
    if show(world, room, n, action).is_err() {
        return Err(ScriptFault::Memory);
    }
    let written = write_octets(writer, room.as_slice());
    write_fault(written)
}

/// Carries out one line, and writes its result.
fn show<W: Write>(
    world: &mut World,
    writer: &mut W,
    n: u32,
    action: &Action,
) -> Result<(), ScriptFault>
    ensures text { Prints (line_step world.old n action.now).0 (W.contents writer.old) (W.contents writer.new) result }
    ensures world { OnOk result (world.new ≡ (line_step world.old n action.now).1) }
    ensures sound { IsSound world.old → IsSound world.new }
{
    match action {
        Action::Event(event) => print_event(world, writer, n, event),
        Action::Counters(end) => print_counters(writer, Label::Line(n), world.end(*end)),
        Action::Numbers(end) => print_numbers(writer, n, world.end(*end)),
    }
}

/// Carries out an event, and prints its outcome.
fn print_event<W: Write>(
    world: &mut World,
    writer: &mut W,
    n: u32,
    event: &Event,
) -> Result<(), ScriptFault>
    ensures text { Prints (line_step world.old n (action.Event event.now)).0 (W.contents writer.old)
        (W.contents writer.new) result }
    ensures world { OnOk result (world.new ≡ (line_step world.old n (action.Event event.now)).1) }
    ensures sound { IsSound world.new }
{
    let outcome = world.step(event);
    if let Err(WorldFault::Memory) = outcome {
        return Err(ScriptFault::Memory);
    }
    let frame = frame_made(world, &outcome);
    print_outcome(writer, n, frame, &outcome)
}

/// The link frame that an event created, if it created one.
fn frame_made<'a>(world: &'a World, outcome: &Result<Outcome, WorldFault>) -> Option<&'a [u8]>
    ensures { option_copied result ≡ frame_made world.now outcome.now }
{
    match outcome {
        Ok(Outcome::Made(n)) => world.frame(*n),
        _ => None,
    }
}
