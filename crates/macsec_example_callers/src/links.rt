//! Runs two endpoints and the link between them, by events or by a script.

ghost use Rattle.std.specs.Prelude.{OnOk};
ghost use Rattle.macsec_script.specs.Promised.{IsPromised};

use macsec_link::{EndConfig, Event, World, WorldFault};
use macsec_script::{ScriptFault, run_script, run_text};
use std::alloc::Global;
use std::io::Read;

/// Two endpoints and their link after these events, in order. Fails with the fault of a configuration, or with the first
/// event that did not happen.
pub fn world_after(
    alloc: Global,
    a: EndConfig,
    b: EndConfig,
    events: &[Event],
) -> Result<World, WorldFault> {
    let mut world = World::new(alloc, false, a, b)?;
    for event in events {
        world.step(event)?;
    }
    Ok(world)
}

/// What a script prints. The four promises hold of the run of its two ends.
pub fn text_of_script(alloc: Global, script: &[u8]) -> Result<Vec<u8>, ScriptFault>
    ensures promised { OnOk result (IsPromised script.now) }
{
    let mut text = Vec::new(alloc);
    run_text(alloc, false, &mut text, script)?;
    Ok(text)
}

/// What the script that a reader has prints.
pub fn text_of_reader<R: Read>(alloc: Global, reader: &mut R) -> Result<Vec<u8>, ScriptFault> {
    let mut text = Vec::new(alloc);
    run_script(alloc, false, reader, &mut text)?;
    Ok(text)
}
