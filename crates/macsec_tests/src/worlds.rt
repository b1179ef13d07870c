//! Two ends over a link. Shared by the tests: worlds that carried out the events of a script.

mod logs;

use macsec_link::{EndConfig, Sci, Suite, TagForm, World};
use macsec_script_parser::{Action, parse_script};
use std::alloc::Global;
use std::process::Abort;
use std::test::Fail;

/// End A, with the SCI 12153524c0895e81.
const A: EndConfig = EndConfig {
    suite: Suite::Gcm128,
    sci: Sci([0x12, 0x15, 0x35, 0x24, 0xc0, 0x89, 0x5e, 0x81]),
    max_frame: 1518,
    form: TagForm::Sci,
};

/// End B.
const B: EndConfig = EndConfig {
    sci: Sci([0, 0, 0, 0, 0, 0, 0, 2]),
    form: TagForm::Auto,
    ..A
};

/// Carries out the events of these lines. Returns whether none of them has a fault.
fn carry_out(world: &mut World, lines: &[(u32, Action)]) -> bool {
    let mut is_done = true;
    for (_, action) in lines {
        if let Action::Event(event) = action {
            is_done = is_done && world.step(event).is_ok();
        }
    }
    is_done
}

/// The world of A and B after the events of a script, which have no fault.
pub fn world_after(rt: &impl Abort, alloc: Global, script: &str) -> Result<World, Fail> {
    let script = parse_script(alloc, script.as_bytes())?;
    let mut world = World::new(alloc, true, A, B)?;
    if let Some(script) = script {
        assert!(rt; carry_out(&mut world, script.lines.as_slice()));
    }
    Ok(world)
}
