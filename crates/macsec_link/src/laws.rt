//! Laws of the written world, for every list of events; each is the contract of a function that does nothing. A caller
//! that takes steps with `World::step` has them for the events whose results are not `Memory`.

ghost use Rattle.std.specs.Prelude.{◌++◌, ◌∷◌, List, []};
ghost use Rattle.macsec_commands.specs.declared.config.EndConfig.{EndConfig};
ghost use Rattle.macsec_commands.specs.declared.event.Event.{Event};
ghost use Rattle.macsec_link.specs.World.{WorldState};
ghost use Rattle.macsec_link.specs.Step.{world_after, world_step};
ghost use Rattle.macsec_link.specs.Sound.{IsSound};
ghost use Rattle.macsec_link.specs.Beginnings.{AreSound, StaysSound};
ghost use Rattle.macsec_link.specs.Promises.{KeepsPromises};

use macsec_secy::laws::{accepts_sent, delivers_in_time, keys_stay, protects_frames, rx_rows_stay};
use macsec_suite::laws::equal_ivs;
use macsec_tag::laws::reads_by_grammar;

/// The four promises, and what a first forged tag needs, for every list of events for which the world is sound at each
/// moment. `World::run` states each one.
pub fn promises()
    ensures { (a b : EndConfig) (events : List Event) → AreSound a b events → KeepsPromises a b events }
{
    // The proof cites these laws.
    reads_by_grammar();
    equal_ivs();
    keys_stay();
    rx_rows_stay();
    protects_frames();
    delivers_in_time();
    accepts_sent();
}

/// The world stays sound over a list of events if each step leaves it sound, as `World::step` does.
pub fn worlds_are_sound()
    ensures start { (w : WorldState) → IsSound w → StaysSound w [] }
    ensures step { (w : WorldState) (events : List Event) (event : Event) → StaysSound w events →
        IsSound (world_step (world_after w events) event).1 → StaysSound w (events ++ event ∷ []) }
{}
