//! Laws of the definitions of scripts. Each is the contract of a function with an empty body.

ghost use Rattle.std.specs.Prelude.{ℕ, List};
ghost use Rattle.macsec_link.specs.World.{WorldState};
ghost use Rattle.macsec_script_parser.specs.declared.lines.Action.{Action};
ghost use Rattle.macsec_script_parser.specs.Parts.{NumberedLine};
ghost use Rattle.macsec_script.specs.OneEnd.{NeedsOneEnd};
ghost use Rattle.macsec_script.specs.Promised.{IsTextOfWorlds};

/// Each line of a script is printed from the world after the events of the lines before it. So the text shows the
/// worlds of one list of events. `run_script` ensures the promises over that list.
pub fn prints_of_worlds()
    ensures { (w : WorldState) (before : List NumberedLine) (line : NumberedLine) (more : List NumberedLine) → IsTextOfWorlds w before line more }
{}

/// What a line about end A alone prints follows from the endpoint of A, whatever else there is in the world: a management
/// command at A, or a line that shows its counters or its packet numbers. End B and the link stay as they are.
pub fn prints_of_end_a()
    ensures { (w : WorldState) (n : ℕ) (said : Action) → NeedsOneEnd w n said }
{}
