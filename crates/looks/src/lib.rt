// What the checks 7 to 13 leave of the command at a position (specs/Looks), and what an engine is: the step asks one, and goes on from its answer.
#![tactic(auto)]

ghost use Rattle.std.specs.Prelude.{◌≡◌, ◌<◌, length};
ghost use Rattle.looks.specs.Looks.{look_of};

use rules::{Fault, Level, Windows};

// An engine makes the checks 7 to 13 of the command at a position: its row and its length, or its first fault.
pub trait Engine {
    fn looked(batch: &[u32], w: Windows, at: usize, level: Level) -> Result<(usize, usize), Fault>
        requires { at < length batch.now }
        ensures { result ≡ look_of w batch.now at level };
}
