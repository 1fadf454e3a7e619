// One step of the walk: the checks 6 to 17 of the command at the cursor, and where it leads.
#![tactic(auto)]

ghost use Rattle.std.specs.Prelude.{◌≡◌, length};
ghost use Rattle.rules.specs.Step.{step_of};
ghost use Rattle.step.specs.Parts.{captured, Fitted, SmallBase};

use faults::{pointer_of, structure_fault};
use looks::Engine;
use onward::{level_number, move_of};
use rules::{Command, Cursor, Fault, Reason, Windows};

mod faults;

// One step of the walk: the first fault of the command at the cursor (6 to 17), or the command and where it leads.
pub fn step<'a, E: Engine>(
    batch: &'a [u32],
    state: &'a [u32],
    w: Windows,
    s: Cursor,
) -> Result<(Command, Option<Cursor>), Fault>
    requires { (Fitted w batch.now state.now) × (SmallBase s.base) }
    ensures { result ≡ step_of (captured w batch.now state.now) s }
{
    let at = s.at;
    let level = s.level;
    let base = s.base;
    if batch.len() <= at {
        return Err(Fault::in_batch(Reason::RanOff, at));
    }
    // `?` in the place of the two tests costs four instructions in every command of the plain engine.
    match E::looked(batch, w, at, level) {
        Err(f) => Err(f),
        Ok((row, length)) => {
            let next = at + length;
            let command = &batch[at..next];
            let pointer = pointer_of(row, command);
            if let Err(f) = structure_fault(batch, state, w, pointer, base, at + 1) {
                return Err(f);
            }
            let after = move_of(w.batch.at, s, row, command, next);
            let taken = Command {
                index: at,
                level: level_number(level),
                row,
                length,
            };
            Ok((taken, after))
        }
    }
}
