// The loop behind both engines: a capture whose windows are sound, run command by command, each with its record.
#![tactic(auto)]

ghost use Rattle.std.specs.Prelude.{◌≡◌, ◌^◌, ◌≤◌, ◌<◌, length, Err};
ghost use Rattle.rules.specs.Refusals.{answer_with};
ghost use Rattle.rules.specs.Windows.{window_limit};
ghost use Rattle.rules.specs.Step.{budget, spent_at, full_at};
ghost use Rattle.rules.specs.Walk.{start};
ghost use Rattle.rules.specs.Records.{room_of};
ghost use Rattle.step.specs.Parts.{captured, Fitted, SmallBase};
ghost use Rattle.turns.specs.Running.{stop_for, Ran};

use looks::Engine;
use records::answers::{acceptance, refusal};
use records::write_record;
use rules::{Answer, Cursor, Fault, Level, Reason, Windows};
use step::step;
use turn::turn_at;

mod turn;

// How many commands a run may have.
const BUDGET: usize = 65536;

// The run of a capture whose windows are sound, from its first dword on.
pub fn run<'a, E: Engine>(
    batch: &'a [u32],
    state: &'a [u32],
    w: Windows,
    base: Option<u64>,
    records: &mut [u32],
) -> Answer
    requires { (Fitted w batch.now state.now) × (length batch.now ≤ window_limit) × (length state.now ≤ window_limit) × (SmallBase base) }
    ensures { Ran base (captured w batch.now state.now) records.old result records.new }
{
    let room = room_in(records.len());
    let mut n: usize = 0;
    let mut turn = turn_at(started(base));
    loop {
        let s = turn.cursor;
        match step::<E>(batch, state, w, s) {
            Err(f) => return stopped(f, s.at, n),
            Ok((command, after)) => {
                // With one test of the room in front of this match a no-op takes four instructions more by the plain engine, 33 for 29.
                match after {
                    None => {
                        if n == room {
                            return stopped(full(s.at), s.at, n);
                        }
                        write_record(&mut records[2 * n..], turn.level, command);
                        return acceptance(n + 1);
                    }
                    Some(t) => {
                        if n == room {
                            return stopped(full(s.at), s.at, n);
                        }
                        write_record(&mut records[2 * n..], turn.level, command);
                        n += 1;
                        turn = turn_at(t);
                    }
                }
            }
        }
    }
}

// Where a run starts.
fn started(base: Option<u64>) -> Cursor
    ensures { result ≡ start base }
{
    Cursor {
        at: 0,
        level: Level::First,
        base,
    }
}

// How many commands can be recorded: as many as there is room for, of two words each, and no more than the budget. So the walk tests one number
// for both.
fn room_in(len: usize) -> usize
    ensures { (result ≤ room_of len) × (result ≤ budget) × (result < budget → result ≡ room_of len) }
{
    if len / 2 < BUDGET { len / 2 } else { BUDGET }
}

// The answer where the command at the position is not taken, for this fault: behind the last command of the budget it is the budget's.
fn stopped(f: Fault, at: usize, n: usize) -> Answer
    requires { (f.window < 2 ^ 32) × (f.index < 2 ^ 32) × (at < 2 ^ 32) × (n < 2 ^ 32) }
    ensures { result ≡ answer_with (Err (stop_for f at n)) n }
{
    if n == BUDGET {
        return refusal(spent(at), n);
    }
    refusal(f, n)
}

// There is no room for the record of the command at the position.
fn full(at: usize) -> Fault
    ensures { result ≡ full_at at }
{
    Fault::in_batch(Reason::RecordsFull, at)
}

// The budget is spent, and the run has come to the position.
fn spent(at: usize) -> Fault
    ensures { result ≡ spent_at at }
{
    Fault::in_batch(Reason::BudgetSpent, at)
}
