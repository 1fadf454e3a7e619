// Does the capture run to its end, and what did it do on the way? The public call `check` of the table engine, and the call behind both engines: 1 to 4, then
// the run.
#![tactic(auto)]

ghost use Rattle.std.specs.Prelude.{◌≡◌};
ghost use Rattle.rules.specs.declared.BaseChoice.TheVariants.{StateWindow};
ghost use Rattle.rules.specs.Windows.{windows_of};
ghost use Rattle.rules.specs.Walk.{starting_base};
ghost use Rattle.rules.specs.Records.{CheckedFrom};
ghost use Rattle.walk.specs.Lent.{lent_capture};

use looks::Engine;
use records::answers::refusal;
use rules::{Answer, BaseChoice, Window, Windows};
use table_look::Table;
use turns::run;

// The windows of a capture, as numbers.
fn windows_of(
    batch: &[u32],
    batch_at: u64,
    state: &[u32],
    state_at: u64,
    scratch_at: u64,
    scratch_len: u32,
) -> Windows
    ensures { result ≡ windows_of (lent_capture batch.now batch_at state.now state_at scratch_at scratch_len) }
{
    Windows {
        batch: windows::lent(batch_at, batch),
        state: windows::lent(state_at, state),
        scratch: Window {
            at: scratch_at,
            bytes: scratch_len as u64,
        },
    }
}

// The base that a run starts with: the state window's address, whether the window is empty or not, or none.
fn starting_base(choice: BaseChoice, state_at: u64) -> Option<u64>
    ensures { result ≡ starting_base choice state_at }
{
    match choice {
        BaseChoice::StateWindow => Some(state_at),
        BaseChoice::NoBase => None,
    }
}

// Whether the capture runs to its end by an engine, from the base that is chosen, and the records of its commands. It is for the engines' own calls.
pub fn check_by<'a, E: Engine>(
    choice: BaseChoice,
    batch: &'a [u32],
    batch_at: u64,
    state: &'a [u32],
    state_at: u64,
    scratch_at: u64,
    scratch_len: u32,
    records: &mut [u32],
) -> Answer
    ensures { CheckedFrom choice (lent_capture batch.now batch_at state.now state_at scratch_at scratch_len) records.old result records.new }
{
    let w = windows_of(batch, batch_at, state, state_at, scratch_at, scratch_len);
    if let Err(f) = windows::sound(batch.len(), state.len(), w) {
        return refusal(f, 0);
    }
    let base = starting_base(choice, state_at);
    run::<E>(batch, state, w, base, records)
}

// THE PUBLIC CALL of the table engine, from the base that is chosen: whether the capture runs to its end, and the records of its commands.
pub fn check_from<'a>(
    choice: BaseChoice,
    batch: &'a [u32],
    batch_at: u64,
    state: &'a [u32],
    state_at: u64,
    scratch_at: u64,
    scratch_len: u32,
    records: &mut [u32],
) -> Answer
    ensures { CheckedFrom choice (lent_capture batch.now batch_at state.now state_at scratch_at scratch_len) records.old result records.new }
{
    check_by::<Table>(
        choice,
        batch,
        batch_at,
        state,
        state_at,
        scratch_at,
        scratch_len,
        records,
    )
}

// THE PUBLIC CALL of the table engine by the default: the same from the state window's address.
pub fn check<'a>(
    batch: &'a [u32],
    batch_at: u64,
    state: &'a [u32],
    state_at: u64,
    scratch_at: u64,
    scratch_len: u32,
    records: &mut [u32],
) -> Answer
    ensures { CheckedFrom StateWindow (lent_capture batch.now batch_at state.now state_at scratch_at scratch_len) records.old result records.new }
{
    check_from(
        BaseChoice::StateWindow,
        batch,
        batch_at,
        state,
        state_at,
        scratch_at,
        scratch_len,
        records,
    )
}
