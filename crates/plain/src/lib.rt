// The plain engine's public calls: each command by a straight decision on its header and its rules written out (plain_mi, plain_vertex, plain_3d, plain_look).
#![tactic(auto)]

ghost use Rattle.rules.specs.declared.BaseChoice.TheVariants.{StateWindow};
ghost use Rattle.rules.specs.Records.{CheckedFrom};
ghost use Rattle.walk.specs.Lent.{lent_capture};

use plain_look::Plain;
use rules::{Answer, BaseChoice};

// THE PUBLIC CALL of the plain engine, from the base that is chosen, with the table engine's promise: whether the capture runs to its end, and the
// records of its commands.
pub fn check_from<'a>(
    choice: BaseChoice,
    batch: &'a [u32],
    batch_at: u64,
    state: &'a [u32],
    state_at: u64,
    scratch_at: u64,
    scratch_len: u32,
    records: &mut [u32],
) -> Answer
    ensures { CheckedFrom choice (lent_capture batch.now batch_at state.now state_at scratch_at scratch_len) records.old result records.new }
{
    walk::check_by::<Plain>(
        choice,
        batch,
        batch_at,
        state,
        state_at,
        scratch_at,
        scratch_len,
        records,
    )
}

// THE PUBLIC CALL of the plain engine by the default: the same from the state window's address.
pub fn check<'a>(
    batch: &'a [u32],
    batch_at: u64,
    state: &'a [u32],
    state_at: u64,
    scratch_at: u64,
    scratch_len: u32,
    records: &mut [u32],
) -> Answer
    ensures { CheckedFrom StateWindow (lent_capture batch.now batch_at state.now state_at scratch_at scratch_len) records.old result records.new }
{
    check_from(
        BaseChoice::StateWindow,
        batch,
        batch_at,
        state,
        state_at,
        scratch_at,
        scratch_len,
        records,
    )
}
