// The table engine for programs in C: a thin export over the proved library. include/lungevati.h declares it.
#![tactic(auto)]

ghost use Rattle.rules.specs.declared.BaseChoice.TheVariants.{StateWindow, NoBase};
ghost use Rattle.rules.specs.Records.{CheckedFrom};
ghost use Rattle.walk.specs.Lent.{lent_capture};

use rules::{Answer, BaseChoice};

// Checks a capture by the table engine: `walk::check`, with its promise.
#[unsafe(no_mangle)]
pub extern "C" fn lungevati_check_table<'a>(
    batch: &'a [u32],
    batch_at: u64,
    state: &'a [u32],
    state_at: u64,
    scratch_at: u64,
    scratch_len: u32,
    records: &mut [u32],
) -> Answer
    ensures { CheckedFrom StateWindow (lent_capture batch.now batch_at state.now state_at scratch_at scratch_len) records.old result records.new }
{
    walk::check(
        batch,
        batch_at,
        state,
        state_at,
        scratch_at,
        scratch_len,
        records,
    )
}

// The same with no base at the start: `walk::check_from`, with its promise.
#[unsafe(no_mangle)]
pub extern "C" fn lungevati_check_table_no_base<'a>(
    batch: &'a [u32],
    batch_at: u64,
    state: &'a [u32],
    state_at: u64,
    scratch_at: u64,
    scratch_len: u32,
    records: &mut [u32],
) -> Answer
    ensures { CheckedFrom NoBase (lent_capture batch.now batch_at state.now state_at scratch_at scratch_len) records.old result records.new }
{
    walk::check_from(
        BaseChoice::NoBase,
        batch,
        batch_at,
        state,
        state_at,
        scratch_at,
        scratch_len,
        records,
    )
}
