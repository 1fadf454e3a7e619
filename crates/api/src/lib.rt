// The calls for programs in C: thin exports over the proved library. include/lungevati.h declares them.
#![tactic(auto)]

ghost use Rattle.std.specs.Prelude.{◌≡◌};
ghost use Rattle.rules.specs.declared.BaseChoice.TheVariants.{StateWindow, NoBase};
ghost use Rattle.rules.specs.Records.{CheckedFrom};
ghost use Rattle.rules.specs.Writer.{Written};
ghost use Rattle.rules.specs.Listings.{Turned};
ghost use Rattle.walk.specs.Lent.{lent_capture};
ghost use Rattle.api.specs.Read.{Small, flat_of, ReadOut};

use rules::{Answer, BaseChoice, Contents, LongAnswer, Reason};

// Checks a capture by the plain engine: `plain::check`, with its promise.
#[unsafe(no_mangle)]
pub extern "C" fn lungevati_check<'a>(
    batch: &'a [u32],
    batch_at: u64,
    state: &'a [u32],
    state_at: u64,
    scratch_at: u64,
    scratch_len: u32,
    records: &mut [u32],
) -> Answer
    ensures { CheckedFrom StateWindow (lent_capture batch.now batch_at state.now state_at scratch_at scratch_len) records.old result records.new }
{
    plain::check(
        batch,
        batch_at,
        state,
        state_at,
        scratch_at,
        scratch_len,
        records,
    )
}

// The same with no base at the start: `plain::check_from`, with its promise.
#[unsafe(no_mangle)]
pub extern "C" fn lungevati_check_no_base<'a>(
    batch: &'a [u32],
    batch_at: u64,
    state: &'a [u32],
    state_at: u64,
    scratch_at: u64,
    scratch_len: u32,
    records: &mut [u32],
) -> Answer
    ensures { CheckedFrom NoBase (lent_capture batch.now batch_at state.now state_at scratch_at scratch_len) records.old result records.new }
{
    plain::check_from(
        BaseChoice::NoBase,
        batch,
        batch_at,
        state,
        state_at,
        scratch_at,
        scratch_len,
        records,
    )
}

// What reading a capture file gives: a refusal's number with all else 0, or what the trailer says.
#[repr(C)]
#[derive(Drop)]
pub struct FileContents {
    pub reason: u32,
    pub window: u32,
    pub index: u32,
    pub count: u32,
    pub batch_count: u32,
    pub state_count: u32,
    pub scratch_len: u32,
    pub batch_at: u64,
    pub state_at: u64,
    pub scratch_at: u64,
}

// The answer of `capture::read` as numbers.
#[tactic(auto, unfolding(crate::specs::Read::flat_of, rules::specs::File::opened_verdict, rules::specs::File::numbers_of, rules::specs::Refusals::told, rules::specs::Refusals::answer_with))]
fn flat(opened: Result<Contents, Reason>) -> FileContents
    requires { Small opened }
    ensures { result ≡ flat_of opened }
{
    match opened {
        Err(reason) => FileContents {
            reason: reason.into(),
            window: 0,
            index: 0,
            count: 0,
            batch_count: 0,
            state_count: 0,
            scratch_len: 0,
            batch_at: 0,
            state_at: 0,
            scratch_at: 0,
        },
        Ok(contents) => FileContents {
            reason: 0,
            window: 0,
            index: 0,
            count: 0,
            batch_count: contents.batch.count as u32,
            state_count: contents.state.count as u32,
            scratch_len: contents.scratch.bytes as u32,
            batch_at: contents.batch.at,
            state_at: contents.state.at,
            scratch_at: contents.scratch.at,
        },
    }
}

// Reads a capture file into two lent buffers: `capture::read`, with its promise.
#[unsafe(no_mangle)]
pub extern "C" fn lungevati_read(file: &[u8], batch: &mut [u32], state: &mut [u32]) -> FileContents
    ensures { ReadOut file.now batch.old state.old result batch.new state.new }
{
    flat(capture::read(file, batch, state))
}

// Writes a command into a lent buffer: `writer::write`, with its promise.
#[unsafe(no_mangle)]
pub extern "C" fn lungevati_write(
    row: u32,
    free_bits: u32,
    dwords: &[u32],
    batch: &mut [u32],
    first: usize,
) -> Answer
    ensures { Written row free_bits dwords.now first batch.old result batch.new }
{
    writer::write(row, free_bits, dwords, batch, first)
}

// Turns an old listing into the new form: `listing::turn`, with its promise.
#[unsafe(no_mangle)]
pub extern "C" fn lungevati_turn(old: &[u32], new: &mut [u32]) -> LongAnswer
    ensures { Turned old.now new.old result new.new }
{
    listing::turn(old, new)
}
