// Both engines give the same answers: the theorem about their calls, as a function that asks both.
#![tactic(auto)]

ghost use Rattle.agreement.specs.Engines.{SameAnswers};

use rules::{Answer, BaseChoice};

// What the two engines answered.
#[derive(Drop)]
pub struct Answers {
    pub table: Answer,
    pub plainly: Answer,
}

// THE SAME ANSWERS: whoever asks both engines about a capture, from the same starting base and with two record buffers of the same words, gets the same answer from both, and finds
// the same words in both buffers. It is a function so that the theorem is about the two calls themselves, and not about what they promise.
pub fn asked_both<'a>(
    choice: BaseChoice,
    batch: &'a [u32],
    batch_at: u64,
    state: &'a [u32],
    state_at: u64,
    scratch_at: u64,
    scratch_len: u32,
    records: &mut [u32],
    twin: &mut [u32],
) -> Answers
    ensures { SameAnswers records.old twin.old result records.new twin.new }
{
    let table = walk::check_from(
        choice,
        batch,
        batch_at,
        state,
        state_at,
        scratch_at,
        scratch_len,
        records,
    );
    let plainly = plain::check_from(
        choice,
        batch,
        batch_at,
        state,
        state_at,
        scratch_at,
        scratch_len,
        twin,
    );
    Answers { table, plainly }
}
