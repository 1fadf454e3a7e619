// The capture file: batch dwords, state dwords, then a trailer of 40 bytes. Read, and judged.
#![tactic(auto)]

ghost use Rattle.rules.specs.File.{FileRead, JudgedFrom};

use opening::{Trailer, examine, fill};
use records::answers::refusal;
use rules::{Answer, BaseChoice, Contents, Fault, Reason};

// Reads a capture file into two lent buffers. A file that is refused leaves both as they were.
pub fn read(file: &[u8], batch: &mut [u32], state: &mut [u32]) -> Result<Contents, Reason>
    ensures { FileRead file.now batch.old state.old result batch.new state.new }
{
    let contents = examine(file, batch.len(), state.len())?;
    let first = contents.batch.count;
    let second = contents.state.count;
    fill(file, 0, first, batch);
    fill(file, 4 * first, second, state);
    Ok(contents)
}

// The whole answer for a file, from the base that is chosen: it is read into two lent buffers, and exactly the words that it fills are checked.
pub fn judge(
    choice: BaseChoice,
    file: &[u8],
    batch: &mut [u32],
    state: &mut [u32],
    records: &mut [u32],
) -> Answer
    ensures { JudgedFrom choice file.now batch.old state.old records.old result batch.new state.new records.new }
{
    match read(file, batch, state) {
        // its place is 0,0, and no command was checked
        Err(reason) => refusal(Fault::in_batch(reason, 0), 0),
        Ok(contents) => {
            let first = contents.batch.count;
            let second = contents.state.count;
            let scratch = Trailer::of(file).scratch_bytes;
            walk::check_from(
                choice,
                &batch[..first],
                contents.batch.at,
                &state[..second],
                contents.state.at,
                contents.scratch.at,
                scratch,
                records,
            )
        }
    }
}
