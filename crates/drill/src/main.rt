// Runs document 01's table rows, cases and traps: obeys the lines of its standard input, and prints under each what the checker answered.
//
// The lines are data, so a case is added without a proof. What they mean is said at their head (crates/drill/stdin). What this program
// must print is derived from document 01 by tests/drill, which obeys the same lines with a checker of its own. The reader of capture files
// has lines of its own, which a program in C obeys (tests/reader).
#![tactic(auto)]

mod asking;
mod buffers;
mod obey;
mod reading;
mod sayings;
mod scans;

use crate::asking::Engines;
use crate::buffers::Words;
use crate::obey::Drill;
use std::io;
use std::io::Read;

// More bytes than all the lines have. The program ends there, whatever comes in.
const INPUT_BYTES: usize = 0x2_0000;

// Obeys each line of the input in turn. What a line sets stays for those behind it.
fn main(rt: HostRuntime) -> io::Result<()> {
    let mut drill = Drill {
        words: Words::new(),
        engines: Engines::new(),
        line: None,
    };
    let mut byte = [0u8; 1];
    let mut out = rt.stdout();
    for _ in 0..INPUT_BYTES {
        if rt.stdin().read(&mut byte)? == 0 {
            break;
        }
        drill.take(&mut out, byte[0])?;
    }
    Ok(())
}
