// The one place that asks the checker about the capture that the words make.
ghost use Rattle.std.specs.Prelude.{◌≤◌, length};

use crate::buffers::{RECORD_WORDS, Words};
use crate::sayings;
use rules::{Answer, BaseChoice};
use std::io;
use std::io::Write;

// Words enough for the records of a run of 65,536 commands, and some behind them.
const LENT: usize = 0x2_0100;

// A record word that nobody has written: no record is like it.
const UNWRITTEN: u32 = 0xEEEE_EEEE;

// What both engines write their records into. It is made once: to make it anew for each question would take longer than the check.
#[derive(Drop)]
pub(crate) struct Engines {
    table: [u32; LENT],
    plain: [u32; LENT],
}

// The table engine's answer, with its records in words that nobody has written before.
fn by_table(words: &Words, records: &mut [u32]) -> Answer {
    records.fill(UNWRITTEN);
    let at = words.places();
    walk::check_from(
        BaseChoice::NoBase,
        words.batch(),
        at.batch,
        words.state(),
        at.state,
        at.scratch,
        at.bytes,
        records,
    )
}

// The plain engine's. It stands beside the other, since a closure for the engine would take a bound as long as the call.
fn by_rules(words: &Words, records: &mut [u32]) -> Answer {
    records.fill(UNWRITTEN);
    let at = words.places();
    plain::check_from(
        BaseChoice::NoBase,
        words.batch(),
        at.batch,
        words.state(),
        at.state,
        at.scratch,
        at.bytes,
        records,
    )
}

impl Engines {
    pub(crate) fn new() -> Engines {
        Engines {
            table: [0; LENT],
            plain: [0; LENT],
        }
    }

    // Asks both engines. Where they do not answer alike, both answers are printed; aloud, the answer is, and every record word lent.
    pub(crate) fn ask<W: Write>(
        &mut self,
        out: &mut W,
        words: &Words,
        aloud: bool,
    ) -> io::Result<Answer> {
        let lent = words.at_most(LENT, RECORD_WORDS);
        let answer = by_table(words, &mut self.table[..lent]);
        let plainly = by_rules(words, &mut self.plain[..lent]);
        let table = &self.table[..lent];
        if answer != plainly || table != &self.plain[..lent] {
            sayings::unlike(out, answer, plainly)?;
        }
        if aloud {
            sayings::answer(out, answer)?;
            sayings::words(out, table, words.get(RECORD_WORDS))?;
        }
        Ok(answer)
    }
}
