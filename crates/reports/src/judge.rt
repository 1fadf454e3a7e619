// Who judges the captures of a run, one after the other.
ghost use Rattle.std.specs.Prelude.{◌≡◌};
ghost use Rattle.rules.specs.File.{JudgedFrom};

use rules::{Answer, BaseChoice};

// The most dwords that a capture's batch or state has.
pub const WINDOW_DWORDS: usize = 4096;

// Two record words for each command of the longest batch.
pub const RECORD_WORDS: usize = 2 * WINDOW_DWORDS;

// The base that captures are judged by, and the buffers that each is judged in. They are made once, whatever the number of files: to make them
// anew for each would take longer than the check. So they hold what the file before has left there, and of that nothing is read.
#[derive(Drop)]
pub struct Judge {
    pub choice: BaseChoice,
    pub batch: [u32; WINDOW_DWORDS],
    pub state: [u32; WINDOW_DWORDS],
    pub records: [u32; RECORD_WORDS],
}

impl Judge {
    pub fn new(choice: BaseChoice) -> Judge
        ensures { result.choice ≡ choice }
    {
        Judge {
            choice,
            batch: [0; WINDOW_DWORDS],
            state: [0; WINDOW_DWORDS],
            records: [0; RECORD_WORDS],
        }
    }

    // The whole answer for a file.
    pub fn judge(&mut self, file: &[u8]) -> Answer
        ensures answer { JudgedFrom self.old.choice file.now self.old.batch self.old.state self.old.records result self.new.batch self.new.state self.new.records }
        ensures same_choice { self.new.choice ≡ self.old.choice }
    {
        capture::judge(
            self.choice,
            file,
            &mut self.batch,
            &mut self.state,
            &mut self.records,
        )
    }
}
