// The words that the lines set: four windows of them in one array.
ghost use Rattle.std.specs.Prelude.{◌≤◌};

// Room in each window: more dwords than are accepted, and than a line has.
pub(crate) const ROOM: u32 = 0x1_0100;

// The place behind all windows, and so how many words there are.
pub(crate) const END: u32 = 4 * ROOM;

const WORDS: usize = END as usize;

// Where the windows begin, behind the batch: the state, the numbers of the capture, and those of the line that asks.
pub(crate) const STATE: u32 = ROOM;

pub(crate) const NUMBERS: u32 = 2 * ROOM;

pub(crate) const ARGUMENTS: u32 = 3 * ROOM;

// Where the numbers of the capture stand. Each address is two dwords, the lower one first.
const BATCH_AT: u32 = NUMBERS;

const STATE_AT: u32 = NUMBERS + 2;

const SCRATCH_AT: u32 = NUMBERS + 4;

const SCRATCH_BYTES: u32 = NUMBERS + 6;

pub(crate) const RECORD_WORDS: u32 = NUMBERS + 7;

// How many numbers stand in each window, from the batch on.
pub(crate) const BATCH_DWORDS: u32 = NUMBERS + 8;

const STATE_DWORDS: u32 = NUMBERS + 9;

pub(crate) const QUESTION_NUMBERS: u32 = NUMBERS + 11;

// The words of the windows, one behind the other.
#[derive(Clone, Copy)]
pub(crate) struct Words {
    all: [u32; WORDS],
}

// The addresses of the capture's windows, and the bytes of scratch.
#[derive(Clone, Copy)]
pub(crate) struct Places {
    pub(crate) batch: u64,
    pub(crate) state: u64,
    pub(crate) scratch: u64,
    pub(crate) bytes: u32,
}

impl Words {
    pub(crate) fn new() -> Words {
        Words { all: [0; WORDS] }
    }

    // The word at a place. There is 0 where no word stands.
    pub(crate) fn get(&self, place: u32) -> u32 {
        self.all.get(place as usize).copied().unwrap_or(0)
    }

    pub(crate) fn set(&mut self, place: u32, x: u32) {
        if let Some(word) = self.all.get_mut(place as usize) {
            *word = x;
        }
    }

    // The number at a place, or the limit where it is above that.
    pub(crate) fn at_most(&self, limit: usize, place: u32) -> usize
        ensures { result ≤ limit }
    {
        limit.min(self.get(place) as usize)
    }

    // The address whose lower dword stands at an even place.
    fn address(&self, place: u32) -> u64 {
        let low = self.get(place) as u64;
        let high = self.get(place | 1) as u64;
        (high << 32) | low
    }

    pub(crate) fn places(&self) -> Places {
        Places {
            batch: self.address(BATCH_AT),
            state: self.address(STATE_AT),
            scratch: self.address(SCRATCH_AT),
            bytes: self.get(SCRATCH_BYTES),
        }
    }

    // No more dwords are lent than the capture has.
    pub(crate) fn batch(&self) -> &[u32] {
        &self.all[..self.at_most(ROOM as usize, BATCH_DWORDS)]
    }

    pub(crate) fn state(&self) -> &[u32] {
        let start = STATE as usize;
        &self.all[start..start + self.at_most(ROOM as usize, STATE_DWORDS)]
    }
}
