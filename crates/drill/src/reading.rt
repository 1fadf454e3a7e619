// Reading a line: its first letter, its hexadecimal numbers, and `[..]n` for what stands n times.
use crate::buffers::{ARGUMENTS, END, NUMBERS, RECORD_WORDS, STATE, Words};

// What has been read of a line: its first byte, where its next number goes, where the last bracket opened, the number that is being read, whether it
// has a digit yet, and whether it says how often the group stands.
#[derive(Clone, Copy)]
pub(crate) struct Line {
    pub(crate) letter: u8,
    pub(crate) next: u32,
    group: u32,
    value: u32,
    open: bool,
    times: bool,
}

// Where the first of a line's numbers goes.
pub(crate) fn place_of(letter: u8) -> u32 {
    match letter {
        b'b' => 0,
        b's' => STATE,
        b'w' => NUMBERS,
        b'r' => RECORD_WORDS,
        _ => ARGUMENTS,
    }
}

// The value of a digit of document 01's hexadecimal numbers: a small letter is none, so that the words of a line are no numbers.
fn digit(byte: u8) -> Option<u32> {
    match byte {
        b'0'..=b'9' => Some((byte - b'0') as u32),
        b'A'..=b'F' => Some((byte - b'A') as u32 + 10),
        _ => None,
    }
}

// Goes on with a group until it stands so many times in all, and answers the place behind it.
fn repeat(group: u32, next: u32, times: u32, words: &mut Words) -> u32 {
    let size = next.wrapping_sub(group);
    if size == 0 {
        return next;
    }
    for to in next..END {
        if to.wrapping_sub(group) / size >= times {
            return to;
        }
        words.set(to, words.get(to.wrapping_sub(size)));
    }
    next.max(END)
}

impl Line {
    // A line of which the first byte is read.
    pub(crate) fn begun(letter: u8) -> Line {
        Line {
            letter,
            next: place_of(letter),
            group: 0,
            value: 0,
            open: false,
            times: false,
        }
    }

    // What becomes of a number that has come to its end, if there is one.
    fn put_number(&mut self, words: &mut Words) {
        if !self.open {
            return;
        }
        if self.times {
            self.next = repeat(self.group, self.next, self.value, words);
        } else {
            words.set(self.next, self.value);
            self.next = self.next.wrapping_add(1);
        }
    }

    // One byte more of a line that is begun.
    pub(crate) fn feed(&mut self, byte: u8, words: &mut Words) {
        if let Some(d) = digit(byte) {
            self.value = (self.value << 4) | d;
            self.open = true;
            return;
        }
        self.put_number(words);
        if byte == b'[' {
            self.group = self.next;
        }
        self.value = 0;
        self.open = false;
        self.times = byte == b']';
    }
}
