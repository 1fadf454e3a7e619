// Reading lines, byte by byte: words that spaces and tabs part, numbers that they stand for, and at its end each line's command, written.
// Nothing is kept of a line but its numbers and the word that is being read, so a line may be as long as it likes.
ghost use Rattle.std.specs.Prelude.{◌≤◌, length};

use crate::numbers::{hexadecimal, row};
use arrayvec::ArrayVec;
use std::io;

// The dwords that are lent to the writer.
pub(crate) const BATCH_DWORDS: usize = 4096;

// A row, FREE, and no more dwords than the batch has: the longest command has 132.
const NUMBERS: usize = 2 + BATCH_DWORDS;

// How many bytes of a word are kept: no word that fills them up is any that is known.
pub(crate) const WORD_BYTES: usize = 64;

// Why an input is not written. Of the two before the last but one the word is none that is known.
#[derive(Drop)]
pub(crate) enum Wrong {
    Unread(io::Error),
    Refused(u32),
    NoRow,
    NoDword,
    NoFree,
    TooMany,
    TooLong,
}

impl From<io::Error> for Wrong {
    fn from(failure: io::Error) -> Wrong {
        Wrong::Unread(failure)
    }
}

// What has been read: the number of the line, from 1; whether its comment has begun; its numbers so far, and the word behind them; and
// the batch with its first free dword. Of a line or a word that is wrong all stays, to be shown.
#[derive(Drop)]
pub(crate) struct Reader {
    pub(crate) line: usize,
    comment: bool,
    numbers: ArrayVec<u32, NUMBERS>,
    pub(crate) word: ArrayVec<u8, WORD_BYTES>,
    batch: [u32; BATCH_DWORDS],
    first: usize,
}

impl Reader {
    pub(crate) fn new() -> Reader {
        Reader {
            line: 1,
            comment: false,
            numbers: ArrayVec::new(),
            word: ArrayVec::new(),
            batch: [0; BATCH_DWORDS],
            first: 0,
        }
    }

    // The dwords that are written.
    pub(crate) fn written(&self) -> &[u32]
        ensures { length result.now ≤ 4096 }
    {
        let all: &[u32] = &self.batch;
        all.get(..self.first).unwrap_or(all)
    }

    // What the word stands for: the first of a line is a row.
    fn value(&self) -> Result<u32, Wrong> {
        let word = self.word.as_slice();
        if self.numbers.is_empty() {
            row(word).ok_or(Wrong::NoRow)
        } else {
            hexadecimal(word).ok_or(Wrong::NoDword)
        }
    }

    // A word has come to its end, if one was begun.
    fn end_word(&mut self) -> Result<(), Wrong> {
        if self.word.is_empty() {
            return Ok(());
        }
        if self.numbers.is_full() {
            return Err(Wrong::TooMany);
        }
        let number = self.value()?;
        self.numbers.push(number);
        self.word.clear();
        Ok(())
    }

    // The command of a line is written behind those before it. A line without a word means nothing.
    fn write_line(&mut self) -> Result<(), Wrong> {
        match self.numbers.as_slice() {
            [] => Ok(()),
            [_] => Err(Wrong::NoFree),
            [row, free, dwords @ ..] => {
                let answer = writer::write(*row, *free, dwords, &mut self.batch, self.first);
                if answer.reason != 0 {
                    return Err(Wrong::Refused(answer.reason));
                }
                self.first = self.first.wrapping_add(dwords.len() + 1);
                Ok(())
            }
        }
    }

    // A line has come to its end, and with it its last word.
    fn end_line(&mut self) -> Result<(), Wrong> {
        self.end_word()?;
        self.write_line()?;
        self.numbers.clear();
        self.comment = false;
        self.line = self.line.wrapping_add(1);
        Ok(())
    }

    // One byte more of the input. A comment goes up to the line's end, and the bytes of a word behind the kept ones are passed over.
    pub(crate) fn take(&mut self, byte: u8) -> Result<(), Wrong> {
        match byte {
            b'\n' => self.end_line(),
            _ if self.comment => Ok(()),
            b' ' | b'\t' => self.end_word(),
            b'#' => {
                self.comment = true;
                self.end_word()
            }
            _ => {
                let _ = self.word.try_push(byte);
                Ok(())
            }
        }
    }

    pub(crate) fn take_all(&mut self, bytes: &[u8]) -> Result<(), Wrong> {
        for byte in bytes {
            self.take(*byte)?;
        }
        Ok(())
    }
}
