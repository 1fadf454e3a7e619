// What each line asks for. Its first letter decides.
use crate::asking::Engines;
use crate::buffers::{BATCH_DWORDS, ROOM, Words};
use crate::reading::{Line, place_of};
use crate::scans::scan;
use std::io;
use std::io::Write;

// The words that the lines have set, what answers them, and the line that is being read, if one is begun.
#[derive(Drop)]
pub(crate) struct Drill {
    pub(crate) words: Words,
    pub(crate) engines: Engines,
    pub(crate) line: Option<Line>,
}

impl Drill {
    // A line has come to its end. One that begins with no letter that asks is a remark, or only sets numbers.
    fn obey<W: Write>(&mut self, out: &mut W, line: Line) -> io::Result<()> {
        let start = place_of(line.letter);
        let numbers = line.next.wrapping_sub(start);
        self.words.set(BATCH_DWORDS | (start / ROOM), numbers);
        if line.letter == b'g' {
            self.engines.ask(out, &self.words, true)?;
            Ok(())
        } else {
            scan(out, line.letter, &self.words, &mut self.engines)
        }
    }

    // One byte more of the input. A line is echoed as it is read: what it asks for is printed under it.
    pub(crate) fn take<W: Write>(&mut self, out: &mut W, byte: u8) -> io::Result<()> {
        out.write_all(&[byte])?;
        match self.line {
            None if byte == b'\n' => {}
            None => self.line = Some(Line::begun(byte)),
            Some(mut line) => {
                line.feed(byte, &mut self.words);
                self.line = Some(line);
                if byte == b'\n' {
                    self.line = None;
                    self.obey(out, line)?;
                }
            }
        }
        Ok(())
    }
}
