// Writing in whole, and saying what failed.
ghost use Rattle.std.specs.Prelude.{◌≡◌, ◌≤◌, ◌++◌, ℕ, List, [], length, take, codes, IsOk, OnOk};
ghost use Rattle.std.specs.Io.KnownBytes.{Appends};

use arrayvec::ArrayString;
use std::fmt::Write as _;
use std::io;
use std::io::{ErrorKind, Write};

// The system's longest words for a failure have some fifty bytes; std puts the failure's number behind them.
const WORDS_BYTES: usize = 256;

// The error of what could not be done, and was told where messages go.
#[derive(Clone, Copy)]
pub struct Told;

// Where a program writes what it was asked for, and where it says what failed.
#[derive(Drop)]
pub struct Outputs<O, E> {
    pub printout: O,
    pub messages: E,
}

// Writes all of a text, or stops at the first write that takes nothing or fails. It is not std's `write_all`, which has no clause `front`, and writes on
// after a write that was interrupted.
pub fn write_all<W: Write>(to: &mut W, text: &[u8]) -> io::Result<()>
    ensures whole { OnOk result (Appends (W.contents to.old) (W.contents to.new) text.now) }
    ensures empty { text.now ≡ [] → IsOk result }
    ensures front { (n : ℕ) × (n ≤ length text.now) × Appends (W.contents to.old) (W.contents to.new) (take n text.now) }
{
    let mut rest = text;
    while !rest.is_empty() {
        match to.write(rest)? {
            0 => return Err(io::Error::from(ErrorKind::WriteZero)),
            n => rest = &rest[n..],
        }
    }
    Ok(())
}

// The words for a failure, as std has them: the system's, and behind them its number.
fn words_of(failure: io::Error) -> ArrayString<WORDS_BYTES> {
    let mut words = ArrayString::new();
    let _ = write!(words, "{failure}");
    words
}

// The system's words alone.
fn without_number(words: &str) -> &str {
    words
        .rsplit_once(" (os error ")
        .map_or(words, |(front, _)| front)
}

// Writes a line: what failed, a colon, and the system's words for why.
pub fn tell_failure<W: Write>(to: &mut W, what: &[u8], failure: io::Error) -> io::Result<()>
    ensures { OnOk result ((words : List ℕ) × Appends (W.contents to.old) (W.contents to.new) (what.now ++ codes ": " ++ words ++ codes "\n")) }
{
    let words = words_of(failure);
    write_all(to, what)?;
    write_all(to, b": ")?;
    write_all(to, without_number(words.as_str()).as_bytes())?;
    write_all(to, b"\n")
}

impl<O: Write, E: Write> Outputs<O, E> {
    pub fn new(printout: O, messages: E) -> Outputs<O, E>
        ensures { result ≡ record { printout = printout; messages = messages } }
    {
        Outputs { printout, messages }
    }

    // Writes a text to the printout, or says why it cannot be done.
    pub fn print(&mut self, text: &[u8]) -> Result<(), Told>
        ensures empty { text.now ≡ [] → IsOk result }
        ensures whole { OnOk result (Appends (O.contents self.old.printout) (O.contents self.new.printout) text.now) }
    {
        if let Err(why) = write_all(&mut self.printout, text) {
            let what = b"lungevati: the output could not be written";
            let _ = tell_failure(&mut self.messages, what, why);
            return Err(Told);
        }
        Ok(())
    }

    // Says what failed, as the name of a file that was not read, and why. The name is told also where what stands before it could not be.
    pub fn complain(&mut self, what: &[u8], why: io::Error) -> io::Result<()>
        ensures same_printout { self.new.printout ≡ self.old.printout }
        ensures told { OnOk result ((words : List ℕ) × Appends (E.contents self.old.messages) (E.contents self.new.messages) (codes "lungevati: " ++ what.now ++ codes ": " ++ words ++ codes "\n")) }
    {
        let front = write_all(&mut self.messages, b"lungevati: ");
        let line = tell_failure(&mut self.messages, what, why);
        front.and(line)
    }
}
