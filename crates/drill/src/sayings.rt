// What the program prints: answers in decimal, as document 01's printout has them, and everything else in hexadecimal.
use rules::Answer;
use std::io;
use std::io::Write;

// Reason, window, index and count.
pub(crate) fn answer<W: Write>(out: &mut W, a: Answer) -> io::Result<()> {
    write!(out, " {} {} {} {};", a.reason, a.window, a.index, a.count)
}

// The answers of both engines, the table's first, where they or the records that they wrote are not the same.
pub(crate) fn unlike<W: Write>(out: &mut W, table: Answer, plainly: Answer) -> io::Result<()> {
    write!(out, "!")?;
    answer(out, table)?;
    answer(out, plainly)
}

// The answer from a value on.
pub(crate) fn found<W: Write>(out: &mut W, x: u32, a: Answer) -> io::Result<()> {
    write!(out, " {x:x}")?;
    answer(out, a)
}

// The last value or place of a line.
pub(crate) fn last<W: Write>(out: &mut W, n: u32) -> io::Result<()> {
    write!(out, " to {n:x}\n")
}

// The words of a buffer, each from its place on, unless it is the one before it; and how many there are.
pub(crate) fn words<W: Write>(out: &mut W, all: &[u32], n: u32) -> io::Result<()> {
    let mut before = None;
    for (i, x) in all.iter().enumerate() {
        if before != Some(*x) {
            write!(out, " {i:x} {x:x};")?;
            before = Some(*x);
        }
    }
    last(out, n)
}
