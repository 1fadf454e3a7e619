// The dword that a line names is varied, the checker is asked each time, and an answer is printed where it is not the one before it.
use crate::asking::Engines;
use crate::buffers::{ARGUMENTS, QUESTION_NUMBERS, ROOM, Words};
use crate::sayings;
use std::io;
use std::io::Write;

// Where the numbers of the line stand: which window and dword, and the values: the first, the step, how many, and the bits that they are cut to.
const WINDOW: u32 = ARGUMENTS;

const DWORD: u32 = ARGUMENTS + 1;

const FIRST: u32 = ARGUMENTS + 2;

const STEP: u32 = ARGUMENTS + 3;

const MANY: u32 = ARGUMENTS + 4;

const MASK: u32 = ARGUMENTS + 5;

// How many values a line asks for, by its letter. A line with another letter asks for none.
fn values(letter: u8, words: &Words) -> u32 {
    match letter {
        b'a' => 33,
        b't' => 32,
        b'l' => words.get(QUESTION_NUMBERS).wrapping_sub(2),
        b'v' | b'm' => words.get(MANY),
        _ => 0,
    }
}

// Value v, by the line's letter: from the value x before it, or from the dword as it stood.
fn value(letter: u8, v: u32, x: u32, stood: u32, words: &Words) -> u32 {
    let bit = 1u32 << (v % 32);
    let next = x.wrapping_add(words.get(STEP));
    match letter {
        b'a' if v < 32 => bit,
        b't' => stood ^ bit,
        b'l' => words.get(FIRST.wrapping_add(v)),
        b'm' if v > 0 => next & words.get(MASK),
        b'v' if v > 0 => next,
        _ => words.get(FIRST),
    }
}

// Asks at each of n values of the word at a place, which stood so, and answers the last of them. Only a copy of the words is varied, so that
// the dword stands as it stood for the lines behind.
fn ask_each<W: Write>(
    out: &mut W,
    letter: u8,
    n: u32,
    place: u32,
    words: &Words,
    engines: &mut Engines,
) -> io::Result<u32> {
    let mut varied = *words;
    let mut before = None;
    let stood = words.get(place);
    let mut x = stood;
    for v in 0..n {
        x = value(letter, v, x, stood, words);
        varied.set(place, x);
        let answer = engines.ask(out, &varied, false)?;
        if before != Some(answer) {
            sayings::found(out, x, answer)?;
            before = Some(answer);
        }
    }
    Ok(x)
}

// Asks at the values of the dword that the line names, if it asks for any. There are four windows.
pub(crate) fn scan<W: Write>(
    out: &mut W,
    letter: u8,
    words: &Words,
    engines: &mut Engines,
) -> io::Result<()> {
    let n = values(letter, words);
    if n > 0 {
        let window = words.get(WINDOW) % 4;
        let place = (window * ROOM).wrapping_add(words.get(DWORD));
        let x = ask_each(out, letter, n, place, words, engines)?;
        sayings::last(out, x)?;
    }
    Ok(())
}
