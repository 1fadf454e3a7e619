// Writes the commands that lines name, `ROW FREE DWORD..`, one a line, from the file that an argument names or from standard input, and
// prints their dwords. They are printed only once every line is written: of an input that is refused nothing is.
#![tactic(auto)]

ghost use Rattle.std.specs.Prelude.{◌≡◌, ◌*◌, ◌≤◌, length};
ghost use Rattle.lines.specs.Lines.{name_bytes};
ghost use Rattle.lines.specs.Writing.{Room};

mod numbers;
mod reading;

use crate::reading::{BATCH_DWORDS, Reader, Wrong};
use lines::{LINE_BYTES, NAME_BYTES, OpenLine};
use outside::output::{Outputs, write_all};
use outside::{arguments, descriptors, files};
use reports::Status;
use std::io::{Read, Write};
use std::rt::{Env, Files};

// How many bytes are read at once, and how many an argument may have: one that fills the room is longer than any path.
const PIECE_BYTES: usize = 4096;

// A line of eight digits for each dword of the batch.
const PAGE_BYTES: usize = 9 * BATCH_DWORDS;

// More reads than any input takes: a proved loop has to end, and nothing says that an input does.
const MOST_READS: usize = 0x100_0000_0000;

// ---- the input

// Reads and writes line by line, up to the input's end, which is that of its last line.
fn read_lines<I: Read>(from: &mut I, reader: &mut Reader) -> Result<(), Wrong> {
    let mut piece = [0u8; PIECE_BYTES];
    for _ in 0..MOST_READS {
        match from.read(&mut piece)? {
            0 => return reader.take(b'\n'),
            n => reader.take_all(&piece[..n])?,
        }
    }
    Err(Wrong::TooLong)
}

// ---- what is printed

// The dwords in hexadecimal, each on a line of its own.
fn put_dwords(page: &mut OpenLine, dwords: &[u32])
    requires { Room (9 * length dwords.now) page.old }
    ensures same_reference { page.new.bytes.ghost_name ≡ page.old.bytes.ghost_name }
    ensures within { page.new.end ≤ length page.new.bytes.now }
{
    for dword in dwords {
        page.put_hex(8, *dword as usize);
        page.put_byte(b'\n');
    }
}

// Prints them, and says why if that cannot be done.
fn print_dwords<O: Write, E: Write>(to: &mut Outputs<O, E>, dwords: &[u32]) -> Status
    requires { length dwords.now ≤ 4096 }
{
    let mut page = [0u8; PAGE_BYTES];
    let mut out = OpenLine::new(&mut page);
    put_dwords(&mut out, dwords);
    let n = out.len();
    match to.print(&page[..n]) {
        Ok(()) => Status::Accepted,
        Err(_) => Status::Unread,
    }
}

// ---- what is said

fn say_refused<E: Write>(messages: &mut E, name: &[u8], number: usize, reason: u32)
    requires { length name.now ≤ name_bytes }
{
    let mut line = [0u8; LINE_BYTES];
    let n = sentences::writing_line(&mut line, name, number, reason);
    let _ = write_all(messages, &line[..n]);
}

// Says what is wrong with a line.
fn say_wrong<E: Write>(messages: &mut E, name: &[u8], number: usize, what: &[u8]) {
    let _ = write_all(messages, b"lungevati: ");
    let _ = write_all(messages, name);
    let _ = write!(messages, ": line {number}: ");
    let _ = write_all(messages, what);
}

// Says what is wrong with a word, which is shown as a name is.
fn say_word<E: Write>(messages: &mut E, name: &[u8], reader: &Reader, what: &[u8]) {
    let mut text = [0u8; NAME_BYTES];
    let n = names::shown(reader.word.as_slice(), &mut text);
    say_wrong(messages, name, reader.line, &text[..n]);
    let _ = write_all(messages, what);
}

// Says why an input is not written.
fn say<O: Write, E: Write>(
    to: &mut Outputs<O, E>,
    name: &[u8],
    reader: &Reader,
    wrong: Wrong,
) -> Status
    requires { length name.now ≤ name_bytes }
{
    let messages = &mut to.messages;
    let line = reader.line;
    match wrong {
        Wrong::Unread(failure) => {
            let _ = to.complain(name, failure);
        }
        Wrong::Refused(reason) => {
            say_refused(messages, name, line, reason);
            return Status::Refused;
        }
        Wrong::NoRow => say_word(
            messages,
            name,
            reader,
            b" is no row's number and no command's name\n",
        ),
        Wrong::NoDword => say_word(
            messages,
            name,
            reader,
            b" is no hexadecimal number of one to eight digits\n",
        ),
        Wrong::NoFree => say_wrong(
            messages,
            name,
            line,
            b"FREE is missing behind the row: a line is ROW FREE DWORD..\n",
        ),
        Wrong::TooMany => say_wrong(messages, name, line, b"it has more than 4,096 dwords\n"),
        Wrong::TooLong => say_wrong(messages, name, line, b"the input goes on for too long\n"),
    }
    Status::Unread
}

// ---- the program

// Composes what an open input asks for. The input is shown by its name.
fn compose_input<I: Read, O: Write, E: Write>(
    to: &mut Outputs<O, E>,
    from: &mut I,
    name: &[u8],
) -> Status
    requires { length name.now ≤ name_bytes }
{
    let mut reader = Reader::new();
    match read_lines(from, &mut reader) {
        Ok(()) => print_dwords(to, reader.written()),
        Err(wrong) => say(to, name, &reader, wrong),
    }
}

// The same for the file that argument 1 names. One that is longer than any path fills the buffer, and no path is as long as that.
fn compose_argument<R: Env + Files, O: Write, E: Write>(
    system: &R,
    to: &mut Outputs<O, E>,
) -> Status {
    let mut word = [0u8; PIECE_BYTES];
    let name = arguments::front(system, 1, &mut word);
    let opened = files::open(system, name, 1);
    let mut text = [0u8; NAME_BYTES];
    let n = names::shown(name, &mut text);
    let shown = &text[..n];
    match opened {
        Ok(mut file) => compose_input(to, &mut file, shown),
        Err(failure) => {
            let _ = to.complain(shown, failure);
            Status::Unread
        }
    }
}

fn main(rt: HostRuntime) {
    let mut to = Outputs::new(rt.stdout(), rt.stderr());
    let status = if arguments::count(&rt) < 2 {
        compose_input(&mut to, &mut rt.stdin(), b"standard input")
    } else {
        compose_argument(&rt, &mut to)
    };
    let _ = descriptors::report(&rt, &status.line());
}
