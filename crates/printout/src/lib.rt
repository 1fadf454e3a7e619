// The printout, in decimal and ASCII: the line of an answer, the line of a record, and the lines of records gathered in a page.
#![tactic(auto)]

ghost use Rattle.std.specs.Prelude.{◌≡◌, [], ◌∷◌, ◌++◌, ◌+◌, length};
ghost use Rattle.rules.specs.Printout.{decimal, answer_line, command_line, record_line};
ghost use Rattle.rules.specs.Records.{command_of};
ghost use Rattle.lines.specs.Lines.{Line};
ghost use Rattle.lines.specs.Writing.{Room, Puts};
ghost use Rattle.printout.specs.Pages.{line_bytes, Gathered};

use lines::OpenLine;
use rules::{Answer, Command};

// A number behind its label: "reason 0".
fn put_labelled(line: &mut OpenLine, label: &[u8], n: u32)
    requires { Room (length label.now + 20) line.old }
    ensures { Puts (length label.now + 20) (label.now ++ decimal n) line.old line.new }
{
    line.put_text(label);
    line.put_decimal(n as usize);
}

// A number and the byte that ends it: a space, or the line feed.
fn put_column(line: &mut OpenLine, n: usize, end: u8)
    requires { Room 21 line.old }
    ensures { Puts 21 (decimal n ++ (end ∷ [])) line.old line.new }
{
    line.put_decimal(n);
    line.put_byte(end);
}

// The answer's line, from byte 0 on, and its length. 128 bytes hold every line: four labels, four numbers and a line feed are 113 at most.
pub fn answer_line(out: &mut [u8; 128], answer: Answer) -> usize
    ensures { Line (answer_line answer) out.old result out.new }
{
    let mut line = OpenLine::new(out);
    put_labelled(&mut line, b"reason ", answer.reason);
    put_labelled(&mut line, b" window ", answer.window);
    put_labelled(&mut line, b" index ", answer.index);
    put_labelled(&mut line, b" commands ", answer.count);
    line.put_byte(b'\n');
    line.len()
}

// What a record says, by its two words. (a) The words are those of the C interface, and `rules` owns `Command`: so no `From` can be written here.
pub fn command(first: u32, second: u32) -> Command
    ensures { result ≡ command_of first second }
{
    let place = first as usize;
    let kind = second as usize;
    Command {
        index: place % 0x10000,
        level: place / 0x10000 % 2,
        row: kind / 0x1000000 % 0x100,
        length: kind / 0x10000 % 0x100,
    }
}

fn put_command(line: &mut OpenLine, c: Command)
    requires { Room line_bytes line.old }
    ensures { Puts line_bytes (command_line c) line.old line.new }
{
    put_column(line, c.index, b' ');
    put_column(line, c.level, b' ');
    put_column(line, c.row, b' ');
    put_column(line, c.length, b'\n');
}

// A record's line, from byte 0 on, and its length.
pub fn record_line(out: &mut [u8; 128], first: u32, second: u32) -> usize
    ensures { Line (record_line first second) out.old result out.new }
{
    let mut line = OpenLine::new(out);
    put_command(&mut line, command(first, second));
    line.len()
}

// The most bytes of a record's line.
const LINE_BYTES: usize = 84;

// Lines in a page: how many, and how many bytes they have.
#[derive(Drop)]
pub struct Page {
    pub lines: usize,
    pub bytes: usize,
}

// The lines of the records in an empty page, from the first on, as many as there is surely room for; and how many these are. An odd last word is no record.
fn put_records(page: &mut OpenLine, records: &[u32]) -> usize
    requires { page.old.end ≡ 0 }
    ensures same_reference { page.new.bytes.ghost_name ≡ page.old.bytes.ghost_name }
    ensures gathered { Gathered records.now page.old.bytes.now (record { lines = result; bytes = page.new.end }) page.new.bytes.now }
{
    // (c) tried: of `chunks_exact(2)` the loop knows no word of a chunk without a lemma on its runs
    let count = records.len() / 2;
    for i in 0..count {
        if page.room() < LINE_BYTES {
            return i;
        }
        put_command(page, command(records[2 * i], records[2 * i + 1]));
    }
    count
}

// The lines of the records gathered in a page from byte 0 on.
pub fn record_lines(out: &mut [u8], records: &[u32]) -> Page
    ensures { Gathered records.now out.old result out.new }
{
    let mut page = OpenLine::new(out);
    let lines = put_records(&mut page, records);
    Page {
        lines,
        bytes: page.len(),
    }
}
