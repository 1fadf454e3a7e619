// The parts of a line, each put behind what stands there. The number in a contract is how many bytes the part has at most: 20 for a number,
// and its words.
ghost use Rattle.std.specs.Prelude.{◌+◌, ◌++◌, length};
ghost use Rattle.rules.specs.Printout.{decimal};
ghost use Rattle.lines.specs.Writing.{Room, Puts};
ghost use Rattle.clauses.specs.Clauses.{commands_text, window_text, dword_text, place_text, progress_text, base_text};

use lines::OpenLine;
use rules::{Answer, BaseChoice};

// Two texts, the second behind the first: the name of a file, and what is said of it.
pub fn put_both(line: &mut OpenLine, first: &[u8], second: &[u8])
    requires { Room (length first.now + length second.now) line.old }
    ensures { Puts (length first.now + length second.now) (first.now ++ second.now) line.old line.new }
{
    line.put_text(first);
    line.put_text(second);
}

// A number, and the words behind it.
pub fn put_count(line: &mut OpenLine, n: usize, words: &[u8])
    requires { Room (20 + length words.now) line.old }
    ensures { Puts (20 + length words.now) (decimal n ++ words.now) line.old line.new }
{
    line.put_decimal(n);
    line.put_text(words);
}

pub fn put_commands(line: &mut OpenLine, count: u32)
    requires { Room 29 line.old }
    ensures { Puts 29 (commands_text count) line.old line.new }
{
    if count == 1 {
        put_count(line, count as usize, b" command");
    } else {
        put_count(line, count as usize, b" commands");
    }
}

fn put_window(line: &mut OpenLine, window: u32)
    requires { Room 16 line.old }
    ensures { Puts 16 (window_text window) line.old line.new }
{
    if window == 0 {
        line.put_text(b" at batch dword ");
    } else {
        line.put_text(b" at state dword ");
    }
}

fn put_dword(line: &mut OpenLine, dword: u32)
    requires { Room 11 line.old }
    ensures { Puts 11 (dword_text dword) line.old line.new }
{
    line.put_byte(b'(');
    line.put_hex(8, dword as usize);
    line.put_text(b"h)");
}

// The place of a fault. At the end of the batch there is no dword.
fn put_place(line: &mut OpenLine, answer: Answer, dword: u32)
    requires { Room 48 line.old }
    ensures { Puts 48 (place_text answer dword) line.old line.new }
{
    if answer.reason == 6 {
        line.put_text(b" at the end of the batch");
        return;
    }
    put_window(line, answer.window);
    put_count(line, answer.index as usize, b" ");
    put_dword(line, dword);
}

// How far the walk came. Before 1 to 4 and 19 to 21 there was none.
pub fn put_progress(line: &mut OpenLine, answer: Answer, dword: u32)
    requires { Room 84 line.old }
    ensures { Puts 84 (progress_text answer dword) line.old line.new }
{
    if answer.reason < 5 || 18 < answer.reason {
        return;
    }
    put_place(line, answer, dword);
    line.put_text(b" after ");
    put_commands(line, answer.count);
}

// The base that captures were judged by.
pub fn put_base(line: &mut OpenLine, choice: BaseChoice)
    requires { Room 20 line.old }
    ensures { Puts 20 (base_text choice) line.old line.new }
{
    match choice {
        BaseChoice::StateWindow => line.put_text(b"; base: state window"),
        BaseChoice::NoBase => line.put_text(b"; base: none"),
    }
}
