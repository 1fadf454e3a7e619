// Why a capture is refused, in words, and what happened: each part is put behind what stands in the line, as in `parts`.
ghost use Rattle.lines.specs.Writing.{Room, Puts};
ghost use Rattle.clauses.specs.Clauses.{bytes_text, command_text, address_text, reach_text, size_text, detail_text, refused_words};

use crate::Detail;
use crate::parts::{put_both, put_count};
use lines::OpenLine;
use phrases::{access_words, command_words, reason_words, within_words};
use rules::Within;

fn put_bytes(line: &mut OpenLine, n: u64)
    requires { Room 26 line.old }
    ensures { Puts 26 (bytes_text n) line.old line.new }
{
    if n == 1 {
        put_count(line, n as usize, b" byte");
    } else {
        put_count(line, n as usize, b" bytes");
    }
}

fn put_command(line: &mut OpenLine, row: usize)
    requires { Room 66 line.old }
    ensures { Puts 66 (command_text row) line.old line.new }
{
    put_both(line, b": ", command_words(row));
}

fn put_address(line: &mut OpenLine, address: u64)
    requires { Room 17 line.old }
    ensures { Puts 17 (address_text address) line.old line.new }
{
    line.put_text(b" at ");
    line.put_hex(12, address as usize);
    line.put_text(b"h");
}

// What a command reaches: its kind of access, how many bytes at which address, and where they should lie.
fn put_reach(line: &mut OpenLine, row: usize, address: u64, bytes: u64, within: Within)
    requires { Room 262 line.old }
    ensures { Puts 262 (reach_text row address bytes within) line.old line.new }
{
    put_command(line, row);
    put_both(line, b", ", access_words(row));
    line.put_text(b" ");
    put_bytes(line, bytes);
    put_address(line, address);
    put_both(line, b", which should lie in ", within_words(within));
}

// The size of a file.
fn put_size(line: &mut OpenLine, n: u64)
    requires { Room 35 line.old }
    ensures { Puts 35 (size_text n) line.old line.new }
{
    if n == 0 {
        line.put_text(b": it is empty");
        return;
    }
    line.put_text(b": it has ");
    put_bytes(line, n);
}

fn put_detail(line: &mut OpenLine, detail: Detail)
    requires { Room 262 line.old }
    ensures { Puts 262 (detail_text detail) line.old line.new }
{
    match detail {
        Detail::NoMore => {}
        Detail::InCommand(row) => put_command(line, row),
        Detail::Reach(row, address, bytes, within) => put_reach(line, row, address, bytes, within),
        Detail::HasBytes(n) => put_size(line, n),
        Detail::HasTooMany => line.put_text(b": it has over 32,808 bytes"),
    }
}

pub fn put_refusal(line: &mut OpenLine, reason: u32, detail: Detail)
    requires { Room 326 line.old }
    ensures { Puts 326 (refused_words reason detail) line.old line.new }
{
    line.put_text(reason_words(reason));
    put_detail(line, detail);
}
