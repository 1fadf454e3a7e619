// What audit says of a capture, in plain words: the line of a file, and the line of the totals. And what compose says of a line that is refused.
#![tactic(auto)]

ghost use Rattle.std.specs.Prelude.{◌≤◌, length};
ghost use Rattle.lines.specs.Lines.{Line, name_bytes};
ghost use Rattle.clauses.specs.Clauses.{refused_words, unread_words};
ghost use Rattle.sentences.specs.Lines.{accepted_line, refused_line, unread_line, unlisted_line, reason_line, unlisted_total, totals_line, writing_line};
ghost use Rattle.phrases.specs.Words.{command_words};

use clauses::details::put_refusal;
use clauses::parts::{put_base, put_both, put_commands, put_count, put_progress};
use clauses::why::{put_unread, put_verdict};
use clauses::{Detail, Unread};
use lines::{LINE_BYTES, OpenLine};
use rules::{Answer, BaseChoice};

// How many bytes there are at most of what is said of a file.
pub const WORDS_BYTES: usize = 512;

// The words of a refusal, from byte 0 on, and their length: what its number means, and what happened.
pub fn refused_words(words: &mut [u8; WORDS_BYTES], reason: u32, detail: Detail) -> usize
    ensures { Line (refused_words reason detail) words.old result words.new }
{
    let mut out = OpenLine::new(words);
    put_refusal(&mut out, reason, detail);
    out.len()
}

// The words for why a file was not read, from byte 0 on, and their length.
pub fn unread_words(words: &mut [u8; WORDS_BYTES], why: Unread) -> usize
    ensures { Line (unread_words why) words.old result words.new }
{
    let mut out = OpenLine::new(words);
    put_unread(&mut out, why);
    out.len()
}

// The name of a row's command, from byte 0 on, and its length: a number that is no row has none.
pub fn command_words(words: &mut [u8; WORDS_BYTES], row: usize) -> usize
    ensures { Line (command_words row) words.old result words.new }
{
    let mut out = OpenLine::new(words);
    out.put_text(phrases::command_words(row));
    out.len()
}

// Each line stands in the lent buffer from byte 0 on, and its length comes back.
pub fn accepted_line(line: &mut [u8; LINE_BYTES], name: &[u8], count: u32) -> usize
    requires { length name.now ≤ name_bytes }
    ensures { Line (accepted_line name.now count) line.old result line.new }
{
    let mut out = OpenLine::new(line);
    put_both(&mut out, name, b": accepted, ");
    put_commands(&mut out, count);
    out.put_byte(b'\n');
    out.len()
}

pub fn refused_line(
    line: &mut [u8; LINE_BYTES],
    name: &[u8],
    answer: Answer,
    dword: u32,
    detail: Detail,
) -> usize
    requires { length name.now ≤ name_bytes }
    ensures { Line (refused_line name.now answer dword detail) line.old result line.new }
{
    let mut out = OpenLine::new(line);
    put_both(&mut out, name, b": refused, ");
    out.put_decimal(answer.reason as usize);
    put_progress(&mut out, answer, dword);
    out.put_text(b": ");
    put_refusal(&mut out, answer.reason, detail);
    out.put_byte(b'\n');
    out.len()
}

pub fn unread_line(line: &mut [u8; LINE_BYTES], name: &[u8], why: Unread) -> usize
    requires { length name.now ≤ name_bytes }
    ensures { Line (unread_line name.now why) line.old result line.new }
{
    let mut out = OpenLine::new(line);
    out.put_text(name);
    put_verdict(&mut out, why);
    put_unread(&mut out, why);
    out.put_byte(b'\n');
    out.len()
}

// Of a capture in a folder that the list has not.
pub fn unlisted_line(line: &mut [u8; LINE_BYTES], name: &[u8]) -> usize
    requires { length name.now ≤ name_bytes }
    ensures { Line (unlisted_line name.now) line.old result line.new }
{
    let mut out = OpenLine::new(line);
    put_both(&mut out, name, b": not listed\n");
    out.len()
}

// How many captures a reason refused.
pub fn reason_line(line: &mut [u8; LINE_BYTES], reason: u32, count: u64) -> usize
    ensures { Line (reason_line reason count) line.old result line.new }
{
    let mut out = OpenLine::new(line);
    put_count(&mut out, count as usize, b" refused by ");
    put_count(&mut out, reason as usize, b": ");
    out.put_text(phrases::reason_words(reason));
    out.put_byte(b'\n');
    out.len()
}

// How many captures in the folder the list has not.
pub fn unlisted_total(line: &mut [u8; LINE_BYTES], count: u64) -> usize
    ensures { Line (unlisted_total count) line.old result line.new }
{
    let mut out = OpenLine::new(line);
    put_count(&mut out, count as usize, b" not listed\n");
    out.len()
}

// The totals, and the base that the captures were judged by.
pub fn totals_line(
    line: &mut [u8; LINE_BYTES],
    accepted: u64,
    refused: u64,
    unread: u64,
    missing: u64,
    choice: BaseChoice,
) -> usize
    ensures { Line (totals_line accepted refused unread missing choice) line.old result line.new }
{
    let mut out = OpenLine::new(line);
    put_count(&mut out, accepted as usize, b" accepted, ");
    put_count(&mut out, refused as usize, b" refused, ");
    put_count(&mut out, unread as usize, b" unread, ");
    put_count(&mut out, missing as usize, b" missing");
    put_base(&mut out, choice);
    out.put_byte(b'\n');
    out.len()
}

// Of a line of compose's input that the writer refuses, by the number of the line and the writer's.
pub fn writing_line(line: &mut [u8; LINE_BYTES], name: &[u8], number: usize, reason: u32) -> usize
    requires { length name.now ≤ name_bytes }
    ensures { Line (writing_line name.now number reason) line.old result line.new }
{
    let mut message = OpenLine::new(line);
    message.put_text(b"lungevati: ");
    put_both(&mut message, name, b": line ");
    put_count(&mut message, number, b": refused, ");
    put_count(&mut message, reason as usize, b": ");
    message.put_text(phrases::writing_words(reason));
    message.put_byte(b'\n');
    message.len()
}
