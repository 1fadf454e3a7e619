// What audit says for other programs: the line of a file, and the line of the totals, each an object of JSON.
#![tactic(auto)]

ghost use Rattle.std.specs.Prelude.{◌≡◌, ◌+◌, ◌≤◌, length};
ghost use Rattle.lines.specs.Lines.{Line};
ghost use Rattle.lines.specs.Writing.{Room, Puts};
ghost use Rattle.members.specs.Strings.{quoted};
ghost use Rattle.json_lines.specs.Objects.{with_answer, judged, not_judged, head_text, place_text, file_line, counts_text, totals_line};

use crate::reasons::put_reasons;
use lines::{LINE_BYTES, OpenLine};
use members::{Outcome, put_base, put_dword, put_member, put_number, put_outcome, put_string};
use rules::{Answer, BaseChoice};

mod reasons;

// The rules that are checked: document 01, and the requests that have landed, by number. Each landing changes it, here and in the definition.
pub const RULES: [u8; 16] = *b"01+1+2+3+4+5+6+7";

// What is told of a file in numbers.
#[derive(Clone, Copy)]
pub struct Told {
    pub outcome: Outcome,
    pub size: Option<u64>,
    pub reason: Option<u64>,
    pub window: Option<u64>,
    pub index: Option<u64>,
    pub dword: Option<u64>,
    pub count: Option<u64>,
}

#[derive(Clone, Copy)]
pub struct Totals {
    pub accepted: u64,
    pub refused: u64,
    pub unread: u64,
    pub missing: u64,
    pub unlisted: u64,
}

// What is told of an answer.
#[tactic(auto, unfolding(crate::specs::Objects::with_answer))]
fn with_answer(outcome: Outcome, size: Option<u64>, answer: Answer, dword: Option<u64>) -> Told
    ensures { result ≡ with_answer outcome size answer dword }
{
    Told {
        outcome,
        size,
        reason: Some(answer.reason as u64),
        window: Some(answer.window as u64),
        index: Some(answer.index as u64),
        dword,
        count: Some(answer.count as u64),
    }
}

// Of a file that was judged. The dword is that at the answer's place, null if there is none.
pub fn judged(size: Option<u64>, answer: Answer, dword: Option<u64>) -> Told
    ensures { result ≡ judged size answer dword }
{
    if answer.reason == 0 {
        with_answer(Outcome::Accepted, size, answer, None)
    } else {
        with_answer(Outcome::Refused, size, answer, dword)
    }
}

// Of a file that was not: unread, missing or unlisted.
#[tactic(auto, unfolding(crate::specs::Objects::not_judged))]
pub fn not_judged(size: Option<u64>, outcome: Outcome) -> Told
    ensures { result ≡ not_judged size outcome }
{
    Told {
        outcome,
        size,
        reason: None,
        window: None,
        index: None,
        dword: None,
        count: None,
    }
}

fn put_head(line: &mut OpenLine, name: &[u8], told: Told)
    requires { Room (length (quoted name.now) + 64) line.old }
    ensures { Puts (length (quoted name.now) + 64) (head_text name.now told) line.old line.new }
{
    put_string(line, b"{\"name\":\"", name);
    put_member(line, b"\",\"size\":", told.size);
    put_outcome(line, told.outcome);
}

fn put_place(line: &mut OpenLine, told: Told)
    requires { Room 128 line.old }
    ensures { Puts 128 (place_text told) line.old line.new }
{
    put_member(line, b"\",\"window\":", told.window);
    put_member(line, b",\"index\":", told.index);
    put_dword(line, told.dword);
    put_member(line, b",\"count\":", told.count);
}

// The line of a file, from byte 0 on, and its length. A name of 4,096 bytes, as `names::shown` shows it, takes 20,480 bytes at most when it is quoted.
pub fn file_line(line: &mut [u8; LINE_BYTES], name: &[u8], words: &[u8], told: Told) -> usize
    requires { (length (quoted name.now) ≤ 20480) × (length words.now ≤ 512) }
    ensures { Line (file_line name.now words.now told) line.old result line.new }
{
    let mut out = OpenLine::new(line);
    put_head(&mut out, name, told);
    put_member(&mut out, b"\",\"reason\":", told.reason);
    put_string(&mut out, b",\"words\":\"", words);
    put_place(&mut out, told);
    out.put_text(b"}\n");
    out.len()
}

fn put_counts(line: &mut OpenLine, t: Totals)
    requires { Room 256 line.old }
    ensures { Puts 256 (counts_text t) line.old line.new }
{
    put_number(line, b"{\"accepted\":", t.accepted);
    put_number(line, b",\"refused\":", t.refused);
    put_number(line, b",\"unread\":", t.unread);
    put_number(line, b",\"missing\":", t.missing);
    put_number(line, b",\"unlisted\":", t.unlisted);
}

// The line of the totals, from byte 0 on, and its length. How many files each reason refused stands at its number; last is the base that the files
// were judged by.
pub fn totals_line(
    line: &mut [u8; LINE_BYTES],
    totals: Totals,
    counts: &[u64; 23],
    choice: BaseChoice,
) -> usize
    ensures { Line (totals_line totals counts.now choice) line.old result line.new }
{
    let mut out = OpenLine::new(line);
    put_counts(&mut out, totals);
    out.put_text(b",\"reasons\":{");
    put_reasons(&mut out, counts);
    out.put_text(b"},\"rules\":\"");
    out.put_text(&RULES);
    put_base(&mut out, choice);
    out.put_text(b"\"}\n");
    out.len()
}
