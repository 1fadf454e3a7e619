// The parts of an object of JSON, each put behind what stands in the line. A part begins with its key, which closes what stands before it.
#![tactic(auto)]

ghost use Rattle.std.specs.Prelude.{◌≡◌, ◌≤◌, ◌+◌, [], ◌∷◌, ◌++◌, length};
ghost use Rattle.rules.specs.Printout.{decimal, bytes};
ghost use Rattle.lines.specs.Hexadecimal.{hex_digits};
ghost use Rattle.lines.specs.Writing.{Room, Puts};
ghost use Rattle.members.specs.Strings.{quoted_byte, quoted};
ghost use Rattle.members.specs.Members.{outcome_text, number_text, dword_text, base_text};

use lines::OpenLine;
use rules::BaseChoice;

#[derive(Clone, Copy)]
pub enum Outcome {
    Accepted,
    Refused,
    Unread,
    Missing,
    Unlisted,
}

impl Outcome {
    #[tactic(auto, unfolding(crate::specs::Members::outcome_text))]
    fn text(self) -> &'static [u8]
        ensures word { result.now ≡ outcome_text self }
        ensures short { length result.now ≤ 8 }
    {
        match self {
            Outcome::Accepted => b"accepted",
            Outcome::Refused => b"refused",
            Outcome::Unread => b"unread",
            Outcome::Missing => b"missing",
            Outcome::Unlisted => b"unlisted",
        }
    }
}

fn put_escaped(line: &mut OpenLine, byte: u8)
    requires { Room 2 line.old }
    ensures { Puts 2 (0x5C ∷ byte ∷ []) line.old line.new }
{
    line.put_byte(b'\\');
    line.put_byte(byte);
}

#[tactic(auto, using(crate::proofs::Escaping::behind_a_backslash, crate::proofs::Escaping::as_it_is))]
fn put_quoted_byte(line: &mut OpenLine, byte: u8)
    requires { Room 6 line.old }
    ensures { Puts 6 (quoted_byte byte) line.old line.new }
{
    let control = byte < 0x20;
    if control {
        line.put_text(b"\\u00");
        line.put_hex(2, byte as usize);
        return;
    }
    if byte == b'"' || byte == b'\\' {
        put_escaped(line, byte);
        return;
    }
    line.put_byte(byte);
}

// Six bytes more than the text takes are asked for: the most that one byte gives.
fn put_quoted(line: &mut OpenLine, text: &[u8])
    requires { Room (length (quoted text.now) + 6) line.old }
    ensures { Puts (length (quoted text.now)) (quoted text.now) line.old line.new }
{
    for byte in text {
        put_quoted_byte(line, *byte);
    }
}

pub fn put_string(line: &mut OpenLine, key: &[u8], text: &[u8])
    requires { Room (length key.now + (length (quoted text.now) + 6)) line.old }
    ensures { Puts (length key.now + length (quoted text.now)) (key.now ++ quoted text.now) line.old line.new }
{
    line.put_text(key);
    put_quoted(line, text);
}

pub fn put_number(line: &mut OpenLine, key: &[u8], n: u64)
    requires { Room (length key.now + 20) line.old }
    ensures { Puts (length key.now + 20) (key.now ++ decimal n) line.old line.new }
{
    line.put_text(key);
    line.put_decimal(n as usize);
}

// A number, or null.
pub fn put_member(line: &mut OpenLine, key: &[u8], n: Option<u64>)
    requires { Room (length key.now + 20) line.old }
    ensures { Puts (length key.now + 20) (key.now ++ number_text n) line.old line.new }
{
    line.put_text(key);
    match n {
        Some(n) => line.put_decimal(n as usize),
        None => line.put_text(b"null"),
    }
}

fn put_digits_quoted(line: &mut OpenLine, n: u64)
    requires { Room 10 line.old }
    ensures { Puts 10 (bytes "\"" ++ hex_digits 8 n ++ bytes "\"") line.old line.new }
{
    line.put_byte(b'"');
    line.put_hex(8, n as usize);
    line.put_byte(b'"');
}

// A dword, or null.
pub fn put_dword(line: &mut OpenLine, n: Option<u64>)
    requires { Room 19 line.old }
    ensures { Puts 19 (bytes ",\"dword\":" ++ dword_text n) line.old line.new }
{
    line.put_text(b",\"dword\":");
    match n {
        Some(n) => put_digits_quoted(line, n),
        None => line.put_text(b"null"),
    }
}

pub fn put_outcome(line: &mut OpenLine, outcome: Outcome)
    requires { Room 20 line.old }
    ensures { Puts 20 (bytes ",\"verdict\":\"" ++ outcome_text outcome) line.old line.new }
{
    line.put_text(b",\"verdict\":\"");
    line.put_text(outcome.text());
}

pub fn put_base(line: &mut OpenLine, choice: BaseChoice)
    requires { Room 15 line.old }
    ensures { Puts 15 (bytes "\",\"base\":\"" ++ base_text choice) line.old line.new }
{
    line.put_text(b"\",\"base\":\"");
    match choice {
        BaseChoice::StateWindow => line.put_text(b"state"),
        BaseChoice::NoBase => line.put_text(b"none"),
    }
}
