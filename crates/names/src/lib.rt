// A name as it is shown on one line: what can be read stands as it is, every other byte is written out, and two names never give the same text;
// and where a name ends in a file of names.
#![tactic(auto)]

ghost use Rattle.std.specs.Prelude.{◌*◌, ◌≤◌, ◌<◌, ◌≡◌, length, get_or, drop, position, nat_eq};
ghost use Rattle.lines.specs.Lines.{Line};
ghost use Rattle.lines.specs.Writing.{Room, Puts};
ghost use Rattle.names.specs.Entries.{NameEnd};
ghost use Rattle.names.specs.Names.{no_byte, fits, standing, standing_on, written_out, shown_byte, shown_name};

use lines::{NAME_BYTES, OpenLine};

// How many bytes of a character stand, then the lowest and the highest that each of its four bytes may be. 0 and 256: any byte, or none.
// (a) The rows are those of the definition `characters`, number by number.
const CHARACTERS: [[u16; 9]; 15] = [
    [1, 0x20, 0x5B, 0, 256, 0, 256, 0, 256],
    [1, 0x5D, 0x7E, 0, 256, 0, 256, 0, 256],
    // U+200B to U+200F, U+2028 to U+202E, U+2060 to U+206F, U+FEFF
    [0, 0xE2, 0xE2, 0x80, 0x80, 0x8B, 0x8F, 0, 256],
    [0, 0xE2, 0xE2, 0x80, 0x80, 0xA8, 0xAE, 0, 256],
    [0, 0xE2, 0xE2, 0x81, 0x81, 0xA0, 0xAF, 0, 256],
    [0, 0xEF, 0xEF, 0xBB, 0xBB, 0xBF, 0xBF, 0, 256],
    // Well-formed UTF-8 from U+00A0 on
    [2, 0xC2, 0xC2, 0xA0, 0xBF, 0, 256, 0, 256],
    [2, 0xC3, 0xDF, 0x80, 0xBF, 0, 256, 0, 256],
    [3, 0xE0, 0xE0, 0xA0, 0xBF, 0x80, 0xBF, 0, 256],
    [3, 0xE1, 0xEC, 0x80, 0xBF, 0x80, 0xBF, 0, 256],
    [3, 0xED, 0xED, 0x80, 0x9F, 0x80, 0xBF, 0, 256],
    [3, 0xEE, 0xEF, 0x80, 0xBF, 0x80, 0xBF, 0, 256],
    [4, 0xF0, 0xF0, 0x90, 0xBF, 0x80, 0xBF, 0x80, 0xBF],
    [4, 0xF1, 0xF3, 0x80, 0xBF, 0x80, 0xBF, 0x80, 0xBF],
    [4, 0xF4, 0xF4, 0x80, 0x8F, 0x80, 0xBF, 0x80, 0xBF],
];

// The byte at a place, and 256 past the end.
fn byte_at(name: &[u8], at: usize) -> u16
    ensures { result ≡ get_or name.now at no_byte }
{
    match name.get(at) {
        Some(byte) => *byte as u16,
        None => 256,
    }
}

#[tactic(auto, unfolding(crate::specs::Names::fits, rules::specs::Formats::between))]
fn fits(row: &[u16; 9], a: u16, b: u16, c: u16, d: u16) -> bool
    ensures { result ≡ fits row.now a b c d }
{
    (row[1]..=row[2]).contains(&a)
        && (row[3]..=row[4]).contains(&b)
        && (row[5]..=row[6]).contains(&c)
        && (row[7]..=row[8]).contains(&d)
}

// How many bytes the character at a place has, if it stands as it is; 0 if it does not.
fn standing(name: &[u8], at: usize) -> usize
    requires { at < 4096 }
    ensures { result ≡ standing (drop at name.now) }
{
    let a = byte_at(name, at);
    let b = byte_at(name, at + 1);
    let c = byte_at(name, at + 2);
    let d = byte_at(name, at + 3);
    for row in &CHARACTERS {
        if fits(row, a, b, c, d) {
            return row[0] as usize;
        }
    }
    0
}

// How many bytes from a place on stand as they are, where so many are left of a character that has begun.
fn standing_on(name: &[u8], at: usize, left: usize) -> usize
    requires { at < 4096 }
    ensures { result ≡ standing_on left (drop at name.now) }
{
    if left == 0 { standing(name, at) } else { left }
}

fn put_written_out(text: &mut OpenLine, byte: u8)
    requires { Room 4 text.old }
    ensures { Puts 4 (written_out byte) text.old text.new }
{
    if byte == b'\\' {
        text.put_text(b"\\\\");
        return;
    }
    text.put_text(b"\\x");
    text.put_hex(2, byte as usize);
}

fn put_shown(text: &mut OpenLine, stands: usize, byte: u8)
    requires { Room 4 text.old }
    ensures { Puts 4 (shown_byte stands byte) text.old text.new }
{
    if stands == 0 {
        put_written_out(text, byte);
    } else {
        text.put_byte(byte);
    }
}

// A byte gives at most four.
fn put_name(text: &mut OpenLine, name: &[u8])
    requires { (length name.now ≤ 4096) × Room (4 * length name.now) text.old }
    ensures { Puts (4 * length name.now) (shown_name name.now) text.old text.new }
{
    let mut left: usize = 0;
    for (i, byte) in name.iter().enumerate() {
        let stands = standing_on(name, i, left);
        put_shown(text, stands, *byte);
        left = stands.saturating_sub(1);
    }
}

// The text of a name, from byte 0 on, and its length.
pub fn shown(name: &[u8], text: &mut [u8; NAME_BYTES]) -> usize
    requires { length name.now ≤ 4096 }
    ensures { Line (shown_name name.now) text.old result text.new }
{
    let mut out = OpenLine::new(text);
    put_name(&mut out, name);
    out.len()
}

// Where the next ending byte stands, if there is one.
fn next_ending(bytes: &[u8], ending: u8) -> Option<usize>
    ensures { result ≡ position (λ byte. nat_eq byte ending) bytes.now }
{
    bytes.iter().position(|byte| *byte == ending)
}

// Where the name that starts at `from` ends: the place of the next ending byte or, if there is none, that behind the last byte.
pub fn name_end(bytes: &[u8], from: usize, ending: u8) -> usize
    requires { from ≤ length bytes.now }
    ensures { NameEnd bytes.now from ending result }
{
    match next_ending(&bytes[from..], ending) {
        Some(n) => from + n,
        None => bytes.len(),
    }
}
