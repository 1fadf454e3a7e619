// Putting bytes into a line that is being written: a byte, a text, a number in decimal or hexadecimal, each behind what stands there.
#![tactic(auto)]

ghost use Rattle.std.specs.Prelude.{◌≡◌, [], ◌∷◌, ◌+◌, ◌-◌, ◌≤◌, ◌<◌, length};
ghost use Rattle.rules.specs.Printout.{decimal, digits_of};
ghost use Rattle.lines.specs.Hexadecimal.{hex_digit, hex_digits};
ghost use Rattle.lines.specs.Writing.{Opens, Room, Puts};

// A line has room for the name of a file in its longest form, which is that in JSON, and for what is said of the file.
pub const LINE_BYTES: usize = 24576;

// A number of 64 bits has at most 20 digits.
pub const MOST_DIGITS: usize = 20;

// How many bytes the name of a file has at most, as it is shown: 4,096, each of which can become four, as `\xNN`.
pub const NAME_BYTES: usize = 16384;

// A line that is being written: the bytes lent for it, and how many of them it has so far.
#[derive(Drop)]
pub struct OpenLine<'a> {
    bytes: &'a mut [u8],
    end: usize,
}

impl<'a> OpenLine<'a> {
    pub fn new(bytes: &'a mut [u8]) -> OpenLine<'a>
        ensures { Opens bytes.entry result }
    {
        OpenLine { bytes, end: 0 }
    }

    pub fn len(&self) -> usize
        ensures { result ≡ self.now.end }
    {
        // all that is put goes before this place
        self.end
    }

    // How many bytes more it may take.
    pub fn room(&self) -> usize
        ensures { result ≡ length self.now.bytes.now - self.now.end }
    {
        self.bytes.len().saturating_sub(self.end)
    }

    pub fn put_byte(&mut self, byte: u8)
        requires { Room 1 self.old }
        ensures { Puts 1 (byte ∷ []) self.old self.new }
    {
        self.bytes[self.end] = byte;
        self.end += 1;
    }

    pub fn put_text(&mut self, text: &[u8])
        requires { Room (length text.now) self.old }
        ensures { Puts (length text.now) text.now self.old self.new }
    {
        let end = self.end + text.len();
        self.bytes[self.end..end].copy_from_slice(text);
        self.end = end;
    }

    // The last `most` digits of n, the highest first and with no leading zero.
    pub fn put_digits(&mut self, most: usize, n: usize)
        requires { Room most self.old }
        ensures { Puts most (digits_of most n) self.old self.new }
    {
        if most == 0 {
            return;
        }
        if 10 <= n {
            self.put_digits(most - 1, n / 10);
        }
        self.put_byte(b'0' + (n % 10) as u8);
    }

    // A number in decimal.
    pub fn put_decimal(&mut self, n: usize)
        requires { Room 20 self.old }
        ensures { Puts 20 (decimal n) self.old self.new }
    {
        self.put_digits(MOST_DIGITS, n);
    }

    // The last `count` hexadecimal digits of n.
    pub fn put_hex(&mut self, count: usize, n: usize)
        requires { Room count self.old }
        ensures { Puts count (hex_digits count n) self.old self.new }
    {
        if count == 0 {
            return;
        }
        self.put_hex(count - 1, n / 16);
        self.put_byte(hex_digit(n % 16));
    }
}

#[tactic(auto, using(std::proofs::lemmas::Bool::Decides::nat_tests), unfolding(crate::specs::Hexadecimal::hex_digit))]
fn hex_digit(n: usize) -> u8
    requires { n < 16 }
    ensures { result ≡ hex_digit n }
{
    let low = n as u8;
    if n < 10 { 48 + low } else { 55 + low }
}
