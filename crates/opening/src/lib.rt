// What a capture file says of itself: its trailer of 40 bytes, its refusals (19, 20, 1 and 21), and its dwords.
#![tactic(auto)]

ghost use Rattle.std.specs.Prelude.{◌≡◌, ◌+◌, ◌*◌, ◌≤◌, length};
ghost use Rattle.rules.specs.File.{word, long_word, trailer_bytes, trailer_of, contents_of, file_limit, opened_of, dwords_from, filled};
ghost use Rattle.rules.specs.Windows.{counts_wrong};
ghost use Rattle.opening.specs.Offers.{parts, distance_off, room_short};

use rules::{Contents, Filled, Reason, Window};

const TRAILER_BYTES: usize = 40;

const LARGEST_FILE: usize = 32808;

const LARGEST_COUNT: u32 = 4096;

// The dword at a byte of the file, its lowest byte first.
fn word_at(file: &[u8], at: usize) -> u32
    requires { at + 4 ≤ length file.now }
    ensures { result ≡ word file.now at }
{
    u32::from_le_bytes([file[at], file[at + 1], file[at + 2], file[at + 3]])
}

fn long_word_at(file: &[u8], at: usize) -> u64
    requires { at + 8 ≤ length file.now }
    ensures { result ≡ long_word file.now at }
{
    let low = word_at(file, at) as u64;
    let high = word_at(file, at + 4) as u64;
    low + 0x100000000 * high
}

// The trailer, part by part.
#[derive(Drop)]
pub struct Trailer {
    pub batch_at: u64,
    pub state_at: u64,
    pub scratch_at: u64,
    pub scratch_bytes: u32,
    pub batch_count: u32,
    pub state_count: u32,
    pub distance: u32,
}

impl Trailer {
    // The file's last 40 bytes.
    #[tactic(auto, unfolding(rules::specs::File::trailer_of))]
    pub fn of(file: &[u8]) -> Trailer
        requires { trailer_bytes ≤ length file.now }
        ensures { parts result ≡ trailer_of file.now }
    {
        let from = file.len() - TRAILER_BYTES;
        Trailer {
            batch_at: long_word_at(file, from),
            state_at: long_word_at(file, from + 8),
            scratch_at: long_word_at(file, from + 16),
            scratch_bytes: word_at(file, from + 24),
            batch_count: word_at(file, from + 28),
            state_count: word_at(file, from + 32),
            distance: word_at(file, from + 36),
        }
    }

    // How long a file with these counts is. The sum is made in 64 bits, where it cannot wrap.
    fn file_bytes(&self) -> usize
        ensures { result ≡ trailer_bytes + 4 * (self.now.batch_count + self.now.state_count) }
    {
        TRAILER_BYTES + 4 * (self.batch_count as usize + self.state_count as usize)
    }

    // 20: the distance is not both the length of the file and what its counts come to.
    fn distance_wrong(&self, file_bytes: usize) -> bool
        ensures { result ≡ distance_off (parts self.now) file_bytes }
    {
        let told = self.distance as usize;
        told != file_bytes || told != self.file_bytes()
    }

    // 1, for counts.
    #[tactic(auto, unfolding(rules::specs::Windows::counts_wrong))]
    fn counts_wrong(&self) -> bool
        ensures { result ≡ counts_wrong file_limit self.now.batch_count self.now.state_count }
    {
        self.batch_count == 0
            || LARGEST_COUNT < self.batch_count
            || LARGEST_COUNT < self.state_count
    }

    // 21: a lent buffer is too short.
    fn buffer_short(&self, batch_room: usize, state_room: usize) -> bool
        ensures { result ≡ room_short (parts self.now) batch_room state_room }
    {
        batch_room < self.batch_count as usize || state_room < self.state_count as usize
    }

    fn contents(&self) -> Contents
        ensures { result ≡ contents_of (parts self.now) }
    {
        Contents {
            batch: Filled {
                at: self.batch_at,
                count: self.batch_count as usize,
            },
            state: Filled {
                at: self.state_at,
                count: self.state_count as usize,
            },
            scratch: Window {
                at: self.scratch_at,
                bytes: self.scratch_bytes as u64,
            },
        }
    }
}

// The file's refusals in order, or what it holds. Nothing is written here.
pub fn examine(file: &[u8], batch_room: usize, state_room: usize) -> Result<Contents, Reason>
    ensures { result ≡ opened_of file.now batch_room state_room }
{
    if !(TRAILER_BYTES..=LARGEST_FILE).contains(&file.len()) {
        return Err(Reason::FileSize);
    }
    let trailer = Trailer::of(file);
    if trailer.distance_wrong(file.len()) {
        return Err(Reason::FileDistance);
    }
    if trailer.counts_wrong() {
        return Err(Reason::WrongCounts);
    }
    if trailer.buffer_short(batch_room, state_room) {
        return Err(Reason::BufferShort);
    }
    Ok(trailer.contents())
}

// n dwords of the file, from a byte on, into the first n words of a buffer.
pub fn fill(file: &[u8], from: usize, n: usize, buffer: &mut [u32])
    requires { (from + 4 * n ≤ length file.now) × (n ≤ length buffer.old) }
    ensures { buffer.new ≡ filled (dwords_from file.now from n) buffer.old }
{
    for i in 0..n {
        buffer[i] = word_at(file, from + 4 * i);
    }
}
