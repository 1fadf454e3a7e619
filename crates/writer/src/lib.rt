// The writer of commands (request 4): a row, its header's free bits and the dwords after the header in, the whole command in a lent buffer out.
#![tactic(auto)]

ghost use Rattle.std.specs.Prelude.{◌≡◌, true, not, [], ◌∷◌, ◌+◌, ◌-◌, ◌≤◌, ◌<◌, length, get_or, ltb, Ok, Err};
ghost use Rattle.rules.specs.Words.{allowed};
ghost use Rattle.rules.specs.Refusals.{fault, batch_window, answer_with};
ghost use Rattle.rules.specs.Commands.{row_count, the_row, group_size};
ghost use Rattle.rules.specs.Masks.{bit_wrong};
ghost use Rattle.rules.specs.Writer.{draft, count_right, header_for, some_from, write_verdict, written_by, Written};
ghost use Rattle.rows.specs.Masks.{mask_table};

use commands::bits::bit_wrong;
use records::answers::{acceptance, refusal};
use rows::headers::{free_bits, key};
use rows::{group_size, length_of, length_right, mask_table};
use rules::names::ROWS;
use rules::{Answer, Fault, Reason};
use words::allowed;

// The most dwords that a command has: a header and 33 vertex buffers of four.
const LONGEST: usize = 133;

// Whether the row has a command with n dwords after its header: as many as a length field tells, of row 4 with bit 21, or none where there is no field.
#[tactic(auto, using(rules::proofs::Writing::many_counted))]
fn count_right(row: usize, free: u32, n: usize) -> bool
    requires { row < row_count }
    ensures { result ≡ count_right (the_row row).total (group_size row) free n }
{
    let bare = length_of(row, 0) == 1;
    if n == 0 {
        return bare;
    }
    if bare {
        return false;
    }
    if 256 < n {
        return false;
    }
    length_right(row, free / 0x20_0000 % 2 * 0x20_0000 + (n as u32 - 1))
}

// The header of a command with n dwords after it.
fn header_for(row: usize, free: u32, n: usize) -> u32
    requires { (row < row_count) × (count_right (the_row row).total (group_size row) free n ≡ true) × (allowed free (the_row row).free ≡ true) }
    ensures { result ≡ header_for row free n }
{
    key(row) + (free + n.saturating_sub(1) as u32)
}

// Puts a header and the dwords after it into a buffer that has room for them.
fn put(header: u32, dwords: &[u32], into: &mut [u32], first: usize)
    requires { first + (1 + length dwords.now) ≤ length into.old }
    ensures { into.new ≡ written_by (Ok tt) (header ∷ dwords.now) first into.old }
{
    into[first] = header;
    // (a) The archive for C asks nothing of its caller but `memcpy` and `memset`: `copy_from_slice` would ask for `memmove` too.
    for i in 0..dwords.len() {
        into[first + 1 + i] = dwords[i];
    }
}

// Whether the dwords behind the header have no bit that 10 refuses. The row's masks are lent.
fn bits_kept(row: usize, command: &[u32], masks: &[u32; 16]) -> bool
    requires { (row < row_count) × (group_size row ≡ 0 → length command.now ≤ 1) × (masks.now ≡ get_or mask_table row []) }
    ensures { result ≡ not (some_from (bit_wrong row command.now) 1 (length command.now - 1)) }
{
    let size = group_size(row);
    for k in 1..command.len() {
        if bit_wrong(row, command, k, 1 + (k - 1) % size, masks) {
            return false;
        }
    }
    true
}

// The same of dwords that do not stand behind their header yet.
fn dwords_kept(row: usize, header: u32, dwords: &[u32]) -> bool
    requires { (row < row_count) × (length dwords.now ≤ 132) × (group_size row ≡ 0 → length dwords.now ≡ 0) }
    ensures { result ≡ not (some_from (bit_wrong row (header ∷ dwords.now)) 1 (length dwords.now)) }
{
    let mut command = [0; LONGEST];
    put(header, dwords, &mut command, 0);
    let masks = mask_table();
    let length = 1 + dwords.len();
    bits_kept(row, &command[..length], &masks[row])
}

// Whether so many dwords from the first free one on go past the buffer's end.
fn room_short(room: usize, first: usize, dwords: usize) -> bool
    ensures { result ≡ ltb room (first + (1 + dwords)) }
{
    room.saturating_sub(first) <= dwords
}

// The refusals in their order, each with the place 0,0. Nothing is written here.
fn judged(row: usize, free: u32, dwords: &[u32], room: usize, first: usize) -> Result<(), Fault>
    ensures { result ≡ write_verdict (draft row free dwords.now room first) }
{
    // 7, 8
    if ROWS <= row {
        return Err(Fault::in_batch(Reason::UnknownHeader, 0));
    }
    if !count_right(row, free, dwords.len()) {
        return Err(Fault::in_batch(Reason::WrongLength, 0));
    }
    // 10: of the header, and of the dwords after it
    if !allowed(free, free_bits(row)) {
        return Err(Fault::in_batch(Reason::BitNotAllowed, 0));
    }
    if !dwords_kept(row, header_for(row, free, dwords.len()), dwords) {
        return Err(Fault::in_batch(Reason::BitNotAllowed, 0));
    }
    // 22
    if room_short(room, first, dwords.len()) {
        return Err(Fault::in_batch(Reason::NoRoom, 0));
    }
    Ok(())
}

// Writes a command at the first free dword of a lent buffer, or refuses it and leaves the buffer as it was.
pub fn write(row: u32, free: u32, dwords: &[u32], batch: &mut [u32], first: usize) -> Answer
    ensures { Written row free dwords.now first batch.old result batch.new }
{
    let at = row as usize;
    match judged(at, free, dwords, batch.len(), first) {
        Err(fault) => refusal(fault, 0),
        Ok(()) => {
            put(header_for(at, free, dwords.len()), dwords, batch, first);
            acceptance(1)
        }
    }
}
