// What rows share: the length by the field, what can be wrong with a header, the high dword of an address, a range of so many bytes.
ghost use Rattle.std.specs.Prelude.{◌≡◌, not, ◌&&◌, ◌||◌, ◌+◌, ◌<◌, length};
ghost use Rattle.rules.specs.Words.{field, allowed};
ghost use Rattle.rules.specs.Uses.{pair_address, canonical, sized};
ghost use Rattle.rules.specs.Addresses.{access_wrong};
ghost use Rattle.plain_shared.specs.Plain.{as_number, other_header, whole_header, groups_header};

use crate::wrong::Wrong;
use rules::Reason::{BitNotAllowed, PastTheWindow, WrongLength};
use rules::Windows;
use windows::anywhere;
use words::allowed;
use words::dwords::{address_of, canonical};

// "Total length is the field in bits 7:0 plus 2".
pub fn length_by_field(header: u32) -> usize
    ensures { result ≡ field header 7 0 + 2 }
{
    (header % 256) as usize + 2
}

// 8, 9 or 10 of a command whose header is not the table's, by the field that its row wants: the field is wrong, or the command goes past the
// window, or a bit of its header is not allowed.
pub fn other_header(rest: &[u32], field: u32) -> Result<(), Wrong>
    requires { (0 < length rest.now) × («field» < 256) }
    ensures { as_number result ≡ other_header rest.now «field» }
{
    if rest[0] % 256 != field {
        return Err(Wrong::at(WrongLength, 0));
    }
    if rest.len() < field as usize + 2 {
        return Err(Wrong::at(PastTheWindow, 0));
    }
    Err(Wrong::at(BitNotAllowed, 0))
}

// 8, 9, and 10 at the header, of a row with one length whose header has no free bits.
pub fn whole_header(rest: &[u32], header: u32) -> Result<(), Wrong>
    requires { 0 < length rest.now }
    ensures { as_number result ≡ whole_header rest.now header }
{
    if rest[0] != header {
        return other_header(rest, header % 256);
    }
    if rest.len() < length_by_field(header) {
        return Err(Wrong::at(PastTheWindow, 0));
    }
    Ok(())
}

// 8, 9, and 10 at the header, of a row of groups: "field 2n-1, n 1..64" with groups of 2 dwords, 64 at most.
pub fn groups_header(rest: &[u32], key: u32, size: u32, most: u32) -> Result<(), Wrong>
    requires { (0 < length rest.now) × (0 < size) }
    ensures { as_number result ≡ groups_header rest.now key size most }
{
    let header = rest[0];
    let field = header % 256;
    if (field + 1) % size != 0 {
        return Err(Wrong::at(WrongLength, 0));
    }
    if most < (field + 1) / size {
        return Err(Wrong::at(WrongLength, 0));
    }
    if rest.len() < length_by_field(header) {
        return Err(Wrong::at(PastTheWindow, 0));
    }
    if header - field != key {
        return Err(Wrong::at(BitNotAllowed, 0));
    }
    Ok(())
}

// 10 of a high dword: "high dwords of addresses not used .. are as before".
pub fn high_kept(used: bool, high: u32) -> bool
    ensures { result ≡ (used || allowed high 0x0000FFFF) }
{
    used || allowed(high, 0x0000_FFFF)
}

// 12 of a high dword: "the high dword of every address that is used must be canonical".
pub fn high_right(used: bool, high: u32) -> bool
    ensures { result ≡ not (used && not (canonical high)) }
{
    !used || canonical(high)
}

// The same where the address is mostly below 2^47: a high dword below 8000h keeps its mask and is canonical, so that, asked for first, it needs no other test.
#[tactic(auto, using(crate::proofs::LowAddresses::low_kept_anyway))]
pub fn low_or_kept(used: bool, high: u32) -> bool
    ensures { result ≡ (used || allowed high 0x0000FFFF) }
{
    high <= 0x7FFF || high_kept(used, high)
}

#[tactic(auto, using(crate::proofs::LowAddresses::low_right_anyway))]
pub fn low_or_right(used: bool, high: u32) -> bool
    ensures { result ≡ not (used && not (canonical high)) }
{
    high <= 0x7FFF || high_right(used, high)
}

// "size not 0: the range in one window".
pub fn sized_fits(w: Windows, low: u32, high: u32, size: u32) -> bool
    ensures { result ≡ not (access_wrong w (pair_address low high) (sized size)) }
{
    if size == 0 {
        return true;
    }
    anywhere(w, address_of(low, high), size as u64)
}
