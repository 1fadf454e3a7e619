// Rows 7 to 9 and 13 to 17, the commands of type 3 but for rows 10 to 12, in the table's order: each row's rules in the order of their numbers,
// beside the words of document 01 and of the requests.
ghost use Rattle.std.specs.Prelude.{◌≡◌, true, not, cond, ◌&&◌, [], ◌∷◌, ◌+◌, ◌%◌, ◌≤◌, ◌<◌, length, get_or};
ghost use Rattle.rules.specs.declared.Level.TheVariants.{First};
ghost use Rattle.rules.specs.declared.Reason.TheVariants.{BitNotAllowed, ValueBroken};
ghost use Rattle.rules.specs.Words.{bit};
ghost use Rattle.rules.specs.Refusals.{batch_window, refuse_found};
ghost use Rattle.rules.specs.Commands.{any_dword, pipe_row, select_row, base_row, topology_row, viewport_row, colour_row, primitive_row, blend_row, row_of};
ghost use Rattle.rules.specs.Uses.{post_sync, canonical};
ghost use Rattle.rules.specs.Values.{value_wrong};
ghost use Rattle.plain_shared.specs.Plain.{as_number, coded, first_coded, wrong_of, bare_of};
ghost use Rattle.plain_3d.specs.Usual.{all_keep, usual_base};
ghost use Rattle.plain_3d.specs.Stray.{stray_from};
ghost use Rattle.plain_3d.specs.Pointer.{pointer_of};
ghost use Rattle.rules.specs.Masks.{bit_wrong};

use formats::known_topology;
use plain_shared::heads::{high_right, other_header, whole_header};
use plain_shared::wrong::Wrong;
use rules::Reason::{BitNotAllowed, PastTheWindow, RangeOutside, ValueBroken};
use rules::Windows;
use words::dwords::{address_of, canonical};
use words::{allowed, holds};

// 7: PIPE_CONTROL.
pub fn pipe(w: Windows, rest: &[u32]) -> Result<(), Wrong>
    requires { (0 < length rest.now) × (row_of (get_or rest.now 0 0) ≡ pipe_row) }
    ensures { as_number result ≡ wrong_of w pipe_row rest.now First }
{
    // 8, 9, 10: "7A000004h"
    whole_header(rest, 0x7A00_0004)?;
    // 10: "0010FCBFh, address FFFFFFFCh, 2 free"
    if !allowed(rest[1], 0x0010_FCBF) {
        return Err(Wrong::at(BitNotAllowed, 1));
    }
    if !allowed(rest[2], 0xFFFF_FFFC) {
        return Err(Wrong::at(BitNotAllowed, 2));
    }
    // "post-sync is dword 1 bits 15:14": without it the address is not used
    if rest[1] / 0x4000 % 4 == 0 {
        if !allowed(rest[3], 0x0000_FFFF) {
            return Err(Wrong::at(BitNotAllowed, 3));
        }
        return pipe_unsynced(rest);
    }
    // 12: "else the address is a multiple of 8", "the high dword of every address that is used must be canonical"
    if rest[2] % 8 != 0 {
        return Err(Wrong::at(ValueBroken, 2));
    }
    if !canonical(rest[3]) {
        return Err(Wrong::at(ValueBroken, 3));
    }
    // 13: "7 with post-sync (8) in scratch"
    if !holds(w.scratch, address_of(rest[2], rest[3]), 8) {
        return Err(Wrong::at(RangeOutside, 2));
    }
    Ok(())
}

// 12: "If 0, dwords 2 to 5 are zero".
fn pipe_unsynced(rest: &[u32]) -> Result<(), Wrong>
    requires { (6 ≤ length rest.now) × (post_sync rest.now ≡ 0) }
    ensures { as_number result ≡ first_coded ValueBroken (value_wrong pipe_row rest.now) 0 6 }
{
    if rest[2] != 0 {
        return Err(Wrong::at(ValueBroken, 2));
    }
    if rest[3] != 0 {
        return Err(Wrong::at(ValueBroken, 3));
    }
    if rest[4] != 0 {
        return Err(Wrong::at(ValueBroken, 4));
    }
    if rest[5] != 0 {
        return Err(Wrong::at(ValueBroken, 5));
    }
    Ok(())
}

// 8: PIPELINE_SELECT.
pub fn select(header: u32) -> Result<(), Wrong>
    requires { row_of header ≡ select_row }
    ensures { as_number result ≡ bare_of select_row (header ∷ []) }
{
    // 10: "69040000h"
    if header != 0x6904_0000 {
        return Err(Wrong::at(BitNotAllowed, 0));
    }
    Ok(())
}

// 9: STATE_BASE_ADDRESS.
pub fn base(rest: &[u32]) -> Result<(), Wrong>
    requires { (0 < length rest.now) × (row_of (get_or rest.now 0 0) ≡ base_row) }
    ensures { as_number result ≡ bare_of base_row rest.now }
{
    // 8, 9, 10: "6101000Eh"
    whole_header(rest, 0x6101_000E)?;
    if base_usual(rest) {
        return Ok(());
    }
    base_bits(rest)?;
    base_values(rest)
}

// Whether the dwords are as those of most commands are: each keeps its mask, and the high dwords are below 8000h, where 12 has nothing to say of them. So these
// need no test each; the others are asked one by one.
fn base_usual(rest: &[u32]) -> bool
    requires { 16 ≤ length rest.now }
    ensures { result ≡ usual_base rest.now }
{
    if !(allowed(rest[1], 0xFFFF_F7F1)
        & four_keep(rest[4], rest[6], rest[8], rest[10], 0xFFFF_F7F1))
    {
        return false;
    }
    if !(allowed(rest[2], 0x0000_7FFF)
        & four_keep(rest[5], rest[7], rest[9], rest[11], 0x0000_7FFF))
    {
        return false;
    }
    if !allowed(rest[3], 0x007F_0000) {
        return false;
    }
    four_keep(rest[12], rest[13], rest[14], rest[15], 0xFFFF_F001)
}

// Whether four words keep one mask. Joined by `&`, since none of the tests can fail: the compiler makes one of them.
fn four_keep(a: u32, b: u32, c: u32, d: u32, mask: u32) -> bool
    ensures { result ≡ all_keep (a ∷ b ∷ c ∷ d ∷ []) mask }
{
    allowed(a, mask) & (allowed(b, mask) & (allowed(c, mask) & allowed(d, mask)))
}

// 10: "dwords 1, 4, 6, 8, 10 allow FFFFF7F1h; 2, 5, 7, 9, 11 allow 0000FFFFh", where their base is not used; "3 allows 007F0000h; 12 to 15 allow
// FFFFF001h".
fn base_bits(rest: &[u32]) -> Result<(), Wrong>
    requires { (16 ≤ length rest.now) × (get_or rest.now 0 0 ≡ 0x6101000E) }
    ensures { as_number result ≡ first_coded BitNotAllowed (bit_wrong base_row rest.now) 0 16 }
{
    four_bits(
        rest,
        0,
        0x6101_000E,
        0xFFFF_F7F1,
        high_mask(rest[1]),
        0x007F_0000,
    )?;
    four_bits(
        rest,
        4,
        0xFFFF_F7F1,
        high_mask(rest[4]),
        0xFFFF_F7F1,
        high_mask(rest[6]),
    )?;
    four_bits(
        rest,
        8,
        0xFFFF_F7F1,
        high_mask(rest[8]),
        0xFFFF_F7F1,
        high_mask(rest[10]),
    )?;
    four_bits(rest, 12, 0xFFFF_F001, 0xFFFF_F001, 0xFFFF_F001, 0xFFFF_F001)
}

// The bits of a base's high dword, by its low dword: "where their modify bit is set" 12 looks at it.
fn high_mask(low: u32) -> u32
    ensures { result ≡ cond (bit low 0) any_dword 0x0000FFFF }
{
    if low % 2 == 1 {
        0xFFFF_FFFF
    } else {
        0x0000_FFFF
    }
}

// 12: "The base addresses in STATE_BASE_ADDRESS are included where their modify bit is set".
fn base_values(rest: &[u32]) -> Result<(), Wrong>
    requires { 16 ≤ length rest.now }
    ensures { as_number result ≡ first_coded ValueBroken (value_wrong base_row rest.now) 0 16 }
{
    if !base_right(rest[1], rest[2]) {
        return Err(Wrong::at(ValueBroken, 2));
    }
    if !base_right(rest[4], rest[5]) {
        return Err(Wrong::at(ValueBroken, 5));
    }
    if !base_right(rest[6], rest[7]) {
        return Err(Wrong::at(ValueBroken, 7));
    }
    if !base_right(rest[8], rest[9]) {
        return Err(Wrong::at(ValueBroken, 9));
    }
    if !base_right(rest[10], rest[11]) {
        return Err(Wrong::at(ValueBroken, 11));
    }
    Ok(())
}

fn base_right(low: u32, high: u32) -> bool
    ensures { result ≡ not (bit low 0 && not (canonical high)) }
{
    high_right(low % 2 == 1, high)
}

// The first of the four dwords from k on with a bit that its mask does not allow.
fn four_bits(d: &[u32], k: usize, a: u32, b: u32, m: u32, n: u32) -> Result<(), Wrong>
    requires { k + 4 ≤ length d.now }
    ensures { as_number result ≡ coded (refuse_found BitNotAllowed batch_window 0 (stray_from d.now k (a ∷ b ∷ m ∷ n ∷ []))) }
{
    if !allowed(d[k], a) {
        return Err(Wrong::at(BitNotAllowed, k));
    }
    if !allowed(d[k + 1], b) {
        return Err(Wrong::at(BitNotAllowed, k + 1));
    }
    if !allowed(d[k + 2], m) {
        return Err(Wrong::at(BitNotAllowed, k + 2));
    }
    if !allowed(d[k + 3], n) {
        return Err(Wrong::at(BitNotAllowed, k + 3));
    }
    Ok(())
}

// 13: 3DSTATE_VF_TOPOLOGY.
pub fn topology(rest: &[u32]) -> Result<(), Wrong>
    requires { (0 < length rest.now) × (row_of (get_or rest.now 0 0) ≡ topology_row) }
    ensures { as_number result ≡ bare_of topology_row rest.now }
{
    // 8, 9, 10: "784B0000h"
    whole_header(rest, 0x784B_0000)?;
    // 10: "3Fh"
    if !allowed(rest[1], 0x0000_003F) {
        return Err(Wrong::at(BitNotAllowed, 1));
    }
    // 12: "01h..14h, 16h, 20h..3Fh"
    if !known_topology(rest[1]) {
        return Err(Wrong::at(ValueBroken, 1));
    }
    Ok(())
}

// 14: 3DSTATE_VIEWPORT_STATE_POINTERS_CC.
pub fn viewport(rest: &[u32]) -> Result<(), Wrong>
    requires { (0 < length rest.now) × (row_of (get_or rest.now 0 0) ≡ viewport_row) }
    ensures { as_number result ≡ bare_of viewport_row rest.now }
{
    // 8, 9, 10: "78230000h", "FFFFFFE0h"
    pointer(rest, 0x7823_0000, 0xFFFF_FFE0)
}

// 15: 3DSTATE_CC_STATE_POINTERS.
pub fn colour(rest: &[u32]) -> Result<(), Wrong>
    requires { (0 < length rest.now) × (row_of (get_or rest.now 0 0) ≡ colour_row) }
    ensures { as_number result ≡ bare_of colour_row rest.now }
{
    // 8, 9, 10: "780E0000h", "FFFFFFC1h"
    pointer(rest, 0x780E_0000, 0xFFFF_FFC1)
}

// A row of a header and one dword, which has to keep a mask: 14, 15 and 17.
fn pointer(rest: &[u32], header: u32, mask: u32) -> Result<(), Wrong>
    requires { (0 < length rest.now) × (header % 256 ≡ 0) }
    ensures { as_number result ≡ pointer_of rest.now header mask }
{
    whole_header(rest, header)?;
    if !allowed(rest[1], mask) {
        return Err(Wrong::at(BitNotAllowed, 1));
    }
    Ok(())
}

// 16: 3DPRIMITIVE.
pub fn primitive(rest: &[u32]) -> Result<(), Wrong>
    requires { (0 < length rest.now) × (row_of (get_or rest.now 0 0) ≡ primitive_row) }
    ensures { as_number result ≡ bare_of primitive_row rest.now }
{
    let header = rest[0];
    // 8, 9, 10: "7B000005h + bits 10:8", which are free
    if header - header / 0x100 % 8 * 0x100 != 0x7B00_0005 {
        return other_header(rest, 5);
    }
    if rest.len() < 7 {
        return Err(Wrong::at(PastTheWindow, 0));
    }
    // 10: "33Fh, 5 free"
    if !allowed(rest[1], 0x0000_033F) {
        return Err(Wrong::at(BitNotAllowed, 1));
    }
    // 12: "with bit 9, .."
    if rest[1] / 0x200 % 2 == 1 {
        return primitive_by_end(header, rest);
    }
    Ok(())
}

// 12: "dword 1 bit 9 not with header bit 10 (place dword 1); with bit 9, dword 1 bit 8 is 0 and dwords 3, 5, 6 are 0".
fn primitive_by_end(header: u32, rest: &[u32]) -> Result<(), Wrong>
    requires { (7 ≤ length rest.now) × (header ≡ get_or rest.now 0 0) × (bit (get_or rest.now 1 0) 9 ≡ true) }
    ensures { as_number result ≡ first_coded ValueBroken (value_wrong primitive_row rest.now) 0 7 }
{
    if header / 0x400 % 2 == 1 {
        return Err(Wrong::at(ValueBroken, 1));
    }
    if rest[1] / 0x100 % 2 == 1 {
        return Err(Wrong::at(ValueBroken, 1));
    }
    if rest[3] != 0 {
        return Err(Wrong::at(ValueBroken, 3));
    }
    if rest[5] != 0 {
        return Err(Wrong::at(ValueBroken, 5));
    }
    if rest[6] != 0 {
        return Err(Wrong::at(ValueBroken, 6));
    }
    Ok(())
}

// 17: 3DSTATE_BLEND_STATE_POINTERS.
pub fn blend(rest: &[u32]) -> Result<(), Wrong>
    requires { (0 < length rest.now) × (row_of (get_or rest.now 0 0) ≡ blend_row) }
    ensures { as_number result ≡ bare_of blend_row rest.now }
{
    // 8, 9, 10: "78240000h", "FFFFFFC1h"
    pointer(rest, 0x7824_0000, 0xFFFF_FFC1)
}
