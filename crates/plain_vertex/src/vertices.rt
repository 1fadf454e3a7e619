// Rows 10 to 12, buffers of vertices, their elements and the buffer of indices, in the table's order: each row's rules in the order of their numbers,
// beside the words of document 01 and of the requests.
ghost use Rattle.std.proofs.Common.{rules};
ghost use Rattle.std.specs.Prelude.{◌≡◌, true, false, cond, not, ◌&&◌, ◌+◌, ◌<◌, ◌-◌, length, get_or};
ghost use Rattle.rules.specs.declared.Level.TheVariants.{First};
ghost use Rattle.rules.specs.declared.Reason.TheVariants.{BitNotAllowed, ValueBroken, RangeOutside};
ghost use Rattle.rules.specs.Words.{allowed};
ghost use Rattle.rules.specs.Commands.{index_buffer_row, row_of, vertex_buffers_row, vertex_elements_row};
ghost use Rattle.rules.specs.Uses.{canonical, used_high_of};
ghost use Rattle.rules.specs.Values.{value_wrong, components_wrong};
ghost use Rattle.plain_shared.specs.Plain.{as_number, coded, first_coded, first_by, wrong_of, bare_of, no_windows, clean_from, Groups, GroupAt};
ghost use Rattle.rules.specs.Addresses.{range_wrong};
ghost use Rattle.rules.specs.Masks.{bit_wrong};
ghost use Rattle.looks.specs.Looks.{content_of};

use crate::codes::known_format;
use plain_shared::groups::{Group, groups_checked};
use plain_shared::heads::{
    groups_header, high_kept, high_right, length_by_field, low_or_kept, low_or_right, sized_fits,
    whole_header,
};
use plain_shared::wrong::Wrong;
use rules::Reason::{BitNotAllowed, RangeOutside, ValueBroken};
use rules::{Reason, Windows};
use words::allowed;
use words::dwords::canonical;

// 10: 3DSTATE_VERTEX_BUFFERS.
pub fn vertex_buffers(w: Windows, rest: &[u32]) -> Result<(), Wrong>
    requires { (0 < length rest.now) × (row_of (get_or rest.now 0 0) ≡ vertex_buffers_row) }
    ensures { as_number result ≡ wrong_of w vertex_buffers_row rest.now First }
{
    // 8, 9, 10: "78080000h, field 4n-1, n 1..33"
    groups_header(rest, 0x7808_0000, 4, 33)?;
    let length = length_by_field(rest[0]);
    groups_checked(&Buffer { w }, &rest[..length])
}

// "bit 13 clear, bit 14 set and size not 0": the address of the buffer at k is used.
fn buffer_used(d: &[u32], k: usize) -> bool
    requires { GroupAt 4 d.now k }
    ensures { result ≡ used_high_of vertex_buffers_row d.now (k + 2) 3 }
{
    if d[k] / 0x2000 % 4 != 2 {
        return false;
    }
    d[k + 3] != 0
}

// 10: "n of FC7F6FFFh, address free, free", of the buffer at k.
fn buffer_bit(d: &[u32], k: usize) -> Result<(), Wrong>
    requires { GroupAt 4 d.now k }
    ensures { as_number result ≡ first_coded BitNotAllowed (bit_wrong vertex_buffers_row d.now) k 4 }
{
    if !allowed(d[k], 0xFC7F_6FFF) {
        return Err(Wrong::at(BitNotAllowed, k));
    }
    if !high_kept(buffer_used(d, k), d[k + 2]) {
        return Err(Wrong::at(BitNotAllowed, k + 2));
    }
    Ok(())
}

// 12: "index (31:26) at most 32, pitch (11:0) at most 2,048", and the high dword of an address that is used.
fn buffer_value(d: &[u32], k: usize) -> Result<(), Wrong>
    requires { GroupAt 4 d.now k }
    ensures { as_number result ≡ first_coded ValueBroken (value_wrong vertex_buffers_row d.now) k 4 }
{
    if 32 < d[k] / 0x400_0000 {
        return Err(Wrong::at(ValueBroken, k));
    }
    if 2048 < d[k] % 0x1000 {
        return Err(Wrong::at(ValueBroken, k));
    }
    if !high_right(buffer_used(d, k), d[k + 2]) {
        return Err(Wrong::at(ValueBroken, k + 2));
    }
    Ok(())
}

// 13: "Row 10 with bit 13 clear, bit 14 set and size not 0: the range in one window".
fn buffer_fits(w: Windows, d: &[u32], k: usize) -> bool
    requires { GroupAt 4 d.now k }
    ensures { result ≡ not (range_wrong w vertex_buffers_row d.now (k + 1)) }
{
    if d[k] / 0x2000 % 4 != 2 {
        return true;
    }
    sized_fits(w, d[k + 1], d[k + 2], d[k + 3])
}

// 13 of the buffer at k, at the low half of its address.
fn buffer_range(w: Windows, d: &[u32], k: usize) -> Result<(), Wrong>
    requires { GroupAt 4 d.now k }
    ensures { as_number result ≡ first_coded RangeOutside (range_wrong w vertex_buffers_row d.now) k 4 }
{
    if !buffer_fits(w, d, k) {
        return Err(Wrong::at(RangeOutside, k + 1));
    }
    Ok(())
}

// Whether nothing is wrong with the buffer at k: its flags, and its address by whether it is used.
fn buffer_good(w: Windows, d: &[u32], k: usize) -> bool
    requires { GroupAt 4 d.now k }
    ensures { result ≡ clean_from w vertex_buffers_row d.now k 4 }
{
    if !allowed(d[k], 0xFC7F_6FFF) {
        return false;
    }
    if 32 < d[k] / 0x400_0000 {
        return false;
    }
    if 2048 < d[k] % 0x1000 {
        return false;
    }
    // a high dword below 8000h keeps its mask and is canonical
    if 0x7FFF < d[k + 2] {
        return address_good(w, d, k);
    }
    buffer_fits(w, d, k)
}

// Whether nothing is wrong with the address of the buffer at k: by whether it is used.
fn address_good(w: Windows, d: &[u32], k: usize) -> bool
    requires { GroupAt 4 d.now k }
    ensures { result ≡ cond (used_high_of vertex_buffers_row d.now (k + 2) 3)
        (canonical (get_or d.now (k + 2) 0) && not (range_wrong w vertex_buffers_row d.now (k + 1)))
        (allowed (get_or d.now (k + 2) 0) 0x0000FFFF) }
{
    if !buffer_used(d, k) {
        return allowed(d[k + 2], 0x0000_FFFF);
    }
    if !canonical(d[k + 2]) {
        return false;
    }
    buffer_fits(w, d, k)
}

// A buffer of row 10.
#[derive(Clone, Copy)]
struct Buffer {
    w: Windows,
}

impl Group for Buffer {
    ghost SIZE = { 4 };

    ghost of_row = { vertex_buffers_row };

    ghost windows = { λ b. b.w };

    ghost some = { Prim.search rules };

    const SIZE: usize = 4;

    fn good(&self, d: &[u32], k: usize) -> bool {
        buffer_good(self.w, d, k)
    }

    fn wrong(&self, reason: Reason, d: &[u32], k: usize) -> Result<(), Wrong> {
        match reason {
            BitNotAllowed => buffer_bit(d, k),
            ValueBroken => buffer_value(d, k),
            _ => buffer_range(self.w, d, k),
        }
    }
}

// 11: 3DSTATE_VERTEX_ELEMENTS.
pub fn vertex_elements(rest: &[u32]) -> Result<(), Wrong>
    requires { (0 < length rest.now) × (row_of (get_or rest.now 0 0) ≡ vertex_elements_row) }
    ensures { as_number result ≡ bare_of vertex_elements_row rest.now }
{
    // 8, 9, 10: "78090000h, field 2n-1, n 1..34"
    groups_header(rest, 0x7809_0000, 2, 34)?;
    let length = length_by_field(rest[0]);
    groups_checked(&Element, &rest[..length])
}

// 10: "n of FFFF8FFFh, 77770000h", of the element at k.
fn element_bit(d: &[u32], k: usize) -> Result<(), Wrong>
    requires { GroupAt 2 d.now k }
    ensures { as_number result ≡ first_coded BitNotAllowed (bit_wrong vertex_elements_row d.now) k 2 }
{
    if !allowed(d[k], 0xFFFF_8FFF) {
        return Err(Wrong::at(BitNotAllowed, k));
    }
    if !allowed(d[k + 1], 0x7777_0000) {
        return Err(Wrong::at(BitNotAllowed, k + 1));
    }
    Ok(())
}

// "component controls, in bits 30:28, 26:24, 22:20, 18:16, each at most 4, component 0 not 0, and after a 0 only 0", of a word that keeps its mask:
// above each control a bit is clear, which 3 sets in one above 4, and 7 in one that is not 0.
fn controls_good(word: u32) -> bool
    requires { allowed word 0x77770000 ≡ true }
    ensures { result ≡ not (components_wrong word) }
{
    let over = word + 0x3333_0000;
    let used = word + 0x7777_0000;
    // four that are not 0, and none above 4
    if (over ^ used) & 0x8888_0000 == 0x8888_0000 {
        return true;
    }
    if over & 0x8888_0000 != 0 {
        return false;
    }
    // fewer: the first, and each other only behind one that is used
    let some = used & 0x8888_0000;
    0x8000_0000 <= some && allowed(some % 0x8000_0000, some / 16)
}

// 12 of the element at k: "index at most 32; format (24:16) with an entry above 0 in SURFACE_FORMAT", and the controls.
fn element_value(d: &[u32], k: usize) -> Result<(), Wrong>
    requires { (GroupAt 2 d.now k) × (allowed (get_or d.now (k + 1) 0) 0x77770000 ≡ true) }
    ensures { as_number result ≡ first_coded ValueBroken (value_wrong vertex_elements_row d.now) k 2 }
{
    let word = d[k];
    if 32 < word / 0x400_0000 {
        return Err(Wrong::at(ValueBroken, k));
    }
    if !known_format(word / 0x1_0000 % 0x200) {
        return Err(Wrong::at(ValueBroken, k));
    }
    if !controls_good(d[k + 1]) {
        return Err(Wrong::at(ValueBroken, k + 1));
    }
    Ok(())
}

// An element of row 11.
#[derive(Clone, Copy)]
struct Element;

impl Group for Element {
    ghost SIZE = { 2 };

    ghost of_row = { vertex_elements_row };

    ghost windows = { λ _. no_windows };

    ghost some = { Prim.search rules };

    const SIZE: usize = 2;

    fn good(&self, d: &[u32], k: usize) -> bool {
        element_bit(d, k).is_ok() && element_value(d, k).is_ok()
    }

    // 13 has nothing to say, since an element has no address
    fn wrong(&self, reason: Reason, d: &[u32], k: usize) -> Result<(), Wrong> {
        match reason {
            BitNotAllowed => element_bit(d, k),
            ValueBroken => element_value(d, k),
            _ => Ok(()),
        }
    }
}

// 12: 3DSTATE_INDEX_BUFFER.
pub fn index_buffer(w: Windows, rest: &[u32]) -> Result<(), Wrong>
    requires { (0 < length rest.now) × (row_of (get_or rest.now 0 0) ≡ index_buffer_row) }
    ensures { as_number result ≡ wrong_of w index_buffer_row rest.now First }
{
    // 8, 9, 10: "780A0003h"
    whole_header(rest, 0x780A_0003)?;
    // "with size not 0": the address is used
    let used = rest[4] != 0;
    // 10: "37Fh, address free, free"
    if !allowed(rest[1], 0x0000_037F) {
        return Err(Wrong::at(BitNotAllowed, 1));
    }
    if !low_or_kept(used, rest[3]) {
        return Err(Wrong::at(BitNotAllowed, 3));
    }
    // 12: "format (9:8) not 3", and the high dword of an address that is used
    if rest[1] / 0x100 % 4 == 3 {
        return Err(Wrong::at(ValueBroken, 1));
    }
    if !low_or_right(used, rest[3]) {
        return Err(Wrong::at(ValueBroken, 3));
    }
    // 13: "row 12 likewise with size not 0"
    if !sized_fits(w, rest[2], rest[3], rest[4]) {
        return Err(Wrong::at(RangeOutside, 2));
    }
    Ok(())
}
