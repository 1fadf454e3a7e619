// Rows 0 to 6, the commands of type 0, in the table's order: each row's rules in the order of their numbers, beside the words of document 01 and of
// the requests.
ghost use Rattle.std.proofs.Common.{rules};
ghost use Rattle.std.specs.Prelude.{◌≡◌, cond, false, [], ◌∷◌, ◌%◌, ◌≤◌, ◌<◌, ◌-◌, length, get_or};
ghost use Rattle.rules.specs.declared.Level.TheVariants.{First};
ghost use Rattle.rules.specs.declared.Reason.TheVariants.{BitNotAllowed, ValueBroken};
ghost use Rattle.rules.specs.Words.{bit, allowed};
ghost use Rattle.rules.specs.Formats.{known_register};
ghost use Rattle.rules.specs.Commands.{noop_row, end_row, start_row, store_row, store_register_row, load_register_row, row_of, set_registers_row};
ghost use Rattle.rules.specs.Masks.{bit_wrong};
ghost use Rattle.rules.specs.Step.{nested};
ghost use Rattle.plain_shared.specs.Plain.{as_number, first_coded, first_by, wrong_of, bare_of, other_header, register_of, coded, no_windows, clean_from, Groups, GroupAt};
ghost use Rattle.rules.specs.Values.{value_wrong};
ghost use Rattle.looks.specs.Looks.{content_of};

use formats::known_register;
use plain_shared::groups::{Group, groups_checked};
use plain_shared::heads::{groups_header, length_by_field, other_header, whole_header};
use plain_shared::wrong::Wrong;
use rules::Reason::{
    BitNotAllowed, NestedStart, PastTheWindow, RangeOutside, ValueBroken, WrongLength,
};
use rules::{Level, Reason, Windows};
use windows::anywhere;
use words::dwords::{address_of, canonical};
use words::{allowed, holds};

// 0: MI_NOOP.
pub fn noop(header: u32) -> Result<(), Wrong>
    ensures { as_number result ≡ bare_of noop_row (header ∷ []) }
{
    // 10: "00000000h + bits 21:0"
    if !allowed(header, 0x003F_FFFF) {
        return Err(Wrong::at(BitNotAllowed, 0));
    }
    Ok(())
}

// 1: MI_BATCH_BUFFER_END.
pub fn end(header: u32) -> Result<(), Wrong>
    requires { row_of header ≡ end_row }
    ensures { as_number result ≡ bare_of end_row (header ∷ []) }
{
    // 10: "05000000h"
    if header != 0x0500_0000 {
        return Err(Wrong::at(BitNotAllowed, 0));
    }
    Ok(())
}

// Whether a start would be the second inside the other.
fn is_nested(level: Level) -> bool
    ensures { result ≡ nested start_row level }
{
    match level {
        Level::First => false,
        Level::Second(_) => true,
    }
}

// 2: MI_BATCH_BUFFER_START.
pub fn start(w: Windows, level: Level, rest: &[u32]) -> Result<(), Wrong>
    requires { 0 < length rest.now }
    ensures { as_number result ≡ wrong_of w start_row rest.now level }
{
    let header = rest[0];
    // 8, 9
    if header % 256 != 1 {
        return Err(Wrong::at(WrongLength, 0));
    }
    if rest.len() < 3 {
        return Err(Wrong::at(PastTheWindow, 0));
    }
    // 10: "18800001h + bits 22, 8", "address FFFFFFFCh"
    if !allowed(header, 0x18C0_01FF) {
        return Err(Wrong::at(BitNotAllowed, 0));
    }
    if !allowed(rest[1], 0xFFFF_FFFC) {
        return Err(Wrong::at(BitNotAllowed, 1));
    }
    // 11: "batch start while in a second-level batch"
    if is_nested(level) {
        return Err(Wrong::at(NestedStart, 0));
    }
    // 12: "bit 8 set"
    if header / 0x100 % 2 != 1 {
        return Err(Wrong::at(ValueBroken, 0));
    }
    // 12: "the high dword of every address that is used must be canonical"
    if !canonical(rest[2]) {
        return Err(Wrong::at(ValueBroken, 2));
    }
    // 13: "row 2 target (4 bytes) in the batch window"
    if !holds(w.batch, address_of(rest[1], rest[2]), 4) {
        return Err(Wrong::at(RangeOutside, 1));
    }
    Ok(())
}

// 3: MI_LOAD_REGISTER_IMM.
pub fn set_registers(rest: &[u32]) -> Result<(), Wrong>
    requires { (0 < length rest.now) × (row_of (get_or rest.now 0 0) ≡ set_registers_row) }
    ensures { as_number result ≡ bare_of set_registers_row rest.now }
{
    // 8, 9, 10: "11000000h, field 2n-1, n 1..64"
    groups_header(rest, 0x1100_0000, 2, 64)?;
    let length = length_by_field(rest[0]);
    groups_checked(&Pair, &rest[..length])
}

// 10: "pairs: 007FFFFCh, free", of the pair at k.
fn pair_bit(d: &[u32], k: usize) -> Result<(), Wrong>
    requires { GroupAt 2 d.now k }
    ensures { as_number result ≡ first_coded BitNotAllowed (bit_wrong set_registers_row d.now) k 2 }
{
    if !allowed(d[k], 0x007F_FFFC) {
        return Err(Wrong::at(BitNotAllowed, k));
    }
    Ok(())
}

// 12: "register is 2400h, ..", of the pair at k.
fn pair_value(d: &[u32], k: usize) -> Result<(), Wrong>
    requires { GroupAt 2 d.now k }
    ensures { as_number result ≡ first_coded ValueBroken (value_wrong set_registers_row d.now) k 2 }
{
    if !known_register(d[k]) {
        return Err(Wrong::at(ValueBroken, k));
    }
    Ok(())
}

// A pair of row 3.
#[derive(Clone, Copy)]
struct Pair;

impl Group for Pair {
    ghost SIZE = { 2 };

    ghost of_row = { set_registers_row };

    ghost windows = { λ _. no_windows };

    ghost some = { Prim.search rules };

    const SIZE: usize = 2;

    fn good(&self, d: &[u32], k: usize) -> bool {
        pair_bit(d, k).is_ok() && pair_value(d, k).is_ok()
    }

    // 13 has nothing to say, since a pair has no address
    fn wrong(&self, reason: Reason, d: &[u32], k: usize) -> Result<(), Wrong> {
        match reason {
            BitNotAllowed => pair_bit(d, k),
            ValueBroken => pair_value(d, k),
            _ => Ok(()),
        }
    }
}

// The field of a store: "bit 21 and field 3 go together, as do clear and 2 (else 8)".
fn store_field(header: u32) -> u32
    ensures { result ≡ cond (bit header 21) 3 2 }
{
    if header / 0x20_0000 % 2 == 1 { 3 } else { 2 }
}

// 4: MI_STORE_DATA_IMM of four bytes: "10000002h".
pub fn store_four(w: Windows, rest: &[u32]) -> Result<(), Wrong>
    requires { (0 < length rest.now) × (get_or rest.now 0 0 ≡ 0x10000002) }
    ensures { as_number result ≡ wrong_of w store_row rest.now First }
{
    if rest.len() < 4 {
        return Err(Wrong::at(PastTheWindow, 0));
    }
    // 10: "address FFFFFFFCh, 1 or 2 free"
    if !allowed(rest[1], 0xFFFF_FFFC) {
        return Err(Wrong::at(BitNotAllowed, 1));
    }
    // 12: "the high dword of every address that is used must be canonical"
    if !canonical(rest[2]) {
        return Err(Wrong::at(ValueBroken, 2));
    }
    // 13: "rows 4 (4 or 8 bytes) .. in scratch"
    if !holds(w.scratch, address_of(rest[1], rest[2]), 4) {
        return Err(Wrong::at(RangeOutside, 1));
    }
    Ok(())
}

// 4: MI_STORE_DATA_IMM of eight bytes: "10200003h".
pub fn store_eight(w: Windows, rest: &[u32]) -> Result<(), Wrong>
    requires { (0 < length rest.now) × (get_or rest.now 0 0 ≡ 0x10200003) }
    ensures { as_number result ≡ wrong_of w store_row rest.now First }
{
    if rest.len() < 5 {
        return Err(Wrong::at(PastTheWindow, 0));
    }
    // 10: "address FFFFFFFCh, 1 or 2 free"; 12: "an eight-byte store address is a multiple of 8", and so keeps its mask
    if rest[1] % 8 != 0 {
        if !allowed(rest[1], 0xFFFF_FFFC) {
            return Err(Wrong::at(BitNotAllowed, 1));
        }
        return Err(Wrong::at(ValueBroken, 1));
    }
    // 12: "the high dword of every address that is used must be canonical"
    if !canonical(rest[2]) {
        return Err(Wrong::at(ValueBroken, 2));
    }
    // 13: "rows 4 (4 or 8 bytes) .. in scratch"
    if !holds(w.scratch, address_of(rest[1], rest[2]), 8) {
        return Err(Wrong::at(RangeOutside, 1));
    }
    Ok(())
}

// 4: MI_STORE_DATA_IMM with neither header: 8, 9 or 10, by the field that its bit 21 wants.
pub fn store_other(rest: &[u32]) -> Result<(), Wrong>
    requires { 0 < length rest.now }
    ensures { as_number result ≡ other_header rest.now (cond (bit (get_or rest.now 0 0) 21) 3 2) }
{
    other_header(rest, store_field(rest[0]))
}

// 5: MI_STORE_REGISTER_MEM.
pub fn store_register(w: Windows, rest: &[u32]) -> Result<(), Wrong>
    requires { (0 < length rest.now) × (row_of (get_or rest.now 0 0) ≡ store_register_row) }
    ensures { as_number result ≡ wrong_of w store_register_row rest.now First }
{
    // 8, 9, 10, 12: "12000002h"
    register_and_address(rest, 0x1200_0002)?;
    // 13: "5 (4) .. in scratch"
    if !holds(w.scratch, address_of(rest[2], rest[3]), 4) {
        return Err(Wrong::at(RangeOutside, 2));
    }
    Ok(())
}

// 6: MI_LOAD_REGISTER_MEM.
pub fn load_register(w: Windows, rest: &[u32]) -> Result<(), Wrong>
    requires { (0 < length rest.now) × (row_of (get_or rest.now 0 0) ≡ load_register_row) }
    ensures { as_number result ≡ wrong_of w load_register_row rest.now First }
{
    // 8, 9, 10, 12: "14800002h"
    register_and_address(rest, 0x1480_0002)?;
    // 13: "row 6 (4) in any window"
    if !anywhere(w, address_of(rest[2], rest[3]), 4) {
        return Err(Wrong::at(RangeOutside, 2));
    }
    Ok(())
}

// 10 of a register: one that is known keeps its mask, and needs no test.
#[tactic(auto, using(crate::proofs::Kept::known_kept))]
fn register_kept(known: bool, register: u32) -> bool
    requires { known ≡ known_register register }
    ensures { result ≡ allowed register 0x007FFFFC }
{
    known || allowed(register, 0x007F_FFFC)
}

// What rows 5 and 6 share: all but where the address may lie, "as row 5".
fn register_and_address(rest: &[u32], header: u32) -> Result<(), Wrong>
    requires { (0 < length rest.now) × (header % 256 ≡ 2) }
    ensures { as_number result ≡ register_of rest.now header }
{
    // 8, 9, 10
    whole_header(rest, header)?;
    // 10: "007FFFFCh, address FFFFFFFCh"
    let known = known_register(rest[1]);
    if !register_kept(known, rest[1]) {
        return Err(Wrong::at(BitNotAllowed, 1));
    }
    if !allowed(rest[2], 0xFFFF_FFFC) {
        return Err(Wrong::at(BitNotAllowed, 2));
    }
    // 12: "register is 2400h, ..", "the high dword of every address that is used must be canonical"
    if !known {
        return Err(Wrong::at(ValueBroken, 1));
    }
    if !canonical(rest[3]) {
        return Err(Wrong::at(ValueBroken, 3));
    }
    Ok(())
}
