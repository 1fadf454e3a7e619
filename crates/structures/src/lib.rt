// Reading a state structure: a depth range, a colour state, a blend state, or why there is none.
#![tactic(auto)]

ghost use Rattle.std.specs.Prelude.{◌≡◌, ◌+◌, ◌^◌, ◌≤◌, ◌<◌, Some};
ghost use Rattle.rules.specs.Words.{first_of, in_group};
ghost use Rattle.rules.specs.Refusals.{fault, first_fault};
ghost use Rattle.structures.specs.Table.{outside};
ghost use Rattle.rules.specs.Structures.{layout_of, structure_bit_wrong};
ghost use Rattle.rules.specs.Structures.{held_window, held_from, structure_checks, StructureRead};

use rules::{Fault, Held, Kind, Reading, Reason};
use state_values::{first_value, values};
use words::dwords::dword;

// The most dwords that a group has, of those that follow a structure's leading dword.
const GROUP: usize = 2;

// The table of allowed bits: a structure's number by a dword's number in it, that of the leading dword first, then those of the group;
// past a group's last dword nothing is allowed.
const STRUCTURE_MASKS: [[u32; GROUP + 1]; 3] = [
    // CC_VIEWPORT
    [0xFFFF_FFFF, 0xFFFF_FFFF, 0x0000_0000],
    // COLOR_CALC_STATE
    [0xFFFF_8001, 0xFFFF_FFFF, 0x0000_0000],
    // BLEND_STATE
    [0xFFF8_0000, 0xFFFF_FFEF, 0xF800_001F],
];

// How many dwords a structure has. The kinds are asked one after the other, here and in `first_bit`: by a `match` the compiler makes three ways of it,
// and a colour state takes more.
#[tactic(auto, unfolding(rules::specs::Structures::layout_of))]
fn dwords_of(kind: Kind) -> usize
    ensures { result ≡ (layout_of kind).dwords }
{
    if kind == Kind::ColourCalc {
        return 6;
    }
    if kind == Kind::Blend { 17 } else { 2 }
}

// Which of a structure's masks is that of its dword k, by how many dwords its group has.
#[tactic(auto, unfolding(rules::specs::Words::in_group))]
fn in_group(size: usize, k: usize) -> usize
    requires { (0 < size) × (size ≤ 2) }
    ensures { (result ≡ in_group size k) × (result < 3) }
{
    if k == 0 {
        return 0;
    }
    1 + (k - 1) % size
}

// The first of n dwords with a bit that these masks do not allow, where one dword leads and groups of this size follow.
fn first_outside(masks: &[u32; GROUP + 1], size: usize, d: &[u32], n: usize) -> Option<usize>
    requires { (0 < size) × (size ≤ 2) }
    ensures { result ≡ first_of (outside masks.now size d.now) n }
{
    for k in 0..n {
        if !words::allowed(dword(d, k), masks[in_group(size, k)]) {
            return Some(k);
        }
    }
    None
}

// The first dword with a bit that is not allowed. Each structure has its own call, so that, compiled, what is free is not looked at.
fn first_bit(kind: Kind, d: &[u32]) -> Option<usize>
    ensures { result ≡ first_of (structure_bit_wrong kind d.now) (layout_of kind).dwords }
{
    let masks = STRUCTURE_MASKS;
    if kind == Kind::Blend {
        return first_outside(&masks[2], 2, d, dwords_of(Kind::Blend));
    }
    if kind == Kind::ColourCalc {
        return first_outside(&masks[1], 1, d, dwords_of(Kind::ColourCalc));
    }
    first_outside(&masks[0], 1, d, dwords_of(Kind::Viewport))
}

#[tactic(auto, unfolding(rules::specs::Structures::held_window))]
fn window_of(held: Held) -> usize
    ensures { result ≡ held_window (Some held) }
{
    match held {
        Held::InBatch(_) => 0,
        Held::InState(_) => 1,
    }
}

#[tactic(auto, unfolding(rules::specs::Structures::held_from))]
fn start_of(held: Held) -> usize
    ensures { result ≡ held_from (Some held) }
{
    match held {
        Held::InBatch(from) | Held::InState(from) => from,
    }
}

// What is wrong with dword k of a structure, at its place in the window that holds it.
fn fault_at(reason: Reason, held: Held, k: usize) -> Fault
    requires { held_from (Some held) + k < 2 ^ 64 }
    ensures { result ≡ fault reason (held_window (Some held)) (held_from (Some held) + k) }
{
    Fault {
        reason,
        window: window_of(held),
        index: start_of(held) + k,
    }
}

// Numbers 15 to 17, in that order.
fn judged(kind: Kind, held: Option<Held>, d: &[u32], pointer: usize) -> Result<(), Fault>
    requires { held_from held + (layout_of kind).dwords < 2 ^ 64 }
    ensures { result ≡ first_fault structure_checks (record { kind = kind; held = held; dwords = d.now; pointer = pointer }) }
{
    let Some(held) = held else {
        return Err(Fault::in_batch(Reason::StructureNowhere, pointer));
    };
    if let Some(k) = first_bit(kind, d) {
        return Err(fault_at(Reason::StructureBit, held, k));
    }
    if let Some(k) = first_value(kind, d) {
        return Err(fault_at(Reason::StructureValue, held, k));
    }
    Ok(())
}

// The structure at the address: its values, or its refusal. The pointer is the batch dword that points to it.
pub fn read<'a>(
    batch: &'a [u32],
    batch_at: u64,
    state: &'a [u32],
    state_at: u64,
    kind: Kind,
    address: u64,
    pointer: usize,
) -> Reading
    ensures { StructureRead batch.now batch_at state.now state_at kind address pointer result }
{
    let n = dwords_of(kind);
    let held = windows::held_in(batch, batch_at, state, state_at, address, n);
    let d = windows::part_of(batch, state, held, n);
    match judged(kind, held, d, pointer) {
        Ok(()) => values(kind, d),
        Err(f) => Reading::Unreadable(f),
    }
}
