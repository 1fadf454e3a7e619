// The checks 7 to 13 of the command at a position by the table engine: every command goes through the table and the search.
#![tactic(auto)]

ghost use Rattle.std.specs.Prelude.{◌≡◌, cond, ◌+◌, ◌^◌, ◌≤◌, ◌<◌, length};
ghost use Rattle.rules.specs.declared.Reason.TheVariants.{WrongLength, PastTheWindow};
ghost use Rattle.rules.specs.Commands.{row_count};
ghost use Rattle.rules.specs.Step.{nested, row_at};
ghost use Rattle.search.specs.Search.{Whole};
ghost use Rattle.looks.specs.Looks.{content_of, look_of};

use looks::Engine;
use rows::{length_of, length_right, row_of};
use rules::names::{
    BASE_ROW, BLEND_ROW, COLOUR_ROW, END_ROW, INDEX_BUFFER_ROW, LOAD_REGISTER_ROW, NOOP_ROW,
    PIPE_ROW, PRIMITIVE_ROW, SELECT_ROW, SET_REGISTERS_ROW, START_ROW, STORE_REGISTER_ROW,
    STORE_ROW, TOPOLOGY_ROW, VERTEX_BUFFERS_ROW, VERTEX_ELEMENTS_ROW, VIEWPORT_ROW,
};
use rules::{Fault, Level, Reason, Windows};
use search::{Sought, first_wrong};

// Whether the row is a batch start, and the walk in a second-level batch. The row is asked first: where it is written out, nothing of this is left of most.
fn is_nested(row: usize, level: Level) -> bool
    ensures { result ≡ nested row level }
{
    if row != START_ROW {
        return false;
    }
    match level {
        Level::First => false,
        Level::Second(_) => true,
    }
}

// The first fault of the command's dwords, in the order of 10 to 13. All three searches are made before any is asked: a command that passes needs them all, and
// the compiler makes of each a search for the row only where no test that may leave stands before it. With that for bits made first, topologies take
// 33 % more instructions and vertex buffers 6 %.
fn content_fault(
    w: Windows,
    row: usize,
    command: &[u32],
    at: usize,
    level: Level,
) -> Result<(), Fault>
    requires { (row < row_count) × (Whole row (length command.now)) × (at + length command.now < 2 ^ 63) }
    ensures { result ≡ content_of w row command.now at level }
{
    let value = first_wrong(Sought::Values, w, row, command);
    let range = first_wrong(Sought::Ranges, w, row, command);
    let bit = first_wrong(Sought::Bits, w, row, command);
    let len = command.len();
    if bit < len {
        return Err(Fault::in_batch(Reason::BitNotAllowed, at + bit));
    }
    if is_nested(row, level) {
        return Err(Fault::in_batch(Reason::NestedStart, at));
    }
    if value < len {
        return Err(Fault::in_batch(Reason::ValueBroken, at + value));
    }
    if range < len {
        return Err(Fault::in_batch(Reason::RangeOutside, at + range));
    }
    Ok(())
}

// Why a command cannot be looked into: its length is wrong, or else it goes past the window.
fn misfit(right: bool) -> Reason
    ensures { result ≡ cond right PastTheWindow WrongLength }
{
    if right {
        Reason::PastTheWindow
    } else {
        Reason::WrongLength
    }
}

// The checks 8 to 13 of the command at the position, of a row that its caller writes out. 8 and 9 are one test, told apart where it stops.
fn seen(
    row: usize,
    batch: &[u32],
    w: Windows,
    at: usize,
    level: Level,
) -> Result<(usize, usize), Fault>
    requires { (at < length batch.now) × (row ≡ row_at batch.now at) × (row < row_count) }
    ensures { result ≡ look_of w batch.now at level }
{
    let header = batch[at];
    let right = length_right(row, header);
    let length = length_of(row, header);
    if !right | (batch.len() - at < length) {
        return Err(Fault::in_batch(misfit(right), at));
    }
    let next = at + length;
    content_fault(w, row, &batch[at..next], at, level)?;
    Ok((row, length))
}

// The table engine.
pub struct Table;

impl Engine for Table {
    // Each row's number is written out, so that the compiler makes of the one search a search for each row, and the row is decided once.
    fn looked(batch: &[u32], w: Windows, at: usize, level: Level) -> Result<(usize, usize), Fault> {
        match row_of(batch[at]) {
            NOOP_ROW => seen(NOOP_ROW, batch, w, at, level),
            END_ROW => seen(END_ROW, batch, w, at, level),
            START_ROW => seen(START_ROW, batch, w, at, level),
            SET_REGISTERS_ROW => seen(SET_REGISTERS_ROW, batch, w, at, level),
            STORE_ROW => seen(STORE_ROW, batch, w, at, level),
            STORE_REGISTER_ROW => seen(STORE_REGISTER_ROW, batch, w, at, level),
            LOAD_REGISTER_ROW => seen(LOAD_REGISTER_ROW, batch, w, at, level),
            PIPE_ROW => seen(PIPE_ROW, batch, w, at, level),
            SELECT_ROW => seen(SELECT_ROW, batch, w, at, level),
            BASE_ROW => seen(BASE_ROW, batch, w, at, level),
            VERTEX_BUFFERS_ROW => seen(VERTEX_BUFFERS_ROW, batch, w, at, level),
            VERTEX_ELEMENTS_ROW => seen(VERTEX_ELEMENTS_ROW, batch, w, at, level),
            INDEX_BUFFER_ROW => seen(INDEX_BUFFER_ROW, batch, w, at, level),
            TOPOLOGY_ROW => seen(TOPOLOGY_ROW, batch, w, at, level),
            VIEWPORT_ROW => seen(VIEWPORT_ROW, batch, w, at, level),
            COLOUR_ROW => seen(COLOUR_ROW, batch, w, at, level),
            PRIMITIVE_ROW => seen(PRIMITIVE_ROW, batch, w, at, level),
            BLEND_ROW => seen(BLEND_ROW, batch, w, at, level),
            _ => Err(Fault::in_batch(Reason::UnknownHeader, at)),
        }
    }
}
