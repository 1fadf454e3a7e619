// Which row a header is, and how many dwords its command has.
#![tactic(auto)]

ghost use Rattle.std.specs.Prelude.{◌≡◌, cond, ◌+◌, ◌*◌, ◌^◌, ◌<◌, drop};
ghost use Rattle.rules.specs.Words.{bit};
ghost use Rattle.rules.specs.Commands.{rows, row_from, row_of, length_of, group_size, length_right};
ghost use Rattle.rows.specs.Groups.{groups_right};
ghost use Rattle.rows.specs.Masks.{mask_table};

pub mod headers;
mod masks;

use masks::MASKS;
use rules::names::{
    BASE_ROW, BLEND_ROW, COLOUR_ROW, END_ROW, INDEX_BUFFER_ROW, LOAD_REGISTER_ROW, NOOP_ROW,
    PIPE_ROW, PRIMITIVE_ROW, ROWS, SELECT_ROW, SET_REGISTERS_ROW, START_ROW, STORE_REGISTER_ROW,
    STORE_ROW, TOPOLOGY_ROW, VERTEX_BUFFERS_ROW, VERTEX_ELEMENTS_ROW, VIEWPORT_ROW,
};

// The table of allowed bits. It is written out wherever it is asked for, so a caller asks once and lends it on.
#[tactic(auto, unfolding(rules::specs::Commands::rows, rules::specs::Commands::the_row, rules::specs::Masks::masks_of, crate::specs::Masks::mask_rows, crate::specs::Masks::mask_table))]
pub fn mask_table() -> &'static [[u32; 16]; ROWS]
    ensures { result.now ≡ mask_table }
{
    &MASKS
}

// The row of a header by its bits 31:16, of the rows of type 3, or ROWS where these have none with that key. The topology is asked for first, by a test of
// its own: among the others it would be found by the compiler's table of jumps, which takes longer.
#[tactic(auto, unfolding(rules::specs::Commands::rows, rules::specs::Commands::the_row, rules::specs::Commands::row_from))]
fn row_of_type_3(key: u32) -> usize
    ensures { result ≡ 7 + row_from (key * 2 ^ 16) (drop 7 rows) }
{
    if key == 0x784B {
        return TOPOLOGY_ROW;
    }
    match key {
        0x7A00 => PIPE_ROW,
        0x6904 => SELECT_ROW,
        0x6101 => BASE_ROW,
        0x7808 => VERTEX_BUFFERS_ROW,
        0x7809 => VERTEX_ELEMENTS_ROW,
        0x780A => INDEX_BUFFER_ROW,
        0x7823 => VIEWPORT_ROW,
        0x780E => COLOUR_ROW,
        0x7B00 => PRIMITIVE_ROW,
        0x7824 => BLEND_ROW,
        _ => ROWS,
    }
}

// The row of a header, or ROWS where it is in no row. Bits 31:23 are type 0 and its key in one number, so that the type is not asked for first.
pub fn row_of(header: u32) -> usize
    ensures { result ≡ row_of header }
{
    match header / 0x80_0000 {
        0x00 => NOOP_ROW,
        0x0A => END_ROW,
        0x31 => START_ROW,
        0x22 => SET_REGISTERS_ROW,
        0x20 => STORE_ROW,
        0x24 => STORE_REGISTER_ROW,
        0x29 => LOAD_REGISTER_ROW,
        _ => row_of_type_3(header / 0x1_0000),
    }
}

// How many dwords the command has, by its header. Rows 0, 1 and 8 have no field.
#[tactic(auto, using(crate::proofs::RowLaws::length_past), unfolding(rules::specs::Commands::rows, rules::specs::Commands::the_row, rules::specs::Commands::length_of))]
pub fn length_of(row: usize, header: u32) -> usize
    ensures { result ≡ length_of row header }
{
    if row <= END_ROW || row == SELECT_ROW || ROWS <= row {
        return 1;
    }
    (header % 256) as usize + 2
}

// How many dwords a group has; a row without groups is one group of all its dwords.
#[tactic(auto, using(crate::proofs::RowLaws::size_past), unfolding(rules::specs::Commands::rows, rules::specs::Commands::the_row, rules::specs::Commands::group_size))]
pub fn group_size(row: usize) -> usize
    ensures { result ≡ group_size row }
{
    match row {
        START_ROW | SET_REGISTERS_ROW | VERTEX_ELEMENTS_ROW => 2,
        STORE_ROW | VERTEX_BUFFERS_ROW | INDEX_BUFFER_ROW => 4,
        STORE_REGISTER_ROW | LOAD_REGISTER_ROW => 3,
        PIPE_ROW => 5,
        BASE_ROW => 15,
        TOPOLOGY_ROW | VIEWPORT_ROW | COLOUR_ROW | BLEND_ROW => 1,
        PRIMITIVE_ROW => 6,
        _ => 0,
    }
}

// Whether a field tells a whole number of groups, from one to the most that there may be.
#[tactic(auto, unfolding(crate::specs::Groups::groups_right))]
fn groups_right(field: u32, size: u32, most: u32) -> bool
    requires { (field < 256) × (0 < size) }
    ensures { result ≡ groups_right field size most }
{
    let dwords = field + 1;
    dwords % size == 0 && (1..=most).contains(&(dwords / size))
}

// The field of a store: 3 where bit 21 asks for eight bytes, and else 2.
fn store_field(header: u32) -> u32
    ensures { result ≡ cond (bit header 21) 3 2 }
{
    if header / 0x20_0000 % 2 == 1 { 3 } else { 2 }
}

// Whether the length field is one that the row has.
#[tactic(auto, using(crate::proofs::RowLaws::right_past), unfolding(rules::specs::Commands::rows, rules::specs::Commands::the_row, rules::specs::Commands::group_size, rules::specs::Commands::length_right, crate::specs::Groups::groups_right))]
pub fn length_right(row: usize, header: u32) -> bool
    ensures { result ≡ length_right row header }
{
    let field = header % 256;
    match row {
        START_ROW => field == 1,
        SET_REGISTERS_ROW => groups_right(field, 2, 64),
        STORE_ROW => field == store_field(header),
        STORE_REGISTER_ROW | LOAD_REGISTER_ROW => field == 2,
        PIPE_ROW => field == 4,
        BASE_ROW => field == 14,
        VERTEX_BUFFERS_ROW => groups_right(field, 4, 33),
        VERTEX_ELEMENTS_ROW => groups_right(field, 2, 34),
        INDEX_BUFFER_ROW => field == 3,
        TOPOLOGY_ROW | VIEWPORT_ROW | COLOUR_ROW | BLEND_ROW => field == 0,
        PRIMITIVE_ROW => field == 5,
        _ => true,
    }
}
