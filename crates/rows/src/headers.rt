// What a row's header is made of beside its length field: the bits that it is known by, and the bits that are free.
ghost use Rattle.std.specs.Prelude.{◌≡◌, ◌<◌};
ghost use Rattle.rules.specs.Commands.{row_count, the_row};

use rules::names::ROWS;

// By row; the names stand beside the rows of `masks`.
const KEYS: [u32; ROWS] = [
    0x0000_0000, // MI_NOOP
    0x0500_0000, // MI_BATCH_BUFFER_END
    0x1880_0000, // MI_BATCH_BUFFER_START
    0x1100_0000, // MI_LOAD_REGISTER_IMM
    0x1000_0000, // MI_STORE_DATA_IMM
    0x1200_0000, // MI_STORE_REGISTER_MEM
    0x1480_0000, // MI_LOAD_REGISTER_MEM
    0x7A00_0000, // PIPE_CONTROL
    0x6904_0000, // PIPELINE_SELECT
    0x6101_0000, // STATE_BASE_ADDRESS
    0x7808_0000, // 3DSTATE_VERTEX_BUFFERS
    0x7809_0000, // 3DSTATE_VERTEX_ELEMENTS
    0x780A_0000, // 3DSTATE_INDEX_BUFFER
    0x784B_0000, // 3DSTATE_VF_TOPOLOGY
    0x7823_0000, // 3DSTATE_VIEWPORT_STATE_POINTERS_CC
    0x780E_0000, // 3DSTATE_CC_STATE_POINTERS
    0x7B00_0000, // 3DPRIMITIVE
    0x7824_0000, // 3DSTATE_BLEND_STATE_POINTERS
];

const FREE_BITS: [u32; ROWS] = [
    0x003F_FFFF, // MI_NOOP
    0,
    0x0040_0100, // MI_BATCH_BUFFER_START
    0,
    0x0020_0000, // MI_STORE_DATA_IMM
    0,
    0,
    0,
    0,
    0,
    0,
    0,
    0,
    0,
    0,
    0,
    0x0000_0700, // 3DPRIMITIVE
    0,
];

// The bits that the row's header is known by.
pub fn key(row: usize) -> u32
    requires { row < row_count }
    ensures { result ≡ (the_row row).key }
{
    KEYS[row]
}

// The header bits that are free in the row.
pub fn free_bits(row: usize) -> u32
    requires { row < row_count }
    ensures { result ≡ (the_row row).free }
{
    FREE_BITS[row]
}
