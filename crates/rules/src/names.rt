// The rows of document 01's command table and of request 1 by name, in the table's order, and how many there are. They are numbers and no enum: records
// hold them, C hands them to the writer, a table is indexed by them, and `rows::length_of`, `rows::group_size` and `uses::access_of` answer for every number,
// as their definitions do, also for ROWS, which is that of a header in no row.
pub const NOOP_ROW: usize = 0;

pub const END_ROW: usize = 1;

pub const START_ROW: usize = 2;

pub const SET_REGISTERS_ROW: usize = 3;

pub const STORE_ROW: usize = 4;

pub const STORE_REGISTER_ROW: usize = 5;

pub const LOAD_REGISTER_ROW: usize = 6;

pub const PIPE_ROW: usize = 7;

pub const SELECT_ROW: usize = 8;

pub const BASE_ROW: usize = 9;

pub const VERTEX_BUFFERS_ROW: usize = 10;

pub const VERTEX_ELEMENTS_ROW: usize = 11;

pub const INDEX_BUFFER_ROW: usize = 12;

pub const TOPOLOGY_ROW: usize = 13;

pub const VIEWPORT_ROW: usize = 14;

pub const COLOUR_ROW: usize = 15;

pub const PRIMITIVE_ROW: usize = 16;

pub const BLEND_ROW: usize = 17;

pub const ROWS: usize = 18;
