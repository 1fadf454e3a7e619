// The plain engine: the checks 7 to 13 of the command at a position by a straight decision on its header, and then by the function of its row.
#![tactic(auto)]

ghost use Rattle.std.specs.Prelude.{◌≡◌, ◌+◌, ◌<◌, length, get_or, drop};
ghost use Rattle.rules.specs.declared.Level.TheVariants.{First};
ghost use Rattle.rules.specs.Words.{field};
ghost use Rattle.rules.specs.Commands.{store_row, row_of};
ghost use Rattle.plain_shared.specs.Plain.{as_number, wrong_of};
ghost use Rattle.plain_look.specs.Seeing.{OfType3, Sees};

use looks::Engine;
use plain_3d::type_3;
use plain_mi::type_0;
use plain_shared::heads::length_by_field;
use plain_shared::wrong::Wrong;
use plain_vertex::vertices;
use rules::Reason::UnknownHeader;
use rules::names::{
    BASE_ROW, BLEND_ROW, COLOUR_ROW, END_ROW, INDEX_BUFFER_ROW, LOAD_REGISTER_ROW, NOOP_ROW,
    PIPE_ROW, PRIMITIVE_ROW, ROWS, SELECT_ROW, SET_REGISTERS_ROW, START_ROW, STORE_REGISTER_ROW,
    STORE_ROW, TOPOLOGY_ROW, VERTEX_BUFFERS_ROW, VERTEX_ELEMENTS_ROW, VIEWPORT_ROW,
};
use rules::{Fault, Level, Windows};

// What is seen of a command: its row, its length, and what is wrong with it. ROWS is no row.
type Seen = (usize, usize, Result<(), Wrong>);

// The command at the position. "Type 0 is known by bits 28:23": asked for with the type, bits 31:29.
fn seen_by_header(batch: &[u32], at: usize, w: Windows, level: Level) -> Seen
    requires { at < length batch.now }
    ensures { Sees w batch.now at level result }
{
    let header = batch[at];
    match header / 0x80_0000 {
        0x00 => (NOOP_ROW, 1, type_0::noop(header)),
        0x0A => (END_ROW, 1, type_0::end(header)),
        0x31 => (START_ROW, 3, type_0::start(w, level, &batch[at..])),
        0x22 => (
            SET_REGISTERS_ROW,
            length_by_field(header),
            type_0::set_registers(&batch[at..]),
        ),
        0x20 => seen_store(w, &batch[at..]),
        0x24 => (
            STORE_REGISTER_ROW,
            4,
            type_0::store_register(w, &batch[at..]),
        ),
        0x29 => (LOAD_REGISTER_ROW, 4, type_0::load_register(w, &batch[at..])),
        _ => seen_of_type_3(batch, at, w),
    }
}

// A store, by its two headers: so, compiled, each has its length written out.
fn seen_store(w: Windows, rest: &[u32]) -> Seen
    requires { (0 < length rest.now) × (row_of (get_or rest.now 0 0) ≡ store_row) }
    ensures { (result.0 ≡ store_row) × (result.1 ≡ field (get_or rest.now 0 0) 7 0 + 2) × (as_number result.2 ≡ wrong_of w store_row rest.now First) }
{
    match rest[0] {
        0x1000_0002 => (STORE_ROW, 4, type_0::store_four(w, rest)),
        0x1020_0003 => (STORE_ROW, 5, type_0::store_eight(w, rest)),
        header => (
            STORE_ROW,
            length_by_field(header),
            type_0::store_other(rest),
        ),
    }
}

// "type 3 by 31:16". The blend state is asked for apart, where no other key fits: so, compiled, its key takes no part in the decision between the others.
#[tactic(auto, using(crate::proofs::Arms::index_buffer_lent))]
fn seen_of_type_3(batch: &[u32], at: usize, w: Windows) -> Seen
    requires { (at < length batch.now) × (OfType3 batch.now at) }
    ensures { Sees w batch.now at First result }
{
    let header = batch[at];
    let key = header / 0x1_0000;
    match key {
        0x7A00 => (PIPE_ROW, 6, type_3::pipe(w, &batch[at..])),
        0x6904 => (SELECT_ROW, 1, type_3::select(header)),
        0x6101 => (BASE_ROW, 16, type_3::base(&batch[at..])),
        0x7808 => (
            VERTEX_BUFFERS_ROW,
            length_by_field(header),
            vertices::vertex_buffers(w, &batch[at..]),
        ),
        0x7809 => (
            VERTEX_ELEMENTS_ROW,
            length_by_field(header),
            vertices::vertex_elements(&batch[at..]),
        ),
        0x780A => (INDEX_BUFFER_ROW, 5, vertices::index_buffer(w, &batch[at..])),
        0x784B => (TOPOLOGY_ROW, 2, type_3::topology(&batch[at..])),
        0x7823 => (VIEWPORT_ROW, 2, type_3::viewport(&batch[at..])),
        0x780E => (COLOUR_ROW, 2, type_3::colour(&batch[at..])),
        0x7B00 => (PRIMITIVE_ROW, 7, type_3::primitive(&batch[at..])),
        _ => {
            if key == 0x7824 {
                return (BLEND_ROW, 2, type_3::blend(&batch[at..]));
            }
            (ROWS, 1, Err(Wrong::at(UnknownHeader, 0)))
        }
    }
}

// The plain engine. It has nothing with it: its rules are written out.
pub struct Plain;

impl Engine for Plain {
    fn looked(batch: &[u32], w: Windows, at: usize, level: Level) -> Result<(usize, usize), Fault> {
        let (row, length, wrong) = seen_by_header(batch, at, w, level);
        match wrong {
            Ok(()) => Ok((row, length)),
            Err(wrong) => Err(wrong.fault(at)),
        }
    }
}
