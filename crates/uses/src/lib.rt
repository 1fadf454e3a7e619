// The addresses that a command uses: whether its dword k, the dword j of its group, is the low dword of one, or the high dword.
#![tactic(auto)]

ghost use Rattle.std.specs.Prelude.{◌≡◌, [], ◌∷◌, ◌-◌, ◌<◌, length, get_or, eqb};
ghost use Rattle.rules.specs.Words.{some};
ghost use Rattle.rules.specs.Uses.{start_use, store_use, store_register_use, load_register_use, pipe_use, base_use, vertex_buffer_use, index_buffer_use, access_of, sized};
ghost use Rattle.rules.specs.Uses.{is_used, used_high_of};

use rules::names::{
    BASE_ROW, INDEX_BUFFER_ROW, LOAD_REGISTER_ROW, PIPE_ROW, START_ROW, STORE_REGISTER_ROW,
    STORE_ROW, VERTEX_BUFFERS_ROW,
};
use rules::{Access, Within};
use words::dwords::dword;

fn start_use(j: usize) -> Access
    ensures { result ≡ start_use [] 0 j 0 }
{
    if j == 1 {
        Access::Reaches(4, Within::BatchOnly)
    } else {
        Access::Unused
    }
}

fn store_use(command: &[u32], j: usize) -> Access
    ensures { result ≡ store_use command.now 0 j 0 }
{
    if j != 1 {
        return Access::Unused;
    }
    if dword(command, 0) / 0x20_0000 % 2 == 1 {
        Access::Reaches(8, Within::ScratchOnly)
    } else {
        Access::Reaches(4, Within::ScratchOnly)
    }
}

fn store_register_use(j: usize) -> Access
    ensures { result ≡ store_register_use [] 0 j 0 }
{
    if j == 2 {
        Access::Reaches(4, Within::ScratchOnly)
    } else {
        Access::Unused
    }
}

fn load_register_use(j: usize) -> Access
    ensures { result ≡ load_register_use [] 0 j 0 }
{
    if j == 2 {
        Access::Reaches(4, Within::AnyWindow)
    } else {
        Access::Unused
    }
}

fn pipe_use(command: &[u32], j: usize) -> Access
    ensures { result ≡ pipe_use command.now 0 j 0 }
{
    if j != 2 {
        return Access::Unused;
    }
    if dword(command, 1) / 0x4000 % 4 == 0 {
        return Access::Unused;
    }
    Access::Reaches(8, Within::ScratchOnly)
}

// The low dwords of the five bases.
#[tactic(auto, unfolding(rules::specs::Words::some))]
fn is_base(j: usize) -> bool
    ensures { result ≡ some (eqb j) (1 ∷ 4 ∷ 6 ∷ 8 ∷ 10 ∷ []) }
{
    matches!(j, 1 | 4 | 6 | 8 | 10)
}

// A base is used where bit 0 of its low dword is set.
fn base_use(j: usize, word: u32) -> Access
    ensures { result ≡ base_use [] 0 j word }
{
    if !is_base(j) {
        return Access::Unused;
    }
    if word % 2 == 1 {
        Access::NoRange
    } else {
        Access::Unused
    }
}

// A range of so many bytes, if there are any.
fn sized_use(size: u32) -> Access
    ensures { result ≡ sized size }
{
    if size == 0 {
        Access::Unused
    } else {
        Access::Reaches(size as u64, Within::AnyWindow)
    }
}

// The dword before, as the definitions subtract: none is before the first.
fn before(k: usize) -> usize
    ensures { result ≡ k - 1 }
{
    k.saturating_sub(1)
}

// The range of a vertex buffer, by the first of its dwords and the last.
fn vertex_buffer_range(flags: u32, size: u32) -> Access
    ensures { result ≡ vertex_buffer_use (flags ∷ 0 ∷ 0 ∷ size ∷ []) 1 2 0 }
{
    if flags / 0x2000 % 2 == 1 {
        return Access::Unused;
    }
    if flags / 0x4000 % 2 != 1 {
        return Access::Unused;
    }
    sized_use(size)
}

fn vertex_buffer_use(command: &[u32], k: usize, j: usize) -> Access
    requires { k < length command.now }
    ensures { result ≡ vertex_buffer_use command.now k j 0 }
{
    if j != 2 {
        return Access::Unused;
    }
    vertex_buffer_range(dword(command, before(k)), dword(command, k + 2))
}

fn index_buffer_use(command: &[u32], k: usize, j: usize) -> Access
    requires { k < length command.now }
    ensures { result ≡ index_buffer_use command.now k j 0 }
{
    if j != 2 {
        return Access::Unused;
    }
    sized_use(dword(command, k + 2))
}

// The address that the command uses with its low dword at k, if it does. The search asks it, and `causes` does: where both are in one program, `audit`,
// the compiler leaves calls of it without the hint, and of the search's test too, and a capture of no-ops takes 1.7 times as many instructions.
#[inline(always)]
#[tactic(auto, using(crate::proofs::UseLaws::no_access), unfolding(rules::specs::Uses::uses_by_row, rules::specs::Uses::access_of))]
pub fn access_of(row: usize, command: &[u32], k: usize, j: usize) -> Access
    requires { k < length command.now }
    ensures { result ≡ access_of row command.now k j (get_or command.now k 0) }
{
    match row {
        START_ROW => start_use(j),
        STORE_ROW => store_use(command, j),
        STORE_REGISTER_ROW => store_register_use(j),
        LOAD_REGISTER_ROW => load_register_use(j),
        PIPE_ROW => pipe_use(command, j),
        BASE_ROW => base_use(j, command[k]),
        VERTEX_BUFFERS_ROW => vertex_buffer_use(command, k, j),
        INDEX_BUFFER_ROW => index_buffer_use(command, k, j),
        _ => Access::Unused,
    }
}

fn is_used(access: Access) -> bool
    ensures { result ≡ is_used access }
{
    !matches!(access, Access::Unused)
}

// Whether the command uses an address with its low dword at k, the dword j of its group. It asks the rows' uses itself, so that `access_of` is asked
// in one place only, into which it is compiled: as `is_used` of `access_of`, `bench/draft` has the table engine's mixed rows at 460,138 (91,780 so).
#[tactic(auto, using(crate::proofs::UseLaws::no_access), unfolding(rules::specs::Uses::uses_by_row, rules::specs::Uses::access_of))]
fn low_used(row: usize, command: &[u32], k: usize, j: usize) -> bool
    requires { k < length command.now }
    ensures { result ≡ is_used (access_of row command.now k j (get_or command.now k 0)) }
{
    match row {
        START_ROW => is_used(start_use(j)),
        STORE_ROW => is_used(store_use(command, j)),
        STORE_REGISTER_ROW => is_used(store_register_use(j)),
        LOAD_REGISTER_ROW => is_used(load_register_use(j)),
        PIPE_ROW => is_used(pipe_use(command, j)),
        BASE_ROW => is_used(base_use(j, command[k])),
        VERTEX_BUFFERS_ROW => is_used(vertex_buffer_use(command, k, j)),
        INDEX_BUFFER_ROW => is_used(index_buffer_use(command, k, j)),
        _ => false,
    }
}

// Whether the dword k, the dword j of its group, is the high dword of an address that the command uses.
#[tactic(auto, unfolding(rules::specs::Uses::used_high_of))]
pub fn high_used(row: usize, command: &[u32], k: usize, j: usize) -> bool
    requires { k < length command.now }
    ensures { result ≡ used_high_of row command.now k j }
{
    low_used(row, command, before(k), before(j))
}
