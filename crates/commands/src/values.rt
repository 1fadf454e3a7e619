// The value rules (12): which dwords of a row have one, and whether a dword, the dword j of its group, breaks the rule of its row, or is a used
// high dword that is not canonical.
ghost use Rattle.std.specs.Prelude.{◌≡◌, [], ◌∷◌, ◌<◌, length, get_or};
ghost use Rattle.rules.specs.Formats.{surface_formats};
ghost use Rattle.rules.specs.Commands.{row_count};
ghost use Rattle.rules.specs.Values.{start_rule, register_rule, store_rule, pipe_rule, vertex_buffer_rule, index_buffer_rule, topology_rule, primitive_rule};
ghost use Rattle.rules.specs.Values.{after_zero, components_wrong, vertex_element_rule, rule_of, high_wrong, value_wrong_of};
ghost use Rattle.commands.specs.Ruled.{ruled, ruled_bits};

use rules::names::{
    BASE_ROW, INDEX_BUFFER_ROW, LOAD_REGISTER_ROW, PIPE_ROW, PRIMITIVE_ROW, SET_REGISTERS_ROW,
    START_ROW, STORE_REGISTER_ROW, STORE_ROW, TOPOLOGY_ROW, VERTEX_BUFFERS_ROW,
    VERTEX_ELEMENTS_ROW,
};
use uses::high_used;
use words::dwords::{canonical, dword};

// The dwords of a row's group that have a value rule, a bit each; bit 0 is the header.
#[tactic(auto, using(crate::proofs::RuledLaws::none_past), unfolding(crate::specs::Ruled::ruled_dwords, crate::specs::Ruled::as_bits, crate::specs::Ruled::ruled_bits))]
fn ruled_bits(row: usize) -> u32
    ensures { result ≡ ruled_bits row }
{
    match row {
        START_ROW => 0b101,
        SET_REGISTERS_ROW => 0b10,
        STORE_ROW => 0b110,
        STORE_REGISTER_ROW | LOAD_REGISTER_ROW | VERTEX_BUFFERS_ROW | INDEX_BUFFER_ROW => 0b1010,
        PIPE_ROW => 0b11_1100,
        BASE_ROW => 0b1010_1010_0100,
        VERTEX_ELEMENTS_ROW => 0b110,
        TOPOLOGY_ROW => 0b10,
        PRIMITIVE_ROW => 0b110_1010,
        _ => 0,
    }
}

// Whether the dword j of a group has a value rule in its row.
#[tactic(auto, using(crate::proofs::RuledLaws::ruled_bit))]
pub fn has_rule(row: usize, j: usize) -> bool
    requires { (row < row_count) × (j < 16) }
    ensures { result ≡ ruled row j }
{
    (ruled_bits(row) >> j) & 1 == 1
}

fn start_wrong(j: usize, word: u32) -> bool
    ensures { result ≡ start_rule [] 0 j word }
{
    j == 0 && word / 0x100 % 2 != 1
}

fn register_wrong(j: usize, word: u32) -> bool
    ensures { result ≡ register_rule [] 0 j word }
{
    j == 1 && !formats::known_register(word)
}

fn store_wrong(command: &[u32], j: usize, word: u32) -> bool
    ensures { result ≡ store_rule command.now 0 j word }
{
    j == 1 && dword(command, 0) / 0x20_0000 % 2 == 1 && word % 8 != 0
}

fn pipe_wrong(command: &[u32], j: usize, word: u32) -> bool
    ensures { result ≡ pipe_rule command.now 0 j word }
{
    if dword(command, 1) / 0x4000 % 4 == 0 {
        2 <= j && word != 0
    } else {
        j == 2 && word % 8 != 0
    }
}

fn vertex_buffer_wrong(j: usize, word: u32) -> bool
    ensures { result ≡ vertex_buffer_rule [] 0 j word }
{
    j == 1 && (32 < word / 0x400_0000 % 64 || 2048 < word % 0x1000)
}

// Whether a control behind a 0 is not 0, of the controls behind the first, which is not 0.
#[tactic(auto, unfolding(rules::specs::Words::some))]
fn holes(second: u32, third: u32, last: u32) -> bool
    ensures { result ≡ after_zero (second ∷ third ∷ last ∷ []) }
{
    if last == 0 {
        third != 0 && second == 0
    } else {
        second == 0 || third == 0
    }
}

// The component controls: each at most 4, the first not 0, and after a 0 only 0.
#[tactic(auto, unfolding(rules::specs::Words::some, rules::specs::Values::components_wrong))]
fn components_wrong(word: u32) -> bool
    ensures { result ≡ components_wrong word }
{
    let first = word / 0x1000_0000 % 8;
    let second = word / 0x100_0000 % 8;
    let third = word / 0x10_0000 % 8;
    let last = word / 0x1_0000 % 8;
    4 < first || 4 < second || 4 < third || 4 < last || first == 0 || holes(second, third, last)
}

#[tactic(auto, using(crate::proofs::ValueLaws::unknown_format))]
fn vertex_element_wrong(j: usize, word: u32, formats: &[u16; 512]) -> bool
    requires { formats.now ≡ surface_formats }
    ensures { result ≡ vertex_element_rule [] 0 j word }
{
    match j {
        1 => {
            32 < word / 0x400_0000 % 64
                || !formats::known_format(formats, (word / 0x1_0000 % 0x200) as usize)
        }
        2 => components_wrong(word),
        _ => false,
    }
}

fn index_buffer_wrong(j: usize, word: u32) -> bool
    ensures { result ≡ index_buffer_rule [] 0 j word }
{
    j == 1 && word / 0x100 % 4 == 3
}

fn topology_wrong(j: usize, word: u32) -> bool
    ensures { result ≡ topology_rule [] 0 j word }
{
    j == 1 && !formats::known_topology(word)
}

fn primitive_wrong(command: &[u32], j: usize, word: u32) -> bool
    ensures { result ≡ primitive_rule command.now 0 j word }
{
    if dword(command, 1) / 0x200 % 2 != 1 {
        return false;
    }
    match j {
        1 => dword(command, 0) / 0x400 % 2 == 1 || word / 0x100 % 2 == 1,
        3 | 5 | 6 => word != 0,
        _ => false,
    }
}

// Whether the dword k, the dword j of its group, breaks the rule of its row.
#[tactic(auto, using(crate::proofs::ValueLaws::no_rule_lem), unfolding(rules::specs::Values::value_rules, rules::specs::Values::rule_of))]
fn rule_broken(row: usize, command: &[u32], k: usize, j: usize, formats: &[u16; 512]) -> bool
    requires { (k < length command.now) × (formats.now ≡ surface_formats) }
    ensures { result ≡ rule_of row command.now k j (get_or command.now k 0) }
{
    let word = command[k];
    match row {
        START_ROW => start_wrong(j, word),
        SET_REGISTERS_ROW | STORE_REGISTER_ROW | LOAD_REGISTER_ROW => register_wrong(j, word),
        STORE_ROW => store_wrong(command, j, word),
        PIPE_ROW => pipe_wrong(command, j, word),
        VERTEX_BUFFERS_ROW => vertex_buffer_wrong(j, word),
        VERTEX_ELEMENTS_ROW => vertex_element_wrong(j, word, formats),
        INDEX_BUFFER_ROW => index_buffer_wrong(j, word),
        TOPOLOGY_ROW => topology_wrong(j, word),
        PRIMITIVE_ROW => primitive_wrong(command, j, word),
        _ => false,
    }
}

// Whether the dword k, the dword j of its group, is the high dword of a used address and not canonical.
#[tactic(auto, unfolding(rules::specs::Values::high_wrong))]
fn high_wrong(row: usize, command: &[u32], k: usize, j: usize) -> bool
    requires { k < length command.now }
    ensures { result ≡ high_wrong row command.now k j }
{
    !canonical(command[k]) && high_used(row, command, k, j)
}

// Whether the dword k, the dword j of its group, breaks a value rule: that of a used high dword, or that of its row.
#[tactic(auto, unfolding(rules::specs::Values::value_wrong_of))]
pub fn value_wrong(row: usize, command: &[u32], k: usize, j: usize, formats: &[u16; 512]) -> bool
    requires { (k < length command.now) × (formats.now ≡ surface_formats) }
    ensures { result ≡ value_wrong_of row command.now k j }
{
    high_wrong(row, command, k, j) || rule_broken(row, command, k, j, formats)
}
