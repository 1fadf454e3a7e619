// What is known of codes: surface formats, topologies, registers, and the factors and functions of a blend.
#![tactic(auto)]

ghost use Rattle.std.specs.Prelude.{◌≡◌, not, ◌&&◌, eqb, ltb, get_or};
ghost use Rattle.rules.specs.Words.{bit};
ghost use Rattle.rules.specs.Formats.{between, known_topology, known_register, named_factor, named_function};

// The entry of the table of surface formats for a code; 0 past its end. The table is lent: a constant that is named here would be
// copied for each code.
fn format_bits(table: &[u16; 512], code: usize) -> u16
    ensures { result ≡ get_or table.now code 0 }
{
    table.get(code).copied().unwrap_or(0)
}

// Whether an element can have the format.
pub fn known_format(table: &[u16; 512], code: usize) -> bool
    ensures { result ≡ not (eqb (get_or table.now code 0) 0) }
{
    format_bits(table, code) != 0
}

// Whether a word with a bit for each code, the lowest code in bit 0, has that of the code; it has none for a code of 64 or more.
fn bit_of(word: u64, code: u32) -> bool
    ensures { result ≡ (ltb code 64 && bit word code) }
{
    code < 64 && (word >> code) & 1 == 1
}

// "one 64-bit word with a bit for each known code": 01h..14h, 16h, 20h..3Fh.
pub fn known_topology(code: u32) -> bool
    ensures { result ≡ known_topology code }
{
    bit_of(0xFFFF_FFFF_005F_FFFE, code)
}

#[tactic(auto, unfolding(rules::specs::Formats::known_register, rules::specs::Words::some))]
pub fn known_register(register: u32) -> bool
    ensures { result ≡ known_register register }
{
    match register {
        0x2400 | 0x2404 | 0x2408 | 0x240C | 0x2420 | 0x2430 | 0x2434 | 0x2438 | 0x243C | 0x2440 =>
            true,
        _ => register % 4 == 0 && (0x2600..=0x267C).contains(&register),
    }
}

// Whether document 000 names the blend factor. As a word the test is short enough to be asked of eight entries in a row.
pub fn named_factor(code: u32) -> bool
    ensures { result ≡ named_factor code }
{
    bit_of(0x07BE_07FE, code)
}

// Whether document 000 names the blend function.
#[tactic(auto, using(rules::proofs::Tables::function_named))]
pub fn named_function(code: u32) -> bool
    ensures { result ≡ named_function code }
{
    code <= 4
}
