// Reading a command's dwords by their number, and addresses by their dwords; past the end stands 0, as in the definitions.
ghost use Rattle.std.specs.Prelude.{◌≡◌, ◌+◌, ◌<◌, length, get_or};
ghost use Rattle.rules.specs.Uses.{pair_address, address_at, canonical};

pub fn dword(command: &[u32], k: usize) -> u32
    ensures { result ≡ get_or command.now k 0 }
{
    if k < command.len() { command[k] } else { 0 }
}

// The address that two dwords make, which is their low 48 bits.
pub fn address_of(low: u32, high: u32) -> u64
    ensures { result ≡ pair_address low high }
{
    low as u64 + 0x1_0000_0000 * ((high % 0x1_0000) as u64)
}

// Whether an address is in canonical form, by its high dword: the bits above bit 47 repeat it.
#[tactic(auto, using(rules::proofs::Canonical::canonical_ranges))]
pub fn canonical(high: u32) -> bool
    ensures { result ≡ canonical high }
{
    high <= 0x7FFF || 0xFFFF_8000 <= high
}

// The address whose low dword is dword k.
#[tactic(auto, unfolding(rules::specs::Uses::address_at))]
pub fn address_at(command: &[u32], k: usize) -> u64
    requires { k < length command.now }
    ensures { result ≡ address_at command.now k }
{
    address_of(command[k], dword(command, k + 1))
}
