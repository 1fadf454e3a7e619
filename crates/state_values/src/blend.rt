// The value rule of a blend state: where an entry blends, its factors and functions are codes that have a name.
ghost use Rattle.std.specs.Prelude.{◌≡◌};
ghost use Rattle.rules.specs.Words.{first_of};
ghost use Rattle.rules.specs.Structures.{factors_named, functions_named, entry_wrong, blend_wrong};

use formats::{named_factor, named_function};
use words::dwords::dword;

// The source's and the destination's factor, of the colour and of alpha.
fn factors_named(w: u32) -> bool
    ensures { result ≡ factors_named w }
{
    named_factor(w / 0x400_0000 % 32)
        && named_factor(w / 0x20_0000 % 32)
        && named_factor(w / 0x2000 % 32)
        && named_factor(w / 0x100 % 32)
}

// The function of the colour and that of alpha.
fn functions_named(w: u32) -> bool
    ensures { result ≡ functions_named w }
{
    named_function(w / 0x4_0000 % 8) && named_function(w / 0x20 % 8)
}

// Whether an entry, by its first dword, blends with a code that has no name.
#[tactic(auto, unfolding(rules::specs::Structures::entry_wrong))]
fn entry_wrong(w: u32) -> bool
    ensures { result ≡ entry_wrong w }
{
    w / 0x8000_0000 % 2 == 1 && !(factors_named(w) && functions_named(w))
}

// The first dword of the first entry that breaks the rule. An entry has two dwords, and the rule looks at the first.
pub fn first_entry(d: &[u32]) -> Option<usize>
    ensures { result ≡ first_of (blend_wrong d.now) 17 }
{
    for k in (1..17).step_by(2) {
        if entry_wrong(dword(d, k)) {
            return Some(k);
        }
    }
    None
}
