// The two tests that every check of a dword or of an address comes down to; and `dwords`, which reads a command's dwords and addresses.
#![tactic(auto)]

ghost use Rattle.std.specs.Prelude.{◌≡◌};
ghost use Rattle.rules.specs.Words.{allowed};
ghost use Rattle.rules.specs.Windows.{holds};

use rules::Window;

pub mod dwords;

// Whether no bit of the word is set outside the mask.
#[tactic(auto, unfolding(rules::specs::Words::allowed))]
pub fn allowed(word: u32, mask: u32) -> bool
    ensures { result ≡ allowed word mask }
{
    word & mask == word
}

// Whether all the bytes lie in the window. Distances are compared, since the end of either may lie past 2^64.
// By tests of its own for speed: with `checked_sub` `bench/draft` has vertex buffers at 36,643 (34,663 so) and mixed rows at 62,951 (60,881).
#[tactic(auto, unfolding(rules::specs::Windows::holds, rules::specs::Windows::end))]
pub fn holds(w: Window, address: u64, bytes: u64) -> bool
    ensures { result ≡ holds w address bytes }
{
    let at = w.at;
    if address < at {
        return false;
    }
    let skipped = address - at;
    let room = w.bytes;
    if room < skipped {
        return false;
    }
    bytes <= room - skipped
}
