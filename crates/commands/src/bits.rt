// The allowed bits (10) of a command's dwords.
ghost use Rattle.std.specs.Prelude.{◌≡◌, not, [], ◌<◌, length, get_or};
ghost use Rattle.rules.specs.Words.{allowed};
ghost use Rattle.rules.specs.Commands.{row_count};
ghost use Rattle.rules.specs.Masks.{allowed_of};
ghost use Rattle.rows.specs.Masks.{mask_table};

use uses::high_used;
use words::allowed;

// Whether the dword k, the dword j of its group, has a bit that it may not have: most keep the row's masks, which are lent, and only of the others it is
// asked whether they are the high dword of a used address, which 12 looks at.
pub fn bit_wrong(row: usize, command: &[u32], k: usize, j: usize, masks: &[u32; 16]) -> bool
    requires { (k < length command.now) × (j < 16) × (row < row_count) × (masks.now ≡ get_or mask_table row []) }
    ensures { result ≡ not (allowed (get_or command.now k 0) (allowed_of row command.now k j)) }
{
    !allowed(command[k], masks[j]) && !high_used(row, command, k, j)
}
