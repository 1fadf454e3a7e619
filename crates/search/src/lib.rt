// The search over a command's dwords, for 10, 12 and 13 alike: the header, then group after group, dword after dword.
#![tactic(auto)]

ghost use Rattle.std.specs.Prelude.{◌≡◌, [], ◌≤◌, ◌<◌, length, get_or};
ghost use Rattle.rules.specs.Words.{first_of};
ghost use Rattle.rules.specs.Commands.{row_count, group_size};
ghost use Rattle.rows.specs.Masks.{mask_table};
ghost use Rattle.search.specs.Search.{wrong_at, wrong, place_of, Whole};

use commands::bits::bit_wrong;
use commands::values::{has_rule, value_wrong};
use rows::{group_size, mask_table};
use rules::Windows;
use rules::names::{ROWS, STORE_ROW};
use table::format_table;
use uses::access_of;
use windows::access_wrong;
use words::dwords::address_at;

mod table;

// What a search over a command's dwords looks for: a bit that is not allowed (10), a value rule broken (12), a range that does not fit (13).
#[derive(Clone, Copy)]
pub enum Sought {
    Bits,
    Values,
    Ranges,
}

// Whether the dword k, the dword j of its group, is what is looked for. A value rule is asked only of a dword that has one.
fn wrong_at(what: Sought, w: Windows, row: usize, command: &[u32], k: usize, j: usize) -> bool
    requires { (k < length command.now) × (j ≤ group_size row) × (row < row_count) }
    ensures { result ≡ wrong_at what w row command.now k j }
{
    match what {
        Sought::Bits => bit_wrong(row, command, k, j, &mask_table()[row]),
        Sought::Values => has_rule(row, j) && value_wrong(row, command, k, j, format_table()),
        Sought::Ranges => {
            let access = access_of(row, command, k, j);
            access_wrong(w, address_at(command, k), access)
        }
    }
}

// The two loops and the label are the form that document 01 names for this search.
// The first dword of the command that is what is looked for, or the number of its dwords where none is. Only a store may end inside its group, since one of
// four bytes has a dword less: so for every other row no dword is asked whether it is still one of the command's. With the row's number written out, as
// its caller has it, the compiler makes of this one search a search for each row, in which the group's size, the masks and the rules of its dwords are
// known, and nothing is looked up for a dword.
pub fn first_wrong(what: Sought, w: Windows, row: usize, command: &[u32]) -> usize
    requires { (row < row_count) × (Whole row (length command.now)) }
    ensures { result ≡ place_of (first_of (wrong what w row command.now) (length command.now)) (length command.now) }
{
    let len = command.len();
    if wrong_at(what, w, row, command, 0, 0) {
        return 0;
    }
    let size = group_size(row);
    let mut first = 1;
    'groups: loop {
        if len <= first {
            break len;
        }
        for j in 0..size {
            let k = first + j;
            if (row == STORE_ROW) & (len <= k) {
                break 'groups len;
            }
            if wrong_at(what, w, row, command, k, j + 1) {
                break 'groups k;
            }
        }
        first += size;
    }
}
