// Where an accepted command leads.
#![tactic(auto)]

ghost use Rattle.std.specs.Prelude.{◌≡◌, ◌-◌, ◌/◌};
ghost use Rattle.rules.specs.Uses.{address_at};
ghost use Rattle.rules.specs.Step.{after_end, level_after_start, base_after, level_number};
ghost use Rattle.onward.specs.Onward.{move_from};

use rules::names::{BASE_ROW, END_ROW, START_ROW};
use rules::{Cursor, Level};
use words::dwords::{address_of, dword};

pub fn level_number(level: Level) -> usize
    ensures { result ≡ level_number level }
{
    match level {
        Level::First => 0,
        Level::Second(_) => 1,
    }
}

#[tactic(auto, unfolding(rules::specs::Step::after_end))]
fn after_end(level: Level, base: Option<u64>) -> Option<Cursor>
    ensures { result ≡ after_end level base }
{
    match level {
        Level::First => None,
        Level::Second(back) => Some(Cursor {
            at: back,
            level: Level::First,
            base,
        }),
    }
}

// Which dword of a window an address names; an address below the window counts as its start, as the definitions subtract.
// With `saturating_sub` `bench/draft` has vertex elements at 67,721 (59,813 so), more than 1.1 of the C checker's.
pub fn dword_of(at: u64, address: u64) -> usize
    ensures { result ≡ (address - at) / 4 }
{
    if address < at {
        return 0;
    }
    ((address - at) / 4) as usize
}

// The position that a batch start names.
#[tactic(auto, unfolding(rules::specs::Uses::address_at))]
fn target(at: u64, command: &[u32]) -> usize
    ensures { result ≡ (address_at command.now 1 - at) / 4 }
{
    let low = dword(command, 1);
    let high = dword(command, 2);
    dword_of(at, address_of(low, high))
}

// A start with bit 22 set keeps the position after itself.
fn level_after_start(header: u32, next: usize, level: Level) -> Level
    ensures { result ≡ level_after_start header next level }
{
    if header / 0x40_0000 % 2 == 1 {
        Level::Second(next)
    } else {
        level
    }
}

// The dynamic base after a command: only row 9 with bit 0 of its dword 6 sets it.
#[tactic(auto, unfolding(rules::specs::Step::base_after))]
fn base_after(row: usize, command: &[u32], base: Option<u64>) -> Option<u64>
    ensures { result ≡ base_after row command.now base }
{
    if row != BASE_ROW {
        return base;
    }
    let low = dword(command, 6);
    if low % 2 != 1 {
        return base;
    }
    let pages = (low / 0x1000 % 0x10_0000) as u64;
    let high = (dword(command, 7) % 0x1_0000) as u64;
    Some(0x1000 * pages + 0x1_0000_0000 * high)
}

// Where the command leads from the cursor; `next` is the position after it. The rows above the start's that change nothing are asked first: that leaves
// a no-op a way of its own through the walk's loop, on which the compiler knows its row and its length.
#[tactic(auto, unfolding(crate::specs::Onward::move_from, rules::specs::Step::base_after))]
pub fn move_of(batch_at: u64, s: Cursor, row: usize, command: &[u32], next: usize) -> Option<Cursor>
    ensures { result ≡ move_from batch_at s row command.now next }
{
    let level = s.level;
    let base = s.base;
    if START_ROW < row && row != BASE_ROW {
        return Some(Cursor {
            at: next,
            level,
            base,
        });
    }
    if row == END_ROW {
        return after_end(level, base);
    }
    if row == START_ROW {
        return Some(Cursor {
            at: target(batch_at, command),
            level: level_after_start(dword(command, 0), next, level),
            base,
        });
    }
    Some(Cursor {
        at: next,
        level,
        base: base_after(row, command, base),
    })
}
