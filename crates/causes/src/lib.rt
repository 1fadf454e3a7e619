// What happened at a refused command: where it stands, told by the records of the commands before it, which it is, and what it reaches.
#![tactic(auto)]

ghost use Rattle.std.specs.Prelude.{◌≡◌, ◌+◌, ◌≤◌, ◌<◌, length, take};
ghost use Rattle.rules.specs.Commands.{spot};
ghost use Rattle.rules.specs.Records.{Recordable, commands_in, words_for};
ghost use Rattle.causes.specs.Causes.{command_named, behind, kept_by, leads_to, kept_after, position_after, reach_with, reach_at, of_command, detail_at, cause_of};

use clauses::Detail;
use onward::dword_of;
use printout::command;
use rows::{group_size, length_of, row_of};
use rules::names::{END_ROW, START_ROW};
use rules::{Access, Answer, Command, Reason};
use uses::access_of;
use words::dwords::{address_at, address_of, dword};

// The command that a record names, by the record's number.
#[tactic(auto, using(crate::proofs::Leading::record_small), unfolding(rules::specs::Records::words_for))]
fn named(records: &[u32], i: usize) -> Command
    requires { words_for (i + 1) ≤ length records.now }
    ensures is { result ≡ command_named records.now i }
    ensures small { Recordable result }
{
    command(records[2 * i], records[2 * i + 1])
}

// The position behind a command.
fn behind(c: Command) -> usize
    requires { Recordable c }
    ensures { result ≡ behind c }
{
    c.index + c.length
}

// The kept position after a command.
#[tactic(auto, unfolding(crate::specs::Causes::kept_by))]
fn kept_by(kept: usize, c: Command) -> usize
    requires { Recordable c }
    ensures { result ≡ kept_by kept c }
{
    if c.level == 0 { behind(c) } else { kept }
}

// The kept position after the commands of the first records.
fn kept_after(records: &[u32], count: usize) -> usize
    requires { words_for count ≤ length records.now }
    ensures { result ≡ kept_after 0 (commands_in (take (words_for count) records.now)) }
{
    let mut kept = 0;
    for i in 0..count {
        kept = kept_by(kept, named(records, i));
    }
    kept
}

// Where a command leads. (d) The batch and its address go through two functions only: a struct for them would be longer.
#[tactic(auto, using(crate::proofs::Leading::address_behind), unfolding(crate::specs::Causes::leads_to))]
fn leads_to(batch: &[u32], batch_at: u64, kept: usize, c: Command) -> usize
    requires { Recordable c }
    ensures { result ≡ leads_to batch.now batch_at kept c }
{
    match c.row {
        END_ROW => kept,
        START_ROW => {
            let low = dword(batch, c.index + 1);
            let high = dword(batch, c.index + 2);
            dword_of(batch_at, address_of(low, high))
        }
        _ => behind(c),
    }
}

// Where the walk stands after the commands of the first records: where the last of them leads.
fn position(batch: &[u32], batch_at: u64, records: &[u32], count: usize) -> usize
    requires { words_for count ≤ length records.now }
    ensures { result ≡ position_after batch.now batch_at records.now count }
{
    if count == 0 {
        return 0;
    }
    let last = count - 1;
    leads_to(
        batch,
        batch_at,
        kept_after(records, last),
        named(records, last),
    )
}

// Which dword of its group the dword k of a command is. (d) `checked_sub` and `checked_rem` in place of the two tests would hide which case is which.
#[tactic(auto, unfolding(rules::specs::Words::in_group))]
fn spot(row: usize, k: usize) -> usize
    ensures { result ≡ spot row k }
{
    let size = group_size(row);
    if k == 0 {
        return 0;
    }
    if size == 0 {
        return k;
    }
    1 + (k - 1) % size
}

// What a command reaches with its dword k.
#[tactic(auto, unfolding(crate::specs::Causes::reach_with, rules::specs::Uses::access_at))]
fn reach(row: usize, command: &[u32], k: usize) -> Detail
    requires { k < length command.now }
    ensures { result ≡ reach_with row command.now k }
{
    match access_of(row, command, k, spot(row, k)) {
        Access::Reaches(bytes, within) => Detail::Reach(row, address_at(command, k), bytes, within),
        Access::Unused | Access::NoRange => Detail::NoMore,
    }
}

// What the command at a position reaches with its dword k.
fn reach_at(batch: &[u32], at: usize, k: usize) -> Detail
    ensures { result ≡ reach_at batch.now at k }
{
    let header = dword(batch, at);
    let row = row_of(header);
    let long = length_of(row, header);
    if batch.len().saturating_sub(at) < long || long <= k {
        return Detail::NoMore;
    }
    reach(row, &batch[at..at + long], k)
}

// Whether a reason, by its number, is about a command, which has a name: 8 to 17.
#[tactic(auto, unfolding(crate::specs::Causes::of_command))]
fn of_command(reason: u32) -> bool
    ensures { result ≡ of_command reason }
{
    (8..18).contains(&reason)
}

// What happened at a position. (a) An answer tells its reason by the number that the C interface has.
#[tactic(auto, unfolding(crate::specs::Causes::detail_at, rules::specs::Refusals::number_of))]
fn detail_at(batch: &[u32], at: usize, answer: Answer) -> Detail
    ensures { result ≡ detail_at batch.now at answer }
{
    if answer.reason == Reason::RangeOutside.into() {
        return reach_at(batch, at, (answer.index as usize).saturating_sub(at));
    }
    if of_command(answer.reason) {
        return Detail::InCommand(row_of(dword(batch, at)));
    }
    Detail::NoMore
}

// What happened at a refused command, by the batch, its address, the records and the answer.
pub fn cause(batch: &[u32], batch_at: u64, records: &[u32], answer: Answer) -> Detail
    requires { words_for answer.count ≤ length records.now }
    ensures { result ≡ cause_of batch.now batch_at records.now answer }
{
    let at = position(batch, batch_at, records, answer.count as usize);
    detail_at(batch, at, answer)
}
