// What a run leaves: the record of a command, written to its two words, and in `answers` the answer.
#![tactic(auto)]

ghost use Rattle.std.specs.Prelude.{◌≡◌, ◌<◌, length, set};
ghost use Rattle.rules.specs.Records.{Recordable, first_word, second_word};

use rules::Command;

pub mod answers;

// The first word of a command's record: where it stands, and its level, which is given beside it, as the loop has it at hand.
#[tactic(auto, unfolding(rules::specs::Records::first_word))]
fn first_word(level: usize, c: Command) -> u32
    requires { (Recordable c) × (level ≡ c.level) }
    ensures { result ≡ first_word c }
{
    (c.index + 0x1_0000 * level) as u32
}

// The second: how long it is, and its row.
#[tactic(auto, unfolding(rules::specs::Records::second_word))]
fn second_word(c: Command) -> u32
    requires { Recordable c }
    ensures { result ≡ second_word c }
{
    (0x1_0000 * c.length + 0x100_0000 * c.row) as u32
}

// Writes the record of a command to the first two words of what is left of the record buffer.
pub fn write_record(tail: &mut [u32], level: usize, c: Command)
    requires { (1 < length tail.old) × (Recordable c) × (level ≡ c.level) }
    ensures { tail.new ≡ set (set tail.old 0 (first_word c)) 1 (second_word c) }
{
    let first = first_word(level, c);
    let second = second_word(c);
    tail[0] = first;
    tail[1] = second;
}
